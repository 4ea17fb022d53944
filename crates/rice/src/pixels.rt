// The pixels of a block, from the numbers that stand for its differences.
ghost use Rattle.std.specs.Prelude.{◌≡◌, ◌+◌, ◌*◌, ◌/◌, ◌^◌, ◌<◌, ◌≤◌, ℕ, List, length, set};
ghost use Rattle.rice.specs.Tile.{field_at};
ghost use Rattle.rice.specs.Widths.{bits_of, start_bytes, following};
ghost use Rattle.rice.specs.Reads.{most_bytes};
ghost use Rattle.rice.specs.Held.{CodeFits};
ghost use Rattle.rice.specs.Words.{FourAt};
ghost use Rattle.rice.specs.Filling.{raised, Inside, Onward, CameTo, RawTo, spot_at};

use super::ahead::Ahead;
use super::width::{Code, Scale};
use super::words::Four;
use super::{bits, words};

// Where the filling of a block stands: the place of the next number, the last pixel counted from the lowest one, and the next pixel.
// That it stands within its tile, width and part (`Inside`) is a clause: a spot holds none of the three.
#[derive(Clone, Copy)]
pub struct Spot {
    pub bit: usize,
    pub level: u64,
    pub next: usize,
}

impl Scale {
    // The pixel that follows is stored; it is answered, counted from the lowest one.
    pub(crate) fn store(self, level: u64, u: u64, part: &mut [i32], i: usize) -> u64
        requires { (level < 2 ^ bits_of self.width) × (u < 2 ^ 32) × (i < length part.old) }
        ensures upper_bound { (result < 2 ^ bits_of self.width)
            × (raised self.width result ≡ following self.width (raised self.width level) u) }
        ensures part_after { part.new ≡ set part.old i (raised self.width result) }
    {
        let next = self.next(level, u);
        let pixel = self.pixel(next);
        part[i] = pixel;
        next
    }

    // Four pixels are stored.
    fn store_four(self, start: Spot, four: Four, part: &mut [i32]) -> Spot
        requires at_hand { (start.level < 2 ^ bits_of self.width) × (start.next + 4 ≤ length part.old) }
        requires a_bound { (four.a < 2 ^ 32) × (four.b < 2 ^ 32) × (four.c < 2 ^ 32) × (four.d < 2 ^ 32)
            × (length part.old < 2 ^ 32) }
        ensures by_index { (s : List ℕ) (fs : ℕ) → FourAt s start.bit fs four
            → Onward self.width (Code.Split fs) s part.old part.new start result }
        ensures next_value { result.next ≡ start.next + 4 }
    {
        let i = start.next;
        let p = self.store(start.level, four.a, part, i);
        let q = self.store(p, four.b, part, i + 1);
        let r = self.store(q, four.c, part, i + 2);
        let level = self.store(r, four.d, part, i + 3);
        Spot {
            bit: four.end,
            level,
            next: i + 4,
        }
    }

    // Fours of code words, as many as come. No chunks: it is left in the middle, and says where.
    fn fours(self, tile: &[u8], fs: usize, start: Spot, part: &mut [i32]) -> Spot
        requires tile_len_bound { (length tile.now ≤ most_bytes) × (fs ≤ 24) × (length part.old < 2 ^ 32) }
        requires inside { Inside self.width tile.now part.old start }
        ensures { Onward self.width (Code.Split fs) tile.now part.old part.new start result }
    {
        let mut at = start;
        while 4 <= part.len() - at.next {
            let Some(four) = words::next_words(at.bit, tile, fs) else {
                return at;
            };
            at = self.store_four(at, four, part);
        }
        at
    }

    // The pixels of a block of code words: fours of them, and what is left one by one.
    pub(crate) fn split_block(
        self,
        tile: &[u8],
        fs: usize,
        start: Spot,
        part: &mut [i32],
    ) -> Result<Spot, usize>
        requires tile_len_bound { (length tile.now ≤ most_bytes) × (fs ≤ 24) × (length part.old < 2 ^ 32) }
        requires inside { Inside self.width tile.now part.old start }
        ensures { CameTo self.width (Code.Split fs) tile.now part.old part.new start result }
    {
        let at = self.fours(tile, fs, start, part);
        if at.next < part.len() {
            return self.each(tile, Code::Split(fs), at, part);
        }
        Ok(at)
    }

    // The pixels of a block from a spot on, one by one: the spot at the block's end; or the tile ends, after so many pixels.
    pub(crate) fn each(
        self,
        tile: &[u8],
        code: Code,
        start: Spot,
        part: &mut [i32],
    ) -> Result<Spot, usize>
        requires tile_len_bound { (length tile.now ≤ most_bytes) × CodeFits code × (length part.old < 2 ^ 32) }
        requires inside { Inside self.width tile.now part.old start }
        ensures { CameTo self.width code tile.now part.old part.new start result }
    {
        let mut a = Ahead::bare(start.bit);
        let mut level = start.level;
        for i in start.next..part.len() {
            let Some((u, next)) = a.difference(tile, code) else {
                return Err(i);
            };
            level = self.store(level, u, part, i);
            a = next;
        }
        Ok(Spot {
            bit: a.bit,
            level,
            next: part.len(),
        })
    }

    // The number of the width's bits at `lead` bits after byte k.
    fn raw_at(self, tile: &[u8], k: usize, lead: usize) -> u64
        requires { (k + 8 ≤ length tile.now) × (lead < 8) }
        ensures { result ≡ field_at tile.now (k * 8 + lead) (bits_of self.width) }
    {
        bits::whole_word(tile, k) >> (64 - self.width.bits() - lead) & self.mask
    }

    // The pixels of a raw block of which every number, and eight bytes from its first on, are within the tile.
    // The last pixel is answered, counted from the lowest one. Two a turn, by index: each pixel follows from the one before it.
    pub(crate) fn raw_block(self, tile: &[u8], start: u64, bit: usize, part: &mut [i32]) -> u64
        requires tile_len_bound { (length tile.now ≤ most_bytes) × (start < 2 ^ bits_of self.width) }
        requires part_in_bounds { bit / 8 + start_bytes self.width * length part.old + 8 ≤ length tile.now }
        ensures { RawTo self.width tile.now part.old part.new (spot_at bit start) result }
    {
        let size = self.width.start_bytes();
        let lead = bit % 8;
        let mut k = bit / 8;
        let mut level = start;
        let mut i = 0;
        while 2 <= part.len() - i {
            let a = self.raw_at(tile, k, lead);
            let first = self.store(level, a, part, i);
            let b = self.raw_at(tile, k + size, lead);
            level = self.store(first, b, part, i + 1);
            k += size * 2;
            i += 2;
        }
        if i < part.len() {
            let a = self.raw_at(tile, k, lead);
            level = self.store(level, a, part, i);
        }
        level
    }
}
