// A place in a tile with the next bits at hand, so that short code words are cut out of a word without a load.
ghost use Rattle.std.specs.Prelude.{◌+◌, ◌^◌, ◌<◌, ◌≤◌};

use super::width::Code;
use super::{Cursor, bits};

// Numbers that stand for differences are counted modulo this.
const MODULUS: u64 = 0x1_0000_0000;

// The highest `count` bits held are the tile's from the place `bit` on, the others are 0.
#[derive(Clone, Copy)]
pub struct Ahead {
    pub bit: usize,
    pub held: u64,
    pub count: usize,
    ghost few: { count ≤ 64 },
    ghost near: { bit + count < 2 ^ 32 },
}

// Each function stands in the `impl`, which has imports of its own: those of the file are also the ghost fields', and may not name Ahead.
impl Ahead {
    ghost use Rattle.std.specs.Prelude.{◌≡◌, List, ℕ, ◌+◌, ◌^◌, ◌<◌, ◌≤◌, length};
    ghost use Rattle.rice.specs.Tile.{bits_in};
    ghost use Rattle.rice.specs.Reads.{diff_read, most_bytes};
    ghost use Rattle.rice.specs.Held.{Bare, Past, Holds, Found, Gives, CodeFits};

    // Nothing is held.
    pub(crate) fn bare(bit: usize) -> Ahead
        requires { bit < 2 ^ 32 }
        ensures { Bare bit result }
    {
        Ahead {
            bit,
            held: 0,
            count: 0,
        }
    }

    // As much is held as a word takes; nothing near the tile's end.
    fn full(bit: usize, tile: &[u8]) -> Ahead
        requires { (length tile.now ≤ most_bytes) × (bit ≤ bits_in tile.now) }
        ensures { (result.bit ≡ bit) × Holds tile.now result }
    {
        if tile.len() < bit / 8 + 8 {
            return Self::bare(bit);
        }
        Ahead {
            bit,
            held: bits::window(tile, bit),
            count: 64 - bit % 8,
        }
    }

    // ---- the next difference, wherever its bits stand, and what is ahead after it; none where the tile ends before its bits

    // In n bits.
    fn far_raw(bit: usize, tile: &[u8], n: usize) -> Option<(u64, Ahead)>
        requires { (length tile.now ≤ most_bytes) × (n ≤ 32) }
        ensures { Gives tile.now (diff_read (Code.Raw n) tile.now bit) result }
    {
        let cursor = Cursor {
            bit,
            done: 0,
            last: 0,
        };
        let (u, next) = cursor.take_bits(tile, n)?;
        Some((u, Self::bare(next.bit)))
    }

    // In n zeros, a one and fs bits.
    fn far_split(bit: usize, tile: &[u8], fs: usize) -> Option<(u64, Ahead)>
        requires { (length tile.now ≤ most_bytes) × (fs ≤ 24) }
        ensures { Gives tile.now (diff_read (Code.Split fs) tile.now bit) result }
    {
        let cursor = Cursor {
            bit,
            done: 0,
            last: 0,
        };
        let (n, after) = cursor.skip_zeros(tile)?;
        let (rest, end) = after.take_bits(tile, fs)?;
        let value = (n << fs) + rest;
        Some((value % MODULUS, Self::bare(end.bit)))
    }

    fn far(bit: usize, tile: &[u8], code: Code) -> Option<(u64, Ahead)>
        requires { (length tile.now ≤ most_bytes) × (bit ≤ bits_in tile.now) × CodeFits code }
        ensures { Gives tile.now (diff_read code tile.now bit) result }
    {
        match code {
            Code::Same => Some((0, Self::bare(bit))),
            Code::Raw(n) => Self::far_raw(bit, tile, n),
            Code::Split(fs) => Self::far_split(bit, tile, fs),
        }
    }

    // What is ahead after so many of the bits held.
    fn past(self, used: usize) -> Self
        requires { (used ≤ self.count) × (used < 64) }
        ensures { Past self used result }
    {
        Ahead {
            bit: self.bit + used,
            held: self.held << used,
            count: self.count - used,
        }
    }

    // ---- the next difference, where all of its bits are held

    // In n bits.
    fn held_raw(self, n: usize) -> Option<(u64, Ahead)>
        requires { n ≤ 32 }
        ensures { (s : List ℕ) → Holds s self → Found s (diff_read (Code.Raw n) s self.bit) result }
    {
        if n <= self.count {
            let value = self.held >> 1 >> (63 - n);
            Some((value, self.past(n)))
        } else {
            None
        }
    }

    // In n zeros, a one and fs bits.
    fn held_split(self, fs: usize) -> Option<(u64, Ahead)>
        requires { fs ≤ 24 }
        ensures { (s : List ℕ) → Holds s self → Found s (diff_read (Code.Split fs) s self.bit) result }
    {
        let n = u64::leading_zeros(self.held) as usize;
        let used = n + 1 + fs;
        if used < self.count {
            let rest = self.held >> (64 - used) & (1 << fs) - 1;
            let value = (n << fs) as u64 + rest;
            Some((value, self.past(used)))
        } else {
            None
        }
    }

    fn held_one(self, code: Code) -> Option<(u64, Ahead)>
        requires { CodeFits code }
        ensures { (s : List ℕ) → Holds s self → Found s (diff_read code s self.bit) result }
    {
        match code {
            Code::Same => Some((0, self)),
            Code::Raw(n) => self.held_raw(n),
            Code::Split(fs) => self.held_split(fs),
        }
    }

    // The next number that stands for a difference: from the bits held, from a word held afresh, or from the tile.
    pub(crate) fn difference(self, tile: &[u8], code: Code) -> Option<(u64, Ahead)>
        requires { (length tile.now ≤ most_bytes) × Holds tile.now self × CodeFits code }
        ensures { Gives tile.now (diff_read code tile.now self.bit) result }
    {
        let held = self.held_one(code);
        let None = held else {
            return held;
        };
        let bit = self.bit;
        let fresh = Self::full(bit, tile).held_one(code);
        let None = fresh else {
            return fresh;
        };
        Self::far(bit, tile, code)
    }
}
