// One tile of Rice-coded pixels, decoded whole or block by block (SPECIFICATION 12; FITS Standard 10.4.1).
#![tactic(auto)]

ghost use Rattle.std.specs.Prelude.{◌≡◌, true, replicate, ◌+◌, ◌^◌, ◌<◌, ◌≤◌, min, length};
ghost use Rattle.rice.specs.Tile.{bits_in};
ghost use Rattle.rice.specs.Widths.{in_width};
ghost use Rattle.rice.specs.Reads.{moved, take_of, skip_of, most_bytes};
ghost use Rattle.rice.specs.Held.{CodeFits};
ghost use Rattle.rice.specs.Easy.{Standing, Reaches, StandingIn, ReachesIn, steps_in};
ghost use Rattle.rice.specs.Blocks.{broken, coded, block_of};
ghost use Rattle.rice.specs.Steps.{plan_of, stands, step_of, open_of, decode_of};

mod ahead; // a cursor with the next bits at hand
mod bits; // fields of bits and runs of zeros
mod pixels; // the pixels of a block
mod width; // the three widths
mod words; // several code words at a time

use pixels::Spot;
use refusal::{Fault, Refusal, fault_of};
use width::{Code, Scale, Width};

// The most pixels of a tile and of a block, bytes of a tile, and bits that are taken at once.
pub const MOST_PIXELS: usize = 1_048_576;

pub const MOST_BLOCK: usize = 65_536;

// That a tile is not longer, and a part shorter than 2^32, is a clause of private functions, and no ghost field of a struct round the
// slice: each clause on its bytes would then read `tile.entry.bytes.now` for `tile.now`.
pub const MOST_BYTES: usize = 8_388_608;

pub const MOST_BITS: usize = 32;

// The place of the next block's first bit, how many pixels are done, and the last of them.
#[derive(Clone, Copy)]
pub struct Cursor {
    pub bit: usize,
    pub done: usize,
    pub last: i32,
}

// A refusal, after so many pixels.
#[derive(Clone, Copy)]
pub struct Broken {
    pub fault: Fault,
    pub written: usize,
}

// A refusal before any pixel.
impl From<Fault> for Broken {
    ghost from_gives = { λ fault broken. broken ≡ record { fault = fault; written = 0 } };

    fn from(fault: Fault) -> Self {
        Broken { fault, written: 0 }
    }
}

// How a tile is laid out: the width, the number of pixels, and that of a block's.
#[derive(Clone, Copy)]
struct Layout {
    scale: Scale,
    nx: usize,
    nblock: usize,
}

// The cursor at the first block of a tile.
pub fn open(tile: &[u8], nx: usize, nblock: usize, bits: usize) -> Result<Cursor, Fault>
    ensures { result ≡ open_of tile.now nx nblock bits }
{
    let Some(width) = plan(tile.len(), nx, nblock, bits) else {
        return Err(fault_of(Refusal::Limits));
    };
    let n = width.start_bytes() * 8;
    if n <= tile.len() * 8 {
        let last = width.pixel(bits::field(tile, 0, n));
        Ok(Cursor {
            bit: n,
            done: 0,
            last,
        })
    } else {
        Err(fault_of(Refusal::TileEnds))
    }
}

// A tile decoded whole: the bits used.
pub fn decode(
    tile: &[u8],
    nx: usize,
    nblock: usize,
    bits: usize,
    pixels: &mut [i32],
) -> Result<usize, Broken>
    ensures value { result ≡ (decode_of tile.now nx nblock bits pixels.old).answer }
    ensures pixels_after { pixels.new ≡ (decode_of tile.now nx nblock bits pixels.old).content }
{
    let Some(width) = plan(tile.len(), nx, nblock, bits) else {
        return Err(refused(Refusal::Limits, 0));
    };
    if pixels.len() != nx {
        return Err(refused(Refusal::PixelCount, 0));
    }
    let start = open(tile, nx, nblock, bits)?;
    let scale = width.scale();
    start.run(tile, Layout { scale, nx, nblock }, pixels)
}

impl Cursor {
    // The next n bits, and the cursor after them; none where they cannot be had.
    #[tactic(auto, unfolding(crate::specs::Reads::take_of, crate::specs::Reads::field_read))]
    pub fn take_bits(self, tile: &[u8], n: usize) -> Option<(u64, Cursor)>
        ensures { result ≡ take_of tile.now self n }
    {
        if MOST_BYTES < tile.len() {
            return None;
        }
        if MOST_BITS < n {
            return None;
        }
        let bit = self.bit;
        let total = tile.len() * 8;
        if total < bit {
            return None;
        }
        if total - bit < n {
            return None;
        }
        Some((bits::field(tile, bit, n), self.at(bit + n)))
    }

    // Past the zeros that come next and the one after them, with the number of zeros; none where no one comes.
    #[tactic(auto, using(crate::proofs::Reading::run_past), unfolding(crate::specs::Reads::skip_of, crate::specs::Reads::run_read))]
    pub fn skip_zeros(self, tile: &[u8]) -> Option<(u64, Cursor)>
        ensures { result ≡ skip_of tile.now self }
    {
        if MOST_BYTES < tile.len() {
            return None;
        }
        let bit = self.bit;
        let total = tile.len() * 8;
        if total < bit {
            return None;
        }
        let left = total - bit;
        let n = bits::zeros(tile, bit, left);
        if n < left {
            Some((n as u64, self.at(bit + n + 1)))
        } else {
            None
        }
    }

    // One block, from the cursor, into the pixels from the cursor's place on: the cursor at the next block, or none where nothing is left.
    pub fn step(
        self,
        tile: &[u8],
        nx: usize,
        nblock: usize,
        bits: usize,
        pixels: &mut [i32],
    ) -> Result<Option<Cursor>, Broken>
        ensures value { result ≡ (step_of tile.now nx nblock bits self pixels.old).answer }
        ensures pixels_after { pixels.new ≡ (step_of tile.now nx nblock bits self pixels.old).content }
    {
        let Some(width) = plan(tile.len(), nx, nblock, bits) else {
            return Err(refused(Refusal::Limits, 0));
        };
        if pixels.len() != nx {
            return Err(refused(Refusal::PixelCount, 0));
        }
        if !self.stands(tile, width, nx, nblock) {
            return Err(refused(Refusal::BadCursor, 0));
        }
        let done = self.done;
        if done == nx {
            return Ok(None);
        }
        let end = block_end(done, nx, nblock);
        self.block(tile, width.scale(), &mut pixels[done..end])
    }

    // The cursor at another place.
    fn at(self, bit: usize) -> Self
        ensures { result ≡ moved self bit }
    {
        Cursor { bit, ..self }
    }

    // Block after block, to the end. The cursor keeps its rules all the way, so they are not tested again. No `for`: a turn takes one
    // block or many.
    fn run(self, tile: &[u8], layout: Layout, pixels: &mut [i32]) -> Result<usize, Broken>
        requires { StandingIn layout tile.now self pixels.old }
        ensures value { result ≡ (steps_in layout tile.now self pixels.old).answer }
        ensures pixels_after { pixels.new ≡ (steps_in layout tile.now self pixels.old).content }
    {
        let nx = layout.nx;
        let mut c = self;
        while c.done < nx {
            let done = c.done;
            let easy = c.easy(tile, layout, pixels);
            if done < easy.done {
                c = easy;
            } else {
                let end = block_end(done, nx, layout.nblock);
                match easy.block(tile, layout.scale, &mut pixels[done..end]) {
                    Ok(Some(next)) => {
                        c = next;
                    }
                    Err(Broken { fault, written }) => {
                        let all = done + written;
                        return Err(Broken {
                            fault,
                            written: all,
                        });
                    }
                    Ok(None) => {
                        return Ok(easy.bit);
                    }
                }
            }
        }
        Ok(c.bit)
    }

    // As many whole blocks as can be had at once by what the next FS field says; the cursor itself, where none can.
    fn easy(self, tile: &[u8], layout: Layout, pixels: &mut [i32]) -> Self
        requires { StandingIn layout tile.now self pixels.old }
        ensures { ReachesIn layout tile.now self pixels.old result pixels.new }
    {
        let bit = self.bit;
        if tile.len() < bit / 8 + 8 {
            return self;
        }
        let field = bits::window(tile, bit) >> (64 - layout.scale.width.fs_bits());
        if field == 0 {
            return self.levels(tile, layout, pixels);
        }
        if layout.scale.width.fs_top() < field {
            return self.raws(tile, layout, pixels);
        }
        if layout.nblock == 1 {
            return self.ones(tile, layout, pixels);
        }
        self.splits(tile, layout, pixels)
    }

    // Blocks whose differences are all 0: as many as there are FS fields of zeros.
    fn levels(self, tile: &[u8], layout: Layout, pixels: &mut [i32]) -> Self
        requires { StandingIn layout tile.now self pixels.old }
        ensures { ReachesIn layout tile.now self pixels.old result pixels.new }
    {
        let bit = self.bit;
        let done = self.done;
        let size = layout.scale.width.fs_bits();
        let left = layout.nx - done;
        let zeros = bits::zeros(tile, bit, (tile.len() * 8 - bit).min(left * size));
        let many = (zeros / size).min(left / layout.nblock);
        let end = done + many * layout.nblock;
        pixels[done..end].fill(self.last);
        Cursor {
            bit: bit + many * size,
            done: end,
            last: self.last,
        }
    }

    // Raw blocks, as many as come with eight bytes of the tile at each number. No chunks, here and below: where the loop is left, the
    // cursor says how far it came.
    fn raws(self, tile: &[u8], layout: Layout, pixels: &mut [i32]) -> Self
        requires { StandingIn layout tile.now self pixels.old }
        ensures { ReachesIn layout tile.now self pixels.old result pixels.new }
    {
        let Layout { scale, nx, nblock } = layout;
        let width = scale.width;
        let size = width.fs_bits();
        let raw = width.fs_top() + 1;
        let mut bit = self.bit;
        let mut done = self.done;
        let mut level = scale.level_of(self.last);
        'raws: while nblock <= nx - done {
            if tile.len() < bit / 8 + width.start_bytes() * nblock + 9 {
                break 'raws;
            }
            if bits::window(tile, bit) >> (64 - size) != raw {
                break 'raws;
            }
            let end = done + nblock;
            bit += size;
            level = scale.raw_block(tile, level, bit, &mut pixels[done..end]);
            bit += width.bits() * nblock;
            done = end;
        }
        scale.cursor(bit, done, level)
    }

    // Blocks of one pixel each, as many as come with their code word in one window.
    fn ones(self, tile: &[u8], layout: Layout, pixels: &mut [i32]) -> Self
        requires { Standing layout.scale.width tile.now layout.nx 1 self pixels.old }
        ensures { Reaches layout.scale.width tile.now layout.nx 1 self pixels.old result pixels.new }
    {
        let Layout { scale, nx, .. } = layout;
        let size = scale.width.fs_bits();
        let top = scale.width.fs_top();
        let mut bit = self.bit;
        let mut level = scale.level_of(self.last);
        'ones: for done in self.done..nx {
            let Some((u, end)) = scale.width.next_one(size, top, bit, tile) else {
                return scale.cursor(bit, done, level);
            };
            level = scale.store(level, u, pixels, done);
            bit = end;
        }
        scale.cursor(bit, nx, level)
    }

    // Blocks of code words, as many as come before the tile's end. A block in which the tile ends is left to be filled again.
    fn splits(self, tile: &[u8], layout: Layout, pixels: &mut [i32]) -> Self
        requires { StandingIn layout tile.now self pixels.old }
        ensures { ReachesIn layout tile.now self pixels.old result pixels.new }
    {
        let Layout { scale, nx, nblock } = layout;
        let size = scale.width.fs_bits();
        let top = scale.width.fs_top();
        let mut bit = self.bit;
        let mut done = self.done;
        let mut level = scale.level_of(self.last);
        'splits: while nblock <= nx - done {
            if tile.len() < bit / 8 + 8 {
                break 'splits;
            }
            let field = bits::window(tile, bit) >> (64 - size);
            if field == 0 {
                break 'splits;
            }
            if top < field {
                break 'splits;
            }
            let end = done + nblock;
            let start = Spot {
                bit: bit + size,
                level,
                next: 0,
            };
            let fs = field - 1;
            let Ok(at) = scale.split_block(tile, fs as usize, start, &mut pixels[done..end]) else {
                break 'splits;
            };
            bit = at.bit;
            level = at.level;
            done = end;
        }
        scale.cursor(bit, done, level)
    }

    // Whether the cursor keeps its rules.
    #[tactic(auto, unfolding(crate::specs::Steps::stands))]
    fn stands(self, tile: &[u8], width: Width, nx: usize, nblock: usize) -> bool
        requires { (length tile.now ≤ most_bytes) × (0 < nblock) }
        ensures { result ≡ stands width tile.now nx nblock self }
    {
        width.start_bytes() * 8 <= self.bit
            && self.bit <= tile.len() * 8
            && self.done <= nx
            && (self.done == nx || self.done % nblock == 0)
            && width.holds(self.last)
    }

    // One block: its FS field, and its pixels into the part that is lent for them.
    fn block(self, tile: &[u8], scale: Scale, part: &mut [i32]) -> Result<Option<Cursor>, Broken>
        requires { (length tile.now ≤ most_bytes) × (in_width scale.width self.last ≡ true)
            × (self.done + length part.old < 2 ^ 32) }
        ensures value { result ≡ (block_of scale.width tile.now self part.old).answer }
        ensures part_after { part.new ≡ (block_of scale.width tile.now self part.old).content }
    {
        let Some((field, start)) = self.take_bits(tile, scale.width.fs_bits()) else {
            return Err(refused(Refusal::TileEnds, 0));
        };
        let Some(code) = scale.width.code(field) else {
            return Err(refused(Refusal::FsAboveTop, 0));
        };
        let Code::Same = code else {
            return start.fill(tile, scale, code, part);
        };
        Ok(Some(start.level(part)))
    }

    // The pixels of a block whose differences are all 0.
    fn level(self, part: &mut [i32]) -> Self
        requires { self.done + length part.old < 2 ^ 32 }
        ensures value { result ≡ record { bit = self.bit; done = self.done + length part.old; last = self.last } }
        ensures part_after { part.new ≡ replicate (length part.old) self.last }
    {
        part.fill(self.last);
        Cursor {
            bit: self.bit,
            done: self.done + part.len(),
            last: self.last,
        }
    }

    // The pixels of a block, into the part that is lent for them.
    fn fill(
        self,
        tile: &[u8],
        scale: Scale,
        code: Code,
        part: &mut [i32],
    ) -> Result<Option<Cursor>, Broken>
        requires tile_len_bound { (length tile.now ≤ most_bytes) × (self.bit ≤ bits_in tile.now) × CodeFits code }
        requires last_value { (in_width scale.width self.last ≡ true) × (self.done + length part.old < 2 ^ 32) }
        ensures value { result ≡ (coded scale.width tile.now self part.old (Some code)).answer }
        ensures part_after { part.new ≡ (coded scale.width tile.now self part.old (Some code)).content }
    {
        let start = Spot {
            bit: self.bit,
            level: scale.level_of(self.last),
            next: 0,
        };
        match scale.each(tile, code, start, part) {
            Err(written) => Err(refused(Refusal::TileEnds, written)),
            Ok(at) => {
                let done = self.done + part.len();
                Ok(Some(scale.cursor(at.bit, done, at.level)))
            }
        }
    }
}

// A refusal, after so many pixels.
fn refused(why: Refusal, written: usize) -> Broken
    ensures { result ≡ broken why written }
{
    Broken {
        fault: fault_of(why),
        written,
    }
}

// The width, where the tile's length, nx, nblock and the width are within their limits.
#[tactic(auto, unfolding(crate::specs::Steps::plan_of, crate::specs::Steps::in_limits))]
fn plan(len: usize, nx: usize, nblock: usize, bits: usize) -> Option<Width>
    ensures { result ≡ plan_of len nx nblock bits }
{
    if 1 <= nx && nx <= MOST_PIXELS && 1 <= nblock && nblock <= MOST_BLOCK && len <= MOST_BYTES {
        width::width_of(bits)
    } else {
        None
    }
}

// Where the block that starts at pixel `done` ends.
fn block_end(done: usize, nx: usize, nblock: usize) -> usize
    requires { done ≤ nx }
    ensures { result ≡ min (done + nblock) nx }
{
    if nx - done < nblock {
        nx
    } else {
        done + nblock
    }
}
