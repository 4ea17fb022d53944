// Code words that are cut out of one window of a tile, several at a time: nothing depends on the bits until all of them are cut.
ghost use Rattle.std.specs.Prelude.{◌≡◌, ◌+◌, ◌^◌, ◌≤◌, length};
ghost use Rattle.rice.specs.Widths.{fs_bits, fs_top};
ghost use Rattle.rice.specs.Reads.{most_bytes};
ghost use Rattle.rice.specs.Words.{Told, OneOf, TwoOf, FourOf};

use super::bits;
use super::width::Width;

// The bits that a window holds at least.
const HELD: usize = 57;

// Each code word's bits are counted with so many more.
const MORE: usize = 128;

// Up to this fs four code words mostly fit in a window.
const SHORT: usize = 10;

// The number of a code word, its bits and 128 more, and what follows it.
#[derive(Clone, Copy)]
pub struct Word {
    pub value: u64,
    pub used: usize,
    pub rest: u64,
}

// Four numbers that stand for differences, and the place after the last of them.
#[derive(Clone, Copy)]
pub struct Four {
    pub a: u64,
    pub b: u64,
    pub c: u64,
    pub d: u64,
    pub end: usize,
}

// The code word at the top of w. n ^ 63 is the number of the highest bit that is set, or 127 where none is: one subtraction from it gives
// the bits that are used, and no test is needed on the way.
fn top_word(w: u64, fs: usize, most: usize, scale: u64) -> Word
    requires { (fs ≤ 24) × (most ≡ 192 + fs) × (scale ≡ 2 ^ fs) }
    ensures { Told w fs result.value result.used result.rest }
{
    let n = u64::leading_zeros(w) as usize;
    let used = most - (n ^ 63);
    let one = w >> (256 - used) % 64;
    let value = one + n as u64 * scale - scale;
    Word {
        value,
        used,
        rest: w << used % 64,
    }
}

// Two numbers out of one window, and the place after them; none where they are not had so.
fn next_two(bit: usize, tile: &[u8], fs: usize) -> Option<(u64, u64, usize)>
    requires { (length tile.now ≤ most_bytes) × (fs ≤ 24) }
    ensures { TwoOf tile.now bit fs result }
{
    if tile.len() < bit / 8 + 8 {
        return None;
    }
    let scale = 1 << fs;
    let most = 192 + fs;
    let a = top_word(bits::window(tile, bit), fs, most, scale);
    let after = a.rest;
    let b = top_word(after, fs, most, scale);
    let used = a.used + b.used;
    if HELD + 2 * MORE < used {
        return None;
    }
    if after < 1 {
        return None;
    }
    Some((a.value, b.value, bit + used - 2 * MORE))
}

// Four numbers out of two windows.
fn next_pairs(bit: usize, tile: &[u8], fs: usize) -> Option<Four>
    requires { (length tile.now ≤ most_bytes) × (fs ≤ 24) }
    ensures { FourOf tile.now bit fs result }
{
    let (a, b, middle) = next_two(bit, tile, fs)?;
    let (c, d, end) = next_two(middle, tile, fs)?;
    Some(Four { a, b, c, d, end })
}

// Four numbers out of one window. A loop over two or four of them would test in each turn what is tested here once, at the end.
fn next_four(bit: usize, tile: &[u8], fs: usize) -> Option<Four>
    requires { (length tile.now ≤ most_bytes) × (fs ≤ 24) }
    ensures { FourOf tile.now bit fs result }
{
    if tile.len() < bit / 8 + 8 {
        return None;
    }
    let scale = 1 << fs;
    let most = 192 + fs;
    let a = top_word(bits::window(tile, bit), fs, most, scale);
    let b = top_word(a.rest, fs, most, scale);
    let c = top_word(b.rest, fs, most, scale);
    let after = c.rest;
    let d = top_word(after, fs, most, scale);
    let used = a.used + b.used + c.used + d.used;
    if HELD + 4 * MORE < used {
        return None;
    }
    if after < 1 {
        return None;
    }
    Some(Four {
        a: a.value,
        b: b.value,
        c: c.value,
        d: d.value,
        end: bit + used - 4 * MORE,
    })
}

// Four numbers.
pub(crate) fn next_words(bit: usize, tile: &[u8], fs: usize) -> Option<Four>
    requires { (length tile.now ≤ most_bytes) × (fs ≤ 24) }
    ensures { FourOf tile.now bit fs result }
{
    if SHORT < fs {
        next_pairs(bit, tile, fs)
    } else {
        next_four(bit, tile, fs)
    }
}

impl Width {
    // The number that stands for the difference in a block of one pixel, and the place after it, out of one window with its FS field, with
    // the width's numbers at hand. Raw ones are not had so.
    pub(crate) fn next_one(
        self,
        size: usize,
        top: u64,
        bit: usize,
        tile: &[u8],
    ) -> Option<(u64, usize)>
        requires { (length tile.now ≤ most_bytes) × (size ≡ fs_bits self) × (top ≡ fs_top self) }
        ensures { OneOf self tile.now bit result }
    {
        if tile.len() < bit / 8 + 8 {
            return None;
        }
        let w = bits::window(tile, bit);
        let field = w >> (64 - size);
        if field == 0 {
            return Some((0, bit + size));
        }
        if top < field {
            return None;
        }
        let fs = (field - 1) as usize;
        let after = w << size;
        if after < 1 {
            return None;
        }
        let a = top_word(after, fs, 192 + fs, 1 << fs);
        let used = size + a.used;
        if HELD + MORE < used {
            return None;
        }
        Some((a.value, bit + used - MORE))
    }
}
