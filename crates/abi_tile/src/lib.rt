// A tile as the C boundary gives it: its cursor and its counts in numbers.
#![tactic(auto)]

ghost use Rattle.laws.specs.Lending.{lent_of};
ghost use Rattle.abi_tile.specs.Tiles.{cursor_in, OpenLeft, StepLeft, DecodeLeft};

use rice::{Broken, Cursor};

// The answer to a step where nothing is left: no refusal has this number.
pub const NOTHING_LEFT: u8 = 254;

// Opens a tile. Answers 0, with the cursor; or the refusal's number, and the cursor stays as it is.
pub fn open_into(
    tile: &[u8],
    nx: usize,
    nblock: usize,
    bits: usize,
    bit: &mut usize,
    done: &mut usize,
    last: &mut i32,
) -> u8
    ensures { OpenLeft tile.now nx nblock bits (cursor_in bit done last) result }
{
    match rice::open(tile, nx, nblock, bits) {
        Ok(c) => {
            let b = c.bit;
            let d = c.done;
            let l = c.last;
            *bit = b;
            *done = d;
            *last = l;
            0
        }
        Err(fault) => fault.number(),
    }
}

// One step from a cursor. Answers 0, with the cursor at the next block; 254 where nothing is left; or the refusal's number,
// with the number of pixels of the step that were written. Whatever is not named stays as it is.
pub fn step_into(
    tile: &[u8],
    nx: usize,
    nblock: usize,
    bits: usize,
    bit: &mut usize,
    done: &mut usize,
    last: &mut i32,
    pixels: &mut [i32],
    written: &mut usize,
) -> u8
    ensures { StepLeft tile.now nx nblock bits (cursor_in bit done last) (lent_of pixels) (lent_of written) result }
{
    let b = *bit;
    let d = *done;
    let l = *last;
    let c = Cursor {
        bit: b,
        done: d,
        last: l,
    };
    match c.step(tile, nx, nblock, bits, pixels) {
        Ok(None) => NOTHING_LEFT,
        Ok(Some(n)) => {
            let nb = n.bit;
            let nd = n.done;
            let nl = n.last;
            *bit = nb;
            *done = nd;
            *last = nl;
            0
        }
        Err(Broken { fault, written: n }) => {
            *written = n;
            fault.number()
        }
    }
}

// Decodes a tile whole. Answers 0, and the count is the bits used; or the refusal's number, and the count is the pixels written.
pub fn decode_into(
    tile: &[u8],
    nx: usize,
    nblock: usize,
    bits: usize,
    pixels: &mut [i32],
    count: &mut usize,
) -> u8
    ensures { DecodeLeft tile.now nx nblock bits (lent_of pixels) (lent_of count) result }
{
    match rice::decode(tile, nx, nblock, bits, pixels) {
        Ok(used) => {
            *count = used;
            0
        }
        Err(Broken { fault, written }) => {
            *count = written;
            fault.number()
        }
    }
}
