// Reads stored tiles on standard input, one behind the other, decodes each whole and block by block, and prints three lines of it: the
// whole bytes used; the pixels; and the whole bytes used after each block. Where the tile is refused, the refusal's number and the
// number of pixels written stand in place of the bytes. The pixels are all that the lent slice then holds, the untouched ones too.
// The expected output is that of the published Rust (oracle/README.md).
// A stored tile is its width in a byte, then nx, nblock and the tile's length in three bytes each, the highest first, then the tile.
#![tactic(auto)]

ghost use Rattle.std.specs.Prelude.{◌≡◌, ◌+◌, ◌/◌};

use rice::{Broken, Cursor};
use std::io::Read;
use test_output::{put, put_number, put_pixels, put_space};

// The most pixels of a stored tile.
const PIXELS: usize = 256;

// What a pixel holds before a tile is decoded.
const UNTOUCHED: i32 = 77;

// More tiles than the list has.
const TILES: usize = 10000;

// The bytes in front of a stored tile.
const HEAD: usize = 10;

// The numbers in front of a stored tile.
#[derive(Clone, Copy)]
struct Stored {
    bits: usize,
    nx: usize,
    nblock: usize,
    len: usize,
}

fn main(rt: HostRuntime) {
    let mut input = rt.stdin();
    for _ in 0..TILES {
        let Some(t) = next_tile(&mut input) else {
            return;
        };
        replay(&rt, &mut input, t);
    }
}

// The next stored tile, or none where the list ends.
fn next_tile(input: &mut impl Read) -> Option<Stored> {
    let mut head = [0u8; HEAD];
    input.read_exact(&mut head).ok()?;
    Some(Stored {
        bits: usize::from(head[0]),
        nx: three(head[1], head[2], head[3]),
        nblock: three(head[4], head[5], head[6]),
        len: three(head[7], head[8], head[9]),
    })
}

// A number of three bytes, the highest first.
fn three(a: u8, b: u8, c: u8) -> usize {
    u32::from_be_bytes([0, a, b, c]) as usize
}

// A stored tile and its pixels, in fresh memory.
fn replay(rt: &impl Print, input: &mut impl Read, t: Stored) {
    let mut bytes = [0u8; 2000];
    let mut whole = [UNTOUCHED; 256];
    let mut parts = [UNTOUCHED; 256];
    put_tile(rt, input, t, &mut bytes, &mut whole, &mut parts);
}

// Reads a tile into lent memory and prints its three lines.
fn put_tile(
    rt: &impl Print,
    input: &mut impl Read,
    t: Stored,
    bytes: &mut [u8],
    whole: &mut [i32],
    parts: &mut [i32],
) {
    let len = t.len;
    let nx = t.nx;
    if bytes.len() < len {
        put(rt, b"too long\n");
        return;
    }
    if whole.len() < nx {
        put(rt, b"too many pixels\n");
        return;
    }
    if parts.len() < nx {
        put(rt, b"too many pixels\n");
        return;
    }
    let _ = input.read_exact(&mut bytes[..len]);
    let tile = &bytes[..len];
    put_whole(rt, tile, t, &mut whole[..nx]);
    put_blocks(rt, tile, t, &mut parts[..nx]);
    if *whole != *parts {
        put(rt, b" apart");
    }
    put(rt, b"\n");
}

// ---- whole

fn put_whole(rt: &impl Print, tile: &[u8], t: Stored, pixels: &mut [i32]) {
    put(rt, b"whole");
    match rice::decode(tile, t.nx, t.nblock, t.bits, pixels) {
        Ok(used) => put_bytes(rt, used),
        Err(broken) => put_refused(rt, broken),
    }
    put(rt, b"\npixels");
    put_pixels(rt, pixels);
    put(rt, b"\n");
}

// ---- block by block

fn put_blocks(rt: &impl Print, tile: &[u8], t: Stored, pixels: &mut [i32]) {
    put(rt, b"blocks");
    match rice::open(tile, t.nx, t.nblock, t.bits) {
        Err(fault) => put_refused(rt, fault.into()),
        Ok(start) => put_steps(rt, start, tile, t, pixels),
    }
}

// Step after step: a tile has no more blocks than pixels.
fn put_steps(rt: &impl Print, start: Cursor, tile: &[u8], t: Stored, pixels: &mut [i32]) {
    let mut c = start;
    for _ in 0..PIXELS + 1 {
        match c.step(tile, t.nx, t.nblock, t.bits, pixels) {
            Ok(Some(next)) => {
                put_bytes(rt, next.bit);
                c = next;
            }
            Ok(None) => return,
            Err(broken) => return put_refused(rt, broken),
        }
    }
}

// ---- numbers

fn put_bytes(rt: &impl Print, bits: usize) {
    put_space(rt);
    put_number(rt, whole_bytes(bits));
}

// The bytes that hold so many bits.
fn whole_bytes(bits: usize) -> usize
    ensures { result ≡ (bits + 7) / 8 }
{
    bits.div_ceil(8)
}

// No function for this line and that of `tile_rows`: it would be told the words in which they differ, and be no plainer.
fn put_refused(rt: &impl Print, broken: Broken) {
    put(rt, b" refused ");
    put_number(rt, usize::from(broken.fault.number()));
    put_space(rt);
    put_number(rt, broken.written);
}
