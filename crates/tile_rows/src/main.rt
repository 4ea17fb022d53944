// Decodes the tiles of the readings at the edges (SPECIFICATION 15), whole and block by block, with nblock 32, and prints a line for
// each: the tile's bytes, its width and number of pixels, and its pixels with the bits used, or the refusal with the pixels written.
#![tactic(auto)]

use rice::Broken;
use test_output::{put, put_number, put_pixels, put_space};

// The pixels of a block.
const NBLOCK: usize = 32;

fn main(rt: HostRuntime) {
    row(&rt, b"\x0a\x00", 8, 2, &mut [7; 2]);
    row(&rt, b"\x0a\x32", 8, 2, &mut [7; 2]);
    row(&rt, b"\x00\x28", 8, 1, &mut [7; 1]);
    row(&rt, b"\x0a\xff\xe0", 8, 1, &mut [7; 1]);
    row(&rt, b"\x0a\x30", 8, 2, &mut [7; 2]);
    row(
        &rt,
        b"\x00\x00\x00\x05\xd0\x00\x00\x00\x10",
        32,
        1,
        &mut [7; 1],
    );
    row(&rt, b"\x00\x00\x00\x00\xd8", 32, 1, &mut [7; 1]);
    row(
        &rt,
        b"\x0a\x20\x00\x00\x00\x00\x00\x00\x00\x80",
        8,
        1,
        &mut [7; 1],
    );
    row(
        &rt,
        b"\x0a\x40\x00\x00\x00\x00\x00\x00\x01\x80",
        8,
        1,
        &mut [7; 1],
    );
    row(&rt, b"", 8, 1, &mut [7; 1]);
    row(&rt, b"\x0a", 8, 0, &mut [7; 1]);
    row(&rt, b"\x0a", 9, 1, &mut [7; 1]);
    row(&rt, b"\xff\x00\x00", 16, 2, &mut [7; 2]);
}

// A tile, decoded into pixels that are lent.
fn row(rt: &impl Print, tile: &[u8], bits: usize, nx: usize, pixels: &mut [i32]) {
    put_tile(rt, tile);
    put(rt, b"width ");
    put_number(rt, bits);
    put(rt, b" nx ");
    put_number(rt, nx);
    put(rt, b" =>");
    match rice::decode(tile, nx, NBLOCK, bits, pixels) {
        Ok(used) => {
            put_pixels(rt, pixels);
            put(rt, b", ");
            put_number(rt, used);
            put(rt, b" bits");
        }
        Err(broken) => {
            put_refusal(rt, broken);
            put_pixels(rt, pixels);
        }
    }
    put_step(rt, tile, bits, nx, pixels);
    put(rt, b"\n");
}

// The first step from opening, and what a second one then says.
fn put_step(rt: &impl Print, tile: &[u8], bits: usize, nx: usize, pixels: &mut [i32]) {
    let Ok(cursor) = rice::open(tile, nx, NBLOCK, bits) else {
        put(rt, b"; not opened");
        return;
    };
    let Ok(Some(next)) = cursor.step(tile, nx, NBLOCK, bits, pixels) else {
        put(rt, b"; no step");
        return;
    };
    put(rt, b"; step to ");
    put_number(rt, next.bit);
    if let Ok(None) = next.step(tile, nx, NBLOCK, bits, pixels) {
        put(rt, b", done");
    }
}

fn put_tile(rt: &impl Print, tile: &[u8]) {
    for byte in tile {
        let _ = print!(rt; "{byte:02x}");
        put_space(rt);
    }
}

fn put_refusal(rt: &impl Print, broken: Broken) {
    put(rt, b" refused ");
    put_number(rt, usize::from(broken.fault.number()));
    put(rt, b" after ");
    put_number(rt, broken.written);
    put(rt, b", left");
}
