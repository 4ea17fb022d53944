// A reader over a tile's bytes that remembers its bit. Its functions are thin: each takes the struct apart and calls a function on the
// slice and the numbers.
#![tactic(auto)]

ghost use Rattle.std.specs.Prelude.{◌≡◌};
ghost use Rattle.reader.specs.Fields.{at_place, behind, field_of, zeros_of};

use rice::Cursor;

// The tile, and the place of the next bit.
#[derive(Clone, Copy)]
pub struct Reader<'a> {
    pub tile: &'a [u8],
    pub bit: usize,
}

// A reader at the tile's first bit.
pub fn new<'a>(tile: &'a [u8]) -> Reader<'a>
    ensures { (result.tile ≡ tile.entry) × (result.bit ≡ 0) }
{
    Reader { tile, bit: 0 }
}

// The reader at another place.
pub fn place<'a>(r: Reader<'a>, bit: usize) -> Reader<'a>
    ensures { (result.tile ≡ r.entry.tile) × (result.bit ≡ bit) }
{
    Reader { tile: r.tile, bit }
}

// The next n bits and the place after them, and the reader moves there. Where they cannot be had it stays. It and `skip_zeros` share no
// function, nor do `bits_at` and `zeros_at`: what differs is the call, and a closure for it is no plainer than the two lines around it.
pub fn take_bits<'s, 'a>(r: &'s mut Reader<'a>, n: usize) -> Option<(u64, usize)>
    ensures { (result ≡ field_of r.old.tile.now r.old.bit n)
        × (r.new.tile ≡ r.old.tile)
        × (r.new.bit ≡ behind r.old.bit (field_of r.old.tile.now r.old.bit n)) }
{
    let bit = r.bit;
    let field = bits_at(r.tile, bit, n);
    r.bit = past(bit, field);
    field
}

// The number of zeros that come next and the place after the one that ends them, and the reader moves there. Where no one comes it stays.
pub fn skip_zeros<'s, 'a>(r: &'s mut Reader<'a>) -> Option<(u64, usize)>
    ensures { (result ≡ zeros_of r.old.tile.now r.old.bit)
        × (r.new.tile ≡ r.old.tile)
        × (r.new.bit ≡ behind r.old.bit (zeros_of r.old.tile.now r.old.bit)) }
{
    let bit = r.bit;
    let zeros = zeros_at(r.tile, bit);
    r.bit = past(bit, zeros);
    zeros
}

// The n bits from a place of a tile on, taken through a reader.
pub fn field_at(tile: &[u8], bit: usize, n: usize) -> Option<(u64, usize)>
    ensures { result ≡ field_of tile.now bit n }
{
    let mut r = place(new(tile), bit);
    take_bits(&mut r, n)
}

// The place behind a field; the place where it was asked for if it cannot be had.
fn past(bit: usize, field: Option<(u64, usize)>) -> usize
    ensures { result ≡ behind bit field }
{
    field.map_or(bit, |(_, next)| next)
}

// The cursor at a place.
fn at(bit: usize) -> Cursor
    ensures { result ≡ at_place bit }
{
    Cursor {
        bit,
        done: 0,
        last: 0,
    }
}

// The work of `take_bits`, by a cursor at the place.
fn bits_at(tile: &[u8], bit: usize, n: usize) -> Option<(u64, usize)>
    ensures { result ≡ field_of tile.now bit n }
{
    let (u, next) = at(bit).take_bits(tile, n)?;
    Some((u, next.bit))
}

// The work of `skip_zeros`, by a cursor at the place.
fn zeros_at(tile: &[u8], bit: usize) -> Option<(u64, usize)>
    ensures { result ≡ zeros_of tile.now bit }
{
    let (zeros, next) = at(bit).skip_zeros(tile)?;
    Some((zeros, next.bit))
}
