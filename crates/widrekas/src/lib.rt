// The functions of the C boundary, over slices and numbers, which take anything. The crate widrekas_c exports each under its name to C,
// where a slice is a pointer and a length.
#![tactic(auto)]

ghost use Rattle.std.specs.Prelude.{◌≡◌};
ghost use Rattle.value.specs.Units.{unit_of, unit_past_space};
ghost use Rattle.abi_value.specs.Telling.{unit_end, UnitLeft};
ghost use Rattle.abi_card.specs.Records.{CardLeft};
ghost use Rattle.finding.specs.Finding.{header_of};
ghost use Rattle.entries.specs.Halves.{value_named, value_numbered, comment_named, comment_numbered};
ghost use Rattle.listing.specs.Listing.{list_of};
ghost use Rattle.naming.specs.Naming.{name_at};
ghost use Rattle.abi_header.specs.Headers.{HeaderLeft, ValueLeft, CommentLeft, ListLeft, NameLeft};
ghost use Rattle.laws.specs.Lending.{lent_of};
ghost use Rattle.roles.specs.Roles.{comment_of};
ghost use Rattle.writing.specs.Block.{write_of};
ghost use Rattle.abi_writing.specs.Asking.{is_set, value_asked, WriteLeft};
ghost use Rattle.abi_tile.specs.Tiles.{cursor_in, OpenLeft, StepLeft, DecodeLeft};

// The version of this boundary.
pub fn widrekas_version() -> u32
    ensures { result ≡ 4 }
{
    4
}

// ---- cards

// Reads a card of 80 bytes into a record of 248 bytes and a number, and answers 0.
// Otherwise it answers the refusal's number, 1 to 8, with the byte at which the card is refused as the column; or 255 where a slice has
// another length. All else stays as it is.
pub fn widrekas_card(card: &[u8], out: &mut [u8], number: &mut i64, column: &mut usize) -> u8
    ensures { CardLeft card.now (lent_of out) (lent_of number) (lent_of column) result }
{
    abi_card::read_into(card, out, number, column)
}

// The end of the unit that a comment names as fitsrs reads it, which starts at byte 1; 0 where it names none.
pub fn widrekas_unit(comment: &[u8]) -> usize
    ensures { result ≡ unit_end (unit_of comment.now) }
{
    abi_value::unit_end(comment)
}

// The end of the unit that a comment names, with one space in front passed over, and where it starts; 0 where it names none, and the start
// stays as it is.
pub fn widrekas_unit_past_space(comment: &[u8], start: &mut usize) -> usize
    ensures { UnitLeft (unit_past_space comment.now) (lent_of start) result }
{
    abi_value::unit_past_space_end(comment, start)
}

// ---- headers: an answer of 1 to 8 is a refused card, and the column its byte; any other answer leaves the column as it is

// Says where END stands. Answers 0, with the card's number of END; or the refusal's number, with the number of the card at which the
// header is refused and, if that card is, its byte as the column.
pub fn widrekas_header(header: &[u8], card: &mut usize, column: &mut usize) -> u8
    ensures { HeaderLeft (header_of header.now) (lent_of card) (lent_of column) result }
{
    abi_header::header_into(header, card, column)
}

// Looks a name's value up in a header. Answers 0, with five numbers: 0, the value's kind, whether it is true or negative, and the
// lengths of the text and the digits; the text at the front of its buffer; a decimal's digits, then zeros, in 80 bytes; and the integer
// or the power of ten. Otherwise it answers the refusal's number, or 255 where digits or numbers have another length. Nothing is written
// then, except that a refusal of the header stores the card's number in the first of the five, and a refused card's byte in the column;
// and that 12 and 13 store the room that is wanted in the number of the text's length.
pub fn widrekas_lookup_value(
    header: &[u8],
    name: &[u8],
    text: &mut [u8],
    digits: &mut [u8],
    out: &mut [usize],
    number: &mut i64,
    column: &mut usize,
) -> u8
    ensures { ValueLeft (value_named header.now name.now)
        (lent_of text) (lent_of digits) (lent_of out) (lent_of number) (lent_of column) result }
{
    abi_header::lookup_value_into(header, name, text, digits, out, number, column)
}

// Looks a name's comment up in a header. Answers 0, with whether there is one (1, or 0), its length, and the comment at the front of its
// buffer. Otherwise it answers the refusal's number: a refusal of the header stores the card's number, and a refused card's byte in the
// column; 12 and 13 store the room that is wanted in the length. All else stays as it is.
pub fn widrekas_lookup_comment(
    header: &[u8],
    name: &[u8],
    comment: &mut [u8],
    commented: &mut usize,
    length: &mut usize,
    card: &mut usize,
    column: &mut usize,
) -> u8
    ensures { CommentLeft (comment_named header.now name.now)
        (lent_of comment) (lent_of commented) (lent_of length) (lent_of card) (lent_of column) result }
{
    abi_header::lookup_comment_into(header, name, comment, commented, length, card, column)
}

// Reads the value of the entry at a card's number, whatever stands elsewhere in the header, and answers as a lookup does.
pub fn widrekas_entry_value(
    header: &[u8],
    card: usize,
    text: &mut [u8],
    digits: &mut [u8],
    out: &mut [usize],
    number: &mut i64,
    column: &mut usize,
) -> u8
    ensures { ValueLeft (value_numbered header.now card)
        (lent_of text) (lent_of digits) (lent_of out) (lent_of number) (lent_of column) result }
{
    abi_header::entry_value_into(header, card, text, digits, out, number, column)
}

// Reads the comment of the entry at a card's number, whatever stands elsewhere in the header, and answers as a lookup does.
pub fn widrekas_entry_comment(
    header: &[u8],
    number: usize,
    comment: &mut [u8],
    commented: &mut usize,
    length: &mut usize,
    card: &mut usize,
    column: &mut usize,
) -> u8
    ensures { CommentLeft (comment_numbered header.now number)
        (lent_of comment) (lent_of commented) (lent_of length) (lent_of card) (lent_of column) result }
{
    abi_header::entry_comment_into(header, number, comment, commented, length, card, column)
}

// Lists a header's names in the order of their first cards. Answers 0, with the number of names and, for each, the number of the first
// card that bears it, that of the last, and how many cards bear it; the places behind them hold 720, 720 and 0. Otherwise it answers the
// refusal's number, with the card's number as the count and a refused card's byte as the column; or 255 where a slice has another length
// than 720. All else stays as it is.
pub fn widrekas_list(
    header: &[u8],
    first: &mut [usize],
    last: &mut [usize],
    times: &mut [usize],
    count: &mut usize,
    column: &mut usize,
) -> u8
    ensures { ListLeft (list_of header.now)
        (lent_of first) (lent_of last) (lent_of times) (lent_of count) (lent_of column) result }
{
    abi_header::list_into(header, first, last, times, count, column)
}

// Reads the name that the entry at a card's number bears, whatever stands elsewhere in the header. Answers 0, with the name at the
// front of the lent bytes and its length; or the refusal's number, with a refused card's byte as the column. All else stays as it is.
pub fn widrekas_name(
    header: &[u8],
    card: usize,
    name: &mut [u8],
    length: &mut usize,
    column: &mut usize,
) -> u8
    ensures { NameLeft (name_at header.now card) (lent_of name) (lent_of length) (lent_of column) result }
{
    abi_header::name_into(header, card, name, length, column)
}

// ---- cards written

// Writes the cards of a name and its value at the front of a block. Answers 0, with the number of cards as the count; what follows them
// stays. Otherwise it answers 19, 20 or 21, in that order, and block and count stay as they are. The value is a kind with its flag and
// number, as a lookup gives them, and the text is a decimal's digits or a string; a flag is false where it is 0.
pub fn widrekas_write(
    name: &[u8],
    kind: usize,
    flag: usize,
    number: i64,
    text: &[u8],
    commented: usize,
    comment: &[u8],
    block: &mut [u8],
    count: &mut usize,
) -> u8
    ensures { WriteLeft (write_of name.now (value_asked kind (is_set flag) number) text.now
        (comment_of (is_set commented) comment.now)) (lent_of block) (lent_of count) result }
{
    abi_writing::write_into(
        name, kind, flag, number, text, commented, comment, block, count,
    )
}

// ---- tiles

// Opens a tile of nx pixels in blocks of nblock, of 8, 16 or 32 bits each. Answers 0, with the cursor at the first block; or the
// refusal's number, and the cursor stays as it is.
pub fn widrekas_open(
    tile: &[u8],
    nx: usize,
    nblock: usize,
    bits: usize,
    bit: &mut usize,
    done: &mut usize,
    last: &mut i32,
) -> u8
    ensures { OpenLeft tile.now nx nblock bits (cursor_in bit done last) result }
{
    abi_tile::open_into(tile, nx, nblock, bits, bit, done, last)
}

// One block, from a cursor, into the pixels from the cursor's place on. Answers 0, with the cursor at the next block; 254 where
// nothing is left; or the refusal's number, with the number of pixels of the step that were written. Whatever is not named stays
// as it is.
pub fn widrekas_step(
    tile: &[u8],
    nx: usize,
    nblock: usize,
    bits: usize,
    bit: &mut usize,
    done: &mut usize,
    last: &mut i32,
    pixels: &mut [i32],
    written: &mut usize,
) -> u8
    ensures { StepLeft tile.now nx nblock bits (cursor_in bit done last) (lent_of pixels) (lent_of written) result }
{
    abi_tile::step_into(tile, nx, nblock, bits, bit, done, last, pixels, written)
}

// Decodes a tile whole. Answers 0, and the count is the bits used; or the refusal's number, and the count is the pixels written.
pub fn widrekas_decode(
    tile: &[u8],
    nx: usize,
    nblock: usize,
    bits: usize,
    pixels: &mut [i32],
    count: &mut usize,
) -> u8
    ensures { DecodeLeft tile.now nx nblock bits (lent_of pixels) (lent_of count) result }
{
    abi_tile::decode_into(tile, nx, nblock, bits, pixels, count)
}
