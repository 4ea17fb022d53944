// A header as the C boundary gives it: where END stands, an entry's value and its comment, the list of its names, and a name.
#![tactic(auto)]

ghost use Rattle.std.specs.Prelude.{◌≡◌, length};
ghost use Rattle.laws.specs.Lending.{lent_of};
ghost use Rattle.finding.specs.Finding.{header_of};
ghost use Rattle.entries.specs.Halves.{value_named, value_numbered, comment_named, comment_numbered};
ghost use Rattle.listing.specs.Listing.{listing_by, list_of};
ghost use Rattle.naming.specs.Naming.{name_at};
ghost use Rattle.abi_header.specs.Headers.{numbers_of, HeaderLeft, ValueLeft, CommentLeft, ListLeft, NameLeft};
ghost use Rattle.abi_header.specs.Writing.{ValueWritten, CommentWritten, ListWritten};

use abi_value::Told;
use entries::{CommentHalf, NoEntry, ValueHalf};
use listing::{Listed, PLACES};

// The numbers of a value, and the bytes of its digits.
const NUMBERS: usize = 5;

const DIGITS: usize = 80;

// Says where END stands. Answers 0, with the card's number of END; otherwise the refusal's number, with the number of the card at which
// the header is refused and, if that card is, the byte as the column. The column stays as it is otherwise.
pub fn header_into(header: &[u8], card: &mut usize, column: &mut usize) -> u8
    ensures { HeaderLeft (header_of header.now) (lent_of card) (lent_of column) result }
{
    match finding::read_header(header) {
        Err(stop) => {
            *card = stop.card;
            *column = abi_value::column_after(stop.fault.column, *column);
            stop.fault.number()
        }
        Ok(end) => {
            *card = end;
            0
        }
    }
}

// Looks a name's value up. Answers 0, and lays the value's numbers, text and digits into the lent memory.
// Otherwise it answers the refusal's number, or 255 where digits or numbers have another length. Nothing is written then, except
// that a header refusal stores the card's number in the first of the numbers, and a refused card's byte in the column; and 12 and 13
// store the room that is wanted in the number of the text's length.
pub fn lookup_value_into(
    header: &[u8],
    name: &[u8],
    text: &mut [u8],
    digits: &mut [u8],
    out: &mut [usize],
    number: &mut i64,
    column: &mut usize,
) -> u8
    ensures { ValueLeft (value_named header.now name.now)
        (lent_of text) (lent_of digits) (lent_of out) (lent_of number) (lent_of column) result }
{
    if digits.len() == DIGITS && out.len() == NUMBERS {
        let read = entries::lookup_value(header, name, text);
        return write_value(read, digits, out, number, column);
    }
    abi_value::WRONG_LENGTH
}

// Reads the value of the entry at a card's number, as a lookup does.
pub fn entry_value_into(
    header: &[u8],
    card: usize,
    text: &mut [u8],
    digits: &mut [u8],
    out: &mut [usize],
    number: &mut i64,
    column: &mut usize,
) -> u8
    ensures { ValueLeft (value_numbered header.now card)
        (lent_of text) (lent_of digits) (lent_of out) (lent_of number) (lent_of column) result }
{
    if digits.len() == DIGITS && out.len() == NUMBERS {
        let read = entries::value_at(header, card, text);
        return write_value(read, digits, out, number, column);
    }
    abi_value::WRONG_LENGTH
}

// Looks a name's comment up. Answers 0, with whether there is one, the comment and its length. Otherwise it answers the refusal's
// number: a header refusal stores the card's number, and a refused card's byte in the column; 12 and 13 store the room that is wanted in
// the length. Nothing else is written then.
pub fn lookup_comment_into(
    header: &[u8],
    name: &[u8],
    comment: &mut [u8],
    commented: &mut usize,
    length: &mut usize,
    card: &mut usize,
    column: &mut usize,
) -> u8
    ensures { CommentLeft (comment_named header.now name.now)
        (lent_of comment) (lent_of commented) (lent_of length) (lent_of card) (lent_of column) result }
{
    let read = entries::lookup_comment(header, name, comment);
    write_comment(read, commented, length, card, column)
}

// Reads the comment of the entry at a card's number, as a lookup does.
pub fn entry_comment_into(
    header: &[u8],
    number: usize,
    comment: &mut [u8],
    commented: &mut usize,
    length: &mut usize,
    card: &mut usize,
    column: &mut usize,
) -> u8
    ensures { CommentLeft (comment_numbered header.now number)
        (lent_of comment) (lent_of commented) (lent_of length) (lent_of card) (lent_of column) result }
{
    let read = entries::comment_at(header, number, comment);
    write_comment(read, commented, length, card, column)
}

// Lists a header's names. Answers 0, with the first cards, the last entries, how many cards bear each, and the number of names. Otherwise
// it answers the refusal's number, with the card's number as the count and a refused card's byte as the column, or 255 where a slice has
// another length than 720. Nothing else is written then.
pub fn list_into(
    header: &[u8],
    first: &mut [usize],
    last: &mut [usize],
    times: &mut [usize],
    count: &mut usize,
    column: &mut usize,
) -> u8
    ensures { ListLeft (list_of header.now)
        (lent_of first) (lent_of last) (lent_of times) (lent_of count) (lent_of column) result }
{
    if first.len() == PLACES && last.len() == PLACES && times.len() == PLACES {
        let mut firsts: [usize; 720] = [0; 720];
        let mut lasts: [usize; 720] = [0; 720];
        let mut borne: [usize; 720] = [0; 720];
        let read = listing::list_over(header, &mut firsts, &mut lasts, &mut borne);
        return write_listing(
            read, &firsts, &lasts, &borne, first, last, times, count, column,
        );
    }
    abi_value::WRONG_LENGTH
}

// Reads the name that the entry at a card's number bears. Answers 0, with the name at the front of the lent bytes and its length.
// Otherwise it answers the refusal's number, with a refused card's byte as the column, and nothing else is written.
pub fn name_into(
    header: &[u8],
    card: usize,
    name: &mut [u8],
    length: &mut usize,
    column: &mut usize,
) -> u8
    ensures { NameLeft (name_at header.now card) (lent_of name) (lent_of length) (lent_of column) result }
{
    match naming::read_name(header, card, name) {
        Ok(n) => {
            *length = n;
            0
        }
        Err(fault) => {
            *column = abi_value::column_after(fault.column, *column);
            fault.number()
        }
    }
}

// The value that was read, in lent memory.
fn write_value(
    read: ValueHalf,
    digits: &mut [u8],
    out: &mut [usize],
    number: &mut i64,
    column: &mut usize,
) -> u8
    requires { (length digits.old ≡ 80) × (length out.old ≡ 5) }
    ensures { ValueWritten read.answer read (lent_of digits) (lent_of out) (lent_of number) (lent_of column) result }
{
    match read.answer {
        Ok(v) => {
            let value = abi_value::value_told(v);
            out.copy_from_slice(&numbers_of(value, read));
            digits.copy_from_slice(&read.digits.bytes);
            *number = value.number;
            0
        }
        Err(NoEntry::Header(stop)) => {
            out[0] = stop.card;
            *column = abi_value::column_after(stop.fault.column, *column);
            stop.fault.number()
        }
        Err(NoEntry::Refused(fault)) => {
            out[3] = read.text;
            *column = abi_value::column_after(fault.column, *column);
            fault.number()
        }
    }
}

// The comment that was read, in lent memory.
fn write_comment(
    read: CommentHalf,
    commented: &mut usize,
    length: &mut usize,
    card: &mut usize,
    column: &mut usize,
) -> u8
    ensures { CommentWritten read.answer read.comment
        (lent_of commented) (lent_of length) (lent_of card) (lent_of column) result }
{
    match read.answer {
        Ok(there) => {
            *commented = usize::from(abi_value::bit(there));
            *length = read.comment;
            0
        }
        Err(NoEntry::Header(stop)) => {
            *card = stop.card;
            *column = abi_value::column_after(stop.fault.column, *column);
            stop.fault.number()
        }
        Err(NoEntry::Refused(fault)) => {
            *length = read.comment;
            *column = abi_value::column_after(fault.column, *column);
            fault.number()
        }
    }
}

// What was listed, in lent memory.
fn write_listing(
    read: Listed,
    firsts: &[usize],
    lasts: &[usize],
    borne: &[usize],
    first: &mut [usize],
    last: &mut [usize],
    times: &mut [usize],
    count: &mut usize,
    column: &mut usize,
) -> u8
    requires firsts_len { (length firsts.now ≡ 720) × (length lasts.now ≡ 720) × (length borne.now ≡ 720) }
    requires first_len { (length first.old ≡ 720) × (length last.old ≡ 720) × (length times.old ≡ 720) }
    ensures { ListWritten read.header (listing_by read firsts.now lasts.now borne.now)
        (lent_of first) (lent_of last) (lent_of times) (lent_of count) (lent_of column) result }
{
    match read.header {
        Ok(_) => {
            first.copy_from_slice(firsts);
            last.copy_from_slice(lasts);
            times.copy_from_slice(borne);
            *count = read.count;
            0
        }
        Err(stop) => {
            *count = stop.card;
            *column = abi_value::column_after(stop.fault.column, *column);
            stop.fault.number()
        }
    }
}

// The numbers of a value.
fn numbers_of(value: Told, read: ValueHalf) -> [usize; 5]
    ensures { result ≡ numbers_of value read }
{
    [
        0,
        usize::from(value.kind),
        usize::from(abi_value::bit(value.flag)),
        read.text,
        read.digits.len,
    ]
}
