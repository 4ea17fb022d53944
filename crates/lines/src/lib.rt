// The lines that the program `cards` prints (SPECIFICATION 13), each put into a lent buffer.
#![tactic(auto)]

ghost use Rattle.std.specs.Prelude.{◌≡◌, Some, cond, [], ◌∷◌, ◌++◌, ◌+◌, ◌≤◌, length, take};
ghost use Rattle.std.proofs.lemmas.List.Edits.{sets};
ghost use Rattle.text.specs.Bytes.{line_feed};
ghost use Rattle.text.specs.Text.{size, text_of, bytes_of};
ghost use Rattle.numerals.specs.Numerals.{decimal_digits};
ghost use Rattle.lines.specs.Lines.{times_part, entry_line, count_line, column_part, refused_line, line_room, line_outcome, laid};
ghost use Rattle.lines.specs.Segments.{line_head, middle_of, size_tail, reading_tail, IsTail, segment_room};

use numbers::{Size, Value};
use refusal::Fault;
use text::Text;

// The line of an entry: its name, its kind, its reading, and how many cards bear the name where that is above 1. Beside a value stand the
// digits of a decimal and a text. A buffer of 321 bytes more than the text is long enough.
pub fn entry_line(
    name: Text,
    value: Value,
    digits: Text,
    text: &[u8],
    times: usize,
    out: &mut [u8],
) -> Option<usize>
    ensures out_after { line_outcome result out.new
        ≡ laid (entry_line (bytes_of name) value (bytes_of digits) text.now times) out.old }
    ensures times_len_bound { length (entry_line (bytes_of name) value (bytes_of digits) text.now times)
        ≤ line_room + length text.now }
{
    let shown = digits.as_slice();
    let head = head_of(value, text.is_empty());
    let tail = both_of(tail_of(value, shown.is_empty()), times_text(times));
    put_line(name, head, middle_of(value, shown, text), tail, out)
}

// The line of the count of names.
pub fn count_line(n: usize, out: &mut [u8]) -> Option<usize>
    ensures out_after { line_outcome result out.new ≡ laid (count_line n) out.old }
    ensures n_len_bound { length (count_line n) ≤ line_room }
{
    let count = numerals::natural_text(n as u64);
    let none = text::empty_text();
    put_line(count, none, b" keywords", none, out)
}

// The line of a refused header: the refusal's number, the card's, and the byte of the card where the refusal has a column.
pub fn refused_line(fault: Fault, card: usize, out: &mut [u8]) -> Option<usize>
    ensures out_after { line_outcome result out.new ≡ laid (refused_line fault card) out.old }
    ensures card_len_bound { length (refused_line fault card) ≤ line_room }
{
    let word = text::text_of(b"refused ");
    let number = numerals::natural_text(fault.number() as u64);
    let column = fault.column;
    let place = place_text(card, column);
    put_line(word, number, b" at ", place, out)
}

// ---- texts of several parts

// Two texts, one behind the other, as far as a text holds them.
fn both_of(front: Text, behind: Text) -> Text
    ensures { result ≡ text_of (take size (bytes_of front ++ bytes_of behind)) }
{
    text::joined_text(front.as_slice(), behind.as_slice())
}

// A space, x and the number of cards that bear a name, where it is above 1.
fn times_text(times: usize) -> Text
    ensures { result ≡ text_of (times_part times) }
{
    if times <= 1 {
        return text::empty_text();
    }
    both_of(text::text_of(b" x"), numerals::natural_text(times as u64))
}

// A colon, and a byte of a card.
fn column_text(byte: usize) -> Text
    ensures { result ≡ text_of (column_part (Some byte)) }
{
    both_of(text::text_of(b":"), numerals::natural_text(byte as u64))
}

// A card's number, and its byte where there is a column.
fn place_text(card: usize, column: Option<usize>) -> Text
    ensures { result ≡ text_of (decimal_digits card ++ column_part column) }
{
    let number = numerals::natural_text(card as u64);
    match column {
        Some(byte) => both_of(number, column_text(byte)),
        None => number,
    }
}

// ---- the segments of an entry's line

// One of two short texts.
fn one_of(t: bool, first: &[u8], second: &[u8]) -> Text
    requires { (length first.now ≤ size) × (length second.now ≤ size) }
    ensures { result ≡ text_of (cond t first.now second.now) }
{
    text::text_of(if t { first } else { second })
}

// The letter, the space and the sign; `empty` says that there is no text.
fn head_of(value: Value, empty: bool) -> Text
    ensures { result ≡ text_of (line_head value empty) }
{
    match value {
        Value::Integer(_) => text::text_of(b" I "),
        Value::Float { minus, size: _ } => one_of(minus, b" D -", b" D "),
        Value::Logical(_) => text::text_of(b" L "),
        Value::String => one_of(empty, b" S", b" S "),
        Value::Undefined => text::text_of(b" U"),
        Value::Invalid => one_of(empty, b" X", b" X "),
    }
}

// What stands in the middle of an entry's line: a finite float's digits, a text, or nothing.
fn middle_of<'a>(value: Value, digits: &'a [u8], text: &'a [u8]) -> &'a [u8]
    ensures { result.now ≡ middle_of value digits.now text.now }
{
    match value {
        Value::Float {
            minus: _,
            size: Size::Finite(_),
        } => digits,
        Value::String | Value::Invalid => text,
        _ => b"",
    }
}

// What stands behind the digits of a float; `empty` says that it has none.
fn tail_at(size: Size, empty: bool) -> Text
    ensures { IsTail result (size_tail size empty) }
{
    match size {
        Size::Finite(power) => {
            if empty {
                return text::text_of(b"0e0");
            }
            numerals::power_text(b'e', power)
        }
        Size::Infinite => text::text_of(b"inf"),
        Size::Nan => text::text_of(b"nan"),
    }
}

// What stands behind the middle.
fn tail_of(value: Value, empty: bool) -> Text
    ensures { IsTail result (reading_tail value empty) }
{
    match value {
        Value::Integer(z) => numerals::integer_text(z),
        Value::Float { minus: _, size } => tail_at(size, empty),
        Value::Logical(t) => one_of(t, b"T", b"F"),
        Value::String | Value::Undefined | Value::Invalid => text::empty_text(),
    }
}

// ---- lines in lent buffers

// Four segments and a line feed put at the front of a buffer where they fit.
fn put_line(a: Text, b: Text, middle: &[u8], d: Text, out: &mut [u8]) -> Option<usize>
    ensures out_after { line_outcome result out.new
        ≡ laid (bytes_of a ++ bytes_of b ++ middle.now ++ bytes_of d ++ line_feed ∷ []) out.old }
    ensures line_feed_len_bound { length (bytes_of a ++ bytes_of b ++ middle.now ++ bytes_of d ++ line_feed ∷ [])
        ≤ segment_room + length middle.now }
{
    let first = a.as_slice();
    let second = b.as_slice();
    let last = d.as_slice();
    let to_middle = first.len() + second.len();
    let to_last = to_middle + middle.len();
    let end = to_last + last.len();
    if out.len() <= end {
        return None;
    }
    text::put_at(first, out, 0);
    text::put_at(second, out, first.len());
    text::put_at(middle, out, to_middle);
    text::put_at(last, out, to_last);
    text::put_at(b"\n", out, end);
    Some(end + 1)
}
