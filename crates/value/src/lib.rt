// A value card's text as one of the six kinds of value, and the unit that a comment names, by two readings.
#![tactic(auto)]

ghost use Rattle.std.specs.Prelude.{◌≡◌, ◌≤◌, length, drop};
ghost use Rattle.text.specs.Text.{size};
ghost use Rattle.splitting.specs.Columns.{at_byte};
ghost use Rattle.refusal.specs.Numbers.{answer_placed};
ghost use Rattle.value.specs.Values.{starts_number, start_of, keeps_comment, value_as};
ghost use Rattle.value.specs.Values.{of_string, of_number, value_with, value_from};
ghost use Rattle.value.specs.Units.{unit_of, unit_past_space};

use numbers::Value;
use refusal::{Fault, Refusal};
use splitting::Halves;
use text::Text;

// A value with its text, which is that of a string, of an invalid value or of a decimal's digits and otherwise empty, and its comment, if
// there is one.
#[derive(Clone, Copy)]
pub struct ValueRead {
    pub value: Value,
    pub text: Text,
    pub comment: Option<Text>,
}

// What a value text's first byte says.
#[derive(Clone, Copy)]
pub enum Start {
    Quote,
    Truth(bool),
    Number,
    Complex,
    Else,
}

// The value in a card's text from a byte on.
pub fn read_value(card: &[u8; 80], from: usize) -> Result<ValueRead, Fault>
    ensures { result ≡ value_from from (drop from card.now) }
{
    let split = splitting::split(card, from);
    let raw = text::rest_of(&card[..], from);
    match &split.halves {
        Ok(halves) => value_with(halves, raw, split.first),
        Err(fault) => Err(*fault),
    }
}

// The unit of a comment as fitsrs reads it, from one byte up to another: between its first byte, a bracket, and the first closing bracket.
pub fn unit(comment: &[u8]) -> Option<(usize, usize)>
    ensures { result ≡ unit_of comment.now }
{
    if comment.len() == 0 {
        return None;
    }
    if comment[0] != b'[' {
        return None;
    }
    let i = text::find_byte(&comment[1..], b']')?;
    Some((1, i + 1))
}

// The unit of a comment as the standard recommends to write it: one space in front, or none, is passed over.
pub fn unit_past_space(comment: &[u8]) -> Option<(usize, usize)>
    ensures { result ≡ unit_past_space comment.now }
{
    if comment.len() == 0 {
        return None;
    }
    if comment[0] != b' ' {
        return unit(comment);
    }
    let (from, to) = unit(&comment[1..])?;
    Some((from + 1, to + 1))
}

// A digit, a sign or a point.
fn starts_number(b: u8) -> bool
    ensures { result ≡ starts_number b }
{
    if b == b'+' {
        return true;
    }
    if b == b'-' {
        return true;
    }
    if b == b'.' {
        return true;
    }
    text::is_digit(b)
}

fn start_of(b: u8) -> Start
    ensures { result ≡ start_of b }
{
    if b == b'\'' {
        return Start::Quote;
    }
    if b == b'T' {
        return Start::Truth(true);
    }
    if b == b'F' {
        return Start::Truth(false);
    }
    if b == b'(' {
        return Start::Complex;
    }
    if starts_number(b) {
        return Start::Number;
    }
    Start::Else
}

fn keeps_comment(value: Value) -> bool
    ensures { result ≡ keeps_comment value }
{
    match value {
        Value::Undefined => false,
        Value::Invalid => false,
        Value::Integer(_) => true,
        Value::Float { minus: _, size: _ } => true,
        Value::Logical(_) => true,
        Value::String => true,
    }
}

// A value with its text, and its comment where it keeps one.
fn read_as(value: Value, text: Text, comment: Option<Text>) -> ValueRead
    ensures { result ≡ value_as value text comment }
{
    ValueRead {
        value,
        text,
        comment: if keeps_comment(value) { comment } else { None },
    }
}

// A value text that splitting gave, with the raw text that it was split from, and the byte of the card at which that begins.
// It is a call of its own and takes the halves by reference, so that no copy of a text takes stack while the card is split.
#[inline(never)]
fn value_with(halves: &Halves, raw: &[u8], first: usize) -> Result<ValueRead, Fault>
    requires { (halves.now.value.len ≤ size) × (length raw.now ≤ size) }
    ensures { result ≡ answer_placed (at_byte first) (value_with halves.now.value raw.now halves.now.comment) }
{
    if halves.value.len == 0 {
        return Ok(read_as(Value::Undefined, text::empty_text(), halves.comment));
    }
    let (value, text) = match start_of(halves.value.bytes[0]) {
        Start::Quote => (
            Value::String,
            splitting::parse_string(&halves.value, first)?,
        ),
        Start::Truth(t) => (Value::Logical(t), text::empty_text()),
        Start::Number => {
            let number = numbers::parse_number(&halves.value);
            (number.value, number.text)
        }
        Start::Complex => return Err(refusal::fault_at(Refusal::Complex, first)),
        Start::Else => (Value::Invalid, text::text_of(raw)),
    };
    Ok(read_as(value, text, halves.comment))
}
