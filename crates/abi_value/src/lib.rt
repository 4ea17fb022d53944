// A value as the C boundary gives it, in numbers, and what its records share.
#![tactic(auto)]

ghost use Rattle.std.specs.Prelude.{◌≡◌};
ghost use Rattle.laws.specs.Lending.{lent_of};
ghost use Rattle.value.specs.Units.{unit_of, unit_past_space};
ghost use Rattle.abi_value.specs.Telling.{size_told, value_told, bit_of, unit_end, UnitLeft, column_after};

use numbers::{Size, Value};

// What a value comes to in numbers: its kind, whether it is true or negative, and its integer or power of ten.
#[derive(Clone, Copy)]
pub struct Told {
    pub kind: u8,
    pub flag: bool,
    pub number: i64,
}

// The answer to a slice of another length than the one asked for: no refusal has this number.
pub const WRONG_LENGTH: u8 = 255;

// A value in numbers.
pub fn value_told(value: Value) -> Told
    ensures { result ≡ value_told value }
{
    match value {
        Value::Integer(z) => Told {
            kind: 1,
            flag: false,
            number: z,
        },
        Value::Float { minus, size } => size_told(minus, size),
        Value::Logical(t) => Told {
            kind: 5,
            flag: t,
            number: 0,
        },
        Value::String => Told {
            kind: 6,
            flag: false,
            number: 0,
        },
        Value::Undefined => Told {
            kind: 7,
            flag: false,
            number: 0,
        },
        Value::Invalid => Told {
            kind: 8,
            flag: false,
            number: 0,
        },
    }
}

fn size_told(minus: bool, size: Size) -> Told
    ensures { result ≡ size_told minus size }
{
    match size {
        Size::Finite(power) => Told {
            kind: 2,
            flag: minus,
            number: power,
        },
        Size::Infinite => Told {
            kind: 3,
            flag: minus,
            number: 0,
        },
        Size::Nan => Told {
            kind: 4,
            flag: minus,
            number: 0,
        },
    }
}

// 1 for true and 0 for false.
pub fn bit(t: bool) -> u8
    ensures { result ≡ bit_of t }
{
    if t { 1 } else { 0 }
}

// The end of the unit that a comment names as fitsrs reads it, which starts at byte 1; 0 where it names none.
pub fn unit_end(comment: &[u8]) -> usize
    ensures { result ≡ unit_end (unit_of comment.now) }
{
    value::unit(comment).map_or(0, |(_, end)| end)
}

// The end of the unit that a comment names, with one space in front passed over, and where it starts; 0 where it names none, and the start
// stays as it is.
pub fn unit_past_space_end(comment: &[u8], start: &mut usize) -> usize
    ensures { UnitLeft (unit_past_space comment.now) (lent_of start) result }
{
    match value::unit_past_space(comment) {
        Some((from, end)) => {
            *start = from;
            end
        }
        None => 0,
    }
}

// What a lent column holds behind a refusal: the byte of the refused card. Where the refusal has none the column stays.
pub fn column_after(column: Option<usize>, was: usize) -> usize
    ensures { result ≡ column_after column was }
{
    column.unwrap_or(was)
}
