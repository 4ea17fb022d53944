// A value as the C boundary asks for it to be written: a kind, a flag and a number, as it tells them of one that was read.
#![tactic(auto)]

ghost use Rattle.std.specs.Prelude.{◌≡◌};
ghost use Rattle.laws.specs.Lending.{lent_of};
ghost use Rattle.roles.specs.Roles.{comment_of};
ghost use Rattle.numbers.specs.declared.Value.TheVariants.{Float};
ghost use Rattle.writing.specs.Block.{write_of};
ghost use Rattle.abi_writing.specs.Asking.{is_set, value_asked, WriteLeft};

use numbers::{Size, Value};

// Writes the cards of a name and its value into a lent block. Answers 0, with the number of cards as the count; or the refusal's number,
// and block and count stay as they are.
pub fn write_into(
    name: &[u8],
    kind: usize,
    flag: usize,
    number: i64,
    text: &[u8],
    commented: usize,
    comment: &[u8],
    block: &mut [u8],
    count: &mut usize,
) -> u8
    ensures { WriteLeft (write_of name.now (value_asked kind (is_set flag) number) text.now
        (comment_of (is_set commented) comment.now)) (lent_of block) (lent_of count) result }
{
    let value = value_asked(kind, is_set(flag), number);
    let comment = is_set(commented).then_some(comment);
    match writing::write(name, value, text, comment, block) {
        Ok(n) => {
            *count = n;
            0
        }
        Err(fault) => fault.number(),
    }
}

// Whether a number stands for a truth: 0 is false, any other true.
fn is_set(n: usize) -> bool
    ensures { result ≡ is_set n }
{
    n != 0
}

// The value of a kind with its flag and number.
#[tactic(auto, unfolding(crate::specs::Asking::value_asked))]
fn value_asked(kind: usize, flag: bool, number: i64) -> Value
    ensures { result ≡ value_asked kind flag number }
{
    match kind {
        1 => Value::Integer(number),
        2 => decimal(flag, Size::Finite(number)),
        3 => decimal(flag, Size::Infinite),
        4 => decimal(flag, Size::Nan),
        5 => Value::Logical(flag),
        6 => Value::String,
        7 => Value::Undefined,
        _ => Value::Invalid,
    }
}

// A float of a sign and a size.
fn decimal(minus: bool, size: Size) -> Value
    ensures { result ≡ Float minus size }
{
    Value::Float { minus, size }
}
