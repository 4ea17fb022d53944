// Numbers as text: integers, and what stands behind the digits of a decimal.
#![tactic(auto)]

ghost use Rattle.std.specs.Prelude.{◌≡◌, ◌<◌};
ghost use Rattle.text.specs.Text.{text_of};
ghost use Rattle.numerals.specs.Numerals.{digit_byte, decimal_digits, signed_digits, power_text};

use text::Text;

// The decimal digits of a number. They are put into an array from its end on.
pub fn natural_text(n: u64) -> Text
    ensures { result ≡ text_of (decimal_digits n) }
{
    let mut bytes = [0u8; 20];
    // No range says how far the place goes down: it ends where no digit is left.
    let mut at = 20;
    let mut left = n;
    while 10 <= left {
        at -= 1;
        bytes[at] = digit(left % 10);
        left /= 10;
    }
    at -= 1;
    bytes[at] = digit(left);
    text::text_of(&bytes[at..])
}

// The decimal digits of an integer, behind a minus where it is negative.
pub fn integer_text(z: i64) -> Text
    ensures { result ≡ text_of (signed_digits z) }
{
    let digits = natural_text(z.unsigned_abs());
    if z < 0 {
        return text::joined_text(b"-", digits.as_slice());
    }
    digits
}

// What stands behind the digits of a decimal: the letter of its power of ten, and the power.
pub fn power_text(letter: u8, power: i64) -> Text
    ensures { result ≡ text_of (power_text letter power) }
{
    text::joined_text(&[letter], integer_text(power).as_slice())
}

// ---- helpers

// The character of a digit.
fn digit(n: u64) -> u8
    requires { n < 10 }
    ensures { result ≡ digit_byte n }
{
    b'0' + n as u8
}
