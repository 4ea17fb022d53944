// Numbers: an integer that fits 64 signed bits, or a decimal by its digits and a power of ten (SPECIFICATION 7).
#![tactic(auto)]

ghost use Rattle.std.specs.Prelude.{◌≡◌, true, [], ◌≤◌, min, IfSome, unsigned_abs};
ghost use Rattle.std.specs.Option.{unwrap_or, option_map};
ghost use Rattle.text.specs.Text.{size, bytes_of};
ghost use Rattle.numbers.specs.Signs.{is_negative, unsigned};
ghost use Rattle.numbers.specs.Digits.{is_digits, digits_value};
ghost use Rattle.numbers.specs.Capped.{signed_up_to};
ghost use Rattle.numbers.specs.Answers.{whole_of, decimal_number, invalid, is_read};
ghost use Rattle.numbers.specs.Integers.{integer_of};
ghost use Rattle.numbers.specs.Decimals.{fraction_of, after_fraction, is_mark, max_exponent, exponent_of};
ghost use Rattle.numbers.specs.Decimals.{scaled, finite_of, decimal_of};
ghost use Rattle.numbers.specs.Numbers.{read_number};

use text::{DToE, Digits, Text, Zeros};

// How large a decimal is: finite, with the power of ten of its last digit; infinite; or not a number.
#[derive(Clone, Copy)]
pub enum Size {
    Finite(i64),
    Infinite,
    Nan,
}

// The six kinds of value that a card carries. A float is negative or not, and has a size.
// Its digits, and the text of a string or of an invalid value, stand beside the value.
#[derive(Clone, Copy)]
pub enum Value {
    Integer(i64),
    Float { minus: bool, size: Size },
    Logical(bool),
    String,
    Undefined,
    Invalid,
}

// What a text is as a number: an integer, a float or an invalid value.
// The text holds the digits of a finite decimal or the altered text of an invalid number; otherwise it is empty.
#[derive(Clone, Copy)]
pub struct Number {
    pub value: Value,
    pub text: Text,
}

// The size of no integer of 64 signed bits: they lie below 2^63, and go down to its negative.
const BEYOND: u64 = 9_223_372_036_854_775_809;

// A larger written exponent counts as this.
const MAX_EXPONENT: u64 = 99_999;

// A value text as a number: an integer, else a decimal, else a decimal with every D made an E.
// What is a decimal has no D, so one try at the altered text is both. A length beyond the array takes the whole array.
pub fn parse_number(t: &Text) -> Number
    ensures { result ≡ read_number (bytes_of t.now) }
{
    if let Some(z) = read_integer(t.as_slice()) {
        return whole(z);
    }
    let altered = text::changed_text(t.as_slice(), DToE);
    match read_decimal(&altered) {
        Some(decimal) => decimal,
        None => Number {
            value: Value::Invalid,
            text: altered,
        },
    }
}

// ---- signs

// Whether a minus stands at the front.
#[tactic(auto, unfolding(crate::specs::Signs::is_negative))]
fn is_negative(s: &[u8]) -> bool
    ensures { result ≡ is_negative s.now }
{
    matches!(s, [b'-', ..])
}

// What follows the sign, if there is one.
#[tactic(auto, unfolding(crate::specs::Signs::unsigned, crate::specs::Signs::is_sign))]
fn after_sign(s: &[u8]) -> &[u8]
    ensures { result.now ≡ unsigned s.now }
{
    match s {
        [b'+' | b'-', rest @ ..] => rest,
        _ => s,
    }
}

// ---- digits

// One digit or more, and nothing else.
#[tactic(auto, unfolding(crate::specs::Digits::is_digits))]
fn is_digits(s: &[u8]) -> bool
    ensures { result ≡ is_digits s.now }
{
    !s.is_empty() && text::trim_start(s, Digits).is_empty()
}

// The value of digits, or the cap where it is larger.
fn value_up_to(s: &[u8], cap: u64) -> u64
    ensures { result ≡ min (digits_value s.now) cap }
{
    s.iter().fold(0, |n: u64, b| {
        let digit = u64::from(b.saturating_sub(b'0'));
        n.saturating_mul(10).saturating_add(digit).min(cap)
    })
}

// A sign, if there is one, and digits; a size beyond the cap counts as the cap. It has to fit 64 signed bits.
#[tactic(auto, using(crate::proofs::Capping::capped_none, crate::proofs::Capping::capped_minus, crate::proofs::Capping::capped_plus))]
fn signed_up_to(s: &[u8], cap: u64) -> Option<i64>
    ensures { result ≡ signed_up_to cap s.now }
{
    let digits = after_sign(s);
    if !is_digits(digits) {
        return None;
    }
    let size = value_up_to(digits, cap);
    if is_negative(s) {
        0i64.checked_sub_unsigned(size)
    } else {
        0i64.checked_add_unsigned(size)
    }
}

// ---- answers

// An integer.
fn whole(z: i64) -> Number
    ensures { result ≡ whole_of z }
{
    Number {
        value: Value::Integer(z),
        text: text::empty_text(),
    }
}

// A decimal with no digits.
fn without_digits(negative: bool, size: Size) -> Number
    ensures { result ≡ decimal_number negative size [] }
{
    Number {
        value: Value::Float {
            minus: negative,
            size,
        },
        text: text::empty_text(),
    }
}

// ---- integers

// A text as an integer.
#[tactic(auto, using(crate::proofs::Capping::integer_capped))]
fn read_integer(s: &[u8]) -> Option<i64>
    ensures { unwrap_or (option_map whole_of result) (invalid s.now) ≡ integer_of s.now }
{
    signed_up_to(s, BEYOND)
}

// ---- decimals

// The digits after the point, if one stands at the front.
#[tactic(auto, unfolding(crate::specs::Decimals::fraction_of))]
fn fraction_digits(s: &[u8]) -> &[u8]
    ensures { result.now ≡ fraction_of s.now }
{
    match s {
        [b'.', rest @ ..] => text::leading_of(rest, Digits),
        _ => &s[..0],
    }
}

// What follows the point and its digits.
#[tactic(auto, unfolding(crate::specs::Decimals::after_fraction))]
fn after_fraction(s: &[u8]) -> &[u8]
    ensures { result.now ≡ after_fraction s.now }
{
    match s {
        [b'.', rest @ ..] => text::trim_start(rest, Digits),
        _ => s,
    }
}

// The letter of an exponent.
#[tactic(auto, unfolding(crate::specs::Decimals::is_mark))]
fn is_mark(b: u8) -> bool
    ensures { result ≡ is_mark b }
{
    matches!(b, b'e' | b'E')
}

// What follows the digits, as an exponent: no text is the exponent 0.
#[tactic(auto, using(crate::proofs::Capping::exponent_at), unfolding(crate::specs::Decimals::exponent_of))]
fn read_exponent(s: &[u8]) -> Option<i64>
    ensures { result ≡ exponent_of s.now }
{
    match s {
        [] => Some(0),
        [mark, rest @ ..] if is_mark(*mark) => signed_up_to(rest, MAX_EXPONENT),
        _ => None,
    }
}

// A finite decimal by its digits, so many of them after the point, and its exponent.
fn scaled_of(minus: bool, digits: &Text, places: usize, exponent: i64) -> Number
    requires { (places ≤ size) × (unsigned_abs exponent ≤ max_exponent) }
    ensures { result ≡ scaled minus (bytes_of digits.now) places exponent }
{
    let rest = text::trim_start(digits.as_slice(), Zeros);
    let significant = text::trim_end(rest, Zeros);
    if significant.is_empty() {
        return without_digits(minus, Size::Finite(0));
    }
    let zeros = rest.len() - significant.len();
    Number {
        value: Value::Float {
            minus,
            size: Size::Finite(exponent - places as i64 + zeros as i64),
        },
        text: text::text_of(significant),
    }
}

// What follows the sign of a text, as a finite decimal of that sign.
fn read_finite(t: &Text) -> Option<Number>
    ensures value { (other : Number) → unwrap_or result other ≡ finite_of (is_negative (bytes_of t.now)) (unsigned (bytes_of t.now)) other }
    ensures read { IfSome result (λ n. is_read n.value ≡ true) }
{
    let s = after_sign(t.as_slice());
    let rest = text::trim_start(s, Digits);
    let fraction = fraction_digits(rest);
    let exponent = read_exponent(after_fraction(rest))?;
    let digits = text::joined_text(text::leading_of(s, Digits), fraction);
    if digits.as_slice().is_empty() {
        return None;
    }
    Some(scaled_of(is_negative(t.as_slice()), &digits, fraction.len(), exponent))
}

// A text as a decimal: inf, infinity and nan in any letter case, or a finite one.
#[inline(never)]
fn read_decimal(t: &Text) -> Option<Number>
    ensures value { unwrap_or result (invalid (bytes_of t.now)) ≡ decimal_of (bytes_of t.now) }
    ensures read { IfSome result (λ n. is_read n.value ≡ true) }
{
    let minus = is_negative(t.as_slice());
    let word = after_sign(t.as_slice());
    if word.eq_ignore_ascii_case(b"inf") || word.eq_ignore_ascii_case(b"infinity") {
        return Some(without_digits(minus, Size::Infinite));
    }
    if word.eq_ignore_ascii_case(b"nan") {
        return Some(without_digits(minus, Size::Nan));
    }
    read_finite(t)
}
