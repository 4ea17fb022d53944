// One card of a header: 80 bytes read as one of its classes, with its name, its text and its comment.
#![tactic(auto)]

ghost use Rattle.std.specs.Prelude.{◌≡◌, ◌≤◌, length, drop};
ghost use Rattle.value.specs.Values.{value_from};
ghost use Rattle.text.specs.Text.{size, text_of};
ghost use Rattle.splitting.specs.Columns.{at_byte};
ghost use Rattle.card.specs.Keywords.{class_of, dotted_name};
ghost use Rattle.card.specs.Columns.{high_from, equals_of, behind, column_in, column_of};
ghost use Rattle.refusal.specs.Numbers.{answer_placed};
ghost use Rattle.card.specs.Cards.{card_as, card_with, of_value, remark_of, empty_of, continuation_of};
ghost use Rattle.card.specs.Cards.{quoted_card, extension_of, hierarch_of, other_of, low_of, card_of};

use numbers::Value;
use refusal::{Fault, Refusal};
use text::{Blanks, Replace, Spaces, Text};

// The classes of cards. A value card and a HIERARCH card hold a value.
#[derive(Clone, Copy)]
pub enum Card {
    Value(Value),
    Continuation,
    Xtension,
    Comment,
    History,
    Hierarch(Value),
    Space,
    End,
    Undefined,
}

// A card with its texts; one that is missing is empty. The name is the keyword, or a HIERARCH card's pieces.
// The text is a value's (a string, an invalid text, a decimal's digits), a CONTINUE or XTENSION card's string, a comment
// or history text, or the whole of an undefined card.
#[derive(Clone, Copy)]
pub struct CardRead {
    pub card: Card,
    pub name: Text,
    pub text: Text,
    pub comment: Option<Text>,
}

// What a keyword says of its card.
#[derive(Clone, Copy)]
pub enum Class {
    Empty,
    Comment,
    History,
    Continue,
    Xtension,
    Hierarch,
    End,
    Other,
}

// The bytes of a card.
pub const CARD: usize = 80;

// The keyword's bytes, where the text of commentary and CONTINUE begins.
pub const KEYWORD: usize = 8;

// Where a HIERARCH card's name begins.
const HIERARCHY: usize = 9;

// Where a value begins.
const VALUE: usize = 10;

// The first byte behind those of ASCII.
const FIRST_HIGH: u8 = 128;

const QUOTE: u8 = b'\'';

const FULL_STOP: u8 = b'.';

// Any 80 bytes as a card, or one refusal. It is a call of its own wherever it is called, and so are the readings of a card with a text
// below: what each keeps on the stack is then there only while it runs (widrekas.h names the limits).
#[inline(never)]
pub fn read_card(card: &[u8; 80]) -> Result<CardRead, Fault>
    ensures { result ≡ card_of card.now }
{
    if let Some(i) = find_high(&card[..]) {
        return Err(refusal::fault_at(Refusal::HighByte, i));
    }
    low_card(card)
}

// What a keyword says of its card.
// A match on the keywords themselves was tried: it asks a goal for each of their bytes, and 47 stayed open.
pub fn class_of(word: &[u8]) -> Class
    ensures { result ≡ class_of word.now }
{
    if word.len() == 0 {
        return Class::Empty;
    }
    if text::same_bytes(word, b"COMMENT") {
        return Class::Comment;
    }
    if text::same_bytes(word, b"HISTORY") {
        return Class::History;
    }
    if text::same_bytes(word, b"CONTINUE") {
        return Class::Continue;
    }
    if text::same_bytes(word, b"XTENSION") {
        return Class::Xtension;
    }
    if text::same_bytes(word, b"HIERARCH") {
        return Class::Hierarch;
    }
    if text::same_bytes(word, b"END") {
        return Class::End;
    }
    Class::Other
}

// A card without a byte of 128 or more, by what its keyword says.
fn low_card(card: &[u8; 80]) -> Result<CardRead, Fault>
    ensures { result ≡ answer_placed (column_of card.now) (low_of card.now) }
{
    let whole = &card[..];
    let word = text::trimmed(text::first_of(whole, KEYWORD), Blanks);
    let name = text::text_of(word);
    match class_of(word) {
        Class::Empty => Ok(unnamed(whole)),
        Class::Comment => Ok(remark(Card::Comment, name, whole)),
        Class::History => Ok(remark(Card::History, name, whole)),
        Class::Continue => continuation(&name, card),
        Class::Xtension => extension(&name, card),
        Class::Hierarch => hierarch(card),
        Class::End => Ok(read_as(Card::End, name, text::empty_text())),
        Class::Other => other(&name, card),
    }
}

// ---- answers

// A card with no comment.
fn read_as(card: Card, name: Text, text: Text) -> CardRead
    ensures { result ≡ card_as card name text }
{
    CardRead {
        card,
        name,
        text,
        comment: None,
    }
}

fn card_with(dotted: bool, value: Value) -> Card
    ensures { result ≡ card_with dotted value }
{
    if dotted {
        return Card::Hierarch(value);
    }
    Card::Value(value)
}

// ---- keywords

// The first byte of 128 or more. Most cards have printable bytes alone, which is seen at once.
fn find_high(s: &[u8]) -> Option<usize>
    ensures { result ≡ high_from s.now 0 }
{
    if text::are_printable(s) {
        return None;
    }
    s.iter().position(|b| FIRST_HIGH <= *b)
}

// ---- the classes

// What stands behind the keyword, replaced and cut at its end.
fn remark_text(whole: &[u8]) -> Text
    requires { length whole.now ≤ size }
    ensures { result ≡ text_of (remark_of whole.now) }
{
    text::changed_text(
        text::trim_end(text::rest_of(whole, KEYWORD), Spaces),
        Replace,
    )
}

fn remark(card: Card, name: Text, whole: &[u8]) -> CardRead
    requires { length whole.now ≤ size }
    ensures { result ≡ card_as card name (text_of (remark_of whole.now)) }
{
    read_as(card, name, remark_text(whole))
}

// An empty keyword: a comment card, or a space card where there is no text.
fn unnamed(whole: &[u8]) -> CardRead
    requires { length whole.now ≤ size }
    ensures { result ≡ empty_of whole.now }
{
    let t = remark_text(whole);
    let none = text::empty_text();
    if t.len == 0 {
        return read_as(Card::Space, none, none);
    }
    read_as(Card::Comment, none, t)
}

#[inline(never)]
fn continuation(name: &Text, card: &[u8; 80]) -> Result<CardRead, Fault>
    ensures { result ≡ answer_placed (column_in 8 card.now) (continuation_of name.now card.now) }
{
    let split = splitting::split(card, KEYWORD);
    match &split.halves {
        Ok(halves) => {
            let text = splitting::parse_string(&halves.value, split.first)?;
            Ok(CardRead {
                card: Card::Continuation,
                name: *name,
                text,
                comment: halves.comment,
            })
        }
        Err(fault) => Err(*fault),
    }
}

#[inline(never)]
fn extension(name: &Text, card: &[u8; 80]) -> Result<CardRead, Fault>
    ensures { result ≡ answer_placed (column_in 10 card.now) (extension_of name.now card.now) }
{
    let split = splitting::split(card, VALUE);
    match &split.halves {
        Ok(halves) => quoted_card(name, &halves.value, split.first),
        Err(fault) => Err(*fault),
    }
}

// An XTENSION card, by its value text, in a text that begins at a byte of the card.
fn quoted_card(name: &Text, v: &Text, first: usize) -> Result<CardRead, Fault>
    ensures { result ≡ answer_placed (at_byte first) (quoted_card name.now v.now) }
{
    let s = v.as_slice();
    let n = s.len();
    if n < 2 {
        return Err(refusal::fault_at(Refusal::ExtensionNotQuoted, first));
    }
    if s[0] != QUOTE {
        return Err(refusal::fault_at(Refusal::ExtensionNotQuoted, first));
    }
    if s[n - 1] != QUOTE {
        return Err(refusal::fault_at(Refusal::ExtensionNotQuoted, first));
    }
    let inner = text::trimmed(&s[1..n - 1], Spaces);
    Ok(read_as(Card::Xtension, *name, text::text_of(inner)))
}

fn hierarch(card: &[u8; 80]) -> Result<CardRead, Fault>
    ensures { result ≡ answer_placed (column_in (behind (equals_of card.now)) card.now)
        (hierarch_of card.now) }
{
    let rest = text::rest_of(&card[..], HIERARCHY);
    let Some(i) = text::find_byte(rest, b'=') else {
        return Err(refusal::fault_at(Refusal::NoEquals, HIERARCHY));
    };
    let name = dotted_name(text::first_of(rest, i));
    if name.len == 0 {
        return Err(refusal::fault_at(Refusal::NoName, HIERARCHY + i));
    }
    value_card(true, &name, card, VALUE + i)
}

// The blank-separated pieces of a text, joined by full stops.
fn dotted_name(s: &[u8]) -> Text
    requires { length s.now ≤ size }
    ensures { result ≡ text_of (dotted_name s.now) }
{
    let mut bytes = [0u8; 80];
    let mut n: usize = 0;
    let mut gap = false;
    for &b in s {
        if text::is_blank(b) {
            gap = 0 < n;
            continue;
        }
        if gap {
            gap = false;
            bytes[n] = FULL_STOP;
            n += 1;
        }
        bytes[n] = b;
        n += 1;
    }
    Text { bytes, len: n }
}

// A card with any other keyword: a value card, or undefined where no "= " follows.
fn other(name: &Text, card: &[u8; 80]) -> Result<CardRead, Fault>
    ensures { result ≡ answer_placed (column_in 10 card.now) (other_of name.now card.now) }
{
    let whole = &card[..];
    if text::same_bytes(text::first_of(text::rest_of(whole, KEYWORD), 2), b"= ") {
        return value_card(false, name, card, VALUE);
    }
    Ok(read_as(Card::Undefined, *name, text::text_of(whole)))
}

// A card that holds the value which stands on it from a byte on.
#[inline(never)]
fn value_card(dotted: bool, name: &Text, card: &[u8; 80], from: usize) -> Result<CardRead, Fault>
    ensures { result ≡ of_value dotted name.now (value_from from (drop from card.now)) }
{
    let read = value::read_value(card, from)?;
    Ok(CardRead {
        card: card_with(dotted, read.value),
        name: *name,
        text: read.text,
        comment: read.comment,
    })
}
