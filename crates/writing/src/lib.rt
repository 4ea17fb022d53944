// Cards that hold a name and its value, written into a lent block.
#![tactic(auto)]

ghost use Rattle.std.specs.Prelude.{◌≡◌, Err, true, ◌&&◌, ◌∷◌, ◌++◌, ◌+◌, ◌-◌, ◌*◌, ◌≤◌, leb, ltb, length, take};
ghost use Rattle.std.proofs.lemmas.List.Edits.{sets};
ghost use Rattle.text.specs.Text.{size, text_of, bytes_of};
ghost use Rattle.refusal.specs.Numbers.{fault_of};
ghost use Rattle.numbers.specs.declared.Size.TheVariants.{Finite};
ghost use Rattle.numbers.specs.declared.Value.TheVariants.{Float};
ghost use Rattle.numerals.specs.Numerals.{minus_of};
ghost use Rattle.writing.specs.Pieces.{doubled, tail_of, bytes_for, fitting, piece_text, text_room, comment_lent};
ghost use Rattle.writing.specs.Pieces.{open_room, fits, last_piece, open_piece, pieces_of};
ghost use Rattle.writing.specs.Written.{name_front, continue_front, truth_text, decimal_text, number_room};
ghost use Rattle.writing.specs.Written.{plain_text, plain_cards, string_cards, written_cards};
ghost use Rattle.writing.specs.Rules.{is_name_byte, is_name, is_remark, is_comment, is_short, ends_well, is_text};
ghost use Rattle.writing.specs.Rules.{is_significant, is_power, fits_card, is_value, remark_limit};
ghost use Rattle.writing.specs.Block.{write_of};
ghost use Rattle.writing.specs.Passes.{spaces, spaced, in_quotes, closed_by};
ghost use Rattle.writing.specs.Passes.{body_of, bodies_of, scale_of, write_outcome, put_where};

use card::{CARD, Class};
use numbers::{Size, Value};
use numerals::integer_text;
use refusal::{Fault, Refusal};
use text::{ByteClass, Digits, Text, Zeros};

// What stands beside a value: a name that may be written, and a comment that is no longer than a card, or none.
#[derive(Clone, Copy)]
struct Label<'a> {
    name: &'a [u8],
    comment: Option<&'a [u8]>,
    ghost name_short: { length name.now ≤ 8 },
    ghost comment_short: { length (tail_of (comment_lent comment)) ≤ 72 },
}

const SPACE: u8 = b' ';

const QUOTE: u8 = b'\'';

// A name stands in bytes 0 to 7 of a card, its value from byte 10 on, up to byte 79.
const NAME_ROOM: usize = 8;

const FRONT: usize = 10;

const TEXT_ROOM: usize = 70;

// A logical or number ends at byte 29 if it has at most 20 bytes.
const NUMBER_ROOM: usize = 20;

// The bytes between the quotes of a card, and those before the & of a string that goes on.
const QUOTED_ROOM: usize = 68;

const OPEN_ROOM: usize = 67;

// The longest string, and the longest comment beside one.
const TEXT_LIMIT: usize = 2000;

const REMARK_LIMIT: usize = 65;

const MAX_POWER: i64 = 99_999;

// Writes the cards of a name and its value at the front of a lent block, with a comment where there is one. A decimal's digits or a
// string's text stands in `text`. What follows the cards in the block stays; a refusal leaves all of it.
pub fn write(
    name: &[u8],
    value: Value,
    text: &[u8],
    comment: Option<&[u8]>,
    block: &mut [u8],
) -> Result<usize, Fault>
    ensures value { result ≡ (write_of name.now value text.now (comment_lent comment.entry) block.old).answer }
    ensures block_after { block.new ≡ (write_of name.now value text.now (comment_lent comment.entry) block.old).block }
{
    if !is_name(name) {
        return refused(Refusal::UnwritableName);
    }
    if !is_comment(comment) {
        return refused(Refusal::UnwritableValue);
    }
    let label = Label { name, comment };
    label.write_value(value, text, block)
}

// ---- what may be written

// A to Z, 0 to 9, hyphen and underscore.
#[derive(Clone, Copy)]
struct NameBytes;

impl ByteClass for NameBytes {
    ghost test = { is_name_byte };

    #[tactic(auto, unfolding(crate::specs::Rules::is_name_byte, text::specs::Bytes::is_digit))]
    fn has(self, b: u8) -> bool {
        matches!(b, b'A'..=b'Z' | b'0'..=b'9' | b'-' | b'_')
    }
}

// 1 to 8 bytes that are allowed in names, and no special keyword.
fn is_name(name: &[u8]) -> bool
    ensures { result ≡ is_name name.now }
{
    name.len() <= NAME_ROOM
        && text::every(name, NameBytes)
        && matches!(card::class_of(name), Class::Other)
}

// A comment that is printable, with no space at its end.
fn is_remark(comment: &[u8]) -> bool
    ensures { result ≡ is_remark comment.now }
{
    text::are_printable(comment) && !comment.ends_with(b" ")
}

// Whether a comment has at most n bytes, or there is none.
fn is_short(n: usize, comment: Option<&[u8]>) -> bool
    ensures { result ≡ is_short n (comment_lent comment.entry) }
{
    comment.is_none_or(|c| c.len() <= n)
}

// Whether a comment may be written on some card, or there is none. One that is longer than a card is not looked at.
fn is_comment(comment: Option<&[u8]>) -> bool
    ensures { result ≡ (is_short text_room (comment_lent comment.entry) && is_comment (comment_lent comment.entry)) }
{
    comment.is_none_or(|c| c.len() <= TEXT_ROOM && is_remark(c))
}

// No space at the end unless it is one space, and no & there.
fn ends_well(s: &[u8]) -> bool
    ensures { result ≡ ends_well s.now }
{
    !s.ends_with(b"&") && (!s.ends_with(b" ") || text::same_bytes(s, b" "))
}

// A string that may be written.
fn is_text(s: &[u8]) -> bool
    ensures { result ≡ is_text s.now }
{
    s.len() <= TEXT_LIMIT && text::are_printable(s) && ends_well(s)
}

// Digits without a zero at either end.
fn is_significant(digits: &[u8]) -> bool
    ensures { result ≡ is_significant digits.now }
{
    text::every(digits, Digits) && text::same_bytes(text::trimmed(digits, Zeros), digits)
}

// A power of at most 99,999 in size, and 0 where there are no digits.
fn is_power(digits: &[u8], power: i64) -> bool
    ensures { result ≡ is_power digits.now power }
{
    if digits.is_empty() {
        return power == 0;
    }
    -MAX_POWER <= power && power <= MAX_POWER
}

// Whether a finite decimal may be written on some card. Digits that are longer than a card are not looked at.
fn is_decimal(digits: &[u8], power: i64) -> bool
    ensures { result ≡ (leb (length digits.now) text_room && (is_significant digits.now && is_power digits.now power)) }
{
    digits.len() <= TEXT_ROOM && is_significant(digits) && is_power(digits, power)
}

// ---- parts of a card, put into a lent block from a place on. Block and place stand side by side, as `text::put_at` takes them: a pen
// that held both would hide at each call where the part goes.

// Spaces up to an end; none where that is passed.
fn put_spaces(block: &mut [u8], from: usize, end: usize)
    requires { end ≤ length block.old }
    ensures { block.new ≡ sets block.old from (spaces (end - from)) }
{
    if end <= from {
        return;
    }
    block[from..end].fill(SPACE);
}

// The bytes that a character takes within quotes.
#[tactic(auto, unfolding(crate::specs::Pieces::bytes_for))]
fn bytes_for(b: u8) -> usize
    ensures { result ≡ bytes_for b }
{
    if b == QUOTE { 2 } else { 1 }
}

// One character within quotes.
fn put_byte(b: u8, block: &mut [u8], at: usize) -> usize
    requires { at + bytes_for b ≤ length block.old }
    ensures value { result ≡ at + bytes_for b }
    ensures block_after { block.new ≡ sets block.old at (in_quotes b) }
{
    block[at] = b;
    if b == QUOTE {
        block[at + 1] = QUOTE;
        return at + 2;
    }
    at + 1
}

// A text as it stands within quotes: all at once where there is no quote in it. Answers the place behind it.
fn put_doubled(s: &[u8], block: &mut [u8], at: usize) -> usize
    requires { at + length (doubled s.now) ≤ length block.old }
    ensures value { result ≡ at + length (doubled s.now) }
    ensures block_after { block.new ≡ sets block.old at (doubled s.now) }
{
    if !s.contains(&QUOTE) {
        text::put_at(s, block, at);
        return at + s.len();
    }
    let mut end = at;
    for &b in s {
        end = put_byte(b, block, end);
    }
    end
}

// The comment, if there is one, then spaces up to an end.
fn put_tail(comment: Option<&[u8]>, block: &mut [u8], from: usize, end: usize)
    requires { (from + length (tail_of (comment_lent comment)) ≤ end) × (end ≤ length block.old) }
    ensures { block.new ≡ sets block.old from (spaced (end - from) (tail_of (comment_lent comment.entry))) }
{
    let Some(c) = comment else {
        put_spaces(block, from, end);
        return;
    };
    text::put_at(b" /", block, from);
    text::put_at(c, block, from + 2);
    put_spaces(block, from + 2 + c.len(), end);
}

// The name, spaces to byte 7, and "= ".
fn put_name(name: &[u8], block: &mut [u8])
    requires { (length name.now ≤ 8) × (10 ≤ length block.old) }
    ensures { block.new ≡ sets block.old 0 (name_front name.now) }
{
    text::put_at(name, block, 0);
    put_spaces(block, name.len(), NAME_ROOM);
    text::put_at(b"= ", block, NAME_ROOM);
}

// ---- the cards of a string

// How many bytes a comment takes behind a value.
fn tail_length(comment: Option<&[u8]>) -> usize
    requires { length (tail_of (comment_lent comment)) ≤ 72 }
    ensures { result ≡ length (tail_of (comment_lent comment.entry)) }
{
    comment.map_or(0, |c| c.len() + 2)
}

// How many characters fit in a room: one a byte where there is no quote among them.
fn fitting_length(s: &[u8], room: usize) -> usize
    ensures { result ≡ length (fitting room s.now) }
{
    let part = text::first_of(s, room);
    if !part.contains(&QUOTE) {
        return part.len();
    }
    let mut left = room;
    for (i, &b) in s.iter().enumerate() {
        if left < bytes_for(b) {
            return i;
        }
        left -= bytes_for(b);
    }
    s.len()
}

// Whether a text within quotes takes more bytes than a room has.
fn exceeds(s: &[u8], room: usize) -> bool
    ensures { result ≡ ltb room (length (doubled s.now)) }
{
    room < s.len() || fitting_length(s, room) < s.len()
}

// How many cards a string takes.
#[tactic(auto, using(crate::proofs::Cutting::fitting_within))]
fn count_pieces(s: &[u8], comment: Option<&[u8]>) -> usize
    requires { length (tail_of (comment_lent comment)) ≤ 67 }
    ensures { result ≡ length (pieces_of s.now (comment_lent comment.entry)) }
{
    let room = QUOTED_ROOM - tail_length(comment);
    let mut rest = s;
    let mut n = 1;
    // Where a piece ends is known only once it is measured, so no chunks and no range go over them.
    while exceeds(rest, room) {
        rest = &rest[fitting_length(rest, OPEN_ROOM)..];
        n += 1;
    }
    n
}

// Puts as many characters as fit in a room between a quote and what closes them, then a comment and spaces, up to the end of a card.
// Answers how many characters it took.
fn put_piece(
    s: &[u8],
    room: usize,
    close: &[u8],
    comment: Option<&[u8]>,
    block: &mut [u8],
    at: usize,
) -> usize
    requires { (room + length close.now + length (tail_of (comment_lent comment)) ≤ 69) × (at + 70 ≤ length block.old) }
    ensures value { result ≡ length (fitting room s.now) }
    ensures block_after { block.new
        ≡ sets block.old at (body_of (closed_by close.now (fitting room s.now) (comment_lent comment.entry))) }
{
    let taken = fitting_length(s, room);
    text::put_at(b"'", block, at);
    let end = put_doubled(text::first_of(s, taken), block, at + 1);
    text::put_at(close, block, end);
    put_tail(comment, block, end + close.len(), at + TEXT_ROOM);
    taken
}

// The open card of a string from byte 10 on, and the front of the card behind it. Answers how many characters it took.
fn put_open(s: &[u8], block: &mut [u8], at: usize) -> usize
    requires { at + 80 ≤ length block.old }
    ensures value { result ≡ length (fitting open_room s.now) }
    ensures block_after { block.new
        ≡ sets block.old at (body_of (piece_text (open_piece s.now)) ++ continue_front) }
{
    let taken = put_piece(s, OPEN_ROOM, b"&'", None, block, at);
    text::put_at(b"CONTINUE  ", block, at + TEXT_ROOM);
    taken
}

// The last card of a string from byte 10 on.
fn put_last(s: &[u8], comment: Option<&[u8]>, block: &mut [u8], at: usize)
    requires { (fits (last_piece s.now (comment_lent comment)) ≡ true) × (at + 70 ≤ length block.old) }
    ensures { block.new ≡ sets block.old at (body_of (piece_text (last_piece s.now (comment_lent comment.entry)))) }
{
    let room = QUOTED_ROOM - tail_length(comment);
    put_piece(s, room, b"'", comment, block, at);
}

// The n cards of a string from byte 10 of the first one on.
#[tactic(auto, using(crate::proofs::Cutting::fitting_within))]
fn put_pieces(s: &[u8], n: usize, comment: Option<&[u8]>, block: &mut [u8])
    requires { (length (tail_of (comment_lent comment)) ≤ 67)
        × (n ≡ length (pieces_of s.now (comment_lent comment))) × (80 * n ≤ length block.old) }
    ensures { block.new ≡ sets block.old 10 (bodies_of (pieces_of s.now (comment_lent comment.entry))) }
{
    let mut rest = s;
    let mut at = FRONT;
    for _ in 1..n {
        let taken = put_open(rest, block, at);
        rest = &rest[taken..];
        at += CARD;
    }
    put_last(rest, comment, block, at);
}

// ---- logicals and numbers

// T or F.
fn truth_text(t: bool) -> Text
    ensures { result ≡ text_of (truth_text t) }
{
    text::text_of(if t { b"T" } else { b"F" })
}

// The sign and the digits of a decimal.
fn signed_text(minus: bool, digits: &[u8]) -> Text
    ensures { result ≡ text_of (take size (minus_of minus ++ digits.now)) }
{
    if minus {
        return text::joined_text(b"-", digits);
    }
    text::text_of(digits)
}

// What stands behind the digits of a decimal. Zero, which has no digits, is 0E0.
fn scale_text(digits: &[u8], power: i64) -> Text
    ensures { result ≡ text_of (scale_of digits.now power) }
{
    if digits.is_empty() {
        return text::text_of(b"0E0");
    }
    numerals::power_text(b'E', power)
}

// A decimal, or its first 80 bytes.
fn decimal_text(minus: bool, digits: &[u8], power: i64) -> Text
    requires { length digits.now ≤ 70 }
    ensures { result ≡ text_of (take size (decimal_text minus digits.now power)) }
{
    let front = signed_text(minus, digits);
    let behind = scale_text(digits, power);
    text::joined_text(front.as_slice(), behind.as_slice())
}

// How many spaces stand before a logical or number of n bytes.
fn margin(n: usize) -> usize
    ensures { result ≡ number_room - n }
{
    NUMBER_ROOM.saturating_sub(n)
}

// A logical or number and its comment from byte 10 on.
fn put_number(t: &[u8], comment: Option<&[u8]>, block: &mut [u8])
    requires { (fits_card t.now (comment_lent comment) ≡ true) × (80 ≤ length block.old) }
    ensures { block.new ≡ sets block.old 10 (body_of (plain_text t.now (comment_lent comment.entry))) }
{
    let start = FRONT + margin(t.len());
    put_spaces(block, FRONT, start);
    text::put_at(t, block, start);
    put_tail(comment, block, start + t.len(), CARD);
}

// ---- cards in a lent block

fn refused(why: Refusal) -> Result<usize, Fault>
    ensures { result ≡ Err (fault_of why) }
{
    Err(refusal::fault_of(why))
}

impl Label<'_> {
    // Whether a logical or number of n bytes fits a card beside the comment.
    fn has_room(self, n: usize) -> bool
        requires { n ≤ 80 }
        ensures { result ≡ leb (number_room - n + n + length (tail_of (comment_lent self.entry.comment))) text_room }
    {
        margin(n) + n + tail_length(self.comment) <= TEXT_ROOM
    }

    // The card of a logical or number.
    fn write_plain(self, t: Text, block: &mut [u8]) -> Result<usize, Fault>
        ensures { write_outcome result block.new ≡ put_where
            (fits_card (bytes_of t) (comment_lent self.entry.comment))
            (plain_cards self.entry.name.now (bytes_of t) (comment_lent self.entry.comment)) block.old }
    {
        let own = t.as_slice();
        if !self.has_room(own.len()) {
            return refused(Refusal::UnwritableValue);
        }
        if block.len() < CARD {
            return refused(Refusal::BlockShort);
        }
        put_name(self.name, block);
        put_number(own, self.comment, block);
        Ok(1)
    }

    // The card of a finite decimal.
    fn write_decimal(
        self,
        minus: bool,
        digits: &[u8],
        power: i64,
        block: &mut [u8],
    ) -> Result<usize, Fault>
        ensures { write_outcome result block.new ≡ put_where
            (is_value (Float minus (Finite power)) digits.now (comment_lent self.entry.comment))
            (plain_cards self.entry.name.now (decimal_text minus digits.now power) (comment_lent self.entry.comment))
            block.old }
    {
        if !is_decimal(digits, power) {
            return refused(Refusal::UnwritableValue);
        }
        self.write_plain(decimal_text(minus, digits, power), block)
    }

    // The cards of a string.
    fn write_string(self, text: &[u8], block: &mut [u8]) -> Result<usize, Fault>
        ensures { write_outcome result block.new ≡ put_where
            (is_text text.now && is_short remark_limit (comment_lent self.entry.comment))
            (string_cards self.entry.name.now (pieces_of text.now (comment_lent self.entry.comment)))
            block.old }
    {
        if !is_short(REMARK_LIMIT, self.comment) || !is_text(text) {
            return refused(Refusal::UnwritableValue);
        }
        let n = count_pieces(text, self.comment);
        if block.len() / CARD < n {
            return refused(Refusal::BlockShort);
        }
        put_name(self.name, block);
        put_pieces(text, n, self.comment, block);
        Ok(n)
    }

    // The cards of a value of any kind.
    fn write_value(self, value: Value, text: &[u8], block: &mut [u8]) -> Result<usize, Fault>
        ensures { write_outcome result block.new ≡ put_where
            (is_value value text.now (comment_lent self.entry.comment))
            (written_cards value self.entry.name.now text.now (comment_lent self.entry.comment))
            block.old }
    {
        match value {
            Value::Integer(z) => self.write_plain(integer_text(z), block),
            Value::Float { minus, size } => match size {
                Size::Finite(power) => self.write_decimal(minus, text, power, block),
                Size::Infinite => refused(Refusal::UnwritableValue),
                Size::Nan => refused(Refusal::UnwritableValue),
            },
            Value::Logical(t) => self.write_plain(truth_text(t), block),
            Value::String => self.write_string(text, block),
            // Each kind that is never written has an arm of its own: an arm of several kinds hides from the proof which it is.
            Value::Undefined => refused(Refusal::UnwritableValue),
            Value::Invalid => refused(Refusal::UnwritableValue),
        }
    }
}
