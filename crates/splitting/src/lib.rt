// A card's text taken apart into value text and comment, and value texts read as strings.
#![tactic(auto)]

ghost use Rattle.std.specs.Prelude.{◌≡◌, true, ◌+◌, ◌-◌, ◌≤◌, ◌<◌, map, length, drop};
ghost use Rattle.text.specs.Bytes.{is_space, shown, are_printable};
ghost use Rattle.text.specs.Trim.{trim, trim_end};
ghost use Rattle.text.specs.Text.{size, text_of, bytes_of};
ghost use Rattle.splitting.specs.Strings.{settled_of};
ghost use Rattle.splitting.specs.Columns.{split_from, string_from};
ghost use Rattle.splitting.specs.Scanned.{scanned_of, first_of, halves_at, Stretches, Passed, PassedString};

use refusal::{Fault, Refusal};
use text::{Blanks, Replace, Spaces, Text};

// A value text, and the comment behind its slash, which may be empty, if there is one.
#[derive(Clone, Copy)]
pub struct Halves {
    pub value: Text,
    pub comment: Option<Text>,
}

// The halves of a text, unless a byte before the slash is refused, and the byte of the card at which it begins, its blanks aside.
#[derive(Clone, Copy)]
pub struct SplitRead {
    pub first: usize,
    pub halves: Result<Halves, Fault>,
}

// Where the scan of a text stands: outside a string, inside one, or after a quote that may close it.
#[derive(Clone, Copy)]
pub enum Quoting {
    Outside,
    Inside,
    Closed,
}

// The slash's place, or none, or the place of a byte that is refused. Three ways, so it is no Option and no Result.
#[derive(Clone, Copy)]
pub enum Slash {
    At(usize),
    Nowhere,
    Bad(usize),
}

// How far a text is its own value text: up to the slash at a place, or all of it; or it is not known. Three ways here too.
#[derive(Clone, Copy)]
pub enum Stretch {
    UpTo(usize),
    All,
    Unknown,
}

// The value text up to the slash stands beside its place.
#[derive(Clone, Copy)]
pub struct Scanned {
    pub slash: Slash,
    pub value: Text,
}

const QUOTE: u8 = b'\'';

const SLASH: u8 = b'/';

// The text that stands on a card from a byte on, taken apart at its slash. Most blanks at its end are spaces, which are cut first.
pub fn split(card: &[u8; 80], from: usize) -> SplitRead
    ensures { result ≡ split_from from (drop from card.now) }
{
    let raw = text::rest_of(&card[..], from);
    let rest = text::trim_start(raw, Blanks);
    let first = first_byte(from, raw.len(), rest.len());
    let halves = halves_of(text::trim_end(text::trim_end(rest, Spaces), Blanks), first);
    SplitRead { first, halves }
}

// A value text as a string, with or without quotes. The text that it was split from begins at a byte of the card.
pub fn parse_string(t: &Text, first: usize) -> Result<Text, Fault>
    ensures { result ≡ string_from first (bytes_of t.now) }
{
    unquoted(t.as_slice(), first)
}

// The byte of the card at which a text begins, by the byte that it stands from and by its lengths with and without the blanks at its front.
fn first_byte(from: usize, all: usize, left: usize) -> usize
    requires { (left ≤ all) × (all ≤ size - from) }
    ensures { result ≡ first_of from all left }
{
    if left == 0 {
        return from;
    }
    from + (all - left)
}

// A text without its blanks taken apart, which begins at a byte of the card. Most texts are their own value texts, which are not
// stored byte by byte.
fn halves_of(s: &[u8], first: usize) -> Result<Halves, Fault>
    requires { (length s.now ≤ size) × (0 < length s.now → first ≤ size) }
    ensures { result ≡ halves_at first s.now }
{
    match stretch_of(s) {
        Stretch::UpTo(i) => Ok(Halves {
            value: text::text_of(text::trimmed(&s[..i], Spaces)),
            comment: Some(comment_of(&s[i + 1..])),
        }),
        Stretch::All => Ok(Halves {
            value: text::text_of(text::trimmed(s, Spaces)),
            comment: None,
        }),
        Stretch::Unknown => halves_scanned(s, first),
    }
}

// How far a text of printable bytes with no doubled quote is its own value text.
fn stretch_of(s: &[u8]) -> Stretch
    requires { length s.now ≤ size }
    ensures { Stretches result s.now }
{
    if !text::are_printable(s) {
        return Stretch::Unknown;
    }
    let mut i = 0;
    // A string is passed over at once, so the place moves by its length.
    while i < s.len() {
        let b = s[i];
        if b == SLASH {
            return Stretch::UpTo(i);
        }
        if b == QUOTE {
            let end = behind_string(s, i + 1);
            if s.len() <= end {
                return Stretch::All;
            }
            let next = s[end];
            if next == QUOTE {
                return Stretch::Unknown;
            }
            if next == SLASH {
                return Stretch::UpTo(end);
            }
            i = end + 1;
            continue;
        }
        i += 1;
    }
    Stretch::All
}

// The place behind the quote that closes a string, of which the bytes from a place on are left; the end of the text where none does.
fn behind_string(s: &[u8], from: usize) -> usize
    requires { Passed s.now Quoting.Inside from × (are_printable s.now ≡ true) × (length s.now ≤ size) }
    ensures { PassedString s.now from result }
{
    let Some(k) = text::find_byte(text::rest_of(s, from), QUOTE) else {
        return s.len();
    };
    from + k + 1
}

// The same of any text, by its scan.
fn halves_scanned(s: &[u8], first: usize) -> Result<Halves, Fault>
    requires { (length s.now ≤ size) × (0 < length s.now → first ≤ size) }
    ensures { result ≡ halves_at first s.now }
{
    let found = scan(s);
    let value = spaces_off(found.value);
    match found.slash {
        Slash::At(i) => Ok(Halves {
            value,
            comment: Some(comment_of(&s[i + 1..])),
        }),
        Slash::Nowhere => Ok(Halves {
            value,
            comment: None,
        }),
        Slash::Bad(i) => Err(refusal::fault_at(Refusal::OddByte, first + i)),
    }
}

// The scan of a trimmed text: it ends at the first slash outside a string.
fn scan(s: &[u8]) -> Scanned
    requires { length s.now ≤ size }
    ensures { result ≡ scanned_of s.now }
{
    let mut slash = Slash::Nowhere;
    let mut state = Quoting::Outside;
    let mut bytes = [0u8; 80];
    let mut n = 0;
    let mut i = 0;
    // A doubled quote takes two bytes of the text and gives one.
    while i < s.len() {
        let b = s[i];
        match state {
            Quoting::Outside => {
                if b == QUOTE {
                    state = Quoting::Inside;
                } else if b == SLASH {
                    slash = Slash::At(i);
                    break;
                } else if !text::is_printable(b) {
                    slash = Slash::Bad(i);
                    break;
                }
            }
            Quoting::Inside => {
                if b == QUOTE {
                    state = Quoting::Closed;
                }
            }
            Quoting::Closed => {
                if b == QUOTE {
                    state = Quoting::Inside;
                    i += 1;
                    continue;
                }
                if b == SLASH {
                    slash = Slash::At(i);
                    break;
                }
                if text::is_printable(b) {
                    state = Quoting::Outside;
                }
            }
        }
        bytes[n] = text::replaced(b);
        n += 1;
        i += 1;
    }
    Scanned {
        slash,
        value: Text { bytes, len: n },
    }
}

// A text without spaces at either end.
fn spaces_off(t: Text) -> Text
    ensures { result ≡ text_of (trim is_space (bytes_of t)) }
{
    text::text_of(text::trimmed(t.as_slice(), Spaces))
}

// What follows the slash.
fn comment_of(s: &[u8]) -> Text
    requires { length s.now ≤ size }
    ensures { result ≡ text_of (trim_end is_space (map shown s.now)) }
{
    text::changed_text(text::trim_end(s, Spaces), Replace)
}

// The text within the quotes: empty stays empty; otherwise spaces at the end go, and what was only spaces is one space.
fn settled(s: &[u8]) -> Text
    requires { length s.now ≤ size }
    ensures { result ≡ text_of (settled_of s.now) }
{
    if s.len() == 0 {
        return text::empty_text();
    }
    let t = text::trim_end(s, Spaces);
    if t.len() == 0 {
        return text::text_of(b" ");
    }
    text::text_of(t)
}

// The string that a value text's bytes give, where the text that it was split from begins at a byte of the card.
fn unquoted(s: &[u8], first: usize) -> Result<Text, Fault>
    requires { length s.now ≤ size }
    ensures { result ≡ string_from first s.now }
{
    let n = s.len();
    if n == 0 {
        return Ok(text::empty_text());
    }
    if s[0] == QUOTE {
        if n == 1 {
            return Err(refusal::fault_at(Refusal::StringNotClosed, first));
        }
        if s[n - 1] == QUOTE {
            return Ok(settled(&s[1..n - 1]));
        }
        return Err(refusal::fault_at(Refusal::StringNotClosed, first));
    }
    if s[n - 1] == QUOTE {
        return Err(refusal::fault_at(Refusal::StringNotOpened, first));
    }
    Ok(settled(s))
}
