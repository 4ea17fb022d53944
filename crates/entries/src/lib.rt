// An entry of a header by its halves: its value with its text, and its comment, each joined with the CONTINUE cards that follow it; a
// name looked up.
#![tactic(auto)]

ghost use Rattle.std.specs.Prelude.{◌≡◌, true, cond, ◌&&◌, [], ◌+◌, ◌/◌, ◌≤◌, ◌<◌, length, take, drop, Some, Err};
ghost use Rattle.std.proofs.lemmas.List.Edits.{sets};
ghost use Rattle.text.specs.Text.{size, text_of, bytes_of};
ghost use Rattle.refusal.specs.Numbers.{fault_of};
ghost use Rattle.roles.specs.Roles.{has_text, has_digits, comment_read};
ghost use Rattle.roles.specs.Cards.{roles_of, role_no};
ghost use Rattle.joining.specs.Words.{ends_open, adds_nothing, join_text, join_comment};
ghost use Rattle.entries.specs.Halves.{named, numbered, numbered_from, value_named, value_numbered, value_in, value_left, value_laid};
ghost use Rattle.entries.specs.Halves.{no_value, comment_named, comment_numbered, comment_in, comment_left, comment_laid, comment_half};
ghost use Rattle.entries.specs.Passes.{sought_at, IsWithin, Spotted, heard, span, words_at, string_at};
ghost use Rattle.entries.specs.Passes.{IsOpenAt, IsWide, BeginsWith, longest_joined, ampersands, opens_by, reached_by};
ghost use Rattle.entries.specs.Passes.{NextText, JoinedTexts, NextComment, JoinedComments};

use card::{CARD, CardRead};
use finding::Stop;
use numbers::Value;
use refusal::{Fault, Refusal};
use roles::Role;
use text::{Spaces, Text};

// Why no entry is answered: where the header is refused; or a refusal without a card.
#[derive(Clone, Copy)]
pub enum NoEntry {
    Header(Stop),
    Refused(Fault),
}

// What the value's half answers. Beside the value, or the refusal, stand a decimal's digits, and how long the text is: what was written
// to the lent buffer or, where that is too short, the room that is wanted.
#[derive(Clone, Copy)]
pub struct ValueHalf {
    pub answer: Result<Value, NoEntry>,
    pub digits: Text,
    pub text: usize,
}

// What the comment's half answers: whether there is a comment. Beside it, or the refusal, stands how long the comment is: what was
// written, or the room that is wanted. The length is no part of the Ok, since refusal 13 has one too: the clause `comment_left` of
// the public calls and `comment-room` of `LookupHalves` (demands/specs/Halves.antt) hold it.
#[derive(Clone, Copy)]
pub struct CommentHalf {
    pub answer: Result<bool, NoEntry>,
    pub comment: usize,
}

// Whether more may be joined: it may, it may not, or a refused card was met. Three ways, so it is no Option and no Result.
#[derive(Clone, Copy)]
pub enum Reach {
    On,
    Ended,
    Met(Stop),
}

// How long a joined text is, and whether more may be joined.
#[derive(Clone, Copy)]
pub struct TextHeld {
    pub length: usize,
    pub reach: Reach,
}

// How long a joined comment is, if there is one. Of the text the ampersands at its end are known: they say whether more may be joined.
#[derive(Clone, Copy)]
pub struct CommentHeld {
    pub ampersands: usize,
    pub comment: Option<usize>,
    pub reach: Reach,
}

// An entry whose own text is open: its header, its card's number there, and what is read of that card.
#[derive(Clone, Copy)]
struct Open<'a> {
    header: &'a [u8],
    card: usize,
    part: &'a CardRead,
    ghost opened: { IsOpenAt header.now card },
    ghost begins: { BeginsWith part.now (words_at header.now card) },
}

// A header of so many cards has small scratch: three blocks of 36. Clearing the large one costs more than reading a card.
const FEW_CARDS: usize = 108;

const AMPERSAND: u8 = b'&';

// The value of the last entry that bears the name, with its text, joined, in the lent buffer.
pub fn lookup_value(header: &[u8], name: &[u8], text: &mut [u8]) -> ValueHalf
    ensures { value_left result text.new
        ≡ value_named header.now name.now text.old }
{
    value_of(header, find_name(header, name), text)
}

// Whether that entry has a comment, and the comment, joined, in the lent buffer.
pub fn lookup_comment(header: &[u8], name: &[u8], comment: &mut [u8]) -> CommentHalf
    ensures { comment_left result comment.new
        ≡ comment_named header.now name.now comment.old }
{
    comment_of(header, find_name(header, name), comment)
}

// The value of the entry at a card's number. A refused card that is met, there or while the entry is joined, is the answer, with its
// number. Other cards are not looked at, so END may stand before that number.
pub fn value_at(header: &[u8], i: usize, text: &mut [u8]) -> ValueHalf
    ensures { value_left result text.new ≡ value_numbered header.now i text.old }
{
    value_of(header, find_card(header, i), text)
}

// The comment of the entry at a card's number.
pub fn comment_at(header: &[u8], i: usize, comment: &mut [u8]) -> CommentHalf
    ensures { comment_left result comment.new ≡ comment_numbered header.now i comment.old }
{
    comment_of(header, find_card(header, i), comment)
}

// ---- where an entry is sought: at a card that the header has, or nowhere, or a card stops the reading

// The last entry that bears a name.
fn find_name(header: &[u8], name: &[u8]) -> Result<Option<usize>, Stop>
    ensures { Spotted result header.now (named header.now name.now) }
{
    let found = finding::find(header, name)?;
    Ok(found.last)
}

// A card's number.
fn find_card(header: &[u8], i: usize) -> Result<Option<usize>, Stop>
    ensures { Spotted result header.now (numbered header.now i) }
{
    if roles::is_bad_length(header.len()) {
        let fault = refusal::fault_of(Refusal::HeaderLength);
        return Err(finding::stop_at(fault, 0));
    }
    if header.len() / CARD <= i {
        return Ok(None);
    }
    Ok(Some(i))
}

// ---- the value's half
// Its functions have twins in the comment's half. Both share `find_name`, `find_card` and `Open`. They differ in all that a type
// parameter would have to give: the answer, what a refusal leaves in it, what is laid (a text and digits; a comment, or none), what is held
// while cards are joined (a length; a count of ampersands and a length, if any), and the definition that each clause cites.

// A refusal, with no reading beside it, and the room that is wanted.
fn no_value(why: NoEntry, wanted: usize) -> ValueHalf
    ensures { result ≡ no_value why wanted }
{
    ValueHalf {
        answer: Err(why),
        digits: text::empty_text(),
        text: wanted,
    }
}

// The answer where there is no entry.
fn value_missing() -> ValueHalf
    ensures { result ≡ no_value (NoEntry.Refused (fault_of Refusal.NameNotFound)) 0 }
{
    no_value(
        NoEntry::Refused(refusal::fault_of(Refusal::NameNotFound)),
        0,
    )
}

// A value with its text, where the lent buffer holds it. A decimal's digits are the text of its own card.
fn lay_value(value: Value, own: Text, s: &[u8], text: &mut [u8]) -> ValueHalf
    ensures { value_left result text.new
        ≡ value_laid value (cond (has_digits value) (bytes_of own) []) s.now text.old }
{
    let n = s.len();
    if text.len() < n {
        return no_value(NoEntry::Refused(refusal::fault_of(Refusal::BufferShort)), n);
    }
    text::put_at(s, text, 0);
    ValueHalf {
        answer: Ok(value),
        digits: digits_of(value, own),
        text: n,
    }
}

// What is sought, by its value's half.
fn value_of(header: &[u8], spot: Result<Option<usize>, Stop>, text: &mut [u8]) -> ValueHalf
    requires { IsWithin spot header.now }
    ensures { value_left result text.new ≡ value_in (sought_at spot header.now) text.old }
{
    match spot {
        Err(stop) => no_value(NoEntry::Header(stop), 0),
        Ok(card) => match card {
            None => value_missing(),
            Some(i) => entry_value(header, i, text),
        },
    }
}

// The value of the entry at card i.
fn entry_value(header: &[u8], i: usize, text: &mut [u8]) -> ValueHalf
    requires { (i < length header.now / 80) × (length header.now / 80 ≤ 720) }
    ensures { value_left result text.new
        ≡ value_in (numbered_from (drop i (roles_of header.now)) i) text.old }
{
    match roles::card_at(header, i) {
        Err(fault) => no_value(NoEntry::Header(finding::stop_at(fault, i)), 0),
        Ok(part) => {
            let Role::Entry { value, joins } = roles::role_of(part.card) else {
                return value_missing();
            };
            let own = part.text;
            if is_open(joins, own) {
                let string = Open {
                    header,
                    card: i,
                    part: &part,
                };
                return joined_value(string, text);
            }
            lay_value(value, own, own_text(value, &own), text)
        }
    }
}

// What a value's own text gives a lent buffer.
fn own_text(value: Value, own: &Text) -> &[u8]
    ensures { result.now ≡ cond (has_text value) (bytes_of own.now) [] }
{
    if has_text(value) {
        return own.as_slice();
    }
    text::first_of(own.as_slice(), 0)
}

// An open string, joined in scratch: the smaller one where there are few cards.
fn joined_value(string: Open, text: &mut [u8]) -> ValueHalf
    ensures { value_left result text.new
        ≡ value_in (string_at string.entry.header.now string.entry.card) text.old }
{
    if string.header.len() / CARD <= FEW_CARDS {
        let mut few = [0u8; 8748];
        return value_within(string, &mut few, text);
    }
    let mut texts = [0u8; 58320];
    value_within(string, &mut texts, text)
}

fn value_within(string: Open, texts: &mut [u8], text: &mut [u8]) -> ValueHalf
    requires { IsWide string.header.now texts.old }
    ensures { value_left result text.new
        ≡ value_in (string_at string.entry.header.now string.entry.card) text.old }
{
    let end = join_texts(string, texts);
    let reach = end.reach;
    let Reach::Met(stop) = reach else {
        return lay_value(
            Value::String,
            string.part.text,
            text::first_of(texts, end.length),
            text,
        );
    };
    no_value(NoEntry::Header(stop), 0)
}

// ---- the comment's half

// An answer, with the length of the comment or the room that is wanted.
fn comment_half(answer: Result<bool, NoEntry>, n: usize) -> CommentHalf
    ensures { result ≡ comment_half answer n }
{
    CommentHalf { answer, comment: n }
}

// The answer where there is no entry.
fn comment_missing() -> CommentHalf
    ensures { result ≡ comment_half (Err (NoEntry.Refused (fault_of Refusal.NameNotFound))) 0 }
{
    comment_half(
        Err(NoEntry::Refused(refusal::fault_of(Refusal::NameNotFound))),
        0,
    )
}

// A comment, where the lent buffer holds it.
fn lay_comment(s: &[u8], comment: &mut [u8]) -> CommentHalf
    ensures { comment_left result comment.new ≡ comment_laid (Some s.now) comment.old }
{
    let n = s.len();
    if comment.len() < n {
        return comment_half(
            Err(NoEntry::Refused(refusal::fault_of(Refusal::BufferShort))),
            n,
        );
    }
    text::put_at(s, comment, 0);
    comment_half(Ok(true), n)
}

// What is sought, by its comment's half.
fn comment_of(header: &[u8], spot: Result<Option<usize>, Stop>, comment: &mut [u8]) -> CommentHalf
    requires { IsWithin spot header.now }
    ensures { comment_left result comment.new ≡ comment_in (sought_at spot header.now) comment.old }
{
    match spot {
        Err(stop) => comment_half(Err(NoEntry::Header(stop)), 0),
        Ok(card) => match card {
            None => comment_missing(),
            Some(i) => entry_comment(header, i, comment),
        },
    }
}

// The comment of the entry at card i.
fn entry_comment(header: &[u8], i: usize, comment: &mut [u8]) -> CommentHalf
    requires { (i < length header.now / 80) × (length header.now / 80 ≤ 720) }
    ensures { comment_left result comment.new
        ≡ comment_in (numbered_from (drop i (roles_of header.now)) i) comment.old }
{
    match roles::card_at(header, i) {
        Err(fault) => comment_half(Err(NoEntry::Header(finding::stop_at(fault, i))), 0),
        Ok(part) => {
            let Role::Entry { value: _, joins } = roles::role_of(part.card) else {
                return comment_missing();
            };
            if is_open(joins, part.text) {
                let string = Open {
                    header,
                    card: i,
                    part: &part,
                };
                return joined_comment(string, comment);
            }
            let Some(remark) = part.comment else {
                return comment_half(Ok(false), 0);
            };
            lay_comment(remark.as_slice(), comment)
        }
    }
}

// The comment of an open string, joined in scratch.
fn joined_comment(string: Open, comment: &mut [u8]) -> CommentHalf
    ensures { comment_left result comment.new
        ≡ comment_in (string_at string.entry.header.now string.entry.card) comment.old }
{
    if string.header.len() / CARD <= FEW_CARDS {
        let mut few = [0u8; 8748];
        return comment_within(string, &mut few, comment);
    }
    let mut comments = [0u8; 58320];
    comment_within(string, &mut comments, comment)
}

fn comment_within(string: Open, comments: &mut [u8], comment: &mut [u8]) -> CommentHalf
    requires { IsWide string.header.now comments.old }
    ensures { comment_left result comment.new
        ≡ comment_in (string_at string.entry.header.now string.entry.card) comment.old }
{
    let end = join_comments(string, comments);
    if let Reach::Met(stop) = end.reach {
        return comment_half(Err(NoEntry::Header(stop)), 0);
    }
    let Some(n) = end.comment else {
        return comment_half(Ok(false), 0);
    };
    lay_comment(text::first_of(comments, n), comment)
}

// ---- joining texts

// Whether a text ends in &. A slice pattern was tried: the search ends at its limits, and a check of the crate takes minutes.
fn ends_open(s: &[u8]) -> bool
    ensures { result ≡ ends_open s.now }
{
    let n = s.len();
    if n == 0 {
        return false;
    }
    s[n - 1] == AMPERSAND
}

// Whether a string that may be continued ends in &.
fn is_open(joins: bool, own: Text) -> bool
    ensures { result ≡ (joins && ends_open (bytes_of own)) }
{
    joins && ends_open(own.as_slice())
}

// Empty, or one space. By its length for the same reason.
fn adds_nothing(s: &[u8]) -> bool
    ensures { result ≡ adds_nothing s.now }
{
    if s.len() == 0 {
        return true;
    }
    s.len() == 1 && s[0] == b' '
}

// The values whose text goes to a lent buffer.
fn has_text(value: Value) -> bool
    ensures { result ≡ has_text value }
{
    matches!(value, Value::String | Value::Invalid)
}

// The digits of a decimal.
fn digits_of(value: Value, own: Text) -> Text
    ensures { result ≡ text_of (cond (has_digits value) (bytes_of own) []) }
{
    let Value::Float { minus: _, size: _ } = value else {
        return text::empty_text();
    };
    text::text_of(own.as_slice())
}

// More may be joined to an open text.
fn reach_by(opened: bool) -> Reach
    ensures { result ≡ cond opened Reach.On Reach.Ended }
{
    if opened {
        return Reach::On;
    }
    Reach::Ended
}

// The text of a CONTINUE card joined to the n bytes before it, and how long they then are.
fn join_text(held: &mut [u8], n: usize, s: &[u8]) -> usize
    requires { (0 < n) × (n + 79 ≤ length held.old) × (length s.now ≤ size) }
    ensures { (take result held.new ≡ join_text (take n held.old) s.now) × (result ≤ n + 79) }
{
    let m = n - 1;
    if adds_nothing(s) {
        return text::trim_end(&held[..m], Spaces).len();
    }
    text::put_at(s, held, m);
    m + s.len()
}

// Card j joined to the open text of n bytes before it, where it is a CONTINUE card. An entry or END lets no more be joined, nor does a
// refused card, which is told.
fn next_text(header: &[u8], j: usize, n: usize, texts: &mut [u8]) -> TextHeld
    requires { (j < length header.now / 80) × (0 < n) × (n + 79 ≤ length texts.old) }
    ensures { NextText (role_no header.now j) j n result texts.old texts.new }
{
    match roles::card_at(header, j) {
        Err(fault) => TextHeld {
            length: n,
            reach: Reach::Met(finding::stop_at(fault, j)),
        },
        Ok(part) => match roles::role_of(part.card) {
            Role::More => {
                let own = part.text;
                let m = join_text(texts, n, own.as_slice());
                TextHeld {
                    length: m,
                    reach: reach_by(ends_open(&texts[..m])),
                }
            }
            Role::Neutral => TextHeld {
                length: n,
                reach: Reach::On,
            },
            _ => TextHeld {
                length: n,
                reach: Reach::Ended,
            },
        },
    }
}

// The open text of an entry with those of the cards that are joined to it, each read once, in scratch; or the refused card that is met.
fn join_texts(string: Open, texts: &mut [u8]) -> TextHeld
    requires { IsWide string.header.now texts.old }
    ensures { JoinedTexts string.entry.header.now string.entry.card result texts.new }
{
    let header = string.header;
    let first = string.part.text.as_slice();
    text::put_at(first, texts, 0);
    let mut held = TextHeld {
        length: first.len(),
        reach: Reach::On,
    };
    for j in string.card + 1..header.len() / CARD {
        let Reach::On = held.reach else {
            return held;
        };
        held = next_text(header, j, held.length, texts);
    }
    held
}

// ---- joining comments

// The ampersands at the end of a text, spaces between them aside, where so many stand before it.
fn count_ampersands(before: usize, s: &[u8]) -> usize
    requires { before ≤ longest_joined × (length s.now ≤ 80) }
    ensures { result ≡ ampersands before s.now }
{
    let mut k = before;
    for b in s {
        if *b == AMPERSAND {
            k += 1;
        } else if *b != b' ' {
            k = 0;
        }
    }
    k
}

// Whether a text is open at whose end so many ampersands are left with the text of a CONTINUE card.
fn opens_by(k: usize, s: &[u8]) -> bool
    ensures { result ≡ opens_by k s.now }
{
    if adds_nothing(s) {
        return 0 < k;
    }
    ends_open(s)
}

// A comment laid behind the one before it, if there is one, with a line feed between them, and how long they then are.
fn join_comment(held: &mut [u8], before: Option<usize>, s: &[u8]) -> usize
    requires { (span before + 81 ≤ length held.old) × (length s.now ≤ size) }
    ensures { (Some (take result held.new) ≡ join_comment (heard before held.old) (Some s.now)) × (result ≤ span before + 81) }
{
    match before {
        Some(n) => {
            text::put_at(b"\n", held, n);
            text::put_at(s, held, n + 1);
            n + 1 + s.len()
        }
        None => {
            text::put_at(s, held, 0);
            s.len()
        }
    }
}

// The comment of a card, if it has one, joined to the one before it, and how long they then are.
fn join_remark(held: &mut [u8], before: Option<usize>, remark: Option<Text>) -> Option<usize>
    requires { span before + 81 ≤ length held.old }
    ensures { (heard result held.new ≡ join_comment (heard before held.old) (comment_read remark)) × (span result ≤ span before + 81)
        × (length held.new ≡ length held.old) }
{
    match remark {
        Some(own) => Some(join_comment(held, before, own.as_slice())),
        None => before,
    }
}

// Card j joined to the comment before it, where it is a CONTINUE card.
fn next_comment(header: &[u8], j: usize, held: CommentHeld, comments: &mut [u8]) -> CommentHeld
    requires { (j < length header.now / 80) × (0 < held.ampersands) × (held.ampersands ≤ longest_joined)
        × (span held.comment + 81 ≤ length comments.old) }
    ensures { NextComment (role_no header.now j) j held result comments.old comments.new }
{
    match roles::card_at(header, j) {
        Err(fault) => reached(held, Reach::Met(finding::stop_at(fault, j))),
        Ok(part) => match roles::role_of(part.card) {
            Role::More => {
                let own = part.text;
                let s = own.as_slice();
                let k = count_ampersands(held.ampersands - 1, s);
                CommentHeld {
                    ampersands: k,
                    comment: join_remark(comments, held.comment, part.comment),
                    reach: reach_by(opens_by(k, s)),
                }
            }
            Role::Neutral => reached(held, Reach::On),
            _ => reached(held, Reach::Ended),
        },
    }
}

// A comment to which more may be joined, or not.
fn reached(held: CommentHeld, reach: Reach) -> CommentHeld
    ensures { result ≡ reached_by held reach }
{
    CommentHeld {
        ampersands: held.ampersands,
        comment: held.comment,
        reach,
    }
}

// The comment of an entry, which is an open string, with those of the cards that are joined to it, each read once, in scratch; or the
// refused card that is met.
fn join_comments(string: Open, comments: &mut [u8]) -> CommentHeld
    requires { IsWide string.header.now comments.old }
    ensures { JoinedComments string.entry.header.now string.entry.card result comments.new }
{
    let header = string.header;
    let mut held = CommentHeld {
        ampersands: count_ampersands(0, string.part.text.as_slice()),
        comment: join_remark(comments, None, string.part.comment),
        reach: Reach::On,
    };
    for j in string.card + 1..header.len() / CARD {
        let Reach::On = held.reach else {
            return held;
        };
        held = next_comment(header, j, held, comments);
    }
    held
}
