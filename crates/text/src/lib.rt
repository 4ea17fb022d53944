// Bytes and texts: classes of bytes, trimming, comparing, laying bytes over lent memory, and texts held in arrays.
#![tactic(auto)]

ghost use Rattle.std.specs.Prelude.{◌≡◌, ◌≤◌, ℕ, Bool, min, [], ◌++◌, map, length, take, drop};
ghost use Rattle.std.proofs.lemmas.List.Edits.{sets};
ghost use Rattle.text.specs.Bytes.{is_space, is_blank, is_printable, every, are_printable, is_digit, is_zero, shown, d_to_e};
ghost use Rattle.text.specs.Trim.{trim_start, trim_end, trim, leading};
ghost use Rattle.text.specs.Same.{same};
ghost use Rattle.text.specs.Place.{place_of};
ghost use Rattle.text.specs.Text.{size, text_of, bytes_of};

// A text in an array: len bytes, then zeros. Its memory is fixed, as the project has no heap.
#[derive(Clone, Copy)]
pub struct Text {
    pub bytes: [u8; 80],
    pub len: usize,
}

impl Text {
    // Its bytes. A length beyond the array takes all of it.
    pub fn as_slice(&self) -> &[u8]
        ensures bytes { result.now ≡ bytes_of self.now }
        ensures fits { length result.now ≤ size }
    {
        first_of(&self.bytes, self.len)
    }
}

// A class of bytes, by a test: what trimming takes away, or what a text may hold.
pub trait ByteClass: Copy {
    ghost test: { ℕ → Bool };

    fn has(self, b: u8) -> bool
        ensures { result ≡ test b };
}

#[derive(Clone, Copy)]
pub struct Spaces;

#[derive(Clone, Copy)]
pub struct Blanks;

#[derive(Clone, Copy)]
pub struct Digits;

#[derive(Clone, Copy)]
pub struct Zeros;

#[derive(Clone, Copy)]
pub struct Printable;

// What becomes of a byte that is copied.
pub trait ByteChange: Copy {
    ghost change: { ℕ → ℕ };

    fn of(self, b: u8) -> u8
        ensures { result ≡ change b };
}

// It stays.
#[derive(Clone, Copy)]
pub struct Keep;

// It is replaced where the standard does not allow it.
#[derive(Clone, Copy)]
pub struct Replace;

// A D is made an E.
#[derive(Clone, Copy)]
pub struct DToE;

const SPACE: u8 = b' ';

const TAB: u8 = 9;

const LINE_FEED: u8 = 10;

const FORM_FEED: u8 = 12;

const RETURN: u8 = 13;

// Stands for a byte that the standard does not allow.
const REPLACEMENT: u8 = 127;

// ---- bytes

// Space, tab, line feed, form feed, return.
#[tactic(auto, unfolding(crate::specs::Bytes::is_blank))]
pub fn is_blank(b: u8) -> bool
    ensures { result ≡ is_blank b }
{
    b == SPACE || b == TAB || b == LINE_FEED || b == FORM_FEED || b == RETURN
}

// A byte that the standard allows in a header.
#[tactic(auto, unfolding(crate::specs::Bytes::is_printable))]
pub fn is_printable(b: u8) -> bool
    ensures { result ≡ is_printable b }
{
    b' ' <= b && b <= b'~'
}

// Whether each byte is of a class. Nothing leads out of the loop, so that it can be compiled to vectors.
#[tactic(auto, using(crate::proofs::Printing::every_step, crate::proofs::Printing::every_end))]
pub fn every<C: ByteClass>(s: &[u8], class: C) -> bool
    ensures { result ≡ every C.test s.now }
{
    let mut all = true;
    for b in s {
        all &= class.has(*b);
    }
    all
}

// Whether each byte is one that the standard allows.
#[tactic(auto, using(crate::proofs::Printing::every_printable))]
pub fn are_printable(s: &[u8]) -> bool
    ensures { result ≡ are_printable s.now }
{
    every(s, Printable)
}

// 0 to 9.
#[tactic(auto, unfolding(crate::specs::Bytes::is_digit))]
pub fn is_digit(b: u8) -> bool
    ensures { result ≡ is_digit b }
{
    b'0' <= b && b <= b'9'
}

// The byte, or 127 where the standard does not allow it.
#[tactic(auto, unfolding(crate::specs::Bytes::shown))]
pub fn replaced(b: u8) -> u8
    ensures { result ≡ shown b }
{
    if is_printable(b) { b } else { REPLACEMENT }
}

// The byte, or E where it is D.
#[tactic(auto, unfolding(crate::specs::Bytes::d_to_e))]
fn d_to_e(b: u8) -> u8
    ensures { result ≡ d_to_e b }
{
    if b == b'D' { b'E' } else { b }
}

// ---- trimming

impl ByteClass for Spaces {
    ghost test = { is_space };

    #[tactic(auto, unfolding(crate::specs::Bytes::is_space))]
    fn has(self, b: u8) -> bool {
        b == SPACE
    }
}

impl ByteClass for Blanks {
    ghost test = { is_blank };

    fn has(self, b: u8) -> bool {
        is_blank(b)
    }
}

impl ByteClass for Digits {
    ghost test = { is_digit };

    fn has(self, b: u8) -> bool {
        is_digit(b)
    }
}

impl ByteClass for Zeros {
    ghost test = { is_zero };

    #[tactic(auto, unfolding(crate::specs::Bytes::is_zero))]
    fn has(self, b: u8) -> bool {
        b == b'0'
    }
}

impl ByteClass for Printable {
    ghost test = { is_printable };

    fn has(self, b: u8) -> bool {
        is_printable(b)
    }
}

// The text without the bytes of a class at its front.
#[tactic(auto, using(crate::proofs::Trimming::start_step, crate::proofs::Trimming::start_stop, crate::proofs::Trimming::start_none))]
pub fn trim_start<C: ByteClass>(s: &[u8], class: C) -> &[u8]
    ensures { result.now ≡ trim_start C.test s.now }
{
    let mut rest = s;
    // A turn for a byte, as the definition has it. The place by `position`, and the end where each byte is of the class, was tried: the
    // goal at the return stays open.
    while let [first, behind @ ..] = rest {
        if !class.has(*first) {
            break;
        }
        rest = behind;
    }
    rest
}

// Those bytes at its front.
#[tactic(auto, using(crate::proofs::Trimming::start_shorter, crate::proofs::Trimming::leading_taken))]
pub fn leading_of<C: ByteClass>(s: &[u8], class: C) -> &[u8]
    ensures { result.now ≡ leading C.test s.now }
{
    let rest = trim_start(s, class);
    &s[..s.len() - rest.len()]
}

// The text without the bytes of a class at its end. By an index, in one condition: a slice pattern needs a test and a way out within the
// loop, so it is no plainer, and each byte takes six instructions in place of five.
pub fn trim_end<C: ByteClass>(s: &[u8], class: C) -> &[u8]
    ensures { result.now ≡ trim_end C.test s.now }
{
    let mut n = s.len();
    while 0 < n && class.has(s[n - 1]) {
        n -= 1;
    }
    &s[..n]
}

// The text without those at either end.
#[tactic(auto, unfolding(crate::specs::Trim::trim))]
pub fn trimmed<C: ByteClass>(s: &[u8], class: C) -> &[u8]
    ensures { result.now ≡ trim C.test s.now }
{
    trim_end(trim_start(s, class), class)
}

// ---- parts

// The first n bytes of a text: all of it where it is shorter.
pub fn first_of(s: &[u8], n: usize) -> &[u8]
    ensures { result.now ≡ take n s.now }
{
    if n < s.len() {
        return &s[..n];
    }
    s
}

// What follows the first n bytes of a text: nothing where it is shorter.
pub fn rest_of(s: &[u8], n: usize) -> &[u8]
    ensures { result.now ≡ drop n s.now }
{
    if n < s.len() {
        return &s[n..];
    }
    &s[..0]
}

// The first place of a byte in a text.
pub fn find_byte(s: &[u8], b: u8) -> Option<usize>
    ensures { result ≡ place_of b s.now }
{
    s.iter().position(|x| *x == b)
}

// ---- comparing

// Whether two slices hold the same bytes.
#[tactic(auto, using(crate::proofs::Comparing::same_pointwise))]
pub fn same_bytes(s: &[u8], t: &[u8]) -> bool
    ensures { result ≡ same s.now t.now }
{
    s == t
}

// ---- lent memory

// Stores the bytes of a slice in another from a place on, as many as fit. What stands before and behind stays.
pub fn put_at(s: &[u8], out: &mut [u8], at: usize)
    ensures { out.new ≡ sets out.old at s.now }
{
    if out.len() <= at {
        return;
    }
    let part = first_of(s, out.len() - at);
    out[at..at + part.len()].copy_from_slice(part);
}

// ---- texts in arrays

// The text of no bytes.
pub fn empty_text() -> Text
    ensures { result ≡ text_of [] }
{
    Text {
        bytes: [0u8; 80],
        len: 0,
    }
}

impl ByteChange for Keep {
    ghost change = { λ b. b };

    fn of(self, b: u8) -> u8 {
        b // as it is
    }
}

impl ByteChange for Replace {
    ghost change = { shown };

    fn of(self, b: u8) -> u8 {
        replaced(b)
    }
}

impl ByteChange for DToE {
    ghost change = { d_to_e };

    fn of(self, b: u8) -> u8 {
        d_to_e(b)
    }
}

// The first 80 bytes of a slice as a text, each changed.
pub fn changed_text<C: ByteChange>(s: &[u8], change: C) -> Text
    ensures { result ≡ text_of (map C.change (take size s.now)) }
{
    let part = first_of(s, 80);
    let mut bytes = [0u8; 80];
    for (i, b) in part.iter().enumerate() {
        bytes[i] = change.of(*b);
    }
    Text {
        bytes,
        len: part.len(),
    }
}

// The first 80 bytes of a slice as a text.
pub fn text_of(s: &[u8]) -> Text
    ensures { result ≡ text_of (take size s.now) }
{
    changed_text(s, Keep)
}

// The first 80 bytes of two slices, one behind the other, as a text.
pub fn joined_text(a: &[u8], b: &[u8]) -> Text
    ensures { result ≡ text_of (take size (a.now ++ b.now)) }
{
    let mut joined = text_of(a);
    let len = joined.len;
    let rest = first_of(b, 80 - len);
    put_at(rest, &mut joined.bytes, len);
    joined.len = len + rest.len();
    joined
}

// How many bytes a length takes of the array: all of them where it is larger.
pub fn at_most_all(n: usize) -> usize
    ensures { result ≡ min n size }
{
    n.min(80)
}
