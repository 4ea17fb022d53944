// The names of a header in the order of their first cards, each with its last entry and with how many cards bear it.
#![tactic(auto)]

ghost use Rattle.std.specs.Prelude.{◌≡◌, ◌+◌, ◌*◌, ◌<◌, ◌≤◌, length, get_or, replicate};
ghost use Rattle.std.proofs.lemmas.List.Edits.{sets};
ghost use Rattle.text.specs.Text.{bytes_of};
ghost use Rattle.entries.specs.Halves.{value_left, comment_left};
ghost use Rattle.listing.specs.Listing.{places, free, empty, tabled, listing_by, list_of, place_of_value, place_of_comment};
ghost use Rattle.listing.specs.Keys.{is_entry, bytes_of_word, words_of_key, word_of, key_of, is_before, row_at};
ghost use Rattle.listing.specs.Keys.{Ordered, Parted, Slid, Ready, arrays_by, Entered};

use entries::{CommentHalf, ValueHalf};
use finding::Stop;
use refusal::Refusal;
use roles::{MOST_CARDS, Role};
use text::Text;

// A header's answer, and its names: for each place the number of the first card that bears the name, that of the last, and how many
// cards bear it. The places behind the names are free, and no card bears a name there.
#[derive(Clone, Copy)]
pub struct Listing {
    pub header: Result<usize, Stop>,
    pub first: [usize; 720],
    pub last: [usize; 720],
    pub times: [usize; 720],
    pub count: usize,
}

// A header's answer, and how many names it has, beside the lent arrays that they are listed in.
#[derive(Clone, Copy)]
pub struct Listed {
    pub header: Result<usize, Stop>,
    pub count: usize,
}

// The places of the table: one for each card that a header may have.
pub const PLACES: usize = MOST_CARDS;

// What stands at a free place: no card has this number.
const FREE: usize = MOST_CARDS;

// The bytes of a word, and the words of a key: a name has at most 80 bytes.
const BYTES: usize = 9;

const WORDS: usize = 9;

// How many bytes ASCII has. A word is a number to the base 129: a digit is a byte + 1, and 0 is no byte.
const ASCII: usize = 128;

const BASE: usize = ASCII + 1;

// The names of a header, in the order of their first cards.
pub fn list(header: &[u8]) -> Listing
    ensures { result ≡ list_of header.now }
{
    let mut first = [FREE; 720];
    let mut last = [FREE; 720];
    let mut times: [usize; 720] = [0; 720];
    let listed = list_over(header, &mut first, &mut last, &mut times);
    Listing {
        header: listed.header,
        first,
        last,
        times,
        count: listed.count,
    }
}

// The same in lent arrays, whatever they hold: nothing is copied, and each card is read once. The arrays are lent one by one, here and
// below, as C lends them.
pub fn list_over(
    header: &[u8],
    first: &mut [usize; 720],
    last: &mut [usize; 720],
    times: &mut [usize; 720],
) -> Listed
    ensures { listing_by result first.new last.new times.new ≡ list_of header.now }
{
    let cards = roles::card_count(header);
    if cards == 0 {
        let none = finding::stop_at(refusal::fault_of(Refusal::HeaderLength), 0);
        return refused(none, first, last, times);
    }
    free_all(first, last, times);
    // The keys of the places stand one behind another: as rows of an array they cost time (`count_before`).
    let mut keys: [usize; 6480] = [0; 6480];
    let mut order = [0u16; 720];
    let mut count: usize = 0;
    for i in 0..cards {
        // By match: what `?` hands on would be the answer of a function of its own, since this one answers no `Result`.
        match roles::card_at(header, i) {
            Err(fault) => return refused(finding::stop_at(fault, i), first, last, times),
            Ok(card) => {
                let role = roles::role_of(card.card);
                if let Role::Last = role {
                    return Listed {
                        header: Ok(i),
                        count,
                    };
                }
                if is_entry(role) {
                    count = enter(
                        card.name, i, count, first, last, times, &mut keys, &mut order,
                    );
                }
            }
        }
    }
    let none = finding::stop_at(refusal::fault_of(Refusal::NoEnd), cards);
    refused(none, first, last, times)
}

// The value of the entry at a place of a listing's last entries, with its text, joined, in the lent buffer.
pub fn entry_value(header: &[u8], lasts: &[usize], place: usize, text: &mut [u8]) -> ValueHalf
    ensures { value_left result text.new
        ≡ place_of_value header.now lasts.now place text.old }
{
    entries::value_at(header, last_at(lasts, place), text)
}

// Whether that entry has a comment, and the comment, joined, in the lent buffer.
pub fn entry_comment(
    header: &[u8],
    lasts: &[usize],
    place: usize,
    comment: &mut [u8],
) -> CommentHalf
    ensures { comment_left result comment.new
        ≡ place_of_comment header.now lasts.now place comment.old }
{
    entries::comment_at(header, last_at(lasts, place), comment)
}

// The card's number at a place. A place that the listing lacks is free.
fn last_at(lasts: &[usize], place: usize) -> usize
    ensures { result ≡ get_or lasts.now place free }
{
    if place < lasts.len() {
        return lasts[place];
    }
    FREE
}

// The listing of a refused header: all places are free.
fn refused(
    stop: Stop,
    first: &mut [usize; 720],
    last: &mut [usize; 720],
    times: &mut [usize; 720],
) -> Listed
    ensures { listing_by result first.new last.new times.new ≡ tabled (Err stop) empty }
{
    free_all(first, last, times);
    Listed {
        header: Err(stop),
        count: 0,
    }
}

// Makes all places free.
fn free_all(first: &mut [usize; 720], last: &mut [usize; 720], times: &mut [usize; 720])
    ensures { (first.new ≡ replicate places free) × (last.new ≡ replicate places free)
        × (times.new ≡ replicate places 0) }
{
    *first = [FREE; 720];
    *last = [FREE; 720];
    *times = [0; 720];
}

// Whether a card is an entry, by its role.
fn is_entry(role: Role) -> bool
    ensures { result ≡ is_entry role }
{
    match role {
        Role::Entry { value: _, joins: _ } => true,
        Role::More => false,
        Role::Neutral => false,
        Role::Last => false,
    }
}

// Puts the entry of card i at its name's place among the first count, or behind them, counts it there, and answers the number of names
// then. The name's key is stored behind the last place first: if the name is new, it stays there.
fn enter(
    text: Text,
    i: usize,
    count: usize,
    first: &mut [usize],
    last: &mut [usize],
    times: &mut [usize],
    keys: &mut [usize],
    order: &mut [u16],
) -> usize
    requires { Ready count first.old last.old times.old keys.old order.old }
    ensures { Entered (bytes_of text) i count first.old last.old times.old keys.old
        (arrays_by result first.new last.new times.new) keys.new order.new }
{
    put_key(text.as_slice(), keys, count * WORDS);
    let at = count_before(keys, order, count);
    if at < count {
        let k = order[at] as usize;
        if !row_before(keys, count, k) {
            last[k] = i;
            times[k] += 1;
            return count;
        }
    }
    put_between(order, at, count, count as u16);
    first[count] = i;
    last[count] = i;
    times[count] = 1;
    count + 1
}

// ---- keys

// At most 9 bytes as one number, the first byte its lowest digit.
fn word_of(piece: &[u8]) -> usize
    requires { length piece.now ≤ bytes_of_word }
    ensures { result ≡ word_of piece.now }
{
    let mut word = 0;
    for k in (0..piece.len()).rev() {
        word = word * BASE + piece[k] as usize % ASCII + 1;
    }
    word
}

// Stores the key of a name in the words from a number on.
fn put_key(name: &[u8], keys: &mut [usize], at: usize)
    requires { at + words_of_key ≤ length keys.old }
    ensures { keys.new ≡ sets keys.old at (key_of name.now) }
{
    for q in 0..WORDS {
        keys[at + q] = word_of(text::first_of(text::rest_of(name, q * BYTES), BYTES));
    }
}

// Whether a key comes before another: by the first word in which they differ. `<` on slices was tried with `count_before`.
fn is_before(s: &[usize], t: &[usize]) -> bool
    ensures { result ≡ is_before s.now t.now }
{
    for q in 0..s.len().min(t.len()) {
        if s[q] != t[q] {
            return s[q] < t[q];
        }
    }
    false
}

// Whether the key of a place comes before that of another.
fn row_before(keys: &[usize], place: usize, other: usize) -> bool
    requires words_of_key_in_bounds { place * words_of_key + words_of_key ≤ length keys.now }
    requires words_of_key_in_bounds_2 { other * words_of_key + words_of_key ≤ length keys.now }
    ensures { result ≡ is_before (row_at keys.now place) (row_at keys.now other) }
{
    let start = place * WORDS;
    let end = start + WORDS;
    let other_start = other * WORDS;
    let other_end = other_start + WORDS;
    is_before(&keys[start..end], &keys[other_start..other_end])
}

// ---- the order of the places by their keys

// How many of the places come before the key that stands behind them, by halving.
fn count_before(keys: &[usize], order: &[u16], count: usize) -> usize
    requires ordered { Ordered keys.now order.now count }
    requires count_lt_places { count < places }
    ensures { Parted keys.now order.now count result }
{
    let mut low = 0;
    let mut high = count;
    // By hand: with `partition_point`, keys as rows of an array and their order by `<`, a list of 719 names took 10 to 22 in a
    // hundred more instructions.
    while low < high {
        let mid = low + (high - low) / 2;
        if row_before(keys, order[mid] as usize, count) {
            low = mid + 1;
        } else {
            high = mid;
        }
    }
    low
}

// Puts a place into the order at a number; the later ones of the first n move up by one.
fn put_between(order: &mut [u16], at: usize, n: usize, place: u16)
    requires at_le_n { at ≤ n }
    requires n_in_bounds { n < length order.old }
    ensures { Slid order.old at n place order.new }
{
    order.copy_within(at..n, at + 1);
    order[at] = place;
}
