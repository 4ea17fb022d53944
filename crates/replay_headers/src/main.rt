// Replays stored headers: reads each one from standard input and prints its lines, as SPECIFICATION 13 has them. Behind a name's line
// stands one more, which begins with a space: the comment, the unit by both readings, the second behind the word past, and a finite
// decimal's digits and power. Texts stand in double quotes; the word none stands for a missing one. A byte outside 32..126, a double
// quote and a backslash are printed as \xNN.
// The expected output comes from the oracle (oracle/README.md).
// A stored header is the number of its cards in two bytes, the higher first, then for each card a length and so many bytes. Spaces
// fill a card to 80.
#![tactic(auto)]

use card::CARD;
use listing::{Listing, PLACES};
use numbers::{Size, Value};
use roles::MOST_CARDS;
use std::io::Read;
use test_output::{put, put_quoted};
use text::Text;

// More headers than the list has.
const HEADERS: usize = 10000;

fn main(rt: HostRuntime) {
    let mut input = rt.stdin();
    let mut buffer = [0u8; 57600];
    for _ in 0..HEADERS {
        let Some(n) = next_header(&mut input, &mut buffer) else {
            return;
        };
        put_header(&rt, text_of_cards(&buffer, n));
    }
}

// The first n cards of a buffer.
fn text_of_cards(buffer: &[u8], n: usize) -> &[u8] {
    text::first_of(buffer, n.min(MOST_CARDS) * CARD)
}

// ---- what is printed

// The lines of a header, or its refusal.
fn put_header(rt: &impl Print, header: &[u8]) {
    let listing = listing::list(header);
    match listing.header {
        Ok(_) => put_names(rt, header, &listing),
        Err(stop) => {
            // Longer than "refused", two numbers and the words between them.
            let mut line = [0u8; 64];
            let written = lines::refused_line(stop.fault, stop.card, &mut line);
            put_line(rt, written, &line);
        }
    }
}

// The lines of the names in their order, then that of their count.
fn put_names(rt: &impl Print, header: &[u8], listing: &Listing) {
    // A text or a comment has at most 68 bytes of its own card and 71 of each card that is joined to it.
    let mut text = [0u8; 51200];
    let mut comment = [0u8; 51200];
    // At most a name, a letter, a text, the number of cards and six bytes more.
    let mut line = [0u8; 51360];
    for k in 0..listing.count.min(PLACES) {
        put_entry(
            rt,
            header,
            listing.first[k],
            listing.last[k],
            listing.times[k],
            &mut text,
            &mut comment,
            &mut line,
        );
    }
    let written = lines::count_line(listing.count, &mut line);
    put_line(rt, written, &line);
}

// The two lines of an entry: its name stands on the first card that bears it, its reading on the last.
fn put_entry(
    rt: &impl Print,
    header: &[u8],
    first: usize,
    last: usize,
    times: usize,
    text: &mut [u8],
    comment: &mut [u8],
    line: &mut [u8],
) {
    let Ok(entry) = roles::card_at(header, first) else {
        put(rt, b"no name\n");
        return;
    };
    let looked = entries::value_at(header, last, text);
    let remark = entries::comment_at(header, last, comment);
    let Ok(value) = looked.answer else {
        put(rt, b"no entry\n");
        return;
    };
    let Ok(commented) = remark.answer else {
        put(rt, b"no comment\n");
        return;
    };
    let shown = text::first_of(text, looked.text);
    let written = lines::entry_line(entry.name, value, looked.digits, shown, times, line);
    put_line(rt, written, line);
    let told = text::first_of(comment, remark.comment);
    put_comment(rt, commented.then_some(told));
    put_record(rt, value, looked.digits);
    put(rt, b"\n");
}

// The front of a buffer, as far as a line reaches.
fn put_line(rt: &impl Print, written: Option<usize>, line: &[u8]) {
    let Some(n) = written else {
        put(rt, b"no room\n");
        return;
    };
    put(rt, text::first_of(line, n));
}

// A comment, if there is one, and its unit by both readings.
fn put_comment(rt: &impl Print, comment: Option<&[u8]>) {
    let Some(comment) = comment else {
        put(rt, b" comment none unit none past none");
        return;
    };
    put(rt, b" comment ");
    put_bytes(rt, comment);
    put(rt, b" unit ");
    put_unit(rt, comment, value::unit(comment));
    put(rt, b" past ");
    put_unit(rt, comment, value::unit_past_space(comment));
}

// The unit of a comment by its place.
fn put_unit(rt: &impl Print, comment: &[u8], place: Option<(usize, usize)>) {
    match place {
        Some((from, to)) => put_bytes(rt, text::rest_of(text::first_of(comment, to), from)),
        None => put(rt, b"none"),
    }
}

// The digits and the power of a finite decimal.
fn put_record(rt: &impl Print, value: Value, digits: Text) {
    let Value::Float {
        minus: _,
        size: Size::Finite(power),
    } = value
    else {
        return;
    };
    put(rt, b" digits ");
    put_bytes(rt, digits.as_slice());
    let _ = print!(rt; " power {power}");
}

// Bytes in double quotes.
fn put_bytes(rt: &impl Print, s: &[u8]) {
    put_quoted(rt, s, b"\"\\", "\\x", "");
}

// ---- what is read

// The number of cards of the next header, which are put into the buffer; none where the list ends.
fn next_header(input: &mut impl Read, buffer: &mut [u8]) -> Option<usize> {
    let mut two = [0u8; 2];
    input.read_exact(&mut two).ok()?;
    let n = usize::from(u16::from_be_bytes(two));
    for card in buffer.chunks_mut(CARD).take(n) {
        next_card(input, card);
    }
    Some(n)
}

// The next card put at its place.
fn next_card(input: &mut impl Read, card: &mut [u8]) {
    let mut one = [0u8; 1];
    let _ = input.read_exact(&mut one);
    let n = usize::from(one[0]).min(card.len());
    card.fill(b' ');
    let _ = input.read_exact(&mut card[..n]);
}
