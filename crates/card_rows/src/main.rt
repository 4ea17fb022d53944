// Reads the cards of the readings at the edges (SPECIFICATION 15), and those that show the other rules on one card (SPECIFICATION 3 to 8).
// It prints a line for each: the card without the spaces that fill it up, and the reading: its class, its name, its value
// or text, and its comment with the unit; or the refusal's number and the byte of the card at which it is met. A byte outside 32..126 is
// printed in hexadecimal.
#![tactic(auto)]

use card::{CARD, Card, CardRead};
use numbers::{Size, Value};
use refusal::Fault;
use test_output::{put, put_quoted};
use text::Text;

fn main(rt: HostRuntime) {
    edge_rows(&rt);
    splitting_rows(&rt);
    comment_rows(&rt);
    number_rows(&rt);
    decimal_rows(&rt);
    keyword_rows(&rt);
    hierarch_rows(&rt);
    string_card_rows(&rt);
    remark_rows(&rt);
    byte_rows(&rt);
    text_rows(&rt);
    order_rows(&rt);
}

// ---- the rows

// The card rows of the table.
fn edge_rows(rt: &impl Print) {
    row(rt, b"KEY     = ''");
    row(rt, b"KEY     = '   '");
    row(rt, b"KEY     = 'O''RING'");
    row(rt, b"KEY     = 'abc''");
    row(rt, b"KEY     = '");
    row(rt, b"KEY     = 'a' b");
    row(rt, b"KEY     = 9223372036854775807");
    row(rt, b"KEY     = 9223372036854775808");
    row(rt, b"KEY     = 1.5D3");
    row(rt, b"KEY     = 1D");
    row(rt, b"KEY     = TEXT");
}

// Quotes, and what stands directly behind them.
fn splitting_rows(rt: &impl Print) {
    row(rt, b"KEY     = '''");
    row(rt, b"KEY     = ''''");
    row(rt, b"KEY     = 'a'b'c'");
    row(rt, b"KEY     = 'a'b'");
    row(rt, b"KEY     = 5'");
    row(rt, b"KEY     = abc'd/e");
    row(rt, b"KEY     = 5 '/ c");
    row(rt, b"KEY     = 'a'\x0b'b'");
    row(rt, b"KEY     = 'a' \t/");
    row(rt, b"KEY     = 'a'\x0b/");
    row(rt, b"KEY     = 5 \t");
    row(rt, b"KEY     = 5 \x0b");
    row(rt, b"KEY     = (1,2)");
}

// Comments: present and empty, absent, dropped, with a unit.
fn comment_rows(rt: &impl Print) {
    row(rt, b"KEY     = 5");
    row(rt, b"KEY     = 5 /");
    row(rt, b"KEY     = 5 /  a\x0bb");
    row(rt, b"KEY     = 5 /[s] time");
    row(rt, b"KEY     = 5 / [s]");
    row(rt, b"KEY     = / c");
    row(rt, b"KEY     = abc / c");
    row(rt, b"KEY     = 1D / c");
    row(rt, b"KEY     = 'a/b' / c");
    row(rt, b"KEY     = FALSE / c");
}

// Integers and their limits.
fn number_rows(rt: &impl Print) {
    row(rt, b"KEY     = +5");
    row(rt, b"KEY     = -0");
    row(rt, b"KEY     = 007");
    row(rt, b"KEY     = -9223372036854775808");
    row(rt, b"KEY     = -9223372036854775809");
}

// Decimals, and what is none.
fn decimal_rows(rt: &impl Print) {
    row(rt, b"KEY     = -0.");
    row(rt, b"KEY     = 1.");
    row(rt, b"KEY     = .5");
    row(rt, b"KEY     = .");
    row(rt, b"KEY     = .e1");
    row(rt, b"KEY     = 1d3");
    row(rt, b"KEY     = 1 DOG");
    row(rt, b"KEY     = inf");
    row(rt, b"KEY     = +nan");
    row(rt, b"KEY     = -INF");
    row(rt, b"KEY     = 10e99999");
    row(rt, b"KEY     = 1e-100000");
    row(rt, b"KEY     = 00100.00");
    row(rt, b"KEY     = 1200e-2");
}

// Keywords, the value indicator and bytes of 128 or more.
fn keyword_rows(rt: &impl Print) {
    row(rt, b"  END");
    row(rt, b"END     = 5");
    row(rt, b"END     \x80");
    row(rt, b"  K     = 5");
    row(rt, b"K       =5");
    row(rt, b"KEY     5");
    row(rt, b"KEY     = '\x80'");
}

// HIERARCH names.
fn hierarch_rows(rt: &impl Print) {
    row(rt, b"HIERARCH ESO  TEL\tALT = 5 / deg");
    row(rt, b"HIERARCH E\x0bO=5");
    row(rt, b"HIERARCH A = abc / c");
    row(rt, b"HIERARCH A = (1,2)");
    row(rt, b"HIERARCH= 5");
    row(rt, b"HIERARCH ESO\x0b");
    row(rt, b"HIERARCH  = \x0b");
    row(rt, b"HIERARCH ESO = \x0b");
}

// CONTINUE and XTENSION.
fn string_card_rows(rt: &impl Print) {
    row(rt, b"CONTINUE'b'");
    row(rt, b"CONTINUE  '  b  ' / c");
    row(rt, b"CONTINUE  b");
    row(rt, b"CONTINUE= 'b'");
    row(rt, b"XTENSION= ' IMAGE   ' / c");
    row(rt, b"XTENSION  'IMAGE'");
    row(rt, b"XTENSION= IMAGE");
    row(rt, b"XTENSION= '");
    row(rt, b"XTENSION= IMAGE\x0b");
}

// Commentary and space.
fn remark_rows(rt: &impl Print) {
    row(rt, b"COMMENT  a\tb");
    row(rt, b"HISTORY h / no comment");
    row(rt, b"        text");
    row(rt, b"        \t");
    row(rt, b"");
}

// The byte of a refused byte: the first of 128 or more, and the one where splitting stops.
fn byte_rows(rt: &impl Print) {
    row(rt, b"A       = '\xff\x80'");
    row(rt, b"END     \x80\xff");
    row(rt, b"COMMENT a\x80\x80b");
    row(rt, b"\x80");
    row(
        rt,
        b"                                                                               \x80",
    );
    row(rt, b"A       = \x0b");
    row(rt, b"A       =  \x0b");
    row(rt, b"A       = \t\x0b");
    row(rt, b"A       = 5 \x0b6");
    row(rt, b"A       =  'a' \t/");
    row(
        rt,
        b"A       = 555555555555555555555555555555555555555555555555555555555555555555555\x0b",
    );
    row(rt, b"CONTINUE a\x0b");
    row(rt, b"HIERARCH A = 5\x0b");
}

// The byte of a refused text: its first that is no blank. And that of a HIERARCH card without its = or its name.
fn text_rows(rt: &impl Print) {
    row(rt, b"A       = 'a");
    row(rt, b"A       =   'a' b");
    row(rt, b"A       = \t'");
    row(rt, b"CONTINUE'a");
    row(rt, b"CONTINUE  'a");
    row(rt, b"HIERARCH A = '");
    row(rt, b"CONTINUEa'");
    row(rt, b"CONTINUE  a'");
    row(rt, b"A       = (");
    row(rt, b"A       =   (1,2)");
    row(rt, b"HIERARCH A=(");
    row(rt, b"HIERARCH A  =  (");
    row(rt, b"HIERARCH A B");
    row(rt, b"HIERARCH =5");
    row(rt, b"HIERARCH   =5");
    row(rt, b"XTENSION=");
    row(rt, b"XTENSION=  /");
    row(rt, b"XTENSION= abc");
    row(rt, b"XTENSION=   '");
}

// Two refusals on a card: the one that comes first, and its byte.
fn order_rows(rt: &impl Print) {
    row(rt, b"HIERARCH A\x80");
    row(rt, b"A       = (\x0b\x80");
    row(rt, b"HIERARCH A\x0b");
    row(rt, b"HIERARCH   = \x0b");
    row(rt, b"A       = '' \x0b'");
    row(rt, b"CONTINUE a\x0b'");
    row(rt, b"A       = (\x0b");
    row(rt, b"XTENSION= a\x0b");
}

// ---- a row

// Prints a card and its reading.
fn row(rt: &impl Print, s: &[u8]) {
    put_bytes(rt, s);
    put(rt, b" => ");
    let card = padded_card(s);
    put_reading(rt, card::read_card(&card));
    put(rt, b"\n");
}

// A text with spaces behind it, up to a card's 80 bytes.
fn padded_card(s: &[u8]) -> [u8; CARD] {
    let mut card = [b' '; CARD];
    text::put_at(s, &mut card, 0);
    card
}

// ---- a reading

fn put_reading(rt: &impl Print, answer: Result<CardRead, Fault>) {
    match answer {
        Ok(read) => put_card(rt, read),
        Err(fault) => put_refusal(rt, fault),
    }
}

// The number, and the byte of the card. Every refusal of a card has one.
fn put_refusal(rt: &impl Print, fault: Fault) {
    let _ = print!(rt; "refusal {}", fault.number());
    if let Some(byte) = fault.column {
        let _ = print!(rt; " at {byte}");
    }
}

// The class, the name, the value or the text, and the comment with its unit.
fn put_card(rt: &impl Print, read: CardRead) {
    let _ = print!(rt; "{} ", class_word(read.card));
    put_text(rt, read.name);
    put(rt, b" ");
    match read.card {
        Card::Value(value) | Card::Hierarch(value) => put_value(rt, value, read.text),
        _ => put_text(rt, read.text),
    }
    if let Some(comment) = read.comment {
        put(rt, b" comment ");
        put_text(rt, comment);
        put_unit(rt, comment);
    }
}

fn class_word(card: Card) -> &'static str {
    match card {
        Card::Value(_) => "value",
        Card::Continuation => "continuation",
        Card::Xtension => "xtension",
        Card::Comment => "comment",
        Card::History => "history",
        Card::Hierarch(_) => "hierarch",
        Card::Space => "space",
        Card::End => "end",
        Card::Undefined => "undefined",
    }
}

// A value's kind, and what it holds.
fn put_value(rt: &impl Print, value: Value, text: Text) {
    match value {
        Value::Integer(z) => {
            let _ = print!(rt; "integer {z}");
        }
        Value::Float { minus, size } => put_decimal(rt, minus, size, text),
        Value::Logical(truth) => put_truth(rt, truth),
        Value::String => {
            put(rt, b"string ");
            put_text(rt, text);
        }
        Value::Undefined => put(rt, b"undefined"),
        Value::Invalid => {
            put(rt, b"invalid ");
            put_text(rt, text);
        }
    }
}

fn put_truth(rt: &impl Print, truth: bool) {
    let word: &[u8] = if truth { b"logical T" } else { b"logical F" };
    put(rt, word);
}

fn put_decimal(rt: &impl Print, minus: bool, size: Size, digits: Text) {
    put(rt, b"decimal ");
    if minus {
        put(rt, b"minus ");
    }
    match size {
        Size::Finite(power) => {
            put_text(rt, digits);
            let _ = print!(rt; " power {power}");
        }
        Size::Infinite => put(rt, b"infinite"),
        Size::Nan => put(rt, b"nan"),
    }
}

// The unit that a comment names, where it names one.
fn put_unit(rt: &impl Print, comment: Text) {
    let s = comment.as_slice();
    if let Some((from, to)) = value::unit(s) {
        put(rt, b" unit ");
        put_bytes(rt, text::rest_of(text::first_of(s, to), from));
    }
}

// ---- texts and numbers

fn put_text(rt: &impl Print, t: Text) {
    put_bytes(rt, t.as_slice());
}

// Bytes within double quotes.
fn put_bytes(rt: &impl Print, s: &[u8]) {
    put_quoted(rt, s, b"", "<", ">");
}
