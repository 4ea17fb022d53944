// A card as the C boundary gives it: a record of bytes and a number.
#![tactic(auto)]

ghost use Rattle.std.specs.Prelude.{◌≡◌, ◌++◌, false, pos, length};
ghost use Rattle.laws.specs.Lending.{lent_of};
ghost use Rattle.abi_value.specs.Telling.{told};
ghost use Rattle.abi_card.specs.Records.{class_number, card_told, byte_of, text_in, record_head, record_of, CardLeft};

use abi_value::Told;
use card::{Card, CardRead};
use text::Text;

// The bytes of a card's record, and where its texts stand, 80 bytes each.
const RECORD: usize = 248;

const NAME: usize = 8;

const TEXT: usize = 88;

const COMMENT: usize = 168;

// Reads a card of 80 bytes into a record of 248 bytes and a number, and answers 0.
// Otherwise it answers the refusal's number, with the byte at which the card is refused as the column, or 255 where a slice has another
// length. All else stays as it is.
pub fn read_into(card: &[u8], out: &mut [u8], number: &mut i64, column: &mut usize) -> u8
    ensures { CardLeft card.now (lent_of out) (lent_of number) (lent_of column) result }
{
    let Some(card) = card.as_array::<80>() else {
        return abi_value::WRONG_LENGTH;
    };
    if out.len() != RECORD {
        return abi_value::WRONG_LENGTH;
    }
    let answer = card::read_card(card);
    match &answer {
        Ok(read) => {
            write_record(read, out);
            *number = card_told(read.card).number;
            0
        }
        Err(fault) => {
            *column = abi_value::column_after(fault.column, *column);
            fault.number()
        }
    }
}

// ---- a card in numbers

// The number of a card's class.
fn class_number(card: Card) -> u8
    ensures { result ≡ class_number card }
{
    match card {
        Card::Value(_) => 1,
        Card::Continuation => 2,
        Card::Xtension => 3,
        Card::Comment => 4,
        Card::History => 5,
        Card::Hierarch(_) => 6,
        Card::Space => 7,
        Card::End => 8,
        Card::Undefined => 9,
    }
}

fn card_told(card: Card) -> Told
    ensures { result ≡ card_told card }
{
    match card {
        Card::Value(v) => abi_value::value_told(v),
        Card::Hierarch(v) => abi_value::value_told(v),
        Card::Continuation => no_value(),
        Card::Xtension => no_value(),
        Card::Comment => no_value(),
        Card::History => no_value(),
        Card::Space => no_value(),
        Card::End => no_value(),
        Card::Undefined => no_value(),
    }
}

// A card without a value.
fn no_value() -> Told
    ensures { result ≡ told 0 false (pos 0) }
{
    Told {
        kind: 0,
        flag: false,
        number: 0,
    }
}

// ---- the record

// A length in a byte.
fn byte(n: usize) -> u8
    ensures { result ≡ byte_of n }
{
    if n < 255 { n as u8 } else { 255 }
}

// The text of a comment, which is empty where there is none.
fn text_in(comment: Option<Text>) -> Text
    ensures { result ≡ text_in comment }
{
    comment.unwrap_or(text::empty_text())
}

// The eight numbers in front of a record.
fn head(read: &CardRead, value: Told) -> [u8; 8]
    ensures { result ≡ record_head read.now value }
{
    [
        class_number(read.card),
        value.kind,
        abi_value::bit(value.flag),
        abi_value::bit(read.comment.is_some()),
        byte(read.name.len),
        byte(read.text.len),
        byte(text_in(read.comment).len),
        0,
    ]
}

// A card's record.
fn write_record(read: &CardRead, out: &mut [u8])
    requires { length out.old ≡ 248 }
    ensures { out.new ≡ record_of read.now }
{
    let front = head(read, card_told(read.card));
    let comment = text_in(read.comment);
    fill(
        out,
        &front,
        &read.name.bytes,
        &read.text.bytes,
        &comment.bytes,
    );
}

// A record's four parts, one behind the other.
fn fill(out: &mut [u8], front: &[u8; 8], name: &[u8; 80], text: &[u8; 80], comment: &[u8; 80])
    requires { length out.old ≡ 248 }
    ensures { out.new ≡ front.now ++ name.now ++ text.now ++ comment.now }
{
    text::put_at(front, out, 0);
    text::put_at(name, out, NAME);
    text::put_at(text, out, TEXT);
    text::put_at(comment, out, COMMENT);
}
