// What each card is to its header, and the cards of a header by their numbers.
#![tactic(auto)]

ghost use Rattle.std.specs.Prelude.{◌≡◌, ◌*◌, ◌/◌, ◌<◌, length, take, drop};
ghost use Rattle.card.specs.Cards.{card_of};
ghost use Rattle.roles.specs.Roles.{is_string, role_by, told_of};
ghost use Rattle.roles.specs.Cards.{is_bad_length, card_count, card_at};

use card::{CARD, Card, CardRead};
use numbers::Value;
use refusal::Fault;

// What a card is to its header.
#[derive(Clone, Copy)]
pub enum Role {
    // A value, HIERARCH or XTENSION card, with its value. CONTINUE cards may be joined to it where it says so.
    Entry { value: Value, joins: bool },
    // A CONTINUE card.
    More,
    // A comment, history, space or undefined card: it does nothing.
    Neutral,
    // END.
    Last,
}

// The most cards of a header.
pub const MOST_CARDS: usize = 720;

// The bytes of a blank card.
const BLANK: [u8; 80] = [b' '; 80];

// The bytes of the longest header.
const LONGEST: usize = MOST_CARDS * CARD;

// 0, not a multiple of a card, or beyond the longest.
pub fn is_bad_length(n: usize) -> bool
    ensures { result ≡ is_bad_length n }
{
    if n == 0 {
        return true;
    }
    if n % CARD != 0 {
        return true;
    }
    LONGEST < n
}

// The number of a header's cards: none where its length is refused.
pub fn card_count(header: &[u8]) -> usize
    ensures { result ≡ card_count (length header.now) }
{
    if is_bad_length(header.len()) {
        return 0;
    }
    header.len() / CARD
}

// The card with a number; a blank one where the header has no such card.
pub fn card_at(header: &[u8], i: usize) -> Result<CardRead, Fault>
    ensures { result ≡ card_at header.now i }
{
    let (cards, _) = header.as_chunks::<80>();
    card::read_card(cards.get(i).unwrap_or(&BLANK))
}

// What a card is to its header by its class.
pub fn role_of(card: Card) -> Role
    ensures { result ≡ role_by card }
{
    match card {
        Card::Value(v) => Role::Entry {
            value: v,
            joins: is_string(v),
        },
        Card::Hierarch(v) => Role::Entry {
            value: v,
            joins: is_string(v),
        },
        Card::Xtension => Role::Entry {
            value: Value::String,
            joins: false,
        },
        Card::Continuation => Role::More,
        Card::Comment => Role::Neutral,
        Card::History => Role::Neutral,
        Card::Space => Role::Neutral,
        Card::Undefined => Role::Neutral,
        Card::End => Role::Last,
    }
}

// The same by what a card was read as: a refusal is handed on.
pub fn role_told(answer: Result<Card, Fault>) -> Result<Role, Fault>
    ensures { result ≡ told_of answer }
{
    answer.map(role_of)
}

fn is_string(value: Value) -> bool
    ensures { result ≡ is_string value }
{
    match value {
        Value::Integer(_) => false,
        Value::Float { minus: _, size: _ } => false,
        Value::Logical(_) => false,
        Value::String => true,
        Value::Undefined => false,
        Value::Invalid => false,
    }
}
