// Where a name stands in a header: the cards read up to END, and the last of them that bears the name.
#![tactic(auto)]

ghost use Rattle.std.specs.Prelude.{◌≡◌};
ghost use Rattle.text.specs.Text.{bytes_of};
ghost use Rattle.finding.specs.Finding.{stop_at, header_of, find_of};
ghost use Rattle.finding.specs.Passing.{bears_name};

use card::{CARD, CardRead};
use refusal::{Fault, Refusal};
use roles::Role;
use text::Text;

// Why a header is refused, and the number of the card at which it is.
#[derive(Clone, Copy)]
pub struct Stop {
    pub fault: Fault,
    pub card: usize,
}

// Where a header ends, by the number of END, and the last card up to there that bears a name, if one does.
#[derive(Clone, Copy)]
pub struct Found {
    pub end: usize,
    pub last: Option<usize>,
}

// Reads the cards from number 0 up to END, each once, and finds the last of them that bears the name. The answer is a stop where a card
// is refused before END.
pub fn find(header: &[u8], name: &[u8]) -> Result<Found, Stop>
    ensures { result ≡ find_of header.now name.now }
{
    if roles::is_bad_length(header.len()) {
        return Err(stop_at(refusal::fault_of(Refusal::HeaderLength), 0));
    }
    let cards = header.len() / CARD;
    let mut last = None;
    for i in 0..cards {
        // By match, and what is not used is left: `?` keeps a copy of the whole card on the stack (widrekas.h names the limit).
        match roles::card_at(header, i) {
            Err(fault) => return Err(stop_at(fault, i)),
            Ok(
                CardRead {
                    card,
                    name: own,
                    text: _,
                    comment: _,
                },
            ) => {
                let role = roles::role_of(card);
                if let Role::Last = role {
                    return Ok(Found { end: i, last });
                }
                if bears_name(role, own, name) {
                    last = Some(i);
                }
            }
        }
    }
    Err(stop_at(refusal::fault_of(Refusal::NoEnd), cards))
}

// Whether a header is accepted, and where its END stands.
pub fn read_header(header: &[u8]) -> Result<usize, Stop>
    ensures { result ≡ header_of header.now }
{
    let found = find(header, b"")?;
    Ok(found.end)
}

// A fault at a card.
pub fn stop_at(fault: Fault, card: usize) -> Stop
    ensures { result ≡ stop_at fault card }
{
    Stop { fault, card }
}

// Whether a card is an entry that bears the name, by its role and its own name.
fn bears_name(role: Role, own: Text, name: &[u8]) -> bool
    ensures { result ≡ bears_name role (bytes_of own) name.now }
{
    let Role::Entry { value: _, joins: _ } = role else {
        return false;
    };
    text::same_bytes(own.as_slice(), name)
}
