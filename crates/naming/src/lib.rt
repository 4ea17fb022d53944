// The name that the entry at a card's number bears.
#![tactic(auto)]

ghost use Rattle.std.specs.Prelude.{◌≡◌};
ghost use Rattle.refusal.specs.Numbers.{fault_of};
ghost use Rattle.text.specs.Text.{bytes_of};
ghost use Rattle.naming.specs.Naming.{naming_by, name_written, name_at};

use card::{CARD, CardRead};
use refusal::{Fault, Refusal};
use roles::Role;
use text::Text;

// The name that the entry at card i bears, at the front of the lent buffer. No other card is looked at, so END may stand before that
// number. A card that is no entry, or that the header lacks, bears none.
pub fn read_name(header: &[u8], i: usize, name: &mut [u8]) -> Result<usize, Fault>
    ensures { naming_by result name.new ≡ name_at header.now i name.old }
{
    if roles::is_bad_length(header.len()) {
        return Err(refusal::fault_of(Refusal::HeaderLength));
    }
    if header.len() / CARD <= i {
        return no_name();
    }
    // The card is used where it is answered: a copy of it would stand on the stack while it is read.
    // By match, and what is not used is left: `?` keeps a copy of the whole card on the stack (widrekas.h names the limit).
    match roles::card_at(header, i) {
        Err(fault) => Err(fault),
        Ok(
            CardRead {
                card,
                name: own,
                text: _,
                comment: _,
            },
        ) => {
            let Role::Entry { value: _, joins: _ } = roles::role_of(card) else {
                return no_name();
            };
            write_name(own, name)
        }
    }
}

// There is no such card, or it bears no name.
fn no_name() -> Result<usize, Fault>
    ensures { result ≡ Err (fault_of Refusal.NameNotFound) }
{
    Err(refusal::fault_of(Refusal::NameNotFound))
}

// A name at the front of the lent buffer, if it fits.
fn write_name(own: Text, name: &mut [u8]) -> Result<usize, Fault>
    ensures { naming_by result name.new ≡ name_written (bytes_of own) name.old }
{
    let part = own.as_slice();
    let n = part.len();
    if name.len() < n {
        return Err(refusal::fault_of(Refusal::BufferShort));
    }
    text::put_at(part, name, 0);
    Ok(n)
}
