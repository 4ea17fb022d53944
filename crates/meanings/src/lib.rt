// What each refusal says in words.
#![tactic(auto)]

ghost use Rattle.std.specs.Prelude.{◌≡◌, ◌≤◌, length};
ghost use Rattle.text.specs.Text.{size, text_of};
ghost use Rattle.meanings.specs.Meanings.{meaning_of};

use refusal::{Fault, Refusal};
use text::Text;

// The words of a fault's refusal.
pub fn meaning(fault: Fault) -> Text
    ensures { result ≡ text_of (meaning_of fault.why) }
{
    text::text_of(words(fault.why))
}

#[tactic(auto, unfolding(crate::specs::Meanings::meaning_of))]
fn words(why: Refusal) -> &'static [u8]
    ensures value { result.now ≡ meaning_of why }
    ensures fits { length result.now ≤ size }
{
    match why {
        Refusal::HighByte => b"a byte of the card is 128 or more",
        Refusal::OddByte =>
            b"before the slash and outside a string stands a byte outside 32 to 126",
        Refusal::StringNotClosed => b"the string begins with a quote and does not end with one",
        Refusal::StringNotOpened =>
            b"the CONTINUE string ends with a quote and does not begin with one",
        Refusal::Complex =>
            b"the value begins with a parenthesis, and complex numbers are not read",
        Refusal::NoEquals => b"the HIERARCH card has no = from byte 9 on",
        Refusal::NoName => b"the HIERARCH card has no name before its =",
        Refusal::ExtensionNotQuoted => b"the XTENSION value is not within quotes",
        Refusal::HeaderLength => b"the header's length is 0, no multiple of 80, or above 57,600",
        Refusal::NoEnd => b"the header has no END card",
        Refusal::NameNotFound => b"no entry bears the name or stands at the card",
        Refusal::BufferShort => b"a lent buffer is shorter than the text for it",
        Refusal::Limits => b"the tile's pixels, block, width or length is outside its limits",
        Refusal::PixelCount => b"the pixel slice is not as long as the tile has pixels",
        Refusal::TileEnds => b"the tile ends before its last pixel",
        Refusal::FsAboveTop => b"an FS field of the tile is above its top",
        Refusal::BadCursor => b"the cursor does not fit the tile",
        Refusal::UnwritableName =>
            b"the name is not 1 to 8 of A to Z, 0 to 9, - and _, or is a special keyword",
        Refusal::UnwritableValue =>
            b"the value or its comment is outside the rules for written cards",
        Refusal::BlockShort => b"the block is shorter than the cards for it",
    }
}
