// Bytes made visible: what is not printable is shown as \xNN (SPECIFICATION 13).
#![tactic(auto)]

ghost use Rattle.std.specs.Prelude.{◌≡◌, ◌<◌, length};
ghost use Rattle.std.proofs.lemmas.List.Edits.{sets};
ghost use Rattle.escaping.specs.Escaping.{escape_outcome, hex_digit, escaped_byte, escape_of};

// How much of a text was made visible: the bytes taken of it, and the bytes that they became.
#[derive(Clone, Copy)]
pub struct Escaped {
    pub taken: usize,
    pub put: usize,
}

// Puts a text, made visible, at the front of a lent buffer: as many of its bytes as a buffer has four places for. What stands behind
// them stays.
pub fn escape(s: &[u8], out: &mut [u8]) -> Escaped
    ensures { escape_outcome result out.new ≡ escape_of s.now out.old }
{
    let part = text::first_of(s, out.len() / 4);
    let mut put = 0;
    for b in part {
        put += put_byte(*b, out, put);
    }
    Escaped {
        taken: part.len(),
        put,
    }
}

// Puts one byte, made visible, into a lent buffer from a place on, and answers how many bytes it became.
#[tactic(auto, using(crate::proofs::Showing::as_it_is, crate::proofs::Showing::by_number))]
fn put_byte(b: u8, out: &mut [u8], at: usize) -> usize
    ensures value { result ≡ length (escaped_byte b) }
    ensures out_after { out.new ≡ sets out.old at (escaped_byte b) }
{
    if text::is_printable(b) {
        text::put_at(&[b], out, at);
        return 1;
    }
    text::put_at(
        &[b'\\', b'x', hex_digit(b / 16), hex_digit(b % 16)],
        out,
        at,
    );
    4
}

// The character of a hexadecimal digit.
fn hex_digit(n: u8) -> u8
    requires { n < 16 }
    ensures { result ≡ hex_digit n }
{
    if n < 10 { b'0' + n } else { b'7' + n }
}
