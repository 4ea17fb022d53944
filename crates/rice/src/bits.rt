// Fields of bits and runs of zeros in a slice of bytes, highest bit first. Past the slice's end every bit is 0.
ghost use Rattle.std.specs.Prelude.{◌≡◌, ◌+◌, ◌-◌, ◌*◌, ◌/◌, ◌%◌, ◌^◌, ◌<◌, ◌≤◌, min, length, get_or};
ghost use Rattle.rice.specs.Tile.{field_at, zeros_at};
ghost use Rattle.rice.specs.Held.{held_bits};

// Four bytes, the highest first.
fn quad(a: u8, b: u8, c: u8, d: u8) -> u64
    ensures { result ≡ ((a * 256 + b) * 256 + c) * 256 + d }
{
    u64::from(u32::from_be_bytes([a, b, c, d]))
}

// Two quads, the higher first.
fn join(high: u64, low: u64) -> u64
    requires { (high < 2 ^ 32) × (low < 2 ^ 32) }
    ensures { result ≡ high * 2 ^ 32 + low }
{
    high << 32 | low
}

// Byte i, or 0 past the end.
fn byte_or_zero(s: &[u8], i: usize) -> u8
    ensures { result ≡ get_or s.now i 0 }
{
    s.get(i).copied().unwrap_or(0)
}

// The 32 bits from byte i on, where they are all there.
fn whole_quad(s: &[u8], i: usize) -> u64
    requires { i + 4 ≤ length s.now }
    ensures { result ≡ field_at s.now (i * 8) 32 }
{
    quad(s[i], s[i + 1], s[i + 2], s[i + 3])
}

// The 32 bits from byte i on, anywhere.
fn edge_quad(s: &[u8], i: usize) -> u64
    requires { i < 2 ^ 62 }
    ensures { result ≡ field_at s.now (i * 8) 32 }
{
    quad(
        byte_or_zero(s, i),
        byte_or_zero(s, i + 1),
        byte_or_zero(s, i + 2),
        byte_or_zero(s, i + 3),
    )
}

// The 64 bits from byte i on, where they are all there.
pub(crate) fn whole_word(s: &[u8], i: usize) -> u64
    requires { i + 8 ≤ length s.now }
    ensures { result ≡ field_at s.now (i * 8) 64 }
{
    join(whole_quad(s, i), whole_quad(s, i + 4))
}

// The 64 bits from byte i on, anywhere.
fn word(s: &[u8], i: usize) -> u64
    requires { i < 2 ^ 61 }
    ensures { result ≡ field_at s.now (i * 8) 64 }
{
    if i + 8 <= s.len() {
        whole_word(s, i)
    } else {
        join(edge_quad(s, i), edge_quad(s, i + 4))
    }
}

// What is left of place p's byte, and the seven bytes after it, at the top of a word, where they are all there.
pub(crate) fn window(s: &[u8], p: usize) -> u64
    requires { p / 8 + 8 ≤ length s.now }
    ensures { result ≡ held_bits s.now p (64 - p % 8) }
{
    whole_word(s, p / 8) << (p % 8)
}

// The n bits from place p on.
pub(crate) fn field(s: &[u8], p: usize, n: usize) -> u64
    requires { n ≤ 57 }
    ensures { result ≡ field_at s.now p n }
{
    (word(s, p / 8) << (p % 8)) >> 1 >> (63 - n)
}

// How many of the n bits from place p on stand before the first one: n where none is set. A word at a time: the zeros that are shifted in
// below its bits are not the tile's. No `for`: how far a turn comes depends on where its word starts.
pub(crate) fn zeros(s: &[u8], p: usize, n: usize) -> usize
    requires { p + n < 2 ^ 62 }
    ensures { result ≡ zeros_at s.now p n }
{
    let mut k = 0;
    while k < n {
        let at = p + k;
        let held = 64 - at % 8;
        let z = u64::leading_zeros(word(s, at / 8) << (at % 8)) as usize;
        if z < held {
            return (k + z).min(n);
        }
        k += held;
    }
    n
}
