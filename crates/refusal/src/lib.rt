// The refusals, one case for each row of SPECIFICATION 2.1, and the fault that carries one up through every layer.
#![tactic(auto)]

ghost use Rattle.std.specs.Prelude.{◌≡◌};
ghost use Rattle.refusal.specs.Numbers.{number_of, fault_of, fault_at};

// Why an input gets no reading.
#[derive(Clone, Copy)]
pub enum Refusal {
    // A card has a byte of 128 or more.
    HighByte,
    // Splitting meets, before the slash, a byte outside 32..126 that it does not replace.
    OddByte,
    // The text to be a string begins with a quote and does not end with one, or is one lone quote.
    StringNotClosed,
    // A CONTINUE text ends with a quote and does not begin with one.
    StringNotOpened,
    // The value text begins with a parenthesis: complex values are not read.
    Complex,
    // HIERARCH: no = from byte 9 on.
    NoEquals,
    // HIERARCH: no name before that =.
    NoName,
    // The XTENSION text is not within quotes, or is a lone quote.
    ExtensionNotQuoted,
    // The header's length is 0, not a multiple of 80, or above 57,600.
    HeaderLength,
    // No END card.
    NoEnd,
    // The name is not found.
    NameNotFound,
    // A lent text buffer is shorter than the text for it.
    BufferShort,
    // nx, nblock, width or tile length outside its limits.
    Limits,
    // The pixel slice is not nx long.
    PixelCount,
    // The tile ends before the bits asked for.
    TileEnds,
    // An FS above its top.
    FsAboveTop,
    // A cursor outside its rules.
    BadCursor,
    // A name that no card may be written for.
    UnwritableName,
    // A value or comment outside the rules of written cards.
    UnwritableValue,
    // A lent block is shorter than the cards for it.
    BlockShort,
}

// A refusal on its way up: every answer that can be refused holds one, and hands it on unchanged.
#[derive(Clone, Copy)]
pub struct Fault {
    pub why: Refusal,
    pub column: Option<usize>,
}

// The fault of a refusal that has no column.
pub fn fault_of(why: Refusal) -> Fault
    ensures { result ≡ fault_of why }
{
    Fault {
        why: why,
        column: None,
    }
}

// The fault of a refusal at a byte of a card.
pub fn fault_at(why: Refusal, byte: usize) -> Fault
    ensures { result ≡ fault_at why byte }
{
    Fault {
        why: why,
        column: Some(byte),
    }
}

impl Fault {
    // The number of its refusal.
    pub fn number(self) -> u8
        ensures { result ≡ number_of self.why }
    {
        let why = self.why;
        why.number()
    }
}

impl Refusal {
    // The refusal's number (SPECIFICATION 2.1).
    pub fn number(self) -> u8
        ensures { result ≡ number_of self }
    {
        match self {
            Refusal::HighByte => 1,
            Refusal::OddByte => 2,
            Refusal::StringNotClosed => 3,
            Refusal::StringNotOpened => 4,
            Refusal::Complex => 5,
            Refusal::NoEquals => 6,
            Refusal::NoName => 7,
            Refusal::ExtensionNotQuoted => 8,
            Refusal::HeaderLength => 9,
            Refusal::NoEnd => 10,
            Refusal::NameNotFound => 12,
            Refusal::BufferShort => 13,
            Refusal::Limits => 14,
            Refusal::PixelCount => 15,
            Refusal::TileEnds => 16,
            Refusal::FsAboveTop => 17,
            Refusal::BadCursor => 18,
            Refusal::UnwritableName => 19,
            Refusal::UnwritableValue => 20,
            Refusal::BlockShort => 21,
        }
    }
}
