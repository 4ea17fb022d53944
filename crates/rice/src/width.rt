// The three widths of pixels: what each fixes, and the arithmetic of its pixels.
ghost use Rattle.std.specs.Prelude.{◌≡◌, true, ◌+◌, ◌^◌, ◌<◌};
ghost use Rattle.rice.specs.Widths.{bits_of, fs_bits, fs_top, start_bytes, positives, pixel_of, in_width, modulo, difference, following};
ghost use Rattle.rice.specs.Blocks.{code_of};
ghost use Rattle.rice.specs.Steps.{width_of};
ghost use Rattle.rice.specs.Filling.{raised, counted};

use super::Cursor;

// The highest number of 32 bits.
const HIGHEST: u64 = 0xffff_ffff;

// How many bits a pixel has.
#[derive(Clone, Copy)]
pub enum Width {
    Eight,
    Sixteen,
    ThirtyTwo,
}

// A width with its numbers at hand: a mask of its bits, and how many of its pixels are negative.
// That a level, a number of pixels above the lowest one, is below 2 ^ bits is a clause: in a struct of its own with that ghost field
// each level would have its width beside it, also where one is stored for each pixel.
#[derive(Clone, Copy)]
pub struct Scale {
    pub width: Width,
    pub mask: u64,
    pub below: u64,
    ghost masked: { mask + 1 ≡ 2 ^ bits_of width },
    ghost negatives: { below + positives width ≡ 2 ^ bits_of width },
}

// How a block's differences are written: all 0; in so many bits each; in a run of zeros, a one and so many bits.
// That a code is one of a width's (`CodeFits`), and its fs at most 24, are clauses: an enum has no ghost field and no model, and with a
// struct round fs the definitions `code_of` and `diff_read`, which public promises cite, would build its proof.
#[derive(Clone, Copy)]
pub enum Code {
    Same,
    Raw(usize),
    Split(usize),
}

// The width of so many bits. No `TryFrom`: there is no error to name, `plan` answers for all limits at once.
#[tactic(auto, unfolding(crate::specs::Steps::width_of))]
pub(crate) fn width_of(bits: usize) -> Option<Width>
    ensures { result ≡ width_of bits }
{
    match bits {
        8 => Some(Width::Eight),
        16 => Some(Width::Sixteen),
        32 => Some(Width::ThirtyTwo),
        _ => None,
    }
}

impl Width {
    // The bits of a pixel.
    pub(crate) fn bits(self) -> usize
        ensures { result ≡ bits_of self }
    {
        match self {
            Width::Eight => 8,
            Width::Sixteen => 16,
            Width::ThirtyTwo => 32,
        }
    }

    // The bits of an FS field.
    pub(crate) fn fs_bits(self) -> usize
        ensures { result ≡ fs_bits self }
    {
        match self {
            Width::Eight => 3,
            Width::Sixteen => 4,
            Width::ThirtyTwo => 5,
        }
    }

    // The fs at which differences are raw.
    pub(crate) fn fs_top(self) -> u64
        ensures { result ≡ fs_top self }
    {
        match self {
            Width::Eight => 6,
            Width::Sixteen => 14,
            Width::ThirtyTwo => 25,
        }
    }

    // The bytes of the start value.
    pub(crate) fn start_bytes(self) -> usize
        ensures { result ≡ start_bytes self }
    {
        match self {
            Width::Eight => 1,
            Width::Sixteen => 2,
            Width::ThirtyTwo => 4,
        }
    }

    // How many pixels are negative.
    pub(crate) fn negatives(self) -> u64
        ensures { result + positives self ≡ 2 ^ bits_of self }
    {
        match self {
            Width::Eight => 0,
            Width::Sixteen => 0x8000,
            Width::ThirtyTwo => 0x8000_0000,
        }
    }

    // The highest number of the width's bits: a mask of them.
    pub(crate) fn mask(self) -> u64
        ensures { result + 1 ≡ 2 ^ bits_of self }
    {
        match self {
            Width::Eight => 0xff,
            Width::Sixteen => 0xffff,
            Width::ThirtyTwo => 0xffff_ffff,
        }
    }

    // The code that an FS field says; none above the top.
    #[tactic(auto, unfolding(crate::specs::Blocks::code_of))]
    pub(crate) fn code(self, field: u64) -> Option<Code>
        ensures { result ≡ code_of self field }
    {
        if field == 0 {
            return Some(Code::Same);
        }
        let top = self.fs_top();
        if field <= top {
            let fs = field - 1;
            return Some(Code::Split(fs as usize));
        }
        if field == top + 1 {
            Some(Code::Raw(self.bits()))
        } else {
            None
        }
    }

    // Whether a pixel is one of the width's.
    pub(crate) fn holds(self, z: i32) -> bool
        ensures { result ≡ in_width self z }
    {
        let below = self.negatives();
        if z < 0 {
            ((-1 - z) as u64) < below
        } else {
            let above = self.mask() + 1 - below;
            (z as u64) < above
        }
    }

    // The width with its numbers at hand.
    pub(crate) fn scale(self) -> Scale
        ensures { result.width ≡ self }
    {
        Scale {
            width: self,
            mask: self.mask(),
            below: self.negatives(),
        }
    }

    // The pixel whose bits are v: they are turned so that they count from the lowest pixel.
    pub(crate) fn pixel(self, v: u64) -> i32
        requires { v < 2 ^ bits_of self }
        ensures { result ≡ pixel_of self v }
    {
        let scale = self.scale();
        scale.pixel((v + scale.below) & scale.mask)
    }
}

impl Scale {
    // The pixel that stands so many above the lowest one.
    pub(crate) fn pixel(self, level: u64) -> i32
        requires { level < 2 ^ bits_of self.width }
        ensures { result ≡ raised self.width level }
    {
        (level as i64 - self.below as i64) as i32
    }

    // The cursor at a place with so many pixels done, the last of them counted from the lowest one.
    pub(crate) fn cursor(self, bit: usize, done: usize, level: u64) -> Cursor
        requires { level < 2 ^ bits_of self.width }
        ensures { result ≡ counted self.width bit done level }
    {
        Cursor {
            bit,
            done,
            last: self.pixel(level),
        }
    }

    // How many pixels a pixel stands above the lowest one.
    pub(crate) fn level_of(self, z: i32) -> u64
        requires { in_width self.width z ≡ true }
        ensures { (result < 2 ^ bits_of self.width) × (raised self.width result ≡ z) }
    {
        (z as i64 + self.below as i64) as u64
    }

    // The pixel that follows one, both counted from the lowest.
    pub(crate) fn next(self, level: u64, u: u64) -> u64
        requires { (level < 2 ^ bits_of self.width) × (u < 2 ^ 32) }
        ensures { (result < 2 ^ bits_of self.width)
            × (raised self.width result ≡ following self.width (raised self.width level) u) }
    {
        (level + unmap(u)) & self.mask
    }
}

// The difference that u means, modulo 2^32.
fn unmap(u: u64) -> u64
    requires { u < 2 ^ 32 }
    ensures { result ≡ modulo (difference u) (2 ^ 32) }
{
    if u % 2 == 0 { u / 2 } else { HIGHEST - u / 2 }
}
