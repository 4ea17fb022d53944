// Bytes handed to a writer, as they stand or made visible, and how that went. What arrives is outside every contract: one says how
// many bytes were handed on where no write failed.
#![tactic(auto)]

ghost use Rattle.std.specs.Prelude.{◌≡◌};
ghost use Rattle.escaping.specs.Escaping.{escaped};
ghost use Rattle.output.specs.Shown.{printed_line, IsWhole};

use std::io::Write;

// A write failed, and some bytes may be missing.
#[derive(Clone, Copy)]
pub struct Cut;

// So many bytes were taken, all that there are; or a write failed.
pub type Printed = Result<usize, Cut>;

// The longest text that is made visible. No line of a header is longer.
const MOST_VISIBLE: usize = 65536;

// Writes a text as it stands. A write that takes nothing has failed. The writer says how far it comes, so that no range does.
pub fn write(to: &mut impl Write, s: &[u8]) -> Printed
    ensures { IsWhole result s.now }
{
    let mut done = 0;
    while done < s.len() {
        let n = to.write(&s[done..]).unwrap_or(0);
        if n == 0 {
            return Err(Cut);
        }
        done += n;
    }
    Ok(done)
}

// Writes a text made visible, piece by piece. One that is longer than 65,536 bytes is not written.
pub fn write_visibly(to: &mut impl Write, s: &[u8]) -> Printed
    ensures { IsWhole result (escaped s.now) }
{
    if MOST_VISIBLE < s.len() {
        return Err(Cut);
    }
    let mut piece = [0u8; 1024];
    let mut written = 0;
    for part in s.chunks(256) {
        let made = escaping::escape(part, &mut piece);
        let n = write(to, text::first_of(&piece, made.put))?;
        written += n;
    }
    Ok(written)
}

// Writes a line, which ends in a line feed: as it stands, or made visible up to there. One that is longer than 65,536 bytes is not
// made visible.
pub fn write_line(to: &mut impl Write, line: &[u8], escaped: bool) -> Printed
    ensures { IsWhole result (printed_line escaped line.now) }
{
    if !escaped {
        return write(to, line);
    }
    if MOST_VISIBLE < line.len() {
        return Err(Cut);
    }
    let n = write_visibly(to, text::first_of(line, line.len().saturating_sub(1)))?;
    let end = write(to, b"\n")?;
    let written = n + end;
    Ok(written)
}
