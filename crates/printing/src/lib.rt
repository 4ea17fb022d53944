// Prints a header's names, each with its kind, its reading and, above 1, how many cards bear it, and their count; or its refusal
// (SPECIFICATION 13). Each line is proved up to its write, and none is left out: the buffers hold every line that a header can give, and
// a write that fails is answered.
#![tactic(auto)]

ghost use Rattle.std.specs.Prelude.{◌≡◌, [], ◌++◌, map, ◌<◌, ◌≤◌, length, get_or};
ghost use Rattle.listing.specs.Listing.{list_of};
ghost use Rattle.lines.specs.Lines.{count_line, refused_line, line_room};
ghost use Rattle.finding.specs.Finding.{header_of};
ghost use Rattle.output.specs.Shown.{printed_line, IsWhole};
ghost use Rattle.printing.specs.Output.{name_lines, in_order, printed_of};
ghost use Rattle.printing.specs.Ready.{IsListed, IsWide, Front, length_of};

use finding::Stop;
use output::Printed;
use std::io::Write;

// What became of a header: whether it is accepted, and whether its lines were written.
#[derive(Clone, Copy)]
pub struct Report {
    pub header: Result<usize, Stop>,
    pub printed: Printed,
}

// Prints a header's lines to a writer, as they stand or made visible, and says how that went. `escaped` is a bool, and no type or closure:
// the program learns it as it runs, the public clauses of `printed_of` and `output::write_line` speak of it, and one loop serves both.
pub fn print_header(to: &mut impl Write, header: &[u8], escaped: bool) -> Report
    ensures { (result.header ≡ header_of header.now)
        × IsWhole result.printed (printed_of escaped header.now) }
{
    let mut first: [usize; 720] = [0; 720];
    let mut last: [usize; 720] = [0; 720];
    let mut times: [usize; 720] = [0; 720];
    let listed = listing::list_over(header, &mut first, &mut last, &mut times);
    let printed = match listed.header {
        Ok(_) => print_names(to, header, &first, &last, &times, listed.count, escaped),
        Err(stop) => print_refusal(to, stop, escaped),
    };
    Report {
        header: listed.header,
        printed,
    }
}

// The line of a refusal.
fn print_refusal(to: &mut impl Write, stop: Stop, escaped: bool) -> Printed
    ensures { IsWhole result (printed_line escaped (refused_line stop.fault stop.card)) }
{
    let mut line = [0u8; 321];
    let n = refused_part(stop, &mut line);
    output::write_line(to, text::first_of(&line, n), escaped)
}

// The lines of the names in their order, then that of their count. The first write that fails ends it. The arrays go on one by one, as
// `list_over` is lent them: a struct of borrows would be made for this call alone, and taken apart in `name_part`.
fn print_names<'a>(
    to: &mut impl Write,
    header: &[u8],
    first: &'a [usize],
    last: &'a [usize],
    times: &'a [usize],
    count: usize,
    escaped: bool,
) -> Printed
    requires { IsListed header.now first.now last.now times.now × (count ≡ (list_of header.now).count) }
    ensures { IsWhole result (in_order (map (printed_line escaped) (name_lines header.now))
        ++ printed_line escaped (count_line count)) }
{
    let mut text = [0u8; 51200];
    let mut line = [0u8; 52640];
    let mut printed = 0;
    for k in 0..count {
        let n = name_part(header, first, last, times, k, &mut text, &mut line);
        let written = output::write_line(to, text::first_of(&line, n), escaped)?;
        printed += written;
    }
    let n = count_part(count, &mut line);
    let written = output::write_line(to, text::first_of(&line, n), escaped)?;
    Ok(printed + written)
}

// ---- the lines, each at the front of a lent buffer, by their lengths

fn refused_part(stop: Stop, line: &mut [u8]) -> usize
    requires { line_room ≤ length line.old }
    ensures { Front result line.new (refused_line stop.fault stop.card) }
{
    length_of(lines::refused_line(stop.fault, stop.card, line))
}

fn count_part(count: usize, line: &mut [u8]) -> usize
    requires { line_room ≤ length line.old }
    ensures { Front result line.new (count_line count) }
{
    length_of(lines::count_line(count, line))
}

// The line of the name at place k: the name stands on the first card that bears it, its reading on the last.
fn name_part(
    header: &[u8],
    first: &[usize],
    last: &[usize],
    times: &[usize],
    k: usize,
    text: &mut [u8],
    line: &mut [u8],
) -> usize
    requires { IsListed header.now first.now last.now times.now × (k < (list_of header.now).count)
        × IsWide text.old line.old }
    ensures { Front result line.new (get_or (name_lines header.now) k []) }
{
    let Ok(card) = roles::card_at(header, first[k]) else {
        return 0;
    };
    let looked = entries::value_at(header, last[k], text);
    let Ok(value) = looked.answer else {
        return 0;
    };
    let shown = text::first_of(text, looked.text);
    length_of(lines::entry_line(card.name, value, looked.digits, shown, times[k], line))
}

// How many bytes a line has that was written.
fn length_of(written: Option<usize>) -> usize
    ensures { result ≡ length_of written }
{
    written.unwrap_or(0)
}
