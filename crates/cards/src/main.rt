// The program `cards` (SPECIFICATION 13). Without arguments it reads a header on standard input and prints its names, each with its kind
// and reading, and their count. The command ./cards gives it arguments: how lines are shown, and then files. It reads the header with
// which each file begins, tells on standard error why one is refused, and says on descriptor 3 as its last act how all of it went.
#![tactic(auto)]

use finding::Stop;
use output::Printed;
use refusal::Refusal;
use std::env::{Env, FillError};
use std::fs::{File, OpenOptions};
use std::io::{Cursor, IsTerminal, Read, Stderr, Stdout, Write};
use std::{fmt, io};

// How it went: each header was read and written; one was refused; a file could not be read; standard output could not be written. The
// later one of two is the worse.
#[derive(Clone, Copy, PartialEq, Eq, PartialOrd, Ord)]
enum Ending {
    Read,
    Refused,
    Unreadable,
    Unwritten,
}

impl Ending {
    // The digit of the command's exit status.
    fn digit(self) -> u8 {
        match self {
            Ending::Read => b'0',
            Ending::Refused => b'1',
            Ending::Unreadable => b'3',
            Ending::Unwritten => b'4',
        }
    }
}

// Where that is said: descriptor 3.
const SAYS: &str = "/dev/fd/3";

// The first argument says how lines are shown; files follow.
const SHOWN: usize = 1;

const FILES: usize = 2;

// The variable in which the command gives the folder of its links: a link for each file whose name may not be UTF-8, named by the number of
// its argument.
const LINKS: &str = "CARDS_LINKS";

// The bytes of a card and of the longest header.
const CARD: usize = 80;

const LONGEST: usize = 57600;

// What the system says of a name that is too long, and of one that is no text.
const ENAMETOOLONG: i32 = 36;

const EILSEQ: i32 = 84;

// What the program is asked for: a header on standard input, bare; or files, of which there may be several, with lines made visible or not.
#[derive(Clone, Copy)]
pub struct Asked {
    pub bare: bool,
    pub several: bool,
    pub escaped: bool,
}

// Standard output, and the last error of a write to it.
#[derive(Clone, Copy, Drop)]
struct Paper {
    to: Stdout,
    error: io::Error,
}

impl Write for Paper {
    fn write(&mut self, buf: &[u8]) -> io::Result<usize> {
        match self.to.write(buf) {
            Ok(n) => Ok(n),
            Err(e) => {
                self.error = e;
                Err(e)
            }
        }
    }

    fn flush(&mut self) -> io::Result<()> {
        self.to.flush()
    }
}

fn main(rt: HostRuntime) {
    // One byte more than the longest header, so that a longer one is seen to be longer.
    let mut buffer = [0u8; 57601];
    let mut paper = Paper {
        to: rt.stdout(),
        error: io::Error::from_raw_os_error(0),
    };
    let count = arg_count(&rt);
    let asked = asked_for(&rt, count);
    let end = inputs_end(count);
    let mut worst = Ending::Read;
    for i in FILES..end {
        worst = worst.max(print_input(&rt, &mut paper, i, asked, &mut buffer));
        if worst == Ending::Unwritten {
            break;
        }
    }
    if !asked.bare {
        say(&rt, worst);
    }
}

// Says on descriptor 3 how it went.
fn say(rt: &HostRuntime, how: Ending) {
    let mut options = OpenOptions::new();
    options.append(true);
    let Ok(mut file) = options.open(rt, SAYS) else {
        return;
    };
    let _ = file.write_all(&[how.digit()]);
}

// ---- one file

// Prints the lines of an input, behind its name where there are several, and says how that went. A path is fetched where it is used: it
// takes no room beside the buffers of printing.
fn print_input(
    rt: &HostRuntime,
    paper: &mut Paper,
    i: usize,
    asked: Asked,
    buffer: &mut [u8],
) -> Ending {
    let Some(n) = read_input(rt, i, asked.bare, buffer) else {
        return Ending::Unreadable;
    };
    if asked.several && print_name(rt, paper, i, asked.escaped).is_err() {
        return unwritten(rt, paper.error);
    }
    let header = text::first_of(buffer, taken(n, asked.bare));
    let report = printing::print_header(paper, header, asked.escaped);
    if report.printed.is_err() {
        return unwritten(rt, paper.error);
    }
    let Err(stop) = report.header else {
        return Ending::Read;
    };
    if !asked.bare {
        tell_input(rt, i);
        tell_refusal(&mut rt.stderr(), stop, header, LONGEST < n);
    }
    Ending::Refused
}

// How many of the bytes read are taken: all of a bare header, the whole cards of a file's front.
fn taken(n: usize, bare: bool) -> usize {
    if bare {
        return n;
    }
    let front = n.min(LONGEST);
    front - front % CARD
}

// Standard output could not be written: tells why.
fn unwritten(rt: &HostRuntime, error: io::Error) -> Ending {
    let mut told = rt.stderr();
    tell(&mut told, b"cards: standard output cannot be written: ");
    tell_error(rt, error);
    Ending::Unwritten
}

// ---- arguments

// How many arguments there are, the program's name among them.
fn arg_count(rt: &HostRuntime) -> usize {
    let mut none = [0u8; 0];
    for i in 0..usize::MAX {
        if let Err(FillError::NotPresent) = rt.arg(i, &mut none) {
            return i;
        }
    }
    usize::MAX
}

// What is asked for, by the number of arguments, the program's name among them.
fn asked_for(rt: &HostRuntime, count: usize) -> Asked {
    let bare = count <= FILES;
    Asked {
        bare,
        several: FILES + 1 < count,
        escaped: !bare && is_escaped(rt),
    }
}

// The number behind that of the last input: a bare header is one input, though no argument names it.
fn inputs_end(count: usize) -> usize {
    count.max(FILES + 1)
}

// Whether lines are made visible: where the first argument says so, and on a terminal.
fn is_escaped(rt: &HostRuntime) -> bool {
    let mut word = [0u8; 16];
    if let Ok(n) = rt.arg(SHOWN, &mut word)
        && text::same_bytes(&word[..n], b"escaped")
    {
        return true;
    }
    rt.stdout().is_terminal()
}

// Reads the front of an input: of standard input for a bare header and for a minus sign, of a file otherwise. Answers how many bytes were
// read, and tells why where that fails.
fn read_input(rt: &HostRuntime, i: usize, bare: bool, buffer: &mut [u8]) -> Option<usize> {
    let mut path = [0u8; 4096];
    let mut n = 0;
    if !bare {
        let Ok(len) = rt.arg(i, &mut path) else {
            unread(rt, b"", io::Error::from_raw_os_error(ENAMETOOLONG));
            return None;
        };
        n = len;
    }
    match front_of(rt, i, &path[..n], bare, buffer) {
        Ok(got) => Some(got),
        Err(e) => {
            unread(rt, &path[..n], e);
            None
        }
    }
}

// The same of an input and its path: how many bytes were read.
fn front_of(
    rt: &HostRuntime,
    i: usize,
    path: &[u8],
    bare: bool,
    buffer: &mut [u8],
) -> io::Result<usize> {
    if bare || text::same_bytes(path, b"-") {
        return read_front(&mut rt.stdin(), buffer);
    }
    let mut file = open_input(rt, i, path)?;
    read_front(&mut file, buffer)
}

// Opens the file of an input. std opens no path that is not UTF-8: such a file has a link.
fn open_input(rt: &HostRuntime, i: usize, path: &[u8]) -> io::Result<File> {
    if let Ok(name) = std::str::from_utf8(path) {
        return File::open(rt, name);
    }
    open_link(rt, i)
}

// Opens the link of an input. Where there is no folder of links, what is wrong is the name.
fn open_link(rt: &HostRuntime, i: usize) -> io::Result<File> {
    let mut path = [0u8; 4096];
    if let Some(n) = link_len(rt, i, &mut path) {
        if let Ok(name) = std::str::from_utf8(text::first_of(&path, n)) {
            return File::open(rt, name);
        }
    }
    Err(io::Error::from_raw_os_error(EILSEQ))
}

// Puts the path of an input's link at the front of a buffer. Answers how long it is, where there is a folder of links and the path has
// room.
fn link_len(rt: &HostRuntime, i: usize, path: &mut [u8]) -> Option<usize> {
    let n = rt.var(LINKS, path).ok()?;
    let mut put = Cursor::new(path);
    put.set_position(n as u64);
    write!(put, "/{i}").ok()?;
    Some(put.position() as usize)
}

// Reads until a buffer is full or the input ends. The reader says how far it comes, so that no range does.
fn read_front(from: &mut impl Read, buffer: &mut [u8]) -> io::Result<usize> {
    let mut done = 0;
    while done < buffer.len() {
        let n = from.read(&mut buffer[done..])?;
        if n == 0 {
            break;
        }
        done += n;
    }
    Ok(done)
}

// ---- what is told

// Prints a file's name and a colon on a line of its own.
fn print_name(rt: &HostRuntime, paper: &mut Paper, i: usize, escaped: bool) -> Printed {
    let mut path = [0u8; 4096];
    let n = name_len(rt, i, &mut path);
    put_shown(paper, text::first_of(&path, n), escaped)?;
    output::write(paper, b":\n")
}

// Puts the argument of an input at the front of a buffer. Answers how long it is; 0 where it is longer than the buffer.
fn name_len(rt: &HostRuntime, i: usize, path: &mut [u8]) -> usize {
    rt.arg(i, path).unwrap_or(0)
}

// Writes a text to standard output as it stands, or made visible: by a bool, as the clause of `printing::print_header` takes it.
fn put_shown(paper: &mut Paper, s: &[u8], escaped: bool) -> Printed {
    if escaped {
        output::write_visibly(paper, s)
    } else {
        output::write(paper, s)
    }
}

// Begins a line on standard error with a file's name.
fn tell_name(told: &mut impl Write, path: &[u8]) {
    tell(told, b"cards: ");
    let _ = output::write_visibly(told, path);
    tell(told, b": ");
}

// The same by the input's number.
fn tell_input(rt: &HostRuntime, i: usize) {
    let mut path = [0u8; 4096];
    let n = name_len(rt, i, &mut path);
    tell_name(&mut rt.stderr(), text::first_of(&path, n));
}

// A file could not be read: tells why.
fn unread(rt: &HostRuntime, path: &[u8], error: io::Error) {
    let mut told = rt.stderr();
    tell_name(&mut told, path);
    tell(&mut told, b"cannot be read: ");
    tell_error(rt, error);
}

// Ends a line on standard error with what the system says of an error.
fn tell_error(rt: &HostRuntime, error: io::Error) {
    let mut words = Words {
        told: rt.stderr(),
        over: false,
    };
    let _ = fmt::Write::write(&mut words, error);
    tell(&mut rt.stderr(), b"\n");
}

// The words of an error, told on standard error without the number that std puts behind them.
#[derive(Clone, Copy, Drop)]
struct Words {
    told: Stderr,
    over: bool,
}

impl fmt::Write for Words {
    fn write_str(&mut self, s: &str) -> fmt::Result {
        if s == " (os error " {
            self.over = true;
        }
        if !self.over {
            tell(&mut self.told, s.as_bytes());
        }
        Ok(())
    }
}

// Tells in one line why a header is refused, and shows the card. `more` says that bytes follow behind 720 cards.
fn tell_refusal(told: &mut impl Write, stop: Stop, header: &[u8], more: bool) {
    tell(told, b"refused ");
    tell_number(told, usize::from(stop.fault.number()));
    match stop.fault.why {
        Refusal::HeaderLength => tell(told, b": there is no whole card of 80 bytes"),
        Refusal::NoEnd => tell_no_end(told, stop.card, more),
        _ => tell_card(told, stop, header),
    }
    tell(told, b"\n");
}

// Writes to standard error. Texts are bytes, and a part is tried though the one before it failed, as one `write!` of a whole line would
// not: so lines are told part by part, and numbers alone take a format.
fn tell(told: &mut impl Write, s: &[u8]) {
    let _ = output::write(told, s);
}

fn tell_number(told: &mut impl Write, n: usize) {
    let _ = write!(told, "{n}");
}

// Tells of a header without END, by the number of its cards.
fn tell_no_end(told: &mut impl Write, cards: usize, more: bool) {
    if more {
        tell(
            told,
            b": there is no END among the first 720 cards, and a header has no more",
        );
        return;
    }
    tell(
        told,
        b": there is no END among the cards, of which there are ",
    );
    tell_number(told, cards);
}

// Tells of a refused card: its number, its byte where the refusal has one, what is wrong in words, and its 80 bytes made visible.
fn tell_card(told: &mut impl Write, stop: Stop, header: &[u8]) {
    tell(told, b" at card ");
    tell_number(told, stop.card);
    if let Some(byte) = stop.fault.column {
        tell(told, b", byte ");
        tell_number(told, byte);
    }
    tell(told, b": ");
    tell(told, meanings::meaning(stop.fault).as_slice());
    tell(told, b": ");
    let card = text::first_of(card_bytes(header, stop.card), CARD);
    tell_parts(told, card, stop.fault.column.unwrap_or(0));
}

// Shows the bytes of a card before the one where it is refused, and those from it on; at its front there are none before.
fn tell_parts(told: &mut impl Write, card: &[u8], byte: usize) {
    if 0 < byte {
        tell_quoted(told, text::first_of(card, byte));
        tell(told, b" then ");
    }
    tell_quoted(told, text::rest_of(card, byte));
}

// Shows bytes in double quotes, made visible.
fn tell_quoted(told: &mut impl Write, s: &[u8]) {
    tell(told, b"\"");
    let _ = output::write_visibly(told, s);
    tell(told, b"\"");
}

// A header from a card on; nothing where it has no such card.
fn card_bytes(header: &[u8], card: usize) -> &[u8] {
    if card < LONGEST / CARD {
        return text::rest_of(header, card * CARD);
    }
    text::first_of(header, 0)
}
