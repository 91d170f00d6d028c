// The words in which the examples report, on standard output.
#![tactic(auto)]

ghost use Rattle.std.specs.Prelude.{◌<◌};

use batch::Batched;
use edit::Edited;
use entry::Ends;
use fault::Fault;
use journal::Forgot;
use std::io;

pub fn say(rt: &impl Print, words: &[u8]) -> io::Result<()> {
    rt.write_all(words)
}

pub fn say_number(rt: &impl Print, n: usize) -> io::Result<()> {
    rt.print(n)
}

// How much an output holds.
pub fn say_room(rt: &impl Print, room: usize) -> io::Result<()> {
    say(rt, b" into ")?;
    say_number(rt, room)?;
    say(rt, b" bytes")
}

fn digit(d: u8) -> u8
    requires { d < 16 }
{
    if d < 10 { b'0' + d } else { b'A' - 10 + d }
}

// A byte in two hexadecimal digits.
fn say_hex(rt: &impl Print, b: u8) -> io::Result<()> {
    say(rt, &[digit(b / 16), digit(b % 16)])
}

// A byte between quotation marks: LF as `|`, one outside 0x20 to 0x7E by its digits in `<` and `>`.
fn quote_byte(rt: &impl Print, b: u8) -> io::Result<()> {
    if b == b'\n' {
        say(rt, b"|")
    } else if b < 0x20 || 0x7e < b {
        say(rt, b"<")?;
        say_hex(rt, b)?;
        say(rt, b">")
    } else {
        say(rt, &[b])
    }
}

fn quote_bytes(rt: &impl Print, s: &[u8]) -> io::Result<()> {
    for b in s {
        quote_byte(rt, *b)?;
    }
    Ok(())
}

pub fn quote(rt: &impl Print, s: &[u8]) -> io::Result<()> {
    say(rt, b"\"")?;
    quote_bytes(rt, s)?;
    say(rt, b"\"")
}

fn spaced_hex(rt: &impl Print, b: u8) -> io::Result<()> {
    say(rt, b" ")?;
    say_hex(rt, b)
}

fn spaced_bytes(rt: &impl Print, s: &[u8]) -> io::Result<()> {
    for b in s {
        spaced_hex(rt, *b)?;
    }
    Ok(())
}

fn say_refused(rt: &impl Print, f: Fault) -> io::Result<()> {
    let t = fault::tell(f);
    say(rt, b": refused ")?;
    say_number(rt, t.number as usize)?;
    say(rt, b" at ")?;
    say_number(rt, t.place)?;
    say(rt, b" byte ")?;
    say_number(rt, t.byte)
}

// The answer of the check or of completeness.
pub fn tell_checked(rt: &impl Print, c: Result<(), Fault>) -> io::Result<()> {
    match c {
        Ok(()) => say(rt, b": accepted")?,
        Err(f) => say_refused(rt, f)?,
    }
    say(rt, b"\n")
}

// The answer of a call that finds a value: its two ends, and the part of the file.
pub fn tell_value(rt: &impl Print, e: Result<Ends, Fault>, part: &[u8]) -> io::Result<()> {
    match e {
        Ok(Ends { from, to }) => {
            say(rt, b": ")?;
            say_number(rt, from)?;
            say(rt, b" to ")?;
            say_number(rt, to)?;
        }
        Err(f) => say_refused(rt, f)?,
    }
    say(rt, b", ")?;
    quote(rt, part)?;
    say(rt, b"\n")
}

fn say_written(rt: &impl Print, w: Result<usize, Fault>) -> io::Result<()> {
    match w {
        Ok(n) => {
            say(rt, b": ")?;
            say_number(rt, n)?;
            say(rt, b" bytes")
        }
        Err(f) => say_refused(rt, f),
    }
}

// The answer of a call that writes text, and the whole output.
pub fn tell_text(rt: &impl Print, w: Result<usize, Fault>, out: &[u8]) -> io::Result<()> {
    say_written(rt, w)?;
    say(rt, b", ")?;
    quote(rt, out)?;
    say(rt, b"\n")
}

// The answer of a call that writes records, and the whole output.
pub fn tell_records(rt: &impl Print, w: Result<usize, Fault>, out: &[u8]) -> io::Result<()> {
    say_written(rt, w)?;
    say(rt, b",")?;
    spaced_bytes(rt, out)?;
    say(rt, b"\n")
}

fn say_numbers(rt: &impl Print, used: usize, standing: usize) -> io::Result<()> {
    say(rt, b"used ")?;
    say_number(rt, used)?;
    say(rt, b", standing ")?;
    say_number(rt, standing)
}

fn say_left(rt: &impl Print, left: Edited) -> io::Result<()> {
    say_number(rt, left.size)?;
    say(rt, b" bytes, ")?;
    say_numbers(rt, left.used, left.standing)
}

fn say_buffers(rt: &impl Print, file: &[u8], journal: &[u8]) -> io::Result<()> {
    say(rt, b", ")?;
    quote(rt, file)?;
    say(rt, b",")?;
    spaced_bytes(rt, journal)?;
    say(rt, b"\n")
}

// The answer of a call that edits, and both buffers.
pub fn tell_edited(
    rt: &impl Print,
    e: Result<Edited, Fault>,
    file: &[u8],
    journal: &[u8],
) -> io::Result<()> {
    match e {
        Ok(left) => {
            say(rt, b": ")?;
            say_left(rt, left)?;
        }
        Err(f) => say_refused(rt, f)?,
    }
    say_buffers(rt, file, journal)
}

// The answer of the call for a person.
pub fn tell_named(rt: &impl Print, p: Result<u16, Fault>) -> io::Result<()> {
    match p {
        Ok(number) => {
            say(rt, b": ")?;
            say_number(rt, number as usize)?;
        }
        Err(f) => say_refused(rt, f)?,
    }
    say(rt, b"\n")
}

// The answer of the call that forgets, and the journal's buffer.
pub fn tell_forgot(rt: &impl Print, f: Result<Forgot, Fault>, journal: &[u8]) -> io::Result<()> {
    match f {
        Ok(left) => {
            say(rt, b": ")?;
            say_numbers(rt, left.used, left.standing)?;
        }
        Err(fault) => say_refused(rt, fault)?,
    }
    say(rt, b",")?;
    spaced_bytes(rt, journal)?;
    say(rt, b"\n")
}

// The answer of a batch, and both buffers.
pub fn tell_batched(rt: &impl Print, b: Batched, file: &[u8], journal: &[u8]) -> io::Result<()> {
    match b.stopped {
        None => say(rt, b": ")?,
        Some(f) => {
            say_refused(rt, f)?;
            say(rt, b", ")?;
        }
    }
    say_number(rt, b.done)?;
    say(rt, b" done, ")?;
    say_left(rt, b.left)?;
    say_buffers(rt, file, journal)
}
