// Examples of batches: all done, stopped by a refusal, by a full journal, and refused at first. Buffers hold dots first.
ghost use Rattle.std.specs.Prelude.{◌≤◌, length};

use report::{quote, say, say_number, tell_batched};
use std::io;

fn run_into(
    rt: &impl Print,
    size: usize,
    file: &mut [u8],
    journal: &mut [u8],
    list: &[u8],
) -> io::Result<()> {
    say(rt, b" by 3 with a journal of ")?;
    say_number(rt, journal.len())?;
    say(rt, b" bytes")?;
    let b = batch::batch(file, size, journal, 0, 0, 3, list);
    tell_batched(rt, b, file, journal)
}

// A list in words and in bytes, on a file.
fn run(rt: &impl Print, words: &[u8], t: &[u8], list: &[u8], room: usize) -> io::Result<()>
    requires { (length t.now ≤ 72) × (room ≤ 62) }
{
    let mut file = [b'.'; 72];
    let mut journal = [b'.'; 62];
    splice::write(&mut file, 0, t);
    say(rt, b"batch: ")?;
    quote(rt, words)?;
    run_into(rt, t.len(), &mut file, &mut journal[0..room], list)
}

fn stopped(rt: &impl Print, t: &[u8]) -> io::Result<()>
    requires { length t.now ≤ 72 }
{
    run(
        rt,
        b"set Name to Les, set URL[de] to a, remove Name[fr]",
        t,
        b"\x26\0\0\0\x05\0\x0d\0\0\0Desktop Entry\x04\0\0\0Name\x03\0\0\0Les\x27\0\0\0\x05\0\x0d\0\0\0Desktop Entry\x07\0\0\0URL[de]\x01\0\0\0a\x23\0\0\0\x06\0\x0d\0\0\0Desktop Entry\x08\0\0\0Name[fr]",
        62,
    )?;
    run(
        rt,
        b"remove Name, set Name to Les",
        t,
        b"\x1f\0\0\0\x06\0\x0d\0\0\0Desktop Entry\x04\0\0\0Name\x26\0\0\0\x05\0\x0d\0\0\0Desktop Entry\x04\0\0\0Name\x03\0\0\0Les",
        62,
    )
}

fn refused_at_first(rt: &impl Print, t: &[u8]) -> io::Result<()>
    requires { length t.now ≤ 72 }
{
    run(
        rt,
        b"set Name to Les, and one byte",
        t,
        b"\x26\0\0\0\x05\0\x0d\0\0\0Desktop Entry\x04\0\0\0Name\x03\0\0\0Les.",
        62,
    )?;
    run(
        rt,
        b"set Name to Les, a text one byte too long",
        t,
        b"\x26\0\0\0\x05\0\x0d\0\0\0Desktop Entry\x04\0\0\0Name\x04\0\0\0Les",
        62,
    )?;
    run(
        rt,
        b"remove Name[fr], and one byte in its record",
        t,
        b"\x24\0\0\0\x06\0\x0d\0\0\0Desktop Entry\x08\0\0\0Name[fr].",
        62,
    )?;
    run(rt, b"nothing", b"[Desktop Entry]\nName\n", b"", 62)
}

pub fn batches(rt: &impl Print, t: &[u8]) -> io::Result<()>
    requires { length t.now ≤ 72 }
{
    let both =
        b"\x26\0\0\0\x05\0\x0d\0\0\0Desktop Entry\x04\0\0\0Name\x03\0\0\0Les\x23\0\0\0\x06\0\x0d\0\0\0Desktop Entry\x08\0\0\0Name[fr]";
    run(rt, b"set Name to Les, remove Name[fr]", t, both, 62)?;
    run(rt, b"set Name to Les, remove Name[fr]", t, both, 61)?;
    run(rt, b"nothing", t, b"", 62)?;
    stopped(rt, t)?;
    refused_at_first(rt, t)
}
