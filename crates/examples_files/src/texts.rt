// Examples of text and of value lists. An output holds dots, so that the report shows what a call wrote.
ghost use Rattle.std.specs.Prelude.{◌≤◌};

use report::{quote, say, say_room, tell_records, tell_text};
use std::io;

// What a call with an output is asked.
fn ask(rt: &impl Print, call: &[u8], input: &[u8], room: usize) -> io::Result<()> {
    say(rt, call)?;
    say(rt, b" ")?;
    quote(rt, input)?;
    say_room(rt, room)
}

fn read_text_into(rt: &impl Print, raw: &[u8], out: &mut [u8]) -> io::Result<()> {
    ask(rt, b"read_text", raw, out.len())?;
    let w = text::read_text(raw, out);
    tell_text(rt, w, out)
}

fn write_text_into(rt: &impl Print, text: &[u8], out: &mut [u8]) -> io::Result<()> {
    ask(rt, b"write_text", text, out.len())?;
    let w = text::write_text(text, out);
    tell_text(rt, w, out)
}

fn read_list_into(rt: &impl Print, raw: &[u8], out: &mut [u8]) -> io::Result<()> {
    ask(rt, b"read_list", raw, out.len())?;
    let w = text::read_list(raw, out);
    tell_records(rt, w, out)
}

fn read_text(rt: &impl Print, raw: &[u8], room: usize) -> io::Result<()>
    requires { room ≤ 16 }
{
    let mut out = [b'.'; 16];
    read_text_into(rt, raw, &mut out[0..room])
}

fn write_text(rt: &impl Print, text: &[u8], room: usize) -> io::Result<()>
    requires { room ≤ 16 }
{
    let mut out = [b'.'; 16];
    write_text_into(rt, text, &mut out[0..room])
}

fn read_list(rt: &impl Print, raw: &[u8], room: usize) -> io::Result<()>
    requires { room ≤ 16 }
{
    let mut out = [b'.'; 16];
    read_list_into(rt, raw, &mut out[0..room])
}

pub fn texts_read(rt: &impl Print) -> io::Result<()> {
    read_text(rt, b"a\\q", 4)?;
    read_text(rt, b"a\\", 4)?;
    read_text(rt, b"a\\;b", 4)?;
    read_text(rt, b"\\sx", 4)?;
    read_text(rt, b"\\sx", 2)?;
    read_text(rt, b"\\sx", 1)?;
    read_text(rt, b"a\\tb\\nc\\rd\\\\", 8)
}

pub fn texts_written(rt: &impl Print) -> io::Result<()> {
    write_text(rt, b" x", 4)?;
    write_text(rt, b" x", 3)?;
    write_text(rt, b" x", 2)?;
    write_text(rt, b"  ", 4)?;
    write_text(rt, b"a\tb\nc\rd\\", 12)?;
    write_text(rt, b"\xc3\xa4", 4)?;
    write_text(rt, b"\xc3", 4)?;
    write_text(rt, b"a\x01", 4)
}

pub fn lists_read(rt: &impl Print) -> io::Result<()> {
    read_list(rt, b"a\\;b;;", 16)?;
    read_list(rt, b";", 6)?;
    read_list(rt, b"", 6)?;
    read_list(rt, b"a;b", 14)?;
    read_list(rt, b"a;b", 13)?;
    read_list(rt, b"a;b\\q", 16)
}
