// Examples of edits: the record's room, and one byte less; two people's sets in either order; who made an edit; edits forgotten. Buffers hold
// dots first.
ghost use Rattle.std.specs.Prelude.{◌≤◌, length};

use edit::Edited;
use fault::Fault;
use report::{quote, say, say_number, tell_edited, tell_forgot, tell_named};
use std::io;

fn set_name_into(
    rt: &impl Print,
    size: usize,
    file: &mut [u8],
    journal: &mut [u8],
) -> io::Result<()> {
    say(
        rt,
        b"set \"Name\" of T to \"Les\" by 258 with a journal of ",
    )?;
    say_number(rt, journal.len())?;
    say(rt, b" bytes")?;
    let e = edit::set(
        file,
        size,
        journal,
        0,
        0,
        258,
        b"Desktop Entry",
        b"Name",
        b"Les",
    );
    tell_edited(rt, e, file, journal)
}

fn set_name(rt: &impl Print, t: &[u8], room: usize) -> io::Result<()>
    requires { (length t.now ≤ 72) × (room ≤ 29) }
{
    let mut file = [b'.'; 72];
    let mut journal = [b'.'; 29];
    splice::write(&mut file, 0, t);
    set_name_into(rt, t.len(), &mut file, &mut journal[0..room])
}

pub fn sets(rt: &impl Print, t: &[u8]) -> io::Result<()>
    requires { length t.now ≤ 72 }
{
    set_name(rt, t, 29)?;
    set_name(rt, t, 28)?;
    set_name(rt, t, 27)
}

fn say_sets(
    rt: &impl Print,
    key: &[u8],
    text: &[u8],
    next: &[u8],
    next_text: &[u8],
) -> io::Result<()> {
    say(rt, b"set ")?;
    quote(rt, key)?;
    say(rt, b" of T to ")?;
    quote(rt, text)?;
    say(rt, b" by 1, then ")?;
    quote(rt, next)?;
    say(rt, b" to ")?;
    quote(rt, next_text)?;
    say(rt, b" by 2")
}

// Two sets, the second where the first is done.
fn set_in_turn(
    size: usize,
    file: &mut [u8],
    journal: &mut [u8],
    key: &[u8],
    text: &[u8],
    next: &[u8],
    next_text: &[u8],
) -> Result<Edited, Fault> {
    let group = b"Desktop Entry";
    let first = edit::set(file, size, journal, 0, 0, 1, group, key, text)?;
    edit::set(
        file,
        first.size,
        journal,
        first.used,
        first.standing,
        2,
        group,
        next,
        next_text,
    )
}

fn tell_in_turn(
    rt: &impl Print,
    size: usize,
    file: &mut [u8],
    journal: &mut [u8],
    key: &[u8],
    text: &[u8],
    next: &[u8],
    next_text: &[u8],
) -> io::Result<()> {
    let both = set_in_turn(size, file, journal, key, text, next, next_text);
    tell_edited(rt, both, file, journal)
}

fn set_both(
    rt: &impl Print,
    t: &[u8],
    key: &[u8],
    text: &[u8],
    next: &[u8],
    next_text: &[u8],
) -> io::Result<()>
    requires { length t.now ≤ 84 }
{
    let mut file = [b'.'; 84];
    let mut journal = [b'.'; 56];
    splice::write(&mut file, 0, t);
    say_sets(rt, key, text, next, next_text)?;
    tell_in_turn(
        rt,
        t.len(),
        &mut file,
        &mut journal,
        key,
        text,
        next,
        next_text,
    )
}

// Entries that T has: the same file. New ones: each comes last where it is set.
pub fn orders(rt: &impl Print, t: &[u8]) -> io::Result<()>
    requires { length t.now ≤ 84 }
{
    set_both(rt, t, b"Name", b"Les", b"Exec", b"v")?;
    set_both(rt, t, b"Exec", b"v", b"Name", b"Les")?;
    set_both(rt, t, b"Icon", b"a", b"URL", b"b")?;
    set_both(rt, t, b"URL", b"b", b"Icon", b"a")
}

fn ask_person(
    rt: &impl Print,
    journal: &[u8],
    used: usize,
    standing: usize,
    n: usize,
) -> io::Result<()> {
    say(rt, b"person of record ")?;
    say_number(rt, n)?;
    say(rt, b" in ")?;
    say_number(rt, used)?;
    say(rt, b" bytes, of which stand ")?;
    say_number(rt, standing)?;
    tell_named(rt, journal::person(journal, used, standing, n))
}

fn ask_persons(rt: &impl Print, file: &mut [u8], journal: &mut [u8]) -> io::Result<()> {
    say(rt, b"set \"Exec\" to \"v\" by 7 behind a record of kind 1")?;
    let e = edit::set(
        file,
        69,
        journal,
        26,
        26,
        7,
        b"Desktop Entry",
        b"Exec",
        b"v",
    );
    tell_edited(rt, e, file, journal)?;
    ask_person(rt, journal, 54, 54, 0)?;
    ask_person(rt, journal, 54, 54, 1)?;
    ask_person(rt, journal, 54, 26, 1)?;
    ask_person(rt, journal, 54, 54, 2)?;
    ask_person(rt, journal, 54, 27, 2)?;
    ask_person(rt, journal, 53, 26, 0)?;
    ask_person(rt, journal, 56, 54, 0)
}

// Some edits forgotten in a copy of a journal.
fn forget_in(rt: &impl Print, journal: &[u8], standing: usize, k: usize) -> io::Result<()>
    requires { length journal.now ≤ 55 }
{
    let mut copy = [b'.'; 55];
    splice::write(&mut copy, 0, journal);
    say(rt, b"forget ")?;
    say_number(rt, k)?;
    say(rt, b" of the edits in 54 bytes, of which stand ")?;
    say_number(rt, standing)?;
    let f = journal::forget(&mut copy, 54, standing, k);
    tell_forgot(rt, f, &copy)
}

fn forget_some(rt: &impl Print, journal: &[u8]) -> io::Result<()>
    requires { length journal.now ≤ 55 }
{
    forget_in(rt, journal, 54, 0)?;
    forget_in(rt, journal, 26, 1)?;
    forget_in(rt, journal, 26, 2)?;
    forget_in(rt, journal, 27, 1)?;
    forget_in(rt, journal, 54, 2)
}

// A journal that 01's set of Name in T left, and an edit by a person behind it.
pub fn journals(rt: &impl Print) -> io::Result<()> {
    let mut file = [b'.'; 72];
    let mut journal = [b'.'; 55];
    splice::write(
        &mut file,
        0,
        b"[Desktop Entry]\nType=Application\nName=Les\nName[fr]=Lire\nExec=view %F\n",
    );
    splice::write(
        &mut journal,
        0,
        b"\x1a\0\0\0\x01\0&\0\0\0\x05\0\0\0\x03\0\0\0LesenLes",
    );
    ask_persons(rt, &mut file, &mut journal)?;
    forget_some(rt, &journal)
}
