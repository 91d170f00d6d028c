// Examples of expansions. An output holds dots first.
ghost use Rattle.std.specs.Prelude.{◌≤◌};

use report::{quote, say, say_number, say_room, tell_records};
use std::io;

// What an expansion is asked, from the file on.
pub fn ask(
    rt: &impl Print,
    file: &[u8],
    locale: &[u8],
    location: &[u8],
    list: &[u8],
    room: usize,
) -> io::Result<()> {
    quote(rt, file)?;
    say(rt, b" for ")?;
    quote(rt, locale)?;
    say(rt, b" at ")?;
    quote(rt, location)?;
    say(rt, b" with the list ")?;
    quote(rt, list)?;
    say_room(rt, room)
}

fn expand_into(
    rt: &impl Print,
    file: &[u8],
    locale: &[u8],
    location: &[u8],
    list: &[u8],
    run: usize,
    out: &mut [u8],
) -> io::Result<()> {
    say(rt, b"expand run ")?;
    say_number(rt, run)?;
    say(rt, b" of ")?;
    ask(rt, file, locale, location, list, out.len())?;
    let w = exec::expand(file, locale, location, list, run, out);
    tell_records(rt, w, out)
}

fn expand(
    rt: &impl Print,
    file: &[u8],
    locale: &[u8],
    location: &[u8],
    list: &[u8],
    run: usize,
    room: usize,
) -> io::Result<()>
    requires { room ≤ 68 }
{
    let mut out = [b'.'; 68];
    expand_into(rt, file, locale, location, list, run, &mut out[0..room])
}

// For no locale, at no location.
fn expand_plain(
    rt: &impl Print,
    file: &[u8],
    list: &[u8],
    run: usize,
    room: usize,
) -> io::Result<()>
    requires { room ≤ 68 }
{
    expand(rt, file, b"", b"", list, run, room)
}

// For German, at a location.
fn expand_german(
    rt: &impl Print,
    file: &[u8],
    list: &[u8],
    run: usize,
    room: usize,
) -> io::Result<()>
    requires { room ≤ 68 }
{
    expand(rt, file, b"de", b"/t.desktop", list, run, room)
}

// The same with no files.
fn put_in(rt: &impl Print, file: &[u8], room: usize) -> io::Result<()>
    requires { room ≤ 68 }
{
    expand_german(rt, file, b"", 0, room)
}

// With no files, for no locale, at no location.
fn read_command(rt: &impl Print, file: &[u8]) -> io::Result<()> {
    expand_plain(rt, file, b"", 0, 24)
}

// File T with one file, with none, and with a damaged list.
fn files_of_t(rt: &impl Print, t: &[u8]) -> io::Result<()> {
    let one = b"\x07\x00\x00\x00\x02\x00a";
    expand_plain(rt, t, one, 0, 17)?;
    expand_plain(rt, t, one, 0, 16)?;
    expand_plain(rt, t, one, 1, 17)?;
    expand_plain(rt, t, b"", 0, 10)?;
    expand_plain(rt, t, b"\x07", 0, 10)
}

// Two files, of which each run has one.
fn runs_of_one_file(rt: &impl Print) -> io::Result<()> {
    let two = b"\x0d\x00\x00\x00\x02\x00a b.txt\x0d\x00\x00\x00\x02\x00c%f.txt";
    expand_german(rt, b"[Desktop Entry]\nExec=view -- %f\n", two, 0, 40)?;
    expand_german(rt, b"[Desktop Entry]\nExec=view -- %f\n", two, 1, 40)?;
    expand_german(rt, b"[Desktop Entry]\nExec=view -- %f\n", two, 2, 40)
}

// Two files, which one run has.
fn runs_of_all_files(rt: &impl Print) -> io::Result<()> {
    let two = b"\x0d\x00\x00\x00\x02\x00a b.txt\x0d\x00\x00\x00\x02\x00c%f.txt";
    expand_german(rt, b"[Desktop Entry]\nExec=view %F\n", two, 0, 40)?;
    expand_german(rt, b"[Desktop Entry]\nExec=view %F\n", two, 1, 40)
}

// An empty file name, no Exec, and a bad line.
fn nothing_to_expand(rt: &impl Print) -> io::Result<()> {
    expand_german(
        rt,
        b"[Desktop Entry]\nExec=view %F\n",
        b"\x06\x00\x00\x00\x02\x00",
        0,
        10,
    )?;
    expand_german(rt, b"[Desktop Entry]\nName=X\n", b"", 0, 10)?;
    expand_german(rt, b"[Desktop Entry]\nExec\n", b"", 0, 10)
}

// Name, Icon and the location.
fn names_put_in(rt: &impl Print) -> io::Result<()> {
    put_in(rt, b"[Desktop Entry]\nExec=view %d%f %k\n", 26)?;
    put_in(
        rt,
        b"[Desktop Entry]\nName=N\nIcon=i\nExec=v %i %i \"\" %k%c%d%u\n",
        68,
    )?;
    put_in(
        rt,
        b"[Desktop Entry]\nName=X\nName[de]=Y z\nIcon=a\nExec=view %i --n=%c\n",
        42,
    )
}

fn icons_put_in(rt: &impl Print) -> io::Result<()> {
    put_in(
        rt,
        b"[Desktop Entry]\nName=X\nIcon=a\nIcon[de]=\nExec=view %i %c\n",
        24,
    )?;
    put_in(rt, b"[Desktop Entry]\nExec=view %i\n", 24)?;
    put_in(rt, b"[Desktop Entry]\nIcon=\\q\nExec=view %i %c\n", 24)?;
    put_in(
        rt,
        b"[Desktop Entry]\nName=X\nIcon=a\\q\nExec=view %i %c\n",
        24,
    )
}

fn quoted_commands(rt: &impl Print) -> io::Result<()> {
    read_command(rt, b"[Desktop Entry]\nExec=view \"a\\\\$b\"\n")?;
    read_command(rt, b"[Desktop Entry]\nExec=view \"a\\\\\\\\\"\n")?;
    read_command(rt, b"[Desktop Entry]\nExec=view \"\" %%f\n")
}

fn plain_commands(rt: &impl Print) -> io::Result<()> {
    read_command(rt, b"[Desktop Entry]\nExec=view --x=%f\n")?;
    read_command(rt, b"[Desktop Entry]\nExec=view %f\n")?;
    read_command(rt, b"[Desktop Entry]\nExec=v \"a b\" x\n")?;
    read_command(rt, b"[Desktop Entry]\nExec=\\s v  %F \n")?;
    read_command(rt, b"[Desktop Entry]\nExec=%%\n")
}

fn refused_programs(rt: &impl Print) -> io::Result<()> {
    read_command(rt, b"[Desktop Entry]\nExec=\n")?;
    read_command(rt, b"[Desktop Entry]\nExec=\\s\\s\n")?;
    read_command(rt, b"[Desktop Entry]\nExec=a=b\n")?;
    read_command(rt, b"[Desktop Entry]\nExec=%F\n")?;
    read_command(rt, b"[Desktop Entry]\nExec=view%d\n")
}

fn refused_codes(rt: &impl Print) -> io::Result<()> {
    read_command(rt, b"[Desktop Entry]\nExec=view %f %u\n")?;
    read_command(rt, b"[Desktop Entry]\nExec=view %F'\n")?;
    read_command(rt, b"[Desktop Entry]\nExec=view %f'\n")?;
    read_command(rt, b"[Desktop Entry]\nExec=view %%f%%%\n")
}

fn refused_in_quotes(rt: &impl Print) -> io::Result<()> {
    read_command(rt, b"[Desktop Entry]\nExec=\"\"x\n")?;
    read_command(rt, b"[Desktop Entry]\nExec=view \"%f\"\n")?;
    read_command(rt, b"[Desktop Entry]\nExec=view \"a$b\n")?;
    read_command(rt, b"[Desktop Entry]\nExec=view \"a\\\\\"\n")?;
    read_command(rt, b"[Desktop Entry]\nExec=view \"a%\"\n")?;
    read_command(rt, b"[Desktop Entry]\nExec=view \"\\\\%\"\n")
}

fn refused_behind_quotes(rt: &impl Print) -> io::Result<()> {
    read_command(rt, b"[Desktop Entry]\nExec=view \"a\"%z\n")?;
    read_command(rt, b"[Desktop Entry]\nExec=view \"a\"\"b\"\n")?;
    read_command(rt, b"[Desktop Entry]\nExec=view \"a=\" b=\"\"\n")
}

pub fn expansions(rt: &impl Print, t: &[u8]) -> io::Result<()> {
    files_of_t(rt, t)?;
    runs_of_one_file(rt)?;
    runs_of_all_files(rt)?;
    nothing_to_expand(rt)?;
    names_put_in(rt)?;
    icons_put_in(rt)
}

pub fn commands_read(rt: &impl Print) -> io::Result<()> {
    quoted_commands(rt)?;
    plain_commands(rt)?;
    refused_programs(rt)?;
    refused_codes(rt)?;
    refused_in_quotes(rt)?;
    refused_behind_quotes(rt)
}
