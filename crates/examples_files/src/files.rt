// Examples of the check and of completeness.
use report::{quote, say, say_number, tell_checked};
use std::io;

fn check(rt: &impl Print, file: &[u8]) -> io::Result<()> {
    say(rt, b"check ")?;
    quote(rt, file)?;
    tell_checked(rt, wellformed::check(file))
}

fn complete(rt: &impl Print, file: &[u8]) -> io::Result<()> {
    say(rt, b"complete ")?;
    quote(rt, file)?;
    tell_checked(rt, entry::is_complete(file))
}

// A file that is told by its length.
fn check_long(rt: &impl Print, file: &[u8]) -> io::Result<()> {
    say(rt, b"check T and # up to ")?;
    say_number(rt, file.len())?;
    say(rt, b" bytes")?;
    tell_checked(rt, wellformed::check(file))
}

// File T and a comment: as long as a file may be, and one byte longer.
fn check_bound(rt: &impl Print, t: &[u8; 71]) -> io::Result<()> {
    let mut file = [b'#'; 32769];
    base::copy(t, &mut file);
    check_long(rt, &file[0..32768])?;
    check_long(rt, &file)
}

pub fn checks(rt: &impl Print, t: &[u8; 71]) -> io::Result<()> {
    check(rt, b"")?;
    check(rt, t)?;
    check_bound(rt, t)?;
    check(rt, b"[Desktop Entry]\nName[fr]=a\nName=b\n")
}

pub fn refused_checks(rt: &impl Print) -> io::Result<()> {
    check(rt, b"# only\n\t\n")?;
    check(rt, b"[Desktop Entry]\nName\n")?;
    check(rt, b"[Desktop Entry]\r\n")?;
    check(rt, b"Name=x\n[Desktop Entry]\n")?;
    check(rt, b"# first\n[Other]\n")?;
    check(rt, b"[Desktop Entry]\n[A]\n[B]\n[A]\n")?;
    check(rt, b"[Desktop Entry]\nName=a\nName=b\n")?;
    check(rt, b"[Desktop Entry]\nName[fr]=a\nName[de]=b\n")?;
    check(rt, b"[Desktop Entry]\nName[fr]=a\n!\n")
}

// Where in its line a bad line goes wrong.
pub fn bad_lines(rt: &impl Print) -> io::Result<()> {
    check(rt, b"[]\n")?;
    check(rt, b"[Desktop Entry]x\n")?;
    check(rt, b"[Desktop Entry]\n x\n")?;
    check(rt, b"[Desktop Entry]\nName\t=x\n")?;
    check(rt, b"[Desktop Entry]\nName[]=x\n")?;
    check(rt, b"[Desktop Entry]\nName[de")?;
    check(rt, b"[Desktop Entry]\nName=\xe0\x80\n")?;
    check(rt, b"[Desktop Entry]\nName=\xe0")
}

pub fn completeness(rt: &impl Print, t: &[u8; 71]) -> io::Result<()> {
    complete(rt, t)?;
    complete(
        rt,
        b"[Desktop Entry]\nType=Application\nName=N\nDBusActivatable=true\n",
    )
}

pub fn refused_completeness(rt: &impl Print) -> io::Result<()> {
    complete(rt, b"")?;
    complete(rt, b"[Desktop Entry]\nType\n")?;
    complete(rt, b"[Desktop Entry]\nName=N\n")?;
    complete(rt, b"[Desktop Entry]\nName=N\nType=Tool\n")?;
    complete(rt, b"[Desktop Entry]\nType=Directory\n")?;
    complete(rt, b"[Desktop Entry]\nType=Application\nName=N\n")?;
    complete(rt, b"[Desktop Entry]\nType=Link\nName=N\n")?;
    complete(rt, b"[Desktop Entry]\nType=Directory\nName=N\nHidden=no\n")
}
