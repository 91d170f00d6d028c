// Examples of the actions of an application: their list, and the expansion of an action's own Exec. An output holds dots first.
ghost use Rattle.std.specs.Prelude.{◌≤◌};

use crate::commands::ask;
use report::{quote, say, say_room, tell_records};
use std::io;

fn list_into(rt: &impl Print, file: &[u8], locale: &[u8], out: &mut [u8]) -> io::Result<()> {
    say(rt, b"actions of ")?;
    quote(rt, file)?;
    say(rt, b" for ")?;
    quote(rt, locale)?;
    say_room(rt, out.len())?;
    let w = actions::actions(file, locale, out);
    tell_records(rt, w, out)
}

fn list(rt: &impl Print, file: &[u8], locale: &[u8], room: usize) -> io::Result<()>
    requires { room ≤ 42 }
{
    let mut out = [b'.'; 42];
    list_into(rt, file, locale, &mut out[0..room])
}

// Run 0 with one file, for German, at a location.
fn expand(rt: &impl Print, file: &[u8], action: &[u8]) -> io::Result<()> {
    let one = b"\x07\x00\x00\x00\x02\x00a";
    let mut out = [b'.'; 42];
    say(rt, b"expand_action run 0 of ")?;
    quote(rt, action)?;
    say(rt, b" in ")?;
    ask(rt, file, b"de", b"/t.desktop", one, 42)?;
    let w = actions::expand_action(file, action, b"de", b"/t.desktop", one, 0, &mut out);
    tell_records(rt, w, &out)
}

// Of six identifiers two are listed: one is repeated, one has no group, one is not in key form, and the group of one has no Name.
pub fn actions_of_a_file(rt: &impl Print) -> io::Result<()> {
    let file =
        b"[Desktop Entry]\nName=A\nName[de]=B\nIcon=a\nActions=new;print;new;gone;a b;bare;\n[Desktop Action new]\nName=New\nName[de]=Neu\nIcon=n\nExec=app %i %c %f\n[Desktop Action print]\nName=Print\nExec=app %i %c\n[Desktop Action a b]\nName=C\nExec=app\n[Desktop Action bare]\nExec=app\n";
    list(rt, file, b"", 42)?;
    list(rt, file, b"de", 40)?;
    list(rt, file, b"de", 39)?;
    expand(rt, file, b"new")?;
    expand(rt, file, b"print")?;
    expand(rt, file, b"a b")?;
    expand(rt, file, b"bare")
}

// A wrong escape in Actions is told before one in a label and before an action that is not listed; of two in labels, the list's first.
pub fn refused_actions(rt: &impl Print) -> io::Result<()> {
    let wrong = b"[Desktop Entry]\nActions=a;\\q\n[Desktop Action a]\nName=\\q\n";
    list(rt, wrong, b"", 4)?;
    expand(rt, wrong, b"b")?;
    list(
        rt,
        b"[Desktop Entry]\nActions=b;a\n[Desktop Action a]\nName=\\q\n[Desktop Action b]\nName=x\\q\n",
        b"",
        4,
    )
}
