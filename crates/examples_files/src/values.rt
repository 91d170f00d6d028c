// Examples of lookup and of the choice of language.
use report::{quote, say, tell_value};
use std::io;

// What a call that finds a value is asked.
fn ask(rt: &impl Print, call: &[u8], file: &[u8], group: &[u8], key: &[u8]) -> io::Result<()> {
    say(rt, call)?;
    say(rt, b" ")?;
    quote(rt, key)?;
    say(rt, b" in ")?;
    quote(rt, group)?;
    say(rt, b" of ")?;
    quote(rt, file)
}

fn lookup<'a, 'b>(
    rt: &impl Print,
    file: &'a [u8],
    group: &'b [u8],
    key: &'b [u8],
) -> io::Result<()> {
    ask(rt, b"lookup", file, group, key)?;
    tell_value(
        rt,
        entry::lookup_ends(file, group, key),
        entry::lookup(file, group, key),
    )
}

fn choose<'a, 'b>(
    rt: &impl Print,
    file: &'a [u8],
    group: &'b [u8],
    key: &'b [u8],
    locale: &'b [u8],
) -> io::Result<()> {
    ask(rt, b"choose", file, group, key)?;
    say(rt, b" for ")?;
    quote(rt, locale)?;
    tell_value(
        rt,
        entry::choose_ends(file, group, key, locale),
        entry::choose(file, group, key, locale),
    )
}

pub fn lookups(rt: &impl Print, t: &[u8; 71]) -> io::Result<()> {
    lookup(
        rt,
        b"[Desktop Entry]\nName = X\n",
        b"Desktop Entry",
        b"Name",
    )?;
    lookup(rt, b"[Desktop Entry]\nName=\n", b"Desktop Entry", b"Name")?;
    lookup(rt, b"[Desktop Entry]\nName=a \n", b"Desktop Entry", b"Name")?;
    lookup(rt, t, b"Desktop Entry", b"Name[fr]")
}

pub fn refused_lookups(rt: &impl Print, t: &[u8; 71]) -> io::Result<()> {
    lookup(rt, b"", b"[", b"Name")?;
    lookup(rt, b"[Desktop Entry]\nName\n", b"[", b"Name")?;
    lookup(rt, t, b"[", b"Name")?;
    lookup(rt, t, b"Desktop Entry", b"Name[")?;
    lookup(rt, t, b"Other", b"Name")?;
    lookup(rt, t, b"Desktop Entry", b"Icon")
}

// The choice of Name.
fn choose_name<'a, 'b>(rt: &impl Print, file: &'a [u8], locale: &'b [u8]) -> io::Result<()> {
    choose(rt, file, b"Desktop Entry", b"Name", locale)
}

pub fn choices(rt: &impl Print, t: &[u8; 71]) -> io::Result<()> {
    choose_name(
        rt,
        b"[Desktop Entry]\nName=Foo\nName[sr_YU]=a\nName[sr@Latn]=b\nName[sr]=c\n",
        b"sr_YU@Latn",
    )?;
    choose_name(rt, t, b"fr_CA.UTF-8")?;
    choose_name(rt, t, b"de")?;
    choose_name(rt, t, b"C")?;
    choose_name(rt, t, b"")
}

// Encodings do not count for the choice: of two keys that differ in them alone, the earlier line is taken. Lookup compares the whole key.
pub fn choices_by_encoded_keys(rt: &impl Print, t: &[u8; 93]) -> io::Result<()> {
    choose_name(rt, t, b"de_DE")?;
    choose_name(rt, t, b"de_DE.ISO-8859-1@x")?;
    choose_name(rt, t, b"de@x")?;
    choose_name(rt, t, b"de")?;
    choose_name(rt, t, b"C.UTF-8")?;
    lookup(rt, t, b"Desktop Entry", b"Name[de_DE]")
}

pub fn refused_choices(rt: &impl Print, t: &[u8; 71]) -> io::Result<()> {
    choose(rt, b"", b"Desktop Entry", b"Name", b"_")?;
    choose_name(rt, b"[Desktop Entry]\nName[\n", b"_")?;
    choose(rt, t, b"Desktop Entry", b"Name[fr]", b"fr")?;
    choose_name(rt, t, b"_")?;
    choose(rt, t, b"Desktop Entry", b"Icon", b"fr")
}
