// A line's reading, the names in it, and the forms of group, key and locale arguments.
#![tactic(auto)]

pub mod form; // form.rt: the forms of arguments

ghost use Rattle.std.specs.Prelude.{◌≡◌, true, ◌+◌, ◌<◌, length, drop};
ghost use Rattle.characters.specs.Class.{blank_byte};
ghost use Rattle.line.specs.Locale as locale;
ghost use Rattle.line.specs.Name as name;
ghost use Rattle.line.specs.Line as spec;

use characters::Class;

// What a line is. Bounds count from the line's start.
#[derive(Clone, Copy)]
pub enum Line {
    Blank,
    Comment,
    // The name is from 1 up to end.
    Header {
        end: usize,
    },
    // The key is from 0 up to key, its postfix from there up to name; the value starts at value and ends with the line.
    Entry {
        key: usize,
        name: usize,
        value: usize,
    },
    // The first byte after which no ending makes a good line, or the length if the line is only unfinished.
    Bad(usize),
}

// A key with or without a postfix: where each ends.
#[derive(Clone, Copy)]
pub struct Name {
    pub key: usize,
    pub name: usize,
}

// The lengths of a locale's parts, each but the first with its mark; 0 for a part that is not there.
#[derive(Clone, Copy)]
pub struct Parts {
    pub lang: usize,
    pub country: usize,
    pub encoding: usize,
    pub modifier: usize,
}

// The byte at a place, 0 past the end.
pub fn byte_at(s: &[u8], i: usize) -> u8
    ensures { result ≡ name.byte_at s.now i }
{
    if i < s.len() {
        return s[i];
    }
    0
}

// The length of a part with its mark.
fn part_length(s: &[u8], at: usize, mark: u8) -> usize
    ensures { result ≡ locale.part_length mark (drop at s.now) }
{
    if s.len() <= at {
        return 0;
    }
    if s[at] != mark {
        return 0;
    }
    characters::classes::span_end(s, at + 1, Class::Key) - at
}

// The parts of a locale at the front.
pub fn read_parts(s: &[u8]) -> Parts
    ensures { result ≡ locale.parts s.now }
{
    let lang = characters::classes::span_end(s, 0, Class::Key);
    let country = part_length(s, lang, b'_');
    let encoding = part_length(s, lang + country, b'.');
    let modifier = part_length(s, lang + country + encoding, b'@');
    Parts {
        lang,
        country,
        encoding,
        modifier,
    }
}

// The locale at the front: where it ends, or else the byte that is missing.
fn locale_at(s: &[u8]) -> Result<usize, usize>
    ensures { result ≡ locale.locale_at s.now }
{
    let Parts {
        lang,
        country,
        encoding,
        modifier,
    } = read_parts(s);
    if lang == 0 {
        return Err(0);
    }
    if country == 1 {
        return Err(lang + 1);
    }
    if encoding == 1 {
        return Err(lang + country + 1);
    }
    if modifier == 1 {
        return Err(lang + country + encoding + 1);
    }
    Ok(lang + country + encoding + modifier)
}

// The key whose postfix begins with the `[` at this place, or else the byte that is none of it. Most postfixes are a language alone.
fn postfix(s: &[u8], key: usize) -> Result<Name, usize>
    requires { key < length s.now }
    ensures { result ≡ name.postfix_at s.now key }
{
    let from = key + 1;
    let lang = characters::classes::span_end(s, from, Class::Key);
    if from < lang && byte_at(s, lang) == b']' {
        return Ok(Name {
            key,
            name: lang + 1,
        });
    }
    match locale_at(&s[from..]) {
        Ok(n) => {
            let end = from + n;
            if byte_at(s, end) == b']' {
                return Ok(Name { key, name: end + 1 });
            }
            Err(end)
        }
        Err(n) => Err(from + n),
    }
}

// The key at the front, perhaps with a postfix, or else the byte that is none of it.
pub fn read_name(s: &[u8]) -> Result<Name, usize>
    ensures { result ≡ name.read_name s.now }
{
    let key = characters::classes::span_end(s, 0, Class::Key);
    if key == 0 {
        return Err(0);
    }
    if byte_at(s, key) == b'[' {
        return postfix(s, key);
    }
    Ok(Name { key, name: key })
}

// The entry after a name: spaces, `=`, all spaces that follow, the value.
fn entry_after(s: &[u8], key: usize, name: usize) -> Line
    ensures { result ≡ spec.entry_after s.now key name }
{
    let sign = characters::classes::span_end(s, name, Class::Space);
    if byte_at(s, sign) != b'=' {
        return Line::Bad(sign);
    }
    let value = characters::classes::span_end(s, sign + 1, Class::Space);
    match characters::utf8::scan_value(s, value) {
        None => Line::Entry { key, name, value },
        Some(n) => Line::Bad(value + n),
    }
}

fn read_entry(s: &[u8]) -> Line
    ensures { result ≡ spec.read_entry s.now }
{
    match read_name(s) {
        Ok(Name { key, name }) => entry_after(s, key, name),
        Err(n) => Line::Bad(n),
    }
}

// `[`, a name of one byte or more, `]`, and nothing after.
fn read_header(s: &[u8]) -> Line
    ensures { result ≡ spec.read_header s.now }
{
    let e = characters::classes::span_end(s, 1, Class::Group);
    if e == 1 {
        return Line::Bad(1);
    }
    if byte_at(s, e) != b']' {
        return Line::Bad(e);
    }
    if e + 1 == s.len() {
        return Line::Header { end: e };
    }
    Line::Bad(e + 1)
}

// A line that begins with a blank byte: blank, or bad at the first byte that is none.
fn read_blank(s: &[u8]) -> Line
    requires { (0 < length s.now) × (blank_byte (name.byte_at s.now 0) ≡ true) }
    ensures { result ≡ spec.read_line s.now }
{
    let blank = characters::classes::span_end(s, 0, Class::Blank);
    if blank == s.len() {
        return Line::Blank;
    }
    Line::Bad(blank)
}

// What a line is; s is the line without its LF. The first byte decides what it can be. Where it is asked, an empty line and a comment, of which a file may
// have many, cost no call.
#[inline(always)]
pub fn read_line(s: &[u8]) -> Line
    ensures { result ≡ spec.read_line s.now }
{
    match s {
        [] => Line::Blank,
        [b'#', ..] => Line::Comment,
        [b'[', ..] => read_header(s),
        [first, ..] if characters::classes::is_in(Class::Blank, *first) => read_blank(s),
        _ => read_entry(s),
    }
}
