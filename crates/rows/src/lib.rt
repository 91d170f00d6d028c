// The rows of a file: where a line ends, and which row has a name.
#![tactic(auto)]

mod walk; // walk.rt: the lines of a file, in turn

ghost use Rattle.std.specs.Prelude.{◌≡◌, true, false, ◌++◌, ◌+◌, ◌≤◌, ◌<◌, length, take, drop};
ghost use Rattle.base.specs.Lists as lists;
ghost use Rattle.line.specs.Name.{read_name};
ghost use Rattle.line.specs.Line.{read_line, is_bad};
ghost use Rattle.rows.specs.Rows.{read_rows, value_start};
ghost use Rattle.rows.specs.Title as title;
ghost use Rattle.rows.specs.Find.{no_lf, line_length, none_bad, found_of, named_as, inside_after};

use line::Line;

// Where a row of a file stands: its number, where it starts, where its line ends, where its value starts (an entry's; else the row's start).
#[derive(Clone, Copy)]
pub struct Row {
    pub line: usize,
    pub start: usize,
    pub end: usize,
    pub value: usize,
}

// A line of a file, without its LF: its number from 1, where it starts, where it ends, and its bytes.
#[derive(Clone, Copy)]
pub struct LineAt<'a> {
    pub number: usize,
    pub start: usize,
    pub end: usize,
    pub bytes: &'a [u8],
}

// The lines of a file, one after another, from a place on.
#[derive(Clone, Copy)]
pub struct Lines<'a> {
    file: &'a [u8],
    number: usize,
    start: usize,
    ghost few: { number ≤ start + 1 },
}

// Whether none of sixteen bytes is an LF. The loop has no way out, so that it becomes one comparison of sixteen bytes.
fn clear(s: &[u8], i: usize) -> bool
    requires { i + 16 ≤ length s.now }
    ensures { result ≡ lists.all no_lf (take 16 (drop i s.now)) }
{
    let mut n: u8 = 0;
    let mut j = 0;
    while j < 16 {
        if s[i + j] == b'\n' {
            n = 1;
            j += 1;
        } else {
            j += 1;
        }
    }
    n == 0
}

// The end of a line that begins inside, byte by byte.
fn near_end(s: &[u8], from: usize) -> usize
    requires { from ≤ length s.now }
    ensures { result ≡ from + line_length (drop from s.now) }
{
    for i in from..s.len() {
        if s[i] == b'\n' {
            return i;
        }
    }
    s.len()
}

// The next LF, where there is one.
fn next_lf(s: &[u8], from: usize) -> usize
    requires { from + line_length (drop from s.now) < length s.now }
    ensures { result ≡ from + line_length (drop from s.now) }
{
    let mut i = from;
    while s[i] != b'\n' {
        i += 1;
    }
    i
}

// Where the line that begins at a place ends: at its LF, or at the end. Sixteen bytes at a time where there are so many.
pub fn line_end(s: &[u8], from: usize) -> usize
    ensures { result ≡ from + line_length (drop from s.now) }
{
    let mut i = from;
    while i < s.len() {
        if s.len() - i < 16 {
            return near_end(s, i);
        }
        if clear(s, i) {
            i += 16;
        } else {
            return next_lf(s, i);
        }
    }
    i
}

// Whether a line begins with these bytes. Most lines differ from a key in their first bytes, where `==` stops and `starts_with` does not.
pub fn begins(l: &[u8], key: &[u8]) -> bool
    ensures { result ≡ lists.same key.now (take (length key.now) l.now) }
{
    key.len() <= l.len() && &l[..key.len()] == key
}

// Whether a line's key with its postfix is this one.
fn is_named(l: &[u8], key: &[u8]) -> bool
    ensures { result ≡ named_as key.now l.now (read_name l.now) }
{
    begins(l, key) && line::read_name(l).is_ok_and(|n| n.name == key.len())
}

// Where an entry's value starts in its line; 0 for another line.
pub fn value_start(l: &[u8]) -> usize
    ensures { result ≡ value_start (read_line l.now) }
{
    match line::read_line(l) {
        Line::Entry { value, .. } => value,
        Line::Blank | Line::Comment | Line::Header { .. } | Line::Bad(_) => 0,
    }
}

// Whether a line that is not bad, and what follows it, stand in a group, if what stood before it did.
pub fn is_inside(l: &[u8], group: &[u8], inside: bool) -> bool
    requires { is_bad (read_line l.now) ≡ false }
    ensures { result ≡ inside_after group.now l.now inside (read_line l.now) }
{
    if line::byte_at(l, 0) == b'[' {
        let t = l.len() - 1;
        return group == &l[1..t];
    }
    inside
}

// The first row of a key with its postfix in a group, in a file without bad lines.
pub fn find_key(file: &[u8], group: &[u8], key: &[u8]) -> Option<Row>
    requires { none_bad file.now ≡ true }
    ensures { result ≡ found_of (title.find_row (read_rows file.now) (title.Key group.now key.now)) }
{
    let mut inside = group.is_empty();
    for row in Lines::new(file) {
        let l = row.bytes;
        inside = is_inside(l, group, inside);
        if inside {
            if is_named(l, key) {
                return Some(Row {
                    line: row.number,
                    start: row.start,
                    end: row.end,
                    value: row.start + value_start(l),
                });
            }
        }
    }
    None
}

// Whether bytes are two parts, one after the other. The rest is compared first, since the front is that of many groups.
fn is_joined(s: &[u8], front: &[u8], rest: &[u8]) -> bool
    ensures { result ≡ lists.same (front.now ++ rest.now) s.now }
{
    let n = front.len();
    if s.len() < n {
        return false;
    }
    rest == &s[n..] && begins(s, front)
}

// The header of a group whose name is two parts, one after the other, in a file without bad lines.
pub fn find_group(file: &[u8], front: &[u8], rest: &[u8]) -> Option<Row>
    requires { none_bad file.now ≡ true }
    ensures { result ≡ found_of (title.find_row (read_rows file.now) (title.Group (front.now ++ rest.now))) }
{
    for row in Lines::new(file) {
        let l = row.bytes;
        if line::byte_at(l, 0) == b'[' && is_joined(&l[1..l.len() - 1], front, rest) {
            return Some(Row {
                line: row.number,
                start: row.start,
                end: row.end,
                value: row.start,
            });
        }
    }
    None
}
