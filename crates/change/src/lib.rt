// What a set or a remove changes in a file, and the new bytes.
#![tactic(auto)]

ghost use Rattle.std.specs.Prelude.{◌≡◌, true, false, ◌&&◌, ◌||◌, ℕ, ◌+◌, ◌≤◌, min, List, length, ltb};
ghost use Rattle.base.specs.Bounds.{file_most};
ghost use Rattle.base.specs.Over.{WroteAt};
ghost use Rattle.base.specs.Choice.{pick, there};
ghost use Rattle.base.specs.Lists.{same, any, last};
ghost use Rattle.text.specs.Escape.{raw_text};
ghost use Rattle.line.specs.Line.{read_line};
ghost use Rattle.line.specs.Form.{group_form, key_form};
ghost use Rattle.rows.specs.Rows.{group_after, read_rows};
ghost use Rattle.rows.specs.Title as title;
ghost use Rattle.rows.specs.Find.{none_bad};
ghost use Rattle.wellformed.specs.Check.{plain_of};
ghost use Rattle.change.specs.Change as spec;
ghost use Rattle.change.specs.Target as target;

use characters::{Class, Content};
use fault::Fault;
use line::Line;
use rows::Lines;

// What is asked for: a key is set to a text, or removed.
#[derive(Clone, Copy)]
pub enum Operation {
    Set,
    Remove,
}

// What changes.
#[derive(Clone, Copy)]
pub enum Target {
    // The value between two places is replaced.
    Value { from: usize, to: usize },
    // An entry comes in at a place, its LF after it, or before it.
    Entry { at: usize, after: bool },
    // The row between two places goes, with an LF.
    Line { from: usize, to: usize },
}

// Where an entry comes in, its LF after it, or before it.
#[derive(Clone, Copy)]
pub struct Slot {
    pub place: usize,
    pub after: bool,
}

// Whether the group after a line is this one, when it is known of the group before.
fn in_group(l: &[u8], group: &[u8], inside: bool) -> bool
    ensures { (g : List ℕ) → inside ≡ same group.now g → result ≡ same group.now (group_after g l.now (read_line l.now)) }
{
    if line::byte_at(l, 0) != b'[' {
        return inside;
    }
    match line::read_line(l) {
        Line::Header { end } => group == &l[1..end],
        Line::Blank | Line::Comment | Line::Entry { .. } | Line::Bad(_) => inside,
    }
}

// Whether a line in the group asked for is its header or one of its entries.
fn is_of_group(l: &[u8], inside: bool) -> bool
    ensures { result ≡ (inside && target.named (read_line l.now)) }
{
    inside && matches!(line::read_line(l), Line::Header { .. } | Line::Entry { .. })
}

// The place behind a row, by the end of its line.
fn behind(file: &[u8], end: usize) -> Slot
    requires { end ≤ length file.now }
    ensures { result ≡ pick (ltb end (length file.now)) (target.slot (end + 1) true) (target.slot end false) }
{
    if end < file.len() {
        return Slot {
            place: end + 1,
            after: true,
        };
    }
    Slot {
        place: end,
        after: false,
    }
}

// The place behind the group's last entry, or its header; none without the group.
fn group_end(file: &[u8], group: &[u8]) -> Option<Slot>
    ensures { result ≡ target.slot_of (last (λ r. spec.of_group group.now (title.title r)) (read_rows file.now)) }
{
    let mut inside = group.is_empty();
    let mut t = None;
    for row in Lines::new(file) {
        let l = row.bytes;
        inside = in_group(l, group, inside);
        if is_of_group(l, inside) {
            t = Some(behind(file, row.end));
        }
    }
    t
}

// Whether a line in the group asked for is an entry whose key is this one with a postfix.
fn is_postfixed(l: &[u8], key: &[u8], inside: bool) -> bool
    ensures { result ≡ (inside && target.postfix_in key.now l.now (read_line l.now)) }
{
    if inside {
        return match line::read_line(l) {
            Line::Entry { key: k, name, .. } => key == &l[..k] && k != name,
            Line::Blank | Line::Comment | Line::Header { .. } | Line::Bad(_) => false,
        };
    }
    false
}

// Whether a postfixed key of this plain key stands in the group.
fn has_postfixed(file: &[u8], group: &[u8], key: &[u8]) -> bool
    ensures { result ≡ any (λ s. spec.postfix_of group.now key.now (title.title s)) (read_rows file.now) }
{
    let mut inside = group.is_empty();
    for row in Lines::new(file) {
        let l = row.bytes;
        inside = in_group(l, group, inside);
        if is_postfixed(l, key, inside) {
            return true;
        }
    }
    false
}

// Whether a key is plain, or its plain key stands in the group.
fn has_plain(file: &[u8], group: &[u8], key: &[u8]) -> bool
    requires { none_bad file.now ≡ true }
    ensures { result ≡ (spec.is_plain key.now || title.has (read_rows file.now) (title.Key group.now (plain_of key.now))) }
{
    let n = characters::classes::span_end(key, 0, Class::Key);
    if n == key.len() {
        return true;
    }
    rows::find_key(file, group, &key[..n]).is_some()
}

// Where a set puts an entry that a file without bad lines does not have: 8, 6.
fn find_place(file: &[u8], group: &[u8], key: &[u8]) -> Result<Target, Fault>
    requires { (none_bad file.now ≡ true) × (there (title.find_row (read_rows file.now) (title.Key group.now key.now)) ≡ false) }
    ensures { target.Aims file.now key.now (spec.set_edit (read_rows file.now) group.now key.now) result }
{
    let Slot { place, after } = group_end(file, group).ok_or(Fault::Missing)?;
    if has_plain(file, group, key) {
        return Ok(Target::Entry { at: place, after });
    }
    Err(Fault::NoPlainKey { line: 0 })
}

// What a set changes in a file without bad lines: 8, 6. Where the file has the entry of a plain key, no row behind it is read.
fn find_set(file: &[u8], group: &[u8], key: &[u8]) -> Result<Target, Fault>
    requires { none_bad file.now ≡ true }
    ensures { target.Aims file.now key.now (spec.set_edit (read_rows file.now) group.now key.now) result }
{
    let Some(row) = rows::find_key(file, group, key) else {
        return find_place(file, group, key);
    };
    if has_plain(file, group, key) {
        return Ok(Target::Value {
            from: row.value,
            to: row.end,
        });
    }
    Err(Fault::NoPlainKey { line: 0 })
}

// What a remove changes in a file without bad lines: 8, 17.
fn find_remove(file: &[u8], group: &[u8], key: &[u8]) -> Result<Target, Fault>
    requires { (none_bad file.now ≡ true) × ((group_form group.now && key_form key.now) ≡ true) }
    ensures { target.Aims file.now key.now (λ _. spec.remove_edit (read_rows file.now) group.now key.now) result }
{
    let Some(row) = rows::find_key(file, group, key) else {
        return Err(Fault::Missing);
    };
    if has_postfixed(file, group, key) {
        return Err(Fault::PostfixesRemain);
    }
    if row.end < file.len() {
        return Ok(Target::Line {
            from: row.start,
            to: row.end + 1,
        });
    }
    Ok(Target::Line {
        from: row.start - 1,
        to: row.end,
    })
}

// What a request asks for in a file without bad lines: 7, 10, 8, 6, 17. A remove looks at no text.
pub fn find_target(
    file: &[u8],
    op: Operation,
    group: &[u8],
    key: &[u8],
    text: &[u8],
) -> Result<Target, Fault>
    requires { none_bad file.now ≡ true }
    ensures { target.Meets file.now key.now text.now
        (spec.edit_of file.now (target.request_by op group.now key.now text.now)) result }
{
    if !line::form::is_group(group) {
        return Err(Fault::BadArgument);
    }
    if !line::form::is_key(key) {
        return Err(Fault::BadArgument);
    }
    match op {
        Operation::Remove => find_remove(file, group, key),
        Operation::Set => match characters::utf8::scan(text, Content::Text) {
            Some(_) => Err(Fault::UnfitText),
            None => find_set(file, group, key),
        },
    }
}

// One byte more than a file has: no new bytes as many fit one, and no sum of such lengths wraps.
const MANY: usize = base::FILE_MOST + 1;

// A length, or MANY for any longer.
fn capped(n: usize) -> usize
    ensures { result ≡ min n (file_most + 1) }
{
    if n < MANY {
        return n;
    }
    MANY
}

// How many bytes are new; MANY for more than a file has, none for a refusal.
pub fn new_length(key: &[u8], text: &[u8], found: Result<Target, Fault>) -> usize
    ensures { result ≡ min (length (target.bytes_for key.now text.now found)) (file_most + 1) }
{
    let Ok(t) = found else {
        return 0;
    };
    match t {
        Target::Value { .. } => capped(text::escape::raw_length(text)),
        Target::Entry { .. } => {
            capped(capped(key.len()) + capped(text::escape::raw_length(text)) + 2)
        }
        Target::Line { .. } => 0,
    }
}

// The raw value of a text through the part of an output that starts at a place; the answer is where it ends.
fn put_raw(out: &mut [u8], at: usize, text: &[u8]) -> usize
    requires { at + length (raw_text text.now) ≤ length out.old }
    ensures { WroteAt out.old at (raw_text text.now) result out.new }
{
    let n = text::escape::write_raw(text, &mut out[at..]);
    at + n
}

// The same of an entry.
fn put_entry(out: &mut [u8], at: usize, key: &[u8], text: &[u8]) -> usize
    requires { at + length (spec.entry_bytes key.now (raw_text text.now)) ≤ length out.old }
    ensures { WroteAt out.old at (spec.entry_bytes key.now (raw_text text.now)) result out.new }
{
    let sign = splice::write(out, at, key);
    let from = splice::write(out, sign, b"=");
    put_raw(out, from, text)
}

// The same of an entry with its LF, after it or before it.
fn put_line(out: &mut [u8], at: usize, key: &[u8], text: &[u8], after: bool) -> usize
    requires { at + (length (spec.entry_bytes key.now (raw_text text.now)) + 1) ≤ length out.old }
    ensures { WroteAt out.old at (spec.with_lf after (spec.entry_bytes key.now (raw_text text.now))) result out.new }
{
    if after {
        let end = put_entry(out, at, key, text);
        return splice::write(out, end, b"\n");
    }
    let from = splice::write(out, at, b"\n");
    put_entry(out, from, key, text)
}

// The new bytes through the part of an output that starts at a place; the answer is where they end.
pub fn put_new(
    out: &mut [u8],
    at: usize,
    key: &[u8],
    text: &[u8],
    found: Result<Target, Fault>,
) -> usize
    requires { at + length (target.bytes_for key.now text.now found) ≤ length out.old }
    ensures { WroteAt out.old at (target.bytes_for key.now text.now found) result out.new }
{
    let Ok(t) = found else {
        return at;
    };
    match t {
        Target::Value { .. } => put_raw(out, at, text),
        Target::Entry { after, .. } => put_line(out, at, key, text, after),
        Target::Line { .. } => at,
    }
}
