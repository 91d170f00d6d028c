// Completeness: which of the keys that an entry must have is missing or wrong.
#![tactic(auto)]

ghost use Rattle.std.specs.Prelude.{◌≡◌, true, ◌-◌, ◌≤◌, length};
ghost use Rattle.base.specs.Lists.{same, part};
ghost use Rattle.line.specs.Line.{read_line};
ghost use Rattle.rows.specs.Rows.{read_rows};
ghost use Rattle.rows.specs.Title as title;
ghost use Rattle.rows.specs.Title.{has};
ghost use Rattle.rows.specs.Find.{none_bad};
ghost use Rattle.complete.specs.Complete as spec;
ghost use Rattle.complete.specs.Step as step;

use fault::Fault;
use line::Line;
use rows::Lines;

// Whether Desktop Entry has a plain key.
fn has_key(file: &[u8], key: &[u8]) -> bool
    requires { none_bad file.now ≡ true }
    ensures { result ≡ has (read_rows file.now) (spec.main key.now) }
{
    rows::find_key(file, b"Desktop Entry", key).is_some()
}

// Whether a plain key of Desktop Entry has exactly this raw value.
fn value_is(file: &[u8], key: &[u8], value: &[u8]) -> bool
    requires { none_bad file.now ≡ true }
    ensures { result ≡ spec.value_is (read_rows file.now) key.now value.now }
{
    match rows::find_key(file, b"Desktop Entry", key) {
        Some(row) => &file[row.value..row.end] == value,
        None => false,
    }
}

// Whether a value of Type is one of the three.
fn is_type(v: &[u8]) -> bool
    ensures { result ≡ spec.known_type v.now }
{
    v == b"Application".as_slice() || v == b"Link".as_slice() || v == b"Directory".as_slice()
}

// Exec is there for an application, unless DBusActivatable is `true`.
fn exec_where_due(file: &[u8]) -> bool
    requires { none_bad file.now ≡ true }
    ensures { result ≡ spec.exec_where_due (read_rows file.now) }
{
    if value_is(file, b"Type", b"Application") {
        if has_key(file, b"Exec") {
            return true;
        }
        return value_is(file, b"DBusActivatable", b"true");
    }
    true
}

// URL is there for a link.
fn url_where_due(file: &[u8]) -> bool
    requires { none_bad file.now ≡ true }
    ensures { result ≡ spec.url_where_due (read_rows file.now) }
{
    if value_is(file, b"Type", b"Link") {
        return has_key(file, b"URL");
    }
    true
}

// Whether a name is one of the boolean keys.
fn is_boolean_key(name: &[u8]) -> bool
    ensures { result ≡ step.boolean_key name.now }
{
    name == b"NoDisplay".as_slice()
        || name == b"Hidden".as_slice()
        || name == b"DBusActivatable".as_slice()
        || name == b"Terminal".as_slice()
        || name == b"StartupNotify".as_slice()
}

// Whether a value is `true` or `false`.
fn is_boolean(v: &[u8]) -> bool
    ensures { result ≡ spec.is_boolean v.now }
{
    v == b"true".as_slice() || v == b"false".as_slice()
}

// Name is there, and Exec and URL where they are due.
fn has_keys(file: &[u8]) -> bool
    requires { none_bad file.now ≡ true }
    ensures { result ≡ step.keys_there (read_rows file.now) }
{
    has_key(file, b"Name") & exec_where_due(file) & url_where_due(file)
}

// Whether a line is a boolean key's, with another value.
fn is_wrong(l: &[u8]) -> bool
    ensures { result ≡ step.wrong_in l.now (read_line l.now) }
{
    match line::read_line(l) {
        Line::Entry { name, value, .. } => is_boolean_key(&l[..name]) & !is_boolean(&l[value..]),
        Line::Blank | Line::Comment | Line::Header { .. } | Line::Bad(_) => false,
    }
}

// Whether a header's name is Desktop Entry.
fn is_desktop_entry(l: &[u8]) -> bool
    requires { 2 ≤ length l.now }
    ensures { result ≡ same title.desktop_entry (part 1 (length l.now - 1) l.now) }
{
    let t = l.len() - 1;
    &l[1..t] == b"Desktop Entry".as_slice()
}

// The first boolean key of Desktop Entry with another value, in a file without bad lines.
fn check_booleans(file: &[u8]) -> Result<(), Fault>
    requires { none_bad file.now ≡ true }
    ensures { result ≡ spec.booleans (read_rows file.now) }
{
    let mut inside = false;
    for row in Lines::new(file) {
        let l = row.bytes;
        if line::byte_at(l, 0) == b'[' {
            inside = is_desktop_entry(l);
        } else if inside && is_wrong(l) {
            return Err(Fault::Incomplete { line: row.number });
        }
    }
    Ok(())
}

// Whether an entry is complete, in a file without bad lines.
pub fn complete_rows(file: &[u8]) -> Result<(), Fault>
    requires { none_bad file.now ≡ true }
    ensures { result ≡ spec.complete_rows (read_rows file.now) }
{
    let Some(row) = rows::find_key(file, b"Desktop Entry", b"Type") else {
        return Err(Fault::Incomplete { line: 0 });
    };
    if !is_type(&file[row.value..row.end]) {
        return Err(Fault::Incomplete { line: row.line });
    }
    if !has_keys(file) {
        return Err(Fault::Incomplete { line: 0 });
    }
    check_booleans(file)
}
