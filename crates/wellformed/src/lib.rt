// The check: whether a file is well formed, or which of the faults 1 to 6 comes first.
#![tactic(auto)]

ghost use Rattle.std.specs.Prelude.{◌≡◌, true, false, ◌<◌, ◌≤◌, length, take, eqb};
ghost use Rattle.base.specs.Lists.{same};
ghost use Rattle.fault.specs.Answer.{need};
ghost use Rattle.fault.specs.declared.Fault.TheVariants.{RepeatedGroup, RepeatedKey};
ghost use Rattle.marks.specs.Marks.{marked, with_mark};
ghost use Rattle.rows.specs.Rows.{read_rows};
ghost use Rattle.rows.specs.Title as title;
ghost use Rattle.rows.specs.Find.{none_bad};
ghost use Rattle.wellformed.specs.Check as spec;
ghost use Rattle.wellformed.specs.Pass as pass;

use fault::Fault;
use line::Line;
use rows::Lines;

// A file below this has few enough names for the small table of marks: to clear 16 KB takes as long as to read 500 bytes.
const FILE_SHORT: usize = 4096;

// What the first pass tells of the rule of plain keys, where it finds no fault of 2 to 5: it is kept, or left in doubt.
#[derive(Clone, Copy)]
enum Order {
    Settled,
    Doubtful,
}

// A part of the file.
#[derive(Clone, Copy)]
struct Part {
    from: usize,
    len: usize,
}

// What a pass carries from row to row: the group's number, which is 0 before the first header, and its name; the plain key that was
// read or found last; the plain key that is still to come; and whether a postfixed key stands in any other order. An empty part is none.
#[derive(Clone, Copy)]
struct State {
    tag: u64,
    group: Part,
    last: Part,
    want: Part,
    doubt: bool,
}

// The bytes of a part.
fn bytes(file: &[u8], x: Part) -> &[u8]
    requires { pass.Lies file.now x }
    ensures { result.now ≡ pass.bytes file.now x }
{
    let from = x.from;
    let to = from + x.len;
    &file[from..to]
}

// Whether two parts have the same bytes.
fn same_bytes(file: &[u8], x: Part, y: Part) -> bool
    requires { pass.Lies file.now x × pass.Lies file.now y }
    ensures { result ≡ same (pass.bytes file.now x) (pass.bytes file.now y) }
{
    bytes(file, x) == bytes(file, y)
}

// A refusal unless the test passed.
fn refuse_unless(passed: bool, f: Fault) -> Result<(), Fault>
    ensures { result ≡ need passed f }
{
    if passed {
        return Ok(());
    }
    Err(f)
}

// A group's name after the rows before `p`: it must lead where it is the first, and else be new. Without a mark it surely is. It is marked.
fn header(
    file: &[u8],
    p: usize,
    n: usize,
    leading: &[u8],
    first: bool,
    name: &[u8],
    marks: &mut [u64],
) -> Result<(), Fault>
    requires { (p ≤ length file.now) × (0 < length marks.old) × (none_bad (take p file.now) ≡ true)
        × (marked marks.old 0 name.now ≡ false → title.has (read_rows (take p file.now)) (title.Group name.now) ≡ false) }
    ensures { (result ≡ pass.title_after first leading.now (read_rows (take p file.now)) (title.Group name.now) n (RepeatedGroup n))
        × (marks.new ≡ with_mark marks.old 0 name.now) }
{
    let there = marks::mark(marks, 0, name);
    if first {
        return refuse_unless(name == leading, Fault::FirstGroup { line: n });
    }
    if there {
        let again = rows::find_group(&file[..p], b"", name).is_some();
        return refuse_unless(!again, Fault::RepeatedGroup { line: n });
    }
    Ok(())
}

// The same of a key in its group, under the group's number.
fn entry(
    file: &[u8],
    p: usize,
    n: usize,
    leading: &[u8],
    tag: u64,
    group: Part,
    name: &[u8],
    marks: &mut [u64],
) -> Result<(), Fault>
    requires { (p ≤ length file.now) × (0 < length marks.old) × (none_bad (take p file.now) ≡ true) × pass.Lies file.now group
        × (marked marks.old tag name.now ≡ false → title.has (read_rows (take p file.now)) (title.Key (pass.bytes file.now group) name.now) ≡ false) }
    ensures { (result ≡ pass.title_after (eqb tag 0) leading.now (read_rows (take p file.now)) (title.Key (pass.bytes file.now group) name.now) n (RepeatedKey n))
        × (marks.new ≡ with_mark marks.old tag name.now) }
{
    let there = marks::mark(marks, tag, name);
    if tag == 0 {
        return Err(Fault::FirstGroup { line: n });
    }
    if there {
        let own = bytes(file, group);
        let again = rows::find_key(&file[..p], own, name).is_some();
        return refuse_unless(!again, Fault::RepeatedKey { line: n });
    }
    Ok(())
}

// A row in the first pass, with its line's reading: whether it has a fault of 2 to 5. Its name is marked.
fn read_row(
    file: &[u8],
    row: Part,
    r: Line,
    n: usize,
    leading: &[u8],
    s: State,
    marks: &mut [u64],
) -> Result<(), Fault>
    requires { pass.Reads file.now row r × pass.Within file.now s × (none_bad (take row.from file.now) ≡ true)
        × pass.MarksTell marks.old s.tag (pass.bytes file.now s.group) (read_rows (take row.from file.now)) }
    ensures { (result ≡ pass.row_after (eqb s.tag 0) leading.now (read_rows (take row.from file.now)) (pass.named file.now row r s) n r)
        × (marks.new ≡ pass.marks_with marks.old s.tag (pass.named file.now row r s)) }
{
    let l = bytes(file, row);
    let p = row.from;
    let tag = s.tag;
    let group = s.group;
    match r {
        Line::Blank => Ok(()),
        Line::Comment => Ok(()),
        Line::Bad(byte) => Err(Fault::BadLine { line: n, byte }),
        Line::Header { end } => header(file, p, n, leading, tag == 0, &l[1..end], marks),
        Line::Entry { name, .. } => entry(file, p, n, leading, tag, group, &l[..name], marks),
    }
}

// The state after a header. A plain key that did not come is a doubt.
fn after_header(mut s: State, name: Part) -> State
    ensures { result ≡ pass.after_header s name }
{
    let none = Part { from: 0, len: 0 };
    let want = s.want;
    s.tag = s.tag % 65535 + 1;
    s.group = name;
    s.last = none;
    if want.len == 0 {
        return s;
    }
    s.want = none;
    s.doubt = true;
    s
}

// The state after a plain key, or after a key whose plain key is there.
fn after_plain(file: &[u8], mut s: State, key: Part) -> State
    requires { pass.Within file.now s × pass.Lies file.now key }
    ensures { result ≡ pass.after_plain file.now s key }
{
    let none = Part { from: 0, len: 0 };
    let want = s.want;
    s.last = key;
    if same_bytes(file, want, key) {
        s.want = none;
        return s;
    }
    s
}

// The state after a postfixed key. It follows its plain key or comes before it; any other order is left in doubt.
fn after_postfixed(file: &[u8], mut s: State, key: Part) -> State
    requires { pass.Within file.now s × pass.Lies file.now key }
    ensures { result ≡ pass.after_postfixed file.now s key }
{
    let last = s.last;
    let want = s.want;
    if same_bytes(file, last, key) {
        return s;
    }
    if same_bytes(file, want, key) {
        return s;
    }
    if want.len == 0 {
        s.want = key;
        return s;
    }
    s.doubt = true;
    s
}

// The state after a row without fault. The flag: a postfixed key's plain key is there.
fn after(file: &[u8], row: Part, r: Line, s: State, there: bool) -> State
    requires { pass.Reads file.now row r × pass.Within file.now s }
    ensures { result ≡ pass.after file.now row.from there s r }
{
    let p = row.from;
    match r {
        Line::Blank => s,
        Line::Comment => s,
        Line::Bad(_) => s,
        Line::Header { end } => {
            let name = Part {
                from: p + 1,
                len: end - 1,
            };
            after_header(s, name)
        }
        Line::Entry { key, name, .. } => {
            let x = Part { from: p, len: key };
            if there {
                return after_plain(file, s, x);
            }
            if key == name {
                return after_plain(file, s, x);
            }
            after_postfixed(file, s, x)
        }
    }
}

// The state before the first row.
fn start() -> State
    ensures { result ≡ pass.start }
{
    State {
        tag: 0,
        group: Part { from: 0, len: 0 },
        last: Part { from: 0, len: 0 },
        want: Part { from: 0, len: 0 },
        doubt: false,
    }
}

// The first pass: every line is read once. The table of marks may hold anything.
fn scan(file: &[u8], leading: &[u8], marks: &mut [u64]) -> Result<Order, Fault>
    requires { 0 < length marks.old }
    ensures { (pass.scanned result ≡ spec.titled_as leading.now (read_rows file.now)) × pass.Settles result (read_rows file.now) }
{
    let mut s = start();
    for at in Lines::new(file) {
        let row = Part {
            from: at.start,
            len: at.end - at.start,
        };
        let r = line::read_line(at.bytes);
        read_row(file, row, r, at.number, leading, s, marks)?;
        s = after(file, row, r, s, false);
    }
    let want = s.want;
    if s.tag == 0 {
        return Err(Fault::FirstGroup { line: 0 });
    }
    if s.doubt {
        return Ok(Order::Doubtful);
    }
    if want.len != 0 {
        return Ok(Order::Doubtful);
    }
    Ok(Order::Settled)
}

// A row in the second pass: whether the plain key of a postfixed key is missing. It is looked for, unless it is the one read or found last.
fn ask_row(file: &[u8], row: Part, r: Line, n: usize, s: State) -> Result<(), Fault>
    requires { pass.Reads file.now row r × pass.Within file.now s × (none_bad file.now ≡ true) × pass.LastThere file.now s }
    ensures { result ≡ pass.plain_at file.now row.from s n r }
{
    let group = s.group;
    let last = s.last;
    let from = row.from;
    match r {
        Line::Blank => Ok(()),
        Line::Comment => Ok(()),
        Line::Bad(_) => Ok(()),
        Line::Header { .. } => Ok(()),
        Line::Entry { key, name, .. } => {
            if key == name {
                return Ok(());
            }
            let x = Part { from, len: key };
            if same_bytes(file, last, x) {
                return Ok(());
            }
            let own = bytes(file, group);
            let there = rows::find_key(file, own, bytes(file, x)).is_some();
            refuse_unless(there, Fault::NoPlainKey { line: n })
        }
    }
}

// The second pass, for a file in which some postfixed key does not follow its plain key.
fn plain_keys(file: &[u8]) -> Result<(), Fault>
    requires { none_bad file.now ≡ true }
    ensures { result ≡ spec.plain_all (read_rows file.now) }
{
    let mut s = start();
    for at in Lines::new(file) {
        let row = Part {
            from: at.start,
            len: at.end - at.start,
        };
        let r = line::read_line(at.bytes);
        ask_row(file, row, r, at.number, s)?;
        s = after(file, row, r, s, true);
    }
    Ok(())
}

// Both passes, with a table of marks.
fn check_with(file: &[u8], leading: &[u8], marks: &mut [u64]) -> Result<(), Fault>
    requires { 0 < length marks.old }
    ensures { result ≡ spec.checked_rows leading.now (read_rows file.now) }
{
    match scan(file, leading, marks)? {
        Order::Settled => Ok(()),
        Order::Doubtful => plain_keys(file),
    }
}

fn check_short(file: &[u8], leading: &[u8]) -> Result<(), Fault>
    ensures { result ≡ spec.checked_rows leading.now (read_rows file.now) }
{
    let mut marks = [0u64; 256];
    check_with(file, leading, &mut marks)
}

fn check_long(file: &[u8], leading: &[u8]) -> Result<(), Fault>
    ensures { result ≡ spec.checked_rows leading.now (read_rows file.now) }
{
    let mut marks = [0u64; 2048];
    check_with(file, leading, &mut marks)
}

// The check of a file whose first group has this name. A short file has a small table.
fn check_as(file: &[u8], leading: &[u8]) -> Result<(), Fault>
    ensures { result ≡ spec.check_as leading.now file.now }
{
    if base::FILE_MOST < file.len() {
        return Err(Fault::TooLong);
    }
    if file.len() < FILE_SHORT {
        return check_short(file, leading);
    }
    check_long(file, leading)
}

// The check of an entry's file: 1, the earliest line with 2 to 5, 3 for no header, 6.
pub fn check(file: &[u8]) -> Result<(), Fault>
    ensures { result ≡ spec.check file.now }
{
    check_as(file, b"Desktop Entry")
}
