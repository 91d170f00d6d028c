// Set, remove, undo and redo on two lent buffers and three numbers.
#![tactic(auto)]

ghost use Rattle.std.specs.Prelude.{◌≡◌, true, ◌+◌, ◌-◌, ◌≤◌, length, take};
ghost use Rattle.base.specs.Bounds.{file_most, journal_most};
ghost use Rattle.base.specs.Lists.{part};
ghost use Rattle.base.specs.Over.{over};
ghost use Rattle.fault.specs.Answer.{then};
ghost use Rattle.record.specs.Record.{record_bytes};
ghost use Rattle.wellformed.specs.WellFormed.{well_formed};
ghost use Rattle.splice.specs.Edit.{replaced, buffer_with};
ghost use Rattle.journal.specs.Journal.{Person, by, edit_record};
ghost use Rattle.change.specs.Change as request;
ghost use Rattle.change.specs.Target as target;
ghost use Rattle.edit.specs.Calls as calls;
ghost use Rattle.edit.specs.Step as step;

use change::{Operation, Target};
use fault::Fault;
use journal::{Record, Way};

// The file's length and the journal's two numbers after a call.
#[derive(Clone, Copy)]
pub struct Edited {
    pub size: usize,
    pub used: usize,
    pub standing: usize,
}

// A part of some bytes, the end exclusive.
#[derive(Clone, Copy)]
struct Part {
    from: usize,
    to: usize,
}

// Whether the numbers fit the buffers (14), and then the file's own faults (1 to 6).
fn check_file(
    file: &[u8],
    size: usize,
    journal: &[u8],
    used: usize,
    standing: usize,
) -> Result<(), Fault>
    ensures { result ≡ calls.file_checked (calls.lent file.now size journal.now used standing) }
{
    if file.len() < size {
        return Err(Fault::Damaged);
    }
    if !journal::fits(journal, used, standing) {
        return Err(Fault::Damaged);
    }
    wellformed::check(&file[..size])
}

// The record of a person's edit is written behind what stands, and its new bytes, so many, go from there into the file.
fn write(
    file: &mut [u8],
    size: usize,
    journal: &mut [u8],
    standing: usize,
    person: u16,
    place: usize,
    old: usize,
    key: &[u8],
    text: &[u8],
    t: Target,
    n: usize,
)
    requires { (size ≤ length file.old) × (place + old ≤ size) × (n ≡ length (target.new_bytes key.now text.now t))
        × (size - old + n ≤ length file.old) × (standing + (20 + old + n) ≤ length journal.old) }
    ensures file { file.new ≡ buffer_with file.old size (replaced place old (target.new_bytes key.now text.now t) (take size file.old)) }
    ensures journal { journal.new ≡ over journal.old standing
        (record_bytes (edit_record (by (Person person) (record { place = place; old = part place (place + old) file.old; new = target.new_bytes key.now text.now t })))) }
{
    let to = place + old;
    journal::put_front(journal, standing, person, place, &file[place..to], n);
    let from = standing + 20 + old;
    let end = change::put_new(journal, from, key, text, Ok(t));
    splice::replace(file, size, place, old, &journal[from..end]);
}

// An edit where both buffers have room for it: 11, then 13.
fn make(
    file: &mut [u8],
    size: usize,
    journal: &mut [u8],
    standing: usize,
    person: u16,
    place: usize,
    old: usize,
    key: &[u8],
    text: &[u8],
    t: Target,
) -> Result<Edited, Fault>
    requires { (size ≤ length file.old) × (size ≤ file_most) × (standing ≤ journal_most) × (place + old ≤ size) }
    ensures { calls.Made (calls.lent file.old size journal.old 0 standing)
        (calls.applied (calls.lent file.old size journal.old 0 standing) (by (Person person)
        (record { place = place; old = part place (place + old) (take size file.old); new = target.new_bytes key.now text.now t })))
        result file.new journal.new }
{
    let n = change::new_length(key, text, Ok(t));
    let len = size - old + n;
    if file.len() < len {
        return Err(Fault::NoRoom);
    }
    if base::FILE_MOST < len {
        return Err(Fault::NoRoom);
    }
    let end = standing + (20 + old + n);
    if journal.len() < end {
        return Err(Fault::JournalFull);
    }
    if base::JOURNAL_MOST < end {
        return Err(Fault::JournalFull);
    }
    write(
        file, size, journal, standing, person, place, old, key, text, t, n,
    );
    Ok(Edited {
        size: len,
        used: end,
        standing: end,
    })
}

// The edit that a target asks for.
fn apply(
    file: &mut [u8],
    size: usize,
    journal: &mut [u8],
    standing: usize,
    person: u16,
    key: &[u8],
    text: &[u8],
    t: Target,
) -> Result<Edited, Fault>
    requires { (size ≤ length file.old) × (size ≤ file_most) × (standing ≤ journal_most) × target.Inside size t }
    ensures { calls.Made (calls.lent file.old size journal.old 0 standing)
        (calls.applied (calls.lent file.old size journal.old 0 standing)
        (by (Person person) (target.edit_by (take size file.old) key.now text.now t)))
        result file.new journal.new }
{
    match t {
        Target::Value { from, to } => {
            make(
                file,
                size,
                journal,
                standing,
                person,
                from,
                to - from,
                key,
                text,
                t,
            )
        }
        Target::Entry { at, .. } => {
            make(file, size, journal, standing, person, at, 0, key, text, t)
        }
        Target::Line { from, to } => {
            make(
                file,
                size,
                journal,
                standing,
                person,
                from,
                to - from,
                key,
                text,
                t,
            )
        }
    }
}

// A request in what was opened before.
pub fn carry_out(
    file: &mut [u8],
    size: usize,
    journal: &mut [u8],
    standing: usize,
    person: u16,
    op: Operation,
    group: &[u8],
    key: &[u8],
    text: &[u8],
) -> Result<Edited, Fault>
    requires { step.Ready file.old size standing }
    ensures { calls.Made (calls.lent file.old size journal.old 0 standing)
        (calls.request_opened (calls.lent file.old size journal.old 0 standing)
        (by (Person person) (target.request_by op group.now key.now text.now)))
        result file.new journal.new }
{
    let t = change::find_target(&file[..size], op, group, key, text)?;
    apply(file, size, journal, standing, person, key, text, t)
}

// What every set and remove asks first: lengths (14), the file's own faults (1 to 6), the journal (14).
pub fn check_lent(
    file: &[u8],
    size: usize,
    journal: &[u8],
    used: usize,
    standing: usize,
) -> Result<(), Fault>
    ensures { result ≡ step.passed (calls.opened (calls.lent file.now size journal.now used standing)) }
{
    check_file(file, size, journal, used, standing)?;
    if !journal::sound(&journal[..used], standing) {
        return Err(Fault::Damaged);
    }
    Ok(())
}

// A person's request: what every request asks first, and then its own.
fn request(
    file: &mut [u8],
    size: usize,
    journal: &mut [u8],
    used: usize,
    standing: usize,
    person: u16,
    op: Operation,
    group: &[u8],
    key: &[u8],
    text: &[u8],
) -> Result<Edited, Fault>
    ensures { calls.Made (calls.lent file.old size journal.old used standing)
        (calls.request (calls.lent file.old size journal.old used standing)
        (by (Person person) (target.request_by op group.now key.now text.now)))
        result file.new journal.new }
{
    check_lent(file, size, journal, used, standing)?;
    carry_out(file, size, journal, standing, person, op, group, key, text)
}

// A person sets a key with its postfix in a group to a text: its value is replaced, or a new entry comes behind the group's last.
pub fn set(
    file: &mut [u8],
    size: usize,
    journal: &mut [u8],
    used: usize,
    standing: usize,
    person: u16,
    group: &[u8],
    key: &[u8],
    text: &[u8],
) -> Result<Edited, Fault>
    ensures { calls.Made (calls.lent file.old size journal.old used standing)
        (calls.request (calls.lent file.old size journal.old used standing) (by (Person person) (request.Set group.now key.now text.now)))
        result file.new journal.new }
{
    request(
        file,
        size,
        journal,
        used,
        standing,
        person,
        Operation::Set,
        group,
        key,
        text,
    )
}

// A person removes the entry of a key with its postfix in a group, with its line.
pub fn remove(
    file: &mut [u8],
    size: usize,
    journal: &mut [u8],
    used: usize,
    standing: usize,
    person: u16,
    group: &[u8],
    key: &[u8],
) -> Result<Edited, Fault>
    ensures { calls.Made (calls.lent file.old size journal.old used standing)
        (calls.request (calls.lent file.old size journal.old used standing) (by (Person person) (request.Remove group.now key.now)))
        result file.new journal.new }
{
    request(
        file,
        size,
        journal,
        used,
        standing,
        person,
        Operation::Remove,
        group,
        key,
        b"",
    )
}

// Whether a file is well formed once so many bytes at a place became the new ones. The result is built in a lent space, which may hold
// anything.
fn built_well(space: &mut [u8], file: &[u8], place: usize, old: usize, new: &[u8]) -> bool
    requires { (place + old ≤ length file.now) × (length file.now ≤ length space.old) × (length file.now - old + length new.now ≤ length space.old) }
    ensures { result ≡ well_formed (replaced place old new.now file.now) }
{
    let size = file.len();
    splice::write(space, 0, file);
    splice::replace(space, size, place, old, new);
    let after = size - old + new.len();
    wellformed::check(&space[..after]).is_ok()
}

// The same, built in an array, for a result that is not too long.
fn makes_well(file: &[u8], place: usize, old: usize, new: &[u8]) -> bool
    requires { (place + old ≤ length file.now) × (length file.now ≤ file_most) × (length file.now - old + length new.now ≤ file_most) }
    ensures { result ≡ well_formed (replaced place old new.now file.now) }
{
    let mut space = [0u8; base::FILE_MOST];
    built_well(&mut space, file, place, old, new)
}

// What an edit from the journal would make of a file in a buffer of so many bytes: 14 unless its old bytes stand at the place,
// 11 if the result has no room, 14 unless it is well formed.
fn outcome(file: &[u8], room: usize, place: usize, gone: &[u8], come: &[u8]) -> Result<usize, Fault>
    requires { (length file.now ≤ room) × (length file.now ≤ file_most) }
    ensures { result ≡ then length (calls.replayed_in room file.now (step.swap place gone.now come.now)) }
{
    if !splice::stands(file, place, gone) {
        return Err(Fault::Damaged);
    }
    let kept = file.len() - gone.len();
    if room - kept < come.len() {
        return Err(Fault::NoRoom);
    }
    if base::FILE_MOST - kept < come.len() {
        return Err(Fault::NoRoom);
    }
    if makes_well(file, place, gone.len(), come) {
        return Ok(kept + come.len());
    }
    Err(Fault::Damaged)
}

// An edit from the journal: decided first, and then made in the file's own buffer.
fn replay(
    file: &mut [u8],
    size: usize,
    place: usize,
    gone: &[u8],
    come: &[u8],
) -> Result<usize, Fault>
    requires { (size ≤ length file.old) × (size ≤ file_most) }
    ensures answer { result ≡ then length (calls.replayed_in (length file.old) (take size file.old) (step.swap place gone.now come.now)) }
    ensures file { file.new ≡ step.became file.old size (calls.replayed_in (length file.old) (take size file.old) (step.swap place gone.now come.now)) }
{
    let room = file.len();
    let len = outcome(&file[..size], room, place, gone, come)?;
    splice::replace(file, size, place, gone.len(), come);
    Ok(len)
}

// An edit from the journal, of bytes that stand in the journal, and the numbers after it.
fn again(
    file: &mut [u8],
    size: usize,
    edits: &[u8],
    used: usize,
    standing: usize,
    place: usize,
    gone: Part,
    come: Part,
) -> Result<Edited, Fault>
    requires size_fits { (size ≤ length file.old) × (size ≤ file_most) }
    requires parts_fit { (gone.from ≤ gone.to) × (gone.to ≤ length edits.now) × (come.from ≤ come.to) × (come.to ≤ length edits.now) }
    ensures answer { result ≡ then (step.numbers used standing) (calls.replayed_in (length file.old) (take size file.old) (step.swap place (part gone.from gone.to edits.now) (part come.from come.to edits.now))) }
    ensures file { file.new ≡ step.became file.old size (calls.replayed_in (length file.old) (take size file.old) (step.swap place (part gone.from gone.to edits.now) (part come.from come.to edits.now))) }
{
    let a = gone.from;
    let b = gone.to;
    let c = come.from;
    let d = come.to;
    let size = replay(file, size, place, &edits[a..b], &edits[c..d])?;
    Ok(Edited {
        size,
        used,
        standing,
    })
}

// One edit along the journal: 14 for the numbers, 1 to 6, 14 for the journal, 12 if nothing is left on the way, and the refusals of the edit.
fn turn(
    file: &mut [u8],
    size: usize,
    journal: &[u8],
    used: usize,
    standing: usize,
    way: Way,
) -> Result<Edited, Fault>
    ensures { calls.Made (calls.lent file.old size journal.now used standing)
        (step.undo_or_redo way (calls.lent file.old size journal.now used standing))
        result file.new journal.now }
{
    check_file(file, size, journal, used, standing)?;
    let edits = &journal[..used];
    let Record {
        start,
        place,
        old,
        new,
        end,
    } = journal::next_on(edits, standing, way)?;
    let older = Part { from: old, to: new };
    let newer = Part { from: new, to: end };
    match way {
        Way::Undo => again(file, size, edits, used, start, place, newer, older),
        Way::Redo => again(file, size, edits, used, end, place, older, newer),
    }
}

// Undo: the latest edit that stands is taken back, and its record no longer stands.
pub fn undo(
    file: &mut [u8],
    size: usize,
    journal: &[u8],
    used: usize,
    standing: usize,
) -> Result<Edited, Fault>
    ensures { calls.Made (calls.lent file.old size journal.now used standing)
        (calls.undo (calls.lent file.old size journal.now used standing))
        result file.new journal.now }
{
    turn(file, size, journal, used, standing, Way::Undo)
}

// Redo: the next edit that waits is made again, and its record stands.
pub fn redo(
    file: &mut [u8],
    size: usize,
    journal: &[u8],
    used: usize,
    standing: usize,
) -> Result<Edited, Fault>
    ensures { calls.Made (calls.lent file.old size journal.now used standing)
        (calls.redo (calls.lent file.old size journal.now used standing))
        result file.new journal.now }
{
    turn(file, size, journal, used, standing, Way::Redo)
}
