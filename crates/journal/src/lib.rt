// The journal of edits, who made them, and forgetting the oldest.
#![tactic(auto)]

ghost use Rattle.std.specs.Prelude.{◌≡◌, true, ◌++◌, ◌+◌, ◌≤◌, length, drop};
ghost use Rattle.base.specs.Choice.{there};
ghost use Rattle.base.specs.Over.{over};
ghost use Rattle.fault.specs.Answer.{accepted};
ghost use Rattle.record.specs.Number.{little_endian};
ghost use Rattle.record.specs.Record.{head_bytes};
ghost use Rattle.journal.specs.Journal as journal;
ghost use Rattle.journal.specs.Journal.{read_journal};
ghost use Rattle.journal.specs.Lent as lent;
ghost use Rattle.journal.specs.Walk.{placed, latest, waiting, next_on, Within, edit_front, ReadsBytes, Reads, edits, Walks, TellsPerson, EndsOldest};

use fault::Fault;
use record::{Bounds, Front, HEAD};

// Which way through the journal: back by the latest edit that stands, or forth by the next that waits.
#[derive(Clone, Copy)]
pub enum Way {
    Undo,
    Redo,
}

// The record of an edit in a journal: where it starts, the edit's place, where the old bytes start, where the new bytes start and where it ends.
#[derive(Clone, Copy)]
pub struct Record {
    pub start: usize,
    pub place: usize,
    pub old: usize,
    pub new: usize,
    pub end: usize,
}

// The journal's two numbers after forgetting.
#[derive(Clone, Copy)]
pub struct Forgot {
    pub used: usize,
    pub standing: usize,
}

// The edit in the bytes of a record from a place up to its end, unless they are damaged.
fn read_parts(used: &[u8], start: usize, from: usize, end: usize) -> Result<Record, Fault>
    requires { (from ≤ end) × (end ≤ length used.now) }
    ensures { ReadsBytes used.now start from end result }
{
    let size = end - from;
    if size < 12 {
        return Err(Fault::Damaged);
    }
    let old = record::number::<4>(used, from + 4);
    let new = record::number::<4>(used, from + 8);
    if size != 12 + old + new {
        return Err(Fault::Damaged);
    }
    let place = record::number::<4>(used, from);
    Ok(Record {
        start,
        place,
        old: from + 12,
        new: from + 12 + old,
        end,
    })
}

// The edit in the record at a place, of kind 1 or behind a person's two bytes in one of kind 4; none at the end.
#[inline(always)]
fn read_edit(used: &[u8], at: usize) -> Result<Option<Record>, Fault>
    ensures { Reads used.now at result }
{
    if used.len() <= at {
        return Ok(None);
    }
    let Some(Front { kind, end }) = record::read(used, at) else {
        return Err(Fault::Damaged);
    };
    if kind == 1 {
        return Ok(Some(read_parts(used, at, at + HEAD, end)?));
    }
    if kind != 4 {
        return Err(Fault::Damaged);
    }
    if end < at + 8 {
        return Err(Fault::Damaged);
    }
    Ok(Some(read_parts(used, at, at + 8, end)?))
}

// Whether the records of edits fill the bytes from a place on.
fn filled(used: &[u8], from: usize) -> bool
    ensures { result ≡ there (edits (drop from used.now)) }
{
    let mut at = from;
    loop {
        match read_edit(used, at) {
            Err(_) => return false,
            Ok(None) => return true,
            Ok(Some(record)) => at = record.end,
        }
    }
}

// All records, each once: those that stand, then those that wait. The answer is where the latest that stands begins; 0 where none stands.
fn walk(used: &[u8], standing: usize) -> Result<usize, Fault>
    ensures { Walks used.now standing result }
{
    let mut at: usize = 0;
    let mut last: usize = 0;
    while at < standing {
        let Some(Record { end, .. }) = read_edit(used, at)? else {
            return Err(Fault::Damaged);
        };
        if standing < end {
            return Err(Fault::Damaged);
        }
        last = at;
        at = end;
    }
    if filled(used, standing) {
        return Ok(last);
    }
    Err(Fault::Damaged)
}

// Whether the used bytes are a journal of which so many stand.
pub fn sound(used: &[u8], standing: usize) -> bool
    ensures { result ≡ there (read_journal used.now standing) }
{
    walk(used, standing).is_ok()
}

// The latest edit that stands: what an undo takes back.
fn last_standing(used: &[u8], standing: usize) -> Result<Record, Fault>
    ensures { (placed used.now result ≡ latest used.now standing) × Within (length used.now) result }
{
    let last = walk(used, standing)?;
    if standing == 0 {
        Err(Fault::NothingLeft)
    } else {
        read_edit(used, last)?.ok_or(Fault::NothingLeft)
    }
}

// The next edit that waits: what a redo makes again.
fn first_waiting(used: &[u8], standing: usize) -> Result<Record, Fault>
    ensures { (placed used.now result ≡ waiting used.now standing) × Within (length used.now) result }
{
    walk(used, standing)?;
    read_edit(used, standing)?.ok_or(Fault::NothingLeft)
}

// The edit that comes next on the way.
pub fn next_on(used: &[u8], standing: usize, way: Way) -> Result<Record, Fault>
    ensures { (placed used.now result ≡ next_on way used.now standing) × Within (length used.now) result }
{
    match way {
        Way::Undo => last_standing(used, standing),
        Way::Redo => first_waiting(used, standing),
    }
}

// A number in four bytes at a place.
fn put_number(out: &mut [u8], at: usize, n: usize)
    requires { at + 4 ≤ length out.old }
    ensures { out.new ≡ over out.old at (little_endian 4 n) }
{
    record::put_number::<4>(&mut out[at..], n);
}

// The head of a record of kind 4 at a place, and its person.
fn put_person(out: &mut [u8], at: usize, size: usize, person: u16)
    requires { at + 8 ≤ length out.old }
    ensures { out.new ≡ over out.old at (head_bytes size 4 ++ little_endian 2 person) }
{
    record::put_head(&mut out[at..], size, 4);
    let from = at + HEAD;
    record::put_number::<2>(&mut out[from..], usize::from(person));
}

// The record of a person's edit at a place, up to its new bytes, for which there is room.
pub fn put_front(out: &mut [u8], at: usize, person: u16, place: usize, old: &[u8], new: usize)
    requires { at + (20 + length old.now + new) ≤ length out.old }
    ensures { out.new ≡ over out.old at (edit_front (journal.Person person) place old.now new) }
{
    let n = old.len();
    put_person(out, at, 20 + n + new, person);
    put_number(out, at + 8, place);
    put_number(out, at + 12, n);
    put_number(out, at + 16, new);
    splice::write(out, at + 20, old);
}

// Whether the two numbers fit a journal's buffer.
pub fn fits(journal: &[u8], used: usize, standing: usize) -> bool
    ensures { result ≡ lent.numbers_fit (lent.lent journal.now used standing) }
{
    used <= journal.len() && used <= base::JOURNAL_MOST && standing <= used
}

// The person in the n-th record of a journal that is sound, or 0 where it names nobody.
fn person_in(used: &[u8], n: usize) -> Result<u16, Fault>
    requires { there (edits used.now) ≡ true }
    ensures { TellsPerson used.now n result }
{
    let Some(Bounds { from, .. }) = record::nth(used, n) else {
        return Err(Fault::NothingLeft);
    };
    if record::number::<2>(used, from - 2) == 4 {
        return Ok(record::number::<2>(used, from) as u16);
    }
    Ok(0)
}

// Whether the numbers fit and the journal is sound.
fn opens(journal: &[u8], used: usize, standing: usize) -> bool
    ensures { result ≡ accepted (lent.opened (lent.lent journal.now used standing)) }
{
    fits(journal, used, standing) && sound(&journal[..used], standing)
}

// The person of record n, from 0, standing or waiting; 0 where it names nobody. Refusals: 14 for the numbers and the journal, 12 without such
// a record.
pub fn person(journal: &[u8], used: usize, standing: usize, n: usize) -> Result<u16, Fault>
    ensures { result ≡ lent.person (lent.lent journal.now used standing) n }
{
    if !opens(journal, used, standing) {
        return Err(Fault::Damaged);
    }
    person_in(&journal[..used], n)
}

// Where the oldest k records that stand end, in a journal that is sound; none if fewer stand.
fn oldest_end(used: &[u8], standing: usize, k: usize) -> Option<usize>
    requires { there (read_journal used.now standing) ≡ true }
    ensures { EndsOldest used.now standing k result }
{
    if k == 0 {
        return Some(0);
    }
    let Some(Bounds { to, .. }) = record::nth(used, k - 1) else {
        return None;
    };
    if standing < to {
        return None;
    }
    Some(to)
}

// So many bytes go at the journal's front, of those that stand.
fn drop_front(journal: &mut [u8], used: usize, standing: usize, gone: usize) -> Forgot
    requires { (gone ≤ standing) × (standing ≤ used) × (used ≤ length journal.old) }
    ensures { lent.lent journal.new result.used result.standing ≡ lent.without gone (lent.lent journal.old used standing) }
{
    splice::replace(journal, used, 0, gone, b"");
    Forgot {
        used: used - gone,
        standing: standing - gone,
    }
}

// The oldest k records that stand go, and all others move to the front. Refusals: 14 for the numbers and the journal, 12 if fewer stand.
pub fn forget(journal: &mut [u8], used: usize, standing: usize, k: usize) -> Result<Forgot, Fault>
    ensures { lent.Forgets (lent.lent journal.old used standing) k result journal.new }
{
    if !opens(journal, used, standing) {
        return Err(Fault::Damaged);
    }
    let gone = oldest_end(&journal[..used], standing, k).ok_or(Fault::NothingLeft)?;
    Ok(drop_front(journal, used, standing, gone))
}
