// How an answer is told to a C program.
#![tactic(auto)]

ghost use Rattle.std.specs.Prelude.{◌≡◌, ℕ, List};
ghost use Rattle.fault.specs.Table.{number_of, place_of, byte_of};
ghost use Rattle.batch.specs.Batch as batch;
ghost use Rattle.abi.specs.Abi.{Returned, ReturnedNumber, ReturnedEnds, ReturnedNumbers, CalledBatch};

use batch::Batched;
use edit::Edited;
use entry::Ends;
use fault::Fault;

// A refusal, as it is told.
pub fn refuse(f: Fault, place: &mut u64, byte: &mut u64) -> u32
    ensures { (result ≡ number_of f) × (place.new ≡ place_of f) × (byte.new ≡ byte_of f) }
{
    let t = fault::tell(f);
    *place = t.place as u64;
    *byte = t.byte as u64;
    t.number
}

// The answer of the check.
pub fn tell_checked(c: Result<(), Fault>, place: &mut u64, byte: &mut u64) -> u32
    ensures { Returned c result place.new byte.new }
{
    match c {
        Ok(()) => {
            *place = 0;
            *byte = 0;
            0
        }
        Err(f) => refuse(f, place, byte),
    }
}

// The answer of a call that finds a value.
pub fn tell_ends(
    e: Result<Ends, Fault>,
    place: &mut u64,
    byte: &mut u64,
    from: &mut u64,
    to: &mut u64,
) -> u32
    ensures { ReturnedEnds e result place.new byte.new from.old from.new to.old to.new }
{
    match e {
        Ok(ends) => {
            *place = 0;
            *byte = 0;
            *from = ends.from as u64;
            *to = ends.to as u64;
            0
        }
        Err(f) => refuse(f, place, byte),
    }
}

// The answer of a call with an output.
pub fn tell_written(
    w: Result<usize, Fault>,
    place: &mut u64,
    byte: &mut u64,
    written: &mut u64,
) -> u32
    ensures { ReturnedNumber w result place.new byte.new written.old written.new }
{
    match w {
        Ok(n) => {
            *place = 0;
            *byte = 0;
            *written = n as u64;
            0
        }
        Err(refusal) => refuse(refusal, place, byte),
    }
}

// The answer of a call that edits.
pub fn tell_edited(
    e: Result<Edited, Fault>,
    size: &mut u64,
    used: &mut u64,
    standing: &mut u64,
    place: &mut u64,
    byte: &mut u64,
) -> u32
    ensures { ReturnedNumbers e result place.new byte.new size.old size.new used.old used.new
        standing.old standing.new }
{
    match e {
        Ok(edited) => {
            *place = 0;
            *byte = 0;
            *size = edited.size as u64;
            *used = edited.used as u64;
            *standing = edited.standing as u64;
            0
        }
        Err(fault) => refuse(fault, place, byte),
    }
}

// The answer of a batch. What was done and the numbers left are written also where it was stopped.
pub fn tell_batched(
    b: Batched,
    size: &mut u64,
    used: &mut u64,
    standing: &mut u64,
    place: &mut u64,
    byte: &mut u64,
    done: &mut u64,
) -> u32
    ensures { (file journal : List ℕ) → CalledBatch (batch.batch_of b file journal) result place.new byte.new done.new
        size.new used.new standing.new file journal }
{
    *done = b.done as u64;
    *size = b.left.size as u64;
    *used = b.left.used as u64;
    *standing = b.left.standing as u64;
    match b.stopped {
        None => {
            *place = 0;
            *byte = 0;
            0
        }
        Some(f) => refuse(f, place, byte),
    }
}

// The answer of the call for a person.
pub fn tell_named(p: Result<u16, Fault>, place: &mut u64, byte: &mut u64, person: &mut u16) -> u32
    ensures { ReturnedNumber p result place.new byte.new person.old person.new }
{
    match p {
        Ok(number) => {
            *place = 0;
            *byte = 0;
            *person = number;
            0
        }
        Err(f) => refuse(f, place, byte),
    }
}
