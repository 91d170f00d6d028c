// The calls that edit, the one that tells who edited, and the one that forgets. The numbers go in and come out; a refusal leaves them and every lent byte,
// but that of a batch, which leaves what was done before it.
ghost use Rattle.change.specs.Change.{Set, Remove};
ghost use Rattle.journal.specs.Journal.{Person, by};
ghost use Rattle.journal.specs.Lent as alone;
ghost use Rattle.edit.specs.Calls.{request, undo, redo, lent};
ghost use Rattle.batch.specs.Batch as batch;
ghost use Rattle.abi.specs.Abi.{ReturnedNumber, Called, CalledBatch, CalledOnJournal};

#[unsafe(no_mangle)]
pub extern "C" fn kveldrim_set(
    file: &mut [u8],
    size: &mut u64,
    journal: &mut [u8],
    used: &mut u64,
    standing: &mut u64,
    person: u16,
    group: &[u8],
    key: &[u8],
    text: &[u8],
    place: &mut u64,
    byte: &mut u64,
) -> u32
    ensures { Called (lent file.old size.old journal.old used.old standing.old)
        (request (lent file.old size.old journal.old used.old standing.old) (by (Person person) (Set group.now key.now text.now)))
        result place.new byte.new size.new used.new standing.new file.new journal.new }
{
    let length = *size as usize;
    let u = *used as usize;
    let n = *standing as usize;
    let e = edit::set(file, length, journal, u, n, person, group, key, text);
    abi::tell_edited(e, size, used, standing, place, byte)
}

#[unsafe(no_mangle)]
pub extern "C" fn kveldrim_remove(
    file: &mut [u8],
    size: &mut u64,
    journal: &mut [u8],
    used: &mut u64,
    standing: &mut u64,
    person: u16,
    group: &[u8],
    key: &[u8],
    place: &mut u64,
    byte: &mut u64,
) -> u32
    ensures { Called (lent file.old size.old journal.old used.old standing.old)
        (request (lent file.old size.old journal.old used.old standing.old) (by (Person person) (Remove group.now key.now)))
        result place.new byte.new size.new used.new standing.new file.new journal.new }
{
    let length = *size as usize;
    let u = *used as usize;
    let n = *standing as usize;
    let e = edit::remove(file, length, journal, u, n, person, group, key);
    abi::tell_edited(e, size, used, standing, place, byte)
}

#[unsafe(no_mangle)]
pub extern "C" fn kveldrim_undo(
    file: &mut [u8],
    size: &mut u64,
    journal: &mut [u8],
    used: &mut u64,
    standing: &mut u64,
    place: &mut u64,
    byte: &mut u64,
) -> u32
    ensures { Called (lent file.old size.old journal.old used.old standing.old)
        (undo (lent file.old size.old journal.old used.old standing.old))
        result place.new byte.new size.new used.new standing.new file.new journal.new }
{
    let length = *size as usize;
    let u = *used as usize;
    let n = *standing as usize;
    let e = edit::undo(file, length, journal, u, n);
    abi::tell_edited(e, size, used, standing, place, byte)
}

#[unsafe(no_mangle)]
pub extern "C" fn kveldrim_redo(
    file: &mut [u8],
    size: &mut u64,
    journal: &mut [u8],
    used: &mut u64,
    standing: &mut u64,
    place: &mut u64,
    byte: &mut u64,
) -> u32
    ensures { Called (lent file.old size.old journal.old used.old standing.old)
        (redo (lent file.old size.old journal.old used.old standing.old))
        result place.new byte.new size.new used.new standing.new file.new journal.new }
{
    let length = *size as usize;
    let u = *used as usize;
    let n = *standing as usize;
    let e = edit::redo(file, length, journal, u, n);
    abi::tell_edited(e, size, used, standing, place, byte)
}

#[unsafe(no_mangle)]
pub extern "C" fn kveldrim_batch(
    file: &mut [u8],
    size: &mut u64,
    journal: &mut [u8],
    used: &mut u64,
    standing: &mut u64,
    person: u16,
    requests: &[u8],
    place: &mut u64,
    byte: &mut u64,
    done: &mut u64,
) -> u32
    ensures { CalledBatch (batch.batch (lent file.old size.old journal.old used.old standing.old) (Person person) requests.now)
        result place.new byte.new done.new size.new used.new standing.new file.new journal.new }
{
    let length = *size as usize;
    let u = *used as usize;
    let n = *standing as usize;
    let b = batch::batch(file, length, journal, u, n, person, requests);
    abi::tell_batched(b, size, used, standing, place, byte, done)
}

#[unsafe(no_mangle)]
pub extern "C" fn kveldrim_person(
    journal: &[u8],
    used: u64,
    standing: u64,
    n: u64,
    place: &mut u64,
    person: &mut u16,
) -> u32
    ensures { ReturnedNumber (alone.person (alone.lent journal.now used standing) n) result place.new 0 person.old person.new }
{
    let u = used as usize;
    let s = standing as usize;
    let i = n as usize;
    let mut byte = 0;
    abi::tell_named(journal::person(journal, u, s, i), place, &mut byte, person)
}

#[unsafe(no_mangle)]
pub extern "C" fn kveldrim_forget(
    journal: &mut [u8],
    used: &mut u64,
    standing: &mut u64,
    k: u64,
    place: &mut u64,
) -> u32
    ensures { CalledOnJournal (alone.lent journal.old used.old standing.old)
        (alone.forget (alone.lent journal.old used.old standing.old) k)
        result place.new (alone.lent journal.new used.new standing.new) }
{
    let u = *used as usize;
    let n = *standing as usize;
    let oldest = k as usize;
    match journal::forget(journal, u, n, oldest) {
        Ok(left) => {
            *place = 0;
            *used = left.used as u64;
            *standing = left.standing as u64;
            0
        }
        Err(f) => {
            let mut byte = 0;
            abi::refuse(f, place, &mut byte)
        }
    }
}
