// Many set and remove requests in one call.
#![tactic(auto)]

ghost use Rattle.std.specs.Prelude.{◌≡◌, true, Ok};
ghost use Rattle.base.specs.Choice.{there};
ghost use Rattle.requests.specs.Requests.{read_requests};
ghost use Rattle.journal.specs.Journal.{Person};
ghost use Rattle.edit.specs.Calls.{opened, lent};
ghost use Rattle.edit.specs.Step.{passed, Ready};
ghost use Rattle.batch.specs.Batch as spec;
ghost use Rattle.batch.specs.Step.{MadeOf};

use change::Operation;
use edit::Edited;
use fault::Fault;
use record::{Front, HEAD};
use requests::Request;

// What a batch did: how many requests were done, the numbers that they left, and the refusal at which it stopped, if it did.
#[derive(Clone, Copy)]
pub struct Batched {
    pub done: usize,
    pub left: Edited,
    pub stopped: Option<Fault>,
}

// The request in a record, where file and journal were opened before.
fn make(
    file: &mut [u8],
    size: usize,
    journal: &mut [u8],
    standing: usize,
    person: u16,
    kind: u16,
    body: &[u8],
) -> Result<Edited, Fault>
    requires { Ready file.old size standing }
    ensures { MadeOf kind body.now (Person person) file.old size journal.old standing result file.new journal.new }
{
    match requests::read(kind, body) {
        None => Err(Fault::Damaged),
        Some(Request::Remove { group, key }) => {
            edit::carry_out(
                file,
                size,
                journal,
                standing,
                person,
                Operation::Remove,
                group,
                key,
                b"",
            )
        }
        Some(Request::Set { group, key, text }) => {
            edit::carry_out(
                file,
                size,
                journal,
                standing,
                person,
                Operation::Set,
                group,
                key,
                text,
            )
        }
    }
}

// The requests of a sound list in turn, where file and journal were opened before, up to the first refused.
fn run(
    file: &mut [u8],
    size: usize,
    journal: &mut [u8],
    used: usize,
    standing: usize,
    person: u16,
    list: &[u8],
) -> Batched
    requires opens { Ok tt ≡ passed (opened (lent file.old size journal.old used standing)) }
    requires list_reads { there (read_requests list.now) ≡ true }
    ensures { spec.Made (spec.batch (lent file.old size journal.old used standing) (Person person) list.now) result file.new journal.new }
{
    let mut at: usize = 0;
    let mut done: usize = 0;
    let mut left = Edited {
        size,
        used,
        standing,
    };
    while at < list.len() {
        let Some(Front { kind, end }) = record::read(list, at) else {
            return Batched {
                done,
                left,
                stopped: Some(Fault::Damaged),
            };
        };
        let from = at + HEAD;
        let body = &list[from..end];
        match make(file, left.size, journal, left.standing, person, kind, body) {
            Err(fault) => {
                return Batched {
                    done,
                    left,
                    stopped: Some(fault),
                };
            }
            Ok(next) => {
                at = end;
                done += 1;
                left = next;
            }
        }
    }
    Batched {
        done,
        left,
        stopped: None,
    }
}

// A person's requests in a list of records, each done as the single call would do it, up to the first refused, whose refusal is told. What was
// done before it stands. Refusals with nothing done: 14 for the numbers, 1 to 6, 14 for the journal, 14 for the list.
pub fn batch(
    file: &mut [u8],
    size: usize,
    journal: &mut [u8],
    used: usize,
    standing: usize,
    person: u16,
    list: &[u8],
) -> Batched
    ensures { spec.Made (spec.batch (lent file.old size journal.old used standing) (Person person) list.now) result file.new journal.new }
{
    let left = Edited {
        size,
        used,
        standing,
    };
    match edit::check_lent(file, size, journal, used, standing) {
        Err(fault) => Batched {
            done: 0,
            left,
            stopped: Some(fault),
        },
        Ok(()) => {
            if requests::sound(list) {
                return run(file, size, journal, used, standing, person, list);
            }
            Batched {
                done: 0,
                left,
                stopped: Some(Fault::Damaged),
            }
        }
    }
}
