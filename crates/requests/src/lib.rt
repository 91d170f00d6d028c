// Requests in lent records: their fields, and whether a list is filled by them.
#![tactic(auto)]

ghost use Rattle.std.specs.Prelude.{◌≡◌, ◌≤◌, length, option_map};
ghost use Rattle.base.specs.Choice.{there};
ghost use Rattle.requests.specs.Requests.{read_request, read_requests};
ghost use Rattle.requests.specs.Places.{Ends, asked_of};

use record::{Front, HEAD};

// What a record asks for: parts of its body.
#[derive(Clone, Copy)]
pub enum Request<'a> {
    Set {
        group: &'a [u8],
        key: &'a [u8],
        text: &'a [u8],
    },
    Remove {
        group: &'a [u8],
        key: &'a [u8],
    },
}

// Where the field at a place ends; none: it is not whole.
fn field_end(body: &[u8], at: usize) -> Option<usize>
    requires { at ≤ length body.now }
    ensures { Ends body.now at result }
{
    let left = body.len() - at;
    if left < 4 {
        return None;
    }
    let size = record::number::<4>(body, at);
    if left - 4 < size {
        return None;
    }
    Some(at + (4 + size))
}

// What a record of kind 5, with a text, or of kind 6, without, asks for: its fields, each behind four bytes of its length, fill the body.
pub fn read<'a>(kind: u16, body: &'a [u8]) -> Option<Request<'a>>
    ensures { option_map asked_of result ≡ read_request (record { kind = kind; body = body.now }) }
{
    let group_end = field_end(body, 0)?;
    let key_end = field_end(body, group_end)?;
    let group = &body[4..group_end];
    let key = &body[group_end + 4..key_end];
    if kind == 6 {
        if key_end < body.len() {
            return None;
        }
        return Some(Request::Remove { group, key });
    }
    if kind != 5 {
        return None;
    }
    let text_end = field_end(body, key_end)?;
    if text_end < body.len() {
        return None;
    }
    let text = &body[key_end + 4..text_end];
    Some(Request::Set { group, key, text })
}

// Whether a record is a request.
fn is_request(kind: u16, body: &[u8]) -> bool
    ensures { result ≡ there (read_request (record { kind = kind; body = body.now })) }
{
    read(kind, body).is_some()
}

// Whether requests fill a list, which is not too long.
pub fn sound(list: &[u8]) -> bool
    ensures { result ≡ there (read_requests list.now) }
{
    if base::LIST_MOST < list.len() {
        return false;
    }
    let mut at: usize = 0;
    while at < list.len() {
        let Some(Front { kind, end }) = record::read(list, at) else {
            return false;
        };
        let from = at + HEAD;
        if is_request(kind, &list[from..end]) {
            at = end;
        } else {
            return false;
        }
    }
    true
}
