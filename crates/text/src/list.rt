// The elements of a value list, read as text and written as records.
ghost use Rattle.std.specs.Prelude.{◌≡◌, true, false, ◌+◌, ◌≤◌, length};
ghost use Rattle.base.specs.Over.{over, at_front};
ghost use Rattle.fault.specs.Answer.{accepted, then};
ghost use Rattle.record.specs.Record.{record_length, record_bytes, list_of};
ghost use Rattle.text.specs.Escape.{text_from};
ghost use Rattle.text.specs.Element.{elements_of};
ghost use Rattle.text.specs.Step as spec;

use crate::{Escapes, escape};
use fault::Fault;
use record::HEAD;

// The room left after a record whose body has n bytes.
#[tactic(auto, unfolding(crate::specs::Step::spend_record))]
fn spend_record(left: Option<usize>, n: usize) -> Option<usize>
    ensures { result ≡ spec.spend_record left n }
{
    if 0xfffffff9 < n {
        return None;
    }
    crate::spend(left, HEAD + n)
}

// The room that the elements' records leave, or where an escape is wrong.
pub fn room_after(raw: &[u8], room: usize) -> Result<Option<usize>, Fault>
    ensures { result ≡ then (spec.spend_all (Some room)) (elements_of raw.now) }
{
    let mut left = Some(room);
    let mut i: usize = 0;
    while i < raw.len() {
        let e = characters::classes::bare_end(raw, i, b';');
        let n = escape::length_from(&raw[i..e], Escapes::List, i)?;
        left = spend_record(left, n);
        i = e + 1;
    }
    Ok(left)
}

// The record of a raw value's text through the part of the output that starts at a place; the answer is where it ends.
pub fn put(raw: &[u8], k: Escapes, out: &mut [u8], at: usize) -> usize
    requires { (accepted (text_from k raw.now false 0) ≡ true) × (at + record_length (spec.text_of (text_from k raw.now false 0)) ≤ length out.old) }
    ensures { (result ≡ at + record_length (spec.text_of (text_from k raw.now false 0)))
        × (out.new ≡ over out.old at (record_bytes (record { kind = 2; body = spec.text_of (text_from k raw.now false 0) }))) }
{
    let from = at + HEAD;
    let n = escape::unescape(raw, k, &mut out[from..]);
    record::put_head(&mut out[at..], HEAD + n, 2);
    from + n
}

// The elements' records, one after another from the start of an output that has room for them.
pub fn write(raw: &[u8], out: &mut [u8]) -> usize
    requires { (accepted (elements_of raw.now) ≡ true) × (length (list_of 2 (spec.elements_in (elements_of raw.now))) ≤ length out.old) }
    ensures { (result ≡ length (list_of 2 (spec.elements_in (elements_of raw.now))))
        × (out.new ≡ at_front out.old (list_of 2 (spec.elements_in (elements_of raw.now)))) }
{
    let mut i: usize = 0;
    let mut at: usize = 0;
    while i < raw.len() {
        let e = characters::classes::bare_end(raw, i, b';');
        at = put(&raw[i..e], Escapes::List, out, at);
        i = e + 1;
    }
    at
}
