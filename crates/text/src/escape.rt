// Escapes: text from raw bytes and raw bytes from text.
ghost use Rattle.std.specs.Prelude.{◌≡◌, true, false, ◌+◌, ◌^◌, ◌≤◌, ◌<◌, length, drop, get_or, eqb};
ghost use Rattle.base.specs.Over.{at_front};
ghost use Rattle.fault.specs.Answer.{accepted, then};
ghost use Rattle.text.specs.Escape as spec;
ghost use Rattle.text.specs.Step.{decoded_of, text_of, letter_of};

use crate::{Decoded, Escapes};
use fault::Fault;

// The byte that a backslash with this one stands for in text.
#[tactic(auto, unfolding(crate::specs::Escape::text_escape))]
fn text_pair(c: u8) -> Option<u8>
    ensures { result ≡ spec.text_escape c }
{
    match c {
        b's' => Some(b' '),
        b'n' => Some(b'\n'),
        b't' => Some(b'\t'),
        b'r' => Some(b'\r'),
        b'\\' => Some(b'\\'),
        _ => None,
    }
}

// The same where the escapes of text or of a list are known.
#[tactic(auto, unfolding(crate::specs::Escape::escape))]
fn pair(k: Escapes, c: u8) -> Option<u8>
    ensures { result ≡ spec.escape k c }
{
    match (k, c) {
        (Escapes::List, b';') => Some(b';'),
        _ => text_pair(c),
    }
}

// The byte of the text that begins at a place.
#[tactic(auto, unfolding(crate::specs::Step::decoded_of, crate::specs::Step::decoded_after))]
fn decode(raw: &[u8], i: usize, k: Escapes) -> Option<Decoded>
    requires { i < length raw.now }
    ensures { result ≡ decoded_of k (drop i raw.now) }
{
    let b = raw[i];
    if b != b'\\' {
        return Some(Decoded { byte: b, width: 1 });
    }
    let c = *raw.get(i + 1)?;
    let byte = pair(k, c)?;
    Some(Decoded { byte, width: 2 })
}

// How long the text of raw bytes is, or where its escape is wrong; the first byte stands at a place.
pub(crate) fn length_from(raw: &[u8], k: Escapes, place: usize) -> Result<usize, Fault>
    requires { place + length raw.now < 2 ^ 64 }
    ensures { result ≡ then length (spec.text_from k raw.now false place) }
{
    let mut i: usize = 0;
    let mut n: usize = 0;
    while i < raw.len() {
        let Some(Decoded { width, .. }) = decode(raw, i, k) else {
            return Err(Fault::BadEscape { at: place + i });
        };
        i += width;
        n += 1;
    }
    Ok(n)
}

// The same where places count from the first byte.
pub fn text_length(raw: &[u8], k: Escapes) -> Result<usize, Fault>
    ensures { result ≡ then length (spec.text_from k raw.now false 0) }
{
    length_from(raw, k, 0)
}

// The text of raw bytes at the start of an output that has room for it.
pub(crate) fn unescape(raw: &[u8], k: Escapes, out: &mut [u8]) -> usize
    requires { (accepted (spec.text_from k raw.now false 0) ≡ true) × (length (text_of (spec.text_from k raw.now false 0)) ≤ length out.old) }
    ensures { (result ≡ length (text_of (spec.text_from k raw.now false 0)))
        × (out.new ≡ at_front out.old (text_of (spec.text_from k raw.now false 0))) }
{
    let mut i: usize = 0;
    let mut n: usize = 0;
    while i < raw.len() {
        let Some(Decoded { byte, width }) = decode(raw, i, k) else {
            return n;
        };
        out[n] = byte;
        i += width;
        n += 1;
    }
    n
}

// The letter that stands after a backslash for a byte, unless the byte stands for itself.
#[tactic(auto, unfolding(crate::specs::Step::letter))]
fn letter(b: u8) -> Option<u8>
    ensures { result ≡ letter_of false b }
{
    match b {
        b'\\' => Some(b'\\'),
        b'\n' => Some(b'n'),
        b'\t' => Some(b't'),
        b'\r' => Some(b'r'),
        _ => None,
    }
}

// The same of the first byte, where a space has a letter too.
fn first_letter(b: u8) -> Option<u8>
    ensures { result ≡ letter_of true b }
{
    if b == b' ' {
        return Some(b's');
    }
    letter(b)
}

// The same of the byte at a place.
fn letter_at(text: &[u8], i: usize) -> Option<u8>
    requires { i < length text.now }
    ensures { result ≡ letter_of (eqb i 0) (get_or text.now i 0) }
{
    if i == 0 {
        first_letter(text[i])
    } else {
        letter(text[i])
    }
}

// How long the raw value of a text is.
pub fn raw_length(text: &[u8]) -> usize
    ensures { result ≡ length (spec.raw_text text.now) }
{
    let mut i: usize = 0;
    let mut n: usize = 0;
    while i < text.len() {
        n += if letter_at(text, i).is_some() { 2 } else { 1 };
        i += 1;
    }
    n
}

// The raw value of a text at the start of an output that has room for it.
pub fn write_raw(text: &[u8], out: &mut [u8]) -> usize
    requires { length (spec.raw_text text.now) ≤ length out.old }
    ensures { (result ≡ length (spec.raw_text text.now)) × (out.new ≡ at_front out.old (spec.raw_text text.now)) }
{
    let mut i: usize = 0;
    let mut n: usize = 0;
    while i < text.len() {
        match letter_at(text, i) {
            None => {
                out[n] = text[i];
                n += 1;
            }
            Some(c) => {
                out[n] = b'\\';
                out[n + 1] = c;
                n += 2;
            }
        }
        i += 1;
    }
    n
}
