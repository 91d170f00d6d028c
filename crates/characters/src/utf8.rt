// UTF-8 (RFC 3629), a character at a time.
ghost use Rattle.std.specs.Prelude.{◌≡◌, true, ◌+◌, ◌<◌, ◌≤◌, length, drop, Some, None};
ghost use Rattle.characters.specs.Class.{value_byte, content_byte};
ghost use Rattle.characters.specs.Utf8 as spec;
ghost use Rattle.characters.specs.Step.{rest_at, character_at};
ghost use Rattle.characters.specs.Window.{due_after, goes_on, begins_one, followed, FollowedTo, SoundFrom};

use crate::{Content, Due, classes};

// A character that was begun.
fn tail(more: u8, low: u8, high: u8) -> Option<Due>
    ensures { result ≡ Some (Due.Tail more low high) }
{
    Some(Due::Tail { more, low, high })
}

// What a first byte over 0x7F asks for, if it begins a character.
fn lead(b: u8) -> Option<Due>
    ensures { result ≡ spec.lead b }
{
    if classes::within(0xc2, 0xdf, b) {
        return tail(0, 0x80, 0xbf);
    }
    if b == 0xe0 {
        return tail(1, 0xa0, 0xbf);
    }
    if b == 0xed {
        return tail(1, 0x80, 0x9f);
    }
    if classes::within(0xe1, 0xef, b) {
        return tail(1, 0x80, 0xbf);
    }
    if b == 0xf0 {
        return tail(2, 0x90, 0xbf);
    }
    if classes::within(0xf1, 0xf3, b) {
        return tail(2, 0x80, 0xbf);
    }
    if b == 0xf4 {
        return tail(2, 0x80, 0x8f);
    }
    None
}

// Whether an ASCII byte may stand.
fn may_stand(k: Content, b: u8) -> bool
    ensures { result ≡ content_byte k b }
{
    match k {
        Content::Value => classes::is_value(b),
        Content::Text => classes::is_text(b),
    }
}

// The rest of a character that was begun: where it ends, or else where it does not go on.
fn rest(s: &[u8], from: usize, more: u8, low: u8, high: u8) -> Result<usize, usize>
    ensures { result ≡ rest_at s.now from more low high }
{
    let mut i = from;
    let mut m = more;
    let mut lo = low;
    let mut hi = high;
    while i < s.len() {
        if classes::within(lo, hi, s[i]) {
            if m == 0 {
                return Ok(i + 1);
            }
            m -= 1;
            lo = 0x80;
            hi = 0xbf;
            i += 1;
        } else {
            return Err(i);
        }
    }
    Err(i)
}

// The last byte of a character.
fn last_byte(s: &[u8], i: usize, low: u8, high: u8) -> Result<usize, usize>
    ensures { result ≡ rest_at s.now i 0 low high }
{
    if i < s.len() {
        if classes::within(low, high, s[i]) {
            return Ok(i + 1);
        }
    }
    Err(i)
}

// The last two bytes of a character.
fn last_two(s: &[u8], i: usize, low: u8, high: u8) -> Result<usize, usize>
    ensures { result ≡ rest_at s.now i 1 low high }
{
    if i < s.len() {
        if classes::within(low, high, s[i]) {
            return last_byte(s, i + 1, 0x80, 0xbf);
        }
    }
    Err(i)
}

// The character that begins with a byte over 0x7F. Nearly all have two or three bytes: these come first, with what they ask for known to the compiler.
fn character(s: &[u8], i: usize) -> Result<usize, usize>
    requires { i < length s.now }
    ensures { result ≡ character_at s.now i }
{
    let b = s[i];
    if classes::within(0xc2, 0xdf, b) {
        return last_byte(s, i + 1, 0x80, 0xbf);
    }
    if b == 0xe0 {
        return last_two(s, i + 1, 0xa0, 0xbf);
    }
    if classes::within(0xe1, 0xec, b) {
        return last_two(s, i + 1, 0x80, 0xbf);
    }
    match lead(b) {
        None => Err(i),
        Some(Due::Start) => Ok(i + 1),
        Some(Due::Tail { more, low, high }) => rest(s, i + 1, more, low, high),
    }
}

// Whether the three bytes before a byte ask for a further byte of their character.
fn is_due(r: u8, q: u8, p: u8) -> bool
    ensures { result ≡ due_after r q p }
{
    (p >= 0xc2) | (q >= 0xe0) | (r >= 0xf0)
}

// Whether a byte goes on with a character that a byte began.
fn goes_on(p: u8, b: u8) -> bool
    ensures { result ≡ goes_on p b }
{
    (b >= 0x80)
        & (b <= 0xbf)
        & !((p == 0xe0) & (b < 0xa0))
        & !((p == 0xed) & (b > 0x9f))
        & !((p == 0xf0) & (b < 0x90))
        & !((p == 0xf4) & (b > 0x8f))
}

// Whether a byte begins a character of a value.
fn begins(b: u8) -> bool
    ensures { result ≡ begins_one b }
{
    (b >= 0x20) & (b != 0x7f) & ((b < 0x80) | (b >= 0xc2)) & (b <= 0xf4)
}

// Whether a byte may follow the three before it. There is no branch in it, so that sixteen bytes are asked at once.
fn follows(r: u8, q: u8, p: u8, b: u8) -> bool
    ensures { result ≡ followed r q p b }
{
    let due = is_due(r, q, p);
    (due & goes_on(p, b)) | (!due & begins(b))
}
// Whether each of sixteen bytes, behind the three at a place, may follow those before it.
fn sound_16(s: &[u8], i: usize) -> bool
    requires { i + 19 ≤ length s.now }
    ensures { result ≡ true → FollowedTo s.now i (i + 16) }
{
    let mut sound = true;
    let mut j: usize = 0;
    while j < 16 {
        let k = i + j;
        sound = sound & follows(s[k], s[k + 1], s[k + 2], s[k + 3]);
        j += 1;
    }
    sound
}

// Whether all bytes behind the three at a place may follow, and no character is left unfinished. The last sixteen may be asked twice.
fn sound_rest(s: &[u8], at: usize) -> bool
    requires { at + 19 ≤ length s.now }
    ensures { result ≡ true → SoundFrom s.now at }
{
    let mut k = at;
    while 19 <= s.len() - k {
        if sound_16(s, k) {
            k += 16;
        } else {
            return false;
        }
    }
    if sound_16(s, s.len() - 19) {
        return !is_due(s[s.len() - 3], s[s.len() - 2], s[s.len() - 1]);
    }
    false
}

// Whether the bytes from a place on surely are a value's text, by the three bytes before each. It promises nothing where it says no.
fn sound_from(s: &[u8], k: usize) -> bool
    requires { k ≤ length s.now }
    ensures { result ≡ true → spec.text_fault value_byte Due.Start (drop k s.now) ≡ None }
{
    if s.len() < 19 {
        return false;
    }
    if k < 3 {
        return false;
    }
    if is_due(s[k - 3], s[k - 2], s[k - 1]) {
        return false;
    }
    if s.len() - k < 16 {
        return sound_rest(s, s.len() - 19);
    }
    sound_rest(s, k - 3)
}

// The same with ASCII bytes passed first: the fast way through all but short lines.
fn is_surely_value(s: &[u8], from: usize) -> bool
    requires { from ≤ length s.now }
    ensures { result ≡ true → spec.text_fault value_byte Due.Start (drop from s.now) ≡ None }
{
    let mut k = from;
    while 16 <= s.len() - k {
        if classes::plain_16(s, k) {
            k += 16;
        } else {
            return sound_from(s, k);
        }
    }
    if 16 <= s.len() {
        if classes::plain_16(s, s.len() - 16) {
            return true;
        }
    }
    sound_from(s, k)
}

// The first byte after which no ending makes a text, or the length where the text is only unfinished; none where it is a text.
pub fn scan(s: &[u8], k: Content) -> Option<usize>
    ensures { result ≡ spec.text_fault (content_byte k) Due.Start s.now }
{
    let mut i = classes::plain_end(s, 0);
    while i < s.len() {
        if classes::is_value(s[i]) {
            i += 1;
        } else {
            if s[i] < 0x80 {
                if may_stand(k, s[i]) {
                    i += 1;
                } else {
                    return Some(i);
                }
            } else {
                match character(s, i) {
                    Ok(end) => i = end,
                    Err(fault) => return Some(fault),
                }
            }
        }
    }
    None
}

// The same of a value that begins at a place and ends with the bytes; the fault counts from the place.
pub fn scan_value(s: &[u8], from: usize) -> Option<usize>
    ensures { result ≡ spec.text_fault value_byte Due.Start (drop from s.now) }
{
    if s.len() <= from {
        return None;
    }
    if is_surely_value(s, from) {
        return None;
    }
    scan(&s[from..], Content::Value)
}
