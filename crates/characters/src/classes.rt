// Classes of bytes, by comparisons.
ghost use Rattle.std.specs.Prelude.{◌≡◌, ℕ, Bool, false, ◌+◌, ◌<◌, ◌≤◌, length, take, drop};
ghost use Rattle.base.specs.Lists.{all, span};
ghost use Rattle.characters.specs.Class as spec;
ghost use Rattle.characters.specs.Bare.{bare_length};

use crate::Class;

// From low to high, both included.
pub(crate) fn within(low: u8, high: u8, b: u8) -> bool
    ensures { result ≡ spec.within low high b }
{
    low <= b && b <= high
}

fn is_key(b: u8) -> bool
    ensures { result ≡ spec.key_byte b }
{
    // 0x20 parts a small letter from its capital. The parentheses keep the test of letters first, since most bytes are letters.
    within(b'a', b'z', b | 0x20) || (within(b'0', b'9', b) || b == b'-')
}

#[tactic(auto, unfolding(crate::specs::Class::group_byte))]
fn is_group(b: u8) -> bool
    ensures { result ≡ spec.group_byte b }
{
    within(0x20, 0x7e, b) && b != b'[' && b != b']'
}

#[tactic(auto, unfolding(crate::specs::Class::blank_byte))]
fn is_blank(b: u8) -> bool
    ensures { result ≡ spec.blank_byte b }
{
    b == b' ' || b == b'\t'
}

pub(crate) fn is_value(b: u8) -> bool
    ensures { result ≡ spec.value_byte b }
{
    within(0x20, 0x7e, b)
}

#[tactic(auto, unfolding(crate::specs::Class::text_byte))]
pub(crate) fn is_text(b: u8) -> bool
    ensures { result ≡ spec.text_byte b }
{
    is_value(b) || matches!(b, b'\n' | b'\t' | b'\r')
}

// Whether a byte is of a class.
pub fn is_in(k: Class, b: u8) -> bool
    ensures { result ≡ spec.member k b }
{
    match k {
        Class::Key => is_key(b),
        Class::Group => is_group(b),
        Class::Space => b == b' ',
        Class::Blank => is_blank(b),
    }
}

// Past the bytes from a place on that pass a test. Each test has a loop of its own.
pub fn past<F: Fn(u8) -> bool>(s: &[u8], from: usize, test: F) -> usize
    requires { F.IsAlwaysCallable test }
    ensures { (p : ℕ → Bool) → ((b : ℕ) (r : Bool) → b < 256 → F.post test b r → r ≡ p b) → result ≡ from + span p (drop from s.now) }
{
    let mut i = from;
    while i < s.len() && test(s[i]) {
        i += 1;
    }
    i
}

// Past the bytes of a class that stand from a place on.
pub fn span_end(s: &[u8], from: usize, k: Class) -> usize
    ensures { result ≡ from + span (spec.member k) (drop from s.now) }
{
    match k {
        Class::Key => past(s, from, |b| is_key(b)),
        Class::Space => past(s, from, |b| b == b' '),
        Class::Group => past(s, from, |b| is_group(b)),
        Class::Blank => past(s, from, |b| is_blank(b)),
    }
}

// Whether sixteen bytes are all from 0x20 to 0x7E. The loop has no way out, so that it becomes one comparison of sixteen bytes.
pub(crate) fn plain_16(s: &[u8], i: usize) -> bool
    requires { i + 16 ≤ length s.now }
    ensures { result ≡ all spec.value_byte (take 16 (drop i s.now)) }
{
    let mut plain = true;
    for b in &s[i..i + 16] {
        plain &= is_value(*b);
    }
    plain
}

// Past the bytes from 0x20 to 0x7E that stand from a place on, one by one.
fn value_end(s: &[u8], from: usize) -> usize
    ensures { result ≡ from + span spec.value_byte (drop from s.now) }
{
    past(s, from, |b| is_value(b))
}

// The same where fewer than sixteen bytes are left: the last sixteen are looked at once more, if there are so many.
fn short_end(s: &[u8], from: usize) -> usize
    requires { (from ≤ length s.now) × (length s.now ≤ from + 16) }
    ensures { result ≡ from + span spec.value_byte (drop from s.now) }
{
    if 16 <= s.len() {
        if plain_16(s, s.len() - 16) {
            return s.len();
        }
    }
    value_end(s, from)
}

// The same, sixteen at a time where there are so many.
pub(crate) fn plain_end(s: &[u8], from: usize) -> usize
    ensures { result ≡ from + span spec.value_byte (drop from s.now) }
{
    let mut i = from;
    while i < s.len() {
        if s.len() - i < 16 {
            return short_end(s, i);
        }
        if plain_16(s, i) {
            i += 16;
        } else {
            return value_end(s, i);
        }
    }
    i
}

// Where the next bare byte of this value stands, from a place on, or the end: a backslash takes the next byte with it.
pub fn bare_end(s: &[u8], from: usize, stop: u8) -> usize
    ensures { result ≡ from + bare_length stop (drop from s.now) false }
{
    let mut i = from;
    let mut taken = false;
    while i < s.len() {
        if taken {
            taken = false;
            i += 1;
        } else {
            if s[i] == stop {
                return i;
            }
            taken = s[i] == b'\\';
            i += 1;
        }
    }
    i
}
