// A table of marks for names, in words of 64 bits: a name without its mark was surely not marked.
#![tactic(auto)]

ghost use Rattle.std.specs.Prelude.{◌≡◌, ◌&&◌, ◌+◌, ◌-◌, ◌%◌, ◌≤◌, ◌<◌, length, get_or};
ghost use Rattle.marks.specs.Marks as spec;

// The four bytes at a place, as a number.
fn four(x: &[u8], i: usize) -> u64
    requires { i + 4 ≤ length x.now }
    ensures { (result ≡ spec.word_at x.now i) × (result < 4294967296) }
{
    u64::from(x[i])
        + 256 * (u64::from(x[i + 1]) + 256 * (u64::from(x[i + 2]) + 256 * u64::from(x[i + 3])))
}

// The byte at a place, 0 past the end.
fn byte(x: &[u8], i: usize) -> u64
    ensures { (result ≡ get_or x.now i 0) × (result < 256) }
{
    x.get(i).map_or(0, |b| u64::from(*b))
}

// The last four bytes, or all where there are fewer.
fn last(x: &[u8]) -> u64
    ensures { (result ≡ spec.word_at x.now (length x.now - 4)) × (result < 4294967296) }
{
    if 4 <= x.len() {
        return four(x, x.len() - 4);
    }
    byte(x, 0) + 256 * (byte(x, 1) + 256 * (byte(x, 2) + 256 * byte(x, 3)))
}

// A hash and four bytes more.
fn hash_word(h: u64, w: u64) -> u64
    requires { w < 4294967296 }
    ensures { result ≡ spec.hash_word h w }
{
    (h % 4294967296 + w) % 4294967296 * 2654435769 ^ h / 4294967296
}

// The hash of a name: every byte enters.
fn hash(x: &[u8]) -> u64
    ensures { result ≡ spec.name_hash x.now }
{
    let mut h: u64 = 2166136261;
    let mut rest = x;
    while let [_, _, _, _, tail @ ..] = rest {
        h = hash_word(h, four(rest, 0));
        rest = tail;
    }
    hash_word(h, last(x))
}

// A hash mixed with the number of a group.
fn numbered(tag: u64, h: u64) -> u64
    ensures { result ≡ spec.hash_step 2246822519 h (tag % 65536) }
{
    (h % 4294967296 + tag % 65536) % 4294967296 * 2246822519 ^ h / 4294967296
}

// A second hash, from the first.
fn rehash(h: u64) -> u64
    ensures { result ≡ spec.rehash h }
{
    (h / 4294967296 + h % 4294967296) % 4294967296 * 3266489917
}

fn word(n: usize, h: u64) -> usize
    requires { 0 < n }
    ensures { (result ≡ spec.word_of n h) × (result < n) }
{
    (h / 281474976710656) as usize & n - 1
}

fn bits(h: u64) -> u64
    ensures { result ≡ spec.bits_of h }
{
    1 << h / 4398046511104 % 64 | 1 << h / 68719476736 % 64 | 1 << h / 1073741824 % 64
}

// Whether the bits of a hash are set.
fn has(marks: &[u64], h: u64) -> bool
    requires { 0 < length marks.now }
    ensures { result ≡ spec.has_bits marks.now h }
{
    let i = word(marks.len(), h);
    let b = bits(h);
    marks[i] & b == b
}

// Sets the bits of a hash.
fn set(marks: &mut [u64], h: u64)
    requires { 0 < length marks.old }
    ensures { marks.new ≡ spec.with_bits marks.old h }
{
    let i = word(marks.len(), h);
    let b = bits(h);
    marks[i] = marks[i] | b;
}

// Whether the bits of both hashes are set.
fn both(marks: &[u64], h: u64, g: u64) -> bool
    requires { 0 < length marks.now }
    ensures { result ≡ (spec.has_bits marks.now h && spec.has_bits marks.now g) }
{
    has(marks, h) && has(marks, g)
}

// Marks a name under a number, and tells whether its mark was there before.
pub fn mark(marks: &mut [u64], tag: u64, x: &[u8]) -> bool
    requires { 0 < length marks.old }
    ensures { (result ≡ spec.marked marks.old tag x.now) × (marks.new ≡ spec.with_mark marks.old tag x.now) }
{
    let h = numbered(tag, hash(x));
    let g = rehash(h);
    let there = both(marks, h, g);
    set(marks, h);
    set(marks, g);
    there
}
