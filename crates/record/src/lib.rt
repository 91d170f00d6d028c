// Records in lent bytes, of any kind: read, counted, found and written.
#![tactic(auto)]

ghost use Rattle.std.specs.Prelude.{◌≡◌, true, ◌+◌, ◌≤◌, ◌<◌, ◌^◌, length, take, drop};
ghost use Rattle.base.specs.Choice.{there};
ghost use Rattle.base.specs.Over.{over, at_front};
ghost use Rattle.record.specs.Number.{little_endian, number_in};
ghost use Rattle.record.specs.Record.{cut, record_length, head_bytes, record_bytes};
ghost use Rattle.record.specs.Walk.{front_at, count_of, nth_of};

// The bytes before a record's own: its length and its kind.
pub const HEAD: usize = 6;

// What stands at a place: a whole record's kind and its end.
#[derive(Clone, Copy)]
pub struct Front {
    pub kind: u16,
    pub end: usize,
}

// Where a record's body stands.
#[derive(Clone, Copy)]
pub struct Bounds {
    pub from: usize,
    pub to: usize,
}

// The number in the N bytes at a place.
pub fn number<const N: usize>(s: &[u8], at: usize) -> usize
    requires { (at + N ≤ length s.now) × (N ≤ 4) }
    ensures { (result ≡ number_in (take N (drop at s.now))) × (result < 256 ^ N) }
{
    let mut n: usize = 0;
    for i in (0..N).rev() {
        n = usize::from(s[at + i]) + 256 * n;
    }
    n
}

// The record that begins at a place, if a whole one stands there.
pub fn read(s: &[u8], at: usize) -> Option<Front>
    ensures { result ≡ front_at s.now at }
{
    if s.len() < at {
        return None;
    }
    if s.len() - at < HEAD {
        return None;
    }
    let size = number::<4>(s, at);
    if size < HEAD {
        return None;
    }
    if s.len() - at < size {
        return None;
    }
    let kind = number::<2>(s, at + 4) as u16;
    let end = at + size;
    Some(Front { kind, end })
}

// How many records of a kind fill a list of at most so many bytes; none: it is damaged.
pub fn count(s: &[u8], kind: u16, most: usize) -> Option<usize>
    ensures { result ≡ count_of kind most s.now }
{
    if most < s.len() {
        return None;
    }
    let mut at: usize = 0;
    let mut n: usize = 0;
    while at < s.len() {
        let front = read(s, at)?;
        if front.kind != kind {
            return None;
        }
        at = front.end;
        n += 1;
    }
    Some(n)
}

// Where the n-th body of a list that is filled by records stands, counted from 0.
pub fn nth(s: &[u8], n: usize) -> Option<Bounds>
    requires { there (cut s.now) ≡ true }
    ensures { result ≡ nth_of s.now n }
{
    let mut at: usize = 0;
    let mut left = n;
    while at < s.len() {
        let front = read(s, at)?;
        if left == 0 {
            return Some(Bounds {
                from: at + HEAD,
                to: front.end,
            });
        }
        at = front.end;
        left -= 1;
    }
    None
}

// A number in the N bytes at the start of a part.
pub fn put_number<const N: usize>(out: &mut [u8], n: usize)
    requires { N ≤ length out.old }
    ensures { out.new ≡ at_front out.old (little_endian N n) }
{
    let mut rest = n;
    for i in 0..N {
        out[i] = (rest % 256) as u8;
        rest /= 256;
    }
}

// The length and the kind at the start of a part.
pub fn put_head(out: &mut [u8], size: usize, kind: u16)
    requires { 6 ≤ length out.old }
    ensures { out.new ≡ at_front out.old (head_bytes size kind) }
{
    put_number::<4>(out, size);
    put_number::<2>(&mut out[4..], usize::from(kind));
}

// A record through the part of an output that starts at a place; the answer is where it ends.
pub fn put(out: &mut [u8], at: usize, kind: u16, body: &[u8]) -> usize
    requires { at + record_length body.now ≤ length out.old }
    ensures { (result ≡ at + record_length body.now)
        × (out.new ≡ over out.old at (record_bytes (record { kind = kind; body = body.now }))) }
{
    put_head(&mut out[at..], HEAD + body.len(), kind);
    let from = at + HEAD;
    base::copy(body, &mut out[from..]);
    from + body.len()
}
