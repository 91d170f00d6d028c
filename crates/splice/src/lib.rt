// Edits of lent bytes, in place.
#![tactic(auto)]

ghost use Rattle.std.specs.Prelude.{◌≡◌, ◌+◌, ◌-◌, ◌≤◌, length, take, drop, replicate};
ghost use Rattle.base.specs.Over.{over, WroteAt};
ghost use Rattle.splice.specs.Edit.{replaced, stands_at, buffer_with};

// Whether these bytes stand at a place, all inside the file. Their length is asked first, by a test that a must-fail edit turns.
pub fn stands(file: &[u8], place: usize, old: &[u8]) -> bool
    ensures { result ≡ stands_at place old.now file.now }
{
    if file.len() < place {
        return false;
    }
    if file.len() - place < old.len() {
        return false;
    }
    file[place..].starts_with(old)
}

// Bytes written from a place on; the answer is where they end.
pub fn write(buffer: &mut [u8], place: usize, new: &[u8]) -> usize
    requires { place + length new.now ≤ length buffer.old }
    ensures { WroteAt buffer.old place new.now result buffer.new }
{
    base::copy(new, &mut buffer[place..]);
    place + new.len()
}

// The n bytes from a place on, moved to another; nothing moves where both are one.
fn shift(buffer: &mut [u8], from: usize, to: usize, n: usize)
    requires { (from + n ≤ length buffer.old) × (to + n ≤ length buffer.old) }
    ensures { buffer.new ≡ over buffer.old to (take n (drop from buffer.old)) }
{
    if from != to {
        buffer.copy_within(from..from + n, to);
    }
}

// Zeros from one place up to another.
fn clear(buffer: &mut [u8], from: usize, to: usize)
    requires { (from ≤ length buffer.old) × (to ≤ length buffer.old) }
    ensures { buffer.new ≡ over buffer.old from (replicate (to - from) 0) }
{
    if from < to {
        buffer[from..to].fill(0);
    }
}

// So many bytes at a place of a file become the new ones: the file is the buffer's first bytes, and may grow or shrink.
pub fn replace(buffer: &mut [u8], size: usize, place: usize, old: usize, new: &[u8])
    requires { (size ≤ length buffer.old) × (place + old ≤ size) × (size - old + length new.now ≤ length buffer.old) }
    ensures { buffer.new ≡ buffer_with buffer.old size (replaced place old new.now (take size buffer.old)) }
{
    let from = place + old;
    let to = place + new.len();
    let tail = size - from;
    shift(buffer, from, to, tail);
    write(buffer, place, new);
    clear(buffer, to + tail, size);
}
