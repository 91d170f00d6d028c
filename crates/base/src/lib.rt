// The words that every definition uses, and the laws on lists and tests that every proof cites. Of code only 01's bounds and one copy.

#![tactic(auto)]

ghost use Rattle.std.specs.Prelude.{◌≡◌, ◌≤◌, length};
ghost use Rattle.base.specs.Over.{at_front};

// The most bytes of a file.
pub const FILE_MOST: usize = 32768;

// The most bytes of a journal that are used.
pub const JOURNAL_MOST: usize = 65536;

// The most bytes of a list of records.
pub const LIST_MOST: usize = 65536;

// The most bytes of a location.
pub const LOCATION_MOST: usize = 4096;

// Writes bytes at the start of a buffer with room for them, and tells how many.
pub fn copy(from: &[u8], to: &mut [u8]) -> usize
    requires { length from.now ≤ length to.old }
    ensures long { result ≡ length from.now }
    ensures is { to.new ≡ at_front to.old from.now }
{
    to[..from.len()].copy_from_slice(from);
    from.len()
}
