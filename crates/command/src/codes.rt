// Bytes of arguments and field codes.
ghost use Rattle.std.specs.Prelude.{◌≡◌};
ghost use Rattle.base.specs.Choice.{pick};
ghost use Rattle.fault.specs.Answer.{unless};
ghost use Rattle.command.specs.Codes as spec;
ghost use Rattle.command.specs.Command as command;

use crate::Piece;
use fault::Fault;

// Whether a byte is one of these. The sets are short and constant: `any` is compiled for each, where `contains` would be a call.
pub fn one_of(set: &[u8], b: u8) -> bool
    ensures { result ≡ spec.one_of set.now b }
{
    set.iter().any(|c| b == *c)
}

// A byte that stands for itself in quotes.
fn is_quoted(b: u8) -> bool
    ensures { result ≡ spec.quoted_byte b }
{
    if 0x7e < b {
        return false;
    }
    if needs_backslash(b) {
        return false;
    }
    true
}

// A byte that in quotes needs a backslash before it.
fn needs_backslash(b: u8) -> bool
    ensures { result ≡ spec.needs_backslash b }
{
    one_of(b"\"`$\\", b)
}

// A byte of an unquoted argument.
fn is_unquoted(b: u8) -> bool
    ensures { result ≡ spec.unquoted_byte b }
{
    if 0x7e < b {
        return false;
    }
    if b == b' ' {
        return false;
    }
    if one_of(b"\t\n\"'\\><~|&;$*?#()`", b) {
        return false;
    }
    true
}

// A byte that stands for itself, of an argument that is not the program.
fn stands(quoted: bool, b: u8) -> bool
    ensures { result ≡ pick quoted (spec.quoted_byte b) (spec.unquoted_byte b) }
{
    if quoted {
        return is_quoted(b);
    }
    is_unquoted(b)
}

// A byte that stands for itself; the program holds no `=`.
fn stands_in(quoted: bool, program: bool, b: u8) -> bool
    ensures { result ≡ spec.stands_in quoted program b }
{
    if program {
        if b == b'=' {
            return false;
        }
        return stands(quoted, b);
    }
    stands(quoted, b)
}

// What `%` with this byte stands for.
fn code_piece(c: u8) -> Piece
    ensures { result ≡ spec.code_piece c }
{
    if c == b'%' {
        return Piece::Byte(c);
    }
    if one_of(b"fu", c) {
        return Piece::Item;
    }
    if c == b'c' {
        return Piece::Name;
    }
    if c == b'k' {
        return Piece::Location;
    }
    Piece::Vanished
}

// Whether `%` with this byte may stand.
fn code_in(quoted: bool, program: bool, taken: bool, c: u8) -> bool
    ensures { result ≡ spec.code_in quoted program taken c }
{
    if c == b'%' {
        return true;
    }
    if quoted {
        return false;
    }
    if program {
        return false;
    }
    if one_of(b"fu", c) {
        return !taken;
    }
    if one_of(b"ck", c) {
        return true;
    }
    one_of(b"dDnNvm", c)
}

// Whether a byte takes the next one with it.
fn takes_next(quoted: bool, b: u8) -> bool
    ensures { result ≡ command.takes_next quoted b }
{
    if b == b'%' {
        return true;
    }
    if quoted {
        return b == b'\\';
    }
    false
}

// The piece that begins with these two bytes; the second is 0 at the end.
pub fn piece_of(quoted: bool, b: u8, c: u8) -> Piece
    ensures { result ≡ command.piece_of quoted b c }
{
    if b == b'%' {
        return code_piece(c);
    }
    if takes_next(quoted, b) {
        return Piece::Byte(c);
    }
    Piece::Byte(b)
}

// How many bytes it takes.
pub fn width_of(quoted: bool, b: u8) -> usize
    ensures { result ≡ command.width_of quoted b }
{
    if takes_next(quoted, b) {
        return 2;
    }
    1
}

// Whether it may stand at this place.
#[tactic(auto, unfolding(crate::specs::Command::piece_fault))]
pub fn piece_fault(
    quoted: bool,
    program: bool,
    taken: bool,
    b: u8,
    c: u8,
    at: usize,
) -> Result<(), Fault>
    ensures { result ≡ unless (command.piece_fault quoted program taken b c at) }
{
    if b == b'%' {
        if code_in(quoted, program, taken, c) {
            return Ok(());
        }
        return Err(Fault::BadCode { at });
    }
    if takes_next(quoted, b) {
        if needs_backslash(c) {
            return Ok(());
        }
        return Err(Fault::BadExec { at });
    }
    if stands_in(quoted, program, b) {
        return Ok(());
    }
    Err(Fault::BadExec { at })
}
