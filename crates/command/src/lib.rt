// The command in an unescaped Exec: its words, its arguments and their pieces, and the lowest place of a fault.
#![tactic(auto)]

mod codes; // codes.rt: bytes and field codes
pub mod words; // words.rt: words

ghost use Rattle.std.specs.Prelude.{◌≡◌, true, false, ◌+◌, ◌≤◌, ◌<◌, length, get_or};
ghost use Rattle.base.specs.Bounds.{file_most};
ghost use Rattle.fault.specs.Answer.{then};
ghost use Rattle.command.specs.Command as command;
ghost use Rattle.command.specs.Step as step;

use fault::Fault;

// A piece of an argument: a byte that stands for itself, or what a field code puts in.
#[derive(Clone, Copy)]
pub enum Piece {
    Byte(u8),
    Item,
    Name,
    Location,
    Vanished,
}

// Which kind of argument a word is: quoted, F or U, i, or any other.
#[derive(Clone, Copy)]
pub enum Form {
    Quoted,
    Files,
    Icon,
    Bare,
}

// Which codes stand in a command: one that takes files, f or u, c, i.
#[derive(Clone, Copy)]
pub struct Seen {
    pub taken: bool,
    pub item: bool,
    pub name: bool,
    pub icon: bool,
}

// Whether a word is `%` and one byte more.
fn is_pair(word: &[u8]) -> bool
    ensures { result ≡ command.pair word.now }
{
    if word.len() == 2 {
        return word[0] == b'%';
    }
    false
}

// Which kind of argument a word is.
pub fn form_of(word: &[u8]) -> Form
    ensures { result ≡ command.form_of word.now }
{
    if line::byte_at(word, 0) == b'"' {
        return Form::Quoted;
    }
    if is_pair(word) {
        let c = line::byte_at(word, 1);
        if codes::one_of(b"FU", c) {
            return Form::Files;
        }
        if c == b'i' {
            return Form::Icon;
        }
        return Form::Bare;
    }
    Form::Bare
}

// The piece that begins at a place, in quotes or in none.
pub fn piece_at(s: &[u8], i: usize, quoted: bool) -> Piece
    requires { i < length s.now }
    ensures { result ≡ command.piece_of quoted (get_or s.now i 0) (get_or s.now (i + 1) 0) }
{
    codes::piece_of(quoted, s[i], line::byte_at(s, i + 1))
}

// Where the next one begins.
pub fn next_at(s: &[u8], i: usize, quoted: bool) -> usize
    requires { (i < length s.now) × (length s.now ≤ file_most) }
    ensures { result ≡ i + command.width_of quoted (get_or s.now i 0) }
{
    i + codes::width_of(quoted, s[i])
}

// Which codes stand, with one piece more.
fn see(seen: Seen, p: Piece) -> Seen
    ensures { result ≡ step.see_piece seen p }
{
    match p {
        Piece::Item => Seen {
            taken: true,
            item: true,
            ..seen
        },
        Piece::Name => Seen { name: true, ..seen },
        Piece::Byte(_) => seen,
        Piece::Location => seen,
        Piece::Vanished => seen,
    }
}

// The pieces of bytes that stand at a place: which codes stand with them, or their first fault.
fn check_pieces(s: &[u8], at: usize, quoted: bool, program: bool, seen: Seen) -> Result<Seen, Fault>
    requires { at + length s.now ≤ file_most }
    ensures { result ≡ step.unless_fault (command.pieces_fault quoted program seen.taken s.now 0 at)
        (step.see_pieces seen (command.pieces_of quoted s.now)) }
{
    let mut i: usize = 0;
    let mut known = seen;
    while i < s.len() {
        let b = s[i];
        let c = line::byte_at(s, i + 1);
        let taken = known.taken;
        codes::piece_fault(quoted, program, taken, b, c, at + i)?;
        known = see(known, codes::piece_of(quoted, b, c));
        i += codes::width_of(quoted, b);
    }
    Ok(known)
}

// Whether a word of so many bytes, of them so many in quotes, is not closed or an empty program.
fn is_unfit(program: bool, size: usize, n: usize) -> bool
    requires { n ≤ file_most }
    ensures { result ≡ command.unfit program size n }
{
    if size <= n + 1 {
        return true;
    }
    if program {
        return n == 0;
    }
    false
}

// A quoted word.
fn check_quoted(word: &[u8], start: usize, program: bool, seen: Seen) -> Result<Seen, Fault>
    requires { (start + length word.now ≤ file_most) × (0 < length word.now) }
    ensures { result ≡ step.unless_fault (command.quoted_fault program seen.taken (record { start = start; bytes = word.now }))
        (step.see_pieces seen (command.pieces_of true (command.inside word.now))) }
{
    let closing = characters::classes::bare_end(word, 1, b'"');
    let n = closing - 1;
    if is_unfit(program, word.len(), n) {
        return Err(Fault::BadExec { at: start });
    }
    let known = check_pieces(&word[1..closing], start + 1, true, program, seen)?;
    if word.len() != n + 2 {
        return Err(Fault::BadExec { at: start + n + 2 });
    }
    Ok(known)
}

// A word that starts at a place: which codes stand with it, or its first fault.
#[tactic(auto, unfolding(crate::specs::Command::word_fault, crate::specs::Command::argument_of))]
fn check_word(word: &[u8], start: usize, program: bool, seen: Seen) -> Result<Seen, Fault>
    requires { (start + length word.now ≤ file_most) × (0 < length word.now) }
    ensures { result ≡ step.unless_fault (command.word_fault program seen.taken (record { start = start; bytes = word.now }))
        (step.see_argument seen (command.argument_of (record { start = start; bytes = word.now }))) }
{
    match form_of(word) {
        Form::Quoted => check_quoted(word, start, program, seen),
        Form::Files => {
            if program || seen.taken {
                return Err(Fault::BadCode { at: start });
            }
            Ok(Seen {
                taken: true,
                ..seen
            })
        }
        Form::Icon => {
            if program {
                return Err(Fault::BadCode { at: start });
            }
            Ok(Seen { icon: true, ..seen })
        }
        Form::Bare => check_pieces(word, start, false, program, seen),
    }
}

// An unescaped Exec: which codes stand in it, or its fault of the lowest place.
pub fn check_command(exec: &[u8]) -> Result<Seen, Fault>
    requires { length exec.now ≤ file_most }
    ensures { result ≡ then step.codes_in (command.read_command exec.now) }
{
    let mut i: usize = 0;
    let mut program = true;
    let mut seen = Seen {
        taken: false,
        item: false,
        name: false,
        icon: false,
    };
    while i < exec.len() {
        if exec[i] == b' ' {
            i += 1;
        } else {
            let e = words::word_end(exec, i);
            seen = check_word(&exec[i..e], i, program, seen)?;
            program = false;
            i = e;
        }
    }
    if program {
        return Err(Fault::BadExec { at: 0 });
    }
    Ok(seen)
}
