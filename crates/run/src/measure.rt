// How much room the records of a run's arguments take.
ghost use Rattle.std.specs.Prelude.{◌≡◌, true, false, ◌∷◌, [], ◌<◌, ◌≤◌, length};
ghost use Rattle.base.specs.Bounds.{file_most, list_most};
ghost use Rattle.base.specs.Lists.{all};
ghost use Rattle.base.specs.Choice.{there};
ghost use Rattle.record.specs.Record.{list_of, read_list};
ghost use Rattle.text.specs.Step.{spend};
ghost use Rattle.command.specs.Command.{pieces_of, form_of, argument_as, arguments_in};
ghost use Rattle.run.specs.Run as run;
ghost use Rattle.run.specs.Step as spec;

use command::{Form, Piece};

// How many bytes a piece stands for.
fn piece_length(p: Piece, item: &[u8], name: &[u8], location: &[u8]) -> usize
    ensures { result ≡ length (run.piece_bytes (spec.put_of item.now name.now location.now) p) }
{
    match p {
        Piece::Byte(_) => 1,
        Piece::Item => item.len(),
        Piece::Name => name.len(),
        Piece::Location => location.len(),
        Piece::Vanished => 0,
    }
}

// The room left after the bytes of an argument's pieces.
fn pieces_left(
    s: &[u8],
    quoted: bool,
    item: &[u8],
    name: &[u8],
    location: &[u8],
    left: Option<usize>,
) -> Option<usize>
    requires { length s.now ≤ file_most }
    ensures { result ≡ spend left (length (run.pieces_bytes (spec.put_of item.now name.now location.now) (pieces_of quoted s.now))) }
{
    let mut i: usize = 0;
    let mut room = left;
    while i < s.len() {
        let p = command::piece_at(s, i, quoted);
        room = text::spend(room, piece_length(p, item, name, location));
        i = command::next_at(s, i, quoted);
    }
    room
}

// How many bytes an argument's pieces are, where a room has them all.
pub fn pieces_length(
    s: &[u8],
    quoted: bool,
    item: &[u8],
    name: &[u8],
    location: &[u8],
    room: usize,
) -> usize
    requires { (length s.now ≤ file_most) × (length (run.pieces_bytes (spec.put_of item.now name.now location.now) (pieces_of quoted s.now)) ≤ room) }
    ensures { result ≡ length (run.pieces_bytes (spec.put_of item.now name.now location.now) (pieces_of quoted s.now)) }
{
    let Some(left) = pieces_left(s, quoted, item, name, location, Some(room)) else {
        return room;
    };
    room - left
}

// A piece of which nothing is left.
fn is_nothing(p: Piece, item: &[u8]) -> bool
    ensures { result ≡ run.leaves_nothing item.now p }
{
    match p {
        Piece::Vanished => true,
        Piece::Item => item.len() == 0,
        Piece::Byte(_) => false,
        Piece::Name => false,
        Piece::Location => false,
    }
}

// Whether an unquoted argument is dropped.
pub fn is_dropped(s: &[u8], item: &[u8]) -> bool
    requires { length s.now ≤ file_most }
    ensures { result ≡ all (run.leaves_nothing item.now) (pieces_of false s.now) }
{
    let mut i: usize = 0;
    while i < s.len() {
        if is_nothing(command::piece_at(s, i, false), item) {
            i = command::next_at(s, i, false);
        } else {
            return false;
        }
    }
    true
}

// The room left after the record of an argument with these pieces.
fn text_left(
    s: &[u8],
    quoted: bool,
    item: &[u8],
    name: &[u8],
    location: &[u8],
    left: Option<usize>,
) -> Option<usize>
    requires { length s.now ≤ file_most }
    ensures { result ≡ spend left (length (list_of 3 (run.pieces_bytes (spec.put_of item.now name.now location.now) (pieces_of quoted s.now) ∷ []))) }
{
    pieces_left(
        s,
        quoted,
        item,
        name,
        location,
        text::spend(left, record::HEAD),
    )
}

// The room left after the records of `--icon` and the Icon.
fn icon_left(icon: &[u8], left: Option<usize>) -> Option<usize>
    ensures { result ≡ spend left (length (list_of 3 (run.icon_arguments icon.now))) }
{
    if icon.len() == 0 {
        return left;
    }
    text::spend(text::spend(left, 18), icon.len())
}

// The room left after the records of what a word's argument becomes.
fn word_left(
    word: &[u8],
    item: &[u8],
    list: &[u8],
    name: &[u8],
    icon: &[u8],
    location: &[u8],
    left: Option<usize>,
) -> Option<usize>
    requires { (0 < length word.now) × (length word.now ≤ file_most) × (there (read_list 2 list_most list.now) ≡ true) }
    ensures { result ≡ spend left (length (list_of 3 (run.expanded
        (run.run_of (spec.put_of item.now name.now location.now) (spec.items_in list.now) icon.now)
        (argument_as (form_of word.now) word.now)))) }
{
    match command::form_of(word) {
        Form::Files => text::spend(left, list.len()),
        Form::Icon => icon_left(icon, left),
        Form::Quoted => {
            let closing = characters::classes::bare_end(word, 1, b'"');
            text_left(&word[1..closing], true, item, name, location, left)
        }
        Form::Bare => {
            if is_dropped(word, item) {
                return left;
            }
            text_left(word, false, item, name, location, left)
        }
    }
}

// The room left after the records of all arguments of a run.
pub fn run_left(
    exec: &[u8],
    item: &[u8],
    list: &[u8],
    name: &[u8],
    icon: &[u8],
    location: &[u8],
    room: usize,
) -> Option<usize>
    requires { (length exec.now ≤ file_most) × (there (read_list 2 list_most list.now) ≡ true) }
    ensures { result ≡ spend (Some room) (length (list_of 3 (run.expanded_all
        (run.run_of (spec.put_of item.now name.now location.now) (spec.items_in list.now) icon.now)
        (arguments_in exec.now)))) }
{
    let mut i: usize = 0;
    let mut left = Some(room);
    while i < exec.len() {
        if exec[i] == b' ' {
            i += 1;
        } else {
            let e = command::words::word_end(exec, i);
            left = word_left(&exec[i..e], item, list, name, icon, location, left);
            i = e;
        }
    }
    left
}
