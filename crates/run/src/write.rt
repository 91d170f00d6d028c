// The records of a run's arguments, written one after another to a lent output.
ghost use Rattle.std.specs.Prelude.{◌≡◌, true, ◌∷◌, [], ◌<◌, ◌≤◌, length};
ghost use Rattle.base.specs.Bounds.{file_most, list_most};
ghost use Rattle.base.specs.Choice.{there};
ghost use Rattle.base.specs.Over.{at_front};
ghost use Rattle.record.specs.Record.{record_length, list_of, read_list};
ghost use Rattle.command.specs.Command.{pieces_of, form_of, argument_as, arguments_in};
ghost use Rattle.run.specs.Run as run;
ghost use Rattle.run.specs.Step as spec;

use crate::measure;
use command::{Form, Piece};
use record::{Front, HEAD};

// What a piece stands for, at the start of an output that has room for it; the answer is how many bytes it is.
fn put_piece(out: &mut [u8], p: Piece, item: &[u8], name: &[u8], location: &[u8]) -> usize
    requires { length (run.piece_bytes (spec.put_of item.now name.now location.now) p) ≤ length out.old }
    ensures { spec.Wrote out.old (run.piece_bytes (spec.put_of item.now name.now location.now) p) result out.new }
{
    match p {
        Piece::Byte(b) => base::copy(&[b], out),
        Piece::Item => base::copy(item, out),
        Piece::Name => base::copy(name, out),
        Piece::Location => base::copy(location, out),
        Piece::Vanished => 0,
    }
}

// The bytes of an argument's pieces, each through the part of the output that starts where the last ended.
fn put_pieces(
    out: &mut [u8],
    s: &[u8],
    quoted: bool,
    item: &[u8],
    name: &[u8],
    location: &[u8],
) -> usize
    requires { (length s.now ≤ file_most) × (length (run.pieces_bytes (spec.put_of item.now name.now location.now) (pieces_of quoted s.now)) ≤ length out.old) }
    ensures { spec.Wrote out.old (run.pieces_bytes (spec.put_of item.now name.now location.now) (pieces_of quoted s.now)) result out.new }
{
    let mut i: usize = 0;
    let mut at: usize = 0;
    while i < s.len() {
        let p = command::piece_at(s, i, quoted);
        i = command::next_at(s, i, quoted);
        at += put_piece(&mut out[at..], p, item, name, location);
    }
    at
}

// The record of an argument with these pieces: its head, and the pieces through the part behind it.
fn put_text(
    out: &mut [u8],
    s: &[u8],
    quoted: bool,
    item: &[u8],
    name: &[u8],
    location: &[u8],
) -> usize
    requires { (length s.now ≤ file_most) × (record_length (run.pieces_bytes (spec.put_of item.now name.now location.now) (pieces_of quoted s.now)) ≤ length out.old) }
    ensures { spec.Wrote out.old
        (list_of 3 (run.pieces_bytes (spec.put_of item.now name.now location.now) (pieces_of quoted s.now) ∷ [])) result out.new }
{
    let n = measure::pieces_length(s, quoted, item, name, location, out.len());
    record::put_head(out, HEAD + n, 3);
    HEAD + put_pieces(&mut out[HEAD..], s, quoted, item, name, location)
}

// An argument's record at the start of an output that has room for it; the answer is how many bytes it is.
fn put_argument(out: &mut [u8], argument: &[u8]) -> usize
    requires { record_length argument.now ≤ length out.old }
    ensures { spec.Wrote out.old (list_of 3 (argument.now ∷ [])) result out.new }
{
    record::put(out, 0, 3, argument)
}

// The records of a list's items, each through the part of the output that starts where the last ended.
fn put_items(out: &mut [u8], list: &[u8]) -> usize
    requires { (there (read_list 2 list_most list.now) ≡ true) × (length (list_of 3 (spec.items_in list.now)) ≤ length out.old) }
    ensures { spec.Wrote out.old (list_of 3 (spec.items_in list.now)) result out.new }
{
    let mut from: usize = 0;
    let mut at: usize = 0;
    while from < list.len() {
        let Some(Front { end, .. }) = record::read(list, from) else {
            return at;
        };
        let body = from + HEAD;
        at += put_argument(&mut out[at..], &list[body..end]);
        from = end;
    }
    at
}

// The records of `--icon` and, through the part behind it, the Icon.
fn put_icon(out: &mut [u8], icon: &[u8]) -> usize
    requires { length (list_of 3 (run.icon_arguments icon.now)) ≤ length out.old }
    ensures { spec.Wrote out.old (list_of 3 (run.icon_arguments icon.now)) result out.new }
{
    if icon.len() == 0 {
        return 0;
    }
    let n = put_argument(out, b"--icon");
    n + put_argument(&mut out[n..], icon)
}

// The records of what a word's argument becomes, at the start of an output that has room for them; the answer is how many bytes they are.
fn put_word(
    out: &mut [u8],
    word: &[u8],
    item: &[u8],
    list: &[u8],
    name: &[u8],
    icon: &[u8],
    location: &[u8],
) -> usize
    requires { (0 < length word.now) × (length word.now ≤ file_most) × (there (read_list 2 list_most list.now) ≡ true)
        × (length (list_of 3 (run.expanded (run.run_of (spec.put_of item.now name.now location.now) (spec.items_in list.now) icon.now)
        (argument_as (form_of word.now) word.now))) ≤ length out.old) }
    ensures { spec.Wrote out.old (list_of 3 (run.expanded
        (run.run_of (spec.put_of item.now name.now location.now) (spec.items_in list.now) icon.now)
        (argument_as (form_of word.now) word.now))) result out.new }
{
    match command::form_of(word) {
        Form::Files => put_items(out, list),
        Form::Icon => put_icon(out, icon),
        Form::Quoted => {
            let closing = characters::classes::bare_end(word, 1, b'"');
            put_text(out, &word[1..closing], true, item, name, location)
        }
        Form::Bare => {
            if measure::is_dropped(word, item) {
                return 0;
            }
            put_text(out, word, false, item, name, location)
        }
    }
}

// The records of all arguments of a run: each word's through the part of the output that starts where the last ended.
pub fn put_run(
    out: &mut [u8],
    exec: &[u8],
    item: &[u8],
    list: &[u8],
    name: &[u8],
    icon: &[u8],
    location: &[u8],
) -> usize
    requires { (length exec.now ≤ file_most) × (there (read_list 2 list_most list.now) ≡ true)
        × (length (list_of 3 (run.expanded_all (run.run_of (spec.put_of item.now name.now location.now) (spec.items_in list.now) icon.now)
        (arguments_in exec.now))) ≤ length out.old) }
    ensures { (result ≡ length (list_of 3 (run.expanded_all
        (run.run_of (spec.put_of item.now name.now location.now) (spec.items_in list.now) icon.now)
        (arguments_in exec.now))))
        × (out.new ≡ at_front out.old (list_of 3 (run.expanded_all
        (run.run_of (spec.put_of item.now name.now location.now) (spec.items_in list.now) icon.now)
        (arguments_in exec.now)))) }
{
    let mut i: usize = 0;
    let mut at: usize = 0;
    while i < exec.len() {
        if exec[i] == b' ' {
            i += 1;
        } else {
            let e = command::words::word_end(exec, i);
            at += put_word(
                &mut out[at..],
                &exec[i..e],
                item,
                list,
                name,
                icon,
                location,
            );
            i = e;
        }
    }
    at
}
