// The records of the listed actions: an identifier, then its label. What they take is measured before a byte is written.
ghost use Rattle.std.specs.Prelude.{◌≡◌, true, [], ◌+◌, ◌≤◌, length};
ghost use Rattle.base.specs.Choice.{maybe};
ghost use Rattle.base.specs.Lists.{ascii};
ghost use Rattle.base.specs.Over.{over, at_front};
ghost use Rattle.fault.specs.Answer.{accepted, then};
ghost use Rattle.record.specs.Record.{list_of};
ghost use Rattle.text.specs.Output.{written_length, held};
ghost use Rattle.text.specs.Step.{elements_in};
ghost use Rattle.line.specs.Form.{locale_form};
ghost use Rattle.rows.specs.Rows.{read_rows, raw_value};
ghost use Rattle.rows.specs.Find.{none_bad};
ghost use Rattle.choice.specs.Locale.{chosen};
ghost use Rattle.actions.specs.Actions.{listed_from, labelled};
ghost use Rattle.actions.specs.Step.{elements, listed_at, spend_list};

use crate::listed;
use entry::Ends;
use fault::Fault;
use text::Escapes;

// The raw value of an action's label: its group's Name by locale.
fn label<'a, 'b, 'c>(file: &'a [u8], group: &'b [u8], locale: &'c [u8]) -> &'a [u8]
    requires { (none_bad file.now ≡ true) × (locale_form locale.now ≡ true) }
    ensures { result.now ≡ maybe (chosen (read_rows file.now) group.now (ascii "Name") locale.now) [] raw_value }
{
    let Ok(Ends { from, to }) = entry::chosen_ends(file, group, b"Name", locale) else {
        return &file[..0];
    };
    &file[from..to]
}

// The room left after the records of an element, if it is listed, or where its label's escape is wrong. 12: the heads of both records.
fn action_left(
    file: &[u8],
    raw: &[u8],
    i: usize,
    e: usize,
    locale: &[u8],
    left: Option<usize>,
) -> Result<Option<usize>, Fault>
    requires { (none_bad file.now ≡ true) × (locale_form locale.now ≡ true) × (i ≤ e) × (e ≤ length raw.now) }
    ensures { result ≡ then (spend_list left) (labelled (read_rows file.now) locale.now (listed_at (read_rows file.now) raw.now i e)) }
{
    let group = listed::group_at(file, raw, i, e);
    if group.len() == 0 {
        return Ok(left);
    }
    // No `?`, whose proof would refuse also a harmless edit of this refusal.
    match text::escape::text_length(label(file, group, locale), Escapes::Text) {
        Ok(n) => Ok(text::spend(text::spend(text::spend(left, 12), e - i), n)),
        Err(refusal) => Err(refusal),
    }
}

// The room that all records leave, or where the first wrong label's escape is.
fn all_left(file: &[u8], raw: &[u8], locale: &[u8], room: usize) -> Result<Option<usize>, Fault>
    requires { (none_bad file.now ≡ true) × (locale_form locale.now ≡ true) }
    ensures { result ≡ then (spend_list (Some room)) (labelled (read_rows file.now) locale.now (listed_from (read_rows file.now) [] (elements raw.now))) }
{
    let mut left = Some(room);
    let mut i: usize = 0;
    while i < raw.len() {
        let e = characters::classes::bare_end(raw, i, b';');
        left = action_left(file, raw, i, e, locale, left)?;
        i = e + 1;
    }
    Ok(left)
}

// The records of an element, if it is listed, through the part of an output that starts at a place; the answer is where they end.
fn put_action(
    file: &[u8],
    raw: &[u8],
    i: usize,
    e: usize,
    locale: &[u8],
    out: &mut [u8],
    at: usize,
) -> usize
    requires { (none_bad file.now ≡ true) × (locale_form locale.now ≡ true) × (i ≤ e) × (e ≤ length raw.now)
        × (accepted (labelled (read_rows file.now) locale.now (listed_at (read_rows file.now) raw.now i e)) ≡ true)
        × (at + length (list_of 2 (elements_in (labelled (read_rows file.now) locale.now (listed_at (read_rows file.now) raw.now i e)))) ≤ length out.old) }
    ensures { (result ≡ at + length (list_of 2 (elements_in (labelled (read_rows file.now) locale.now (listed_at (read_rows file.now) raw.now i e)))))
        × (out.new ≡ over out.old at (list_of 2 (elements_in (labelled (read_rows file.now) locale.now (listed_at (read_rows file.now) raw.now i e))))) }
{
    let group = listed::group_at(file, raw, i, e);
    if group.len() == 0 {
        return at;
    }
    let next = record::put(out, at, 2, &raw[i..e]);
    text::list::put(label(file, group, locale), Escapes::Text, out, next)
}

// All records, one after another from the start of an output that has room for them.
fn put_all(file: &[u8], raw: &[u8], locale: &[u8], out: &mut [u8]) -> usize
    requires { (none_bad file.now ≡ true) × (locale_form locale.now ≡ true)
        × (accepted (labelled (read_rows file.now) locale.now (listed_from (read_rows file.now) [] (elements raw.now))) ≡ true)
        × (length (list_of 2 (elements_in (labelled (read_rows file.now) locale.now (listed_from (read_rows file.now) [] (elements raw.now))))) ≤ length out.old) }
    ensures { (result ≡ length (list_of 2 (elements_in (labelled (read_rows file.now) locale.now (listed_from (read_rows file.now) [] (elements raw.now))))))
        × (out.new ≡ at_front out.old (list_of 2 (elements_in (labelled (read_rows file.now) locale.now (listed_from (read_rows file.now) [] (elements raw.now)))))) }
{
    let mut i: usize = 0;
    let mut at: usize = 0;
    while i < raw.len() {
        let e = characters::classes::bare_end(raw, i, b';');
        at = put_action(file, raw, i, e, locale, out, at);
        i = e + 1;
    }
    at
}

// The records of the listed actions: the labels' 9 in list order, then 11.
pub fn write_all(file: &[u8], raw: &[u8], locale: &[u8], out: &mut [u8]) -> Result<usize, Fault>
    requires { (none_bad file.now ≡ true) × (locale_form locale.now ≡ true) }
    ensures answer { result ≡ written_length (then (list_of 2) (labelled (read_rows file.now) locale.now (listed_from (read_rows file.now) [] (elements raw.now)))) out.old }
    ensures output { out.new ≡ held (then (list_of 2) (labelled (read_rows file.now) locale.now (listed_from (read_rows file.now) [] (elements raw.now)))) out.old }
{
    match all_left(file, raw, locale, out.len())? {
        None => Err(Fault::NoRoom),
        Some(_) => Ok(put_all(file, raw, locale, out)),
    }
}
