// The actions of an application: those that are listed, with their labels, and the expansion of an action's own Exec.
#![tactic(auto)]

mod labels; // labels.rt: the records of identifiers and labels
mod listed; // listed.rt: which actions are listed

ghost use Rattle.std.specs.Prelude.{◌≡◌};
ghost use Rattle.text.specs.Output.{written_length, held};
ghost use Rattle.actions.specs.Actions as spec;

use fault::Fault;

// The identifiers and labels of the listed actions as records of kind 2: 1 to 6, 7, Actions' 9, the labels' 9 in list order, 11.
pub fn actions(file: &[u8], locale: &[u8], out: &mut [u8]) -> Result<usize, Fault>
    ensures answer { result ≡ written_length (spec.actions file.now locale.now) out.old }
    ensures output { out.new ≡ held (spec.actions file.now locale.now) out.old }
{
    wellformed::check(file)?;
    if !line::form::is_locale(locale) {
        return Err(Fault::BadArgument);
    }
    let raw = listed::value(file);
    // No room is asked for: this tells whether the list's escapes are right.
    text::list::room_after(raw, 0)?;
    labels::write_all(file, raw, locale, out)
}

// The arguments of a run of an action's own Exec as records of kind 3: what every expansion asks, Actions' 9, 8 for an action that is not listed, then
// as for the application's Exec.
pub fn expand_action(
    file: &[u8],
    action: &[u8],
    locale: &[u8],
    location: &[u8],
    list: &[u8],
    run: usize,
    out: &mut [u8],
) -> Result<usize, Fault>
    ensures answer { result ≡ written_length (spec.expand_action file.now action.now locale.now location.now list.now run) out.old }
    ensures output { out.new ≡ held (spec.expand_action file.now action.now locale.now location.now list.now run) out.old }
{
    let count = exec::ask(file, locale, location, list)?;
    let ids = listed::value(file);
    text::list::room_after(ids, 0)?;
    let group = listed::group_asked(file, ids, action);
    if group.is_empty() {
        return Err(Fault::Missing);
    }
    exec::expand_group(file, group, locale, location, list, count, run, out)
}
