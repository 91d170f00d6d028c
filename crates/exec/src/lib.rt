// The expansion of Exec: what it is asked, the texts that it reads, and its runs.
#![tactic(auto)]

mod asked; // asked.rt: the list and the location
mod texts; // texts.rt: Exec, Name and Icon

ghost use Rattle.std.specs.Prelude.{◌≡◌, true, [], ◌≤◌, length, get_or, ltb};
ghost use Rattle.base.specs.Bounds.{file_most, list_most};
ghost use Rattle.base.specs.Choice.{there};
ghost use Rattle.fault.specs.Answer.{then};
ghost use Rattle.record.specs.Record.{read_list, list_of};
ghost use Rattle.text.specs.Output.{written_length, held};
ghost use Rattle.line.specs.Form.{locale_form};
ghost use Rattle.rows.specs.Rows.{read_rows};
ghost use Rattle.rows.specs.Find.{none_bad};
ghost use Rattle.command.specs.Command.{arguments_in};
ghost use Rattle.command.specs.Step.{codes_in};
ghost use Rattle.run.specs.Run as run;
ghost use Rattle.exec.specs.Expand as spec;
ghost use Rattle.run.specs.Step.{items_in};

use command::Seen;
use fault::Fault;
use record::Bounds;

// How many items there are, where the file, the list, the locale, the items and the location pass: 1 to 6, 14, 7, 10.
pub fn ask(file: &[u8], locale: &[u8], location: &[u8], list: &[u8]) -> Result<usize, Fault>
    ensures { result ≡ then length (spec.asked_items file.now locale.now location.now list.now) }
{
    wellformed::check(file)?;
    let Some(n) = record::count(list, 2, base::LIST_MOST) else {
        return Err(Fault::Damaged);
    };
    if !line::form::is_locale(locale) {
        return Err(Fault::BadArgument);
    }
    if !asked::are_fit(list) || !asked::is_fit_location(location) {
        return Err(Fault::UnfitText);
    }
    Ok(n)
}

// Whether a run is among those that so many items give.
fn in_runs(n: usize, item: bool, count: usize) -> bool
    ensures { result ≡ ltb n (run.runs_of item count) }
{
    if count == 0 {
        return n < 1;
    }
    if item {
        return n < count;
    }
    n < 1
}

// The item of a run; empty if there is none.
fn item_at(list: &[u8], n: usize) -> &[u8]
    requires { there (read_list 2 list_most list.now) ≡ true }
    ensures { result.now ≡ get_or (items_in list.now) n [] }
{
    let Some(Bounds { from, to }) = record::nth(list, n) else {
        return &list[..0];
    };
    &list[from..to]
}

// A run of a command, with the Icon of a group: 8, then Name's refusal, then Icon's, then 11.
fn run_command(
    exec: &[u8],
    seen: Seen,
    file: &[u8],
    group: &[u8],
    locale: &[u8],
    location: &[u8],
    list: &[u8],
    count: usize,
    run: usize,
    out: &mut [u8],
) -> Result<usize, Fault>
    requires { (length exec.now ≤ file_most) × (seen ≡ codes_in (arguments_in exec.now)) × (none_bad file.now ≡ true) × (length file.now ≤ file_most)
        × (there (read_list 2 list_most list.now) ≡ true) × (count ≡ length (items_in list.now)) × (locale_form locale.now ≡ true) }
    ensures answer { result ≡ written_length (then (list_of 3) (spec.run_arguments (arguments_in exec.now) (read_rows file.now) group.now
        locale.now location.now (items_in list.now) run)) out.old }
    ensures output { out.new ≡ held (then (list_of 3) (spec.run_arguments (arguments_in exec.now) (read_rows file.now) group.now
        locale.now location.now (items_in list.now) run)) out.old }
{
    if in_runs(run, seen.item, count) {
        let mut name = [0u8; base::FILE_MOST];
        let name_end = texts::name_text(file, locale, seen.name, &mut name)?;
        let mut icon = [0u8; base::FILE_MOST];
        let icon_end = texts::icon_text(file, group, locale, seen.icon, &mut icon)?;
        let item = item_at(list, run);
        return run::write_run(
            exec,
            item,
            list,
            &name[..name_end],
            &icon[..icon_end],
            location,
            out,
        );
    }
    Err(Fault::Missing)
}

// A run of the Exec in a group of a well-formed file, for a list of so many items: 8, 9, 15 and 16 by lowest place, and the run's refusals.
pub fn expand_group(
    file: &[u8],
    group: &[u8],
    locale: &[u8],
    location: &[u8],
    list: &[u8],
    count: usize,
    run: usize,
    out: &mut [u8],
) -> Result<usize, Fault>
    requires { (none_bad file.now ≡ true) × (length file.now ≤ file_most) × (there (read_list 2 list_most list.now) ≡ true) × (count ≡ length (items_in list.now))
        × (locale_form locale.now ≡ true) }
    ensures answer { result ≡ written_length (then (list_of 3) (spec.group_arguments (read_rows file.now) group.now
        locale.now location.now (items_in list.now) run)) out.old }
    ensures output { out.new ≡ held (then (list_of 3) (spec.group_arguments (read_rows file.now) group.now
        locale.now location.now (items_in list.now) run)) out.old }
{
    let Some(row) = rows::find_key(file, group, b"Exec") else {
        return Err(Fault::Missing);
    };
    let mut exec = [0u8; base::FILE_MOST];
    let exec_end = texts::read_whole(&file[row.value..row.end], &mut exec)?;
    let exec = &exec[..exec_end];
    let seen = command::check_command(exec)?;
    run_command(
        exec, seen, file, group, locale, location, list, count, run, out,
    )
}

// The arguments of a run of a file's Exec as records of kind 3: 1 to 6, 14, 7, 10, 8, 9, 15 and 16 by lowest place, 8 for the run, the refusals of
// Name and Icon, 11.
pub fn expand(
    file: &[u8],
    locale: &[u8],
    location: &[u8],
    list: &[u8],
    run: usize,
    out: &mut [u8],
) -> Result<usize, Fault>
    ensures answer { result ≡ written_length (spec.expand file.now locale.now location.now list.now run) out.old }
    ensures output { out.new ≡ held (spec.expand file.now locale.now location.now list.now run) out.old }
{
    let count = ask(file, locale, location, list)?;
    expand_group(
        file,
        b"Desktop Entry",
        locale,
        location,
        list,
        count,
        run,
        out,
    )
}
