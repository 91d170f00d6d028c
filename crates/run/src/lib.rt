// A run of a command: its arguments as records in a lent output.
#![tactic(auto)]

mod measure; // measure.rt: how much room the records take
mod write; // write.rt: the records

ghost use Rattle.std.specs.Prelude.{◌≡◌, true, ◌≤◌, length, Ok};
ghost use Rattle.base.specs.Bounds.{file_most, list_most};
ghost use Rattle.base.specs.Choice.{there};
ghost use Rattle.record.specs.Record.{read_list, list_of};
ghost use Rattle.text.specs.Output.{written_length, held};
ghost use Rattle.command.specs.Command.{arguments_in};
ghost use Rattle.run.specs.Run as run;
ghost use Rattle.run.specs.Step as spec;

use fault::Fault;

// The records of a run's arguments, if there is room for them: 11.
pub fn write_run(
    exec: &[u8],
    item: &[u8],
    list: &[u8],
    name: &[u8],
    icon: &[u8],
    location: &[u8],
    out: &mut [u8],
) -> Result<usize, Fault>
    requires { (length exec.now ≤ file_most) × (there (read_list 2 list_most list.now) ≡ true) }
    ensures answer { result ≡ written_length (Ok (list_of 3 (run.expanded_all
        (run.run_of (spec.put_of item.now name.now location.now) (spec.items_in list.now) icon.now)
        (arguments_in exec.now)))) out.old }
    ensures output { out.new ≡ held (Ok (list_of 3 (run.expanded_all
        (run.run_of (spec.put_of item.now name.now location.now) (spec.items_in list.now) icon.now)
        (arguments_in exec.now)))) out.old }
{
    match measure::run_left(exec, item, list, name, icon, location, out.len()) {
        None => Err(Fault::NoRoom),
        Some(_) => Ok(write::put_run(out, exec, item, list, name, icon, location)),
    }
}
