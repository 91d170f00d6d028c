// The texts that an expansion reads from the file: Exec, Name and Icon.
ghost use Rattle.std.specs.Prelude.{◌≡◌, true, ◌≤◌, length};
ghost use Rattle.base.specs.Bounds.{file_most};
ghost use Rattle.fault.specs.Answer.{then};
ghost use Rattle.text.specs.Escape.{read_text};
ghost use Rattle.line.specs.Form.{locale_form};
ghost use Rattle.rows.specs.Rows.{read_rows};
ghost use Rattle.rows.specs.Find.{none_bad};
ghost use Rattle.exec.specs.Expand as spec;
ghost use Rattle.exec.specs.Step.{ReadTo};

use entry::Ends;
use fault::Fault;

// The text of a raw value, to the start of a buffer that is as long at least.
pub fn read_whole(raw: &[u8], out: &mut [u8]) -> Result<usize, Fault>
    requires { length raw.now ≤ length out.old }
    ensures { ReadTo (read_text raw.now) out.old result out.new }
{
    text::read_text(raw, out)
}

// The refusal of a choice, with its number and place; of one that was not refused, no bytes. Not a `?`: of an edit of what that hands on, the proof
// would refuse a harmless one too.
fn refusal_of(chosen: Result<Ends, Fault>) -> Result<usize, Fault>
    ensures { result ≡ then (λ _. 0) chosen }
{
    match chosen {
        Ok(_) => Ok(0),
        Err(f) => Err(f),
    }
}

// The text of Name by locale, where it is wanted.
pub fn name_text(file: &[u8], locale: &[u8], wanted: bool, out: &mut [u8]) -> Result<usize, Fault>
    requires { (none_bad file.now ≡ true) × (length file.now ≤ file_most) × (file_most ≤ length out.old) × (locale_form locale.now ≡ true) }
    ensures { ReadTo (spec.name_text (read_rows file.now) locale.now wanted) out.old result out.new }
{
    if wanted {
        let chosen = entry::chosen_ends(file, b"Desktop Entry", b"Name", locale);
        let Ok(Ends { from, to }) = chosen else {
            return refusal_of(chosen);
        };
        return read_whole(&file[from..to], out);
    }
    Ok(0)
}

// The text of a group's Icon by locale, where it is wanted; a missing one is none. In a file already checked the choice is refused with 8 only.
pub fn icon_text(
    file: &[u8],
    group: &[u8],
    locale: &[u8],
    wanted: bool,
    out: &mut [u8],
) -> Result<usize, Fault>
    requires { (none_bad file.now ≡ true) × (length file.now ≤ file_most) × (file_most ≤ length out.old) × (locale_form locale.now ≡ true) }
    ensures { ReadTo (spec.icon_text (read_rows file.now) group.now locale.now wanted) out.old result out.new }
{
    if wanted {
        let Ok(Ends { from, to }) = entry::chosen_ends(file, group, b"Icon", locale) else {
            return Ok(0);
        };
        return read_whole(&file[from..to], out);
    }
    Ok(0)
}
