// The calls that read an entry: lookup, the choice of language, and completeness.
#![tactic(auto)]

ghost use Rattle.std.specs.Prelude.{◌≡◌, true};
ghost use Rattle.line.specs.Form.{plain_form, locale_form};
ghost use Rattle.rows.specs.Rows.{read_rows};
ghost use Rattle.rows.specs.Find.{none_bad};
ghost use Rattle.entry.specs.Lookup as spec;
ghost use Rattle.entry.specs.Choose as choice;
ghost use Rattle.entry.specs.Complete as whole;

use fault::Fault;
use rows::Row;

// The two ends of a value in the file, the end exclusive.
#[derive(Clone, Copy)]
pub struct Ends {
    pub from: usize,
    pub to: usize,
}

// The ends of a row's value.
fn ends_of(f: Option<Row>) -> Result<Ends, Fault>
    ensures { result ≡ spec.ends_of f }
{
    match f {
        Some(row) => Ok(Ends {
            from: row.value,
            to: row.end,
        }),
        None => Err(Fault::Missing),
    }
}

// The raw value of a key with its postfix, by its two ends: 1 to 6, 7, 8.
pub fn lookup_ends(file: &[u8], group: &[u8], key: &[u8]) -> Result<Ends, Fault>
    ensures { result ≡ spec.lookup file.now group.now key.now }
{
    wellformed::check(file)?;
    if !line::form::is_group(group) || !line::form::is_key(key) {
        return Err(Fault::BadArgument);
    }
    ends_of(rows::find_key(file, group, key))
}

// The raw value as a part of the file; empty when refused.
pub fn lookup<'a, 'b>(file: &'a [u8], group: &'b [u8], key: &'b [u8]) -> &'a [u8]
    ensures { result.now ≡ spec.part_of file.now (spec.lookup file.now group.now key.now) }
{
    let Ok(Ends { from, to }) = lookup_ends(file, group, key) else {
        return &file[..0];
    };
    &file[from..to]
}

// The raw value of a plain key that a locale takes in a file already checked, by its two ends: 8.
pub fn chosen_ends(file: &[u8], group: &[u8], key: &[u8], locale: &[u8]) -> Result<Ends, Fault>
    requires { (none_bad file.now ≡ true) × (plain_form key.now ≡ true) × (locale_form locale.now ≡ true) }
    ensures { result ≡ choice.chosen_ends (read_rows file.now) group.now key.now locale.now }
{
    ends_of(choice::choose_row(file, group, key, locale))
}

// The raw value of a plain key that a locale takes, by its two ends: 1 to 6, 7, 8.
pub fn choose_ends(file: &[u8], group: &[u8], key: &[u8], locale: &[u8]) -> Result<Ends, Fault>
    ensures { result ≡ choice.choose file.now group.now key.now locale.now }
{
    wellformed::check(file)?;
    if !line::form::is_group(group)
        || !line::form::is_plain(key)
        || !line::form::is_locale(locale)
    {
        return Err(Fault::BadArgument);
    }
    chosen_ends(file, group, key, locale)
}

// The chosen raw value as a part of the file; empty when refused.
pub fn choose<'a, 'b>(file: &'a [u8], group: &'b [u8], key: &'b [u8], locale: &'b [u8]) -> &'a [u8]
    ensures { result.now ≡ spec.part_of file.now (choice.choose file.now group.now key.now locale.now) }
{
    let Ok(Ends { from, to }) = choose_ends(file, group, key, locale) else {
        return &file[..0];
    };
    &file[from..to]
}

// Well formed and complete, or the fault: 1 to 6, 18.
pub fn is_complete(file: &[u8]) -> Result<(), Fault>
    ensures { result ≡ whole.complete file.now }
{
    wellformed::check(file).and_then(|()| complete::complete_rows(file))
}
