// Runs the examples of 01 on files, values and texts, and more at exact places, and reports each on a line of its own.
#![tactic(auto)]

mod files; // files.rt: the check and completeness
mod values; // values.rt: lookup and the choice of language
mod texts; // texts.rt: text and value lists

use std::io;

fn main(rt: HostRuntime) -> io::Result<()> {
    // File T of 01.
    let t = b"[Desktop Entry]\nType=Application\nName=Lesen\nName[fr]=Lire\nExec=view %F\n";
    files::checks(&rt, t)?;
    files::refused_checks(&rt)?;
    files::bad_lines(&rt)?;
    files::completeness(&rt, t)?;
    files::refused_completeness(&rt)?;
    values::lookups(&rt, t)?;
    values::refused_lookups(&rt, t)?;
    values::choices(&rt, t)?;
    values::choices_by_encoded_keys(
        &rt,
        b"[Desktop Entry]\nType=Application\nName=A\nName[de_DE.UTF-8]=B\nName[de_DE]=C\nName[de.UTF-8@x]=D\n",
    )?;
    values::refused_choices(&rt, t)?;
    texts::texts_read(&rt)?;
    texts::texts_written(&rt)?;
    texts::lists_read(&rt)
}
