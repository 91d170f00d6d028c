// Runs the examples of 01 on edits, and more at exact places, and reports each on a line of its own.
#![tactic(auto)]

mod edits; // edits.rt: set, with room in the journal and without; two in either order; who made an edit
mod batches; // batches.rt: many requests in one call

use std::io;

fn main(rt: HostRuntime) -> io::Result<()> {
    // File T of 01.
    let t = b"[Desktop Entry]\nType=Application\nName=Lesen\nName[fr]=Lire\nExec=view %F\n";
    edits::sets(&rt, t)?;
    edits::orders(&rt, t)?;
    edits::journals(&rt)?;
    batches::batches(&rt, t)
}
