// Runs the examples of 01 on commands, and more at exact places, and reports each on a line of its own.
#![tactic(auto)]

mod commands; // commands.rt: the expansion of Exec
mod submenus; // submenus.rt: the actions of an application

use std::io;

fn main(rt: HostRuntime) -> io::Result<()> {
    // File T of 01.
    let t = b"[Desktop Entry]\nType=Application\nName=Lesen\nName[fr]=Lire\nExec=view %F\n";
    commands::expansions(&rt, t)?;
    commands::commands_read(&rt)?;
    submenus::actions_of_a_file(&rt)?;
    submenus::refused_actions(&rt)
}
