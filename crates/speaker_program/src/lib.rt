//! The program of a speaker: what the main of `ovbgpd` does.
//!
//! `main_bgp` reads the words exactly, and tells what the operator has to mend from what the system didn't give
//! (`specs/Exits.antt`). `run_bgp` is handed what reads files, what opens a wire, and a clock: its speaker is as the commands of
//! the settings' file leave it, its slots are just those of the settings (`specs/Slots.antt`), its wire is the one that was
//! opened where they listen (`specs/Begun.antt`), and it takes so many turns (`specs/Commanded.antt`), behind which its Loc-RIB
//! is printed. Settings that are only checked bind nothing (`specs/Checked.antt`). What ends it has its cause as data
//! (`SpeakerFault`); of a line of the commands that is none, what in it isn't. The files are those at the path of the words and
//! at the path of the settings (`specs/Files.antt`), as file_paths notes them, the wire listens where the settings say, as
//! net_wires notes it, and operators ask where they say, as control_sockets notes it; what is printed is shown by tests.
#![tactic(auto)]

mod attending;
mod beginning;
mod behind;
mod bgp_main;
mod checking;
mod commanded_speaker;
mod exceptions;
mod exits;
mod fault;
mod files;
mod help;
mod journal;
mod laws;
mod serving;
mod settings_file;
mod settled;
mod standing;
mod taking;
mod unobeyed;
mod waiting;

pub use bgp_main::main_bgp;
pub use exits::{of_commands, of_speaker};
pub use fault::SpeakerFault;
pub use laws::served_turns_are_turns;
pub use unobeyed::Unobeyed;
