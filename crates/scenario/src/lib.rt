//! The scenario language: scripts that drive a speaker and a cache with its clients, and what they answer.
//!
//! `Stage` plays lines, over a heap of their own for the speaker and the cache, so that what these ask for can be refused;
//! `play` reads a script line by line, hands each line's event to the speaker or the cache, and writes the answer before the
//! next line is read. The lines between `load` and `end` are one list, whose payloads are published. A line that the
//! language doesn't have ends the run with its number, a `load` without an `end` with that of the `load`; what the
//! lines before it answered has been written by then. `obey_lines` has a speaker obey a file of commands alone: of a file
//! whose octets are known the speaker has obeyed the command that each line says, in order, or where a line is bad or refused
//! just those before it (`specs/ObeyedCommands.antt`). What a line commands is said once, by crate command_lines, for scripts
//! and for such files (`specs/ScriptLines.antt`). Proved of `play` is besides that no script makes a function go wrong, and
//! that a bad line names its own number, counted from 1; what a script answers is shown by the scripts of play_scripts. No
//! sockets and no clock are here: octets and commands stand in the script.
#![tactic(auto)]

mod answer;
mod cache;
mod commands;
mod line;
mod reading;
mod script;
mod tables;

pub use answer::Answer;
pub use command_lines::LineFault;
pub use commands::{CommandsFault, obey_lines};
pub use line::{CacheLine, Line, SpeakerLine, Table};
pub use script::{PlayFault, Stage, play};
pub use tables::show;
