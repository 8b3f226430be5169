//! What operators ask of a speaker while it runs.
//!
//! `Desk` answers the line of each operator between two turns of a `SpeakerLoop`: a command is handed to the speaker, a table
//! is shown (crate speaker_tables), `clear` ends a session, which begins again once its connection is gone
//! (`specs/Restarts.antt`), and `stop` ends the program. A line does no more than it asks for: it hands in its command once, or
//! changes nothing (`specs/Answering.antt`). A peer that is configured so is at the address of its table in the settings, or at
//! its own address and port 179. Peers that are held back wait in a `Gate`, until the session with the cache is synced or for so
//! long, or until an operator decides (`specs/Waiting.antt`). What operators command is noted in an `Exchange`, for a log.
//! `attended_turns` takes turns with all that between them, each line that of the operator who is told what it came to
//! (`specs/Attended.antt`): fewer than so many only behind `stop`, and with each peer that waits enabled in the first round in
//! which it may go (`specs/Rounds.antt`).
#![tactic(auto)]

mod answers;
mod attending;
mod desk;
mod exchange;
mod gate;
mod laws;
mod line;
mod note;
mod restarts;

pub use attending::{AttendFault, attended_turns};
pub use desk::Desk;
pub use exchange::Exchange;
pub use gate::Gate;
pub use laws::{
    attended_turns_are_moves, commands_leave_what_sessions_carry, commands_stand_between_turns,
    fewer_turns_were_stopped, waiting_peers_go_when_they_may,
};
pub use note::Note;
