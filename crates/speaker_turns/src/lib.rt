//! The turns of a speaker over sockets that don't wait.
//!
//! `SpeakerLoop` serves the sessions of a `speaker` (RFC 4271, and RFC 8210 towards a cache) over a `Wire`, which keeps each
//! of its calls in mind, with the answer. A turn returns whatever the wire does, and takes no memory of its own: it begins to
//! connect where a session's attempt has begun, asks for a connection once and lets in one at most, visits each connection
//! once, and tells the speaker the moment (`specs/Turns.antt`). A visit reads once, 4,096 octets at most, and the session hears
//! just what its own socket gave. Then it writes once, where there is anything to write: it offers all octets that wait, or
//! where none wait those that the speaker hands out, 16,384 at most, since what is passed on is longer than what came; what
//! doesn't go waits, and while octets wait nothing more is taken of the speaker (`specs/Serving.antt`). A connection ends where
//! its socket has told a fault or the end of its input, or where the speaker has closed its session and all that was said is
//! written, or wasn't for a minute; where octets have waited of which none went, or no whole OPEN has come, for as long as the
//! loop is patient (`Patience`); an attempt where it fails or the speaker doesn't want it any more. Each of these ends is
//! counted as lost, but for what isn't wanted. Where the wire listens, and how patient the loop is, no turn changes.
//!
//! Losing a session may take the speaker long, where it had many routes. So of the connections that the wire tells to be ending
//! one is visited a turn, the others are put off, and each comes to its turn: between two of them all other connections are
//! read and written to, and all sessions told the moment.
#![tactic(auto)]

mod end;
mod laws;
mod line;
mod patience;
mod place;
mod serving;
mod sessions;
mod speaker_loop;

pub use end::End;
pub use laws::{
    as_many_are_lost_as_are_counted, endless_patience_ends_nothing, loops_stay_as_patient,
    sessions_carry_their_own_octets, those_that_end_have_their_turn,
    turns_are_calls_of_the_speaker, what_is_heard_outlasts_a_step, wires_listen_where_they_did,
};
pub use line::CLOSING_SECONDS;
pub use patience::Patience;
pub use place::Visit;
pub use speaker_loop::SpeakerLoop;
