//! The session table: what one input makes of a session (RFC 4271 section 8.2.2, in this profile).
//!
//! A session is a value, and `Session::input` is one row of the table: the contract is one equation, `row_at` of
//! `specs/SessionTable.antt`. Above the table stand laws in the words of the RFC. A peer has one connection, so there
//! is no collision, no delayed open and no damping. A session that closes tells its peer why by a NOTIFICATION, unless
//! it got one. A timer ends at the first moment that is handed in and that is at least its own; whoever keeps the session
//! asks which have ended, and hands in their ends. No call takes memory.
#![tactic(auto)]

mod input;
mod laws;
mod rows;
mod session;
mod state;
mod timers;

pub use input::Input;
pub use laws::{
    closes_what_is_open, closing_is_told, entered_tells, established_begins, left_tells,
    notifications_close, open_answers_up, opened_tells, refreshed_tells, timers_begin, timers_fit,
};
pub use session::{Effects, Outgoing, Session};
pub use state::State;
pub use timers::{
    CONNECT_RETRY_SECONDS, IDLE_HOLD_SECONDS, OPEN_HOLD_SECONDS, PeerTimers, Timer, Timers,
};
