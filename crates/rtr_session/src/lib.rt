//! The speaker's session with its cache on one connection (RFC 8210 section 8): the client's table, what came and no
//! PDU has taken, and the output ring.
//!
//! What each thing that happens makes of a session is one definition of `specs/SessionState.antt`: its connection comes
//! up or fails, a moment comes, octets come, octets are handed out. The rows are those of `rtr_client`, the PDUs those of
//! `rtr_codec`. An Error Report is queued whatever is free: it always finds room, since while the connection stands 48
//! octets are free. A query is queued where `ROOM_FOR_QUERY` octets are free; else the session closes. Memory is taken
//! by `CacheSession::new`, and by the client for a load: where it is refused there the session closes with an Error
//! Report, and the payloads in force stay.
//!
//! A history is all that happened to a session. `specs/SessionHistory.antt` says what it leaves: the client, what was
//! queued and what was handed out. Each call keeps the session as any history leaves it (`SessionAgrees` of
//! `specs/Agreement.antt`): the history goes on by what the call did. The payloads in force are those of the last
//! completed load, read off the PDUs of one connection (`specs/Loads.antt`, `specs/PayloadsInForce.antt`).
#![tactic(auto)]

mod laws;
mod sender;
mod session;

pub use laws::{
    octets_are_dropped, octets_are_pdus, payloads_are_of_the_last_load, pieces_join,
    reports_find_room,
};
pub use sender::{RING_OCTETS, ROOM_FOR_QUERY};
pub use session::{CacheSession, Hearing};
