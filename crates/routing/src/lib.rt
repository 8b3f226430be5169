//! The tables that routes go through: what came from the peers, the best of it, and what each peer is owed of that.
//!
//! **Parts.** `Routing` has Adj-RIB-In with Loc-RIB and what each peer was sent (RFC 4271 section 3.2), and of each prefix
//! what waits for each Established peer: a withdrawal, an announcement or nothing; announcements are listed by the octets
//! that are written, so that those of one UPDATE are found soon. The sessions stand beside it, as `Links`.
//!
//! **The way of a route.** A message at the front of a slot's rest is an input to its session, and an UPDATE among them
//! brings and withdraws routes (`take_front`): room is made for all that it announces, or nothing is taken. A route makes a
//! candidate by the configuration and the payloads in force (`candidate`, `judge_route`); what changes these makes the
//! candidates of the prefixes that it touches again (`choose_again`, `choose_touched` and the like). Whatever changes, the best
//! route of a prefix is chosen once at most, and for each Established peer the prefix is marked. What is exported of it is
//! written by `export`, and a peer is told by `announce` and `withdraw`.
//!
//! **What holds when.** Each function is given, and gives back, that of each prefix there waits for each slot just what its
//! peer is owed, an announcement listed by its octets (`AreMarked`), and that each candidate has its own peer's address
//! (`IsSound`). The type above keeps both, and what stands above that knows of neither.
//!
//! Nothing here is said of a command, a run or a session's history. To read first: the definitions `RoutingState` and `Marks`,
//! then `routing`, `candidates`, `updates`, `message`, `exports`, `told`, `waiting`.
#![tactic(auto)]

mod candidates;
mod exports;
mod message;
mod routing;
mod told;
mod updates;
mod waiting;

pub use candidates::{
    choose_again, choose_slot, choose_touched, choose_turned, choose_within, judge_network,
    remade_at,
};
pub use exports::{Octets, export, export_peer, place};
pub use message::{Standard, take_front};
pub use routing::{Links, Routing, slots_end};
pub use told::{announce, withdraw};
pub use updates::Sender;
pub use waiting::WaitingPrefixes;
