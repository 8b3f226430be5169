//! Routes: what came from the peers, what the selection makes of it, and what each peer is owed of it.
//!
//! **Parts.** `Routes` is the one type that others call. It has the configuration, the payloads that are loaded, a `Peer`
//! for each slot, the tables (`Routing` of routing) and what was announced lately, for peers to share. Its value
//! (`RoutesState`) has all of these but what waits: that is where what a peer holds and its export differ, or the peer has
//! asked for what it holds again (RFC 2918). Routes are judged by the payloads in force: what the configuration's local
//! exceptions make of the loaded ones (RFC 8416 section 3), which is kept nowhere.
//!
//! **The way of an event.** A session's input moves its slot, and where it enters or leaves Established, or its peer asks
//! for all routes again, the routes follow (`input`). A message at the front of a slot's rest is an input to the session,
//! and an UPDATE among them brings and withdraws routes (`judge_front`). A command changes the configuration and what
//! depends on it (`originate`, `set_policy` and the like); payloads that came or went judge again the routes that they
//! concern (`payloads_changed`), and so do local exceptions with those that come into force or go (`filter`, `assert`).
//! What then waits is asked for in order (`withdrawal_after`, `announcement_after`) and told (`tell_withdrawals`,
//! `tell_announcements`); `Routing::announce` and `withdraw` are something else: a route that came or went.
//!
//! **What holds when.** Between calls: no two peers have one address, each candidate has its own peer's, and of each prefix
//! there waits for each slot just what its peer is owed, and an announcement is listed by its octets (the invariant of
//! `Routes`). No clause outside speaks of marks or lists.
//!
//! Nothing here speaks of a run or of a session's history: the speaker above does. To read first: the definition
//! `RoutesState` of routing, then `routes`, `sessions`, `commands`, `exceptions`, `queue` (the calls), `packing` (which
//! prefixes one UPDATE names), `waiting_after`.
#![tactic(auto)]

mod asked;
mod commands;
mod exceptions;
mod packing;
mod queue;
mod routes;
mod sessions;
mod waiting_after;

pub use packing::Draft;
pub use routes::Routes;
pub use waiting_after::WaitingAfter;
