//! Runs: what happened to a speaker so far, and what is promised of a speaker after it. Words and laws, and no code but the
//! types of what goes in and comes out.
//!
//! **A run** is the list of calls that were answered, with the answers (`Runs`): events handed in, and octets handed out.
//! Of a run it is said what the configuration is, what came to each session with the histories of its connections, what the
//! cache has loaded, at which moment, and what was told to each peer (`Held`, read back from the octets that were queued).
//!
//! **What is promised** (`Agreement`): the state of a speaker agrees with a run where each session is in its event table's
//! state, the payloads in force are what the last load is under the local exceptions, Loc-RIB is the selection over all
//! accepted routes, and each peer holds its permitted export. `FirstRefusal` says why an event is refused, `Choices` and
//! `Concerned` how often a best route may be chosen, `Queueing` which prefix comes first (what an UPDATE names: `IsOwedIn`,
//! by `Packing` of routing, which rises by address and length, so another order changes both), `Refreshes` and `Waiting`
//! what a peer asked for and what waits, `Played` what the answers to a list of events are.
//!
//! The laws (proofs) are of histories alone: no table and no code is in them. To read first: `Runs`, `Agreement`.
#![tactic(auto)]

mod config;
mod event;

pub use config::{CACHE_RETRY_SECONDS, Config, SlotTimers};
pub use event::{Event, Report, slot_bit};
