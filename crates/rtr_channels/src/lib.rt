//! A cache and a router's client of it, over every list of events (RFC 8210).
//!
//! The two ends are one cache with all its clients, and one router's client; between them are the octets on the way
//! (`specs/Channels.antt`). What can happen to them are the events of `specs/ChannelEvents.antt`: the cache is called, the
//! client reads the next PDU, a moment comes, a connection opens, is lost or fails, the cache restarts; at any of them
//! memory may be refused, and a query may find no room. `versions_agree` promises of every list of events that the client
//! holds just what the cache published. `calls_are_events`, `steps_are_events` and `new_ends_are_a_beginning` tie the events
//! to the contracts of `rtr_cache` and `rtr_client`, and say that some lead to payloads in force; `sessions_are_clients`
//! says the same of one input of `rtr_session`.
#![tactic(auto)]

mod laws;

pub use laws::{
    calls_are_events, new_ends_are_a_beginning, sessions_are_clients, steps_are_events,
    versions_agree,
};
