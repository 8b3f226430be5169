//! The turns of a cache over sockets that don't wait.
//!
//! `CacheLoop` serves the clients of a `rtr_cache` (RFC 8210) over a `Wire` of wires, which keeps each of its calls in
//! mind, with the answer. A turn returns whatever the wire does: it asks for a connection once and lets in one at most,
//! visits each connection once, and tells the cache the moment (`specs/Turns.antt`). A visit reads once, into a buffer
//! of 4,096 octets, and the client hears just what its own socket gave. Then it writes once, where there is anything to
//! write: it offers all octets that wait, or where none wait those that the cache hands out; what doesn't go waits, and
//! while octets wait nothing more is taken of the cache (`specs/Serving.antt`). A connection ends where its socket has
//! told a fault or the end of its input, where the cache has closed it and all that was said is written, or where its
//! client was silent for too long (`specs/Patience.antt`), and nowhere else. Each that ends is counted as lost, once. A
//! turn that ends the program changes no connection. Over all turns what a socket takes is just what the cache hands
//! out for its client: a front of whole PDUs (`specs/Carrying.antt`). No turn publishes anything: what is served
//! changes between turns, by `load`, alone. Where the wire listens no turn changes.
#![tactic(auto)]

mod cache_loop;
mod holding;
mod laws;
mod link;
mod patience;

pub use cache_loop::CacheLoop;
pub use holding::Holding;
pub use laws::{
    connections_carry_whole_versions, no_more_are_lost_than_are_counted,
    turns_are_calls_of_the_cache, turns_publish_nothing, wires_listen_where_they_did,
};
pub use link::Arrival;
pub use patience::{CLOSING_SECONDS, Patience};
pub use wires::{
    Accepted, Attempt, Log, LoopFault, Note, Parting, Received, Sent, TURN_OCTETS, Wire,
};
