//! Sockets that don't wait, as loops of turns see them.
//!
//! `Wire` is what a loop asks of sockets: it keeps each of its calls in mind with the answer, and counts its faults, its ends
//! of input, its sockets and octets (`specs/Wires.antt`). `Outgoing` holds the octets that were handed out for a socket and
//! not yet written. What a socket gave and took over any calls is in `specs/Carried.antt`, and what a loop counts of the
//! connections that it lost in `specs/Counts.antt`. The sockets of the system are in net_wires; no loop is here.
#![tactic(auto)]

mod fault;
mod log;
mod outgoing;
mod wire;

pub use fault::LoopFault;
pub use log::{Log, Note};
pub use outgoing::{OUTGOING_OCTETS, Outgoing, TURN_OCTETS};
pub use wire::{Accepted, Attempt, Parting, Received, Sent, Wire};
