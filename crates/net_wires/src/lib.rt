//! The system's TCP sockets as a wire.
//!
//! `NetWire` is a `Wire` of wires, over which turns serve. It asks the system only of sockets that may be ready: what the
//! system's `epoll` has told of one is kept until a call would have had to wait (`specs/Readiness.antt`). Each call is kept in
//! mind with its answer, and each socket has its number. What it has seen of connections that come and go since the last
//! turn is told for a log (`RouterEvent`), and what a fault of `accept` means is read off its number (`AcceptFault`). That
//! the sockets of the system are read and written so is shown by tests. Nothing is encrypted, and the other sides aren't
//! told apart but by address.
#![tactic(auto)]

mod accept_fault;
mod net_socket;
mod net_wire;
mod readiness;
mod router_event;
mod system_sockets;
mod waiter;

pub use accept_fault::AcceptFault;
pub use net_socket::NetSocket;
pub use net_wire::{NetWire, REST_MILLISECONDS};
pub use router_event::RouterEvent;
