//! A wire over a wire, which keeps in mind what a log tells of connections.
//!
//! `WatchedWire` hands each call to the wire inside and answers what that one answers: its state, the numbers of its sockets
//! and their addresses are those of the wire inside, so that whatever is said of turns over a wire is said of turns over this
//! one. Beside that it keeps a list of what it saw since the last rest: connections that were refused or ended, attempts that
//! ended, and each NOTIFICATION that came or went, which it finds by following the messages of both directions (RFC 4271
//! section 4.1). The list has so many entries at most, and what doesn't fit is counted. What has no good header is followed no
//! more. Where nobody asks for it nothing is followed and nothing kept.
#![tactic(auto)]

mod events;
mod follower;
mod kept_data;
mod names;
mod notice;
mod shutdown_text;
mod watched;

pub use events::{MOST_EVENTS, Seen, WireEvent};
pub use follower::Follower;
pub use names::{error_name, subcode_name};
pub use notice::{Notice, SHOWN_OCTETS};
pub use shutdown_text::{COMMUNICATION_OCTETS, Quoted, communication_in, is_of_shutdown, is_plain};
pub use watched::{Watched, WatchedSocket, WatchedWire};
