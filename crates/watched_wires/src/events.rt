//! What a wire has seen.
ghost use Rattle.std.specs.Prelude.{◌≡◌, ◌≤◌, [], length};
ghost use Rattle.watched_wires.specs.Limits.{most_events};

use crate::notice::Notice;
use connect_faults::ConnectFault;
use std::alloc::Global;
use std::net::SocketAddr;
use thiserror::Error;
use wires::Parting;

/// How many things that were seen are kept at most until the next rest (own choice): seven of each of 65 sessions, and some
/// more.
pub const MOST_EVENTS: usize = 512;

/// What was seen of a connection, or of an attempt at one.
#[derive(Clone, Copy, Debug, PartialEq, Eq, Error)]
pub enum Seen {
    /// No attempt could be begun, for no cause that is known.
    #[error("no attempt to connect can be begun")]
    NoAttempt,
    /// An attempt to connect has failed, or none could be begun, for this cause.
    #[error("attempt to connect failed: {0}")]
    AttemptFailed(ConnectFault),
    /// A connection came and was closed.
    #[error("connection refused: {0}")]
    Refused(Parting),
    /// An attempt to connect has ended otherwise.
    #[error("attempt to connect ended: {0}")]
    AttemptEnded(Parting),
    /// A connection has ended.
    #[error("connection ended: {0}")]
    Ended(Parting),
    /// A NOTIFICATION came.
    #[error("NOTIFICATION received: {0}")]
    Received(Notice),
    /// A NOTIFICATION went.
    #[error("NOTIFICATION sent: {0}")]
    Sent(Notice),
}

/// What was seen, and the address of the other side.
#[derive(Clone, Copy, Debug, PartialEq, Eq)]
pub struct WireEvent {
    pub address: SocketAddr,
    pub seen: Seen,
}

/// What was seen since the last rest.
#[derive(Drop)]
pub(crate) struct Events {
    kept: Vec<WireEvent>,
    // How many more there were.
    left_out: u64,
    pub ghost few: { length kept.items ≤ most_events },
}

impl Events {
    /// Nothing.
    pub fn new(alloc: Global) -> Events
        ensures { result.kept.items ≡ [] }
    {
        Events {
            kept: Vec::new(alloc),
            left_out: 0,
        }
    }

    /// This was seen, too. It is counted alone where there is no room for it.
    #[tactic(auto, unfolding(crate::specs::Limits::most_events))]
    pub fn see(&mut self, address: SocketAddr, seen: Seen) {
        if self.kept.len() >= MOST_EVENTS || self.kept.push(WireEvent { address, seen }).is_err() {
            self.left_out = self.left_out.saturating_add(1);
        }
    }

    /// What it was, in order.
    pub fn kept(&self) -> &[WireEvent]
        ensures { length result.now ≤ most_events }
    {
        self.kept.as_slice()
    }

    pub fn left_out(&self) -> u64
        ensures { result ≡ self.now.left_out }
    {
        self.left_out
    }

    /// Nothing any more.
    pub fn clear(&mut self)
        ensures { self.new.kept.items ≡ [] }
    {
        self.kept.clear();
        self.left_out = 0;
    }
}
