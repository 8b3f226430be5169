//! The lines of the log.

use crate::side::Side;
use bgp_fsm::State;
use rtr_client::ClientState;
use std::fmt::{self, Display, Formatter};
use std::net::SocketAddr;
use thiserror::Error;
use watched_wires::Seen;

/// A line of the log, behind its time.
#[derive(Clone, Copy, Debug, PartialEq, Eq, Error)]
pub enum SpeakerLine {
    /// The speaker listens here.
    #[error("listens at {0}")]
    Listens(SocketAddr),
    /// Scrapers connect here.
    #[error("metrics at {0}")]
    Metrics(SocketAddr),
    /// Nothing enables this peer.
    #[error("warning: {0}: no line of the commands enables it")]
    Disabled(Side),
    /// A peer's session has come to another state.
    #[error("{0}: {1}")]
    Session(Side, SessionChange),
    /// The session with the cache has come to another state.
    #[error("{0}: {1}")]
    Cache(Side, CacheChange),
    /// Something was seen of a connection.
    #[error("{0}: {1}")]
    Seen(Side, Seen),
    /// So many more attempts at a connection failed like the one that was told last of this side.
    #[error("{0}: {1} more attempts failed alike")]
    Alike(Side, u64),
    /// The wire saw more in a turn than it keeps.
    #[error("connections: {0} more things were seen")]
    Unseen(u64),
    /// More lines of a kind were to be written in a minute than are.
    #[error("{about}: {lines} more lines were left out, {most} a minute are written")]
    LeftOut {
        about: Flood,
        lines: u64,
        most: u32,
    },
    /// How many of the configured sessions are established, how many routes Loc-RIB has, how many payloads are in force, how
    /// many turns were taken, connections lost, and of them closed on this side, and how many octets came and went since the
    /// start.
    #[error("status: sessions {established} of {sessions} established, routes {routes}, payloads {payloads}, turns {turns}, connections lost {lost}, closed {closed}, octets {octets_in} in, {octets_out} out")]
    Status {
        established: u8,
        sessions: u8,
        routes: u64,
        payloads: u64,
        turns: u64,
        lost: u64,
        closed: u64,
        octets_in: u64,
        octets_out: u64,
    },
}

/// Lines of which no more than so many are written in a minute.
#[derive(Clone, Copy, Debug, PartialEq, Eq, Error)]
pub enum Flood {
    /// Those about peers and the cache.
    #[error("sessions")]
    Sessions,
    /// Those about operators.
    #[error("operators")]
    Operators,
    /// Those about others.
    #[error("strangers")]
    Strangers,
}

/// The state of a slot's session behind a turn and before it; a slot that isn't configured has none.
#[derive(Clone, Copy, Debug, PartialEq, Eq)]
pub struct SessionChange {
    pub before: Option<State>,
    pub now: Option<State>,
}

impl SessionChange {
    /// Whether the session waits for a connection behind it, as it did before.
    pub(crate) fn is_of_attempts(self) -> bool {
        waits(self.before) && waits(self.now)
    }
}

// Whether a session is there that has no connection (RFC 4271 section 8.2.2).
fn waits(state: Option<State>) -> bool {
    matches!(state, Some(State::Idle | State::Connect | State::Active))
}

impl Display for SessionChange {
    fn fmt<W: fmt::Write>(&self, f: &mut Formatter<W>) -> fmt::Result {
        match (self.before, self.now) {
            (_, None) => f.write_str("removed"),
            (None, Some(state)) => write!(f, "configured, {state}"),
            (Some(State::Established), Some(state)) => write!(f, "{state}, no longer Established"),
            (Some(_), Some(state)) => write!(f, "{state}"),
        }
    }
}

/// What has become of the session with the cache.
#[derive(Clone, Copy, Debug, PartialEq, Eq, Error)]
pub enum CacheChange {
    /// There is none.
    #[error("no session")]
    Off,
    /// There is none any more.
    #[error("session lost")]
    Lost,
    /// An attempt to connect has begun.
    #[error("connecting")]
    Opening,
    /// A query was sent.
    #[error("asked for payloads")]
    Asked,
    /// The cache has no data yet.
    #[error("it has no data yet")]
    Wait,
    /// The payloads of the cache are in force, so many.
    #[error("synced, {0} payloads in force")]
    Synced(u64),
    /// Those that were in force are no longer: they were flushed, or have expired.
    #[error("no payloads are in force any more")]
    NoPayloads,
}

impl CacheChange {
    /// Whether there is no session behind it, as there was none before.
    pub(crate) fn is_of_attempts(self) -> bool {
        matches!(self, CacheChange::Off | CacheChange::Opening)
    }

    /// What the log says where the session has come to this state, if anything: a response that is being read is passed over.
    pub(crate) fn of(before: Option<ClientState>, now: ClientState, payloads: u64) -> Option<Self> {
        match now {
            ClientState::Off => match before {
                None | Some(ClientState::Opening) => Some(CacheChange::Off),
                _ => Some(CacheChange::Lost),
            },
            ClientState::Opening => Some(CacheChange::Opening),
            ClientState::Asked => Some(CacheChange::Asked),
            ClientState::Loading => None,
            ClientState::Synced => Some(CacheChange::Synced(payloads)),
            ClientState::Wait => Some(CacheChange::Wait),
        }
    }
}
