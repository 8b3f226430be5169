//! How a speaker stands, and what its run has counted.

use crate::notices::Notices;

/// How many sessions of peers are in each state (RFC 4271 section 8.2.2).
#[derive(Clone, Copy, Debug, PartialEq, Eq)]
pub struct SessionStates {
    pub idle: u64,
    pub connect: u64,
    pub active: u64,
    pub open_sent: u64,
    pub open_confirm: u64,
    pub established: u64,
}

impl SessionStates {
    /// None in any.
    pub const NONE: SessionStates = SessionStates {
        idle: 0,
        connect: 0,
        active: 0,
        open_sent: 0,
        open_confirm: 0,
        established: 0,
    };
}

/// The state of the session with the cache: 1 for the one that it is in. Without a cache there is none.
#[derive(Clone, Copy, Debug, PartialEq, Eq)]
pub struct CacheStates {
    pub off: u64,
    pub opening: u64,
    pub asked: u64,
    pub loading: u64,
    pub synced: u64,
    pub wait: u64,
}

impl CacheStates {
    /// In none.
    pub const NONE: CacheStates = CacheStates {
        off: 0,
        opening: 0,
        asked: 0,
        loading: 0,
        synced: 0,
        wait: 0,
    };
}

/// How sessions stand at a moment; how many prefixes have a best route and how many payloads are in force, as they were counted
/// last; and what was counted since the start.
#[derive(Clone, Copy, Debug, PartialEq, Eq)]
pub struct SpeakerFigures {
    pub sessions: SessionStates,
    pub cache: CacheStates,
    pub routes: u64,
    pub payloads: u64,
    pub received: Notices,
    pub sent: Notices,
    pub octets_in: u64,
    pub octets_out: u64,
    pub lost: u64,
    pub closed: u64,
    pub turns: u64,
}
