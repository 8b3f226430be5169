//! What a speaker is made with.
ghost use Rattle.std.specs.Prelude.{◌≡◌};
ghost use Rattle.runs.specs.SlotTimes.{are_lawful, is_retry, times_at, with_times};

use bgp_conf::PEER_SLOTS;
use bgp_fsm::PeerTimers;
use net_prefix::Asn;

/// How long a session with a cache waits behind what failed, in seconds, where nothing else is wanted of it and no load has
/// told another Retry Interval (RFC 8210 section 6).
pub const CACHE_RETRY_SECONDS: u32 = 600;

/// What a speaker is made with: its AS, its BGP Identifier, whether it has a cache session and how long that waits at first,
/// what its OPEN tells, and for how long the timers of its peers run.
#[derive(Clone, Copy, Debug, PartialEq, Eq)]
pub struct Config {
    pub asn: Asn,
    /// The BGP Identifier, an IPv4 address as a number.
    pub identifier: u32,
    pub cache: bool,
    /// The Retry Interval of the cache session until a load has brought the cache's own, in seconds: for how long it waits
    /// behind what failed (RFC 8210 section 6). `CACHE_RETRY_SECONDS` is the usual one.
    pub cache_retry: u32,
    /// Whether its OPEN tells IPv4 unicast by the capability of RFC 4760 section 8.
    pub multiprotocol: bool,
    /// For how long the timers of the peers run that an operator may set.
    pub timers: SlotTimers,
}

impl Config {
    /// Whether the cache session waits for so many seconds as a Retry Interval may be (RFC 8210 section 6).
    pub fn has_retry(&self) -> bool
        ensures { result ≡ is_retry self.now.cache_retry }
    {
        1 <= self.cache_retry && self.cache_retry <= 7_200
    }
}

/// For how long the timers of the peer of each slot run that an operator may set.
#[derive(Clone, Copy, Debug, PartialEq, Eq)]
pub struct SlotTimers {
    pub(crate) slots: [PeerTimers; PEER_SLOTS as usize],
}

impl SlotTimers {
    /// The usual ones in each slot.
    pub const USUAL: SlotTimers = SlotTimers {
        slots: [PeerTimers::USUAL; PEER_SLOTS as usize],
    };

    /// Those of the peer of a slot; the usual ones behind the last slot.
    pub fn of(&self, slot: u8) -> PeerTimers
        ensures { result ≡ times_at self.now slot }
    {
        match self.slots.get(usize::from(slot)) {
            Some(times) => *times,
            None => PeerTimers::USUAL,
        }
    }

    /// With these for the peer of a slot; behind the last slot nothing changes.
    pub fn with_slot(self, slot: u8, times: PeerTimers) -> SlotTimers
        ensures { result ≡ with_times self slot times }
    {
        let mut timers = self;
        if slot < PEER_SLOTS {
            timers.slots[usize::from(slot)] = times;
        }
        timers
    }

    /// Whether each of them runs for a second at least.
    pub fn are_lawful(&self) -> bool
        ensures { result ≡ are_lawful self.now }
    {
        self.slots.iter().all(|times| times.are_lawful())
    }
}
