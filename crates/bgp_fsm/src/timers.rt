//! The timers of a session.
ghost use Rattle.std.specs.Prelude.{◌≡◌};
ghost use Rattle.bgp_fsm.specs.TimerMoments.{are_lawful, end_of, falling, has_ended, hold_end, keepalive_end, only_connect_retry, only_hold, opened_timers};

use moments::{from_now, has_come};

/// How long a session waits for the peer's OPEN, in seconds (RFC 4271 section 8.2.2).
pub const OPEN_HOLD_SECONDS: u16 = 240;

/// How long an active peer waits for a connection before it tries again, in seconds, where nothing else is wanted of it
/// (RFC 4271 section 10).
pub const CONNECT_RETRY_SECONDS: u16 = 120;

/// How long the session of an enabled peer stays in Idle before it begins again, in seconds, where nothing else is wanted of it
/// (own).
pub const IDLE_HOLD_SECONDS: u16 = 30;

/// For how long those timers of a peer run that its operator may set, in seconds (RFC 4271 section 8, ConnectRetryTime and
/// IdleHoldTime).
#[derive(Clone, Copy, Debug, PartialEq, Eq)]
pub struct PeerTimers {
    /// How long an active peer waits for a connection before it tries again.
    pub connect_retry: u16,
    /// How long the session of an enabled peer stays in Idle before it begins again.
    pub idle_hold: u16,
}

impl PeerTimers {
    /// Those of a peer of which nothing else is wanted.
    pub const USUAL: PeerTimers = PeerTimers {
        connect_retry: CONNECT_RETRY_SECONDS,
        idle_hold: IDLE_HOLD_SECONDS,
    };

    /// Whether each runs for a second at least.
    pub fn are_lawful(&self) -> bool
        ensures { result ≡ are_lawful self.now }
    {
        self.connect_retry != 0 && self.idle_hold != 0
    }
}

/// A timer of a session (RFC 4271 section 8.1.3).
#[derive(Clone, Copy, Debug, PartialEq, Eq)]
pub enum Timer {
    Hold,
    ConnectRetry,
    IdleHold,
    Keepalive,
}

/// When each timer of a session ends, in seconds: none for one that doesn't run, or whose end would lie behind the
/// greatest moment.
#[derive(Clone, Copy, Debug, PartialEq, Eq)]
pub struct Timers {
    pub hold: Option<u64>,
    pub connect_retry: Option<u64>,
    pub idle_hold: Option<u64>,
    pub keepalive: Option<u64>,
}

impl Timers {
    /// No timer runs.
    pub const STOPPED: Timers = Timers {
        hold: None,
        connect_retry: None,
        idle_hold: None,
        keepalive: None,
    };

    /// Whether the timer has ended at this moment.
    pub fn has_ended(&self, timer: Timer, now: u64) -> bool
        ensures { result ≡ has_ended timer now self.now }
    {
        has_come(self.end_of(timer), now)
    }

    fn end_of(&self, timer: Timer) -> Option<u64>
        ensures { result ≡ end_of timer self.now }
    {
        match timer {
            Timer::Hold => self.hold,
            Timer::ConnectRetry => self.connect_retry,
            Timer::IdleHold => self.idle_hold,
            Timer::Keepalive => self.keepalive,
        }
    }

    // The peer's OPEN is awaited.
    pub(crate) fn awaiting_open(now: u64) -> Timers
        ensures { result ≡ only_hold now 240 }
    {
        Timers {
            hold: from_now(now, u32::from(OPEN_HOLD_SECONDS)),
            ..Timers::STOPPED
        }
    }

    // A connection is awaited.
    pub(crate) fn awaiting_connection(now: u64, seconds: u16) -> Timers
        ensures { result ≡ only_connect_retry now seconds }
    {
        Timers {
            connect_retry: from_now(now, u32::from(seconds)),
            ..Timers::STOPPED
        }
    }

    // The session has fallen to Idle.
    pub(crate) fn falling(enabled: bool, now: u64, seconds: u16) -> Timers
        ensures { result ≡ falling enabled now seconds }
    {
        if !enabled {
            return Timers::STOPPED;
        }
        Timers {
            idle_hold: from_now(now, u32::from(seconds)),
            ..Timers::STOPPED
        }
    }

    // The session is kept alive.
    pub(crate) fn opened(hold_time: u16, now: u64) -> Timers
        ensures { result ≡ opened_timers hold_time now }
    {
        Timers {
            hold: hold_end(hold_time, now),
            keepalive: keepalive_end(hold_time, now),
            ..Timers::STOPPED
        }
    }
}

/// When a message of the peer has to come; never with a hold time of 0.
pub(crate) fn hold_end(hold_time: u16, now: u64) -> Option<u64>
    ensures { result ≡ hold_end hold_time now }
{
    if hold_time == 0 {
        return None;
    }
    from_now(now, u32::from(hold_time))
}

/// When a KEEPALIVE has to go: after a third of the hold time; never with one of 0.
pub(crate) fn keepalive_end(hold_time: u16, now: u64) -> Option<u64>
    ensures { result ≡ keepalive_end hold_time now }
{
    if hold_time == 0 {
        return None;
    }
    from_now(now, u32::from(hold_time / 3))
}
