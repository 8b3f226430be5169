//! What a run counts.
ghost use Rattle.std.specs.Prelude.{◌≡◌, Some};
ghost use Rattle.speaker_watch.specs.RunCounts.{figures_of, is_to_count, none_counted, seeing, seeing_all, taking};

use speaker_figures::{CacheStates, Notices, SessionStates, SpeakerFigures};
use watched_wires::{Seen, WireEvent};

/// How many seconds lie at least between two counts of the routes and of the payloads for scrapers (own choice): each goes over
/// all of them.
pub const COUNT_SECONDS: u64 = 30;

/// How a speaker stands behind a turn, as far as that is told without going over its routes.
#[derive(Clone, Copy, Debug, PartialEq, Eq)]
pub struct Standing {
    pub sessions: SessionStates,
    pub cache: CacheStates,
    pub octets_in: u64,
    pub octets_out: u64,
    pub lost: u64,
    pub closed: u64,
}

/// What a run has counted. A count stays at the greatest u64.
#[derive(Clone, Copy, Debug, PartialEq, Eq)]
pub struct Counts {
    received: Notices,
    sent: Notices,
    turns: u64,
    // When routes and payloads were counted last, and how many there were.
    counted: Option<u64>,
    routes: u64,
    payloads: u64,
}

impl Counts {
    /// Nothing.
    pub fn new() -> Counts
        ensures { result ≡ none_counted }
    {
        Counts {
            received: Notices::new(),
            sent: Notices::new(),
            turns: 0,
            counted: None,
            routes: 0,
            payloads: 0,
        }
    }

    /// A turn was taken, in which this was seen.
    pub fn turn(&mut self, seen: &[WireEvent])
        ensures { self.new ≡ taking seen.now self.old }
    {
        self.turns = self.turns.saturating_add(1);
        self.see_all(seen);
    }

    fn see_all(&mut self, seen: &[WireEvent])
        ensures { self.new ≡ seeing_all seen.now self.old }
    {
        for event in seen {
            self.see(event.seen);
        }
    }

    fn see(&mut self, seen: Seen)
        ensures { self.new ≡ seeing seen self.old }
    {
        match seen {
            Seen::Received(notice) => self.received.count(notice.code),
            Seen::Sent(notice) => self.sent.count(notice.code),
            Seen::NoAttempt | Seen::AttemptFailed(_) | Seen::Refused(_) => {}
            Seen::AttemptEnded(_) | Seen::Ended(_) => {}
        }
    }

    /// Whether routes and payloads are to be counted before figures are told at this moment.
    pub fn is_to_count(&self, now: u64) -> bool
        ensures { result ≡ is_to_count 30 self.now.counted now }
    {
        match self.counted {
            Some(counted) => now.saturating_sub(counted) >= COUNT_SECONDS,
            None => true,
        }
    }

    /// At this moment there are so many.
    pub fn count(&mut self, now: u64, routes: u64, payloads: u64)
        ensures { self.new ≡ record self.old { counted = Some now; routes = routes; payloads = payloads } }
    {
        self.counted = Some(now);
        self.routes = routes;
        self.payloads = payloads;
    }

    /// The figures of a run that stands so.
    pub fn figures(&self, standing: &Standing) -> SpeakerFigures
        ensures { result ≡ figures_of self.now standing.now }
    {
        SpeakerFigures {
            sessions: standing.sessions,
            cache: standing.cache,
            routes: self.routes,
            payloads: self.payloads,
            received: self.received,
            sent: self.sent,
            octets_in: standing.octets_in,
            octets_out: standing.octets_out,
            lost: standing.lost,
            closed: standing.closed,
            turns: self.turns,
        }
    }
}
