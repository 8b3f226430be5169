//! What is told of a speaker behind each turn.
ghost use Rattle.std.specs.Prelude.{◌≡◌, IfOk, false};

use crate::asked::Asked;
use crate::failure::failure_of;
use crate::line::{CacheChange, Flood, SessionChange, SpeakerLine};
use crate::places::Places;
use crate::series::{Met, Series};
use crate::shown::Shown;
use crate::side::Side;
use bgp_conf::PEER_SLOTS;
use bgp_fsm::State;
use log_limits::LineLimit;
use log_lines::{Every, log};
use rtr_client::ClientState;
use std::alloc::{AllocError, Global};
use std::io::Write;
use std::net::SocketAddr;
use std::rt::Clock;
use watched_wires::Seen;

/// How many lines a minute are about peers and the cache at most, how many about strangers, and how many about operators
/// (own choice).
pub const LINES_A_MINUTE: u32 = 300;

/// The log of a speaker.
#[derive(Drop)]
pub struct Journal {
    is_on: bool,
    kept: Kept,
}

// What is kept of the turns before.
#[derive(Drop)]
struct Kept {
    places: Places,
    // What fails alike of each slot, and of the cache behind them.
    series: Vec<Series>,
    // The state of each slot's session, and of that with the cache.
    sessions: Vec<Option<State>>,
    cache_session: Option<ClientState>,
    had_payloads: bool,
    turns: u64,
    status: Every,
    about_sessions: LineLimit,
    about_strangers: LineLimit,
    about_operators: LineLimit,
}

impl Journal {
    /// Nothing was told yet. Peers and cache are there; each so many seconds a line tells how all stands.
    pub fn new(
        alloc: Global,
        is_on: bool,
        status: Option<u32>,
        peers: &[(u8, SocketAddr)],
        cache: Option<SocketAddr>,
    ) -> Result<Journal, AllocError>
        ensures { IfOk result (λ journal. journal.is_on ≡ is_on) }
    {
        Ok(Journal {
            is_on,
            kept: Kept::new(alloc, status, peers, cache)?,
        })
    }

    /// The speaker listens here.
    pub fn listens<R: Clock, O: Write>(&self, rt: &R, address: SocketAddr, output: &mut O)
        ensures { self.now.is_on ≡ false → output.new ≡ output.old }
    {
        log(rt, self.is_on, output, &SpeakerLine::Listens(address));
    }

    /// Scrapers connect here.
    pub fn metrics<R: Clock, O: Write>(&self, rt: &R, address: SocketAddr, output: &mut O)
        ensures { self.now.is_on ≡ false → output.new ≡ output.old }
    {
        log(rt, self.is_on, output, &SpeakerLine::Metrics(address));
    }

    /// The speaker is so before its first turn: of peers that nothing enables it is told.
    pub fn begins<S: Shown, R: Clock, O: Write>(&self, rt: &R, shown: &S, output: &mut O)
        ensures { self.now.is_on ≡ false → output.new ≡ output.old }
    {
        if !self.is_on {
            return;
        }
        self.kept.tell_disabled(rt, shown, output);
    }

    /// The speaker is so behind a turn, at this moment.
    pub fn tell<S: Shown, R: Clock, O: Write>(
        &mut self,
        rt: &R,
        shown: &S,
        now: u64,
        output: &mut O,
    )
        ensures silent { self.old.is_on ≡ false → output.new ≡ output.old }
        ensures same { self.new.is_on ≡ self.old.is_on }
    {
        if self.is_on {
            self.kept.tell(rt, shown, now, output);
        }
    }

    /// The peer of the slot is there, where the settings don't place it.
    pub fn place(&mut self, slot: u8, remote: SocketAddr)
        ensures { self.new.is_on ≡ self.old.is_on }
    {
        self.kept.places.place(slot, remote);
    }

    /// An operator was answered.
    pub fn answered<R: Clock, O: Write>(&mut self, rt: &R, asked: &Asked<'_>, output: &mut O)
        ensures silent { self.old.is_on ≡ false → output.new ≡ output.old }
        ensures same { self.new.is_on ≡ self.old.is_on }
    {
        if self.is_on && self.kept.about_operators.admits() {
            log(rt, true, output, asked);
        }
    }
}

impl Kept {
    fn new(
        alloc: Global,
        status: Option<u32>,
        peers: &[(u8, SocketAddr)],
        cache: Option<SocketAddr>,
    ) -> Result<Kept, AllocError> {
        Ok(Kept {
            places: Places::new(alloc, peers, cache)?,
            series: vec![in alloc; Series::NONE; PEER_SLOTS as usize + 1]?,
            sessions: vec![in alloc; None; PEER_SLOTS as usize]?,
            cache_session: None,
            had_payloads: false,
            turns: 0,
            status: Every::new(status),
            about_sessions: LineLimit::new(LINES_A_MINUTE),
            about_strangers: LineLimit::new(LINES_A_MINUTE),
            about_operators: LineLimit::new(LINES_A_MINUTE),
        })
    }

    fn tell_disabled<S: Shown, R: Clock, O: Write>(&self, rt: &R, shown: &S, output: &mut O) {
        for slot in 0..PEER_SLOTS {
            if shown.session(slot) == Some(State::Idle) {
                let line = SpeakerLine::Disabled(self.places.of_slot(slot));
                log(rt, true, output, &line);
            }
        }
    }

    fn tell<S: Shown, R: Clock, O: Write>(&mut self, rt: &R, shown: &S, now: u64, output: &mut O) {
        self.turns = self.turns.saturating_add(1);
        self.tell_left_out(rt, now, output);
        self.tell_seen(rt, shown, output);
        for slot in 0..PEER_SLOTS {
            self.tell_session(rt, slot, shown.session(slot), output);
        }
        self.tell_cache(rt, shown, output);
        self.tell_payloads(rt, shown.has_payloads(), output);
        if self.status.is_due(now) {
            log(rt, true, output, &status_of(shown, self.turns));
        }
    }

    // How many lines were left out in the minute that is over.
    fn tell_left_out<R: Clock, O: Write>(&mut self, rt: &R, now: u64, output: &mut O) {
        if let Some(lines) = self.about_sessions.tick(now) {
            log(rt, true, output, &left_out(Flood::Sessions, lines));
        }
        if let Some(lines) = self.about_strangers.tick(now) {
            log(rt, true, output, &left_out(Flood::Strangers, lines));
        }
        if let Some(lines) = self.about_operators.tick(now) {
            log(rt, true, output, &left_out(Flood::Operators, lines));
        }
    }

    // What the wire saw.
    fn tell_seen<S: Shown, R: Clock, O: Write>(&mut self, rt: &R, shown: &S, output: &mut O) {
        for event in shown.seen() {
            let side = self.places.at(event.address);
            if self.is_told(rt, side, event.seen, output) && self.admits(side) {
                log(rt, true, output, &SpeakerLine::Seen(side, event.seen));
            }
        }
        if shown.left_out() > 0 {
            log(rt, true, output, &SpeakerLine::Unseen(shown.left_out()));
        }
    }

    // Whether what was seen of this side is to be told: a failure like the one before is counted. What was counted is told
    // before anything else is.
    fn is_told<R: Clock, O: Write>(
        &mut self,
        rt: &R,
        side: Side,
        seen: Seen,
        output: &mut O,
    ) -> bool {
        let Some(series) = series_of(self.series.as_mut_slice(), side) else {
            return true;
        };
        let more = match failure_of(seen) {
            Some(failure) => match series.meet(failure) {
                Met::Alike => return false,
                Met::Other(more) => more,
            },
            None => series.end(),
        };
        self.tell_alike(rt, side, more, output);
        true
    }

    // What fails alike of this side is over.
    fn end_series<R: Clock, O: Write>(&mut self, rt: &R, side: Side, output: &mut O) {
        if let Some(series) = series_of(self.series.as_mut_slice(), side) {
            let more = series.end();
            self.tell_alike(rt, side, more, output);
        }
    }

    fn tell_alike<R: Clock, O: Write>(&mut self, rt: &R, side: Side, more: u64, output: &mut O) {
        if more > 0 && self.admits(side) {
            log(rt, true, output, &SpeakerLine::Alike(side, more));
        }
    }

    // Whether attempts of this side fail alike, one after another.
    fn fails_on(&mut self, side: Side) -> bool {
        match series_of(self.series.as_mut_slice(), side) {
            Some(series) => series.is_on(),
            None => false,
        }
    }

    // Whether one more line about this side may be written.
    fn admits(&mut self, side: Side) -> bool {
        match side {
            Side::Stranger(_) => self.about_strangers.admits(),
            Side::Peer(..) | Side::Cache(_) => self.about_sessions.admits(),
        }
    }

    // Where the slot's session has come to another state.
    fn tell_session<R: Clock, O: Write>(
        &mut self,
        rt: &R,
        slot: u8,
        now: Option<State>,
        output: &mut O,
    ) {
        let Some(kept) = self.sessions.get_mut(slot as usize) else {
            return;
        };
        let before = *kept;
        if before == now {
            return;
        }
        *kept = now;
        let side = self.places.of_slot(slot);
        let change = SessionChange { before, now };
        if change.is_of_attempts() {
            if self.fails_on(side) {
                return;
            }
        } else {
            self.end_series(rt, side, output);
        }
        if self.admits(side) {
            log(rt, true, output, &SpeakerLine::Session(side, change));
        }
    }

    // Where the session with the cache has come to another state.
    fn tell_cache<S: Shown, R: Clock, O: Write>(&mut self, rt: &R, shown: &S, output: &mut O) {
        let (before, now) = (self.cache_session, shown.cache_session());
        if before == now {
            return;
        }
        self.cache_session = now;
        let Some(now) = now else {
            return;
        };
        let payloads = match now {
            ClientState::Synced => shown.payloads(),
            _ => 0,
        };
        if let Some(change) = CacheChange::of(before, now, payloads) {
            self.tell_cache_change(rt, change, output);
        }
    }

    // Steps of attempts that fail alike are left out.
    fn tell_cache_change<R: Clock, O: Write>(
        &mut self,
        rt: &R,
        change: CacheChange,
        output: &mut O,
    ) {
        let side = Side::Cache(self.places.cache);
        if change.is_of_attempts() {
            if self.fails_on(side) {
                return;
            }
        } else {
            self.end_series(rt, side, output);
        }
        self.tell_change(rt, change, output);
    }

    // Where payloads were in force and none are any more.
    fn tell_payloads<R: Clock, O: Write>(&mut self, rt: &R, has_payloads: bool, output: &mut O) {
        if self.had_payloads && !has_payloads {
            self.tell_change(rt, CacheChange::NoPayloads, output);
        }
        self.had_payloads = has_payloads;
    }

    fn tell_change<R: Clock, O: Write>(&mut self, rt: &R, change: CacheChange, output: &mut O) {
        let side = Side::Cache(self.places.cache);
        if self.admits(side) {
            log(rt, true, output, &SpeakerLine::Cache(side, change));
        }
    }
}

// What fails alike of this side; of a stranger nothing is kept.
fn series_of(all: &mut [Series], side: Side) -> Option<&mut Series> {
    match side {
        Side::Peer(slot, _) => all.get_mut(slot as usize),
        Side::Cache(_) => all.get_mut(PEER_SLOTS as usize),
        Side::Stranger(_) => None,
    }
}

fn left_out(about: Flood, lines: u64) -> SpeakerLine {
    SpeakerLine::LeftOut {
        about,
        lines,
        most: LINES_A_MINUTE,
    }
}

// How all stands.
fn status_of<S: Shown>(shown: &S, turns: u64) -> SpeakerLine {
    let (established, sessions) = sessions_of(shown);
    SpeakerLine::Status {
        established,
        sessions,
        routes: shown.routes(),
        payloads: shown.payloads(),
        turns,
        lost: shown.lost(),
        closed: shown.closed(),
        octets_in: shown.octets_in(),
        octets_out: shown.octets_out(),
    }
}

// How many sessions are established, and how many are configured.
fn sessions_of<S: Shown>(shown: &S) -> (u8, u8) {
    let (mut established, mut sessions) = (0u8, 0u8);
    for slot in 0..PEER_SLOTS {
        if let Some(state) = shown.session(slot) {
            sessions = sessions.saturating_add(1);
            if state == State::Established {
                established = established.saturating_add(1);
            }
        }
    }
    (established, sessions)
}
