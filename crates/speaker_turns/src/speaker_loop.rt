//! The turns of a speaker: sessions connect, hear and are answered.
ghost use Rattle.std.specs.Prelude.{◌≡◌, ◌<◌, ◌≤◌, ◌||◌, ℕ, IfOk, MatchOption, OnOk, Some, if◌then◌else◌, is_some, length, nat_lt, replicate, []};
ghost use Rattle.std.specs.Option.{IfSome};
ghost use Rattle.wires.specs.TurnOctets.{outgoing_octets};
ghost use Rattle.speaker_turns.specs.Ends.{place_count};
ghost use Rattle.speaker_turns.specs.Obeying.{Obeys};
ghost use Rattle.speaker_turns.specs.Serving.{Begins, VisitsUnless};
ghost use Rattle.speaker_turns.specs.Turns.{Admits, AtAll, AtPlace, AwaitsAt, GivesWay, IsTold, TakesTurn, VisitsAll, VisitsBut, counted, idle, vacant, with_patience, with_remote};

use crate::end::{End, PLACES};
use crate::patience::{Moment, Patience};
use crate::place::{Place, Visit};
use crate::sessions::{command as hand_in, tick};
use bgp_conf::{Command, Refusal};
use decision::Book;
use live_book::LiveBook;
use speaker::{Report, Speaker};
use std::alloc::{AllocError, Allocator, Global};
use std::marker::Model;
use std::net::SocketAddr;
use std::time::Duration;
use wires::{Accepted, LoopFault, OUTGOING_OCTETS, Parting, Wire};

/// A speaker and the connections of its sessions.
#[derive(Drop)]
pub struct SpeakerLoop<W: Wire, A: Allocator + Clone = Global, B: Book<A> = LiveBook<A>> {
    wire: W,
    speaker: Speaker<A, B>,
    // That of the slot s stands at s, and that of the cache behind them.
    places: Vec<Place<W, A>, A>,
    patience: Patience,
    // From this place on a turn looks for a connection that ends.
    next: usize,
    lost: u64,
    closed: u64,
}

impl<W: Wire, A: Allocator + Clone, B: Book<A>> Model for SpeakerLoop<W, A, B> {
    ghost use Rattle.std.specs.Prelude.{◌≡◌, length};
    ghost use Rattle.speaker_turns.specs.Ends.{place_count};
    ghost use Rattle.speaker_turns.specs.Turns.{Turns};

    ghost Value = { Turns };

    ghost view = { λ l. record { counts = record { lost = l.lost; closed = l.closed; wire = W.state l.wire }; speaker = l.speaker; places = l.places.items; patience = l.patience; next = l.next } };

    ghost invariant = { λ l. length l.places.items ≡ place_count };
}

impl<W: Wire + Drop, B: Book<Global>> SpeakerLoop<W, Global, B> {
    /// The turns of this speaker on this wire, before the first. Of no session it is known where its other side is, and
    /// patience is endless.
    pub fn new(alloc: Global, wire: W, speaker: Speaker<Global, B>) -> Result<Self, AllocError>
        ensures { IfOk result (λ turns. turns ≡ idle speaker (W.state wire)) }
    {
        let mut places = Vec::new(alloc.clone()?);
        make_places(&mut places, &alloc)?;
        Ok(SpeakerLoop {
            wire,
            speaker,
            places,
            patience: Patience::ENDLESS,
            next: 0,
            lost: 0,
            closed: 0,
        })
    }
}

impl<W: Wire + Drop, A: Allocator + Clone, B: Book<A>> SpeakerLoop<W, A, B> {
    /// The other side of the session is there: attempts go to this address, and a connection that comes from it is the
    /// session's, whatever its port.
    pub fn set_remote(&mut self, end: End, remote: SocketAddr)
        ensures { self.new ≡ with_remote end remote self.old }
    {
        let place = end.place();
        if place < self.places.len() {
            self.places[place].set_remote(remote);
        }
    }

    /// For how long its connections may take nothing, and their peers send no OPEN. No other call changes it.
    pub fn set_patience(&mut self, patience: Patience)
        ensures { self.new ≡ with_patience patience self.old }
    {
        self.patience = patience;
    }

    /// One turn: attempts begin where sessions ask for them, a connection that waits is accepted, what came on each is handed
    /// to its session and what the speaker has queued for it goes out, and the speaker is told the moment. A moment before the
    /// last one tells it nothing. Of the connections that are known to end one is visited a turn, since losing its routes may
    /// take long: between two of them all others are served, and their sessions told the moment.
    pub fn turn(&mut self, now: u64) -> Result<(), LoopFault>
        ensures { TakesTurn now self.old result self.new }
    {
        self.begin_all();
        self.admit()?;
        self.visit_all(now);
        self.tell(now);
        Ok(())
    }

    /// Hands the speaker a command between two turns. An attempt at a connection that the speaker begins again takes the place
    /// of one that stands; all else that the command asks of connections is done by the next turn.
    pub fn obey(&mut self, command: Command<'_>) -> Result<Report, Refusal>
        ensures { Obeys command.entry self.old result self.new }
    {
        match hand_in(&mut self.speaker, command) {
            Ok(report) => {
                self.give_way_all(&report);
                Ok(report)
            }
            Err(refusal) => Err(refusal),
        }
    }

    /// The speaker.
    pub fn speaker(&self) -> &Speaker<A, B>
        ensures { result.now ≡ self.now.speaker }
    {
        &self.speaker
    }

    /// How many connections, and attempts at one, were lost: for each the speaker was told that it is gone. It stays at the
    /// greatest u64, as the next one does.
    pub fn lost(&self) -> u64
        ensures { result ≡ self.now.counts.lost }
    {
        self.lost
    }

    /// How many connections were closed since the speaker had closed their session.
    pub fn closed(&self) -> u64
        ensures { result ≡ self.now.counts.closed }
    {
        self.closed
    }

    /// Rests until a turn may find something to do, or so long.
    pub fn wait(&mut self, most: Duration)
        ensures { self.new ≡ self.old }
    {
        self.wire.wait(most);
    }

    /// The wire.
    pub fn wire(&self) -> &W
        ensures { W.state result.now ≡ self.now.counts.wire }
    {
        &self.wire
    }

    // Begins to connect wherever a session has begun an attempt.
    fn begin_all(&mut self)
        ensures { AtAll Begins self.old self.new }
    {
        for place in 0..self.places.len() {
            self.begin(place);
        }
    }

    fn begin(&mut self, place: usize)
        requires { place < length self.old.places }
        ensures { AtPlace Begins self.old place self.new }
    {
        let visit = self.places[place].begin(End::at(place), &mut self.wire, &mut self.speaker);
        self.count(visit);
    }

    // Accepts a connection that waits. One for which no session waits is closed.
    fn admit(&mut self) -> Result<(), LoopFault>
        ensures { Admits self.old result self.new }
    {
        let (socket, address) = match self.wire.accept() {
            Accepted::Connection(socket, address) => (socket, address),
            Accepted::Nothing => return Ok(()),
            Accepted::Fault => return Err(LoopFault::Accept),
        };
        match self.place_for(address) {
            Some(place) => self.places[place].admit(
                End::at(place),
                socket,
                &mut self.wire,
                &mut self.speaker,
            ),
            None => self.wire.close(socket, Parting::NoPlace),
        }
        Ok(())
    }

    // The first place whose session waits for a connection from this address.
    fn place_for(&self, address: SocketAddr) -> Option<usize>
        ensures { MatchOption result ((key : ℕ) → key < length self.now.places → AwaitsAt self.now.speaker self.now.places address key → ⊥) (λ place. (place < length self.now.places) × AwaitsAt self.now.speaker self.now.places address place × ((key : ℕ) → key < place → AwaitsAt self.now.speaker self.now.places address key → ⊥)) }
    {
        for place in 0..self.places.len() {
            if self.places[place].awaits(End::at(place), &self.speaker, address) {
                return Some(place);
            }
        }
        None
    }

    #[tactic(auto, unfolding(crate::specs::Ends::place_count))]
    fn visit_all(&mut self, now: u64)
        ensures { VisitsAll now self.old self.new }
    {
        let moment = Moment {
            seconds: now,
            patience: self.patience,
        };
        let one = self.visit_each(moment);
        self.next = match one {
            Some(one) => one + 1,
            None => 0,
        };
    }

    // Visits each place, and tells at which a connection that ends was visited.
    #[tactic(auto, unfolding(wires::specs::TurnOctets::outgoing_octets))]
    fn visit_each(&mut self, now: Moment) -> Option<usize>
        ensures visits { AtAll (VisitsBut self.old.next result now) self.old self.new }
        ensures within { IfSome result (λ one. (self.old.next ≤ one) × (one < length self.old.places)) }
        ensures few { IfSome result (λ one. one < place_count) }
    {
        let mut buf = [0; OUTGOING_OCTETS];
        let mut one = None;
        for place in 0..self.places.len() {
            let is_off = is_put_off(place, self.next, one);
            let is_one = self.visit(place, is_off, now, &mut buf);
            one = the_one(is_one, place, one);
        }
        one
    }

    // Tells whether a connection that ends was visited.
    fn visit(&mut self, place: usize, is_off: bool, now: Moment, buf: &mut [u8]) -> bool
        requires place { place < length self.old.places }
        requires room { length buf.old ≡ outgoing_octets }
        ensures visits { AtPlace (λ end old before visit new behind. VisitsUnless is_off now end old before visit result new behind) self.old place self.new }
        ensures room { length buf.new ≡ outgoing_octets }
    {
        let (visit, is_one) = self.places[place].visit_unless(
            is_off,
            End::at(place),
            now,
            &mut self.wire,
            &mut self.speaker,
            buf,
        );
        self.count(visit);
        is_one
    }

    // Counts what happened at a place.
    fn count(&mut self, visit: Visit)
        ensures { self.new ≡ record self.old { counts = counted visit self.old.counts } }
    {
        match visit {
            Visit::Stays | Visit::Unwanted => {}
            Visit::Faulty | Visit::Ended => self.lost = self.lost.saturating_add(1),
            Visit::Closed | Visit::Overdue => {
                self.lost = self.lost.saturating_add(1);
                self.closed = self.closed.saturating_add(1);
            }
        }
    }

    // Tells the speaker the moment. Attempts that it begins again take the place of those that stand.
    fn tell(&mut self, now: u64)
        ensures { IsTold now self.old self.new }
    {
        let report = tick(&mut self.speaker, now);
        self.give_way_all(&report);
    }

    fn give_way_all(&mut self, report: &Report)
        ensures { AtAll (GivesWay report.now) self.old self.new }
    {
        for place in 0..self.places.len() {
            self.give_way(place, report);
        }
    }

    fn give_way(&mut self, place: usize, report: &Report)
        requires { place < length self.old.places }
        ensures { AtPlace (GivesWay report.now) self.old place self.new }
    {
        let end = End::at(place);
        let visit = self.places[place].give_way(report, end, &mut self.wire, &self.speaker);
        self.count(visit);
    }
}

// Whether a connection at this place is put off, where it ends: it isn't its turn yet, or one was visited already.
fn is_put_off(place: usize, next: usize, one: Option<usize>) -> bool
    ensures { result ≡ (nat_lt place next || is_some one) }
{
    place < next || one.is_some()
}

// At which place one that ends was visited, behind a visit to this place.
fn the_one(is_one: bool, place: usize, one: Option<usize>) -> Option<usize>
    ensures { result ≡ (if is_one then Some place else one) }
{
    match is_one {
        true => Some(place),
        false => one,
    }
}

// Makes the places, where there are none.
#[tactic(auto, unfolding(crate::specs::Ends::place_count))]
fn make_places<W: Wire, A: Allocator + Clone>(
    made: &mut Vec<Place<W, A>, A>,
    alloc: &A,
) -> Result<(), AllocError>
    requires { made.old.items ≡ [] }
    ensures { OnOk result (made.new.items ≡ replicate place_count vacant) }
{
    for count in 0..PLACES {
        made.push(Place::new(alloc.clone()?)?)?;
    }
    Ok(())
}
