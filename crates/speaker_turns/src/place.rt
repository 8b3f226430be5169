//! The place of one session: its connection, and what happens to it in a turn.
ghost use Rattle.std.specs.Prelude.{◌≡◌, ◌↔◌, IfOk, IsTrue, None, Some, false, length, true};
ghost use Rattle.runs.specs.FirstRefusal.{awaits_up};
ghost use Rattle.wires.specs.TurnOctets.{outgoing_octets};
ghost use Rattle.wires.specs.Wires.{closing};
ghost use Rattle.wires.specs.declared.wire.Parting.TheVariants.{NoPlace};
ghost use Rattle.speaker_turns.specs.Serving.{Begins, GivesWayWhat, LooksWhat, Visits, VisitsUnless, awaited_at, seated, up};
ghost use Rattle.speaker_turns.specs.Sessions.{Asks, transport_of, up_call, wanted_transport_of};
ghost use Rattle.speaker_turns.specs.Turns.{Awaits, GivesWay, vacant};

use crate::end::End;
use crate::line::{Line, is_from};
use crate::patience::Moment;
use crate::serving::{attend, settle};
use crate::sessions::{come_up, fail, has_opened, transport};
use decision::Book;
use net_prefix::Transport;
use speaker::{Report, Speaker};
use std::alloc::{AllocError, Allocator, Global};
use std::marker::Model;
use std::net::SocketAddr;
use wires::{Outgoing, Parting, Wire};

/// What happened at a place.
#[derive(Clone, Copy, Debug, PartialEq, Eq)]
pub enum Visit {
    /// What stands there goes on, or nothing stands there.
    Stays,
    /// The wire failed.
    Faulty,
    /// The other side sends no more.
    Ended,
    /// The speaker has closed the session, and all that it said is written.
    Closed,
    /// The speaker has closed the session, and for a minute not all that it said was taken; or octets have waited of which none
    /// went, or no whole OPEN has come, for as long as the loop is patient.
    Overdue,
    /// The speaker doesn't want the connection, or the attempt at one, any more.
    Unwanted,
}

/// The place of one session.
#[derive(Drop)]
pub(crate) struct Place<W: Wire, A: Allocator = Global> {
    // Where the other side is.
    remote: Option<SocketAddr>,
    line: Option<Line<W>>,
    // What waits for the line.
    outgoing: Outgoing<A>,
}

impl<W: Wire, A: Allocator> Model for Place<W, A> {
    ghost use Rattle.speaker_turns.specs.Serving.{PlaceState};

    ghost Value = { PlaceState };

    ghost view = { λ place. record { remote = place.remote; line = place.line; waiting = place.outgoing } };
}

impl<W: Wire, A: Allocator + Clone> Place<W, A> {
    /// A place without a connection, of a session of which it isn't known where its other side is.
    pub fn new(alloc: A) -> Result<Self, AllocError>
        ensures { IfOk result (λ place. place ≡ vacant) }
    {
        Ok(Place {
            remote: None,
            line: None,
            outgoing: Outgoing::new(alloc)?,
        })
    }

    /// The session's other side is there.
    pub fn set_remote(&mut self, remote: SocketAddr)
        ensures { self.new ≡ record self.old { remote = Some remote } }
    {
        self.remote = Some(remote);
    }

    /// Begins to connect, where the session has begun an attempt and none stands here.
    pub fn begin<B: Book<A>>(
        &mut self,
        end: End,
        wire: &mut W,
        speaker: &mut Speaker<A, B>,
    ) -> Visit
        ensures { Begins end self.old (record { wire = W.state wire.old; speaker = speaker.old }) result self.new (record { wire = W.state wire.new; speaker = speaker.new }) }
    {
        let Some(remote) = self.awaited(end, speaker) else {
            return Visit::Stays;
        };
        match wire.connect(remote) {
            Some(socket) => {
                self.seat(Line::attempt(socket));
                Visit::Stays
            }
            None => {
                fail(speaker, end);
                Visit::Faulty
            }
        }
    }

    // The address to which an attempt is to begin.
    fn awaited<B: Book<A>>(&self, end: End, speaker: &Speaker<A, B>) -> Option<SocketAddr>
        ensures { result ≡ awaited_at (transport_of speaker.now end) self.now }
    {
        match transport(speaker, end) {
            Transport::Opening => match self.line {
                None => self.remote,
                Some(_) => None,
            },
            _ => None,
        }
    }

    /// Whether the session waits for a connection from this address.
    pub fn awaits<B: Book<A>>(&self, end: End, speaker: &Speaker<A, B>, address: SocketAddr) -> bool
        ensures { IsTrue result ↔ Awaits (transport_of speaker.now end) self.now address }
    {
        match transport(speaker, end) {
            Transport::Listening => self.line.is_none() && is_from(self.remote, address),
            _ => false,
        }
    }

    /// A connection has come. It is closed where the session doesn't take it.
    pub fn admit<B: Book<A>>(
        &mut self,
        end: End,
        socket: W::Socket,
        wire: &mut W,
        speaker: &mut Speaker<A, B>,
    )
        ensures asks { Asks (up_call end) (awaits_up (wanted_transport_of speaker.old end)) speaker.old speaker.new }
        ensures taken { awaits_up (wanted_transport_of speaker.old end) ≡ true → (self.new ≡ seated (up (W.number socket) (W.address socket)) self.old) × (W.state wire.new ≡ W.state wire.old) }
        ensures closed { awaits_up (wanted_transport_of speaker.old end) ≡ false → (self.new ≡ self.old) × (W.state wire.new ≡ closing (W.number socket) NoPlace (W.state wire.old)) }
    {
        if come_up(speaker, end) {
            self.seat(Line::up(socket));
        } else {
            wire.close(socket, Parting::NoPlace);
        }
    }

    fn seat(&mut self, line: Line<W>)
        ensures { self.new ≡ seated line self.old }
    {
        self.outgoing.clear();
        self.line = Some(line);
    }

    /// Where the report tells that the session begins an attempt again, the one that stands here gives way to it.
    pub fn give_way<B: Book<A>>(
        &mut self,
        report: &Report,
        end: End,
        wire: &mut W,
        speaker: &Speaker<A, B>,
    ) -> Visit
        ensures { GivesWay report.now end self.old (record { wire = W.state wire.old; speaker = speaker.now }) result self.new (record { wire = W.state wire.new; speaker = speaker.now }) }
    {
        if has_opened(report, end) {
            self.leave_attempt(wire, speaker);
        }
        Visit::Stays
    }

    // Ends an attempt that stands here.
    fn leave_attempt<B: Book<A>>(&mut self, wire: &mut W, speaker: &Speaker<A, B>)
        ensures { GivesWayWhat self.old.line self.old (record { wire = W.state wire.old; speaker = speaker.now }) self.new (record { wire = W.state wire.new; speaker = speaker.now }) }
    {
        let Some(line) = self.line.take() else {
            return;
        };
        match line.is_up {
            true => self.line = Some(line),
            false => wire.close(line.socket, Parting::Unwanted),
        }
    }

    /// Visits what stands here, unless it is a connection that is known to end and is put off. Tells too whether one that ends
    /// was visited.
    pub fn visit_unless<B: Book<A>>(
        &mut self,
        is_off: bool,
        end: End,
        now: Moment,
        wire: &mut W,
        speaker: &mut Speaker<A, B>,
        buf: &mut [u8],
    ) -> (Visit, bool)
        requires { length buf.old ≡ outgoing_octets }
        ensures visits { VisitsUnless is_off now end self.old (record { wire = W.state wire.old; speaker = speaker.old }) result.0 result.1 self.new (record { wire = W.state wire.new; speaker = speaker.new }) }
        ensures room { length buf.new ≡ outgoing_octets }
    {
        let is_ending = self.is_ending(wire);
        if is_ending && is_off {
            return (Visit::Stays, false);
        }
        (self.visit(end, now, wire, speaker, buf), is_ending)
    }

    // Whether what stands here is a connection that is known to end.
    fn is_ending(&self, wire: &mut W) -> bool
        ensures { LooksWhat self.now.line (W.state wire.old) result (W.state wire.new) }
    {
        match &self.line {
            Some(line) if line.is_up => wire.is_ending(&line.socket),
            _ => false,
        }
    }

    /// What came is handed to the session, and what the speaker has queued for it goes out.
    pub fn visit<B: Book<A>>(
        &mut self,
        end: End,
        now: Moment,
        wire: &mut W,
        speaker: &mut Speaker<A, B>,
        buf: &mut [u8],
    ) -> Visit
        requires { length buf.old ≡ outgoing_octets }
        ensures visits { Visits now end self.old (record { wire = W.state wire.old; speaker = speaker.old }) result self.new (record { wire = W.state wire.new; speaker = speaker.new }) }
        ensures room { length buf.new ≡ outgoing_octets }
    {
        let Some(mut line) = self.line.take() else {
            return Visit::Stays;
        };
        let visit = attend(&mut line, &mut self.outgoing, end, now, wire, speaker, buf);
        self.line = settle(line, end, visit, wire, speaker);
        visit
    }
}
