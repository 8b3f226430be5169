//! What the rows of the session table do.
ghost use Rattle.std.specs.Prelude.{◌≡◌, Some, None};
ghost use Rattle.std.specs.Option.{option_map};
ghost use Rattle.bgp_msg.specs.Notifications.{error_notification};
ghost use Rattle.bgp_fsm.specs.StateTests.{is_established};
ghost use Rattle.bgp_fsm.specs.declared.session.Outgoing.TheVariants.{Keepalive as OwnKeepalive, Open as OwnOpen, Notification as TheNotification};
ghost use Rattle.bgp_fsm.specs.SessionTable.{accepted, asked_again, awaiting, begins, closed, confirmed, connecting, disabled, ended, enters, established, failed, fallen, given_up, heard, kept_alive, leaving, listening, marked, nothing, reopened, resting, says, shut, started};

use crate::session::{Effects, Outgoing, Session};
use crate::state::State;
use crate::timers::{Timers, hold_end, keepalive_end};
use bgp_attr::Mode;
use bgp_msg::{Notification, Open, SessionError};
use std::cmp::min;

impl Session {
    /// An enabled peer without a connection begins; one whose last connection is still to be closed waits.
    pub(crate) fn start<'a>(&mut self, now: u64) -> Effects<'a>
        ensures session { self.new ≡ (started self.old).0 now }
        ensures effects { result ≡ (started self.old).1 }
    {
        if self.closing {
            self.rest(now);
            return Effects::NONE;
        }
        match self.mode {
            Mode::Active => self.connect(now),
            Mode::Passive => self.listen(),
        }
    }

    fn rest(&mut self, now: u64)
        ensures { self.new ≡ resting self.old now }
    {
        self.enabled = true;
        self.timers = Timers::falling(true, now, self.times.idle_hold);
    }

    /// The connection is opened.
    pub(crate) fn connect<'a>(&mut self, now: u64) -> Effects<'a>
        ensures session { self.new ≡ connecting self.old now }
        ensures effects { result ≡ begins }
    {
        self.enabled = true;
        self.state = State::Connect;
        self.timers = Timers::awaiting_connection(now, self.times.connect_retry);
        Effects {
            opened: true,
            ..Effects::NONE
        }
    }

    // The connection is awaited.
    fn listen<'a>(&mut self) -> Effects<'a>
        ensures session { self.new ≡ listening self.old }
        ensures effects { result ≡ nothing }
    {
        self.enabled = true;
        self.state = State::Active;
        self.timers = Timers::STOPPED;
        Effects::NONE
    }

    /// The peer is enabled, and nothing else changes.
    pub(crate) fn mark<'a>(&mut self) -> Effects<'a>
        ensures session { self.new ≡ marked self.old }
        ensures effects { result ≡ nothing }
    {
        self.enabled = true;
        Effects::NONE
    }

    /// The peer is disabled in Idle.
    pub(crate) fn disable<'a>(&mut self) -> Effects<'a>
        ensures session { self.new ≡ disabled self.old }
        ensures effects { result ≡ nothing }
    {
        self.enabled = false;
        self.timers = Timers::STOPPED;
        Effects::NONE
    }

    /// The peer is disabled before a connection stands.
    pub(crate) fn give_up<'a>(&mut self) -> Effects<'a>
        ensures session { self.new ≡ given_up self.old }
        ensures effects { result ≡ nothing }
    {
        self.state = State::Idle;
        self.closing = false;
        self.disable()
    }

    /// The last connection is closed.
    pub(crate) fn shut<'a>(&mut self) -> Effects<'a>
        ensures session { self.new ≡ shut self.old }
        ensures effects { result ≡ nothing }
    {
        self.closing = false;
        Effects::NONE
    }

    /// A connection comes in Active, which only a passive peer awaits.
    pub(crate) fn accept<'a>(&mut self, now: u64) -> Effects<'a>
        ensures session { self.new ≡ (accepted self.old.mode self.old).0 now }
        ensures effects { result ≡ (accepted self.old.mode self.old).1 }
    {
        match self.mode {
            Mode::Active => Effects::NONE,
            Mode::Passive => self.await_open(now),
        }
    }

    /// An active peer's connection is opened again.
    pub(crate) fn reopen<'a>(&mut self, now: u64) -> Effects<'a>
        ensures session { self.new ≡ (reopened self.old.mode self.old).0 now }
        ensures effects { result ≡ (reopened self.old.mode self.old).1 }
    {
        match self.mode {
            Mode::Active => self.connect(now),
            Mode::Passive => Effects::NONE,
        }
    }

    /// The connection stands, and the peer's OPEN is awaited.
    pub(crate) fn await_open<'a>(&mut self, now: u64) -> Effects<'a>
        ensures session { self.new ≡ awaiting self.old now }
        ensures effects { result ≡ says (OwnOpen self.old.own) }
    {
        self.state = State::OpenSent;
        self.timers = Timers::awaiting_open(now);
        Effects {
            message: Some(Outgoing::Open(self.own)),
            ..Effects::NONE
        }
    }

    /// The connection failed before the peer's OPEN came.
    pub(crate) fn retry<'a>(&mut self, mode: Mode, now: u64) -> Effects<'a>
        ensures session { self.new ≡ failed mode self.old now }
        ensures effects { result ≡ nothing }
    {
        self.state = State::Active;
        self.timers = match mode {
            Mode::Active => Timers::awaiting_connection(now, self.times.connect_retry),
            Mode::Passive => Timers::STOPPED,
        };
        Effects::NONE
    }

    /// The peer's OPEN is accepted: the hold time is the smaller of both sides' (RFC 4271 section 4.2).
    pub(crate) fn confirm<'a>(&mut self, message: Open, now: u64) -> Effects<'a>
        ensures session { self.new ≡ confirmed message self.old now }
        ensures effects { result ≡ says OwnKeepalive }
    {
        self.state = State::OpenConfirm;
        self.identifier = message.identifier;
        self.hold_time = min(self.own.hold_time, message.hold_time);
        self.timers = Timers::opened(self.hold_time, now);
        Effects {
            message: Some(Outgoing::Keepalive),
            ..Effects::NONE
        }
    }

    /// The peer's KEEPALIVE has answered our own OPEN.
    pub(crate) fn establish<'a>(&mut self, now: u64) -> Effects<'a>
        ensures session { self.new ≡ established self.old now }
        ensures effects { result ≡ enters }
    {
        self.state = State::Established;
        self.timers.hold = hold_end(self.hold_time, now);
        Effects {
            entered: true,
            ..Effects::NONE
        }
    }

    /// A message has come that keeps the session alive.
    pub(crate) fn hear<'a>(&mut self, now: u64) -> Effects<'a>
        ensures session { self.new ≡ heard self.old now }
        ensures effects { result ≡ nothing }
    {
        self.timers.hold = hold_end(self.hold_time, now);
        Effects::NONE
    }

    /// A ROUTE-REFRESH has come, which keeps the session alive.
    pub(crate) fn refresh<'a>(&mut self, asks: bool, now: u64) -> Effects<'a>
        ensures session { self.new ≡ heard self.old now }
        ensures effects { result ≡ asked_again asks }
    {
        self.timers.hold = hold_end(self.hold_time, now);
        Effects {
            refreshed: asks,
            ..Effects::NONE
        }
    }

    /// A KEEPALIVE goes. Its timer begins again, also where it is left out.
    pub(crate) fn keep_alive<'a>(&mut self, now: u64) -> Effects<'a>
        ensures session { self.new ≡ kept_alive self.old now }
        ensures effects { result ≡ says OwnKeepalive }
    {
        self.timers.keepalive = keepalive_end(self.hold_time, now);
        Effects {
            message: Some(Outgoing::Keepalive),
            ..Effects::NONE
        }
    }

    /// The connection failed behind the peer's OPEN.
    pub(crate) fn fall<'a>(&mut self, now: u64) -> Effects<'a>
        ensures session { self.new ≡ fallen self.old now }
        ensures effects { result ≡ leaving self.old.state None }
    {
        let left = self.is_established();
        self.go_idle(false, now);
        Effects {
            left,
            ..Effects::NONE
        }
    }

    /// The session goes to Idle, its connection has still to be closed, and the peer is told this, if anything.
    pub(crate) fn close<'a>(&mut self, told: Option<Notification<'a>>, now: u64) -> Effects<'a>
        ensures session { self.new ≡ closed self.old now }
        ensures effects { result ≡ leaving self.old.state (option_map TheNotification told.entry) }
    {
        let left = self.is_established();
        self.go_idle(true, now);
        Effects {
            message: told.map(Outgoing::Notification),
            left,
            ..Effects::NONE
        }
    }

    /// The same where the peer has told by a NOTIFICATION why it closes, which isn't answered.
    pub(crate) fn receive<'a>(&mut self, told: &Notification<'a>, now: u64) -> Effects<'a>
        ensures session { self.new ≡ closed self.old now }
        ensures effects { result ≡ record (leaving self.old.state None) { received = Some told.now } }
    {
        Effects {
            received: Some(told.share()),
            ..self.close(None, now)
        }
    }

    /// The same for a faulty message.
    pub(crate) fn answer<'a>(&mut self, fault: &Notification<'a>, now: u64) -> Effects<'a>
        ensures session { self.new ≡ closed self.old now }
        ensures effects { result ≡ leaving self.old.state (Some (TheNotification fault.now)) }
    {
        self.close(Some(fault.share()), now)
    }

    /// The same for an error that no message holds.
    pub(crate) fn refuse<'a>(&mut self, error: SessionError, now: u64) -> Effects<'a>
        ensures session { self.new ≡ closed self.old now }
        ensures effects { result ≡ leaving self.old.state (Some (TheNotification (error_notification error))) }
    {
        self.close(Some(Notification::of_error(error)), now)
    }

    /// The same where the operator disables or removes the peer.
    pub(crate) fn end<'a>(&mut self, error: SessionError) -> Effects<'a>
        ensures session { self.new ≡ ended self.old }
        ensures effects { result ≡ leaving self.old.state (Some (TheNotification (error_notification error))) }
    {
        self.enabled = false;
        self.refuse(error, 0)
    }

    fn is_established(&self) -> bool
        ensures { result ≡ is_established self.now.state }
    {
        self.state == State::Established
    }

    // Nothing is kept of a connection that failed, or has still to be closed. An enabled peer begins again after a while.
    fn go_idle(&mut self, closing: bool, now: u64)
        ensures { self.new ≡ record (fallen self.old now) { closing = closing } }
    {
        self.state = State::Idle;
        self.closing = closing;
        self.identifier = 0;
        self.hold_time = 0;
        self.timers = Timers::falling(self.enabled, now, self.times.idle_hold);
    }
}
