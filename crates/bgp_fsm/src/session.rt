//! A session, and what one input makes of it.
ghost use Rattle.std.specs.Prelude.{◌≡◌};
ghost use Rattle.bgp_fsm.specs.SessionTable.{effects_of, fresh, session_after};
ghost use Rattle.bgp_fsm.specs.TimerMoments.{has_ended};
ghost use Rattle.bgp_fsm.specs.Transports.{transport_of};

use crate::input::Input;
use crate::state::State;
use crate::state::State::{Active, Connect, Established, Idle, OpenConfirm, OpenSent};
use crate::timers::{PeerTimers, Timer, Timers};
use bgp_attr::Mode;
use bgp_msg::SessionError::{
    AdministrativeShutdown, HoldTimerExpired, OutOfResources, PeerDeconfigured, UnexpectedMessage,
};
use bgp_msg::{Notification, OwnOpen};
use net_prefix::Transport;

/// A message that a row of the table queues.
#[derive(Debug, Drop)]
pub enum Outgoing<'a> {
    Open(OwnOpen),
    Keepalive,
    Notification(Notification<'a>),
}

/// What a row does beside the change of the session.
#[derive(Debug, Drop)]
pub struct Effects<'a> {
    /// The message to queue, if any.
    pub message: Option<Outgoing<'a>>,
    /// A connection attempt of our own begins.
    pub opened: bool,
    /// Established begins.
    pub entered: bool,
    /// Established ends.
    pub left: bool,
    /// The peer asks for all routes again (RFC 2918 section 4).
    pub refreshed: bool,
    /// The NOTIFICATION by which the peer has ended the session. Where its code is 2 and its subcode 7, its data are the
    /// capabilities that the peer wants (RFC 5492 section 5).
    pub received: Option<Notification<'a>>,
}

/// One peer's session.
#[derive(Clone, Copy, Debug, PartialEq, Eq)]
pub struct Session {
    /// Where the session stands.
    pub state: State,
    /// The operator has enabled the peer.
    pub enabled: bool,
    /// In Idle: the last connection has still to be closed.
    pub closing: bool,
    /// The BGP Identifier of the peer's OPEN on this connection, 0 before it.
    pub identifier: u32,
    /// The hold time that both sides agreed on, in seconds: 0 where none is kept, and before the peer's OPEN.
    pub hold_time: u16,
    /// When the timers end.
    pub timers: Timers,
    /// The OPEN that this side sends.
    pub own: OwnOpen,
    /// Which side opens the connection.
    pub mode: Mode,
    /// For how long the timers run that its operator may set.
    pub times: PeerTimers,
}

impl Effects<'_> {
    /// Nothing beside the change of the session.
    pub const NONE: Effects<'static> = Effects {
        message: None,
        opened: false,
        entered: false,
        left: false,
        refreshed: false,
        received: None,
    };
}

impl Session {
    /// A session in Idle, with no connection, of a peer that isn't enabled yet.
    pub fn new(own: OwnOpen, mode: Mode, times: PeerTimers) -> Session
        ensures { result ≡ fresh own mode times }
    {
        Session {
            state: Idle,
            enabled: false,
            closing: false,
            identifier: 0,
            hold_time: 0,
            timers: Timers::STOPPED,
            own,
            mode,
            times,
        }
    }

    /// The state.
    pub fn state(&self) -> State
        ensures { result ≡ self.now.state }
    {
        self.state
    }

    /// What stands between the session and its connection.
    pub fn transport(&self) -> Transport
        ensures { result ≡ transport_of self.now }
    {
        match self.state {
            Idle if self.closing => Transport::Closing,
            Idle => Transport::None,
            Connect => Transport::Opening,
            Active => match self.mode {
                Mode::Passive => Transport::Listening,
                Mode::Active => Transport::None,
            },
            OpenSent | OpenConfirm | Established => Transport::Open,
        }
    }

    /// The BGP Identifier that the peer's OPEN has told on this connection, 0 before it.
    pub fn identifier(&self) -> u32
        ensures { result ≡ self.now.identifier }
    {
        self.identifier
    }

    /// Whether a timer has ended at this moment, in seconds.
    pub fn has_ended(&self, timer: Timer, now: u64) -> bool
        ensures { result ≡ has_ended timer now self.now.timers }
    {
        self.timers.has_ended(timer, now)
    }

    /// One row of the session table, at this moment, in seconds.
    #[rattlefmt::skip]
    pub fn input<'a>(&mut self, input: Input<'a>, now: u64) -> Effects<'a>
        ensures session { self.new ≡ session_after now input.entry self.old }
        ensures effects { result ≡ effects_of input.entry self.old }
    {
        match (self.state, &input) {
            (Idle, Input::Start) => self.start(now),
            (Idle, Input::Disable | Input::Remove) => self.disable(),
            (Idle, Input::Fail) => self.shut(),
            (Idle, Input::Expires(Timer::IdleHold)) => self.start(now),
            (Connect, Input::Start) => self.mark(),
            (Connect, Input::Disable | Input::Remove) => self.give_up(),
            (Connect, Input::Up) => self.await_open(now),
            (Connect, Input::Fail) => self.retry(Mode::Active, now),
            (Connect, Input::Expires(Timer::ConnectRetry)) => self.connect(now),
            (Active, Input::Start) => self.mark(),
            (Active, Input::Disable | Input::Remove) => self.give_up(),
            (Active, Input::Up) => self.accept(now),
            (Active, Input::Expires(Timer::ConnectRetry)) => self.reopen(now),
            (OpenSent, Input::Start) => self.mark(),
            (OpenSent, Input::Disable) => self.end(AdministrativeShutdown),
            (OpenSent, Input::Remove) => self.end(PeerDeconfigured),
            (OpenSent, Input::Fail) => self.retry(self.mode, now),
            (OpenSent, Input::Open(message)) => self.confirm(*message, now),
            (OpenSent, Input::UnexpectedOpen | Input::Keepalive | Input::Update | Input::RouteRefresh(_)) => self.refuse(UnexpectedMessage, now),
            (OpenSent, Input::Notification(told)) => self.receive(told, now),
            (OpenSent, Input::Fault(fault)) => self.answer(fault, now),
            (OpenSent, Input::NoMemory) => self.refuse(OutOfResources, now),
            (OpenSent, Input::Expires(Timer::Hold)) => self.refuse(HoldTimerExpired, now),
            (OpenConfirm, Input::Start) => self.mark(),
            (OpenConfirm, Input::Disable) => self.end(AdministrativeShutdown),
            (OpenConfirm, Input::Remove) => self.end(PeerDeconfigured),
            (OpenConfirm, Input::Fail) => self.fall(now),
            (OpenConfirm, Input::Open(_) | Input::UnexpectedOpen | Input::Update | Input::RouteRefresh(_)) => self.refuse(UnexpectedMessage, now),
            (OpenConfirm, Input::Keepalive) => self.establish(now),
            (OpenConfirm, Input::Notification(told)) => self.receive(told, now),
            (OpenConfirm, Input::Fault(fault)) => self.answer(fault, now),
            (OpenConfirm, Input::NoMemory) => self.refuse(OutOfResources, now),
            (OpenConfirm, Input::Expires(Timer::Hold)) => self.refuse(HoldTimerExpired, now),
            (OpenConfirm, Input::Expires(Timer::Keepalive)) => self.keep_alive(now),
            (Established, Input::Start) => self.mark(),
            (Established, Input::Disable) => self.end(AdministrativeShutdown),
            (Established, Input::Remove) => self.end(PeerDeconfigured),
            (Established, Input::Fail) => self.fall(now),
            (Established, Input::Open(_) | Input::UnexpectedOpen) => self.refuse(UnexpectedMessage, now),
            (Established, Input::Keepalive | Input::Update) => self.hear(now),
            (Established, Input::RouteRefresh(asks)) => self.refresh(*asks, now),
            (Established, Input::Notification(told)) => self.receive(told, now),
            (Established, Input::Fault(fault)) => self.answer(fault, now),
            (Established, Input::NoMemory) => self.refuse(OutOfResources, now),
            (Established, Input::Expires(Timer::Hold)) => self.refuse(HoldTimerExpired, now),
            (Established, Input::Expires(Timer::Keepalive)) => self.keep_alive(now),
            // Any other pair of state and input is ignored.
            _ => Effects::NONE,
        }
    }
}
