//! One session's connection.
ghost use Rattle.std.specs.Prelude.{◌≡◌, ◌↔◌, None, Some, IsTrue};
ghost use Rattle.speaker_turns.specs.Serving.{attempt, closing_since, first_since, is_over, is_overdue, is_past, timed, unopened_since, unsent_since, up};
ghost use Rattle.speaker_turns.specs.Turns.{IsFrom};

use crate::patience::Moment;
use net_prefix::Transport;
use std::marker::Model;
use std::net::SocketAddr;
use wires::Wire;

/// For how many seconds a connection stands whose session the speaker has closed, while what was said isn't all written
/// (own choice).
pub const CLOSING_SECONDS: u64 = 60;

/// A socket, and how it stands.
#[derive(Drop)]
pub(crate) struct Line<W: Wire> {
    pub socket: W::Socket,
    /// Whether the connection is there; an attempt at one isn't.
    pub is_up: bool,
    /// Since when the speaker has closed the session.
    pub closing: Option<u64>,
    /// Since when octets wait of which none has gone.
    pub unsent: Option<u64>,
    /// Since when the session awaits the peer's OPEN.
    pub unopened: Option<u64>,
}

/// How a session, and what is to be written for it, stand behind an answer.
#[derive(Clone, Copy)]
pub(crate) struct Answered {
    pub transport: Transport,
    /// Whether it awaits the peer's OPEN.
    pub is_unopened: bool,
    /// How many octets waited before the answer.
    pub waited: usize,
    /// How many wait behind it.
    pub left: usize,
}

impl<W: Wire> Model for Line<W> {
    ghost use Rattle.speaker_turns.specs.Serving.{Connection};

    ghost Value = { Connection };

    ghost view = { λ line. record { number = W.number line.socket; address = W.address line.socket; is_up = line.is_up; closing = line.closing; unsent = line.unsent; unopened = line.unopened } };
}

impl<W: Wire> Line<W> {
    /// An attempt that begins.
    pub fn attempt(socket: W::Socket) -> Self
        ensures { result ≡ attempt (W.number socket) (W.address socket) }
    {
        Line {
            socket,
            is_up: false,
            closing: None,
            unsent: None,
            unopened: None,
        }
    }

    /// A connection that has come.
    pub fn up(socket: W::Socket) -> Self
        ensures { result ≡ up (W.number socket) (W.address socket) }
    {
        Line {
            socket,
            is_up: true,
            closing: None,
            unsent: None,
            unopened: None,
        }
    }

    /// The session stands so now. Answers whether the connection has stood for too long.
    pub fn outlast(&mut self, answered: Answered, now: Moment) -> bool
        ensures line { self.new ≡ timed answered now.seconds self.old }
        ensures over { result ≡ is_over self.new now }
    {
        self.time(answered, now.seconds);
        self.is_over(now)
    }

    // Keeps since when it stands as it does.
    fn time(&mut self, answered: Answered, now: u64)
        ensures { self.new ≡ timed answered now self.old }
    {
        self.closing = closing_since(answered.transport, self.closing, now);
        self.unsent = unsent_since(self.unsent, answered.waited, answered.left, now);
        self.unopened = unopened_since(answered.is_unopened, self.unopened, now);
    }

    // Whether it has stood for too long.
    fn is_over(&self, now: Moment) -> bool
        ensures { result ≡ is_over self.now now }
    {
        is_overdue(self.closing, now.seconds)
            || is_past(now.patience.send_hold, self.unsent, now.seconds)
            || is_past(now.patience.open_wait, self.unopened, now.seconds)
    }
}

// Since when the session is closed, where its transport is this now.
fn closing_since(transport: Transport, before: Option<u64>, now: u64) -> Option<u64>
    ensures { result ≡ closing_since transport before now }
{
    match transport {
        Transport::Closing => first_since(before, now),
        _ => None,
    }
}

// Since when octets wait of which none has gone, where so many waited before an answer and so many are left behind it.
fn unsent_since(before: Option<u64>, waited: usize, left: usize, now: u64) -> Option<u64>
    ensures { result ≡ unsent_since before waited left now }
{
    if left == 0 {
        return None;
    }
    match waited == left {
        true => first_since(before, now),
        false => Some(now),
    }
}

// Since when the session awaits the peer's OPEN.
fn unopened_since(is_unopened: bool, before: Option<u64>, now: u64) -> Option<u64>
    ensures { result ≡ unopened_since is_unopened before now }
{
    match is_unopened {
        true => first_since(before, now),
        false => None,
    }
}

// Since when something holds that holds now.
fn first_since(before: Option<u64>, now: u64) -> Option<u64>
    ensures { result ≡ first_since before now }
{
    match before {
        Some(since) => Some(since),
        None => Some(now),
    }
}

// Whether a session has been closed for too long.
fn is_overdue(since: Option<u64>, now: u64) -> bool
    ensures { result ≡ is_overdue since now }
{
    match since {
        Some(since) => now >= since && now - since >= CLOSING_SECONDS,
        None => false,
    }
}

// Whether something has held for so many seconds.
fn is_past(bound: Option<u32>, since: Option<u64>, now: u64) -> bool
    ensures { result ≡ is_past bound since now }
{
    match bound {
        None => false,
        Some(bound) => match since {
            None => false,
            Some(since) => now >= since && now - since >= bound as u64,
        },
    }
}

/// Whether a connection that comes from this address is that of a peer at the other one.
pub(crate) fn is_from(remote: Option<SocketAddr>, address: SocketAddr) -> bool
    ensures { IsTrue result ↔ IsFrom remote address }
{
    match remote {
        Some(remote) => remote.ip() == address.ip(),
        None => false,
    }
}
