//! The wire over a wire.
ghost use Rattle.std.specs.Prelude.{◌≡◌, ◌≤◌, length};
ghost use Rattle.watched_wires.specs.Limits.{most_events};

use crate::events::{Events, Seen, WireEvent};
use crate::follower::Follower;
use connect_faults::{ConnectFault, TellsFaults};
use std::alloc::Global;
use std::net::SocketAddr;
use std::time::Duration;
use wires::{Accepted, Attempt, Parting, Received, Sent, Wire};

/// A wire that tells where it listens, and what it has seen.
pub trait Watched {
    /// Where it listens, if it does: of port 0 the one that it was given.
    fn listens(&self) -> Option<SocketAddr>;

    /// What it has seen since the last rest, in order.
    fn seen(&self) -> &[WireEvent]
        ensures { length result.now ≤ most_events };

    /// How much more it has seen than it could keep.
    fn left_out(&self) -> u64;
}

/// A wire that hands each call to the wire inside, and keeps in mind what it sees there.
#[derive(Drop)]
pub struct WatchedWire<W: Wire> {
    wire: W,
    // Whether anybody asks for what it sees.
    is_on: bool,
    listens: Option<SocketAddr>,
    events: Events,
}

/// A socket of the wire inside, and what is kept of it.
#[derive(Drop)]
pub struct WatchedSocket<W: Wire> {
    socket: W::Socket,
    address: SocketAddr,
    // Whether the connection is there; an attempt at one isn't.
    is_up: bool,
    // Why the attempt failed, where that is known.
    fault: Option<ConnectFault>,
    came: Follower,
    went: Follower,
}

impl<W: Wire> WatchedSocket<W> {
    fn new(socket: W::Socket, address: SocketAddr, is_up: bool) -> WatchedSocket<W>
        ensures { result.socket ≡ socket }
    {
        WatchedSocket {
            socket,
            address,
            is_up,
            fault: None,
            came: Follower::new(),
            went: Follower::new(),
        }
    }
}

impl<W: Wire> WatchedWire<W> {
    /// This wire, which listens there, if it does. It is watched where that is asked for.
    pub fn new(alloc: Global, wire: W, listens: Option<SocketAddr>, is_on: bool) -> WatchedWire<W>
        ensures { W.state result.wire ≡ W.state wire }
    {
        WatchedWire {
            wire,
            is_on,
            listens,
            events: Events::new(alloc),
        }
    }

    // This was seen of the other side.
    fn see(&mut self, address: SocketAddr, seen: Seen)
        ensures { self.new.wire ≡ self.old.wire }
    {
        if self.is_on {
            self.events.see(address, seen);
        }
    }
}

impl<W: Wire> Watched for WatchedWire<W> {
    fn listens(&self) -> Option<SocketAddr> {
        self.listens
    }

    fn seen(&self) -> &[WireEvent] {
        self.events.kept()
    }

    fn left_out(&self) -> u64 {
        self.events.left_out()
    }
}

impl<W: Wire + TellsFaults> Wire for WatchedWire<W> {
    type Socket = WatchedSocket<W>;

    ghost state = { λ watched. W.state watched.wire };

    ghost number = { λ watched. W.number watched.socket };

    ghost address = { λ watched. W.address watched.socket };

    fn connect(&mut self, to: SocketAddr) -> Option<WatchedSocket<W>> {
        match self.wire.connect(to) {
            Some(socket) => Some(WatchedSocket::new(socket, to, false)),
            None => {
                let seen = not_begun(self.wire.last_fault());
                self.see(to, seen);
                None
            }
        }
    }

    fn attempt(&mut self, socket: &mut WatchedSocket<W>) -> Attempt {
        let attempt = self.wire.attempt(&mut socket.socket);
        socket.is_up = attempt == Attempt::Connected;
        socket.fault = self.wire.last_fault();
        attempt
    }

    fn accept(&mut self) -> Accepted<WatchedSocket<W>> {
        match self.wire.accept() {
            Accepted::Connection(socket, address) => {
                Accepted::Connection(WatchedSocket::new(socket, address, true), address)
            }
            Accepted::Nothing => Accepted::Nothing,
            Accepted::Fault => Accepted::Fault,
        }
    }

    fn read(&mut self, socket: &mut WatchedSocket<W>, buf: &mut [u8]) -> Received {
        let received = self.wire.read(&mut socket.socket, buf);
        if let Received::Octets(count) = received {
            if self.is_on {
                if let Some(notice) = socket.came.follow(&buf[..count]) {
                    self.see(socket.address, Seen::Received(notice));
                }
            }
        }
        received
    }

    fn write(&mut self, socket: &mut WatchedSocket<W>, octets: &[u8]) -> Sent {
        let sent = self.wire.write(&mut socket.socket, octets);
        if let Sent::Octets(count) = sent {
            if self.is_on {
                if let Some(notice) = socket.went.follow(&octets[..count]) {
                    self.see(socket.address, Seen::Sent(notice));
                }
            }
        }
        sent
    }

    fn is_ending(&mut self, socket: &WatchedSocket<W>) -> bool {
        self.wire.is_ending(&socket.socket)
    }

    fn close(&mut self, socket: WatchedSocket<W>, parting: Parting) {
        let WatchedSocket {
            socket,
            address,
            is_up,
            fault,
            ..
        } = socket;
        self.see(address, seen_of(is_up, fault, parting));
        self.wire.close(socket, parting);
    }

    // What was seen in the turn has been told by now; what a command behind it closed isn't told.
    fn wait(&mut self, most: Duration) {
        self.events.clear();
        self.wire.wait(most);
    }

    fn faults(&self) -> u64 {
        self.wire.faults()
    }

    fn ends(&self) -> u64 {
        self.wire.ends()
    }

    fn octets_in(&self) -> u64 {
        self.wire.octets_in()
    }

    fn octets_out(&self) -> u64 {
        self.wire.octets_out()
    }
}

// What it is to a log that no attempt could be begun.
fn not_begun(fault: Option<ConnectFault>) -> Seen {
    match fault {
        Some(cause) => Seen::AttemptFailed(cause),
        None => Seen::NoAttempt,
    }
}

// What the end of a connection is to a log, or that of an attempt at one.
fn seen_of(is_up: bool, fault: Option<ConnectFault>, parting: Parting) -> Seen {
    match (parting, fault) {
        (Parting::NoPlace | Parting::NoMemory, _) => Seen::Refused(parting),
        _ if is_up => Seen::Ended(parting),
        (Parting::Failed, Some(cause)) => Seen::AttemptFailed(cause),
        _ => Seen::AttemptEnded(parting),
    }
}
