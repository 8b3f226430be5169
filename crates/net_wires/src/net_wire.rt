//! The system's TCP sockets.
ghost use Rattle.std.specs.Prelude.{◌≡◌, IfOk, None, Some, false, true};
ghost use Rattle.wires.specs.Wires.{failing, nothing_told, one_more, told_by_attempt, told_by_read, told_by_write};

use crate::accept_fault::AcceptFault;
use crate::net_socket::NetSocket;
use crate::readiness::Readiness;
use crate::router_event::RouterEvent;
use crate::system_sockets::SystemSockets;
use crate::waiter::Waiter;
use connect_faults::{ConnectFault, TellsFaults};
use mio::net::TcpStream;
use std::alloc::AllocGlobal;
use std::io::{self, ErrorKind};
use std::marker::Model;
use std::mem;
use std::net::{self, Net, SocketAddr, TcpListener};
use std::time::Duration;
use wires::{Accepted, Attempt, Parting, Received, Sent, Wire};

/// How long a program rests at most between two turns (own choice).
pub const REST_MILLISECONDS: u64 = 50;

/// TCP sockets that don't wait, and the listener whose connections are accepted. `accept`, with which a turn begins, and
/// `wait` hear what has become ready; the system is asked to accept, to read and to write only where that may do something.
#[derive(Drop)]
pub struct NetWire<'a, R: Net<Listener = TcpListener, Stream = net::TcpStream> + AllocGlobal> {
    system: SystemSockets<'a, R>,
    waiter: Waiter,
    faults: u64,
    accept_faults: u64,
    ends: u64,
    sockets: u64,
    octets_in: u64,
    octets_out: u64,
    // Whether a connection came or an attempt has led to one, or octets came or went, since the last wait.
    is_busy: bool,
    // What was seen since a connection was asked for last. Where there is no memory for more, it is left out.
    events: Vec<RouterEvent>,
    // Whether descriptors were wanting when a connection was asked for last.
    lacks_descriptors: bool,
    // Why the last call failed that began an attempt or asked how one stands, if it did.
    last_fault: Option<ConnectFault>,
}

impl<'a, R: Net<Listener = TcpListener, Stream = net::TcpStream> + AllocGlobal> Model
    for NetWire<'a, R> {
    ghost use Rattle.wires.specs.Wires.{WireState};

    ghost Value = { WireState };

    ghost view = { λ wire. record {
      listens = wire.system.listens;
      faults = wire.faults;
      accept_faults = wire.accept_faults;
      ends = wire.ends;
      sockets = wire.sockets;
      octets_in = wire.octets_in;
      octets_out = wire.octets_out;
      calls = wire.system.calls;
    } };
}

impl<'a, R: Net<Listener = TcpListener, Stream = net::TcpStream> + AllocGlobal> NetWire<'a, R> {
    /// A wire that only connects.
    pub fn new(net: &'a R) -> io::Result<Self>
        ensures { IfOk result (λ wire. wire ≡ nothing_told None) }
    {
        NetWire::open(net, None)
    }

    /// A wire that listens at the address too.
    pub fn listening(net: &'a R, address: SocketAddr) -> io::Result<Self>
        ensures { IfOk result (λ wire. wire ≡ nothing_told (Some address)) }
    {
        NetWire::open(net, Some(address))
    }

    /// A wire that listens too where an address is given.
    pub fn open(net: &'a R, address: Option<SocketAddr>) -> io::Result<Self>
        ensures { IfOk result (λ wire. wire ≡ nothing_told address) }
    {
        let waiter = Waiter::new(net)?;
        let system = SystemSockets::open(net, address)?;
        if let Some(listener) = system.listener() {
            waiter.watch_listener(listener)?;
        }
        Ok(NetWire {
            system,
            waiter,
            faults: 0,
            accept_faults: 0,
            ends: 0,
            sockets: 0,
            octets_in: 0,
            octets_out: 0,
            is_busy: false,
            events: Vec::new(net.alloc()),
            lacks_descriptors: false,
            last_fault: None,
        })
    }

    /// Where the wire listens, if it does.
    pub fn local_address(&self) -> Option<SocketAddr> {
        match self.system.listener() {
            Some(listener) => listener.local_addr().ok(),
            None => None,
        }
    }

    /// What was seen of routers since a connection was asked for last, which a turn begins with.
    pub fn events(&self) -> &[RouterEvent] {
        self.events.as_slice()
    }

    // Keeps in mind what was seen.
    fn see(&mut self, event: RouterEvent)
        ensures { self.new ≡ self.old }
    {
        let _kept = self.events.push(event);
    }

    // The next socket.
    fn next_socket(&mut self, stream: TcpStream, address: SocketAddr, known: Readiness) -> NetSocket
        ensures number { result.number ≡ self.old.sockets }
        ensures address { result.address ≡ address }
        ensures tells { self.new ≡ record self.old { sockets = one_more self.old.sockets } }
    {
        let number = self.sockets;
        self.sockets = self.sockets.saturating_add(1);
        let mut stream = stream;
        let key = self.waiter.watch(&mut stream, known);
        NetSocket {
            stream,
            address,
            number,
            key,
        }
    }

    // Descriptors are wanting, which is seen once.
    fn lack_descriptors(&mut self)
        ensures { self.new ≡ self.old }
    {
        if !self.lacks_descriptors {
            self.see(RouterEvent::NoDescriptors);
        }
        self.lacks_descriptors = true;
    }

    // Counts a fault.
    fn fail(&mut self)
        ensures { self.new ≡ failing self.old }
    {
        self.faults = self.faults.saturating_add(1);
    }

    // Counts what an attempt tells.
    fn count_attempt(&mut self, attempt: Attempt)
        ensures { self.new ≡ told_by_attempt attempt self.old }
    {
        match attempt {
            Attempt::Connected => self.is_busy = true,
            Attempt::Pending => {}
            Attempt::Fault => self.fail(),
        }
    }

    // Counts what a read tells.
    fn count_read(&mut self, received: Received)
        ensures { self.new ≡ told_by_read received self.old }
    {
        match received {
            Received::Octets(count) => {
                self.is_busy = true;
                self.octets_in = self.octets_in.saturating_add(count as u64);
            }
            Received::Nothing => {}
            Received::End => self.ends = self.ends.saturating_add(1),
            Received::Fault => self.fail(),
        }
    }

    // Counts what a write tells.
    fn count_write(&mut self, sent: Sent)
        ensures { self.new ≡ told_by_write sent self.old }
    {
        match sent {
            Sent::Octets(count) => {
                self.is_busy = true;
                self.octets_out = self.octets_out.saturating_add(count as u64);
            }
            Sent::Nothing => {}
            Sent::Fault => self.fail(),
        }
    }

    // A connection that came.
    fn take_in(&mut self, stream: TcpStream, address: SocketAddr) -> NetSocket
        ensures number { result.number ≡ self.old.sockets }
        ensures address { result.address ≡ address }
        ensures tells { self.new ≡ record self.old { sockets = one_more self.old.sockets } }
    {
        self.see(RouterEvent::Came(address));
        self.next_socket(stream, address, Readiness::BOTH)
    }

    // What a fault of accepting leads to: whether the listener has failed.
    fn judge_accept(&mut self, error: &io::Error) -> bool
        ensures fails { result ≡ true → self.new ≡ record self.old { faults = one_more self.old.faults; accept_faults = one_more self.old.accept_faults } }
        ensures stays { result ≡ false → self.new ≡ self.old }
    {
        if error.kind() == ErrorKind::WouldBlock {
            self.waiter.may_accept = false;
            return false;
        }
        match AcceptFault::of(error) {
            AcceptFault::OfOne => false,
            AcceptFault::Wanting => {
                self.lack_descriptors();
                false
            }
            AcceptFault::OfAll => {
                self.fail();
                self.accept_faults = self.accept_faults.saturating_add(1);
                true
            }
        }
    }
}

impl<R: Net<Listener = TcpListener, Stream = net::TcpStream> + AllocGlobal> TellsFaults
    for NetWire<'_, R> {
    fn last_fault(&self) -> Option<ConnectFault> {
        self.last_fault
    }
}

impl<R: Net<Listener = TcpListener, Stream = net::TcpStream> + AllocGlobal> Wire
    for NetWire<'_, R> {
    type Socket = NetSocket;

    ghost state = { λ wire. wire };

    ghost number = { λ socket. socket.number };

    ghost address = { λ socket. socket.address };

    fn connect(&mut self, to: SocketAddr) -> Option<NetSocket> {
        match self.system.connect(to) {
            Ok(stream) => Some(self.next_socket(stream, to, Readiness::ATTEMPT)),
            Err(error) => {
                self.last_fault = Some(ConnectFault::of(&error));
                self.fail();
                None
            }
        }
    }

    fn attempt(&mut self, socket: &mut NetSocket) -> Attempt {
        let standing = if self.waiter.sockets.readiness(socket.key).may_write {
            self.system.attempt(socket)
        } else {
            self.system.leave_attempt(socket)
        };
        self.last_fault = standing.cause;
        self.count_attempt(standing.attempt);
        standing.attempt
    }

    fn accept(&mut self) -> Accepted<NetSocket> {
        self.events.clear();
        self.waiter.poll(Duration::ZERO);
        if self.system.listener().is_none() || !self.waiter.may_accept {
            self.system.leave_accept();
            return Accepted::Nothing;
        }
        match self.system.accept() {
            Ok(came) => {
                self.is_busy = true;
                self.lacks_descriptors = false;
                match came {
                    Some((stream, address)) => {
                        Accepted::Connection(self.take_in(stream, address), address)
                    }
                    None => Accepted::Nothing,
                }
            }
            Err(error) => match self.judge_accept(&error) {
                true => Accepted::Fault,
                false => Accepted::Nothing,
            },
        }
    }

    fn read(&mut self, socket: &mut NetSocket, buf: &mut [u8]) -> Received {
        if !self.waiter.sockets.readiness(socket.key).may_read {
            return self.system.leave_unread(socket, buf);
        }
        let answer = self.system.read(socket, buf);
        if answer.would_wait {
            self.waiter.sockets.rest_reading(socket.key);
        }
        self.count_read(answer.told);
        answer.told
    }

    fn write(&mut self, socket: &mut NetSocket, octets: &[u8]) -> Sent {
        if !self.waiter.sockets.readiness(socket.key).may_write {
            return self.system.leave_unwritten(socket, octets);
        }
        let answer = self.system.write(socket, octets);
        if answer.would_wait {
            self.waiter.sockets.rest_writing(socket.key);
        }
        self.count_write(answer.told);
        answer.told
    }

    fn is_ending(&mut self, socket: &NetSocket) -> bool {
        let known = self.waiter.sockets.readiness(socket.key);
        // It is to be visited soon.
        self.is_busy = known.is_ending || self.is_busy;
        self.system.look(socket, known.is_ending)
    }

    fn close(&mut self, socket: NetSocket, parting: Parting) {
        self.waiter.sockets.remove(socket.key);
        self.see(RouterEvent::Went(socket.address, parting));
        self.system.close(socket, parting);
    }

    // Behind a turn that moved anything there is no rest.
    fn wait(&mut self, most: Duration) {
        let is_busy = mem::replace(&mut self.is_busy, false);
        if !is_busy {
            self.waiter.poll(most);
        }
    }

    fn faults(&self) -> u64 {
        self.faults
    }

    fn ends(&self) -> u64 {
        self.ends
    }

    fn octets_in(&self) -> u64 {
        self.octets_in
    }

    fn octets_out(&self) -> u64 {
        self.octets_out
    }
}
