//! Which sockets are ready, by the system's `epoll`.
ghost use Rattle.std.specs.Prelude.{◌≡◌, [], All, IfNone, IfOk, IfSome, None, Some, true};
ghost use Rattle.mio.specs.Events.{items};
ghost use Rattle.slab.specs.Slab.{SameValues, Updates, get};
ghost use Rattle.net_wires.specs.Readiness.{AllMayBeReady, AllMayStill, IsHeard, told_by};

use crate::readiness::{Readiness, WatchedSockets};
use mio::event::Event;
use mio::net::TcpStream;
use mio::unix::SourceFd;
use mio::{Events, Interest, Poll, Token};
use std::alloc::AllocGlobal;
use std::io;
use std::net::{Net, TcpListener};
use std::os::fd::AsRawFd;
use std::time::Duration;

// How many sockets one poll tells of; the others are told of by the next one.
const TOLD_AT_ONCE: usize = 512;

// The name of the listener. A socket's is its key, which never comes so high.
const LISTENER: Token = Token(usize::MAX);

/// What hears which sockets have become ready. The system tells that of a socket once, and again only where a call would
/// have had to wait since: so what it has told is kept until such a call.
#[derive(Drop)]
pub(crate) struct Waiter {
    poll: Poll,
    events: Events,
    /// What the sockets may be ready for.
    pub sockets: WatchedSockets,
    /// Whether a connection may wait at the listener.
    pub may_accept: bool,
}

impl Waiter {
    /// It watches no socket. The listener hasn't been asked yet, so a connection may wait.
    pub fn new<R: Net + AllocGlobal>(net: &R) -> io::Result<Waiter>
        ensures none { IfOk result (λ waiter. waiter.sockets.slots ≡ []) }
        ensures listener { IfOk result (λ waiter. waiter.may_accept ≡ true) }
    {
        Ok(Waiter {
            poll: Poll::new(net)?,
            events: Events::with_capacity(net.alloc(), TOLD_AT_ONCE)?,
            sockets: WatchedSockets::new(net.alloc()),
            may_accept: true,
        })
    }

    /// Connections that come to the listener are told of.
    pub fn watch_listener(&self, listener: &TcpListener) -> io::Result<()> {
        let descriptor = listener.as_raw_fd();
        let registry = self.poll.registry();
        registry.register(&mut SourceFd(&descriptor), LISTENER, Interest::READABLE)
    }

    /// Octets that come on the stream, and room for octets that go, are told of under its key. There is none where there is
    /// no memory, of the program or of the system: the stream ends no wait then.
    pub fn watch(&mut self, stream: &mut TcpStream, known: Readiness) -> Option<usize>
        ensures unused { IfSome result (λ key. get self.old.sockets key ≡ None) }
        ensures adds { IfSome result (λ key. Updates self.old.sockets self.new.sockets key (Some known)) }
        ensures none { IfNone result (SameValues self.old.sockets self.new.sockets) }
        ensures listener { self.new.may_accept ≡ self.old.may_accept }
    {
        let key = self.sockets.add(known)?;
        let interest = Interest::READABLE | Interest::WRITABLE;
        let watched = self.poll.registry().register(stream, Token(key), interest);
        if watched.is_err() {
            self.sockets.remove(Some(key));
            return None;
        }
        Some(key)
    }

    /// Hears what has become ready, and where nothing has, waits for it so long.
    pub fn poll(&mut self, most: Duration)
        ensures all { All (IsHeard self.new.sockets self.new.may_accept) (items self.new.events) }
        ensures sockets { AllMayStill self.old.sockets self.new.sockets }
        ensures listener { self.old.may_accept ≡ true → self.new.may_accept ≡ true }
    {
        match self.poll.poll(&mut self.events, Some(most)) {
            Ok(()) => hear(&self.events, &mut self.sockets, &mut self.may_accept),
            Err(_) => self.lose_track(),
        }
    }

    // What has become ready isn't known any more.
    fn lose_track(&mut self)
        ensures sockets { AllMayBeReady self.new.sockets }
        ensures listener { self.new.may_accept ≡ true }
        ensures events { self.new.events ≡ self.old.events }
    {
        self.may_accept = true;
        self.sockets.tell_all();
    }
}

// Keeps in mind what events tell.
fn hear(events: &Events, sockets: &mut WatchedSockets, may_accept: &mut bool)
    ensures all { All (IsHeard sockets.new may_accept.new) (items events.now) }
    ensures sockets { AllMayStill sockets.old sockets.new }
    ensures listener { may_accept.old ≡ true → may_accept.new ≡ true }
{
    for event in events {
        if event.token() == LISTENER {
            *may_accept = true;
        } else {
            sockets.tell(event.token().0, told_by(event));
        }
    }
}

// What an event tells of its socket.
fn told_by(event: &Event) -> Readiness
    ensures { result ≡ told_by event.now }
{
    Readiness {
        may_read: event.is_readable() || event.is_read_closed() || event.is_error(),
        may_write: event.is_writable() || event.is_write_closed() || event.is_error(),
        is_ending: event.is_read_closed() || event.is_error(),
    }
}
