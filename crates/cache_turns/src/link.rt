//! One client's connection.
ghost use Rattle.std.specs.Prelude.{◌≡◌, ◌≤◌, IsSome, Result, length, take};
ghost use Rattle.rtr_cache.specs.CacheState.{OthersStay, client_at};
ghost use Rattle.rtr_cache.specs.ClientHistory.{Heard, Makes};
ghost use Rattle.rtr_cache.specs.declared.event.CacheReport.{CacheReport};
ghost use Rattle.rtr_cache.specs.declared.refusal.CacheRefusal.{CacheRefusal};
ghost use Rattle.cache_turns.specs.Patience.{arriving_at};
ghost use Rattle.cache_turns.specs.Serving.{Answers, Attends, HandsOut, Reads, Stands, Takes, Writes, heard_by, is_over, judged};
ghost use Rattle.wires.specs.TurnOctets.{turn_octets};
ghost use Rattle.wires.specs.Wires.{closing};

use crate::patience::{Moments, Patience};
use net_prefix::Transport;
use rtr_cache::{Cache, CacheEvent};
use std::alloc::{Allocator, Global};
use std::marker::Model;
use std::net::SocketAddr;
use wires::{Outgoing, Parting, Received, Sent, Wire};

/// What a visit to a connection found.
#[derive(Clone, Copy, Debug, PartialEq, Eq)]
pub(crate) enum Visit {
    /// The connection goes on.
    Stays,
    /// The wire failed.
    Faulty,
    /// The other side sends no more, and is told all that there was to tell.
    Ended,
    /// The cache has closed the session, and all that it said is written.
    Closed,
    /// The client was silent for too long.
    Overdue,
}

/// Where a client came from, and when.
#[derive(Clone, Copy, Debug, PartialEq, Eq)]
pub struct Arrival {
    pub address: SocketAddr,
    pub moment: u64,
}

/// A client's connection.
#[derive(Drop)]
pub(crate) struct Link<W: Wire, A: Allocator = Global> {
    socket: W::Socket,
    // Where the client is. It is no part of what a turn makes of a connection.
    address: SocketAddr,
    outgoing: Outgoing<A>,
    moments: Moments,
}

impl<W: Wire, A: Allocator> Model for Link<W, A> {
    ghost use Rattle.cache_turns.specs.Serving.{Connection};

    ghost Value = { Connection };

    ghost view = { λ link. record { number = W.number link.socket; waiting = link.outgoing; moments = link.moments } };
}

impl<W: Wire, A: Allocator + Clone> Link<W, A> {
    /// The connection of a client that comes now, on this socket, with room for what will wait.
    pub fn new(socket: W::Socket, address: SocketAddr, outgoing: Outgoing<A>, now: u64) -> Self
        ensures { result ≡ record { number = W.number socket; waiting = outgoing; moments = arriving_at now } }
    {
        Link {
            socket,
            address,
            outgoing,
            moments: Moments::new(now),
        }
    }

    /// Where its client is, and since when.
    pub fn arrival(&self) -> Arrival
        ensures { result.moment ≡ self.now.moments.came }
    {
        Arrival {
            address: self.address,
            moment: self.moments.came,
        }
    }

    /// What came is handed to the cache as this client's, and what the cache has queued for it goes out. A client that
    /// was silent for too long loses its place.
    pub fn visit(
        &mut self,
        client: u64,
        now: u64,
        patience: &Patience,
        wire: &mut W,
        cache: &mut Cache<A>,
        buf: &mut [u8],
    ) -> Visit
        requires { length buf.old ≡ turn_octets }
        ensures attends { Attends patience.now now client self.old (record { wire = W.state wire.old; cache = cache.old }) result self.new (record { wire = W.state wire.new; cache = cache.new }) }
        ensures others { OthersStay cache.old client cache.new }
        ensures there { IsSome (client_at cache.old client) → IsSome (client_at cache.new client) }
    {
        let found = self.serve(client, now, wire, cache, buf);
        self.judge(client, now, patience, cache, found)
    }

    // One that would stay loses its place where its client was silent for too long.
    fn judge(
        &self,
        client: u64,
        now: u64,
        patience: &Patience,
        cache: &Cache<A>,
        found: Visit,
    ) -> Visit
        ensures { result ≡ judged (is_over patience.now self.now.moments (client_at cache.now client) now) found }
    {
        let transport = cache.transport(client);
        let awaits_first_pdu = cache.awaits_first_pdu(client);
        match found {
            Visit::Stays if patience.is_over(self.moments, transport, awaits_first_pdu, now) => {
                Visit::Overdue
            }
            _ => found,
        }
    }

    fn serve(
        &mut self,
        client: u64,
        now: u64,
        wire: &mut W,
        cache: &mut Cache<A>,
        buf: &mut [u8],
    ) -> Visit
        requires { length buf.old ≡ turn_octets }
        ensures stands { Stands now client self.old (record { wire = W.state wire.old; cache = cache.old }) result self.new (record { wire = W.state wire.new; cache = cache.new }) }
        ensures others { OthersStay cache.old client cache.new }
        ensures there { IsSome (client_at cache.old client) → IsSome (client_at cache.new client) }
    {
        match self.receive(client, now, wire, cache, buf) {
            Received::Octets(_) | Received::Nothing => {
                self.answer(client, Visit::Stays, wire, cache, buf)
            }
            Received::End => self.answer(client, Visit::Ended, wire, cache, buf),
            Received::Fault => Visit::Faulty,
        }
    }

    /// Ends the connection.
    pub fn close(self, wire: &mut W, parting: Parting)
        ensures { W.state wire.new ≡ closing self.number parting (W.state wire.old) }
    {
        let Link { socket, .. } = self;
        wire.close(socket, parting);
    }

    // Hands what came to the cache.
    fn receive(
        &mut self,
        client: u64,
        now: u64,
        wire: &mut W,
        cache: &mut Cache<A>,
        buf: &mut [u8],
    ) -> Received
        requires { length buf.old ≡ turn_octets }
        ensures reads { Reads client self.old.number result (record { wire = W.state wire.old; cache = cache.old }) (record { wire = W.state wire.new; cache = cache.new }) }
        ensures same { self.new ≡ record self.old { moments = heard_by now (client_at cache.old client) result self.old.moments } }
        ensures others { OthersStay cache.old client cache.new }
        ensures there { IsSome (client_at cache.old client) → IsSome (client_at cache.new client) }
    {
        let received = wire.read(&mut self.socket, buf);
        if let Received::Octets(count) = received {
            self.moments.hear(cache.transport(client), now);
            hear(cache, client, &buf[..count]);
        }
        received
    }

    // Takes what is to be written, where all that was taken is written, and writes it. A connection at rest comes to this.
    fn answer(
        &mut self,
        client: u64,
        resting: Visit,
        wire: &mut W,
        cache: &mut Cache<A>,
        buf: &mut [u8],
    ) -> Visit
        requires { length buf.old ≡ turn_octets }
        ensures answers { Answers resting client self.old (record { wire = W.state wire.old; cache = cache.old }) result self.new.waiting (record { wire = W.state wire.new; cache = cache.new }) }
        ensures same { self.new ≡ record self.old { waiting = self.new.waiting } }
        ensures others { OthersStay cache.old client cache.new }
        ensures there { IsSome (client_at cache.old client) → IsSome (client_at cache.new client) }
    {
        refill(&mut self.outgoing, cache, client, buf);
        if self.outgoing.is_empty() {
            return match cache.transport(client) {
                Transport::Closing => Visit::Closed,
                _ => resting,
            };
        }
        self.write(wire)
    }

    // Writes what was taken, as much as goes.
    fn write(&mut self, wire: &mut W) -> Visit
        ensures writes { Writes self.old.number self.old.waiting (W.state wire.old) result self.new.waiting (W.state wire.new) }
        ensures same { self.new ≡ record self.old { waiting = self.new.waiting } }
    {
        match wire.write(&mut self.socket, self.outgoing.octets()) {
            Sent::Octets(count) => {
                self.outgoing.pass(count);
                Visit::Stays
            }
            Sent::Nothing => Visit::Stays,
            Sent::Fault => Visit::Faulty,
        }
    }
}

// Hands octets to the cache as this client's.
fn hear<A: Allocator + Clone>(cache: &mut Cache<A>, client: u64, octets: &[u8])
    ensures heard { (result : Result CacheReport CacheRefusal) × Makes cache.old (Heard client octets.now result) cache.new }
    ensures others { OthersStay cache.old client cache.new }
    ensures there { IsSome (client_at cache.old client) → IsSome (client_at cache.new client) }
{
    let _report = cache.step(CacheEvent::<Global>::Bytes(client, octets));
}

// Takes what the cache has queued for the client, as much as fits, where nothing waits.
#[tactic(auto, unfolding(wires::specs::TurnOctets::turn_octets, wires::specs::TurnOctets::outgoing_octets))]
fn refill<A: Allocator + Clone>(
    outgoing: &mut Outgoing<A>,
    cache: &mut Cache<A>,
    client: u64,
    buf: &mut [u8],
)
    requires { length buf.old ≡ turn_octets }
    ensures takes { Takes client outgoing.old cache.old outgoing.new cache.new }
    ensures others { OthersStay cache.old client cache.new }
    ensures there { IsSome (client_at cache.old client) → IsSome (client_at cache.new client) }
{
    if outgoing.is_empty() {
        let count = take_into(cache, client, buf);
        outgoing.hold(&buf[..count]);
    }
}

// Takes what the cache has queued for the client, as much as the buffer holds.
fn take_into<A: Allocator + Clone>(cache: &mut Cache<A>, client: u64, buf: &mut [u8]) -> usize
    requires { length buf.old ≡ turn_octets }
    ensures bound { result ≤ length buf.new }
    ensures hands_out { HandsOut client cache.old (take result buf.new) cache.new }
    ensures others { OthersStay cache.old client cache.new }
    ensures there { IsSome (client_at cache.old client) → IsSome (client_at cache.new client) }
{
    match cache.take(client, buf) {
        Ok(count) => count,
        Err(_) => 0,
    }
}
