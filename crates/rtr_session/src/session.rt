//! A session with a cache.
ghost use Rattle.std.specs.Prelude.{IfOk, ◌≡◌, ◌<◌, ◌++◌, ◌∷◌, ℕ, List, [], length, min, take, drop, true, false};
ghost use Rattle.net_prefix.specs.declared.transport.Transport.TheVariants.{Open as Connected};
ghost use Rattle.net_prefix.specs.PayloadSets.{IsPayloadSet};
ghost use Rattle.rtr_client.specs.Following.{state_of};
ghost use Rattle.rtr_codec.specs.ClientTable.{Fail, Tick, Up, in_force, row, transport_of};
ghost use Rattle.rtr_codec.specs.PduStream.{needed_of};
ghost use Rattle.rtr_session.specs.Agreement.{SessionAgrees, Starves};
ghost use Rattle.rtr_session.specs.SessionHistory.{Came_up, Event, Failed, Handed, Ticked, moment_of, onto, opens_at};
ghost use Rattle.rtr_session.specs.SessionState.{Changes, HearsOctets, after_input, begun, configured, handed};

use crate::sender::Sender;
use net_prefix::{Transport, Vrp};
use rtr_client::{ClientState, Input};
use rtr_codec::{End, Receiver};
use std::alloc::{AllocError, Allocator, Global};
use std::collections::BTreeSet;
use std::marker::Model;
use vrp_delta::{Delta, Keeper};

/// What came of octets.
#[derive(Clone, Copy, Debug, PartialEq, Eq)]
pub struct Hearing {
    /// How many of the octets were taken.
    pub count: usize,
    /// Memory was refused: the session has closed.
    pub starved: bool,
}

/// A session with a cache.
#[derive(Drop)]
pub struct CacheSession<A: Allocator = Global> {
    sender: Sender<A>,
    receiver: Receiver,
}

impl<A: Allocator> Model for CacheSession<A> {
    ghost use Rattle.rtr_codec.specs.PduStream.{Wants};
    ghost use Rattle.rtr_session.specs.SessionState.{Session};

    ghost Value = { Session };

    ghost view = { λ s. record { client = s.sender.client; reading = s.receiver; ring = s.sender.ring; changed = s.sender.changed } };

    ghost invariant = { λ s. Wants s.receiver.place s.receiver.part };
}

impl<A: Allocator> CacheSession<A> {
    /// The state of the client, as operators see it.
    pub fn state(&self) -> ClientState
        ensures { result ≡ state_of self.now.client }
    {
        self.sender.client().state()
    }

    /// What stands between the session and its connection.
    pub fn transport(&self) -> Transport
        ensures { result ≡ transport_of self.now.client }
    {
        self.sender.client().transport()
    }

    /// The payloads in force.
    pub fn payloads(&self) -> &BTreeSet<Vrp, A>
        ensures set { result.now.keys ≡ in_force self.now.client }
        ensures rises { IsPayloadSet result.now.keys }
    {
        self.sender.client().in_force()
    }

    /// What the last call of `up`, `fail`, `tick` or `hear_next` changed of the payloads in force.
    pub fn changed(&self) -> &Delta<A>
        ensures { result.now ≡ self.now.changed }
    {
        self.sender.client().changed()
    }
}

impl<A: Allocator + Clone> CacheSession<A> {
    /// A session that has begun to open its connection. Behind what failed it waits for `retry` seconds, until a load has
    /// brought the cache's own Retry Interval (RFC 8210 section 6).
    pub fn new(alloc: A, retry: u32) -> Result<Self, AllocError>
        ensures exact { IfOk result (λ s. s ≡ configured retry) }
        ensures agrees { IfOk result (λ s. SessionAgrees retry [] s) }
    {
        let sender = Sender::new(alloc, retry)?;
        Ok(CacheSession {
            sender,
            receiver: Receiver::new(End::Client),
        })
    }

    /// The connection comes up at this moment, in seconds: what is left of the one before is dropped.
    pub fn up<K: Keeper>(&mut self, now: u64, keeper: &mut K)
        requires { K.kept keeper.old ≡ in_force self.old.client }
        ensures exact { self.new ≡ after_input now Up (begun self.old) }
        ensures changes { Changes self.old self.new }
        ensures kept { K.kept keeper.new ≡ in_force self.new.client }
        ensures agrees { (retry : ℕ) (h : List Event) → SessionAgrees retry h self.old → now ≡ moment_of h → SessionAgrees retry (Came_up ∷ h) self.new }
    {
        self.begin();
        let _opens_nothing = self.sender.take_input(Input::Up, now, keeper);
    }

    /// The connection fails at this moment, or the attempt to open one.
    pub fn fail<K: Keeper>(&mut self, now: u64, keeper: &mut K)
        requires { K.kept keeper.old ≡ in_force self.old.client }
        ensures exact { self.new ≡ after_input now Fail (begun self.old) }
        ensures changes { Changes self.old self.new }
        ensures kept { K.kept keeper.new ≡ in_force self.new.client }
        ensures agrees { (retry : ℕ) (h : List Event) → SessionAgrees retry h self.old → now ≡ moment_of h → SessionAgrees retry (Failed ∷ h) self.new }
    {
        self.begin();
        let _opens_nothing = self.sender.take_input(Input::Fail, now, keeper);
    }

    /// A moment comes, in seconds: the timers that have ended by it are treated. Answers whether an attempt to open a
    /// connection begins.
    pub fn tick<K: Keeper>(&mut self, now: u64, keeper: &mut K) -> bool
        requires { K.kept keeper.old ≡ in_force self.old.client }
        ensures exact { self.new ≡ after_input now Tick self.old }
        ensures opens { result ≡ (row now self.old.client Tick).opened }
        ensures changes { Changes self.old self.new }
        ensures kept { K.kept keeper.new ≡ in_force self.new.client }
        ensures agrees { (retry : ℕ) (h : List Event) → SessionAgrees retry h self.old → SessionAgrees retry (Ticked now ∷ h) self.new }
        ensures opened { (retry : ℕ) (h : List Event) → SessionAgrees retry h self.old → result ≡ opens_at retry now h }
    {
        self.sender.take_input(Input::Tick, now, keeper).opened
    }

    /// Takes octets that come at this moment, in seconds, up to the end of the PDU that is being read. Where that is
    /// whole or faulty its row is taken.
    pub fn hear_next<K: Keeper>(&mut self, octets: &[u8], now: u64, keeper: &mut K) -> Hearing
        requires open { transport_of self.old.client ≡ Connected }
        requires kept { K.kept keeper.old ≡ in_force self.old.client }
        ensures count { result.count ≡ min (needed_of self.old.reading.place self.old.reading.part) (length octets.now) }
        ensures goes_on { 0 < length octets.now → 0 < result.count }
        ensures exact { HearsOctets now (take result.count octets.now) result.starved self.old self.new }
        ensures changes { Changes self.old self.new }
        ensures kept { K.kept keeper.new ≡ in_force self.new.client }
        ensures agrees { (retry : ℕ) (h : List Event) → SessionAgrees retry h self.old → now ≡ moment_of h → result.starved ≡ false → SessionAgrees retry (onto (take result.count octets.now) h) self.new }
        ensures starves { (retry : ℕ) (h : List Event) → SessionAgrees retry h self.old → now ≡ moment_of h → result.starved ≡ true → Starves retry h octets.now result.count self.new }
    {
        let count = self.receiver.push(octets);
        let starved = self.sender.hear_front(&self.receiver, now, keeper);
        self.receiver.pass();
        Hearing { count, starved }
    }

    /// Hands out the first octets of the ring, as many as there are and fit, and answers how many.
    pub fn take(&mut self, buf: &mut [u8]) -> usize
        ensures count { result ≡ min (length buf.old) (length self.old.ring) }
        ensures octets { buf.new ≡ take result self.old.ring ++ drop result buf.old }
        ensures exact { self.new ≡ handed self.old result }
        ensures agrees { (retry : ℕ) (h : List Event) → SessionAgrees retry h self.old → SessionAgrees retry (Handed (take result buf.new) ∷ h) self.new }
    {
        self.sender.take(buf)
    }

    // Another connection begins: what was queued or came on the one before is dropped.
    fn begin(&mut self)
        ensures { self.new ≡ begun self.old }
    {
        self.sender.clear();
        self.receiver = Receiver::new(End::Client);
    }
}
