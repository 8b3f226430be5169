//! The cache.

ghost use Rattle.std.specs.Prelude.{◌≡◌, OnErr, length, slice_get};
ghost use Rattle.std.specs.Option.{option_copied, option_map};
ghost use Rattle.net_prefix.specs.PayloadSets.{IsPayloadSet};
ghost use Rattle.rtr_cache.specs.CacheTable.{notified, pumped};
ghost use Rattle.rtr_cache.specs.CacheState.{AllAreAtRest, AllAreNotified, ComesUp, GoesDown, HearsOctets, IsNew, Loads, OthersStay, Ticks, Withdraws, awaits_first_pdu, client_at, held_serial, transport_of};
ghost use Rattle.rtr_cache.specs.ClientHistory.{Makes, Took, call_of};
ghost use Rattle.rtr_cache.specs.declared.other_session.OtherSession.TheVariants.{Report};

use crate::event::{CacheEvent, CacheReport};
use crate::other_session::OtherSession;
use crate::publisher::Publisher;
use crate::refusal::CacheRefusal;
use crate::response::Terms;
use crate::served::ServedClient;
use net_prefix::{Transport, Vrp};
use rtr_codec::Intervals;
use slab::Slab;
use std::alloc::{Allocator, Global};
use std::collections::BTreeSet;
use std::marker::Model;
use vrp_delta::Snapshot;

/// How many clients a cache serves at most.
pub const CACHE_CLIENTS: usize = 256;

/// A cache: what it publishes in one session, and its clients.
#[derive(Drop)]
pub struct Cache<A: Allocator = Global> {
    publisher: Publisher<A>,
    clients: Slab<ServedClient<A>, A>,
}

impl<A: Allocator> Model for Cache<A> {
    ghost use Rattle.rtr_cache.specs.CacheState.{AllAreAtRest, CacheState};

    ghost Value = { CacheState };

    ghost view = { λ c. record { shared = c.publisher; clients = c.clients.slots } };

    ghost invariant = { λ c. AllAreAtRest (record { shared = c.publisher; clients = c.clients.slots }) };
}

impl<A: Allocator + Clone> Cache<A> {
    /// A cache without a set and without clients, at the moment 0. It answers a Serial Query of another session with an
    /// Error Report.
    pub fn new(alloc: A, session: u16, intervals: Intervals) -> Result<Self, CacheRefusal>
        ensures { IsNew session intervals Report result }
    {
        Cache::with_other_session(alloc, session, intervals, OtherSession::Report)
    }

    /// The same, with what it answers a Serial Query of another session with.
    pub fn with_other_session(
        alloc: A,
        session: u16,
        intervals: Intervals,
        other_session: OtherSession,
    ) -> Result<Self, CacheRefusal>
        ensures { IsNew session intervals other_session result }
    {
        if !intervals.are_lawful() {
            return Err(CacheRefusal::Range);
        }
        let publisher = Publisher::new(alloc, Terms { session, intervals }, other_session)?;
        let alloc = publisher.allocator()?;
        Ok(Cache {
            publisher,
            clients: Slab::new(alloc),
        })
    }

    /// Lets the event happen.
    pub fn step<B: Allocator>(
        &mut self,
        event: CacheEvent<'_, B>,
    ) -> Result<CacheReport, CacheRefusal>
        ensures does { Makes self.old (call_of event.entry result) self.new }
        ensures rest { AllAreAtRest self.new }
    {
        let result = match event {
            CacheEvent::Load(set) => self.load(set),
            CacheEvent::Withdraw => self.withdraw(),
            CacheEvent::Up => self.come_up(),
            CacheEvent::Bytes(key, octets) => self.hear(key, octets),
            CacheEvent::Down(key) => self.go_down(key),
            CacheEvent::Tick(now) => self.tick(now),
        };
        // Each client is at rest between any two calls, and so here.
        let _ = &self.clients;
        result
    }

    /// Hands out the first octets that are queued to the client, as many as there are and fit, and answers how many.
    pub fn take(&mut self, key: u64, buf: &mut [u8]) -> Result<usize, CacheRefusal>
        ensures does { Makes self.old (Took key buf.old result buf.new) self.new }
        ensures nothing { OnErr result (buf.new ≡ buf.old) }
        ensures rest { AllAreAtRest self.new }
    {
        match self.clients.get_mut(key as usize) {
            Some(client) => Ok(client.take(buf)),
            None => Err(CacheRefusal::NoClient),
        }
    }

    /// What stands between the client and its connection.
    pub fn transport(&self, key: u64) -> Transport
        ensures { result ≡ transport_of (client_at self.now key) }
    {
        match self.clients.get(key as usize) {
            Some(client) => client.transport(),
            None => Transport::None,
        }
    }

    /// Whether there is such a client, and it has sent no whole PDU yet.
    pub fn awaits_first_pdu(&self, key: u64) -> bool
        ensures { result ≡ awaits_first_pdu (client_at self.now key) }
    {
        match self.clients.get(key as usize) {
            Some(client) => client.awaits_first_pdu(),
            None => false,
        }
    }

    /// The serial of the last End of Data that was handed out whole for the client: what its router holds, once it has
    /// read all that was handed out. None before the first one, and where there is no such client.
    pub fn held_serial(&self, key: u64) -> Option<u32>
        ensures { result ≡ held_serial (client_at self.now key) }
    {
        self.clients.get(key as usize)?.held_serial()
    }

    /// The newest version that was published, if any was.
    pub fn newest(&self) -> Option<&Snapshot<A>>
        ensures { option_copied result ≡ slice_get self.now.shared.kept 0 }
    {
        self.publisher.newest()
    }

    /// Whether the set is withdrawn, until one is loaded.
    pub fn is_withdrawn(&self) -> bool
        ensures { result ≡ self.now.shared.withdrawn }
    {
        self.publisher.is_withdrawn()
    }

    fn load<B: Allocator>(&mut self, set: &BTreeSet<Vrp, B>) -> Result<CacheReport, CacheRefusal>
        ensures does { Loads self.old set.now.keys result self.new }
        ensures err { OnErr result (self.new ≡ self.old) }
        ensures rises { IsPayloadSet set.now.keys }
    {
        let serial = self.publisher.publish(set)?;
        self.notify_clients();
        Ok(CacheReport::of_serial(serial))
    }

    fn withdraw(&mut self) -> Result<CacheReport, CacheRefusal>
        ensures does { Withdraws self.old result self.new }
        ensures err { OnErr result (self.new ≡ self.old) }
    {
        self.publisher.withdraw();
        Ok(CacheReport::NOTHING)
    }

    fn come_up(&mut self) -> Result<CacheReport, CacheRefusal>
        ensures does { ComesUp self.old result self.new }
        ensures err { OnErr result (self.new ≡ self.old) }
    {
        if self.clients.len() >= CACHE_CLIENTS {
            return Err(CacheRefusal::Full);
        }
        // A slab fills its free places first, so its keys stay below the limit. No other is handed out.
        if self.clients.vacant_key() >= CACHE_CLIENTS {
            return Err(CacheRefusal::NoMemory);
        }
        let client = ServedClient::new(self.publisher.allocator()?)?;
        match self.clients.insert(client) {
            Ok(key) => Ok(CacheReport::of_client(key as u64)),
            Err(_) => Err(CacheRefusal::NoMemory),
        }
    }

    fn hear(&mut self, key: u64, octets: &[u8]) -> Result<CacheReport, CacheRefusal>
        ensures does { HearsOctets self.old key octets.now result self.new }
        ensures err { OnErr result (self.new ≡ self.old) }
    {
        match self.clients.get_mut(key as usize) {
            Some(client) => {
                client.receive(&mut self.publisher, octets);
                Ok(CacheReport::NOTHING)
            }
            None => Err(CacheRefusal::NoClient),
        }
    }

    fn go_down(&mut self, key: u64) -> Result<CacheReport, CacheRefusal>
        ensures does { GoesDown self.old key result self.new }
        ensures err { OnErr result (self.new ≡ self.old) }
    {
        match self.clients.try_remove(key as usize) {
            Some(_) => Ok(CacheReport::NOTHING),
            None => Err(CacheRefusal::NoClient),
        }
    }

    fn tick(&mut self, now: u64) -> Result<CacheReport, CacheRefusal>
        ensures does { Ticks self.old now result self.new }
        ensures err { OnErr result (self.new ≡ self.old) }
    {
        if now < self.publisher.now() {
            return Err(CacheRefusal::ClockBack);
        }
        self.publisher.tick(now);
        self.notify_clients();
        Ok(CacheReport::NOTHING)
    }

    // At a Load and at a Tick, by rising key.
    fn notify_clients(&mut self)
        ensures shared { self.new.shared ≡ self.old.shared }
        ensures all { AllAreNotified self.old self.new }
    {
        for key in 0..self.clients.capacity() {
            self.notify_client(key);
        }
    }

    // The client of this key, if there is one.
    fn notify_client(&mut self, key: usize)
        ensures shared { self.new.shared ≡ self.old.shared }
        ensures client { client_at self.new key ≡ option_map (λ conn. pumped (notified self.old.shared conn)) (client_at self.old key) }
        ensures others { OthersStay self.old key self.new }
        ensures slots { length self.new.clients ≡ length self.old.clients }
    {
        if let Some(client) = self.clients.get_mut(key) {
            client.notify(&self.publisher);
        }
    }
}
