//! The turns of a cache: routers connect, ask and are answered.
ghost use Rattle.std.specs.Prelude.{◌≡◌, ◌<◌, ◌+◌, ℕ, [], Err, None, Ok, OnOk, IfOk, IsSome, MatchResult, Some, count_by, is_some, length, slice_index_or, slice_set};
ghost use Rattle.std.specs.Option.{option_map};
ghost use Rattle.rtr_cache.specs.CacheState.{OthersStay, client_at, tells_client};
ghost use Rattle.rtr_cache.specs.ClientHistory.{CameUp, Loaded, Makes};
ghost use Rattle.rtr_cache.specs.declared.refusal.CacheRefusal.{CacheRefusal};
ghost use Rattle.cache_turns.specs.Holding.{held, holding_of};
ghost use Rattle.cache_turns.specs.Turns.{Admits, GoesDown, IsTold, LinksStay, OtherLinksStay, TakesTurn, TellsCache, Visits, VisitsAll, WithdrawsSet, idle, link_at, link_left, parting_for, settled};
ghost use Rattle.wires.specs.Counts.{closing_it, counts_of_wire, losing};
ghost use Rattle.wires.specs.TurnOctets.{turn_octets};
ghost use Rattle.wires.specs.Wires.{closing};
ghost use Rattle.wires.specs.declared.wire.Parting.TheVariants.{NoMemory};

use crate::holding::{Holding, holding_of};
use crate::link::{Arrival, Link, Visit};
use crate::patience::Patience;
use net_prefix::Vrp;
use rtr_cache::{Cache, CacheEvent, CacheRefusal, CacheReport};
use std::alloc::{AllocError, Allocator, Global};
use std::collections::BTreeSet;
use std::marker::Model;
use std::time::Duration;
use wires::{Accepted, LoopFault, Outgoing, Parting, TURN_OCTETS, Wire};

/// A cache and the connections of its clients.
#[derive(Drop)]
pub struct CacheLoop<W: Wire, A: Allocator = Global> {
    alloc: A,
    wire: W,
    patience: Patience,
    cache: Cache<A>,
    // The connection of the client of key k stands at place k.
    links: Vec<Option<Link<W, A>>, A>,
    lost: u64,
    closed: u64,
}

impl<W: Wire, A: Allocator> Model for CacheLoop<W, A> {
    ghost use Rattle.cache_turns.specs.Turns.{EachHasAClient, Turns};

    ghost Value = { Turns };

    ghost view = { λ c. record { patience = c.patience; counts = record { lost = c.lost; closed = c.closed; wire = W.state c.wire }; cache = c.cache; links = c.links.items } };

    ghost invariant = { λ c. EachHasAClient c.cache c.links.items };
}

impl<W: Wire + Drop, A: Allocator + Clone> CacheLoop<W, A> {
    /// The turns of this cache on this wire, before the first, with the usual patience.
    pub fn new(alloc: A, wire: W, cache: Cache<A>) -> Result<Self, AllocError>
        ensures { IfOk result (λ turns. turns ≡ idle (record { first = 60; idle = 7200 }) cache (W.state wire)) }
    {
        CacheLoop::with_patience(alloc, wire, cache, Patience::USUAL)
    }

    /// The same, with how long clients may be silent.
    pub fn with_patience(
        alloc: A,
        wire: W,
        cache: Cache<A>,
        patience: Patience,
    ) -> Result<Self, AllocError>
        ensures { IfOk result (λ turns. turns ≡ idle patience cache (W.state wire)) }
    {
        let links = Vec::new(alloc.clone()?);
        Ok(CacheLoop {
            alloc,
            wire,
            patience,
            cache,
            links,
            lost: 0,
            closed: 0,
        })
    }

    /// One turn: a connection that waits is accepted, what came on each is handed to the cache and what the cache
    /// has queued for it goes out, one whose client was silent for too long ends, and the cache is told the moment. A
    /// moment before the last one tells it nothing.
    pub fn turn(&mut self, now: u64) -> Result<(), LoopFault>
        ensures { TakesTurn now self.old result self.new }
    {
        self.admit(now)?;
        self.visit_all(now);
        self.tell(now);
        Ok(())
    }

    /// Loads a set into the cache, between two turns. No connection changes.
    pub fn load<B: Allocator>(
        &mut self,
        set: &BTreeSet<Vrp, B>,
    ) -> Result<CacheReport, CacheRefusal>
        ensures loads { Makes self.old.cache (Loaded set.now.keys result) self.new.cache }
        ensures same { self.new ≡ record self.old { cache = self.new.cache } }
    {
        self.cache.step(CacheEvent::Load(set))
    }

    /// Has the cache withdraw its set, between two turns, until one is loaded. No connection changes.
    pub fn withdraw(&mut self)
        ensures { WithdrawsSet self.old self.new }
    {
        let _never_refused = self.cache.step(CacheEvent::<Global>::Withdraw);
    }

    /// How many connections there are.
    pub fn connections(&self) -> usize
        ensures { result ≡ count_by is_some self.now.links }
    {
        self.links.iter().filter(|link| link.is_some()).count()
    }

    /// How many routers hold this serial, another one, and none.
    pub fn holding(&self, serial: u32) -> Holding
        ensures counts { result ≡ holding_of serial (held self.now) }
        ensures all { result.current + (result.behind + result.without) ≡ count_by is_some self.now.links }
    {
        holding_of(&self.cache, self.links.as_slice(), serial)
    }

    /// How many clients were lost: for each the cache was told that the connection is gone. It stays at the greatest
    /// u64, as the next one does.
    pub fn lost(&self) -> u64
        ensures { result ≡ self.now.counts.lost }
    {
        self.lost
    }

    /// How many connections were closed since the cache had closed their session and said all, or since their clients
    /// were silent for too long.
    pub fn closed(&self) -> u64
        ensures { result ≡ self.now.counts.closed }
    {
        self.closed
    }

    /// Rests until a turn may find something to do, or so long.
    pub fn wait(&mut self, most: Duration)
        ensures { self.new ≡ self.old }
    {
        self.wire.wait(most);
    }

    /// The wire.
    pub fn wire(&self) -> &W
        ensures { W.state result.now ≡ self.now.counts.wire }
    {
        &self.wire
    }

    /// The cache.
    pub fn cache(&self) -> &Cache<A>
        ensures { result.now ≡ self.now.cache }
    {
        &self.cache
    }

    /// Where the client of this key came from, and when, where its connection stands.
    pub fn arrival(&self, client: usize) -> Option<Arrival>
        ensures came { option_map (λ arrival. arrival.moment) result ≡ option_map (λ link. link.moments.came) (link_at self.now client) }
    {
        match self.links.get(client) {
            Some(Some(link)) => Some(link.arrival()),
            _ => None,
        }
    }

    // Accepts a connection that waits. One whose client the cache refuses, or for which there is no memory, is closed.
    fn admit(&mut self, now: u64) -> Result<(), LoopFault>
        ensures { Admits now self.old result self.new }
    {
        let (socket, address) = match self.wire.accept() {
            Accepted::Connection(socket, address) => (socket, address),
            Accepted::Nothing => return Ok(()),
            Accepted::Fault => return Err(LoopFault::Accept),
        };
        let client = match self.new_client() {
            Ok(client) => client as usize,
            Err(why) => {
                self.wire.close(socket, parting_for(why));
                return Ok(());
            }
        };
        match self.room_for(client) {
            Ok(outgoing) => self.seat(client, Link::new(socket, address, outgoing, now)),
            Err(_) => self.send_away(client, socket),
        }
        Ok(())
    }

    // The key of a new client, unless the cache refuses it.
    fn new_client(&mut self) -> Result<u64, CacheRefusal>
        ensures same { self.new ≡ record self.old { cache = self.new.cache } }
        ensures comes { MatchResult result (λ key. Makes self.old.cache (CameUp (Ok (tells_client key))) self.new.cache) (λ why. Makes self.old.cache (CameUp (Err why)) self.new.cache) }
        ensures unused { IfOk result (λ key. link_at self.old key ≡ None) }
        ensures there { IfOk result (λ key. IsSome (client_at self.new.cache key)) }
    {
        let report = self.cache.step(CacheEvent::<Global>::Up)?;
        match report.client {
            Some(key) => Ok(key),
            None => Err(CacheRefusal::NoMemory),
        }
    }

    // A place for the connection of a client, and room for what will wait to be written to it.
    fn room_for(&mut self, client: usize) -> Result<Outgoing<A>, AllocError>
        ensures same { self.new ≡ record self.old { links = self.new.links } }
        ensures room { IfOk result (λ outgoing. outgoing ≡ []) }
        ensures place { OnOk result (client < length self.new.links) }
        ensures links { LinksStay self.old self.new }
    {
        make_place(&mut self.links, client)?;
        Outgoing::new(self.alloc.clone()?)
    }

    // Puts the connection of a client where it belongs.
    fn seat(&mut self, client: usize, link: Link<W, A>)
        requires place { client < length self.old.links }
        requires there { IsSome (client_at self.old.cache client) }
        ensures same { self.new ≡ record self.old { links = self.new.links } }
        ensures here { link_at self.new client ≡ Some link }
        ensures others { OtherLinksStay self.old client self.new }
    {
        self.links[client] = Some(link);
    }

    // Closes the socket of a client for whose connection there is no memory, and tells the cache that the client is gone.
    fn send_away(&mut self, client: usize, socket: W::Socket)
        requires unused { link_at self.old client ≡ None }
        ensures patience { self.new.patience ≡ self.old.patience }
        ensures counts { self.new.counts ≡ counts_of_wire (closing (W.number socket) NoMemory) self.old.counts }
        ensures gone { GoesDown self.old.cache client self.new.cache }
        ensures links { self.new.links ≡ self.old.links }
    {
        self.wire.close(socket, Parting::NoMemory);
        tell_gone(&mut self.cache, client as u64);
    }

    #[tactic(auto, unfolding(wires::specs::TurnOctets::turn_octets))]
    fn visit_all(&mut self, now: u64)
        ensures { VisitsAll now self.old self.new }
    {
        let mut buf = [0; TURN_OCTETS];
        for client in 0..self.links.len() {
            self.visit(client, now, &mut buf);
        }
    }

    // Visits the connection of this client, if it has one.
    fn visit(&mut self, client: usize, now: u64, buf: &mut [u8])
        requires place { client < length self.old.links }
        requires room { length buf.old ≡ turn_octets }
        ensures visits { Visits now self.old client self.new }
        ensures places { length self.new.links ≡ length self.old.links }
    {
        let Some(mut link) = take_out(&mut self.links, client) else {
            return;
        };
        let visit = link.visit(
            client as u64,
            now,
            &self.patience,
            &mut self.wire,
            &mut self.cache,
            buf,
        );
        self.settle(client, link, visit);
    }

    // Does what the visit asks for: the connection is put back, or it ends.
    fn settle(&mut self, client: usize, link: Link<W, A>, visit: Visit)
        requires place { client < length self.old.links }
        requires taken_out { link_at self.old client ≡ None }
        requires served { visit ≡ Visit.Stays → IsSome (client_at self.old.cache client) }
        ensures patience { self.new.patience ≡ self.old.patience }
        ensures counts { self.new.counts ≡ settled visit link.number self.old.counts }
        ensures tells { TellsCache visit self.old.cache client self.new.cache }
        ensures links { self.new.links ≡ slice_set self.old.links client (link_left visit link) }
    {
        match visit {
            Visit::Stays => self.links[client] = Some(link),
            Visit::Faulty => self.lose(client, link, Parting::Failed),
            Visit::Ended => self.lose(client, link, Parting::Ended),
            Visit::Closed => self.close(client, link, Parting::Closed),
            Visit::Overdue => self.close(client, link, Parting::Overdue),
        }
    }

    // Ends the connection of this client, which the other side may still hold.
    fn close(&mut self, client: usize, link: Link<W, A>, parting: Parting)
        requires { link_at self.old client ≡ None }
        ensures patience { self.new.patience ≡ self.old.patience }
        ensures counts { self.new.counts ≡ closing_it link.number parting self.old.counts }
        ensures cache { GoesDown self.old.cache client self.new.cache }
        ensures links { self.new.links ≡ slice_set self.old.links client None }
    {
        self.closed = self.closed.saturating_add(1);
        self.lose(client, link, parting);
    }

    // Ends the connection of this client, and tells the cache that it is gone.
    fn lose(&mut self, client: usize, link: Link<W, A>, parting: Parting)
        requires { link_at self.old client ≡ None }
        ensures patience { self.new.patience ≡ self.old.patience }
        ensures counts { self.new.counts ≡ losing link.number parting self.old.counts }
        ensures cache { GoesDown self.old.cache client self.new.cache }
        ensures links { self.new.links ≡ slice_set self.old.links client None }
    {
        link.close(&mut self.wire, parting);
        tell_gone(&mut self.cache, client as u64);
        self.lost = self.lost.saturating_add(1);
    }

    // Tells the cache the moment.
    fn tell(&mut self, now: u64)
        ensures { IsTold now self.old self.new }
    {
        let _past = self.cache.step(CacheEvent::<Global>::Tick(now));
    }
}

// Why a connection ends whose client the cache refuses.
fn parting_for(why: CacheRefusal) -> Parting
    ensures { result ≡ parting_for why }
{
    match why {
        CacheRefusal::Full => Parting::NoPlace,
        _ => Parting::NoMemory,
    }
}

// Tells the cache that a client is gone.
fn tell_gone<A: Allocator + Clone>(cache: &mut Cache<A>, client: u64)
    ensures gone { GoesDown cache.old client cache.new }
    ensures others { OthersStay cache.old client cache.new }
{
    let _report = cache.step(CacheEvent::<Global>::Down(client));
}

// Makes places, with nothing at them, up to this one.
fn make_place<T: Drop, A: Allocator>(
    places: &mut Vec<Option<T>, A>,
    place: usize,
) -> Result<(), AllocError>
    ensures place { OnOk result (place < length places.new.items) }
    ensures same { (at : ℕ) → slice_index_or places.new.items at None ≡ slice_index_or places.old.items at None }
{
    while places.len() <= place {
        if let Err(failed) = places.push(None) {
            return Err(AllocError::from(failed));
        }
    }
    Ok(())
}

// Takes what stands at this place.
fn take_out<T: Drop, A: Allocator>(places: &mut Vec<Option<T>, A>, place: usize) -> Option<T>
    requires { place < length places.old.items }
    ensures taken { result ≡ slice_index_or places.old.items place None }
    ensures left { places.new.items ≡ slice_set places.old.items place None }
{
    places[place].take()
}
