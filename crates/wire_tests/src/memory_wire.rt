//! Each call of a wire fails once: its client is gone, and all others go on.
ghost use Rattle.std.specs.Prelude.{◌≡◌, ◌≤◌, if◌then◌else◌, length};
ghost use Rattle.wires.specs.Calls.{call_of};
ghost use Rattle.wires.specs.Wires.{FitsIn, FitsInSent, calling, failing, told_by_read, told_by_write};

use crate::made::made;
use cache_turns::{CacheLoop, Holding};
use net_prefix::{Asn, Prefix, Vrp};
use program_stages::lend;
use refusing::Refusing;
use rtr_cache::{Cache, CacheEvent, CacheRefusal};
use rtr_codec::Intervals;
use std::alloc::{AllocGlobal, Allocator, Global};
use std::cmp::min;
use std::collections::BTreeSet;
use std::marker::Model;
use std::net::{Ipv4Addr, SocketAddr, SocketAddrV4};
use std::process::Abort;
use std::time::Duration;
use wires::{Accepted, Attempt, Log, LoopFault, Note, Parting, Received, Sent, Wire};

// The most octets of a read and of a write.
const READ_OCTETS: usize = 5;

const WRITE_OCTETS: usize = 7;

const RESET_QUERY: [u8; 8] = [1, 2, 0, 0, 0, 0, 0, 8];

// The list of 10.0.0.0/16 up to length 24 of AS65002, at serial 1 of session 7.
#[rattlefmt::skip]
const LIST: [u8; 52] = [
    1, 3, 0, 7, 0, 0, 0, 8,
    1, 4, 0, 0, 0, 0, 0, 20, 1, 16, 24, 0, 10, 0, 0, 0, 0, 0, 0xFD, 0xEA,
    1, 7, 0, 7, 0, 0, 0, 24, 0, 0, 0, 1, 0, 0, 0x0E, 0x10, 0, 0, 2, 0x58, 0, 0, 0x1C, 0x20,
];

// A Reset Query of a version that the cache doesn't speak, and the Error Report that quotes it.
const STRANGE_QUERY: [u8; 8] = [2, 2, 0, 0, 0, 0, 0, 8];

#[rattlefmt::skip]
const UNSUPPORTED: [u8; 24] = [
    1, 10, 0, 4, 0, 0, 0, 24, 0, 0, 0, 8,
    2, 2, 0, 0, 0, 0, 0, 8,
    0, 0, 0, 0,
];

#[derive(Clone, Copy, PartialEq, Eq)]
enum Kind {
    // It takes its list and stays.
    Staying,
    // It takes its list and then sends no more.
    Leaving,
    // It speaks another version.
    Strange,
}

// The other side of a connection.
#[derive(Clone, Copy, PartialEq, Eq)]
struct Router {
    kind: Kind,
    // How many octets of its query have gone.
    asked: usize,
    // How many octets of the answer that it awaits have come.
    answered: usize,
    // Whether another octet came than the one that it awaits.
    is_misled: bool,
    // Why it was closed.
    parting: Option<Parting>,
}

impl Router {
    fn new(kind: Kind) -> Router {
        Router {
            kind,
            asked: 0,
            answered: 0,
            is_misled: false,
            parting: None,
        }
    }

    fn query(&self) -> &'static [u8] {
        match self.kind {
            Kind::Staying | Kind::Leaving => &RESET_QUERY,
            Kind::Strange => &STRANGE_QUERY,
        }
    }

    fn answer(&self) -> &'static [u8] {
        match self.kind {
            Kind::Staying | Kind::Leaving => &LIST,
            Kind::Strange => &UNSUPPORTED,
        }
    }

    // Sends the next octets of the query.
    fn ask(&mut self, buf: &mut [u8]) -> usize
        ensures { result ≤ length buf.new }
    {
        let query = self.query();
        let rest = query.get(self.asked..).unwrap_or(&[]);
        let count = min(rest.len(), min(buf.len(), READ_OCTETS));
        buf[..count].copy_from_slice(&rest[..count]);
        self.asked = self.asked.saturating_add(count);
        count
    }

    // Takes the first octets that come.
    fn hear(&mut self, octets: &[u8]) -> usize
        ensures { result ≤ length octets.now }
    {
        let count = min(octets.len(), WRITE_OCTETS);
        for octet in &octets[..count] {
            if self.answer().get(self.answered) != Some(octet) {
                self.is_misled = true;
            }
            self.answered = self.answered.saturating_add(1);
        }
        count
    }

    fn has_its_answer(&self) -> bool {
        !self.is_misled && self.answered == self.answer().len()
    }

    fn has_left(&self) -> bool {
        self.kind == Kind::Leaving && self.has_its_answer()
    }
}

#[derive(Clone, Copy, PartialEq, Eq)]
enum Call {
    Accept,
    OfRouter(usize),
}

// Three routers that connect one after another; one call of the wire fails.
#[derive(Drop)]
pub(crate) struct MemoryWire {
    routers: [Router; 3],
    accepted: usize,
    calls: u64,
    fails_at: u64,
    failed: Option<Call>,
    faults: u64,
    accept_faults: u64,
    ends: u64,
    sockets: u64,
    octets_in: u64,
    octets_out: u64,
    log: Log,
}

// The socket of one router.
#[derive(Drop)]
pub(crate) struct Plug {
    router: usize,
    number: u64,
    address: SocketAddr,
}

impl Model for MemoryWire {
    ghost use Rattle.std.specs.Prelude.{None};
    ghost use Rattle.wires.specs.Wires.{WireState};

    ghost Value = { WireState };

    ghost view = { λ wire. record { listens = None; faults = wire.faults; accept_faults = wire.accept_faults; ends = wire.ends; sockets = wire.sockets; octets_in = wire.octets_in; octets_out = wire.octets_out; calls = wire.log.calls } };
}

impl MemoryWire {
    fn failing_at(fails_at: u64) -> MemoryWire {
        MemoryWire {
            routers: [
                Router::new(Kind::Leaving),
                Router::new(Kind::Strange),
                Router::new(Kind::Staying),
            ],
            accepted: 0,
            calls: 0,
            fails_at,
            failed: None,
            faults: 0,
            accept_faults: 0,
            ends: 0,
            sockets: 0,
            octets_in: 0,
            octets_out: 0,
            log: Log::new(),
        }
    }

    // Counts a call, and whether it fails.
    fn fails(&mut self, call: Call) -> bool
        ensures { self.new ≡ (if result then failing self.old else self.old) }
    {
        self.calls = self.calls.saturating_add(1);
        if self.calls != self.fails_at {
            return false;
        }
        self.failed = Some(call);
        self.faults = self.faults.saturating_add(1);
        true
    }

    fn note(&mut self, note: &Note<'_>)
        ensures { self.new ≡ calling (call_of note.now) self.old }
    {
        self.log = self.log.then(note);
    }

    fn receive(&mut self, router: usize, buf: &mut [u8]) -> Received
        ensures bound { FitsIn (length buf.new) result }
        ensures tells { self.new ≡ told_by_read result self.old }
    {
        if self.fails(Call::OfRouter(router)) {
            return Received::Fault;
        }
        let Some(router) = self.routers.get_mut(router) else {
            return Received::Nothing;
        };
        if router.has_left() {
            self.ends = self.ends.saturating_add(1);
            return Received::End;
        }
        match router.ask(buf) {
            0 => Received::Nothing,
            count => {
                self.octets_in = self.octets_in.saturating_add(count as u64);
                Received::Octets(count)
            }
        }
    }

    fn send(&mut self, router: usize, octets: &[u8]) -> Sent
        ensures bound { FitsInSent (length octets.now) result }
        ensures tells { self.new ≡ told_by_write result self.old }
    {
        if self.fails(Call::OfRouter(router)) {
            return Sent::Fault;
        }
        match self.routers.get_mut(router) {
            Some(router) => {
                let count = router.hear(octets);
                self.octets_out = self.octets_out.saturating_add(count as u64);
                Sent::Octets(count)
            }
            None => Sent::Nothing,
        }
    }
}

impl Wire for MemoryWire {
    type Socket = Plug;

    ghost state = { λ wire. wire };

    ghost number = { λ plug. plug.number };

    ghost address = { λ plug. plug.address };

    fn connect(&mut self, to: SocketAddr) -> Option<Plug> {
        self.faults = self.faults.saturating_add(1);
        self.note(&Note::Connect(to));
        None
    }

    fn attempt(&mut self, socket: &mut Plug) -> Attempt {
        self.faults = self.faults.saturating_add(1);
        self.note(&Note::Try(socket.number, Attempt::Fault));
        Attempt::Fault
    }

    fn accept(&mut self) -> Accepted<Plug> {
        if self.fails(Call::Accept) {
            self.note(&Note::Accept(None));
            self.accept_faults = self.accept_faults.saturating_add(1);
            return Accepted::Fault;
        }
        if self.accepted >= self.routers.len() {
            self.note(&Note::Accept(None));
            return Accepted::Nothing;
        }
        let address = SocketAddr::V4(SocketAddrV4::new(Ipv4Addr::LOCALHOST, 0));
        let plug = Plug {
            router: self.accepted,
            number: self.sockets,
            address,
        };
        self.accepted += 1;
        self.sockets = self.sockets.saturating_add(1);
        self.note(&Note::Accept(Some(address)));
        Accepted::Connection(plug, address)
    }

    fn read(&mut self, socket: &mut Plug, buf: &mut [u8]) -> Received {
        let received = self.receive(socket.router, buf);
        self.note(&Note::Read(socket.number, buf, received));
        received
    }

    fn write(&mut self, socket: &mut Plug, octets: &[u8]) -> Sent {
        let sent = self.send(socket.router, octets);
        self.note(&Note::Write(socket.number, octets, sent));
        sent
    }

    fn is_ending(&mut self, socket: &Plug) -> bool {
        self.note(&Note::Look(socket.number, false));
        false
    }

    fn close(&mut self, socket: Plug, parting: Parting) {
        if let Some(router) = self.routers.get_mut(socket.router) {
            router.parting = Some(parting);
        }
        self.note(&Note::Close(socket.number, parting));
    }

    fn wait(&mut self, _most: Duration) {}

    fn faults(&self) -> u64 {
        self.faults
    }

    fn ends(&self) -> u64 {
        self.ends
    }

    fn octets_in(&self) -> u64 {
        self.octets_in
    }

    fn octets_out(&self) -> u64 {
        self.octets_out
    }
}

// What twenty turns have led to.
#[derive(Clone, Copy)]
pub(crate) struct Served {
    routers: [Router; 3],
    failed: Option<Call>,
    // How many faults and ends the wire told.
    told: u64,
    fault: Option<LoopFault>,
    lost: u64,
    closed: u64,
    // By serial 1, and by serial 2.
    holding: [Holding; 2],
}

// The payload of the list.
const LISTED: Vrp = Vrp {
    prefix: Prefix {
        bits: 0x0A00_0000,
        len: 16,
    },
    max_len: 24,
    asn: Asn(65_002),
};

// The list.
pub(crate) fn listed(rt: &impl Abort, alloc: Global) -> BTreeSet<Vrp> {
    made(rt, [LISTED].iter().copied().collect(alloc))
}

// Loads the list, and brings so many clients, which say nothing.
fn fill<A: Allocator + Clone>(
    cache: &mut Cache<A>,
    set: &BTreeSet<Vrp>,
    silent: u64,
) -> Result<(), CacheRefusal> {
    let _ = cache.step(CacheEvent::Load(set))?;
    for _ in 0..silent {
        let _ = cache.step(CacheEvent::<Global>::Up)?;
    }
    Ok(())
}

// A cache of the list with so many clients that say nothing, where it could be made.
fn filled<A: Allocator + Clone>(
    cache: Result<Cache<A>, CacheRefusal>,
    set: &BTreeSet<Vrp>,
    silent: u64,
) -> Option<Cache<A>> {
    match cache {
        Ok(mut cache) => {
            if fill(&mut cache, set, silent).is_ok() {
                Some(cache)
            } else {
                None
            }
        }
        Err(_) => None,
    }
}

// Its turns, before the first, where they could be made.
pub(crate) fn prepared<A: Allocator + Clone + Copy>(
    alloc: A,
    set: &BTreeSet<Vrp>,
    silent: u64,
    fails_at: u64,
) -> Option<CacheLoop<MemoryWire, A>> {
    let cache = filled(Cache::new(alloc, 7, Intervals::USUAL), set, silent)?;
    CacheLoop::new(alloc, MemoryWire::failing_at(fails_at), cache).ok()
}

// Takes twenty turns, unless one stops them.
fn fault_of_turns<A: Allocator + Clone>(turns: &mut CacheLoop<MemoryWire, A>) -> Option<LoopFault> {
    for now in 0..20 {
        if let Err(fault) = turns.turn(now) {
            return Some(fault);
        }
    }
    None
}

// What they have led to.
pub(crate) fn told_of<A: Allocator + Clone>(
    turns: &CacheLoop<MemoryWire, A>,
    fault: Option<LoopFault>,
) -> Served {
    let wire = turns.wire();
    Served {
        routers: wire.routers,
        failed: wire.failed,
        told: wire.faults.saturating_add(wire.ends),
        fault,
        lost: turns.lost(),
        closed: turns.closed(),
        holding: [turns.holding(1), turns.holding(2)],
    }
}

// Serves the routers for twenty turns.
fn turned<A: Allocator + Clone>(turns: &mut CacheLoop<MemoryWire, A>) -> Served {
    let fault = fault_of_turns(turns);
    told_of(turns, fault)
}

// The same of turns that could be made.
fn served_by<A: Allocator + Clone>(turns: Option<CacheLoop<MemoryWire, A>>) -> Option<Served> {
    match turns {
        Some(turns) => Some(lend(turns, |turns| turned(turns))),
        None => None,
    }
}

// Serves the routers beside so many clients that say nothing.
fn serve(alloc: Global, set: &BTreeSet<Vrp>, silent: u64, fails_at: u64) -> Option<Served> {
    served_by(prepared(alloc, set, silent, fails_at))
}

impl Router {
    // Whether it has its answer, and is connected just where it stays.
    fn is_served(&self) -> bool {
        self.has_its_answer() && self.parting.is_some() == (self.kind != Kind::Staying)
    }
}

impl Served {
    // Whether each router but one is served.
    fn serves_all_but(&self, failed: Option<usize>) -> bool {
        for (place, router) in self.routers.iter().enumerate() {
            if failed != Some(place) && !router.is_served() {
                return false;
            }
        }
        self.fault.is_none()
    }

    // Why the connection of this router has ended.
    fn parting_of(&self, router: usize) -> Option<Parting> {
        self.routers.get(router)?.parting
    }

    // Whether a call of one router's socket has failed: it is closed, and each other is served.
    fn loses_one(&self, failed: usize) -> bool {
        self.serves_all_but(Some(failed))
            && self.parting_of(failed).is_some()
            && self.lost == self.told.saturating_add(self.closed)
    }

    // Whether one has left, one was closed and one has stayed.
    fn loses_two(&self) -> bool {
        self.lost == 2 && self.told == 1 && self.closed == 1
    }

    // Whether no call has failed: one has stayed, with the list of serial 1.
    fn loses_none(&self) -> bool {
        self.serves_all_but(None)
            && self.loses_two()
            && self.holding == [holding(1, 0), holding(0, 1)]
    }

    // Whether no call of the wire has failed.
    pub(crate) fn is_whole(&self) -> bool {
        self.failed.is_none()
    }

    // Whether a fault has ended the turns.
    pub(crate) fn is_ended(&self) -> bool {
        self.fault.is_some()
    }

    // Whether the call that has failed, if one has, has cost its client alone.
    pub(crate) fn is_as_expected(&self) -> bool {
        match self.failed {
            Some(Call::OfRouter(failed)) => self.loses_one(failed),
            Some(Call::Accept) => self.fault == Some(LoopFault::Accept),
            None => self.loses_none(),
        }
    }
}

fn holding(current: usize, behind: usize) -> Holding {
    Holding {
        current,
        behind,
        without: 0,
    }
}

// With each call failing in turn, its client alone is lost.
fn lose_the_client_alone(rt: &(impl AllocGlobal + Abort), set: &BTreeSet<Vrp>) {
    for fails_at in 1..1_000 {
        let Some(served) = serve(rt.alloc(), set, 0, fails_at) else {
            panic!(rt; "no memory");
        };
        assert!(rt; served.is_as_expected(), "{fails_at}");
        if served.failed.is_none() {
            assert!(rt; fails_at > 50, "{fails_at}");
            return;
        }
    }
    panic!(rt; "each run had a fault");
}

#[test]
fn a_failing_call_costs_one_client(rt: HostRuntime) {
    let set = listed(&rt, rt.alloc());
    lose_the_client_alone(&rt, &set);
}

// Whether there was no place for the last router, which has said nothing and heard nothing; none has a connection.
fn is_full(served: &Served) -> bool {
    let refused = Router {
        parting: Some(Parting::NoPlace),
        ..Router::new(Kind::Staying)
    };
    served.serves_all_but(Some(2))
        && served.routers[2] == refused
        && served.loses_two()
        && served.holding == [holding(0, 0), holding(0, 0)]
}

// Whether that is so beside as many clients as leave place for two.
fn is_full_for_the_last(alloc: Global, set: &BTreeSet<Vrp>) -> bool {
    match serve(alloc, set, 254, 0) {
        Some(served) => is_full(&served),
        None => false,
    }
}

#[test]
fn a_refused_client_is_closed_and_the_others_are_served(rt: HostRuntime) {
    let set = listed(&rt, rt.alloc());
    assert!(rt; is_full_for_the_last(rt.alloc(), &set));
}

// What serving the routers has led to where a request for memory was refused, if one was.
#[derive(Clone, Copy)]
struct Refused {
    has_refused: bool,
    // None where the cache or its turns couldn't be made.
    served: Option<Served>,
}

// The same with the nth request refused.
fn with_refusal(alloc: Global, set: &BTreeSet<Vrp>, nth: u64) -> Refused
    requires { 1 ≤ nth }
{
    let heap = Refusing::new(alloc, nth);
    let served = served_by(prepared(&heap, set, 0, 0));
    Refused {
        has_refused: heap.has_refused(),
        served,
    }
}

impl Served {
    // A router that has not its answer.
    fn unserved(&self) -> Option<usize> {
        self.routers
            .iter()
            .position(|router| !router.has_its_answer())
    }

    // Whether each router but one at most is served, and that one was closed.
    fn loses_one_at_most(&self) -> bool {
        let unserved = self.unserved();
        let is_closed = match unserved {
            Some(router) => self.parting_of(router).is_some(),
            None => true,
        };
        is_closed && self.serves_all_but(unserved)
    }

    // Whether one was closed for want of memory.
    fn lacks_memory(&self) -> bool {
        match self.unserved() {
            Some(router) => self.parting_of(router) == Some(Parting::NoMemory),
            None => false,
        }
    }
}

impl Refused {
    // Whether one router at most is lost, and none without a refusal.
    fn is_as_expected(&self) -> bool {
        match &self.served {
            Some(served) => {
                served.loses_one_at_most() && (self.has_refused || served.unserved().is_none())
            }
            None => self.has_refused,
        }
    }

    fn lacks_memory(&self) -> bool {
        match &self.served {
            Some(served) => served.lacks_memory(),
            None => false,
        }
    }
}

// With each request refused in turn, at most one router is lost.
fn lose_one_at_most(rt: &(impl AllocGlobal + Abort), set: &BTreeSet<Vrp>) {
    let mut without_memory = 0u64;
    for nth in 1..1_000 {
        let refused = with_refusal(rt.alloc(), set, nth);
        assert!(rt; refused.is_as_expected(), "{nth}");
        if !refused.has_refused {
            // The places of the connections, and the octets that wait of each of the three.
            assert!(rt; without_memory >= 4, "{without_memory}");
            return;
        }
        without_memory = without_memory.saturating_add(u64::from(refused.lacks_memory()));
    }
    panic!(rt; "the turns make no end of requests");
}

#[test]
fn a_refused_growth_costs_one_router(rt: HostRuntime) {
    let set = listed(&rt, rt.alloc());
    lose_one_at_most(&rt, &set);
}
