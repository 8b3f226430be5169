//! Each call of a speaker's wire fails once: its session is told so, and all others go on.
ghost use Rattle.std.specs.Prelude.{◌≡◌, ◌≤◌, if◌then◌else◌, length};
ghost use Rattle.wires.specs.Calls.{call_of};
ghost use Rattle.wires.specs.Wires.{FitsIn, FitsInSent, calling, failing, told_by_attempt, told_by_read, told_by_write};

use crate::made::made;
use bgp_attr::Mode;
use net_prefix::{Asn, Prefix};
use speaker::{
    CACHE_RETRY_SECONDS, ClientState, Command, Config, Event, PeerConf, SlotTimers, Speaker, State,
};
use speaker_turns::{End, SpeakerLoop};
use std::alloc::AllocGlobal;
use std::cmp::min;
use std::marker::Model;
use std::net::{Ipv4Addr, SocketAddr, SocketAddrV4};
use std::process::Abort;
use std::time::Duration;
use wires::{Accepted, Attempt, Log, LoopFault, Note, Parting, Received, Sent, Wire};

// The most octets of a read and of a write.
const READ_OCTETS: usize = 11;

const WRITE_OCTETS: usize = 17;

const KEEPALIVE_OCTETS: usize = 19;

// An OPEN of AS 65001 and a KEEPALIVE.
#[rattlefmt::skip]
const FIRST_PEER: [u8; 56] = [
    255, 255, 255, 255, 255, 255, 255, 255, 255, 255, 255, 255, 255, 255, 255, 255,
    0, 0x25, 1, 4, 0xFD, 0xE9, 0, 0x5A, 1, 1, 1, 1, 8, 2, 6, 0x41, 4, 0, 0, 0xFD, 0xE9,
    255, 255, 255, 255, 255, 255, 255, 255, 255, 255, 255, 255, 255, 255, 255, 255,
    0, 0x13, 4,
];

// The same of AS 65002.
#[rattlefmt::skip]
const SECOND_PEER: [u8; 56] = [
    255, 255, 255, 255, 255, 255, 255, 255, 255, 255, 255, 255, 255, 255, 255, 255,
    0, 0x25, 1, 4, 0xFD, 0xEA, 0, 0x5A, 2, 2, 2, 2, 8, 2, 6, 0x41, 4, 0, 0, 0xFD, 0xEA,
    255, 255, 255, 255, 255, 255, 255, 255, 255, 255, 255, 255, 255, 255, 255, 255,
    0, 0x13, 4,
];

// A response of 10.0.0.0/16 up to length 24 of AS65002, at serial 1 of session 7.
#[rattlefmt::skip]
const CACHE: [u8; 52] = [
    1, 3, 0, 7, 0, 0, 0, 8,
    1, 4, 0, 0, 0, 0, 0, 20, 1, 16, 24, 0, 10, 0, 0, 0, 0, 0, 0xFD, 0xEA,
    1, 7, 0, 7, 0, 0, 0, 24, 0, 0, 0, 1, 0, 0, 0x0E, 0x10, 0, 0, 2, 0x58, 0, 0, 0x1C, 0x20,
];

// The other side of each session: the peer that connects to us, the one that we connect to, and the cache.
const SIDES: [&[u8]; 3] = [&FIRST_PEER, &SECOND_PEER, &CACHE];

#[derive(Clone, Copy, PartialEq, Eq)]
enum Call {
    Accept,
    OfSide(usize),
}

// What has happened to one side.
#[derive(Clone, Copy)]
struct Side {
    // How many of its octets have gone.
    said: usize,
    // How often an attempt to connect to it was asked about.
    asked: u64,
    // Why its connection was closed.
    parting: Option<Parting>,
}

// Three sides, and a call of the wire that fails.
#[derive(Drop)]
pub(crate) struct MemoryWire {
    sides: [Side; 3],
    has_come: bool,
    calls: u64,
    fails_at: u64,
    failed: Option<Call>,
    // How often a connection was asked for, and from how often on both peers send no more.
    turns: u64,
    ends_at: u64,
    // Whether each peer goes on saying its KEEPALIVE, and at which of these it is to be said again.
    keeps: bool,
    again_at: [u64; 3],
    faults: u64,
    accept_faults: u64,
    ends: u64,
    sockets: u64,
    octets_in: u64,
    octets_out: u64,
    log: Log,
}

// The socket of one side.
#[derive(Drop)]
pub(crate) struct Plug {
    side: usize,
    number: u64,
    address: SocketAddr,
}

impl Model for MemoryWire {
    ghost use Rattle.std.specs.Prelude.{None};
    ghost use Rattle.wires.specs.Wires.{WireState};

    ghost Value = { WireState };

    ghost view = { λ wire. record { listens = None; faults = wire.faults; accept_faults = wire.accept_faults; ends = wire.ends; sockets = wire.sockets; octets_in = wire.octets_in; octets_out = wire.octets_out; calls = wire.log.calls } };
}

// Where a side is.
fn address_of(side: usize) -> SocketAddr {
    let (host, port) = match side {
        0 => (11, 50_000),
        1 => (12, 179),
        _ => (13, 3_323),
    };
    SocketAddr::V4(SocketAddrV4::new(Ipv4Addr::new(192, 0, 2, host), port))
}

impl MemoryWire {
    pub(crate) fn failing_at(fails_at: u64) -> MemoryWire {
        let side = Side {
            said: 0,
            asked: 0,
            parting: None,
        };
        MemoryWire {
            sides: [side, side, side],
            has_come: false,
            calls: 0,
            fails_at,
            failed: None,
            turns: 0,
            ends_at: u64::MAX,
            keeps: false,
            again_at: [0; 3],
            faults: 0,
            accept_faults: 0,
            ends: 0,
            sockets: 0,
            octets_in: 0,
            octets_out: 0,
            log: Log::new(),
        }
    }

    // Both peers send no more once a connection was asked for so often.
    fn ending_at(ends_at: u64) -> MemoryWire {
        MemoryWire {
            ends_at,
            ..MemoryWire::failing_at(0)
        }
    }

    // Both peers say a KEEPALIVE each seventh time that a connection is asked for.
    pub(crate) fn keeping_alive() -> MemoryWire {
        MemoryWire {
            keeps: true,
            ..MemoryWire::failing_at(0)
        }
    }

    // Where a peer has said all, and it is time, it says its KEEPALIVE again.
    fn keep_alive(&mut self, number: usize)
        ensures { self.new ≡ self.old }
    {
        let turns = self.turns;
        let (Some(side), Some(again_at)) = (
            self.sides.get_mut(number),
            self.again_at.get_mut(number),
        ) else {
            return;
        };
        if self.keeps && number < 2 && side.said == FIRST_PEER.len() && turns >= *again_at {
            side.said = FIRST_PEER.len() - KEEPALIVE_OCTETS;
            *again_at = turns.saturating_add(7);
        }
    }

    // Whether a side sends no more.
    fn is_over(&self, side: usize) -> bool {
        side < 2 && self.turns >= self.ends_at
    }

    // Counts a call, and whether it fails.
    fn fails(&mut self, call: Call) -> bool
        ensures { self.new ≡ (if result then failing self.old else self.old) }
    {
        self.calls = self.calls.saturating_add(1);
        if self.calls != self.fails_at {
            return false;
        }
        self.failed = Some(call);
        self.faults = self.faults.saturating_add(1);
        true
    }

    fn note(&mut self, note: &Note<'_>)
        ensures { self.new ≡ calling (call_of note.now) self.old }
    {
        self.log = self.log.then(note);
    }

    // An attempt is pending once before it is there.
    fn look(&mut self, side: usize) -> Attempt
        ensures { self.new ≡ told_by_attempt result self.old }
    {
        if self.fails(Call::OfSide(side)) {
            return Attempt::Fault;
        }
        let Some(side) = self.sides.get_mut(side) else {
            return Attempt::Pending;
        };
        side.asked = side.asked.saturating_add(1);
        match side.asked {
            0 | 1 => Attempt::Pending,
            _ => Attempt::Connected,
        }
    }

    fn receive(&mut self, side: usize, buf: &mut [u8]) -> Received
        ensures bound { FitsIn (length buf.new) result }
        ensures tells { self.new ≡ told_by_read result self.old }
    {
        if self.fails(Call::OfSide(side)) {
            return Received::Fault;
        }
        self.keep_alive(side);
        match self.say(side, buf) {
            0 if self.is_over(side) => {
                self.ends = self.ends.saturating_add(1);
                Received::End
            }
            0 => Received::Nothing,
            count => {
                self.octets_in = self.octets_in.saturating_add(count as u64);
                Received::Octets(count)
            }
        }
    }

    // The next octets of a side.
    fn say(&mut self, side: usize, buf: &mut [u8]) -> usize
        ensures bound { result ≤ length buf.new }
        ensures same { self.new ≡ self.old }
    {
        let octets = SIDES.get(side).copied().unwrap_or(&[]);
        let Some(side) = self.sides.get_mut(side) else {
            return 0;
        };
        let rest = octets.get(side.said..).unwrap_or(&[]);
        let count = min(rest.len(), min(buf.len(), READ_OCTETS));
        buf[..count].copy_from_slice(&rest[..count]);
        side.said = side.said.saturating_add(count);
        count
    }

    fn send(&mut self, side: usize, octets: &[u8]) -> Sent
        ensures bound { FitsInSent (length octets.now) result }
        ensures tells { self.new ≡ told_by_write result self.old }
    {
        if self.fails(Call::OfSide(side)) {
            return Sent::Fault;
        }
        let count = min(octets.len(), WRITE_OCTETS);
        self.octets_out = self.octets_out.saturating_add(count as u64);
        Sent::Octets(count)
    }
}

impl Wire for MemoryWire {
    type Socket = Plug;

    ghost state = { λ wire. wire };

    ghost number = { λ plug. plug.number };

    ghost address = { λ plug. plug.address };

    fn connect(&mut self, to: SocketAddr) -> Option<Plug> {
        self.note(&Note::Connect(to));
        let side = if to == address_of(1) { 1 } else { 2 };
        if self.fails(Call::OfSide(side)) {
            return None;
        }
        let number = self.sockets;
        self.sockets = self.sockets.saturating_add(1);
        Some(Plug {
            side,
            number,
            address: to,
        })
    }

    fn attempt(&mut self, socket: &mut Plug) -> Attempt {
        let attempt = self.look(socket.side);
        self.note(&Note::Try(socket.number, attempt));
        attempt
    }

    fn accept(&mut self) -> Accepted<Plug> {
        self.turns = self.turns.saturating_add(1);
        if self.fails(Call::Accept) {
            self.note(&Note::Accept(None));
            self.accept_faults = self.accept_faults.saturating_add(1);
            return Accepted::Fault;
        }
        if self.has_come {
            self.note(&Note::Accept(None));
            return Accepted::Nothing;
        }
        self.has_come = true;
        let address = address_of(0);
        let number = self.sockets;
        self.sockets = self.sockets.saturating_add(1);
        let plug = Plug {
            side: 0,
            number,
            address,
        };
        self.note(&Note::Accept(Some(address)));
        Accepted::Connection(plug, address)
    }

    fn read(&mut self, socket: &mut Plug, buf: &mut [u8]) -> Received {
        let received = self.receive(socket.side, buf);
        self.note(&Note::Read(socket.number, buf, received));
        received
    }

    fn write(&mut self, socket: &mut Plug, octets: &[u8]) -> Sent {
        let sent = self.send(socket.side, octets);
        self.note(&Note::Write(socket.number, octets, sent));
        sent
    }

    fn is_ending(&mut self, socket: &Plug) -> bool {
        let is_ending = self.is_over(socket.side);
        self.note(&Note::Look(socket.number, is_ending));
        is_ending
    }

    fn close(&mut self, socket: Plug, parting: Parting) {
        if let Some(side) = self.sides.get_mut(socket.side) {
            side.parting = Some(parting);
        }
        self.note(&Note::Close(socket.number, parting));
    }

    fn wait(&mut self, _most: Duration) {}

    fn faults(&self) -> u64 {
        self.faults
    }

    fn ends(&self) -> u64 {
        self.ends
    }

    fn octets_in(&self) -> u64 {
        self.octets_in
    }

    fn octets_out(&self) -> u64 {
        self.octets_out
    }
}

// What twenty turns have led to.
#[derive(Clone, Copy)]
pub(crate) struct Turned {
    sides: [Side; 3],
    failed: Option<Call>,
    fault: Option<LoopFault>,
    // The faults and ends that the wire told, the connections that were lost, and those that were closed.
    counts: [u64; 3],
    // The sessions of the slots 0 and 1.
    sessions: [Option<State>; 2],
    cache: Option<ClientState>,
}

impl Turned {
    // Whether no call of the wire has failed.
    pub(crate) fn is_whole(&self) -> bool {
        self.failed.is_none()
    }

    // Whether a fault has ended the turns.
    pub(crate) fn is_ended(&self) -> bool {
        self.fault.is_some()
    }
}

fn peer(asn: u32, host: u32, mode: Mode) -> PeerConf<'static> {
    PeerConf {
        asn: Asn(asn),
        address: 0xC000_0200u32.saturating_add(host),
        local: 0xC000_0201,
        mode,
        hold: 180,
        import: "all",
        export: "all",
    }
}

// Whether the speaker obeys each of the commands.
fn obeys(speaker: &mut Speaker, commands: &[Command<'_>]) -> bool {
    for command in commands {
        if speaker.step(Event::Command(*command)).is_err() {
            return false;
        }
    }
    true
}

// Whether it has both peers then, enabled.
fn has_peers(speaker: &mut Speaker) -> bool {
    let reached = Prefix {
        bits: 0xC000_0200,
        len: 24,
    };
    let commands = [
        Command::AddPeer(0, peer(65_001, 11, Mode::Passive)),
        Command::AddPeer(1, peer(65_002, 12, Mode::Active)),
        Command::Reach(reached, 10),
        Command::Enable(0),
        Command::Enable(1),
    ];
    obeys(speaker, &commands)
}

// A speaker with both peers, enabled, and a cache.
pub(crate) fn prepared(rt: &(impl AllocGlobal + Abort)) -> Speaker {
    let config = Config {
        asn: Asn(65_000),
        identifier: 0xC000_0201,
        cache: true,
        cache_retry: CACHE_RETRY_SECONDS,
        multiprotocol: false,
        timers: SlotTimers::USUAL,
    };
    let mut speaker = made(rt, Speaker::new(rt.alloc(), config));
    assert!(rt; has_peers(&mut speaker));
    speaker
}

// Takes twenty turns at the moment 0, unless one stops them.
fn fault_of_turns(turns: &mut SpeakerLoop<MemoryWire>) -> Option<LoopFault> {
    for _ in 0..20 {
        if let Err(fault) = turns.turn(0) {
            return Some(fault);
        }
    }
    None
}

// What they have led to.
pub(crate) fn told_of(turns: &SpeakerLoop<MemoryWire>, fault: Option<LoopFault>) -> Turned {
    let wire = turns.wire();
    let speaker = turns.speaker();
    let told = wire.faults.saturating_add(wire.ends);
    Turned {
        sides: wire.sides,
        failed: wire.failed,
        fault,
        counts: [told, turns.lost(), turns.closed()],
        sessions: [speaker.session(0), speaker.session(1)],
        cache: speaker.cache_session(),
    }
}

// Tells the address of each side.
pub(crate) fn with_addresses(turns: &mut SpeakerLoop<MemoryWire>) {
    turns.set_remote(End::Peer(0), address_of(0));
    turns.set_remote(End::Peer(1), address_of(1));
    turns.set_remote(End::Cache, address_of(2));
}

// What twenty turns lead to, once each side has its address.
fn after_turns(turns: &mut SpeakerLoop<MemoryWire>) -> Turned {
    with_addresses(turns);
    let fault = fault_of_turns(turns);
    told_of(turns, fault)
}

fn serve(rt: &(impl AllocGlobal + Abort), fails_at: u64) -> Turned {
    let wire = MemoryWire::failing_at(fails_at);
    let mut turns = made(rt, SpeakerLoop::new(rt.alloc(), wire, prepared(rt)));
    after_turns(&mut turns)
}

// Whether a session goes on, or, where it is the one that failed, awaits its next beginning.
fn is_as_expected(turned: &Turned, side: usize) -> bool {
    let failed = turned.failed == Some(Call::OfSide(side));
    match turned.sessions.get(side) {
        Some(session) => match session {
            Some(State::Established) => !failed,
            Some(State::Idle | State::Active) => failed,
            _ => false,
        },
        None => match turned.cache {
            Some(ClientState::Synced) => !failed,
            Some(ClientState::Off) => failed,
            _ => false,
        },
    }
}

// Whether a run has gone on where a call of one side has failed, or none has.
fn goes_on(turned: &Turned) -> bool {
    for side in 0..3 {
        if !is_as_expected(turned, side) {
            return false;
        }
    }
    let [told, lost, closed] = turned.counts;
    turned.fault.is_none() && lost == told.saturating_add(closed)
}

// Whether the call that has failed, if one has, has led to what it should.
pub(crate) fn is_well_led(turned: &Turned) -> bool {
    match turned.failed {
        Some(Call::Accept) => turned.fault == Some(LoopFault::Accept),
        Some(Call::OfSide(_)) | None => goes_on(turned),
    }
}

#[test]
fn a_failing_call_costs_one_session(rt: HostRuntime) {
    for fails_at in 1..1_000 {
        let turned = serve(&rt, fails_at);
        assert!(rt; is_well_led(&turned), "{fails_at}");
        if turned.failed.is_none() {
            assert!(rt; fails_at > 50, "{fails_at}");
            return;
        }
    }
    panic!(rt; "each run had a fault");
}

// The sessions of both peers, and that of the cache, behind a turn at this moment.
fn sessions_at(turns: &mut SpeakerLoop<MemoryWire>, now: u64) -> [bool; 3] {
    let _taken = turns.turn(now);
    let speaker = turns.speaker();
    [
        speaker.session(0) == Some(State::Established),
        speaker.session(1) == Some(State::Established),
        speaker.cache_session() == Some(ClientState::Synced),
    ]
}

// Both peers are gone at once, and the turns in which they are lost take long: one is lost in each of them, and all others are
// served and told the moment in between.
fn loses_one_a_turn(turns: &mut SpeakerLoop<MemoryWire>) -> bool {
    let _well = after_turns(turns);
    sessions_at(turns, 0) == [false, true, true]
        && sessions_at(turns, 62) == [false, false, true]
        && turns.wire().ends == 2
        && turns.lost() == 2
}

#[test]
fn one_that_ends_is_visited_a_turn(rt: HostRuntime) {
    let wire = MemoryWire::ending_at(21);
    let mut turns = made(&rt, SpeakerLoop::new(rt.alloc(), wire, prepared(&rt)));
    assert!(rt; loses_one_a_turn(&mut turns));
}
