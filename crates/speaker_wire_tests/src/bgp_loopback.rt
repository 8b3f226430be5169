//! Speakers over loopback sockets, with a cache and with one another.

use crate::made::made;
use cache_turns::CacheLoop;
use net_prefix::Asn;
use net_wires::NetWire;
use rtr_cache::{Cache, CacheEvent};
use rtr_codec::Intervals;
use scenario::{Table, obey_lines, show};
use speaker::{CACHE_RETRY_SECONDS, ClientState, Config, SlotTimers, Speaker, State};
use speaker_turns::{End, SpeakerLoop};
use std::alloc::{AllocGlobal, Global};
use std::net::{Ipv4Addr, Net, SocketAddr, SocketAddrV4, TcpListener, TcpStream};
use std::process::Abort;
use vrp_csv::read_list;
use wires::Wire;

// How many turns each loop has at most. The system brings octets over loopback within a few.
const TURNS: u32 = 200;

const LIST: &str = "ASN,IP Prefix,Max Length,Trust Anchor\nAS65002,10.0.0.0/16,24,ta\n";

// Whether the cache publishes the list.
fn publishes(alloc: Global, cache: &mut Cache) -> bool {
    match read_list(alloc, LIST.as_bytes()) {
        Ok(loaded) => cache.step(CacheEvent::Load(&loaded.set)).is_ok(),
        Err(_) => false,
    }
}

// A cache of session 7 that serves the list.
fn serving(rt: &impl Abort, alloc: Global) -> Cache {
    let mut cache = made(rt, Cache::new(alloc, 7, Intervals::USUAL));
    assert!(rt; publishes(alloc, &mut cache));
    cache
}

// A speaker that has obeyed these commands.
fn obedient(rt: &impl Abort, alloc: Global, config: Config, commands: &str) -> Speaker {
    let mut speaker = made(rt, Speaker::new(alloc, config));
    assert!(rt; obey_lines(alloc, commands.as_bytes(), &mut speaker).is_ok());
    speaker
}

// Its turns, before the first.
fn speaking<'a, R>(
    rt: &'a R,
    listen: Option<SocketAddr>,
    config: Config,
    commands: &str,
) -> SpeakerLoop<NetWire<'a, R>>
where
    R: Net<Listener = TcpListener, Stream = TcpStream> + AllocGlobal + Abort,
{
    let speaker = obedient(rt, rt.alloc(), config, commands);
    let wire = made(rt, NetWire::open(rt, listen));
    made(rt, SpeakerLoop::new(rt.alloc(), wire, speaker))
}

// Some port of loopback.
fn some_port() -> SocketAddr {
    SocketAddr::V4(SocketAddrV4::new(Ipv4Addr::LOCALHOST, 0))
}

// Whether `show` shows these rows.
fn shows<W: Wire + Drop>(
    alloc: Global,
    speaker: &SpeakerLoop<W>,
    table: Table,
    rows: &str,
) -> bool {
    let mut shown = Vec::new(alloc);
    show(speaker.speaker(), table, &mut shown).is_ok() && shown.as_slice() == rows.as_bytes()
}

// A turn of a cache at the moment 0: whether it goes well.
fn serves<W: Wire + Drop>(cache: &mut CacheLoop<W>) -> bool {
    cache.turn(0).is_ok()
}

// The same of a speaker.
fn speaks<W: Wire + Drop>(speaker: &mut SpeakerLoop<W>) -> bool {
    speaker.turn(0).is_ok()
}

fn is_synced<W: Wire + Drop>(speaker: &SpeakerLoop<W>) -> bool {
    speaker.speaker().cache_session() == Some(ClientState::Synced)
}

// Whether the speaker has taken a load after so many turns of both.
fn synchronizes<W: Wire + Drop>(cache: &mut CacheLoop<W>, speaker: &mut SpeakerLoop<W>) -> bool {
    for _ in 0..TURNS {
        if !serves(cache) || !speaks(speaker) {
            return false;
        }
        if is_synced(speaker) {
            return true;
        }
    }
    false
}

fn is_nothing_lost<W: Wire + Drop>(cache: &CacheLoop<W>, speaker: &SpeakerLoop<W>) -> bool {
    cache.lost() == 0 && speaker.lost() == 0
}

// Whether the speaker comes to have just what the cache serves.
fn takes_the_list<W: Wire + Drop>(
    alloc: Global,
    cache: &mut CacheLoop<W>,
    speaker: &mut SpeakerLoop<W>,
) -> bool {
    synchronizes(cache, speaker)
        && shows(
            alloc,
            speaker,
            Table::Payloads,
            "10.0.0.0/16-24 AS65002\nend\n",
        )
        && is_nothing_lost(cache, speaker)
}

// A cache that serves the list over loopback.
fn serving_over_loopback<'a, R>(rt: &'a R) -> CacheLoop<NetWire<'a, R>>
where
    R: Net<Listener = TcpListener, Stream = TcpStream> + AllocGlobal + Abort,
{
    let wire = made(rt, NetWire::listening(rt, some_port()));
    made(
        rt,
        CacheLoop::new(rt.alloc(), wire, serving(rt, rt.alloc())),
    )
}

// A speaker whose cache is at this address comes to have its list.
fn takes_the_list_at<'a, R>(
    rt: &'a R,
    cache: &mut CacheLoop<NetWire<'a, R>>,
    address: SocketAddr,
) -> bool
where
    R: Net<Listener = TcpListener, Stream = TcpStream> + AllocGlobal + Abort,
{
    let config = Config {
        asn: Asn(65_000),
        identifier: 0xC000_0201,
        cache: true,
        cache_retry: CACHE_RETRY_SECONDS,
        multiprotocol: false,
        timers: SlotTimers::USUAL,
    };
    let mut speaker = speaking(rt, None, config, "");
    speaker.set_remote(End::Cache, address);
    takes_the_list(rt.alloc(), cache, &mut speaker)
}

// The same of the cache's own address.
fn takes_its_list<'a, R>(rt: &'a R, cache: &mut CacheLoop<NetWire<'a, R>>) -> bool
where
    R: Net<Listener = TcpListener, Stream = TcpStream> + AllocGlobal + Abort,
{
    match cache.wire().local_address() {
        Some(address) => takes_the_list_at(rt, cache, address),
        None => false,
    }
}

#[test]
fn a_speaker_takes_the_list_of_a_cache(rt: HostRuntime) {
    let mut cache = serving_over_loopback(&rt);
    assert!(rt; takes_its_list(&rt, &mut cache));
}

// That of AS 65001 waits for the other one.
const PASSIVE: &str = "
reach 192.0.2.0/24 10
peer 0 65002 192.0.2.2 192.0.2.1 passive 90 all all
enable 0
network 198.51.100.0/24
";

const ACTIVE: &str = "
reach 192.0.2.0/24 10
peer 0 65001 192.0.2.1 192.0.2.2 active 90 all all
enable 0
network 203.0.113.0/24
";

// More routes than there are.
const MOST_ROUTES: usize = 100;

fn has_best<W: Wire + Drop>(speaker: &SpeakerLoop<W>, routes: usize) -> bool {
    speaker.speaker().loc_rib().take(MOST_ROUTES).count() == routes
}

// Whether each has so many best routes after so many turns of both.
fn exchange<W: Wire + Drop>(
    one: &mut SpeakerLoop<W>,
    other: &mut SpeakerLoop<W>,
    routes: usize,
) -> bool {
    for _ in 0..TURNS {
        if !speaks(one) || !speaks(other) {
            return false;
        }
        if has_best(one, routes) && has_best(other, routes) {
            return true;
        }
    }
    false
}

fn is_established<W: Wire + Drop>(speaker: &SpeakerLoop<W>) -> bool {
    speaker.speaker().session(0) == Some(State::Established)
}

// What the Loc-RIB of each shows then.
const PASSIVE_ROWS: &str =
    "198.51.100.0/24 local NotFound 4294967296\n203.0.113.0/24 0 NotFound 100\nend\n";

const ACTIVE_ROWS: &str =
    "198.51.100.0/24 0 NotFound 100\n203.0.113.0/24 local NotFound 4294967296\nend\n";

// Whether both come to Established, and each one's Loc-RIB has both networks.
fn tell_each_other<W: Wire + Drop>(
    alloc: Global,
    passive: &mut SpeakerLoop<W>,
    active: &mut SpeakerLoop<W>,
) -> bool {
    exchange(passive, active, 2)
        && is_established(passive)
        && is_established(active)
        && shows(alloc, passive, Table::Rib, PASSIVE_ROWS)
        && shows(alloc, active, Table::Rib, ACTIVE_ROWS)
}

// Whether a speaker whose peer is at this address, and its peer, tell each other their networks.
fn tells_that_at<'a, R>(
    rt: &'a R,
    passive: &mut SpeakerLoop<NetWire<'a, R>>,
    address: SocketAddr,
) -> bool
where
    R: Net<Listener = TcpListener, Stream = TcpStream> + AllocGlobal + Abort,
{
    let config = Config {
        asn: Asn(65_002),
        identifier: 0xC000_0202,
        cache: false,
        cache_retry: CACHE_RETRY_SECONDS,
        multiprotocol: false,
        timers: SlotTimers::USUAL,
    };
    let mut active = speaking(rt, None, config, ACTIVE);
    active.set_remote(End::Peer(0), address);
    tell_each_other(rt.alloc(), passive, &mut active)
}

// The same at the peer's own address.
fn tells_its_peer<'a, R>(rt: &'a R, passive: &mut SpeakerLoop<NetWire<'a, R>>) -> bool
where
    R: Net<Listener = TcpListener, Stream = TcpStream> + AllocGlobal + Abort,
{
    match passive.wire().local_address() {
        Some(address) => {
            passive.set_remote(End::Peer(0), address);
            tells_that_at(rt, passive, address)
        }
        None => false,
    }
}

#[test]
fn two_speakers_tell_each_other_their_networks(rt: HostRuntime) {
    let config = Config {
        asn: Asn(65_001),
        identifier: 0xC000_0201,
        cache: false,
        cache_retry: CACHE_RETRY_SECONDS,
        multiprotocol: false,
        timers: SlotTimers::USUAL,
    };
    let mut passive = speaking(&rt, Some(some_port()), config, PASSIVE);
    assert!(rt; tells_its_peer(&rt, &mut passive));
}
