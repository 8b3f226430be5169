//! The events of a first path: two passive peers, a route of the first, and the loss of its connection.
use net_prefix::{Asn, Prefix};
use speaker::{CACHE_RETRY_SECONDS, Command, Config, Event, Mode, PeerConf, SlotTimers};

/// AS 65000, 192.0.2.1.
pub const CONFIG: Config = Config {
    asn: Asn(65000),
    identifier: 0xC000_0201,
    cache: false,
    cache_retry: CACHE_RETRY_SECONDS,
    multiprotocol: false,
    timers: SlotTimers::USUAL,
};

/// The peer of slot 0.
pub const FIRST_PEER: PeerConf<'static> = PeerConf {
    asn: Asn(65001),
    address: 0xC000_020B,
    local: 0xC000_0201,
    mode: Mode::Passive,
    hold: 180,
    import: "all",
    export: "all",
};

/// The peer of slot 1.
pub const SECOND_PEER: PeerConf<'static> = PeerConf {
    asn: Asn(65002),
    address: 0xC000_020C,
    local: 0xC000_0201,
    mode: Mode::Passive,
    hold: 180,
    import: "all",
    export: "all",
};

#[rattlefmt::skip]
const FIRST_OPEN: [u8; 37] = [
    255, 255, 255, 255, 255, 255, 255, 255, 255, 255, 255, 255, 255, 255, 255, 255,
    0x00, 0x25, 0x01, 0x04, 0xFD, 0xE9, 0x00, 0x5A, 0x01, 0x01, 0x01, 0x01,
    0x08, 0x02, 0x06, 0x41, 0x04, 0x00, 0x00, 0xFD, 0xE9,
];

#[rattlefmt::skip]
const SECOND_OPEN: [u8; 37] = [
    255, 255, 255, 255, 255, 255, 255, 255, 255, 255, 255, 255, 255, 255, 255, 255,
    0x00, 0x25, 0x01, 0x04, 0xFD, 0xEA, 0x00, 0x5A, 0x02, 0x02, 0x02, 0x02,
    0x08, 0x02, 0x06, 0x41, 0x04, 0x00, 0x00, 0xFD, 0xEA,
];

/// A KEEPALIVE.
#[rattlefmt::skip]
pub const KEEPALIVE: [u8; 19] = [
    255, 255, 255, 255, 255, 255, 255, 255, 255, 255, 255, 255, 255, 255, 255, 255,
    0x00, 0x13, 0x04,
];

// 10.0.1.0/24 by AS 65001, next hop 192.0.2.11.
#[rattlefmt::skip]
const UPDATE: [u8; 47] = [
    255, 255, 255, 255, 255, 255, 255, 255, 255, 255, 255, 255, 255, 255, 255, 255,
    0x00, 0x2F, 0x02, 0x00, 0x00, 0x00, 0x14,
    0x40, 0x01, 0x01, 0x00, 0x40, 0x02, 0x06, 0x02, 0x01, 0x00, 0x00, 0xFD, 0xE9,
    0x40, 0x03, 0x04, 0xC0, 0x00, 0x02, 0x0B, 0x18, 0x0A, 0x00, 0x01,
];

/// What the next hop of the UPDATE lies under.
pub const REACHABLE: &str = "192.0.2.0/24";

/// What the UPDATE announces.
pub const ANNOUNCED_PREFIX: &str = "10.0.1.0/24";

/// The place of the event behind the UPDATE, which is the last.
pub const LAST: usize = 12;

// The events behind the first, in order.
const LATER: [Event<'static>; 12] = [
    Event::Command(Command::AddPeer(0, FIRST_PEER)),
    Event::Command(Command::AddPeer(1, SECOND_PEER)),
    Event::Command(Command::Enable(0)),
    Event::Command(Command::Enable(1)),
    Event::Up(0),
    Event::Up(1),
    Event::Bytes(0, &FIRST_OPEN),
    Event::Bytes(0, &KEEPALIVE),
    Event::Bytes(1, &SECOND_OPEN),
    Event::Bytes(1, &KEEPALIVE),
    Event::Bytes(0, &UPDATE),
    Event::Fail(0),
];

/// The events, in order.
pub fn events(reachable: Prefix) -> [Event<'static>; 13] {
    let mut events = [Event::Command(Command::Reach(reachable, 10)); 13];
    events[1..].copy_from_slice(&LATER);
    events
}
