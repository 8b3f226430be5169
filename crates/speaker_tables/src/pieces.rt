//! Tables of a speaker, piece by piece.

use crate::exceptions::write_exceptions;
use crate::order::write_prefix;
use crate::peers::write_peer;
use crate::policies::write_policy;
use crate::route_words::write_route;
use crate::shown::Shown;
use crate::times::StateTimes;
use arrayvec::ArrayVec;
use bgp_attr::write_attrs;
use bgp_conf::PEER_SLOTS;
use decision::Book;
use local_exceptions::Filter;
use net_prefix::{Prefix, Vrp};
use scenario::{Answer, Table};
use speaker::Speaker;
use std::alloc::Global;
use std::io::{self, Write};

/// A piece ends at the row with which it has so many octets (own choice).
pub(crate) const PIECE_OCTETS: usize = 65_536;

/// More rows than a table has, since each takes memory.
pub(crate) const MAX_ROWS: usize = usize::MAX;

// The lines that are known.
const LINES: &[u8] = b"\
peer SLOT AS ADDRESS LOCAL active|passive HOLD IMPORT EXPORT
enable SLOT
disable SLOT
drop SLOT
policy NAME RULE ; RULE ..
nopolicy NAME
use in SLOT NAME
use out SLOT NAME
network PREFIX
nonetwork PREFIX
reach PREFIX COST
noreach PREFIX
filter prefix PREFIX
filter as AS
filter both PREFIX AS
nofilter prefix PREFIX
nofilter as AS
nofilter both PREFIX AS
assert PREFIX MAX AS
noassert PREFIX MAX AS
show sessions
show peers
show cache
show rib
show rib PREFIX
show payloads
show in SLOT
show octets SLOT
show held SLOT
show waiting SLOT
show policies
show exceptions
clear SLOT
stop
help
";

/// Behind which row a table goes on.
#[derive(Clone, Copy)]
pub(crate) enum Place {
    Start,
    Slot(u8),
    Policy(usize),
    Prefix(Prefix),
    Payload(Vrp),
    Filter(Filter),
}

/// What is left of a table.
#[derive(Clone, Copy)]
pub struct Rest {
    pub(crate) shown: Shown,
    pub(crate) behind: Place,
}

impl Rest {
    /// The whole table.
    pub fn whole(shown: Shown) -> Rest {
        Rest {
            shown,
            behind: Place::Start,
        }
    }
}

/// What is shown, and when.
#[derive(Drop)]
pub struct Scene<'a, B: Book<Global>> {
    pub speaker: &'a Speaker<Global, B>,
    pub times: &'a StateTimes,
    pub now: u64,
}

/// Writes the next piece of a table, behind its last row `end`, and answers what is left of it.
pub fn write_piece<B: Book<Global>>(
    scene: &Scene<'_, B>,
    rest: Rest,
    page: &mut Vec<u8>,
) -> io::Result<Option<Rest>> {
    let stopped = write_rows(scene, rest, page)?;
    match stopped {
        Some(behind) => Ok(Some(Rest {
            shown: rest.shown,
            behind,
        })),
        None => {
            writeln!(page, "{}", Answer::End)?;
            Ok(None)
        }
    }
}

// Writes rows, and answers behind which one it stopped, if any is left.
fn write_rows<B: Book<Global>>(
    scene: &Scene<'_, B>,
    rest: Rest,
    page: &mut Vec<u8>,
) -> io::Result<Option<Place>> {
    let speaker = scene.speaker;
    match rest.shown {
        Shown::Table(table) => write_table(speaker, table, rest.behind, page),
        Shown::Received(slot) => write_received(speaker, slot, rest.behind, page),
        Shown::Prefix(prefix) => {
            write_prefix(speaker, prefix, page)?;
            Ok(None)
        }
        Shown::Peers => write_peer(speaker, scene.times, scene.now, rest.behind, page),
        Shown::Policies => write_policy(speaker.conf(), rest.behind, page),
        Shown::Exceptions => write_exceptions(speaker.conf(), rest.behind, page),
        Shown::Cache => write_cache(speaker, page),
        Shown::Lines => {
            page.write_all(LINES)?;
            Ok(None)
        }
    }
}

fn write_table<B: Book<Global>>(
    speaker: &Speaker<Global, B>,
    table: Table,
    behind: Place,
    page: &mut Vec<u8>,
) -> io::Result<Option<Place>> {
    match table {
        Table::Sessions => write_sessions(speaker, page),
        Table::Rib => write_rib(speaker, behind, page),
        Table::Payloads => write_payloads(speaker, behind, page),
        Table::In(slot) => write_in(speaker, slot, behind, page),
        Table::Held(slot) => write_held(speaker, slot, behind, page),
        Table::Waiting(slot) => write_waiting(speaker, slot, behind, page),
    }
}

fn write_cache<B: Book<Global>>(
    speaker: &Speaker<Global, B>,
    page: &mut Vec<u8>,
) -> io::Result<Option<Place>> {
    match speaker.cache_session() {
        Some(state) => {
            let payloads = payload_count(speaker);
            writeln!(page, "{} payloads {payloads}", Answer::CacheSession(state))?;
        }
        None => writeln!(page, "nocache")?,
    }
    Ok(None)
}

fn payload_count<B: Book<Global>>(speaker: &Speaker<Global, B>) -> u64 {
    let mut count = 0u64;
    for _ in speaker.payloads().take(MAX_ROWS) {
        count = count.saturating_add(1);
    }
    count
}

pub(crate) fn is_full(page: &[u8]) -> bool {
    page.len() >= PIECE_OCTETS
}

// Behind which prefix rows are still to be written.
fn prefix_of(behind: Place) -> Option<Prefix> {
    match behind {
        Place::Prefix(last) => Some(last),
        Place::Start | Place::Slot(_) | Place::Policy(_) => None,
        Place::Payload(_) | Place::Filter(_) => None,
    }
}

fn payload_of(behind: Place) -> Option<Vrp> {
    match behind {
        Place::Payload(last) => Some(last),
        Place::Start | Place::Slot(_) | Place::Policy(_) => None,
        Place::Prefix(_) | Place::Filter(_) => None,
    }
}

fn write_sessions<B: Book<Global>>(
    speaker: &Speaker<Global, B>,
    page: &mut Vec<u8>,
) -> io::Result<Option<Place>> {
    for slot in 0..PEER_SLOTS {
        if let Some(state) = speaker.session(slot) {
            writeln!(page, "{}", Answer::Session(slot, state))?;
        }
    }
    if let Some(state) = speaker.cache_session() {
        writeln!(page, "{}", Answer::CacheSession(state))?;
    }
    Ok(None)
}

fn write_rib<B: Book<Global>>(
    speaker: &Speaker<Global, B>,
    behind: Place,
    page: &mut Vec<u8>,
) -> io::Result<Option<Place>> {
    for route in speaker.loc_rib_after(prefix_of(behind)).take(MAX_ROWS) {
        writeln!(page, "{}", Answer::Best(route))?;
        if is_full(page.as_slice()) {
            return Ok(Some(Place::Prefix(route.prefix)));
        }
    }
    Ok(None)
}

fn write_payloads<B: Book<Global>>(
    speaker: &Speaker<Global, B>,
    behind: Place,
    page: &mut Vec<u8>,
) -> io::Result<Option<Place>> {
    for payload in speaker.payloads_after(payload_of(behind)).take(MAX_ROWS) {
        writeln!(page, "{}", Answer::Payload(payload))?;
        if is_full(page.as_slice()) {
            return Ok(Some(Place::Payload(payload)));
        }
    }
    Ok(None)
}

fn write_in<B: Book<Global>>(
    speaker: &Speaker<Global, B>,
    slot: u8,
    behind: Place,
    page: &mut Vec<u8>,
) -> io::Result<Option<Place>> {
    let mut octets = ArrayVec::new();
    for (prefix, attrs) in speaker.adj_in_after(slot, prefix_of(behind)).take(MAX_ROWS) {
        write_attrs(&attrs.as_received(), &mut octets);
        writeln!(page, "{}", Answer::Route(prefix, octets.as_slice()))?;
        if is_full(page.as_slice()) {
            return Ok(Some(Place::Prefix(prefix)));
        }
    }
    Ok(None)
}

// Writes a slot's routes in words: their states, their origin ASes, and what they have.
fn write_received<B: Book<Global>>(
    speaker: &Speaker<Global, B>,
    slot: u8,
    behind: Place,
    page: &mut Vec<u8>,
) -> io::Result<Option<Place>> {
    for (prefix, attrs) in speaker.adj_in_after(slot, prefix_of(behind)).take(MAX_ROWS) {
        write_route(speaker, prefix, attrs, page)?;
        if is_full(page.as_slice()) {
            return Ok(Some(Place::Prefix(prefix)));
        }
    }
    Ok(None)
}

fn write_held<B: Book<Global>>(
    speaker: &Speaker<Global, B>,
    slot: u8,
    behind: Place,
    page: &mut Vec<u8>,
) -> io::Result<Option<Place>> {
    let mut octets = ArrayVec::new();
    for (prefix, sent) in speaker.held_after(slot, prefix_of(behind)).take(MAX_ROWS) {
        sent.write(&mut octets);
        writeln!(page, "{}", Answer::Route(prefix, octets.as_slice()))?;
        if is_full(page.as_slice()) {
            return Ok(Some(Place::Prefix(prefix)));
        }
    }
    Ok(None)
}

fn write_waiting<B: Book<Global>>(
    speaker: &Speaker<Global, B>,
    slot: u8,
    behind: Place,
    page: &mut Vec<u8>,
) -> io::Result<Option<Place>> {
    for prefix in speaker
        .waiting_after(slot, prefix_of(behind))
        .take(MAX_ROWS)
    {
        writeln!(page, "{}", Answer::Waiting(prefix))?;
        if is_full(page.as_slice()) {
            return Ok(Some(Place::Prefix(prefix)));
        }
    }
    Ok(None)
}
