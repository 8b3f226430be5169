//! The answers of a script.

use bgp_conf::PEER_SLOTS;
use bgp_fsm::State;
use net_prefix::{Prefix, Vrp};
use speaker::{BestRoute, ClientState, LOCAL_SLOT, Report};
use std::fmt;
use std::io::{self, Write};

/// What was closed for want of memory: the slots, a bit each, and the cache session.
#[derive(Clone, Copy)]
pub struct Starved {
    pub slots: u64,
    pub cache: bool,
}

impl Starved {
    /// Nothing was.
    pub const NOTHING: Starved = Starved {
        slots: 0,
        cache: false,
    };

    pub fn of(report: &Report) -> Starved {
        Starved {
            slots: report.starved,
            cache: report.cache_starved,
        }
    }
}

/// One line of what a script answers.
#[derive(Clone, Copy)]
pub enum Answer<'a> {
    /// `ok`, and what was closed for want of memory.
    Done(Starved),
    /// `refused NUMBER`
    Refused(u8),
    /// `refused NUMBER row ROW`
    RefusedRow(u8, u64),
    /// `ok serial SERIAL rows ROWS skipped SKIPPED`
    Loaded {
        serial: u32,
        rows: u64,
        skipped: u64,
    },
    /// `client KEY`, a client of the cache that has come up.
    Client(u64),
    /// `out HEX`, or `out -` where there is nothing, and what was closed for want of memory.
    Out(&'a [u8], Starved),
    /// `SLOT STATE`
    Session(u8, State),
    /// `cache STATE`
    CacheSession(ClientState),
    /// `PREFIX SLOT STATE DEGREE`, with the state of the route (RFC 6811 section 2).
    Best(BestRoute),
    /// `PREFIX-MAX ASn`
    Payload(Vrp),
    /// `PREFIX HEX`, a route with its attributes.
    Route(Prefix, &'a [u8]),
    /// `PREFIX`, which waits.
    Waiting(Prefix),
    /// `end` of a table.
    End,
}

/// Writes one line of answer.
pub(crate) fn write_answer<W: Write>(writer: &mut W, answer: Answer<'_>) -> io::Result<()> {
    writeln!(writer, "{answer}")
}

impl fmt::Display for Answer<'_> {
    fn fmt<W: fmt::Write>(&self, f: &mut fmt::Formatter<W>) -> fmt::Result {
        match self {
            Answer::Done(starved) => write_done(f, *starved),
            Answer::Refused(number) => write!(f, "refused {number}"),
            Answer::RefusedRow(number, row) => write!(f, "refused {number} row {row}"),
            Answer::Loaded {
                serial,
                rows,
                skipped,
            } => write!(f, "ok serial {serial} rows {rows} skipped {skipped}"),
            Answer::Client(key) => write!(f, "client {key}"),
            Answer::Out(octets, starved) => write_out(f, octets, *starved),
            Answer::Session(slot, state) => write!(f, "{slot} {state}"),
            Answer::CacheSession(state) => write!(f, "cache {state}"),
            Answer::Payload(payload) => write!(f, "{payload}"),
            Answer::Best(route) => write_best(f, route),
            Answer::Route(prefix, octets) => write_route(f, *prefix, octets),
            Answer::Waiting(prefix) => write!(f, "{prefix}"),
            Answer::End => write!(f, "end"),
        }
    }
}

fn write_done<W: fmt::Write>(f: &mut fmt::Formatter<W>, starved: Starved) -> fmt::Result {
    write!(f, "ok")?;
    write_starved(f, starved)
}

fn write_out<W: fmt::Write>(
    f: &mut fmt::Formatter<W>,
    octets: &[u8],
    starved: Starved,
) -> fmt::Result {
    write!(f, "out ")?;
    if octets.is_empty() {
        write!(f, "-")?;
    }
    write_octets(f, octets)?;
    write_starved(f, starved)
}

fn write_best<W: fmt::Write>(f: &mut fmt::Formatter<W>, route: &BestRoute) -> fmt::Result {
    let (prefix, slot) = (route.prefix, route.slot);
    let (validity, degree) = (route.validity, route.degree);
    if slot == LOCAL_SLOT {
        return write!(f, "{prefix} local {validity} {degree}");
    }
    write!(f, "{prefix} {slot} {validity} {degree}")
}

fn write_route<W: fmt::Write>(
    f: &mut fmt::Formatter<W>,
    prefix: Prefix,
    octets: &[u8],
) -> fmt::Result {
    write!(f, "{prefix} ")?;
    write_octets(f, octets)
}

fn write_octets<W: fmt::Write>(f: &mut fmt::Formatter<W>, octets: &[u8]) -> fmt::Result {
    for octet in octets {
        write!(f, "{octet:02X}")?;
    }
    Ok(())
}

fn write_starved<W: fmt::Write>(f: &mut fmt::Formatter<W>, starved: Starved) -> fmt::Result {
    if starved.slots == 0 && !starved.cache {
        return Ok(());
    }
    write!(f, " starved")?;
    for slot in 0..PEER_SLOTS {
        if (starved.slots >> slot) & 1 == 1 {
            write!(f, " {slot}")?;
        }
    }
    if starved.cache {
        write!(f, " cache")?;
    }
    Ok(())
}
