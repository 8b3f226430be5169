//! What operators are shown, piece by piece.

use cache_figures::CacheFigures;
use cache_turns::{Arrival, CacheLoop};
use cache_watch::{ListFault, Reread};
use list_guards::ListAge;
use net_prefix::{Prefix, Vrp};
use rtr_cache::{CACHE_CLIENTS, Cache};
use std::fmt::{self, Display, Formatter};
use std::io::{self, Write};
use vrp_delta::KEPT_VERSIONS;
use wires::Wire;

/// A piece ends at the row with which it has so many octets (own choice).
pub(crate) const PIECE_OCTETS: usize = 65_536;

// The lines that are known.
const LINES: &[u8] = b"\
show clients
show versions
show payloads
show payloads PREFIX
show list
reread
accept
stop
help
";

/// What an operator is shown.
#[derive(Clone, Copy, Debug, PartialEq, Eq)]
pub(crate) enum Shown {
    /// The clients.
    Clients,
    /// The versions that are kept.
    Versions,
    /// The payloads that are served; with a prefix those that cover it or lie within it.
    Payloads(Option<Prefix>),
    /// The list.
    List,
    /// The lines that are known.
    Lines,
}

/// What is left of a table, and behind which payload it goes on.
#[derive(Clone, Copy)]
pub(crate) struct Rest {
    pub shown: Shown,
    pub behind: Option<Vrp>,
}

/// What a status line tells of the list that is served, and the path of its file.
#[derive(Clone, Copy)]
pub struct ListState<'a> {
    pub path: &'a str,
    pub figures: CacheFigures,
    pub age: ListAge,
    /// Whether the guards were set aside for it.
    pub accepted: bool,
}

impl<'a> Display for ListState<'a> {
    fn fmt<W: fmt::Write>(&self, f: &mut Formatter<W>) -> fmt::Result {
        let ListState {
            path,
            figures,
            age,
            accepted,
        } = self;
        let seconds = figures.read;
        write!(f, "{path} {age}, read {seconds} seconds ago")?;
        if *accepted {
            f.write_str(", accepted")?;
        }
        write!(f, ": {figures}")
    }
}

/// What is shown, and when.
#[derive(Drop)]
pub struct Scene<'a, W: Wire> {
    pub turns: &'a CacheLoop<W>,
    pub list: ListState<'a>,
    pub now: u64,
}

/// Writes the next piece of a table, behind its last row `end`, and answers what is left of it. The list was read last with
/// this outcome.
pub(crate) fn write_piece<W: Wire + Drop>(
    scene: &Scene<'_, W>,
    last: Option<Reread>,
    rest: Rest,
    page: &mut Vec<u8>,
) -> io::Result<Option<Rest>> {
    match rest.shown {
        Shown::Clients => write_clients(scene.turns, scene.now, page)?,
        Shown::Versions => write_versions(scene.turns.cache(), page)?,
        Shown::List => write_list(&scene.list, last, page)?,
        Shown::Lines => page.write_all(LINES)?,
        Shown::Payloads(within) => {
            let stopped = write_payloads(scene.turns.cache(), within, rest.behind, page)?;
            if stopped.is_some() {
                return Ok(Some(Rest {
                    shown: rest.shown,
                    behind: stopped,
                }));
            }
        }
    }
    writeln!(page, "end")?;
    Ok(None)
}

fn write_clients<W: Wire + Drop>(
    turns: &CacheLoop<W>,
    now: u64,
    page: &mut Vec<u8>,
) -> io::Result<()> {
    for client in 0..CACHE_CLIENTS {
        if let Some(arrival) = turns.arrival(client) {
            write_client(turns.cache(), client as u64, arrival, now, page)?;
        }
    }
    Ok(())
}

// Version 1 is the only one in which a session comes up (RFC 8210 section 7).
fn write_client(
    cache: &Cache,
    client: u64,
    arrival: Arrival,
    now: u64,
    page: &mut Vec<u8>,
) -> io::Result<()> {
    let Arrival { address, moment } = arrival;
    let seconds = now.saturating_sub(moment);
    write!(page, "{address} for {seconds} version ")?;
    match cache.awaits_first_pdu(client) {
        true => write!(page, "none")?,
        false => write!(page, "1")?,
    }
    match cache.held_serial(client) {
        Some(serial) => writeln!(page, " serial {serial}"),
        None => writeln!(page, " serial none"),
    }
}

// The newest version, with its payloads, and those before it that are kept: serials begin at 1 and rise by one.
fn write_versions(cache: &Cache, page: &mut Vec<u8>) -> io::Result<()> {
    let Some(newest) = cache.newest() else {
        return Ok(());
    };
    let serial = newest.serial();
    let payloads = newest.payloads().len();
    writeln!(page, "serial {serial} payloads {payloads}")?;
    for back in 1..KEPT_VERSIONS {
        match serial.checked_sub(back as u32) {
            Some(older) if older > 0 => writeln!(page, "serial {older}")?,
            _ => return Ok(()),
        }
    }
    Ok(())
}

fn write_list(list: &ListState<'_>, last: Option<Reread>, page: &mut Vec<u8>) -> io::Result<()> {
    writeln!(page, "{list}")?;
    match last {
        Some(Reread::Refused(why)) => write_refused(why, page),
        _ => Ok(()),
    }
}

fn write_refused(why: ListFault, page: &mut Vec<u8>) -> io::Result<()> {
    let file = why.file();
    writeln!(page, "{file} refused: {why}")
}

// Writes payloads, and answers behind which one it stopped, if any is left.
fn write_payloads(
    cache: &Cache,
    within: Option<Prefix>,
    behind: Option<Vrp>,
    page: &mut Vec<u8>,
) -> io::Result<Option<Vrp>> {
    let Some(newest) = cache.newest() else {
        return Ok(None);
    };
    for payload in newest.payloads() {
        if is_next(*payload, within, behind) {
            writeln!(page, "{payload}")?;
            if page.len() >= PIECE_OCTETS {
                return Ok(Some(*payload));
            }
        }
    }
    Ok(None)
}

// Whether a payload is one of those that are shown, and none that was written.
fn is_next(payload: Vrp, within: Option<Prefix>, behind: Option<Vrp>) -> bool {
    if let Some(last) = behind
        && payload <= last
    {
        return false;
    }
    match within {
        Some(prefix) => payload.prefix.covers(&prefix) || prefix.covers(&payload.prefix),
        None => true,
    }
}
