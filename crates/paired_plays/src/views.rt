//! What a speaker or a cache shows, beside another that has played the same calls.

use crate::endings::Ending;
use crate::fault::{Fault, Wrong};
use crate::lines::{Lines, number_at, row_of, split_line, word_at};
use crate::play::{Play, Table};
use net_prefix::Transport;
use std::alloc::Global;
use std::io;

// More slots than peers and clients have.
const SLOTS: u8 = 64;

/// What is compared: all; or at the end of a script only the sessions, Loc-RIB and the routes as received, where a peer
/// was closed and hasn't come again; or where a peer was just closed the sessions, the payloads and the routes as received.
#[derive(Clone, Copy)]
pub enum Scope {
    Whole,
    End,
    Received,
}

impl Scope {
    /// What is wrong where both aren't alike.
    pub fn wrong(self) -> Wrong {
        match self {
            Scope::Whole | Scope::Received => Wrong::ChangedMore,
            Scope::End => Wrong::OtherEnd,
        }
    }

    fn has(self, table: Table) -> bool {
        match self {
            Scope::Whole => true,
            Scope::End => matches!(table, Table::Sessions | Table::Rib | Table::In(_)),
            Scope::Received => { matches!(table, Table::Sessions | Table::Payloads | Table::In(_)) }
        }
    }

    fn is_whole(self) -> bool {
        matches!(self, Scope::Whole)
    }
}

/// Whether both show the same, but for what the ending leaves.
pub fn shows_alike<P: Play, Q: Play>(
    alloc: Global,
    tested: &P,
    whole: &Q,
    ending: Ending,
    scope: Scope,
) -> Result<bool, Fault> {
    if scope.is_whole() && !are_caches_alike(tested, whole, ending) {
        return Ok(false);
    }
    match (tested.has_speaker(), whole.has_speaker()) {
        (true, true) => are_speakers_alike(alloc, tested, whole, ending, scope),
        (false, false) => Ok(scope.is_whole()),
        _ => Ok(false),
    }
}

fn are_caches_alike<P: Play, Q: Play>(tested: &P, whole: &Q, ending: Ending) -> bool {
    match (tested.has_cache(), whole.has_cache()) {
        (true, true) => are_clients_alike(tested, whole, ending),
        (false, false) => true,
        _ => false,
    }
}

fn are_clients_alike<P: Play, Q: Play>(tested: &P, whole: &Q, ending: Ending) -> bool {
    for key in 0..u64::from(SLOTS) {
        let wanted = left(
            whole.client_transport(key),
            ending == Ending::ClientClosed(key),
        );
        if tested.client_transport(key) != wanted {
            return false;
        }
    }
    true
}

// What the connection of a slot, a client or the cache is where it stays, or was closed.
fn left(transport: Transport, is_closed: bool) -> Transport {
    if is_closed {
        Transport::Closing
    } else {
        transport
    }
}

fn are_speakers_alike<P: Play, Q: Play>(
    alloc: Global,
    tested: &P,
    whole: &Q,
    ending: Ending,
    scope: Scope,
) -> Result<bool, Fault> {
    if scope.is_whole() && !are_connected_alike(tested, whole, ending) {
        return Ok(false);
    }
    have_tables_alike(alloc, tested, whole, ending, scope)
}

// Where nothing was closed, a best route has been chosen as often in the last call.
fn are_connected_alike<P: Play, Q: Play>(tested: &P, whole: &Q, ending: Ending) -> bool {
    are_peers_alike(tested, whole, ending)
        && has_cache_alike(tested, whole, ending)
        && (ending != Ending::Refused || tested.chosen() == whole.chosen())
}

fn are_peers_alike<P: Play, Q: Play>(tested: &P, whole: &Q, ending: Ending) -> bool {
    for slot in 0..SLOTS {
        let wanted = left(whole.transport(slot), ending == Ending::Closed(slot));
        if tested.transport(slot) != wanted {
            return false;
        }
    }
    true
}

fn has_cache_alike<P: Play, Q: Play>(tested: &P, whole: &Q, ending: Ending) -> bool {
    tested.cache_transport() == left(whole.cache_transport(), ending == Ending::CacheClosed)
}

// The rows of a table of each of the two, and those of Loc-RIB of the second. Whether there was no memory for them.
#[derive(Drop)]
struct Texts {
    tested: Vec<u8>,
    whole: Vec<u8>,
    rib: Vec<u8>,
    is_short: bool,
}

impl Texts {
    fn new(alloc: Global) -> Texts {
        Texts {
            tested: Vec::new(alloc),
            whole: Vec::new(alloc),
            rib: Vec::new(alloc),
            is_short: false,
        }
    }

    // Whether it was shown.
    fn keep(&mut self, shown: io::Result<()>) -> bool {
        if shown.is_err() {
            self.is_short = true;
            return false;
        }
        true
    }
}

fn have_tables_alike<P: Play, Q: Play>(
    alloc: Global,
    tested: &P,
    whole: &Q,
    ending: Ending,
    scope: Scope,
) -> Result<bool, Fault> {
    let mut texts = Texts::new(alloc);
    let are_alike = are_all_alike(&mut texts, tested, whole, ending, scope);
    if texts.is_short {
        Err(Fault::Device)
    } else {
        Ok(are_alike)
    }
}

fn are_all_alike<P: Play, Q: Play>(
    texts: &mut Texts,
    tested: &P,
    whole: &Q,
    ending: Ending,
    scope: Scope,
) -> bool {
    show_rib(texts, whole)
        && are_common_alike(texts, tested, whole, ending, scope)
        && are_slots_alike(texts, tested, whole, ending, scope)
}

fn show_rib<Q: Play>(texts: &mut Texts, whole: &Q) -> bool {
    let shown = whole.show(Table::Rib, &mut texts.rib);
    texts.keep(shown)
}

fn are_common_alike<P: Play, Q: Play>(
    texts: &mut Texts,
    tested: &P,
    whole: &Q,
    ending: Ending,
    scope: Scope,
) -> bool {
    let tables = [Table::Rib, Table::Sessions, Table::Payloads];
    are_alike(texts, tested, whole, &tables, ending, scope)
}

fn are_slots_alike<P: Play, Q: Play>(
    texts: &mut Texts,
    tested: &P,
    whole: &Q,
    ending: Ending,
    scope: Scope,
) -> bool {
    for slot in 0..SLOTS {
        let tables = [Table::In(slot), Table::Held(slot), Table::Waiting(slot)];
        if !are_alike(texts, tested, whole, &tables, ending, scope) {
            return false;
        }
    }
    true
}

fn are_alike<P: Play, Q: Play>(
    texts: &mut Texts,
    tested: &P,
    whole: &Q,
    tables: &[Table],
    ending: Ending,
    scope: Scope,
) -> bool {
    for table in tables {
        if scope.has(*table) && !is_alike(texts, tested, whole, *table, ending) {
            return false;
        }
    }
    true
}

fn is_alike<P: Play, Q: Play>(
    texts: &mut Texts,
    tested: &P,
    whole: &Q,
    table: Table,
    ending: Ending,
) -> bool {
    are_shown(texts, tested, whole, table) && is_left_of(texts, table, ending)
}

fn are_shown<P: Play, Q: Play>(texts: &mut Texts, tested: &P, whole: &Q, table: Table) -> bool {
    texts.tested.clear();
    texts.whole.clear();
    let first = tested.show(table, &mut texts.tested);
    let second = whole.show(table, &mut texts.whole);
    texts.keep(first) && texts.keep(second)
}

fn is_left_of(texts: &Texts, table: Table, ending: Ending) -> bool {
    is_left(
        table,
        texts.tested.as_slice(),
        texts.whole.as_slice(),
        texts.rib.as_slice(),
        ending,
    )
}

/// Whether these are the rows of the table that the ending leaves of those that there would be.
fn is_left(table: Table, tested: &[u8], whole: &[u8], rib: &[u8], ending: Ending) -> bool {
    match (ending, table) {
        (Ending::CacheClosed, Table::Sessions) => are_sessions_left(tested, whole, ending),
        (Ending::Closed(closed), table) => is_left_by(table, tested, whole, rib, closed),
        _ => tested == whole,
    }
}

// The same where this slot was closed: its routes are gone, and it holds nothing. The best routes are of others.
fn is_left_by(table: Table, tested: &[u8], whole: &[u8], rib: &[u8], closed: u8) -> bool {
    match table {
        Table::Sessions => are_sessions_left(tested, whole, Ending::Closed(closed)),
        Table::Rib => are_routes_left(tested, whole, None, closed),
        Table::Payloads => tested == whole,
        Table::In(slot) | Table::Held(slot) | Table::Waiting(slot) if slot == closed => {
            tested == b"end\n".as_slice()
        }
        Table::In(_) => tested == whole,
        Table::Held(_) | Table::Waiting(_) => are_routes_left(tested, whole, Some(rib), closed),
    }
}

// Whether all rows of the sessions are the same, but for that of the one that was closed.
fn are_sessions_left(tested: &[u8], whole: &[u8], ending: Ending) -> bool {
    let mut tested = tested;
    for row in Lines::of(whole) {
        match split_line(tested) {
            Some((first, behind)) if is_session_left(first, row, ending) => tested = behind,
            _ => return false,
        }
    }
    tested.is_empty()
}

fn is_session_left(tested: &[u8], whole: &[u8], ending: Ending) -> bool {
    match ending {
        Ending::Closed(slot) if is_of(whole, 0, slot) => {
            is_of(tested, 0, slot) && tested.ends_with(b" Idle\n")
        }
        Ending::CacheClosed if whole.starts_with(b"cache") => tested == b"cache Off\n".as_slice(),
        _ => tested == whole,
    }
}

// Whether the rows are those that there would be, without those of the closed slot.
fn are_routes_left(tested: &[u8], whole: &[u8], rib: Option<&[u8]>, closed: u8) -> bool {
    let mut tested = tested;
    for row in Lines::of(whole) {
        if !goes(row, rib, closed) {
            match tested.strip_prefix(row) {
                Some(behind) => tested = behind,
                None => return false,
            }
        }
    }
    tested.is_empty()
}

// Whether the row goes with the slot: its best route is one of the slot's by Loc-RIB, or by itself.
fn goes(row: &[u8], rib: Option<&[u8]>, closed: u8) -> bool {
    match rib {
        Some(rib) => is_best_of(rib, row, closed),
        None => is_of(row, 1, closed),
    }
}

// Whether the best route of the row's prefix is one of the slot's.
fn is_best_of(rib: &[u8], row: &[u8], slot: u8) -> bool {
    let prefix = word_at(row_of(row), 0);
    for best in Lines::of(rib) {
        if is_of(best, 1, slot) && word_at(row_of(best), 0) == prefix {
            return true;
        }
    }
    false
}

fn is_of(row: &[u8], place: usize, slot: u8) -> bool {
    number_at(row_of(row), place) == Some(u64::from(slot))
}
