//! The table of peers.

use crate::pieces::{MAX_ROWS, Place};
use crate::times::StateTimes;
use bgp_conf::PEER_SLOTS;
use decision::Book;
use speaker::{Speaker, State};
use std::alloc::Global;
use std::fmt;
use std::io::{self, Write};

// A peer's session, and how much is kept for it.
#[derive(Clone, Copy)]
struct PeerRow {
    slot: u8,
    state: State,
    seconds: u64,
    received: u64,
    held: u64,
    waiting: u64,
}

/// Writes the row of the next peer. It is a piece by itself, since its routes are counted for it.
pub(crate) fn write_peer<B: Book<Global>>(
    speaker: &Speaker<Global, B>,
    times: &StateTimes,
    now: u64,
    behind: Place,
    page: &mut Vec<u8>,
) -> io::Result<Option<Place>> {
    let Some((slot, state)) = next_peer(speaker, behind) else {
        return Ok(None);
    };
    let row = PeerRow {
        slot,
        state,
        seconds: times.seconds(slot, state, now),
        received: received_by(speaker, slot),
        held: held_by(speaker, slot),
        waiting: waiting_for(speaker, slot),
    };
    writeln!(page, "{row}")?;
    Ok(Some(Place::Slot(slot)))
}

// The next slot that is configured, with its session's state.
fn next_peer<B: Book<Global>>(speaker: &Speaker<Global, B>, behind: Place) -> Option<(u8, State)> {
    let first = match behind {
        Place::Slot(slot) => slot.saturating_add(1),
        _ => 0,
    };
    for slot in first..PEER_SLOTS {
        if let Some(state) = speaker.session(slot) {
            return Some((slot, state));
        }
    }
    None
}

// How many routes a slot's peer has announced and not taken back.
fn received_by<B: Book<Global>>(speaker: &Speaker<Global, B>, slot: u8) -> u64 {
    let mut count = 0u64;
    for _ in speaker.adj_in(slot).take(MAX_ROWS) {
        count = count.saturating_add(1);
    }
    count
}

// How many prefixes a slot's peer holds.
fn held_by<B: Book<Global>>(speaker: &Speaker<Global, B>, slot: u8) -> u64 {
    let mut count = 0u64;
    for _ in speaker.held(slot).take(MAX_ROWS) {
        count = count.saturating_add(1);
    }
    count
}

// Of how many prefixes a withdrawal or an announcement waits for a slot's peer.
fn waiting_for<B: Book<Global>>(speaker: &Speaker<Global, B>, slot: u8) -> u64 {
    let mut count = 0u64;
    for _ in speaker.waiting_after(slot, None).take(MAX_ROWS) {
        count = count.saturating_add(1);
    }
    count
}

impl fmt::Display for PeerRow {
    fn fmt<W: fmt::Write>(&self, f: &mut fmt::Formatter<W>) -> fmt::Result {
        write_session(f, self)?;
        write_counts(f, self)
    }
}

fn write_session<W: fmt::Write>(f: &mut fmt::Formatter<W>, row: &PeerRow) -> fmt::Result {
    let (slot, state, seconds) = (row.slot, row.state, row.seconds);
    write!(f, "{slot} {state} for {seconds}")
}

fn write_counts<W: fmt::Write>(f: &mut fmt::Formatter<W>, row: &PeerRow) -> fmt::Result {
    let (received, held, waiting) = (row.received, row.held, row.waiting);
    write!(f, " received {received} held {held} waiting {waiting}")
}
