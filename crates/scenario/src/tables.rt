//! The tables of a speaker, as `show` shows them.

use crate::answer::{Answer, write_answer};
use crate::line::Table;
use arrayvec::ArrayVec;
use bgp_attr::write_attrs;
use bgp_conf::PEER_SLOTS;
use decision::Book;
use speaker::Speaker;
use std::alloc::Allocator;
use std::io::{self, Write};

/// More rows than a table has, since each takes memory: a bound that the walk over a table can't reach.
const MAX_ROWS: usize = usize::MAX;

/// Writes the rows of the table, a line each, and `end`.
pub fn show<A: Allocator + Clone, B: Book<A>, W: Write>(
    speaker: &Speaker<A, B>,
    table: Table,
    writer: &mut W,
) -> io::Result<()> {
    show_rows(speaker, table, writer)?;
    write_answer(writer, Answer::End)
}

fn show_rows<A: Allocator + Clone, B: Book<A>, W: Write>(
    speaker: &Speaker<A, B>,
    table: Table,
    writer: &mut W,
) -> io::Result<()> {
    match table {
        Table::Sessions => show_sessions(speaker, writer),
        Table::Rib => show_rib(speaker, writer),
        Table::Payloads => show_payloads(speaker, writer),
        Table::In(slot) => show_in(speaker, slot, writer),
        Table::Held(slot) => show_held(speaker, slot, writer),
        Table::Waiting(slot) => show_waiting(speaker, slot, writer),
    }
}

fn show_sessions<A: Allocator + Clone, B: Book<A>, W: Write>(
    speaker: &Speaker<A, B>,
    writer: &mut W,
) -> io::Result<()> {
    for slot in 0..PEER_SLOTS {
        if let Some(state) = speaker.session(slot) {
            write_answer(writer, Answer::Session(slot, state))?;
        }
    }
    if let Some(state) = speaker.cache_session() {
        write_answer(writer, Answer::CacheSession(state))?;
    }
    Ok(())
}

fn show_rib<A: Allocator + Clone, B: Book<A>, W: Write>(
    speaker: &Speaker<A, B>,
    writer: &mut W,
) -> io::Result<()> {
    for route in speaker.loc_rib().take(MAX_ROWS) {
        write_answer(writer, Answer::Best(route))?;
    }
    Ok(())
}

fn show_payloads<A: Allocator + Clone, B: Book<A>, W: Write>(
    speaker: &Speaker<A, B>,
    writer: &mut W,
) -> io::Result<()> {
    for payload in speaker.payloads().take(MAX_ROWS) {
        write_answer(writer, Answer::Payload(payload))?;
    }
    Ok(())
}

fn show_in<A: Allocator + Clone, B: Book<A>, W: Write>(
    speaker: &Speaker<A, B>,
    slot: u8,
    writer: &mut W,
) -> io::Result<()> {
    let mut octets = ArrayVec::new();
    for (prefix, attrs) in speaker.adj_in(slot).take(MAX_ROWS) {
        write_attrs(&attrs.as_received(), &mut octets);
        write_answer(writer, Answer::Route(prefix, octets.as_slice()))?;
    }
    Ok(())
}

fn show_held<A: Allocator + Clone, B: Book<A>, W: Write>(
    speaker: &Speaker<A, B>,
    slot: u8,
    writer: &mut W,
) -> io::Result<()> {
    let mut octets = ArrayVec::new();
    for (prefix, sent) in speaker.held(slot).take(MAX_ROWS) {
        sent.write(&mut octets);
        write_answer(writer, Answer::Route(prefix, octets.as_slice()))?;
    }
    Ok(())
}

fn show_waiting<A: Allocator + Clone, B: Book<A>, W: Write>(
    speaker: &Speaker<A, B>,
    slot: u8,
    writer: &mut W,
) -> io::Result<()> {
    for prefix in speaker.waiting(slot).take(MAX_ROWS) {
        write_answer(writer, Answer::Waiting(prefix))?;
    }
    Ok(())
}
