//! The routes to a prefix, the best first.

use crate::candidates::{Ranked, candidates_of, with_steps};
use crate::route_words::write_route_words;
use crate::why::why_none;
use bgp_attr::Attrs;
use bgp_conf::PEER_SLOTS;
use decision::{Book, Candidate, LOCAL_SLOT};
use net_prefix::Prefix;
use selection_reasons::Step;
use speaker::Speaker;
use std::alloc::Global;
use std::io::{self, Write};

// The best, and then those that fell, the last first.
const ORDER: [Option<Step>; 9] = [
    None,
    Some(Step::Address),
    Some(Step::Identifier),
    Some(Step::InteriorCost),
    Some(Step::External),
    Some(Step::MultiExitDisc),
    Some(Step::Origin),
    Some(Step::PathLength),
    Some(Step::Degree),
];

/// Writes the candidates of a prefix, the best first and then those that were left the longest, each with the step at which it
/// fell, and behind them the routes that make none, each with why.
pub(crate) fn write_prefix<B: Book<Global>>(
    speaker: &Speaker<Global, B>,
    prefix: Prefix,
    page: &mut Vec<u8>,
) -> io::Result<()> {
    let candidates = candidates_of(speaker, prefix);
    let all = with_steps(candidates.as_slice());
    for fell in &ORDER {
        write_fallen(speaker, prefix, all.as_slice(), *fell, page)?;
    }
    write_others(speaker, prefix, page)
}

// Writes those that fell at this step, or the best.
fn write_fallen<B: Book<Global>>(
    speaker: &Speaker<Global, B>,
    prefix: Prefix,
    all: &[Ranked],
    fell: Option<Step>,
    page: &mut Vec<u8>,
) -> io::Result<()> {
    for one in all {
        if one.fell == fell {
            write_candidate(prefix, &one.candidate, page)?;
            write_verdict(fell, page)?;
            write_attributes(speaker.route(one.candidate.slot, prefix), page)?;
        }
    }
    Ok(())
}

fn write_candidate(prefix: Prefix, candidate: &Candidate, page: &mut Vec<u8>) -> io::Result<()> {
    let (slot, state, degree) = (candidate.slot, candidate.validity, candidate.degree);
    if slot == LOCAL_SLOT {
        return write!(page, "{prefix} local {state} {degree} ");
    }
    write!(page, "{prefix} {slot} {state} {degree} ")
}

fn write_verdict(fell: Option<Step>, page: &mut Vec<u8>) -> io::Result<()> {
    match fell {
        None => write!(page, "best"),
        Some(step) => write!(page, "fell at {step}"),
    }
}

// Writes what the route has behind what was said of it.
fn write_attributes(route: Option<&Attrs<Global>>, page: &mut Vec<u8>) -> io::Result<()> {
    if let Some(attrs) = route {
        write!(page, ":")?;
        write_route_words(attrs, page)?;
    }
    writeln!(page, "")
}

// Writes the routes to the prefix that make no candidate.
fn write_others<B: Book<Global>>(
    speaker: &Speaker<Global, B>,
    prefix: Prefix,
    page: &mut Vec<u8>,
) -> io::Result<()> {
    for slot in 0..PEER_SLOTS {
        if let Some(attrs) = other_route(speaker, slot, prefix) {
            write_other(speaker, slot, prefix, attrs, page)?;
        }
    }
    Ok(())
}

// The slot's route to the prefix, if it makes no candidate.
fn other_route<'s, B: Book<Global>>(
    speaker: &'s Speaker<Global, B>,
    slot: u8,
    prefix: Prefix,
) -> Option<&'s Attrs<Global>> {
    match speaker.candidate(slot, prefix) {
        Some(_) => None,
        None => speaker.route(slot, prefix),
    }
}

fn write_other<B: Book<Global>>(
    speaker: &Speaker<Global, B>,
    slot: u8,
    prefix: Prefix,
    attrs: &Attrs<Global>,
    page: &mut Vec<u8>,
) -> io::Result<()> {
    let why = why_none(speaker.conf(), slot, attrs);
    write!(page, "{prefix} {slot} no candidate, {why}")?;
    write_attributes(Some(attrs), page)
}
