//! The events of the first path by `run`, where the nth request for memory is refused.
ghost use Rattle.std.specs.Prelude.{◌≤◌};

use crate::bare::{self, Look};
use crate::events::{ANNOUNCED_PREFIX, CONFIG, LAST, REACHABLE, events};
use net_prefix::Prefix;
use refusing::Refusing;
use speaker::{BestRoute, Command, Event, Refusal, Report, Speaker, State, Transport, Validity};
use std::alloc::{Allocator, Global};
use std::process::Abort;
use std::test::Fail;

// What the refused growth came to.
#[derive(Clone, Copy, PartialEq, Eq)]
enum Ending {
    // There was none.
    Whole,
    // There is no trace.
    NoTrace,
    // A command was refused.
    Refused,
    // The first peer's session was closed.
    ClosedFirst,
    // The second peer's session was closed.
    ClosedSecond,
    // Nothing shows of the request that was refused.
    Unseen,
    // What should not be.
    Wrong,
}

// An event of which nothing is reported.
const TAKEN: Result<Report, Refusal> = Ok(Report::NOTHING);

// The report of a call that closed the first peer's session for want of memory.
const FIRST_CLOSED: Report = Report {
    starved: 1,
    ..Report::NOTHING
};

// The report of a call that closed the second peer's.
const SECOND_CLOSED: Report = Report {
    starved: 2,
    ..Report::NOTHING
};

fn slot_of(event: Event<'_>) -> Option<u8> {
    match event {
        Event::Up(slot) | Event::Fail(slot) | Event::Bytes(slot, _) => Some(slot),
        Event::Command(
            Command::AddPeer(slot, _)
            | Command::RemovePeer(slot)
            | Command::Enable(slot)
            | Command::Disable(slot)
            | Command::UseIn(slot, _)
            | Command::UseOut(slot, _),
        ) => Some(slot),
        Event::CacheUp
        | Event::CacheFail
        | Event::CacheBytes(_)
        | Event::Tick(_)
        | Event::Command(
            Command::SetPolicy(_, _)
            | Command::DropPolicy(_)
            | Command::Network(_)
            | Command::NoNetwork(_)
            | Command::Reach(_, _)
            | Command::NoReach(_)
            | Command::Filter(_, _)
            | Command::NoFilter(_, _)
            | Command::Assert(_, _, _)
            | Command::NoAssert(_, _, _),
        ) => None,
    }
}

// The answer to an event where the slot isn't there.
fn answer_without(lacking: Option<u8>, event: Event<'_>) -> Result<Report, Refusal> {
    let slot = slot_of(event);
    if slot.is_some() && slot == lacking {
        Err(Refusal::BadSlot)
    } else {
        TAKEN
    }
}

// Whether these are the answers behind a refused command: the speaker goes on without what was commanded.
fn goes_on_without(
    refused: Event<'_>,
    events: &[Event<'_>],
    answers: &[Result<Report, Refusal>],
) -> bool {
    let lacking = slot_of(refused);
    matches!(refused, Event::Command(_))
        && events.iter().zip(answers).all(|(event, answer)| *answer
            == answer_without(lacking, *event))
}

// Whether these are the answers behind a closing: nothing more is closed, and what comes to the closed slot is let pass.
fn are_taken(answers: &[Result<Report, Refusal>]) -> bool {
    answers.iter().all(|answer| *answer == TAKEN)
}

// The first of the events has met a refused growth; these are the answers from there on.
fn behind(events: &[Event<'_>], answers: &[Result<Report, Refusal>]) -> Ending {
    let (Some((event, later)), Some((answer, rest))) = (events.split_first(), answers.split_first())
    else {
        return Ending::Wrong;
    };
    match *answer {
        Err(Refusal::NoMemory) if goes_on_without(*event, later, rest) => Ending::Refused,
        Ok(FIRST_CLOSED) if are_taken(rest) => Ending::ClosedFirst,
        Ok(SECOND_CLOSED) if are_taken(rest) => Ending::ClosedSecond,
        _ => Ending::Wrong,
    }
}

// How a run of these events ends.
#[derive(Clone, Copy)]
struct End<'a> {
    events: &'a [Event<'a>],
}

impl Look for End<'_> {
    type Answer = Ending;

    fn look<A: Allocator + Clone>(
        &self,
        answers: &[Result<Report, Refusal>],
        _speaker: &Speaker<A>,
    ) -> Ending {
        if answers.len() != self.events.len() {
            return Ending::Wrong;
        }
        match answers.iter().position(|answer| *answer != TAKEN) {
            Some(place) => behind(&self.events[place..], &answers[place..]),
            None => Ending::Whole,
        }
    }
}

fn play<A: Allocator + Clone + Copy>(heap: A, events: &[Event<'_>]) -> Ending {
    match bare::on_run(heap, CONFIG, events, &End { events }) {
        Ok(ending) => ending,
        Err(Refusal::NoMemory) => Ending::NoTrace,
        Err(_) => Ending::Wrong,
    }
}

// The ending where the nth request is refused.
fn nth_ending(alloc: Global, nth: u64, events: &[Event<'_>]) -> Ending
    requires { 1 ≤ nth }
{
    let heap = Refusing::new(alloc, nth);
    match (play(&heap, events), heap.has_refused()) {
        (Ending::Whole, true) => Ending::Unseen,
        (Ending::Whole, false) => Ending::Whole,
        (_, false) => Ending::Wrong,
        (ending, true) => ending,
    }
}

// Which endings there were.
#[derive(Clone, Copy)]
struct Seen {
    no_trace: bool,
    refused: bool,
    first: bool,
    second: bool,
}

impl Seen {
    const NONE: Seen = Seen {
        no_trace: false,
        refused: false,
        first: false,
        second: false,
    };

    fn with(self, ending: Ending) -> Seen {
        Seen {
            no_trace: self.no_trace || ending == Ending::NoTrace,
            refused: self.refused || ending == Ending::Refused,
            first: self.first || ending == Ending::ClosedFirst,
            second: self.second || ending == Ending::ClosedSecond,
        }
    }

    fn all(self) -> bool {
        self.no_trace && self.refused && self.first && self.second
    }
}

// How the run ends, by n, until nothing is refused.
fn endings(rt: &impl Abort, alloc: Global, events: &[Event<'_>]) -> Seen {
    let mut seen = Seen::NONE;
    for nth in 1..1_000u64 {
        match nth_ending(alloc, nth, events) {
            Ending::Whole => return seen,
            Ending::Wrong => panic!(rt; "a refused growth came to more"),
            ending => seen = seen.with(ending),
        }
    }
    panic!(rt; "the run makes no end of requests");
}

#[test]
fn a_run_goes_on_behind_a_refused_growth(rt: HostRuntime) -> Result<(), Fail> {
    let events = events(Prefix::parse(REACHABLE)?);
    assert!(rt; endings(&rt, rt.alloc(), &events).all());
    Ok(())
}

// Whether all events are taken but the last.
fn are_answered(answers: &[Result<Report, Refusal>]) -> bool {
    match answers.split_last() {
        Some((last, answers)) => {
            *last == Err(Refusal::NotExpected) && answers.len() == LAST && are_taken(answers)
        }
        None => false,
    }
}

// Whether the first peer's session is there, and its route is the best one.
fn has_route<A: Allocator + Clone>(speaker: &Speaker<A>, prefix: Prefix) -> bool {
    let best = BestRoute {
        prefix,
        slot: 0,
        degree: 100,
        validity: Validity::NotFound,
    };
    bare::session(speaker, 0) == Some(State::Established)
        && bare::transport(speaker, 0) == Transport::Open
        && bare::best_routes(speaker) == (Some(best), false)
}

// The route behind a run.
#[derive(Clone, Copy)]
struct Route {
    prefix: Prefix,
}

impl Look for Route {
    type Answer = bool;

    fn look<A: Allocator + Clone>(
        &self,
        answers: &[Result<Report, Refusal>],
        speaker: &Speaker<A>,
    ) -> bool {
        are_answered(answers) && has_route(speaker, self.prefix)
    }
}

#[test]
fn a_run_shows_the_route_of_its_peer(rt: HostRuntime) -> Result<(), Fail> {
    let prefix = Prefix::parse(ANNOUNCED_PREFIX)?;
    let mut events = events(Prefix::parse(REACHABLE)?);
    events[LAST] = Event::Up(0);
    assert!(rt; bare::on_run(rt.alloc(), CONFIG, &events, &Route { prefix })?);
    Ok(())
}
