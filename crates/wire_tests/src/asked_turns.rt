//! The same with an operator beside, who asks between the turns: each call of the wire fails once, and each call of the
//! operator's own connection.

use crate::made::made;
use crate::memory_wire::{MemoryWire, Served, listed, prepared, told_of};
use cache_desk::{Desk, ListState, Scene};
use cache_figures::CacheFigures;
use cache_turns::CacheLoop;
use list_guards::ListAge;
use net_prefix::Vrp;
use operator_stages::{Asker, Line, Question, Seen};
use program_stages::lend;
use std::alloc::{AllocGlobal, Global};
use std::collections::BTreeSet;
use std::process::Abort;
use wires::LoopFault;

// The one version that is served.
const QUESTION: Question = Question {
    line: b"show versions\n",
    beginning: b"serial 1 payloads 1\n",
    end: b"end\n",
};

// A list of which nothing is asked here.
const LIST: ListState<'static> = ListState {
    path: "the-list",
    figures: CacheFigures {
        serial: 1,
        payloads: 1,
        routers: 0,
        current: 0,
        behind: 0,
        without: 0,
        octets_in: 0,
        octets_out: 0,
        lost: 0,
        closed: 0,
        read: 0,
        withdrawn: false,
    },
    age: ListAge(None),
    accepted: false,
};

// Takes twenty turns, each with the operator behind it, unless one stops them.
fn fault_of_asked_turns(
    turns: &mut CacheLoop<MemoryWire>,
    desk: &mut Desk<Asker<'_>>,
) -> Option<LoopFault> {
    for now in 0..20 {
        if let Err(fault) = turns.turn(now) {
            return Some(fault);
        }
        let _waits = desk.visit(now);
        let scene = Scene {
            turns: &*turns,
            list: LIST,
            now,
        };
        let _reading = desk.attend(&scene);
    }
    None
}

// What they have led to, and whether the operator stays.
fn asked(turns: &mut CacheLoop<MemoryWire>, desk: &mut Desk<Asker<'_>>) -> (Served, bool) {
    let fault = fault_of_asked_turns(turns, desk);
    (told_of(turns, fault), desk.is_busy())
}

// What they lead to where these calls of the wire and of the operator's connection fail.
fn serve(
    rt: &impl Abort,
    alloc: Global,
    set: &BTreeSet<Vrp>,
    seen: &Seen,
    fail_at: (u64, u64),
) -> (Served, bool) {
    let (wire_fails_at, line_fails_at) = fail_at;
    let line = Line::failing_at(QUESTION, seen, line_fails_at);
    let asker = made(rt, Asker::at(alloc, line));
    let mut desk = made(rt, Desk::open(alloc, asker));
    match prepared(alloc, set, 0, wire_fails_at) {
        Some(turns) => lend(turns, |turns| asked(turns, &mut desk)),
        None => panic!(rt; "no memory"),
    }
}

// With each call of the wire failing in turn its client alone is lost, and the operator is answered.
fn lose_no_operator(rt: &(impl AllocGlobal + Abort), set: &BTreeSet<Vrp>) {
    for fails_at in 1..1_000 {
        let seen = Seen::nothing();
        let (served, stays) = serve(rt, rt.alloc(), set, &seen, (fails_at, 0));
        assert!(rt; served.is_as_expected() && stays, "{fails_at}");
        if served.is_whole() {
            assert!(rt; fails_at > 50 && seen.is_answered(9), "{fails_at}");
            return;
        }
        // A fault of accepting ends the turns.
        let least = if served.is_ended() { 0 } else { 9 };
        assert!(rt; seen.is_answered(least), "{fails_at}");
    }
    panic!(rt; "each run had a fault");
}

#[test]
fn a_failing_call_costs_no_operator(rt: HostRuntime) {
    let set = listed(&rt, rt.alloc());
    lose_no_operator(&rt, &set);
}

// With each call of the operator's connection failing in turn each router is served.
fn lose_no_router(rt: &(impl AllocGlobal + Abort), set: &BTreeSet<Vrp>) {
    for fails_at in 1..1_000 {
        let seen = Seen::nothing();
        let (served, stays) = serve(rt, rt.alloc(), set, &seen, (0, fails_at));
        assert!(rt;
            served.is_as_expected() && served.is_whole() && seen.is_answered(0),
            "{fails_at}"
        );
        if stays {
            assert!(rt; fails_at > 15, "{fails_at}");
            return;
        }
    }
    panic!(rt; "each operator was lost");
}

#[test]
fn a_failing_operator_costs_no_router(rt: HostRuntime) {
    let set = listed(&rt, rt.alloc());
    lose_no_router(&rt, &set);
}
