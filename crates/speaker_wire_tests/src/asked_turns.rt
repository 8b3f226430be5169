//! The same with an operator beside, who asks between the turns: each call of the wire fails once, and each call of the
//! operator's own connection.

use crate::made::made;
use crate::speaker_wire::{MemoryWire, Turned, is_well_led, prepared, told_of, with_addresses};
use control_lines::Operators;
use operator_stages::{Asker, Line, Question, Seen};
use speaker_desk::{Desk, Exchange, Gate};
use speaker_turns::SpeakerLoop;
use std::alloc::AllocGlobal;
use std::process::Abort;
use wires::LoopFault;

// Both peers and the cache have a line.
const QUESTION: Question = Question {
    line: b"show sessions\n",
    beginning: b"0 ",
    end: b"end\n",
};

// Takes twenty turns at the moment 0, each with the operator behind it, unless one stops them.
fn fault_of_asked_turns(
    turns: &mut SpeakerLoop<MemoryWire>,
    desk: &mut Desk<'_>,
    asker: &mut Asker<'_>,
) -> Option<LoopFault> {
    for _ in 0..20 {
        if let Err(fault) = turns.turn(0) {
            return Some(fault);
        }
        desk.note_states(turns.speaker(), 0);
        asker.turn(0);
        desk.attend(turns, asker, 0);
    }
    None
}

// What they have led to.
fn asked(
    turns: &mut SpeakerLoop<MemoryWire>,
    desk: &mut Desk<'_>,
    asker: &mut Asker<'_>,
) -> Turned {
    with_addresses(turns);
    let fault = fault_of_asked_turns(turns, desk, asker);
    told_of(turns, fault)
}

// What they lead to where these calls of the wire and of the operator's connection fail, and whether the operator stays.
fn serve(
    rt: &(impl AllocGlobal + Abort),
    seen: &Seen,
    wire_fails_at: u64,
    line_fails_at: u64,
) -> (Turned, bool) {
    let line = Line::failing_at(QUESTION, seen, line_fails_at);
    let mut asker = made(rt, Asker::at(rt.alloc(), line));
    let wire = MemoryWire::failing_at(wire_fails_at);
    let mut turns = made(rt, SpeakerLoop::new(rt.alloc(), wire, prepared(rt)));
    let exchange = Exchange::new(rt.alloc());
    let gate = Gate::new(Vec::new(rt.alloc()), 0);
    let mut desk = made(rt, Desk::new(rt.alloc(), &[], gate, &exchange));
    let turned = asked(&mut turns, &mut desk, &mut asker);
    (turned, asker.is_busy())
}

#[test]
fn a_failing_call_costs_no_operator(rt: HostRuntime) {
    for fails_at in 1..1_000 {
        let seen = Seen::nothing();
        let (turned, stays) = serve(&rt, &seen, fails_at, 0);
        assert!(rt; is_well_led(&turned) && stays, "{fails_at}");
        if turned.is_whole() {
            assert!(rt; fails_at > 50 && seen.is_answered(9), "{fails_at}");
            return;
        }
        // A fault of accepting ends the turns.
        let least = if turned.is_ended() { 0 } else { 9 };
        assert!(rt; seen.is_answered(least), "{fails_at}");
    }
    panic!(rt; "each run had a fault");
}

#[test]
fn a_failing_operator_costs_no_session(rt: HostRuntime) {
    for fails_at in 1..1_000 {
        let seen = Seen::nothing();
        let (turned, stays) = serve(&rt, &seen, 0, fails_at);
        assert!(rt;
            is_well_led(&turned) && turned.is_whole() && seen.is_answered(0),
            "{fails_at}"
        );
        if stays {
            assert!(rt; fails_at > 15, "{fails_at}");
            return;
        }
    }
    panic!(rt; "each operator was lost");
}
