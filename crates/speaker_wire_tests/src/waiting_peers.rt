//! Peers that wait until the session with the cache is synced, for a moment, or until an operator decides, and sessions that an
//! operator has begin again.

use crate::made::made;
use crate::speaker_wire::{MemoryWire, prepared, with_addresses};
use control_lines::Operators;
use operator_stages::{Asker, Line, Question, Seen};
use speaker::{ClientState, Command, State};
use speaker_desk::{Desk, Exchange, Gate};
use speaker_turns::SpeakerLoop;
use std::alloc::AllocGlobal;
use std::process::Abort;
use wires::Wire;

// The last moment at which they wait, and the first at which they go.
const LAST: u64 = 99;

const FIRST: u64 = 100;

const QUESTION: Question = Question {
    line: b"disable 1\n",
    beginning: b"ok",
    end: b"\n",
};

const CLEAR: Question = Question {
    line: b"clear 0\n",
    ..QUESTION
};

const DISABLE: Question = Question {
    line: b"disable 0\n",
    ..QUESTION
};

// A NOTIFICATION without data.
const NOTIFICATION_OCTETS: u64 = 21;

// Both peers are disabled, and wait.
fn held(rt: &(impl AllocGlobal + Abort)) -> (SpeakerLoop<MemoryWire>, Gate) {
    let wire = MemoryWire::failing_at(0);
    let mut turns = made(rt, SpeakerLoop::new(rt.alloc(), wire, prepared(rt)));
    with_addresses(&mut turns);
    let mut slots = Vec::new(rt.alloc());
    for slot in 0..2 {
        made(rt, turns.obey(Command::Disable(slot)));
        made(rt, slots.push(slot));
    }
    (turns, Gate::new(slots, FIRST))
}

// Whether the sessions of both peers are Idle.
fn are_idle(turns: &SpeakerLoop<MemoryWire>) -> bool {
    let speaker = turns.speaker();
    speaker.session(0) == Some(State::Idle) && speaker.session(1) == Some(State::Idle)
}

#[test]
fn they_wait_until_the_cache_is_synced(rt: HostRuntime) {
    let (mut turns, gate) = held(&rt);
    let exchange = Exchange::new(rt.alloc());
    let mut desk = made(&rt, Desk::new(rt.alloc(), &[], gate, &exchange));
    for turn in 0..20 {
        made(&rt, turns.turn(0));
        let is_synced = turns.speaker().cache_session() == Some(ClientState::Synced);
        desk.let_through(&mut turns, 0);
        assert!(rt; are_idle(&turns) != is_synced, "{turn}");
        if is_synced {
            return;
        }
    }
    panic!(rt; "the cache was never synced");
}

#[test]
fn they_wait_until_a_moment(rt: HostRuntime) {
    let (mut turns, gate) = held(&rt);
    let exchange = Exchange::new(rt.alloc());
    let mut desk = made(&rt, Desk::new(rt.alloc(), &[], gate, &exchange));
    desk.let_through(&mut turns, LAST);
    assert!(rt; are_idle(&turns));
    desk.let_through(&mut turns, FIRST);
    assert!(rt; turns.speaker().session(0) == Some(State::Active));
    assert!(rt; turns.speaker().session(1) == Some(State::Connect));
}

#[test]
fn an_operator_decides(rt: HostRuntime) {
    let (mut turns, gate) = held(&rt);
    let exchange = Exchange::new(rt.alloc());
    let mut desk = made(&rt, Desk::new(rt.alloc(), &[], gate, &exchange));
    let seen = Seen::nothing();
    let mut asker = made(
        &rt,
        Asker::at(rt.alloc(), Line::failing_at(QUESTION, &seen, 0)),
    );
    for _ in 0..4 {
        asker.turn(0);
        desk.attend(&mut turns, &mut asker, 0);
    }
    assert!(rt; seen.is_answered(1) && exchange.take().len() > 0);
    desk.let_through(&mut turns, FIRST);
    assert!(rt; turns.speaker().session(0) == Some(State::Active));
    assert!(rt; turns.speaker().session(1) == Some(State::Idle));
}

// An operator asks this between two turns.
fn ask(
    rt: &(impl AllocGlobal + Abort),
    turns: &mut SpeakerLoop<MemoryWire>,
    desk: &mut Desk<'_>,
    question: Question,
) {
    let seen = Seen::nothing();
    let mut asker = made(
        rt,
        Asker::at(rt.alloc(), Line::failing_at(question, &seen, 0)),
    );
    for _ in 0..4 {
        asker.turn(0);
        desk.attend(turns, &mut asker, 0);
    }
    assert!(rt; seen.is_answered(1));
}

// The state of a session that stood, once these were asked and twenty turns are taken at the same moment, and how many octets
// went in them.
fn behind_questions(
    rt: &(impl AllocGlobal + Abort),
    questions: &[Question],
) -> (Option<State>, u64) {
    let wire = MemoryWire::failing_at(0);
    let mut turns = made(rt, SpeakerLoop::new(rt.alloc(), wire, prepared(rt)));
    with_addresses(&mut turns);
    let gate = Gate::new(Vec::new(rt.alloc()), 0);
    let exchange = Exchange::new(rt.alloc());
    let mut desk = made(rt, Desk::new(rt.alloc(), &[], gate, &exchange));
    take_turns(rt, &mut turns, &mut desk);
    assert!(rt; turns.speaker().session(0) == Some(State::Established));
    let before = turns.wire().octets_out();
    for question in questions {
        ask(rt, &mut turns, &mut desk, *question);
        assert!(rt; turns.speaker().session(0) == Some(State::Idle));
    }
    take_turns(rt, &mut turns, &mut desk);
    let behind = turns.wire().octets_out();
    (turns.speaker().session(0), behind.saturating_sub(before))
}

// Takes twenty turns at the moment 0.
fn take_turns(rt: &impl Abort, turns: &mut SpeakerLoop<MemoryWire>, desk: &mut Desk<'_>) {
    for _ in 0..20 {
        made(rt, turns.turn(0));
        desk.begin_again(turns);
    }
}

// Its peer is told why it ends, and it begins again without waiting, unless the peer is disabled meanwhile.
#[test]
fn a_cleared_session_begins_again(rt: HostRuntime) {
    let rows: [(&[Question], State); 3] = [
        (&[CLEAR], State::Active),
        (&[CLEAR, CLEAR], State::Active),
        (&[CLEAR, DISABLE], State::Idle),
    ];
    for (questions, state) in &rows {
        let told = behind_questions(&rt, questions);
        assert!(rt; told == (Some(*state), NOTIFICATION_OCTETS));
    }
}
