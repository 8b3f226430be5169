//! A turn that takes longer than a hold time ends no session whose peer keeps it alive.

use crate::made::made;
use crate::speaker_wire::{MemoryWire, prepared, with_addresses};
use clocks::paced;
use speaker::State;
use speaker_turns::SpeakerLoop;

// The hold time is 90 seconds.
const JUMP_SECONDS: u64 = 100;

// What a clock tells of which each turn takes a second, and the thirtieth so many more.
fn seconds_at(turn: u64) -> u64 {
    match turn < 30 {
        true => turn,
        false => turn.saturating_add(JUMP_SECONDS),
    }
}

// How many of the sessions of both peers stand behind 200 turns at the moments that are told.
fn standing(turns: &mut SpeakerLoop<MemoryWire>, is_paced: bool) -> (usize, u64) {
    with_addresses(turns);
    let mut moment = 0;
    for turn in 1..200u64 {
        let (before, now) = (seconds_at(turn - 1), seconds_at(turn));
        moment = match is_paced {
            true => paced(before, now, moment),
            false => now,
        };
        let _well = turns.turn(moment);
        if turn == 50 && !is_paced {
            break;
        }
    }
    let slots = [0, 1].iter();
    let speaker = turns.speaker();
    let count = slots
        .filter(|slot| speaker.session(**slot) == Some(State::Established))
        .count();
    (count, moment)
}

#[test]
fn a_long_turn_ends_no_session_that_is_kept_alive(rt: HostRuntime) {
    let wire = MemoryWire::keeping_alive();
    let mut turns = made(&rt, SpeakerLoop::new(rt.alloc(), wire, prepared(&rt)));
    assert!(rt; standing(&mut turns, true) == (2, 299));
}

#[test]
fn at_the_moments_of_the_clock_it_would_end_both(rt: HostRuntime) {
    let wire = MemoryWire::keeping_alive();
    let mut turns = made(&rt, SpeakerLoop::new(rt.alloc(), wire, prepared(&rt)));
    assert!(rt; standing(&mut turns, false) == (0, 150));
}
