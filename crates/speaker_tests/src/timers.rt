//! The timers of each slot's peer, and the first ones of the cache session, run as long as they are to.
use crate::bare::{self, Look};
use crate::events::{CONFIG, FIRST_PEER, KEEPALIVE, SECOND_PEER};
use speaker::{
    CACHE_RETRY_SECONDS, Command, Config, Event, Mode, PeerConf, PeerTimers, Refusal, Report,
    SlotTimers, Speaker,
};
use std::alloc::Allocator;

// The timers of the peer of slot 1.
const SHORT: PeerTimers = PeerTimers {
    connect_retry: 7,
    idle_hold: 3,
};

const FIRST_ACTIVE: PeerConf<'static> = PeerConf {
    mode: Mode::Active,
    ..FIRST_PEER
};

const SECOND_ACTIVE: PeerConf<'static> = PeerConf {
    mode: Mode::Active,
    ..SECOND_PEER
};

// What comes: both peers are enabled at 100. No connection of slot 1's comes up until 114; that one is closed by a message that
// isn't awaited.
const EVENTS: [Event<'static>; 16] = [
    Event::Tick(100),
    Event::Command(Command::AddPeer(0, FIRST_ACTIVE)),
    Event::Command(Command::AddPeer(1, SECOND_ACTIVE)),
    Event::Command(Command::Enable(0)),
    Event::Command(Command::Enable(1)),
    Event::Tick(106),
    Event::Tick(107),
    Event::Fail(1),
    Event::Tick(113),
    Event::Tick(114),
    Event::Up(1),
    Event::Bytes(1, &KEEPALIVE),
    Event::Fail(1),
    Event::Tick(116),
    Event::Tick(117),
    Event::Tick(220),
];

// The slots whose connection attempt begins by each of them, a bit each: at 220 both retry.
const OPENED: [u64; 16] = [0, 0, 0, 1, 2, 0, 2, 0, 0, 2, 0, 0, 0, 0, 2, 3];

// A Cache Response of session 7, and an End of Data of serial 9 with the intervals 3600, 100 and 7200.
#[rattlefmt::skip]
const LOAD: [u8; 32] = [
    1, 3, 0, 7, 0, 0, 0, 8,
    1, 7, 0, 7, 0, 0, 0, 24, 0, 0, 0, 9, 0, 0, 0x0e, 0x10, 0, 0, 0, 100, 0, 0, 0x1c, 0x20,
];

// What comes to a cache session that waits for 5 s at first: an attempt at a connection fails at 0, and at 5 one comes up that
// brings the cache's own interval, and fails.
const CACHE_EVENTS: [Event<'static>; 8] = [
    Event::CacheFail,
    Event::Tick(4),
    Event::Tick(5),
    Event::CacheUp,
    Event::CacheBytes(&LOAD),
    Event::CacheFail,
    Event::Tick(104),
    Event::Tick(105),
];

// Whether an attempt of it begins by each of them.
const CACHE_OPENED: [bool; 8] = [false, false, true, false, false, false, false, true];

struct CacheOpens;

impl Look for CacheOpens {
    type Answer = bool;

    fn look<A: Allocator + Clone>(
        &self,
        answers: &[Result<Report, Refusal>],
        _speaker: &Speaker<A>,
    ) -> bool {
        are_opened_to_the_cache(answers)
    }
}

fn are_opened_to_the_cache(answers: &[Result<Report, Refusal>]) -> bool {
    answers.len() == CACHE_OPENED.len()
        && answers.iter().zip(CACHE_OPENED.iter()).all(|(answer, opened)| match answer {
            Ok(report) => report.cache_opened == *opened,
            Err(_) => false,
        })
}

fn is_cache_as_told<A: Allocator + Clone + Copy>(heap: A, config: Config) -> bool {
    match bare::on_run(heap, config, &CACHE_EVENTS, &CacheOpens) {
        Ok(is_so) => is_so,
        Err(_) => false,
    }
}

struct Opens;

impl Look for Opens {
    type Answer = bool;

    fn look<A: Allocator + Clone>(
        &self,
        answers: &[Result<Report, Refusal>],
        _speaker: &Speaker<A>,
    ) -> bool {
        are_opened(answers)
    }
}

fn are_opened(answers: &[Result<Report, Refusal>]) -> bool {
    answers.len() == OPENED.len()
        && answers.iter().zip(OPENED.iter()).all(|(answer, opened)| match answer {
            Ok(report) => report.opened == *opened,
            Err(_) => false,
        })
}

fn is_as_told<A: Allocator + Clone + Copy>(heap: A, config: Config) -> bool {
    match bare::on_run(heap, config, &EVENTS, &Opens) {
        Ok(is_so) => is_so,
        Err(_) => false,
    }
}

fn is_refused<A: Allocator + Clone + Copy>(heap: A, config: Config) -> bool {
    match bare::on_run(heap, config, &EVENTS, &Opens) {
        Ok(_) => false,
        Err(why) => why == Refusal::Range,
    }
}

#[test]
fn each_slot_has_its_timers(rt: HostRuntime) {
    let config = Config {
        timers: SlotTimers::USUAL.with_slot(1, SHORT),
        ..CONFIG
    };
    assert!(rt; is_as_told(rt.alloc(), config));
    assert!(rt; !is_as_told(rt.alloc(), CONFIG));
}

#[test]
fn a_timer_of_0_is_refused(rt: HostRuntime) {
    let none = PeerTimers {
        idle_hold: 0,
        ..SHORT
    };
    let config = Config {
        timers: SlotTimers::USUAL.with_slot(63, none),
        ..CONFIG
    };
    assert!(rt; is_refused(rt.alloc(), config));
}

// With a cache session that waits for so many seconds at first.
fn with_retry(cache_retry: u32) -> Config {
    Config {
        cache: true,
        cache_retry,
        ..CONFIG
    }
}

#[test]
fn the_cache_session_has_its_first_retry(rt: HostRuntime) {
    assert!(rt; is_cache_as_told(rt.alloc(), with_retry(5)));
    assert!(rt; !is_cache_as_told(rt.alloc(), with_retry(CACHE_RETRY_SECONDS)));
}

#[test]
fn a_first_retry_is_from_1_to_7200(rt: HostRuntime) {
    for (cache_retry, is_out) in &[(0, true), (1, false), (7_200, false), (7_201, true)] {
        assert!(rt;
            is_refused(rt.alloc(), with_retry(*cache_retry)) == *is_out,
            "{cache_retry}"
        );
    }
}
