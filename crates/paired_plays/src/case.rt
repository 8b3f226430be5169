//! One case: its files, and how it is played.
ghost use Rattle.std.specs.Prelude.{◌≤◌};

use crate::answers::answer;
use crate::calls::{Call, split_call};
use crate::fault::{Fault, Wrong};
use crate::pair::Pair;
use crate::play::Play;
use crate::refused::{MOST_CALLS, Met, play_on};
use crate::rows::{has_row, number_behind};
use refusing::Refusing;
use std::alloc::Global;

/// What the files of a case have.
#[derive(Clone, Copy)]
pub struct Case<'a> {
    pub script: &'a [u8],
    pub told: &'a [u8],
    pub again: &'a [u8],
    pub rows: &'a [u8],
}

impl Case<'_> {
    /// How many requests are refused; none where all are.
    pub fn most_requests(&self) -> Option<u64> {
        number_behind(self.rows, b"most ")
    }

    /// The request that is refused at this place, counted from 0. The first request is 1.
    pub fn request_at(&self, place: u64) -> u64
        ensures { 1 ≤ result }
    {
        let first = number_behind(self.rows, b"from ").unwrap_or(1);
        let step = number_behind(self.rows, b"step ").unwrap_or(1);
        first.saturating_add(place.saturating_mul(step)).max(1)
    }

    /// Whether the request behind the refused one is refused too.
    pub fn is_refused_twice(&self) -> bool {
        has_row(self.rows, b"twice")
    }
}

/// Plays the script: where no request is refused it answers what is told. The text is written over.
pub fn answers_as_told<P: Play>(
    play: &mut P,
    text: &mut Vec<u8>,
    case: Case<'_>,
) -> Result<(), Fault> {
    let mut script = case.script;
    let mut told = case.told;
    for number in 1..MOST_CALLS {
        let Some((call, behind)) = split_call(script) else {
            break;
        };
        let call = Call { number, text: call };
        told = told_behind(play, call, text, case.rows, told)?;
        script = behind;
    }
    Wrong::Short.unless(told.is_empty(), 0)
}

// What is told behind the call's answer.
fn told_behind<'a, P: Play>(
    play: &mut P,
    call: Call<'_>,
    text: &mut Vec<u8>,
    rows: &[u8],
    told: &'a [u8],
) -> Result<&'a [u8], Fault> {
    answer(play, call, text)?;
    let begins = play.opened().is_any() && !has_row(rows, b"opens");
    Wrong::Begins.unless(!begins, call.number)?;
    match told.strip_prefix(text.as_slice()) {
        Some(behind) => Ok(behind),
        None => Err(Fault::Wrong(Wrong::Otherwise, call.number)),
    }
}

/// Plays the script by both: the first, of whose requests one is refused, or none, and the other, of which none is. What the
/// refused request came to.
pub fn play_beside<P: Play, Q: Play, B>(
    alloc: Global,
    case: Case<'_>,
    tested: &mut P,
    whole: &mut Q,
    requests: &Refusing<B>,
) -> Result<Met, Fault> {
    let mut pair = Pair::of(alloc, tested, whole);
    match play_on(case, &mut pair, requests) {
        Some(met) => Ok(met),
        None => Err(pair.fault().unwrap_or(Fault::Device)),
    }
}
