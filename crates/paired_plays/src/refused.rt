//! A script of which one request is refused, and what must be so from there on.
//!
//! The call that meets the refused request ends in one of these. It is refused, both runs show the same, and the same
//! call is answered as told when it comes again. Or it is answered as told, but says that one session was closed for
//! want of memory: that one is idle, its peer is told why, its routes have gone, and all else is as in the other run.
//! Then its peer comes again, by the lines of the case, and the rest of the script is answered as told; where the case
//! has no such lines the rest is played without that peer. In a case that is `alike` the peer is disabled, lost and
//! enabled again in both runs instead, and both then show the same and go on alike. Or the session with a cache was
//! closed: the cache is sent an Error Report, and what is in force stays. Or a client of a cache was closed, and no other:
//! it is sent an Error Report in the place of a response, comes again by the lines of the case, and has its response. Or
//! nothing shows of it: what was asked for is a help to find things soon, the call is answered as in the other run, and
//! both show the same. A view, or what has the octets for the cache handed out, meets no refused request; and at the end of a
//! run to which none was refused all views are shown, and make none.
ghost use Rattle.std.specs.Prelude.{◌≤◌};

use crate::answers::is_look;
use crate::calls::{Call, split_call};
use crate::case::Case;
use crate::endings::{Ending, INTERNAL_ERROR, ending_of, is_want_of_memory};
use crate::fault::Wrong;
use crate::lines::{Lines, number_at, row_of};
use crate::pair::Runs;
use crate::rows::{asked, asked_after, has_row, number_behind};
use crate::views::Scope;
use refusing::Refusing;

/// More calls than a script has.
pub const MOST_CALLS: u64 = 100_000;

// The end of what a peer is told that was closed for want of memory: a NOTIFICATION with Cease, Out of Resources (RFC
// 4486).
const OUT_OF_RESOURCES: &[u8] = b"FFFFFFFFFFFFFFFFFFFFFFFFFFFFFFFF0015030608\n";

/// What a refused request came to, and at which call.
#[derive(Clone, Copy)]
pub struct Met {
    pub ending: Ending,
    pub number: u64,
    // Whether a peer that was closed doesn't come again.
    is_apart: bool,
}

impl Met {
    const NOTHING: Met = Met {
        ending: Ending::Nothing,
        number: 0,
        is_apart: false,
    };
}

/// Plays the script, of which some request is refused, or none. None where something is wrong, which the runs keep.
pub fn play_on<R: Runs, B>(case: Case<'_>, runs: &mut R, requests: &Refusing<B>) -> Option<Met> {
    let mut script = case.script;
    let mut met = Met::NOTHING;
    for number in 1..MOST_CALLS {
        let Some((text, behind)) = split_call(script) else {
            return finish(runs, requests, met, number);
        };
        script = behind;
        met = play_call(case, runs, requests, met, Call { number, text })?;
        if met.ending == Ending::CacheClosed {
            return Some(met);
        }
    }
    runs.expect(false, Wrong::EndlessCalls, MOST_CALLS);
    None
}

fn play_call<R: Runs, B>(
    case: Case<'_>,
    runs: &mut R,
    requests: &Refusing<B>,
    met: Met,
    call: Call<'_>,
) -> Option<Met> {
    if !runs.play(call) {
        return None;
    }
    if met.ending == Ending::Nothing && requests.has_refused() {
        return meet(case, runs, call);
    }
    if goes_on(runs, met, call) {
        Some(met)
    } else {
        None
    }
}

fn goes_on<R: Runs>(runs: &mut R, met: Met, call: Call<'_>) -> bool {
    if !runs.play_whole(call) {
        return false;
    }
    let holds = runs.is_as_told() || is_of_other(met, call.text);
    runs.expect(holds, Wrong::Otherwise, call.number)
}

// Whether the call shows or hands out what may be another without the peer that was closed.
fn is_of_other(met: Met, call: &[u8]) -> bool {
    match met.ending {
        Ending::Closed(slot) if met.is_apart => {
            call.starts_with(b"show ")
                || call == b"chosen\n".as_slice()
                || call.starts_with(b"take ") && is_for(call, slot)
        }
        _ => false,
    }
}

// Whether the second word of a line is this slot.
fn is_for(line: &[u8], slot: u8) -> bool {
    number_at(row_of(line), 1) == Some(u64::from(slot))
}

// At the end of a script: a peer that was closed and hasn't come again is still away; and where no request was refused all is
// shown, for which none is made.
fn finish<R: Runs, B>(runs: &mut R, requests: &Refusing<B>, met: Met, number: u64) -> Option<Met> {
    let holds = match met.ending {
        Ending::Nothing => shows_without_memory(runs, requests, number),
        _ => !met.is_apart || runs.shows_alike(met.ending, Scope::End, met.number),
    };
    if holds { Some(met) } else { None }
}

// In the run in which the request behind the last one is refused, all views are asked for: none makes it.
fn shows_without_memory<R: Runs, B>(runs: &mut R, requests: &Refusing<B>, number: u64) -> bool {
    runs.shows_alike(Ending::Unseen, Scope::Whole, number)
        && runs.expect(!requests.has_refused(), Wrong::Asks, number)
}

// The first run has just met the refused request at this call, which the other hasn't played yet.
fn meet<R: Runs>(case: Case<'_>, runs: &mut R, call: Call<'_>) -> Option<Met> {
    if !runs.expect(!is_spared(call.text), Wrong::Asks, call.number) {
        return None;
    }
    match ending_of(call.text, runs.answer()) {
        Some(ending) if is_met(case, runs, call, ending) => Some(Met {
            ending,
            number: call.number,
            is_apart: !has_row(case.rows, b"alike") && is_apart(case.again, ending),
        }),
        Some(_) => None,
        None if is_unseen(runs, call) => Some(Met {
            ending: Ending::Unseen,
            number: call.number,
            is_apart: false,
        }),
        None => None,
    }
}

// Whether it is a view, or what has the octets for the cache handed out, which take no memory.
fn is_spared(call: &[u8]) -> bool {
    is_look(call) || call.starts_with(b"show ") || call.starts_with(b"rtake ")
}

// Nothing shows of the refused request.
fn is_unseen<R: Runs>(runs: &mut R, call: Call<'_>) -> bool {
    if !runs.play_whole(call) {
        return false;
    }
    let holds = runs.is_as_told();
    runs.expect(holds, Wrong::OtherwiseWhereRefused, call.number)
        && runs.shows_alike(Ending::Unseen, Scope::Whole, call.number)
}

fn is_met<R: Runs>(case: Case<'_>, runs: &mut R, call: Call<'_>, ending: Ending) -> bool {
    match ending {
        Ending::Closed(slot) => is_closed(case, runs, call, slot),
        Ending::CacheClosed => cache_is_closed(runs, call),
        Ending::ClientClosed(key) => client_is_closed(case, runs, call, key),
        _ => is_refused(case, runs, call),
    }
}

// Whether a peer was closed that doesn't come again, since no line is for it.
fn is_apart(again: &[u8], ending: Ending) -> bool {
    match ending {
        Ending::Closed(slot) => !has_line_for(again, slot),
        _ => false,
    }
}

fn has_line_for(lines: &[u8], slot: u8) -> bool {
    for line in Lines::of(lines) {
        if is_for(line, slot) {
            return true;
        }
    }
    false
}

// The call was refused: it comes again.
fn is_refused<R: Runs>(case: Case<'_>, runs: &mut R, call: Call<'_>) -> bool {
    runs.shows_alike(Ending::Refused, Scope::Whole, call.number)
        && ask(case, runs, call)
        && runs.play_whole(call)
        && is_as_told_at_last(case, runs, call)
}

// The lines that are asked behind a refused call are answered as the case says.
fn ask<R: Runs>(case: Case<'_>, runs: &mut R, call: Call<'_>) -> bool {
    for line in Lines::of(case.rows) {
        if !is_answered(row_of(line), runs, call) {
            return false;
        }
    }
    true
}

fn is_answered<R: Runs>(row: &[u8], runs: &mut R, call: Call<'_>) -> bool {
    is_told(asked(row, call.number), runs, call)
}

// The same of those that are asked behind the closing of a slot.
fn ask_after<R: Runs>(case: Case<'_>, runs: &mut R, call: Call<'_>, slot: u8) -> bool {
    for line in Lines::of(case.rows) {
        let asked = asked_after(row_of(line), call.number, slot);
        if !is_told(asked, runs, call) {
            return false;
        }
    }
    true
}

fn is_told<R: Runs>(asked: Option<(&[u8], &[u8])>, runs: &mut R, call: Call<'_>) -> bool {
    match asked {
        Some((asked, told)) => runs.play(call.with(asked)) && is_answer(runs, told, call.number),
        None => true,
    }
}

fn is_answer<R: Runs>(runs: &mut R, told: &[u8], number: u64) -> bool {
    let holds = row_of(runs.answer()) == told;
    runs.expect(holds, Wrong::OtherwiseBehind, number)
}

// A call comes until memory isn't wanting: where two requests are refused in a row, once more.
fn comes_at_last<R: Runs>(case: Case<'_>, runs: &mut R, call: Call<'_>) -> bool {
    runs.play(call) && (!is_wanting_again(case, runs) || runs.play(call))
}

fn is_wanting_again<R: Runs>(case: Case<'_>, runs: &R) -> bool {
    is_want_of_memory(runs.answer()) && has_row(case.rows, b"twice")
}

// The same, and then it is answered as in the other run.
fn is_as_told_at_last<R: Runs>(case: Case<'_>, runs: &mut R, call: Call<'_>) -> bool {
    comes_at_last(case, runs, call) && is_as_told(runs, call.number)
}

fn is_as_told<R: Runs>(runs: &mut R, number: u64) -> bool {
    let holds = runs.is_as_told();
    runs.expect(holds, Wrong::OtherwiseAgain, number)
}

// The other run plays the call too: the first has answered the same, and that something was closed.
fn is_told_and_closed<R: Runs>(runs: &mut R, call: Call<'_>, wrong: Wrong) -> bool {
    if !runs.play_whole(call) {
        return false;
    }
    let holds = runs.is_told_and_closed();
    runs.expect(holds, wrong, call.number)
}

// A peer was closed.
fn is_closed<R: Runs>(case: Case<'_>, runs: &mut R, call: Call<'_>, slot: u8) -> bool {
    is_told_and_closed(runs, call, Wrong::OtherwiseWhereClosed)
        && runs.shows_alike(Ending::Closed(slot), scope_of(case.rows), call.number)
        && runs.take_all(call, slot)
        && is_told_why(case, runs, call.number)
        && ask_after(case, runs, call, slot)
        && comes_back(case, runs, call, slot)
}

// What is compared where a peer was closed: where it comes again in both runs, all that another peer has no part in.
fn scope_of(rows: &[u8]) -> Scope {
    if has_row(rows, b"alike") {
        Scope::Received
    } else {
        Scope::Whole
    }
}

fn comes_back<R: Runs>(case: Case<'_>, runs: &mut R, call: Call<'_>, slot: u8) -> bool {
    if has_row(case.rows, b"alike") {
        runs.begin_anew(call, slot) && runs.shows_alike(Ending::Unseen, Scope::Whole, call.number)
    } else {
        comes_again(case, runs, call, slot)
    }
}

fn is_told_why<R: Runs>(case: Case<'_>, runs: &mut R, number: u64) -> bool {
    let holds = ends_by_why(runs.answer(), case.rows);
    runs.expect(holds, Wrong::PeerUntold, number)
}

// Whether octets that were handed out end by the NOTIFICATION, and are as many as the rows of the case say.
fn ends_by_why(answer: &[u8], rows: &[u8]) -> bool {
    let digits = answer.len().saturating_sub(b"out \n".len());
    let is_of_length = match number_behind(rows, b"told ") {
        Some(octets) => digits as u64 == octets.saturating_mul(2),
        None => true,
    };
    is_of_length && answer.ends_with(OUT_OF_RESOURCES)
}

// The peer that was closed comes again, by the lines that are for it.
fn comes_again<R: Runs>(case: Case<'_>, runs: &mut R, call: Call<'_>, slot: u8) -> bool {
    for line in Lines::of(case.again) {
        if is_for(line, slot) && !is_taken(runs, call.with(line)) {
            return false;
        }
    }
    true
}

fn is_taken<R: Runs>(runs: &mut R, call: Call<'_>) -> bool {
    runs.play(call) && runs.expect_answer(b"ok\n", Wrong::PeerAway, call.number)
}

// The session with the cache was closed. What is in force is what was before the call.
fn cache_is_closed<R: Runs>(runs: &mut R, call: Call<'_>) -> bool {
    runs.shows_alike(Ending::CacheClosed, Scope::Whole, call.number)
        && is_told_and_closed(runs, call, Wrong::OtherwiseWhereCacheClosed)
        && runs.play(call.with(b"rtake 65536"))
        && runs.expect_answer(INTERNAL_ERROR, Wrong::CacheUntold, call.number)
}

// A client of the cache was closed: another comes in its place, and makes the call again.
fn client_is_closed<R: Runs>(case: Case<'_>, runs: &mut R, call: Call<'_>, key: u64) -> bool {
    runs.play_whole(call)
        && runs.shows_alike(Ending::ClientClosed(key), Scope::Whole, call.number)
        && client_comes_back(case, runs, call, key)
}

fn client_comes_back<R: Runs>(case: Case<'_>, runs: &mut R, call: Call<'_>, key: u64) -> bool {
    if has_row(case.rows, b"alike") {
        runs.replace_client(call, key) && is_as_told(runs, call.number)
    } else {
        client_comes_again(case, runs, call, key) && is_as_told_at_last(case, runs, call)
    }
}

fn client_comes_again<R: Runs>(case: Case<'_>, runs: &mut R, call: Call<'_>, key: u64) -> bool {
    for line in Lines::of(case.again) {
        if !comes_at_last(case, runs, call.with(line)) || !is_granted(runs, key, call.number) {
            return false;
        }
    }
    true
}

fn is_granted<R: Runs>(runs: &mut R, key: u64, number: u64) -> bool {
    let holds = grants(runs.answer(), key);
    runs.expect(holds, Wrong::ClientAway, number)
}

// Whether a line for the client was taken, or the client has come up.
fn grants(answer: &[u8], key: u64) -> bool {
    answer == b"ok\n".as_slice()
        || answer.starts_with(b"client ") && number_at(row_of(answer), 1) == Some(key)
}
