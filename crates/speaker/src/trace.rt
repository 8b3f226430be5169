//! A list of events, played on a new speaker.
ghost use Rattle.std.specs.Prelude.{◌≡◌, ◌⊎◌, ◌↔◌, ◌≤◌, [], true, length, vec_capacity, vec_len, IfErr, IfOk};
ghost use Rattle.runs.specs.Played.{IsPlayed};
ghost use Rattle.runs.specs.SpeakerState.{is_out_of_range};
ghost use Rattle.runs.specs.declared.config.Config.{Config as TheConfig};

use crate::step::{Speaker, is_out_of_range};
use bgp_conf::Refusal;
use decision::Book;
use live_book::LiveBook;
use runs::{Config, Event, Report};
use std::alloc::{Allocator, Global};

/// The answers to a list of events, and the speaker after them.
#[derive(Drop)]
pub struct Trace<A: Allocator + Clone = Global, B: Book<A> = LiveBook<A>> {
    /// The answer to each event, in order.
    pub answers: Vec<Result<Report, Refusal>, A>,
    pub speaker: Speaker<A, B>,
}

/// Plays events on a new speaker. Refused as `Speaker::new` is, and by 44.
pub fn run<A: Allocator + Clone + Copy, B: Book<A>>(
    alloc: A,
    config: Config,
    events: &[Event<'_>],
) -> Result<Trace<A, B>, Refusal>
    // The answers lead to a run that the speaker agrees with; each event that is refused is answered by its first refusal
    // after the run so far.
    ensures played { IfOk result (λ trace. IsPlayed config events.now trace.answers.items trace.speaker) }
    // 33 is the answer exactly where the settings are out of range.
    ensures range { (result ≡ Err Refusal.Range) ↔ (is_out_of_range config ≡ true) }
    ensures err { IfErr result (λ why. (why ≡ Refusal.Range) ⊎ (why ≡ Refusal.NoMemory)) }
{
    if is_out_of_range(&config) {
        return Err(Refusal::Range);
    }
    // Room for all answers is made first, so that a speaker that has taken events isn't lost for want of it.
    let Ok(answers) = Vec::with_capacity(alloc, events.len()) else {
        return Err(Refusal::NoMemory);
    };
    match Speaker::<A, B>::new(alloc, config) {
        Ok(speaker) => Ok(played(speaker, answers, events)),
        Err(refusal) => Err(refusal),
    }
}

// The same on this speaker, with room for all answers.
fn played<A: Allocator + Clone, B: Book<A>>(
    mut speaker: Speaker<A, B>,
    mut answers: Vec<Result<Report, Refusal>, A>,
    events: &[Event<'_>],
) -> Trace<A, B>
    requires none { answers.items ≡ [] }
    requires empty { vec_len answers ≡ 0 }
    requires room { length events.now ≤ vec_capacity answers }
    ensures { (config : TheConfig) → IsPlayed config [] [] speaker → IsPlayed config events.now result.answers.items result.speaker }
{
    play(&mut speaker, &mut answers, events);
    Trace { answers, speaker }
}

// Plays events in their order, each answer behind those before it, for which there is room.
fn play<A: Allocator + Clone, B: Book<A>>(
    speaker: &mut Speaker<A, B>,
    answers: &mut Vec<Result<Report, Refusal>, A>,
    events: &[Event<'_>],
)
    requires none { answers.old.items ≡ [] }
    requires empty { vec_len answers.old ≡ 0 }
    requires room { length events.now ≤ vec_capacity answers.old }
    ensures { (config : TheConfig) → IsPlayed config [] [] speaker.old → IsPlayed config events.now answers.new.items speaker.new }
{
    for event in events {
        let answer = speaker.step(*event);
        answers.push_reserved(answer);
    }
}
