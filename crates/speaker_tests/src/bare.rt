//! The calls of a speaker, each in a function that says nothing of it. What is known of a call is of no use to a test,
//! and makes the proof of each function dear that makes the call.
use net_prefix::Transport;
use speaker::{BestRoute, Config, Event, Refusal, Report, Speaker, State, Trace};
use std::alloc::Allocator;

/// What is looked at behind a run.
pub trait Look {
    type Answer: Drop;

    fn look<A: Allocator + Clone>(
        &self,
        answers: &[Result<Report, Refusal>],
        speaker: &Speaker<A>,
    ) -> Self::Answer;
}

/// Plays the events by `run`, and looks at what that makes.
pub fn on_run<A: Allocator + Clone + Copy, L: Look>(
    alloc: A,
    config: Config,
    events: &[Event<'_>],
    look: &L,
) -> Result<L::Answer, Refusal> {
    lend(run(alloc, config, events), |trace| look_at(trace, look))
}

// Lends what was made to the work. Only here is a speaker owned, and let go: what has many parts makes each way out dear of
// a function that owns it and knows them.
fn lend<T: Drop, R: Drop, W: FnOnce(&T) -> R>(
    made: Result<T, Refusal>,
    work: W,
) -> Result<R, Refusal>
    requires { W.IsAlwaysCallable work }
{
    match made {
        Ok(owned) => Ok(work(&owned)),
        Err(why) => Err(why),
    }
}

fn look_at<A: Allocator + Clone, L: Look>(trace: &Trace<A>, look: &L) -> L::Answer {
    look.look(trace.answers.as_slice(), &trace.speaker)
}

fn run<A: Allocator + Clone + Copy>(
    alloc: A,
    config: Config,
    events: &[Event<'_>],
) -> Result<Trace<A>, Refusal> {
    speaker::run(alloc, config, events)
}

pub fn session<A: Allocator + Clone>(speaker: &Speaker<A>, slot: u8) -> Option<State> {
    speaker.session(slot)
}

pub fn transport<A: Allocator + Clone>(speaker: &Speaker<A>, slot: u8) -> Transport {
    speaker.transport(slot)
}

/// The first route of Loc-RIB, and whether there is another.
pub fn best_routes<A: Allocator + Clone>(speaker: &Speaker<A>) -> (Option<BestRoute>, bool) {
    let mut routes = speaker.loc_rib();
    let first = routes.next();
    (first, routes.next().is_some())
}
