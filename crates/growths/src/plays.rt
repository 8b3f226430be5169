//! The plays of a case: with memory, and with each request refused in turn.
ghost use Rattle.std.specs.Prelude.{◌≤◌};

use crate::lent::{lend, lend_both};
use crate::staged::Staged;
use decision::{Book, PlainBook};
use live_book::LiveBook;
use paired_plays::{
    Case, Counts, Ending, Endings, Fault, Met, Wrong, answers_as_told, play_beside,
};
use refusing::Refusing;
use std::alloc::{Allocator, Global};

// More requests than a case makes.
const MOST_REQUESTS: u64 = 10_000;

/// Plays a case; what its refused requests came to.
pub fn play_case(alloc: Global, case: Case<'_>) -> Result<Counts, Fault> {
    let mut endings = Endings::new(alloc);
    play(alloc, case, &mut endings)
}

fn play(alloc: Global, case: Case<'_>, endings: &mut Endings) -> Result<Counts, Fault> {
    play_with_memory(alloc, case)?;
    refuse_each(alloc, case, endings)?;
    endings.meet(case)?;
    Ok(endings.counts())
}

fn play_with_memory(alloc: Global, case: Case<'_>) -> Result<(), Fault> {
    play_over_book::<PlainBook>(alloc, case)?;
    play_over_book::<LiveBook>(alloc, case)
}

fn play_over_book<B: Book<Global>>(alloc: Global, case: Case<'_>) -> Result<(), Fault> {
    lend(Staged::<Global, B>::new(alloc, alloc), |stage| {
        let mut text = Vec::new(alloc);
        answers_as_told(stage, &mut text, case)
    })
}

// Refuses the requests in turn, and puts in what each came to.
fn refuse_each(alloc: Global, case: Case<'_>, endings: &mut Endings) -> Result<(), Fault> {
    let most = case.most_requests();
    for place in 0..most.unwrap_or(MOST_REQUESTS) {
        let met = refuse(alloc, case, case.request_at(place))?;
        if met.ending == Ending::Nothing {
            return Ok(());
        }
        endings.note(met)?;
    }
    Wrong::EndlessRequests.unless(most.is_some(), 0)
}

// Refuses the nth request.
fn refuse(alloc: Global, case: Case<'_>, nth: u64) -> Result<Met, Fault>
    requires { 1 ≤ nth }
{
    let heap = Refusing::new(alloc, nth);
    if case.is_refused_twice() {
        refuse_twice(alloc, case, nth, &heap)
    } else {
        play_over(alloc, case, &heap, &heap)
    }
}

// Refuses the nth of the requests that this one passes on.
fn refuse_twice(
    alloc: Global,
    case: Case<'_>,
    nth: u64,
    behind: &Refusing<Global>,
) -> Result<Met, Fault>
    requires { 1 ≤ nth }
{
    let heap = Refusing::new(behind, nth);
    play_over(alloc, case, &heap, &heap)
}

// Both runs are over stages of their own: the speaker and the cache of the first are made over this heap, and its book is a
// LiveBook, that of the other a PlainBook.
fn play_over<A: Allocator + Clone + Copy, B>(
    alloc: Global,
    case: Case<'_>,
    heap: A,
    requests: &Refusing<B>,
) -> Result<Met, Fault> {
    lend_both(
        Staged::<A, LiveBook<A>>::new(alloc, heap),
        Staged::<Global, PlainBook>::new(alloc, alloc),
        |tested, whole| { play_beside(alloc, case, tested, whole, requests) },
    )
}
