//! Candidates that come, change and go.
ghost use Rattle.std.specs.Prelude.{◌≡◌, All, IfOk};
ghost use Rattle.book_bench.specs.Addressed.{IsOwn, IsSound};

use crate::books::offer;
use crate::plan::{Plan, What};
use bgp_attr::Origin;
use decision::{Book, Candidate, Change, Meter};
use net_prefix::Asn;
use origin_valid::Validity;
use std::alloc::{AllocError, Allocator, Global};

/// Makes the changes of the plan, and counts how often a best route was chosen in them.
pub fn measure<B: Book<Global>>(alloc: Global, plan: &Plan) -> Result<u64, AllocError> {
    let mut books: Vec<B> = Vec::new(alloc);
    let mut meter = Meter::new();
    fill(&alloc, &mut books, &mut meter, plan)?;
    let filled = meter.count();
    change(&mut books, &mut meter, plan)?;
    Ok(meter.count().saturating_sub(filled))
}

// Adds a book for each prefix.
pub(crate) fn fill<A: Allocator + Clone, B: Book<A>>(
    alloc: &A,
    books: &mut Vec<B, A>,
    meter: &mut Meter,
    plan: &Plan,
) -> Result<(), AllocError>
    requires { All (λ b. IsSound (B.kept b)) books.old.items }
    ensures { All (λ b. IsSound (B.kept b)) books.new.items }
{
    for _prefix in 0..plan.prefixes {
        let book = filled(alloc, meter, plan)?;
        books.push(book)?;
    }
    Ok(())
}

// A book with the candidates.
fn filled<A: Allocator + Clone, B: Book<A>>(
    alloc: &A,
    meter: &mut Meter,
    plan: &Plan,
) -> Result<B, AllocError>
    ensures { IfOk result (λ book. IsSound (B.kept book)) }
{
    let mut book = B::of(alloc, 0)?;
    offer_all(&mut book, meter, plan)?;
    Ok(book)
}

fn offer_all<A: Allocator + Clone, B: Book<A>>(
    book: &mut B,
    meter: &mut Meter,
    plan: &Plan,
) -> Result<(), AllocError>
    requires { IsSound (B.kept book.old) }
    ensures { IsSound (B.kept book.new) }
{
    for slot in 0..plan.candidates {
        offer(book, meter, comes(plan, slot, 0))?;
    }
    Ok(())
}

// Makes the changes, from prefix to prefix.
pub(crate) fn change<A: Allocator + Clone, B: Book<A>>(
    books: &mut Vec<B, A>,
    meter: &mut Meter,
    plan: &Plan,
) -> Result<(), AllocError>
    requires { All (λ b. IsSound (B.kept b)) books.old.items }
    ensures { All (λ b. IsSound (B.kept b)) books.new.items }
{
    for turn in 0..plan.changes {
        let prefix = turn.checked_rem(plan.prefixes).unwrap_or(0);
        let round = turn.checked_div(plan.prefixes).unwrap_or(0);
        offer_at(books, prefix as usize, meter, change_of(plan, round))?;
    }
    Ok(())
}

// Makes a change in the book of the prefix with this index.
fn offer_at<A: Allocator + Clone, B: Book<A>>(
    books: &mut Vec<B, A>,
    index: usize,
    meter: &mut Meter,
    change: Change,
) -> Result<(), AllocError>
    requires sound { All (λ b. IsSound (B.kept b)) books.old.items }
    requires own { IsOwn change }
    ensures { All (λ b. IsSound (B.kept b)) books.new.items }
{
    let Some(book) = books.get_mut(index) else {
        return Ok(());
    };
    offer(book, meter, change)
}

// What changes in this round.
fn change_of(plan: &Plan, round: u32) -> Change
    ensures { IsOwn result }
{
    let is_even = round.is_multiple_of(2);
    let last = plan.candidates.saturating_sub(1);
    match plan.what {
        What::Best if is_even => goes(0),
        What::Best => comes(plan, 0, 0),
        What::Worst if is_even => goes(last),
        What::Worst => comes(plan, last, 0),
        What::Med => comes(plan, 0, 1 + round % 2),
    }
}

// The slot has no candidate any more.
fn goes(slot: u8) -> Change
    ensures { IsOwn result }
{
    Change {
        slot,
        candidate: None,
    }
}

// The slot's candidate, by a neighbor AS that others share, with this MED. The least slot has the best one, while no MED
// sets one behind another of its AS.
fn comes(plan: &Plan, slot: u8, med: u32) -> Change
    ensures { IsOwn result }
{
    let candidate = Candidate {
        slot,
        degree: 100,
        path_length: 3,
        origin: Origin::Igp,
        neighbor: Asn(u32::from(slot.checked_rem(plan.neighbors).unwrap_or(0))),
        med: Some(med),
        external: true,
        cost: 0,
        identifier: u32::from(slot),
        address: u32::from(slot),
        validity: Validity::NotFound,
    };
    Change {
        slot,
        candidate: Some(candidate),
    }
}
