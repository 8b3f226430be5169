//! Both books side by side, and the candidates that they were given.
ghost use Rattle.std.specs.Prelude.{◌≡◌, IfSome};
ghost use Rattle.book_bench.specs.Addressed.{IsOwn, IsSound};
ghost use Rattle.decision.specs.Selection.{AreDistinct};

use arrayvec::ArrayVec;
use decision::{Book, Candidate, Change, Meter, PlainBook, choose};
use live_book::LiveBook;
use std::alloc::{AllocError, Allocator};
use std::process::Abort;

/// A book without a candidate.
pub fn plain_book<A: Allocator + Clone>(rt: &impl Abort, alloc: A) -> PlainBook<A>
    ensures { IsSound result }
{
    match PlainBook::of(&alloc, 0) {
        Ok(book) => book,
        Err(_) => panic!(rt; "no memory"),
    }
}

/// A book without a candidate that keeps the best of each neighbor AS.
pub fn live_book<A: Allocator + Clone>(rt: &impl Abort, alloc: A) -> LiveBook<A>
    ensures { IsSound result }
{
    match LiveBook::of(&alloc, 0) {
        Ok(book) => book,
        Err(_) => panic!(rt; "no memory"),
    }
}

/// What the books have counted, and the candidates that they were given, by slot.
#[derive(Drop)]
pub struct Given {
    pub plain: Meter,
    pub live: Meter,
    pub offers: [Option<Candidate>; 64],
}

impl Given {
    pub fn new() -> Given {
        Given {
            plain: Meter::new(),
            live: Meter::new(),
            offers: [None; 64],
        }
    }

    /// The slot's candidate from now on, or that it has none.
    pub fn note(&mut self, change: Change) {
        let slot = usize::from(change.slot);
        if slot < 64 {
            self.offers[slot] = change.candidate;
        }
    }

    /// The selection of all candidates, and as many choices in both books.
    pub fn agrees(&self, plain: Option<Candidate>, live: Option<Candidate>) -> bool {
        let mut meter = Meter::new();
        let best = choose(&mut meter, &candidates(&self.offers));
        plain == best && live == best && self.plain.count() == self.live.count()
    }
}

// The candidate, if it has this address.
fn of_address(offer: Option<Candidate>, address: u32) -> Option<Candidate>
    ensures { IfSome result (λ c. c.address ≡ address) }
{
    match offer {
        Some(candidate) if candidate.address == address => Some(candidate),
        _ => None,
    }
}

// The candidates that have their slots for addresses.
fn candidates(offers: &[Option<Candidate>; 64]) -> ArrayVec<Candidate, 64>
    ensures { AreDistinct result.items }
{
    let mut candidates = ArrayVec::new();
    for slot in 0..64u32 {
        if let Some(candidate) = of_address(offers[slot as usize], slot) {
            candidates.push(candidate);
        }
    }
    candidates
}

/// Both changes are made in one call.
pub fn offer_two<A: Allocator + Clone, B: Book<A>>(
    book: &mut B,
    meter: &mut Meter,
    first: Change,
    second: Change,
) -> Result<(), AllocError>
    requires addressed { IsSound (B.kept book.old) }
    requires first { IsOwn first }
    requires second { IsOwn second }
    ensures { IsSound (B.kept book.new) }
{
    book.add(first.slot)?;
    book.add(second.slot)?;
    book.change(meter, &[first, second]);
    Ok(())
}

/// The slot leaves the prefix.
pub fn leave<A: Allocator + Clone, B: Book<A>>(book: &mut B, meter: &mut Meter, slot: u8)
    requires { IsSound (B.kept book.old) }
    ensures { IsSound (B.kept book.new) }
{
    book.leave(meter, slot);
}
