//! Three routes of which each beats one other: the best one changes where another one is withdrawn.
ghost use Rattle.std.specs.Prelude.{◌≡◌};
ghost use Rattle.book_bench.specs.Addressed.{IsOwn, IsSound};

use crate::books::offer;
use crate::given::{live_book, plain_book};
use bgp_attr::Origin;
use decision::{Book, Candidate, Change, Meter};
use net_prefix::Asn;
use origin_valid::Validity;
use std::alloc::Allocator;
use std::process::Abort;

// A route by this neighbor AS. Its peer's address is the slot.
fn route(slot: u8, neighbor: u32, med: Option<u32>, identifier: u32) -> Candidate
    ensures slot { result.slot ≡ slot }
    ensures address { result.address ≡ slot }
{
    Candidate {
        slot,
        degree: 100,
        path_length: 1,
        origin: Origin::Igp,
        neighbor: Asn(neighbor),
        med,
        external: true,
        cost: 0,
        identifier,
        address: u32::from(slot),
        validity: Validity::NotFound,
    }
}

// The slot has this candidate from now on, or none. Then the best one is of this slot.
fn turns<A: Allocator + Clone, B: Book<A>>(
    rt: &impl Abort,
    book: &mut B,
    change: Change,
    best: Option<u8>,
)
    requires addressed { IsSound (B.kept book.old) }
    requires own { IsOwn change }
    ensures { IsSound (B.kept book.new) }
{
    let mut meter = Meter::new();
    assert!(rt; offer(book, &mut meter, change).is_ok());
    let slot = match book.best() {
        Some(best) => Some(best.slot),
        None => None,
    };
    assert!(rt; slot == best);
}

// It comes.
fn comes(slot: u8, neighbor: u32, med: Option<u32>, identifier: u32) -> Change
    ensures { IsOwn result }
{
    let candidate = route(slot, neighbor, med, identifier);
    Change {
        slot,
        candidate: Some(candidate),
    }
}

// It goes.
fn goes(slot: u8) -> Change
    ensures { IsOwn result }
{
    Change {
        slot,
        candidate: None,
    }
}

// A and B by one neighbor AS, where B has the lower MED, and C by another one. By the identifiers A comes before C and C
// before B.
fn turn_by_turn<A: Allocator + Clone, B: Book<A>>(rt: &impl Abort, book: &mut B)
    requires { IsSound (B.kept book.old) }
{
    turns(rt, book, comes(3, 65002, None, 2), Some(3));
    turns(rt, book, comes(1, 65001, Some(20), 1), Some(1));
    turns(rt, book, comes(2, 65001, Some(10), 3), Some(3));

    // B, which wasn't the best, goes and comes again.
    turns(rt, book, goes(2), Some(1));
    turns(rt, book, comes(2, 65001, Some(10), 3), Some(3));

    // A missing MED counts as 0, so A is left of its neighbor AS then.
    turns(rt, book, comes(1, 65001, None, 1), Some(1));
    turns(rt, book, comes(1, 65001, Some(20), 1), Some(3));

    // C goes, which was the best.
    turns(rt, book, goes(3), Some(2));
    turns(rt, book, goes(2), Some(1));
    turns(rt, book, goes(1), None);
}

#[test]
fn the_winner_falls_behind_a_withdrawal(rt: HostRuntime) {
    let mut plain = plain_book(&rt, rt.alloc());
    turn_by_turn(&rt, &mut plain);
    let mut live = live_book(&rt, rt.alloc());
    turn_by_turn(&rt, &mut live);
}
