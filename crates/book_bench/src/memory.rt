//! Only a new place takes memory: with each request refused in turn, a book whose places are all made asks for none.
ghost use Rattle.std.specs.Prelude.{All};
ghost use Rattle.book_bench.specs.Addressed.{IsSound};

use crate::changes::{change, fill};
use crate::given::leave;
use crate::plan::{Kind, Plan, What};
use decision::{Book, Meter, PlainBook};
use live_book::LiveBook;
use refusing::Refusing;
use std::alloc::{Allocator, Global};

// More than the places of the plan ask for.
const REQUESTS: u64 = 40;

const PLAN: Plan = Plan {
    kind: Kind::Live,
    prefixes: 2,
    candidates: 4,
    neighbors: 2,
    what: What::Best,
    changes: 12,
};

// The plan with other changes.
const BY_MED: Plan = Plan {
    what: What::Med,
    ..PLAN
};

// The slot leaves the book of the prefix with this index.
fn leave_at<A: Allocator + Clone, B: Book<A>>(
    books: &mut Vec<B, A>,
    index: usize,
    meter: &mut Meter,
    slot: u8,
)
    requires { All (λ b. IsSound (B.kept b)) books.old.items }
    ensures { All (λ b. IsSound (B.kept b)) books.new.items }
{
    if let Some(book) = books.get_mut(index) {
        leave(book, meter, slot);
    }
}

// The slots leave both prefixes, the best one first.
fn leave_all<A: Allocator + Clone, B: Book<A>>(books: &mut Vec<B, A>, meter: &mut Meter)
    requires { All (λ b. IsSound (B.kept b)) books.old.items }
{
    for slot in 0..4 {
        leave_at(books, 0, meter, slot);
        leave_at(books, 1, meter, slot);
    }
}

// Whether the request was one for a place or a book, or none was made besides: behind the places come changes, places that
// are there, and slots that leave.
fn asks_for_places_alone<'a, B: Book<&'a Refusing<Global>>>(heap: &'a Refusing<Global>) -> bool {
    let mut books: Vec<B, &Refusing<Global>> = Vec::new(heap);
    let mut meter = Meter::new();
    if fill(&heap, &mut books, &mut meter, &PLAN).is_err() {
        return heap.has_refused();
    }
    let changed = change(&mut books, &mut meter, &PLAN).is_ok()
        && change(&mut books, &mut meter, &BY_MED).is_ok();
    leave_all(&mut books, &mut meter);
    changed && !heap.has_refused()
}

#[test]
fn only_a_new_place_takes_memory(rt: HostRuntime) {
    for nth in 1..REQUESTS {
        let heap = Refusing::new(rt.alloc(), nth);
        assert!(rt; asks_for_places_alone::<LiveBook<&Refusing<Global>>>(&heap));
    }
}

#[test]
fn only_a_new_place_of_a_plain_book_does(rt: HostRuntime) {
    for nth in 1..REQUESTS {
        let heap = Refusing::new(rt.alloc(), nth);
        assert!(rt; asks_for_places_alone::<PlainBook<&Refusing<Global>>>(&heap));
    }
}
