//! Changes that are drawn, over both books and the selection anew.
ghost use Rattle.book_bench.specs.Addressed.{IsOwn, IsSound};

use crate::books::offer;
use crate::drawn::{Generator, draw};
use crate::given::{Given, leave, live_book, offer_two, plain_book};
use decision::{Book, Change};
use std::alloc::{Allocator, Global};
use std::process::Abort;

// A change of one of the first slots: it gets a candidate, or has none.
fn drawn_change(generator: &mut Generator, slots: u8) -> Change
    ensures { IsOwn result }
{
    let slot = generator.below(slots);
    if generator.below(4) == 0 {
        return Change {
            slot,
            candidate: None,
        };
    }
    let candidate = draw(generator, slot);
    Change {
        slot,
        candidate: Some(candidate),
    }
}

// One change, in both books.
fn comes<A: Allocator + Clone, P: Book<A>, L: Book<A>>(
    rt: &impl Abort,
    plain: &mut P,
    live: &mut L,
    given: &mut Given,
    change: Change,
)
    requires plain { IsSound (P.kept plain.old) }
    requires live { IsSound (L.kept live.old) }
    requires own { IsOwn change }
    ensures plain { IsSound (P.kept plain.new) }
    ensures live { IsSound (L.kept live.new) }
{
    assert!(rt; offer(plain, &mut given.plain, change).is_ok());
    assert!(rt; offer(live, &mut given.live, change).is_ok());
    given.note(change);
}

// Two changes at once, in both books.
fn both_come<A: Allocator + Clone, P: Book<A>, L: Book<A>>(
    rt: &impl Abort,
    plain: &mut P,
    live: &mut L,
    given: &mut Given,
    changes: (Change, Change),
)
    requires plain { IsSound (P.kept plain.old) }
    requires live { IsSound (L.kept live.old) }
    requires first { IsOwn changes.0 }
    requires second { IsOwn changes.1 }
    ensures plain { IsSound (P.kept plain.new) }
    ensures live { IsSound (L.kept live.new) }
{
    assert!(rt; offer_two(plain, &mut given.plain, changes.0, changes.1).is_ok());
    assert!(rt; offer_two(live, &mut given.live, changes.0, changes.1).is_ok());
    given.note(changes.0);
    given.note(changes.1);
}

// A slot leaves both books.
fn leaves<A: Allocator + Clone, P: Book<A>, L: Book<A>>(
    plain: &mut P,
    live: &mut L,
    given: &mut Given,
    slot: u8,
)
    requires plain { IsSound (P.kept plain.old) }
    requires live { IsSound (L.kept live.old) }
    ensures plain { IsSound (P.kept plain.new) }
    ensures live { IsSound (L.kept live.new) }
{
    leave(plain, &mut given.plain, slot);
    leave(live, &mut given.live, slot);
    given.note(Change {
        slot,
        candidate: None,
    });
}

// A call that is drawn: a slot leaves, two change at once, one gets what it has, or one changes.
fn turn<A: Allocator + Clone, P: Book<A>, L: Book<A>>(
    rt: &impl Abort,
    generator: &mut Generator,
    plain: &mut P,
    live: &mut L,
    given: &mut Given,
    slots: u8,
)
    requires plain { IsSound (P.kept plain.old) }
    requires live { IsSound (L.kept live.old) }
    ensures plain { IsSound (P.kept plain.new) }
    ensures live { IsSound (L.kept live.new) }
{
    let change = drawn_change(generator, slots);
    match generator.below(16) {
        0 => leaves(plain, live, given, change.slot),
        1 | 2 => {
            let other = drawn_change(generator, slots);
            both_come(rt, plain, live, given, (change, other));
        }
        3 => {
            comes(rt, plain, live, given, change);
            comes(rt, plain, live, given, change);
        }
        _ => comes(rt, plain, live, given, change),
    }
}

// Some calls, after each of which both books have what the selection leaves.
fn turns<A: Allocator + Clone, P: Book<A>, L: Book<A>>(
    rt: &impl Abort,
    plain: &mut P,
    live: &mut L,
    slots: u8,
    calls: u32,
)
    requires plain { IsSound (P.kept plain.old) }
    requires live { IsSound (L.kept live.old) }
{
    let mut generator = Generator::new();
    let mut given = Given::new();
    for _call in 0..calls {
        turn(rt, &mut generator, plain, live, &mut given, slots);
        assert!(rt; given.agrees(plain.best(), live.best()));
    }
}

// These calls over two books without a candidate.
fn run(rt: &impl Abort, alloc: Global, slots: u8, calls: u32) {
    let mut plain = plain_book(rt, alloc);
    let mut live = live_book(rt, alloc);
    turns(rt, &mut plain, &mut live, slots, calls);
}

#[test]
fn both_books_choose_alike(rt: HostRuntime) {
    run(&rt, rt.alloc(), 2, 10_000);
    run(&rt, rt.alloc(), 5, 30_000);
    run(&rt, rt.alloc(), 12, 30_000);
    run(&rt, rt.alloc(), 64, 30_000);
}
