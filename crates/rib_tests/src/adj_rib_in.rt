//! A refused growth of the routes that came, and withdrawals, for which no request is made.
ghost use Rattle.rib_tests.specs.Addressed.{AreAddressed};
ghost use Rattle.decision.specs.BookContents.{offer_at};

use crate::given::{is_filled_at_last, prefix_of};
use bgp_attr::{Attrs, PeerKind, read_attrs};
use decision::PlainBook;
use loc_rib::Ribs;
use net_prefix::{Asn, Prefix};
use refusing::Refusing;
use std::alloc::Allocator;
use std::process::Abort;
use std::rc::Rc;

// ORIGIN IGP, AS_PATH 65001, and NEXT_HOP 192.0.2.1.
const ATTRIBUTES: [u8; 20] = [
    0x40, 1, 1, 0, 0x40, 2, 6, 2, 1, 0, 0, 0xfd, 0xe9, 0x40, 3, 4, 192, 0, 2, 1,
];

// The attributes, to be shared by routes.
fn shared<A: Allocator + Clone>(rt: &impl Abort, alloc: A) -> Rc<Attrs<A>, A> {
    let Ok(attrs) = read_attrs(&alloc, &ATTRIBUTES, PeerKind::External(Asn(65001))) else {
        panic!(rt; "the attributes are good");
    };
    match Rc::new(alloc, attrs) {
        Ok(shared) => shared,
        Err(_) => panic!(rt; "no memory"),
    }
}

// The table, in which no route makes a candidate.
type Table<A> = Ribs<A, PlainBook<A>>;

// Announces a route that makes no candidate. Answers whether it was taken.
fn announce<A: Allocator + Clone>(
    rt: &impl Abort,
    table: &mut Table<A>,
    attrs: &Rc<Attrs<A>, A>,
    slot: u8,
    prefix: Prefix,
) -> bool
    requires { AreAddressed (offer_at table.old.book) }
    ensures { AreAddressed (offer_at table.new.book) }
{
    match attrs.clone() {
        Ok(attrs) => table.announce(slot, prefix, attrs, None).is_ok(),
        Err(_) => panic!(rt; "too many clones"),
    }
}

// Withdraws the routes of a slot, as where its session ends: few enough here for so many turns.
fn end_session<A: Allocator + Clone>(ribs: &mut Table<A>, slot: u8) {
    let mut after = None;
    for _turn in 0..64u32 {
        let Some(prefix) = ribs.slot_prefix_after(slot, after) else {
            return;
        };
        ribs.withdraw(slot, prefix);
        after = Some(prefix);
    }
}

fn count_routes<A: Allocator + Clone>(table: &Table<A>, slot: u8) -> u32 {
    let mut count = 0u32;
    for _ in table.routes_of(slot) {
        count = count.saturating_add(1);
    }
    count
}

// Whether a route that was refused for want of memory isn't there, and so many others are.
fn is_left<A: Allocator + Clone>(table: &Table<A>, slot: u8, prefix: Prefix, before: u32) -> bool {
    let kept = count_routes(table, 0).saturating_add(count_routes(table, 1));
    table.route(slot, prefix).is_none() && kept == before
}

// Announces a route, and again where a growth is refused, behind so many others. Answers whether one was.
fn is_announced_again<A: Allocator + Clone>(
    rt: &impl Abort,
    table: &mut Table<A>,
    attrs: &Rc<Attrs<A>, A>,
    route: (u8, Prefix),
    before: u32,
) -> bool
    requires { AreAddressed (offer_at table.old.book) }
    ensures { AreAddressed (offer_at table.new.book) }
{
    let (slot, prefix) = route;
    if announce(rt, table, attrs, slot, prefix) {
        return false;
    }
    assert!(rt; is_left(table, slot, prefix, before));
    assert!(rt; announce(rt, table, attrs, slot, prefix));
    true
}

// Fills the table, and asks again where a growth is refused. Answers how often one was.
fn fill<A: Allocator + Clone>(rt: &impl Abort, table: &mut Table<A>, attrs: &Rc<Attrs<A>, A>) -> u32
    requires { AreAddressed (offer_at table.old.book) }
{
    let mut refused = 0u32;
    for number in 0..64u32 {
        // Two routes to each prefix, the one of the higher slot first.
        let slot = 1 - number as u8 % 2;
        let prefix = prefix_of(rt, number / 2 * 256, 24);
        if is_announced_again(rt, table, attrs, (slot, prefix), number) {
            refused = refused.saturating_add(1);
        }
    }
    take_out(rt, table);
    refused
}

// Takes a route out, and then all of both slots, for which no request is made: it would be refused unseen in some run.
fn take_out<A: Allocator + Clone>(rt: &impl Abort, table: &mut Table<A>) {
    table.withdraw(0, prefix_of(rt, 0, 24));
    assert!(rt; count_routes(table, 0) == 31 && count_routes(table, 1) == 32);
    end_session(table, 0);
    end_session(table, 1);
    assert!(rt; count_routes(table, 0) == 0 && count_routes(table, 1) == 0);
}

// Fills a table from one heap with routes from another. Answers how often a growth was refused.
fn refusals_in<A: Allocator + Clone>(rt: &impl Abort, heap: A, ample: A) -> u32 {
    let attrs = shared(rt, ample);
    match Ribs::new(heap) {
        Ok(mut table) => fill(rt, &mut table, &attrs),
        Err(_) => 1,
    }
}

#[test]
fn a_refused_growth_leaves_the_table(rt: HostRuntime) {
    let ample = Refusing::new(rt.alloc(), u64::MAX);
    assert!(rt; is_filled_at_last(rt.alloc(), |heap| refusals_in(&rt, heap, &ample)));
}
