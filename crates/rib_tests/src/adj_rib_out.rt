//! A refused growth of what a peer holds, and attributes that are changed alike.
ghost use Rattle.std.specs.Prelude.{◌≤◌, ◌<◌};

use crate::given::{is_filled_at_last, prefix_of};
use arrayvec::ArrayVec;
use bgp_attr::Attrs;
use decision::PlainBook;
use export_rules::Rewrite;
use holdings::{RecentRewrite, SentAttributes};
use loc_rib::Ribs;
use net_prefix::{Asn, Prefix};
use refusing::Refusing;
use std::alloc::{AllocError, Allocator, Global};
use std::process::Abort;
use std::rc::Rc;

// The octets of a local network's attributes as they are sent from 127.0.0.1 to a peer in another AS by AS 64,500, with this
// MULTI_EXIT_DISC (RFC 4271 section 4.3).
const fn octets_of(med: u8) -> [u8; 27] {
    [
        0x40, 1, 1, 0, // ORIGIN: IGP
        0x40, 2, 6, 2, 1, 0, 0, 0xfb, 0xf4, // AS_PATH: 64,500
        0x40, 3, 4, 127, 0, 0, 1, // NEXT_HOP
        0x80, 4, 4, 0, 0, 0, med, // MULTI_EXIT_DISC
    ]
}

// How they are changed.
fn with_med(med: u8) -> Rewrite {
    Rewrite::External {
        own: Asn(64_500),
        times: 1,
        local: 0x7f00_0001,
        med: Some(u32::from(med)),
    }
}

// The attributes of a local network.
fn originated<A: Allocator + Clone>(alloc: A) -> Result<Rc<Attrs<A>, A>, AllocError> {
    let attrs = Attrs::originated(alloc.clone()?);
    Ok(Rc::new(alloc, attrs)?)
}

// These, as they are sent.
fn sent<A: Allocator + Clone>(
    recent: &mut RecentRewrite<A>,
    attrs: &Rc<Attrs<A>, A>,
    med: u8,
) -> Result<SentAttributes<A>, AllocError> {
    let rewrite = with_med(med);
    let mut octets = ArrayVec::new();
    if !rewrite.write(attrs, &mut octets) {
        return Err(AllocError);
    }
    recent.sent(attrs, rewrite)
}

// The table, in which there are no routes.
type Table<A> = Ribs<A, PlainBook<A>>;

// Announces a prefix to the peer of slot 0. Answers whether it was taken.
fn announce<A: Allocator + Clone>(
    table: &mut Table<A>,
    prefix: Prefix,
    sent: &SentAttributes<A>,
) -> bool {
    let prefixes = [prefix];
    table.announce_sent(0, &prefixes, sent).is_ok()
}

// Whether the slot's peer holds so many prefixes, each with this MULTI_EXIT_DISC.
fn holds_so_many<A: Allocator + Clone>(table: &Table<A>, slot: u8, med: u8, count: u32) -> bool
    requires { slot < 64 }
{
    let octets = octets_of(med);
    let mut held = 0u32;
    for (_, sent) in table.adj_out(slot).held() {
        if !sent.are(&octets) {
            return false;
        }
        held = held.saturating_add(1);
    }
    held == count
}

// Announces a prefix, and again where a growth is refused, behind so many others. Answers whether one was.
fn is_announced_again<A: Allocator + Clone>(
    rt: &impl Abort,
    table: &mut Table<A>,
    sent: &SentAttributes<A>,
    prefix: Prefix,
    before: u32,
) -> bool {
    let refused = !announce(table, prefix, sent);
    if refused {
        assert!(rt; !table.adj_out(0).is_held(prefix) && holds_so_many(table, 0, 7, before));
        assert!(rt; announce(table, prefix, sent));
    }
    refused
}

// Tells the peer of slot 0 prefixes with the same attributes one by one, and asks again where a growth is refused. Answers how
// often one was.
fn fill<A: Allocator + Clone>(
    rt: &impl Abort,
    table: &mut Table<A>,
    sent: &SentAttributes<A>,
) -> u32 {
    let mut refused = 0u32;
    for number in 0..64u32 {
        let prefix = prefix_of(rt, number * 256, 24);
        if is_announced_again(rt, table, sent, prefix, number) {
            refused = refused.saturating_add(1);
        }
    }
    refused
}

// The attributes of a local network with this MULTI_EXIT_DISC, from an allocator.
fn sent_from<A: Allocator + Clone>(alloc: A, med: u8) -> Result<SentAttributes<A>, AllocError> {
    let attrs = originated(alloc.clone()?)?;
    sent(&mut RecentRewrite::new(alloc), &attrs, med)
}

// The prefixes that `fill` fills a table with, and half as many more.
fn more_prefixes(rt: &impl Abort, alloc: Global) -> Result<Vec<Prefix>, AllocError> {
    let mut prefixes = Vec::new(alloc);
    for number in 0..96u32 {
        prefixes.push(prefix_of(rt, number * 256, 24))?;
    }
    Ok(prefixes)
}

// Tells all of these 96 prefixes with 8 for MULTI_EXIT_DISC to a slot's peer that holds so many with 7, and again where a growth
// is refused. Answers how often one was.
fn tell_all<A: Allocator + Clone>(
    rt: &impl Abort,
    table: &mut Table<A>,
    slot: u8,
    prefixes: &[Prefix],
    sent: &SentAttributes<A>,
    before: u32,
) -> u32
    requires { slot < 64 }
{
    let least = prefix_of(rt, 0, 24);
    let was_asked = table.adj_out(slot).is_asked(least);
    let refused = table.announce_sent(slot, prefixes, sent).is_err();
    if refused {
        assert!(rt; holds_so_many(table, slot, 7, before));
        assert!(rt; table.adj_out(slot).is_asked(least) == was_asked);
        assert!(rt; table.announce_sent(slot, prefixes, sent).is_ok());
    }
    assert!(rt; holds_so_many(table, slot, 8, 96) && !table.adj_out(slot).is_asked(least));
    u32::from(refused)
}

// Fills the table, and tells both peers of more: the one of slot 1, which holds nothing, and that of slot 0, which has asked for
// all again. Answers how often a growth was refused.
fn refusals_told<A: Allocator + Clone>(
    rt: &impl Abort,
    table: &mut Table<A>,
    prefixes: &[Prefix],
    first: &SentAttributes<A>,
    last: &SentAttributes<A>,
) -> u32 {
    let filling = fill(rt, table, first);
    table.ask_sent(0);
    let other = tell_all(rt, table, 1, prefixes, last, 0);
    assert!(rt; holds_so_many(table, 0, 7, 64) && table.adj_out(0).is_asked(prefix_of(rt, 0, 24)));
    let own = tell_all(rt, table, 0, prefixes, last, 64);
    filling.saturating_add(other).saturating_add(own)
}

// The same from the heap.
fn refusals_all(rt: &impl Abort, heap: &Refusing<Global>, prefixes: &[Prefix]) -> u32 {
    let Ok(first) = sent_from(heap, 7) else {
        return 1;
    };
    let Ok(last) = sent_from(heap, 8) else {
        return 1;
    };
    let Ok(mut table) = Ribs::new(heap) else {
        return 1;
    };
    refusals_told(rt, &mut table, prefixes, &first, &last)
}

#[test]
fn all_prefixes_of_an_update_are_told_or_none(rt: HostRuntime) {
    let Ok(prefixes) = more_prefixes(&rt, rt.alloc()) else {
        panic!(rt; "no memory");
    };
    assert!(rt;
        is_filled_at_last(
            rt.alloc(),
            |heap| refusals_all(&rt, heap, prefixes.as_slice())
        )
    );
}

// Asks a heap that refuses the nth request. Answers whether the attributes found memory, and how they were changed first. Then
// those that are changed alike take none, and others do.
fn is_shared(rt: &impl Abort, alloc: Global, nth: u64) -> bool
    requires { 1 ≤ nth }
{
    let heap = Refusing::new(alloc, nth);
    let mut recent = RecentRewrite::new(&heap);
    let Ok(attrs) = originated(&heap) else {
        return false;
    };
    if sent(&mut recent, &attrs, 7).is_err() || heap.has_refused() {
        return false;
    }
    assert!(rt; sent(&mut recent, &attrs, 7).is_ok() && sent(&mut recent, &attrs, 8).is_err());
    assert!(rt; heap.has_refused());
    true
}

// Whether it is so with one of the first requests.
fn is_ever<F: Fn(u32) -> bool>(is_so: F) -> bool
    requires { F.IsAlwaysCallable is_so }
{
    for before in 0..1_000 {
        if is_so(before) {
            return true;
        }
    }
    false
}

// One more request than all that the first attributes ask for is the next one.
#[test]
fn attributes_that_are_changed_alike_share_it(rt: HostRuntime) {
    assert!(rt; is_ever(|before| is_shared(&rt, rt.alloc(), u64::from(before) + 1)));
}
