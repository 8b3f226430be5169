//! The payloads by prefix stay as they were where a growth is refused. The states of routes are in scripts.
ghost use Rattle.std.specs.Prelude.{◌≡◌, OnOk, OnErr};

use crate::sets::{ample_set, requests_of};
use net_prefix::{Asn, Prefix, Vrp};
use origin_valid::PayloadTrie;
use refusing::Refusing;
use std::alloc::{AllocError, Allocator, Global};
use std::collections::BTreeSet;
use std::process::Abort;
use vrp_delta::{Delta, Keeper};

#[rattlefmt::skip]
const PAYLOADS: [Vrp; 5] = [
    Vrp { prefix: Prefix { bits: 0x0a00_0000, len: 16 }, max_len: 16, asn: Asn(65002) },
    Vrp { prefix: Prefix { bits: 0x0a00_0000, len: 16 }, max_len: 24, asn: Asn(65001) },
    Vrp { prefix: Prefix { bits: 0x0a00_0100, len: 24 }, max_len: 24, asn: Asn(65003) },
    Vrp { prefix: Prefix { bits: 0xc000_0200, len: 24 }, max_len: 32, asn: Asn(0) },
    Vrp { prefix: Prefix { bits: 0xc633_6400, len: 24 }, max_len: 24, asn: Asn(65001) },
];

// Those that are there behind a change: among them one with another maximum length, one with another AS, and one that
// covers all of 10.0.0.0/16.
#[rattlefmt::skip]
const LATER: [Vrp; 6] = [
    Vrp { prefix: Prefix { bits: 0x0a00_0000, len: 8 },  max_len: 8,  asn: Asn(65004) },
    Vrp { prefix: Prefix { bits: 0x0a00_0000, len: 16 }, max_len: 16, asn: Asn(65001) },
    Vrp { prefix: Prefix { bits: 0x0a00_0000, len: 16 }, max_len: 16, asn: Asn(65002) },
    Vrp { prefix: Prefix { bits: 0x0a00_0100, len: 24 }, max_len: 24, asn: Asn(65002) },
    Vrp { prefix: Prefix { bits: 0x0a00_0100, len: 24 }, max_len: 24, asn: Asn(65003) },
    Vrp { prefix: Prefix { bits: 0xc633_6400, len: 24 }, max_len: 24, asn: Asn(65001) },
];

// How many requests for memory the payloads and the change take: one for each place in the trie where a prefix stands
// or two part, and one for the second payload of a prefix.
const REQUESTS: u64 = 9;

// Makes the change from one set to another.
fn follow<A: Allocator + Clone>(
    trie: &mut PayloadTrie<A>,
    old: &BTreeSet<Vrp>,
    new: &BTreeSet<Vrp>,
) -> Result<(), AllocError>
    requires { trie.old ≡ old.now.keys }
    ensures ok { OnOk result (trie.new ≡ new.now.keys) }
    ensures err { OnErr result (trie.new ≡ old.now.keys) }
{
    let _ = (old.len(), new.len());
    let delta = Delta::between(old, new)?;
    trie.change(&delta)
}

// Whether of all these payloads just those of the set are kept.
fn has_just<A: Allocator>(trie: &PayloadTrie<A>, set: &BTreeSet<Vrp>, payloads: &[Vrp]) -> bool {
    for payload in payloads {
        if trie.contains(payload) != set.contains(payload) {
            return false;
        }
    }
    true
}

// Whether of all payloads just those of the set are kept.
fn is_of<A: Allocator>(trie: &PayloadTrie<A>, set: &BTreeSet<Vrp>) -> bool {
    has_just(trie, set, &PAYLOADS) && has_just(trie, set, &LATER)
}

// Makes the change, and again where a growth is refused, which leaves the payloads. Answers how often one was.
fn refusals_of<A: Allocator + Clone>(
    rt: &impl Abort,
    trie: &mut PayloadTrie<A>,
    old: &BTreeSet<Vrp>,
    new: &BTreeSet<Vrp>,
) -> u32
    requires { trie.old ≡ old.now.keys }
    ensures { trie.new ≡ new.now.keys }
{
    let refused = follow(trie, old, new).is_err();
    if refused {
        assert!(rt; is_of(trie, old));
        if follow(trie, old, new).is_err() {
            panic!(rt; "no memory");
        }
    }
    assert!(rt; is_of(trie, new));
    u32::from(refused)
}

// Fills the trie and changes it, and answers how often a growth was refused.
fn refusals_in<A: Allocator + Clone>(
    rt: &impl Abort,
    mut trie: PayloadTrie<A>,
    none: &BTreeSet<Vrp>,
    all: &BTreeSet<Vrp>,
    later: &BTreeSet<Vrp>,
) -> u32
    requires { trie ≡ none.now.keys }
{
    let first = refusals_of(rt, &mut trie, none, all);
    let second = refusals_of(rt, &mut trie, all, later);
    first.saturating_add(second)
}

// Fills a trie from the heap and changes it.
fn refusals_from(
    rt: &impl Abort,
    alloc: Global,
    heap: &Refusing<Global>,
    all: &BTreeSet<Vrp>,
    later: &BTreeSet<Vrp>,
) -> u32 {
    let none = BTreeSet::new(alloc);
    refusals_in(rt, PayloadTrie::new(heap), &none, all, later)
}

#[test]
fn a_refused_growth_leaves_the_payloads(rt: HostRuntime) {
    let all = ample_set(&rt, rt.alloc(), &PAYLOADS);
    let later = ample_set(&rt, rt.alloc(), &LATER);
    let requests = requests_of(&rt, rt.alloc(), |heap| {
        refusals_from(&rt, rt.alloc(), heap, &all, &later)
    });
    assert!(rt; requests == Some(REQUESTS));
}
