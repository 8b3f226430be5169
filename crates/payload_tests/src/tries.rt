//! A trie: how far it looks for what covers a prefix, which call takes memory, and that it stays as it was where a growth is
//! refused.
ghost use Rattle.std.specs.Iterator.{IsFinite};

use crate::sets::requests_of;
use net_prefix::Prefix;
use prefix_trie::Trie;
use refusing::Refusing;
use std::alloc::Allocator;
use std::process::Abort;

// A prefix, and its value.
type Entry = (Prefix, u64);

// In the order of prefixes.
#[rattlefmt::skip]
const ENTRIES: [Entry; 6] = [
    (Prefix { bits: 0x0000_0000, len: 0 },  16),
    (Prefix { bits: 0x0a00_0000, len: 8 },   1),
    (Prefix { bits: 0x0a00_0000, len: 16 },  4),
    (Prefix { bits: 0x0a01_0000, len: 16 },  8),
    (Prefix { bits: 0x0a80_0000, len: 9 },   2),
    (Prefix { bits: 0xc000_0200, len: 24 }, 32),
];

// Whether each entry is put in, the last one first.
fn fills(trie: &mut Trie<u64>) -> bool {
    for (prefix, value) in ENTRIES.iter().rev() {
        if trie.insert(*prefix, *value).is_err() {
            return false;
        }
    }
    true
}

const TOP: Prefix = Prefix {
    bits: 0x0a00_0000,
    len: 8,
};

const MISSING: Prefix = Prefix {
    bits: 0x0b00_0000,
    len: 8,
};

// Gives the prefix this value, if it is there.
fn is_given<A: Allocator + Clone>(trie: &mut Trie<u64, A>, prefix: &Prefix, new: u64) -> bool {
    trie.update(prefix, |value: &mut u64| *value = new)
}

// Whether just these of the entries are still to come.
fn comes<'a, I: Iterator<Item = (Prefix, &'a u64)>>(mut entries: I, expected: &[Entry]) -> bool
    requires { I.can_next entries × IsFinite (I.remaining entries) }
{
    for (prefix, value) in expected {
        if entries.next() != Some((*prefix, value)) {
            return false;
        }
    }
    entries.next().is_none()
}

// Whether the prefix covers just these of the trie.
fn covers<A: Allocator>(trie: &Trie<u64, A>, prefix: &Prefix, expected: &[Entry]) -> bool {
    comes(trie.covered(prefix), expected)
}

// The entries that cover 10.1.1.0/24.
#[rattlefmt::skip]
const COVERING: [Entry; 3] = [
    (Prefix { bits: 0x0000_0000, len: 0 },  16),
    (Prefix { bits: 0x0a00_0000, len: 8 },   1),
    (Prefix { bits: 0x0a01_0000, len: 16 },  8),
];

const COVERED: Prefix = Prefix {
    bits: 0x0a01_0100,
    len: 24,
};

// Whether what covers a prefix comes, and how many nodes are looked at meanwhile.
fn is_covered(trie: &Trie<u64>, prefix: &Prefix) -> bool {
    let mut covering = trie.covering(prefix);
    if covering.visited() != 0 {
        return false;
    }
    for (prefix, value) in &COVERING {
        if covering.next() != Some((*prefix, value)) {
            return false;
        }
    }
    covering.next().is_none() && 3 <= covering.visited() && covering.visited() <= 33
}

#[test]
fn what_covers_a_prefix_comes_shortest_first(rt: HostRuntime) {
    let mut trie = Trie::new(rt.alloc());
    assert!(rt; fills(&mut trie) && is_covered(&trie, &COVERED));
}

// In this order each is put at another place: into nothing, over what is in its lower half, behind and before all
// that is there, over what is in its upper half, below a node, and at a node that had no value.
#[rattlefmt::skip]
const GROWING: [Entry; 7] = [
    (Prefix { bits: 0x0a00_0000, len: 16 },  1),
    (Prefix { bits: 0x0a00_0000, len: 8 },   2),
    (Prefix { bits: 0xc000_0200, len: 24 },  4),
    (Prefix { bits: 0x0900_0000, len: 8 },   8),
    (Prefix { bits: 0x8000_0000, len: 1 },  16),
    (Prefix { bits: 0x0a40_0000, len: 16 }, 32),
    (Prefix { bits: 0x0000_0000, len: 0 },  64),
];

// How many requests for memory that takes.
const REQUESTS: u64 = 9;

// Whether the trie has just these.
fn has_just<A: Allocator>(trie: &Trie<u64, A>, entries: &[Entry]) -> bool {
    for (prefix, value) in entries {
        if trie.get(prefix) != Some(value) {
            return false;
        }
    }
    trie.len() == entries.len() && trie.iter().count() == entries.len()
}

// Puts an entry in, behind these, and again where a growth is refused. Answers whether one was.
fn is_put_again<A: Allocator + Clone>(
    rt: &impl Abort,
    trie: &mut Trie<u64, A>,
    entry: &Entry,
    before: &[Entry],
) -> bool {
    let (prefix, value) = *entry;
    let Err(failed) = trie.insert(prefix, value) else {
        return false;
    };
    assert!(rt; failed.value == value && has_just(trie, before));
    assert!(rt; matches!(trie.insert(prefix, value), Ok(None)));
    true
}

// Puts each in, and again where a growth is refused. Answers how often one was.
fn put_all<A: Allocator + Clone>(rt: &impl Abort, trie: &mut Trie<u64, A>) -> u32 {
    let mut refused = 0u32;
    for (at, entry) in GROWING.iter().enumerate() {
        if is_put_again(rt, trie, entry, &GROWING[..at]) {
            refused = refused.saturating_add(1);
        }
    }
    assert!(rt; has_just(trie, &GROWING));
    refused
}

// Fills the trie, and answers how often a growth was refused.
fn refusals_in<A: Allocator + Clone>(rt: &impl Abort, mut trie: Trie<u64, A>) -> u32 {
    put_all(rt, &mut trie)
}

#[test]
fn a_refused_growth_leaves_the_trie(rt: HostRuntime) {
    let requests = requests_of(&rt, rt.alloc(), |heap| refusals_in(&rt, Trie::new(heap)));
    assert!(rt; requests == Some(REQUESTS));
}

// The entries of GROWING in the order of prefixes.
#[rattlefmt::skip]
const RISING: [Entry; 7] = [
    (Prefix { bits: 0x0000_0000, len: 0 },  64),
    (Prefix { bits: 0x0900_0000, len: 8 },   8),
    (Prefix { bits: 0x0a00_0000, len: 8 },   2),
    (Prefix { bits: 0x0a00_0000, len: 16 },  1),
    (Prefix { bits: 0x0a40_0000, len: 16 }, 32),
    (Prefix { bits: 0x8000_0000, len: 1 },  16),
    (Prefix { bits: 0xc000_0200, len: 24 },  4),
];

// Those that cover the address 10.0.0.1.
#[rattlefmt::skip]
const COVERING_HOST: [Entry; 3] = [
    (Prefix { bits: 0x0000_0000, len: 0 },  64),
    (Prefix { bits: 0x0a00_0000, len: 8 },   2),
    (Prefix { bits: 0x0a00_0000, len: 16 },  1),
];

const HOST: Prefix = Prefix {
    bits: 0x0a00_0001,
    len: 32,
};

// Whether each call that goes over the trie finds them.
fn finds_all<A: Allocator>(trie: &Trie<u64, A>) -> bool {
    comes(trie.iter(), &RISING)
        && covers(trie, &TOP, &RISING[2..5])
        && comes(trie.covering(&HOST), &COVERING_HOST)
}

// Whether each call that looks for one finds it.
fn finds_each<A: Allocator>(trie: &Trie<u64, A>) -> bool {
    has_just(trie, &RISING) && trie.after(Some(TOP)) == Some(RISING[3].0)
}

// What the calls leave that put no new prefix in.
#[rattlefmt::skip]
const LEFT: [Entry; 5] = [
    (Prefix { bits: 0x0000_0000, len: 0 },   64),
    (Prefix { bits: 0x0900_0000, len: 8 },  128),
    (Prefix { bits: 0x0a40_0000, len: 16 },  32),
    (Prefix { bits: 0x8000_0000, len: 1 },  256),
    (Prefix { bits: 0xc000_0200, len: 24 },   4),
];

// Whether each of those calls answers right.
fn changes_what_is_there<A: Allocator + Clone>(trie: &mut Trie<u64, A>) -> bool {
    let is_changed = is_given(trie, &LEFT[1].0, 128) && !is_given(trie, &MISSING, 128);
    let is_replaced = matches!(trie.insert(LEFT[3].0, 256), Ok(Some(16)));
    is_changed && is_replaced && takes_two_out(trie) && comes(trie.iter(), &LEFT)
}

// Whether two entries are taken out, and another one isn't there.
fn takes_two_out<A: Allocator + Clone>(trie: &mut Trie<u64, A>) -> bool {
    trie.remove(&TOP) == Some(2)
        && trie.remove(&RISING[3].0) == Some(1)
        && trie.remove(&MISSING).is_none()
}

// Makes each call that is to take no memory. Answers whether each is right.
fn takes_no_memory<A: Allocator + Clone>(rt: &impl Abort, trie: &mut Trie<u64, A>) -> bool {
    let is_filled = put_all(rt, trie) == 0;
    is_filled && finds_all(trie) && finds_each(trie) && changes_what_is_there(trie)
}

// Whether a new prefix is refused, and leaves the others.
fn is_refused<A: Allocator + Clone>(trie: &mut Trie<u64, A>) -> bool {
    match trie.insert(MISSING, 512) {
        Ok(_) => false,
        Err(failed) => failed.value == 512 && comes(trie.iter(), &LEFT),
    }
}

// Fills the trie, makes each call that is to take no memory, and puts a new prefix in, which the heap has to refuse.
fn asks_for_one<B, A: Allocator + Clone>(
    rt: &impl Abort,
    heap: &Refusing<B>,
    mut trie: Trie<u64, A>,
) {
    assert!(rt; takes_no_memory(rt, &mut trie) && !heap.has_refused());
    assert!(rt; is_refused(&mut trie) && heap.has_refused());
}

// The first request behind those of GROWING is refused, whichever call makes it.
#[test]
fn only_an_insert_of_a_new_prefix_takes_memory(rt: HostRuntime) {
    let heap = Refusing::new(rt.alloc(), REQUESTS + 1);
    asks_for_one(&rt, &heap, Trie::new(&heap));
}
