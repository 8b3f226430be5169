//! A refused growth of the places of a prefix's candidates.
ghost use Rattle.std.specs.Prelude.{◌≤◌};

use decision::{Book, PlainBook};
use refusing::Refusing;
use std::alloc::{Allocator, Global};
use std::process::Abort;

// Makes a place, and asks again where a growth is refused. Answers whether one was.
fn is_made_again<A: Allocator + Clone, B: Book<A>>(
    rt: &impl Abort,
    book: &mut B,
    slot: u8,
) -> bool {
    let refused = book.add(slot).is_err();
    if refused {
        assert!(rt; book.best().is_none() && book.add(slot).is_ok());
    }
    refused
}

// Makes some places, and asks again where a growth is refused. Answers how often one was.
fn fill<A: Allocator + Clone, B: Book<A>>(rt: &impl Abort, book: &mut B) -> u32 {
    let mut refused = 0u32;
    for slot in 0..64u8 {
        if is_made_again(rt, book, slot) {
            refused = refused.saturating_add(1);
        }
    }
    refused
}

// Fills a book from a heap that refuses the nth request. Answers whether it did.
fn is_filled(rt: &impl Abort, alloc: Global, nth: u64) -> bool
    requires { 1 ≤ nth }
{
    let heap = Refusing::new(alloc, nth);
    let Ok(mut book) = PlainBook::of(&&heap, 1) else {
        return heap.has_refused();
    };
    let refused = fill(rt, &mut book);
    let left = heap.has_refused();
    if !left {
        assert!(rt; refused == 0);
    }
    left
}

#[test]
fn a_refused_place_is_asked_for_again(rt: HostRuntime) {
    let mut left = true;
    for nth in 1..1_000u64 {
        left = is_filled(&rt, rt.alloc(), nth);
        if !left {
            break;
        }
    }
    assert!(rt; !left);
}
