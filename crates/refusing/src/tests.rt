//! The nth request is refused, and no other.
use crate::Refusing;
use std::alloc::{AllocError, Allocator, Global};
use std::process::Abort;
use std::test::Fail;

fn has_room<A: Allocator>(alloc: A) -> bool {
    Box::new(alloc, 7u64).is_ok()
}

#[test]
fn the_nth_request_alone_is_refused(rt: HostRuntime) {
    for nth in 1..=4u64 {
        let heap = Refusing::new(rt.alloc(), nth);
        for request in 1..=6u64 {
            assert_eq!(rt; heap.has_refused(), nth < request);
            assert_eq!(rt; has_room(&heap), request != nth);
        }
    }
}

// Adds octets to the list, and finds it as it was where it has no room for one more. Answers how many were refused.
fn fill<A: Allocator>(rt: &impl Abort, mut octets: Vec<u8, A>) -> u64 {
    let mut refused = 0u64;
    for octet in 0..100u8 {
        if octets.push(octet).is_err() {
            refused = refused.saturating_add(1);
            assert_eq!(rt; octets.last().copied(), octet.checked_sub(1));
            assert!(rt; octets.push(octet).is_ok());
        }
    }
    assert!(rt; octets.iter().copied().eq(0..100u8));
    refused
}

#[test]
fn a_list_that_grows_makes_one_request(rt: HostRuntime) {
    let mut growths = 0u64;
    for nth in 1..=20u64 {
        let heap = Refusing::new(rt.alloc(), nth);
        let refused = fill(&rt, Vec::new(&heap));
        assert_eq!(rt; refused, u64::from(heap.has_refused()));
        growths = growths.saturating_add(refused);
    }
    assert!(rt; 2 < growths && growths < 20);
}
