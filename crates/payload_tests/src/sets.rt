//! Sets of payloads, and runs of which a request for memory is refused.
use net_prefix::Vrp;
use refusing::Refusing;
use std::alloc::{AllocError, Allocator, Global};
use std::collections::BTreeSet;
use std::process::Abort;

pub fn set_of<A: Allocator + Clone>(
    alloc: A,
    payloads: &[Vrp],
) -> Result<BTreeSet<Vrp, A>, AllocError> {
    payloads.iter().copied().collect(alloc)
}

/// The set of these payloads, for which there is memory.
pub fn ample_set(rt: &impl Abort, alloc: Global, payloads: &[Vrp]) -> BTreeSet<Vrp> {
    match set_of(alloc, payloads) {
        Ok(set) => set,
        Err(_) => panic!(rt; "no memory"),
    }
}

/// Runs with heaps of which each refuses a later request, until one refuses none, and answers how many requests there are.
/// A run tells how often a growth was refused: once where a request is.
pub fn requests_of<F: Fn(&Refusing<Global>) -> u32>(
    rt: &impl Abort,
    alloc: Global,
    run: F,
) -> Option<u64>
    requires { F.IsAlwaysCallable run }
{
    for nth in 1..2_000u64 {
        let heap = Refusing::new(alloc, nth);
        let refused = run(&heap);
        let left = heap.has_refused();
        assert!(rt; refused == u32::from(left), "{nth}");
        if !left {
            return Some(nth - 1);
        }
    }
    None
}
