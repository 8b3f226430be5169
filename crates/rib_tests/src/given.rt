//! What several files of tests make.

use net_prefix::Prefix;
use refusing::Refusing;
use std::alloc::Global;
use std::process::Abort;

/// The prefix of these bits and this length, which is one.
pub fn prefix_of(rt: &impl Abort, bits: u32, len: u8) -> Prefix {
    match Prefix::new(bits, len) {
        Ok(prefix) => prefix,
        Err(_) => panic!(rt; "no prefix"),
    }
}

/// Fills a table from heaps of which each refuses a later request, until one refuses none, and answers whether one did.
/// `fill` answers how often a growth was refused: once where a request is.
pub fn is_filled_at_last<F: Fn(&Refusing<Global>) -> u32>(alloc: Global, fill: F) -> bool
    requires { F.IsAlwaysCallable fill }
{
    for nth in 1..1_000u64 {
        let heap = Refusing::new(alloc, nth);
        let refused = fill(&heap);
        if refused != u32::from(heap.has_refused()) {
            return false;
        }
        if refused == 0 {
            return true;
        }
    }
    false
}
