//! For tests: an allocator that refuses one request.
//!
//! `Refusing` asks the heap behind it for every block but the nth, which it refuses, and takes every block back. So a
//! test has each growth of a run refused in turn: n is 1, 2, .., until a run ends before the nth request. A list that
//! grows makes one request. A list that is made of an iterator asks again for less where it is refused room for all;
//! one `Refusing` over another of the same n refuses that too, since the second sees what the first passes on.
//!
//! What a cell holds no contract can say: `counted` says which request is refused, and `has_refused` tells a test that
//! it was made.
#![tactic(auto)]

ghost use Rattle.std.specs.Prelude.{◌≡◌, ◌≤◌, ℕ, suc, IfSome};
ghost use Rattle.refusing.specs.Requests.{is_nth, left_of, was_made};

use std::alloc::{AllocError, Allocator};
use std::cell::Cell;

/// An allocator that refuses its nth request, and asks the heap behind it for every other.
#[derive(Drop)]
pub struct Refusing<B> {
    heap: B,
    // How many requests are left up to the nth.
    left: Cell<u64>,
}

impl<B> Refusing<B> {
    /// Refuses the nth request; the first one is 1.
    pub fn new(heap: B, nth: u64) -> Self
        requires { 1 ≤ nth }
        ensures { result.heap ≡ heap }
    {
        Refusing {
            heap,
            left: Cell::new(nth),
        }
    }

    /// Whether the nth request was made, and so refused.
    pub fn has_refused(&self) -> bool {
        is_over(self.left.get())
    }

    // Counts a request, and lends the heap that it goes to. The nth one goes to none.
    fn granted(&self) -> Option<&B>
        ensures { IfSome result (λ heap. heap.now ≡ self.now.heap) }
    {
        let (refused, left) = counted(self.left.get());
        self.left.set(left);
        if refused { None } else { Some(&self.heap) }
    }
}

unsafe impl<B: Allocator> Allocator for Refusing<B> {
    ghost dealloc_token = { λ refusing ty ptr. B.dealloc_token refusing.heap ty ptr };

    fn allocate(&self, size: usize, align: usize) -> Result<*mut u8, AllocError> {
        match self.granted() {
            Some(heap) => heap.allocate(size, align),
            None => Err(AllocError),
        }
    }

    unsafe fn deallocate(&self, ptr: *mut u8, size: usize, align: usize) {
        self.heap.deallocate(ptr, size, align);
    }
}

// Whether the next request is the nth, and how many are left up to the nth behind it.
fn counted(left: u64) -> (bool, u64)
    ensures refused { (nth made : ℕ) → left ≡ left_of nth made → result.0 ≡ is_nth nth made }
    ensures left { (nth made : ℕ) → left ≡ left_of nth made → result.1 ≡ left_of nth (suc made) }
{
    (left == 1, left.saturating_sub(1))
}

// Whether the nth request was made.
fn is_over(left: u64) -> bool
    ensures { (nth made : ℕ) → left ≡ left_of nth made → result ≡ was_made nth made }
{
    left == 0
}

#[cfg(test)]
mod tests;
