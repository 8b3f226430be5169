//! Payloads that a response says, one after another.
ghost use Rattle.std.specs.Prelude.{◌≡◌, ◌∷◌, [], IfSome, IfNone};
ghost use Rattle.std.specs.Rc.{rc_slice_items};

use net_prefix::Vrp;
use std::alloc::{Allocator, Global};
use std::marker::Model;
use std::rc::RcSlice;

/// What is still to be said of a list of payloads. The list is shared by all responses that say it; how many of its
/// payloads were said is each one's own.
#[derive(Drop)]
pub struct UnsaidPayloads<A: Allocator = Global> {
    list: RcSlice<Vrp, A>,
    said: usize,
}

impl<A: Allocator> Model for UnsaidPayloads<A> {
    ghost use Rattle.std.specs.Prelude.{List, drop};
    ghost use Rattle.std.specs.Rc.{rc_slice_items};
    ghost use Rattle.net_prefix.specs.declared.payload.Vrp.{Vrp};

    ghost Value = { List Vrp };

    ghost view = { λ u. drop u.said (rc_slice_items u.list) };
}

impl<A: Allocator> UnsaidPayloads<A> {
    /// Nothing of the list was said.
    pub fn of_list(list: RcSlice<Vrp, A>) -> Self
        ensures { result ≡ rc_slice_items list }
    {
        UnsaidPayloads { list, said: 0 }
    }

    /// Takes the next payload out of what is still to be said.
    pub fn next(&mut self) -> Option<Vrp>
        ensures first { IfSome result (λ payload. self.old ≡ payload ∷ self.new) }
        ensures none { IfNone result ((self.old ≡ []) × (self.new ≡ [])) }
    {
        let payload = *self.list.get(self.said)?;
        self.said += 1;
        Some(payload)
    }
}
