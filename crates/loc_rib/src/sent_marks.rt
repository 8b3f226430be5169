//! What is known of all that a slot's peer holds.
ghost use Rattle.std.specs.Prelude.{◌≡◌, ◌<◌, ◌==◌, ◌||◌, ◌&&◌, ℕ, IsTrue, not};
ghost use Rattle.rib_out.specs.Slots.{has_slot};

use rib_out::slots;

/// Sets of slots of whose peers something is known that spares a walk over the records.
#[derive(Drop)]
pub(crate) struct SentMarks {
    // Whose peers may hold something.
    holders: u64,
    // Whose peers may have asked again for something that they hold.
    askers: u64,
    // Whose peers have asked again for each prefix that they hold.
    all_asked: u64,
}

impl SentMarks {
    /// Nobody holds anything.
    pub(crate) fn new() -> Self {
        SentMarks {
            holders: 0,
            askers: 0,
            all_asked: u64::MAX,
        }
    }

    /// Whether the slot's peer may hold something.
    pub(crate) fn may_hold(&self, slot: u8) -> bool
        ensures slot { IsTrue result → slot < 64 }
        ensures holds { result ≡ has_slot self.now.holders slot }
    {
        is_in(self.holders, slot)
    }

    /// Whether the slot's peer may have asked again for something that it holds.
    pub(crate) fn may_ask(&self, slot: u8) -> bool
        requires { slot < 64 }
        ensures { result ≡ has_slot self.now.askers slot }
    {
        slots::has(self.askers, slot)
    }

    /// Whether the slot's peer has asked again for each prefix that it holds.
    pub(crate) fn is_all_asked(&self, slot: u8) -> bool
        requires { slot < 64 }
        ensures { result ≡ has_slot self.now.all_asked slot }
    {
        slots::has(self.all_asked, slot)
    }

    /// The slot's peer holds nothing.
    pub(crate) fn clear(&mut self, slot: u8)
        requires { slot < 64 }
        ensures holders { (s : ℕ) → has_slot self.new.holders s ≡ (not (s == slot) && has_slot self.old.holders s) }
        ensures askers { (s : ℕ) → has_slot self.new.askers s ≡ (not (s == slot) && has_slot self.old.askers s) }
        ensures all_asked { (s : ℕ) → has_slot self.new.all_asked s ≡ (s == slot || has_slot self.old.all_asked s) }
    {
        self.holders = slots::without(self.holders, slot);
        self.askers = slots::without(self.askers, slot);
        self.all_asked = slots::with(self.all_asked, slot);
    }

    /// The slot's peer has asked again for each prefix that it holds.
    pub(crate) fn ask(&mut self, slot: u8)
        requires { slot < 64 }
        ensures holders { self.new.holders ≡ self.old.holders }
        ensures askers { (s : ℕ) → has_slot self.new.askers s ≡ (s == slot || has_slot self.old.askers s) }
        ensures all_asked { (s : ℕ) → has_slot self.new.all_asked s ≡ (s == slot || has_slot self.old.all_asked s) }
    {
        self.askers = slots::with(self.askers, slot);
        self.all_asked = slots::with(self.all_asked, slot);
    }

    /// The slot's peer was sent something.
    pub(crate) fn send(&mut self, slot: u8)
        requires { slot < 64 }
        ensures holders { (s : ℕ) → has_slot self.new.holders s ≡ (s == slot || has_slot self.old.holders s) }
        ensures askers { self.new.askers ≡ self.old.askers }
        ensures all_asked { (s : ℕ) → has_slot self.new.all_asked s ≡ (not (s == slot) && has_slot self.old.all_asked s) }
    {
        self.holders = slots::with(self.holders, slot);
        self.all_asked = slots::without(self.all_asked, slot);
    }
}

// Whether the number is one of the set, which has slots alone.
fn is_in(slots: u64, slot: u8) -> bool
    ensures slot { IsTrue result → slot < 64 }
    ensures has { result ≡ has_slot slots slot }
{
    slot < 64 && slots::has(slots, slot)
}
