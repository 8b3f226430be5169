//! Sets of slots, as numbers with a bit a slot.
ghost use Rattle.std.specs.Prelude.{◌≡◌, ◌<◌, ◌^◌, ℕ, ◌==◌, ◌||◌, ◌&&◌, not};
ghost use Rattle.rib_out.specs.Slots.{has_slot};

/// How many slots there are.
pub(crate) const SLOTS: usize = 64;

/// The set of one slot.
pub(crate) fn only(slot: u8) -> u64
    requires { slot < 64 }
    ensures { result ≡ 2 ^ slot }
{
    1 << slot
}

/// Whether the slot is one of the set.
pub fn has(slots: u64, slot: u8) -> bool
    requires { slot < 64 }
    ensures { result ≡ has_slot slots slot }
{
    slots & only(slot) != 0
}

/// The set with the slot.
pub fn with(slots: u64, slot: u8) -> u64
    requires { slot < 64 }
    ensures { (s : ℕ) → has_slot result s ≡ (s == slot || has_slot slots s) }
{
    slots | only(slot)
}

/// The set without the slot.
pub fn without(slots: u64, slot: u8) -> u64
    requires { slot < 64 }
    ensures { (s : ℕ) → has_slot result s ≡ (not (s == slot) && has_slot slots s) }
{
    slots & !only(slot)
}
