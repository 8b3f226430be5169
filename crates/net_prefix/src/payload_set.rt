//! The order of payloads, and what a set of them has.
ghost use Rattle.std.specs.Prelude.{◌≡◌, ◌||◌, ◌&&◌, List, not};
ghost use Rattle.std.specs.BTreeMap.{is_at};
ghost use Rattle.std.specs.declared.cmp.Ordering.TheVariants.{Equal};
ghost use Rattle.net_prefix.specs.declared.payload.Vrp.{Vrp};
ghost use Rattle.net_prefix.specs.PayloadOrder.{payload_cmp};
ghost use Rattle.net_prefix.specs.PayloadSets.{IsPayloadSet, has, out, put};

/// Payloads are kept by prefix, maximum length and AS, and those at one place of this order are one.
pub fn payloads_are_ordered()
    ensures order { (a b : Vrp) → ⟦<crate::payload::Vrp as Ord>⟧.cmp a b ≡ payload_cmp a b }
    ensures exact { (a b : Vrp) → payload_cmp a b ≡ Equal → a ≡ b }
{}

/// A set with a payload has it and what it had before, a set without it has the others, and sets that have the
/// same payloads are one.
pub fn sets_are_their_members()
    ensures put { (set : List Vrp) (payload other : Vrp) → has (put payload set) other ≡ (is_at (payload_cmp other) payload || has set other) }
    ensures out { (set : List Vrp) (payload other : Vrp) → has (out payload set) other ≡ (not (is_at (payload_cmp payload) other) && has set other) }
    ensures one { (a b : List Vrp) → IsPayloadSet a → IsPayloadSet b → ((payload : Vrp) → has a payload ≡ has b payload) → a ≡ b }
{}
