//! What lies in the stretches of a change of the payloads.
ghost use Rattle.std.specs.Prelude.{◌≡◌, ◌≢◌, ◌↔◌, ◌⊎◌, List, Option};
ghost use Rattle.std.specs.List.{Contains};
ghost use Rattle.std.specs.List.Sorted.{IsStrictlySortedBy};
ghost use Rattle.net_prefix.specs.Cover.{Covers};
ghost use Rattle.net_prefix.specs.PrefixOrder.{prefix_cmp};
ghost use Rattle.net_prefix.specs.declared.asn.Asn.{Asn};
ghost use Rattle.net_prefix.specs.declared.payload.Vrp.{Vrp};
ghost use Rattle.net_prefix.specs.declared.prefix.Prefix.{Prefix};
ghost use Rattle.origin_valid.specs.Stretches.{changed_prefixes, stretches};
ghost use Rattle.origin_valid.specs.Validity.{CoversRoute, validity};
ghost use Rattle.vrp_delta.specs.Delta.{Change, IsApplied};

/// A prefix whose state changes, for whatever origin, lies in a stretch of the change.
pub fn changed_states_lie_in_stretches()
    ensures { (old new : List Vrp) (change : Change) (prefix : Prefix) (origin : Option Asn) → IsApplied old change new → validity old prefix origin ≢ validity new prefix origin → (stretch : Prefix) × Contains (stretches (changed_prefixes change)) stretch × Covers stretch.bits stretch.len prefix.bits prefix.len }
{}

/// A prefix lies in a stretch just where some payload that comes or goes covers it.
pub fn stretches_are_what_changes_cover()
    ensures { (change : Change) (prefix : Prefix) → ((stretch : Prefix) × Contains (stretches (changed_prefixes change)) stretch × Covers stretch.bits stretch.len prefix.bits prefix.len) ↔ ((payload : Vrp) × (Contains change.withdrawn payload ⊎ Contains change.announced payload) × CoversRoute payload prefix) }
{}

/// Stretches rise, and no two of them have a prefix in common.
pub fn stretches_are_disjoint()
    ensures rise { (prefixes : List Prefix) → IsStrictlySortedBy prefix_cmp (stretches prefixes) }
    ensures apart { (prefixes : List Prefix) (a b : Prefix) → Contains (stretches prefixes) a → Contains (stretches prefixes) b → Covers a.bits a.len b.bits b.len → a ≡ b }
    ensures once { (prefixes : List Prefix) (a b inner : Prefix) → Contains (stretches prefixes) a → Contains (stretches prefixes) b → Covers a.bits a.len inner.bits inner.len → Covers b.bits b.len inner.bits inner.len → a ≡ b }
{}
