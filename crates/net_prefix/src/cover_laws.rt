//! What follows for the order of prefixes from which covers which.
ghost use Rattle.std.specs.Prelude.{◌≡◌, ◌⊎◌};
ghost use Rattle.std.specs.declared.cmp.Ordering.TheVariants.{Less};
ghost use Rattle.net_prefix.specs.Cover.{Covers};
ghost use Rattle.net_prefix.specs.PrefixOrder.{prefix_cmp};
ghost use Rattle.net_prefix.specs.declared.prefix.Prefix.{Prefix};

/// What a prefix covers is one stretch of the order, and the prefix itself is the first of it.
pub fn covered_are_one_stretch()
    ensures first { (p q : Prefix) → Covers p.bits p.len q.bits q.len → (p ≡ q) ⊎ (prefix_cmp p q ≡ Less) }
    ensures between { (p a b c : Prefix) → Covers p.bits p.len a.bits a.len → Covers p.bits p.len c.bits c.len → prefix_cmp a b ≡ Less → prefix_cmp b c ≡ Less → Covers p.bits p.len b.bits b.len }
{}

/// Of two prefixes that cover a third, one covers the other.
pub fn covering_are_nested()
    ensures { (p q r : Prefix) → Covers p.bits p.len r.bits r.len → Covers q.bits q.len r.bits r.len → Covers p.bits p.len q.bits q.len ⊎ Covers q.bits q.len p.bits p.len }
{}
