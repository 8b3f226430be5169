//! What the states of a route's origin say of the payloads.
ghost use Rattle.std.specs.Prelude.{◌≡◌, ◌↔◌, List, Option, None};
ghost use Rattle.std.specs.List.{Contains};
ghost use Rattle.net_prefix.specs.declared.asn.Asn.{Asn};
ghost use Rattle.net_prefix.specs.declared.payload.Vrp.{Vrp};
ghost use Rattle.net_prefix.specs.declared.prefix.Prefix.{Prefix};
ghost use Rattle.origin_valid.specs.Validity.{CoversRoute, Matches, validity};
ghost use Rattle.origin_valid.specs.declared.validity.Validity.TheVariants.{Valid, Invalid, NotFound};

/// A route is Valid where some payload matches it, Invalid where some covers its prefix and none matches it, and
/// NotFound where none covers its prefix (RFC 6811 section 2).
pub fn states_are_by_payloads()
    ensures valid { (set : List Vrp) (prefix : Prefix) (origin : Option Asn) → (validity set prefix origin ≡ Valid) ↔ ((payload : Vrp) × Contains set payload × Matches payload prefix origin) }
    ensures invalid { (set : List Vrp) (prefix : Prefix) (origin : Option Asn) → (validity set prefix origin ≡ Invalid) ↔ (((payload : Vrp) × Contains set payload × CoversRoute payload prefix) × ((payload : Vrp) → Contains set payload → Matches payload prefix origin → ⊥)) }
    ensures not_found { (set : List Vrp) (prefix : Prefix) (origin : Option Asn) → (validity set prefix origin ≡ NotFound) ↔ ((payload : Vrp) → Contains set payload → CoversRoute payload prefix → ⊥) }
{}

/// A payload of AS 0 matches no route, and no payload matches a route whose origin is NONE (RFC 6811 section 2).
pub fn as_0_and_none_match_nothing()
    ensures as_0 { (payload : Vrp) (prefix : Prefix) (origin : Option Asn) → payload.asn.0 ≡ 0 → Matches payload prefix origin → ⊥ }
    ensures none { (payload : Vrp) (prefix : Prefix) → Matches payload prefix None → ⊥ }
{}
