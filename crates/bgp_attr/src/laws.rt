//! Laws of how attributes are read and written (RFC 4271 section 4.3). Each is a function that does nothing.
ghost use Rattle.std.specs.Prelude.{◌≡◌, ◌≤◌, ◌⊎◌, ◌+◌, ◌++◌, length, List, ℕ, Some, None, replicate, suc, true};
ghost use Rattle.std.specs.List.{AllByRecursion};
ghost use Rattle.net_prefix.specs.declared.asn.Asn.{Asn};
ghost use Rattle.bgp_attr.specs.AsPath.{PathSegment, ases_of, neighbor_as_of, path_length_of, prepended};
ghost use Rattle.bgp_attr.specs.AttributeFaults.{Fault, IsCutFault, IsFirstFault, attributes_fault};
ghost use Rattle.bgp_attr.specs.AttributeReading.{attributes_in};
ghost use Rattle.bgp_attr.specs.AttributeSpelling.{CanBeSpelled, IsAs, IsSegment, SpellsAttributes, SpellsPath, attributes_spelling};
ghost use Rattle.bgp_attr.specs.PathAttributes.{PathAttributes};
ghost use Rattle.bgp_attr.specs.PathReading.{begins_right, path_at};
ghost use Rattle.bgp_attr.specs.ReceivedAttributes.{AreOctets, Attribute, IsAttribute, IsSplit, split_of, wholes};
ghost use Rattle.bgp_attr.specs.TravellingAttributes.{AreTravelling, MayAllTravel};
ghost use Rattle.bgp_attr.specs.declared.peer.PeerKind.{PeerKind};

/// Octets are split into attributes and a rest with none at its front, and in one way alone.
pub fn split_is_one()
    ensures found { (octets : List ℕ) → AreOctets octets → IsSplit octets (split_of octets).0 (split_of octets).1 }
    ensures only { (octets : List ℕ) (attributes : List Attribute) (rest : List ℕ) → AreOctets octets → IsSplit octets attributes rest → split_of octets ≡ (attributes, rest) }
{}

/// Attributes are split off in the same way, whatever octets follow them.
pub fn split_is_kept()
    ensures { (attributes : List Attribute) (octets : List ℕ) → AllByRecursion IsAttribute attributes → split_of (wholes attributes ++ octets) ≡ (attributes ++ (split_of octets).0, (split_of octets).1) }
{}

/// Octets are read as a path exactly where they spell it.
pub fn path_is_spelled()
    ensures read { (octets : List ℕ) (path : List PathSegment) → SpellsPath octets path → path_at octets ≡ Some path }
    ensures spelled { (octets : List ℕ) (path : List PathSegment) → AreOctets octets → path_at octets ≡ Some path → SpellsPath octets path }
{}

/// Octets have no fault exactly where they spell attributes, and are read as the attributes that they spell.
pub fn attributes_are_spelled()
    ensures faultless { (kind : PeerKind) (octets : List ℕ) (attrs : PathAttributes) → SpellsAttributes kind octets attrs → attributes_fault kind octets ≡ None }
    ensures read { (kind : PeerKind) (octets : List ℕ) (attrs : PathAttributes) → SpellsAttributes kind octets attrs → attributes_in kind octets ≡ attrs }
    ensures spelled { (kind : PeerKind) (octets : List ℕ) → AreOctets octets → attributes_fault kind octets ≡ None → SpellsAttributes kind octets (attributes_in kind octets) }
{}

/// The fault of octets is that of the first attribute that has one, from left to right; or, where none has one, that an
/// attribute is cut off.
pub fn fault_is_the_first()
    ensures { (kind : PeerKind) (octets : List ℕ) (fault : Fault) → attributes_fault kind octets ≡ Some fault → IsFirstFault kind (split_of octets).0 fault ⊎ IsCutFault kind (split_of octets).0 (split_of octets).1 fault }
{}

/// What is written is read again as the same attributes.
pub fn written_is_read()
    ensures faultless { (kind : PeerKind) (attrs : PathAttributes) → CanBeSpelled kind attrs → attributes_fault kind (attributes_spelling attrs) ≡ None }
    ensures read { (kind : PeerKind) (attrs : PathAttributes) → CanBeSpelled kind attrs → attributes_in kind (attributes_spelling attrs) ≡ attrs }
{}

/// A path with an AS in front so many times (RFC 4271 section 5.1.2) names that AS first, as the path of a peer in that
/// AS does, so many times and then the ASes of the path; it counts so many ASes more, and none of its segments has more
/// than 255 ASes.
pub fn prepending_is_counted()
    ensures neighbor { (path : List PathSegment) (asn own : Asn) (times : ℕ) → neighbor_as_of (prepended path asn (suc times)) own ≡ asn }
    ensures begins { (path : List PathSegment) (asn : Asn) (times : ℕ) → begins_right (PeerKind.External asn) (prepended path asn (suc times)) ≡ true }
    ensures ases { (path : List PathSegment) (asn : Asn) (times : ℕ) → ases_of (prepended path asn times) ≡ replicate times asn ++ ases_of path }
    ensures length { (path : List PathSegment) (asn : Asn) (times : ℕ) → path_length_of (prepended path asn times) ≡ times + path_length_of path }
    ensures segments { (path : List PathSegment) (asn : Asn) (times : ℕ) → IsAs asn → AllByRecursion IsSegment path → AllByRecursion IsSegment (prepended path asn times) }
{}

/// Of unknown attributes that come, whatever they are, those that are kept may go on to other peers; and where those may,
/// octets that are written have no attribute that may not: none of a code that ends at a speaker as this one, and none of
/// a code with lengths of its own standard but with one of these.
pub fn what_may_travel_is_written()
    ensures kept { (kind : PeerKind) (octets : List ℕ) → MayAllTravel (attributes_in kind octets).unknown }
    ensures written { (attrs : PathAttributes) → MayAllTravel attrs.unknown → length (attributes_spelling attrs) ≤ 65535 → AreTravelling (attributes_spelling attrs) }
{}
