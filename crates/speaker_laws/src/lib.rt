//! Laws of the definitions that a speaker's contracts cite, above the speaker: each is a function that does nothing, whose
//! contract is the law.
//!
//! They speak of any run, and so of each speaker that agrees with one. They stand apart, so that a further law leaves the
//! speaker and its proofs as they are.
#![tactic(auto)]

ghost use Rattle.std.specs.Prelude.{◌≡◌, ◌⊎◌, ◌↔◌, ℕ, List, ◌∷◌, Option, Some, None, IsSome, bit_and, is_some, true, false};
ghost use Rattle.bgp_attr.specs.AttributeTable.{type_of};
ghost use Rattle.bgp_attr.specs.ReceivedAttributes.{Attribute};
ghost use Rattle.bgp_attr.specs.TravellingAttributes.{AreTravelling, MayTravel};
ghost use Rattle.bgp_attr.specs.UnknownAttributes.{is_kept};
ghost use Rattle.bgp_fsm.specs.StateTests.{is_established};
ghost use Rattle.bgp_msg.specs.MessageStream.{messages};
ghost use Rattle.bgp_peer.specs.Refreshes.{refreshes};
ghost use Rattle.bgp_peer.specs.SessionInputs.{Event, Queued, session};
ghost use Rattle.export_rules.specs.declared.export.ExportPeer.{ExportPeer};
ghost use Rattle.net_prefix.specs.declared.prefix.Prefix.{Prefix};
ghost use Rattle.runs.specs.Agreement.{Agrees, IsOwedIn, Names, tables_after};
ghost use Rattle.routing.specs.Export.{IsExport};
ghost use Rattle.runs.specs.Held.{held, told_from, told_in};
ghost use Rattle.runs.specs.Refreshes.{asked, names_in};
ghost use Rattle.runs.specs.Runs.{Run, history};
ghost use Rattle.runs.specs.SpeakerState.{SpeakerState};
ghost use Rattle.runs.specs.declared.config.Config.{Config};

/// Whatever peers send, what goes on to a peer are attributes that may: none of a code that ends at a speaker as this one, and
/// none of a code with lengths of its own standard but with one of these. So it is of what is exported of a best route, of what
/// any UPDATE tells that is queued as owed, and of what a peer holds after any run.
pub fn what_may_travel_is_told()
    ensures exported { (config : Config) (r : Run) (peer : ExportPeer) (prefix : Prefix) (octets : List ℕ) → IsExport (tables_after config r) peer prefix (Some octets) → AreTravelling octets }
    ensures queued { (config : Config) (r : Run) (slot : ℕ) (update : List ℕ) → IsOwedIn config r slot update
        → (before : Option (List ℕ)) (prefix : Prefix) (octets : List ℕ) → told_from before (messages update) prefix ≡ Some octets → (before ≡ Some octets) ⊎ AreTravelling octets }
    ensures held { (config : Config) (r : Run) (s : SpeakerState) (slot : ℕ) (prefix : Prefix) (octets : List ℕ) → Agrees config r s → held (history config slot r) prefix ≡ Some octets → AreTravelling octets }
{}

/// Every attribute that this speaker doesn't know and that may travel is kept where it is optional and transitive: no other
/// code ends here, and no value but those that the table of unknown codes bars (RFC 4271 section 5).
pub fn what_may_travel_is_kept()
    ensures { (a : Attribute) → type_of a.code ≡ None → MayTravel a.code a.value → bit_and a.flags 192 ≡ 192 → is_kept a ≡ true }
{}

/// A ROUTE-REFRESH is answered once (RFC 2918 section 4). It asks for just what the peer holds when it comes, whatever was
/// asked for before; an UPDATE that names a prefix answers for it, and for no other one; where a session isn't Established
/// nothing is asked for, and so nothing is where it enters Established. What is asked for is held. An UPDATE that is queued as
/// owed and says of a prefix what its peer holds already answers a refresh.
pub fn a_refresh_is_answered_once()
    ensures asks { (h : List Event) (e : Event) (prefix : Prefix) → refreshes h e ≡ true → asked (e ∷ h) prefix ≡ is_some (held h prefix) }
    ensures answers { (h : List Event) (update : List ℕ) (prefix : Prefix) → names_in update prefix ≡ true → asked (Queued update ∷ h) prefix ≡ false }
    ensures others { (h : List Event) (update : List ℕ) (prefix : Prefix) → names_in update prefix ≡ false → asked (Queued update ∷ h) prefix ≡ asked h prefix }
    ensures names { (octets : List ℕ) (prefix : Prefix) → names_in octets prefix ≡ true ↔ Names octets prefix }
    ensures begins { (h : List Event) (e : Event) (prefix : Prefix) → is_established (session h).state ≡ false → asked (e ∷ h) prefix ≡ false }
    ensures held { (config : Config) (r : Run) (s : SpeakerState) (slot : ℕ) (prefix : Prefix) → Agrees config r s → asked (history config slot r) prefix ≡ true → IsSome (held (history config slot r) prefix) }
    ensures repeats { (config : Config) (r : Run) (slot : ℕ) (update : List ℕ) (prefix : Prefix) → IsOwedIn config r slot update → Names update prefix
        → held (history config slot r) prefix ≡ told_in update prefix → asked (history config slot r) prefix ≡ true }
{}
