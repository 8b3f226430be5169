//! Laws of responses (RFC 8210 section 8).
ghost use Rattle.std.specs.Prelude.{◌≡◌, ℕ, List, true};
ghost use Rattle.net_prefix.specs.PayloadSets.{IsPayloadSet};
ghost use Rattle.net_prefix.specs.declared.payload.Vrp.{Vrp};
ghost use Rattle.rtr_codec.specs.Responses.{are_changes, are_short, changed_by, response};
ghost use Rattle.rtr_codec.specs.declared.intervals.Intervals.{Intervals};
ghost use Rattle.vrp_delta.specs.Versions.{Version};

/// Each PDU of a response has at most 24 octets.
pub fn response_is_short()
    ensures { (session : ℕ) (intervals : Intervals) (version : Version) (old : List Vrp) → are_short (response session intervals version old) ≡ true }
{}

/// A client that reads a response onto the old set has the set of its version, and finds no payload twice and none
/// missing.
pub fn response_gives_the_version()
    ensures set { (session : ℕ) (intervals : Intervals) (version : Version) (old : List Vrp) → IsPayloadSet old → IsPayloadSet version.set → changed_by old (response session intervals version old) ≡ version.set }
    ensures faultless { (session : ℕ) (intervals : Intervals) (version : Version) (old : List Vrp) → IsPayloadSet old → IsPayloadSet version.set → are_changes old (response session intervals version old) ≡ true }
{}
