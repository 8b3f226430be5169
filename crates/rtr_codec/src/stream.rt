//! Laws of the PDUs of a stream (RFC 8210 section 5).
ghost use Rattle.std.specs.Prelude.{◌≡◌, ◌<◌, ◌≤◌, ◌↔◌, ◌++◌, ℕ, List, [], ◌∷◌, Some, None, length};
ghost use Rattle.std.specs.List.{concat};
ghost use Rattle.rtr_codec.specs.declared.fault.PduFault.{PduFault};
ghost use Rattle.rtr_codec.specs.declared.place.Place.{Place};
ghost use Rattle.rtr_codec.specs.PduSpelling.{Content, IsLawful, length_of, spelling};
ghost use Rattle.rtr_codec.specs.PduStream.{FaultyPdu, GoesOn, HasFault, IsPdu, IsReadFirst, Item, Splits, Wants, WholePdu, meaning, needed_of, pdus, pdus_of_pieces, unread, unread_of_pieces};
ghost use Rattle.rtr_codec.specs.SpelledPdus.{AreOctets, Spells};

/// A stream is its PDUs one after another and then what is unread, and it is so in no other way.
pub fn only_pdus()
    ensures some { (place : Place) (stream : List ℕ) → Splits place stream (pdus place stream) (unread place stream) }
    ensures one { (place : Place) (stream rest : List ℕ) (items : List Item) → Splits place stream items rest → (items ≡ pdus place stream) × (rest ≡ unread place stream) }
{}

/// An item of a stream is a PDU, or a fault and what is quoted of it, from the first of its octets to the last.
pub fn items_are_pdus_or_faults()
    ensures pdu { (place : Place) (octets whole : List ℕ) (content : Content) → (meaning place octets ≡ Some (WholePdu content whole)) ↔ ((whole ≡ octets) × IsPdu place octets content) }
    ensures fault { (place : Place) (octets quoted : List ℕ) (fault : PduFault) → (meaning place octets ≡ Some (FaultyPdu fault quoted)) ↔ ((quoted ≡ octets) × HasFault place octets fault quoted) }
{}

/// However a stream is cut, its pieces read one after another hold its PDUs.
pub fn pieces_are_the_stream()
    ensures { (place : Place) (pieces : List (List ℕ)) → (pdus_of_pieces place [] pieces ≡ pdus place (concat pieces)) × (unread_of_pieces place [] pieces ≡ unread place (concat pieces)) }
{}

/// No more octets than are wanted complete one item or none, and what follows them is read behind it.
pub fn stream_goes_on()
    ensures { (place : Place) (part piece more : List ℕ) → Wants place part → 0 < length piece → length piece ≤ needed_of place part → GoesOn place part piece (meaning place (part ++ piece)) more }
{}

/// While more octets are wanted there is no PDU and no fault, and all octets are unread.
pub fn wanted_is_unread()
    ensures { (place : Place) (octets : List ℕ) → Wants place octets → (meaning place octets ≡ None) × (pdus place octets ≡ []) × (unread place octets ≡ octets) }
{}

/// Nothing is read behind a fault.
pub fn fault_ends_the_stream()
    ensures { (place : Place) (octets more : List ℕ) (fault : PduFault) → meaning place octets ≡ Some (FaultyPdu fault octets) → (pdus place (octets ++ more) ≡ FaultyPdu fault octets ∷ []) × (unread place (octets ++ more) ≡ octets ++ more) }
{}

/// No PDU is the beginning of another.
pub fn no_pdu_begins_another()
    ensures { (place : Place) (octets more : List ℕ) (item other : Item) → meaning place octets ≡ Some item → meaning place (octets ++ more) ≡ Some other → more ≡ [] }
{}

/// A PDU that is written is read again, whatever follows it, and wherever on a connection it stands.
pub fn written_is_read()
    ensures { (place : Place) (content : Content) → IsLawful content → IsReadFirst place (spelling content) content }
{}

/// How long what is written is.
pub fn spelling_length()
    ensures { (content : Content) → length (spelling content) ≡ length_of content }
{}

/// Octets are a PDU, as a reader finds it, exactly where they spell what it says.
pub fn pdu_is_spelled()
    ensures read { (place : Place) (octets : List ℕ) (content : Content) → Spells place octets content → IsPdu place octets content }
    ensures spelled { (place : Place) (octets : List ℕ) (content : Content) → AreOctets octets → IsPdu place octets content → Spells place octets content }
{}
