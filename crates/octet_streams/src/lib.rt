//! Streams of octets: items one after another, each behind a header that tells how long it is.
//!
//! A `Grammar` says what octets mean: the faults of a header, the length that it tells, the item that so many octets
//! are, and which items end the stream. The laws hold for each grammar that judges a header by its own octets.
#![tactic(auto)]

ghost use Rattle.std.specs.Prelude.{◌≡◌, ◌<◌, ◌≤◌, ◌++◌, ℕ, List, [], Some, length};
ghost use Rattle.std.specs.List.{concat};
ghost use Rattle.octet_streams.specs.Grammar.{Grammar, IsGrammar};
ghost use Rattle.octet_streams.specs.Streams.{GoesOn, Splits, Wants, items_from, items_of_pieces, meaning, needed_of, unread_from, unread_of_pieces};

/// A stream is its items one after another and then what is unread, and it is so in no other way.
pub fn only_items<P, F, I>()
    ensures some { (g : Grammar P F I) (place : P) (stream : List ℕ) → IsGrammar g → Splits g place stream (items_from g place [] stream) (unread_from g place [] stream) }
    ensures one { (g : Grammar P F I) (place : P) (stream rest : List ℕ) (items : List I) → IsGrammar g → Splits g place stream items rest → (items ≡ items_from g place [] stream) × (rest ≡ unread_from g place [] stream) }
{}

/// However a stream is cut, its pieces read one after another hold its items.
pub fn pieces_are_the_stream<P, F, I>()
    ensures { (g : Grammar P F I) (place : P) (pieces : List (List ℕ)) → IsGrammar g → (items_of_pieces g place [] pieces ≡ items_from g place [] (concat pieces)) × (unread_of_pieces g place [] pieces ≡ unread_from g place [] (concat pieces)) }
{}

/// No more octets than are wanted complete one item or none, and what follows them is read behind it.
pub fn stream_goes_on<P, F, I>()
    ensures { (g : Grammar P F I) (place : P) (part piece more : List ℕ) → IsGrammar g → Wants g place part → 0 < length piece → length piece ≤ needed_of g place part → GoesOn g place part piece (meaning g place (part ++ piece)) more }
{}

/// No item is the beginning of another.
pub fn no_item_begins_another<P, F, I>()
    ensures { (g : Grammar P F I) (place : P) (octets more : List ℕ) (item other : I) → IsGrammar g → meaning g place octets ≡ Some item → meaning g place (octets ++ more) ≡ Some other → more ≡ [] }
{}
