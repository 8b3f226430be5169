//! A book of the candidates of one prefix.
ghost use Rattle.std.specs.Prelude.{◌≡◌, ◌≢◌, ◌≤◌, ◌+◌, ◌-◌, ◌^◌, ◌++◌, ◌∷◌, ◌&&◌, ◌↔◌, [], None, true, All, IfOk, IfSome, IsTrue, is_ok, length, min, not, if◌then◌else◌};
ghost use Rattle.decision.specs.BookContents.{AreApart, Kept, candidate_of, is_placed};
ghost use Rattle.decision.specs.KeptPlaces.{IsKept, alone, with_changes, without_slot};

use crate::candidate::Candidate;
use crate::meter::Meter;
use std::alloc::{AllocError, Allocator};

/// A slot's candidate from now on, or that it has none.
#[derive(Clone, Copy, Debug, PartialEq, Eq)]
pub struct Change {
    pub slot: u8,
    pub candidate: Option<Candidate>,
}

impl Default for Change {
    ghost is_default = { λ c. c ≡ record { slot = 0; candidate = None } };

    /// What fills the places of a list that are not in use.
    fn default() -> Change {
        Change {
            slot: 0,
            candidate: None,
        }
    }
}

/// The candidates of one prefix by slot, and the best of them (RFC 4271 section 9.1).
///
/// A slot gets a place by `of` or `add`, which alone take memory. From then on its candidate may come, change and go, until
/// the slot leaves the prefix.
pub trait Book<A: Allocator + Clone>: Drop {
    /// The slots that have a place, each with its candidate, and the best of these: a row of Loc-RIB.
    ghost kept: { Self → Kept };

    /// A book with a place for the candidate of one slot.
    fn of(alloc: &A, slot: u8) -> Result<Self, AllocError>
        ensures { IfOk result (λ book. kept book ≡ alone slot) };

    /// Makes a place for the candidate of a slot, where it has none. Where memory is refused, nothing changes.
    fn add(&mut self, slot: u8) -> Result<(), AllocError>
        ensures places { (kept self.new).places ≡ (if is_ok result && not (is_placed (kept self.old).places slot) then (kept self.old).places ++ (slot, None) ∷ [] else (kept self.old).places) }
        ensures best { (kept self.new).best ≡ (kept self.old).best }
        ensures few { length (kept self.old).places ≤ 65 → length (kept self.new).places ≤ 65 }
        // A place that is there takes no memory.
        ensures there { is_placed (kept self.old).places slot ≡ true → is_ok result ≡ true };

    /// Makes these changes of the candidates, one after the other, and then chooses once at most, and never where each
    /// candidate stays. It takes no memory.
    fn change(&mut self, meter: &mut Meter, changes: &[Change])
        requires kept { IsKept (kept self.old) }
        requires named { All (λ c. IfSome c.candidate (λ route. route.slot ≡ c.slot)) changes.now }
        requires apart { AreApart (candidate_of (with_changes changes.now (kept self.old).places)) }
        ensures places { (kept self.new).places ≡ with_changes changes.now (kept self.old).places }
        ensures kept { IsKept (kept self.new) }
        ensures counted { (meter.old.count ≤ meter.new.count) × (meter.new.count ≤ meter.old.count + 1) }
        ensures never { with_changes changes.now (kept self.old).places ≡ (kept self.old).places → meter.new.count ≡ meter.old.count }
        // A change of what is there is counted, also where the same candidate stays the best one.
        ensures made { with_changes changes.now (kept self.old).places ≢ (kept self.old).places → meter.new.count ≡ min (meter.old.count + 1) (2 ^ 64 - 1) }
        // Another best route is one that was chosen.
        ensures chosen { (kept self.new).best ≢ (kept self.old).best → meter.new.count ≡ min (meter.old.count + 1) (2 ^ 64 - 1) };

    /// The slot's candidate goes, and its place with it. It answers whether no place is left, chooses once at most, and
    /// never where there was no candidate, and takes no memory.
    fn leave(&mut self, meter: &mut Meter, slot: u8) -> bool
        requires { IsKept (kept self.old) }
        ensures places { (kept self.new).places ≡ without_slot slot (kept self.old).places }
        ensures kept { IsKept (kept self.new) }
        ensures counted { (meter.old.count ≤ meter.new.count) × (meter.new.count ≤ meter.old.count + 1) }
        ensures never { candidate_of (kept self.old).places slot ≡ None → meter.new.count ≡ meter.old.count }
        ensures gone { candidate_of (kept self.old).places slot ≢ None → meter.new.count ≡ min (meter.old.count + 1) (2 ^ 64 - 1) }
        ensures chosen { (kept self.new).best ≢ (kept self.old).best → meter.new.count ≡ min (meter.old.count + 1) (2 ^ 64 - 1) }
        ensures empty { IsTrue result ↔ ((kept self.new).places ≡ []) };

    /// The best candidate.
    fn best(&self) -> Option<Candidate>
        ensures { result ≡ (kept self.now).best };
}
