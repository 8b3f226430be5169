//! The places of a prefix at which more than one slot has had a place.
ghost use Rattle.std.specs.Prelude.{◌≡◌, ◌≢◌, ◌≤◌, ◌+◌, ◌-◌, ◌^◌, ◌++◌, ◌∷◌, ◌&&◌, ◌↔◌, [], None, true, All, IfOk, IfSome, IsTrue, is_ok, length, min, not, if◌then◌else◌};
ghost use Rattle.decision.specs.BookContents.{AreApart, candidate_of, is_placed};
ghost use Rattle.decision.specs.KeptPlaces.{IsKept, with_changes, without_slot};

use crate::comparing::best_of;
use crate::place::Place;
use crate::places::{add_place, are_idle, make, place_at, remove_place, renew, two_places};
use decision::{Candidate, Change, Meter};
use std::alloc::{AllocError, Allocator};
use std::marker::Model;

/// The slots that have a place, each with its candidate and whether that is the best one of its neighbor AS, and the slot
/// of the best one of all: where a candidate changes, no more are compared than can matter.
#[derive(Drop)]
pub(crate) struct ManyPlaces<A: Allocator> {
    places: Vec<Place, A>,
    best: Option<u8>,
}

impl<A: Allocator> Model for ManyPlaces<A> {
    ghost use Rattle.std.specs.Prelude.{option_and_then};
    ghost use Rattle.decision.specs.BookContents.{Kept, candidate_of};
    ghost use Rattle.live_book.specs.NeighborBests.{AreBests, slots_of};

    ghost Value = { Kept };

    ghost view = { λ b. record { places = slots_of b.places.items; best = option_and_then (candidate_of (slots_of b.places.items)) b.best } };

    ghost invariant = { λ b. AreBests b.places.items };
}

impl<A: Allocator> ManyPlaces<A> {
    // The slot's place with its candidate, and one for another slot.
    pub(crate) fn pair(
        alloc: A,
        first: u8,
        candidate: Option<Candidate>,
        second: u8,
    ) -> Result<ManyPlaces<A>, AllocError>
        ensures places { IfOk result (λ many. many.places ≡ (first, candidate) ∷ (second, None) ∷ []) }
        ensures best { IfOk result (λ many. many.best ≡ candidate) }
    {
        Ok(ManyPlaces {
            places: two_places(alloc, first, candidate, second)?,
            best: candidate.map(|_| first),
        })
    }

    pub(crate) fn add(&mut self, slot: u8) -> Result<(), AllocError>
        ensures places { self.new.places ≡ (if is_ok result && not (is_placed self.old.places slot) then self.old.places ++ (slot, None) ∷ [] else self.old.places) }
        ensures best { self.new.best ≡ self.old.best }
        ensures few { length self.old.places ≤ 65 → length self.new.places ≤ 65 }
        ensures there { is_placed self.old.places slot ≡ true → is_ok result ≡ true }
    {
        add_place(&mut self.places, slot)?;
        Ok(())
    }

    pub(crate) fn change(&mut self, meter: &mut Meter, changes: &[Change])
        requires kept { IsKept self.old }
        requires named { All (λ c. IfSome c.candidate (λ route. route.slot ≡ c.slot)) changes.now }
        requires apart { AreApart (candidate_of (with_changes changes.now self.old.places)) }
        ensures places { self.new.places ≡ with_changes changes.now self.old.places }
        ensures kept { IsKept self.new }
        ensures counted { (meter.old.count ≤ meter.new.count) × (meter.new.count ≤ meter.old.count + 1) }
        ensures never { with_changes changes.now self.old.places ≡ self.old.places → meter.new.count ≡ meter.old.count }
        ensures made { with_changes changes.now self.old.places ≢ self.old.places → meter.new.count ≡ min (meter.old.count + 1) (2 ^ 64 - 1) }
        ensures chosen { self.new.best ≢ self.old.best → meter.new.count ≡ min (meter.old.count + 1) (2 ^ 64 - 1) }
    {
        if are_idle(changes, &self.places) {
            return;
        }
        if self.places.len() == 1 {
            self.best = renew(meter, changes, &mut self.places);
            return;
        }
        make(changes, &mut self.places);
        self.best = best_of(meter, &self.places, self.best);
    }

    pub(crate) fn leave(&mut self, meter: &mut Meter, slot: u8) -> bool
        requires { IsKept self.old }
        ensures places { self.new.places ≡ without_slot slot self.old.places }
        ensures kept { IsKept self.new }
        ensures counted { (meter.old.count ≤ meter.new.count) × (meter.new.count ≤ meter.old.count + 1) }
        ensures never { candidate_of self.old.places slot ≡ None → meter.new.count ≡ meter.old.count }
        ensures gone { candidate_of self.old.places slot ≢ None → meter.new.count ≡ min (meter.old.count + 1) (2 ^ 64 - 1) }
        ensures chosen { self.new.best ≢ self.old.best → meter.new.count ≡ min (meter.old.count + 1) (2 ^ 64 - 1) }
        ensures empty { IsTrue result ↔ (self.new.places ≡ []) }
    {
        let gone = Change {
            slot,
            candidate: None,
        };
        self.change(meter, &[gone]);
        remove_place(&mut self.places, slot);
        self.places.is_empty()
    }

    pub(crate) fn best(&self) -> Option<Candidate>
        ensures { result ≡ self.now.best }
    {
        match self.best {
            Some(slot) => place_at(&self.places, slot)?,
            None => None,
        }
    }
}
