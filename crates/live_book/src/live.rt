//! A book that keeps the best of each neighbor AS, and of these the best one.
ghost use Rattle.std.specs.Prelude.{◌≡◌, ◌≢◌, ◌≤◌, ◌+◌, ◌-◌, ◌^◌, ◌++◌, ◌∷◌, ◌&&◌, ◌↔◌, [], None, true, All, IfOk, IfSome, IsTrue, is_ok, length, min, not, if◌then◌else◌};
ghost use Rattle.decision.specs.BookContents.{AreApart, candidate_of, is_placed};
ghost use Rattle.decision.specs.KeptPlaces.{IsKept, with_changes, without_slot};
ghost use Rattle.live_book.specs.KeptAlone.{kept_in, one_place};

use crate::comparing::{after, count_choice};
use crate::many_places::ManyPlaces;
use crate::places::is_same;
use decision::{Book, Candidate, Change, Meter, WithoutMed};
use std::alloc::{AllocError, Allocator, Global};
use std::marker::Model;

/// A book that compares few candidates where one of them changes. The place of a slot that stands alone, as at most
/// prefixes, is in the book itself: the second place is the first to take memory.
#[derive(Drop)]
pub struct LiveBook<A: Allocator = Global> {
    places: Places<A>,
    alloc: A,
}

// Who has a place.
#[derive(Drop)]
enum Places<A: Allocator> {
    // No slot, as when the last one has left.
    Nobody,
    // This slot alone, without a candidate.
    Vacant(u8),
    // The slot of this candidate alone, which has no MULTI_EXIT_DISC. In one value both would take 8 octets more.
    Alone(WithoutMed),
    // The same with this MULTI_EXIT_DISC.
    AloneWithMed(u32, WithoutMed),
    // Others too, or others did.
    Many(ManyPlaces<A>),
}

impl<A: Allocator> Model for LiveBook<A> {
    ghost use Rattle.decision.specs.BookContents.{Kept};
    ghost use Rattle.live_book.specs.KeptAlone.{kept_in};

    ghost Value = { Kept };

    ghost view = { λ b. kept_in b.places };
}

impl<A: Allocator> Places<A> {
    // The slot's place alone.
    fn one(slot: u8, candidate: Option<Candidate>) -> Places<A>
        requires { IfSome candidate (λ c. c.slot ≡ slot) }
        ensures { kept_in result ≡ one_place slot candidate }
    {
        let Some(candidate) = candidate else {
            return Places::Vacant(slot);
        };
        let rest = WithoutMed::of(candidate);
        match candidate.med {
            Some(med) => Places::AloneWithMed(med, rest),
            None => Places::Alone(rest),
        }
    }

    // Makes a place beside the one that stands alone.
    fn add_second(
        &mut self,
        alloc: &A,
        first: u8,
        candidate: Option<Candidate>,
        slot: u8,
    ) -> Result<(), AllocError>
    where
        A: Clone,
        requires { kept_in self.old ≡ one_place first candidate }
        ensures places { (kept_in self.new).places ≡ (if is_ok result && not (is_placed (kept_in self.old).places slot) then (kept_in self.old).places ++ (slot, None) ∷ [] else (kept_in self.old).places) }
        ensures best { (kept_in self.new).best ≡ (kept_in self.old).best }
        ensures there { is_placed (kept_in self.old).places slot ≡ true → is_ok result ≡ true }
    {
        if slot == first {
            return Ok(());
        }
        *self = Places::Many(ManyPlaces::pair(alloc.clone()?, first, candidate, slot)?);
        Ok(())
    }

    // Makes the changes of the candidate of a slot that stands alone: none is compared with it.
    fn change_one(
        &mut self,
        meter: &mut Meter,
        changes: &[Change],
        slot: u8,
        candidate: Option<Candidate>,
    )
        requires one { kept_in self.old ≡ one_place slot candidate }
        requires kept { IsKept (kept_in self.old) }
        requires named { All (λ c. IfSome c.candidate (λ route. route.slot ≡ c.slot)) changes.now }
        requires apart { AreApart (candidate_of (with_changes changes.now (kept_in self.old).places)) }
        ensures places { (kept_in self.new).places ≡ with_changes changes.now (kept_in self.old).places }
        ensures kept { IsKept (kept_in self.new) }
        ensures counted { (meter.old.count ≤ meter.new.count) × (meter.new.count ≤ meter.old.count + 1) }
        ensures never { with_changes changes.now (kept_in self.old).places ≡ (kept_in self.old).places → meter.new.count ≡ meter.old.count }
        ensures made { with_changes changes.now (kept_in self.old).places ≢ (kept_in self.old).places → meter.new.count ≡ min (meter.old.count + 1) (2 ^ 64 - 1) }
        ensures chosen { (kept_in self.new).best ≢ (kept_in self.old).best → meter.new.count ≡ min (meter.old.count + 1) (2 ^ 64 - 1) }
    {
        let renewed = after(changes, slot, candidate);
        if !is_same(renewed, candidate) {
            count_choice(meter);
            *self = Places::one(slot, renewed);
        }
    }

    // The slot leaves one that stands alone, which may be itself.
    fn leave_one(
        &mut self,
        meter: &mut Meter,
        first: u8,
        candidate: Option<Candidate>,
        slot: u8,
    ) -> bool
        requires one { kept_in self.old ≡ one_place first candidate }
        requires kept { IsKept (kept_in self.old) }
        ensures places { (kept_in self.new).places ≡ without_slot slot (kept_in self.old).places }
        ensures kept { IsKept (kept_in self.new) }
        ensures counted { (meter.old.count ≤ meter.new.count) × (meter.new.count ≤ meter.old.count + 1) }
        ensures never { candidate_of (kept_in self.old).places slot ≡ None → meter.new.count ≡ meter.old.count }
        ensures gone { candidate_of (kept_in self.old).places slot ≢ None → meter.new.count ≡ min (meter.old.count + 1) (2 ^ 64 - 1) }
        ensures chosen { (kept_in self.new).best ≢ (kept_in self.old).best → meter.new.count ≡ min (meter.old.count + 1) (2 ^ 64 - 1) }
        ensures empty { IsTrue result ↔ ((kept_in self.new).places ≡ []) }
    {
        if slot != first {
            return false;
        }
        if candidate.is_some() {
            count_choice(meter);
        }
        *self = Places::Nobody;
        true
    }
}

impl<A: Allocator + Clone> Book<A> for LiveBook<A> {
    ghost kept = { λ book. book };

    fn of(alloc: &A, slot: u8) -> Result<Self, AllocError> {
        Ok(LiveBook {
            places: Places::Vacant(slot),
            alloc: alloc.clone()?,
        })
    }

    fn add(&mut self, slot: u8) -> Result<(), AllocError> {
        match &mut self.places {
            Places::Many(many) => many.add(slot),
            Places::Alone(rest) => {
                let candidate = rest.with(None);
                self.places
                    .add_second(&self.alloc, candidate.slot, Some(candidate), slot)
            }
            Places::AloneWithMed(med, rest) => {
                let candidate = rest.with(Some(*med));
                self.places
                    .add_second(&self.alloc, candidate.slot, Some(candidate), slot)
            }
            Places::Vacant(first) => {
                let first = *first;
                self.places.add_second(&self.alloc, first, None, slot)
            }
            Places::Nobody => {
                self.places = Places::Vacant(slot);
                Ok(())
            }
        }
    }

    fn change(&mut self, meter: &mut Meter, changes: &[Change]) {
        match &mut self.places {
            Places::Many(many) => many.change(meter, changes),
            Places::Alone(rest) => {
                let candidate = rest.with(None);
                self.places
                    .change_one(meter, changes, candidate.slot, Some(candidate));
            }
            Places::AloneWithMed(med, rest) => {
                let candidate = rest.with(Some(*med));
                self.places
                    .change_one(meter, changes, candidate.slot, Some(candidate));
            }
            Places::Vacant(slot) => {
                let slot = *slot;
                self.places.change_one(meter, changes, slot, None);
            }
            Places::Nobody => {}
        }
    }

    fn leave(&mut self, meter: &mut Meter, slot: u8) -> bool {
        match &mut self.places {
            Places::Many(many) => many.leave(meter, slot),
            Places::Alone(rest) => {
                let candidate = rest.with(None);
                self.places
                    .leave_one(meter, candidate.slot, Some(candidate), slot)
            }
            Places::AloneWithMed(med, rest) => {
                let candidate = rest.with(Some(*med));
                self.places
                    .leave_one(meter, candidate.slot, Some(candidate), slot)
            }
            Places::Vacant(first) => {
                let first = *first;
                self.places.leave_one(meter, first, None, slot)
            }
            Places::Nobody => true,
        }
    }

    fn best(&self) -> Option<Candidate> {
        match &self.places {
            Places::Many(many) => many.best(),
            Places::Alone(rest) => Some(rest.with(None)),
            Places::AloneWithMed(med, rest) => Some(rest.with(Some(*med))),
            Places::Vacant(_) | Places::Nobody => None,
        }
    }
}
