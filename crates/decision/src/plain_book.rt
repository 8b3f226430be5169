//! A book that chooses again among all candidates.
ghost use Rattle.std.specs.Prelude.{◌≡◌, ◌≤◌, ◌+◌, ◌-◌, ◌^◌, min};
ghost use Rattle.decision.specs.KeptPlaces.{ArePlaces, IsBestAt};

use crate::book::{Book, Change};
use crate::candidate::Candidate;
use crate::meter::Meter;
use crate::places::{
    Place, add_place, are_idle, candidate_at, candidates, is_count, make, remove_place,
};
use crate::selection::choose;
use std::alloc::{AllocError, Allocator, Global};
use std::marker::Model;

/// A book that keeps the slots that have a place, with their candidates, and the slot of the best one. It chooses among
/// all candidates where one of them changes.
#[derive(Drop)]
pub struct PlainBook<A: Allocator = Global> {
    places: Vec<Place, A>,
    best: Option<u8>,
}

impl<A: Allocator> Model for PlainBook<A> {
    ghost use Rattle.std.specs.Prelude.{option_and_then};
    ghost use Rattle.decision.specs.BookContents.{Kept, candidate_of};

    ghost Value = { Kept };

    ghost view = { λ b. record { places = b.places.items; best = option_and_then (candidate_of b.places.items) b.best } };
}

impl<A: Allocator> PlainBook<A> {
    // Chooses among the candidates.
    fn choose_again(&mut self, meter: &mut Meter)
        requires { ArePlaces self.old.places }
        ensures places { self.new.places ≡ self.old.places }
        ensures best { IsBestAt self.new.places self.new.best }
        ensures counted { (meter.old.count ≤ meter.new.count) × (meter.new.count ≤ meter.old.count + 1) }
        ensures chosen { meter.new.count ≡ min (meter.old.count + 1) (2 ^ 64 - 1) }
    {
        is_count(meter.count);
        let candidates = candidates(&self.places);
        self.best = match choose(meter, &candidates) {
            Some(best) => Some(best.slot),
            None => None,
        };
    }
}

impl<A: Allocator + Clone> Book<A> for PlainBook<A> {
    ghost kept = { λ book. book };

    fn of(alloc: &A, slot: u8) -> Result<Self, AllocError> {
        let mut places = Vec::new(alloc.clone()?);
        places.reserve_exact(1)?;
        places.push_reserved((slot, None));
        Ok(PlainBook { places, best: None })
    }

    fn add(&mut self, slot: u8) -> Result<(), AllocError> {
        add_place(&mut self.places, slot)?;
        Ok(())
    }

    fn change(&mut self, meter: &mut Meter, changes: &[Change]) {
        if are_idle(changes, &self.places) {
            return;
        }
        make(changes, &mut self.places);
        self.choose_again(meter);
    }

    fn leave(&mut self, meter: &mut Meter, slot: u8) -> bool {
        let gone = candidate_at(&self.places, slot);
        remove_place(&mut self.places, slot);
        if gone.is_some() {
            self.choose_again(meter);
        }
        self.places.is_empty()
    }

    fn best(&self) -> Option<Candidate> {
        match self.best {
            Some(slot) => candidate_at(&self.places, slot),
            None => None,
        }
    }
}
