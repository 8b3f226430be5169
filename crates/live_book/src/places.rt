//! What is done with the places of a prefix.
ghost use Rattle.std.specs.Prelude.{◌≡◌, ◌≤◌, ◌+◌, ◌-◌, ◌^◌, ◌++◌, ◌∷◌, ◌&&◌, [], true, IfOk, IsTrue, ◌↔◌, filter, is_ok, length, max, min, nat_eq, not, option_and_then, vec_capacity, vec_len, if◌then◌else◌};
ghost use Rattle.std.specs.Map.{lookup};
ghost use Rattle.decision.specs.BookContents.{candidate_of, is_placed};
ghost use Rattle.decision.specs.KeptPlaces.{ArePlaces, IsBestAt, with_changes};
ghost use Rattle.live_book.specs.NeighborBests.{AreBests, HaveStood, empty_place, first_place, leads, slots_of};

use crate::comparing::{after, count_choice, open, renewed, settle_each};
use crate::place::{Place, Standing};
use decision::{Candidate, Change, MAX_CANDIDATES, Meter};
use std::alloc::{AllocError, Allocator};

// The place of a slot that stood alone, whose candidate is the best one, and one for another slot, in the room of both.
pub(crate) fn two_places<A: Allocator>(
    alloc: A,
    first: u8,
    candidate: Option<Candidate>,
    second: u8,
) -> Result<Vec<Place, A>, AllocError>
    ensures places { IfOk result (λ places. places.items ≡ first_place first candidate ∷ empty_place second ∷ []) }
    ensures room { IfOk result (λ places. vec_capacity places ≡ 2) }
{
    let mut places = Vec::with_capacity(alloc, 2)?;
    places.push_reserved(Place::new(first, Standing::Leads, candidate));
    places.push_reserved(Place::of(second));
    Ok(places)
}

// Makes a place for the slot, and takes no more memory than it needs.
pub(crate) fn add_place<A: Allocator>(
    places: &mut Vec<Place, A>,
    slot: u8,
) -> Result<(), AllocError>
    ensures places { places.new.items ≡ (if is_ok result && not (is_placed (slots_of places.old.items) slot) then places.old.items ++ empty_place slot ∷ [] else places.old.items) }
    ensures few { length places.old.items ≤ 65 → length places.new.items ≤ 65 }
    ensures there { is_placed (slots_of places.old.items) slot ≡ true → is_ok result ≡ true }
    ensures room { vec_capacity places.new ≤ max (vec_capacity places.old) (vec_len places.new) }
{
    if place_at(places, slot).is_some() {
        return Ok(());
    }
    if places.len() >= MAX_CANDIDATES {
        return Err(AllocError);
    }
    places.reserve_exact(1)?;
    places.push_reserved(Place::of(slot));
    Ok(())
}

// Takes the slot's place away.
pub(crate) fn remove_place<A: Allocator>(places: &mut Vec<Place, A>, slot: u8)
    ensures { places.new.items ≡ filter (λ place. not (nat_eq slot place.slot)) places.old.items }
{
    places.retain(|place| slot != place.slot());
}

// What is at the slot's place, if it has one.
pub(crate) fn place_at(places: &[Place], slot: u8) -> Option<Option<Candidate>>
    ensures { result ≡ lookup (nat_eq slot) (slots_of places.now) }
{
    for place in places {
        if place.slot() == slot {
            return Some(place.candidate());
        }
    }
    None
}

// Whether the changes leave each candidate as it is.
pub(crate) fn are_idle(changes: &[Change], places: &[Place]) -> bool
    ensures { IsTrue result ↔ (with_changes changes.now (slots_of places.now) ≡ slots_of places.now) }
{
    for place in places {
        let candidate = place.candidate();
        if !is_same(after(changes, place.slot(), candidate), candidate) {
            return false;
        }
    }
    true
}

// Whether both are one candidate, or none.
pub(crate) fn is_same(first: Option<Candidate>, second: Option<Candidate>) -> bool
    ensures { IsTrue result ↔ (first ≡ second) }
{
    match (first, second) {
        (Some(first), Some(second)) => first == second,
        (None, None) => true,
        _ => false,
    }
}

// Makes the changes of a place that stands alone, and answers the slot of its candidate: none is compared with it.
pub(crate) fn renew<A: Allocator>(
    meter: &mut Meter,
    changes: &[Change],
    places: &mut Vec<Place, A>,
) -> Option<u8>
    requires alone { length places.old.items ≡ 1 }
    requires after { ArePlaces (with_changes changes.now (slots_of places.old.items)) }
    ensures slots { slots_of places.new.items ≡ with_changes changes.now (slots_of places.old.items) }
    ensures bests { AreBests places.new.items }
    ensures best { IsBestAt (slots_of places.new.items) (option_and_then (candidate_of (slots_of places.new.items)) result) }
    ensures counted { (meter.old.count ≤ meter.new.count) × (meter.new.count ≤ meter.old.count + 1) }
    ensures chosen { meter.new.count ≡ min (meter.old.count + 1) (2 ^ 64 - 1) }
{
    count_choice(meter);
    let place = renewed(changes, &places[0]);
    places[0] = place;
    place.candidate().map(|candidate| candidate.slot)
}

// Makes the changes, and finds the best one of each neighbor AS.
pub(crate) fn make<A: Allocator>(changes: &[Change], places: &mut Vec<Place, A>)
    requires kept { ArePlaces (slots_of places.old.items) }
    requires bests { AreBests places.old.items }
    requires after { ArePlaces (with_changes changes.now (slots_of places.old.items)) }
    ensures slots { slots_of places.new.items ≡ with_changes changes.now (slots_of places.old.items) }
    ensures bests { AreBests places.new.items }
    ensures stood { HaveStood leads places.old.items places.new.items }
{
    make_each(changes, places.as_mut_slice());
}

fn make_each(changes: &[Change], places: &mut [Place])
    requires kept { ArePlaces (slots_of places.old) }
    requires bests { AreBests places.old }
    requires after { ArePlaces (with_changes changes.now (slots_of places.old)) }
    ensures slots { slots_of places.new ≡ with_changes changes.now (slots_of places.old) }
    ensures bests { AreBests places.new }
    ensures stood { HaveStood leads places.old places.new }
{
    open(changes, places);
    settle_each(places);
}
