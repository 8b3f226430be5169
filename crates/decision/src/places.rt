//! What is done with the places of a prefix.
ghost use Rattle.std.specs.Prelude.{◌≡◌, ◌≤◌, ◌<◌, ◌^◌, ◌++◌, ◌∷◌, ◌&&◌, [], None, true, IsTrue, ◌↔◌, is_ok, length, nat_eq, not, if◌then◌else◌};
ghost use Rattle.std.specs.Map.{lookup};
ghost use Rattle.decision.specs.BookContents.{changed, candidate_of, is_placed};
ghost use Rattle.decision.specs.KeptPlaces.{candidates_of, with_changes, without_slot};

use crate::book::Change;
use crate::candidate::{Candidate, MAX_CANDIDATES};
use arrayvec::ArrayVec;
use std::alloc::{AllocError, Allocator};

// A slot, and its candidate.
pub(crate) type Place = (u8, Option<Candidate>);

// A count has 64 bits.
pub(crate) fn is_count(count: u64)
    ensures { count < 2 ^ 64 }
{}

// Makes a place for the slot, and takes no more memory than it needs.
pub(crate) fn add_place<A: Allocator>(
    places: &mut Vec<Place, A>,
    slot: u8,
) -> Result<(), AllocError>
    ensures places { places.new.items ≡ (if is_ok result && not (is_placed places.old.items slot) then places.old.items ++ (slot, None) ∷ [] else places.old.items) }
    ensures few { length places.old.items ≤ 65 → length places.new.items ≤ 65 }
    ensures there { is_placed places.old.items slot ≡ true → is_ok result ≡ true }
{
    if has_place(places, slot) {
        return Ok(());
    }
    if places.len() >= MAX_CANDIDATES {
        return Err(AllocError);
    }
    places.reserve_exact(1)?;
    places.push_reserved((slot, None));
    Ok(())
}

// Takes the slot's place away.
pub(crate) fn remove_place<A: Allocator>(places: &mut Vec<Place, A>, slot: u8)
    ensures { places.new.items ≡ without_slot slot places.old.items }
{
    places.retain(|place| slot != place.0);
}

// Whether the slot has a place.
fn has_place(places: &[Place], slot: u8) -> bool
    ensures { result ≡ is_placed places.now slot }
{
    place_at(places, slot).is_some()
}

// The candidate of the slot.
pub(crate) fn candidate_at(places: &[Place], slot: u8) -> Option<Candidate>
    ensures { result ≡ candidate_of places.now slot }
{
    match place_at(places, slot) {
        Some(candidate) => candidate,
        None => None,
    }
}

// What is at the slot's place, if it has one.
fn place_at(places: &[Place], slot: u8) -> Option<Option<Candidate>>
    ensures { result ≡ lookup (nat_eq slot) places.now }
{
    for place in places {
        if place.0 == slot {
            return Some(place.1);
        }
    }
    None
}

// All candidates.
pub(crate) fn candidates(places: &[Place]) -> ArrayVec<Candidate, MAX_CANDIDATES>
    requires { length places.now ≤ 65 }
    ensures { result.items ≡ candidates_of places.now }
{
    let mut candidates = ArrayVec::new();
    for place in places {
        if let Some(candidate) = place.1 {
            candidates.push(candidate);
        }
    }
    candidates
}

// What the changes make of a slot's candidate: the last one of the slot holds.
fn after(changes: &[Change], slot: u8, candidate: Option<Candidate>) -> Option<Candidate>
    ensures { result ≡ changed changes.now slot candidate }
{
    changes.iter().fold(candidate, |candidate, change| {
        if change.slot == slot {
            change.candidate
        } else {
            candidate
        }
    })
}

// Whether the changes leave each candidate as it is.
pub(crate) fn are_idle(changes: &[Change], places: &[Place]) -> bool
    ensures { IsTrue result ↔ (with_changes changes.now places.now ≡ places.now) }
{
    for place in places {
        if !is_same(after(changes, place.0, place.1), place.1) {
            return false;
        }
    }
    true
}

// Whether both are one candidate, or none.
fn is_same(first: Option<Candidate>, second: Option<Candidate>) -> bool
    ensures { IsTrue result ↔ (first ≡ second) }
{
    match (first, second) {
        (Some(first), Some(second)) => is_one(&first, &second),
        (None, None) => true,
        _ => false,
    }
}

// Whether both are one candidate.
fn is_one(first: &Candidate, second: &Candidate) -> bool
    ensures { IsTrue result ↔ (first.now ≡ second.now) }
{
    first == second
}

// Makes the changes.
pub(crate) fn make<A: Allocator>(changes: &[Change], places: &mut Vec<Place, A>)
    ensures { places.new.items ≡ with_changes changes.now places.old.items }
{
    make_each(changes, places.as_mut_slice());
}

fn make_each(changes: &[Change], places: &mut [Place])
    ensures { places.new ≡ with_changes changes.now places.old }
{
    for place in places.iter_mut() {
        place.1 = after(changes, place.0, place.1);
    }
}
