//! Which candidates are compared with one another after a change.
ghost use Rattle.std.specs.Prelude.{◌≡◌, ℕ, ◌≤◌, ◌<◌, ◌+◌, ◌-◌, ◌^◌, [], length, map, min, MatchOption, None, Some, option_and_then};
ghost use Rattle.decision.specs.Selection.{IsSelected};
ghost use Rattle.decision.specs.BookContents.{candidate_of, changed};
ghost use Rattle.decision.specs.KeptPlaces.{ArePlaces, IsBestAt, with_changes};
ghost use Rattle.live_book.specs.NeighborBests.{AreBests, AreFair, AreFew, HaveStood, IsBestBefore, contender, contenders_of, few_with, is_in, is_kept, is_named, is_of, is_opened, keeps_lead, last_round, leads, moved, narrowed, neighbor_to_settle, opened_by, opened_of, renewed, slots_of, to_settle_at};

use crate::place::{Place, Standing};
use arrayvec::ArrayVec;
use decision::{Candidate, Change, MAX_CANDIDATES, Meter, choose};

// Who is compared: of a neighbor AS those that aren't behind; those that became the best of their AS, with the best
// of all; or the bests of all ASes.
#[derive(Clone, Copy)]
pub(crate) enum Round {
    Neighbor(u32),
    Newcomers(u8),
    Bests,
}

// Those who take part, while they are two at most.
#[derive(Clone, Copy)]
enum Few {
    Nobody,
    One(Candidate),
    Two(Candidate, Candidate),
    Many,
}

impl Few {
    // With one more behind them.
    fn with(self, candidate: Candidate) -> Few
        ensures { result ≡ few_with self candidate }
    {
        match self {
            Few::Nobody => Few::One(candidate),
            Few::One(one) => Few::Two(one, candidate),
            Few::Two(..) | Few::Many => Few::Many,
        }
    }
}

// What the changes make of a slot's candidate: the last one of the slot holds.
pub(crate) fn after(changes: &[Change], slot: u8, candidate: Option<Candidate>) -> Option<Candidate>
    ensures { result ≡ changed changes.now slot candidate }
{
    changes.iter().fold(candidate, |candidate, change| {
        if change.slot == slot {
            change.candidate
        } else {
            candidate
        }
    })
}

// Whether a change is of the slot.
fn is_named(changes: &[Change], slot: u8) -> bool
    ensures { result ≡ is_named changes.now slot }
{
    changes.iter().any(|change| change.slot == slot)
}

// The neighbor AS whose best one the changes name here.
fn opened_by(changes: &[Change], place: &Place) -> Option<u32>
    ensures { result ≡ opened_by changes.now place.now }
{
    match place.candidate() {
        Some(candidate) if place.standing().leads() && is_named(changes, place.slot()) => {
            Some(candidate.neighbor.0)
        }
        _ => None,
    }
}

// The neighbor ASes whose best one the changes name.
fn opened(changes: &[Change], places: &[Place]) -> ArrayVec<u32, MAX_CANDIDATES>
    requires { length places.now ≤ 65 }
    ensures { result.items ≡ opened_of changes.now places.now }
{
    let mut neighbors = ArrayVec::new();
    for place in places {
        if let Some(neighbor) = opened_by(changes, place) {
            neighbors.push(neighbor);
        }
    }
    neighbors
}

// Whether the candidate came by one of these neighbor ASes.
fn is_opened(opened: &[u32], candidate: Option<Candidate>) -> bool
    ensures { result ≡ is_opened opened.now candidate }
{
    match candidate {
        Some(candidate) => opened.contains(&candidate.neighbor.0),
        None => false,
    }
}

// The place after the changes, which open these neighbor ASes.
fn moved(changes: &[Change], opened: &[u32], place: &Place) -> Place
    ensures { result ≡ moved changes.now opened.now place.now }
{
    let standing = if is_named(changes, place.slot()) {
        Standing::Open
    } else if place.standing().leads() {
        Standing::Leads
    } else if is_opened(opened, place.candidate()) {
        Standing::Open
    } else {
        Standing::Behind
    };
    let candidate = after(changes, place.slot(), place.candidate());
    Place::new(place.slot(), standing, candidate)
}

// The place after the changes, where it stands alone. How it stands says nothing where it has no candidate.
pub(crate) fn renewed(changes: &[Change], place: &Place) -> Place
    ensures { result ≡ renewed changes.now place.now }
{
    Place::new(
        place.slot(),
        Standing::Won,
        after(changes, place.slot(), place.candidate()),
    )
}

fn move_each(changes: &[Change], opened: &[u32], places: &mut [Place])
    ensures { places.new ≡ map (moved changes.now opened.now) places.old }
{
    for place in places.iter_mut() {
        *place = moved(changes, opened, place);
    }
}

// Makes the changes, and opens what has to be compared.
pub(crate) fn open(changes: &[Change], places: &mut [Place])
    requires kept { ArePlaces (slots_of places.old) }
    requires bests { AreBests places.old }
    requires after { ArePlaces (with_changes changes.now (slots_of places.old)) }
    ensures moved { places.new ≡ map (moved changes.now (opened_of changes.now places.old)) places.old }
    ensures slots { slots_of places.new ≡ with_changes changes.now (slots_of places.old) }
    ensures fair { AreFair places.new }
    ensures stood { HaveStood leads places.old places.new }
{
    let neighbors = opened(changes, places);
    move_each(changes, &neighbors, places);
}

// Whether the place takes part.
fn is_in(round: Round, place: &Place) -> bool
    ensures { result ≡ is_in round place.now }
{
    match round {
        Round::Neighbor(neighbor) => {
            is_of(neighbor, place.candidate()) && !place.standing().is_behind()
        }
        Round::Newcomers(best) => {
            place.standing().leads() && (!place.standing().is_kept() || place.slot() == best)
        }
        Round::Bests => place.standing().leads(),
    }
}

// Whether the candidate came by the neighbor AS.
fn is_of(neighbor: u32, candidate: Option<Candidate>) -> bool
    ensures { result ≡ is_of neighbor candidate }
{
    match candidate {
        Some(candidate) => candidate.neighbor.0 == neighbor,
        None => false,
    }
}

// The candidate of a place that takes part.
fn contender(round: Round, place: &Place) -> Option<Candidate>
    ensures { result ≡ contender round place.now }
{
    if is_in(round, place) {
        place.candidate()
    } else {
        None
    }
}

// All who take part.
fn contenders(round: Round, places: &[Place]) -> ArrayVec<Candidate, MAX_CANDIDATES>
    requires { length places.now ≤ 65 }
    ensures { result.items ≡ contenders_of round places.now }
{
    let mut candidates = ArrayVec::new();
    for place in places {
        if let Some(candidate) = contender(round, place) {
            candidates.push(candidate);
        }
    }
    candidates
}

// Who takes part, where it is two at most.
fn gathered(round: Round, places: &[Place]) -> Few
    ensures { AreFew (contenders_of round places.now) result }
{
    let mut few = Few::Nobody;
    for place in places {
        if let Some(candidate) = contender(round, place) {
            few = few.with(candidate);
        }
    }
    few
}

// The best of those who take part. One or two, as where a prefix has no more candidates, need no list that has room for all.
fn best_in(meter: &mut Meter, round: Round, places: &[Place]) -> Option<Candidate>
    requires { ArePlaces (slots_of places.now) }
    ensures counted { meter.new.count ≡ min (meter.old.count + 1) (2 ^ 64 - 1) }
    ensures selected { MatchOption result (contenders_of round places.now ≡ []) (λ c. IsSelected (contenders_of round places.now) c) }
{
    match gathered(round, places) {
        Few::Nobody => choose(meter, &[]),
        Few::One(one) => choose(meter, &[one]),
        Few::Two(one, other) => choose(meter, &[one, other]),
        Few::Many => best_of_many(meter, round, places),
    }
}

// The same of any number. The list that has room for all is filled on entry, so it stays out of where few take part.
#[inline(never)]
fn best_of_many(meter: &mut Meter, round: Round, places: &[Place]) -> Option<Candidate>
    requires { ArePlaces (slots_of places.now) }
    ensures counted { meter.new.count ≡ min (meter.old.count + 1) (2 ^ 64 - 1) }
    ensures selected { MatchOption result (contenders_of round places.now ≡ []) (λ c. IsSelected (contenders_of round places.now) c) }
{
    choose(meter, &contenders(round, places))
}

// How a place stands where the slot has the best one of the neighbor AS.
fn narrowed(neighbor: u32, best: u8, place: &Place) -> Place
    ensures { result ≡ narrowed neighbor best place.now }
{
    let standing = if !is_of(neighbor, place.candidate()) {
        place.standing()
    } else if place.slot() != best {
        Standing::Behind
    } else if place.standing().is_kept() {
        Standing::Leads
    } else {
        Standing::Won
    };
    Place::new(place.slot(), standing, place.candidate())
}

fn narrow_each(neighbor: u32, best: u8, places: &mut [Place])
    ensures { places.new ≡ map (narrowed neighbor best) places.old }
{
    for place in places.iter_mut() {
        *place = narrowed(neighbor, best, place);
    }
}

// Compares those of one neighbor AS that aren't behind.
fn settle(neighbor: u32, places: &mut [Place])
    requires kept { ArePlaces (slots_of places.old) }
    requires fair { AreFair places.old }
    requires open { (k : ℕ) × (to_settle_at places.old k ≡ Some neighbor) }
    ensures slots { slots_of places.new ≡ slots_of places.old }
    ensures fair { AreFair places.new }
    ensures stood { HaveStood is_kept places.old places.new }
    ensures closed { (k : ℕ) → to_settle_at places.old k ≡ None → to_settle_at places.new k ≡ None }
    ensures settled { (k : ℕ) → to_settle_at places.old k ≡ Some neighbor → to_settle_at places.new k ≡ None }
{
    let mut meter = Meter::new();
    if let Some(best) = best_in(&mut meter, Round::Neighbor(neighbor), places) {
        narrow_each(neighbor, best.slot, places);
    }
}

// The neighbor AS in which the place is to be compared.
fn neighbor_to_settle(place: &Place) -> Option<u32>
    ensures { result ≡ neighbor_to_settle place.now }
{
    match (place.candidate(), place.standing()) {
        (Some(candidate), Standing::Open) => Some(candidate.neighbor.0),
        _ => None,
    }
}

// Compares each neighbor AS in which one is open.
pub(crate) fn settle_each(places: &mut [Place])
    requires kept { ArePlaces (slots_of places.old) }
    requires fair { AreFair places.old }
    ensures slots { slots_of places.new ≡ slots_of places.old }
    ensures bests { AreBests places.new }
    ensures stood { HaveStood is_kept places.old places.new }
{
    for index in 0..places.len() {
        if let Some(neighbor) = neighbor_to_settle(&places[index]) {
            settle(neighbor, places);
        }
    }
}

// Whether the slot has the best one of its neighbor AS, as before.
fn keeps_lead(places: &[Place], slot: u8) -> bool
    ensures { result ≡ keeps_lead places.now slot }
{
    places
        .iter()
        .any(|place| place.slot() == slot && place.standing().is_kept())
}

// Who is compared for the best of all: it and those that became the best of their AS, or all bests where it is none now.
fn last_round(places: &[Place], best: Option<u8>) -> Round
    ensures { result ≡ last_round places.now best }
{
    match best {
        Some(slot) if keeps_lead(places, slot) => Round::Newcomers(slot),
        _ => Round::Bests,
    }
}

// A count has 64 bits.
fn is_count(count: u64)
    ensures { count < 2 ^ 64 }
{}

// Counts a choice that compares none.
pub(crate) fn count_choice(meter: &mut Meter)
    ensures counted { (meter.old.count ≤ meter.new.count) × (meter.new.count ≤ meter.old.count + 1) }
    ensures chosen { meter.new.count ≡ min (meter.old.count + 1) (2 ^ 64 - 1) }
{
    is_count(meter.count());
    meter.add();
}

// The slot of the best of all.
pub(crate) fn best_of(meter: &mut Meter, places: &[Place], best: Option<u8>) -> Option<u8>
    requires kept { ArePlaces (slots_of places.now) }
    requires bests { AreBests places.now }
    requires before { IsBestBefore places.now best }
    ensures best { IsBestAt (slots_of places.now) (option_and_then (candidate_of (slots_of places.now)) result) }
    ensures counted { (meter.old.count ≤ meter.new.count) × (meter.new.count ≤ meter.old.count + 1) }
    ensures chosen { meter.new.count ≡ min (meter.old.count + 1) (2 ^ 64 - 1) }
{
    is_count(meter.count());
    match best_in(meter, last_round(places, best), places) {
        Some(best) => Some(best.slot),
        None => None,
    }
}
