//! What changed from one set of payloads to another.
ghost use Rattle.std.specs.Prelude.{◌≡◌, List, None, IfOk, OnOk, OnErr};
ghost use Rattle.net_prefix.specs.declared.payload.Vrp.{Vrp};
ghost use Rattle.net_prefix.specs.PayloadSets.{IsPayloadSet, has};
ghost use Rattle.vrp_delta.specs.Delta.{Change, IsApplied, IsFirstFault, announces_known, change_between, change_fault, is_left, lacked, withdraws_unknown};
ghost use Rattle.vrp_delta.specs.Walks.{from_payload, is_first};

use crate::fault::DeltaFault;
use net_prefix::Vrp;
use std::alloc::{AllocError, Allocator, Global};
use std::collections::BTreeSet;
use std::marker::Model;

/// The payloads that leave a set, and those that come into it.
#[derive(Drop)]
pub struct Delta<A: Allocator = Global> {
    pub withdrawn: BTreeSet<Vrp, A>,
    pub announced: BTreeSet<Vrp, A>,
}

impl<A: Allocator> Model for Delta<A> {
    ghost use Rattle.vrp_delta.specs.Delta.{Change};

    ghost Value = { Change };

    ghost view = { λ delta. record { withdrawn = delta.withdrawn.keys; announced = delta.announced.keys } };
}

/// Makes the change to the set: takes out what is withdrawn, then puts in what is announced.
///
/// The first fault of: a withdrawn payload that isn't in the set; an announced one that is in what is left; no
/// memory for the new set. With any of them the set stays as it was.
pub fn apply<A: Allocator + Clone>(
    set: &mut BTreeSet<Vrp, A>,
    delta: &Delta<A>,
) -> Result<(), DeltaFault>
    ensures ok { OnOk result (IsApplied set.old.keys delta.now set.new.keys) }
    ensures fault { IsFirstFault (change_fault set.old.keys delta.now) result }
    ensures err { OnErr result (set.new.keys ≡ set.old.keys) }
{
    if withdraws_unknown(set, delta) {
        return Err(DeltaFault::Unknown);
    }
    if announces_known(set, delta) {
        return Err(DeltaFault::Duplicate);
    }
    match changed(set, delta) {
        Ok(after) => {
            *set = after;
            Ok(())
        }
        Err(_) => Err(DeltaFault::NoMemory),
    }
}

fn withdraws_unknown<A: Allocator>(set: &BTreeSet<Vrp, A>, delta: &Delta<A>) -> bool
    ensures { result ≡ withdraws_unknown set.now.keys delta.now }
{
    for payload in &delta.withdrawn {
        if !set.contains(payload) {
            return true;
        }
    }
    false
}

fn announces_known<A: Allocator>(set: &BTreeSet<Vrp, A>, delta: &Delta<A>) -> bool
    ensures { result ≡ announces_known set.now.keys delta.now }
{
    for payload in &delta.announced {
        if is_left(set, delta, payload) {
            return true;
        }
    }
    false
}

fn is_left<A: Allocator>(set: &BTreeSet<Vrp, A>, delta: &Delta<A>, payload: &Vrp) -> bool
    ensures { result ≡ is_left set.now.keys delta.now payload.now }
{
    set.contains(payload) && !delta.withdrawn.contains(payload)
}

// The set after the change. The one that is handed in stays, since memory may end half-way.
fn changed<A: Allocator + Clone>(
    set: &BTreeSet<Vrp, A>,
    delta: &Delta<A>,
) -> Result<BTreeSet<Vrp, A>, AllocError>
    ensures { IfOk result (λ after. IsApplied set.now.keys delta.now after.keys) }
{
    let left = (set - &delta.withdrawn)?;
    &left | &delta.announced
}

/// What changed from the old list of a set to the new one.
pub(crate) fn delta_between<A: Allocator + Clone>(
    alloc: A,
    old: &[Vrp],
    new: &[Vrp],
) -> Result<Delta<A>, AllocError>
    requires old { IsPayloadSet old.now }
    requires new { IsPayloadSet new.now }
    ensures { IfOk result (λ delta. delta ≡ change_between old.now new.now) }
{
    let withdrawn = lacked_by(alloc.clone()?, old, new)?;
    let announced = lacked_by(alloc, new, old)?;
    Ok(Delta {
        withdrawn,
        announced,
    })
}

// The payloads of the set that the other lacks. Both lists rise, so that each is walked once.
fn lacked_by<A: Allocator + Clone>(
    alloc: A,
    set: &[Vrp],
    other: &[Vrp],
) -> Result<BTreeSet<Vrp, A>, AllocError>
    requires set { IsPayloadSet set.now }
    requires other { IsPayloadSet other.now }
    ensures { IfOk result (λ found. found.keys ≡ lacked set.now other.now) }
{
    let mut found = BTreeSet::new(alloc);
    let mut rest = other;
    for payload in set {
        rest = not_below(rest, payload);
        if !begins_with(rest, payload) {
            found.insert(*payload)?;
        }
    }
    Ok(found)
}

// The list from its first payload on that isn't below the given one.
fn not_below<'a>(list: &'a [Vrp], payload: &Vrp) -> &'a [Vrp]
    ensures { result.now ≡ from_payload payload.now list.now }
{
    for (place, member) in list.iter().enumerate() {
        if member >= payload {
            return &list[place..];
        }
    }
    &[]
}

fn begins_with(list: &[Vrp], payload: &Vrp) -> bool
    ensures { result ≡ is_first payload.now list.now }
{
    match list.first() {
        Some(first) => first == payload,
        None => false,
    }
}

/// The delta between two sets, applied to the old one, is without a fault and leaves the new one.
pub fn delta_applied()
    ensures fault { (old new : List Vrp) → change_fault old (change_between old new) ≡ None }
    ensures new { (old new after : List Vrp) → IsPayloadSet new → IsPayloadSet after → IsApplied old (change_between old new) after → after ≡ new }
{}
