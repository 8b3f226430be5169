//! Changes of a set where it stands, and of what follows it.
ghost use Rattle.std.specs.Prelude.{◌≡◌, ◌≢◌, ◌&&◌, ◌||◌, true, false, not, [], OnOk, OnErr, IfOk};
ghost use Rattle.net_prefix.specs.declared.payload.Vrp.{Vrp};
ghost use Rattle.net_prefix.specs.PayloadSets.{IsPayloadSet, has};
ghost use Rattle.vrp_delta.specs.Delta.{IsApplied, change_between, lacked};
ghost use Rattle.vrp_delta.specs.Keeping.{IsChangeOf, no_change};
ghost use Rattle.vrp_delta.specs.Staged.{Rises, came, left};
ghost use Rattle.vrp_delta.specs.Steps.{came_all, left_all};

use crate::delta::Delta;
use crate::keeper::Keeper;
use net_prefix::Vrp;
use std::alloc::{AllocError, Allocator};
use std::collections::BTreeSet;

impl<A: Allocator + Clone> Delta<A> {
    /// No change.
    pub fn new(alloc: A) -> Result<Self, AllocError>
        ensures { IfOk result (λ delta. delta ≡ no_change) }
    {
        let withdrawn = BTreeSet::new(alloc.clone()?);
        Ok(Delta {
            withdrawn,
            announced: BTreeSet::new(alloc),
        })
    }

    /// What changed from the old set to the new one.
    pub fn between(old: &BTreeSet<Vrp, A>, new: &BTreeSet<Vrp, A>) -> Result<Self, AllocError>
        ensures { IfOk result (λ delta. delta ≡ change_between old.now.keys new.now.keys) }
    {
        let withdrawn = payloads_lacked(old, new)?;
        let announced = payloads_lacked(new, old)?;
        Ok(Delta {
            withdrawn,
            announced,
        })
    }
}

/// The set that starts from another one changes payload by payload.
impl<A: Allocator + Clone> Delta<A> {
    /// A payload comes that the set lacks. It may have left what the set started from, and then needs no memory.
    pub fn come(&mut self, payload: Vrp) -> Result<(), AllocError>
        requires { IsPayloadSet self.old.withdrawn }
        ensures ok { OnOk result (self.new ≡ came payload self.old) }
        ensures err { OnErr result (self.new ≡ self.old) }
        ensures needs { OnErr result (has self.old.withdrawn payload ≡ false) }
        ensures lacks { OnErr result (has self.old.announced payload ≡ false) }
    {
        if self.withdrawn.remove(&payload) {
            return Ok(());
        }
        match self.announced.insert(payload) {
            Ok(_) => Ok(()),
            Err(_) => Err(AllocError),
        }
    }

    /// A payload leaves that the set has. It may have come to what the set started from, and then needs no memory.
    pub fn leave(&mut self, payload: Vrp) -> Result<(), AllocError>
        requires { IsPayloadSet self.old.announced }
        ensures ok { OnOk result (self.new ≡ left payload self.old) }
        ensures err { OnErr result (self.new ≡ self.old) }
        ensures needs { OnErr result (has self.old.announced payload ≡ false) }
        ensures lacks { OnErr result (has self.old.withdrawn payload ≡ false) }
    {
        if self.announced.remove(&payload) {
            return Ok(());
        }
        match self.withdrawn.insert(payload) {
            Ok(_) => Ok(()),
            Err(_) => Err(AllocError),
        }
    }

    // These payloads leave, one after another.
    pub(crate) fn leave_all(&mut self, payloads: &[Vrp]) -> Result<(), AllocError>
        requires { Rises self.old }
        ensures ok { OnOk result (self.new ≡ left_all payloads.now self.old) }
        ensures rises { OnOk result (Rises self.new) }
    {
        for payload in payloads {
            self.leave(*payload)?;
        }
        Ok(())
    }

    // These payloads come.
    pub(crate) fn come_all(&mut self, payloads: &[Vrp]) -> Result<(), AllocError>
        requires { Rises self.old }
        ensures ok { OnOk result (self.new ≡ came_all payloads.now self.old) }
        ensures rises { OnOk result (Rises self.new) }
    {
        for payload in payloads {
            self.come(*payload)?;
        }
        Ok(())
    }
}

impl<A: Allocator> Delta<A> {
    /// Makes it no change.
    pub fn clear(&mut self)
        ensures { self.new ≡ no_change }
    {
        self.withdrawn.clear();
        self.announced.clear();
    }
}

/// A set follows by its members.
impl<A: Allocator + Clone> Keeper for BTreeSet<Vrp, A> {
    ghost kept = { λ set. set.keys };

    fn change<B: Allocator>(&mut self, delta: &Delta<B>) -> Result<(), AllocError> {
        put_all(self, &delta.announced)?;
        take_out_all(self, &delta.withdrawn);
        Ok(())
    }

    fn clear(&mut self) {
        BTreeSet::clear(self);
    }
}

/// Makes the change to a set and to what follows it. Where memory is refused, which only payloads that come can need,
/// both stay as they were: the last growth is that of the follower, and the time is that of the change and not of the
/// set.
pub fn change_both<A: Allocator + Clone, K: Keeper>(
    set: &mut BTreeSet<Vrp, A>,
    delta: &Delta<A>,
    keeper: &mut K,
) -> Result<(), AllocError>
    requires change { IsChangeOf set.old.keys delta.now }
    requires follows { K.kept keeper.old ≡ set.old.keys }
    ensures ok { OnOk result (IsApplied set.old.keys delta.now set.new.keys) }
    ensures err { OnErr result (set.new.keys ≡ set.old.keys) }
    ensures needs { OnErr result (delta.now.announced ≢ []) }
    ensures follows { K.kept keeper.new ≡ set.new.keys }
    ensures rises { IsPayloadSet set.new.keys }
{
    put_all(set, &delta.announced)?;
    match keeper.change(delta) {
        Ok(()) => {
            take_out_all(set, &delta.withdrawn);
            Ok(())
        }
        Err(_) => {
            take_out_all(set, &delta.announced);
            Err(AllocError)
        }
    }
}

// Puts payloads that a set lacks into it. Where memory is refused it stays as it was.
fn put_all<A: Allocator + Clone, B: Allocator>(
    set: &mut BTreeSet<Vrp, A>,
    payloads: &BTreeSet<Vrp, B>,
) -> Result<(), AllocError>
    requires { (payload : Vrp) → has payloads.now.keys payload ≡ true → has set.old.keys payload ≡ false }
    ensures ok { OnOk result ((payload : Vrp) → has set.new.keys payload ≡ (has set.old.keys payload || has payloads.now.keys payload)) }
    ensures err { OnErr result (set.new.keys ≡ set.old.keys) }
    ensures needs { OnErr result (payloads.now.keys ≢ []) }
    ensures rises { IsPayloadSet set.new.keys }
    ensures rose { IsPayloadSet set.old.keys }
{
    let _ = set.len();
    for payload in payloads {
        match set.insert(*payload) {
            Ok(_) => {}
            Err(_) => {
                take_out_all(set, payloads);
                return Err(AllocError);
            }
        }
    }
    let _ = set.len();
    Ok(())
}

// Takes payloads out of a set.
fn take_out_all<A: Allocator, B: Allocator>(set: &mut BTreeSet<Vrp, A>, payloads: &BTreeSet<Vrp, B>)
    ensures left { (payload : Vrp) → has set.new.keys payload ≡ (has set.old.keys payload && not (has payloads.now.keys payload)) }
    ensures rises { IsPayloadSet set.new.keys }
    ensures rose { IsPayloadSet set.old.keys }
{
    let _ = set.len();
    for payload in payloads {
        set.remove(payload);
    }
    let _ = set.len();
}

// The payloads of the set that the other lacks.
fn payloads_lacked<A: Allocator + Clone>(
    set: &BTreeSet<Vrp, A>,
    other: &BTreeSet<Vrp, A>,
) -> Result<BTreeSet<Vrp, A>, AllocError>
    ensures { IfOk result (λ found. found.keys ≡ lacked set.now.keys other.now.keys) }
{
    let _ = set.len();
    set - other
}
