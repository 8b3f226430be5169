//! The versions that were published.
ghost use Rattle.std.specs.Prelude.{◌≡◌, ◌≢◌, ◌↔◌, ◌∷◌, ℕ, List, [], false, take, IsTrue, IsSome, IfSome, IfNone, OnOk, OnErr, IfOk, slice_get};
ghost use Rattle.std.specs.List.{All, AllPairs, Contains};
ghost use Rattle.std.specs.Option.{option_copied};
ghost use Rattle.std.specs.Rc.{rc_slice_items};
ghost use Rattle.net_prefix.specs.declared.payload.Vrp.{Vrp};
ghost use Rattle.net_prefix.specs.PayloadSets.{IsPayloadSet};
ghost use Rattle.vrp_delta.specs.Delta.{change_between};
ghost use Rattle.vrp_delta.specs.Staged.{Rises};
ghost use Rattle.vrp_delta.specs.Steps.{joined, since};
ghost use Rattle.vrp_delta.specs.Versions.{Version, change_from, is_newest_set, is_same_set, kept_after, kept_versions, newest_serial, published, published_after, version_of};

use crate::delta::{Delta, delta_between};
use net_prefix::Vrp;
use std::alloc::{AllocError, Allocator, Global};
use std::collections::BTreeSet;
use std::marker::Model;
use std::rc::RcSlice;

/// How many versions are kept: the newest, and the 64 before it.
pub const KEPT_VERSIONS: usize = 65;

/// A version: its serial, and its payloads, the least first, which all who tell them share.
#[derive(Drop)]
pub struct Snapshot<A: Allocator = Global> {
    serial: u32,
    payloads: RcSlice<Vrp, A>,
}

impl<A: Allocator> Model for Snapshot<A> {
    ghost use Rattle.std.specs.Rc.{rc_slice_items};
    ghost use Rattle.net_prefix.specs.PayloadSets.{IsPayloadSet};
    ghost use Rattle.vrp_delta.specs.Versions.{Version};

    ghost Value = { Version };

    ghost view = { λ snapshot. record { serial = snapshot.serial; set = rc_slice_items snapshot.payloads } };

    ghost invariant = { λ snapshot. IsPayloadSet (rc_slice_items snapshot.payloads) };
}

impl<A: Allocator> Snapshot<A> {
    /// The serial of the version.
    pub fn serial(&self) -> u32
        ensures { result ≡ self.now.serial }
    {
        self.serial
    }

    /// The payloads of the version, the least first.
    pub fn payloads(&self) -> &[Vrp]
        ensures set { result.now ≡ self.now.set }
        ensures rises { IsPayloadSet self.now.set }
    {
        self.payloads.as_slice()
    }

    /// Another owner of the payloads. They aren't copied.
    pub fn share(&self) -> Result<RcSlice<Vrp, A>, AllocError>
        ensures { IfOk result (λ payloads. rc_slice_items payloads ≡ self.now.set) }
    {
        self.payloads.clone()
    }
}

/// A version that isn't the newest: its serial, and what changed from it to the next one.
#[derive(Drop)]
struct OlderVersion<A: Allocator = Global> {
    serial: u32,
    withdrawn: RcSlice<Vrp, A>,
    announced: RcSlice<Vrp, A>,
}

impl<A: Allocator> Model for OlderVersion<A> {
    ghost use Rattle.std.specs.Rc.{rc_slice_items};
    ghost use Rattle.vrp_delta.specs.Steps.{Step};

    ghost Value = { Step };

    ghost view = { λ older. record { serial = older.serial; change = record { withdrawn = rc_slice_items older.withdrawn; announced = rc_slice_items older.announced } } };
}

impl<A: Allocator + Clone> OlderVersion<A> {
    // A version, by what changed from it to a newer one.
    fn of_change(alloc: A, old: &Snapshot<A>, new: &Snapshot<A>) -> Result<Self, AllocError>
        ensures { IfOk result (λ older. older ≡ record { serial = old.now.serial; change = change_between old.now.set new.now.set }) }
    {
        let change = delta_between(alloc.clone()?, old.payloads(), new.payloads())?;
        let withdrawn = listed(alloc.clone()?, &change.withdrawn)?;
        let announced = listed(alloc, &change.announced)?;
        Ok(OlderVersion {
            serial: old.serial(),
            withdrawn,
            announced,
        })
    }

    // Its change goes behind another one.
    fn follow(&self, change: &mut Delta<A>) -> Result<(), AllocError>
        requires { Rises change.old }
        ensures ok { OnOk result (change.new ≡ joined self.now.change change.old) }
        ensures rises { OnOk result (Rises change.new) }
    {
        change.leave_all(self.withdrawn.as_slice())?;
        change.come_all(self.announced.as_slice())
    }
}

/// The versions that were published in one session, of which the newest ones are kept: the newest as a list, each other
/// as what changed behind it.
#[derive(Drop)]
pub struct Versions<A: Allocator = Global> {
    newest: Option<Snapshot<A>>,
    // The newest of them first.
    older: Vec<OlderVersion<A>, A>,
}

impl<A: Allocator> Model for Versions<A> {
    ghost use Rattle.std.specs.Prelude.{List};
    ghost use Rattle.vrp_delta.specs.Steps.{AreKeptSteps, versions_of};
    ghost use Rattle.vrp_delta.specs.Versions.{Version};

    ghost Value = { List Version };

    ghost view = { λ versions. versions_of versions.newest versions.older.items };

    ghost invariant = { λ versions. AreKeptSteps versions.newest versions.older.items };
}

impl<A: Allocator + Clone> Versions<A> {
    /// No versions.
    pub fn new(alloc: A) -> Self
        ensures { result ≡ [] }
    {
        Versions {
            newest: None,
            older: Vec::new(alloc),
        }
    }

    /// Publishes the set under the serial after that of the newest version, which is 1 at first, and answers the
    /// serial. The set of the newest version itself is published already, and takes no memory.
    pub fn publish<B: Allocator>(&mut self, set: &BTreeSet<Vrp, B>) -> Result<u32, AllocError>
        ensures kept { OnOk result (self.new ≡ kept_after self.old set.now.keys) }
        ensures serial { IfOk result (λ serial. serial ≡ newest_serial self.new) }
        ensures err { OnErr result (self.new ≡ self.old) }
        ensures news { OnErr result (is_newest_set self.old set.now.keys ≡ false) }
    {
        if self.is_newest(set) {
            return Ok(self.newest_serial());
        }
        let serial = self.newest_serial().wrapping_add(1);
        let payloads = listed(self.older.allocator().clone()?, set)?;
        self.succeed(Snapshot { serial, payloads })?;
        Ok(serial)
    }

    // The newest version is this one from now on.
    fn succeed(&mut self, newest: Snapshot<A>) -> Result<(), AllocError>
        ensures ok { OnOk result (self.new ≡ take kept_versions (newest ∷ self.old)) }
        ensures err { OnErr result (self.new ≡ self.old) }
    {
        let Some(old) = &self.newest else {
            self.newest = Some(newest);
            return Ok(());
        };
        let behind = OlderVersion::of_change(self.older.allocator().clone()?, old, &newest)?;
        put_behind(&mut self.older, behind)?;
        self.newest = Some(newest);
        Ok(())
    }

    /// The newest version.
    pub fn current(&self) -> Option<&Snapshot<A>>
        ensures { option_copied result ≡ slice_get self.now 0 }
    {
        self.newest.as_ref()
    }

    /// What changed from the version of the serial to the newest one, where that version is kept.
    pub fn delta_from(&self, serial: u32) -> Result<Option<Delta<A>>, AllocError>
        ensures delta { IfOk result (λ delta. delta ≡ change_from self.now serial) }
        ensures refused { OnErr result (IsSome (version_of self.now serial)) }
    {
        let Some(newest) = &self.newest else {
            return Ok(None);
        };
        if newest.serial() == serial {
            return Ok(Some(Delta::new(self.older.allocator().clone()?)?));
        }
        change_since(self.older.allocator(), self.older.as_slice(), serial)
    }

    fn newest_serial(&self) -> u32
        ensures { result ≡ newest_serial self.now }
    {
        match self.current() {
            Some(newest) => newest.serial(),
            None => 0,
        }
    }

    fn is_newest<B: Allocator>(&self, set: &BTreeSet<Vrp, B>) -> bool
        ensures { result ≡ is_newest_set self.now set.now.keys }
    {
        match self.current() {
            Some(newest) => is_same(newest.payloads(), set),
            None => false,
        }
    }
}

/// What is kept are the newest of all versions that were published.
pub fn newest_are_kept()
    ensures { (all : List Version) (set : List Vrp) → kept_after (take kept_versions all) set ≡ take kept_versions (published_after all set) }
{}

/// The version of a serial has that serial, no two kept ones have one serial, and where there is none no version has
/// it.
pub fn serials_name_versions()
    ensures found { (versions : List Version) (serial : ℕ) → IfSome (version_of versions serial) (λ version. Contains versions version × (version.serial ≡ serial)) }
    ensures differ { (sets : List (List Vrp)) → AllPairs (λ newer older. newer.serial ≢ older.serial) (take kept_versions (published sets)) }
    ensures none { (versions : List Version) (serial : ℕ) → IfNone (version_of versions serial) (All (λ version. version.serial ≢ serial) versions) }
{}

/// The set of the newest version is published already where the two are equal, and only there.
pub fn same_sets_are_equal()
    ensures { (a b : List Vrp) → IsTrue (is_same_set a b) ↔ (a ≡ b) }
{}

// A version more that isn't the newest. So many are kept that with the newest one there are KEPT_VERSIONS.
fn put_behind<A: Allocator>(
    older: &mut Vec<OlderVersion<A>, A>,
    behind: OlderVersion<A>,
) -> Result<(), AllocError>
    ensures ok { OnOk result (older.new.items ≡ take 64 (behind ∷ older.old.items)) }
    ensures err { OnErr result (older.new.items ≡ older.old.items) }
{
    older.insert(0, behind)?;
    older.truncate(KEPT_VERSIONS - 1);
    Ok(())
}

// What changed since the version of the serial, by the steps from it on.
fn change_since<A: Allocator + Clone>(
    alloc: &A,
    older: &[OlderVersion<A>],
    serial: u32,
) -> Result<Option<Delta<A>>, AllocError>
    ensures change { IfOk result (λ change. change ≡ since older.now serial) }
    ensures rises { IfOk result (λ change. IfSome change Rises) }
    ensures refused { OnErr result (IsSome (since older.now serial)) }
{
    let Some((first, rest)) = older.split_first() else {
        return Ok(None);
    };
    let found = if first.serial == serial {
        Some(Delta::new(alloc.clone()?)?)
    } else {
        change_since(alloc, rest, serial)?
    };
    match found {
        Some(mut change) => {
            first.follow(&mut change)?;
            Ok(Some(change))
        }
        None => Ok(None),
    }
}

fn is_same<B: Allocator>(payloads: &[Vrp], set: &BTreeSet<Vrp, B>) -> bool
    ensures { result ≡ is_same_set payloads.now set.now.keys }
{
    payloads.iter().cmp(set.iter()).is_eq()
}

// The members of the set, the least first.
fn listed<A: Allocator + Clone, B: Allocator>(
    alloc: A,
    set: &BTreeSet<Vrp, B>,
) -> Result<RcSlice<Vrp, A>, AllocError>
    ensures items { IfOk result (λ payloads. rc_slice_items payloads ≡ set.now.keys) }
    ensures rises { IsPayloadSet set.now.keys }
{
    set.iter().copied().collect(alloc)
}
