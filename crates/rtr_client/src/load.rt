//! A load in progress: what it changes of the payloads that it started from.
ghost use Rattle.std.specs.Prelude.{◌≡◌, [], OnOk, OnErr, false};
ghost use Rattle.net_prefix.specs.PayloadSets.{has};
ghost use Rattle.vrp_delta.specs.Delta.{change_between};
ghost use Rattle.vrp_delta.specs.Keeping.{no_change};
ghost use Rattle.vrp_delta.specs.Versions.{is_same_set};
ghost use Rattle.rtr_client.specs.Book.{loaded_from, start_of};

use net_prefix::Vrp;
use std::alloc::{AllocError, Allocator};
use std::collections::BTreeSet;
use std::mem;
use vrp_delta::Delta;

/// Whether a payload is among those of the load, which starts from the payloads in force after a Serial Query alone.
pub fn is_loaded<A: Allocator>(
    serially: bool,
    in_force: &BTreeSet<Vrp, A>,
    load: &Delta<A>,
    payload: &Vrp,
) -> bool
    ensures { result ≡ has (loaded_from (start_of serially in_force.now.keys) load.now) payload.now }
{
    if load.announced.contains(payload) {
        return true;
    }
    if load.withdrawn.contains(payload) {
        return false;
    }
    serially && in_force.contains(payload)
}

/// A load that started from no payloads becomes a change of those in force. Where it has just those it needs no memory.
#[tactic(auto, using(crate::proofs::Books::nothing_changes))]
pub fn turn_against<A: Allocator + Clone>(
    in_force: &BTreeSet<Vrp, A>,
    load: &mut Delta<A>,
) -> Result<(), AllocError>
    ensures ok { OnOk result (load.new ≡ change_between in_force.now.keys load.old.announced) }
    ensures err { OnErr result (load.new ≡ load.old) }
    ensures needs { OnErr result (is_same_set load.old.announced in_force.now.keys ≡ false) }
{
    if is_same(&load.announced, in_force) {
        load.clear();
    } else {
        *load = Delta::between(in_force, &load.announced)?;
    }
    Ok(())
}

// Whether two sets have the same payloads.
fn is_same<A: Allocator>(set: &BTreeSet<Vrp, A>, other: &BTreeSet<Vrp, A>) -> bool
    ensures { result ≡ is_same_set set.now.keys other.now.keys }
{
    set.cmp(other).is_eq()
}

/// All payloads of a set leave it. They are moved, and nothing is copied.
pub fn leave_all<A: Allocator>(set: &mut BTreeSet<Vrp, A>, changed: &mut Delta<A>)
    requires { changed.old ≡ no_change }
    ensures set { set.new.keys ≡ [] }
    ensures changed { changed.new ≡ record { withdrawn = set.old.keys; announced = [] } }
{
    mem::swap(set, &mut changed.withdrawn);
}
