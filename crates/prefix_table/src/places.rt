//! The places of values by prefix.
ghost use Rattle.std.specs.Prelude.{◌≡◌, [], None, Some, IfSome, OnErr, OnOk, if◌then◌else◌};
ghost use Rattle.std.specs.Ordering.{is_eq};
ghost use Rattle.net_prefix.specs.PrefixOrder.{prefix_cmp};
ghost use Rattle.net_prefix.specs.declared.prefix.Prefix.{Prefix as ThePrefix};
ghost use Rattle.prefix_table.specs.RecentPlaces.{remembered};
ghost use Rattle.prefix_trie.specs.TrieMap.{IsRising, found};
ghost use Rattle.prefix_trie.specs.TrieWalks.{all_after};

use crate::recent::RecentPlaces;
use net_prefix::Prefix;
use std::alloc::{AllocError, Allocator};
use std::collections::{BTreeMap, btree_map};
use std::marker::Model;
use std::ops::Bound;

/// The places of values by prefix.
#[derive(Drop)]
pub(crate) struct Places<A: Allocator> {
    tree: BTreeMap<Prefix, u32, A>,
    recent: RecentPlaces,
}

impl<A: Allocator> Model for Places<A> {
    ghost use Rattle.prefix_table.specs.Placed.{AreRemembered, PlacesState};

    ghost Value = { PlacesState };

    ghost view = { λ p. record { entries = p.tree.entries; recent = p.recent } };

    ghost invariant = { λ p. AreRemembered p.tree.entries p.recent };
}

impl<A: Allocator + Clone> Places<A> {
    /// No prefix has a place.
    pub(crate) fn new(alloc: A) -> Self
        ensures { result.entries ≡ [] }
    {
        Places {
            tree: BTreeMap::new(alloc),
            recent: RecentPlaces::new(),
        }
    }

    /// The place of the prefix.
    pub(crate) fn find(&self, prefix: Prefix) -> Option<u32>
        ensures { result ≡ found self.now.entries prefix }
    {
        match self.recent.find(prefix) {
            Some(place) => Some(place),
            None => self.tree.get(&prefix).copied(),
        }
    }

    /// The place of the prefix, which is remembered.
    pub(crate) fn find_here(&mut self, prefix: Prefix) -> Option<u32>
        ensures place { result ≡ found self.old.entries prefix }
        ensures same { self.new.entries ≡ self.old.entries }
        ensures kept { IfSome result (λ place. remembered self.new.recent prefix ≡ Some place) }
    {
        if let Some(place) = self.recent.find(prefix) {
            return Some(place);
        }
        let place = *self.tree.get(&prefix)?;
        self.recent.keep(prefix, place);
        Some(place)
    }

    /// The prefix has this place from now on.
    pub(crate) fn insert(&mut self, prefix: Prefix, place: u32) -> Result<(), AllocError>
        ensures rising { OnOk result (IsRising self.new.entries) }
        ensures puts { OnOk result ((q : ThePrefix) → found self.new.entries q ≡ (if is_eq (prefix_cmp prefix q) then Some place else found self.old.entries q)) }
        ensures kept { OnOk result (remembered self.new.recent prefix ≡ Some place) }
        ensures err { OnErr result (self.new ≡ self.old) }
    {
        match self.tree.insert(prefix, place) {
            Ok(_) => {
                self.recent.forget(prefix);
                self.recent.keep(prefix, place);
                Ok(())
            }
            Err(_) => Err(AllocError),
        }
    }

    /// The prefix has no place any more. Answers the one that it had.
    pub(crate) fn remove(&mut self, prefix: Prefix) -> Option<u32>
        ensures place { result ≡ found self.old.entries prefix }
        ensures rising { IsRising self.new.entries }
        ensures puts { (q : ThePrefix) → found self.new.entries q ≡ (if is_eq (prefix_cmp prefix q) then None else found self.old.entries q) }
        ensures forgotten { remembered self.new.recent prefix ≡ None }
    {
        self.recent.forget(prefix);
        self.tree.remove(&prefix)
    }

    /// The places of the prefixes above the given one, or of all.
    pub(crate) fn after(&self, after: Option<Prefix>) -> btree_map::Range<'_, Prefix, u32>
        ensures { result ≡ all_after after self.now.entries }
    {
        match after {
            Some(prefix) => self.tree.range((Bound::Excluded(prefix), Bound::Unbounded)),
            None => {
                let all: (Bound<Prefix>, Bound<Prefix>) = (Bound::Unbounded, Bound::Unbounded);
                self.tree.range(all)
            }
        }
    }
}
