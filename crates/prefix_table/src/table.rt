//! A table of values by prefix.
ghost use Rattle.std.specs.Prelude.{◌≡◌, [], None, ◌≤◌, ◌^◌, Some, IfErr, IfOk, OnErr, OnOk};
ghost use Rattle.std.specs.Borrow.{sem};
ghost use Rattle.std.specs.Option.{option_copied, option_copied_mut};
ghost use Rattle.prefix_trie.specs.TrieMap.{IsRising, found};
ghost use Rattle.prefix_trie.specs.TrieWalks.{all_after};
ghost use Rattle.slab.specs.Slab.{get};
ghost use Rattle.prefix_table.specs.Lending.{lends_value};
ghost use Rattle.prefix_table.specs.Tables.{IsPut};

use crate::places::Places;
use crate::range::Range;
use net_prefix::Prefix;
use slab::Slab;
use std::alloc::{AllocError, Allocator};
use std::marker::Model;

/// A table of values by prefix.
#[derive(Drop)]
pub struct PrefixTable<V, A: Allocator> {
    places: Places<A>,
    values: Slab<V, A>,
}

impl<V, A: Allocator> Model for PrefixTable<V, A> {
    ghost use Rattle.prefix_table.specs.Tables.{TableState};

    ghost Value = { TableState V };

    ghost use Rattle.prefix_table.specs.Placed.{ArePlaced, placed};

    ghost view = { λ t. record { entries = placed t.places.entries t.values } };

    ghost invariant = { λ t. ArePlaced t.places.entries t.values };
}

impl<V: Drop, A: Allocator + Clone> PrefixTable<V, A> {
    /// A table without values.
    pub fn new(alloc: A) -> Result<Self, AllocError>
        ensures { IfOk result (λ t. t.entries ≡ []) }
    {
        Ok(PrefixTable {
            places: Places::new(alloc.clone()?),
            values: Slab::new(alloc),
        })
    }

    /// The prefixes rise.
    pub fn rises(&self)
        ensures { IsRising self.now.entries }
    {
        // The proof looks at what is kept.
        let _ = &self.places;
    }

    /// The value of the prefix.
    pub fn get(&self, prefix: Prefix) -> Option<&V>
        ensures value { option_copied result ≡ found self.now.entries prefix }
    {
        match self.places.find(prefix) {
            Some(place) => self.values.get(place as usize),
            None => None,
        }
    }

    /// The value of the prefix, which may be written.
    pub fn get_mut(&mut self, prefix: Prefix) -> Option<&mut V>
        ensures* writes_back { sem 𝓛 (lends_value V.row A.row A.Allocator self.entry prefix result) }
        ensures value { option_copied_mut result ≡ found self.old.entries prefix }
    {
        match self.places.find_here(prefix) {
            Some(place) => self.values.get_mut(place as usize),
            None => None,
        }
    }

    /// The prefix, which has no value, has this one from now on. Where memory is refused, or the table has 2^32 values,
    /// all stays.
    pub fn insert(&mut self, prefix: Prefix, value: V) -> Result<(), AllocError>
        requires { found self.old.entries prefix ≡ None }
        ensures put { OnOk result (IsPut self.old.entries self.new.entries prefix (Some value)) }
        ensures err { OnErr result (self.new.entries ≡ self.old.entries) }
    {
        self.values.reserve(1)?;
        let place = vacant_place(&self.values)?;
        self.places.insert(prefix, place)?;
        self.values.insert_reserved(value);
        Ok(())
    }

    /// The prefix has no value any more. Answers the one that it had.
    pub fn remove(&mut self, prefix: Prefix) -> Option<V>
        ensures value { result ≡ found self.old.entries prefix }
        ensures put { IsPut self.old.entries self.new.entries prefix None }
    {
        match self.places.remove(prefix) {
            Some(place) => Some(self.values.remove(place as usize)),
            None => None,
        }
    }

    /// The values of the prefixes above the given one, or of all, in the order of prefixes.
    pub fn range_after(&self, after: Option<Prefix>) -> Range<'_, V, A>
        ensures { result ≡ all_after after self.now.entries }
    {
        Range {
            places: self.places.after(after),
            values: &self.values,
        }
    }
}

// The place of the next value.
fn vacant_place<V, A: Allocator>(values: &Slab<V, A>) -> Result<u32, AllocError>
    ensures place { IfOk result (λ place. place ≡ values.now.vacant_key) }
    ensures vacant { IfOk result (λ place. get values.now place ≡ None) }
    ensures full { IfErr result (λ _. 2 ^ 32 ≤ values.now.vacant_key) }
{
    match u32::try_from(values.vacant_key()) {
        Ok(place) => Ok(place),
        Err(_) => Err(AllocError),
    }
}
