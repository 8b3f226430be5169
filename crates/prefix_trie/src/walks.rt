//! Walks down a trie.
ghost use Rattle.std.specs.Prelude.{◌≡◌, option_map};
ghost use Rattle.prefix_trie.specs.TrieWalks.{IsNext, all_above, first_of, seen};

use crate::node::{Link, Tree};
use crate::places::{Place, place_of};
use net_prefix::Prefix;
use std::alloc::Allocator;

impl<V: Drop, A: Allocator> Tree<V, A> {
    /// The first entry.
    pub(crate) fn first(&self) -> Option<(Prefix, &V)>
        ensures { option_map seen result ≡ first_of self.now.entries }
    {
        match &self.root {
            Link::Empty => None,
            Link::Fork(node) => match &node.value {
                Some(value) => Some((node.prefix, value)),
                None => match node.low.first() {
                    None => node.high.first(),
                    found => found,
                },
            },
        }
    }

    /// The first entry above the key.
    pub(crate) fn above(&self, key: Prefix) -> Option<(Prefix, &V)>
        ensures { option_map seen result ≡ first_of (all_above key self.now.entries) }
    {
        match &self.root {
            Link::Empty => None,
            Link::Fork(node) => match place_of(node.prefix, key) {
                Place::Same => match node.low.first() {
                    None => node.high.first(),
                    found => found,
                },
                Place::Low => match node.low.above(key) {
                    None => node.high.first(),
                    found => found,
                },
                Place::High => node.high.above(key),
                Place::OverLow | Place::OverHigh | Place::Before => self.first(),
                Place::Behind => None,
            },
        }
    }

    /// The first entry above the key, or of all.
    pub(crate) fn after(&self, key: Option<Prefix>) -> Option<(Prefix, &V)>
        ensures { IsNext result key self.now.entries }
    {
        let _root = &self.root;
        match key {
            Some(key) => self.above(key),
            None => self.first(),
        }
    }
}
