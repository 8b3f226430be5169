//! Walks down a trie to the entries that cover a prefix, and to those that it covers.
ghost use Rattle.std.specs.Prelude.{◌≡◌, ◌≤◌, ◌+◌, ◌++◌, [], None, length, option_map, option_to_list};
ghost use Rattle.prefix_trie.specs.CoverWalks.{all_covered, all_covering, covering_in, depth_in, nodes_in, nodes_towards};
ghost use Rattle.prefix_trie.specs.Nodes.{depth, here};
ghost use Rattle.prefix_trie.specs.TrieWalks.{left_in, seen};

use crate::node::{Link, Node, Tree};
use crate::places::{Place, place_of};
use net_prefix::Prefix;
use std::alloc::Allocator;

/// A step to the next entry that covers a prefix.
#[derive(Drop)]
pub(crate) struct Step<'a, V: Drop, A: Allocator> {
    /// The entry.
    pub(crate) entry: Option<(Prefix, &'a V)>,
    /// Where those that follow are.
    pub(crate) below: Option<&'a Tree<V, A>>,
    /// How many nodes were looked at.
    pub(crate) visited: u8,
}

impl<V: Drop, A: Allocator> Tree<V, A> {
    /// The first entry that covers the key.
    pub(crate) fn next_covering(&self, key: Prefix) -> Step<'_, V, A>
        ensures covering { all_covering key self.now.entries ≡ option_to_list (option_map seen result.entry) ++ covering_in key result.below }
        ensures none { result.entry ≡ None → covering_in key result.below ≡ [] }
        ensures nodes { nodes_towards key self.now.entries ≡ result.visited + nodes_in key result.below }
        ensures over { result.entry ≡ None → nodes_in key result.below ≡ 0 }
        ensures few { result.visited + depth_in result.below ≤ depth self.now.root }
        ensures counted { length (option_to_list (option_map seen result.entry)) ≤ result.visited }
    {
        let Link::Fork(node) = &self.root else {
            return Step {
                entry: None,
                below: None,
                visited: 0,
            };
        };
        match place_of(node.prefix, key) {
            Place::Same => Step {
                entry: node.entry(),
                below: None,
                visited: 1,
            },
            Place::Low => match &node.value {
                Some(value) => Step {
                    entry: Some((node.prefix, value)),
                    below: Some(&node.low),
                    visited: 1,
                },
                None => {
                    let step = node.low.next_covering(key);
                    Step {
                        entry: step.entry,
                        below: step.below,
                        visited: step.visited + 1,
                    }
                }
            },
            Place::High => match &node.value {
                Some(value) => Step {
                    entry: Some((node.prefix, value)),
                    below: Some(&node.high),
                    visited: 1,
                },
                None => {
                    let step = node.high.next_covering(key);
                    Step {
                        entry: step.entry,
                        below: step.below,
                        visited: step.visited + 1,
                    }
                }
            },
            Place::OverLow | Place::OverHigh | Place::Before | Place::Behind => Step {
                entry: None,
                below: None,
                visited: 1,
            },
        }
    }
}

impl<V: Drop, A: Allocator> Tree<V, A> {
    /// The part whose entries are just those that the key covers, if there are any.
    pub(crate) fn covered_part(&self, key: Prefix) -> Option<&Tree<V, A>>
        ensures { left_in result None ≡ all_covered key self.now.entries }
    {
        let Link::Fork(node) = &self.root else {
            return None;
        };
        match place_of(node.prefix, key) {
            Place::Same | Place::OverLow | Place::OverHigh => Some(self),
            Place::Low => node.low.covered_part(key),
            Place::High => node.high.covered_part(key),
            Place::Before | Place::Behind => None,
        }
    }
}

impl<V: Drop, A: Allocator> Node<V, A> {
    // The entry of the node.
    fn entry(&self) -> Option<(Prefix, &V)>
        ensures { option_to_list (option_map seen result) ≡ here self.now.prefix self.now.value }
    {
        match &self.value {
            Some(value) => Some((self.prefix, value)),
            None => None,
        }
    }
}
