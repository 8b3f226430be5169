//! The entries whose prefixes cover a prefix.
ghost use Rattle.std.specs.Prelude.{◌≡◌, ◌+◌, ◌≤◌, ◌↔◌, None, IsTrue, ⊤, length, option_to_list};
ghost use Rattle.std.specs.Iterator.{MakesProgress, YieldsFirstBy, item_count};
ghost use Rattle.net_prefix.specs.Cover.{Covers};
ghost use Rattle.net_prefix.specs.declared.prefix.Prefix.{Prefix};
ghost use Rattle.prefix_trie.specs.CoverWalks.{all_covering, covers, nodes_towards};
ghost use Rattle.prefix_trie.specs.TrieWalks.{seen};

use crate::node::Tree;
use net_prefix::Prefix;
use std::alloc::{Allocator, Global};
use std::marker::Model;

/// The entries whose prefixes cover a prefix, the shortest first. It is seen as those still to come, the count of
/// the nodes that were looked at, and that of the nodes still to be looked at.
#[derive(Drop)]
pub struct Covering<'a, V: Drop, A: Allocator = Global> {
    part: Option<&'a Tree<V, A>>,
    prefix: Prefix,
    visited: u8,
}

impl<'a, V: Drop, A: Allocator> Model for Covering<'a, V, A> {
    ghost use Rattle.std.specs.Prelude.{◌+◌, ◌≤◌};
    ghost use Rattle.prefix_trie.specs.CoverWalks.{CoverWalk, covering_in, depth_in, nodes_in};

    ghost Value = { CoverWalk V };

    ghost view = { λ c. record { left = covering_in c.prefix c.part; visited = c.visited; nodes_left = nodes_in c.prefix c.part } };

    ghost invariant = { λ c. c.visited + depth_in c.part ≤ 33 };
}

impl<'a, V: Drop, A: Allocator> Covering<'a, V, A> {
    // Of a trie's entries.
    pub(crate) fn new(part: &'a Tree<V, A>, prefix: Prefix) -> Self
        ensures left { result.left ≡ all_covering prefix part.now.entries }
        ensures visited { result.visited ≡ 0 }
        ensures nodes_left { result.nodes_left ≡ nodes_towards prefix part.now.entries }
    {
        Covering {
            part: Some(part),
            prefix,
            visited: 0,
        }
    }

    /// How many nodes were looked at so far, with a value or without: 33 at most, whatever the trie holds.
    pub fn visited(&self) -> u8
        ensures visited { result ≡ self.now.visited }
        ensures few { result ≤ 33 }
    {
        self.visited
    }
}

impl<'a, V: Drop, A: Allocator> Iterator for Covering<'a, V, A> {
    type Item = (Prefix, &'a V);

    ghost next_gives = { YieldsFirstBy seen (λ walk. walk.left) };

    ghost remaining = { item_count (λ walk. walk.left) };

    fn next(&mut self) -> Option<(Prefix, &'a V)>
        ensures steps { YieldsFirstBy seen (λ walk. walk.left) self.old result self.new }
        ensures goes { MakesProgress (λ _. ⊤) (item_count (λ walk. walk.left)) self.old result self.new }
        ensures nodes { self.old.visited + self.old.nodes_left ≡ self.new.visited + self.new.nodes_left }
        ensures over { result ≡ None → self.new.nodes_left ≡ 0 }
        ensures counted { self.old.visited + length (option_to_list result) ≤ self.new.visited }
    {
        let part = self.part?;
        let step = part.next_covering(self.prefix);
        *self = Covering {
            part: step.below,
            prefix: self.prefix,
            visited: self.visited + step.visited,
        };
        step.entry
    }
}

/// The prefixes that a walk finds to cover one, or to be covered, are those of which `Prefix::covers` says so.
pub fn walks_follow_cover()
    ensures { (p q : Prefix) → IsTrue (covers p q) ↔ Covers p.bits p.len q.bits q.len }
{}
