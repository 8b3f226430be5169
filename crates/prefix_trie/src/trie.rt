//! A map from prefixes to values.
ghost use Rattle.std.specs.Prelude.{◌≡◌, ◌+◌, ◌^◌, ◌<◌, ◌≤◌, [], None, length, IfOk, IfErr, OnErr, is_ok, if◌then◌else◌};
ghost use Rattle.std.specs.Option.{option_copied};
ghost use Rattle.prefix_trie.specs.TrieWalks.{all_after, first_key};
ghost use Rattle.std.specs.Fn.{FnOnceReturnsAtMut};
ghost use Rattle.prefix_trie.specs.CoverWalks.{all_covered, all_covering, nodes_covering, nodes_towards};
ghost use Rattle.prefix_trie.specs.TrieMap.{IsRising, Updates, found, with_entry, without};

use crate::covering::Covering;
use crate::entries::Entries;
use crate::node::Tree;
use net_prefix::Prefix;
use std::alloc::{AllocFailed, Allocator, Global};
use std::marker::Model;

/// A map from prefixes to values. Its entries stand in the order of prefixes.
#[derive(Drop)]
pub struct Trie<V: Drop, A: Allocator = Global> {
    tree: Tree<V, A>,
    count: usize,
    alloc: A,
}

impl<V: Drop, A: Allocator> Model for Trie<V, A> {
    ghost use Rattle.std.specs.Prelude.{List};
    ghost use Rattle.net_prefix.specs.declared.prefix.Prefix.{Prefix};
    ghost use Rattle.prefix_trie.specs.TrieMap.{IsCounted};

    ghost Value = { List (Prefix × V) };

    ghost view = { λ t. t.tree.entries };

    ghost invariant = { λ t. IsCounted t.count t.tree.entries };
}

impl<V: Drop, A: Allocator> Trie<V, A> {
    /// No entries.
    pub fn new(alloc: A) -> Self
        ensures { result ≡ [] }
    {
        Trie {
            tree: Tree::empty(),
            count: 0,
            alloc,
        }
    }

    /// How many entries there are.
    pub fn len(&self) -> usize
        ensures count { result ≡ length self.now }
        ensures rising { IsRising self.now }
    {
        self.count
    }

    /// The value at the prefix.
    pub fn get(&self, prefix: &Prefix) -> Option<&V>
        ensures { option_copied result ≡ found self.now prefix.now }
    {
        self.tree.get(*prefix)
    }

    /// The least prefix above the given one, or of all.
    pub fn after(&self, prefix: Option<Prefix>) -> Option<Prefix>
        ensures { result ≡ first_key (all_after prefix self.now) }
    {
        let found = match prefix {
            Some(prefix) => self.tree.above(prefix),
            None => self.tree.first(),
        };
        match found {
            Some((prefix, _)) => Some(prefix),
            None => None,
        }
    }

    /// The entries whose prefixes cover the prefix, the shortest first. The walk looks at the nodes that cover it, and
    /// at one more at most, where the way ends.
    pub fn covering(&self, prefix: &Prefix) -> Covering<'_, V, A>
        ensures left { result.left ≡ all_covering prefix.now self.now }
        ensures visited { result.visited ≡ 0 }
        ensures nodes_left { result.nodes_left ≡ nodes_towards prefix.now self.now }
        ensures least { nodes_covering prefix.now self.now ≤ result.nodes_left }
        ensures most { result.nodes_left ≤ nodes_covering prefix.now self.now + 1 }
    {
        is_address(prefix.bits);
        Covering::new(&self.tree, *prefix)
    }

    /// The entries whose prefixes the prefix covers, in the order of prefixes.
    pub fn covered(&self, prefix: &Prefix) -> Entries<'_, V, A>
        ensures { result ≡ all_covered prefix.now self.now }
    {
        Entries::covered(&self.tree, *prefix)
    }

    /// All entries, in the order of prefixes.
    pub fn iter(&self) -> Entries<'_, V, A>
        ensures { result ≡ self.now }
    {
        Entries::all(&self.tree)
    }

    /// Changes the value at the prefix, if there is one. It takes no memory.
    pub fn update<F: FnOnce(&mut V)>(&mut self, prefix: &Prefix, change: F) -> bool
        requires { F.IsAlwaysCallable change }
        ensures { Updates (λ v w. FnOnceReturnsAtMut F.FnOnce change v tt w) result (found self.old prefix.now) self.old self.new prefix.now }
    {
        is_address(prefix.bits);
        self.tree.update(*prefix, change)
    }

    /// Takes out the value at the prefix. It takes no memory, and gives back that of needless nodes.
    pub fn remove(&mut self, prefix: &Prefix) -> Option<V>
        ensures removed { result ≡ found self.old prefix.now }
        ensures entries { self.new ≡ without self.old prefix.now }
    {
        let removed = self.tree.remove(*prefix);
        if removed.is_some() {
            self.count -= 1;
        }
        removed
    }

    /// Takes out all entries. It takes no memory.
    pub fn clear(&mut self)
        ensures { self.new ≡ [] }
    {
        self.tree = Tree::empty();
        self.count = 0;
    }
}

impl<V: Drop, A: Allocator + Clone> Trie<V, A> {
    /// Puts the value at the prefix, and answers the one before. Where there is none and no memory for the new one,
    /// the value comes back.
    pub fn insert(&mut self, prefix: Prefix, value: V) -> Result<Option<V>, AllocFailed<V>>
        ensures entries { self.new ≡ (if is_ok result then with_entry self.old prefix value else self.old) }
        ensures before { IfOk result (λ before. before ≡ found self.old prefix) }
        ensures absent { OnErr result (found self.old prefix ≡ None) }
        ensures returned { IfErr result (λ failed. failed.value ≡ value) }
    {
        is_address(prefix.bits);
        match self.tree.insert(&self.alloc, prefix, value) {
            Ok(None) => {
                self.count += 1;
                Ok(None)
            }
            Ok(Some(before)) => Ok(Some(before)),
            Err(failed) => Err(failed),
        }
    }
}

// An address has 32 bits.
fn is_address(bits: u32)
    ensures { bits < 2 ^ 32 }
{}
