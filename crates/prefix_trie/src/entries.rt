//! The entries of a trie, or those whose prefixes one prefix covers.
ghost use Rattle.std.specs.Prelude.{◌≡◌};
ghost use Rattle.std.specs.Iterator.{YieldsFirstBy, item_count};
ghost use Rattle.prefix_trie.specs.CoverWalks.{all_covered};
ghost use Rattle.prefix_trie.specs.TrieWalks.{seen};

use crate::node::Tree;
use net_prefix::Prefix;
use std::alloc::{Allocator, Global};
use std::marker::Model;

/// Entries of a trie, in the order of prefixes. It is seen as those still to come. Each is found from the one before
/// it, on a way down of at most 33 nodes and a second one of at most 33.
#[derive(Drop)]
pub struct Entries<'a, V: Drop, A: Allocator = Global> {
    // The part of the trie that they are in, if one is left.
    part: Option<&'a Tree<V, A>>,
    // The prefix of the last one that came.
    last: Option<Prefix>,
}

impl<'a, V: Drop, A: Allocator> Model for Entries<'a, V, A> {
    ghost use Rattle.std.specs.Prelude.{List};
    ghost use Rattle.net_prefix.specs.declared.prefix.Prefix.{Prefix};
    ghost use Rattle.prefix_trie.specs.TrieWalks.{left_in};

    ghost Value = { List (Prefix × V) };

    ghost view = { λ e. left_in e.part e.last };
}

impl<'a, V: Drop, A: Allocator> Entries<'a, V, A> {
    // Of a whole part.
    pub(crate) fn all(part: &'a Tree<V, A>) -> Self
        ensures { result ≡ part.now.entries }
    {
        Entries {
            part: Some(part),
            last: None,
        }
    }

    // Those in a part whose prefixes the prefix covers.
    pub(crate) fn covered(part: &'a Tree<V, A>, prefix: Prefix) -> Self
        ensures { result ≡ all_covered prefix part.now.entries }
    {
        let part = part.covered_part(prefix);
        Entries { part, last: None }
    }
}

impl<'a, V: Drop, A: Allocator> Iterator for Entries<'a, V, A> {
    type Item = (Prefix, &'a V);

    ghost next_gives = { YieldsFirstBy seen (λ left. left) };

    ghost remaining = { item_count (λ left. left) };

    fn next(&mut self) -> Option<(Prefix, &'a V)> {
        let part = self.part?;
        let found = part.after(self.last);
        if let Some((prefix, _)) = found {
            *self = Entries {
                part: Some(part),
                last: Some(prefix),
            };
        }
        found
    }
}
