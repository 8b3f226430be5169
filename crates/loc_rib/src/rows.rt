//! Loc-RIB, row by row.
ghost use Rattle.std.specs.Prelude.{◌≡◌};
ghost use Rattle.std.specs.Iterator.{YieldsFirst, item_count};
ghost use Rattle.decision.specs.BookContents.{rows_of};
ghost use Rattle.prefix_trie.specs.TrieWalks.{all_after};

use crate::ribs::Ribs;
use decision::{Book, Candidate};
use net_prefix::Prefix;
use std::alloc::Allocator;
use std::marker::Model;

/// Rows of Loc-RIB, in rising order.
#[derive(Drop)]
pub struct Rows<'a, A: Allocator + Clone, B: Book<A>> {
    ribs: &'a Ribs<A, B>,
    after: Option<Prefix>,
}

impl<'a, A: Allocator + Clone, B: Book<A>> Model for Rows<'a, A, B> {
    ghost use Rattle.std.specs.Prelude.{List};
    ghost use Rattle.decision.specs.declared.candidate.Candidate.{Candidate};
    ghost use Rattle.net_prefix.specs.declared.prefix.Prefix.{Prefix};
    ghost use Rattle.decision.specs.BookContents.{rows_of};
    ghost use Rattle.prefix_trie.specs.TrieWalks.{all_after};

    ghost Value = { List (Prefix × Candidate) };

    ghost view = { λ rows. all_after rows.after (rows_of rows.ribs.now.book) };
}

impl<'a, A: Allocator + Clone, B: Book<A>> Rows<'a, A, B> {
    // The rows above the given prefix, or all.
    pub(crate) fn behind(ribs: &'a Ribs<A, B>, after: Option<Prefix>) -> Self
        ensures { result ≡ all_after after (rows_of ribs.now.book) }
    {
        Rows { ribs, after }
    }
}

impl<'a, A: Allocator + Clone, B: Book<A>> Iterator for Rows<'a, A, B> {
    type Item = (Prefix, Candidate);

    ghost next_gives = { YieldsFirst (λ rest. rest) };

    ghost remaining = { item_count (λ rest. rest) };

    fn next(&mut self) -> Option<(Prefix, Candidate)> {
        let ribs = self.ribs;
        ribs.is_chosen();
        let row = ribs.row_after(self.after);
        if let Some((prefix, _)) = row {
            self.after = Some(prefix);
        }
        row
    }
}
