//! The routes of one slot.
ghost use Rattle.std.specs.Prelude.{◌≡◌};
ghost use Rattle.std.specs.Iterator.{YieldsFirstBy, item_count};
ghost use Rattle.prefix_trie.specs.TrieWalks.{all_after};
ghost use Rattle.rib_in.specs.LatestRoutes.{routes_of};

use crate::ribs::Ribs;
use bgp_attr::Attrs;
use decision::Book;
use net_prefix::Prefix;
use std::alloc::Allocator;
use std::marker::Model;

/// The routes of one slot, in rising order of prefix. It is seen as those still to come. Each is found by going along
/// the prefixes from the one before it.
#[derive(Drop)]
pub struct SlotRoutes<'a, A: Allocator + Clone, B: Book<A>> {
    ribs: &'a Ribs<A, B>,
    slot: u8,
    // The prefix behind which they begin.
    after: Option<Prefix>,
}

impl<'a, A: Allocator + Clone, B: Book<A>> Model for SlotRoutes<'a, A, B> {
    ghost use Rattle.std.specs.Prelude.{List};
    ghost use Rattle.bgp_attr.specs.PathAttributes.{PathAttributes};
    ghost use Rattle.net_prefix.specs.declared.prefix.Prefix.{Prefix};
    ghost use Rattle.prefix_trie.specs.TrieWalks.{all_after};
    ghost use Rattle.rib_in.specs.LatestRoutes.{routes_of};

    ghost Value = { List (Prefix × PathAttributes) };

    ghost view = { λ r. all_after r.after (routes_of r.slot r.ribs.now.adj_in) };
}

impl<'a, A: Allocator + Clone, B: Book<A>> SlotRoutes<'a, A, B> {
    // Those above the given prefix, or all.
    pub(crate) fn behind(ribs: &'a Ribs<A, B>, slot: u8, after: Option<Prefix>) -> Self
        ensures { result ≡ all_after after (routes_of slot ribs.now.adj_in) }
    {
        SlotRoutes { ribs, slot, after }
    }
}

impl<'a, A: Allocator + Clone, B: Book<A>> Iterator for SlotRoutes<'a, A, B> {
    type Item = (Prefix, &'a Attrs<A>);

    ghost next_gives = { YieldsFirstBy (λ item. (item.0, item.1.now)) (λ rest. rest) };

    ghost remaining = { item_count (λ rest. rest) };

    fn next(&mut self) -> Option<(Prefix, &'a Attrs<A>)> {
        let ribs = self.ribs;
        let route = ribs.route_after(self.slot, self.after);
        if let Some((prefix, _)) = route {
            self.after = Some(prefix);
        }
        route
    }
}
