//! The values of a stretch of prefixes.
ghost use Rattle.std.specs.Iterator.{YieldsFirstBy, item_count};

use net_prefix::Prefix;
use slab::Slab;
use std::alloc::Allocator;
use std::collections::btree_map;
use std::marker::Model;

/// The values of a stretch of prefixes, in the order of prefixes.
#[derive(Drop)]
pub struct Range<'a, V, A: Allocator> {
    pub(crate) places: btree_map::Range<'a, Prefix, u32>,
    pub(crate) values: &'a Slab<V, A>,
}

impl<'a, V, A: Allocator> Model for Range<'a, V, A> {
    ghost use Rattle.std.specs.Prelude.{List};
    ghost use Rattle.net_prefix.specs.declared.prefix.Prefix.{Prefix};

    ghost Value = { List (Prefix × V) };

    ghost use Rattle.prefix_table.specs.Placed.{placed};

    ghost view = { λ r. placed r.places r.values.now };
}

impl<'a, V, A: Allocator> Iterator for Range<'a, V, A> {
    type Item = (Prefix, &'a V);

    ghost next_gives = { YieldsFirstBy (λ item. (item.0, item.1.now)) (λ rest. rest) };

    ghost remaining = { item_count (λ rest. rest) };

    fn next(&mut self) -> Option<(Prefix, &'a V)> {
        while let Some((prefix, place)) = self.places.next() {
            if let Some(value) = self.values.get(*place as usize) {
                return Some((*prefix, value));
            }
        }
        None
    }
}
