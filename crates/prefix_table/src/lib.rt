//! A table of values by prefix.
//!
//! `PrefixTable` is seen as its entries in the order of prefixes, and each call is said of them. It has two parts. A slab
//! has the values, each at its place. `Places` has the place of each prefix: a tree by prefix, and beside it
//! `RecentPlaces`, a direct-mapped list of prefixes that were looked up lately, each with its place.
//!
//! A look-up takes the place that is remembered of the prefix, or else that of the tree, and then reads the value there. A
//! value that comes is given the slab's next vacant place. The slab makes room first, and then the tree takes the prefix,
//! so that nothing has changed where memory is refused. A value that goes leaves its place vacant, and its prefix is
//! forgotten. `Range` walks along the tree, and reads the value of each place.
//!
//! The invariant: each place in the tree has a value, no two prefixes have one place, each value is that of some prefix,
//! and each spot of the list is empty, or has a prefix whose spot it is, with just the place that it has in the tree.
//!
//! Why so: values may be large. Apart from the tree they leave its nodes small, and keep their places when others come
//! and go. A caller looks a prefix up several times in a row, and each time but the first costs next to nothing.
#![tactic(auto)]

mod places;
mod range;
mod recent;
mod table;

pub use range::Range;
pub use table::PrefixTable;
