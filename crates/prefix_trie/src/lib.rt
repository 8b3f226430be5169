//! A map from prefixes to values that finds the prefixes which cover one, and those that it covers.
//!
//! `Trie` is seen as its entries in the order of prefixes, and each call is said of them: `get`, `insert`, `remove`,
//! `update`, `clear`, `len`, the next prefix (`after`), the entries whose prefixes cover a prefix (`covering`, RFC 6811
//! section 2), those whose prefixes it covers (`covered`), and all (`iter`). Only `insert` takes memory. Behind it is a
//! path-compressed binary trie: a node has a prefix, perhaps a value, and on each side what a half of its prefix covers,
//! so that no way down passes more than 33 nodes.
#![tactic(auto)]

mod cover_steps;
mod covering;
mod entries;
mod node;
mod places;
mod trie;
mod walks;

pub use covering::{Covering, walks_follow_cover};
pub use entries::Entries;
pub use trie::Trie;
