//! The selection of the best route of a prefix (RFC 4271 section 9.1), and books that keep it.
//!
//! `choose` answers the one candidate that the selection leaves: those of the greatest degree of preference, then
//! step by step those that no other one left beats. MED is compared within a neighbor AS alone, so the best one isn't
//! found by comparing two at a time. `one_best` says that candidates which differ in degree or address always leave
//! one. A `Book` keeps the candidates of one prefix by slot, and the best of them; where one of them changes it
//! chooses again. `PlainBook` does so among all candidates. A slot's place takes memory, and no other call does.
//! The policies, and what makes a route a candidate, stand above.
#![tactic(auto)]

mod book;
mod candidate;
mod meter;
mod places;
mod plain_book;
mod selection;
mod without_med;

pub use book::{Book, Change};
pub use candidate::{Candidate, LOCAL_SLOT, MAX_CANDIDATES};
pub use meter::Meter;
pub use plain_book::PlainBook;
pub use selection::{choose, one_best};
pub use without_med::WithoutMed;
