//! The routes that came, the candidates that they make, the best of each prefix, and what the peers hold: Adj-RIB-In with
//! Loc-RIB and Adj-RIB-Out (RFC 4271 section 3.2).
//!
//! `Ribs` keeps a record for each prefix that has a route or that a peer holds: the routes by slot, a book with a place for
//! the candidate of each, and what the peers hold. The records stand in a map by prefix, so that a call finds all of a
//! prefix by one look-up. A best route is chosen again where a candidate of its prefix changed, and nowhere else: the count
//! of choices rises by one then, unless it stands at its greatest, and stays in each other call. Which candidate a route
//! makes is decided above. A record goes with its last route where no peer holds the prefix. Where memory is refused to
//! `announce`, `bring` or `announce_sent` all stays as it was, and `announce` needs none where a route replaces another. The
//! routes of one slot, and what one peer holds, are found by going along the prefixes, those of others too.
//!
//! Of each slot's peer it is known besides whether it may hold anything at all, whether it may have asked for anything again
//! (RFC 2918), and whether it has asked for all: so most walks that would change nothing are spared.
#![tactic(auto)]

mod adj_out;
mod ribs;
mod rows;
mod sent;
mod sent_marks;
mod slot_routes;

pub use adj_out::{AdjOut, HeldRoutes};
pub use ribs::Ribs;
pub use rows::Rows;
pub use slot_routes::SlotRoutes;
