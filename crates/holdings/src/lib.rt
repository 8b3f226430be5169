//! What the peers hold of one prefix: their Adj-RIBs-Out (RFC 4271 section 3.2).
//!
//! `Holdings` is the attributes that went with a prefix to each peer that was told of it and that it wasn't withdrawn from
//! since, each kept once with the slots of those peers (a holding), and the slots whose peers have asked for it again since
//! (RFC 2918). The attributes are `SentAttributes`: those that the route came with, shared with it, beside how they were
//! changed on the way to the peer, which `RecentRewrite` shares among those that were changed alike. So no octets are kept:
//! they are what is written of the two.
//!
//! The way through them: `make_ready` makes a holding for attributes that no peer holds yet, and alone takes memory, before
//! anything that a peer holds changes; `hold` then gives it a peer's slot, which takes none; `drop_slot` ends what a peer
//! holds; `renew` and `ask` say what it has asked for again. `Kept` has the holdings: none, one in place, or a
//! `HoldingList` of blocks.
//!
//! What holds always (`AreBounded`): no slot is in two holdings, no two have the same octets, and one of them at most has no
//! slot, which was made ready last. So there are 65 at most (`at_most_65`). Behind `hold`, `drop_slot` and `tidy`, and where
//! `make_ready` was refused memory, each has a slot (`IsCompact`).
#![tactic(auto)]

mod holding_list;
mod holdings;
mod kept;
mod same;
mod sent;

pub use holdings::Holdings;
pub use sent::{RecentRewrite, SentAttributes};
