//! What a peer is sent of a best route (RFC 4271 sections 5.1 and 9.1.3).
//!
//! `export_of` writes the attributes with which a best route goes on to a peer, external or internal, by an action of that
//! peer's export policy, or answers that it doesn't. It is two calls in a row: `rewrite_of` says how the attributes are changed,
//! and `Rewrite::write` writes them so changed. What the peer was sent stands above. No call takes memory.
#![tactic(auto)]

mod export;

pub use export::{
    ExportPeer, MAX_EXPORTED_ATTRIBUTES, Rewrite, export_of, limit_is_of_a_message, rewrite_of,
};
