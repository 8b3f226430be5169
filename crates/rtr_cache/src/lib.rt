//! A cache of the RPKI-to-Router protocol: it publishes sets of payloads to routers, over connections that its caller
//! holds (RFC 8210).
//!
//! What happens is handed in, one event a call, and what goes out is taken from each client's ring. A call makes of
//! each client what the rows of the cache's table say, and at its end what a response has left is queued while the
//! ring has room (`specs/CacheTable.antt`). A response belongs to the version that was the newest when
//! its query was read, to its end. While the set is withdrawn queries are answered as where there is none. A load, a client
//! that comes up and the beginning of a response take memory; where it is refused a load and a new client change nothing, and
//! of the rest only the client that asked is closed.
#![tactic(auto)]

mod cache;
mod event;
mod handed_out;
mod laws;
mod other_session;
mod publisher;
mod refusal;
mod response;
mod sender;
mod served;
mod shared_change;
mod table;
mod unsaid;

pub use cache::{CACHE_CLIENTS, Cache};
pub use event::{CacheEvent, CacheReport};
pub use laws::{
    clients_are_told_whole_versions, closed_connection_hears_nothing, held_serials_are_handed_out,
    octets_are_heard_piece_by_piece, queueing_changes_no_more, queueing_keeps_what_is_said,
    queueing_leaves_room, queueing_stops_at_a_full_ring, versions_outlast_a_withdrawal,
    withdrawn_sets_are_not_told,
};
pub use other_session::OtherSession;
pub use refusal::CacheRefusal;
