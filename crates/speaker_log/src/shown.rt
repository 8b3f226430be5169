//! What a journal is shown.

use bgp_fsm::State;
use rtr_client::ClientState;
use watched_wires::WireEvent;

/// A speaker behind a turn, as its log sees it.
pub trait Shown {
    /// The state of the session in this slot, if the slot is configured.
    fn session(&self, slot: u8) -> Option<State>;

    /// The state of the session with the cache, if there is a cache.
    fn cache_session(&self) -> Option<ClientState>;

    /// Whether any payloads are in force, and how many.
    fn has_payloads(&self) -> bool;

    fn payloads(&self) -> u64;

    /// How many routes are in Loc-RIB.
    fn routes(&self) -> u64;

    /// How many connections, and attempts at one, were lost since the start, and how many were closed on this side.
    fn lost(&self) -> u64;

    fn closed(&self) -> u64;

    /// How many octets came and went since the start.
    fn octets_in(&self) -> u64;

    fn octets_out(&self) -> u64;

    /// What its wire saw in the turn, and how much more it saw than it could keep.
    fn seen(&self) -> &[WireEvent];

    fn left_out(&self) -> u64;
}
