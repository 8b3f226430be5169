//! The speaker: octets, losses of connection and commands in; the octets for each session and the tables out.
//!
//! One call of `Speaker::step` judges its event, updates the tables, chooses the routes of Loc-RIB again (RFC 4271 section
//! 9.1) and queues to each Established peer the UPDATEs that it is owed. `Speaker::take` hands a peer's octets out. There
//! is no clock and no socket in here: a list of calls is all that happens, and a timer ends when a moment is handed in.
//!
//! **Parts.** `Routes` of routes (configuration, payloads by prefix, each slot's session with what its peer was sent, the
//! routes with Loc-RIB, and what each peer is owed), the session with a cache (rtr_session), and a moment.
//!
//! **The way of an event.** `step` asks for its first refusal (`check`); one that is refused changes nothing. Then, by what
//! it is: octets are cut into messages and each is taken whole (`hear`, `take_message`: what it is to the session, and what
//! its UPDATE makes of the routes, is said by `Routes::judge_front`); a session takes an input, and its routes follow
//! (`input`); what comes to the cache session changes payloads, and the routes that they concern are judged again
//! (`choose_touched`); a command changes the tables (`obey`), one of local exceptions the payloads in force too. A moment
//! ends the cache session's timers, then each slot's (`tick`, `end_timers`). At the end of each call the peers are queued
//! what they are owed, slot by slot in rising order (`queue_updates`); where memory is refused to that, the slot's session
//! is closed and the pass begins again.
//!
//! **What holds when.** Between calls and in their midst: routes are judged by the payloads that the cache session has
//! loaded, under the local exceptions (the type's invariant; that of `Routes` has the rest). After each thing that happens
//! in a call: all is as the run with what the call has done so far leaves it (`Holds`). After the call: Loc-RIB is the
//! selection, and where a ring has room its peer holds its export (`Agrees`).
//!
//! To read first: runs (calls and histories, and what is promised of them), then `step` and `queue`.
#![tactic(auto)]

mod asked;
mod cache_session;
mod configuration;
mod exceptions;
mod laws;
mod payloads;
mod queue;
mod sessions;
mod step;
mod timers;
mod trace;
mod views;
mod views_after;

pub use bgp_attr::{Attrs, Mode};
pub use bgp_conf::{Action, Command, Condition, PeerConf, PrefixRange, Refusal, Rule};
pub use bgp_fsm::{PeerTimers, State};
pub use decision::LOCAL_SLOT;
pub use laws::{
    degrees_are_told, each_slot_starves_once, moments_are_of_the_run, nothing_is_reported,
    one_export, other_sessions_stay, refusals_are_of_the_run,
};
pub use net_prefix::Transport;
pub use origin_valid::Validity;
pub use payloads::Payloads;
pub use routes::WaitingAfter;
pub use routing::WaitingPrefixes;
pub use rtr_client::ClientState;
pub use runs::{CACHE_RETRY_SECONDS, Config, Event, Report, SlotTimers};
pub use step::Speaker;
pub use trace::{Trace, run};
pub use views::{AdjRibIn, BestRoute, HeldRoutes, LocRib};
