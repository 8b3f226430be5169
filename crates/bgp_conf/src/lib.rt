//! The peers, policies, local networks and `reach` entries that commands configure.
//!
//! `Conf::check` answers with the first refusal of a command, in one documented order, and `Conf::apply` makes
//! the tables after it: exactly those that the definitions name, or, where memory is refused, those from before.
//! `Conf::import` and `Conf::export` are what the import and the export policy of a peer make of a route, and `Conf::cost`
//! is the interior cost of a next hop: that of the longest `reach` entry that covers it. Sessions, timers and what a command
//! does to them are no part of this crate.
#![tactic(auto)]

mod checks;
mod command;
mod conf;
mod cost;
mod refusal;

pub use command::{Command, PeerConf};
pub use conf::{Conf, ConfiguredPeer, MAX_NETWORKS, MAX_REACH, PEER_SLOTS};
pub use policy::{Action, Condition, PolicyName, PrefixRange, Rule, SeenRoute};
pub use refusal::{Refusal, policy_refusals_keep_their_numbers};
