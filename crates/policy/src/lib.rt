//! The policies by which routes are taken from peers and announced to them.
//!
//! A policy is a list of rules, and the first rule that matches a route decides: it rejects the route, or accepts it with
//! what it sets. Where no rule matches, the route is rejected. `all` accepts each route and `none` rejects each; they are
//! built in. `Policies` keeps the others by their names. What a degree, a MED or more of the own AS does to a route stands
//! above. Only `set` takes memory.
#![tactic(auto)]

mod laws;
mod name;
mod policies;
mod refusal;
mod rule;
mod seen;

pub use laws::{
    built_in_policies_do_one_thing, names_are_texts, policies_go_by_their_names,
    the_first_rule_decides,
};
pub use name::PolicyName;
pub use policies::{MAX_POLICIES, MAX_RULES, Policies};
pub use refusal::PolicyRefusal;
pub use rule::{Action, Condition, PrefixRange, Rule};
pub use seen::SeenRoute;
