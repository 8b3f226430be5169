//! The latest routes that the peers announced to one prefix: a row of Adj-RIB-In.
//!
//! `PrefixRoutes` keeps the attributes of the latest route of each slot to a prefix (RFC 4271 section 3.2): an
//! announcement replaces the slot's route before it, a withdrawal takes it out. There is at least one route; a prefix
//! whose last route goes is forgotten by the one above who keeps the rows. Attributes are shared by the routes of one
//! UPDATE. Only a further route takes memory, by `boxed`, before it is put in. What a table of such rows is seen as, the
//! route of a slot and a prefix and the routes of a slot, is defined here too.
#![tactic(auto)]

mod prefix_routes;

pub use prefix_routes::PrefixRoutes;
