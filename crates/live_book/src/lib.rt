//! A book that compares few candidates at a change: of a prefix it keeps the best one of each neighbor AS, and of these
//! the best one.
//!
//! The selection (RFC 4271 section 9.1.2.2) isn't an order of routes: step (c) compares MULTI_EXIT_DISC within a neighbor
//! AS alone. Say that A and B came by one neighbor AS, A with MED 20 and identifier 1, B with MED 10 and identifier 3, and
//! C by another one, with identifier 2, and that they agree in all else. B beats A by its MED, C beats B and A beats C by
//! the identifier. Of the three C is left, since A falls in (c). Who keeps one best route alone, and pairs it with what
//! comes, has A at the end where C, A, B come, or B. And he keeps C where B is withdrawn, which wasn't the best one: but
//! nothing keeps A out then, and A is the best.
//!
//! Within one neighbor AS the steps are an order, by one number after the other, so the best one of an AS can be paired
//! with what comes. And between the bests of different ASes (c) plays no part, so these too are ordered. `one_of_bests`
//! says that nothing is lost: the selection leaves the same one of the bests as of all candidates, since each route that
//! (c) makes fall falls by a route of its own AS, and the best of that AS is one that stands in (c) wherever any does.
//!
//! `LiveBook` marks at each place whether its candidate is the best of its AS. One that comes is compared with the best
//! of its AS, and if it wins, with the best of all. Where the best of an AS goes or changes, that AS alone is compared
//! again (`settle`). The bests of all ASes are compared where the best of all goes, changes, or falls behind within its AS.
//! The candidate of a place that stands alone is compared with none. Such a place, as most prefixes have, is in the book
//! itself: a list of places is made with the second one, and takes no more memory than the places need.
//! The marks stand in the places, so there is no group to make room for, and none to forget. What is counted is that a best
//! route is chosen, once a call at most: comparing within an AS is a part of it, by a meter of its own.
#![tactic(auto)]

mod comparing;
mod laws;
mod live;
mod many_places;
mod place;
mod places;

pub use laws::one_of_bests;
pub use live::LiveBook;
