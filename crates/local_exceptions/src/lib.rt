//! Local exceptions: which payloads an operator takes out of a set, and which ones into it (RFC 8416 section 3).
//!
//! A filter matches a payload whose prefix its prefix covers, if it has one, and whose AS is its AS, if it has one. What
//! exceptions make of a set is one thing: the set less what a filter matches, with the assertions, which aren't filtered.
//! `Exceptions::under` makes it of a set, and `Exceptions::behind` makes of a change of a set the change of what the
//! exceptions make of it, without going over the set. A call that is refused leaves all as it was. There are at most 4,096
//! filters and 4,096 assertions, of IPv4 prefixes.
#![tactic(auto)]

mod exceptions;
mod fault;
mod filter;
mod laws;

pub use exceptions::{Exceptions, MAX_ASSERTIONS, MAX_FILTERS};
pub use fault::ExceptionFault;
pub use filter::{Filter, filters_are_ordered};
pub use laws::{changes_pass_exceptions, exceptions_make_a_set, exceptions_mean_one_set};
