//! SLURM files: the local exceptions of an operator in JSON (RFC 8416 version 1), taken whole or refused.
//!
//! Such a file is an object with the members `slurmVersion`, which is 1, `validationOutputFilters` and
//! `locallyAddedAssertions`, and the last two have an array for prefixes and one for BGPsec. `read_slurm` answers the
//! exceptions of IPv4 prefixes, and how many entries of IPv6 prefixes and of BGPsec are skipped, or the first fault with
//! its place. Faults are looked for in this order: the text is no JSON; the members of the objects, from without to
//! within; the entries of the four arrays. An unknown member, or a second one of a name, is a fault (RFC 8416
//! section 3.2), and so is a missing one. What is the value of a text is said by the kit's `json`; this crate says what
//! the value means.
#![tactic(auto)]

mod entry;
mod fault;
mod file;
mod given;
mod meaning;
mod member;
mod names;
mod parts;

pub use entry::Entry;
pub use fault::{Cause, SlurmFault};
pub use file::{SlurmFile, read_slurm};
pub use meaning::files_mean_one_thing;
pub use member::{Member, Part};
