//! The published versions of the payloads, and what changed from one to another.
//!
//! `Versions` keeps the set that was published last and the 64 before it, each under its serial: the last as a list, each
//! other by what changed behind it, so that small changes take little memory. `delta_from` says exactly what the old set
//! of a kept serial has and the last one lacks, and the other way round, and nothing for any other serial (RFC 8210
//! section 8.2). `apply` makes these changes to a set, or refuses a withdrawal of an unknown payload or the announcement
//! of a known one (RFC 8210 section 12) and leaves the set as it was.
//! `delta_applied` says that the delta between two sets, applied to the old one, gives the new one. A `Keeper` follows a
//! set change by change. Sessions stand above.
#![tactic(auto)]

mod change;
mod delta;
mod fault;
mod keeper;
mod versions;

pub use change::change_both;
pub use delta::{Delta, apply, delta_applied};
pub use fault::DeltaFault;
pub use keeper::Keeper;
pub use versions::{
    KEPT_VERSIONS, Snapshot, Versions, newest_are_kept, same_sets_are_equal, serials_name_versions,
};
