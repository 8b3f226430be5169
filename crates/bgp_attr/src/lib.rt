//! Path attributes of an UPDATE: how they are read, what is wrong with them, and how they are written.
//!
//! The first fault of an attribute list is looked for from left to right. Origin AS, neighbor AS, length and
//! prepending are functions of the segments of a path (RFC 4271 sections 4.3, 5.1 and 6.3, RFC 6793 for AS numbers
//! of four octets). Missing attributes are told apart from faulty ones, since only an UPDATE with routes needs them.
//! What is known of each type is one row of a table; an attribute of another code is passed on, where it may be.
#![tactic(auto)]

mod aggregator;
mod as_path;
mod attribute_type;
mod attrs;
mod fault;
mod header;
mod laws;
mod passing;
mod path_reading;
mod path_writing;
mod peer;
mod prepending;
mod reading;
mod unknown;
mod unknown_attribute;
mod writing;

pub use aggregator::Aggregator;
pub use as_path::{AsPath, Segment, SegmentKind, neighbor_as, origin_as};
pub use attribute_type::{AttributeType, Class};
pub use attrs::{Attrs, Origin};
pub use fault::UpdateFault;
pub use laws::{
    attributes_are_spelled, fault_is_the_first, path_is_spelled, prepending_is_counted,
    split_is_kept, split_is_one, what_may_travel_is_written, written_is_read,
};
pub use peer::{Mode, PeerKind};
pub use prepending::{PrependedPath, prepend};
pub use reading::{is_host, read_attrs};
pub use unknown::{UnknownAttributes, UnknownValues};
pub use writing::{AttrsToWrite, write_attrs};
