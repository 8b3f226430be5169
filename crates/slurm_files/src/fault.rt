//! Why a SLURM file is refused.
use crate::member::{Member, Part};
use net_prefix::PrefixFault;
use thiserror::Error;

/// What is wrong with an object. Members are counted from 0.
#[derive(Clone, Copy, Debug, PartialEq, Eq, Error)]
pub enum Cause {
    #[error("there is no object")]
    NotObject,
    #[error("member {0} is unknown")]
    UnknownMember(u64),
    #[error("a second member has the name of member {0}")]
    SecondMember(u64),
    #[error("the member {0} is missing")]
    Missing(Member),
    #[error("the member {0} is no array")]
    NotArray(Member),
    #[error("the member {0} is no text")]
    NotText(Member),
    #[error("the member slurmVersion is not 1")]
    Version,
    #[error("the member asn is no AS number")]
    Asn,
    #[error("the member prefix: {0}")]
    Prefix(PrefixFault),
    #[error("the member maxPrefixLength is no number from the prefix length to 32")]
    MaxPrefixLength,
    #[error("nothing is told that the filter matches")]
    EmptyFilter,
    #[error("there are 4,096 others")]
    TooMany,
}

/// The first fault of a file and its place. Octets and entries are counted from 0.
#[derive(Clone, Copy, Debug, PartialEq, Eq, Error)]
pub enum SlurmFault {
    /// The text is no JSON from the value or the mark on that begins at this octet, or is no UTF-8 from this octet on.
    #[error("octet {0}: the text is no JSON")]
    Text(u64),
    /// The value of the text is faulty.
    #[error("{0}")]
    File(Cause),
    #[error("validationOutputFilters: {0}")]
    Filters(Cause),
    #[error("locallyAddedAssertions: {0}")]
    Assertions(Cause),
    /// This entry of the array is faulty.
    #[error("{0}[{1}]: {2}")]
    Entry(Part, u64, Cause),
    #[error("there is no memory for the exceptions")]
    NoMemory,
}
