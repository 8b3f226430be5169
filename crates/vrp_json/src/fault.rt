//! Why a list is refused.
use thiserror::Error;

/// What is wrong with an entry. Where there are several faults, the first of these.
#[derive(Clone, Copy, Debug, PartialEq, Eq, Error)]
pub enum EntryFault {
    #[error("the entry is no object")]
    Object,
    #[error("the member asn is missing or no AS number")]
    Asn,
    #[error("the member prefix is missing or no IPv4 prefix")]
    Prefix,
    #[error("the member maxLength is missing or no number from the prefix length to 32")]
    Max,
}

/// The first fault of a list and its place. Octets and entries are counted from 0.
#[derive(Clone, Copy, Debug, PartialEq, Eq, Error)]
pub enum JsonFault {
    /// The text is no JSON from the value or the mark on that begins at this octet, or is no UTF-8 from this octet on.
    #[error("octet {0}: the text is no JSON")]
    Text(u64),
    #[error("the list is no object")]
    NotObject,
    #[error("the list has no member roas")]
    NoRoas,
    #[error("the member roas is no array")]
    NotArray,
    /// This entry of `roas` is faulty.
    #[error("roas[{0}]: {1}")]
    Entry(u64, EntryFault),
    #[error("the list has a second member roas")]
    SecondRoas,
    /// There is no memory, or there are more entries than can be counted.
    #[error("there is no memory for the list")]
    NoMemory,
}
