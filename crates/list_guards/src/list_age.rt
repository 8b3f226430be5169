//! When a list was written.
use std::fmt::{self, Display, Formatter, Write};

/// How many seconds ago a list was written, if that can be told.
#[derive(Clone, Copy, Debug, PartialEq, Eq)]
pub struct ListAge(pub Option<u64>);

impl Display for ListAge {
    fn fmt<W: Write>(&self, f: &mut Formatter<W>) -> fmt::Result {
        match self.0 {
            Some(seconds) => write!(f, "written {seconds} seconds ago"),
            None => f.write_str("written at a time that can't be told"),
        }
    }
}
