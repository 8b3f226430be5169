//! Files that may be written to while they are read, and by what they are known again.
ghost use Rattle.std.specs.Prelude.{◌≡◌, ◌↔◌, IsTrue, Option, None, false};
ghost use Rattle.file_paths.specs.OpenedFiles.{HasRested, same_stamp};
ghost use Rattle.file_paths.specs.declared.steady.Stamp.{Stamp};

use std::fs::OpenFile;
use std::os::unix::fs::MetadataExt;

/// What is read and may change meanwhile, and is known again.
pub trait Steady {
    // By what what is read is known again, if it is.
    ghost stamp: { Self → Option Stamp };

    /// Whether it has changed since it was opened.
    fn has_changed(&self) -> bool;

    /// By what it is known again: what has this stamp when it is opened holds the same. None where that can't be told.
    fn stamp(&self) -> Option<Stamp>
        ensures { result ≡ stamp self.now };
}

/// Octets in memory stay as they are, and have no stamp.
impl<'a> Steady for &'a [u8] {
    ghost stamp = { λ octets. None };

    fn has_changed(&self) -> bool
        ensures { result ≡ false }
    {
        false
    }

    fn stamp(&self) -> Option<Stamp> {
        None
    }
}

/// What the system keeps of a file beside its octets: where it lies, how large it is, and when it was written, and when it or what
/// is kept of it was changed, in seconds since 1970 and nanoseconds.
#[derive(Clone, Copy, Debug, PartialEq, Eq)]
pub struct Stamp {
    pub device: u64,
    pub node: u64,
    pub octets: u64,
    pub written: u64,
    pub written_nanoseconds: u64,
    pub changed: u64,
    pub changed_nanoseconds: u64,
}

/// For how many seconds a file must have rested before it is opened, so that it is known again by its stamp (own choice).
const RESTING_SECONDS: u64 = 2;

impl Stamp {
    /// Whether it has rested in this second since 1970: it was written and changed more than two seconds before. What is written
    /// to a file behind that changes its stamp, also where the system's ticks are as long as two seconds.
    pub(crate) fn has_rested(self, second: u64) -> bool
        ensures { IsTrue result ↔ HasRested second self }
    {
        let last = self.written.max(self.changed);
        last < second && second - last > RESTING_SECONDS
    }

    /// Whether it is this one, in each number.
    pub fn is(self, other: Stamp) -> bool
        ensures { result ≡ same_stamp self other }
    {
        self.device == other.device
            && self.node == other.node
            && self.octets == other.octets
            && self.written == other.written
            && self.written_nanoseconds == other.written_nanoseconds
            && self.changed == other.changed
            && self.changed_nanoseconds == other.changed_nanoseconds
    }

    // Whether the file is as large, and was written when this was.
    pub(crate) fn is_written_as(self, other: Stamp) -> bool {
        self.octets == other.octets
            && self.written == other.written
            && self.written_nanoseconds == other.written_nanoseconds
    }
}

/// The stamp that an open file has now, if that can be told.
pub(crate) fn stamp_of<F: OpenFile>(file: &F) -> Option<Stamp> {
    let metadata = file.metadata().ok()?;
    let _known = metadata.modified().ok()?;
    Some(Stamp {
        device: metadata.dev(),
        node: metadata.ino(),
        octets: metadata.len(),
        written: u64::try_from(metadata.mtime()).ok()?,
        written_nanoseconds: u64::try_from(metadata.mtime_nsec()).ok()?,
        changed: u64::try_from(metadata.ctime()).ok()?,
        changed_nanoseconds: u64::try_from(metadata.ctime_nsec()).ok()?,
    })
}
