//! Files that are read whole.
ghost use Rattle.std.specs.Prelude.{◌≡◌, IfOk};
ghost use Rattle.file_paths.specs.OpenedFiles.{AreOctetsOf};

use std::alloc::Global;
use std::io::{self, Read};

/// The octets that are left of the file.
pub fn octets_of<L: Read + Drop>(alloc: Global, file: L) -> io::Result<Vec<u8>>
    ensures { IfOk result (λ octets. AreOctetsOf (L.remaining file) octets.items) }
{
    let mut file = file;
    let mut octets = Vec::new(alloc);
    file.read_to_end(&mut octets)?;
    Ok(octets)
}
