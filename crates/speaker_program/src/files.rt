//! The files of a speaker's settings, as they are opened.
ghost use Rattle.std.specs.Io.Buffered.{reader_remaining};
ghost use Rattle.speaker_program.specs.Files.{AreOctetsAt, IsAnswered};

use file_paths::{OpensFiles, octets_of};
use std::alloc::Global;
use std::io::{self, BufReader};

/// The octets of the file at this path.
pub(crate) fn octets_at<P: OpensFiles>(alloc: Global, files: &P, path: &str) -> io::Result<Vec<u8>>
    ensures { IsAnswered P.opened P.refused (λ octets. AreOctetsAt P.opened path.now octets.items) path.now result }
{
    let file = files.open(path)?;
    octets_of(alloc, file)
}

/// The lines of the file at this path.
pub(crate) fn lines_of<P: OpensFiles>(
    alloc: Global,
    files: &P,
    path: &str,
) -> io::Result<BufReader<P::File>>
    ensures { IsAnswered P.opened P.refused (λ lines. P.opened path.now (reader_remaining P.File.remaining lines)) path.now result }
{
    let file = files.open(path)?;
    BufReader::new(alloc, file)
}
