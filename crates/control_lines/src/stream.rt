//! Connections on which operators' lines come.
ghost use Rattle.std.specs.Prelude.{ℕ, List, Option, None};
ghost use Rattle.std.specs.Io.{ReadsAtMost, WritesAtMost};
ghost use Rattle.std.specs.Io.KnownBytes.{Keeps, ReadConsumes, WriteAppends};

use std::io::{self, Read, Write};
use std::os::unix::net::UnixStream;

/// A connection that doesn't wait. To write on it takes none of the octets that may be read, and to read adds none to those
/// that it took.
pub trait Stream {
    // The octets that may be read from here on, where they are known.
    ghost remaining: { Self → Option (List ℕ) } = { λ _. None };

    // The octets that it took, where they are known.
    ghost contents: { Self → Option (List ℕ) } = { λ _. None };

    /// Reads as many octets as there are and the buffer holds; 0 is the end.
    fn read(&mut self, buf: &mut [u8]) -> io::Result<usize>
        ensures bound { ReadsAtMost result buf.new }
        ensures bytes { ReadConsumes (remaining self.old) (remaining self.new) result buf.new }
        ensures unwritten { Keeps (contents self.old) (contents self.new) };

    /// Writes as many octets as it takes.
    fn write(&mut self, buf: &[u8]) -> io::Result<usize>
        ensures bound { WritesAtMost result buf.now }
        ensures bytes { WriteAppends (contents self.old) (contents self.new) result buf.now }
        ensures unread { Keeps (remaining self.old) (remaining self.new) };
}

impl Stream for UnixStream {
    fn read(&mut self, buf: &mut [u8]) -> io::Result<usize> {
        Read::read(self, buf)
    }

    fn write(&mut self, buf: &[u8]) -> io::Result<usize> {
        Write::write(self, buf)
    }
}
