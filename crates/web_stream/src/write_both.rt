//! Two pieces in one write.

ghost use Rattle.std.specs.Prelude.{◌++◌};
ghost use Rattle.std.specs.Io.{WritesAtMost};
ghost use Rattle.std.specs.Io.KnownBytes.{WriteAppends};

use mio::net::TcpStream;
use std::io;
use std::io::{IoSlice, Write};

/// What takes two pieces in one write, as a frame's head and its payload.
pub trait WriteBoth: Write {
    /// Writes the first piece and then the second, once, as `Write::write` does with both in one. Returns how many bytes of both were taken.
    fn write_both(&mut self, first: &[u8], second: &[u8]) -> io::Result<usize>
        ensures bound { WritesAtMost result (first.now ++ second.now) }
        ensures bytes { WriteAppends (Self.contents self.old) (Self.contents self.new) result (first.now ++ second.now) };
}

impl WriteBoth for TcpStream {
    fn write_both(&mut self, first: &[u8], second: &[u8]) -> io::Result<usize> {
        let stream: &TcpStream = self;
        stream.write_vectored(&[IoSlice::new(first), IoSlice::new(second)])
    }
}
