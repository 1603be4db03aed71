//! The places that a record may have.

ghost use Rattle.std.specs.Prelude.{◌≡◌, option_map};
ghost use Rattle.std.specs.Io.{WritesAtMost};
ghost use Rattle.std.specs.Io.KnownBytes.{Keeps, WriteAppends};
ghost use Rattle.record_writer.specs.Held.{bytes_held};

use crate::private_file::PrivateFile;
use std::fs::File;
use std::io;
use std::io::Write;

/// What a record is written to.
#[derive(Drop)]
pub enum RecordWriter {
    /// A file of the system, or a pipe.
    File(File),
    /// A file that was made without a runtime's handle.
    PrivateFile(PrivateFile),
    /// Memory.
    Memory(Vec<u8>),
}

impl RecordWriter {
    /// Returns the bytes that it holds, where it is memory.
    pub fn in_memory(&self) -> Option<&[u8]>
        ensures { option_map (λ bytes. bytes.now) result ≡ bytes_held self.now }
    {
        match self {
            RecordWriter::Memory(memory) => Some(memory.as_slice()),
            _ => None,
        }
    }
}

impl Write for RecordWriter {
    ghost use Rattle.record_writer.specs.Held.{bytes_held};

    ghost contents = { bytes_held };

    fn write(&mut self, bytes: &[u8]) -> io::Result<usize>
        ensures bound { WritesAtMost result bytes.now }
        ensures bytes { WriteAppends (bytes_held self.old) (bytes_held self.new) result bytes.now }
    {
        match self {
            RecordWriter::File(file) => file.write(bytes),
            RecordWriter::PrivateFile(file) => file.write(bytes),
            RecordWriter::Memory(memory) => memory.write(bytes),
        }
    }

    fn flush(&mut self) -> io::Result<()>
        ensures bytes { Keeps (bytes_held self.old) (bytes_held self.new) }
    {
        match self {
            RecordWriter::File(file) => file.flush(),
            RecordWriter::PrivateFile(file) => file.flush(),
            RecordWriter::Memory(memory) => memory.flush(),
        }
    }
}
