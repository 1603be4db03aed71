//! The time that a viewer has for its opening.

ghost use Rattle.std.specs.Prelude.{◌≡◌, false, MatchResult};
ghost use Rattle.std.specs.Io.{ReadsAtMost, WritesAtMost};
ghost use Rattle.std.specs.Io.KnownBytes.{ReadConsumes, WriteAppends};
ghost use Rattle.std.specs.IoError.{error_kind};
ghost use Rattle.serving.specs.Reasons.{is_timeout};

use crate::socket::Connection;
use std::io;
use std::io::{ErrorKind, Read, Write};
use std::time::{Clock, Duration, Instant};

/// How many seconds an opening may take.
const LONGEST: u64 = 10;

/// A reader or a writer of a connection in its opening: it gives and takes the same bytes. Each read and write fails once the time is
/// up, and waits no longer than until then.
#[derive(Drop)]
pub(crate) struct OpeningStream<'s, R: Clock, S> {
    clock: &'s R,
    stream: S,
    // None where the clock can't be read
    began: Option<Instant>,
    is_late: bool,
}

/// Returns whether a read or a write ended since nothing came in time.
fn is_late(outcome: &io::Result<usize>) -> bool
    ensures { MatchResult outcome.now (λ _. result ≡ false) (λ error. result ≡ is_timeout (error_kind error)) }
{
    match outcome {
        Ok(_) => false,
        Err(error) => matches!(error.kind(), ErrorKind::WouldBlock | ErrorKind::TimedOut),
    }
}

impl<'s, R: Clock, S> OpeningStream<'s, R, S> {
    /// Returns a reader or a writer of a connection whose opening began at a time.
    pub fn new(clock: &'s R, stream: S, began: Option<Instant>) -> OpeningStream<'s, R, S>
        ensures { result.stream ≡ stream }
    {
        OpeningStream {
            clock,
            stream,
            began,
            is_late: false,
        }
    }

    /// Returns whether the last read failed since the time was up.
    pub fn is_late(&self) -> bool
        ensures { result ≡ self.now.is_late }
    {
        self.is_late
    }

    /// Returns the reader or the writer, whose time is its own from now on.
    pub fn into_stream(self) -> S
        ensures { result ≡ self.entry.stream }
    {
        self.stream
    }

    /// Returns what is left of the time. An error where nothing is.
    fn left(&self) -> io::Result<Duration> {
        let Some(began) = self.began else {
            return Err(io::Error::from(ErrorKind::TimedOut));
        };
        let left = Duration::from_secs(LONGEST).saturating_sub(began.elapsed(self.clock)?);
        if left.is_zero() {
            return Err(io::Error::from(ErrorKind::TimedOut));
        }
        Ok(left)
    }
}

impl<'s, R: Clock, S: Read + Connection> OpeningStream<'s, R, S> {
    /// Reads bytes, and waits for as long as is left.
    fn read_in_time(&mut self, buffer: &mut [u8]) -> io::Result<usize>
        ensures bound { ReadsAtMost result buffer.new }
        ensures read { ReadConsumes (S.remaining self.old.stream) (S.remaining self.new.stream) result buffer.new }
    {
        let left = self.left()?;
        self.stream.limit_reads(Some(left))?;
        self.stream.read(buffer)
    }
}

impl<'s, R: Clock, S: Write + Connection> OpeningStream<'s, R, S> {
    /// Writes bytes, and waits for as long as is left.
    fn write_in_time(&mut self, bytes: &[u8]) -> io::Result<usize>
        ensures bound { WritesAtMost result bytes.now }
        ensures written { WriteAppends (S.contents self.old.stream) (S.contents self.new.stream) result bytes.now }
    {
        let left = self.left()?;
        self.stream.limit_writes(Some(left))?;
        self.stream.write(bytes)
    }
}

impl<'s, R: Clock, S: Read + Connection> Read for OpeningStream<'s, R, S> {
    ghost remaining = { λ s. S.remaining s.stream };

    fn read(&mut self, buffer: &mut [u8]) -> io::Result<usize> {
        let outcome = self.read_in_time(buffer);
        self.is_late = is_late(&outcome);
        outcome
    }
}

impl<'s, R: Clock, S: Write + Connection> Write for OpeningStream<'s, R, S> {
    ghost contents = { λ s. S.contents s.stream };

    fn write(&mut self, bytes: &[u8]) -> io::Result<usize> {
        self.write_in_time(bytes)
    }

    fn flush(&mut self) -> io::Result<()> {
        Ok(())
    }
}
