//! A connection apart from its bytes.

use crate::open_connections::shut;
use std::io;
use std::net::TcpStream;
use std::time::Duration;

/// What the system does to a connection beside its reads and writes. None of it reads or writes.
pub(crate) trait Connection {
    /// Shuts it both ways: its reader is at its end then, and its writer fails. Where the system refuses, it was shut already.
    fn shut(&self);

    /// Has it send each write at once. An error where the system refuses.
    fn send_at_once(&self) -> io::Result<()>;

    /// Has a read fail that waits for so long; None has it wait without end. An error where the system refuses.
    fn limit_reads(&self, longest: Option<Duration>) -> io::Result<()>;

    /// Has a write fail that waits for so long; None has it wait without end. An error where the system refuses.
    fn limit_writes(&self, longest: Option<Duration>) -> io::Result<()>;
}

impl Connection for &TcpStream {
    fn shut(&self) {
        shut(self);
    }

    fn send_at_once(&self) -> io::Result<()> {
        self.set_nodelay(true)
    }

    fn limit_reads(&self, longest: Option<Duration>) -> io::Result<()> {
        self.set_read_timeout(longest)
    }

    fn limit_writes(&self, longest: Option<Duration>) -> io::Result<()> {
        self.set_write_timeout(longest)
    }
}
