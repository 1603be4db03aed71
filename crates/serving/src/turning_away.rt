//! A connection for which there is no seat is told so.

use crate::open_connections::shut;
use std::io;
use std::io::{Read, Write};
use std::net::{Shutdown, TcpStream};
use std::time::Duration;
use turned_away::refusal;

/// For how many milliseconds it is waited that a connection takes its refusal, and then that it answers.
const MOMENT: u64 = 100;

/// Writes the refusal, and lets the peer answer: what was written could be lost if its answer came to a connection that is gone.
fn tell(mut stream: &TcpStream) -> io::Result<()> {
    let moment = Some(Duration::from_millis(MOMENT));
    stream.set_write_timeout(moment)?;
    stream.set_read_timeout(moment)?;
    stream.write_all(&refusal())?;
    stream.shutdown(Shutdown::Write)?;
    let mut answer = [0u8; 64];
    let _count = stream.read(&mut answer)?;
    Ok(())
}

/// Tells a connection that there are too many, and shuts it. Where it doesn't listen, it is shut all the same.
pub(crate) fn turn_away(stream: &TcpStream) {
    let _told = tell(stream);
    shut(stream);
}
