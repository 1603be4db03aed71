//! Keepalive on a TCP socket: a peer that is gone without a word is noticed, however little is said.
#![tactic(auto)]

ghost use Rattle.std.specs.Prelude.{◌≡◌, ◌++◌, replicate};
ghost use Rattle.std.specs.Int.{w32, to_le_bytes};

use libc::net::{
    IPPROTO_TCP, SO_KEEPALIVE, SOL_SOCKET, TCP_KEEPCNT, TCP_KEEPIDLE, TCP_KEEPINTVL, setsockopt,
};
use std::os::fd::AsRawFd;

/// How many seconds nothing comes from a peer before it is asked for a sign.
const IDLE: u32 = 60;

/// How many seconds later it is asked again.
const INTERVAL: u32 = 10;

/// After how many signs that didn't come it is taken to be gone.
const PROBES: u32 = 6;

/// Returns an option's value: a number, in the first four bytes.
fn number(value: u32) -> [u8; 16]
    ensures { result ≡ to_le_bytes w32 value ++ replicate 12 0 }
{
    let mut bytes = [0u8; 16];
    bytes[..4].copy_from_slice(&value.to_ne_bytes());
    bytes
}

/// Makes the system ask the peer of a TCP socket for a sign once nothing came from it for 60 seconds, and every 10 seconds after that.
/// After six signs that didn't come the connection is broken: each read and write of it fails. So a peer whose machine or line is gone is
/// noticed within about two minutes, unless bytes were on their way to it: then once the system has given up on repeating them. Leaves an
/// option that the system refuses as it was.
pub fn keep_alive(socket: &impl AsRawFd) {
    let descriptor = socket.as_raw_fd();
    unsafe {
        setsockopt(descriptor, SOL_SOCKET, SO_KEEPALIVE, &number(1), 4);
        setsockopt(descriptor, IPPROTO_TCP, TCP_KEEPIDLE, &number(IDLE), 4);
        setsockopt(descriptor, IPPROTO_TCP, TCP_KEEPINTVL, &number(INTERVAL), 4);
        setsockopt(descriptor, IPPROTO_TCP, TCP_KEEPCNT, &number(PROBES), 4);
    }
}
