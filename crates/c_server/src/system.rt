//! What a server needs of the system where no `main` hands it a runtime, as in a library for another language.

ghost use Rattle.std.specs.Prelude.{◌≡◌, None, IfSome, IfOk, pos, string_bytes};
ghost use Rattle.std.specs.Net.Text.{ip_text};
ghost use Rattle.c_server.specs.System.{IsAt, IsNoAddress, milliseconds_of};

use std::alloc::{AllocError, Global};
use std::io;
use std::net::{IpAddr, Net, SocketAddr, TcpListener, TcpStream};
use std::time::{Clock, Duration};

/// Stands for the right to use the network where `mio` asks for it. The calls of `mio` go to the system themselves; this one opens
/// nothing.
pub(crate) struct Network;

impl Net for Network {
    type Stream = TcpStream;

    type Listener = TcpListener;

    fn bind(&self, _addr: SocketAddr) -> io::Result<TcpListener> {
        Err(io::Error::from(io::ErrorKind::Unsupported))
    }

    fn connect(&self, _addr: SocketAddr) -> io::Result<TcpStream> {
        Err(io::Error::from(io::ErrorKind::Unsupported))
    }
}

/// The system's clock that never goes back.
pub(crate) struct SystemClock;

impl Clock for SystemClock {
    fn monotonic(&self) -> io::Result<Duration> {
        let mut time = libc::types::timespec {
            tv_sec: 0,
            tv_nsec: 0,
        };
        if libc::clock_gettime(libc::CLOCK_MONOTONIC, &mut time) != 0 {
            return Err(io::Error::from(io::ErrorKind::Other));
        }
        let nanoseconds = Duration::from_nanos(time.tv_nsec.unsigned_abs());
        Ok(Duration::from_secs(time.tv_sec.unsigned_abs()).saturating_add(nanoseconds))
    }

    fn since_1970(&self) -> io::Result<Duration> {
        Err(io::Error::from(io::ErrorKind::Unsupported))
    }
}

/// Returns an address by its digits, as `127.0.0.1` or `::1`, with a port; None where it isn't one.
pub(crate) fn address_of(digits: &[u8], port: u16) -> Option<SocketAddr>
    ensures some { IfSome result (IsAt digits.now port) }
    ensures none { result ≡ None → IsNoAddress digits.now }
{
    match IpAddr::parse_ascii(digits) {
        Ok(address) => Some(SocketAddr::new(address, port)),
        Err(_) => None,
    }
}

/// Returns an address in digits, as `127.0.0.1` or `::1`.
pub(crate) fn digits_of(alloc: Global, address: IpAddr) -> Result<String, AllocError>
    ensures { IfOk result (λ digits. string_bytes digits ≡ ip_text address) }
{
    format!(in alloc; "{address}")
}

/// Returns how long a turn may wait at most, by milliseconds: without end below 0.
pub(crate) fn timeout_of(milliseconds: i32) -> Option<Duration> {
    let milliseconds = u64::try_from(milliseconds).ok()?;
    Some(Duration::from_millis(milliseconds))
}

/// The longest wait that is told, in milliseconds.
const LONGEST: u128 = i32::MAX as u128;

/// Returns how many milliseconds a wait takes, none of it cut off; at most 2^31 - 1, also where it has no end.
pub(crate) fn milliseconds_of(wait: Option<Duration>) -> i32
    ensures { result ≡ pos (milliseconds_of wait) }
{
    let Some(wait) = wait else {
        return i32::MAX;
    };
    let milliseconds = wait.as_nanos().div_ceil(1_000_000);
    milliseconds.min(LONGEST) as i32
}
