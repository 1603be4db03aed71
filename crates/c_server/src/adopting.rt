//! Connections and listeners that the program has.

ghost use Rattle.std.specs.Prelude.{◌≡◌, ◌≤ℤ◌, IfErr, OnOk, pos};
ghost use Rattle.c_server.specs.Calls.{IsSocketRefusal};

use crate::codes::{BAD_SOCKET, NETWORK_FAILED};
use event_loop::{Application, Canvas, Input, Receipt, ScreenError};
use libc::net::{_SS_SIZE, AF_UNIX, getpeername, getsockname, listen};
use mio::net::{TcpListener, TcpStream, UnixListener};
use os::FromRawFd;
use std::io::Write;
use std::net;
use std::os::unix;
use turned_away::refusal;

/// How many connections wait at a listener of the program's, about.
const BACKLOG: i32 = 128;

/// An application that draws nothing, and keeps nothing of what it is told, while a connection is taken in.
#[derive(Drop)]
pub(crate) struct Silent;

impl Application for Silent {
    fn on_input(&mut self, _: &mut Canvas, _: u64, _: &Input) -> Result<(), ScreenError> {
        Ok(())
    }

    fn left(&mut self, _: &mut Canvas, _: Receipt) -> Result<(), ScreenError> {
        Ok(())
    }
}

/// Returns whether a descriptor is a socket that is connected. Where it isn't, errno says why.
fn is_connected(fd: i32) -> bool {
    let mut address = [0u8; _SS_SIZE];
    let mut length = 128;
    unsafe { getpeername(fd, &mut address, &mut length) == 0 }
}

/// Takes a descriptor of the program's that is a connected socket, and returns the connection, whose reads and writes don't wait. Returns
/// `BAD_SOCKET` where it is none, and then the descriptor stays the program's; `NETWORK_FAILED` where the system refuses not to wait, and
/// then it is closed.
pub(crate) fn stream_of(fd: i32) -> Result<TcpStream, i32>
    ensures taken { OnOk result (pos 0 ≤ℤ fd) }
    ensures err { IfErr result (IsSocketRefusal fd) }
{
    if !is_connected(fd) || fd < 0 {
        return Err(BAD_SOCKET);
    }
    let stream = unsafe { net::TcpStream::from_raw_fd(fd) };
    match stream.set_nonblocking(true) {
        Ok(()) => Ok(TcpStream::from_std(stream)),
        Err(_) => Err(NETWORK_FAILED),
    }
}

/// A listener that the program had.
#[derive(Drop)]
pub(crate) enum Listener {
    /// At an IP address and a port.
    Tcp(TcpListener),
    /// A socket of UNIX.
    Unix(UnixListener),
}

/// Returns whether a descriptor is a socket of UNIX, by its address, which begins with the number of its family.
fn is_unix(fd: i32) -> bool {
    let mut address = [0u8; _SS_SIZE];
    let mut length = 128;
    let told = unsafe { getsockname(fd, &mut address, &mut length) };
    told == 0 && i32::from(u16::from_ne_bytes([address[0], address[1]])) == AF_UNIX
}

/// Returns the listener that a descriptor is which listens, and which doesn't wait. `NETWORK_FAILED` where the system refuses that, and then
/// it is closed.
fn listening(fd: i32) -> Result<Listener, i32>
    requires { pos 0 ≤ℤ fd }
    ensures { IfErr result (λ code. code ≡ NETWORK_FAILED) }
{
    if is_unix(fd) {
        let listener = unsafe { unix::net::UnixListener::from_raw_fd(fd) };
        return match listener.set_nonblocking(true) {
            Ok(()) => Ok(Listener::Unix(UnixListener::from_std(listener))),
            Err(_) => Err(NETWORK_FAILED),
        };
    }
    let listener = unsafe { net::TcpListener::from_raw_fd(fd) };
    match listener.set_nonblocking(true) {
        Ok(()) => Ok(Listener::Tcp(TcpListener::from_std(listener))),
        Err(_) => Err(NETWORK_FAILED),
    }
}

/// Takes a descriptor of the program's that is a bound stream socket, and returns the listener that it is then. Returns `BAD_SOCKET` where it
/// is none, and then the descriptor stays the program's; `NETWORK_FAILED` where the system refuses not to wait, and then it is closed.
pub(crate) fn listener_of(fd: i32) -> Result<Listener, i32>
    ensures taken { OnOk result (pos 0 ≤ℤ fd) }
    ensures err { IfErr result (IsSocketRefusal fd) }
{
    if listen(fd, BACKLOG) != 0 || fd < 0 {
        return Err(BAD_SOCKET);
    }
    listening(fd)
}

/// Tells a connection that there are too many (RFC 6143, 7.1.2), and closes it. It is new, so there is room for these few bytes.
pub(crate) fn turn_away(mut stream: TcpStream) {
    let _told = stream.write(&refusal());
}
