//! A viewer's socket.

ghost use Rattle.std.specs.Prelude.{◌≡◌, Bool, true, false, take, IfOk, IfSome};
ghost use Rattle.std.specs.Io.{ReadsAtMost, StartsWith, WritesAtMost};
ghost use Rattle.std.specs.Io.KnownBytes.{ReadConsumes, WriteAppends, Keeps};
ghost use Rattle.turned_away.specs.Refusal.{refusal, reason};
ghost use Rattle.sockets.specs.Counting.{counted};

use connection::Transport;
use keepalive::keep_alive;
use mio::net::TcpStream;
use std::alloc::Global;
use std::io;
use std::io::{Read, Write};
use std::net::{Shutdown, SocketAddr};
use std::os::fd::{AsRawFd, RawFd};
use turned_away::refusal;
use web_stream::{WebStream, WriteBoth};

/// The code of the close that the server sends: what the connection was for is done (RFC 6455, section 7.4.1).
const DONE: u16 = 1000;

/// The code of the close that answers what breaks the protocol.
const PROTOCOL: u16 = 1002;

/// How many bytes a version has (RFC 6143, section 7.1.1).
const VERSION: usize = 12;

/// What may hold back bytes that came.
pub(crate) trait MayHoldBack {
    // Whether it may.
    ghost holds_back: { Bool } = { false };

    /// Returns whether a read may give more at once, though the last one didn't fill its room.
    fn may_give_more(&self) -> bool
        ensures { holds_back ≡ false → result ≡ false }
    {
        false
    }

    /// Returns the code of the close (RFC 6455, section 7.4.1) that answers what its peer did wrong.
    fn close_code(&self) -> u16 {
        PROTOCOL
    }
}

impl MayHoldBack for TcpStream {}

impl<S> MayHoldBack for WebStream<S> {
    ghost holds_back = { true };

    fn may_give_more(&self) -> bool {
        self.has_more()
    }

    fn close_code(&self) -> u16 {
        match self.fault() {
            Some(fault) => fault.close_code(),
            None => PROTOCOL,
        }
    }
}

/// A stream that can be looked at before it is read, and ended at one side.
pub(crate) trait LooksAhead: Read {
    /// Reads as `Read::read` does, and leaves the bytes for the next read.
    fn look(&self, room: &mut [u8]) -> io::Result<usize>
        ensures bound { ReadsAtMost result room.new }
        ensures seen { IfOk result (λ n. IfSome (Self.remaining self.now) (λ bytes. StartsWith bytes (take n room.new))) };

    /// Ends what is written: the peer reads the end behind it.
    fn end_sending(&self);
}

impl LooksAhead for TcpStream {
    fn look(&self, room: &mut [u8]) -> io::Result<usize> {
        self.peek(room)
    }

    fn end_sending(&self) {
        let _ended = self.shutdown(Shutdown::Write);
    }
}

/// A transport that can be looked at before it is read, and ended at one side.
pub(crate) trait Peek: Transport {
    /// Reads as `Transport::receive` does, and leaves the bytes for the next read.
    fn peek(&self, room: &mut [u8]) -> io::Result<usize>
        ensures bound { ReadsAtMost result room.new }
        ensures seen { IfOk result (λ n. IfSome (Self.unread self.now) (λ bytes. StartsWith bytes (take n room.new))) };

    /// Ends what is written: the peer reads the end behind it.
    fn end_writing(&self);
}

/// A stream as a viewer's transport.
///
/// It is proved for whatever stream there is, also one whose bytes are known: what is received is what one read of the stream gave, and
/// what is sent is what one write took. A further read or write would move bytes that no clause of the stream tells. Of a socket no bytes
/// are known, since they are the system's.
#[derive(Drop)]
pub struct Socket<S> {
    stream: S,
    // how many bytes were received, and how many were sent
    received: u64,
    sent: u64,
}

impl<S> Socket<S> {
    /// Returns a transport of a stream, with which nothing was done.
    pub(crate) fn new(stream: S) -> Socket<S>
        ensures stream { result.stream ≡ stream }
        ensures received { result.received ≡ 0 }
        ensures sent { result.sent ≡ 0 }
    {
        Socket {
            stream,
            received: 0,
            sent: 0,
        }
    }
}

/// Returns a count with so many more as a read or a write moved; a failed one moved none. It stops at 2^64 - 1.
fn counted(count: u64, moved: &io::Result<usize>) -> u64
    ensures { result ≡ counted count moved.now }
{
    match moved {
        Ok(more) => count.saturating_add(*more as u64),
        Err(_) => count,
    }
}

impl<S: WriteBoth> Socket<WebStream<S>> {
    /// Writes the close that waits, or one of the server's own, unless an update would be cut by it.
    fn take_leave(&mut self) {
        self.stream.close(DONE);
        let _written = self.stream.flush();
    }
}

impl<S: Read + Write + MayHoldBack + Drop> Transport for Socket<S> {
    ghost holds_back = { S.holds_back };

    ghost speaks = { true };

    fn receive(&mut self, room: &mut [u8]) -> io::Result<usize>
        ensures bound { ReadsAtMost result room.new }
        ensures read { ReadConsumes (S.remaining self.old.stream) (S.remaining self.new.stream) result room.new }
        ensures received { self.new.received ≡ counted self.old.received result }
        ensures sent { self.new.sent ≡ self.old.sent }
    {
        let read = self.stream.read(room);
        self.received = counted(self.received, &read);
        read
    }

    fn send(&mut self, bytes: &[u8]) -> io::Result<usize>
        ensures bound { WritesAtMost result bytes.now }
        ensures written { WriteAppends (S.contents self.old.stream) (S.contents self.new.stream) result bytes.now }
        ensures sent { self.new.sent ≡ counted self.old.sent result }
        ensures received { self.new.received ≡ self.old.received }
    {
        let written = self.stream.write(bytes);
        self.sent = counted(self.sent, &written);
        written
    }

    fn has_more(&self) -> bool {
        self.stream.may_give_more()
    }

    fn close_code(&self) -> u16 {
        self.stream.close_code()
    }

    fn flush(&mut self) -> io::Result<()>
        ensures written { Keeps (S.contents self.old.stream) (S.contents self.new.stream) }
    {
        self.stream.flush()
    }
}

impl<S: Read + Write + MayHoldBack + LooksAhead + Drop> Peek for Socket<S> {
    fn peek(&self, room: &mut [u8]) -> io::Result<usize> {
        self.stream.look(room)
    }

    fn end_writing(&self) {
        self.stream.end_sending();
    }
}

impl<S: AsRawFd> AsRawFd for Socket<S> {
    fn as_raw_fd(&self) -> RawFd {
        self.stream.as_raw_fd()
    }
}

/// What sends at once what is written to it, where it is told to.
pub trait SendsAtOnce {
    /// Has it send each write at once, so that no answer waits for the next one. Fails where the system refuses it.
    fn send_at_once(&self) -> io::Result<()>;
}

impl SendsAtOnce for TcpStream {
    fn send_at_once(&self) -> io::Result<()> {
        self.set_nodelay(true)
    }
}

impl<S: SendsAtOnce> SendsAtOnce for WebStream<S> {
    fn send_at_once(&self) -> io::Result<()> {
        self.get_ref().send_at_once()
    }
}

impl<S: SendsAtOnce> SendsAtOnce for Socket<S> {
    fn send_at_once(&self) -> io::Result<()> {
        self.stream.send_at_once()
    }
}

/// What is taken leave of before it is closed.
pub trait TakesLeave {
    /// Says that it is closed now, where there is a word for that: a browser is sent a close, or the answer to its own, unless an update
    /// would be cut by it.
    fn take_leave(&mut self);
}

/// A viewer's socket, over TCP or, for a browser, as a WebSocket on it (RFC 6455).
pub enum Peer {
    /// TCP, or a socket of UNIX by its descriptor.
    Plain(Socket<TcpStream>),
    /// A WebSocket, whose state of half a kilobyte is kept apart.
    Browser(Box<Socket<WebStream<TcpStream>>>),
}

// Written out, so that who holds one proves one call here, and not the drop of each field.
impl Drop for Peer {
    fn drop(self) {
        match self {
            Peer::Plain(_socket) => {}
            Peer::Browser(_socket) => {}
        }
    }
}

impl Peer {
    /// Returns that of a connection, with which nothing was done.
    pub fn plain(stream: TcpStream) -> Peer {
        Peer::Plain(Socket::new(stream))
    }

    /// Returns that of a browser by the connection from which its request was read, and to which an answer of so many bytes was written. None
    /// where memory is refused.
    pub(crate) fn browser(
        alloc: Global,
        socket: Socket<TcpStream>,
        answered: usize,
    ) -> Option<Peer> {
        let socket = Socket::new(WebStream::new(socket.stream, answered));
        match Box::new(alloc, socket) {
            Ok(socket) => Some(Peer::Browser(socket)),
            Err(_) => None,
        }
    }

    /// Returns how many bytes of its viewer's were received, and how many were sent to it: of a browser's the payloads of its frames.
    pub fn moved(&self) -> (u64, u64) {
        match self {
            Peer::Plain(socket) => (socket.received, socket.sent),
            Peer::Browser(socket) => (socket.received, socket.sent),
        }
    }

    /// Returns the address and the port at its other end, or why the system doesn't tell them.
    pub fn address(&self) -> io::Result<SocketAddr> {
        match self {
            Peer::Plain(socket) => socket.stream.peer_addr(),
            Peer::Browser(socket) => socket.stream.get_ref().peer_addr(),
        }
    }
}

impl TakesLeave for Peer {
    fn take_leave(&mut self) {
        match self {
            Peer::Plain(_) => {}
            Peer::Browser(socket) => socket.take_leave(),
        }
    }
}

impl Transport for Peer {
    ghost holds_back = { true };

    ghost speaks = { true };

    fn receive(&mut self, room: &mut [u8]) -> io::Result<usize> {
        match self {
            Peer::Plain(socket) => socket.receive(room),
            Peer::Browser(socket) => socket.receive(room),
        }
    }

    fn send(&mut self, bytes: &[u8]) -> io::Result<usize> {
        match self {
            Peer::Plain(socket) => socket.send(bytes),
            Peer::Browser(socket) => socket.send(bytes),
        }
    }

    fn has_more(&self) -> bool {
        match self {
            Peer::Plain(socket) => socket.has_more(),
            Peer::Browser(socket) => socket.has_more(),
        }
    }

    fn close_code(&self) -> u16 {
        match self {
            Peer::Plain(socket) => socket.close_code(),
            Peer::Browser(socket) => socket.close_code(),
        }
    }

    fn flush(&mut self) -> io::Result<()> {
        match self {
            Peer::Plain(socket) => socket.flush(),
            Peer::Browser(socket) => socket.flush(),
        }
    }
}

impl AsRawFd for Peer {
    fn as_raw_fd(&self) -> RawFd {
        match self {
            Peer::Plain(socket) => socket.as_raw_fd(),
            Peer::Browser(socket) => socket.as_raw_fd(),
        }
    }
}

impl SendsAtOnce for Peer {
    fn send_at_once(&self) -> io::Result<()> {
        match self {
            Peer::Plain(socket) => socket.send_at_once(),
            Peer::Browser(socket) => socket.send_at_once(),
        }
    }
}

/// Has a viewer's socket send what it is given at once, and notice a viewer that is gone without a word. Where the system refuses either,
/// all else stays.
pub fn set_up<S: AsRawFd + SendsAtOnce>(socket: &S) {
    let _set = socket.send_at_once();
    keep_alive(socket);
}

/// Tells a connection that there are too many. It is new, so there is room for these few bytes. Returns how many it took. Fails where the
/// version can't be written.
///
/// The version is a write of its own, and so a frame: noVNC reads one message of an opening in each.
pub fn turn_away<T: Transport>(transport: &mut T) -> io::Result<usize>
    ensures said { WriteAppends (T.written transport.old) (T.written transport.new) result (refusal reason) }
{
    let said = refusal();
    let (version, why) = said.split_at(VERSION);
    let taken = transport.send(version)?;
    if taken < version.len() {
        return Ok(taken);
    }
    match transport.send(why) {
        Ok(further) => Ok(taken + further),
        Err(_) => Ok(taken),
    }
}
