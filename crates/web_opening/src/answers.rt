//! What is answered to a request, in bytes.
ghost use Rattle.std.specs.Prelude.{◌≡◌, IfOk};
ghost use Rattle.web_opening.specs.Response.{protocol_line, acceptance_bytes, refusal_status, refusal_bytes, is_accepted, status_of, response_of};

use std::alloc::{AllocError, Global};

/// Why a request is refused.
#[derive(Clone, Copy)]
pub enum Refusal {
    /// 400: the bytes are no request of HTTP, it has more than `MOST_LINES` header lines, it lacks what it must have, or it has twice what
    /// may come once.
    BadRequest,
    /// 403: its Host or its Origin is not let in.
    Forbidden,
    /// 405: its method is not GET.
    MethodNotAllowed,
    /// 426: it asks for no WebSocket, or for another version than 13.
    UpgradeRequired,
    /// 431: its head is longer than `MOST_BYTES`.
    HeadTooLarge,
    /// 505: it is one of HTTP/1.0.
    VersionNotSupported,
}

/// What an accepted request is told.
#[derive(Drop)]
pub struct Acceptance {
    /// What its key is answered by (RFC 6455, 4.2.2, 5.4).
    pub accept_key: [u8; 28],
    /// Whether it offered the subprotocol `binary`, which is chosen then.
    pub speaks_binary: bool,
}

/// What is answered to a request.
#[derive(Drop)]
pub enum Verdict {
    /// What follows the head are frames, and so is all that is written behind the answer.
    Accept(Acceptance),
    /// The connection is closed once the answer is written.
    Refuse(Refusal),
}

/// Returns the line that says that `binary` is spoken, or nothing.
fn protocol_line(speaks_binary: bool) -> &'static [u8]
    ensures { result.now ≡ protocol_line speaks_binary }
{
    if speaks_binary {
        b"Sec-WebSocket-Protocol: binary\r\n"
    } else {
        b""
    }
}

/// Returns the bytes that accept a request (RFC 6455, 4.2.2, 5). `AllocError` if the room for them is refused.
fn acceptance_bytes(alloc: Global, acceptance: &Acceptance) -> Result<Vec<u8>, AllocError>
    ensures { IfOk result (λ response. response.items ≡ acceptance_bytes acceptance.now) }
{
    let mut response = Vec::from_slice(
        alloc,
        b"HTTP/1.1 101 Switching Protocols\r\nUpgrade: websocket\r\nConnection: Upgrade\r\nSec-WebSocket-Accept: ",
    )?;
    response.extend_from_slice(&acceptance.accept_key)?;
    response.extend_from_slice(b"\r\n")?;
    response.extend_from_slice(protocol_line(acceptance.speaks_binary))?;
    response.extend_from_slice(b"\r\n")?;
    Ok(response)
}

/// Returns the bytes that refuse a request.
fn refusal_bytes(refusal: Refusal) -> &'static [u8]
    ensures { result.now ≡ refusal_bytes refusal }
{
    match refusal {
        Refusal::BadRequest => {
            b"HTTP/1.1 400 Bad Request\r\nConnection: close\r\n\
                Content-Type: text/plain\r\nContent-Length: 26\r\n\r\nThe request is malformed.\n"
        }
        Refusal::Forbidden => {
            b"HTTP/1.1 403 Forbidden\r\nConnection: close\r\n\
                Content-Type: text/plain\r\nContent-Length: 40\r\n\r\nThis host or this origin is not let in.\n"
        }
        Refusal::MethodNotAllowed => {
            b"HTTP/1.1 405 Method Not Allowed\r\nAllow: GET\r\nConnection: close\r\n\
                Content-Type: text/plain\r\nContent-Length: 21\r\n\r\nOnly GET is allowed.\n"
        }
        Refusal::UpgradeRequired => {
            b"HTTP/1.1 426 Upgrade Required\r\nUpgrade: websocket\r\nSec-WebSocket-Version: 13\r\nConnection: Upgrade, close\r\n\
                Content-Type: text/plain\r\nContent-Length: 28\r\n\r\nOnly WebSockets are served.\n"
        }
        Refusal::HeadTooLarge => {
            b"HTTP/1.1 431 Request Header Fields Too Large\r\nConnection: close\r\n\
                Content-Type: text/plain\r\nContent-Length: 36\r\n\r\nThe head is longer than 8192 bytes.\n"
        }
        Refusal::VersionNotSupported => {
            b"HTTP/1.1 505 HTTP Version Not Supported\r\nConnection: close\r\n\
                Content-Type: text/plain\r\nContent-Length: 25\r\n\r\nOnly HTTP/1.1 is spoken.\n"
        }
    }
}

impl Refusal {
    /// Returns the number of the status (RFC 9110, 15; RFC 6585, 5).
    pub fn status(self) -> u16
        ensures { result ≡ refusal_status self }
    {
        match self {
            Refusal::BadRequest => 400,
            Refusal::Forbidden => 403,
            Refusal::MethodNotAllowed => 405,
            Refusal::UpgradeRequired => 426,
            Refusal::HeadTooLarge => 431,
            Refusal::VersionNotSupported => 505,
        }
    }
}

impl Verdict {
    /// Says whether the request is accepted.
    pub fn is_accepted(&self) -> bool
        ensures { result ≡ is_accepted self.now }
    {
        match self {
            Verdict::Accept(_) => true,
            Verdict::Refuse(_) => false,
        }
    }

    /// Returns the number of the status that is answered.
    pub fn status(&self) -> u16
        ensures { result ≡ status_of self.now }
    {
        match self {
            Verdict::Accept(_) => 101,
            Verdict::Refuse(refusal) => refusal.status(),
        }
    }

    /// Returns the bytes that are answered. `AllocError` if the room for them is refused.
    pub fn response(&self, alloc: Global) -> Result<Vec<u8>, AllocError>
        ensures { IfOk result (λ response. response.items ≡ response_of self.now) }
    {
        match self {
            Verdict::Accept(acceptance) => acceptance_bytes(alloc, acceptance),
            Verdict::Refuse(refusal) => Vec::from_slice(alloc, refusal_bytes(*refusal)),
        }
    }
}
