//! `requests` has the requests, each with its status; here they are given whole, and byte by byte.

mod requests;

use listed::Listed;
use requests::REQUESTS;
use std::alloc::{AllocError, Global};
use std::test::Fail;
use web_opening::{Admission, Opening, Verdict};

/// A head of RFC 6455's example key.
const ASKED: &[u8] =
    b"GET / HTTP/1.1\r\nHost: localhost\r\nUpgrade: websocket\r\nConnection: Upgrade\r\n\
    Sec-WebSocket-Key: dGhlIHNhbXBsZSBub25jZQ==\r\nSec-WebSocket-Version: 13\r\nSec-WebSocket-Protocol: binary\r\n\r\n";

/// Its answer, with the accept key of RFC 6455, 1.3.
const ANSWERED: &[u8] =
    b"HTTP/1.1 101 Switching Protocols\r\nUpgrade: websocket\r\nConnection: Upgrade\r\n\
    Sec-WebSocket-Accept: s3pPLMBiTxaQ9kYGzzhZRbK+xOo=\r\nSec-WebSocket-Protocol: binary\r\n\r\n";

/// The answer to a request that asks for no WebSocket.
const REFUSED: &[u8] =
    b"HTTP/1.1 426 Upgrade Required\r\nUpgrade: websocket\r\nSec-WebSocket-Version: 13\r\n\
    Connection: Upgrade, close\r\nContent-Type: text/plain\r\nContent-Length: 28\r\n\r\nOnly WebSockets are served.\n";

/// Names a host and an origin.
fn admission(alloc: Global) -> Result<Admission, AllocError> {
    let hosts = Listed::from_slice(alloc, b"desk.example")?;
    let origins = Listed::from_slice(alloc, b"https://pages.example")?;
    Ok(Admission { hosts, origins })
}

/// Returns the verdict on bytes that come in pieces of a size.
fn verdict_on(alloc: Global, bytes: &[u8], size: usize) -> Result<Option<Verdict>, AllocError> {
    let admission = admission(alloc)?;
    let mut opening = Opening::new(alloc);
    for piece in bytes.chunks(size.max(1)) {
        let _taken = opening.take(piece)?;
    }
    Ok(opening.verdict(&admission))
}

/// Says whether `binary` is spoken.
fn speaks_binary(verdict: &Verdict) -> bool {
    match verdict {
        Verdict::Accept(acceptance) => acceptance.speaks_binary,
        Verdict::Refuse(_) => false,
    }
}

#[test]
fn requests_have_their_statuses(rt: HostRuntime) -> Result<(), Fail> {
    for request in &REQUESTS {
        for size in [1, 7, usize::MAX] {
            let verdict = verdict_on(rt.alloc(), request.bytes, size)?.ok_or("more is wanted")?;
            assert_eq!(rt; verdict.status(), request.status);
            assert_eq!(rt; speaks_binary(&verdict), request.speaks_binary);
            assert_eq!(rt; verdict.is_accepted(), request.status == 101);
        }
    }
    Ok(())
}

#[test]
fn answers_have_their_bytes(rt: HostRuntime) -> Result<(), Fail> {
    let accepted = verdict_on(rt.alloc(), ASKED, 16)?.ok_or("more is wanted")?;
    let answer = accepted.response(rt.alloc())?;
    assert_eq!(rt; answer.as_slice(), ANSWERED);
    let refused = verdict_on(rt.alloc(), b"GET / HTTP/1.1\r\nHost: localhost\r\n\r\n", 16)?;
    let answer = refused.ok_or("more is wanted")?.response(rt.alloc())?;
    assert_eq!(rt; answer.as_slice(), REFUSED);
    Ok(())
}

#[test]
fn frames_behind_a_head_are_left(rt: HostRuntime) -> Result<(), Fail> {
    let mut bytes = Vec::from_slice(rt.alloc(), ASKED)?;
    bytes.extend_from_slice(b"\x82\x80abcd")?;
    let mut opening = Opening::new(rt.alloc());
    assert_eq!(rt; opening.take(&bytes)?, ASKED.len());
    assert_eq!(rt; opening.take(b"more")?, 0);
    Ok(())
}

#[test]
fn a_head_may_be_short_or_too_long(rt: HostRuntime) -> Result<(), Fail> {
    let admission = admission(rt.alloc())?;
    let mut opening = Opening::new(rt.alloc());
    assert!(rt; opening.verdict(&admission).is_none());
    assert_eq!(rt; opening.take(&[b'a'; 8191])?, 8191);
    assert!(rt; opening.verdict(&admission).is_none());
    assert_eq!(rt; opening.take(b"bc")?, 1);
    let verdict = opening.verdict(&admission).ok_or("more is wanted")?;
    assert_eq!(rt; verdict.status(), 431);
    assert_eq!(rt; opening.take(b"d")?, 0);
    Ok(())
}
