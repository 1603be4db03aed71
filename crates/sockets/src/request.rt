//! A browser's connection until its request is answered (RFC 6455, section 4.2), and one that is refused, until its peer has read why.

ghost use Rattle.std.specs.Prelude.{◌≡◌, false, []};
ghost use Rattle.sockets.specs.Requests.{IsAnswer, IsPassedOver, IsRead, IsStep, known_of, step_behind};

use crate::socket::{Peek, Peer, Socket};
use connection::Transport;
use mio::net::TcpStream;
use std::alloc::Global;
use std::io::ErrorKind;
use std::os::fd::{AsRawFd, RawFd};
use std::time::Instant;
use web_opening::{Admission, MOST_BYTES, Opening, Verdict};

/// How many bytes are read at once of what comes behind a refused request.
const DISCARD_SIZE: usize = 4_096;

/// How often a connection is read from in one turn, at most.
const READS: u32 = 4;

/// A connection whose request is not answered yet, or is refused.
#[derive(Drop)]
pub(crate) struct Request<T> {
    transport: T,
    opening: Opening,
    since: Instant,
    // it is answered: what comes is dropped, until the peer closes
    is_refused: bool,
}

/// What came of a request.
#[derive(Clone, Copy)]
pub(crate) enum Step {
    /// Nothing more can be read now.
    Waits,
    /// More may be read at once.
    Continues,
    /// It is accepted, by an answer of so many bytes: frames follow.
    Accepted(usize),
    /// Its connection has ended or failed.
    Over,
}

/// Returns what comes of a request behind a failure of its connection.
fn step_behind(kind: ErrorKind) -> Step
    ensures { result ≡ step_behind kind }
{
    match kind {
        ErrorKind::WouldBlock => Step::Waits,
        ErrorKind::Interrupted => Step::Continues,
        _ => Step::Over,
    }
}

impl<T> Request<T> {
    /// Returns that of a connection that came at a time, and of which nothing was read.
    pub fn new(alloc: Global, transport: T, since: Instant) -> Request<T>
        ensures transport { result.transport ≡ transport }
        ensures opening { result.opening ≡ [] }
        ensures since { result.since ≡ since }
        ensures refused { result.is_refused ≡ false }
    {
        Request {
            transport,
            opening: Opening::new(alloc),
            since,
            is_refused: false,
        }
    }

    /// Returns when its connection came.
    pub fn since(&self) -> Instant
        ensures { result ≡ self.now.since }
    {
        self.since
    }
}

impl<T: Transport + Peek> Request<T> {
    /// Reads what came of the head, as far as that goes, once. What comes behind the head is left to be read.
    #[tactic(auto, using(crate::proofs::RequestLemmas::takes_head))]
    fn read_head(&mut self) -> Step
        ensures { IsRead result (known_of T.unread T.written self.old) (known_of T.unread T.written self.new) }
    {
        let mut room = [0u8; MOST_BYTES];
        let came = match self.transport.peek(&mut room) {
            Ok(0) => return Step::Over,
            Ok(came) => came,
            Err(error) => return step_behind(error.kind()),
        };
        let Ok(taken) = self.opening.take(&room[..came]) else {
            return Step::Over;
        };
        match self.transport.receive(&mut room[..taken]) {
            Ok(read) if read == taken => Step::Continues,
            _ => Step::Over,
        }
    }

    /// Writes the answer, by which the server's first bytes go: so there is room for them, and a connection that takes less is over. One
    /// that is refused is written nothing more, but is read from still: a connection that is closed before all is read is reset, and its
    /// answer lost.
    #[tactic(auto, using(crate::proofs::RequestLemmas::written_whole))]
    fn answer(&mut self, alloc: Global, verdict: &Verdict) -> Step
        ensures { IsAnswer verdict.now result (known_of T.unread T.written self.old) (known_of T.unread T.written self.new) }
    {
        let Ok(response) = verdict.response(alloc) else {
            return Step::Over;
        };
        let Ok(written) = self.transport.send(&response) else {
            return Step::Over;
        };
        if written < response.len() {
            return Step::Over;
        }
        if verdict.is_accepted() {
            return Step::Accepted(written);
        }
        self.transport.end_writing();
        self.is_refused = true;
        Step::Continues
    }

    /// Reads once what came behind a refused request, and drops it.
    fn pass_over(&mut self) -> Step
        ensures { IsPassedOver result (known_of T.unread T.written self.old) (known_of T.unread T.written self.new) }
    {
        let mut room = [0u8; DISCARD_SIZE];
        match self.transport.receive(&mut room) {
            Ok(0) => Step::Over,
            Ok(_) => Step::Continues,
            Err(error) => step_behind(error.kind()),
        }
    }

    /// Reads once, and answers the request once its head has ended.
    fn step(&mut self, alloc: Global, admission: &Admission) -> Step
        ensures { IsStep admission.now.hosts admission.now.origins result (known_of T.unread T.written self.old) (known_of T.unread T.written self.new) }
    {
        if self.is_refused {
            return self.pass_over();
        }
        match self.read_head() {
            Step::Continues => {}
            step => return step,
        }
        match self.opening.verdict(admission) {
            Some(verdict) => self.answer(alloc, &verdict),
            None => Step::Continues,
        }
    }

    /// Reads what came, and answers the request once its head has ended. Reads until nothing more can be read, or the peer has ended, so that
    /// nothing is missed where the socket is reported but once; but a few times at most.
    #[tactic(auto, using(crate::proofs::RequestLemmas::goes_same, crate::proofs::RequestLemmas::goes_then, crate::proofs::RequestLemmas::step_then))]
    pub fn go_on(&mut self, alloc: Global, admission: &Admission) -> Step
        ensures { IsStep admission.now.hosts admission.now.origins result (known_of T.unread T.written self.old) (known_of T.unread T.written self.new) }
    {
        for _ in 0..READS {
            match self.step(alloc, admission) {
                Step::Continues => {}
                step => return step,
            }
        }
        Step::Continues
    }
}

impl Request<Socket<TcpStream>> {
    /// Returns the viewer's socket that it is once it is accepted, by an answer of so many bytes. None where memory is refused.
    pub fn into_peer(self, alloc: Global, answered: usize) -> Option<Peer> {
        let Request { transport, .. } = self;
        Peer::browser(alloc, transport, answered)
    }
}

impl<T: AsRawFd> AsRawFd for Request<T> {
    fn as_raw_fd(&self) -> RawFd {
        self.transport.as_raw_fd()
    }
}
