//! What comes: frames are taken apart byte by byte, however they are cut.

ghost use Rattle.std.specs.Prelude.{◌≡◌, ◌+◌, ◌<◌, ◌≤◌, ◌++◌, None, length, take, option_to_list, is_some};
ghost use Rattle.web_stream.specs.Next.{asked_by};
ghost use Rattle.web_stream.specs.Reading.{at_start, step, step_in, given, given_in, after, payloads};
ghost use Rattle.web_stream.specs.Reading.{with_kept, settled, closed, faulty, ended_by};
ghost use Rattle.web_stream.specs.Standing.{reading_of};

use crate::answer::{Answer, payload_of};
use crate::fault::{WebFault, close_fault};
use crate::head::KEPT;
use crate::next::{Next, next_of};
use arrayvec::ArrayVec;

/// How the frames that come ended.
#[derive(Clone, Copy)]
pub(crate) enum Over {
    /// By a close.
    Closed,
    /// By a fault.
    Fault(WebFault),
}

/// Where the bytes that come stand. Of a data frame's payload nothing is kept.
#[derive(Drop)]
pub(crate) struct Inward {
    kept: ArrayVec<u8, KEPT>,
    key: [u8; 4],
    come: u64,
    size: u64,
    is_within: bool,
    over: Option<Over>,
    answer: Option<Answer>,
}

/// Writes a payload byte at a place, if there is one. Returns the place behind it.
fn put(room: &mut [u8], at: usize, payload: Option<u8>) -> usize
    requires { at < length room.old }
    ensures written { take result room.new ≡ take at room.old ++ option_to_list payload }
    ensures bound { result ≤ at + 1 }
{
    match payload {
        Some(byte) => {
            room[at] = byte;
            at + 1
        }
        None => at,
    }
}

impl Inward {
    /// Returns the place before the first frame.
    pub fn new() -> Inward
        ensures { reading_of result ≡ at_start }
    {
        Inward {
            kept: ArrayVec::new(),
            key: [0; 4],
            come: 0,
            size: 0,
            is_within: false,
            over: None,
            answer: None,
        }
    }

    /// Returns how the frames ended, if they did.
    pub fn over(&self) -> Option<Over>
        ensures { result ≡ self.now.over }
    {
        self.over
    }

    /// Returns whether an answer waits to be written.
    pub fn has_answer(&self) -> bool
        ensures { result ≡ is_some self.now.answer }
    {
        self.answer.is_some()
    }

    /// Takes the answer that waits.
    pub fn take_answer(&mut self) -> Option<Answer>
        ensures answer { result ≡ self.old.answer }
        ensures none { self.new.answer ≡ None }
    {
        self.answer.take()
    }

    /// Takes the next byte that came, and returns it without its mask if it is a data frame's payload (RFC 6455, section 5.3). Once the
    /// frames are over, bytes are passed over.
    #[tactic(auto, using(crate::proofs::ReadingLemmas::one_byte))]
    pub fn take(&mut self, byte: u8) -> Option<u8>
        ensures given { option_to_list result ≡ given (reading_of self.old) byte }
        ensures now { reading_of self.new ≡ step (reading_of self.old) byte }
    {
        match self.over {
            Some(_) => None,
            None => self.take_open(byte),
        }
    }

    /// Does the same while the frames are not over.
    fn take_open(&mut self, byte: u8) -> Option<u8>
        ensures given { option_to_list result ≡ given_in (reading_of self.old) byte }
        ensures now { reading_of self.new ≡ step_in (reading_of self.old) byte }
    {
        if self.come < self.size {
            let place = (self.come % 4) as usize;
            self.come += 1;
            Some(byte ^ self.key[place])
        } else {
            self.keep(byte);
            None
        }
    }

    /// Takes bytes that came. Writes the payload bytes among them to the front of `room`, without their masks, and returns how many these
    /// are.
    #[tactic(auto, using(crate::proofs::ReadingLemmas::one_more))]
    pub fn take_all(&mut self, piece: &[u8], room: &mut [u8]) -> usize
        requires { length piece.now ≤ length room.old }
        ensures given { take result room.new ≡ payloads (reading_of self.old) piece.now }
        ensures now { reading_of self.new ≡ after (reading_of self.old) piece.now }
        ensures bound { result ≤ length piece.now }
    {
        let mut count = 0;
        for byte in piece {
            let payload = self.take(*byte);
            count = put(room, count, payload);
        }
        count
    }

    /// Keeps a byte of a head or of a control frame, and does what the kept bytes ask for.
    fn keep(&mut self, byte: u8)
        ensures { reading_of self.new ≡ with_kept (reading_of self.old) byte }
    {
        if self.kept.is_full() {
            self.fail(WebFault::Control);
            return;
        }
        self.kept.push(byte);
        let next = next_of(self.is_within, &self.kept);
        self.settle(next);
    }

    /// Does what the kept bytes ask for.
    fn settle(&mut self, next: Next)
        ensures { reading_of self.new ≡ settled (reading_of self.old) (asked_by next) }
    {
        match next {
            Next::More => {}
            Next::Data {
                key,
                size,
                is_final,
            } => {
                self.kept.clear();
                self.key = key;
                self.come = 0;
                self.size = size;
                self.is_within = !is_final;
            }
            Next::Ping(payload) => {
                self.kept.clear();
                self.answer = Some(Answer::Pong(payload));
            }
            Next::Pong => self.kept.clear(),
            Next::Close(payload) => self.end(&payload),
            Next::Fault(fault) => self.fail(fault),
        }
    }

    /// Ends by a client's close, which is answered by its code (section 5.5.1).
    #[tactic(auto, using(crate::proofs::ReadingLemmas::ends))]
    fn end(&mut self, payload: &[u8])
        requires { length payload.now ≤ 125 }
        ensures { reading_of self.new ≡ ended_by payload.now (reading_of self.old) }
    {
        match close_fault(payload) {
            Some(fault) => self.fail(fault),
            None => {
                let code = 2usize.min(payload.len());
                self.over = Some(Over::Closed);
                self.answer = Some(Answer::Close(payload_of(&payload[..code])));
            }
        }
    }

    /// Ends by a fault, which is answered by its code (section 7.1.7).
    fn fail(&mut self, fault: WebFault)
        ensures { reading_of self.new ≡ faulty (reading_of self.old) fault }
    {
        self.over = Some(Over::Fault(fault));
        self.answer = Some(Answer::Close(payload_of(&fault.close_code().to_be_bytes())));
    }

    /// Ends by the server's close with this code, unless the frames are over (section 7.1.2).
    #[tactic(auto, using(crate::proofs::ReadingLemmas::closes))]
    pub fn close(&mut self, code: u16)
        ensures { reading_of self.new ≡ closed (reading_of self.old) code }
    {
        match self.over {
            Some(_) => {}
            None => {
                self.over = Some(Over::Closed);
                self.answer = Some(Answer::Close(payload_of(&code.to_be_bytes())));
            }
        }
    }
}
