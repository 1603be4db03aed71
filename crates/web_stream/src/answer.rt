//! The server's own frames: pongs and closes (RFC 6455, section 5.5).

ghost use Rattle.std.specs.Prelude.{◌≡◌, ◌≤◌, ◌∷◌, length};
ghost use Rattle.web_stream.specs.Answers.{answer_frame, data_head, IsControlFrame};

use crate::head::CONTROL_PAYLOAD;
use arrayvec::ArrayVec;

/// How many bytes a frame of the server's own has at most.
pub(crate) const OWN: usize = 127;

/// A frame of the server's own that waits, by its payload. `ArrayVec` holds the 125 bytes that RFC 6455 allows at most.
#[derive(Drop)]
pub(crate) enum Answer {
    /// The answer to a ping, with the ping's payload (section 5.5.3).
    Pong(ArrayVec<u8, CONTROL_PAYLOAD>),
    /// A close, with a code or without (section 5.5.1).
    Close(ArrayVec<u8, CONTROL_PAYLOAD>),
}

/// Returns bytes as a control frame's payload.
pub(crate) fn payload_of(bytes: &[u8]) -> ArrayVec<u8, CONTROL_PAYLOAD>
    requires { length bytes.now ≤ 125 }
    ensures { result.items ≡ bytes.now }
{
    let mut payload = ArrayVec::new();
    payload.try_extend_from_slice(bytes).unwrap();
    payload
}

/// Returns the bytes of a frame or a head: the first two, and then the rest.
pub(crate) fn frame_of(first: u8, second: u8, rest: &[u8]) -> ArrayVec<u8, OWN>
    requires { length rest.now ≤ 125 }
    ensures { result.items ≡ first ∷ second ∷ rest.now }
{
    let mut frame = ArrayVec::new();
    frame.push(first);
    frame.push(second);
    frame.try_extend_from_slice(rest).unwrap();
    frame
}

/// Returns the frame of a payload, which is final and has no mask (section 5.2).
fn control_frame(first: u8, payload: &[u8]) -> ArrayVec<u8, OWN>
    requires { length payload.now ≤ 125 }
    ensures { result.items ≡ first ∷ length payload.now ∷ payload.now }
{
    frame_of(first, payload.len() as u8, payload)
}

impl Answer {
    /// Returns the answer as it is written.
    pub fn frame(&self) -> ArrayVec<u8, OWN>
        ensures bytes { result.items ≡ answer_frame self.now }
        ensures whole { IsControlFrame result.items }
    {
        match self {
            Answer::Pong(payload) => control_frame(0x8a, payload),
            Answer::Close(payload) => control_frame(0x88, payload),
        }
    }
}

/// Returns the head of a binary frame of `size` bytes, which is final and has no mask (section 5.2).
pub(crate) fn data_head(size: usize) -> ArrayVec<u8, OWN>
    ensures { result.items ≡ data_head size }
{
    if size < 126 {
        frame_of(0x82, size as u8, &[])
    } else if size < 65_536 {
        frame_of(0x82, 126, &(size as u16).to_be_bytes())
    } else {
        frame_of(0x82, 127, &(size as u64).to_be_bytes())
    }
}
