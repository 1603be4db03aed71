//! What the kept bytes of a frame ask for.

ghost use Rattle.std.specs.Prelude.{◌≡◌, ◌≤◌, length, slice_index};
ghost use Rattle.web_stream.specs.Frames.{kept_size};
ghost use Rattle.web_stream.specs.Next.{asked_by, control_payload, next_of, next_of_sound, next_of_control, next_of_data};

use crate::fault::{WebFault, head_fault};
use crate::head::{
    CONTROL_PAYLOAD, extended_size, is_control, is_wrong_size, kept_size, key_at, payload_size,
};
use arrayvec::ArrayVec;

/// What the bytes that are kept of a client's frame ask for.
#[derive(Drop)]
pub(crate) enum Next {
    /// They are not whole yet.
    More,
    /// They are the head of a binary frame or of its continuation, whose payload comes.
    Data {
        /// Its masking key.
        key: [u8; 4],
        /// How many bytes of payload it has.
        size: u64,
        /// Whether no fragment of the message follows.
        is_final: bool,
    },
    /// They are a ping with this payload.
    Ping(ArrayVec<u8, CONTROL_PAYLOAD>),
    /// They are a pong.
    Pong,
    /// They are a close with this payload.
    Close(ArrayVec<u8, CONTROL_PAYLOAD>),
    /// They are what no client sends.
    Fault(WebFault),
}

/// Returns a control frame's payload without its mask (RFC 6455, section 5.3).
#[tactic(auto, using(crate::proofs::Masks::unmasked_more))]
pub(crate) fn control_payload(kept: &[u8]) -> ArrayVec<u8, CONTROL_PAYLOAD>
    requires least { 6 ≤ length kept.now }
    requires most { length kept.now ≤ 131 }
    ensures { result.items ≡ control_payload kept.now }
{
    let key = key_at(kept, 2);
    let masked = &kept[6..];
    let mut payload = ArrayVec::new();
    for byte in masked {
        let place = payload.len() % 4;
        payload.push(*byte ^ key[place]);
    }
    payload
}

/// Returns what the bytes of a whole control frame ask for (section 5.5).
fn next_of_control(kept: &[u8]) -> Next
    requires least { 6 ≤ length kept.now }
    requires most { length kept.now ≤ 131 }
    ensures { asked_by result ≡ next_of_control kept.now }
{
    match kept[0] % 16 {
        8 => Next::Close(control_payload(kept)),
        9 => Next::Ping(control_payload(kept)),
        _ => Next::Pong,
    }
}

/// Returns what the whole head of a data frame asks for (section 5.2).
fn next_of_data(kept: &[u8]) -> Next
    requires head { 2 ≤ length kept.now }
    requires whole { kept_size 4 (slice_index kept.now 0) (slice_index kept.now 1) ≤ length kept.now }
    ensures { asked_by result ≡ next_of_data kept.now }
{
    let _whole = kept_size(kept[0], kept[1]);
    let size = payload_size(kept);
    if is_wrong_size(kept[1], size) {
        return Next::Fault(WebFault::Length);
    }
    Next::Data {
        key: key_at(kept, 2 + extended_size(kept[1])),
        size,
        is_final: kept[0] >= 128,
    }
}

/// Returns what the bytes of a frame ask for whose first two have no fault.
fn next_of_sound(kept: &[u8]) -> Next
    requires least { 2 ≤ length kept.now }
    requires most { length kept.now ≤ 131 }
    ensures { asked_by result ≡ next_of_sound kept.now }
{
    if kept.len() < kept_size(kept[0], kept[1]) {
        Next::More
    } else if is_control(kept[0]) {
        next_of_control(kept)
    } else {
        next_of_data(kept)
    }
}

/// Returns what the bytes that are kept of a frame ask for, within a message or between two.
#[tactic(auto, using(crate::proofs::NextLemmas::asks))]
pub(crate) fn next_of(is_within: bool, kept: &[u8]) -> Next
    requires { length kept.now ≤ 131 }
    ensures { asked_by result ≡ next_of is_within kept.now }
{
    if kept.len() < 2 {
        return Next::More;
    }
    match head_fault(is_within, kept[0], kept[1]) {
        Some(fault) => Next::Fault(fault),
        None => next_of_sound(kept),
    }
}
