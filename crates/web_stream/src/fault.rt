//! What a client may not do.

ghost use Rattle.std.specs.Prelude.{◌≡◌};
ghost use Rattle.web_stream.specs.Faults.{close_code, is_reserved, control_fault, data_fault, head_fault};
ghost use Rattle.web_stream.specs.Faults.{is_close_code, reason_fault, close_fault};

use crate::head::is_control;
use std::str;

/// What a client did that RFC 6455 or this server does not allow.
#[derive(Clone, Copy)]
pub enum WebFault {
    /// A frame has a reserved bit, or an opcode that is none (section 5.2).
    Reserved,
    /// A frame has no mask (section 5.1).
    Unmasked,
    /// A control frame is a fragment, or has more than 125 bytes (section 5.5).
    Control,
    /// A message begins within another one, or a fragment goes on with none (section 5.4).
    Fragment,
    /// A text (section 5.6): this server takes bytes.
    Text,
    /// A length that is not in its shortest form, or is 2^63 or more (section 5.2).
    Length,
    /// A close of one byte, or with a code that no close has (sections 5.5.1 and 7.4).
    CloseCode,
    /// A close whose reason is not UTF-8 (section 5.5.1).
    CloseReason,
}

impl WebFault {
    /// Returns the code of the close that answers it (section 7.4.1).
    pub fn close_code(self) -> u16
        ensures { result ≡ close_code self }
    {
        match self {
            WebFault::Text => 1003,
            WebFault::CloseReason => 1007,
            _ => 1002,
        }
    }
}

/// Returns whether a frame's first byte has a reserved bit, or an opcode that is none (section 5.2).
fn is_reserved(first: u8) -> bool
    ensures { result ≡ is_reserved first }
{
    first / 16 % 8 > 0 || first % 8 > 2
}

/// Returns what is wrong with the first two bytes of a control frame (section 5.5).
fn control_fault(first: u8, second: u8) -> Option<WebFault>
    ensures { result ≡ control_fault first second }
{
    if first < 128 || second % 128 > 125 {
        Some(WebFault::Control)
    } else {
        None
    }
}

/// Returns what is wrong with the first byte of a data frame, within a message or between two (section 5.4).
fn data_fault(is_within: bool, first: u8) -> Option<WebFault>
    ensures { result ≡ data_fault is_within first }
{
    let opcode = first % 16;
    if opcode == 1 {
        Some(WebFault::Text)
    } else if opcode == 0 {
        if is_within {
            None
        } else {
            Some(WebFault::Fragment)
        }
    } else if is_within {
        Some(WebFault::Fragment)
    } else {
        None
    }
}

/// Returns what is wrong with the first two bytes of a frame, within a message or between two.
pub(crate) fn head_fault(is_within: bool, first: u8, second: u8) -> Option<WebFault>
    ensures { result ≡ head_fault is_within first second }
{
    if is_reserved(first) {
        Some(WebFault::Reserved)
    } else if second < 128 {
        Some(WebFault::Unmasked)
    } else if is_control(first) {
        control_fault(first, second)
    } else {
        data_fault(is_within, first)
    }
}

/// Returns whether a close may have this code (section 7.4): 1004, 1005, 1006 and 1015 are never sent, and others are not given out.
fn is_close_code(code: u16) -> bool
    ensures { result ≡ is_close_code code }
{
    (1000 <= code && code <= 1003)
        || (1007 <= code && code <= 1014)
        || (3000 <= code && code <= 4999)
}

/// Returns what is wrong with a close's reason: it is text in UTF-8 (section 5.5.1).
#[tactic(auto, using(crate::proofs::Reasons::reasons))]
fn reason_fault(reason: &[u8]) -> Option<WebFault>
    ensures { result ≡ reason_fault reason.now }
{
    match str::from_utf8(reason) {
        Ok(_) => None,
        Err(_) => Some(WebFault::CloseReason),
    }
}

/// Returns what is wrong with a close's payload (section 5.5.1).
pub(crate) fn close_fault(payload: &[u8]) -> Option<WebFault>
    ensures { result ≡ close_fault payload.now }
{
    if payload.is_empty() {
        return None;
    }
    if payload.len() < 2 || !is_close_code(u16::from_be_bytes([payload[0], payload[1]])) {
        return Some(WebFault::CloseCode);
    }
    reason_fault(&payload[2..])
}
