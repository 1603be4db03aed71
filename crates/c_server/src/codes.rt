//! The numbers that calls answer besides those of `c_screen`.

ghost use Rattle.std.specs.Prelude.{◌≡◌};
ghost use Rattle.c_screen.specs.Codes.{code_of};
ghost use Rattle.c_server.specs.Codes as code;

use c_screen::{code_of, fault_code};
use event_loop::{Admission, Ended, LoopError, ScreenError};
use std::alloc::AllocError;

/// The address is no IP address in digits, as `127.0.0.1` or `::1`.
pub const BAD_ADDRESS: i32 = -13;

/// The system doesn't let the program listen there, or has no more handles.
pub const CANNOT_LISTEN: i32 = -14;

/// The system refused something of the network: to say which sockets are ready, a handle, not to wait at a socket, a viewer's address, or
/// to wake.
pub const NETWORK_FAILED: i32 = -15;

/// The system failed to say what time it is.
pub const CLOCK_FAILED: i32 = -16;

/// The file of a record is there already, or can't be made.
pub const CANNOT_RECORD: i32 = -20;

/// The descriptor is no socket, or for `adopt` not connected, or for `listen_at` none that can listen.
pub const BAD_SOCKET: i32 = -22;

/// As many viewers are connected as may be at once.
pub const FULL: i32 = -23;

/// The system or memory refused a connection for which there is room.
pub const CANNOT_ADOPT: i32 = -24;

/// As many ports are listened on as may be.
pub const TOO_MANY_PORTS: i32 = -25;

/// Returns 0, or why a turn ended.
pub(crate) fn turn_code(answer: Result<(), LoopError>) -> i32
    ensures { result ≡ code.turn_code answer }
{
    match answer {
        Ok(()) => 0,
        Err(LoopError::Network) => NETWORK_FAILED,
        Err(LoopError::Clock) => CLOCK_FAILED,
        Err(LoopError::Screen(e)) => code_of(e),
        Err(LoopError::TooManyListeners) => TOO_MANY_PORTS,
    }
}

/// Returns the port on which a loop listens further, or why it doesn't.
pub(crate) fn further_code(answer: Result<(), LoopError>, port: u16) -> i32
    ensures { result ≡ code.further_code answer port }
{
    match answer {
        Ok(()) => i32::from(port),
        Err(LoopError::Screen(e)) => code_of(e),
        Err(LoopError::TooManyListeners) => TOO_MANY_PORTS,
        Err(_) => CANNOT_LISTEN,
    }
}

/// Returns the number of the viewer whose connection it is now, at most 2^62, or why it is nobody's.
pub(crate) fn adopt_code(answer: Result<Admission, LoopError>) -> i64
    ensures { result ≡ code.adopt_code answer }
{
    match answer {
        Ok(Admission::Viewer(viewer)) => viewer.min(1 << 62) as i64,
        Ok(Admission::TurnedAway) => i64::from(CANNOT_ADOPT),
        Ok(Admission::Refused) => i64::from(CANNOT_ADOPT),
        Err(e) => i64::from(turn_code(Err(e))),
    }
}

/// Returns 0 where a viewer is let go, or why it isn't.
pub(crate) fn closed_code(answer: Result<bool, AllocError>) -> i32
    ensures { result ≡ code.closed_code answer }
{
    match answer {
        Ok(true) => 0,
        Ok(false) => code_of(ScreenError::NoViewer),
        Err(_) => code_of(ScreenError::OutOfMemory),
    }
}

/// Returns why a viewer left: 1 to 9, in the order of the reasons of `Ended`.
pub(crate) fn reason_code(ended: Ended) -> u32
    ensures { result ≡ code.reason_code ended }
{
    match ended {
        Ended::EndOfInput => 1,
        Ended::Fault(_) => 2,
        Ended::ReadFailed => 3,
        Ended::WriteFailed => 4,
        Ended::Memory => 5,
        Ended::Gate => 6,
        Ended::Closed => 7,
        Ended::Stopped => 8,
        Ended::Frames(_) => 9,
    }
}

/// Returns the number of the fault that a viewer left for, the code of the close that a browser was sent for its frames, or 0.
pub(crate) fn fault_of(ended: Ended) -> i32
    ensures { result ≡ code.fault_of ended }
{
    match ended {
        Ended::Fault(fault) => fault_code(Some(fault)),
        Ended::Frames(code) => i32::from(code),
        _ => 0,
    }
}
