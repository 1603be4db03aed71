//! The numbers that calls answer.

ghost use Rattle.std.specs.Prelude.{◌≡◌, ◌≢◌, ◌≤◌, ◌^◌, pos, min, Option, option_map, IfOk, MatchResult};
ghost use Rattle.screen.specs.declared.ScreenError.{ScreenError};
ghost use Rattle.screen.specs.Refusals.{Refuses};
ghost use Rattle.c_screen.specs.Codes as code;
ghost use Rattle.c_screen.specs.Codes.{Answers};

use screen::{Fault, ScreenError};
use std::alloc::AllocError;

/// A coordinate of a region's rectangle is not from -2^20 to 2^20.
pub const OUT_OF_RANGE: i32 = -10;

/// The viewer has output that waits: fetch it before the next update is cut.
pub const OUTPUT_WAITS: i32 = -11;

/// There is no such place on the screen.
pub const OFF_SCREEN: i32 = -12;

/// The desk is shut.
pub const SHUT: i32 = -32;

/// Returns the code of a refusal: -1 to -9, in the order of the errors of `ScreenError`.
pub fn code_of(error: ScreenError) -> i32
    ensures { result ≡ code.code_of error }
{
    match error {
        ScreenError::BadSize => -1,
        ScreenError::BadName => -2,
        ScreenError::BadRectLimit => -3,
        ScreenError::BadRect => -4,
        ScreenError::BadPixelCount => -5,
        ScreenError::TextTooLong => -6,
        ScreenError::NoViewer => -7,
        ScreenError::NumberInUse => -8,
        ScreenError::OutOfMemory => -9,
    }
}

/// Returns the number of the fault by which a viewer is heard no further: 0 where it has none, 1 to 4, or 256 plus the type of a message
/// whose type is unknown (RFC 6143, 7.5).
pub fn fault_code(fault: Option<Fault>) -> i32
    ensures { result ≡ code.fault_code fault }
{
    match fault {
        None => 0,
        Some(Fault::BadVersion) => 1,
        Some(Fault::BadSecurityType) => 2,
        Some(Fault::BadBitsPerPixel) => 3,
        Some(Fault::ColourMapUnsupported) => 4,
        Some(Fault::UnknownMessage(kind)) => 256 + i32::from(kind),
    }
}

/// Returns 0, or the code of the refusal in `answer`.
pub fn done_or(answer: Result<(), ScreenError>) -> i32
    ensures code { result ≡ code.done_code answer }
    ensures done { MatchResult answer (λ _. result ≡ code.done) (λ _. result ≢ code.done) }
    ensures answers { (due : Option ScreenError) → Refuses answer due → Answers (option_map code.code_of due) (λ n. n ≡ code.done) result }
{
    match answer {
        Ok(()) => 0,
        Err(e) => code_of(e),
    }
}

/// Returns 1 for true and 0 for false, or the code of the refusal in `answer`.
pub fn truth_or(answer: Result<bool, ScreenError>) -> i32
    ensures { result ≡ code.truth_code answer }
{
    match answer {
        Ok(true) => 1,
        Ok(false) => 0,
        Err(e) => code_of(e),
    }
}

/// Returns the fault's number by `fault_code`, or the code of the refusal in `answer`.
pub(crate) fn fault_or(answer: Result<Option<Fault>, ScreenError>) -> i32
    ensures { result ≡ code.fault_or_code answer }
{
    match answer {
        Ok(fault) => fault_code(fault),
        Err(e) => code_of(e),
    }
}

/// Returns the count, of at most 2^30, or the code of `OutOfMemory`.
pub(crate) fn count_or(answer: Result<usize, AllocError>) -> i32
    requires { IfOk answer (λ count. count ≤ 2 ^ 30) }
    ensures { MatchResult answer (λ count. result ≡ pos count) (λ _. result ≡ code.out_of_memory) }
{
    match answer {
        Ok(count) => count as i32,
        Err(_) => code_of(ScreenError::OutOfMemory),
    }
}

/// Returns how many places changed, at most 2^62, or the code of the refusal in `answer`.
pub fn places_code(answer: Result<usize, ScreenError>) -> i64
    ensures { MatchResult answer (λ places. result ≡ pos (min places (2 ^ 62))) (λ e. result ≡ code.code_of e) }
{
    match answer {
        Ok(places) => places.min(1 << 62) as i64,
        Err(e) => i64::from(code_of(e)),
    }
}
