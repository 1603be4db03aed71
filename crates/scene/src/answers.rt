//! What calls answered, as answers to events.

ghost use Rattle.std.specs.Prelude.{◌≡◌, MatchResult};
ghost use Rattle.scene.specs.Alone.{nothing_to_say, gives, refuses, settled, answer_of};

use crate::{Answer, ScreenError};
use listed::Listed;
use std::alloc::{AllocError, Global};
use viewer::Reply;

/// Returns the answer of bytes for the viewer, and nothing else.
pub fn with_bytes(
    alloc: Global,
    given: Result<Listed<u8>, ScreenError>,
) -> Result<Answer, ScreenError>
    ensures { MatchResult given (λ bytes. result ≡ Ok (gives bytes)) (λ e. result ≡ Err e) }
{
    let bytes = given?;
    Ok(Answer {
        bytes,
        inputs: Listed::new(alloc),
        closed: None,
        refused: None,
    })
}

/// Returns the answer to a piece of a viewer's bytes.
pub fn with_reply(reply: Reply) -> Answer
    ensures { result ≡ answer_of reply }
{
    Answer {
        bytes: reply.bytes,
        inputs: reply.inputs,
        closed: reply.fault,
        refused: None,
    }
}

/// Returns the answer that says nothing.
pub fn with_nothing(alloc: Global, given: Result<(), ScreenError>) -> Result<Answer, ScreenError>
    ensures { MatchResult given (λ _. result ≡ Ok nothing_to_say) (λ e. result ≡ Err e) }
{
    given?;
    Ok(Answer {
        bytes: Listed::new(alloc),
        inputs: Listed::new(alloc),
        closed: None,
        refused: None,
    })
}

/// Returns what was given, with a refusal as an answer, except for lack of memory, which stays an error.
pub fn settled(alloc: Global, given: Result<Answer, ScreenError>) -> Result<Answer, AllocError>
    ensures { MatchResult given (λ answer. result ≡ Ok answer) (λ e. result ≡ settled e) }
{
    match given {
        Ok(answer) => Ok(answer),
        Err(ScreenError::OutOfMemory) => Err(AllocError),
        Err(error) => Ok(refusal(alloc, error)),
    }
}

/// Returns the answer of a refusal, and nothing else.
fn refusal(alloc: Global, error: ScreenError) -> Answer
    ensures { result ≡ refuses error }
{
    Answer {
        bytes: Listed::new(alloc),
        inputs: Listed::new(alloc),
        closed: None,
        refused: Some(error),
    }
}
