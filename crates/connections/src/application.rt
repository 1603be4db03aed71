//! The application.

ghost use Rattle.std.specs.Prelude.{◌≡◌, true, List, [], ◌∷◌, ◌++◌, OnOk, OnErr};
ghost use Rattle.connections.specs.Telling.{Told, Said, Left, Stays};
ghost use Rattle.connections.specs.Drawing.{Draws};

use crate::canvas::Canvas;
use connection::Readiness;
use receipts::Receipt;
use screen::{Input, ScreenError};
use std::time::Duration;

/// What draws on a canvas. Each call may draw, and draws alone; where one answers an error, so does the turn that made it.
///
/// An application may say for what it `stands`: the inputs and the receipts that it was told. `Connections::turn` and `tell_left` say then
/// which these are.
pub trait Application {
    /// That it was told these inputs and receipts, each input with its viewer's number, in the order in which they came.
    ghost stands: { Self → List Told → Type 0 } = { λ _ _. Unit {0} };

    /// What is true of it where it is done.
    ghost done: { Self → Type 0 } = { λ _. Unit {0} };

    /// Takes an input of a viewer (RFC 6143, 7.3.1 and 7.5.4 to 7.5.6). Where a viewer ended with keys or buttons down, their releases are
    /// told as further inputs of that viewer, before `left`.
    fn on_input(
        &mut self,
        canvas: &mut Canvas,
        viewer: u64,
        input: &Input,
    ) -> Result<(), ScreenError>
        ensures draws { Draws canvas.old canvas.new }
        ensures told { (told : List Told) → stands self.old told → stands self.new (told ++ Said viewer input.now ∷ []) };

    /// Takes note that a viewer connected; it is served from now on.
    fn came(&mut self, _canvas: &mut Canvas, _viewer: u64) -> Result<(), ScreenError>
        ensures draws { Draws _canvas.old _canvas.new }
        ensures stands { Stays stands self.old self.new }
    {
        Ok(())
    }

    /// Takes note that a viewer asked for places whether these changed or not, by a request that isn't incremental (RFC 6143, 7.5.3;
    /// `clientFramebufferUpdateRequestHook` of `rfb.h` is called for each request). It is told once for each piece of bytes in which
    /// there is one, behind the inputs of that piece and before the answer is cut: what is drawn now is in it.
    fn asked(&mut self, _canvas: &mut Canvas, _viewer: u64) -> Result<(), ScreenError>
        ensures draws { Draws _canvas.old _canvas.new }
        ensures stands { Stays stands self.old self.new }
    {
        Ok(())
    }

    /// Takes note that a viewer ended and its connection is closed; no key or button of that viewer is down any longer. `receipt` has the
    /// bytes that were heard and sent, where the history is kept.
    fn left(&mut self, canvas: &mut Canvas, receipt: Receipt) -> Result<(), ScreenError>
        ensures draws { Draws canvas.old canvas.new }
        ensures told { OnOk result ((told : List Told) → stands self.old told → stands self.new (told ++ Left receipt ∷ [])) }
        ensures refused { OnErr result (Stays stands self.old self.new) };

    /// Acts at the time that the last tick answered, and at the start. Returns after how long the next tick is to come, if one is.
    fn tick(&mut self, _canvas: &mut Canvas) -> Result<Option<Duration>, ScreenError>
        ensures draws { Draws _canvas.old _canvas.new }
        ensures stands { Stays stands self.old self.new }
    {
        Ok(None)
    }

    /// Acts once another thread woke the loop.
    fn woken(&mut self, _canvas: &mut Canvas) -> Result<(), ScreenError>
        ensures draws { Draws _canvas.old _canvas.new }
        ensures stands { Stays stands self.old self.new }
    {
        Ok(())
    }

    /// Acts once a stream of the program's own, which its loop watches, was found ready. Returns whether more can be done with it at once: then
    /// this is called in the next turn too, which doesn't wait. Else it is called once the stream becomes ready anew, so it is to be read
    /// and written until it would wait.
    fn ready(&mut self, _canvas: &mut Canvas, _found: Readiness) -> Result<bool, ScreenError>
        ensures draws { Draws _canvas.old _canvas.new }
        ensures stands { Stays stands self.old self.new }
    {
        Ok(false)
    }

    /// Returns whether the loop is to end. `EventLoop::run` asks it before each turn.
    fn is_done(&self) -> bool
        ensures told { result ≡ true → done self.now }
    {
        false
    }
}
