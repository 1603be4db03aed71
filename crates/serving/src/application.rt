//! The application's thread.

ghost use Rattle.std.specs.Prelude.{◌≡◌, List, [], ◌∷◌, true, IfOk, OnOk};
ghost use Rattle.input_queue.specs.declared.Told.{Told};
ghost use Rattle.input_queue.specs.Ends.{AllTaken};
ghost use Rattle.serving.specs.Telling.{IsTold, Stays, Took};

use crate::open_connections::OpenConnections;
use input_queue::{InputEnds, Taker, Told};
use screen::ScreenError;
use std::sync::Wait;
use std::sync::ledger::Ledger;
use update_sender::{Brush, Shared};

/// A viewer that has left.
#[derive(Clone, Copy)]
pub struct Departed {
    /// Its number.
    pub viewer: u64,
    /// How many of its inputs met a full queue and were dropped.
    pub dropped: u64,
}

/// What draws on a shared screen.
///
/// An application may say for which inputs it `stands`, those that it was told: the server tells it what viewers said, each input once and
/// in order.
pub trait Application<L: Ledger> {
    /// That it was told these inputs, in the order in which they came.
    ghost stands: { Self → List Told → Type 0 } = { λ _ _. Unit {0} };

    /// Takes note that a viewer's input came; what follows from it is drawn. The server ends where this answers an error.
    fn on_input<R: Wait>(
        &mut self,
        rt: &R,
        shared: &Shared<L>,
        brush: &mut Brush<L>,
        told: &Told,
    ) -> Result<(), ScreenError>
        ensures { IsTold stands (told.now ∷ []) self.old self.new };

    /// Takes note that a viewer left that had been open; its last inputs were told before. Keys that it held down were told as let go, and its
    /// pointer without a button, unless the server is ending. The server ends where this answers an error.
    fn left<R: Wait>(
        &mut self,
        _rt: &R,
        _shared: &Shared<L>,
        _brush: &mut Brush<L>,
        _departed: Departed,
    ) -> Result<(), ScreenError>
        ensures { Stays stands self.old self.new }
    {
        Ok(())
    }
}

/// Tells the application of each viewer that has left.
fn tell_departed<L: Ledger, A: Application<L>, R: Wait>(
    rt: &R,
    shared: &Shared<L>,
    brush: &mut Brush<L>,
    connections: &OpenConnections,
    application: &mut A,
) -> Result<(), ScreenError>
    ensures { Stays A.stands application.old application.new }
{
    for _ in rt.forever() {
        let Some(departed) = connections.take_departed(rt) else {
            return Ok(());
        };
        application.left(rt, shared, brush, departed)?;
    }
    unreachable!()
}

/// Waits for what comes next, and tells the application: an input, or the viewers that left. Whether nothing more comes: the queue is
/// closed, and all that was put is taken.
fn tell_next<L: Ledger, A: Application<L>, R: Wait>(
    rt: &R,
    shared: &Shared<L>,
    brush: &mut Brush<L>,
    ends: &InputEnds,
    connections: &OpenConnections,
    taker: &mut Taker,
    application: &mut A,
) -> Result<bool, ScreenError>
    requires { taker.old.queue ≡ ends.now.queue }
    ensures told { (told : List Told) × Took told taker.old taker.new × IsTold A.stands told application.old application.new }
    ensures over { IfOk result (λ over. over ≡ true → AllTaken taker.new.taken) }
{
    match ends.take_or_woken(rt, taker) {
        Ok(Some(told)) => {
            application.on_input(rt, shared, brush, &told)?;
            Ok(false)
        }
        Ok(None) => {
            tell_departed(rt, shared, brush, connections, application)?;
            Ok(false)
        }
        Err(_) => {
            tell_departed(rt, shared, brush, connections, application)?;
            Ok(true)
        }
    }
}

/// Tells the application each input as it comes, in order, and each viewer that left, until the queue is closed and all is taken; in
/// between it sleeps. An error of the application ends it.
pub(crate) fn run_application<L: Ledger, A: Application<L>, R: Wait>(
    rt: &R,
    shared: &Shared<L>,
    brush: &mut Brush<L>,
    ends: &InputEnds,
    connections: &OpenConnections,
    taker: &mut Taker,
    application: &mut A,
) -> Result<(), ScreenError>
    requires { taker.old.queue ≡ ends.now.queue }
    ensures told { (told : List Told) × Took told taker.old taker.new × IsTold A.stands told application.old application.new }
    ensures all { OnOk result (AllTaken taker.new.taken) }
{
    for _ in rt.forever() {
        if tell_next(rt, shared, brush, ends, connections, taker, application)? {
            return Ok(());
        }
    }
    unreachable!()
}
