//! Whether a hub is closed, and how its taker learns of the end. A taker that looked at the queue before the flag would lose an
//! input that was put in between; so only `SeenClosed::then_take` makes an `AtEnd`, and only a look at the flag a `SeenClosed`.
ghost use Rattle.std.specs.Prelude.{◌≡◌, [], ◌++◌, ◌∷◌, MatchResult};
ghost use Rattle.input_queue.specs.Ends.{AllTaken};

use crate::{InputEnds, Taker, Told};
use std::sync::Wait;
use std::sync::atomic::{AtomicBool, Ordering};

/// Whether a hub is closed, which it then stays, and whether its taker was woken since it looked.
#[derive(Drop)]
pub(crate) struct Closing {
    is_closed: AtomicBool,
    is_woken: AtomicBool,
}

/// The hub was seen closed.
#[derive(Debug, Drop)]
pub(crate) struct SeenClosed(());

/// The hub was closed, and then seen empty. Nothing more comes.
#[derive(Debug, Drop)]
pub struct AtEnd(SeenClosed);

impl Closing {
    pub(crate) fn new() -> Closing {
        Closing {
            is_closed: AtomicBool::new(false),
            is_woken: AtomicBool::new(false),
        }
    }

    pub(crate) fn close(&self) {
        self.is_closed.store(true, Ordering::SeqCst);
    }

    pub(crate) fn wake(&self) {
        self.is_woken.store(true, Ordering::SeqCst);
    }

    /// Returns whether the taker was woken since this was asked last.
    pub(crate) fn take_wake(&self) -> bool {
        self.is_woken.swap(false, Ordering::SeqCst)
    }

    pub(crate) fn seen(&self) -> Option<SeenClosed> {
        self.is_closed
            .load(Ordering::SeqCst)
            .then_some(SeenClosed(()))
    }
}

impl SeenClosed {
    /// Takes the input in front of a hub that was seen closed; `AtEnd` says that it holds none.
    pub(crate) fn then_take<R: Wait>(
        self,
        rt: &R,
        ends: &InputEnds,
        taker: &mut Taker,
    ) -> Result<Told, AtEnd>
        requires { taker.old.queue ≡ ends.now.queue }
        ensures { MatchResult result (λ told. taker.new ≡ record taker.old { taken = taker.old.taken ++ told ∷ [] })
            (λ _. (taker.new ≡ taker.old) × AllTaken taker.old.taken) }
    {
        ends.take(rt, taker).ok_or(AtEnd(self))
    }
}
