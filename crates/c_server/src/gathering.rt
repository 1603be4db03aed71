//! The application: it draws nothing, and keeps what it is told.

ghost use Rattle.std.specs.Prelude.{◌≡◌, ◌≤◌, ◌<◌, ◌+◌, ◌^◌, ◌-◌, min, List, [], ◌∷◌, ◌++◌, length, OnOk, OnErr, true, false};
ghost use Rattle.std.specs.VecDeque.{deque_len, deque_capacity};
ghost use Rattle.connections.specs.Drawing.{Draws};
ghost use Rattle.connections.specs.Telling.{Told, Said, Left, Stays};
ghost use Rattle.c_server.specs.Desk.{has_text, text_size};
ghost use Rattle.c_server.specs.Gathering.{IsPut, IsPutOrLost, IsKeptBy};
ghost use Rattle.c_server.specs.Visits.{coming_of, going_of};

use crate::news::MOST_VISITS;
use crate::told::{ToldBy, copy_of, text_len};
use crate::visits::{Visit, coming_of, going_of};
use connections::Receipt;
use event_loop::{Application, Canvas, Input, ScreenError};
use std::alloc::{AllocError, Global};
use std::collections::VecDeque;

/// What came in a turn, in order, and how much of it is lost: what there was no room for.
#[derive(Drop)]
pub(crate) struct Gathering {
    alloc: Global,
    pub inputs: VecDeque<ToldBy>,
    /// Who came and went, at most 1,024.
    pub visits: VecDeque<Visit>,
    /// How many bytes more may come in texts.
    text_room: usize,
    pub lost: u64,
    /// How often a viewer was heard to ask for places whether these changed or not.
    pub full_requests: u64,
}

impl Gathering {
    /// Returns a gathering of nothing yet, where `text_room` bytes may come in texts. Comings and goings are put into `visits`, of which
    /// only the room is kept.
    pub fn new(alloc: Global, text_room: usize, mut visits: VecDeque<Visit>) -> Gathering
        ensures inputs { result.inputs.items ≡ [] }
        ensures visits { result.visits.items ≡ [] }
        ensures room { deque_capacity result.visits ≡ deque_capacity visits }
        ensures text_room { result.text_room ≡ text_room }
        ensures lost { result.lost ≡ 0 }
    {
        visits.clear();
        Gathering {
            alloc,
            inputs: VecDeque::new(alloc),
            visits,
            text_room,
            lost: 0,
            full_requests: 0,
        }
    }

    /// Keeps an input, which takes from the room for texts. `AllocError` where there is no more room for its text, or memory is refused;
    /// then nothing has changed.
    fn keep_input(&mut self, viewer: u64, input: &Input) -> Result<(), AllocError>
        ensures kept { OnOk result (self.new.inputs.items ≡ self.old.inputs.items ++ (viewer, input.now) ∷ []) }
        ensures room { OnOk result (self.new.text_room + text_size input.now ≡ self.old.text_room) }
        ensures refused { OnErr result (self.new.inputs.items ≡ self.old.inputs.items) }
        ensures same { OnErr result (self.new.text_room ≡ self.old.text_room) }
        ensures full { OnErr result (has_text input.now ≡ false → deque_capacity self.old.inputs ≤ deque_len self.old.inputs) }
        ensures visits { self.new.visits ≡ self.old.visits }
        ensures lost { self.new.lost ≡ self.old.lost }
    {
        let Some(room) = self.text_room.checked_sub(text_len(input)) else {
            return Err(AllocError);
        };
        let copy = copy_of(self.alloc, input)?;
        self.inputs.push_back(ToldBy::new(viewer, copy))?;
        self.text_room = room;
        Ok(())
    }

    /// Puts a coming or going behind the others, unless 1,024 are there. Returns whether it did.
    fn put_visit(&mut self, visit: Visit) -> bool
        ensures few { result ≡ true → length self.old.visits.items < 1024 }
        ensures full { result ≡ false → 1024 ≤ deque_capacity self.old.visits → 1024 ≤ length self.old.visits.items }
        ensures put { result ≡ true → self.new.visits.items ≡ self.old.visits.items ++ visit ∷ [] }
        ensures refused { result ≡ false → self.new.visits.items ≡ self.old.visits.items }
        ensures room { deque_capacity self.old.visits ≤ deque_capacity self.new.visits }
        ensures inputs { self.new.inputs ≡ self.old.inputs }
        ensures text_room { self.new.text_room ≡ self.old.text_room }
        ensures lost { self.new.lost ≡ self.old.lost }
    {
        if self.visits.len() >= MOST_VISITS {
            return false;
        }
        self.visits.push_back(visit).is_ok()
    }

    /// Keeps a coming or going: puts it behind the others, or counts it as lost where 1,024 are there.
    fn keep_visit(&mut self, visit: Visit)
        ensures kept { 1024 ≤ deque_capacity self.old.visits → IsPut visit self.old.visits.items self.new.visits.items self.old.lost self.new.lost }
        ensures room { deque_capacity self.old.visits ≤ deque_capacity self.new.visits }
        ensures inputs { self.new.inputs ≡ self.old.inputs }
        ensures text_room { self.new.text_room ≡ self.old.text_room }
    {
        let is_put = self.put_visit(visit);
        self.count_lost(is_put);
    }

    /// Counts what was not kept.
    fn count_lost(&mut self, is_kept: bool)
        ensures inputs { self.new.inputs ≡ self.old.inputs }
        ensures visits { self.new.visits ≡ self.old.visits }
        ensures text_room { self.new.text_room ≡ self.old.text_room }
        ensures kept { is_kept ≡ true → self.new.lost ≡ self.old.lost }
        ensures lost { is_kept ≡ false → self.new.lost ≡ min (self.old.lost + 1) (2 ^ 64 - 1) }
    {
        if !is_kept {
            self.lost = self.lost.saturating_add(1);
        }
    }
}

impl Application for Gathering {
    ghost use Rattle.c_server.specs.Gathering.{IsKeptBy};

    ghost stands = { IsKeptBy };

    fn on_input(
        &mut self,
        _canvas: &mut Canvas,
        viewer: u64,
        input: &Input,
    ) -> Result<(), ScreenError>
        ensures draws { Draws _canvas.old _canvas.new }
        ensures told { (told : List Told) → IsKeptBy self.old told → IsKeptBy self.new (told ++ Said viewer input.now ∷ []) }
        ensures kept { IsPutOrLost (viewer, input.now) self.old.inputs.items self.new.inputs.items self.old.text_room self.new.text_room self.old.lost self.new.lost }
        ensures full { has_text input.now ≡ false → deque_len self.old.inputs < deque_capacity self.old.inputs → self.new.inputs.items ≡ self.old.inputs.items ++ (viewer, input.now) ∷ [] }
    {
        let kept = self.keep_input(viewer, input);
        self.count_lost(kept.is_ok());
        Ok(())
    }

    fn came(&mut self, _canvas: &mut Canvas, viewer: u64) -> Result<(), ScreenError>
        ensures draws { Draws _canvas.old _canvas.new }
        ensures stands { Stays IsKeptBy self.old self.new }
        ensures kept { 1024 ≤ deque_capacity self.old.visits → IsPut (coming_of viewer) self.old.visits.items self.new.visits.items self.old.lost self.new.lost }
        ensures inputs { self.new.inputs ≡ self.old.inputs }
    {
        self.keep_visit(coming_of(viewer));
        Ok(())
    }

    fn asked(&mut self, _: &mut Canvas, _: u64) -> Result<(), ScreenError> {
        self.full_requests = self.full_requests.saturating_add(1);
        Ok(())
    }

    fn left(&mut self, _canvas: &mut Canvas, receipt: Receipt) -> Result<(), ScreenError>
        ensures draws { Draws _canvas.old _canvas.new }
        ensures told { OnOk result ((told : List Told) → IsKeptBy self.old told → IsKeptBy self.new (told ++ Left receipt ∷ [])) }
        ensures refused { OnErr result (Stays IsKeptBy self.old self.new) }
        ensures kept { 1024 ≤ deque_capacity self.old.visits → IsPut (going_of receipt.viewer receipt.ended) self.old.visits.items self.new.visits.items self.old.lost self.new.lost }
        ensures inputs { self.new.inputs ≡ self.old.inputs }
    {
        self.keep_visit(going_of(receipt.viewer, receipt.ended));
        Ok(())
    }
}
