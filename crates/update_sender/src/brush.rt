//! The application's end, which draws. Where the history is kept it keeps its accepted calls too, in room that is made before
//! the screen is held.

ghost use Rattle.std.specs.Prelude.{◌≡◌, ◌<◌, ◌∷◌, [], ℕ, true, OnOk, OnErr, IfOk, IsOkUnless, is_some};
ghost use Rattle.screen.specs.declared.Event.{Event};
ghost use Rattle.screen.specs.declared.ScreenError.TheVariants as refusals;
ghost use Rattle.screen.specs.Alone.{pixels_refusal, size_refusal, text_refusal};
ghost use Rattle.screen.specs.Refusals.{Refuses};
ghost use Rattle.screen.specs.Calls.{call_refusal, event_of};
ghost use Rattle.update_sender.specs.Ends.{drew};
ghost use Rattle.kept_list.specs.Kept.{HasRoom};
ghost use Rattle.screen.specs.State.{history_by};

use crate::shared::Shared;
use kept_list::KeptList;
use listed::Listed;
use region::{Rect, Region};
use screen::{Drawing, Event, History, ScreenError, event_in, list_for};
use std::alloc::{AllocError, Global};
use std::marker::Model;
use std::sync::Wait;
use std::sync::ledger::{Ledger, Share};

/// Draws on a shared screen. Contracts see the list of its accepted calls, where the history is kept.
#[derive(Drop)]
pub struct Brush<L: Ledger> {
    pub(crate) drawn: KeptList<Event>,
    pub(crate) share: Share<L>,
}

impl<L: Ledger> Model for Brush<L> {
    ghost use Rattle.std.specs.Prelude.{◌≡◌, ◌<◌, List, Option};
    ghost use Rattle.screen.specs.declared.Event.{Event};
    ghost use Rattle.update_sender.specs.Ends.{Counts};

    ghost Value = { Option (List Event) };

    ghost view = { λ a. a.drawn.items };

    ghost invariant = { λ a. (a.share.parts ≡ L.parts) × (0 < a.share.parts) × Counts a.share.amount a.drawn.items };
}

/// Returns the event that a call is, where the calls are kept, and makes room for it; else any, which is dropped.
fn event_for(drawn: &mut KeptList<Event>, drawing: &Drawing<'_>) -> Result<Event, AllocError>
    ensures event { is_some drawn.old.items ≡ true → IfOk result (λ event. event ≡ event_of drawing.now) }
    ensures room { OnOk result (HasRoom 1 drawn.new) }
    ensures same { drawn.new.items ≡ drawn.old.items }
{
    let event = event_in(drawn, drawing)?;
    drawn.reserve(1)?;
    Ok(event)
}

impl<L: Ledger> Brush<L> {
    /// Makes a brush that has drawn nothing, with all parts of its ledger.
    pub(crate) fn new(alloc: Global, history: History, share: Share<L>) -> Brush<L>
        requires parts { share.parts ≡ L.parts }
        requires some { 0 < L.parts }
        requires none { share.amount ≡ 0 }
        ensures { result ≡ history_by history [] }
    {
        Brush {
            drawn: list_for(alloc, history),
            share,
        }
    }

    /// Makes a drawing call in one hold, which is kept once it is accepted, and after which the senders that it may give something are woken.
    fn draw<R: Wait>(
        &mut self,
        shared: &Shared<L>,
        rt: &R,
        drawing: &Drawing<'_>,
    ) -> Result<(), ScreenError>
        ensures drawn { OnOk result (self.new ≡ drew (event_of drawing.now) self.old) }
        ensures refused { (width : ℕ) × (height : ℕ) × Refuses result (call_refusal width height drawing.now) }
        ensures err { OnErr result (self.new ≡ self.old) }
    {
        let Ok(event) = event_for(&mut self.drawn, drawing) else {
            return Err(shared.screen.lock(rt).refusal_of(drawing));
        };
        let mut locked = shared.screen.lock(rt);
        locked.draw(&mut self.share, drawing)?;
        let awaiting = locked.take_awaiting(drawing);
        drop(locked);
        self.drawn.push(event);
        shared.senders.wake(awaiting);
        Ok(())
    }

    /// Calls `Screen::write_pixels`. No sender is woken, since no viewer is told.
    pub fn write_pixels<R: Wait>(
        &mut self,
        shared: &Shared<L>,
        rt: &R,
        rect: Rect,
        colours: &[u32],
    ) -> Result<(), ScreenError>
        ensures drawn { OnOk result (self.new ≡ drew (Event.Write rect colours.now) self.old) }
        ensures refused { (width : ℕ) × (height : ℕ) × Refuses result (pixels_refusal width height rect colours.now) }
        ensures err { OnErr result (self.new ≡ self.old) }
    {
        self.draw(shared, rt, &Drawing::Write { rect, colours })
    }

    /// Calls `Screen::paint`.
    pub fn paint<R: Wait>(
        &mut self,
        shared: &Shared<L>,
        rt: &R,
        rect: Rect,
        colours: &[u32],
    ) -> Result<(), ScreenError>
        ensures drawn { OnOk result (self.new ≡ drew (Event.Paint rect colours.now) self.old) }
        ensures refused { (width : ℕ) × (height : ℕ) × Refuses result (pixels_refusal width height rect colours.now) }
        ensures err { OnErr result (self.new ≡ self.old) }
    {
        self.draw(shared, rt, &Drawing::Paint { rect, colours })
    }

    /// Calls `Screen::mark_rect`.
    pub fn mark_rect<R: Wait>(
        &mut self,
        shared: &Shared<L>,
        rt: &R,
        x1: i32,
        y1: i32,
        x2: i32,
        y2: i32,
    ) -> Result<(), ScreenError>
        ensures drawn { OnOk result (self.new ≡ drew (Event.Mark (record { x1 = x1; y1 = y1; x2 = x2; y2 = y2 } ∷ [])) self.old) }
        ensures refused { IsOkUnless result refusals.OutOfMemory }
        ensures err { OnErr result (self.new ≡ self.old) }
    {
        self.draw(shared, rt, &Drawing::MarkRect(Rect { x1, y1, x2, y2 }))
    }

    /// Calls `Screen::mark_region`.
    pub fn mark_region<R: Wait>(
        &mut self,
        shared: &Shared<L>,
        rt: &R,
        region: &Region,
    ) -> Result<(), ScreenError>
        ensures drawn { OnOk result (self.new ≡ drew (Event.Mark region.now.list) self.old) }
        ensures refused { IsOkUnless result refusals.OutOfMemory }
        ensures err { OnErr result (self.new ≡ self.old) }
    {
        self.draw(shared, rt, &Drawing::MarkRegion(region))
    }

    /// Calls `Screen::schedule_copy_rect`.
    pub fn schedule_copy_rect<R: Wait>(
        &mut self,
        shared: &Shared<L>,
        rt: &R,
        x1: i32,
        y1: i32,
        x2: i32,
        y2: i32,
        dx: i32,
        dy: i32,
    ) -> Result<(), ScreenError>
        ensures drawn { OnOk result (self.new ≡
            drew (Event.ScheduleCopy (record { x1 = x1; y1 = y1; x2 = x2; y2 = y2 } ∷ []) dx dy) self.old) }
        ensures refused { IsOkUnless result refusals.OutOfMemory }
        ensures err { OnErr result (self.new ≡ self.old) }
    {
        self.draw(
            shared,
            rt,
            &Drawing::ScheduleCopyRect {
                rect: Rect { x1, y1, x2, y2 },
                dx,
                dy,
            },
        )
    }

    /// Calls `Screen::schedule_copy_region`.
    pub fn schedule_copy_region<R: Wait>(
        &mut self,
        shared: &Shared<L>,
        rt: &R,
        region: &Region,
        dx: i32,
        dy: i32,
    ) -> Result<(), ScreenError>
        ensures drawn { OnOk result (self.new ≡ drew (Event.ScheduleCopy region.now.list dx dy) self.old) }
        ensures refused { IsOkUnless result refusals.OutOfMemory }
        ensures err { OnErr result (self.new ≡ self.old) }
    {
        self.draw(shared, rt, &Drawing::ScheduleCopyRegion { region, dx, dy })
    }

    /// Calls `Screen::do_copy_rect`.
    pub fn do_copy_rect<R: Wait>(
        &mut self,
        shared: &Shared<L>,
        rt: &R,
        x1: i32,
        y1: i32,
        x2: i32,
        y2: i32,
        dx: i32,
        dy: i32,
    ) -> Result<(), ScreenError>
        ensures drawn { OnOk result (self.new ≡
            drew (Event.DoCopy (record { x1 = x1; y1 = y1; x2 = x2; y2 = y2 } ∷ []) dx dy) self.old) }
        ensures refused { IsOkUnless result refusals.OutOfMemory }
        ensures err { OnErr result (self.new ≡ self.old) }
    {
        self.draw(
            shared,
            rt,
            &Drawing::DoCopyRect {
                rect: Rect { x1, y1, x2, y2 },
                dx,
                dy,
            },
        )
    }

    /// Calls `Screen::do_copy_region`.
    pub fn do_copy_region<R: Wait>(
        &mut self,
        shared: &Shared<L>,
        rt: &R,
        region: &Region,
        dx: i32,
        dy: i32,
    ) -> Result<(), ScreenError>
        ensures drawn { OnOk result (self.new ≡ drew (Event.DoCopy region.now.list dx dy) self.old) }
        ensures refused { IsOkUnless result refusals.OutOfMemory }
        ensures err { OnErr result (self.new ≡ self.old) }
    {
        self.draw(shared, rt, &Drawing::DoCopyRegion { region, dx, dy })
    }

    /// Calls `Screen::bell`.
    pub fn bell<R: Wait>(&mut self, shared: &Shared<L>, rt: &R) -> Result<(), ScreenError>
        ensures drawn { OnOk result (self.new ≡ drew (Event.Bell) self.old) }
        ensures refused { IsOkUnless result refusals.OutOfMemory }
        ensures err { OnErr result (self.new ≡ self.old) }
    {
        self.draw(shared, rt, &Drawing::Bell)
    }

    /// Calls `Screen::cut_text`.
    pub fn cut_text<R: Wait>(
        &mut self,
        shared: &Shared<L>,
        rt: &R,
        text: &[u8],
    ) -> Result<(), ScreenError>
        ensures drawn { OnOk result (self.new ≡ drew (Event.CutText text.now) self.old) }
        ensures refused { Refuses result (text_refusal text.now) }
        ensures err { OnErr result (self.new ≡ self.old) }
    {
        self.draw(shared, rt, &Drawing::CutText(text))
    }

    /// Calls `Screen::new_framebuffer`.
    pub fn new_framebuffer<R: Wait>(
        &mut self,
        shared: &Shared<L>,
        rt: &R,
        width: u32,
        height: u32,
    ) -> Result<(), ScreenError>
        ensures drawn { OnOk result (self.new ≡ drew (Event.Resize width height) self.old) }
        ensures refused { Refuses result (size_refusal width height) }
        ensures err { OnErr result (self.new ≡ self.old) }
    {
        self.draw(shared, rt, &Drawing::NewFramebuffer { width, height })
    }
}
