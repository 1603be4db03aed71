//! The events that a screen keeps, in order, where it keeps any.

ghost use Rattle.std.specs.Prelude.{◌≡◌, ◌≤◌, true, false, ◌∷◌, ◌++◌, [], List, IfOk, OnOk, is_some, option_map};
ghost use Rattle.kept_list.specs.Kept.{HasRoom};
ghost use Rattle.screen.specs.State.{history_by};
ghost use Rattle.scene.specs.Calls.{event_of};
ghost use Rattle.scene.specs.History.{has_happened};

use kept_list::KeptList;
use listed::Listed;
use scene::{Answer, Drawing, Event, History};
use std::alloc::{AllocError, Global};

/// The events that were accepted, if they are kept, and room for further ones: also for the closings of the viewers that connected,
/// which therefore find room whenever they come.
pub struct KeptEvents {
    events: KeptList<Event>,
    // how many viewers connected and weren't closed
    open: usize,
}

// Written out, so that who holds one proves one call here, and not the drop of each field.
impl Drop for KeptEvents {
    fn drop(self) {
        let KeptEvents {
            events: _events,
            open: _open,
        } = self;
    }
}

/// Returns the event that a drawing call is, for a list that is kept; else `Bell`, since the list drops it. `AllocError` where memory for
/// a list that is kept is refused.
pub fn event_in(kept: &KeptList<Event>, drawing: &Drawing<'_>) -> Result<Event, AllocError>
    ensures kept { is_some kept.now.items ≡ true → IfOk result (λ event. event ≡ event_of drawing.now) }
    ensures dropped { is_some kept.now.items ≡ false → result ≡ Ok Event.Bell }
{
    if !kept.is_kept() {
        return Ok(Event::Bell);
    }
    drawing.to_event(kept.allocator())
}

/// Returns a list of nothing yet, which is kept where the history is. This takes no memory.
pub fn list_for<T>(alloc: Global, history: History) -> KeptList<T>
    ensures { result.items ≡ history_by history [] }
{
    match history {
        History::Kept => KeptList::new(alloc),
        History::NotKept => KeptList::none(alloc),
    }
}

impl KeptEvents {
    /// Returns a history of no events yet.
    pub fn new(alloc: Global, history: History) -> KeptEvents
        ensures { result.events.items ≡ history_by history [] }
    {
        KeptEvents {
            events: list_for(alloc, history),
            open: 0,
        }
    }

    /// Lends the events, if they are kept.
    pub fn as_slice(&self) -> Option<&[Event]>
        ensures { option_map (λ events. events.now) result ≡ self.now.events.items }
    {
        self.events.as_slice()
    }

    /// Makes room for `count` more, at least one, where they are kept.
    fn reserve(&mut self, count: usize) -> Result<(), AllocError>
        requires { 1 ≤ count }
        ensures same { self.new.events.items ≡ self.old.events.items }
        ensures room { OnOk result (HasRoom 1 self.new.events) }
    {
        self.events.reserve(count)
    }

    /// Makes room for one more, where they are kept, besides that for the closings.
    pub fn make_room(&mut self) -> Result<(), AllocError>
        ensures same { self.new.events.items ≡ self.old.events.items }
        ensures room { OnOk result (HasRoom 1 self.new.events) }
    {
        self.reserve(self.open.saturating_add(1))
    }

    /// Makes room for an event: for a connecting with its closing, for a closing in what was made when its viewer connected.
    pub fn make_room_for(&mut self, event: &Event) -> Result<(), AllocError>
        ensures same { self.new.events.items ≡ self.old.events.items }
        ensures room { OnOk result (HasRoom 1 self.new.events) }
    {
        match event {
            Event::Connect { .. } => self.reserve(self.open.saturating_add(2)),
            Event::Close { .. } => self.reserve(1),
            _ => self.make_room(),
        }
    }

    /// Returns how many viewers are open once an event has happened.
    fn open_after(&self, event: &Event) -> usize {
        match event {
            Event::Connect { .. } => self.open.saturating_add(1),
            Event::Close { .. } => self.open.saturating_sub(1),
            _ => self.open,
        }
    }

    /// Keeps one more, in the room that was made; drops it where none are kept.
    pub fn push(&mut self, event: Event)
        requires room { HasRoom 1 self.old.events }
        ensures { self.new.events.items ≡ option_map (λ events. events ++ event ∷ []) self.old.events.items }
    {
        self.open = self.open_after(&event);
        self.events.push(event);
    }

    /// Returns a copy of what an event holds, for keeping; an empty list where none are kept.
    pub fn copied<T: Copy>(&self, items: &[T]) -> Result<Listed<T>, AllocError>
        ensures { is_some self.now.events.items ≡ true → IfOk result (λ copy. copy ≡ items.now) }
    {
        self.events.copy_of(items)
    }

    /// Returns the event that a drawing call is, where events are kept; else any, which is dropped.
    pub fn event_of(&self, drawing: &Drawing<'_>) -> Result<Event, AllocError>
        ensures { is_some self.now.events.items ≡ true → IfOk result (λ event. event ≡ event_of drawing.now) }
    {
        event_in(&self.events, drawing)
    }

    /// Returns a copy of an event, for keeping; without its lists where none are kept.
    pub fn copied_event(&self, event: &Event) -> Result<Event, AllocError>
        ensures { is_some self.now.events.items ≡ true → IfOk result (λ copy. copy ≡ event.now) }
    {
        Ok(match event {
            Event::Write { rect, colours } => Event::Write {
                rect: *rect,
                colours: self.events.copy_of(colours.as_slice())?,
            },
            Event::Paint { rect, colours } => Event::Paint {
                rect: *rect,
                colours: self.events.copy_of(colours.as_slice())?,
            },
            Event::Mark { rects } => Event::Mark {
                rects: self.events.copy_of(rects.as_slice())?,
            },
            Event::ScheduleCopy { rects, dx, dy } => Event::ScheduleCopy {
                rects: self.events.copy_of(rects.as_slice())?,
                dx: *dx,
                dy: *dy,
            },
            Event::DoCopy { rects, dx, dy } => Event::DoCopy {
                rects: self.events.copy_of(rects.as_slice())?,
                dx: *dx,
                dy: *dy,
            },
            Event::Bell => Event::Bell,
            Event::CutText { text } => Event::CutText {
                text: self.events.copy_of(text.as_slice())?,
            },
            Event::Resize { width, height } => Event::Resize {
                width: *width,
                height: *height,
            },
            Event::Connect { viewer } => Event::Connect { viewer: *viewer },
            Event::Hear { viewer, piece } => Event::Hear {
                viewer: *viewer,
                piece: self.events.copy_of(piece.as_slice())?,
            },
            Event::Cut { viewer } => Event::Cut { viewer: *viewer },
            Event::Close { viewer } => Event::Close { viewer: *viewer },
        })
    }
}

/// Returns whether something happened, by what an event was answered: not where it was refused, nor where a cut gave nothing.
pub fn has_happened(event: &Event, answer: &Answer) -> bool
    ensures { result ≡ has_happened event.now answer.now }
{
    if answer.refused.is_some() {
        return false;
    }
    match event {
        Event::Cut { .. } => !answer.bytes.is_empty(),
        _ => true,
    }
}
