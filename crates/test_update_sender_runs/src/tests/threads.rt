//! Viewers 1 and 2 of a shared screen, a sender each in a thread of its own, and a third thread that draws, hears or ends a viewer.

ghost use Rattle.std.specs.Prelude.{◌≡◌};

use super::drawing::{GREETED, draw_many};
use super::gates::{Guard, Hold, TURNS, waits};
use super::memory::{Sink, Source};
use input_queue::InputHub;
use receipts::Receipt;
use screen::ScreenError;
use std::alloc::Global;
use std::sync::Wait;
use std::sync::atomic::Ordering;
use std::sync::ledger::Ledger;
use std::thread;
use std::thread::Threads;
use update_sender::{
    Brush, Ended, Gate, Listener, Opened, ReadHalf, Rect, Shared, Speaker, WriteHalf, receipt,
    serve_opening, serve_reader, serve_sender,
};

/// A viewer: what its reader gives in one piece, before it fails, and how many bytes its writer takes, before it fails; how many
/// bytes of the picture's it is sent, where that is known, and why its sender ends.
#[derive(Clone, Copy)]
pub struct Client {
    pub given: &'static [u8],
    pub takes: usize,
    pub sent: Option<usize>,
    pub ended: Ended,
}

/// What the third thread does.
#[derive(Clone, Copy)]
pub enum Way {
    /// It stops all once viewer 1 was sent an update, or has ended.
    Stops,
    /// It makes 300 drawing calls, and stops all.
    Draws,
    /// Once each viewer was sent an update it asks for what changes, and the senders wait; then a place is painted. All is stopped
    /// once each was sent that.
    Wakes,
    /// Viewer 1 is closed or all is stopped, or neither, and then its reader is served.
    Reads(Reading),
}

/// What the reader of viewer 1 gives then, before it is at its end, and why it ends.
#[derive(Clone, Copy)]
pub struct Reading {
    pub closes: bool,
    pub stops: bool,
    pub given: &'static [u8],
    pub ended: Ended,
}

/// The threads of a run.
#[derive(Clone, Copy)]
pub struct Crew {
    pub hold: Hold,
    pub way: Way,
    pub one: Client,
    pub two: Option<Client>,
}

/// The end that hears a viewer, and what its reader leaves.
#[derive(Drop)]
pub struct Hearing {
    listener: Option<Listener>,
    read: Option<ReadHalf>,
}

/// The end that sends to it, and what its sender leaves.
#[derive(Drop)]
pub struct Sending<'a> {
    sink: Sink<'a>,
    speaker: Option<Speaker>,
    write: Option<WriteHalf>,
}

/// A viewer, with its receipt where its opening ended.
#[derive(Drop)]
pub struct Viewer<'a> {
    hearing: Hearing,
    sending: Sending<'a>,
    over: Option<Receipt>,
}

impl Viewer<'_> {
    /// Makes a viewer that has not connected, and whose writer takes `room` bytes.
    pub fn new(alloc: Global, viewer: u64, room: usize, guard: &Guard) -> Viewer<'_> {
        Viewer {
            hearing: Hearing {
                listener: None,
                read: None,
            },
            sending: Sending {
                sink: Sink {
                    written: Vec::new(alloc),
                    room,
                    viewer,
                    guard,
                },
                speaker: None,
                write: None,
            },
            over: None,
        }
    }

    /// Connects the viewer, and takes it through its opening.
    fn open<L: Ledger, R: Wait>(
        &mut self,
        rt: &R,
        shared: &Shared<L>,
        client: &Client,
    ) -> Result<(), ScreenError> {
        let sink = &mut self.sending.sink;
        let line = shared.connect(rt, sink.viewer)?;
        let mut source = Source {
            rest: client.given,
            first: client.given.len(),
            others: 1,
            fails: true,
        };
        match serve_opening(rt, shared, line, &mut source, sink) {
            Opened::Ready(listener, speaker) => {
                self.hearing.listener = Some(listener);
                self.sending.speaker = Some(speaker);
            }
            Opened::Over(receipt, _) => self.over = Some(receipt),
        }
        Ok(())
    }

    /// Returns whether the viewer is there no more: the screen neither hears nor closes it.
    fn is_gone<L: Ledger, R: Wait>(&mut self, rt: &R, shared: &Shared<L>) -> bool {
        let is_deaf = match &mut self.hearing.listener {
            Some(listener) => matches!(shared.hear(rt, listener, &[0]), Err(ScreenError::NoViewer)),
            None => true,
        };
        is_deaf
            && matches!(
                shared.close(rt, self.sending.sink.viewer),
                Err(ScreenError::NoViewer)
            )
    }

    /// Returns how many updates were cut for the viewer, and why it was sent no more. Returns None if what is kept as sent isn't what
    /// its writer took or, unless `is_kept`, isn't nothing.
    fn left(&self, is_kept: bool) -> Option<(u64, Ended)> {
        let written = self.sending.sink.written.as_slice();
        let (is_written, is_empty, cuts, ended) = match (&self.over, &self.sending.write) {
            (Some(receipt), _) => (
                receipt.sent.as_slice() == written,
                receipt.sent.is_empty(),
                receipt.cuts,
                receipt.ended,
            ),
            (None, Some(half)) => (
                half.sent.as_slice() == written,
                half.sent.is_empty(),
                half.cuts,
                half.ended,
            ),
            (None, None) => return None,
        };
        let is_right = if is_kept { is_written } else { is_empty };
        is_right.then_some((cuts, ended))
    }

    /// Returns whether the viewer's writer took what was due of `bytes`, and that is kept if `is_kept`; whether its gate heard of each
    /// update that was written whole, and once of the end; and whether the viewer is there no more, unless it was stopped.
    pub fn is_served<L: Ledger, R: Wait>(
        &mut self,
        rt: &R,
        shared: &Shared<L>,
        guard: &Guard,
        client: &Client,
        bytes: &[u8],
        is_kept: bool,
    ) -> bool {
        let is_gone = client.ended == Ended::Stopped || self.is_gone(rt, shared);
        let Some((cuts, ended)) = self.left(is_kept) else {
            return false;
        };
        let written = self.sending.sink.written.as_slice();
        let is_due = match client.sent {
            Some(count) => bytes.get(..count) == Some(written),
            None => true,
        };
        let updates = cuts.saturating_sub(u64::from(ended.may_break_off()));
        let wrote = if updates == 0 {
            0
        } else {
            written.len().saturating_sub(GREETED)
        };
        let told = guard.progress(self.sending.sink.viewer);
        is_gone
            && is_due
            && ended == client.ended
            && told.wrote.load(Ordering::SeqCst) == wrote as u64
            && told.ended.load(Ordering::SeqCst) == 1
            && told.steps.load(Ordering::SeqCst) == updates.saturating_add(1)
    }

    /// Takes the viewer's receipt, if there is one.
    pub fn receipt(&mut self) -> Option<Receipt> {
        if self.over.is_some() {
            return self.over.take();
        }
        let write = self.sending.write.take()?;
        match (self.hearing.read.take(), self.hearing.listener.take()) {
            (Some(read), None) if read.viewer == write.viewer => {
                Some(receipt(Some(read), None, write).0)
            }
            (None, Some(listener)) if listener.viewer() == write.viewer => {
                Some(receipt(None, Some(listener), write).0)
            }
            _ => None,
        }
    }
}

impl Sending<'_> {
    /// Serves the viewer in its thread, until there is nothing more to come.
    fn run<L: Ledger, R: Wait>(&mut self, rt: &R, shared: &Shared<L>) {
        let guard = self.sink.guard;
        match self.speaker.take() {
            Some(speaker) => {
                let write = serve_sender(rt, shared, speaker, &mut self.sink, guard);
                self.write = Some(write);
            }
            None => guard.ended(self.sink.viewer),
        }
    }
}

/// A request of what changes in the whole screen of 4 by 3 (RFC 6143, 7.5.3).
const CHANGES: &[u8] = b"\x03\x01\0\0\0\0\0\x04\0\x03";

/// Asks for what changes, if the viewer is open, and returns whether that was not refused.
fn asks<L: Ledger, R: Wait>(rt: &R, shared: &Shared<L>, hearing: &mut Hearing) -> bool {
    match &mut hearing.listener {
        Some(listener) => shared.hear(rt, listener, CHANGES).is_ok(),
        None => true,
    }
}

/// Asks as both viewers, paints a place while their senders wait, and returns whether each is sent that.
fn wakes<L: Ledger, R: Wait>(
    rt: &R,
    shared: &Shared<L>,
    brush: &mut Brush<L>,
    guard: &Guard,
    one: &mut Hearing,
    two: &mut Hearing,
) -> bool {
    let place = Rect {
        x1: 1,
        y1: 1,
        x2: 2,
        y2: 2,
    };
    let senders = if two.listener.is_some() { 2 } else { 1 };
    let have_sent = waits(&guard.one.steps, 1, TURNS) && waits(&guard.two.steps, 1, TURNS);
    let have_asked = asks(rt, shared, one) && asks(rt, shared, two);
    // nobody sees that they wait: they get some turns
    waits(&guard.met, 1, 1000);
    brush.paint(shared, rt, place, &[10]).is_ok()
        && have_sent
        && have_asked
        && waits(&guard.one.steps, 2, TURNS)
        && waits(&guard.two.steps, senders, TURNS)
}

/// Stops all or closes viewer 1, if `reading` says so, while its sender writes, if it is held there, or else waits. Then serves its
/// reader, and returns whether that ends as `reading` says.
fn reads<L: Ledger, R: Wait>(
    rt: &R,
    alloc: Global,
    shared: &Shared<L>,
    guard: &Guard,
    reading: &Reading,
    hearing: &mut Hearing,
) -> bool {
    let Ok((mut hub, _taker)) = InputHub::new(alloc, 1) else {
        return false;
    };
    let Some(listener) = hearing.listener.take() else {
        return false;
    };
    let turns = match guard.hold {
        Hold::Nobody => 1000,
        _ => TURNS,
    };
    waits(&guard.met, 1, turns);
    if reading.stops {
        shared.stop(rt);
    }
    let is_closed = reading.closes && shared.close(rt, 1).is_ok();
    let mut source = Source {
        rest: reading.given,
        first: reading.given.len(),
        others: 1,
        fails: false,
    };
    let seat = hub.seat(listener.viewer());
    let read = serve_reader(rt, shared, listener, &mut source, &hub, seat);
    let is_right = read.ended == reading.ended && is_closed == reading.closes;
    hearing.read = Some(read);
    guard.met.fetch_add(1, Ordering::SeqCst);
    waits(&guard.one.ended, 1, TURNS) && is_right
}

/// Does what the third thread does, and returns whether all went as `way` says.
fn act<L: Ledger, R: Wait>(
    rt: &R,
    alloc: Global,
    shared: &Shared<L>,
    brush: &mut Brush<L>,
    guard: &Guard,
    way: &Way,
    one: &mut Hearing,
    two: &mut Hearing,
) -> bool {
    let is_right = match way {
        Way::Stops => waits(&guard.one.steps, 1, TURNS),
        Way::Draws => match &mut one.listener {
            Some(listener) => draw_many(rt, alloc, shared, brush, listener).is_ok(),
            None => false,
        },
        Way::Wakes => wakes(rt, shared, brush, guard, one, two),
        Way::Reads(reading) => reads(rt, alloc, shared, guard, reading, one),
    };
    shared.stop(rt);
    is_right
}

/// Opens the viewers, runs the three threads, and returns whether all went as `crew` says, but for what the viewers were sent.
pub fn work<L: Ledger + Send + Sync, R: Threads + Wait + Sync>(
    rt: &R,
    alloc: Global,
    shared: &Shared<L>,
    brush: &mut Brush<L>,
    guard: &Guard,
    crew: &Crew,
    one: &mut Viewer<'_>,
    two: &mut Viewer<'_>,
) -> Result<bool, ScreenError> {
    one.open(rt, shared, &crew.one)?;
    if let Some(client) = &crew.two {
        two.open(rt, shared, client)?;
    }
    let (first, second) = (&mut one.sending, &mut two.sending);
    let (hearing, other) = (&mut one.hearing, &mut two.hearing);
    let (_sent, is_right) = thread::join(
        rt,
        move || {
            thread::join(
                rt,
                move || first.run(rt, shared),
                move || second.run(rt, shared),
            )
        },
        move || act(rt, alloc, shared, brush, guard, &crew.way, hearing, other),
    );
    Ok(is_right)
}
