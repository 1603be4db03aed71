//! What the lock keeps: a screen that stands for one list of events, in which viewers connected by rising numbers, and whose
//! drawing calls are counted. Each call is one hold: it does one event, or changes nothing.

ghost use Rattle.std.specs.Prelude.{◌≡◌, List, [], None, Some, true, OnOk, OnErr, IfOk, MatchBool, MatchOption, IsOkUnless, ◌+◌};
ghost use Rattle.std.specs.Prelude.{◌<◌, ◌≢◌, is_some, Ok, IfSome};
ghost use Rattle.messages.specs.Server.{server_version};
ghost use Rattle.screen.specs.declared.Config.{Config};
ghost use Rattle.screen.specs.declared.Event.{Event};
ghost use Rattle.screen.specs.Alone.{something_to_send, Tells, gives};
ghost use Rattle.viewer.specs.Given.{bytes_given};
ghost use Rattle.screen.specs.Answers.{answer_to};
ghost use Rattle.screen.specs.declared.ScreenError.TheVariants as refusals;
ghost use Rattle.screen.specs.Refusals.{absence, Refuses};
ghost use Rattle.screen.specs.State.{state, viewer_at, refusal};
ghost use Rattle.screen.specs.Calls.{call_refusal, event_of};
ghost use Rattle.update_sender.specs.Numbers.{is_next};
ghost use Rattle.update_sender.specs.Locked.{Draws, Joins, NeedsNoWait, Parts, Stands, StepsAlone, Takes, TellsStep, HasBytes, IsTurnOf, ending, is_open_now};

use crate::next_step::{NextStep, Turn};
use crate::senders::{ALL_GROUPS, group_of};
use listed::Listed;
use screen::{Answer, Drawing, Event, Screen, ScreenError, Update, kept_is_enough};
use std::alloc::AllocError;
use std::marker::Model;
use std::mem;
use std::sync::ledger::{Book, Ledger, Share};

/// What lies behind the lock.
#[derive(Drop)]
pub struct LockedScreen<L: Ledger> {
    screen: Screen,
    // the greatest number that connected
    newest: Option<u64>,
    stopped: bool,
    // the drawing calls
    drawings: Book<L>,
    // the groups of viewers whose open request a drawing call may answer, noted since a call last took them
    awaiting: u64,
}

impl<L: Ledger> Model for LockedScreen<L> {
    ghost use Rattle.std.specs.Prelude.{List};
    ghost use Rattle.screen.specs.declared.Event.{Event};
    ghost use Rattle.update_sender.specs.Locked.{Locked, Stands};

    ghost Value = { Locked };

    ghost view = { λ a. record { screen = a.screen; newest = a.newest; stopped = a.stopped; drawn = a.drawings.total } };

    ghost invariant = { λ a. (history : List Event) × Stands a.screen history a.newest a.drawings.total };
}

/// How a viewer left: whether it is there no more. Only a look behind the lock makes one.
#[derive(Drop)]
pub struct Parting {
    viewer: u64,
    is_gone: bool,
}

impl Model for Parting {
    ghost use Rattle.update_sender.specs.Ends.{Parted};

    ghost Value = { Parted };

    ghost view = { λ a. record { viewer = a.viewer; gone = a.is_gone } };
}

impl Parting {
    /// Returns the viewer's number.
    pub fn viewer(&self) -> u64
        ensures { result ≡ self.now.viewer }
    {
        self.viewer
    }

    /// Returns whether the viewer is there no more: it is closed. Else memory was refused for that.
    pub fn is_gone(&self) -> bool
        ensures { result ≡ self.now.gone }
    {
        self.is_gone
    }
}

/// What a piece brought.
#[derive(Drop)]
pub struct HearOutcome {
    /// What is said to the viewer, and its inputs.
    pub answer: Answer,
    /// Whether the viewer had its ServerInit, and met no fault.
    pub is_open: bool,
    /// Whether its sender need not wait.
    pub has_step: bool,
}

/// Returns whether a number is greater than the greatest.
fn is_next(greatest: Option<u64>, number: u64) -> bool
    ensures { result ≡ is_next greatest number }
{
    match greatest {
        Some(greatest) => greatest < number,
        None => true,
    }
}

impl<L: Ledger> LockedScreen<L> {
    /// Makes a screen on which nothing has happened yet.
    pub fn new(screen: Screen, drawings: Book<L>) -> LockedScreen<L>
        requires screen { screen ≡ state screen.config [] }
        requires drawings { drawings.total ≡ 0 }
        ensures { result.screen ≡ screen }
    {
        LockedScreen {
            screen,
            newest: None,
            stopped: false,
            drawings,
            awaiting: 0,
        }
    }

    /// Connects a viewer, where its number is greater than each before.
    pub fn connect(&mut self, number: u64) -> Result<Listed<u8>, ScreenError>
        ensures joins { OnOk result (Joins number (Event.Connect number) self.old self.new) }
        ensures version { IfOk result (λ bytes. bytes ≡ server_version) }
        ensures refused { MatchBool (is_next self.old.newest number) (IsOkUnless result refusals.OutOfMemory) (result ≡
            Err refusals.NumberInUse) }
        ensures err { OnErr result (self.new ≡ self.old) }
    {
        if !is_next(self.newest, number) {
            return Err(ScreenError::NumberInUse);
        }
        let version = self.screen.connect(number)?;
        self.newest = Some(number);
        Ok(version)
    }

    /// Closes a viewer's connection.
    pub fn close(&mut self, number: u64) -> Result<(), ScreenError>
        ensures step { OnOk result (StepsAlone (Event.Close number) self.old self.new) }
        ensures refused { Refuses result (absence (viewer_at self.old.screen number)) }
        ensures err { OnErr result (self.new ≡ self.old) }
    {
        self.screen.close(number)?;
        Ok(())
    }

    /// Lets a viewer leave: closes it, if it is there. It stays where memory is refused for that.
    pub fn part(&mut self, number: u64) -> Parting
        ensures viewer { result.viewer ≡ number }
        ensures parts { Parts number result.gone self.old self.new }
    {
        match self.close(number) {
            Ok(()) => Parting {
                viewer: number,
                is_gone: true,
            },
            Err(ScreenError::NoViewer) => Parting {
                viewer: number,
                is_gone: true,
            },
            Err(_) => Parting {
                viewer: number,
                is_gone: false,
            },
        }
    }

    /// Hears a piece of a viewer's bytes.
    pub fn hear(&mut self, number: u64, piece: &[u8]) -> Result<Answer, ScreenError>
        ensures step { OnOk result (StepsAlone (Event.Hear number piece.now) self.old self.new) }
        ensures answer { (config : Config) (list : List Event) → self.old.screen ≡ state config list →
            Tells (λ a. a) result (answer_to config list (Event.Hear number piece.now)) }
        ensures refused { Refuses result (absence (viewer_at self.old.screen number)) }
        ensures err { OnErr result (self.new ≡ self.old) }
    {
        let answer = self.screen.hear(number, piece)?;
        Ok(answer)
    }

    /// Hears a piece, and tells how the viewer stands then.
    pub fn hear_further(&mut self, number: u64, piece: &[u8]) -> Result<HearOutcome, ScreenError>
        ensures step { OnOk result (StepsAlone (Event.Hear number piece.now) self.old self.new) }
        ensures opened { IfOk result (λ heard. heard.is_open ≡ is_open_now (viewer_at self.new.screen number)) }
        ensures due { IfOk result (λ heard. NeedsNoWait self.new number heard.has_step) }
        ensures refused { Refuses result (absence (viewer_at self.old.screen number)) }
        ensures err { OnErr result (self.new ≡ self.old) }
    {
        let answer = self.hear(number, piece)?;
        Ok(HearOutcome {
            answer,
            is_open: self.is_open(number),
            has_step: self.has_step(number),
        })
    }

    /// Returns why a piece of a viewer's bytes is not heard for want of memory: the refusal that is due, and else that want.
    pub fn refusal_of_hearing(&self, number: u64) -> ScreenError
        ensures { MatchOption (absence (viewer_at self.now.screen number)) (result ≡ refusals.OutOfMemory) (λ e. result ≡ e) }
    {
        match self.screen.fault(number) {
            Ok(_) => ScreenError::OutOfMemory,
            Err(refusal) => refusal,
        }
    }

    /// Returns whether a viewer had its ServerInit and met no fault.
    pub fn is_open(&self, number: u64) -> bool
        ensures { result ≡ is_open_now (viewer_at self.now.screen number) }
    {
        matches!(self.screen.is_open(number), Ok(true))
    }

    /// Returns whether a viewer's sender need not wait: it ends, or has something to send.
    pub fn has_step(&self, number: u64) -> bool
        ensures ends { is_some (ending self.now number) ≡ true → result ≡ true }
        ensures sends { (config : Config) (list : List Event) → self.now.screen ≡ state config list →
            ending self.now number ≡ None →
            Ok result ≡ something_to_send (answer_to config list (Event.Cut number)) }
    {
        if self.stopped || !matches!(self.screen.fault(number), Ok(None)) {
            return true;
        }
        matches!(self.screen.pending(number), Ok(true))
    }

    /// Makes a drawing call, which is counted.
    pub fn draw(&mut self, share: &mut Share<L>, drawing: &Drawing<'_>) -> Result<(), ScreenError>
        requires { 0 < share.old.parts }
        ensures drawn { OnOk result (Draws (event_of drawing.now) self.old self.new) }
        ensures counted { OnOk result (share.new.amount ≡ share.old.amount + 1) }
        ensures parts { share.new.parts ≡ share.old.parts }
        ensures refused { Refuses result (refusal self.old.screen (event_of drawing.now)) }
        ensures call { Refuses result (call_refusal self.old.screen.picture.width self.old.screen.picture.height drawing.now) }
        ensures err { OnErr result (self.new ≡ self.old) }
        ensures not_counted { OnErr result (share.new.amount ≡ share.old.amount) }
    {
        self.screen.draw(drawing)?;
        self.drawings.add(share, 1);
        Ok(())
    }

    /// Notes the group of a viewer, where a request of the viewer is open.
    pub fn await_drawing(&mut self, number: u64)
        ensures { self.new ≡ self.old }
    {
        if matches!(self.screen.is_asking(number), Ok(true)) {
            self.awaiting |= group_of(number);
        }
    }

    /// Returns the groups of senders that a drawing call may have given something: none where no viewer is told of it, all for a bell and
    /// a text, and else those that were noted since a call last took them.
    pub fn take_awaiting(&mut self, drawing: &Drawing<'_>) -> u64
        ensures { self.new ≡ self.old }
    {
        match drawing {
            Drawing::Write { .. } => 0,
            Drawing::Bell | Drawing::CutText(_) => ALL_GROUPS,
            Drawing::Paint { .. }
            | Drawing::MarkRect(_)
            | Drawing::MarkRegion(_)
            | Drawing::ScheduleCopyRect { .. }
            | Drawing::ScheduleCopyRegion { .. }
            | Drawing::DoCopyRect { .. }
            | Drawing::DoCopyRegion { .. }
            | Drawing::NewFramebuffer { .. } => mem::replace(&mut self.awaiting, 0),
        }
    }

    /// Returns why a drawing call is not made for want of memory: the refusal that is due, and else that want.
    pub fn refusal_of(&self, drawing: &Drawing<'_>) -> ScreenError
        ensures { MatchOption (call_refusal self.now.screen.picture.width self.now.screen.picture.height drawing.now)
            (result ≡ refusals.OutOfMemory) (λ e. result ≡ e) }
    {
        match drawing.refusal(self.screen.width(), self.screen.height()) {
            Some(refusal) => refusal,
            None => ScreenError::OutOfMemory,
        }
    }

    /// Cuts an update for a viewer, if there is something to send.
    fn cut(&mut self, number: u64) -> Result<Option<Update>, ScreenError>
        ensures step { IfOk result (λ update. MatchOption update (self.new ≡ self.old)
            (λ _. StepsAlone (Event.Cut number) self.old self.new)) }
        ensures answer { (config : Config) (list : List Event) → self.old.screen ≡ state config list →
            Tells (λ update. gives (bytes_given update)) result (answer_to config list (Event.Cut number)) }
        ensures some { IfOk result (λ update. IfSome update (λ u. u ≢ [])) }
        ensures refused { Refuses result (absence (viewer_at self.old.screen number)) }
        ensures err { OnErr result (self.new ≡ self.old) }
    {
        kept_is_enough();
        let Some(update) = self.screen.cut(number)? else {
            return Ok(None);
        };
        Ok(Some(update))
    }

    /// Returns what a viewer's sender does next; None where it waits.
    pub fn take_step(&mut self, number: u64) -> Result<Option<NextStep>, AllocError>
        ensures ends { MatchOption (ending self.old number) (Unit {0}) (λ turn. result ≡ Ok (Some turn)) }
        ensures takes { IfOk result (λ turn. Takes number self.old self.new turn) }
        ensures bytes { IfOk result (λ turn. IfSome turn HasBytes) }
        ensures answer { (config : Config) (list : List Event) → self.old.screen ≡ state config list →
            ending self.old number ≡ None →
            IfOk result (λ turn. TellsStep turn (answer_to config list (Event.Cut number))) }
        ensures err { OnErr result (self.new ≡ self.old) }
    {
        if self.stopped {
            return Ok(Some(NextStep::Stopped));
        }
        match self.screen.fault(number) {
            Err(_) => Ok(Some(NextStep::Closed)),
            Ok(Some(fault)) => Ok(Some(NextStep::Faulty(fault))),
            Ok(None) => match self.cut(number) {
                Ok(Some(update)) => Ok(Some(NextStep::Send(update))),
                Ok(None) => Ok(None),
                // The viewer is live, so memory was refused.
                Err(_) => Err(AllocError),
            },
        }
    }

    /// Returns the same, with the viewer that it is for.
    pub fn take_turn(&mut self, number: u64) -> Result<Option<Turn>, AllocError>
        ensures own { IfOk result (λ turn. IfSome turn (IsTurnOf number)) }
        ensures takes { IfOk result (λ turn. IfSome turn (λ t. Takes number self.old self.new (Some t.step))) }
        ensures err { OnErr result (self.new ≡ self.old) }
    {
        match self.take_step(number) {
            Ok(Some(step)) => Ok(Some(Turn {
                viewer: number,
                step,
            })),
            Ok(None) => Ok(None),
            Err(error) => Err(error),
        }
    }

    /// Ends the sending.
    pub fn stop(&mut self)
        ensures { self.new ≡ record self.old { stopped = true } }
    {
        self.stopped = true;
    }

    /// Returns the screen and the count of drawing calls.
    pub fn parts(self) -> (Screen, Book<L>)
        ensures stands { (history : List Event) × Stands result.0 history self.newest result.1.total }
    {
        (self.screen, self.drawings)
    }
}
