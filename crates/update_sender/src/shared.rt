//! The lock, and the viewers' calls. Each holds the lock for one event; what follows from it, as an update's encoding, is done
//! once the lock is free. A hold after which a waiting sender may go on wakes the senders of its group.

ghost use Rattle.std.specs.Prelude.{◌≡◌, ◌≢◌, ◌<◌, ◌⊎◌, [], None, OnOk, OnErr, IfOk, IfErr, MatchOption, IsOkUnless, length};
ghost use Rattle.screen.specs.declared.ScreenError.TheVariants as refusals;
ghost use Rattle.screen.specs.Alone.{config_refusal};
ghost use Rattle.update_sender.specs.Ends.{greeted, listened, has_cut};
ghost use Rattle.kept_list.specs.Kept.{HasRoom};
ghost use Rattle.screen.specs.State.{history_by, state};
ghost use Rattle.update_sender.specs.Locked.{IsTurnOf};

use crate::brush::Brush;
use crate::line::{Line, Listener, Speaker};
use crate::locked_screen::{HearOutcome, LockedScreen, Parting};
use crate::next_step::{NextStep, Turn};
use crate::senders::{ALL_GROUPS, Senders, group_of};
use kept_list::KeptList;
use screen::{Answer, Config, Screen, ScreenError, Update};
use std::alloc::{AllocError, Global};
use std::marker::Model;
use std::sync::ledger::{Blank, Ledger};
use std::sync::{Mutex, Wait};

/// A screen that threads share. Contracts see the configuration that it was made with.
#[derive(Drop)]
pub struct Shared<L: Ledger> {
    pub(crate) alloc: Global,
    pub(crate) config: Config,
    pub(crate) screen: Mutex<LockedScreen<L>>,
    // the conditions on which senders wait
    pub(crate) senders: Senders,
}

impl<L: Ledger> Model for Shared<L> {
    ghost use Rattle.std.specs.Prelude.{◌≡◌, None};
    ghost use Rattle.screen.specs.declared.Config.{Config};
    ghost use Rattle.screen.specs.Alone.{config_refusal};

    ghost Value = { Config };

    ghost view = { λ a. a.config };

    ghost invariant = { λ a. config_refusal a.config ≡ None };
}

impl<L: Ledger> Shared<L> {
    /// Makes a screen behind a lock, and its one brush. The blank is one of the ledger that the type names; the drawing calls are
    /// counted in it. Refused as `Screen::new` is.
    pub fn new(
        alloc: Global,
        blank: Blank,
        config: Config,
    ) -> Result<(Shared<L>, Brush<L>), ScreenError>
        requires name { blank.name ≡ L.name }
        requires parts { blank.parts ≡ L.parts }
        requires some { 0 < L.parts }
        ensures refused { MatchOption (config_refusal config) (IsOkUnless result refusals.OutOfMemory) (λ e. result ≡ Err e) }
        ensures shared { IfOk result (λ made. made.0 ≡ config) }
        ensures brush { IfOk result (λ made. made.1 ≡ history_by config.history []) }
    {
        let copy = config.try_clone(alloc);
        let screen = Screen::new(alloc, config)?;
        let config = copy?;
        let (book, share) = blank.open::<L>();
        let brush = Brush::new(alloc, config.history, share);
        let senders = Senders::new(alloc)?;
        let shared = Shared::of(alloc, config, LockedScreen::new(screen, book), senders);
        Ok((shared, brush))
    }

    /// Puts a screen of a configuration behind a lock, on which nothing has happened yet. No screen comes there otherwise, and no event
    /// changes a screen's configuration.
    fn of(alloc: Global, config: Config, screen: LockedScreen<L>, senders: Senders) -> Shared<L>
        requires config { config_refusal config ≡ None }
        requires screen { screen.screen ≡ state config [] }
        ensures { result ≡ config }
    {
        Shared {
            alloc,
            config,
            screen: Mutex::new(screen),
            senders,
        }
    }

    /// Connects a viewer. Refused as `NumberInUse` unless its number is greater than each that connected before, and else as `OutOfMemory`.
    pub fn connect<R: Wait>(&self, rt: &R, number: u64) -> Result<Line, ScreenError>
        ensures line { IfOk result (λ line. line ≡ greeted number self.now.history) }
        ensures refused { IfErr result (λ e. (e ≡ refusals.NumberInUse) ⊎ (e ≡ refusals.OutOfMemory)) }
    {
        let version = self.screen.lock(rt).connect(number)?;
        Ok(Line::new(self.alloc, number, self.config.history, version))
    }

    /// Closes a viewer's connection. Refused as `NoViewer` where there is none with the number, and as `OutOfMemory`: then the viewer
    /// stays, and whoever serves it closes it later, or its sender may wait for an update that nobody can be sent.
    pub fn close<R: Wait>(&self, rt: &R, number: u64) -> Result<(), ScreenError>
        ensures refused { IfErr result (λ e. (e ≡ refusals.NoViewer) ⊎ (e ≡ refusals.OutOfMemory)) }
    {
        self.screen.lock(rt).close(number)?;
        self.senders.wake(group_of(number));
        Ok(())
    }

    /// Lets a viewer leave: closes it, if it is there. Returns whether it is there no more; else memory was refused for that.
    pub(crate) fn part<R: Wait>(&self, rt: &R, number: u64) -> Parting
        ensures { result.viewer ≡ number }
    {
        let parting = self.screen.lock(rt).part(number);
        self.senders.wake(group_of(number));
        parting
    }

    /// Ends the sending: every later `cut_wait` gives None.
    pub fn stop<R: Wait>(&self, rt: &R) {
        self.screen.lock(rt).stop();
        self.senders.wake(ALL_GROUPS);
    }

    /// Hears a piece of a viewer's bytes. Refused as `NoViewer` where the viewer is gone, and else as `OutOfMemory`: then nothing was
    /// heard.
    pub fn hear<R: Wait>(
        &self,
        rt: &R,
        listener: &mut Listener,
        piece: &[u8],
    ) -> Result<Answer, ScreenError>
        ensures heard { OnOk result (listener.new ≡ listened piece.now listener.old) }
        ensures err { OnErr result (listener.new ≡ listener.old) }
        ensures refused { IfErr result (λ e. (e ≡ refusals.NoViewer) ⊎ (e ≡ refusals.OutOfMemory)) }
    {
        let heard = self.hear_further(rt, listener, piece)?;
        Ok(heard.answer)
    }

    /// Hears a piece, and tells whether the viewer is open then.
    pub(crate) fn hear_further<R: Wait>(
        &self,
        rt: &R,
        listener: &mut Listener,
        piece: &[u8],
    ) -> Result<HearOutcome, ScreenError>
        ensures heard { OnOk result (listener.new ≡ listened piece.now listener.old) }
        ensures err { OnErr result (listener.new ≡ listener.old) }
        ensures refused { IfErr result (λ e. (e ≡ refusals.NoViewer) ⊎ (e ≡ refusals.OutOfMemory)) }
    {
        if listener.heard.reserve(piece.len()).is_err() {
            return Err(self.screen.lock(rt).refusal_of_hearing(listener.viewer));
        }
        let heard = self.hear_in_hold(rt, listener.viewer, &listener.heard, piece)?;
        if heard.has_step {
            self.senders.wake(group_of(listener.viewer));
        }
        listener.heard.append(piece);
        listener.pieces = listener.pieces.saturating_add(1);
        Ok(heard)
    }

    /// Hears it in one hold, once there is room for the piece among those that were heard: what the screen has heard is kept. A request
    /// that isn't answered yet is noted, since a drawing call may answer it.
    fn hear_in_hold<R: Wait>(
        &self,
        rt: &R,
        viewer: u64,
        _kept: &KeptList<u8>,
        piece: &[u8],
    ) -> Result<HearOutcome, ScreenError>
        requires room { HasRoom (length piece.now) _kept.now }
        ensures refused { IfErr result (λ e. (e ≡ refusals.NoViewer) ⊎ (e ≡ refusals.OutOfMemory)) }
    {
        let mut locked = self.screen.lock(rt);
        let heard = locked.hear_further(viewer, piece)?;
        if !heard.has_step {
            locked.await_drawing(viewer);
        }
        Ok(heard)
    }

    /// Waits until a viewer's sender has something to do.
    pub(crate) fn wait_for_turn<R: Wait>(&self, rt: &R, viewer: u64) -> Result<Turn, AllocError>
        ensures { IfOk result (IsTurnOf viewer) }
    {
        let mut locked = self.screen.lock(rt);
        for _ in rt.forever() {
            if let Some(turn) = locked.take_turn(viewer)? {
                return Ok(turn);
            }
            locked.await_drawing(viewer);
            locked = self.senders.of(viewer).wait(rt, locked);
        }
        unreachable!()
    }

    /// Waits until there is something to send, and cuts it. None after `stop`, and where the viewer is closed or met a fault: that
    /// it comes nowhere else, no clause says. `AllocError` where memory is refused; then nothing was cut.
    pub fn cut_wait<R: Wait>(
        &self,
        rt: &R,
        speaker: &mut Speaker,
    ) -> Result<Option<Update>, AllocError>
        ensures cut { IfOk result (λ update. MatchOption update (speaker.new ≡ speaker.old) (λ update. (update ≢ []) ×
            (speaker.new ≡ has_cut speaker.old))) }
        ensures err { OnErr result (speaker.new ≡ speaker.old) }
    {
        let Turn { step, .. } = self.wait_for_turn(rt, speaker.viewer)?;
        match step {
            NextStep::Send(update) => {
                speaker.count_cut();
                Ok(Some(update))
            }
            NextStep::Stopped | NextStep::Closed | NextStep::Faulty(_) => Ok(None),
        }
    }
}
