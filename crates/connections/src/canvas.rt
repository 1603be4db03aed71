//! The screen as an application draws on it.

ghost use Rattle.std.specs.Prelude.{◌≡◌, ◌++◌, ◌∷◌, [], ◌≢◌, List, None, true, false, nat_lt, IfOk, IfSome, OnOk, OnErr, option_map};
ghost use Rattle.screen.specs.declared.Config.{Config};
ghost use Rattle.screen.specs.declared.Event.{Event};
ghost use Rattle.screen.specs.Alone.{Tells, config_refusal};
ghost use Rattle.screen.specs.Answers.{answer_to};
ghost use Rattle.screen.specs.Refusals.{Refuses, absence, presence};
ghost use Rattle.screen.specs.State.{state, refusal, viewer_at};
ghost use Rattle.screen.specs.Takes.{Takes, TakesTelling};
ghost use Rattle.viewer.specs.Given.{bytes_given};
ghost use Rattle.screen.specs.Calls.{event_of};
ghost use Rattle.connections.specs.Recorded.{cut_gives, PutsWhere, RecordsMore, IsFlushed, held_by, is_broken};
ghost use Rattle.connections.specs.Drawing.{Draws, full_requests_on, is_asking_on, is_notice, IsDrawnOn, IsNotedAfter};

use crate::record::Record;
use listed::Listed;
use screen::{Answer, Draw, Drawing, PixelSource, Screen, ScreenError, Update};
use std::alloc::Global;
use std::marker::Model;

/// A screen to draw on, and whether it was drawn on since its viewers were looked at. Each drawing call is the screen's, with the
/// same refusals, and leaves the screen as it was where it is refused; its viewers are looked at in the next turn.
pub struct Canvas {
    screen: Screen,
    // what is written of its events, where that is
    recorder: Record,
    has_drawn: bool,
    // a bell or a text is among what was drawn
    has_noticed: bool,
}

// Written out, so that who holds one proves one call here, and not the drop of each field.
impl Drop for Canvas {
    fn drop(self) {
        let Canvas {
            screen: _screen,
            recorder: _recorder,
            has_drawn: _has_drawn,
            has_noticed: _has_noticed,
        } = self;
    }
}

impl Model for Canvas {
    ghost use Rattle.connections.specs.Drawing.{Surface};

    ghost Value = { Surface };

    ghost view = { λ a. record { screen = a.screen; scribed = a.recorder; drawn = a.has_drawn; noticed = a.has_noticed } };
}

/// Returns whether a call is a bell or a text.
fn is_notice(drawing: &Drawing<'_>) -> bool
    ensures { result ≡ is_notice (event_of drawing.now) }
{
    matches!(drawing, Drawing::Bell | Drawing::CutText(_))
}

impl Canvas {
    /// Returns a canvas of the screen, recorded by `recorder`, on which nothing was drawn yet.
    pub(crate) fn new(screen: Screen, recorder: Record) -> Canvas
        ensures screen { result.screen ≡ screen }
        ensures recorded { result.scribed ≡ recorder }
    {
        Canvas {
            screen,
            recorder,
            has_drawn: false,
            has_noticed: false,
        }
    }

    /// Writes what waits of the record.
    pub(crate) fn flush_record(&mut self)
        ensures same { self.new ≡ record self.old { scribed = self.new.scribed } }
        ensures puts { PutsWhere [] self.old.scribed self.new.scribed }
        ensures flushed { IsFlushed self.new.scribed }
    {
        self.recorder.flush();
    }

    /// Returns what was written of the record so far, where it is written to memory.
    pub(crate) fn record_in_memory(&self) -> Option<&[u8]>
        ensures { option_map (λ bytes. bytes.now) result ≡ held_by self.now.scribed }
    {
        self.recorder.in_memory()
    }

    /// Returns whether the record has ended before its session.
    pub(crate) fn is_record_broken(&self) -> bool
        ensures { result ≡ is_broken self.now.scribed }
    {
        self.recorder.is_broken()
    }

    /// Returns whether a request of a viewer is unanswered; false where there is none with the number.
    pub(crate) fn is_asking(&self, viewer: u64) -> bool
        ensures { result ≡ is_asking_on self.now.screen viewer }
    {
        match self.screen.is_asking(viewer) {
            Ok(is_asking) => is_asking,
            Err(_) => false,
        }
    }

    /// Returns how many requests of a viewer were not incremental; 0 where there is none with the number.
    pub(crate) fn full_requests(&self, viewer: u64) -> u64
        ensures { result ≡ full_requests_on self.now.screen viewer }
    {
        match self.screen.full_requests(viewer) {
            Ok(count) => count,
            Err(_) => 0,
        }
    }

    /// Returns whether a viewer made a further request that isn't incremental, since it had made so many.
    pub(crate) fn has_asked_since(&self, viewer: u64, full_requests: u64) -> bool
        ensures { result ≡ nat_lt full_requests (full_requests_on self.now.screen viewer) }
    {
        full_requests < self.full_requests(viewer)
    }

    /// Returns the screen, to be looked at.
    pub fn screen(&self) -> &Screen
        ensures { result.now ≡ self.now.screen }
    {
        &self.screen
    }

    /// Does a drawing call, one of those of `Draw`, as a value. Refuses what `Screen::draw` refuses.
    pub fn draw(&mut self, drawing: &Drawing<'_>) -> Result<(), ScreenError>
        ensures step { (config : Config) (list : List Event) → self.old.screen ≡ state config list →
            OnOk result (self.new.screen ≡ state config (list ++ event_of drawing.now ∷ [])) }
        ensures recorded { (config : Config) (list : List Event) → self.old.screen ≡ state config list →
            OnOk result (RecordsMore config list (event_of drawing.now ∷ []) self.old.scribed self.new.scribed) }
        ensures unrecorded { OnErr result (self.new.scribed ≡ self.old.scribed) }
        ensures refused { Refuses result (refusal self.old.screen (event_of drawing.now)) }
        ensures err { OnErr result (self.new.screen ≡ self.old.screen) }
        ensures draws { Draws self.old self.new }
        ensures noted { IsNotedAfter (event_of drawing.now) self.old self.new }
    {
        self.has_drawn = true;
        self.has_noticed = is_notice(drawing) | self.has_noticed;
        self.screen.draw(drawing)?;
        self.recorder.drew(drawing);
        Ok(())
    }

    /// Takes a program's own pixels into the picture, as `Screen::take` does: paints what differs.
    pub fn take(
        &mut self,
        alloc: Global,
        left: u32,
        top: u32,
        source: &PixelSource<'_>,
    ) -> Result<usize, ScreenError>
        ensures takes { (config : Config) (list : List Event) → config_refusal config ≡ None → self.old.screen ≡ state config list →
            Takes source.now left top config list self.old.screen self.new.screen result }
        ensures recorded { (config : Config) (list : List Event) → config_refusal config ≡ None → self.old.screen ≡ state config list →
            TakesTelling (λ es. RecordsMore config list es self.old.scribed self.new.scribed) source.now left top config list self.old.screen self.new.screen result }
        ensures draws { Draws self.old self.new }
        ensures drawn { self.new.drawn ≡ true }
        ensures noticed { self.new.noticed ≡ self.old.noticed }
    {
        self.has_drawn = true;
        self.screen
            .take_told(alloc, left, top, source, &mut self.recorder)
    }

    /// Clears both flags, once every connection that the drawing may concern is on the agenda.
    pub(crate) fn settle(&mut self)
        ensures { self.new ≡ record self.old { drawn = false; noticed = false } }
    {
        self.has_drawn = false;
        self.has_noticed = false;
    }

    /// Returns whether it was drawn on since `settle`.
    pub(crate) fn has_drawn(&self) -> bool
        ensures { result ≡ self.now.drawn }
    {
        self.has_drawn
    }

    /// Returns whether a bell or a text is among what was drawn since `settle`.
    pub(crate) fn has_noticed(&self) -> bool
        ensures { result ≡ self.now.noticed }
    {
        self.has_noticed
    }

    /// Lets viewers that are alike share their encoded rectangles, once there is a second one.
    fn share_with_second(&mut self)
        ensures { self.new ≡ self.old }
    {
        if self.screen.viewer_count() == 2 {
            self.screen.share_encodings(true);
        }
    }

    /// Connects a viewer, as `Screen::connect` does, and records it.
    pub(crate) fn connect(&mut self, number: u64) -> Result<Listed<u8>, ScreenError>
        ensures step { (config : Config) (list : List Event) → self.old.screen ≡ state config list →
            OnOk result (self.new.screen ≡ state config (list ++ Event.Connect number ∷ [])) }
        ensures recorded { (config : Config) (list : List Event) → self.old.screen ≡ state config list →
            OnOk result (RecordsMore config list (Event.Connect number ∷ []) self.old.scribed self.new.scribed) }
        ensures answer { (config : Config) (list : List Event) → self.old.screen ≡ state config list →
            IfOk result (λ bytes. bytes ≡ (answer_to config list (Event.Connect number)).bytes) }
        ensures refused { Refuses result (presence (viewer_at self.old.screen number)) }
        ensures same { self.new ≡ record self.old { screen = self.new.screen; scribed = self.new.scribed } }
        ensures err { OnErr result (self.new ≡ self.old) }
    {
        let version = self.screen.connect(number)?;
        self.recorder.connected(number);
        self.share_with_second();
        Ok(version)
    }

    /// Hears a piece, as `Screen::hear` does, and records it.
    pub(crate) fn hear(&mut self, number: u64, piece: &[u8]) -> Result<Answer, ScreenError>
        ensures step { (config : Config) (list : List Event) → self.old.screen ≡ state config list →
            OnOk result (self.new.screen ≡ state config (list ++ Event.Hear number piece.now ∷ [])) }
        ensures told { (config : Config) (list : List Event) → self.old.screen ≡ state config list →
            Tells (λ answer. answer) result (answer_to config list (Event.Hear number piece.now)) }
        ensures answer { (config : Config) (list : List Event) → self.old.screen ≡ state config list →
            IfOk result (λ answer. answer.bytes ≡ (answer_to config list (Event.Hear number piece.now)).bytes) }
        ensures inputs { (config : Config) (list : List Event) → self.old.screen ≡ state config list →
            IfOk result (λ answer. answer.inputs ≡ (answer_to config list (Event.Hear number piece.now)).inputs) }
        ensures closed { (config : Config) (list : List Event) → self.old.screen ≡ state config list →
            IfOk result (λ answer. answer.closed ≡ (answer_to config list (Event.Hear number piece.now)).closed) }
        ensures recorded { (config : Config) (list : List Event) → self.old.screen ≡ state config list →
            OnOk result (RecordsMore config list (Event.Hear number piece.now ∷ []) self.old.scribed self.new.scribed) }
        ensures accepted { IfOk result (λ answer. answer.refused ≡ None) }
        ensures refused { Refuses result (absence (viewer_at self.old.screen number)) }
        ensures same { self.new ≡ record self.old { screen = self.new.screen; scribed = self.new.scribed } }
        ensures err { OnErr result (self.new ≡ self.old) }
    {
        let answer = self.screen.hear(number, piece)?;
        self.recorder.heard(number, piece);
        Ok(answer)
    }

    /// Encodes ahead for viewers that are alike, as `Screen::encode_ahead` does.
    #[inline(always)]
    pub(crate) fn encode_ahead(&mut self, number: u64) -> Option<u64>
        ensures { self.new ≡ self.old }
    {
        self.screen.encode_ahead(number)
    }

    /// Cuts an update, as `Screen::cut` does, and records that where there is one.
    pub(crate) fn cut(&mut self, number: u64) -> Result<Option<Update>, ScreenError>
        ensures step { (config : Config) (list : List Event) → self.old.screen ≡ state config list →
            OnOk result (self.new.screen ≡ state config (list ++ Event.Cut number ∷ [])) }
        ensures told { (config : Config) (list : List Event) → self.old.screen ≡ state config list →
            Tells cut_gives result (answer_to config list (Event.Cut number)) }
        ensures answer { (config : Config) (list : List Event) → self.old.screen ≡ state config list →
            IfOk result (λ update. bytes_given update ≡ (answer_to config list (Event.Cut number)).bytes) }
        ensures recorded { (config : Config) (list : List Event) → self.old.screen ≡ state config list →
            OnOk result (RecordsMore config list (Event.Cut number ∷ []) self.old.scribed self.new.scribed) }
        ensures refused { Refuses result (absence (viewer_at self.old.screen number)) }
        ensures same { self.new ≡ record self.old { screen = self.new.screen; scribed = self.new.scribed } }
        ensures some { IfOk result (λ update. IfSome update (λ bytes. bytes ≢ [])) }
        ensures err { OnErr result (self.new ≡ self.old) }
    {
        let Some(update) = self.screen.cut(number)? else {
            return Ok(None);
        };
        self.recorder.cut(number);
        Ok(Some(update))
    }

    /// Closes a viewer, as `Screen::close` does, and records it.
    pub(crate) fn close(&mut self, number: u64) -> Result<(), ScreenError>
        ensures step { (config : Config) (list : List Event) → self.old.screen ≡ state config list →
            OnOk result (self.new.screen ≡ state config (list ++ Event.Close number ∷ [])) }
        ensures recorded { (config : Config) (list : List Event) → self.old.screen ≡ state config list →
            OnOk result (RecordsMore config list (Event.Close number ∷ []) self.old.scribed self.new.scribed) }
        ensures answer { (config : Config) (list : List Event) → self.old.screen ≡ state config list →
            OnOk result ((answer_to config list (Event.Close number)).bytes ≡ []) }
        ensures refused { Refuses result (absence (viewer_at self.old.screen number)) }
        ensures same { self.new ≡ record self.old { screen = self.new.screen; scribed = self.new.scribed } }
        ensures err { OnErr result (self.new ≡ self.old) }
    {
        self.screen.close(number)?;
        self.recorder.closed(number);
        Ok(())
    }
}

impl Draw for Canvas {
    ghost draws = { IsDrawnOn };

    fn draw(&mut self, drawing: &Drawing<'_>) -> Result<(), ScreenError> {
        self.draw(drawing)
    }
}
