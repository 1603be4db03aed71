//! The screen: each call is one event, and leaves it standing for the list of events so far with its own behind it. What stands
//! now is a scene; here each call keeps its event beside it, where events are kept, in room that is made before anything
//! changes.

ghost use Rattle.std.specs.Prelude.{◌≡◌, ◌≢◌, ◌++◌, ◌∷◌, [], List, IfSome, IfOk, OnOk, OnErr, MatchOption, MatchResult, IsOk};
ghost use Rattle.std.specs.Prelude.{IsOkUnless, IsSome, None, length, take, drop, slice_index, is_some, option_map, ◌↔◌, ◌<◌, ◌≤◌, ◌+◌, ◌*◌};
ghost use Rattle.std.specs.Map.{keys_of};
ghost use Rattle.viewer.specs.Viewer.{is_asking, settings_of};
ghost use Rattle.scene.specs.Calls.{call_refusal, event_of};
ghost use Rattle.messages.specs.Reading.{fault_in_rest, is_open_rest};
ghost use Rattle.messages.specs.Server.{server_version};
ghost use Rattle.scene.specs.declared.Config.{Config};
ghost use Rattle.scene.specs.declared.Event.{Event};
ghost use Rattle.scene.specs.Alone.{config_refusal, nothing_to_say, gives, something_to_send, Tells};
ghost use Rattle.scene.specs.Answers.{answer_to};
ghost use Rattle.scene.specs.Refusals.{absence, presence, Refuses};
ghost use Rattle.viewer.specs.Given.{bytes_given};
ghost use Rattle.screen.specs.State.{state, viewer_at, refusal};
ghost use Rattle.screen.specs.Happening.{AllHappen};
ghost use Rattle.screen.specs.Drawn.{IsDrawn};

use crate::draw::Draw;
use crate::kept_events::{KeptEvents, has_happened};
use listed::Listed;
use messages::Fault;
use scene::{
    Answer, Config, Drawing, Event, Scene, ScreenError, accepted_happens_again, accepted_is_enough,
    refusals_are_due,
};
use std::alloc::{AllocError, Global};
use std::marker::Model;
use viewer::{Settings, Update};

/// A screen with its viewers: one framebuffer, in which the application draws. Besides what it says itself, each call that changes the
/// screen may be refused as `OutOfMemory`; after a refusal nothing has changed, but for what `take` says.
pub struct Screen {
    scene: Scene,
    events: KeptEvents,
}

// Written out, so that who holds one proves one call here, and not the drop of each field.
impl Drop for Screen {
    fn drop(self) {
        let Screen {
            scene: _scene,
            events: _events,
        } = self;
    }
}

impl Model for Screen {
    ghost use Rattle.screen.specs.State.{State, with_history};

    ghost Value = { State };

    ghost view = { λ a. with_history a.scene a.events.events.items };
}

impl Screen {
    /// Returns a screen that is 0 everywhere, with no viewer. Refuses a configuration outside its limits as `BadSize`, `BadName` or
    /// `BadRectLimit`, in this order, and else for want of memory as `OutOfMemory`.
    pub fn new(alloc: Global, config: Config) -> Result<Screen, ScreenError>
        ensures made { IfOk result (λ screen. screen ≡ state config []) }
        ensures refused { MatchOption (config_refusal config) (IsOkUnless result ScreenError.OutOfMemory) (λ e. result ≡ Err e) }
    {
        let scene = Scene::new(alloc, config)?;
        let events = KeptEvents::new(alloc, scene.history());
        Ok(Screen { scene, events })
    }

    /// Sets whether the rectangles of viewers that are alike are encoded once, where `encode_ahead` is called before each cut; at first
    /// they aren't. No byte that a viewer is sent depends on it.
    pub fn share_encodings(&mut self, shares: bool)
        ensures { self.new ≡ self.old }
    {
        self.scene.share_encodings(shares);
    }

    /// Encodes a piece of what several viewers want, where encodings are shared and the viewer would be sent that next: some 256 KB, at
    /// most 16 rows of tiles in Hextile or 16 rectangles in RRE. No byte that a viewer is sent depends on it.
    ///
    /// Returns None if the viewer is best cut now. Else more is left to be encoded, and its cut better waits until a further call returns
    /// None; the number is another where what it waited for is lost, as by drawing, and then it had better be cut all the same.
    #[inline(always)]
    pub fn encode_ahead(&mut self, number: u64) -> Option<u64>
        ensures { self.new ≡ self.old }
    {
        self.scene.encode_ahead(number)
    }

    /// Lends the events that were accepted, in order, where they are kept: a call for one rectangle with the rectangle as it was given,
    /// one for a region with the region's canonical list, and no cut that gave nothing. They are all that the screen stands for.
    pub fn history(&self) -> Option<&[Event]>
        ensures kept { option_map (λ events. events.now) result ≡ self.now.history }
        ensures enough { (config : Config) (list : List Event) → self.now ≡ state config list →
            IfSome result (λ events. self.now ≡ state config events.now) }
    {
        accepted_is_enough();
        accepted_happens_again();
        self.events.as_slice()
    }

    /// Returns the screen's columns, 1 to 8192.
    pub fn width(&self) -> u32
        ensures { result ≡ self.now.picture.width }
    {
        self.scene.width()
    }

    /// Returns the screen's rows, 1 to 8192.
    pub fn height(&self) -> u32
        ensures { result ≡ self.now.picture.height }
    {
        self.scene.height()
    }

    /// Returns the colour `0x00RRGGBB` of the place in column `x` of row `y`, unless that is off the screen.
    pub fn colour(&self, x: u32, y: u32) -> Option<u32>
        ensures inside { IsSome result ↔ ((x < self.now.picture.width) × (y < self.now.picture.height)) }
        ensures colour { IfSome result (λ colour. colour ≡ slice_index self.now.picture.colours (y * self.now.picture.width + x)) }
    {
        self.scene.colour(x, y)
    }

    /// Lends the colours `0x00RRGGBB` of the places of row `y`, from the left, unless that is off the screen.
    pub fn row(&self, y: u32) -> Option<&[u32]>
        ensures inside { IsSome result ↔ (y < self.now.picture.height) }
        ensures colours { IfSome result (λ row. row.now ≡
            take self.now.picture.width (drop (y * self.now.picture.width) self.now.picture.colours)) }
    {
        self.scene.row(y)
    }

    /// Returns how many viewers are live: connected, and not closed. A viewer that met a fault is live until it is closed.
    pub fn viewer_count(&self) -> usize
        ensures { result ≡ length self.now.viewers }
    {
        self.scene.viewer_count()
    }

    /// Returns how many entries of drawing stand in the log that the viewers share, besides those that were joined: at most 256, and 0
    /// where no viewer lacks one.
    pub fn log_len(&self) -> usize
        ensures few { result ≤ 256 }
        ensures none { length self.now.viewers ≡ 0 → result ≡ 0 }
    {
        self.scene.log_len()
    }

    /// Returns the live viewers' numbers, in the order in which they connected.
    pub fn numbers(&self) -> Result<Listed<u64>, AllocError>
        ensures { IfOk result (λ numbers. numbers ≡ keys_of self.now.viewers) }
    {
        self.scene.numbers()
    }

    /// Returns whether a live viewer has the number.
    pub fn is_live(&self, number: u64) -> bool
        ensures { result ≡ is_some (viewer_at self.now number) }
    {
        self.scene.is_live(number)
    }

    /// Returns why a viewer is heard no further, if it met a fault. Refuses a number that no live viewer has as `NoViewer`.
    pub fn fault(&self, number: u64) -> Result<Option<Fault>, ScreenError>
        ensures { MatchOption (viewer_at self.now number) (result ≡ Err ScreenError.NoViewer) (λ viewer. result ≡
            Ok (fault_in_rest viewer.heard)) }
    {
        self.scene.fault(number)
    }

    /// Returns whether a viewer had its ServerInit (RFC 6143, 7.3.2) and met no fault. Refuses a number that no live viewer has as
    /// `NoViewer`.
    pub fn is_open(&self, number: u64) -> Result<bool, ScreenError>
        ensures { MatchOption (viewer_at self.now number) (result ≡ Err ScreenError.NoViewer) (λ viewer. result ≡
            Ok (is_open_rest viewer.heard)) }
    {
        self.scene.is_open(number)
    }

    /// Returns whether a viewer asked for places, and no update of places or of a size was cut for it since: a FramebufferUpdateRequest
    /// (RFC 6143, 7.5.3) of its is unanswered. Refuses a number that no live viewer has as `NoViewer`.
    pub fn is_asking(&self, number: u64) -> Result<bool, ScreenError>
        ensures { MatchOption (viewer_at self.now number) (result ≡ Err ScreenError.NoViewer) (λ viewer. result ≡
            Ok (is_asking viewer)) }
    {
        self.scene.is_asking(number)
    }

    /// Returns what a viewer has set by its messages: whether it would share the screen, its pixel format, its encoding (RFC 6143, 7.3.1,
    /// 7.5.1 and 7.5.2; `format` and the like of `rfbClientRec`). Refuses a number that no live viewer has as `NoViewer`.
    pub fn settings(&self, number: u64) -> Result<Settings, ScreenError>
        ensures { MatchOption (viewer_at self.now number) (result ≡ Err ScreenError.NoViewer) (λ viewer. result ≡
            Ok (settings_of viewer)) }
    {
        self.scene.settings(number)
    }

    /// Returns how many requests of a viewer were not incremental (RFC 6143, 7.5.3): `full_requests` of its settings. Refuses a number
    /// that no live viewer has as `NoViewer`.
    pub fn full_requests(&self, number: u64) -> Result<u64, ScreenError>
        ensures { MatchOption (viewer_at self.now number) (result ≡ Err ScreenError.NoViewer) (λ viewer. result ≡
            Ok viewer.full_requests) }
    {
        self.scene.full_requests(number)
    }

    /// Does a drawing call, one of those of `Draw`, as a value. Refuses what that call refuses.
    pub fn draw(&mut self, drawing: &Drawing<'_>) -> Result<(), ScreenError>
        ensures step { (config : Config) (list : List Event) → self.old ≡ state config list →
            OnOk result (self.new ≡ state config (list ++ event_of drawing.now ∷ [])) }
        ensures happened { (config : Config) (list : List Event) → self.old ≡ state config list → OnOk result (AllHappen config list (event_of drawing.now ∷ [])) }
        ensures answer { (config : Config) (list : List Event) → self.old ≡ state config list →
            Tells (λ _. nothing_to_say) result (answer_to config list (event_of drawing.now)) }
        ensures refused { Refuses result (refusal self.old (event_of drawing.now)) }
        ensures call { Refuses result (call_refusal self.old.picture.width self.old.picture.height drawing.now) }
        ensures err { OnErr result (self.new ≡ self.old) }
    {
        if let Some(refusal) = drawing.refusal(self.scene.width(), self.scene.height()) {
            return Err(refusal);
        }
        let event = self.events.event_of(drawing)?;
        self.events.make_room()?;
        self.scene.draw(drawing)?;
        self.events.push(event);
        Ok(())
    }

    /// Connects a viewer, and returns the server's version for it (RFC 6143, 7.1.1). Refuses a number that a live viewer has as
    /// `NumberInUse`.
    pub fn connect(&mut self, number: u64) -> Result<Listed<u8>, ScreenError>
        ensures step { (config : Config) (list : List Event) → self.old ≡ state config list →
            OnOk result (self.new ≡ state config (list ++ Event.Connect number ∷ [])) }
        ensures answer { (config : Config) (list : List Event) → self.old ≡ state config list →
            Tells gives result (answer_to config list (Event.Connect number)) }
        ensures version { IfOk result (λ bytes. bytes ≡ server_version) }
        ensures refused { Refuses result (presence (viewer_at self.old number)) }
        ensures err { OnErr result (self.new ≡ self.old) }
    {
        refusals_are_due();
        self.scene.check_free(number)?;
        let event = Event::Connect { viewer: number };
        self.events.make_room_for(&event)?;
        let version = self.scene.connect(number)?;
        self.events.push(event);
        Ok(version)
    }

    /// Closes a viewer's connection. Refuses a number that no live viewer has as `NoViewer`. Where events are kept, room for this one was
    /// made when the viewer connected.
    pub fn close(&mut self, number: u64) -> Result<(), ScreenError>
        ensures step { (config : Config) (list : List Event) → self.old ≡ state config list →
            OnOk result (self.new ≡ state config (list ++ Event.Close number ∷ [])) }
        ensures answer { (config : Config) (list : List Event) → self.old ≡ state config list →
            Tells (λ _. nothing_to_say) result (answer_to config list (Event.Close number)) }
        ensures refused { Refuses result (absence (viewer_at self.old number)) }
        ensures err { OnErr result (self.new ≡ self.old) }
    {
        refusals_are_due();
        self.scene.find(number)?;
        let event = Event::Close { viewer: number };
        self.events.make_room_for(&event)?;
        self.scene.close(number)?;
        self.events.push(event);
        Ok(())
    }

    /// Hears a piece of a viewer's bytes (RFC 6143, 7.1 to 7.5), and returns what it is answered, what it tells the application, and why
    /// it is heard no further. Refuses a number that no live viewer has as `NoViewer`.
    pub fn hear(&mut self, number: u64, piece: &[u8]) -> Result<Answer, ScreenError>
        ensures step { (config : Config) (list : List Event) → self.old ≡ state config list →
            OnOk result (self.new ≡ state config (list ++ Event.Hear number piece.now ∷ [])) }
        ensures answer { (config : Config) (list : List Event) → self.old ≡ state config list →
            Tells (λ a. a) result (answer_to config list (Event.Hear number piece.now)) }
        ensures refused { Refuses result (absence (viewer_at self.old number)) }
        ensures accepted { IfOk result (λ answer. answer.refused ≡ None) }
        ensures err { OnErr result (self.new ≡ self.old) }
    {
        refusals_are_due();
        self.scene.find(number)?;
        let copy = self.events.copied(piece)?;
        self.events.make_room()?;
        let answer = self.scene.hear(number, piece)?;
        self.events.push(Event::Hear {
            viewer: number,
            piece: copy,
        });
        Ok(answer)
    }

    /// Returns whether a cut now would give something. Refuses a number that no live viewer has as `NoViewer`.
    pub fn pending(&self, number: u64) -> Result<bool, ScreenError>
        ensures answer { (config : Config) (list : List Event) → self.now ≡ state config list →
            result ≡ something_to_send (answer_to config list (Event.Cut number)) }
        ensures refused { MatchOption (absence (viewer_at self.now number)) (IsOk result) (λ e. result ≡ Err e) }
    {
        self.scene.pending(number)
    }

    /// Cuts an update for a viewer: its rectangles, with their colours as they stand. Returns None if there is nothing to send. Refuses a
    /// number that no live viewer has as `NoViewer`.
    pub fn cut(&mut self, number: u64) -> Result<Option<Update>, ScreenError>
        ensures step { (config : Config) (list : List Event) → self.old ≡ state config list →
            OnOk result (self.new ≡ state config (list ++ Event.Cut number ∷ [])) }
        ensures answer { (config : Config) (list : List Event) → self.old ≡ state config list →
            Tells (λ update. gives (bytes_given update)) result (answer_to config list (Event.Cut number)) }
        ensures some { IfOk result (λ update. IfSome update (λ u. u ≢ [])) }
        ensures refused { Refuses result (absence (viewer_at self.old number)) }
        ensures err { OnErr result (self.new ≡ self.old) }
    {
        refusals_are_due();
        self.scene.find(number)?;
        self.events.make_room()?;
        let Some((update, ())) = self.scene.cut_with(number, |_| Ok(()))? else {
            return Ok(None);
        };
        self.events.push(Event::Cut { viewer: number });
        Ok(Some(update))
    }

    /// Does an event. Puts a refusal in the answer, and then nothing has changed, but returns an `AllocError` for want of memory; a Cut
    /// gives the encoded bytes, or none.
    pub fn apply(&mut self, event: &Event) -> Result<Answer, AllocError>
        ensures step { (config : Config) (list : List Event) → self.old ≡ state config list →
            OnOk result (self.new ≡ state config (list ++ event.now ∷ [])) }
        ensures answer { (config : Config) (list : List Event) → self.old ≡ state config list →
            MatchResult result (λ answer. answer ≡ answer_to config list event.now)
            (λ _. (answer_to config list event.now).refused ≡ None) }
        ensures refused { MatchResult result (λ answer. answer.refused ≡ refusal self.old event.now)
            (λ _. refusal self.old event.now ≡ None) }
        ensures unchanged { IfOk result (λ answer. answer.refused ≢ None → self.new ≡ self.old) }
        ensures err { OnErr result (self.new ≡ self.old) }
    {
        refusals_are_due();
        if self.scene.check(event).is_err() {
            return self.scene.apply(event);
        }
        let copy = self.events.copied_event(event)?;
        self.events.make_room_for(event)?;
        let answer = self.scene.apply(event)?;
        if !has_happened(event, &answer) {
            return Ok(answer);
        }
        self.events.push(copy);
        Ok(answer)
    }
}

impl Draw for Screen {
    ghost draws = { IsDrawn };

    fn draw(&mut self, drawing: &Drawing<'_>) -> Result<(), ScreenError> {
        self.draw(drawing)
    }
}
