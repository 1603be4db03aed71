//! The scene: each call is one event, and leaves it standing for the list of events so far with its own behind it.

ghost use Rattle.std.specs.Prelude.{◌≡◌, ◌≢◌, ◌++◌, ◌∷◌, [], List, IfSome, IfOk, OnOk, OnErr, MatchOption, MatchResult, IsOk};
ghost use Rattle.std.specs.Prelude.{IsOkUnless, IsErr, IsSome, None, Some, length, take, drop, slice_index, is_some, ◌↔◌, ◌<◌, ◌≤◌, ◌+◌, ◌*◌};
ghost use Rattle.std.specs.Map.{keys_of};
ghost use Rattle.std.specs.Option.{option_map};
ghost use Rattle.viewer.specs.Viewer.{is_asking, settings_of};
ghost use Rattle.messages.specs.Reading.{fault_in_rest, is_open_rest};
ghost use Rattle.messages.specs.Server.{server_version};
ghost use Rattle.scene.specs.declared.Config.{Config};
ghost use Rattle.scene.specs.declared.Event.{Event};
ghost use Rattle.scene.specs.Alone.{config_refusal, pixels_refusal, size_refusal, text_refusal, nothing_to_say, gives, something_to_send, as_answer};
ghost use Rattle.scene.specs.Alone.{Tells};
ghost use Rattle.viewer.specs.Given.{bytes_given, prepared_bytes};
ghost use Rattle.scene.specs.Answers.{scene_after, answer_to};
ghost use Rattle.scene.specs.Calls.{event_of};
ghost use Rattle.viewer_list.specs.Viewers.{IsMadeBefore};
ghost use Rattle.scene.specs.Refusals.{viewer_at, absence, presence, refusal, Refuses};

use crate::answers::{settled, with_bytes, with_nothing, with_reply};
use crate::connecting::let_in;
use crate::drawing::{moves_nothing, owe_rects, owe_region, region_of, region_of_rect, tell};
use crate::limits::{checked, refusal_of, size_refusal, text_refusal, unless_refused};
use crate::{Answer, Config, Drawing, Event, History, ScreenError};
use framebuffer::destinations;
use listed::Listed;
use messages::Fault;
use picture::Picture;
use region::{Rect, Region};
use std::alloc::{AllocError, Global};
use std::marker::Model;
use viewer::{LogEntry, PreparedUpdate, Settings, Update};
use viewer_list::ViewerList;

/// One framebuffer, drawn in by the application, and its viewers. Besides what it says itself, each call that changes the scene may be
/// refused as `OutOfMemory`; after a refusal nothing has changed.
pub struct Scene {
    alloc: Global,
    config: Config,
    picture: Picture,
    viewers: ViewerList,
}

// Written out, so that who holds one proves one call here, and not the drop of each field.
impl Drop for Scene {
    fn drop(self) {
        let Scene {
            alloc: _alloc,
            config: _config,
            picture: _picture,
            viewers: _viewers,
        } = self;
    }
}

impl Model for Scene {
    ghost use Rattle.std.specs.Map.{values_of};
    ghost use Rattle.scene.specs.Answers.{SceneState};

    ghost Value = { SceneState };

    ghost use Rattle.scene.specs.Consistent.{IsConsistent};

    ghost view = { λ a. record { config = a.config; picture = a.picture; viewers = a.viewers.pairs } };

    ghost invariant = { λ a. IsConsistent a.config a.picture (values_of a.viewers.pairs) };
}

impl Scene {
    /// Returns a picture that is 0 everywhere, with no viewer. Refuses a configuration outside its limits as `BadSize`, `BadName` or
    /// `BadRectLimit`, in this order, and else for want of memory as `OutOfMemory`.
    pub fn new(alloc: Global, config: Config) -> Result<Scene, ScreenError>
        ensures made { IfOk result (λ scene. scene ≡ scene_after config []) }
        ensures refused { MatchOption (config_refusal config) (IsOkUnless result ScreenError.OutOfMemory) (λ e. result ≡ Err e) }
    {
        if let Some(error) = refusal_of(&config) {
            return Err(error);
        }
        let picture = Picture::new(alloc, config.width, config.height)?;
        Ok(Scene {
            alloc,
            config,
            picture,
            viewers: ViewerList::new(alloc),
        })
    }

    /// Sets whether the rectangles of viewers that are alike are encoded once; at first they aren't.
    pub fn share_encodings(&mut self, shares: bool)
        ensures { self.new ≡ self.old }
    {
        self.picture.share(shares);
    }

    /// Returns the screen's columns, 1 to 8192.
    pub fn width(&self) -> u32
        ensures { result ≡ self.now.picture.width }
    {
        self.picture.width()
    }

    /// Returns the screen's rows, 1 to 8192.
    pub fn height(&self) -> u32
        ensures { result ≡ self.now.picture.height }
    {
        self.picture.height()
    }

    /// Returns whether the events are to be kept.
    pub fn history(&self) -> History
        ensures { result ≡ self.now.config.history }
    {
        self.config.history
    }

    /// Returns the colour `0x00RRGGBB` of the place in column `x` of row `y`, unless that is off the screen.
    pub fn colour(&self, x: u32, y: u32) -> Option<u32>
        ensures inside { IsSome result ↔ ((x < self.now.picture.width) × (y < self.now.picture.height)) }
        ensures colour { IfSome result (λ colour. colour ≡ slice_index self.now.picture.colours (y * self.now.picture.width + x)) }
    {
        self.picture.colour(x, y)
    }

    /// Lends the colours `0x00RRGGBB` of the places of row `y`, from the left, unless that is off the screen.
    pub fn row(&self, y: u32) -> Option<&[u32]>
        ensures inside { IsSome result ↔ (y < self.now.picture.height) }
        ensures colours { IfSome result (λ row. row.now ≡
            take self.now.picture.width (drop (y * self.now.picture.width) self.now.picture.colours)) }
    {
        self.picture.row(y)
    }

    /// Returns how many viewers are live: connected, and not closed. A viewer that met a fault is live until it is closed.
    pub fn viewer_count(&self) -> usize
        ensures { result ≡ length self.now.viewers }
    {
        self.viewers.len()
    }

    /// Returns how many entries of drawing stand in the log that the viewers share, besides those that were joined: at most 256, and 0
    /// where no viewer lacks one.
    pub fn log_len(&self) -> usize
        ensures few { result ≤ 256 }
        ensures none { length self.now.viewers ≡ 0 → result ≡ 0 }
    {
        self.viewers.log_len()
    }

    /// Returns the live viewers' numbers, in the order in which they connected.
    pub fn numbers(&self) -> Result<Listed<u64>, AllocError>
        ensures { IfOk result (λ numbers. numbers ≡ keys_of self.now.viewers) }
    {
        Ok(Listed::from_vec(self.viewers.numbers()?))
    }

    /// Returns whether a live viewer has the number.
    pub fn is_live(&self, number: u64) -> bool
        ensures { result ≡ is_some (viewer_at self.now number) }
    {
        self.viewers.has(number)
    }

    /// Returns why a viewer is heard no further, if it met a fault. Refuses a number that no viewer has as `NoViewer`.
    pub fn fault(&self, number: u64) -> Result<Option<Fault>, ScreenError>
        ensures { MatchOption (viewer_at self.now number) (result ≡ Err ScreenError.NoViewer) (λ viewer. result ≡
            Ok (fault_in_rest viewer.heard)) }
    {
        match self.viewers.fault(number) {
            Some(fault) => Ok(fault),
            None => Err(ScreenError::NoViewer),
        }
    }

    /// Returns whether a viewer had its ServerInit (RFC 6143, 7.3.2) and met no fault. Refuses a number that no viewer has as
    /// `NoViewer`.
    pub fn is_open(&self, number: u64) -> Result<bool, ScreenError>
        ensures { MatchOption (viewer_at self.now number) (result ≡ Err ScreenError.NoViewer) (λ viewer. result ≡
            Ok (is_open_rest viewer.heard)) }
    {
        match self.viewers.is_open(number) {
            Some(open) => Ok(open),
            None => Err(ScreenError::NoViewer),
        }
    }

    /// Returns whether a viewer asked for places, and no update of places or of a size was cut for it since: a
    /// FramebufferUpdateRequest (RFC 6143, 7.5.3) of its is unanswered. Refuses a number that no viewer has as `NoViewer`.
    pub fn is_asking(&self, number: u64) -> Result<bool, ScreenError>
        ensures { MatchOption (viewer_at self.now number) (result ≡ Err ScreenError.NoViewer) (λ viewer. result ≡
            Ok (is_asking viewer)) }
    {
        match self.viewers.is_asking(number) {
            Some(is_asking) => Ok(is_asking),
            None => Err(ScreenError::NoViewer),
        }
    }

    /// Returns what a viewer has set by its messages. Refuses a number that no viewer has as `NoViewer`.
    pub fn settings(&self, number: u64) -> Result<Settings, ScreenError>
        ensures { MatchOption (viewer_at self.now number) (result ≡ Err ScreenError.NoViewer) (λ viewer. result ≡
            Ok (settings_of viewer)) }
    {
        match self.viewers.settings(number) {
            Some(settings) => Ok(settings),
            None => Err(ScreenError::NoViewer),
        }
    }

    /// Returns how many requests of a viewer were not incremental. Refuses a number that no viewer has as `NoViewer`.
    pub fn full_requests(&self, number: u64) -> Result<u64, ScreenError>
        ensures { MatchOption (viewer_at self.now number) (result ≡ Err ScreenError.NoViewer) (λ viewer. result ≡
            Ok viewer.full_requests) }
    {
        match self.viewers.full_requests(number) {
            Some(count) => Ok(count),
            None => Err(ScreenError::NoViewer),
        }
    }

    /// Checks a paint: `BadRect` unless 0 <= x1 <= x2 <= width and 0 <= y1 <= y2 <= height, then `BadPixelCount` unless there are as many
    /// colours `0x00RRGGBB`, row by row, as places.
    pub fn check_pixels(&self, rect: Rect, colours: &[u32]) -> Result<(), ScreenError>
        ensures { MatchResult result (λ _. pixels_refusal self.now.picture.width self.now.picture.height rect colours.now ≡ None)
            (λ e. pixels_refusal self.now.picture.width self.now.picture.height rect colours.now ≡ Some e) }
    {
        checked(&self.picture, rect, colours)?;
        Ok(())
    }

    /// Checks a text: `TextTooLong` above 65,536 bytes.
    pub fn check_text(&self, text: &[u8]) -> Result<(), ScreenError>
        ensures { MatchResult result (λ _. text_refusal text.now ≡ None) (λ e. text_refusal text.now ≡ Some e) }
    {
        unless_refused(text_refusal(text))
    }

    /// Checks a size: `BadSize` unless `width` and `height` are 1 to 8192 each, with at most 2^24 places.
    pub fn check_size(&self, width: u32, height: u32) -> Result<(), ScreenError>
        ensures { MatchResult result (λ _. size_refusal width height ≡ None) (λ e. size_refusal width height ≡ Some e) }
    {
        unless_refused(size_refusal(width, height))
    }

    /// Checks that no live viewer has the number: `NumberInUse`.
    pub fn check_free(&self, number: u64) -> Result<(), ScreenError>
        ensures { MatchResult result (λ _. presence (viewer_at self.now number) ≡ None) (λ e. presence (viewer_at self.now number) ≡
            Some e) }
    {
        if self.viewers.has(number) {
            Err(ScreenError::NumberInUse)
        } else {
            Ok(())
        }
    }

    /// Checks that a live viewer has the number: `NoViewer`.
    pub fn check_live(&self, number: u64) -> Result<(), ScreenError>
        ensures { MatchResult result (λ _. absence (viewer_at self.now number) ≡ None) (λ e. absence (viewer_at self.now number) ≡
            Some e) }
    {
        if self.viewers.has(number) {
            Ok(())
        } else {
            Err(ScreenError::NoViewer)
        }
    }

    /// Checks that a live viewer has the number: `NoViewer`. The call for that viewer that follows needs no further look-up.
    pub fn find(&mut self, number: u64) -> Result<(), ScreenError>
        ensures found { MatchResult result (λ _. absence (viewer_at self.old number) ≡ None) (λ e. absence (viewer_at self.old number) ≡
            Some e) }
        ensures same { self.new ≡ self.old }
    {
        if self.viewers.find(number) {
            Ok(())
        } else {
            Err(ScreenError::NoViewer)
        }
    }

    /// Checks an event: returns why it would be refused now, apart from lack of memory.
    pub fn check(&self, event: &Event) -> Result<(), ScreenError>
        ensures { MatchResult result (λ _. refusal self.now event.now ≡ None) (λ e. refusal self.now event.now ≡ Some e) }
    {
        match event {
            Event::Write { rect, colours } => self.check_pixels(*rect, colours.as_slice()),
            Event::Paint { rect, colours } => self.check_pixels(*rect, colours.as_slice()),
            Event::CutText { text } => self.check_text(text.as_slice()),
            Event::Resize { width, height } => self.check_size(*width, *height),
            Event::Connect { viewer } => self.check_free(*viewer),
            Event::Hear { viewer, .. } => self.check_live(*viewer),
            Event::Cut { viewer } => self.check_live(*viewer),
            Event::Close { viewer } => self.check_live(*viewer),
            Event::Mark { .. } => Ok(()),
            Event::ScheduleCopy { .. } => Ok(()),
            Event::DoCopy { .. } => Ok(()),
            Event::Bell => Ok(()),
        }
    }

    /// Replaces the colours of a rectangle by others, `0x00RRGGBB` row by row, whose top bytes are cleared, and owes it to every
    /// viewer. Refuses as `BadRect` unless 0 <= x1 <= x2 <= width and 0 <= y1 <= y2 <= height, then as `BadPixelCount` unless there
    /// are as many colours as places.
    pub fn paint(&mut self, rect: Rect, colours: &[u32]) -> Result<(), ScreenError>
        ensures step { (config : Config) (list : List Event) → self.old ≡ scene_after config list →
            OnOk result (self.new ≡ scene_after config (list ++ Event.Paint rect colours.now ∷ [])) }
        ensures answer { (config : Config) (list : List Event) → self.old ≡ scene_after config list →
            Tells (λ _. nothing_to_say) result (answer_to config list (Event.Paint rect colours.now)) }
        ensures refused { Refuses result (refusal self.old (Event.Paint rect colours.now)) }
        ensures err { OnErr result (self.new ≡ self.old) }
    {
        let block = checked(&self.picture, rect, colours)?;
        if colours.is_empty() || self.viewers.is_empty() {
            self.picture.write(block, colours)?;
            return Ok(());
        }
        let region = region_of_rect(self.alloc, rect);
        self.viewers.prepare()?;
        self.picture.write(block, colours)?;
        self.viewers.commit(LogEntry::Mark(region));
        Ok(())
    }

    /// Replaces the colours of a rectangle by others, `0x00RRGGBB` row by row, whose top bytes are cleared, and tells no viewer:
    /// `mark_rects` and `mark_region` do. Refuses what `paint` refuses.
    pub fn write_pixels(&mut self, rect: Rect, colours: &[u32]) -> Result<(), ScreenError>
        ensures step { (config : Config) (list : List Event) → self.old ≡ scene_after config list →
            OnOk result (self.new ≡ scene_after config (list ++ Event.Write rect colours.now ∷ [])) }
        ensures answer { (config : Config) (list : List Event) → self.old ≡ scene_after config list →
            Tells (λ _. nothing_to_say) result (answer_to config list (Event.Write rect colours.now)) }
        ensures refused { Refuses result (refusal self.old (Event.Write rect colours.now)) }
        ensures err { OnErr result (self.new ≡ self.old) }
    {
        let block = checked(&self.picture, rect, colours)?;
        self.picture.write(block, colours)?;
        Ok(())
    }

    /// Owes the rectangles' places on the screen to every viewer. Corners may stand in the wrong order, anywhere.
    pub fn mark_rects(&mut self, rects: &[Rect]) -> Result<(), ScreenError>
        ensures step { (config : Config) (list : List Event) → self.old ≡ scene_after config list →
            OnOk result (self.new ≡ scene_after config (list ++ Event.Mark rects.now ∷ [])) }
        ensures answer { (config : Config) (list : List Event) → self.old ≡ scene_after config list →
            Tells (λ _. nothing_to_say) result (answer_to config list (Event.Mark rects.now)) }
        ensures refused { IsOkUnless result ScreenError.OutOfMemory }
        ensures err { OnErr result (self.new ≡ self.old) }
    {
        let (width, height) = (self.picture.width(), self.picture.height());
        owe_rects(self.alloc, width, height, &mut self.viewers, rects)?;
        Ok(())
    }

    /// Owes the places of a region that are on the screen to every viewer (`rfbMarkRegionAsModified` of `rfb.h`).
    pub fn mark_region(&mut self, region: &Region) -> Result<(), ScreenError>
        ensures step { (config : Config) (list : List Event) → self.old ≡ scene_after config list →
            OnOk result (self.new ≡ scene_after config (list ++ Event.Mark region.now.list ∷ [])) }
        ensures answer { (config : Config) (list : List Event) → self.old ≡ scene_after config list →
            Tells (λ _. nothing_to_say) result (answer_to config list (Event.Mark region.now.list)) }
        ensures refused { IsOkUnless result ScreenError.OutOfMemory }
        ensures err { OnErr result (self.new ≡ self.old) }
    {
        region.list_is_canonical();
        let (width, height) = (self.picture.width(), self.picture.height());
        owe_region(self.alloc, width, height, &mut self.viewers, region)?;
        Ok(())
    }

    /// Tells each viewer that the rectangles' places get the colours of the places (dx, dy) before them; the picture stays.
    pub fn schedule_copy(&mut self, rects: &[Rect], dx: i32, dy: i32) -> Result<(), ScreenError>
        ensures step { (config : Config) (list : List Event) → self.old ≡ scene_after config list →
            OnOk result (self.new ≡ scene_after config (list ++ Event.ScheduleCopy rects.now dx dy ∷ [])) }
        ensures answer { (config : Config) (list : List Event) → self.old ≡ scene_after config list →
            Tells (λ _. nothing_to_say) result (answer_to config list (Event.ScheduleCopy rects.now dx dy)) }
        ensures refused { IsOkUnless result ScreenError.OutOfMemory }
        ensures err { OnErr result (self.new ≡ self.old) }
    {
        if self.viewers.is_empty() {
            return Ok(());
        }
        let (width, height) = (self.picture.width(), self.picture.height());
        let pieces = destinations(self.alloc, rects, dx, dy, width, height)?;
        if moves_nothing(&pieces, (dx, dy)) {
            return Ok(());
        }
        let region = region_of(self.alloc, &pieces)?;
        tell(&mut self.viewers, LogEntry::Copy { region, dx, dy })?;
        Ok(())
    }

    /// Gives the rectangles' places the colours of the places (dx, dy) before them, and tells each viewer.
    pub fn do_copy(&mut self, rects: &[Rect], dx: i32, dy: i32) -> Result<(), ScreenError>
        ensures step { (config : Config) (list : List Event) → self.old ≡ scene_after config list →
            OnOk result (self.new ≡ scene_after config (list ++ Event.DoCopy rects.now dx dy ∷ [])) }
        ensures answer { (config : Config) (list : List Event) → self.old ≡ scene_after config list →
            Tells (λ _. nothing_to_say) result (answer_to config list (Event.DoCopy rects.now dx dy)) }
        ensures refused { IsOkUnless result ScreenError.OutOfMemory }
        ensures err { OnErr result (self.new ≡ self.old) }
    {
        let (width, height) = (self.picture.width(), self.picture.height());
        let pieces = destinations(self.alloc, rects, dx, dy, width, height)?;
        if moves_nothing(&pieces, (dx, dy)) {
            return Ok(());
        }
        if self.viewers.is_empty() {
            self.picture.move_colours(&pieces, (dx, dy))?;
            return Ok(());
        }
        let region = region_of(self.alloc, &pieces)?;
        self.viewers.prepare()?;
        self.picture.move_colours(&pieces, (dx, dy))?;
        self.viewers.commit(LogEntry::Copy { region, dx, dy });
        Ok(())
    }

    /// Does what `schedule_copy` does for the places of a region.
    fn schedule_copy_region(&mut self, region: &Region, dx: i32, dy: i32) -> Result<(), ScreenError>
        ensures step { (config : Config) (list : List Event) → self.old ≡ scene_after config list →
            OnOk result (self.new ≡ scene_after config (list ++ Event.ScheduleCopy region.now.list dx dy ∷ [])) }
        ensures answer { (config : Config) (list : List Event) → self.old ≡ scene_after config list →
            Tells (λ _. nothing_to_say) result (answer_to config list (Event.ScheduleCopy region.now.list dx dy)) }
        ensures refused { IsOkUnless result ScreenError.OutOfMemory }
        ensures err { OnErr result (self.new ≡ self.old) }
    {
        let rects = region.rects(false, false)?;
        self.schedule_copy(rects.as_slice(), dx, dy)
    }

    /// Does what `do_copy` does for the places of a region.
    fn do_copy_region(&mut self, region: &Region, dx: i32, dy: i32) -> Result<(), ScreenError>
        ensures step { (config : Config) (list : List Event) → self.old ≡ scene_after config list →
            OnOk result (self.new ≡ scene_after config (list ++ Event.DoCopy region.now.list dx dy ∷ [])) }
        ensures answer { (config : Config) (list : List Event) → self.old ≡ scene_after config list →
            Tells (λ _. nothing_to_say) result (answer_to config list (Event.DoCopy region.now.list dx dy)) }
        ensures refused { IsOkUnless result ScreenError.OutOfMemory }
        ensures err { OnErr result (self.new ≡ self.old) }
    {
        let rects = region.rects(false, false)?;
        self.do_copy(rects.as_slice(), dx, dy)
    }

    /// Keeps a bell for every open viewer for which fewer than 64 notices wait (`rfbSendBell` of `rfb.h`).
    pub fn bell(&mut self) -> Result<(), ScreenError>
        ensures step { (config : Config) (list : List Event) → self.old ≡ scene_after config list →
            OnOk result (self.new ≡ scene_after config (list ++ Event.Bell ∷ [])) }
        ensures answer { (config : Config) (list : List Event) → self.old ≡ scene_after config list →
            Tells (λ _. nothing_to_say) result (answer_to config list (Event.Bell)) }
        ensures refused { IsOkUnless result ScreenError.OutOfMemory }
        ensures err { OnErr result (self.new ≡ self.old) }
    {
        self.viewers.ring();
        Ok(())
    }

    /// Keeps a text for every open viewer for which fewer than 64 notices wait (`rfbSendServerCutText` of `rfb.h`). Refuses more
    /// than 65,536 bytes as `TextTooLong`.
    pub fn cut_text(&mut self, text: &[u8]) -> Result<(), ScreenError>
        ensures step { (config : Config) (list : List Event) → self.old ≡ scene_after config list →
            OnOk result (self.new ≡ scene_after config (list ++ Event.CutText text.now ∷ [])) }
        ensures answer { (config : Config) (list : List Event) → self.old ≡ scene_after config list →
            Tells (λ _. nothing_to_say) result (answer_to config list (Event.CutText text.now)) }
        ensures refused { Refuses result (refusal self.old (Event.CutText text.now)) }
        ensures err { OnErr result (self.new ≡ self.old) }
    {
        unless_refused(text_refusal(text))?;
        self.viewers.text(text)?;
        Ok(())
    }

    /// Replaces the picture by one of `width` columns and `height` rows that is 0 everywhere (`rfbNewFramebuffer` of `rfb.h`). Owes
    /// every place to every viewer; those that list DesktopSize are told the size when they ask next. Refuses as `BadSize` unless
    /// each is 1 to 8192, with at most 2^24 places.
    pub fn new_framebuffer(&mut self, width: u32, height: u32) -> Result<(), ScreenError>
        ensures step { (config : Config) (list : List Event) → self.old ≡ scene_after config list →
            OnOk result (self.new ≡ scene_after config (list ++ Event.Resize width height ∷ [])) }
        ensures answer { (config : Config) (list : List Event) → self.old ≡ scene_after config list →
            Tells (λ _. nothing_to_say) result (answer_to config list (Event.Resize width height)) }
        ensures refused { Refuses result (refusal self.old (Event.Resize width height)) }
        ensures err { OnErr result (self.new ≡ self.old) }
    {
        unless_refused(size_refusal(width, height))?;
        let mut picture = Picture::new(self.alloc, width, height)?;
        picture.share(self.picture.shares());
        self.viewers.resize(width as u16, height as u16)?;
        self.picture = picture;
        Ok(())
    }

    /// Does a drawing call: one of the calls above, as a value.
    pub fn draw(&mut self, drawing: &Drawing<'_>) -> Result<(), ScreenError>
        ensures step { (config : Config) (list : List Event) → self.old ≡ scene_after config list →
            OnOk result (self.new ≡ scene_after config (list ++ event_of drawing.now ∷ [])) }
        ensures answer { (config : Config) (list : List Event) → self.old ≡ scene_after config list →
            Tells (λ _. nothing_to_say) result (answer_to config list (event_of drawing.now)) }
        ensures refused { Refuses result (refusal self.old (event_of drawing.now)) }
        ensures err { OnErr result (self.new ≡ self.old) }
    {
        match drawing {
            Drawing::Write { rect, colours } => self.write_pixels(*rect, colours),
            Drawing::Paint { rect, colours } => self.paint(*rect, colours),
            Drawing::MarkRect(rect) => self.mark_rects(&[*rect]),
            Drawing::MarkRegion(region) => self.mark_region(region),
            Drawing::ScheduleCopyRect { rect, dx, dy } => self.schedule_copy(&[*rect], *dx, *dy),
            Drawing::ScheduleCopyRegion { region, dx, dy } => {
                self.schedule_copy_region(region, *dx, *dy)
            }
            Drawing::DoCopyRect { rect, dx, dy } => self.do_copy(&[*rect], *dx, *dy),
            Drawing::DoCopyRegion { region, dx, dy } => self.do_copy_region(region, *dx, *dy),
            Drawing::Bell => self.bell(),
            Drawing::CutText(text) => self.cut_text(text),
            Drawing::NewFramebuffer { width, height } => self.new_framebuffer(*width, *height),
        }
    }

    /// Lets a viewer connect, and returns the server's version for it (RFC 6143, 7.1.1). Refuses the number of a live viewer as
    /// `NumberInUse`.
    pub fn connect(&mut self, number: u64) -> Result<Listed<u8>, ScreenError>
        ensures step { (config : Config) (list : List Event) → self.old ≡ scene_after config list →
            OnOk result (self.new ≡ scene_after config (list ++ Event.Connect number ∷ [])) }
        ensures answer { (config : Config) (list : List Event) → self.old ≡ scene_after config list →
            Tells gives result (answer_to config list (Event.Connect number)) }
        ensures version { IfOk result (λ bytes. bytes ≡ server_version) }
        ensures refused { Refuses result (presence (viewer_at self.old number)) }
        ensures err { OnErr result (self.new ≡ self.old) }
    {
        if self.viewers.has(number) {
            return Err(ScreenError::NumberInUse);
        }
        let (width, height) = (self.picture.width(), self.picture.height());
        Ok(let_in(self.alloc, width, height, &mut self.viewers, number)?)
    }

    /// Closes a viewer's connection. Refuses a number that no viewer has as `NoViewer`.
    pub fn close(&mut self, number: u64) -> Result<(), ScreenError>
        ensures step { (config : Config) (list : List Event) → self.old ≡ scene_after config list →
            self.new ≡ scene_after config (list ++ Event.Close number ∷ []) }
        ensures answer { (config : Config) (list : List Event) → self.old ≡ scene_after config list →
            as_answer (λ _. nothing_to_say) result ≡ answer_to config list (Event.Close number) }
        ensures refused { MatchOption (absence (viewer_at self.old number)) (IsOk result) (λ e. result ≡ Err e) }
        ensures err { OnErr result (self.new ≡ self.old) }
    {
        let removed = self.remove(number);
        self.let_picture_rest();
        removed
    }

    /// Removes a viewer. Refuses a number that no viewer has as `NoViewer`.
    fn remove(&mut self, number: u64) -> Result<(), ScreenError>
        ensures step { (config : Config) (list : List Event) → self.old ≡ scene_after config list →
            self.new ≡ scene_after config (list ++ Event.Close number ∷ []) }
        ensures answer { (config : Config) (list : List Event) → self.old ≡ scene_after config list →
            as_answer (λ _. nothing_to_say) result ≡ answer_to config list (Event.Close number) }
        ensures refused { MatchOption (absence (viewer_at self.old number)) (IsOk result) (λ e. result ≡ Err e) }
        ensures err { OnErr result (self.new ≡ self.old) }
    {
        match self.viewers.remove(number) {
            Ok(_) => Ok(()),
            Err(_) => Err(ScreenError::NoViewer),
        }
    }

    /// Lets go what was encoded for several viewers, if no viewer is left.
    fn let_picture_rest(&mut self)
        ensures { self.new ≡ self.old }
    {
        if self.viewers.is_empty() {
            self.picture.rest();
        }
    }

    /// Hears a piece of a viewer's bytes (RFC 6143, 7.1 to 7.5), and returns what it is answered, what it tells the application,
    /// and why it is heard no further. Refuses a number that no viewer has as `NoViewer`.
    pub fn hear(&mut self, number: u64, piece: &[u8]) -> Result<Answer, ScreenError>
        ensures step { (config : Config) (list : List Event) → self.old ≡ scene_after config list →
            OnOk result (self.new ≡ scene_after config (list ++ Event.Hear number piece.now ∷ [])) }
        ensures answer { (config : Config) (list : List Event) → self.old ≡ scene_after config list →
            Tells (λ a. a) result (answer_to config list (Event.Hear number piece.now)) }
        ensures refused { Refuses result (absence (viewer_at self.old number)) }
        ensures accepted { IfOk result (λ answer. answer.refused ≡ None) }
        ensures err { OnErr result (self.new ≡ self.old) }
    {
        self.find(number)?;
        let name = self.config.name.as_slice();
        let reply = self.viewers.hear(number, name, piece)?;
        Ok(with_reply(reply))
    }

    /// Returns whether a cut now would give something. Refuses a number that no viewer has as `NoViewer`.
    pub fn pending(&self, number: u64) -> Result<bool, ScreenError>
        ensures answer { (config : Config) (list : List Event) → self.now ≡ scene_after config list →
            result ≡ something_to_send (answer_to config list (Event.Cut number)) }
        ensures refused { MatchOption (absence (viewer_at self.now number)) (IsOk result) (λ e. result ≡ Err e) }
    {
        let Some(pending) = self.viewers.is_pending(number) else {
            return Err(ScreenError::NoViewer);
        };
        Ok(pending)
    }

    /// Encodes a piece of what several viewers want, if encodings are shared and the viewer would be sent that next. Returns `None`
    /// if the viewer is best cut now. Else more is left to be encoded, and its cut better waits; the number is another if what it
    /// waited for is lost. No byte depends on it.
    #[inline(always)]
    pub fn encode_ahead(&mut self, number: u64) -> Option<u64>
        ensures { self.new ≡ self.old }
    {
        if !self.picture.is_expecting() {
            return None;
        }
        self.look_ahead(number)
    }

    /// Looks ahead for a viewer, where some update is likely to be wanted by several: an update is prepared, of which the picture
    /// encodes a piece in place of giving it, and which is refused before the viewer changes.
    #[inline(never)]
    fn look_ahead(&mut self, number: u64) -> Option<u64>
        ensures { self.new ≡ self.old }
    {
        let Ok(()) = self.find(number) else {
            return None;
        };
        self.picture.look_ahead();
        let refuse = |_prepared: &PreparedUpdate| -> Result<(), AllocError>
            ensures { IsErr result }
        { Err(AllocError) };
        let _nothing = self.cut_with(number, refuse);
        self.picture.more_ahead()
    }

    /// Cuts an update for a live viewer: returns its rectangles, with their colours as they stand, with what `before` made of it
    /// before the viewer changed; `None` if there is nothing to send. After an `AllocError`, also of `before`, nothing has changed.
    pub fn cut_with<T, F: FnOnce(&PreparedUpdate) -> Result<T, AllocError>>(
        &mut self,
        number: u64,
        before: F,
    ) -> Result<Option<(Update, T)>, AllocError>
        requires there { absence (viewer_at self.old number) ≡ None }
        requires callable { F.IsAlwaysCallable before }
        ensures step { (config : Config) (list : List Event) → self.old ≡ scene_after config list →
            OnOk result (self.new ≡ scene_after config (list ++ Event.Cut number ∷ [])) }
        ensures answer { (config : Config) (list : List Event) → self.old ≡ scene_after config list →
            IfOk result (λ cut. gives (bytes_given (option_map (λ c. c.0) cut)) ≡ answer_to config list (Event.Cut number)) }
        ensures some { IfOk result (λ cut. IfSome cut (λ c. c.0 ≢ [])) }
        ensures made { IfOk result (λ cut. IfSome cut (IsMadeBefore F.FnOnce before)) }
        ensures none { IfOk result (λ cut. cut ≡ None → self.new ≡ self.old) }
        ensures err { OnErr result (self.new ≡ self.old) }
    {
        let limit = self.config.rects_per_update;
        self.viewers
            .cut_with(number, &mut self.picture, limit, before)
    }

    /// Cuts an update for a viewer, and returns its bytes, which are encoded before the viewer changes; no bytes if there is
    /// nothing to send. Refuses a number that no viewer has as `NoViewer`.
    fn cut_bytes(&mut self, number: u64) -> Result<Listed<u8>, ScreenError>
        ensures step { (config : Config) (list : List Event) → self.old ≡ scene_after config list →
            OnOk result (self.new ≡ scene_after config (list ++ Event.Cut number ∷ [])) }
        ensures answer { (config : Config) (list : List Event) → self.old ≡ scene_after config list →
            Tells gives result (answer_to config list (Event.Cut number)) }
        ensures refused { Refuses result (absence (viewer_at self.old number)) }
        ensures err { OnErr result (self.new ≡ self.old) }
    {
        self.find(number)?;
        let encode = |prepared: &PreparedUpdate| -> Result<Vec<u8>, AllocError>
            ensures { IfOk result (λ bytes. bytes.items ≡ prepared_bytes (Some prepared.now)) }
        { prepared.encode() };
        match self.cut_with(number, encode)? {
            Some((_, bytes)) => Ok(Listed::from_vec(bytes)),
            None => Ok(Listed::new(self.alloc)),
        }
    }

    /// Does an event, or returns why it is refused.
    fn step(&mut self, event: &Event) -> Result<Answer, ScreenError>
        ensures step { (config : Config) (list : List Event) → self.old ≡ scene_after config list →
            OnOk result (self.new ≡ scene_after config (list ++ event.now ∷ [])) }
        ensures answer { (config : Config) (list : List Event) → self.old ≡ scene_after config list →
            Tells (λ a. a) result (answer_to config list event.now) }
        ensures refused { Refuses result (refusal self.old event.now) }
        ensures accepted { IfOk result (λ answer. answer.refused ≡ None) }
        ensures err { OnErr result (self.new ≡ self.old) }
    {
        let alloc = self.alloc;
        match event {
            Event::Write { rect, colours } => {
                let written = self.write_pixels(*rect, colours.as_slice());
                with_nothing(alloc, written)
            }
            Event::Paint { rect, colours } => {
                let painted = self.paint(*rect, colours.as_slice());
                with_nothing(alloc, painted)
            }
            Event::Mark { rects } => {
                let marked = self.mark_rects(rects.as_slice());
                with_nothing(alloc, marked)
            }
            Event::ScheduleCopy { rects, dx, dy } => {
                let scheduled = self.schedule_copy(rects.as_slice(), *dx, *dy);
                with_nothing(alloc, scheduled)
            }
            Event::DoCopy { rects, dx, dy } => {
                let copied = self.do_copy(rects.as_slice(), *dx, *dy);
                with_nothing(alloc, copied)
            }
            Event::Bell => {
                let rung = self.bell();
                with_nothing(alloc, rung)
            }
            Event::CutText { text } => {
                let told = self.cut_text(text.as_slice());
                with_nothing(alloc, told)
            }
            Event::Resize { width, height } => {
                let resized = self.new_framebuffer(*width, *height);
                with_nothing(alloc, resized)
            }
            Event::Connect { viewer } => {
                let version = self.connect(*viewer);
                with_bytes(alloc, version)
            }
            Event::Hear { viewer, piece } => self.hear(*viewer, piece.as_slice()),
            Event::Cut { viewer } => {
                let bytes = self.cut_bytes(*viewer);
                with_bytes(alloc, bytes)
            }
            Event::Close { viewer } => {
                let closed = self.close(*viewer);
                with_nothing(alloc, closed)
            }
        }
    }

    /// Does an event. A refusal for another reason than lack of memory stands in the answer, and then nothing has changed; a Cut
    /// gives the encoded bytes, or none.
    pub fn apply(&mut self, event: &Event) -> Result<Answer, AllocError>
        ensures step { (config : Config) (list : List Event) → self.old ≡ scene_after config list →
            OnOk result (self.new ≡ scene_after config (list ++ event.now ∷ [])) }
        ensures answer { (config : Config) (list : List Event) → self.old ≡ scene_after config list →
            MatchResult result (λ answer. answer ≡ answer_to config list event.now)
            (λ _. (answer_to config list event.now).refused ≡ None) }
        ensures refused { MatchResult result (λ answer. answer.refused ≡ refusal self.old event.now)
            (λ _. refusal self.old event.now ≡ None) }
        ensures unchanged { IfOk result (λ answer. answer.refused ≢ None → self.new ≡ self.old) }
        ensures err { OnErr result (self.new ≡ self.old) }
    {
        let given = self.step(event);
        settled(self.alloc, given)
    }
}
