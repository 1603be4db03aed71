//! The lines.

ghost use Rattle.std.specs.Prelude.{◌≡◌, ◌∷◌, ◌++◌, [], false, IfOk, codes, flat_map};
ghost use Rattle.std.specs.Fmt.{decimal};
ghost use Rattle.scribe.specs.Scribing.{IsScribed, Puts, StaysBroken};
ghost use Rattle.scene.specs.Calls.{event_of};
ghost use Rattle.scene.specs.declared.Event.{Event};
ghost use Rattle.recorder.specs.Events.{copy_line, event_line, line_of, mark_line, offset_words, screen_line, screen_words};
ghost use Rattle.recorder.specs.Words.{corner_words, hex_word, name_word, pixels_word, place_words, spaced};

use crate::words::{
    is_plain_name, put_bytes, put_corners, put_name, put_number, put_pair, put_pixels, put_places,
    put_rects,
};
use region::{Rect, Region};
use scene::{Config, Drawing};
use scribe::Scribe;
use std::alloc::{AllocError, Global};
use std::io::Write;
use std::marker::Model;

/// What happens to a screen, written line by line.
///
/// Each call's contract says what it puts (`Puts`): the event's line, whole. No call fails; where a write fails, or memory is refused for
/// a region's rectangles, this line's end and all that would follow are lost (`is_broken`).
#[derive(Drop)]
pub struct Recorder<W: Write + Drop> {
    scribe: Scribe<W>,
}

impl<W: Write + Drop> Model for Recorder<W> {
    ghost use Rattle.scribe.specs.Scribing.{Scribed};

    ghost Value = { Scribed };

    ghost view = { λ a. a.scribe };
}

/// By how much a copy's source lies before its rectangles.
#[derive(Clone, Copy)]
struct Offset {
    dx: i32,
    dy: i32,
}

impl<W: Write + Drop> Recorder<W> {
    /// Makes a recorder of a screen with this configuration, and puts its line. This takes memory for a buffer; later none is taken but
    /// for the rectangles of a region.
    pub fn new(alloc: Global, writer: W, config: &Config) -> Result<Recorder<W>, AllocError>
        ensures { IfOk result (λ r. IsScribed (W.contents writer) (screen_line config.now) r) }
    {
        let mut recorder = Recorder {
            scribe: Scribe::new(alloc, writer)?,
        };
        recorder.put_config(config);
        Ok(recorder)
    }

    /// Puts the line of a drawing call that happened.
    #[inline(never)]
    pub fn drew(&mut self, drawing: &Drawing<'_>)
        ensures { Puts (event_line (event_of drawing.now)) self.old self.new }
    {
        match drawing {
            Drawing::Write { rect, colours } => self.put_colours(b"write", *rect, colours),
            Drawing::Paint { rect, colours } => self.put_colours(b"paint", *rect, colours),
            Drawing::MarkRect(rect) => self.put_mark(*rect),
            Drawing::MarkRegion(region) => self.put_marked(region),
            Drawing::ScheduleCopyRect { rect, dx, dy } => {
                self.put_copy(b"schedule", *rect, Offset { dx: *dx, dy: *dy })
            }
            Drawing::ScheduleCopyRegion { region, dx, dy } => {
                self.put_copied(
                    b"schedule",
                    b"schedules",
                    region,
                    Offset { dx: *dx, dy: *dy },
                )
            }
            Drawing::DoCopyRect { rect, dx, dy } => {
                self.put_copy(b"docopy", *rect, Offset { dx: *dx, dy: *dy })
            }
            Drawing::DoCopyRegion { region, dx, dy } => {
                self.put_copied(b"docopy", b"docopies", region, Offset { dx: *dx, dy: *dy })
            }
            Drawing::Bell => self.put_bell(),
            Drawing::CutText(text) => self.put_text(text),
            Drawing::NewFramebuffer { width, height } => self.put_resize(*width, *height),
        }
    }

    /// Puts the line of a viewer that connected.
    #[inline(never)]
    pub fn connected(&mut self, viewer: u64)
        ensures { Puts (event_line (Event.Connect viewer)) self.old self.new }
    {
        self.put_command(b"connect");
        put_number(&mut self.scribe, viewer);
        self.end_line();
    }

    /// Puts the line of a piece of a viewer's bytes that was heard.
    #[inline(never)]
    pub fn heard(&mut self, viewer: u64, piece: &[u8])
        ensures { Puts (event_line (Event.Hear viewer piece.now)) self.old self.new }
    {
        self.put_command(b"hear");
        put_number(&mut self.scribe, viewer);
        put_bytes(&mut self.scribe, piece);
        self.end_line();
    }

    /// Puts the line of an update that was cut for a viewer.
    #[inline(never)]
    pub fn cut(&mut self, viewer: u64)
        ensures { Puts (event_line (Event.Cut viewer)) self.old self.new }
    {
        self.put_command(b"cut");
        put_number(&mut self.scribe, viewer);
        self.end_line();
    }

    /// Puts the line of a viewer's connection that was closed.
    #[inline(never)]
    pub fn closed(&mut self, viewer: u64)
        ensures { Puts (event_line (Event.Close viewer)) self.old self.new }
    {
        self.put_command(b"close");
        put_number(&mut self.scribe, viewer);
        self.end_line();
    }

    /// Writes what waits. The writer itself isn't flushed.
    pub fn flush(&mut self)
        ensures puts { Puts [] self.old self.new }
        ensures flushed { self.new.broken ≡ false → self.new.waiting ≡ [] }
        ensures ended { StaysBroken self.old self.new }
    {
        self.scribe.flush();
    }

    /// Returns whether the session ends before what happened last: a write failed, or memory for the rectangles of a region was refused.
    /// Then nothing is written any more.
    pub fn is_broken(&self) -> bool
        ensures { result ≡ self.now.broken }
    {
        self.scribe.is_broken()
    }

    /// Lends the writer, to be looked at.
    pub fn writer(&self) -> &W
        ensures { W.contents result.now ≡ self.now.held }
    {
        self.scribe.writer()
    }

    /// Puts a line's command.
    fn put_command(&mut self, command: &[u8])
        ensures { Puts command.now self.old self.new }
    {
        self.scribe.put(command);
    }

    /// Puts a line's end.
    fn end_line(&mut self)
        ensures { Puts (codes "\n") self.old self.new }
    {
        self.scribe.put(b"\n");
    }

    /// Puts a size.
    fn put_size(&mut self, width: u32, height: u32)
        ensures { Puts (spaced (decimal width ∷ decimal height ∷ [])) self.old self.new }
    {
        put_number(&mut self.scribe, u64::from(width));
        put_number(&mut self.scribe, u64::from(height));
    }

    /// Puts a name that a script's line can say, and how many rectangles an update has at most.
    fn put_plain_name(&mut self, name: &[u8], limit: u32)
        ensures { Puts (spaced (name_word name.now ∷ decimal limit ∷ [])) self.old self.new }
    {
        put_name(&mut self.scribe, name);
        put_number(&mut self.scribe, u64::from(limit));
    }

    /// Puts any name by its bytes' digits, and how many rectangles an update has at most.
    fn put_hex_name(&mut self, name: &[u8], limit: u32)
        ensures { Puts (spaced (hex_word name.now ∷ decimal limit ∷ [])) self.old self.new }
    {
        put_bytes(&mut self.scribe, name);
        put_number(&mut self.scribe, u64::from(limit));
    }

    /// Puts the line of a configuration whose name a script's line can say.
    fn put_screen(&mut self, config: &Config)
        ensures { Puts (line_of (codes "screen") (screen_words (name_word config.now.name) config.now)) self.old self.new }
    {
        self.put_command(b"screen");
        self.put_size(config.width, config.height);
        self.put_plain_name(config.name.as_slice(), config.rects_per_update);
        self.end_line();
    }

    /// Puts the line of a configuration with any name.
    fn put_desktop(&mut self, config: &Config)
        ensures { Puts (line_of (codes "desktop") (screen_words (hex_word config.now.name) config.now)) self.old self.new }
    {
        self.put_command(b"desktop");
        self.put_size(config.width, config.height);
        self.put_hex_name(config.name.as_slice(), config.rects_per_update);
        self.end_line();
    }

    /// Puts the line of a configuration.
    fn put_config(&mut self, config: &Config)
        ensures { Puts (screen_line config.now) self.old self.new }
    {
        if is_plain_name(config.name.as_slice()) {
            self.put_screen(config);
        } else {
            self.put_desktop(config);
        }
    }

    /// Puts the line of colours that were drawn in a rectangle.
    fn put_colours(&mut self, command: &[u8], rect: Rect, colours: &[u32])
        ensures { Puts (line_of command.now (place_words rect ++ pixels_word colours.now ∷ [])) self.old self.new }
    {
        self.put_command(command);
        put_places(&mut self.scribe, rect);
        put_pixels(&mut self.scribe, colours);
        self.end_line();
    }

    /// Puts the line of a rectangle that was marked.
    fn put_mark(&mut self, rect: Rect)
        ensures { Puts (mark_line (rect ∷ [])) self.old self.new }
    {
        self.put_command(b"mark");
        put_corners(&mut self.scribe, rect);
        self.end_line();
    }

    /// Puts the line of rectangles that were marked at once, but for one alone.
    fn put_marks(&mut self, rects: &[Rect])
        ensures { Puts (line_of (codes "marks") (flat_map corner_words rects.now)) self.old self.new }
    {
        self.put_command(b"marks");
        put_rects(&mut self.scribe, rects);
        self.end_line();
    }

    /// Puts the line of rectangles that were marked at once.
    fn put_mark_line(&mut self, rects: &[Rect])
        ensures { Puts (mark_line rects.now) self.old self.new }
    {
        match rects {
            [rect] => self.put_mark(*rect),
            _ => self.put_marks(rects),
        }
    }

    /// Puts the line of a region that was marked.
    fn put_marked(&mut self, region: &Region)
        ensures { Puts (mark_line region.now.list) self.old self.new }
    {
        match region.rects(false, false) {
            Ok(rects) => self.put_mark_line(rects.as_slice()),
            Err(_) => self.scribe.break_off(),
        }
    }

    /// Puts an offset.
    fn put_offset(&mut self, offset: Offset)
        ensures { Puts (spaced (offset_words offset.dx offset.dy)) self.old self.new }
    {
        put_pair(&mut self.scribe, offset.dx, offset.dy);
    }

    /// Puts the line of a rectangle that was copied.
    fn put_copy(&mut self, command: &[u8], rect: Rect, offset: Offset)
        ensures { Puts (line_of command.now (corner_words rect ++ offset_words offset.dx offset.dy)) self.old self.new }
    {
        self.put_command(command);
        put_corners(&mut self.scribe, rect);
        self.put_offset(offset);
        self.end_line();
    }

    /// Puts the line of rectangles that were copied at once, but for one alone.
    fn put_copies(&mut self, command: &[u8], rects: &[Rect], offset: Offset)
        ensures { Puts (line_of command.now (flat_map corner_words rects.now ++ offset_words offset.dx offset.dy)) self.old self.new }
    {
        self.put_command(command);
        put_rects(&mut self.scribe, rects);
        self.put_offset(offset);
        self.end_line();
    }

    /// Puts the line of rectangles that were copied at once, by one command for a rectangle alone and by another for others.
    fn put_copy_line(&mut self, one: &[u8], many: &[u8], rects: &[Rect], offset: Offset)
        ensures { Puts (copy_line one.now many.now rects.now offset.dx offset.dy) self.old self.new }
    {
        match rects {
            [rect] => self.put_copy(one, *rect, offset),
            _ => self.put_copies(many, rects, offset),
        }
    }

    /// Puts the line of a region that was copied.
    fn put_copied(&mut self, one: &[u8], many: &[u8], region: &Region, offset: Offset)
        ensures { Puts (copy_line one.now many.now region.now.list offset.dx offset.dy) self.old self.new }
    {
        match region.rects(false, false) {
            Ok(rects) => self.put_copy_line(one, many, rects.as_slice(), offset),
            Err(_) => self.scribe.break_off(),
        }
    }

    /// Puts the line of a bell.
    fn put_bell(&mut self)
        ensures { Puts (event_line Event.Bell) self.old self.new }
    {
        self.put_command(b"bell");
        self.end_line();
    }

    /// Puts the line of a text for all viewers.
    fn put_text(&mut self, text: &[u8])
        ensures { Puts (event_line (Event.CutText text.now)) self.old self.new }
    {
        self.put_command(b"cuttext");
        put_bytes(&mut self.scribe, text);
        self.end_line();
    }

    /// Puts the line of a new size.
    fn put_resize(&mut self, width: u32, height: u32)
        ensures { Puts (event_line (Event.Resize width height)) self.old self.new }
    {
        self.put_command(b"resize");
        self.put_size(width, height);
        self.end_line();
    }
}
