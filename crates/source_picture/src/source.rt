//! A source's picture as it comes.

ghost use Rattle.std.specs.Prelude.{◌≡◌, ◌<◌, true, false, [], List, None, IfOk, IfErr, IfSome, IfNone, OnOk, option_map};
ghost use Rattle.screen.specs.declared.Config.{Config};
ghost use Rattle.screen.specs.declared.Event.{Event};
ghost use Rattle.screen.specs.Alone.{config_refusal, is_size};
ghost use Rattle.screen.specs.State.{state};
ghost use Rattle.connections.specs.Drawing.{Draws};
ghost use Rattle.server_reader.specs.Steps.{work_left, awaits_bytes};
ghost use Rattle.source_picture.specs.Mirroring.{SourceView, begun, is_owing, cost_of, IsShare, ReadsNext, MirrorsNext, IsMirrored, GoesOnMirroring, HasEnded};
ghost use Rattle.source_picture.specs.Bands.{with_band};

use crate::asking::Asking;
use crate::painter::Painter;
use connections::{Canvas, ScreenError};
use server_reader::{ReadFault, Reader, Step};
use std::alloc::Global;
use std::marker::Model;

/// How much work is done of a piece before what else there is to do has its turn.
const SHARE: u32 = 65_536;

/// What is to be requested of a source (RFC 6143, 7.5.3).
#[derive(Clone, Copy, PartialEq, Eq)]
pub enum Request {
    /// Nothing: the last request is to be answered first.
    None,
    /// What changes.
    Changes,
    /// All of the picture.
    All,
}

/// Why no more is drawn of a source.
#[derive(Clone, Copy)]
pub enum DrawEnd {
    /// What it says is no message.
    Fault(ReadFault),
    /// Its picture would have a size beyond a screen's limits: 1 to 8192 columns and rows, at most 2^24 places.
    Size,
    /// Memory was refused.
    Memory,
}

/// Returns the end that a refusal of a step is: a reader's steps are refused for memory, and else for a size.
fn end_of(refused: ScreenError) -> DrawEnd
    ensures memory { refused ≡ ScreenError.OutOfMemory → result ≡ DrawEnd.Memory }
    ensures read { (fault : ReadFault) → result ≡ DrawEnd.Fault fault → ⊥ }
{
    match refused {
        ScreenError::OutOfMemory => DrawEnd::Memory,
        _ => DrawEnd::Size,
    }
}

/// What is left of a piece behind a step, and how much work the step was.
#[derive(Clone, Copy)]
struct Drawn<'a> {
    rest: &'a [u8],
    cost: u32,
}

/// Returns how much work a step is: as many places as it draws, and 64 more.
fn cost_of(step: Step<'_>) -> u32
    ensures { result ≡ cost_of step.entry }
{
    let places = match step {
        Step::Pixels { area, .. } | Step::Fill { area, .. } | Step::Copy { area, .. } => {
            u32::from(area.w) * u32::from(area.h)
        }
        _ => 0,
    };
    places + 64
}

/// A source's picture as it comes: what of its bytes isn't a step yet, what is asked of it, and its text.
#[derive(Drop)]
pub struct SourcePicture {
    reader: Reader,
    painter: Painter,
    asking: Asking,
}

impl Model for SourcePicture {
    ghost use Rattle.source_picture.specs.Mirroring.{SourceView};

    ghost Value = { SourceView };

    ghost view = { λ a. record { reader = a.reader; asking = a.asking; text = a.painter.text; waiting = a.painter.band } };
}

impl SourcePicture {
    /// Returns the picture of a source behind its ServerInit, which told `width` columns and `height` rows (RFC 6143, 7.3.2): nothing of it
    /// is shown, and all is to be requested.
    pub fn new(alloc: Global, width: u16, height: u16) -> SourcePicture
        ensures { result ≡ begun width height }
    {
        SourcePicture {
            reader: Reader::new(width, height),
            painter: Painter::new(alloc),
            asking: Asking::first(),
        }
    }

    /// Returns the picture's columns and rows, as they were told last.
    pub fn size(&self) -> (u16, u16)
        ensures { result ≡ (self.now.reader.state.size.width, self.now.reader.state.size.height) }
    {
        self.reader.size()
    }

    /// Returns whether the source owes more: its first update hasn't come whole, or a message is in the middle.
    pub fn is_owing(&self) -> bool
        ensures { result ≡ is_owing self.now }
    {
        !self.asking.has_update || !self.reader.is_between_messages()
    }

    /// Returns what is to be requested next.
    pub fn request(&self) -> Request
        ensures { result ≡ self.now.asking.request }
    {
        self.asking.request
    }

    /// Notes that what was to be requested is requested: nothing is, until an update came whole.
    pub fn asked(&mut self)
        ensures { self.new ≡ record self.old { asking = record self.old.asking { request = Request.None } } }
    {
        self.asking.ask();
    }

    /// Reads what comes next of a piece, and draws it, or has it wait. Returns what is left of the piece, and how much work that was; `None`
    /// where nothing is left. Ends as `draw` does.
    fn draw_next<'a>(
        &mut self,
        canvas: &mut Canvas,
        piece: &'a [u8],
    ) -> Result<Option<Drawn<'a>>, DrawEnd>
        ensures mirrored { (config : Config) (list : List Event) → config_refusal config ≡ None → canvas.old.screen ≡ state config list →
            IfOk result (λ drawn. MirrorsNext self.old piece.now self.new
            (with_band self.old.waiting canvas.old.screen.picture) (with_band self.new.waiting canvas.new.screen.picture) drawn) }
        ensures read { IfOk result (λ drawn. ReadsNext self.old piece.now self.new drawn) }
        ensures ended { IfErr result (λ end. HasEnded end self.old.reader piece.now self.new.reader) }
        ensures less { IfOk result (λ drawn. IfSome drawn (λ d. work_left self.new.reader d.rest.now < work_left self.old.reader piece.now)) }
        ensures more { IfOk result (λ drawn. IfNone drawn (awaits_bytes self.new.reader ≡ true)) }
        ensures draws { Draws canvas.old canvas.new }
    {
        let next = match self.reader.next(piece) {
            Ok(Some(next)) => next,
            Ok(None) => return Ok(None),
            Err(fault) => return Err(DrawEnd::Fault(fault)),
        };
        if let Err(refused) = self.painter.draw(canvas, next.step) {
            return Err(end_of(refused));
        }
        self.asking.note(&next.step);
        Ok(Some(Drawn {
            rest: next.rest,
            cost: cost_of(next.step),
        }))
    }

    /// Reads and draws a share of a piece, some of which may wait behind it. Returns what is left of the piece. Ends as `draw` does.
    fn draw_share<'a>(&mut self, canvas: &mut Canvas, piece: &'a [u8]) -> Result<&'a [u8], DrawEnd>
        ensures mirrored { (config : Config) (list : List Event) → config_refusal config ≡ None → canvas.old.screen ≡ state config list →
            IfOk result (λ rest. IsMirrored self.old piece.now self.new rest.now
            (with_band self.old.waiting canvas.old.screen.picture) (with_band self.new.waiting canvas.new.screen.picture)) }
        ensures read { IfOk result (λ rest. IsShare self.old piece.now self.new rest.now) }
        ensures whole { IfOk result (λ rest. rest.now ≡ [] → awaits_bytes self.new.reader ≡ true) }
        ensures ended { IfErr result (λ end. HasEnded end self.old.reader piece.now self.new.reader) }
        ensures draws { Draws canvas.old canvas.new }
    {
        let mut left = piece;
        let mut share = SHARE;
        // behind the last byte an update may end
        'steps: while share > 0 || left.is_empty() {
            let Some(drawn) = self.draw_next(canvas, left)? else {
                return Ok(&[]);
            };
            left = drawn.rest;
            share = share.saturating_sub(drawn.cost);
        }
        Ok(left)
    }

    /// Draws what a piece of the source's bytes says; the pieces may be of any length. Returns what is left of it for the next call: nothing, or
    /// the rest behind a share of work, 65,536 places or as many as its last step has, and each step counts for 64 more. Ends as
    /// `Fault` where no message goes on with the piece, as `Size` where the picture would have a size beyond a screen's limits, and as
    /// `Memory`: then no more is to be drawn of the source, and a part of the piece may be on the canvas.
    pub fn draw<'a>(&mut self, canvas: &mut Canvas, piece: &'a [u8]) -> Result<&'a [u8], DrawEnd>
        ensures mirrored { (config : Config) (list : List Event) → config_refusal config ≡ None → canvas.old.screen ≡ state config list →
            IfOk result (λ rest. GoesOnMirroring config list self.old piece.now self.new rest.now canvas.old.screen canvas.new.screen) }
        ensures read { IfOk result (λ rest. IsShare self.old piece.now self.new rest.now) }
        ensures whole { IfOk result (λ rest. rest.now ≡ [] → awaits_bytes self.new.reader ≡ true) }
        ensures ended { IfErr result (λ end. HasEnded end self.old.reader piece.now self.new.reader) }
        ensures draws { Draws canvas.old canvas.new }
    {
        self.painter.begin();
        let left = self.draw_share(canvas, piece)?;
        if let Err(refused) = self.painter.end(canvas) {
            return Err(end_of(refused));
        }
        Ok(left)
    }
}
