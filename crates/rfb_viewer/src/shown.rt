//! The calls of the viewer.

ghost use Rattle.std.specs.Prelude.{◌≡◌, ℕ, ◌<◌, None, Some, IsSome, OnOk, OnErr, IfErr, slice_set};
ghost use Rattle.pixel_translate.specs.declared.Area.{Area};
ghost use Rattle.rfb_viewer.specs.declared.stages.Block.{Block};
ghost use Rattle.rfb_viewer.specs.Canvas.{dot_at, filled, copied_dots};
ghost use Rattle.rfb_viewer.specs.Counts.{is_open_at};
ghost use Rattle.rfb_viewer.specs.Shown.{shown_at, mapped_at, request_bytes, shown_behind_request, set_format_bytes};

use crate::canvas::{Canvas, Dot};
use crate::fault::{Fault, FaultKind};
use crate::groups::Group;
use crate::rectangles::whole;
use crate::stages::{Effect, Reading, group_size, pixel_size};
use messages::Version;
use pixel_translate::{Area, PixelFormat};
use std::alloc::{AllocError, Global};
use std::marker::Model;

/// Red, green and blue, each from 0 to 65535.
type Colour = (u16, u16, u16);

/// A viewer that reads what a server sends. Of what isn't read yet it keeps fewer than 24 bytes, and of a text or a name
/// none: beside those it has what each place of the screen shows, and its colour map.
#[derive(Drop)]
pub struct Shown {
    alloc: Global,
    canvas: Canvas,
    reading: Reading,
    /// The bytes of the group that comes, and how many of them came.
    group: Group,
    count: usize,
    /// How many bytes stand before the group.
    begun: u64,
    fault: Option<Fault>,
    /// The entries of the colour map that were set.
    map: [Option<Colour>; 256],
}

impl Model for Shown {
    ghost use Rattle.std.specs.Prelude.{◌<◌};
    ghost use Rattle.rfb_viewer.specs.Shown.{View};

    ghost Value = { View };

    ghost view = { λ s. record { canvas = s.canvas; reading = s.reading; kept = s.count; fault = s.fault; map = s.map } };

    ghost invariant = { λ s. s.count < 24 };
}

impl Shown {
    /// Returns a viewer of `version` that has read nothing and shows nothing.
    pub fn new(alloc: Global, version: Version) -> Shown
        ensures told { result.fault ≡ None }
        ensures shown { (x y : ℕ) → shown_at result x y ≡ None }
        ensures map { (entry : ℕ) → mapped_at result entry ≡ None }
    {
        Shown {
            alloc,
            canvas: Canvas::empty(alloc),
            reading: Reading::new(version),
            group: [0; 24],
            count: 0,
            begun: 0,
            fault: None,
            map: [None; 256],
        }
    }

    /// Sets an entry of the colour map. Ignores one behind the 256 that there are.
    fn set_entry(&mut self, entry: u32, colour: Colour)
        ensures { self.new ≡ record self.old { map = slice_set self.old.map entry (Some colour) } }
    {
        if entry < 256 {
            self.map[entry as usize] = Some(colour);
        }
    }

    /// Shows what a group of bytes says, in the format in which it was read. After an `AllocError` nothing has changed.
    fn show(&mut self, effect: Effect, format: PixelFormat) -> Result<(), AllocError>
        ensures fill { (block : Block) (pixel x y : ℕ) → effect ≡ Effect.Fill block pixel →
            dot_at self.new.canvas x y ≡ filled self.old.canvas block (Some (record { format = format; pixel = pixel })) x y }
        ensures copy { (area : Area) (from_x from_y : ℕ) → effect ≡ Effect.Copy area from_x from_y →
            OnOk result (self.new.canvas ≡ record self.old.canvas { dots = copied_dots self.old.canvas area (from_x, from_y) }) }
        ensures reading { self.new.reading ≡ self.old.reading }
    {
        match effect {
            Effect::Nothing => Ok(()),
            Effect::Screen { columns, rows } => {
                self.canvas = Canvas::new(self.alloc, columns, rows)?;
                Ok(())
            }
            Effect::Fill { block, pixel } => {
                self.canvas.fill(block, Some(Dot { format, pixel }));
                Ok(())
            }
            Effect::Copy { area, x, y } => self.canvas.copy(area, (x, y)),
            Effect::Entry { entry, colour } => {
                self.set_entry(entry, colour);
                Ok(())
            }
        }
    }

    /// Reads the group of `count` bytes that came, and shows what it says, or keeps its fault.
    fn take_group(&mut self, count: usize) {
        match self.reading.read(&self.group) {
            Ok(step) => match self.show(step.effect, self.reading.format) {
                Ok(()) => self.reading = step.reading,
                Err(_) => {
                    let at = self.begun;
                    self.fault = Some(Fault {
                        kind: FaultKind::OutOfMemory,
                        at,
                    });
                }
            },
            Err(halt) => {
                let at = self.begun.saturating_add(halt.offset);
                self.fault = Some(Fault {
                    kind: halt.kind,
                    at,
                });
            }
        }
        self.begun = self.begun.saturating_add(count as u64);
        self.count = 0;
    }

    /// Takes a byte, and reads the group that it ends, if it ends one. Behind a fault it reads nothing.
    fn hear(&mut self, byte: u8)
        ensures { IsSome self.old.fault → self.new ≡ self.old }
    {
        if self.fault.is_some() {
            return;
        }
        self.group[self.count] = byte;
        let count = self.count + 1;
        if count < group_size(self.reading.stage, pixel_size(&self.reading.format)) {
            self.count = count;
        } else {
            self.take_group(count);
        }
    }

    /// Returns the fault that the viewer met, if it met one, as an error.
    fn answer(&self) -> Result<(), Fault>
        ensures ok { OnOk result (self.now.fault ≡ None) }
        ensures err { IfErr result (λ e. self.now.fault ≡ Some e) }
    {
        match self.fault {
            Some(fault) => Err(fault),
            None => Ok(()),
        }
    }

    /// Reads a piece of what the server says, which may be cut anywhere. Returns the fault where the bytes break the RFC, or memory is
    /// refused: it reads nothing behind that, each further call returns the same fault, no place shows anything, and there is no colour
    /// map.
    pub fn told(&mut self, piece: &[u8]) -> Result<(), Fault>
        ensures ok { OnOk result (self.new.fault ≡ None) }
        ensures err { IfErr result (λ e. self.new.fault ≡ Some e) }
        ensures blank { OnErr result ((x y : ℕ) → shown_at self.new x y ≡ None) }
        ensures no_map { OnErr result ((entry : ℕ) → mapped_at self.new entry ≡ None) }
        ensures faulted { IsSome self.old.fault → self.new ≡ self.old }
    {
        for byte in piece {
            self.hear(*byte);
        }
        self.answer()
    }

    /// Returns how many bytes the viewer keeps of those that it can't read yet: fewer than 24.
    pub fn kept(&self) -> usize
        ensures value { result ≡ self.now.kept }
        ensures bound { result < 24 }
    {
        self.count
    }

    /// Returns whether the server's opening was read whole, up to the desktop's name (RFC 6143 sections 7.1 to 7.3).
    pub fn is_open(&self) -> bool
        ensures { result ≡ is_open_at self.now.reading.stage }
    {
        self.reading.is_open()
    }

    /// Returns the screen's columns and rows, as ServerInit or a DesktopSize told them last (RFC 6143 sections 7.3.2 and 7.8.2); 0 and 0
    /// before.
    pub fn size(&self) -> (u16, u16)
        ensures { result ≡ (self.now.reading.columns, self.now.reading.rows) }
    {
        (self.reading.columns, self.reading.rows)
    }

    /// Returns how many updates were read whole, each with its last rectangle (RFC 6143 section 7.6.1); at most `u64::MAX`.
    pub fn updates(&self) -> u64
        ensures { result ≡ self.now.reading.updates }
    {
        self.reading.updates
    }

    /// Returns how many texts were read whole, each with its last byte (RFC 6143 section 7.6.4); at most `u64::MAX`.
    pub fn texts(&self) -> u64
        ensures { result ≡ self.now.reading.texts }
    {
        self.reading.texts
    }

    /// Returns the FramebufferUpdateRequest of `area` (RFC 6143 section 7.5.3). One that isn't incremental says that the viewer has lost
    /// what the area shows, so the area shows nothing from then on.
    pub fn request(&mut self, area: Area, incremental: bool) -> [u8; 10]
        ensures bytes { result ≡ request_bytes area incremental }
        ensures fault { self.new.fault ≡ self.old.fault }
        ensures shown { (x y : ℕ) → shown_at self.new x y ≡ shown_behind_request self.old area incremental x y }
    {
        if !incremental {
            self.canvas.fill(whole(area), None);
        }
        let [x_high, x_low] = area.x.to_be_bytes();
        let [y_high, y_low] = area.y.to_be_bytes();
        let [w_high, w_low] = area.w.to_be_bytes();
        let [h_high, h_low] = area.h.to_be_bytes();
        [
            3,
            u8::from(incremental),
            x_high,
            x_low,
            y_high,
            y_low,
            w_high,
            w_low,
            h_high,
            h_low,
        ]
    }

    /// Returns the SetPixelFormat of `format` (RFC 6143 section 7.5.1), and reads the pixels of later updates in it.
    pub fn format(&mut self, format: &PixelFormat) -> [u8; 20]
        ensures bytes { result ≡ set_format_bytes format.now }
        ensures chosen { self.new ≡ record self.old { reading = record self.old.reading { chosen = Some format.now } } }
    {
        self.reading.chosen = Some(*format);
        let mut bytes = [0; 20];
        bytes[4..20].copy_from_slice(&format.to_bytes());
        bytes
    }

    /// Returns what the place in column `x` of row `y` shows, if it shows anything: a pixel, and the format in which it was read.
    pub fn place(&self, x: u32, y: u32) -> Option<(PixelFormat, u32)>
        ensures { result ≡ shown_at self.now x y }
    {
        if self.fault.is_some() {
            return None;
        }
        let dot = self.canvas.dot(x as usize, y as usize)?;
        Some((dot.format, dot.pixel))
    }

    /// Returns what an entry of the colour map was set to, if it was (RFC 6143 section 7.6.2): red, green and blue, each from 0 to 65535.
    pub fn map(&self, index: u8) -> Option<(u16, u16, u16)>
        ensures { result ≡ mapped_at self.now index }
    {
        if self.fault.is_some() {
            return None;
        }
        self.map[usize::from(index)]
    }
}
