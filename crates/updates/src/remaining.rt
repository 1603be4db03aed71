//! What of an update is still to be encoded, part by part.

ghost use Rattle.std.specs.Prelude.{◌≡◌, ◌≢◌, ◌+◌, ◌*◌, ◌^◌, ◌<◌, ◌≤◌, ◌++◌, ◌↔◌, [], All, IsTrue, true, false, IfOk, IfSome, OnOk};
ghost use Rattle.std.specs.Prelude.{OnErr, length, drop, flat_map};
ghost use Rattle.pixel_translate.specs.declared.PixelFormat.{PixelFormat};
ghost use Rattle.updates.specs.Short.{IsShort};
ghost use Rattle.updates.specs.Updates.{coloured_bytes, rectangles_bytes, shared_bytes, all_bytes};
ghost use Rattle.updates.specs.declared.remaining.Begun.TheVariants as begun;
ghost use Rattle.updates.specs.declared.remaining.Reached.TheVariants as so_far;
ghost use Rattle.updates.specs.Remaining.{rest_of, reached_after, left_of, IsBegun, IsWithin};

use crate::notices::{Notice, put_notice};
use crate::parts::{Coloured, Part, Rectangles, Shared};
use crate::sizes::Size;
use crate::update::{put_head, put_opening, put_size};
use encode_hextile::{Carried, Rows, encode_row_of_tiles};
use encode_raw::{put_raw_pixels, rect_header};
use messages::{Encoding, put_colour_map};
use pixel_translate::{Area, Table};
use std::alloc::{AllocError, Global};
use std::marker::Model;

/// How far a rectangle is encoded of which some is left.
#[derive(Clone, Copy)]
pub enum Begun {
    /// In Raw: the head, and so many colours.
    Colours(usize),
    /// In Hextile: the head, and so many rows of tiles, with what the last of them left.
    Tiles(usize, Carried),
}

/// How far the rectangles of an update are encoded.
#[derive(Clone, Copy)]
pub enum Reached {
    /// Nothing is.
    Nothing,
    /// All before a rectangle of colours.
    Before(usize),
    /// So far, and some of that rectangle.
    Within(usize, Begun),
}

/// The rectangles of an update, of which some are encoded. Contracts see it as the bytes of the others.
#[derive(Drop)]
pub struct RemainingRectangles {
    alloc: Global,
    rectangles: Rectangles,
    reached: Reached,
}

impl Model for RemainingRectangles {
    ghost use Rattle.std.specs.Prelude.{ℕ, List};
    ghost use Rattle.updates.specs.Remaining.{left_of, IsWithin};

    ghost Value = { List ℕ };

    ghost view = { λ a. left_of a.rectangles a.reached };

    ghost invariant = { λ a. IsWithin a.rectangles.coloured.items a.reached };
}

/// Begins a rectangle in Raw, by its head of 12 bytes. Returns how far it is encoded then. Where memory is refused, nothing is appended.
fn begin_in_raw(out: &mut Vec<u8>, rectangle: &Coloured) -> Result<Begun, AllocError>
    ensures bytes { IfOk result (λ begun. (f : PixelFormat) → out.new.items ++ rest_of f rectangle.now (Some begun) ≡
        out.old.items ++ coloured_bytes Encoding.Raw f rectangle.now) }
    ensures bound { OnOk result (length out.new.items ≡ length out.old.items + 12) }
    ensures within { IfOk result (λ begun. IsBegun begun rectangle.now) }
    ensures err { OnErr result (out.new.items ≡ out.old.items) }
{
    rect_header(out, rectangle.area, 0)?;
    Ok(Begun::Colours(0))
}

/// Begins a rectangle: in Raw and Hextile its head, else all of it. Returns how far it is encoded, if not all of it is.
fn begin_rectangle(
    out: &mut Vec<u8>,
    rectangle: &Coloured,
    encoding: Encoding,
    table: &Table,
) -> Result<Option<Begun>, AllocError>
    ensures bytes { IfOk result (λ begun. out.new.items ++ rest_of table.now rectangle.now begun ≡
        out.old.items ++ coloured_bytes encoding table.now rectangle.now) }
    ensures more { OnOk result (length out.old.items < length out.new.items) }
    ensures within { IfOk result (λ begun. IfSome begun (λ b. IsBegun b rectangle.now)) }
{
    match encoding {
        Encoding::Raw => {
            let begun = begin_in_raw(out, rectangle)?;
            Ok(Some(begun))
        }
        Encoding::Rre => {
            rectangle.colours.put_rre(out, rectangle.area, table)?;
            Ok(None)
        }
        Encoding::Hextile => {
            rect_header(out, rectangle.area, 5)?;
            Ok(Some(Begun::Tiles(0, Carried::nothing())))
        }
    }
}

/// Goes on with a rectangle in Raw, by one piece of its colours: at most 8,192 bytes. Returns how far it is encoded then, if not all of
/// it is. Where memory is refused, nothing is appended.
fn go_on_in_raw(
    out: &mut Vec<u8>,
    rectangle: &Coloured,
    table: &Table,
    done: usize,
) -> Result<Option<Begun>, AllocError>
    requires { done < length rectangle.now.colours }
    ensures bytes { IfOk result (λ next. out.new.items ++ rest_of table.now rectangle.now next ≡
        out.old.items ++ rest_of table.now rectangle.now (Some (begun.Colours done))) }
    ensures more { OnOk result (length out.old.items < length out.new.items) }
    ensures bound { OnOk result (length out.new.items ≤ length out.old.items + 8192) }
    ensures within { IfOk result (λ next. IfSome next (λ b. IsBegun b rectangle.now)) }
    ensures err { OnErr result (out.new.items ≡ out.old.items) }
{
    let piece = rectangle.colours.piece_from(done);
    put_raw_pixels(out, piece, table)?;
    let next = done + piece.len();
    if rectangle.colours.goes_on(next) {
        Ok(Some(Begun::Colours(next)))
    } else {
        Ok(None)
    }
}

/// Returns how many columns `area` has: fewer than 2^16.
fn columns_of(area: Area) -> usize
    ensures columns { result ≡ area.w }
    ensures few { result < 2 ^ 16 }
{
    usize::from(area.w)
}

/// Goes on with a rectangle in Hextile, by one row of tiles. Returns how far it is encoded then, if not all of it is.
fn go_on_in_hextile(
    alloc: Global,
    out: &mut Vec<u8>,
    rectangle: &Coloured,
    table: &Table,
    row: usize,
    carried: Carried,
) -> Result<Option<Begun>, AllocError>
    requires { 16 * row < rectangle.now.area.h }
    ensures bytes { IfOk result (λ next. out.new.items ++ rest_of table.now rectangle.now next ≡
        out.old.items ++ rest_of table.now rectangle.now (Some (begun.Tiles row carried))) }
    ensures more { OnOk result (length out.old.items < length out.new.items) }
    ensures within { IfOk result (λ next. IfSome next (λ b. IsBegun b rectangle.now)) }
{
    let width = columns_of(rectangle.area);
    let height = usize::from(rectangle.area.h);
    let lines = (height - 16 * row).min(16);
    let values = rectangle
        .colours
        .part(alloc, 16 * row * width, lines * width)?;
    let rows = Rows {
        values: &values,
        width,
        height: lines,
    };
    let remaining = encode_row_of_tiles(out, &rows, table, carried)?;
    if 16 * (row + 1) < height {
        Ok(Some(Begun::Tiles(row + 1, remaining)))
    } else {
        Ok(None)
    }
}

/// Goes on with a rectangle of which some is encoded. Returns how far it is encoded then, if not all of it is.
fn go_on(
    alloc: Global,
    out: &mut Vec<u8>,
    rectangle: &Coloured,
    table: &Table,
    begun: Begun,
) -> Result<Option<Begun>, AllocError>
    requires { IsBegun begun rectangle.now }
    ensures bytes { IfOk result (λ next. out.new.items ++ rest_of table.now rectangle.now next ≡
        out.old.items ++ rest_of table.now rectangle.now (Some begun)) }
    ensures more { OnOk result (length out.old.items < length out.new.items) }
    ensures within { IfOk result (λ next. IfSome next (λ b. IsBegun b rectangle.now)) }
{
    match begun {
        Begun::Colours(done) => go_on_in_raw(out, rectangle, table, done),
        Begun::Tiles(row, carried) => {
            go_on_in_hextile(alloc, out, rectangle, table, row, carried)
        }
    }
}

/// Returns how far the rectangles are encoded once some of rectangle `next` is, or all of it.
fn reached_after(next: usize, begun: Option<Begun>) -> Reached
    requires { next < usize.MAX }
    ensures { result ≡ reached_after next begun }
{
    match begun {
        None => Reached::Before(next + 1),
        Some(begun) => Reached::Within(next, begun),
    }
}

/// Appends the next part of rectangles, behind what is reached: the head with the copies, a rectangle in RRE, the head of another, some
/// of the pixels of one in Raw, or a row of tiles of one in Hextile. Returns what is reached then.
pub fn put_next(
    alloc: Global,
    out: &mut Vec<u8>,
    rectangles: &Rectangles,
    reached: Reached,
) -> Result<Reached, AllocError>
    requires { IsWithin rectangles.now.coloured.items reached }
    ensures bytes { IfOk result (λ r. out.new.items ++ left_of rectangles.now r ≡
        out.old.items ++ left_of rectangles.now reached) }
    ensures more { OnOk result (left_of rectangles.now reached ≢ [] → length out.old.items < length out.new.items) }
    ensures within { IfOk result (λ r. IsWithin rectangles.now.coloured.items r) }
{
    let coloured = &rectangles.coloured;
    let table = rectangles.format.table();
    match reached {
        Reached::Nothing => {
            put_opening(out, rectangles)?;
            Ok(Reached::Before(0))
        }
        Reached::Before(next) => {
            if next >= coloured.len() {
                return Ok(reached);
            }
            let encoding = rectangles.encoding;
            let begun = begin_rectangle(out, &coloured[next], encoding, table)?;
            Ok(reached_after(next, begun))
        }
        Reached::Within(next, begun) => {
            let begun = go_on(alloc, out, &coloured[next], table, begun)?;
            Ok(reached_after(next, begun))
        }
    }
}

/// Tells whether nothing of rectangles is left behind what is reached.
pub fn is_nothing_left(rectangles: &Rectangles, reached: Reached) -> bool
    requires { IsWithin rectangles.now.coloured.items reached }
    ensures { IsTrue result ↔ (left_of rectangles.now reached ≡ []) }
{
    match reached {
        Reached::Nothing => false,
        Reached::Before(next) => next >= rectangles.coloured.len(),
        Reached::Within(_, _) => false,
    }
}

impl RemainingRectangles {
    /// Returns all of an update's rectangles.
    pub fn new(alloc: Global, rectangles: Rectangles) -> RemainingRectangles
        ensures { result ≡ rectangles_bytes rectangles }
    {
        RemainingRectangles {
            alloc,
            rectangles,
            reached: Reached::Nothing,
        }
    }

    /// Returns the rectangles of colours alone: behind the head, and without copies.
    pub(crate) fn of_pixels(alloc: Global, rectangles: Rectangles) -> RemainingRectangles
        ensures { result ≡ flat_map (coloured_bytes rectangles.encoding rectangles.format) rectangles.coloured.items }
    {
        RemainingRectangles {
            alloc,
            rectangles,
            reached: Reached::Before(0),
        }
    }

    /// Tells whether all is encoded.
    pub fn is_ended(&self) -> bool
        ensures { IsTrue result ↔ (self.now ≡ []) }
    {
        is_nothing_left(&self.rectangles, self.reached)
    }

    /// Appends the next part.
    pub fn put_part(&mut self, out: &mut Vec<u8>) -> Result<(), AllocError>
        ensures bytes { OnOk result (out.new.items ++ self.new ≡ out.old.items ++ self.old) }
        ensures more { OnOk result (self.old ≢ [] → length out.old.items < length out.new.items) }
        ensures err { OnErr result (self.new ≡ self.old) }
    {
        self.reached = put_next(self.alloc, out, &self.rectangles, self.reached)?;
        Ok(())
    }

    /// Appends the next part if it has at most 8,192 bytes for certain, and tells whether it has: the head where there are no copies, and
    /// of a rectangle in Raw its head, or some of its pixels.
    pub fn put_short(&mut self, out: &mut Vec<u8>) -> Result<bool, AllocError>
        ensures bytes { OnOk result (out.new.items ++ self.new ≡ out.old.items ++ self.old) }
        ensures more { result ≡ Ok true → length out.old.items < length out.new.items }
        ensures bound { OnOk result (length out.new.items ≤ length out.old.items + 8192) }
        ensures other { result ≡ Ok false → out.new.items ≡ out.old.items }
        ensures same { result ≡ Ok false → self.new ≡ self.old }
        ensures err { OnErr result (out.new.items ≡ out.old.items) }
        ensures kept { OnErr result (self.new ≡ self.old) }
    {
        let reached = self.reached;
        match reached {
            Reached::Nothing if self.rectangles.copy_rects.is_empty() => {
                put_head(out, &self.rectangles)?;
                self.reached = Reached::Before(0);
                Ok(true)
            }
            Reached::Before(next)
                if next < self.rectangles.coloured.len()
                    && self.rectangles.encoding == Encoding::Raw => {
                let begun = begin_in_raw(out, &self.rectangles.coloured[next])?;
                self.reached = Reached::Within(next, begun);
                Ok(true)
            }
            Reached::Within(next, Begun::Colours(done)) => {
                let rectangles = &self.rectangles;
                let table = rectangles.format.table();
                let begun = go_on_in_raw(out, &rectangles.coloured[next], table, done)?;
                self.reached = reached_after(next, begun);
                Ok(true)
            }
            _ => Ok(false),
        }
    }
}

/// How many bytes of those that were encoded for several viewers are given at once, at most.
const SHARED_PIECE: usize = 8192;

/// An update's rectangles that were encoded for several viewers, of which some bytes are given. Contracts see the others.
#[derive(Drop)]
pub struct RemainingShared {
    shared: Shared,
    // the head and the copies are given
    is_opened: bool,
    given: usize,
}

impl Model for RemainingShared {
    ghost use Rattle.std.specs.Prelude.{ℕ, ◌≤◌, List, length};
    ghost use Rattle.std.specs.Arc.{arc_value};
    ghost use Rattle.updates.specs.Shared.{left_of_shared};

    ghost Value = { List ℕ };

    ghost view = { λ a. left_of_shared a.shared a.is_opened a.given };

    ghost invariant = { λ a. a.given ≤ length (arc_value a.shared.pixels).items };
}

/// Appends the next piece of bytes of which `given` are given: at most 8,192. Returns how many are given then. Where memory is refused,
/// nothing is appended.
fn put_given(out: &mut Vec<u8>, bytes: &[u8], given: usize) -> Result<usize, AllocError>
    requires { given ≤ length bytes.now }
    ensures bytes { IfOk result (λ next. out.new.items ++ drop next bytes.now ≡ out.old.items ++ drop given bytes.now) }
    ensures more { OnOk result (given < length bytes.now → length out.old.items < length out.new.items) }
    ensures bound { length out.new.items ≤ length out.old.items + 8192 }
    ensures within { IfOk result (λ next. next ≤ length bytes.now) }
    ensures err { OnErr result (out.new.items ≡ out.old.items) }
{
    let end = bytes.len().min(given.saturating_add(SHARED_PIECE));
    out.extend_from_slice(&bytes[given..end])?;
    Ok(end)
}

impl RemainingShared {
    /// Returns all of them.
    pub fn new(shared: Shared) -> RemainingShared
        ensures { result ≡ shared_bytes shared }
    {
        RemainingShared {
            shared,
            is_opened: false,
            given: 0,
        }
    }

    /// Tells whether all are given.
    pub fn is_ended(&self) -> bool
        ensures { IsTrue result ↔ (self.now ≡ []) }
    {
        self.is_opened && self.given >= self.shared.pixels.len()
    }

    /// Appends the head and the copies, and then the next piece of the others.
    pub fn put_part(&mut self, out: &mut Vec<u8>) -> Result<(), AllocError>
        ensures bytes { OnOk result (out.new.items ++ self.new ≡ out.old.items ++ self.old) }
        ensures more { OnOk result (self.old ≢ [] → length out.old.items < length out.new.items) }
        ensures err { OnErr result (out.new.items ≡ out.old.items) }
        ensures kept { OnErr result (self.new ≡ self.old) }
    {
        if self.is_opened {
            self.given = put_given(out, &self.shared.pixels, self.given)?;
        } else {
            out.extend_from_slice(&self.shared.front)?;
            self.is_opened = true;
            self.given = 0;
        }
        Ok(())
    }

    /// Appends the next of these if it has at most 8,192 bytes for certain, and tells whether it has, and there was something left.
    pub fn put_short(&mut self, out: &mut Vec<u8>) -> Result<bool, AllocError>
        ensures bytes { OnOk result (out.new.items ++ self.new ≡ out.old.items ++ self.old) }
        ensures more { result ≡ Ok true → length out.old.items < length out.new.items }
        ensures bound { OnOk result (length out.new.items ≤ length out.old.items + 8192) }
        ensures other { result ≡ Ok false → out.new.items ≡ out.old.items }
        ensures same { result ≡ Ok false → self.new ≡ self.old }
        ensures err { OnErr result (out.new.items ≡ out.old.items) }
        ensures kept { OnErr result (self.new ≡ self.old) }
    {
        if self.is_ended() || !self.is_opened && self.shared.front.len() > SHARED_PIECE {
            return Ok(false);
        }
        if self.is_opened {
            self.given = put_given(out, &self.shared.pixels, self.given)?;
        } else {
            out.extend_from_slice(&self.shared.front)?;
            self.is_opened = true;
            self.given = 0;
        }
        Ok(true)
    }
}

/// What is left of what an update says of the screen: nothing, its new size, or some of its rectangles.
#[derive(Drop)]
pub enum RemainingPart {
    Nothing,
    NewSize(Size),
    Places(RemainingRectangles),
    Shared(RemainingShared),
}

/// An update, of which some is encoded: the colour map where it is owed, its notices, and then a size or its rectangles. Contracts
/// see it as the bytes of the rest.
#[derive(Drop)]
pub struct RemainingUpdate {
    /// The colour map is to be encoded yet.
    map_owed: bool,
    notices: Vec<Notice>,
    notices_sent: usize,
    part: RemainingPart,
}

impl Model for RemainingUpdate {
    ghost use Rattle.std.specs.Prelude.{ℕ, List, All};
    ghost use Rattle.updates.specs.Short.{IsShort};
    ghost use Rattle.updates.specs.RemainingUpdates.{remaining_update};

    ghost Value = { List ℕ };

    ghost view = { λ a. remaining_update a.map_owed a.notices.items a.notices_sent a.part };

    ghost invariant = { λ a. All IsShort a.notices.items };
}

impl RemainingUpdate {
    /// Returns all of an update of the colour map where it is owed, of notices, and of what is said of the screen.
    pub fn new(alloc: Global, map_owed: bool, notices: Vec<Notice>, part: Part) -> RemainingUpdate
        requires { All IsShort notices.items }
        ensures { result ≡ all_bytes map_owed notices.items part }
    {
        let part = match part {
            Part::Nothing => RemainingPart::Nothing,
            Part::NewSize(size) => RemainingPart::NewSize(size),
            Part::Places(rectangles) => RemainingPart::Places(RemainingRectangles::new(
                alloc, rectangles,
            )),
            Part::Shared(shared) => RemainingPart::Shared(RemainingShared::new(shared)),
        };
        RemainingUpdate {
            map_owed,
            notices,
            notices_sent: 0,
            part,
        }
    }

    /// Tells whether all is encoded.
    pub fn is_ended(&self) -> bool
        ensures { IsTrue result ↔ (self.now ≡ []) }
    {
        if self.map_owed || self.notices_sent < self.notices.len() {
            return false;
        }
        match &self.part {
            RemainingPart::Nothing => true,
            RemainingPart::NewSize(_) => false,
            RemainingPart::Places(rectangles) => rectangles.is_ended(),
            RemainingPart::Shared(shared) => shared.is_ended(),
        }
    }

    /// Appends the next part: the colour map, a notice, the size, or one of the rectangles'.
    pub fn put_part(&mut self, out: &mut Vec<u8>) -> Result<(), AllocError>
        ensures bytes { OnOk result (out.new.items ++ self.new ≡ out.old.items ++ self.old) }
        ensures more { OnOk result (self.old ≢ [] → length out.old.items < length out.new.items) }
        ensures err { OnErr result (self.new ≡ self.old) }
    {
        if self.map_owed {
            put_colour_map(out)?;
            self.map_owed = false;
            return Ok(());
        }
        if self.notices_sent < self.notices.len() {
            put_notice(out, &self.notices[self.notices_sent])?;
            self.notices_sent += 1;
            return Ok(());
        }
        match &mut self.part {
            RemainingPart::Nothing => Ok(()),
            RemainingPart::NewSize(size) => {
                put_size(out, *size)?;
                self.part = RemainingPart::Nothing;
                Ok(())
            }
            RemainingPart::Places(rectangles) => rectangles.put_part(out),
            RemainingPart::Shared(shared) => shared.put_part(out),
        }
    }

    /// Appends the next part if it has at most 8,192 bytes for certain, and tells whether it has.
    pub fn put_short(&mut self, out: &mut Vec<u8>) -> Result<bool, AllocError>
        ensures bytes { OnOk result (out.new.items ++ self.new ≡ out.old.items ++ self.old) }
        ensures more { result ≡ Ok true → length out.old.items < length out.new.items }
        ensures bound { OnOk result (length out.new.items ≤ length out.old.items + 8192) }
        ensures other { result ≡ Ok false → out.new.items ≡ out.old.items }
        ensures same { result ≡ Ok false → self.new ≡ self.old }
        ensures err { OnErr result (out.new.items ≡ out.old.items) }
        ensures kept { OnErr result (self.new ≡ self.old) }
    {
        match &mut self.part {
            RemainingPart::Places(rectangles)
                if !self.map_owed && self.notices_sent >= self.notices.len() => {
                rectangles.put_short(out)
            }
            RemainingPart::Shared(shared)
                if !self.map_owed && self.notices_sent >= self.notices.len() => {
                shared.put_short(out)
            }
            _ => Ok(false),
        }
    }
}
