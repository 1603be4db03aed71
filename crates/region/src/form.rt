//! How a region keeps its places: a rectangle or none in place, and more in linked spans.

ghost use Rattle.std.specs.Prelude.{◌≡◌, ◌≢◌, ◌≤◌, ◌*◌, ◌↔◌, ◌+ℤ◌, false, ℤ, List, ◌++◌, [], IsTrue, IfOk, IfSome, OnOk, OnErr, None};
ghost use Rattle.region_bands.specs.Bands.{Band, nodes_in, reading, first_row};
ghost use Rattle.region_rows.specs.Rows.{keeps_place};
ghost use Rattle.region_sets.specs.Sets.{AreBands, IsKept};
ghost use Rattle.region.specs.Region.{covers, in_rect};
ghost use Rattle.region.specs.RegionView.{leaves_range};
ghost use Rattle.region.specs.Pops.{IsFirst, IsWithout};
ghost use Rattle.region.specs.Rects.{rects_in, AreBandsWithRoom};
ghost use Rattle.region.specs.Forms.{IsPlain, in_plain, bands_in, room_in, view_of, IsForm};
ghost use Rattle.region.specs.declared.form.Form.TheVariants.{Plain};

use crate::Rect;
use crate::in_place::{bands_of_plain, keep_where_they_stand, packed, put_kept};
use crate::listing::{only_rect, rect_of_bounds};
use crate::moves::moved;
use crate::plain::kept_of_plain;
use crate::stacking::{columns_of, has_places, rows_of};
use region_bands::{BandList, Reader};
use region_rows::Keep;
use std::alloc::{AllocError, Global};

/// Bands, and the room that was made for a result: how many nodes it holds.
#[derive(Drop)]
pub(crate) struct LinkedBands {
    pub bands: BandList,
    pub room: usize,
}

/// A rectangle that has places, or none; or bands in linked spans.
#[derive(Drop)]
pub(crate) enum Form {
    Plain(Option<Rect>),
    Linked(Box<LinkedBands>),
}

/// Returns the rectangles of two regions that have no linked spans.
pub(crate) fn plain_pair(first: &Form, second: &Form) -> Option<(Option<Rect>, Option<Rect>)>
    ensures { IfSome result (λ p. (first.now ≡ Plain p.0) × (second.now ≡ Plain p.1)) }
{
    match first {
        Form::Plain(rect) => match second {
            Form::Plain(other) => Some((*rect, *other)),
            Form::Linked(_) => None,
        },
        Form::Linked(_) => None,
    }
}

/// Returns what `keep` keeps of the places of two regions, if neither has linked spans and the result is known to need none.
pub(crate) fn kept_plain(first: &Form, second: &Form, keep: Keep) -> Option<Form>
    requires first { IsForm first.now }
    requires second { IsForm second.now }
    ensures places { IfSome result (λ f. (x y : ℤ) → covers (rects_in (bands_in f)) x y ≡
        keeps_place keep (covers (rects_in (bands_in first.now)) x y) (covers (rects_in (bands_in second.now)) x y)) }
    ensures form { IfSome result IsForm }
{
    let (one, other) = plain_pair(first, second)?;
    let rect = kept_of_plain(one, other, keep)?;
    Some(Form::Plain(rect))
}

impl LinkedBands {
    // Leaves what `keep` keeps of the bands and of those of `other`, and no room.
    fn keep(&mut self, other: &mut Reader, keep: Keep) -> Result<(), AllocError>
        requires first { AreBandsWithRoom self.old.bands self.old.room }
        requires second { AreBands other.old.bands }
        requires second_left { other.old.left ≡ first_row other.old.bands }
        ensures kept { OnOk result (IsKept keep (self.old.bands.above ++ self.old.bands.below) other.old.bands
            (self.new.bands.above ++ self.new.bands.below)) }
        ensures err { OnErr result ((self.new.bands.above ++ self.new.bands.below ≡ self.old.bands.above ++ self.old.bands.below) ×
            (self.new.room ≡ self.old.room)) }
        ensures form { AreBandsWithRoom self.new.bands self.new.room }
    {
        keep_where_they_stand(&mut self.bands, other, keep)?;
        self.room = 0;
        Ok(())
    }

    // Does the same as `keep`, in the room that was made for it.
    fn keep_in_room(&mut self, other: &mut Reader, keep: Keep)
        requires first { AreBandsWithRoom self.old.bands self.old.room }
        requires second { AreBands other.old.bands }
        requires second_left { other.old.left ≡ first_row other.old.bands }
        requires room { (bands : List Band) → IsKept keep (self.old.bands.above ++ self.old.bands.below) other.old.bands bands →
            2 * nodes_in bands ≤ self.old.room }
        ensures kept { IsKept keep (self.old.bands.above ++ self.old.bands.below) other.old.bands
            (self.new.bands.above ++ self.new.bands.below) }
        ensures form { AreBandsWithRoom self.new.bands self.new.room }
    {
        put_kept(&mut self.bands, other, keep);
        self.room = 0;
    }

    // Copies the bands.
    fn clone_bands(&self, alloc: Global) -> Result<BandList, AllocError>
        requires { AreBandsWithRoom self.now.bands self.now.room }
        ensures bands { IfOk result (λ copy. copy.above ++ copy.below ≡ self.now.bands.above ++ self.now.bands.below) }
        ensures row { IfOk result (λ copy. copy.row ≡ []) }
    {
        if self.bands.is_sparse() {
            packed(alloc, &self.bands)
        } else {
            self.bands.try_clone()
        }
    }
}

// Makes a form of `bands` with `room` nodes of room for a result.
fn linked(alloc: Global, bands: BandList, room: usize) -> Result<Form, AllocError>
    requires { AreBandsWithRoom bands room }
    ensures bands { IfOk result (λ form. bands_in form ≡ bands.above ++ bands.below) }
    ensures room { IfOk result (λ form. room_in form ≡ room) }
    ensures form { IfOk result IsForm }
{
    Ok(Form::Linked(Box::new(alloc, LinkedBands { bands, room })?))
}

impl Form {
    /// Makes a form of the places of `rect`, which may have none.
    pub fn of_rect(rect: Rect) -> Form
        ensures places { (x y : ℤ) → covers (rects_in (bands_in result)) x y ≡ in_rect rect x y }
        ensures form { IsForm result }
    {
        if has_places(rect) {
            Form::Plain(Some(rect))
        } else {
            Form::Plain(None)
        }
    }

    /// Makes a form of the places of `bands`: in place if they are one rectangle.
    pub fn of_bands(alloc: Global, bands: BandList) -> Result<Form, AllocError>
        requires bands { AreBands (bands.above ++ bands.below) }
        requires row { bands.row ≡ [] }
        ensures bands { IfOk result (λ form. bands_in form ≡ bands.above ++ bands.below) }
        ensures form { IfOk result IsForm }
    {
        match only_rect(&mut bands.reader()) {
            Some(rect) => Ok(Form::Plain(Some(rect))),
            None => linked(alloc, bands, 0),
        }
    }

    /// Makes a form of the same places.
    pub fn try_clone(&self, alloc: Global) -> Result<Form, AllocError>
        requires { IsForm self.now }
        ensures bands { IfOk result (λ form. bands_in form ≡ bands_in self.now) }
        ensures form { IfOk result IsForm }
    {
        match self {
            Form::Plain(rect) => Ok(Form::Plain(*rect)),
            Form::Linked(own) => linked(alloc, own.clone_bands(alloc)?, 0),
        }
    }

    /// Returns a reader of the bands, from the top.
    pub fn reader(&self) -> Reader<'_>
        ensures { result ≡ reading (bands_in self.now) }
    {
        match self {
            Form::Plain(Some(rect)) => Reader::of_rectangle(rows_of(*rect), columns_of(*rect)),
            Form::Plain(None) => Reader::of_nothing(),
            Form::Linked(own) => own.bands.reader(),
        }
    }

    /// Returns how many nodes the room holds that was made for a result.
    pub fn room(&self) -> usize
        ensures { result ≡ room_in self.now }
    {
        match self {
            Form::Plain(_) => 0,
            Form::Linked(own) => own.room,
        }
    }

    /// Makes room for a result of `room` nodes, in linked spans. After an `AllocError` the room is as it was.
    pub fn reserve(&mut self, alloc: Global, room: usize) -> Result<(), AllocError>
        requires { IsForm self.old }
        ensures bands { bands_in self.new ≡ bands_in self.old }
        ensures ok { OnOk result (room_in self.new ≡ room) }
        ensures err { OnErr result (room_in self.new ≡ room_in self.old) }
        ensures form { IsForm self.new }
    {
        match self {
            Form::Plain(rect) => {
                let mut bands = bands_of_plain(alloc, *rect)?;
                bands.reserve(room)?;
                *self = linked(alloc, bands, room)?;
            }
            Form::Linked(own) => {
                own.bands.reserve(room)?;
                own.room = room;
            }
        }
        Ok(())
    }

    /// Leaves what `keep` keeps of the places and of those of `other`, in the room that was made for it.
    pub fn keep_in_room(&mut self, other: &mut Reader, keep: Keep)
        requires form { IsForm self.old }
        requires second { AreBands other.old.bands }
        requires second_left { other.old.left ≡ first_row other.old.bands }
        requires room { (bands : List Band) → IsKept keep (bands_in self.old) other.old.bands bands → 2 * nodes_in bands ≤ room_in self.old }
        ensures kept { IsKept keep (bands_in self.old) other.old.bands (bands_in self.new) }
        ensures form { IsForm self.new }
    {
        match self {
            // no room was made: nothing is kept
            Form::Plain(rect) => *rect = None,
            Form::Linked(own) => own.keep_in_room(other, keep),
        }
    }

    /// Leaves what `keep` keeps of the places and of those of `other`, in linked spans. After an `AllocError` all is as it was.
    pub fn keep_in_place(
        &mut self,
        alloc: Global,
        other: &mut Reader,
        keep: Keep,
    ) -> Result<(), AllocError>
        requires form { IsForm self.old }
        requires second { AreBands other.old.bands }
        requires second_left { other.old.left ≡ first_row other.old.bands }
        ensures kept { OnOk result (IsKept keep (bands_in self.old) other.old.bands (bands_in self.new)) }
        ensures err { OnErr result ((bands_in self.new ≡ bands_in self.old) × (room_in self.new ≡ room_in self.old)) }
        ensures form { IsForm self.new }
    {
        match self {
            Form::Plain(rect) => {
                let mut bands = bands_of_plain(alloc, *rect)?;
                keep_where_they_stand(&mut bands, other, keep)?;
                *self = Form::of_bands(alloc, bands)?;
                Ok(())
            }
            Form::Linked(own) => own.keep(other, keep),
        }
    }

    /// Moves each place by (`dx`, `dy`), which leads no rectangle out of the range.
    pub fn offset(&mut self, dx: i32, dy: i32)
        requires form { IsForm self.old }
        requires stays { leaves_range dx dy (rects_in (bands_in self.old)) ≡ false }
        ensures places { (x y : ℤ) → covers (rects_in (bands_in self.new)) (x +ℤ dx) (y +ℤ dy) ≡
            covers (rects_in (bands_in self.old)) x y }
        ensures form { IsForm self.new }
    {
        match self {
            Form::Plain(Some(rect)) => *rect = moved(*rect, dx, dy),
            Form::Plain(None) => {}
            Form::Linked(own) => {
                region_sets::offset(&mut own.bands, dx, dy);
            }
        }
    }

    /// Takes out the places of the first rectangle in the order of `reverse_x` and `reverse_y`, and returns that rectangle.
    pub fn pop(&mut self, reverse_x: bool, reverse_y: bool) -> Option<Rect>
        requires { IsForm self.old }
        ensures none { (result ≡ None) ↔ (rects_in (bands_in self.old) ≡ []) }
        ensures unchanged { result ≡ None → view_of self.new ≡ view_of self.old }
        ensures first { IfSome result (λ rect. IsFirst reverse_x reverse_y (rects_in (bands_in self.old)) rect) }
        ensures places { IfSome result (λ rect. IsWithout rect (rects_in (bands_in self.old)) (rects_in (bands_in self.new))) }
        ensures form { IsForm self.new }
    {
        match self {
            Form::Plain(rect) => rect.take(),
            Form::Linked(own) => {
                rect_of_bounds(region_sets::pop(&mut own.bands, reverse_x, reverse_y))
            }
        }
    }
}
