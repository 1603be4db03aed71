//! The bands of a region of places in linked spans, with a gap in which bands are put in and taken out where they stand.
//! Contracts see them as plain lists: the bands above the gap and below it, from the top, and a row of intervals that is being
//! made for the next band.
//!
//! `linked` has the changes of one list of spans of which the calls are made. `reader` reads bands where they stand, or the band
//! of a rectangle that stands nowhere.
#![tactic(auto)]

ghost use Rattle.std.specs.Prelude.{◌≡◌, ◌≢◌, ◌<◌, ◌≤◌, ◌+◌, ◌++◌, ◌∷◌, ◌↔◌, [], List, IsTrue, IfOk, OnOk, true, false, slice_get};
ghost use Rattle.std.specs.Prelude.{length};
ghost use Rattle.std.specs.Option.{option_map};
ghost use Rattle.std.specs.List.{last_or};
ghost use Rattle.region_bands.specs.Bands.{Band, nothing, rows_of, row_of, band_with, first_row, nodes_in, reading};

mod linked;
mod reader;

use linked::{
    first_under, free, insert_span, last_before, new_list, same_intervals, set_span, take_span,
};
pub use reader::Reader;
use span_arena::{ListId, Span, SpanId, Spans};
use std::alloc::{AllocError, Global};
use std::marker::Model;

/// The columns of pixels from `from` up to `to`, without `to`.
#[derive(Clone, Copy)]
pub struct Interval {
    pub from: i32,
    pub to: i32,
}

/// The rows of pixels from `top` down to `bottom`, without `bottom`.
#[derive(Clone, Copy)]
pub struct Rows {
    pub top: i32,
    pub bottom: i32,
}

// The lists of the arena that belong to no band: that of the bands, and that of the row in the making.
#[derive(Clone, Copy)]
struct Lists {
    bands: ListId,
    row: ListId,
}

/// Bands with a gap, and a row in the making. A band takes the room of two nodes and one more for each of its intervals.
#[derive(Drop)]
pub struct BandList {
    spans: Spans,
    lists: Option<Lists>,
    gap: Option<SpanId>,
    left: Option<SpanId>,
}

impl Model for BandList {
    ghost use Rattle.region_bands.specs.Bands.{Bands};

    ghost Value = { Bands };

    ghost use Rattle.region_bands.specs.Held.{view_of, IsHeld};

    ghost view = { λ a. view_of a.spans a.lists a.gap a.left };

    ghost invariant = { λ a. IsHeld a.spans a.lists a.gap a.left };
}

impl BandList {
    /// Makes a list with no bands, an empty row and no room. Takes no memory.
    pub fn new(alloc: Global) -> Self
        ensures { result ≡ nothing }
    {
        BandList {
            spans: Spans::new(alloc),
            lists: None,
            gap: None,
            left: None,
        }
    }

    /// Copies the bands and the row, with the gap at the same place.
    pub fn try_clone(&self) -> Result<Self, AllocError>
        ensures { IfOk result (λ copy. copy ≡ record self.now { spare = copy.spare }) }
    {
        Ok(BandList {
            spans: self.spans.try_clone()?,
            lists: self.lists,
            gap: self.gap,
            left: self.left,
        })
    }

    /// Says whether more than three quarters of the arena are room, so that a copy of it is much larger than the bands. No
    /// clause says which lists these are, but that there is room.
    pub fn is_sparse(&self) -> bool
        ensures { result ≡ true → 0 < self.now.spare }
    {
        match self.lists {
            Some(_) => self.spans.is_sparse(),
            None => false,
        }
    }

    /// Makes room for `more` nodes more. Changes no band and no row, even if the room is refused.
    pub fn reserve(&mut self, more: usize) -> Result<(), AllocError>
        ensures room { OnOk result (more ≤ self.new.spare) }
        ensures kept { self.old.spare ≤ self.new.spare }
        ensures same { self.new ≡ record self.old { spare = self.new.spare } }
    {
        if self.lists.is_some() {
            return self.spans.reserve(more);
        }
        let Some(nodes) = more.checked_add(2) else {
            return Err(AllocError);
        };
        self.spans.reserve(nodes)?;
        let bands = new_list(&mut self.spans);
        let row = new_list(&mut self.spans);
        self.lists = Some(Lists { bands, row });
        Ok(())
    }

    /// Moves the gap before all bands.
    pub fn rewind(&mut self)
        ensures { let all = self.old.above ++ self.old.below in self.new ≡
            record self.old { above = []; left = first_row all; below = all } }
    {
        if let Some(lists) = self.lists {
            self.gap = self.spans.first(lists.bands);
            self.left = first_under(&self.spans, self.gap);
        }
    }

    /// Moves the gap behind all bands.
    pub fn wind(&mut self)
        ensures { self.new ≡ record self.old { above = self.old.above ++ self.old.below; left = []; below = [] } }
    {
        self.gap = None;
        self.left = None;
    }

    /// Returns the rows of the first band below the gap; `None` if there is no band below it.
    pub fn first_rows(&self) -> Option<Rows>
        ensures { result ≡ option_map rows_of (slice_get self.now.below 0) }
    {
        let span = self.spans.get(self.gap?);
        Some(Rows {
            top: span.start,
            bottom: span.stop,
        })
    }

    /// Returns the rows of the last band above the gap; `None` if there is no band above it.
    pub fn last_rows(&self) -> Option<Rows>
        ensures { result ≡ option_map rows_of (last_or None self.now.above) }
    {
        let lists = self.lists?;
        let at = last_before(&self.spans, lists.bands, self.gap)?;
        let span = self.spans.get(at);
        Some(Rows {
            top: span.start,
            bottom: span.stop,
        })
    }

    /// Moves the gap below the first band below it.
    pub fn advance(&mut self)
        requires { self.old.below ≢ [] }
        ensures { (first : Band) (rest : List Band) → self.old.below ≡ first ∷ rest →
            self.new ≡ record self.old { above = self.old.above ++ first ∷ []; left = first_row rest; below = rest } }
    {
        let Some(first) = self.gap else {
            unreachable!()
        };
        self.gap = self.spans.next(first);
        self.left = first_under(&self.spans, self.gap);
    }

    /// Appends `interval` to the row in the making.
    pub fn push_interval(&mut self, interval: Interval)
        requires { 1 ≤ self.old.spare }
        ensures spare { self.old.spare ≤ self.new.spare + 1 }
        ensures row { self.new ≡ record self.old { row = self.old.row ++ interval ∷ []; spare = self.new.spare } }
    {
        let Some(lists) = self.lists else {
            unreachable!()
        };
        let span = Span {
            start: interval.from,
            stop: interval.to,
            sub: None,
        };
        insert_span(&mut self.spans, lists.row, None, span);
    }

    /// Says whether the row in the making has no interval.
    pub fn row_is_empty(&self) -> bool
        ensures { IsTrue result ↔ (self.now.row ≡ []) }
    {
        let Some(lists) = self.lists else {
            return true;
        };
        self.spans.first(lists.row).is_none()
    }

    /// Makes a band of the row in the making, in the rows `rows`, and puts it last above the gap. Leaves the row in the making
    /// empty.
    pub fn put_row(&mut self, rows: Rows)
        requires { 2 ≤ self.old.spare }
        ensures spare { self.old.spare ≤ self.new.spare + 2 }
        ensures band { self.new ≡ record self.old {
          above = self.old.above ++ band_with rows self.old.row ∷ [];
          row = [];
          spare = self.new.spare;
        } }
    {
        let Some(lists) = self.lists else {
            unreachable!()
        };
        let span = Span {
            start: rows.top,
            stop: rows.bottom,
            sub: Some(lists.row),
        };
        insert_span(&mut self.spans, lists.bands, self.gap, span);
        let row = new_list(&mut self.spans);
        self.lists = Some(Lists {
            bands: lists.bands,
            row,
        });
    }

    /// Empties the row in the making, and gives the room of its intervals back. Takes no memory.
    pub fn drop_row(&mut self)
        ensures spare { self.old.spare + length self.old.row ≤ self.new.spare }
        ensures row { self.new ≡ record self.old { row = []; spare = self.new.spare } }
    {
        if let Some(lists) = self.lists {
            free(&mut self.spans, lists.row);
            let row = new_list(&mut self.spans);
            self.lists = Some(Lists {
                bands: lists.bands,
                row,
            });
        }
    }

    /// Moves the gap above the last band above it.
    pub fn retreat(&mut self)
        requires { self.old.above ≢ [] }
        ensures { (front : List Band) (last : Band) → self.old.above ≡ front ++ last ∷ [] →
            self.new ≡ record self.old { above = front; left = last.row; below = last ∷ self.old.below } }
    {
        let Some(lists) = self.lists else {
            unreachable!()
        };
        self.gap = last_before(&self.spans, lists.bands, self.gap);
        self.left = first_under(&self.spans, self.gap);
    }

    /// Sets the bottom of the last band above the gap to `bottom`.
    pub fn stretch(&mut self, bottom: i32)
        requires { self.old.above ≢ [] }
        ensures { (front : List Band) (last : Band) → self.old.above ≡ front ++ last ∷ [] →
            self.new ≡ record self.old { above = front ++ record last { bottom = bottom } ∷ [] } }
    {
        let Some(lists) = self.lists else {
            unreachable!()
        };
        let Some(at) = last_before(&self.spans, lists.bands, self.gap) else {
            unreachable!()
        };
        let mut span = self.spans.get(at);
        span.stop = bottom;
        set_span(&mut self.spans, at, span);
    }

    /// Removes the first band below the gap, and gives its room and that of its intervals back. Takes no memory.
    pub fn remove_first(&mut self)
        requires { self.old.below ≢ [] }
        ensures { (first : Band) (rest : List Band) → self.old.below ≡ first ∷ rest →
            self.new ≡ record self.old { left = first_row rest; below = rest; spare = self.old.spare + 2 + length first.row } }
    {
        let Some(lists) = self.lists else {
            unreachable!()
        };
        let Some(at) = self.gap else { unreachable!() };
        let next = self.spans.next(at);
        let span = take_span(&mut self.spans, lists.bands, at);
        let Some(list) = span.sub else { unreachable!() };
        free(&mut self.spans, list);
        self.gap = next;
        self.left = first_under(&self.spans, self.gap);
    }

    /// Returns the first interval that is left to read of the first band below the gap; `None` if none is left.
    pub fn first_left(&self) -> Option<Interval>
        ensures { result ≡ slice_get self.now.left 0 }
    {
        let span = self.spans.get(self.left?);
        Some(Interval {
            from: span.start,
            to: span.stop,
        })
    }

    /// Reads on past the first interval that is left.
    pub fn skip_left(&mut self)
        requires { self.old.left ≢ [] }
        ensures { (first : Interval) (rest : List Interval) → self.old.left ≡ first ∷ rest →
            self.new ≡ record self.old { left = rest } }
    {
        let Some(at) = self.left else { unreachable!() };
        self.left = self.spans.next(at);
    }

    /// Reads the first band below the gap from its first interval again.
    pub fn reread(&mut self)
        ensures { self.new ≡ record self.old { left = first_row self.old.below } }
    {
        self.left = first_under(&self.spans, self.gap);
    }

    /// Removes and returns the first interval of the first band below the gap, and gives its room back. What remains is left to
    /// read. Takes no memory.
    pub fn take_first_interval(&mut self) -> Interval
        requires band { self.old.below ≢ [] }
        requires interval { first_row self.old.below ≢ [] }
        ensures interval { (row : List Interval) (interval : Interval) → first_row self.old.below ≡ interval ∷ row →
            result ≡ interval }
        ensures taken { (first : Band) (rest : List Band) (row : List Interval) (interval : Interval) →
            self.old.below ≡ first ∷ rest → first.row ≡ interval ∷ row →
            self.new ≡ record self.old { left = row; below = record first { row = row } ∷ rest; spare = self.old.spare + 1 } }
    {
        let Some(at) = self.gap else { unreachable!() };
        let span = self.spans.get(at);
        let Some(list) = span.sub else { unreachable!() };
        let Some(first) = self.spans.first(list) else {
            unreachable!()
        };
        let taken = take_span(&mut self.spans, list, first);
        self.left = first_under(&self.spans, self.gap);
        Interval {
            from: taken.start,
            to: taken.stop,
        }
    }

    /// Removes and returns the last interval of the first band below the gap, and gives its room back. What remains is left to
    /// read. Takes no memory.
    pub fn take_last_interval(&mut self) -> Interval
        requires band { self.old.below ≢ [] }
        requires interval { first_row self.old.below ≢ [] }
        ensures interval { (row : List Interval) (interval : Interval) → first_row self.old.below ≡ row ++ interval ∷ [] →
            result ≡ interval }
        ensures taken { (first : Band) (rest : List Band) (row : List Interval) (interval : Interval) →
            self.old.below ≡ first ∷ rest → first.row ≡ row ++ interval ∷ [] →
            self.new ≡ record self.old { left = row; below = record first { row = row } ∷ rest; spare = self.old.spare + 1 } }
    {
        let Some(at) = self.gap else { unreachable!() };
        let span = self.spans.get(at);
        let Some(list) = span.sub else { unreachable!() };
        let Some(last) = self.spans.last(list) else {
            unreachable!()
        };
        let taken = take_span(&mut self.spans, list, last);
        self.left = first_under(&self.spans, self.gap);
        Interval {
            from: taken.start,
            to: taken.stop,
        }
    }

    /// Says whether there is a last band above the gap whose intervals are those of the row in the making.
    pub fn row_is_as_last(&self) -> bool
        ensures { IsTrue result ↔ (option_map row_of (last_or None self.now.above) ≡ Some self.now.row) }
    {
        let Some(lists) = self.lists else {
            return false;
        };
        let Some(at) = last_before(&self.spans, lists.bands, self.gap) else {
            return false;
        };
        let span = self.spans.get(at);
        let Some(list) = span.sub else {
            return false;
        };
        same_intervals(&self.spans, list, lists.row)
    }

    /// Says whether the first band below the gap has the intervals of the last band above it; false if either is missing.
    pub fn first_is_as_last(&self) -> bool
        ensures yes { result ≡ true → (front : List Band) × (last : Band) × (first : Band) × (rest : List Band) ×
            (self.now.above ≡ front ++ last ∷ []) × (self.now.below ≡ first ∷ rest) × (last.row ≡ first.row) }
        ensures no { result ≡ false → (front : List Band) (last first : Band) (rest : List Band) →
            self.now.above ≡ front ++ last ∷ [] → self.now.below ≡ first ∷ rest → last.row ≢ first.row }
    {
        let Some(lists) = self.lists else {
            return false;
        };
        let Some(above) = last_before(&self.spans, lists.bands, self.gap) else {
            return false;
        };
        let Some(below) = self.gap else {
            return false;
        };
        let last = self.spans.get(above);
        let first = self.spans.get(below);
        let Some(one) = last.sub else {
            return false;
        };
        let Some(other) = first.sub else {
            return false;
        };
        same_intervals(&self.spans, one, other)
    }

    /// Frees all bands and the row in the making, and gives their room back. Takes no memory.
    pub fn clear(&mut self)
        ensures spare { self.old.spare + nodes_in self.old.above + nodes_in self.old.below + length self.old.row ≤ self.new.spare }
        ensures cleared { self.new ≡ record nothing { spare = self.new.spare } }
    {
        self.rewind();
        'bands: while self.first_rows().is_some() {
            self.remove_first();
        }
        self.drop_row();
    }

    /// Returns a reader of the bands below the gap, with their intervals.
    pub fn reader_below(&self) -> Reader<'_>
        ensures { result ≡ reading self.now.below }
    {
        Reader::of_spans(self.spans_below())
    }

    /// Returns a reader of all bands from the top, with their intervals.
    pub fn reader(&self) -> Reader<'_>
        ensures { result ≡ reading (self.now.above ++ self.now.below) }
    {
        Reader::of_spans(self.all_spans())
    }

    // Returns a reader of the bands below the gap, where they stand.
    fn spans_below(&self) -> SpanReader<'_>
        ensures { result ≡ reading self.now.below }
    {
        let left = first_under(&self.spans, self.gap);
        SpanReader {
            spans: &self.spans,
            lists: self.lists,
            gap: self.gap,
            left,
        }
    }

    // Returns a reader of all bands, where they stand.
    fn all_spans(&self) -> SpanReader<'_>
        ensures { result ≡ reading (self.now.above ++ self.now.below) }
    {
        let mut reader = SpanReader {
            spans: &self.spans,
            lists: self.lists,
            gap: None,
            left: None,
        };
        if let Some(lists) = self.lists {
            reader.gap = self.spans.first(lists.bands);
            reader.left = first_under(&self.spans, reader.gap);
        }
        reader
    }
}

/// Reads the bands of a list that isn't changed, where they stand in its spans.
#[derive(Drop)]
pub(crate) struct SpanReader<'a> {
    spans: &'a Spans,
    // The lists whose bands are read; only contracts ask for them.
    lists: Option<Lists>,
    gap: Option<SpanId>,
    left: Option<SpanId>,
}

impl<'a> Model for SpanReader<'a> {
    ghost use Rattle.region_bands.specs.Bands.{Reading, reading_of};

    ghost Value = { Reading };

    ghost use Rattle.region_bands.specs.Held.{view_of, IsHeld};

    ghost view = { λ r. reading_of (view_of r.spans.now r.lists r.gap r.left) };

    ghost invariant = { λ r. IsHeld r.spans.now r.lists r.gap r.left };
}

impl<'a> SpanReader<'a> {
    /// Returns the rows of the first band that is still to read; `None` if there is none.
    pub fn first_rows(&self) -> Option<Rows>
        ensures { result ≡ option_map rows_of (slice_get self.now.bands 0) }
    {
        let span = self.spans.get(self.gap?);
        Some(Rows {
            top: span.start,
            bottom: span.stop,
        })
    }

    /// Reads on past the first band.
    pub fn advance(&mut self)
        requires { self.old.bands ≢ [] }
        ensures { (first : Band) (rest : List Band) → self.old.bands ≡ first ∷ rest → self.new ≡ reading rest }
    {
        let Some(at) = self.gap else { unreachable!() };
        self.gap = self.spans.next(at);
        self.left = first_under(self.spans, self.gap);
    }

    /// Makes a second reader, at the same place.
    pub fn again(&self) -> SpanReader<'a>
        ensures { result ≡ self.now }
    {
        SpanReader {
            spans: self.spans,
            lists: self.lists,
            gap: self.gap,
            left: self.left,
        }
    }

    /// Returns the first interval that is left to read of the first band; `None` if none is left.
    pub fn first_left(&self) -> Option<Interval>
        ensures { result ≡ slice_get self.now.left 0 }
    {
        let span = self.spans.get(self.left?);
        Some(Interval {
            from: span.start,
            to: span.stop,
        })
    }

    /// Reads on past the first interval that is left.
    pub fn skip_left(&mut self)
        requires { self.old.left ≢ [] }
        ensures { (first : Interval) (rest : List Interval) → self.old.left ≡ first ∷ rest →
            self.new ≡ record self.old { left = rest } }
    {
        let Some(at) = self.left else { unreachable!() };
        self.left = self.spans.next(at);
    }

    /// Reads the first band from its first interval again.
    pub fn reread(&mut self)
        ensures { self.new ≡ reading self.old.bands }
    {
        self.left = first_under(self.spans, self.gap);
    }
}
