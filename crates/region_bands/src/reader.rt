//! Reads bands where they stand in spans, or the band of a rectangle that stands nowhere.

ghost use Rattle.std.specs.Prelude.{◌≡◌, ◌≢◌, ◌∷◌, [], List, slice_get};
ghost use Rattle.std.specs.Option.{option_map};
ghost use Rattle.region_bands.specs.Bands.{Band, band_with, rows_of, reading};
ghost use Rattle.region_bands.specs.Read.{lone_reading};

use crate::{Interval, Rows, SpanReader};
use std::marker::Model;

/// A band of one interval, or none.
#[derive(Clone, Copy)]
struct LoneBand {
    rows: Option<Rows>,
    columns: Interval,
    left: Option<Interval>,
}

/// What a reader reads.
#[derive(Drop)]
enum Source<'a> {
    Spans(SpanReader<'a>),
    Lone(LoneBand),
}

/// Reads the bands of a list that isn't changed, or the band of a rectangle.
#[derive(Drop)]
pub struct Reader<'a> {
    source: Source<'a>,
}

impl<'a> Model for Reader<'a> {
    ghost use Rattle.region_bands.specs.Bands.{Reading};
    ghost use Rattle.region_bands.specs.Read.{reading_in};

    ghost Value = { Reading };

    ghost view = { λ r. reading_in r.source };
}

impl LoneBand {
    fn advance(&mut self)
        ensures { lone_reading self.new ≡ reading [] }
    {
        self.rows = None;
        self.left = None;
    }

    fn reread(&mut self)
        ensures { lone_reading self.new ≡ reading (lone_reading self.old).bands }
    {
        self.left = match self.rows {
            Some(_) => Some(self.columns),
            None => None,
        };
    }
}

impl<'a> Reader<'a> {
    // Makes a reader of bands where they stand.
    pub(crate) fn of_spans(spans: SpanReader<'a>) -> Reader<'a>
        ensures { result ≡ spans.entry }
    {
        Reader {
            source: Source::Spans(spans),
        }
    }

    /// Makes a reader of the band of a rectangle. Takes no memory.
    pub fn of_rectangle(rows: Rows, columns: Interval) -> Reader<'a>
        ensures { result ≡ reading (band_with rows (columns ∷ []) ∷ []) }
    {
        Reader {
            source: Source::Lone(LoneBand {
                rows: Some(rows),
                columns,
                left: Some(columns),
            }),
        }
    }

    /// Makes a reader of no band. Takes no memory.
    pub fn of_nothing() -> Reader<'a>
        ensures { result ≡ reading [] }
    {
        Reader {
            source: Source::Lone(LoneBand {
                rows: None,
                columns: Interval { from: 0, to: 0 },
                left: None,
            }),
        }
    }

    /// Returns the rows of the first band that is still to read; `None` if there is none.
    pub fn first_rows(&self) -> Option<Rows>
        ensures { result ≡ option_map rows_of (slice_get self.now.bands 0) }
    {
        match &self.source {
            Source::Spans(spans) => spans.first_rows(),
            Source::Lone(lone) => lone.rows,
        }
    }

    /// Reads on past the first band.
    pub fn advance(&mut self)
        requires { self.old.bands ≢ [] }
        ensures { (first : Band) (rest : List Band) → self.old.bands ≡ first ∷ rest → self.new ≡ reading rest }
    {
        match &mut self.source {
            Source::Spans(spans) => spans.advance(),
            Source::Lone(lone) => lone.advance(),
        }
    }

    /// Makes a second reader, at the same place.
    pub fn again(&self) -> Reader<'a>
        ensures { result ≡ self.now }
    {
        let source = match &self.source {
            Source::Spans(spans) => Source::Spans(spans.again()),
            Source::Lone(lone) => Source::Lone(*lone),
        };
        Reader { source }
    }

    /// Returns the first interval that is left to read of the first band; `None` if none is left.
    pub fn first_left(&self) -> Option<Interval>
        ensures { result ≡ slice_get self.now.left 0 }
    {
        match &self.source {
            Source::Spans(spans) => spans.first_left(),
            Source::Lone(lone) => lone.left,
        }
    }

    /// Reads on past the first interval that is left.
    pub fn skip_left(&mut self)
        requires { self.old.left ≢ [] }
        ensures { (first : Interval) (rest : List Interval) → self.old.left ≡ first ∷ rest →
            self.new ≡ record self.old { left = rest } }
    {
        match &mut self.source {
            Source::Spans(spans) => spans.skip_left(),
            Source::Lone(lone) => lone.left = None,
        }
    }

    /// Reads the first band from its first interval again.
    pub fn reread(&mut self)
        ensures { self.new ≡ reading self.old.bands }
    {
        match &mut self.source {
            Source::Spans(spans) => spans.reread(),
            Source::Lone(lone) => lone.reread(),
        }
    }
}
