//! A picture as a background and subrectangles of one pixel each, of which RRE and Hextile are made (RFC 6143, 7.7.3 and 7.7.4).
//!
//! An area is looked at in three steps, of which the first and the last end as soon as RRE can't be shorter than Raw. First the places
//! are counted that begin a subrectangle whatever the background is (`breaks`): in one row of 16, and where these let expect too many
//! in one pass over all, or in two with 2 KB of counters. Then the background is found (`background`): guessed and tested in one
//! pass or in two, or else counted in a table of the pixels that differ. Last the subrectangles are found row by row (`scan`),
//! which goes over each place a bounded number of times, and are written to the output as they are found. Where a colour isn't its
//! own pixel, each step translates the rows as it comes to them, and keeps two of them (`translated`).
#![tactic(auto)]

ghost use Rattle.subrectangles.specs.Subrectangles.{ListsTheSubrectangles, ListsInOrder, FindsTheBackground};

mod background;
mod breaks;
mod bytes;
mod colour_runs;
pub mod lines;
mod pixels;
pub mod rows;
mod scan;
mod translated;

pub use background::{background_of, is_better, times};
pub use breaks::has_too_many;
pub use bytes::{put_front, write_count};
pub use scan::{put_subrectangles, stretch_from, subrectangle_at};
pub use translated::Pixels;

/// A subrectangle of one pixel: its place relative to the rectangle that it belongs to, and its
/// size, in pixels.
#[derive(Clone, Copy)]
pub struct Subrectangle {
    pub x: u16,
    pub y: u16,
    pub w: u16,
    pub h: u16,
    pub pixel: u32,
}

/// Proves that the subrectangles listed for a rectangle are exactly the runs of other pixels than the background that the row above
/// and the row below haven't, as high as they go.
pub fn subrectangles_are_all_listed()
    ensures { ListsTheSubrectangles }
{}

/// Proves that the subrectangles are listed by y, and those of one row by x, each once.
pub fn subrectangles_are_in_order()
    ensures { ListsInOrder }
{}

/// Proves that the background is the most frequent pixel, of several the smallest.
pub fn background_is_most_frequent()
    ensures { FindsTheBackground }
{}
