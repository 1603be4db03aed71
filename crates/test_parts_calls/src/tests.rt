//! A table of calls for each part. A call that is refused for memory is made again, and is answered as if it had not been: so the
//! tables are the same, whichever allocation is refused.

use region::{Rect, Region};
use std::alloc::{AllocError, Global};

/// A rectangle by its corners.
macro_rules! rect {
    ($x1:expr, $y1:expr, $x2:expr, $y2:expr) => {
        Rect {
            x1: $x1,
            y1: $y1,
            x2: $x2,
            y2: $y2,
        }
    };
}

mod clients;
mod encodings;
mod hearing;
mod lists;
mod marks;
mod pictures;
mod regions;
mod spans;

type Rects = &'static [Rect];

fn region_of(alloc: Global, rects: &[Rect]) -> Result<Region, AllocError> {
    let region = match rects {
        [rect] => Region::from_rect(alloc, *rect),
        _ => Region::from_rects(alloc, rects),
    };
    match region {
        Ok(region) => Ok(region),
        Err(_) => Err(AllocError),
    }
}
