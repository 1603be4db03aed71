//! Which updates are likely to be wanted by several viewers: a guess, on which no bytes depend.

use messages::Encoding;
use pixel_translate::PixelFormat;
use region::Rect;
use std::alloc::{AllocError, Global};

/// How many kinds of viewers are remembered.
const MOST_KINDS: usize = 8;

/// For how many updates no viewer waits for what is encoded, once the picture changed before that was done.
const HURRIED: u32 = 64;

/// Viewers that have the same encoding and format, and what was cut for them since the picture changed.
#[derive(Clone, Copy)]
struct Kind {
    encoding: Encoding,
    format: PixelFormat,
    // the first of the rectangles that were cut last, how many there were, and how many updates in a row had such
    first: Rect,
    count: usize,
    updates: u32,
    // several updates had the same, while the picture was as it was before
    was_shared: bool,
}

/// The kinds of viewers for which large updates were cut of late.
#[derive(Drop)]
pub struct Kinds {
    kinds: Vec<Kind>,
    // where the next new one goes, once there are as many as are remembered
    next: usize,
    // an update was counted since the picture changed
    is_counting: bool,
    // an update is likely to be wanted by several
    is_expecting: bool,
    // nobody waits while the picture is as it is
    gave_up: bool,
    // for so many updates nobody waits
    hurried: u32,
    // how often what was encoded, or was begun, was let go
    losses: u64,
}

impl Kind {
    /// Tells whether its viewers have this encoding and this format.
    fn is_of(&self, encoding: Encoding, format: &PixelFormat) -> bool {
        self.encoding == encoding && self.format == *format
    }

    /// Tells whether others are likely to have an update of `count` rectangles, of which this is the `first`.
    fn is_likely(&self, first: Rect, count: usize) -> bool {
        if self.updates == 0 {
            return self.was_shared;
        }
        self.first == first && self.count == count
    }

    /// Counts an update of `count` rectangles, of which this is the `first`.
    fn count(&mut self, first: Rect, count: usize) {
        let is_same = self.updates > 0 && self.first == first && self.count == count;
        self.updates = if is_same {
            self.updates.saturating_add(1)
        } else {
            1
        };
        self.first = first;
        self.count = count;
    }

    /// Notes that the picture changes.
    fn start_anew(&mut self) {
        self.was_shared = self.updates > 1;
        self.updates = 0;
    }
}

impl Kinds {
    /// Returns none. Takes no memory.
    pub fn new(alloc: Global) -> Kinds {
        Kinds {
            kinds: Vec::new(alloc),
            next: 0,
            is_counting: false,
            is_expecting: false,
            gave_up: false,
            hurried: 0,
            losses: 0,
        }
    }

    /// Tells whether some update is likely to be wanted by several viewers, so that one may wait for what is encoded for all.
    pub fn is_expecting(&self) -> bool {
        self.is_expecting && !self.gave_up && self.hurried == 0
    }

    /// Tells whether several viewers are likely to have an update of these rectangles: one had it since the picture changed, or several
    /// had the same while the picture was as it was before.
    pub fn are_likely(&self, encoding: Encoding, format: &PixelFormat, rects: &[Rect]) -> bool {
        if rects.is_empty() {
            return false;
        }
        for kind in &self.kinds {
            if kind.is_of(encoding, format) {
                return kind.is_likely(rects[0], rects.len());
            }
        }
        false
    }

    /// Counts an update of these rectangles.
    pub fn count(&mut self, encoding: Encoding, format: &PixelFormat, rects: &[Rect]) {
        if rects.is_empty() {
            return;
        }
        self.is_counting = true;
        self.is_expecting = true;
        self.hurried = self.hurried.saturating_sub(1);
        for kind in self.kinds.iter_mut() {
            if kind.is_of(encoding, format) {
                kind.count(rects[0], rects.len());
                return;
            }
        }
        let kind = Kind {
            encoding,
            format: *format,
            first: rects[0],
            count: rects.len(),
            updates: 1,
            was_shared: false,
        };
        let _refused = self.remember(kind);
    }

    /// Adds a kind, or replaces the oldest where as many as are remembered are there.
    fn remember(&mut self, kind: Kind) -> Result<(), AllocError> {
        if self.kinds.len() < MOST_KINDS {
            self.kinds.push(kind)?;
            return Ok(());
        }
        let next = self.next % MOST_KINDS;
        self.kinds[next] = kind;
        self.next = next + 1;
        Ok(())
    }

    /// Lets no viewer wait for the next updates: what was begun was not done when the picture changed.
    pub fn hurry(&mut self) {
        self.hurried = HURRIED;
    }

    /// Counts that what was encoded, or begun, is dropped.
    pub fn count_loss(&mut self) {
        self.losses = self.losses.wrapping_add(1);
    }

    /// Returns how often that was.
    pub fn losses(&self) -> u64 {
        self.losses
    }

    /// Lets nobody wait while the picture is as it is.
    pub fn give_up(&mut self) {
        self.gave_up = true;
    }

    /// Notes that the picture changes.
    pub fn start_anew(&mut self) {
        self.gave_up = false;
        if !self.is_counting {
            return;
        }
        self.is_counting = false;
        self.is_expecting = false;
        for kind in self.kinds.iter_mut() {
            kind.start_anew();
        }
        for kind in &self.kinds {
            self.is_expecting = self.is_expecting || kind.was_shared;
        }
    }
}
