//! A viewer, as the screen keeps it.

ghost use Rattle.std.specs.Prelude.{◌≡◌, ◌&&◌, ◌||◌, not, ℕ, ◌≤◌, All, IfOk};
ghost use Rattle.messages.specs.Reading.{is_open_rest, fault_in_rest};
ghost use Rattle.copy_schedule.specs.Marks.{Marks, pending};
ghost use Rattle.copy_schedule.specs.Log.{logged, IsCutEntry};
ghost use Rattle.updates.specs.Waiting.{none_wait};
ghost use Rattle.updates.specs.Short.{IsShort};
ghost use Rattle.viewer.specs.Viewer.{is_asking, noticed, new_viewer, kept_viewer, viewer_resized};
ghost use Rattle.viewer.specs.Sending.{is_size_owed, tells_size};
ghost use Rattle.viewer.specs.Given.{keeps_notices, marks_put};
ghost use Rattle.viewer.specs.Told.{viewer_told};
ghost use Rattle.region.specs.Places.{longest_side};

use crate::views::{view_by, whole};
use copy_schedule::{LogEntry, Marks, Prepared, joined_log};
use messages::{Ear, Encoding, Fault};
use pixel_translate::PixelFormat;
use std::alloc::{AllocError, Global};
use std::marker::Model;
use updates::{Notice, Notices, Size, Translation};

/// One viewer of a screen. Contracts see what the RFC's words speak of: where its conversation stands, its pixel format and
/// encoding, its marks of each place, and the notices that wait.
pub struct Viewer {
    pub(crate) alloc: Global,
    pub(crate) ear: Ear,
    /// Its ClientInit asked that others stay connected (RFC 6143, 7.3.1).
    pub(crate) shared: bool,
    pub(crate) format: Translation,
    /// The colour map that its format needs has not been sent yet (RFC 6143, 7.6.2).
    pub(crate) map_owed: bool,
    pub(crate) encoding: Encoding,
    pub(crate) uses_copyrect: bool,
    /// It lists DesktopSize (RFC 6143, 7.8.2).
    pub(crate) takes_sizes: bool,
    /// How many of its requests were not incremental (RFC 6143, 7.5.3).
    pub(crate) full_requests: u64,
    /// The size that it was sent last; None before its ServerInit (RFC 6143, 7.3.2).
    pub(crate) told: Option<Size>,
    pub(crate) marks: Marks,
    pub(crate) notices: Notices,
}

// Written out, so that who holds one proves one call here, and not the drop of each field.
impl Drop for Viewer {
    fn drop(self) {
        let Viewer {
            alloc: _alloc,
            ear: _ear,
            shared: _shared,
            format: _format,
            map_owed: _map_owed,
            encoding: _encoding,
            uses_copyrect: _uses_copyrect,
            takes_sizes: _takes_sizes,
            full_requests: _full_requests,
            told: _told,
            marks: _marks,
            notices: _notices,
        } = self;
    }
}

impl Model for Viewer {
    ghost use Rattle.viewer.specs.Viewer.{KeptViewer};

    ghost Value = { KeptViewer };

    ghost use Rattle.viewer.specs.ViewerStates.{viewer_in};

    ghost view = { viewer_in };
}

impl Viewer {
    /// Returns a viewer that has just connected to a screen of `width` by `height`, each 1 to 8192: every place is owed to it.
    /// `AllocError` where memory is refused.
    pub fn new(alloc: Global, width: u32, height: u32) -> Result<Viewer, AllocError>
        requires some_columns { 1 ≤ width }
        requires columns { width ≤ longest_side }
        requires some_rows { 1 ≤ height }
        requires rows { height ≤ longest_side }
        ensures { IfOk result (λ viewer. viewer ≡ kept_viewer (new_viewer width height)) }
    {
        Ok(Viewer {
            alloc,
            ear: Ear::new(alloc),
            shared: false,
            format: Translation::new(alloc, &PixelFormat::server())?,
            map_owed: false,
            encoding: Encoding::Raw,
            uses_copyrect: false,
            takes_sizes: false,
            full_requests: 0,
            told: None,
            marks: Marks::new(alloc, width, height),
            notices: Notices::new(alloc)?,
        })
    }

    /// Returns the size of its screen.
    pub(crate) fn screen(&self) -> Size
        ensures { result ≡ record { width = self.now.marks.width; height = self.now.marks.height } }
    {
        Size {
            width: self.marks.width() as u16,
            height: self.marks.height() as u16,
        }
    }

    /// Tells whether it lists DesktopSize and has another size than the screen (RFC 6143, 7.8.2).
    fn is_size_owed(&self) -> bool
        ensures { result ≡ is_size_owed self.now.marks.width self.now.marks.height self.now }
    {
        let screen = self.screen();
        let size = self.told.unwrap_or(screen);
        self.takes_sizes && !(size.width == screen.width && size.height == screen.height)
    }

    /// Tells whether an update would tell it the size.
    pub(crate) fn tells_size(&self) -> bool
        ensures { result ≡ tells_size self.now.marks.width self.now.marks.height self.now }
    {
        self.marks.has_asked() && self.is_size_owed()
    }

    /// Tells whether an update would have something to send (`FB_UPDATE_PENDING` of `rfb.h`, the colour map, the notices, and a size),
    /// if it were cut once the viewer is told of the drawing of `log`, the first entry's first. Takes no memory.
    pub fn is_pending_after(&self, log: &[LogEntry]) -> bool
        ensures { result ≡ (is_open_rest self.now.heard && (self.now.map_owed || (not (none_wait self.now.notices) ||
            (tells_size self.now.marks.width self.now.marks.height self.now || pending (viewer_told log.now self.now).marks)))) }
    {
        self.ear.is_open()
            && (self.map_owed
                || !self.notices.is_empty()
                || self.tells_size()
                || self.marks.pending_after(log))
    }

    /// Tells whether it asked for places since an update of places, or of a size, was cut for it: a FramebufferUpdateRequest (RFC 6143,
    /// 7.5.3) of its is unanswered.
    pub fn is_asking(&self) -> bool
        ensures { result ≡ is_asking self.now }
    {
        self.marks.has_asked()
    }

    /// Returns how many of its requests were not incremental (RFC 6143, 7.5.3).
    pub fn full_requests(&self) -> u64
        ensures { result ≡ self.now.full_requests }
    {
        self.full_requests
    }

    /// Returns why the viewer is heard no further, if a fault was met.
    pub fn fault(&self) -> Option<Fault>
        ensures { result ≡ fault_in_rest self.now.heard }
    {
        self.ear.fault()
    }

    /// Tells whether the viewer had its ServerInit (RFC 6143, 7.3.2) and met no fault.
    pub fn is_open(&self) -> bool
        ensures { result ≡ is_open_rest self.now.heard }
    {
        self.ear.is_open()
    }

    /// Tells whether the viewer would keep a notice now.
    pub fn keeps_notices(&self) -> bool
        ensures { result ≡ keeps_notices self.now }
    {
        self.ear.is_open() && self.notices.has_room()
    }

    /// Keeps `notice` for its next update, if the viewer is open and fewer than 64 wait. Takes no memory.
    pub fn keep(&mut self, notice: Notice)
        requires { IsShort notice }
        ensures { self.new ≡ noticed notice (is_open_rest self.old.heard) self.old }
    {
        if self.ear.is_open() {
            self.notices.keep(notice);
        }
    }

    /// Returns the drawing of `log` in fewer entries, as it is for this viewer and for each that uses CopyRect as it does: neighbouring
    /// marks are one region. `AllocError` where memory is refused.
    pub fn joined_log(&self, log: &[LogEntry]) -> Result<Vec<LogEntry>, AllocError>
        ensures same { IfOk result (λ joined. (m : Marks) →
            logged self.now.uses_copyrect joined.items m ≡ logged self.now.uses_copyrect log.now m) }
        ensures cut { IfOk result (λ joined. (w h : ℕ) → All (IsCutEntry w h) log.now → All (IsCutEntry w h) joined.items) }
    {
        joined_log(self.alloc, log, self.uses_copyrect)
    }

    /// Tells whether the viewer uses CopyRect (RFC 6143, 7.7.2).
    pub fn uses_copyrect(&self) -> bool
        ensures { result ≡ self.now.uses_copyrect }
    {
        self.uses_copyrect
    }

    /// Prepares the marks as they are once the drawing of `entries` is known, the first entry's first; `commit` puts them in
    /// place. Each entry makes new regions, so a long log is first made shorter by `joined_log`. `AllocError` where memory is
    /// refused.
    pub fn prepare_log(&self, entries: &[LogEntry]) -> Result<Prepared, AllocError>
        requires cut { All (IsCutEntry self.now.marks.width self.now.marks.height) entries.now }
        ensures { IfOk result (λ prepared. prepared ≡ logged self.now.uses_copyrect entries.now self.now.marks) }
    {
        self.marks.prepare_log(entries, self.uses_copyrect)
    }

    /// Prepares the marks as they are once the screen is `width` by `height`, each 1 to 8192: every place is owed, and of the places
    /// that were asked for those stay that the viewer sees; `commit` puts them in place. Drawing that the viewer was not told of
    /// makes no difference. `AllocError` where memory is refused.
    pub fn prepare_resize(&self, width: u16, height: u16) -> Result<Prepared, AllocError>
        requires columns { width ≤ longest_side }
        requires rows { height ≤ longest_side }
        ensures { IfOk result (λ prepared. prepared ≡ (viewer_resized width height self.now).marks) }
    {
        let view = view_by(Size { width, height }, self.told);
        self.marks
            .prepare_resize(u32::from(width), u32::from(height), whole(view))
    }

    /// Puts the prepared marks in place of its own. Takes no memory.
    pub fn commit(&mut self, prepared: Prepared)
        ensures { self.new ≡ record self.old { marks = prepared } }
    {
        self.marks.commit(prepared);
    }

    /// Puts `marks` in place of its own, if there are any.
    pub(crate) fn put_marks(&mut self, marks: Option<Marks>)
        ensures { self.new ≡ record self.old { marks = marks_put self.old.marks marks } }
    {
        if let Some(marks) = marks {
            self.marks = marks;
        }
    }
}
