//! What C fetches: what came of viewers, and what is known of the server and of its picture.

ghost use Rattle.std.specs.Prelude.{◌≡◌, ◌<◌, ◌-◌, ◌^◌, pos, min, length, None, Some, is_some, count_by};
ghost use Rattle.screen.specs.Reading.{is_open_rest};
ghost use Rattle.c_screen.specs.Codes as codes;
ghost use Rattle.c_screen.specs.Calls.{colour_at, of_viewer};
ghost use Rattle.c_server.specs.Calls.{FetchesInputs, FetchesVisits, ShowsNumbers, ShowsText, ShowsSettings, Tells};

use crate::desk::ServerDesk;
use crate::news::{fetch_inputs, fetch_visits};
use crate::visits::Visit;
use crate::waker::ServerWaker;
use c_screen::{OFF_SCREEN, SHUT, Told, code_of, copy_to, show_settings, truth_or};
use event_loop::ScreenError;

impl ServerDesk {
    /// Puts the first inputs that wait at the room's start, up to the first text, and takes them from what waits (`kbdAddEvent`,
    /// `ptrAddEvent` and `setXCutText` of `rfb.h`). Returns how many they are; the rest of the room stays. The text's bytes are had by
    /// `text`, until a call fetches another.
    pub fn next_inputs(&mut self, room: &mut [Told]) -> i64
        ensures { FetchesInputs self.old self.new room.old room.new result }
    {
        if self.events.is_none() {
            return i64::from(SHUT);
        }
        let (count, length) = fetch_inputs(&mut self.inputs, room, &mut self.text);
        self.text_room = self.text_room.saturating_add(length);
        count as i64
    }

    /// Puts the first bytes of the text that was fetched last at the room's start, at most 2^30. Returns how many they are; the rest of the
    /// room stays.
    pub fn text(&mut self, room: &mut [u8]) -> i32
        ensures { ShowsText self.old self.new room.old room.new result }
    {
        if self.events.is_none() {
            return SHUT;
        }
        copy_to(room, self.text.as_slice()) as i32
    }

    /// Puts the first comings and goings that wait at the room's start, and takes them from what waits (`newClientHook` and
    /// `clientGoneHook` of `rfb.h`). Returns how many they are; the rest of the room stays.
    pub fn next_events(&mut self, room: &mut [Visit]) -> i64
        ensures { FetchesVisits self.old self.new room.old room.new result }
    {
        if self.events.is_none() {
            return i64::from(SHUT);
        }
        fetch_visits(&mut self.visits, room) as i64
    }

    /// Returns how many inputs, comings and goings were lost since `listen` or `serve`, at most 2^62.
    pub fn lost_count(&mut self) -> i64
        ensures { Tells (λ _. pos (min self.old.lost (2 ^ 62))) self.old self.new result }
    {
        if self.events.is_none() {
            return i64::from(SHUT);
        }
        self.lost.min(1 << 62) as i64
    }

    /// Returns how often, since `listen` or `serve`, a viewer was heard to ask for places whether these changed or not, by a request that
    /// isn't incremental (RFC 6143, 7.5.3; `clientFramebufferUpdateRequestHook` of `rfb.h` is called for each request): more than before
    /// where one did in the last turns. At most 2^62. `settings` tells how many of a viewer's requests were such.
    pub fn full_request_count(&mut self) -> i64
        ensures { Tells (λ _. pos (min self.old.full_requests (2 ^ 62))) self.old self.new result }
    {
        if self.events.is_none() {
            return i64::from(SHUT);
        }
        self.full_requests.min(1 << 62) as i64
    }

    /// Returns what ends a wait of `process_events` from another thread. It is shut where the desk is, or the system refuses it; and once
    /// the desk is closed it wakes nobody. A desk has one at a time.
    pub fn waker(&mut self) -> ServerWaker
        ensures { self.new ≡ self.old }
    {
        match &self.events {
            Some(events) => ServerWaker::new(events.waker().ok()),
            None => ServerWaker::new(None),
        }
    }

    /// Returns the port of `listen`; 0 where the server began by `serve`. Further ports are told by the calls that listen there.
    pub fn port(&mut self) -> i32
        ensures { Tells (λ _. pos self.old.port) self.old self.new result }
    {
        if self.events.is_none() {
            return SHUT;
        }
        i32::from(self.port)
    }

    /// Returns how many viewers are connected, at most 2^30.
    pub fn viewer_count(&mut self) -> i32
        ensures { Tells (λ served. pos (min (count_by is_some served.slots) (2 ^ 30))) self.old self.new result }
    {
        let Some(events) = &self.events else {
            return SHUT;
        };
        events.viewer_count().min(1 << 30) as i32
    }

    /// Puts the connected viewers' numbers at the room's start, in order of connecting, as many as fit, at most 2^30, and returns how many;
    /// the rest of the room stays. Returns `OutOfMemory`'s code where memory for them is refused.
    pub fn numbers(&mut self, room: &mut [u64]) -> i32
        ensures { ShowsNumbers self.old self.new room.old room.new result }
    {
        let Some(events) = &self.events else {
            return SHUT;
        };
        match events.screen().numbers() {
            Ok(numbers) => copy_to(room, numbers.as_slice()) as i32,
            Err(_) => code_of(ScreenError::OutOfMemory),
        }
    }

    /// Returns 1 where a viewer's opening is over and it met no fault, else 0, as `Screen::is_open` says. Returns `NoViewer`'s code where
    /// none has the number.
    pub fn is_open(&mut self, viewer: u64) -> i32
        ensures { Tells (λ served. of_viewer viewer (λ seen. codes.one_or_zero (is_open_rest seen.heard)) served.surface.screen) self.old self.new result }
    {
        let Some(events) = &self.events else {
            return SHUT;
        };
        truth_or(events.screen().is_open(viewer))
    }

    /// Puts what `Screen::settings` says of a viewer at the room's start (`format` and the like of `rfbClientRec` in `rfb.h`), in 32-bit
    /// words, as many as fit, and returns how many; the rest of the room stays. Returns `NoViewer`'s code where none has the number.
    pub fn settings(&mut self, viewer: u64, room: &mut [u32]) -> i32
        ensures { ShowsSettings viewer self.old self.new room.old room.new result }
    {
        let Some(events) = &self.events else {
            return SHUT;
        };
        show_settings(events.screen().settings(viewer), room)
    }

    /// Returns `Screen::width`: 1 to 8192.
    pub fn width(&mut self) -> i64
        ensures { Tells (λ served. pos served.surface.screen.picture.width) self.old self.new result }
    {
        let Some(events) = &self.events else {
            return i64::from(SHUT);
        };
        i64::from(events.screen().width())
    }

    /// Returns `Screen::height`: 1 to 8192.
    pub fn height(&mut self) -> i64
        ensures { Tells (λ served. pos served.surface.screen.picture.height) self.old self.new result }
    {
        let Some(events) = &self.events else {
            return i64::from(SHUT);
        };
        i64::from(events.screen().height())
    }

    /// Returns `Screen::colour`: `0x00RRGGBB`; `OFF_SCREEN` off the screen.
    pub fn colour(&mut self, x: u32, y: u32) -> i64
        ensures { Tells (λ served. colour_at x y served.surface.screen) self.old self.new result }
    {
        let Some(events) = &self.events else {
            return i64::from(SHUT);
        };
        match events.screen().colour(x, y) {
            Some(colour) => i64::from(colour),
            None => i64::from(OFF_SCREEN),
        }
    }
}
