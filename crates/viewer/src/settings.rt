//! What a viewer has set.

ghost use Rattle.std.specs.Prelude.{◌≡◌};
ghost use Rattle.viewer.specs.Viewer.{settings_of};

use crate::viewer::Viewer;
use messages::Encoding;
use pixel_translate::PixelFormat;

/// What a viewer has set by its messages (RFC 6143, 7.3.1, 7.5.1 and 7.5.2).
#[derive(Clone, Copy, Debug, PartialEq, Eq)]
pub struct Settings {
    /// Its ClientInit asked that other viewers stay connected; false before it. The server serves all all the same.
    pub shared: bool,
    /// The pixel format that it is sent (7.4): the server's until its SetPixelFormat.
    pub format: PixelFormat,
    /// The first of Raw, RRE and Hextile in its SetEncodings; Raw where there is none.
    pub encoding: Encoding,
    /// Its SetEncodings lists CopyRect (7.7.2).
    pub uses_copyrect: bool,
    /// Its SetEncodings lists DesktopSize (7.8.2).
    pub takes_sizes: bool,
    /// How many of its FramebufferUpdateRequests were not incremental (7.5.3), so that they want places whether these changed or not;
    /// at most 2^64 - 1.
    pub full_requests: u64,
}

impl Viewer {
    /// Returns what the viewer has set.
    pub fn settings(&self) -> Settings
        ensures { result ≡ settings_of self.now }
    {
        Settings {
            shared: self.shared,
            format: self.format.table().format(),
            encoding: self.encoding,
            uses_copyrect: self.uses_copyrect,
            takes_sizes: self.takes_sizes,
            full_requests: self.full_requests,
        }
    }
}
