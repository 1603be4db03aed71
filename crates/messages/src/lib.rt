//! What a viewer says, and what the server says, in bytes: the reader of a viewer's messages and the writers of the server's.
//!
//! An opening that comes in two pieces, of which the first has no whole item:
//!
//! ```
//! let mut ear = Ear::new(alloc);
//! let first = ear.feed(b"RFB 003.00")?; // no item
//! let then = ear.feed(b"8\n\x01\x01")?; // Version, Choice, Init { shared: true }
//! ```
#![tactic(auto)]

mod ear;
mod heads;
mod laws;
mod numbers;
mod opening;
mod partial;
mod reading;
mod text;
mod writers;

pub use ear::{Change, Ear, Prepared};
pub use laws::{keeps_enough, keeps_the_fault, reads_in_pieces, reads_the_stream};
use listed::Listed;
pub use opening::{Desktop, greetings, put_greeting};
pub use partial::DESKTOP_SIZE;
use pixel_translate::{Area, PixelFormat};
pub use reading::phase_after;
pub use writers::{
    put_bell, put_colour_map, put_cut_text, put_result, put_security, put_server_init,
    put_update_head, put_version,
};

/// The error of a call that is refused memory.
pub use std::alloc::AllocError as OutOfMemory;

/// A version of the protocol, as it is served (RFC 6143 section 7.1.1 and appendix A).
#[derive(Clone, Copy, Debug, PartialEq, Eq)]
pub enum Version {
    /// Every number but 003.007 and 003.008.
    V33,
    /// 003.007.
    V37,
    /// 003.008.
    V38,
}

/// An encoding of pixels (RFC 6143 section 7.7).
#[derive(Clone, Copy, Debug, PartialEq, Eq)]
pub enum Encoding {
    /// Number 0.
    Raw,
    /// Number 2.
    Rre,
    /// Number 5.
    Hextile,
}

/// What a viewer tells the application (RFC 6143 sections 7.5.4 to 7.5.6).
#[derive(Debug, Drop)]
pub enum Input {
    /// A key, by its keysym of the X Window System, which went down or up.
    Key { down: bool, key: u32 },
    /// The buttons that are down, a bit each, and where the pointer is. The place may lie off the framebuffer.
    Pointer { mask: u8, x: u16, y: u16 },
    /// The viewer's cut text. Of a text of more than 262,144 bytes the first 262,144 are kept, and it is shortened.
    Text { text: Listed<u8>, shortened: bool },
}

/// What a viewer says.
#[derive(Debug, Drop)]
pub enum Item {
    /// The version that is served from here on (RFC 6143 section 7.1.1).
    Version(Version),
    /// The security type None (RFC 6143 section 7.1.2). Version 3.3 has no choice.
    Choice,
    /// ClientInit (RFC 6143 section 7.3.1). A flag is true where it isn't 0.
    Init {
        shared: bool,
    },
    /// SetPixelFormat (RFC 6143 section 7.5.1).
    Format(PixelFormat),
    /// SetEncodings (RFC 6143 section 7.5.2): the first of Raw, RRE and Hextile in the list, Raw where there is none,
    /// whether CopyRect is listed, and whether DesktopSize is, which tells the viewer a new size (7.8.2).
    Encodings {
        preferred: Encoding,
        copyrect: bool,
        resize: bool,
    },
    /// FramebufferUpdateRequest (RFC 6143 section 7.5.3). The area may lie off the framebuffer.
    Request {
        incremental: bool,
        area: Area,
    },
    /// KeyEvent, PointerEvent or ClientCutText.
    Input(Input),
}

/// Where a conversation stands, and in which version.
#[derive(Clone, Copy, Debug, PartialEq, Eq)]
pub enum Phase {
    /// The viewer's version comes next.
    Version,
    /// The choice of a security type comes next, in 3.7 and 3.8.
    Choice(Version),
    /// ClientInit comes next.
    Init(Version),
    /// The opening is over, and messages come.
    Open(Version),
}

/// Why a viewer is heard no further.
#[derive(Clone, Copy, Debug, PartialEq, Eq)]
pub enum Fault {
    /// Its first twelve bytes are no version (RFC 6143 section 7.1.1), found at the twelfth.
    BadVersion,
    /// It chose another security type than None (RFC 6143 section 7.1.2).
    BadSecurityType,
    /// No message has this type (RFC 6143 section 7.5), found at that byte.
    UnknownMessage(u8),
    /// A pixel format has other than 8, 16 or 32 bits per pixel (RFC 6143 section 7.4), found at the last byte of its
    /// SetPixelFormat.
    BadBitsPerPixel,
    /// A pixel format of more than 8 bits needs a colour map, found there too.
    ColourMapUnsupported,
}

/// What a piece of a viewer's bytes adds: the items that end in it, in order, and the fault that the viewer has.
#[derive(Debug, Drop)]
pub struct Heard {
    /// The items, those before a fault in the same piece among them.
    pub items: Listed<Item>,
    /// The fault, which each further piece gives again.
    pub fault: Option<Fault>,
}
