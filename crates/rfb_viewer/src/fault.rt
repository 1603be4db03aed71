//! Why a viewer reads no further.

/// What is wrong with a server's bytes, or with the viewer.
#[derive(Clone, Copy, Debug, PartialEq, Eq)]
pub enum FaultKind {
    /// The first twelve bytes are no version of the RFC, or one below the viewer's (RFC 6143 section 7.1.1).
    Version,
    /// The security type None isn't offered (RFC 6143 section 7.1.2 and appendix A).
    SecurityType,
    /// The security type wasn't accepted (RFC 6143 section 7.1.3).
    SecurityResult,
    /// Pixels of other than 8, 16 or 32 bits (RFC 6143 section 7.4).
    BitsPerPixel,
    /// Pixels that need a colour map (RFC 6143 section 7.4).
    ColourMap,
    /// A message of a type that isn't read (RFC 6143 section 7.6).
    Message,
    /// A rectangle that leaves the screen (RFC 6143 section 7.6.1).
    Rectangle,
    /// An encoding that isn't read (RFC 6143 section 7.7).
    Encoding,
    /// A copy from places off the screen (RFC 6143 section 7.7.2).
    Source,
    /// A subrectangle that leaves its rectangle or its tile (RFC 6143 sections 7.7.3 and 7.7.4).
    Subrectangle,
    /// A tile without a background, and none is carried to it (RFC 6143 section 7.7.4).
    NoBackground,
    /// A tile of subrectangles without pixels of their own, and no foreground is carried to it (RFC 6143 section 7.7.4).
    NoForeground,
    /// A tile with a foreground whose subrectangles have pixels of their own (RFC 6143 section 7.7.4).
    TwoForegrounds,
    /// The bytes are right, but what they ask for has no memory.
    OutOfMemory,
}

/// Why a viewer reads no further, and where.
#[derive(Clone, Copy, Debug, PartialEq, Eq)]
pub struct Fault {
    pub kind: FaultKind,
    /// How many bytes of the stream stand before the field that is wrong.
    pub at: u64,
}

/// What is wrong with a group of bytes, and how many of them stand before the field that is wrong.
#[derive(Clone, Copy)]
pub(crate) struct Halt {
    pub kind: FaultKind,
    pub offset: u64,
}
