//! Why bytes are not what a server says.

/// Why a server is read no further.
#[derive(Clone, Copy)]
pub enum ReadFault {
    /// No message has this type (RFC 6143, 7.6).
    UnknownMessage(u8),
    /// A rectangle is in an encoding that wasn't listed (RFC 6143, 7.5.2).
    UnknownEncoding(i32),
    /// A rectangle leaves the picture (RFC 6143, 7.6.1).
    OffPicture,
    /// What a rectangle is a copy of leaves the picture (RFC 6143, 7.7.2).
    CopyOffPicture,
    /// A tile has no background, and none is carried to it (RFC 6143, 7.7.4).
    NoBackground,
    /// A tile has subrectangles without pixels of their own, and no foreground (RFC 6143, 7.7.4).
    NoForeground,
}
