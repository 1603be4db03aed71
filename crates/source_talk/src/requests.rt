//! What is said to a source once the conversation is open (RFC 6143, 7.5).

ghost use Rattle.std.specs.Prelude.{◌≡◌, ◌≤◌, ◌∷◌, length};
ghost use Rattle.pixel_translate.specs.Pixel.{be32};
ghost use Rattle.source_talk.specs.Requests.{format_message, encodings_message, listed_by, request_message, key_message, pointer_message};

use arrayvec::ArrayVec;
use pixel_translate::PixelFormat;

/// The longest message but for a text, in bytes: SetEncodings with five encodings.
pub(crate) const LONGEST: usize = 24;

/// The encodings that are listed (RFC 6143, 7.5.2): CopyRect, Hextile, RRE, Raw and DesktopSize, the preferred first.
const PACKED: [i32; 5] = [1, 5, 2, 0, -223];

/// Where Raw is preferred: Raw, CopyRect and DesktopSize.
const PLAIN: [i32; 3] = [0, 1, -223];

/// Returns SetPixelFormat to the server's own format (RFC 6143, 7.5.1).
pub(crate) fn format_bytes() -> [u8; 20]
    ensures { result ≡ format_message }
{
    let mut bytes = [0; 20];
    bytes[4..].copy_from_slice(&PixelFormat::server().to_bytes());
    bytes
}

/// Returns the encodings that are listed.
fn listed_by(raw: bool) -> &'static [i32]
    ensures value { result.now ≡ listed_by raw }
    ensures few { length result.now ≤ 5 }
{
    if raw { &PLAIN } else { &PACKED }
}

/// Returns SetEncodings (RFC 6143, 7.5.2).
pub(crate) fn encodings_bytes(raw: bool) -> ArrayVec<u8, LONGEST>
    ensures { result.items ≡ encodings_message (listed_by raw) }
{
    let listed = listed_by(raw);
    let [high, low] = (listed.len() as u16).to_be_bytes();
    let mut bytes = ArrayVec::new();
    bytes.try_extend_from_slice(&[2, 0, high, low]).unwrap();
    'encodings: for encoding in listed {
        bytes
            .try_extend_from_slice(&encoding.to_be_bytes())
            .unwrap();
    }
    bytes
}

/// Returns FramebufferUpdateRequest for all of a picture (RFC 6143, 7.5.3).
pub(crate) fn request_bytes(incremental: bool, width: u16, height: u16) -> [u8; 10]
    ensures { result ≡ request_message incremental width height }
{
    let ([w, x], [h, y]) = (width.to_be_bytes(), height.to_be_bytes());
    [3, u8::from(incremental), 0, 0, 0, 0, w, x, h, y]
}

/// Returns KeyEvent (RFC 6143, 7.5.4).
pub(crate) fn key_bytes(down: bool, key: u32) -> [u8; 8]
    ensures { result ≡ key_message down key }
{
    let [a, b, c, d] = key.to_be_bytes();
    [4, u8::from(down), 0, 0, a, b, c, d]
}

/// Returns PointerEvent (RFC 6143, 7.5.5).
pub(crate) fn pointer_bytes(mask: u8, x: u16, y: u16) -> [u8; 6]
    ensures { result ≡ pointer_message mask x y }
{
    let ([a, b], [c, d]) = (x.to_be_bytes(), y.to_be_bytes());
    [5, mask, a, b, c, d]
}

/// Returns the head of ClientCutText, for a text of `length` bytes (RFC 6143, 7.5.6).
pub(crate) fn text_head(length: u32) -> [u8; 8]
    ensures { result ≡ 6 ∷ 0 ∷ 0 ∷ 0 ∷ be32 length }
{
    let [a, b, c, d] = length.to_be_bytes();
    [6, 0, 0, 0, a, b, c, d]
}
