//! What a frame's first bytes say (RFC 6455, section 5.2).

ghost use Rattle.std.specs.Prelude.{◌≡◌, ◌+◌, ◌%◌, ◌≤◌, length, slice_index};
ghost use Rattle.web_stream.specs.Frames.{is_control, extended_size, control_size, kept_size, key_at, payload_size, is_wrong_size};

/// How many bytes of payload a control frame has at most (section 5.5).
pub(crate) const CONTROL_PAYLOAD: usize = 125;

/// How many bytes of a client's frame are kept at most: a head of two bytes and a key, and a control frame's payload.
pub(crate) const KEPT: usize = 131;

/// Returns whether a frame with this first byte is a control frame (section 5.5).
pub(crate) fn is_control(first: u8) -> bool
    ensures { result ≡ is_control first }
{
    first % 16 >= 8
}

/// Returns how many bytes of extended payload length follow a head's second byte.
pub(crate) fn extended_size(second: u8) -> usize
    ensures size { result ≡ extended_size second }
    ensures bound { result ≤ 8 }
    ensures eight { second % 128 ≡ 127 → result ≡ 8 }
{
    match second % 128 {
        126 => 2,
        127 => 8,
        _ => 0,
    }
}

/// Returns how many bytes of payload are kept: a control frame's.
fn control_size(first: u8, second: u8) -> usize
    ensures size { result ≡ control_size first second }
    ensures bound { result ≤ 127 }
{
    if is_control(first) {
        usize::from(second % 128)
    } else {
        0
    }
}

/// Returns how many bytes are kept of a client's frame that begins with these two: its head, and a control frame's payload.
pub(crate) fn kept_size(first: u8, second: u8) -> usize
    ensures size { result ≡ kept_size 4 first second }
    ensures least { 6 + extended_size second ≤ result }
    ensures eight { second % 128 ≡ 127 → 14 ≤ result }
{
    6 + extended_size(second) + control_size(first, second)
}

/// Returns the masking key that begins at a place (section 5.3).
pub(crate) fn key_at(bytes: &[u8], at: usize) -> [u8; 4]
    requires { at + 4 ≤ length bytes.now }
    ensures { result ≡ key_at at bytes.now }
{
    [bytes[at], bytes[at + 1], bytes[at + 2], bytes[at + 3]]
}

/// Returns how many bytes of payload a head says.
pub(crate) fn payload_size(bytes: &[u8]) -> u64
    requires head { 4 ≤ length bytes.now }
    requires eight { slice_index bytes.now 1 % 128 ≡ 127 → 10 ≤ length bytes.now }
    ensures { result ≡ payload_size bytes.now }
{
    match bytes[1] % 128 {
        126 => u64::from(u16::from_be_bytes([bytes[2], bytes[3]])),
        127 => u64::from_be_bytes([
            bytes[2], bytes[3], bytes[4], bytes[5], bytes[6], bytes[7], bytes[8], bytes[9],
        ]),
        short => u64::from(short),
    }
}

/// Returns whether a head's length is not in its shortest form, or is 2^63 or more. `second` is the head's second byte.
pub(crate) fn is_wrong_size(second: u8, size: u64) -> bool
    ensures { result ≡ is_wrong_size second size }
{
    match second % 128 {
        126 => size < 126,
        127 => size < 65_536 || size >= 0x8000_0000_0000_0000,
        _ => false,
    }
}
