//! The writers of the server's messages. Each appends to a vector, and takes memory at most once.
//!
//! An error is want of memory, and leaves the vector's elements as they were.
ghost use Rattle.std.specs.Prelude.{◌≡◌, ◌+◌, ◌≤◌, ◌++◌, length, slice_index, map, flat_map, vec_len, vec_capacity, OnOk, OnErr};
ghost use Rattle.std.specs.List.{range_with_len};
ghost use Rattle.pixel_translate.specs.Pixel.{be32};
ghost use Rattle.messages.specs.Server.{server_version, security, server_init, update_head, map_entry, entry_bytes, colour_map};
ghost use Rattle.messages.specs.Server.{bell, cut_text};

use crate::Version;
use pixel_translate::PixelFormat;
use std::alloc::AllocError;

/// Appends the version that the server has, 003.008 (RFC 6143 section 7.1.1; LibVNCServer's `rfbNewClient`).
pub fn put_version(out: &mut Vec<u8>) -> Result<(), AllocError>
    ensures ok { OnOk result (out.new.items ≡ out.old.items ++ server_version) }
    ensures err { OnErr result (out.new.items ≡ out.old.items) }
{
    out.extend_from_slice(b"RFB 003.008\n")
}

/// Appends the one security type None: as a list in 3.7 and 3.8, as the server's decision in 3.3
/// (RFC 6143 section 7.1.2 and appendix A; LibVNCServer's `rfbAuthNewClient`).
pub fn put_security(out: &mut Vec<u8>, version: Version) -> Result<(), AllocError>
    ensures ok { OnOk result (out.new.items ≡ out.old.items ++ security version) }
    ensures err { OnErr result (out.new.items ≡ out.old.items) }
{
    match version {
        Version::V33 => out.extend_from_slice(&1u32.to_be_bytes()),
        Version::V37 | Version::V38 => out.extend_from_slice(&[1, 1]),
    }
}

/// Appends the result of a security handshake that went well, a u32 of 0 (RFC 6143 section 7.1.3). Version 3.8 alone has it
/// with the type None.
pub fn put_result(out: &mut Vec<u8>) -> Result<(), AllocError>
    ensures ok { OnOk result (out.new.items ≡ out.old.items ++ be32 0) }
    ensures err { OnErr result (out.new.items ≡ out.old.items) }
{
    out.extend_from_slice(&0u32.to_be_bytes())
}

/// Appends bytes, for which there is capacity.
fn append(out: &mut Vec<u8>, bytes: &[u8])
    requires { vec_len out.old + length bytes.now ≤ vec_capacity out.old }
    ensures items { out.new.items ≡ out.old.items ++ bytes.now }
    ensures len { vec_len out.new ≡ vec_len out.old + length bytes.now }
    ensures capacity { vec_capacity out.old ≤ vec_capacity out.new }
{
    out.extend_from_slice(bytes).unwrap();
}

/// Appends ServerInit: the width and height of the framebuffer in pixels, the server's pixel format and the name. The name
/// has at most `u32::MAX` bytes, since its length is sent as a u32 (RFC 6143 section 7.3.2).
pub fn put_server_init(
    out: &mut Vec<u8>,
    width: u16,
    height: u16,
    name: &[u8],
) -> Result<(), AllocError>
    requires { length name.now ≤ u32.MAX }
    ensures ok { OnOk result (out.new.items ≡ out.old.items ++ server_init width height name.now) }
    ensures err { OnErr result (out.new.items ≡ out.old.items) }
{
    out.reserve(24 + name.len())?;
    append(out, &width.to_be_bytes());
    append(out, &height.to_be_bytes());
    append(out, &PixelFormat::server().to_bytes());
    append(out, &(name.len() as u32).to_be_bytes());
    append(out, name);
    Ok(())
}

/// Appends the front of a FramebufferUpdate of this many rectangles
/// (RFC 6143 section 7.6.1; LibVNCServer's `rfbSendFramebufferUpdate`).
pub fn put_update_head(out: &mut Vec<u8>, count: u16) -> Result<(), AllocError>
    ensures ok { OnOk result (out.new.items ≡ out.old.items ++ update_head count) }
    ensures err { OnErr result (out.new.items ≡ out.old.items) }
{
    let [high, low] = count.to_be_bytes();
    out.extend_from_slice(&[0, 0, high, low])
}

/// Returns the entry of the colour map for `pixel`, of eight bits: red, green and blue, each from 0 to 65535.
fn entry_of(pixel: u8) -> [u16; 3]
    ensures { map_entry pixel ≡ (slice_index result 0, slice_index result 1, slice_index result 2) }
{
    let red = u32::from(pixel % 8) * 65535 / 7;
    let green = u32::from(pixel / 8 % 8) * 65535 / 7;
    let blue = u32::from(pixel / 64) * 65535 / 3;
    [red as u16, green as u16, blue as u16]
}

/// Returns the six bytes of `entry`.
fn entry_bytes(entry: [u16; 3]) -> [u8; 6]
    ensures { result ≡ entry_bytes (slice_index entry 0, slice_index entry 1, slice_index entry 2) }
{
    let [red_high, red_low] = entry[0].to_be_bytes();
    let [green_high, green_low] = entry[1].to_be_bytes();
    let [blue_high, blue_low] = entry[2].to_be_bytes();
    [
        red_high, red_low, green_high, green_low, blue_high, blue_low,
    ]
}

/// Appends the entries of the colour map, for which there is capacity.
fn append_entries(out: &mut Vec<u8>)
    requires { vec_len out.old + 1536 ≤ vec_capacity out.old }
    ensures { out.new.items ≡ out.old.items ++ flat_map entry_bytes (map map_entry (range_with_len 0 256)) }
{
    for pixel in 0..256usize {
        append(out, &entry_bytes(entry_of(pixel as u8)));
    }
}

/// Appends the server's whole colour map, by which a pixel of eight bits is a colour: SetColourMapEntries with 256 entries,
/// 1,542 bytes (RFC 6143 section 7.6.2; LibVNCServer's `rfbSendSetColourMapEntries`).
pub fn put_colour_map(out: &mut Vec<u8>) -> Result<(), AllocError>
    ensures ok { OnOk result (out.new.items ≡ out.old.items ++ colour_map) }
    ensures err { OnErr result (out.new.items ≡ out.old.items) }
{
    out.reserve(1542)?;
    append(out, &[1, 0, 0, 0, 1, 0]);
    append_entries(out);
    Ok(())
}

/// Appends a Bell (RFC 6143 section 7.6.3; LibVNCServer's `rfbSendBell`).
pub fn put_bell(out: &mut Vec<u8>) -> Result<(), AllocError>
    ensures ok { OnOk result (out.new.items ≡ out.old.items ++ bell) }
    ensures err { OnErr result (out.new.items ≡ out.old.items) }
{
    out.extend_from_slice(&[2])
}

/// Appends a ServerCutText. The text has at most `u32::MAX` bytes, since its length is sent as a u32
/// (RFC 6143 section 7.6.4; LibVNCServer's `rfbSendServerCutText`).
pub fn put_cut_text(out: &mut Vec<u8>, text: &[u8]) -> Result<(), AllocError>
    requires { length text.now ≤ u32.MAX }
    ensures ok { OnOk result (out.new.items ≡ out.old.items ++ cut_text text.now) }
    ensures err { OnErr result (out.new.items ≡ out.old.items) }
{
    out.reserve(8 + text.len())?;
    append(out, &[3, 0, 0, 0]);
    append(out, &(text.len() as u32).to_be_bytes());
    append(out, text);
    Ok(())
}
