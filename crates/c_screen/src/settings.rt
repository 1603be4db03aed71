//! What a viewer has set, in numbers.

ghost use Rattle.std.specs.Prelude.{◌≡◌, pos, MatchResult};
ghost use Rattle.c_screen.specs.Calls.{count_shown, shown_in};
ghost use Rattle.c_screen.specs.Codes.{code_of};
ghost use Rattle.c_screen.specs.Settings.{settings_as, settings_words, words_of, encoding_number, bit_count};

use crate::codes::code_of;
use crate::output::copy_to;
use crate::told::one_if;
use screen::{BitsPerPixel, Encoding, PixelFormat, Pixels, ScreenError, Settings};

/// What a viewer has set by its messages (RFC 6143, 7.3.1, 7.5.1 to 7.5.3).
#[derive(Clone, Copy)]
pub struct ViewerSettings {
    /// 1 where its ClientInit asked that other viewers stay connected; 0 before it. The server serves all of them either way.
    pub shared: u32,
    /// The number of its encoding (7.7): 0 for Raw, 2 for RRE, 5 for Hextile; the first of these in its SetEncodings, and Raw where
    /// there is none.
    pub encoding: u32,
    /// 1 where its SetEncodings lists CopyRect (7.7.2), else 0.
    pub copy_rect: u32,
    /// 1 where its SetEncodings lists DesktopSize (7.8.2), else 0.
    pub desktop_size: u32,
    /// Of the pixel format that it is sent (7.4), the server's until its SetPixelFormat: 8, 16 or 32.
    pub bits_per_pixel: u32,
    /// Of the format: how many of these bits are used, as the viewer says it.
    pub depth: u32,
    /// Of the format: 1 where a pixel's highest byte is sent first, else 0.
    pub big_endian: u32,
    /// Of the format: 1 where a pixel is a colour, and 0 where it is a place of the colour map; then the six fields below are 0.
    pub true_colour: u32,
    /// Of a colour: the greatest value of its red.
    pub red_max: u32,
    /// Of a colour: the greatest value of its green.
    pub green_max: u32,
    /// Of a colour: the greatest value of its blue.
    pub blue_max: u32,
    /// Of a colour: how many bits stand below its red.
    pub red_shift: u32,
    /// Of a colour: how many bits stand below its green.
    pub green_shift: u32,
    /// Of a colour: how many bits stand below its blue.
    pub blue_shift: u32,
    /// How many of its FramebufferUpdateRequests were not incremental (7.5.3), so that they want places whether these changed or not; at
    /// most 2^64 - 1.
    pub full_requests: u64,
}

/// Returns the number of an encoding (RFC 6143, 7.7).
fn encoding_number(encoding: Encoding) -> u32
    ensures { result ≡ encoding_number encoding }
{
    match encoding {
        Encoding::Raw => 0,
        Encoding::Rre => 2,
        Encoding::Hextile => 5,
    }
}

/// Returns how many bits a pixel has, as a number.
fn bit_count(bits: BitsPerPixel) -> u32
    ensures { result ≡ bit_count bits }
{
    match bits {
        BitsPerPixel::Eight => 8,
        BitsPerPixel::Sixteen => 16,
        BitsPerPixel::ThirtyTwo => 32,
    }
}

/// Returns `settings` in numbers.
fn settings_as(settings: &Settings) -> ViewerSettings
    ensures { result ≡ settings_as settings.now }
{
    let PixelFormat {
        depth,
        big_endian,
        pixels,
    } = settings.format;
    let with_colour_map = ViewerSettings {
        shared: one_if(settings.shared),
        encoding: encoding_number(settings.encoding),
        copy_rect: one_if(settings.uses_copyrect),
        desktop_size: one_if(settings.takes_sizes),
        bits_per_pixel: 8,
        depth: u32::from(depth),
        big_endian: one_if(big_endian),
        true_colour: 0,
        red_max: 0,
        green_max: 0,
        blue_max: 0,
        red_shift: 0,
        green_shift: 0,
        blue_shift: 0,
        full_requests: settings.full_requests,
    };
    match pixels {
        Pixels::ColourMap => with_colour_map,
        Pixels::TrueColour {
            bits,
            red,
            green,
            blue,
        } => ViewerSettings {
            bits_per_pixel: bit_count(bits),
            true_colour: 1,
            red_max: u32::from(red.max),
            green_max: u32::from(green.max),
            blue_max: u32::from(blue.max),
            red_shift: u32::from(red.shift),
            green_shift: u32::from(green.shift),
            blue_shift: u32::from(blue.shift),
            ..with_colour_map
        },
    }
}

/// Returns the 32-bit words of which a `vnc_settings` consists for C.
fn words_of(settings: ViewerSettings) -> [u32; 16]
    ensures { result ≡ words_of settings }
{
    [
        settings.shared,
        settings.encoding,
        settings.copy_rect,
        settings.desktop_size,
        settings.bits_per_pixel,
        settings.depth,
        settings.big_endian,
        settings.true_colour,
        settings.red_max,
        settings.green_max,
        settings.blue_max,
        settings.red_shift,
        settings.green_shift,
        settings.blue_shift,
        (settings.full_requests % (1 << 32)) as u32,
        (settings.full_requests / (1 << 32)) as u32,
    ]
}

/// Puts the words of what a viewer has set at the start of `room`, as many as fit; the rest of `room` stays. Returns how many, or the
/// code of the refusal in `answer`.
pub fn show_settings(answer: Result<Settings, ScreenError>, room: &mut [u32]) -> i32
    ensures code { MatchResult answer (λ settings. result ≡ pos (count_shown (settings_words settings) room.old)) (λ e. result ≡ code_of e) }
    ensures room { MatchResult answer (λ settings. room.new ≡ shown_in (settings_words settings) room.old) (λ _. room.new ≡ room.old) }
{
    let settings = match answer {
        Ok(settings) => settings,
        Err(e) => return code_of(e),
    };
    let words = words_of(settings_as(&settings));
    copy_to(room, &words) as i32
}
