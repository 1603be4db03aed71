//! Colours written as pixels, many at once, into places that are there already.

ghost use Rattle.std.specs.Prelude.{◌≡◌, ◌*◌, length, flat_map};
ghost use Rattle.pixel_translate.specs.Pixel.{colour_bytes, bytes_per_pixel};

use pixel_translate::{Table, bytes, server_pixel, server_pixels_are_colours};

/// Writes a pixel for each colour into `places`, which have just their size.
pub fn write_pixels(places: &mut [u8], colours: &[u32], table: &Table)
    requires { length places.old ≡ bytes_per_pixel table.now * length colours.now }
    ensures { places.new ≡ flat_map (colour_bytes table.now) colours.now }
{
    let format = table.format();
    server_pixels_are_colours();
    if format.has_server_components() {
        bytes::write_pixels(places, colours, &format, server_pixel);
    } else {
        bytes::write_pixels(places, colours, &format, |colour| table.translate(colour));
    }
}
