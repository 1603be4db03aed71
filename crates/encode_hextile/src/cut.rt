//! A tile cut out of the rows of a rectangle.

ghost use Rattle.std.specs.Prelude.{◌≡◌, true, ◌-◌, ◌*◌, ◌+◌, ◌<◌, ◌≤◌, length, map, min};
ghost use Rattle.std.specs.List.{concat};
ghost use Rattle.pixel_translate.specs.Pixel.{pixel, server_format};
ghost use Rattle.encode_hextile.specs.Tiles.{pixel_rows, tile_rows};

use pixel_translate::{Table, server_pixel};
use subrectangles::rows::Rows;

/// Returns the pixel of `colour`: `known` if it is `last` again, whose pixel that is.
fn pixel_after(table: &Table, last: u32, known: u32, colour: u32) -> u32
    requires { known ≡ pixel table.now last }
    ensures { result ≡ pixel table.now colour }
{
    if colour == last {
        known
    } else {
        table.translate(colour)
    }
}

/// Writes the pixels of a row of colours.
fn write_row(places: &mut [u32], colours: &[u32], table: &Table)
    requires { length places.old ≡ length colours.now }
    ensures { places.new ≡ map (pixel table.now) colours.now }
{
    let mut last = 0;
    let mut known = table.translate(0);
    for x in 0..colours.len() {
        known = pixel_after(table, last, known, colours[x]);
        last = colours[x];
        places[x] = known;
    }
}

/// Writes the pixels of a row of colours in the server's format.
fn write_server_row(places: &mut [u32], colours: &[u32])
    requires { length places.old ≡ length colours.now }
    ensures { places.new ≡ map (pixel server_format) colours.now }
{
    for x in 0..colours.len() {
        places[x] = server_pixel(colours[x]);
    }
}

/// Writes the pixels of a row of colours, by the quicker way.
fn write_either(places: &mut [u32], colours: &[u32], table: &Table, is_server: bool)
    requires len { length places.old ≡ length colours.now }
    requires known { is_server ≡ true → table.now ≡ server_format }
    ensures { places.new ≡ map (pixel table.now) colours.now }
{
    if is_server {
        write_server_row(places, colours);
    } else {
        write_row(places, colours, table);
    }
}

/// Returns how many places of `side`, a side of a rectangle, belong to the tile numbered `tile`: 16, or fewer at its end.
pub(crate) fn side_of(side: usize, tile: usize) -> usize
    requires { 16 * tile < side }
    ensures size { result ≡ min 16 (side - 16 * tile) }
    ensures some { 0 < result }
    ensures most { result ≤ 16 }
    ensures inside { 16 * tile + result ≤ side }
{
    (side - 16 * tile).min(16)
}

/// Writes the pixels of a tile row by row into `places`, which have just its size.
pub(crate) fn cut_tile(
    places: &mut [u32],
    colours: &Rows,
    column: usize,
    row: usize,
    table: &Table,
    is_server: bool,
)
    requires left { 16 * column < colours.now.width }
    requires top { 16 * row < colours.now.height }
    requires size { length places.old ≡ min 16 (colours.now.width - 16 * column) * min 16 (colours.now.height - 16 * row) }
    requires known { is_server ≡ true → table.now ≡ server_format }
    ensures { places.new ≡ concat (tile_rows (pixel_rows table.now colours.now) (record { column = column; row = row })) }
{
    let across = side_of(colours.width, column);
    let down = side_of(colours.height, row);
    for y in 0..down {
        let source = colours.row(16 * row + y);
        let start = 16 * column;
        write_either(
            &mut places[y * across..y * across + across],
            &source[start..start + across],
            table,
            is_server,
        );
    }
}
