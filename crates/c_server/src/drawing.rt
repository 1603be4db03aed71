//! Drawing, as C asks for it.

ghost use Rattle.std.specs.Prelude.{◌≡◌, ◌<◌, ◌-◌, ◌^◌, take, map, length, None, Some, IfOk, IfErr, OnOk};
ghost use Rattle.c_screen.specs.Codes.{IsRefusal};
ghost use Rattle.c_screen.specs.Desk.{rect_of, IsListOf};
ghost use Rattle.c_server.specs.Desk.{region_due};
ghost use Rattle.c_server.specs.Calls.{Draws, DrawsRegion, TakesPixels};
ghost use Rattle.c_screen.specs.Pixels.{format_of, source_from};
ghost use Rattle.source_pixels.specs.declared.formats.SourceFormat.TheVariants as format;

use crate::desk::ServerDesk;
use c_screen::{
    Corners, DrawByCode, OUT_OF_RANGE, PixelLayout, RegionCall, SHUT, are_far, code_of, done_or,
    places_code, region_of, source_of,
};
use event_loop::{Region, drawn_is_served};
use screen::Drawing;

impl ServerDesk {
    /// Returns the places of a list of rectangles, or the code of the refusal: `SHUT`, then `OUT_OF_RANGE` where a coordinate is not from
    /// -2^20 to 2^20, then that of `OutOfMemory`.
    fn places_of(&self, list: &[Corners]) -> Result<Region, i32>
        ensures places { IfOk result (λ region. IsListOf (map rect_of list.now) region.list) }
        ensures accepted { OnOk result (region_due self.now (map rect_of list.now) ≡ None) }
        ensures refused { IfErr result (λ number. IsRefusal (region_due self.now (map rect_of list.now)) number) }
    {
        if self.events.is_none() {
            return Err(SHUT);
        }
        if are_far(list) {
            return Err(OUT_OF_RANGE);
        }
        match region_of(self.alloc, list) {
            Ok(region) => Ok(region),
            Err(e) => Err(code_of(e)),
        }
    }

    /// Takes a program's own pixels into the picture by `Canvas::take` (`rfbMarkRectAsModified` of `rfb.h`), from column `left` of row
    /// `top` on, and owes every viewer what differs. `bytes` has `width` columns and `height` rows of pixels, `stride` bytes from one row
    /// to the next; their format is a layout, or a table of colours, or where both are empty 32 bits `0x00RRGGBB` in little-endian order.
    /// What lies off the screen is left out. Returns how many places changed, at most 2^62, or `BAD_FORMAT`, `BAD_STRIDE` or
    /// `TOO_FEW_BYTES`; or `OutOfMemory`'s code, after which each place has its old colour or its new one.
    pub fn update_from(
        &mut self,
        left: u32,
        top: u32,
        width: u32,
        height: u32,
        bytes: &[u8],
        stride: u64,
        layouts: &[PixelLayout],
        table: &[u32],
    ) -> i64
        ensures { TakesPixels (source_from width height stride bytes.now (format_of layouts.now (length table.now) (format.Table table.entry))) left top self.old self.new result }
    {
        let Some(events) = &mut self.events else {
            return i64::from(SHUT);
        };
        let source = match source_of(bytes, stride, width, height, layouts, table) {
            Ok(source) => source,
            Err(code) => return i64::from(code),
        };
        drawn_is_served();
        places_code(events.canvas().take(self.alloc, left, top, &source))
    }
}

impl DrawByCode for ServerDesk {
    ghost draws = { Draws };

    ghost draws_places = { DrawsRegion };

    fn draw(&mut self, drawing: &Drawing<'_>) -> i32 {
        let Some(events) = &mut self.events else {
            return SHUT;
        };
        drawn_is_served();
        done_or(events.canvas().draw(drawing))
    }

    fn draw_places(&mut self, list: &[Corners], call: RegionCall) -> i32 {
        match self.places_of(list) {
            Ok(region) => self.draw(&call.with(&region)),
            Err(code) => code,
        }
    }
}
