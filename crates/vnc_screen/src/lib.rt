//! A screen for programs in C: doors to `c_screen`, one for each of its calls. The program has the sockets and the loop; nothing
//! here waits, locks or starts a thread.
//!
//! Each door takes a pointer to memory of the program's in which a desk lies: `vnc_screen_init` puts one there, which is shut. Its
//! contract is that of the desk's call, from the desk that lies there before to the one that lies there after it. Its comment names that
//! call, and the call's comment says what it answers.
#![tactic(auto)]

ghost use types.Logic.{sem};
ghost use denote.RawPtr.{room_at};
ghost use Rattle.vnc_screen.specs.Lying.{desk_row, update_row, holds, leaves, holds_update, leaves_update, holds_both, leaves_both};
ghost use Rattle.std.specs.Mem.{type_size};
ghost use Rattle.std.specs.Prelude.{◌≡◌, ◌∷◌, [], ◌^◌, pos, map, min, length, is_some};
ghost use Rattle.screen.specs.Reading.{fault_in_rest, is_open_rest};
ghost use Rattle.screen.specs.Viewer.{is_asking};
ghost use Rattle.screen.specs.declared.Event.{Event};
ghost use Rattle.screen.specs.State.{viewer_at};
ghost use Rattle.c_screen.specs.Codes as codes;
ghost use Rattle.c_screen.specs.Calls.{Opens, Draws, DrawsRegion, Connects, Hears, Cuts, CutsInto, Closes, TellsPending, Gives, GivesHeld, Fetches, Shows, ShowsSettings, ShowsText, TakesPixels, Tells, numbers_of, of_viewer, colour_at};
ghost use Rattle.c_screen.specs.Desk.{nothing_there, rect_of, config_of};
ghost use Rattle.c_screen.specs.Pixels.{format_of, source_from};
ghost use Rattle.source_pixels.specs.declared.formats.SourceFormat.TheVariants as format;

use c_screen::{Corners, Desk, DeskUpdate, DrawByCode, PixelLayout, Told};
use std::alloc::Global;
use std::mem::size_of;
use std::ptr;

/// `struct vnc_screen`, opaque to C.
#[repr(C)]
#[derive(Drop)]
pub struct Place {
    unseen: u8,
}

/// `struct vnc_update`, opaque to C.
#[repr(C)]
#[derive(Drop)]
pub struct UpdatePlace {
    unseen: u8,
}

/// Returns the number of this interface: `VNC_SCREEN_ABI` of the header.
#[unsafe(no_mangle)]
pub extern "C" fn vnc_screen_abi() -> u32
    ensures { result ≡ 5 }
{
    5
}

/// Returns how many bytes of memory C has to give for a screen; their address is a multiple of 16.
#[unsafe(no_mangle)]
pub extern "C" fn vnc_screen_size() -> usize
    ensures { result ≡ type_size desk_row }
{
    size_of::<Desk>()
}

/// Puts a desk that is shut into C's memory.
#[unsafe(no_mangle)]
pub unsafe extern "C" fn vnc_screen_init(at: *mut Place, alloc: Global)
    requires* { sem 𝓛 (room_at desk_row at) }
    ensures* { sem 𝓛 (leaves at (λ desk. desk ≡ nothing_there)) }
{
    ptr::write(at as *mut Desk, Desk::new(alloc))
}

/// Paints a rectangle (`Desk::paint`).
#[unsafe(no_mangle)]
pub unsafe extern "C" fn vnc_screen_paint(
    at: *mut Place,
    x1: i32,
    y1: i32,
    x2: i32,
    y2: i32,
    colours: &[u32],
) -> i32
    ghost before: { desk_row.Denot }
    requires* { sem 𝓛 (holds at before) }
    ensures* { sem 𝓛 (leaves at (λ after. Draws (Event.Paint (record { x1 = x1; y1 = y1; x2 = x2; y2 = y2 }) colours.now) before after result)) }
{
    Desk::paint(&mut *(at as *mut Desk), x1, y1, x2, y2, colours)
}

/// Paints a rectangle, which no viewer is sent before it is marked (`Desk::write_pixels`).
#[unsafe(no_mangle)]
pub unsafe extern "C" fn vnc_screen_write_pixels(
    at: *mut Place,
    x1: i32,
    y1: i32,
    x2: i32,
    y2: i32,
    colours: &[u32],
) -> i32
    ghost before: { desk_row.Denot }
    requires* { sem 𝓛 (holds at before) }
    ensures* { sem 𝓛 (leaves at (λ after. Draws (Event.Write (record { x1 = x1; y1 = y1; x2 = x2; y2 = y2 }) colours.now) before after result)) }
{
    Desk::write_pixels(&mut *(at as *mut Desk), x1, y1, x2, y2, colours)
}

/// Marks a rectangle as changed (`Desk::mark_rect`).
#[unsafe(no_mangle)]
pub unsafe extern "C" fn vnc_screen_mark_rect(
    at: *mut Place,
    x1: i32,
    y1: i32,
    x2: i32,
    y2: i32,
) -> i32
    ghost before: { desk_row.Denot }
    requires* { sem 𝓛 (holds at before) }
    ensures* { sem 𝓛 (leaves at (λ after. Draws (Event.Mark (record { x1 = x1; y1 = y1; x2 = x2; y2 = y2 } ∷ [])) before after result)) }
{
    Desk::mark_rect(&mut *(at as *mut Desk), x1, y1, x2, y2)
}

/// Tells the viewers that pixels move into a rectangle, and leaves the picture (`Desk::schedule_copy_rect`).
#[unsafe(no_mangle)]
pub unsafe extern "C" fn vnc_screen_schedule_copy_rect(
    at: *mut Place,
    x1: i32,
    y1: i32,
    x2: i32,
    y2: i32,
    dx: i32,
    dy: i32,
) -> i32
    ghost before: { desk_row.Denot }
    requires* { sem 𝓛 (holds at before) }
    ensures* { sem 𝓛 (leaves at (λ after. Draws (Event.ScheduleCopy (record { x1 = x1; y1 = y1; x2 = x2; y2 = y2 } ∷ []) dx dy) before after result)) }
{
    Desk::schedule_copy_rect(&mut *(at as *mut Desk), x1, y1, x2, y2, dx, dy)
}

/// Moves pixels into a rectangle, and tells the viewers (`Desk::do_copy_rect`).
#[unsafe(no_mangle)]
pub unsafe extern "C" fn vnc_screen_do_copy_rect(
    at: *mut Place,
    x1: i32,
    y1: i32,
    x2: i32,
    y2: i32,
    dx: i32,
    dy: i32,
) -> i32
    ghost before: { desk_row.Denot }
    requires* { sem 𝓛 (holds at before) }
    ensures* { sem 𝓛 (leaves at (λ after. Draws (Event.DoCopy (record { x1 = x1; y1 = y1; x2 = x2; y2 = y2 } ∷ []) dx dy) before after result)) }
{
    Desk::do_copy_rect(&mut *(at as *mut Desk), x1, y1, x2, y2, dx, dy)
}

/// Takes a program's own pixels into the picture (`Desk::update_from`).
#[unsafe(no_mangle)]
pub unsafe extern "C" fn vnc_screen_update_from(
    at: *mut Place,
    left: u32,
    top: u32,
    width: u32,
    height: u32,
    bytes: &[u8],
    stride: u64,
    layouts: &[PixelLayout],
    table: &[u32],
) -> i64
    ghost before: { desk_row.Denot }
    requires* { sem 𝓛 (holds at before) }
    ensures* { sem 𝓛 (leaves at (λ after. TakesPixels (source_from width height stride bytes.now (format_of layouts.now (length table.now) (format.Table table.entry))) left top before after result)) }
{
    Desk::update_from(
        &mut *(at as *mut Desk),
        left,
        top,
        width,
        height,
        bytes,
        stride,
        layouts,
        table,
    )
}

/// Rings the viewers' bells (`Desk::bell`).
#[unsafe(no_mangle)]
pub unsafe extern "C" fn vnc_screen_bell(at: *mut Place) -> i32
    ghost before: { desk_row.Denot }
    requires* { sem 𝓛 (holds at before) }
    ensures* { sem 𝓛 (leaves at (λ after. Draws (Event.Bell) before after result)) }
{
    Desk::bell(&mut *(at as *mut Desk))
}

/// Sends the viewers a copied text (`Desk::cut_text`).
#[unsafe(no_mangle)]
pub unsafe extern "C" fn vnc_screen_cut_text(at: *mut Place, text: &[u8]) -> i32
    ghost before: { desk_row.Denot }
    requires* { sem 𝓛 (holds at before) }
    ensures* { sem 𝓛 (leaves at (λ after. Draws (Event.CutText text.now) before after result)) }
{
    Desk::cut_text(&mut *(at as *mut Desk), text)
}

/// Replaces the picture by a black one of `width` columns and `height` rows (`Desk::new_framebuffer`).
#[unsafe(no_mangle)]
pub unsafe extern "C" fn vnc_screen_new_framebuffer(at: *mut Place, width: u32, height: u32) -> i32
    ghost before: { desk_row.Denot }
    requires* { sem 𝓛 (holds at before) }
    ensures* { sem 𝓛 (leaves at (λ after. Draws (Event.Resize width height) before after result)) }
{
    Desk::new_framebuffer(&mut *(at as *mut Desk), width, height)
}

/// Marks the places of the rectangles in `list` as changed (`Desk::mark_region`).
#[unsafe(no_mangle)]
pub unsafe extern "C" fn vnc_screen_mark_region(at: *mut Place, list: &[Corners]) -> i32
    ghost before: { desk_row.Denot }
    requires* { sem 𝓛 (holds at before) }
    ensures* { sem 𝓛 (leaves at (λ after. DrawsRegion (map rect_of list.now) (λ places. Event.Mark places) before after result)) }
{
    Desk::mark_region(&mut *(at as *mut Desk), list)
}

/// Tells the viewers that pixels move into the rectangles of `list`, and leaves the picture (`Desk::schedule_copy_region`).
#[unsafe(no_mangle)]
pub unsafe extern "C" fn vnc_screen_schedule_copy_region(
    at: *mut Place,
    list: &[Corners],
    dx: i32,
    dy: i32,
) -> i32
    ghost before: { desk_row.Denot }
    requires* { sem 𝓛 (holds at before) }
    ensures* { sem 𝓛 (leaves at (λ after. DrawsRegion (map rect_of list.now) (λ places. Event.ScheduleCopy places dx dy) before after result)) }
{
    Desk::schedule_copy_region(&mut *(at as *mut Desk), list, dx, dy)
}

/// Moves pixels into the rectangles of `list`, and tells the viewers (`Desk::do_copy_region`).
#[unsafe(no_mangle)]
pub unsafe extern "C" fn vnc_screen_do_copy_region(
    at: *mut Place,
    list: &[Corners],
    dx: i32,
    dy: i32,
) -> i32
    ghost before: { desk_row.Denot }
    requires* { sem 𝓛 (holds at before) }
    ensures* { sem 𝓛 (leaves at (λ after. DrawsRegion (map rect_of list.now) (λ places. Event.DoCopy places dx dy) before after result)) }
{
    Desk::do_copy_region(&mut *(at as *mut Desk), list, dx, dy)
}

/// Opens a black screen, and closes what was open; `name` has no zero at its end (`Desk::open`).
#[unsafe(no_mangle)]
pub unsafe extern "C" fn vnc_screen_open_n(
    at: *mut Place,
    width: u32,
    height: u32,
    name: &[u8],
    rects_per_update: u32,
) -> i32
    ghost before: { desk_row.Denot }
    requires* { sem 𝓛 (holds at before) }
    ensures* { sem 𝓛 (leaves at (λ after. Opens (config_of width height name.now rects_per_update) before after result)) }
{
    Desk::open(
        &mut *(at as *mut Desk),
        width,
        height,
        name,
        rects_per_update,
    )
}

/// Closes the screen, and drops all that it holds (`Desk::close`).
#[unsafe(no_mangle)]
pub unsafe extern "C" fn vnc_screen_close(at: *mut Place) -> i32
    ghost before: { desk_row.Denot }
    requires* { sem 𝓛 (holds at before) }
    ensures* { sem 𝓛 (leaves at (λ after. (after ≡ nothing_there) × (result ≡ codes.done))) }
{
    Desk::close(&mut *(at as *mut Desk))
}

/// Connects `viewer`; the server's version waits for it then (`Desk::connect`).
#[unsafe(no_mangle)]
pub unsafe extern "C" fn vnc_screen_connect(at: *mut Place, viewer: u64) -> i32
    ghost before: { desk_row.Denot }
    requires* { sem 𝓛 (holds at before) }
    ensures* { sem 𝓛 (leaves at (λ after. Connects viewer before after result)) }
{
    Desk::connect(&mut *(at as *mut Desk), viewer)
}

/// Hears `piece`, which the program read of `viewer` (`Desk::hear`).
#[unsafe(no_mangle)]
pub unsafe extern "C" fn vnc_screen_hear(at: *mut Place, viewer: u64, piece: &[u8]) -> i32
    ghost before: { desk_row.Denot }
    requires* { sem 𝓛 (holds at before) }
    ensures* { sem 𝓛 (leaves at (λ after. Hears viewer piece.now before after result)) }
{
    Desk::hear(&mut *(at as *mut Desk), viewer, piece)
}

/// Returns 1 where `vnc_screen_cut` would cut an update for `viewer`, else 0 (`Desk::is_pending`).
#[unsafe(no_mangle)]
pub unsafe extern "C" fn vnc_screen_is_pending(at: *mut Place, viewer: u64) -> i32
    ghost before: { desk_row.Denot }
    requires* { sem 𝓛 (holds at before) }
    ensures* { sem 𝓛 (leaves at (λ after. TellsPending viewer before after result)) }
{
    Desk::is_pending(&mut *(at as *mut Desk), viewer)
}

/// Cuts an update for `viewer`, which waits for it then (`Desk::cut`).
#[unsafe(no_mangle)]
pub unsafe extern "C" fn vnc_screen_cut(at: *mut Place, viewer: u64) -> i32
    ghost before: { desk_row.Denot }
    requires* { sem 𝓛 (holds at before) }
    ensures* { sem 𝓛 (leaves at (λ after. Cuts viewer before after result)) }
{
    Desk::cut(&mut *(at as *mut Desk), viewer)
}

/// Cuts an update for `viewer` into `update` (`Desk::cut_into`).
#[unsafe(no_mangle)]
pub unsafe extern "C" fn vnc_screen_cut_into(
    at: *mut Place,
    viewer: u64,
    update: *mut UpdatePlace,
) -> i32
    ghost before: { desk_row.Denot × update_row.Denot }
    requires* { sem 𝓛 (holds_both at update before.0 before.1) }
    ensures* { sem 𝓛 (leaves_both at update (λ after held. CutsInto viewer before.0 after before.1 held result)) }
{
    Desk::cut_into(
        &mut *(at as *mut Desk),
        viewer,
        &mut *(update as *mut DeskUpdate),
    )
}

/// Closes `viewer`, and drops what waits for it (`Desk::close_viewer`).
#[unsafe(no_mangle)]
pub unsafe extern "C" fn vnc_screen_close_viewer(at: *mut Place, viewer: u64) -> i32
    ghost before: { desk_row.Denot }
    requires* { sem 𝓛 (holds at before) }
    ensures* { sem 𝓛 (leaves at (λ after. Closes viewer before after result)) }
{
    Desk::close_viewer(&mut *(at as *mut Desk), viewer)
}

/// Fetches the next bytes that wait for `viewer` into `room` (`Desk::output`).
#[unsafe(no_mangle)]
pub unsafe extern "C" fn vnc_screen_output(at: *mut Place, viewer: u64, room: &mut [u8]) -> i32
    ghost before: { desk_row.Denot }
    requires* { sem 𝓛 (holds at before) }
    ensures* { sem 𝓛 (leaves at (λ after. Gives viewer before after room.old room.new result)) }
{
    Desk::output(&mut *(at as *mut Desk), viewer, room)
}

/// Fetches the next inputs of all viewers into `room`, up to the first text (`Desk::next_inputs`).
#[unsafe(no_mangle)]
pub unsafe extern "C" fn vnc_screen_next_inputs(at: *mut Place, room: &mut [Told]) -> i64
    ghost before: { desk_row.Denot }
    requires* { sem 𝓛 (holds at before) }
    ensures* { sem 𝓛 (leaves at (λ after. Fetches before after room.old room.new result)) }
{
    Desk::next_inputs(&mut *(at as *mut Desk), room)
}

/// Puts the first bytes of the text that `vnc_screen_next_inputs` fetched last into `room` (`Desk::text`).
#[unsafe(no_mangle)]
pub unsafe extern "C" fn vnc_screen_text(at: *mut Place, room: &mut [u8]) -> i32
    ghost before: { desk_row.Denot }
    requires* { sem 𝓛 (holds at before) }
    ensures* { sem 𝓛 (leaves at (λ after. ShowsText before after room.old room.new result)) }
{
    Desk::text(&mut *(at as *mut Desk), room)
}

/// Puts the viewers' numbers into `room`, in order of connecting (`Desk::numbers`).
#[unsafe(no_mangle)]
pub unsafe extern "C" fn vnc_screen_numbers(at: *mut Place, room: &mut [u64]) -> i32
    ghost before: { desk_row.Denot }
    requires* { sem 𝓛 (holds at before) }
    ensures* { sem 𝓛 (leaves at (λ after. Shows (numbers_of before.screen) before after room.old room.new result)) }
{
    Desk::numbers(&mut *(at as *mut Desk), room)
}

/// Returns how many viewers there are (`Desk::viewer_count`).
#[unsafe(no_mangle)]
pub unsafe extern "C" fn vnc_screen_viewer_count(at: *mut Place) -> i32
    ghost before: { desk_row.Denot }
    requires* { sem 𝓛 (holds at before) }
    ensures* { sem 𝓛 (leaves at (λ after. Tells (λ screen. pos (min (length screen.viewers) (2 ^ 30))) before after result)) }
{
    Desk::viewer_count(&mut *(at as *mut Desk))
}

/// Returns 1 where a viewer has this number, else 0 (`Desk::is_live`).
#[unsafe(no_mangle)]
pub unsafe extern "C" fn vnc_screen_is_live(at: *mut Place, viewer: u64) -> i32
    ghost before: { desk_row.Denot }
    requires* { sem 𝓛 (holds at before) }
    ensures* { sem 𝓛 (leaves at (λ after. Tells (λ screen. codes.one_or_zero (is_some (viewer_at screen viewer))) before after result)) }
{
    Desk::is_live(&mut *(at as *mut Desk), viewer)
}

/// Returns 1 where the opening of `viewer` is over and it met no fault, else 0 (`Desk::is_open`).
#[unsafe(no_mangle)]
pub unsafe extern "C" fn vnc_screen_is_open(at: *mut Place, viewer: u64) -> i32
    ghost before: { desk_row.Denot }
    requires* { sem 𝓛 (holds at before) }
    ensures* { sem 𝓛 (leaves at (λ after. Tells (of_viewer viewer (λ seen. codes.one_or_zero (is_open_rest seen.heard))) before after result)) }
{
    Desk::is_open(&mut *(at as *mut Desk), viewer)
}

/// Returns 1 where a request of the viewer's is unanswered, else 0 (`Desk::is_asking`).
#[unsafe(no_mangle)]
pub unsafe extern "C" fn vnc_screen_is_asking(at: *mut Place, viewer: u64) -> i32
    ghost before: { desk_row.Denot }
    requires* { sem 𝓛 (holds at before) }
    ensures* { sem 𝓛 (leaves at (λ after. Tells (of_viewer viewer (λ seen. codes.one_or_zero (is_asking seen))) before after result)) }
{
    Desk::is_asking(&mut *(at as *mut Desk), viewer)
}

/// Returns the `vnc_fault` of `viewer`, or 0 (`Desk::fault`).
#[unsafe(no_mangle)]
pub unsafe extern "C" fn vnc_screen_fault(at: *mut Place, viewer: u64) -> i32
    ghost before: { desk_row.Denot }
    requires* { sem 𝓛 (holds at before) }
    ensures* { sem 𝓛 (leaves at (λ after. Tells (of_viewer viewer (λ seen. codes.fault_code (fault_in_rest seen.heard))) before after result)) }
{
    Desk::fault(&mut *(at as *mut Desk), viewer)
}

/// Puts the first words of what `viewer` has set into `room` (`Desk::settings`).
#[unsafe(no_mangle)]
pub unsafe extern "C" fn vnc_screen_settings_n(at: *mut Place, viewer: u64, room: &mut [u32]) -> i32
    ghost before: { desk_row.Denot }
    requires* { sem 𝓛 (holds at before) }
    ensures* { sem 𝓛 (leaves at (λ after. ShowsSettings viewer before after room.old room.new result)) }
{
    Desk::settings(&mut *(at as *mut Desk), viewer, room)
}

/// Returns the picture's columns (`Desk::width`).
#[unsafe(no_mangle)]
pub unsafe extern "C" fn vnc_screen_width(at: *mut Place) -> i64
    ghost before: { desk_row.Denot }
    requires* { sem 𝓛 (holds at before) }
    ensures* { sem 𝓛 (leaves at (λ after. Tells (λ screen. pos screen.picture.width) before after result)) }
{
    Desk::width(&mut *(at as *mut Desk))
}

/// Returns the picture's rows (`Desk::height`).
#[unsafe(no_mangle)]
pub unsafe extern "C" fn vnc_screen_height(at: *mut Place) -> i64
    ghost before: { desk_row.Denot }
    requires* { sem 𝓛 (holds at before) }
    ensures* { sem 𝓛 (leaves at (λ after. Tells (λ screen. pos screen.picture.height) before after result)) }
{
    Desk::height(&mut *(at as *mut Desk))
}

/// Returns the colour of the place in column `x` of row `y` (`Desk::colour`).
#[unsafe(no_mangle)]
pub unsafe extern "C" fn vnc_screen_colour(at: *mut Place, x: u32, y: u32) -> i64
    ghost before: { desk_row.Denot }
    requires* { sem 𝓛 (holds at before) }
    ensures* { sem 𝓛 (leaves at (λ after. Tells (colour_at x y) before after result)) }
{
    Desk::colour(&mut *(at as *mut Desk), x, y)
}

/// Returns how many bytes of memory C has to give for an update; their address is a multiple of 16.
#[unsafe(no_mangle)]
pub extern "C" fn vnc_update_size() -> usize
    ensures { result ≡ type_size update_row }
{
    size_of::<DeskUpdate>()
}

/// Puts an update that holds nothing into C's memory.
#[unsafe(no_mangle)]
pub unsafe extern "C" fn vnc_update_init(at: *mut UpdatePlace)
    requires* { sem 𝓛 (room_at update_row at) }
    ensures* { sem 𝓛 (leaves_update at (λ held. held ≡ [])) }
{
    ptr::write(at as *mut DeskUpdate, DeskUpdate::new())
}

/// Fetches the update's next bytes into `room` (`DeskUpdate::output`).
#[unsafe(no_mangle)]
pub unsafe extern "C" fn vnc_update_output(at: *mut UpdatePlace, room: &mut [u8]) -> i32
    ghost before: { update_row.Denot }
    requires* { sem 𝓛 (holds_update at before) }
    ensures* { sem 𝓛 (leaves_update at (λ after. GivesHeld before after room.old room.new result)) }
{
    DeskUpdate::output(&mut *(at as *mut DeskUpdate), room)
}

/// Drops what the update holds (`DeskUpdate::clear`).
#[unsafe(no_mangle)]
pub unsafe extern "C" fn vnc_update_clear(at: *mut UpdatePlace) -> i32
    ghost before: { update_row.Denot }
    requires* { sem 𝓛 (holds_update at before) }
    ensures* { sem 𝓛 (leaves_update at (λ after. (after ≡ []) × (result ≡ codes.done))) }
{
    DeskUpdate::clear(&mut *(at as *mut DeskUpdate))
}
