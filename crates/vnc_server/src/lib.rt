//! A server in one thread for programs in C: doors to `c_server`, one for each of its calls. Nothing here locks or starts a thread,
//! and only `vnc_server_process_events` waits, for as long as it is told.
//!
//! Each door takes a pointer to memory of the program's in which a desk lies: `vnc_server_init` puts one there, which is shut. Its
//! contract is that of the desk's call, from the desk that lies there before to the one that lies there after it.
#![tactic(auto)]

ghost use types.Logic.{sem};
ghost use denote.RawPtr.{room_at};
ghost use Rattle.vnc_server.specs.Lying.{desk_row, waker_row, holds, leaves, holds_waker, leaves_waker, holds_beside_room, leaves_beside_waker};
ghost use Rattle.std.specs.Mem.{type_size};
ghost use Rattle.std.specs.Prelude.{◌≡◌, ◌∷◌, [], ◌^◌, pos, map, min, length, false, is_some, count_by};
ghost use Rattle.screen.specs.Reading.{is_open_rest};
ghost use Rattle.screen.specs.declared.Event.{Event};
ghost use Rattle.c_screen.specs.Codes as codes;
ghost use Rattle.c_screen.specs.Calls.{colour_at, of_viewer};
ghost use Rattle.c_screen.specs.Desk.{rect_of, config_of};
ghost use Rattle.c_server.specs.Desk.{nothing_there, rects_per_update};
ghost use Rattle.c_server.specs.Calls.{Listens, ListensAt, ListensFurther, ServesUnbound, Adopts, NamesRecord, record_state, TakesTurn, Draws, DrawsRegion, FetchesInputs, FetchesVisits, ShowsNumbers, ShowsText, ShowsSettings, ShowsTraffic, Tells, TellsAddress, TellsSome, TellsWait, LetsGo, TakesPixels, Wakes};
ghost use Rattle.c_screen.specs.Pixels.{format_of, source_from};
ghost use Rattle.source_pixels.specs.declared.formats.SourceFormat.TheVariants as format;

use c_server::{Corners, DrawByCode, PixelLayout, ServerDesk, ServerWaker, Told, Visit};
use std::alloc::Global;
use std::mem::size_of;
use std::ptr;

/// `struct vnc_server`, opaque to C.
#[repr(C)]
#[derive(Drop)]
pub struct Place {
    unseen: u8,
}

/// `struct vnc_waker`, opaque to C.
#[repr(C)]
#[derive(Drop)]
pub struct WakerPlace {
    unseen: u8,
}

/// Returns the number of this interface: `VNC_SERVER_ABI` of the header.
#[unsafe(no_mangle)]
pub extern "C" fn vnc_server_abi() -> u32
    ensures { result ≡ 6 }
{
    6
}

/// Returns how many bytes of memory C has to give for a server; their address is a multiple of 16.
#[unsafe(no_mangle)]
pub extern "C" fn vnc_server_size() -> usize
    ensures { result ≡ type_size desk_row }
{
    size_of::<ServerDesk>()
}

/// Puts a desk that is shut into C's memory.
#[unsafe(no_mangle)]
pub unsafe extern "C" fn vnc_server_init(at: *mut Place, alloc: Global)
    requires* { sem 𝓛 (room_at desk_row at) }
    ensures* { sem 𝓛 (leaves at (λ desk. desk ≡ nothing_there)) }
{
    ptr::write(at as *mut ServerDesk, ServerDesk::new(alloc))
}

/// Names the file in which the screen that is served next is recorded, by `path` (`ServerDesk::record_next`).
#[unsafe(no_mangle)]
pub unsafe extern "C" fn vnc_server_record_n(at: *mut Place, path: &[u8]) -> i32
    ghost before: { desk_row.Denot }
    requires* { sem 𝓛 (holds at before) }
    ensures* { sem 𝓛 (leaves at (λ after. NamesRecord path.now before after result)) }
{
    ServerDesk::record_next(&mut *(at as *mut ServerDesk), path)
}

/// Returns whether what is served is recorded (`ServerDesk::record_state`).
#[unsafe(no_mangle)]
pub unsafe extern "C" fn vnc_server_record_state(at: *mut Place) -> i32
    ghost before: { desk_row.Denot }
    requires* { sem 𝓛 (holds at before) }
    ensures* { sem 𝓛 (leaves at (λ after. Tells (record_state before.recorded) before after result)) }
{
    ServerDesk::record_state(&mut *(at as *mut ServerDesk))
}

/// Listens on a port of an address, and serves a black screen (`ServerDesk::listen`).
#[unsafe(no_mangle)]
pub unsafe extern "C" fn vnc_server_listen_n(
    at: *mut Place,
    address: &[u8],
    port: u16,
    width: u32,
    height: u32,
    name: &[u8],
    viewers: u32,
) -> i32
    ghost before: { desk_row.Denot }
    requires* { sem 𝓛 (holds at before) }
    ensures* { sem 𝓛 (leaves at (λ after. Listens (config_of width height name.now rects_per_update) viewers address.now port before after result)) }
{
    ServerDesk::listen(
        &mut *(at as *mut ServerDesk),
        address,
        port,
        width,
        height,
        name,
        viewers,
    )
}

/// Listens on a further port (`ServerDesk::listen_also`).
#[unsafe(no_mangle)]
pub unsafe extern "C" fn vnc_server_listen_also_n(at: *mut Place, address: &[u8], port: u16) -> i32
    ghost before: { desk_row.Denot }
    requires* { sem 𝓛 (holds at before) }
    ensures* { sem 𝓛 (leaves at (λ after. ListensFurther address.now port before after result)) }
{
    ServerDesk::listen_also(&mut *(at as *mut ServerDesk), address, port)
}

/// Listens at the bound socket that `fd` is (`ServerDesk::listen_at`).
#[unsafe(no_mangle)]
pub unsafe extern "C" fn vnc_server_listen_at(at: *mut Place, fd: i32) -> i32
    ghost before: { desk_row.Denot }
    requires* { sem 𝓛 (holds at before) }
    ensures* { sem 𝓛 (leaves at (λ after. ListensAt fd before after result)) }
{
    ServerDesk::listen_at(&mut *(at as *mut ServerDesk), fd)
}

/// Listens on a port for browsers (`ServerDesk::listen_web`).
#[unsafe(no_mangle)]
pub unsafe extern "C" fn vnc_server_listen_web_n(
    at: *mut Place,
    address: &[u8],
    port: u16,
    hosts: &[u8],
    origins: &[u8],
) -> i32
    ghost before: { desk_row.Denot }
    requires* { sem 𝓛 (holds at before) }
    ensures* { sem 𝓛 (leaves at (λ after. ListensFurther address.now port before after result)) }
{
    ServerDesk::listen_web(&mut *(at as *mut ServerDesk), address, port, hosts, origins)
}

/// Serves a black screen, and listens nowhere (`ServerDesk::serve`).
#[unsafe(no_mangle)]
pub unsafe extern "C" fn vnc_server_serve_n(
    at: *mut Place,
    width: u32,
    height: u32,
    name: &[u8],
    viewers: u32,
) -> i32
    ghost before: { desk_row.Denot }
    requires* { sem 𝓛 (holds at before) }
    ensures* { sem 𝓛 (leaves at (λ after. ServesUnbound (config_of width height name.now rects_per_update) viewers before after result)) }
{
    ServerDesk::serve(&mut *(at as *mut ServerDesk), width, height, name, viewers)
}

/// Takes in the connection that `fd` is (`ServerDesk::adopt`).
#[unsafe(no_mangle)]
pub unsafe extern "C" fn vnc_server_adopt(at: *mut Place, fd: i32) -> i64
    ghost before: { desk_row.Denot }
    requires* { sem 𝓛 (holds at before) }
    ensures* { sem 𝓛 (leaves at (λ after. Adopts fd before after result)) }
{
    ServerDesk::adopt(&mut *(at as *mut ServerDesk), fd)
}

/// Closes the server (`ServerDesk::close`).
#[unsafe(no_mangle)]
pub unsafe extern "C" fn vnc_server_close(at: *mut Place) -> i32
    ghost before: { desk_row.Denot }
    requires* { sem 𝓛 (holds at before) }
    ensures* { sem 𝓛 (leaves at (λ after. (after ≡ nothing_there) × (result ≡ codes.done))) }
{
    ServerDesk::close(&mut *(at as *mut ServerDesk))
}

/// Takes one turn of the loop, which waits at most `milliseconds` (`ServerDesk::process_events`).
#[unsafe(no_mangle)]
pub unsafe extern "C" fn vnc_server_process_events(at: *mut Place, milliseconds: i32) -> i32
    ghost before: { desk_row.Denot }
    requires* { sem 𝓛 (holds at before) }
    ensures* { sem 𝓛 (leaves at (λ after. TakesTurn before after result)) }
{
    ServerDesk::process_events(&mut *(at as *mut ServerDesk), milliseconds)
}

/// Lets `viewer` go, in the next turn (`ServerDesk::close_viewer`).
#[unsafe(no_mangle)]
pub unsafe extern "C" fn vnc_server_close_viewer(at: *mut Place, viewer: u64) -> i32
    ghost before: { desk_row.Denot }
    requires* { sem 𝓛 (holds at before) }
    ensures* { sem 𝓛 (leaves at (λ after. LetsGo viewer before after result)) }
{
    ServerDesk::close_viewer(&mut *(at as *mut ServerDesk), viewer)
}

/// Puts the address that the connection of `viewer` comes from into `room` (`ServerDesk::viewer_address`).
#[unsafe(no_mangle)]
pub unsafe extern "C" fn vnc_server_viewer_address_n(
    at: *mut Place,
    viewer: u64,
    room: &mut [u8],
) -> i32
    ghost before: { desk_row.Denot }
    requires* { sem 𝓛 (holds at before) }
    ensures* { sem 𝓛 (leaves at (λ after. TellsAddress viewer before after room.old room.new result)) }
{
    ServerDesk::viewer_address(&mut *(at as *mut ServerDesk), viewer, room)
}

/// Puts the first numbers of what moved of `viewer` into `room` (`ServerDesk::traffic`).
#[unsafe(no_mangle)]
pub unsafe extern "C" fn vnc_server_traffic_n(at: *mut Place, viewer: u64, room: &mut [u64]) -> i32
    ghost before: { desk_row.Denot }
    requires* { sem 𝓛 (holds at before) }
    ensures* { sem 𝓛 (leaves at (λ after. ShowsTraffic viewer before after room.old room.new result)) }
{
    ServerDesk::traffic(&mut *(at as *mut ServerDesk), viewer, room)
}

/// Returns the system's handle that is ready to be read when something came over the network (`ServerDesk::fd`).
#[unsafe(no_mangle)]
pub unsafe extern "C" fn vnc_server_fd(at: *mut Place) -> i32
    ghost before: { desk_row.Denot }
    requires* { sem 𝓛 (holds at before) }
    ensures* { sem 𝓛 (leaves at (λ after. TellsSome before after result)) }
{
    ServerDesk::fd(&mut *(at as *mut ServerDesk))
}

/// Returns for how many milliseconds a turn would wait now if nothing comes over the network (`ServerDesk::timeout`).
#[unsafe(no_mangle)]
pub unsafe extern "C" fn vnc_server_timeout(at: *mut Place) -> i32
    ghost before: { desk_row.Denot }
    requires* { sem 𝓛 (holds at before) }
    ensures* { sem 𝓛 (leaves at (λ after. TellsWait before after result)) }
{
    ServerDesk::timeout(&mut *(at as *mut ServerDesk))
}

/// Paints a rectangle (`ServerDesk::paint`).
#[unsafe(no_mangle)]
pub unsafe extern "C" fn vnc_server_paint(
    at: *mut Place,
    x1: i32,
    y1: i32,
    x2: i32,
    y2: i32,
    colours: &[u32],
) -> i32
    ghost before: { desk_row.Denot }
    requires* { sem 𝓛 (holds at before) }
    ensures* { sem 𝓛 (leaves at (λ after. Draws (Event.Paint (record { x1 = x1; y1 = y1; x2 = x2; y2 = y2 }) colours.now) before after result)) }
{
    ServerDesk::paint(&mut *(at as *mut ServerDesk), x1, y1, x2, y2, colours)
}

/// Paints a rectangle, which no viewer is sent before it is marked (`ServerDesk::write_pixels`).
#[unsafe(no_mangle)]
pub unsafe extern "C" fn vnc_server_write_pixels(
    at: *mut Place,
    x1: i32,
    y1: i32,
    x2: i32,
    y2: i32,
    colours: &[u32],
) -> i32
    ghost before: { desk_row.Denot }
    requires* { sem 𝓛 (holds at before) }
    ensures* { sem 𝓛 (leaves at (λ after. Draws (Event.Write (record { x1 = x1; y1 = y1; x2 = x2; y2 = y2 }) colours.now) before after result)) }
{
    ServerDesk::write_pixels(&mut *(at as *mut ServerDesk), x1, y1, x2, y2, colours)
}

/// Marks a rectangle as changed (`ServerDesk::mark_rect`).
#[unsafe(no_mangle)]
pub unsafe extern "C" fn vnc_server_mark_rect(
    at: *mut Place,
    x1: i32,
    y1: i32,
    x2: i32,
    y2: i32,
) -> i32
    ghost before: { desk_row.Denot }
    requires* { sem 𝓛 (holds at before) }
    ensures* { sem 𝓛 (leaves at (λ after. Draws (Event.Mark (record { x1 = x1; y1 = y1; x2 = x2; y2 = y2 } ∷ [])) before after result)) }
{
    ServerDesk::mark_rect(&mut *(at as *mut ServerDesk), x1, y1, x2, y2)
}

/// Tells the viewers that pixels move into a rectangle, and leaves the picture (`ServerDesk::schedule_copy_rect`).
#[unsafe(no_mangle)]
pub unsafe extern "C" fn vnc_server_schedule_copy_rect(
    at: *mut Place,
    x1: i32,
    y1: i32,
    x2: i32,
    y2: i32,
    dx: i32,
    dy: i32,
) -> i32
    ghost before: { desk_row.Denot }
    requires* { sem 𝓛 (holds at before) }
    ensures* { sem 𝓛 (leaves at (λ after. Draws (Event.ScheduleCopy (record { x1 = x1; y1 = y1; x2 = x2; y2 = y2 } ∷ []) dx dy) before after result)) }
{
    ServerDesk::schedule_copy_rect(&mut *(at as *mut ServerDesk), x1, y1, x2, y2, dx, dy)
}

/// Moves pixels into a rectangle, and tells the viewers (`ServerDesk::do_copy_rect`).
#[unsafe(no_mangle)]
pub unsafe extern "C" fn vnc_server_do_copy_rect(
    at: *mut Place,
    x1: i32,
    y1: i32,
    x2: i32,
    y2: i32,
    dx: i32,
    dy: i32,
) -> i32
    ghost before: { desk_row.Denot }
    requires* { sem 𝓛 (holds at before) }
    ensures* { sem 𝓛 (leaves at (λ after. Draws (Event.DoCopy (record { x1 = x1; y1 = y1; x2 = x2; y2 = y2 } ∷ []) dx dy) before after result)) }
{
    ServerDesk::do_copy_rect(&mut *(at as *mut ServerDesk), x1, y1, x2, y2, dx, dy)
}

/// Takes a program's own pixels into the picture (`ServerDesk::update_from`).
#[unsafe(no_mangle)]
pub unsafe extern "C" fn vnc_server_update_from(
    at: *mut Place,
    left: u32,
    top: u32,
    width: u32,
    height: u32,
    bytes: &[u8],
    stride: u64,
    layouts: &[PixelLayout],
    table: &[u32],
) -> i64
    ghost before: { desk_row.Denot }
    requires* { sem 𝓛 (holds at before) }
    ensures* { sem 𝓛 (leaves at (λ after. TakesPixels (source_from width height stride bytes.now (format_of layouts.now (length table.now) (format.Table table.entry))) left top before after result)) }
{
    ServerDesk::update_from(
        &mut *(at as *mut ServerDesk),
        left,
        top,
        width,
        height,
        bytes,
        stride,
        layouts,
        table,
    )
}

/// Rings the viewers' bells (`ServerDesk::bell`).
#[unsafe(no_mangle)]
pub unsafe extern "C" fn vnc_server_bell(at: *mut Place) -> i32
    ghost before: { desk_row.Denot }
    requires* { sem 𝓛 (holds at before) }
    ensures* { sem 𝓛 (leaves at (λ after. Draws (Event.Bell) before after result)) }
{
    ServerDesk::bell(&mut *(at as *mut ServerDesk))
}

/// Sends the viewers a copied text (`ServerDesk::cut_text`).
#[unsafe(no_mangle)]
pub unsafe extern "C" fn vnc_server_cut_text(at: *mut Place, text: &[u8]) -> i32
    ghost before: { desk_row.Denot }
    requires* { sem 𝓛 (holds at before) }
    ensures* { sem 𝓛 (leaves at (λ after. Draws (Event.CutText text.now) before after result)) }
{
    ServerDesk::cut_text(&mut *(at as *mut ServerDesk), text)
}

/// Replaces the picture by a black one of `width` columns and `height` rows (`ServerDesk::new_framebuffer`).
#[unsafe(no_mangle)]
pub unsafe extern "C" fn vnc_server_new_framebuffer(at: *mut Place, width: u32, height: u32) -> i32
    ghost before: { desk_row.Denot }
    requires* { sem 𝓛 (holds at before) }
    ensures* { sem 𝓛 (leaves at (λ after. Draws (Event.Resize width height) before after result)) }
{
    ServerDesk::new_framebuffer(&mut *(at as *mut ServerDesk), width, height)
}

/// Marks the places of the rectangles in `list` as changed (`ServerDesk::mark_region`).
#[unsafe(no_mangle)]
pub unsafe extern "C" fn vnc_server_mark_region(at: *mut Place, list: &[Corners]) -> i32
    ghost before: { desk_row.Denot }
    requires* { sem 𝓛 (holds at before) }
    ensures* { sem 𝓛 (leaves at (λ after. DrawsRegion (map rect_of list.now) (λ places. Event.Mark places) before after result)) }
{
    ServerDesk::mark_region(&mut *(at as *mut ServerDesk), list)
}

/// Tells the viewers that pixels move into the rectangles of `list`, and leaves the picture (`ServerDesk::schedule_copy_region`).
#[unsafe(no_mangle)]
pub unsafe extern "C" fn vnc_server_schedule_copy_region(
    at: *mut Place,
    list: &[Corners],
    dx: i32,
    dy: i32,
) -> i32
    ghost before: { desk_row.Denot }
    requires* { sem 𝓛 (holds at before) }
    ensures* { sem 𝓛 (leaves at (λ after. DrawsRegion (map rect_of list.now) (λ places. Event.ScheduleCopy places dx dy) before after result)) }
{
    ServerDesk::schedule_copy_region(&mut *(at as *mut ServerDesk), list, dx, dy)
}

/// Moves pixels into the rectangles of `list`, and tells the viewers (`ServerDesk::do_copy_region`).
#[unsafe(no_mangle)]
pub unsafe extern "C" fn vnc_server_do_copy_region(
    at: *mut Place,
    list: &[Corners],
    dx: i32,
    dy: i32,
) -> i32
    ghost before: { desk_row.Denot }
    requires* { sem 𝓛 (holds at before) }
    ensures* { sem 𝓛 (leaves at (λ after. DrawsRegion (map rect_of list.now) (λ places. Event.DoCopy places dx dy) before after result)) }
{
    ServerDesk::do_copy_region(&mut *(at as *mut ServerDesk), list, dx, dy)
}

/// Fetches the next inputs of all viewers into `room`, up to the first text (`ServerDesk::next_inputs`).
#[unsafe(no_mangle)]
pub unsafe extern "C" fn vnc_server_next_inputs(at: *mut Place, room: &mut [Told]) -> i64
    ghost before: { desk_row.Denot }
    requires* { sem 𝓛 (holds at before) }
    ensures* { sem 𝓛 (leaves at (λ after. FetchesInputs before after room.old room.new result)) }
{
    ServerDesk::next_inputs(&mut *(at as *mut ServerDesk), room)
}

/// Puts the first bytes of the text that `vnc_server_next_inputs` fetched last into `room` (`ServerDesk::text`).
#[unsafe(no_mangle)]
pub unsafe extern "C" fn vnc_server_text(at: *mut Place, room: &mut [u8]) -> i32
    ghost before: { desk_row.Denot }
    requires* { sem 𝓛 (holds at before) }
    ensures* { sem 𝓛 (leaves at (λ after. ShowsText before after room.old room.new result)) }
{
    ServerDesk::text(&mut *(at as *mut ServerDesk), room)
}

/// Fetches who came and went next into `room` (`ServerDesk::next_events`).
#[unsafe(no_mangle)]
pub unsafe extern "C" fn vnc_server_next_events(at: *mut Place, room: &mut [Visit]) -> i64
    ghost before: { desk_row.Denot }
    requires* { sem 𝓛 (holds at before) }
    ensures* { sem 𝓛 (leaves at (λ after. FetchesVisits before after room.old room.new result)) }
{
    ServerDesk::next_events(&mut *(at as *mut ServerDesk), room)
}

/// Returns how many inputs, comings and goings were lost, at most 2^62 (`ServerDesk::lost_count`).
#[unsafe(no_mangle)]
pub unsafe extern "C" fn vnc_server_lost_count(at: *mut Place) -> i64
    ghost before: { desk_row.Denot }
    requires* { sem 𝓛 (holds at before) }
    ensures* { sem 𝓛 (leaves at (λ after. Tells (λ _. pos (min before.lost (2 ^ 62))) before after result)) }
{
    ServerDesk::lost_count(&mut *(at as *mut ServerDesk))
}

/// Returns how often a viewer asked for places whether these changed or not, at most 2^62 (`ServerDesk::full_request_count`).
#[unsafe(no_mangle)]
pub unsafe extern "C" fn vnc_server_full_request_count(at: *mut Place) -> i64
    ghost before: { desk_row.Denot }
    requires* { sem 𝓛 (holds at before) }
    ensures* { sem 𝓛 (leaves at (λ after. Tells (λ _. pos (min before.full_requests (2 ^ 62))) before after result)) }
{
    ServerDesk::full_request_count(&mut *(at as *mut ServerDesk))
}

/// Returns the port that the server listens on (`ServerDesk::port`).
#[unsafe(no_mangle)]
pub unsafe extern "C" fn vnc_server_port(at: *mut Place) -> i32
    ghost before: { desk_row.Denot }
    requires* { sem 𝓛 (holds at before) }
    ensures* { sem 𝓛 (leaves at (λ after. Tells (λ _. pos before.port) before after result)) }
{
    ServerDesk::port(&mut *(at as *mut ServerDesk))
}

/// Returns how many viewers are connected, at most 2^30 (`ServerDesk::viewer_count`).
#[unsafe(no_mangle)]
pub unsafe extern "C" fn vnc_server_viewer_count(at: *mut Place) -> i32
    ghost before: { desk_row.Denot }
    requires* { sem 𝓛 (holds at before) }
    ensures* { sem 𝓛 (leaves at (λ after. Tells (λ served. pos (min (count_by is_some served.slots) (2 ^ 30))) before after result)) }
{
    ServerDesk::viewer_count(&mut *(at as *mut ServerDesk))
}

/// Puts the connected viewers' numbers into `room`, in order of connecting (`ServerDesk::numbers`).
#[unsafe(no_mangle)]
pub unsafe extern "C" fn vnc_server_numbers(at: *mut Place, room: &mut [u64]) -> i32
    ghost before: { desk_row.Denot }
    requires* { sem 𝓛 (holds at before) }
    ensures* { sem 𝓛 (leaves at (λ after. ShowsNumbers before after room.old room.new result)) }
{
    ServerDesk::numbers(&mut *(at as *mut ServerDesk), room)
}

/// Returns 1 if the opening of `viewer` is over and it met no fault, else 0 (`ServerDesk::is_open`).
#[unsafe(no_mangle)]
pub unsafe extern "C" fn vnc_server_is_open(at: *mut Place, viewer: u64) -> i32
    ghost before: { desk_row.Denot }
    requires* { sem 𝓛 (holds at before) }
    ensures* { sem 𝓛 (leaves at (λ after. Tells (λ served. of_viewer viewer (λ seen. codes.one_or_zero (is_open_rest seen.heard)) served.surface.screen) before after result)) }
{
    ServerDesk::is_open(&mut *(at as *mut ServerDesk), viewer)
}

/// Puts the first words of what `viewer` has set into `room` (`ServerDesk::settings`).
#[unsafe(no_mangle)]
pub unsafe extern "C" fn vnc_server_settings_n(at: *mut Place, viewer: u64, room: &mut [u32]) -> i32
    ghost before: { desk_row.Denot }
    requires* { sem 𝓛 (holds at before) }
    ensures* { sem 𝓛 (leaves at (λ after. ShowsSettings viewer before after room.old room.new result)) }
{
    ServerDesk::settings(&mut *(at as *mut ServerDesk), viewer, room)
}

/// Returns the picture's columns (`ServerDesk::width`).
#[unsafe(no_mangle)]
pub unsafe extern "C" fn vnc_server_width(at: *mut Place) -> i64
    ghost before: { desk_row.Denot }
    requires* { sem 𝓛 (holds at before) }
    ensures* { sem 𝓛 (leaves at (λ after. Tells (λ served. pos served.surface.screen.picture.width) before after result)) }
{
    ServerDesk::width(&mut *(at as *mut ServerDesk))
}

/// Returns the picture's rows (`ServerDesk::height`).
#[unsafe(no_mangle)]
pub unsafe extern "C" fn vnc_server_height(at: *mut Place) -> i64
    ghost before: { desk_row.Denot }
    requires* { sem 𝓛 (holds at before) }
    ensures* { sem 𝓛 (leaves at (λ after. Tells (λ served. pos served.surface.screen.picture.height) before after result)) }
{
    ServerDesk::height(&mut *(at as *mut ServerDesk))
}

/// Returns the colour of the place in column `x` of row `y` (`ServerDesk::colour`).
#[unsafe(no_mangle)]
pub unsafe extern "C" fn vnc_server_colour(at: *mut Place, x: u32, y: u32) -> i64
    ghost before: { desk_row.Denot }
    requires* { sem 𝓛 (holds at before) }
    ensures* { sem 𝓛 (leaves at (λ after. Tells (λ served. colour_at x y served.surface.screen) before after result)) }
{
    ServerDesk::colour(&mut *(at as *mut ServerDesk), x, y)
}

/// Returns how many bytes of memory C has to give for a waker; their address is a multiple of 16.
#[unsafe(no_mangle)]
pub extern "C" fn vnc_waker_size() -> usize
    ensures { result ≡ type_size waker_row }
{
    size_of::<ServerWaker>()
}

/// Puts the waker that `ServerDesk::waker` gives into C's memory.
#[unsafe(no_mangle)]
pub unsafe extern "C" fn vnc_waker_init(at: *mut Place, waker: *mut WakerPlace)
    ghost before: { desk_row.Denot }
    requires* { sem 𝓛 (holds_beside_room at waker before) }
    ensures* { sem 𝓛 (leaves_beside_waker at waker before) }
{
    ptr::write(
        waker as *mut ServerWaker,
        ServerDesk::waker(&mut *(at as *mut ServerDesk)),
    )
}

/// Ends the wait of a turn, from another thread (`ServerWaker::wake`).
#[unsafe(no_mangle)]
pub unsafe extern "C" fn vnc_waker_wake(at: *mut WakerPlace) -> i32
    ghost before: { waker_row.Denot }
    requires* { sem 𝓛 (holds_waker at before) }
    ensures* { sem 𝓛 (leaves_waker at (λ after. Wakes before after result)) }
{
    ServerWaker::wake(&mut *(at as *mut ServerWaker))
}

/// Shuts the waker (`ServerWaker::close`).
#[unsafe(no_mangle)]
pub unsafe extern "C" fn vnc_waker_close(at: *mut WakerPlace) -> i32
    ghost before: { waker_row.Denot }
    requires* { sem 𝓛 (holds_waker at before) }
    ensures* { sem 𝓛 (leaves_waker at (λ after. (after ≡ false) × (result ≡ codes.done))) }
{
    ServerWaker::close(&mut *(at as *mut ServerWaker))
}
