//! The desk: the calls of a screen, and what waits to be fetched.

ghost use Rattle.std.specs.Prelude.{◌≡◌, ◌≢◌, ◌≤◌, ◌<◌, ◌^◌, ◌-◌, ◌+◌, ◌++◌, ◌∷◌, [], ℕ, List, pos, map, length, min, take, drop, Some, None, MatchOption, IfSome};
ghost use Rattle.std.specs.Map.{keys_of};
ghost use Rattle.screen.specs.Reading.{fault_in_rest, is_open_rest};
ghost use Rattle.viewer.specs.Viewer.{is_asking};
ghost use Rattle.screen.specs.declared.Event.{Event};
ghost use Rattle.screen.specs.declared.History.TheVariants.{NotKept};
ghost use Rattle.std.specs.Prelude.{ℤ, IfOk, IfErr, OnOk, OnErr, IsOkUnless, MatchResult, is_some, not, false};
ghost use Rattle.screen.specs.declared.Config.{Config};
ghost use Rattle.screen.specs.Alone.{config_refusal, some_bytes};
ghost use Rattle.screen.specs.Answers.{answer_to};
ghost use Rattle.screen.specs.Refusals.{Refuses};
ghost use Rattle.screen.specs.State.{state, refusal, viewer_at};
ghost use Rattle.c_screen.specs.Codes as code;
ghost use Rattle.c_screen.specs.Codes.{IsRefusal};
ghost use Rattle.c_screen.specs.Calls.{Opens, Draws, DrawsRegion, Connects, Hears, Cuts, CutsInto, Closes, TellsPending, Gives, Fetches, Shows, ShowsSettings, ShowsText, TakesPixels, Tells, numbers_of, of_viewer, colour_at};
ghost use Rattle.c_screen.specs.Desk.{nothing_there, rect_of, config_of, put_output, region_due, IsListOf};
ghost use Rattle.c_screen.specs.Inputs.{in_order, told_by};
ghost use Rattle.c_screen.specs.Pixels.{format_of, source_from};
ghost use Rattle.source_pixels.specs.declared.formats.SourceFormat.TheVariants as format;

use crate::codes::{
    OFF_SCREEN, OUT_OF_RANGE, OUTPUT_WAITS, SHUT, code_of, count_or, done_or, fault_or,
    places_code, truth_or,
};
use crate::corners::{Corners, are_far, region_of};
use crate::draw::{DrawByCode, RegionCall};
use crate::inputs::Inputs;
use crate::output::{Output, copy_to, drop_output, fetch_output, first_for, put_bytes};
use crate::pixels::{PixelLayout, source_of};
use crate::settings::show_settings;
use crate::told::Told;
use crate::update::DeskUpdate;
use listed::Listed;
use screen::{Config, Drawing, Fault, History, Rect, Region, Screen, ScreenError, config_refusal};
use std::alloc::Global;
use std::marker::Model;

/// A screen, or none where the desk is shut; what its viewers are to be sent; and what they told. Each call answers `SHUT` where it is
/// shut, but for `open` and `close`; a number below 0 is the code of a refusal, and nothing has changed then, but for what `update_from`
/// says.
pub struct Desk {
    alloc: Global,
    screen: Option<Screen>,
    output: Vec<Output>,
    inputs: Inputs,
    text: Listed<u8>,
}

// Written out, so that who holds one proves one call here, and not the drop of each field.
impl Drop for Desk {
    fn drop(self) {
        let Desk {
            alloc: _alloc,
            screen: _screen,
            output: _output,
            inputs: _inputs,
            text: _text,
        } = self;
    }
}

impl Model for Desk {
    ghost use Rattle.c_screen.specs.Inputs.{in_order};
    ghost use Rattle.c_screen.specs.Desk.{Standing};

    ghost Value = { Standing };

    ghost view = { λ a. record { screen = a.screen; output = a.output.items; inputs = in_order a.inputs.next a.inputs.later.items; text = a.text } };
}

/// Returns a screen that is 0 everywhere, has no viewer, and keeps no events. Refuses it as `BadSize`, `BadName` or `BadRectLimit`, in
/// this order, and else for want of memory as `OutOfMemory`.
fn new_screen(
    alloc: Global,
    width: u32,
    height: u32,
    name: &[u8],
    rects_per_update: u32,
) -> Result<Screen, ScreenError>
    ensures made { IfOk result (λ screen. screen ≡ state (config_of width height name.now rects_per_update) []) }
    ensures refused { Refuses result (config_refusal (config_of width height name.now rects_per_update)) }
{
    if let Some(refusal) = config_refusal(width, height, name, rects_per_update) {
        return Err(refusal);
    }
    let config = Config {
        width,
        height,
        name: Listed::from_slice(alloc, name)?,
        rects_per_update,
        history: History::NotKept,
    };
    Screen::new(alloc, config)
}

/// Connects `viewer`, and appends the server's version for it to `output`. Refuses it as `NumberInUse` where a live viewer has the
/// number, else for want of memory as `OutOfMemory`; then nothing has changed.
fn connect_viewer(
    screen: &mut Screen,
    output: &mut Vec<Output>,
    viewer: u64,
) -> Result<(), ScreenError>
    ensures step { (config : Config) (list : List Event) → screen.old ≡ state config list →
        OnOk result (screen.new ≡ state config (list ++ Event.Connect viewer ∷ [])) }
    ensures output { (config : Config) (list : List Event) → screen.old ≡ state config list →
        OnOk result (output.new.items ≡ put_output viewer (answer_to config list (Event.Connect viewer)).bytes output.old.items) }
    ensures refused { Refuses result (refusal screen.old (Event.Connect viewer)) }
    ensures err { OnErr result ((screen.new ≡ screen.old) × (output.new.items ≡ output.old.items)) }
{
    if screen.is_live(viewer) {
        return Err(ScreenError::NumberInUse);
    }
    output.reserve(1)?;
    let version = screen.connect(viewer)?;
    put_bytes(output, viewer, version.into_vec());
    Ok(())
}

/// Hears `piece`, some bytes of `viewer`: appends what the viewer is answered to `output`, and what it told to `inputs`. Returns why it
/// is heard no further, if it met a fault. Refuses the piece as `NoViewer` where no live viewer has the number, else for want of memory
/// as `OutOfMemory`; then nothing has changed.
fn hear_piece(
    screen: &mut Screen,
    output: &mut Vec<Output>,
    inputs: &mut Inputs,
    viewer: u64,
    piece: &[u8],
) -> Result<Option<Fault>, ScreenError>
    ensures step { (config : Config) (list : List Event) → screen.old ≡ state config list →
        OnOk result (screen.new ≡ state config (list ++ Event.Hear viewer piece.now ∷ [])) }
    ensures fault { (config : Config) (list : List Event) → screen.old ≡ state config list →
        IfOk result (λ fault. fault ≡ (answer_to config list (Event.Hear viewer piece.now)).closed) }
    ensures output { (config : Config) (list : List Event) → screen.old ≡ state config list →
        OnOk result (output.new.items ≡ put_output viewer (answer_to config list (Event.Hear viewer piece.now)).bytes output.old.items) }
    ensures inputs { (config : Config) (list : List Event) → screen.old ≡ state config list →
        OnOk result (in_order inputs.new.next inputs.new.later.items ≡ in_order inputs.old.next inputs.old.later.items ++
        told_by viewer (answer_to config list (Event.Hear viewer piece.now)).inputs) }
    ensures refused { Refuses result (refusal screen.old (Event.Hear viewer piece.now)) }
    ensures err { OnErr result ((screen.new ≡ screen.old) × (output.new.items ≡ output.old.items) ×
        (in_order inputs.new.next inputs.new.later.items ≡ in_order inputs.old.next inputs.old.later.items)) }
{
    if !screen.is_live(viewer) {
        return Err(ScreenError::NoViewer);
    }
    output.reserve(1)?;
    inputs.make_room()?;
    let answer = screen.hear(viewer, piece)?;
    put_bytes(output, viewer, answer.bytes.into_vec());
    inputs.put(viewer, answer.inputs);
    Ok(answer.closed)
}

/// Cuts an update for `viewer`, appends it to `output`, and returns whether there is something to send. Refuses it as `NoViewer` where no
/// live viewer has the number, else for want of memory as `OutOfMemory`; then nothing has changed.
fn cut_update(
    alloc: Global,
    screen: &mut Screen,
    output: &mut Vec<Output>,
    viewer: u64,
) -> Result<bool, ScreenError>
    ensures step { (config : Config) (list : List Event) → screen.old ≡ state config list →
        OnOk result (screen.new ≡ state config (list ++ Event.Cut viewer ∷ [])) }
    ensures number { (config : Config) (list : List Event) → screen.old ≡ state config list →
        IfOk result (λ some. some ≡ some_bytes (answer_to config list (Event.Cut viewer)).bytes) }
    ensures output { (config : Config) (list : List Event) → screen.old ≡ state config list →
        OnOk result (output.new.items ≡ put_output viewer (answer_to config list (Event.Cut viewer)).bytes output.old.items) }
    ensures refused { Refuses result (refusal screen.old (Event.Cut viewer)) }
    ensures err { OnErr result ((screen.new ≡ screen.old) × (output.new.items ≡ output.old.items)) }
{
    if !screen.is_live(viewer) {
        return Err(ScreenError::NoViewer);
    }
    output.reserve(1)?;
    let Some(update) = screen.cut(viewer)? else {
        return Ok(false);
    };
    output.push_reserved(Output::of_update(alloc, viewer, update));
    Ok(true)
}

/// Cuts an update for `viewer` into `update`, which holds nothing, and returns whether there is something to send. Refuses it as
/// `NoViewer` where no live viewer has the number, else for want of memory as `OutOfMemory`; then nothing has changed.
fn cut_update_into(
    alloc: Global,
    screen: &mut Screen,
    viewer: u64,
    update: &mut DeskUpdate,
) -> Result<bool, ScreenError>
    requires { update.old ≡ [] }
    ensures step { (config : Config) (list : List Event) → screen.old ≡ state config list →
        OnOk result (screen.new ≡ state config (list ++ Event.Cut viewer ∷ [])) }
    ensures number { (config : Config) (list : List Event) → screen.old ≡ state config list →
        IfOk result (λ some. some ≡ some_bytes (answer_to config list (Event.Cut viewer)).bytes) }
    ensures update { (config : Config) (list : List Event) → screen.old ≡ state config list →
        OnOk result (update.new ≡ (answer_to config list (Event.Cut viewer)).bytes) }
    ensures refused { Refuses result (refusal screen.old (Event.Cut viewer)) }
    ensures err { OnErr result ((screen.new ≡ screen.old) × (update.new ≡ update.old)) }
{
    let Some(cut) = screen.cut(viewer)? else {
        return Ok(false);
    };
    update.put(Output::of_update(alloc, viewer, cut));
    Ok(true)
}

impl Desk {
    /// Returns a desk that is shut. Takes no memory.
    pub fn new(alloc: Global) -> Desk
        ensures { result ≡ nothing_there }
    {
        Desk {
            alloc,
            screen: None,
            output: Vec::new(alloc),
            inputs: Inputs::new(alloc),
            text: Listed::new(alloc),
        }
    }

    /// Drops all that waits to be fetched, and the text that was fetched last.
    fn clear(&mut self)
        ensures { self.new ≡ record nothing_there { screen = self.old.screen } }
    {
        self.output = Vec::new(self.alloc);
        self.inputs = Inputs::new(self.alloc);
        self.text = Listed::new(self.alloc);
    }

    /// Returns the places of the rectangles in `list`, or the code of the refusal: `SHUT`, then `OUT_OF_RANGE` where a coordinate is not
    /// from -2^20 to 2^20, then that of `OutOfMemory`.
    fn places_of(&self, list: &[Corners]) -> Result<Region, i32>
        ensures places { IfOk result (λ region. IsListOf (map rect_of list.now) region.list) }
        ensures accepted { OnOk result (region_due self.now (map rect_of list.now) ≡ None) }
        ensures refused { IfErr result (λ number. IsRefusal (region_due self.now (map rect_of list.now)) number) }
    {
        if self.screen.is_none() {
            return Err(SHUT);
        }
        if are_far(list) {
            return Err(OUT_OF_RANGE);
        }
        match region_of(self.alloc, list) {
            Ok(region) => Ok(region),
            Err(e) => Err(code_of(e)),
        }
    }

    /// Takes a program's own pixels into the picture as `Screen::take` does (`rfbMarkRectAsModified` of `rfb.h`), from column `left` of
    /// row `top` on: owes what differs to every viewer, and leaves out what lies off the screen.
    ///
    /// `bytes` has `height` rows of `width` pixels, `stride` bytes from one row to the next. The one of `layouts` is their format, or
    /// `table` the colours that pixels of one byte are places of. Where both are empty, a pixel has 32 bits `0x00RRGGBB` in little-endian
    /// order.
    ///
    /// Returns how many places changed, at most 2^62, or the code of a refusal: `BAD_FORMAT`, `BAD_STRIDE` or `TOO_FEW_BYTES`, or that of
    /// `OutOfMemory`, after which each place has its old colour or its new one.
    pub fn update_from(
        &mut self,
        left: u32,
        top: u32,
        width: u32,
        height: u32,
        bytes: &[u8],
        stride: u64,
        layouts: &[PixelLayout],
        table: &[u32],
    ) -> i64
        ensures { TakesPixels (source_from width height stride bytes.now (format_of layouts.now (length table.now) (format.Table table.entry))) left top self.old self.new result }
    {
        let Some(screen) = &mut self.screen else {
            return i64::from(SHUT);
        };
        let source = match source_of(bytes, stride, width, height, layouts, table) {
            Ok(source) => source,
            Err(code) => return i64::from(code),
        };
        places_code(screen.take(self.alloc, left, top, &source))
    }

    /// Opens a black screen with no viewer (`rfbGetScreen` of `rfb.h`), and shuts what was open. `name` is the desktop's (RFC 6143,
    /// 7.3.2), of at most 255 bytes, and an update has at most `rects_per_update` copies and as many rectangles of pixels, 1 to 1000.
    ///
    /// Returns 0, or the code of `BadSize`, `BadName`, `BadRectLimit` or `OutOfMemory`; then what was open stays open.
    pub fn open(&mut self, width: u32, height: u32, name: &[u8], rects_per_update: u32) -> i32
        ensures { Opens (config_of width height name.now rects_per_update) self.old self.new result }
    {
        match new_screen(self.alloc, width, height, name, rects_per_update) {
            Ok(screen) => {
                self.screen = Some(screen);
                self.clear();
                0
            }
            Err(e) => code_of(e),
        }
    }

    /// Shuts the desk, and drops the screen with all that it held, and all that waits (`rfbScreenCleanup` of `rfb.h`). Returns 0, also
    /// where the desk is shut.
    pub fn close(&mut self) -> i32
        ensures { (self.new ≡ nothing_there) × (result ≡ code.done) }
    {
        self.screen = None;
        self.clear();
        0
    }

    /// Connects `viewer` as `Screen::connect` does; the server's version waits for it then (RFC 6143, 7.1.1). Returns 0, or the code of
    /// `NumberInUse` or `OutOfMemory`.
    pub fn connect(&mut self, viewer: u64) -> i32
        ensures { Connects viewer self.old self.new result }
    {
        let Some(screen) = &mut self.screen else {
            return SHUT;
        };
        done_or(connect_viewer(screen, &mut self.output, viewer))
    }

    /// Hears `piece` as `Screen::hear` does: what the viewer is answered waits for it, and what it told waits for `next_inputs`.
    ///
    /// Returns 0, or by `fault_code` why the viewer is heard no further: then send what waits for it, and close it. Or the code of
    /// `NoViewer` or `OutOfMemory`.
    pub fn hear(&mut self, viewer: u64, piece: &[u8]) -> i32
        ensures { Hears viewer piece.now self.old self.new result }
    {
        let Some(screen) = &mut self.screen else {
            return SHUT;
        };
        fault_or(hear_piece(screen, &mut self.output, &mut self.inputs, viewer, piece))
    }

    /// Returns 1 where `cut` would cut an update, else 0 (`Screen::pending`); or the code of `NoViewer`.
    pub fn is_pending(&mut self, viewer: u64) -> i32
        ensures { TellsPending viewer self.old self.new result }
    {
        let Some(screen) = &self.screen else {
            return SHUT;
        };
        truth_or(screen.pending(viewer))
    }

    /// Cuts an update for `viewer` as `Screen::cut` does. Returns 1 where the update waits for the viewer, to be encoded as it is
    /// fetched, and 0 where there is nothing to send.
    ///
    /// Or returns the code of `NoViewer`; `OUTPUT_WAITS` where output waits for the viewer, so that the desk holds no more than one
    /// update for it; or the code of `OutOfMemory`.
    pub fn cut(&mut self, viewer: u64) -> i32
        ensures { Cuts viewer self.old self.new result }
    {
        let Some(screen) = &mut self.screen else {
            return SHUT;
        };
        if !screen.is_live(viewer) {
            return code_of(ScreenError::NoViewer);
        }
        if first_for(&self.output, viewer).is_some() {
            return OUTPUT_WAITS;
        }
        truth_or(cut_update(self.alloc, screen, &mut self.output, viewer))
    }

    /// Cuts an update for `viewer` into `update` as `Screen::cut` does. Returns 1 where `update` holds it, to be encoded as it is
    /// fetched, and 0 where there is nothing to send.
    ///
    /// Or returns the code of `NoViewer`; `OUTPUT_WAITS` where output waits here for the viewer, or `update` isn't fetched whole; or the
    /// code of `OutOfMemory`.
    pub fn cut_into(&mut self, viewer: u64, update: &mut DeskUpdate) -> i32
        ensures { CutsInto viewer self.old self.new update.old update.new result }
    {
        let Some(screen) = &mut self.screen else {
            return SHUT;
        };
        if !screen.is_live(viewer) {
            return code_of(ScreenError::NoViewer);
        }
        if first_for(&self.output, viewer).is_some() || !update.is_fetched() {
            return OUTPUT_WAITS;
        }
        truth_or(cut_update_into(self.alloc, screen, viewer, update))
    }

    /// Closes `viewer` as `Screen::close` does (`rfbCloseClient` of `rfb.h`), and drops what waits for it. Returns 0, or the code of
    /// `NoViewer`.
    pub fn close_viewer(&mut self, viewer: u64) -> i32
        ensures { Closes viewer self.old self.new result }
    {
        let Some(screen) = &mut self.screen else {
            return SHUT;
        };
        let answer = screen.close(viewer);
        if answer.is_ok() {
            drop_output(&mut self.output, viewer);
        }
        done_or(answer)
    }

    /// Fetches the next bytes that wait for `viewer` into the start of `room`, as many as are made and fit; the rest of `room` stays.
    /// Returns how many, and 0 where none wait or `room` has no place; or the code of `NoViewer` or `OutOfMemory`.
    pub fn output(&mut self, viewer: u64, room: &mut [u8]) -> i32
        ensures { Gives viewer self.old self.new room.old room.new result }
    {
        let Some(screen) = &self.screen else {
            return SHUT;
        };
        if !screen.is_live(viewer) {
            return code_of(ScreenError::NoViewer);
        }
        count_or(fetch_output(&mut self.output, viewer, room))
    }

    /// Fetches the first inputs that wait into the start of `room`, up to the first text; the rest of `room` stays. Returns how many.
    /// `text` gives the bytes of that text, until a call fetches another.
    pub fn next_inputs(&mut self, room: &mut [Told]) -> i64
        ensures { Fetches self.old self.new room.old room.new result }
    {
        if self.screen.is_none() {
            return i64::from(SHUT);
        }
        self.inputs.fetch(room, &mut self.text) as i64
    }

    /// Puts the first bytes of the text that `next_inputs` fetched last at the start of `room`, at most 2^30; the rest of `room` stays.
    /// Returns how many.
    pub fn text(&mut self, room: &mut [u8]) -> i32
        ensures { ShowsText self.old self.new room.old room.new result }
    {
        if self.screen.is_none() {
            return SHUT;
        }
        copy_to(room, self.text.as_slice()) as i32
    }

    /// Puts the live viewers' numbers at the start of `room`, in order of connecting (`Screen::numbers`), as many as fit, at most 2^30;
    /// the rest of `room` stays. Returns how many, or the code of `OutOfMemory`.
    pub fn numbers(&mut self, room: &mut [u64]) -> i32
        ensures { Shows (numbers_of self.old.screen) self.old self.new room.old room.new result }
    {
        let Some(screen) = &self.screen else {
            return SHUT;
        };
        match screen.numbers() {
            Ok(numbers) => copy_to(room, numbers.as_slice()) as i32,
            Err(_) => code_of(ScreenError::OutOfMemory),
        }
    }

    /// Returns `Screen::viewer_count`, or 2^30 where that is more.
    pub fn viewer_count(&mut self) -> i32
        ensures { Tells (λ screen. pos (min (length screen.viewers) (2 ^ 30))) self.old self.new result }
    {
        let Some(screen) = &self.screen else {
            return SHUT;
        };
        screen.viewer_count().min(1 << 30) as i32
    }

    /// Returns 1 where a live viewer has the number, else 0 (`Screen::is_live`).
    pub fn is_live(&mut self, viewer: u64) -> i32
        ensures { Tells (λ screen. code.one_or_zero (is_some (viewer_at screen viewer))) self.old self.new result }
    {
        let Some(screen) = &self.screen else {
            return SHUT;
        };
        i32::from(screen.is_live(viewer))
    }

    /// Returns 1 where `viewer` had its ServerInit (RFC 6143, 7.3.2) and met no fault, else 0 (`Screen::is_open`); or the code of
    /// `NoViewer`.
    pub fn is_open(&mut self, viewer: u64) -> i32
        ensures { Tells (of_viewer viewer (λ seen. code.one_or_zero (is_open_rest seen.heard))) self.old self.new result }
    {
        let Some(screen) = &self.screen else {
            return SHUT;
        };
        truth_or(screen.is_open(viewer))
    }

    /// Returns 1 where a request of the viewer's is unanswered, else 0 (`Screen::is_asking`); or the code of `NoViewer`.
    pub fn is_asking(&mut self, viewer: u64) -> i32
        ensures { Tells (of_viewer viewer (λ seen. code.one_or_zero (is_asking seen))) self.old self.new result }
    {
        let Some(screen) = &self.screen else {
            return SHUT;
        };
        truth_or(screen.is_asking(viewer))
    }

    /// Returns 0, or by `fault_code` why `viewer` is heard no further (`Screen::fault`); or the code of `NoViewer`.
    pub fn fault(&mut self, viewer: u64) -> i32
        ensures { Tells (of_viewer viewer (λ seen. code.fault_code (fault_in_rest seen.heard))) self.old self.new result }
    {
        let Some(screen) = &self.screen else {
            return SHUT;
        };
        fault_or(screen.fault(viewer))
    }

    /// Puts what `Screen::settings` says of `viewer` at the start of `room` (`format` and the like of `rfbClientRec` in `rfb.h`), in
    /// 32-bit words, as many as fit; the rest of `room` stays. Returns how many, or the code of `NoViewer`.
    pub fn settings(&mut self, viewer: u64, room: &mut [u32]) -> i32
        ensures { ShowsSettings viewer self.old self.new room.old room.new result }
    {
        let Some(screen) = &self.screen else {
            return SHUT;
        };
        show_settings(screen.settings(viewer), room)
    }

    /// Returns the screen's columns, 1 to 8192 (`Screen::width`).
    pub fn width(&mut self) -> i64
        ensures { Tells (λ screen. pos screen.picture.width) self.old self.new result }
    {
        let Some(screen) = &self.screen else {
            return i64::from(SHUT);
        };
        i64::from(screen.width())
    }

    /// Returns the screen's rows, 1 to 8192 (`Screen::height`).
    pub fn height(&mut self) -> i64
        ensures { Tells (λ screen. pos screen.picture.height) self.old self.new result }
    {
        let Some(screen) = &self.screen else {
            return i64::from(SHUT);
        };
        i64::from(screen.height())
    }

    /// Returns the colour `0x00RRGGBB` of the place in column `x` of row `y` (`Screen::colour`), or `OFF_SCREEN`.
    pub fn colour(&mut self, x: u32, y: u32) -> i64
        ensures { Tells (colour_at x y) self.old self.new result }
    {
        let Some(screen) = &self.screen else {
            return i64::from(SHUT);
        };
        match screen.colour(x, y) {
            Some(colour) => i64::from(colour),
            None => i64::from(OFF_SCREEN),
        }
    }
}

impl DrawByCode for Desk {
    ghost draws = { Draws };

    ghost draws_places = { DrawsRegion };

    fn draw(&mut self, drawing: &Drawing<'_>) -> i32 {
        let Some(screen) = &mut self.screen else {
            return SHUT;
        };
        done_or(screen.draw(drawing))
    }

    fn draw_places(&mut self, list: &[Corners], call: RegionCall) -> i32 {
        match self.places_of(list) {
            Ok(region) => self.draw(&call.with(&region)),
            Err(code) => code,
        }
    }
}
