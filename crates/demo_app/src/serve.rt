//! `serve`: a screen over TCP, on which viewers paint places, ring bells and copy texts.

ghost use Rattle.std.specs.Prelude.{◌≡◌, ◌<◌, ◌⊎◌, [], true, take, IfOk, OnOk, MatchOption, option_map, is_some};
ghost use Rattle.update_sender.specs.Ends.{drew};
ghost use Rattle.demo_app.specs.Application.{event_for, painted, stroke_event};
ghost use Rattle.demo_app.specs.Screens.{config_by};
ghost use Rattle.demo_app.specs.Endings.{Judged, Tells, PrintsOf};
ghost use Rattle.demo_app.specs.Runs.{AreGiven, PrintsServed};
ghost use Rattle.serving.specs.Serving.{AreNumbered, AreServed};
ghost use Rattle.update_sender.specs.Finishing.{Finishes};

use crate::endings::{print_ends, print_judgement, written_out};
use messages::Input;
use play_script::refusal_text;
use play_script::trouble::{Trouble, print, report};
use receipts::Receipt;
use screen::{Config, History, LONGEST_TEXT, Listed, Rect, ScreenError, config_refusal};
use serving::{
    Application, ServeError, Stop, Told, serve_forever, serve_viewers_until,
    serve_viewers_with_queue,
};
use std::alloc::{AllocError, Global};
use std::io::Write;
use std::marker::Brand;
use std::net::{Net, TcpListener};
use std::sync::Wait;
use std::sync::ledger::{Blank, Ledger};
use std::thread::Threads;
use std::time::Clock;
use update_sender::{Brush, Shared, finish};

/// What `serve` is told.
#[derive(Drop)]
pub struct ServeOptions {
    /// Columns of the screen.
    pub width: u32,
    /// Rows of the screen.
    pub height: u32,
    /// The desktop's name.
    pub name: Listed<u8>,
    /// How many copies, and how many pixel rectangles, one update has at most.
    pub limit: u32,
    /// How many connections are served, or may be there at once where viewers are taken without end.
    pub viewers: u32,
    /// Whether the history is kept, and the run is judged at its end.
    pub check: bool,
}

/// What a server with threads does besides.
#[derive(Clone, Copy)]
pub struct ByThreads<'a> {
    /// Whether viewers are taken without end, as many at once as the options say, and a further one is turned away.
    pub forever: bool,
    /// What another thread ends the server by.
    pub stop: Option<&'a Stop>,
}

/// The application: a pointer with its first button down paints its place white, a key that goes down rings the bell, and a text
/// is sent back.
#[derive(Clone, Copy, Drop)]
pub(crate) struct Easel {
    pub width: u32,
    pub height: u32,
}

/// Returns the application for the screen that the options say.
pub(crate) fn easel_of(options: &ServeOptions) -> Easel
    ensures width { result.width ≡ options.now.width }
    ensures height { result.height ≡ options.now.height }
{
    Easel {
        width: options.width,
        height: options.height,
    }
}

/// What an input has the application draw.
#[derive(Clone, Copy)]
pub(crate) enum Stroke<'a> {
    /// The place of this rectangle gets white.
    Place(Rect),
    /// The bell rings.
    Bell,
    /// A text is sent back.
    Text(&'a [u8]),
}

/// How many inputs may wait for the application, where so many viewers are served in all. Without end it is `serving::INPUTS`.
const INPUTS: usize = 1024;

/// The colour of a place that is painted.
pub(crate) const WHITE: u32 = 0xff_ffff;

/// Returns the first bytes of a text, as many as are sent back.
fn first_of(text: &[u8]) -> &[u8]
    ensures { result.now ≡ take 65536 text.now }
{
    if text.len() <= LONGEST_TEXT {
        text
    } else {
        &text[..LONGEST_TEXT]
    }
}

impl Easel {
    /// Returns the rectangle of the place that a pointer paints, or `None` unless its first button is down and it is on the screen.
    fn painted(&self, mask: u8, x: u16, y: u16) -> Option<Rect>
        ensures { result ≡ painted self.now.width self.now.height mask x y }
    {
        let is_painted = mask & 1 == 1 && u32::from(x) < self.width && u32::from(y) < self.height;
        if !is_painted {
            return None;
        }
        let (x1, y1) = (i32::from(x), i32::from(y));
        Some(Rect {
            x1,
            y1,
            x2: x1 + 1,
            y2: y1 + 1,
        })
    }

    /// Returns what an input has it draw, if anything.
    pub fn stroke<'a>(&self, input: &'a Input) -> Option<Stroke<'a>>
        ensures { option_map stroke_event result ≡ event_for self.now.width self.now.height input.now }
    {
        match input {
            Input::Pointer { mask, x, y } => {
                let rect = self.painted(*mask, *x, *y)?;
                Some(Stroke::Place(rect))
            }
            Input::Key { down: true, .. } => Some(Stroke::Bell),
            Input::Key { down: false, .. } => None,
            Input::Text { text, .. } => Some(Stroke::Text(first_of(text.as_slice()))),
        }
    }
}

impl<L: Ledger> Application<L> for Easel {
    fn on_input<R: Wait>(
        &mut self,
        rt: &R,
        shared: &Shared<L>,
        brush: &mut Brush<L>,
        told: &Told,
    ) -> Result<(), ScreenError>
        ensures drawn { MatchOption (event_for self.old.width self.old.height told.now.input) (brush.new ≡ brush.old)
            (λ e. OnOk result (brush.new ≡ drew e brush.old)) }
    {
        match self.stroke(&told.input) {
            Some(Stroke::Place(rect)) => brush.paint(shared, rt, rect, &[WHITE]),
            Some(Stroke::Bell) => brush.bell(shared, rt),
            Some(Stroke::Text(text)) => brush.cut_text(shared, rt, text),
            None => Ok(()),
        }
    }
}

/// Returns what is printed of why serving ended early.
pub(crate) fn trouble_of(error: ServeError) -> Trouble {
    match error {
        ServeError::Network => Trouble::NetworkFault,
        // the application's calls are refused for memory alone
        ServeError::Screen(_) => Trouble::OutOfMemory,
    }
}

/// Judges the run, and prints the judgement. Returns the status.
pub(crate) fn print_verdict<L: Ledger, W: Write>(
    alloc: Global,
    writer: &mut W,
    shared: Shared<L>,
    brush: Brush<L>,
    receipts: Vec<Receipt>,
) -> Result<u8, Trouble>
    ensures either { IfOk result (λ status. (status ≡ 0) ⊎ (status ≡ 4)) }
    ensures judged { IfOk result (Judged (W.contents writer.old) (W.contents writer.new)) }
    ensures finished { IfOk result (Tells (Finishes shared brush receipts.items) (W.contents writer.old) (W.contents writer.new)) }
{
    print_judgement(alloc, writer, finish(shared, brush, receipts))
}

/// Returns the screen that the options say.
pub(crate) fn config_of(alloc: Global, options: &ServeOptions) -> Result<Config, AllocError>
    ensures { IfOk result (λ config. config ≡ config_by options.now) }
{
    let history = if options.check {
        History::Kept
    } else {
        History::NotKept
    };
    Ok(Config {
        width: options.width,
        height: options.height,
        name: Listed::from_slice(alloc, options.name.as_slice())?,
        rects_per_update: options.limit,
        history,
    })
}

/// Says whether the screen that the options say is refused, whatever memory there is.
pub fn is_refused(options: &ServeOptions) -> bool {
    let name = options.name.as_slice();
    config_refusal(options.width, options.height, name, options.limit).is_some()
}

/// Prints why a configuration is refused. Returns the status, 1. `OutOfMemory` where that is why.
pub(crate) fn print_refusal<W: Write>(
    alloc: Global,
    writer: &mut W,
    refusal: ScreenError,
) -> Result<u8, Trouble>
    ensures { IfOk result (λ status. status ≡ 1) }
{
    if refusal == ScreenError::OutOfMemory {
        return Err(Trouble::OutOfMemory);
    }
    print(writer, &refusal_text(alloc, refusal)?)?;
    Ok(1)
}

/// Prints how the viewers ended, and with `check` what the run is judged to be. Returns the status.
fn print_run<L: Ledger, W: Write>(
    alloc: Global,
    writer: &mut W,
    shared: Shared<L>,
    brush: Brush<L>,
    receipts: Vec<Receipt>,
    check: bool,
) -> Result<u8, Trouble>
    ensures either { IfOk result (λ status. (status ≡ 0) ⊎ (status ≡ 4)) }
    ensures printed { IfOk result (PrintsOf check receipts.items (Finishes shared brush receipts.items) (W.contents writer.old) (W.contents writer.new)) }
{
    print_ends(alloc, writer, &receipts)?;
    if check {
        print_verdict(alloc, writer, shared, brush, receipts)
    } else {
        Ok(0)
    }
}

/// Serves viewers until `stop` ends the server. Returns no receipt.
fn serve_without_end<L: Ledger + Send + Sync, R: Threads + Wait + Clock + Net + Sync>(
    rt: &R,
    alloc: Global,
    listener: &TcpListener,
    shared: &Shared<L>,
    brush: &mut Brush<L>,
    options: &ServeOptions,
    stop: &Stop,
) -> Result<Vec<Receipt>, ServeError>
    ensures { IfOk result (λ receipts. receipts.items ≡ []) }
{
    let viewers = options.viewers as usize;
    let mut easel = easel_of(options);
    serve_forever(
        rt,
        alloc,
        listener,
        shared,
        brush,
        viewers,
        serving::INPUTS,
        stop,
        &mut easel,
    )?;
    Ok(Vec::new(alloc))
}

/// Serves as many viewers as the options say, or fewer where `stop` ends the server. Returns their receipts.
fn serve_all<L: Ledger + Send + Sync, R: Threads + Wait + Clock + Net + Sync>(
    rt: &R,
    alloc: Global,
    listener: &TcpListener,
    shared: &Shared<L>,
    brush: &mut Brush<L>,
    options: &ServeOptions,
    stop: Option<&Stop>,
) -> Result<Vec<Receipt>, ServeError>
    ensures { IfOk result (λ receipts. AreServed options.now.viewers (is_some stop.entry) receipts.items) }
{
    let viewers = u64::from(options.viewers);
    let mut easel = easel_of(options);
    match stop {
        Some(stop) => serve_viewers_until(
            rt, alloc, listener, shared, brush, viewers, INPUTS, stop, &mut easel,
        ),
        None => serve_viewers_with_queue(
            rt, alloc, listener, shared, brush, viewers, INPUTS, &mut easel,
        ),
    }
}

/// Serves viewers, a number of them or without end. Returns the receipts that there are at the end.
fn receipts_of<L: Ledger + Send + Sync, R: Threads + Wait + Clock + Net + Sync>(
    rt: &R,
    alloc: Global,
    listener: &TcpListener,
    shared: &Shared<L>,
    brush: &mut Brush<L>,
    options: &ServeOptions,
    besides: &ByThreads<'_>,
) -> Result<Vec<Receipt>, ServeError>
    ensures { IfOk result (λ receipts.
        AreGiven options.now.viewers besides.now.forever (is_some besides.now.stop) receipts.items) }
{
    if !besides.forever {
        return serve_all(rt, alloc, listener, shared, brush, options, besides.stop);
    }
    match besides.stop {
        Some(stop) => serve_without_end(rt, alloc, listener, shared, brush, options, stop),
        None => serve_without_end(rt, alloc, listener, shared, brush, options, &Stop::new()?),
    }
}

/// Serves the viewers on a shared screen, and says how they ended. Returns the status.
fn serve<L: Ledger + Send + Sync, W: Write, R: Threads + Wait + Clock + Net + Sync>(
    rt: &R,
    alloc: Global,
    blank: Blank,
    listener: &TcpListener,
    options: &ServeOptions,
    besides: &ByThreads<'_>,
    writer: &mut W,
) -> Result<u8, Trouble>
    requires name { blank.name ≡ L.name }
    requires parts { blank.parts ≡ L.parts }
    requires some { 0 < L.parts }
    ensures status { IfOk result (λ status. (status ≡ 0) ⊎ (status ≡ 1) ⊎ (status ≡ 4)) }
    ensures judged { options.now.check ≡ true →
        IfOk result (λ status. (status ≡ 1) ⊎ Judged (W.contents writer.old) (W.contents writer.new) status) }
    ensures printed { IfOk result (λ status. (status ≡ 1) ⊎
        PrintsServed options.now (AreGiven options.now.viewers besides.now.forever (is_some besides.now.stop)) (W.contents writer.old) (W.contents writer.new) status) }
{
    let made = Shared::<L>::new(alloc, blank, config_of(alloc, options)?);
    let (shared, mut brush) = match made {
        Ok(made) => made,
        Err(refusal) => return print_refusal(alloc, writer, refusal),
    };
    let receipts = match receipts_of(rt, alloc, listener, &shared, &mut brush, options, besides) {
        Ok(receipts) => receipts,
        Err(error) => return Err(trouble_of(error)),
    };
    print_run(alloc, writer, shared, brush, receipts, options.check)
}

/// Does the same, and writes out what it printed.
fn serve_and_flush<L: Ledger + Send + Sync, W: Write, R: Threads + Wait + Clock + Net + Sync>(
    rt: &R,
    alloc: Global,
    blank: Blank,
    listener: &TcpListener,
    options: &ServeOptions,
    besides: &ByThreads<'_>,
    writer: &mut W,
) -> u8
    requires name { blank.name ≡ L.name }
    requires parts { blank.parts ≡ L.parts }
    requires some { 0 < L.parts }
    ensures status { (result ≡ 0) ⊎ (result ≡ 1) ⊎ (result ≡ 3) ⊎ (result ≡ 4) ⊎ (result ≡ 5) }
    ensures judged { options.now.check ≡ true → ((result ≡ 0) ⊎ (result ≡ 4)) →
        Judged (W.contents writer.old) (W.contents writer.new) result }
    ensures printed { ((result ≡ 0) ⊎ (result ≡ 4)) →
        PrintsServed options.now (AreGiven options.now.viewers besides.now.forever (is_some besides.now.stop)) (W.contents writer.old) (W.contents writer.new) result }
{
    match serve::<L, W, R>(rt, alloc, blank, listener, options, besides, writer) {
        Ok(status) => written_out(writer, status),
        Err(trouble) => report(writer, trouble),
    }
}

/// Serves so many connections of a listener as the options say, each as a viewer of one screen, numbered from 1 on. A pointer
/// whose first button is down paints its place white, a key that goes down rings the bell, and a text is sent back, its first
/// 65,536 bytes. Once all have ended, `viewer V` and how it ended is printed for each viewer, and with `check` the judgement
/// of the run: `finish ok`, or `finish`, the code and the name of what is wrong. The status is 0; 1 after `refused`, for a
/// configuration that no screen has; 3 after `out of memory`; 4 after a judgement that is not `ok`; 5 after `network fault`, and
/// after a write that failed.
pub fn serve_on<W: Write, R: Threads + Wait + Clock + Net + Sync>(
    rt: &R,
    alloc: Global,
    listener: &TcpListener,
    options: &ServeOptions,
    writer: &mut W,
) -> u8
    ensures status { (result ≡ 0) ⊎ (result ≡ 1) ⊎ (result ≡ 3) ⊎ (result ≡ 4) ⊎ (result ≡ 5) }
    ensures judged { options.now.check ≡ true → ((result ≡ 0) ⊎ (result ≡ 4)) →
        Judged (W.contents writer.old) (W.contents writer.new) result }
    ensures printed { ((result ≡ 0) ⊎ (result ≡ 4)) →
        PrintsServed options.now (AreNumbered options.now.viewers) (W.contents writer.old) (W.contents writer.new) result }
{
    let besides = ByThreads {
        forever: false,
        stop: None,
    };
    serve_by_threads(rt, alloc, listener, options, &besides, writer)
}

/// Does what `serve_on` does, and more besides. With `forever` no number of viewers ends the server, and no viewer's line is printed: what
/// `check` judges then has no receipt. Once `stop` is called, viewers that are there are let go, and what there is to print of them is
/// printed within a second.
pub fn serve_by_threads<W: Write, R: Threads + Wait + Clock + Net + Sync>(
    rt: &R,
    alloc: Global,
    listener: &TcpListener,
    options: &ServeOptions,
    besides: &ByThreads<'_>,
    writer: &mut W,
) -> u8
    ensures status { (result ≡ 0) ⊎ (result ≡ 1) ⊎ (result ≡ 3) ⊎ (result ≡ 4) ⊎ (result ≡ 5) }
    ensures judged { options.now.check ≡ true → ((result ≡ 0) ⊎ (result ≡ 4)) →
        Judged (W.contents writer.old) (W.contents writer.new) result }
    ensures printed { ((result ≡ 0) ⊎ (result ≡ 4)) →
        PrintsServed options.now (AreGiven options.now.viewers besides.now.forever (is_some besides.now.stop)) (W.contents writer.old) (W.contents writer.new) result }
{
    serve_and_flush::<Brand, W, R>(rt, alloc, Blank::new(1), listener, options, besides, writer)
}
