//! `self --one-thread`: the same viewers and the same drawing, served by an event loop.

ghost use Rattle.std.specs.Prelude.{◌≡◌, ◌⊎◌, ◌++◌, ◌∷◌, [], None, IfOk, OnOk, OnErr, length};
ghost use Rattle.screen.specs.Alone.{config_refusal};
ghost use Rattle.connections.specs.Drawing.{Draws};
ghost use Rattle.connections.specs.Serving.{Serves};
ghost use Rattle.event_loop.specs.Sockets.{sockets};
ghost use Rattle.demo_app.specs.Application.{own_calls, KeepsOwn};
ghost use Rattle.demo_app.specs.Endings.{PrintsOwn};
ghost use Rattle.demo_app.specs.Runs.{IsOwnCheck, JudgesOwn, RanOwn};
ghost use Rattle.demo_app.specs.Screens.{own_config};

use crate::endings::{print_judgement, sort_receipts, written_out};
use crate::one_thread::trouble_of;
use crate::self_test::{
    COLOURS, Drawer, END, PLACES, TARGET, config, connect_all, join_all, network_trouble,
    print_shows, spawn_all, status_of,
};
use crate::watching::shut_all;
use event_loop::{Application, Canvas, Draw, EventLoop, Limits, WhenFull};
use messages::Input;
use mio::net::TcpListener;
use play_script::trouble::{Trouble, report};
use receipts::{FinishError, Receipt, Report, check};
use screen::{Config, Event, Listed, ScreenError};
use std::alloc::{AllocError, Global};
use std::io::Write;
use std::net::{Ipv4Addr, Net, SocketAddr, TcpStream};
use std::sync::Wait;
use std::thread;
use std::thread::{Scope, Threads};
use std::time::{Clock, Duration};

/// How long a viewer may take for its opening, in seconds.
const OPENING_SECONDS: u64 = 30;

/// The application, what it drew, and the receipts of the viewers that left.
#[derive(Drop)]
struct Drawing {
    alloc: Global,
    drawer: Drawer,
    drawn: Vec<Event>,
    receipts: Vec<Receipt>,
    viewers: usize,
}

/// What there is at the end of a run: the loop, its application, and of each viewer whether it shows the picture.
#[derive(Drop)]
struct OwnRun {
    served: EventLoop,
    drawing: Drawing,
    shows: Vec<bool>,
}

/// Draws the stored run, and sends the text that ends it.
fn draw(canvas: &mut Canvas) -> Result<(), ScreenError>
    ensures draws { Draws canvas.old canvas.new }
{
    canvas.paint(PLACES, &COLOURS)?;
    canvas.do_copy_rect(1, 0, 4, 1, 1, 0)?;
    canvas.cut_text(END)
}

/// Returns these drawing calls, as events.
fn events(alloc: Global) -> Result<Vec<Event>, AllocError>
    ensures { IfOk result (λ events. events.items ≡ own_calls) }
{
    let mut events = Vec::with_capacity(alloc, 3)?;
    events.push(Event::Paint {
        rect: PLACES,
        colours: Listed::from_slice(alloc, &COLOURS)?,
    })?;
    events.push(Event::DoCopy {
        rects: Listed::from_slice(alloc, &[TARGET])?,
        dx: 1,
        dy: 0,
    })?;
    events.push(Event::CutText {
        text: Listed::from_slice(alloc, END)?,
    })?;
    Ok(events)
}

impl Drawing {
    /// Keeps the drawing calls of the stored run. After an `AllocError` nothing has changed.
    fn keep_calls(&mut self) -> Result<(), AllocError>
        ensures drawn { OnOk result (self.new.drawn.items ≡ own_calls) }
        ensures refused { OnErr result (self.new.drawn.items ≡ self.old.drawn.items) }
        ensures receipts { self.new.receipts ≡ self.old.receipts }
    {
        self.drawn = events(self.alloc)?;
        Ok(())
    }

    /// Keeps a receipt. After an `AllocError` it isn't kept.
    fn keep_receipt(&mut self, receipt: Receipt) -> Result<(), AllocError>
        ensures kept { OnOk result (self.new.receipts.items ≡ self.old.receipts.items ++ receipt ∷ []) }
        ensures refused { OnErr result (self.new.receipts.items ≡ self.old.receipts.items) }
        ensures drawn { self.new.drawn ≡ self.old.drawn }
    {
        self.receipts.push(receipt)?;
        Ok(())
    }

    /// Draws the stored run where the last key that is awaited goes down.
    fn hear(&mut self, canvas: &mut Canvas, input: &Input) -> Result<(), ScreenError>
        ensures draws { Draws canvas.old canvas.new }
        ensures drawn { (self.new.drawn.items ≡ self.old.drawn.items) ⊎ (self.new.drawn.items ≡ own_calls) }
        ensures receipts { self.new.receipts ≡ self.old.receipts }
    {
        match input {
            Input::Key { down: true, .. } if self.drawer.is_last_key() => {
                self.keep_calls()?;
                draw(canvas)
            }
            _ => Ok(()),
        }
    }
}

impl Application for Drawing {
    ghost stands = { λ drawing told. KeepsOwn drawing.drawn.items drawing.receipts.items told };

    fn on_input(
        &mut self,
        canvas: &mut Canvas,
        _viewer: u64,
        input: &Input,
    ) -> Result<(), ScreenError> {
        self.hear(canvas, input)
    }

    fn left(&mut self, _canvas: &mut Canvas, receipt: Receipt) -> Result<(), ScreenError> {
        self.keep_receipt(receipt)?;
        Ok(())
    }

    fn is_done(&self) -> bool {
        self.receipts.len() >= self.viewers
    }
}

/// Returns limits for so many `viewers`, and no more.
fn limits(viewers: u32) -> Limits {
    Limits {
        live_viewers: viewers as usize,
        when_full: WhenFull::Wait,
        all_viewers: u64::from(viewers),
        opening_time: Duration::from_secs(OPENING_SECONDS),
    }
}

/// Serves the viewers of these connections, which run in threads of a scope. Returns what there is at the end. After an error these may
/// still run.
fn run_in_scope<'s, E, R: Threads + Clock>(
    rt: &R,
    alloc: Global,
    streams: &'s [TcpStream],
    mut served: EventLoop,
    mut drawing: Drawing,
    scope: &Scope<'s, E>,
) -> Result<OwnRun, Trouble>
    requires drawn { drawing.drawn.items ≡ [] }
    requires receipts { drawing.receipts.items ≡ [] }
    ensures shows { IfOk result (λ run. length run.shows.items ≡ length streams.now) }
    ensures served { IfOk result (λ run. RanOwn served run.served run.drawing.drawn.items run.drawing.receipts.items) }
{
    let threads = spawn_all(alloc, streams, scope)?;
    match served.run(rt, &mut drawing) {
        Ok(()) => {
            let shows = join_all(rt, alloc, threads)?;
            Ok(OwnRun {
                served,
                drawing,
                shows,
            })
        }
        Err(error) => Err(trouble_of(error)),
    }
}

/// Runs the loop and its viewers, until all have ended. Returns what there is at the end.
fn run_with_viewers<R: Threads + Wait + Clock>(
    rt: &R,
    alloc: Global,
    streams: &[TcpStream],
    served: EventLoop,
    drawing: Drawing,
) -> Result<OwnRun, Trouble>
    requires drawn { drawing.drawn.items ≡ [] }
    requires receipts { drawing.receipts.items ≡ [] }
    ensures shows { IfOk result (λ run. length run.shows.items ≡ length streams.now) }
    ensures served { IfOk result (λ run. RanOwn served run.served run.drawing.drawn.items run.drawing.receipts.items) }
{
    thread::scope(
        thread::scope_env(),
        rt,
        move |scope| -> Result<OwnRun, Trouble>
            requires drawn { drawing.drawn.items ≡ [] }
            requires receipts { drawing.receipts.items ≡ [] }
            ensures shows { IfOk result (λ run. length run.shows.items ≡ length streams.entry.now) }
            ensures served { IfOk result (λ run.
                RanOwn served run.served run.drawing.drawn.items run.drawing.receipts.items) }
        {
            let run = run_in_scope(rt, alloc, streams, served, drawing, scope);
            if run.is_err() {
                shut_all(streams);
            }
            run
        },
    )
}

/// Judges a run by its history, by what was drawn, and by the receipts. `NotKept` where the history isn't kept.
fn judge(
    alloc: Global,
    config: &Config,
    served: &EventLoop,
    drawing: &Drawing,
) -> Result<Report, FinishError>
    requires { config_refusal config.now ≡ None }
    ensures { JudgesOwn config.now served.now.surface.screen.history drawing.now.drawn.items drawing.now.receipts.items result }
{
    match served.screen().history() {
        Some(history) => check(alloc, config, history, &drawing.drawn, &drawing.receipts),
        None => Err(FinishError::NotKept),
    }
}

/// Prints what each viewer shows, and how the run is judged. Returns the status.
fn print_run<W: Write>(
    alloc: Global,
    shows: &[bool],
    served: &EventLoop,
    drawing: &Drawing,
    writer: &mut W,
) -> Result<u8, Trouble>
    ensures either { IfOk result (λ status. (status ≡ 0) ⊎ (status ≡ 4)) }
    ensures printed { IfOk result (PrintsOwn (length shows.now)
        (JudgesOwn own_config served.now.surface.screen.history drawing.now.drawn.items drawing.now.receipts.items)
        (W.contents writer.old) (W.contents writer.new)) }
{
    print_shows(alloc, writer, shows)?;
    let judgement = judge(alloc, &config(alloc)?, served, drawing);
    let judged = print_judgement(alloc, writer, judgement)?;
    Ok(status_of(shows, judged))
}

/// Runs the loop with its viewers, and prints what each shows, and how the run is judged. Returns the status.
fn run_and_judge<W: Write, R: Threads + Wait + Clock>(
    rt: &R,
    alloc: Global,
    streams: &[TcpStream],
    served: EventLoop,
    drawing: Drawing,
    writer: &mut W,
) -> Result<u8, Trouble>
    requires serves { Serves own_config (sockets own_config) [] served }
    requires drawn { drawing.drawn.items ≡ [] }
    requires receipts { drawing.receipts.items ≡ [] }
    ensures either { IfOk result (λ status. (status ≡ 0) ⊎ (status ≡ 4)) }
    ensures printed { IfOk result (PrintsOwn (length streams.now) IsOwnCheck (W.contents writer.old) (W.contents writer.new)) }
{
    let mut run = run_with_viewers(rt, alloc, streams, served, drawing)?;
    sort_receipts(&mut run.drawing.receipts);
    print_run(alloc, &run.shows, &run.served, &run.drawing, writer)
}

/// Returns a loop that serves the screen of `self` to so many viewers.
fn loop_for<R: Net>(
    rt: &R,
    alloc: Global,
    listener: TcpListener,
    viewers: u32,
) -> Result<EventLoop, Trouble>
    ensures { IfOk result (λ served. Serves own_config (sockets own_config) [] served) }
{
    let config = config(alloc)?;
    match EventLoop::new(rt, alloc, listener, config, limits(viewers)) {
        Ok(served) => Ok(served),
        Err(error) => Err(trouble_of(error)),
    }
}

/// Makes a loop, and viewers that connect to it, and does the same with them. Returns the status.
fn own<W, R>(rt: &R, alloc: Global, viewers: u32, writer: &mut W) -> Result<u8, Trouble>
where
    W: Write,
    R: Threads + Wait + Clock + Net<Stream = TcpStream>,
    ensures either { IfOk result (λ status. (status ≡ 0) ⊎ (status ≡ 4)) }
    ensures printed { IfOk result (PrintsOwn viewers IsOwnCheck (W.contents writer.old) (W.contents writer.new)) }
{
    let address = SocketAddr::from((Ipv4Addr::LOCALHOST, 0));
    let listener = TcpListener::bind(rt, address).map_err(network_trouble)?;
    let address = listener.local_addr().map_err(network_trouble)?;
    // the viewers connect before the loop accepts them, so that they have their numbers in their order
    let streams = match connect_all(rt, alloc, address, viewers) {
        Ok(streams) => streams,
        Err(error) => return Err(network_trouble(error)),
    };
    let served = loop_for(rt, alloc, listener, viewers)?;
    let drawing = Drawing {
        alloc,
        drawer: Drawer::new(u64::from(viewers)),
        drawn: Vec::new(alloc),
        receipts: Vec::new(alloc),
        viewers: viewers as usize,
    };
    run_and_judge(rt, alloc, &streams, served, drawing, writer)
}

/// Does what `self_on` does, with one thread for the server.
pub fn self_in_one_thread<W, R>(rt: &R, alloc: Global, viewers: u32, writer: &mut W) -> u8
where
    W: Write,
    R: Threads + Wait + Clock + Net<Stream = TcpStream>,
    ensures status { (result ≡ 0) ⊎ (result ≡ 3) ⊎ (result ≡ 4) ⊎ (result ≡ 5) }
    ensures printed { ((result ≡ 0) ⊎ (result ≡ 4)) →
        PrintsOwn viewers IsOwnCheck (W.contents writer.old) (W.contents writer.new) result }
{
    match own(rt, alloc, viewers, writer) {
        Ok(status) => written_out(writer, status),
        Err(trouble) => report(writer, trouble),
    }
}
