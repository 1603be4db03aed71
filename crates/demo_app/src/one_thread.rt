//! `serve --one-thread`: the same screen, served by an event loop.

ghost use Rattle.std.specs.Prelude.{◌≡◌, ◌⊎◌, ◌++◌, ◌∷◌, [], ℕ, Bool, List, Option, None, Some, true, false, IfOk, OnOk, OnErr, IsPermutation, is_none, option_map};
ghost use Rattle.std.specs.List.Sorted.{IsNonDecreasingBy};
ghost use Rattle.std.specs.Option.{option_to_list};
ghost use Rattle.screen.specs.declared.Config.{Config};
ghost use Rattle.screen.specs.declared.Event.{Event};
ghost use Rattle.screen.specs.State.{state};
ghost use Rattle.demo_app.specs.Application.{event_for, kept_in, stroke_event, KeepsTold, WasTold};
ghost use Rattle.demo_app.specs.Endings.{Judged, PrintsOf};
ghost use Rattle.demo_app.specs.Runs.{JudgesLoop, PrintsLoop};
ghost use Rattle.demo_app.specs.Screens.{config_by};
ghost use Rattle.screen.specs.Alone.{config_refusal};
ghost use Rattle.connections.specs.Drawing.{Draws};
ghost use Rattle.connections.specs.Serving.{Serves};
ghost use Rattle.connections.specs.Telling.{Told, Said};
ghost use Rattle.event_loop.specs.Sockets.{sockets_and, GoesOnServing, GoesOnServingTelling};

use crate::endings::{print_ends, print_judgement, sort_receipts, written_out};
use crate::serve::{Easel, ServeOptions, Stroke, WHITE, config_of, easel_of, print_refusal};
use event_loop::{Application, Canvas, Draw, EventLoop, Limits, LoopError, RecordWriter, WhenFull};
use messages::Input;
use mio::net::TcpListener;
use mirror::BrowserListener;
use play_script::trouble::{Trouble, report};
use receipts::{FinishError, Receipt, Report, check};
use screen::{Config, Event, Listed, ScreenError};
use serving::Stop;
use std::alloc::{AllocError, Global};
use std::io::Write;
use std::marker::{Brand, PhantomData};
use std::net::Net;
use std::sync::Arc;
use std::time::{Clock, Duration};

/// How long a viewer may take for its opening, in seconds.
const OPENING_SECONDS: u64 = 10;

/// What a server in one thread does besides.
#[derive(Drop)]
pub struct OneThread {
    /// Where the session is recorded.
    pub record: Option<RecordWriter>,
    /// Where browsers are let in.
    pub browsers: Option<BrowserListener>,
    /// Whether viewers are taken without end, as many at once as the options say, and a further one is turned away.
    pub forever: bool,
    /// What another thread ends the server by: it is looked at five times a second.
    pub stop: Option<Arc<Stop, Global>>,
}

/// The options of a run, as contracts name them: whatever the loop tells the application, it draws on a screen of so many columns and rows,
/// and it keeps no receipt where viewers are taken without end. A call picks them for `Brand`.
trait Options {
    ghost width: { ℕ };

    ghost height: { ℕ };

    ghost forever: { Bool };
}

impl Options for Brand {
    ghost width = { 0 };

    ghost height = { 0 };

    ghost forever = { false };
}

/// The application, what it drew, where that is kept, and the receipts of the viewers that left, where these come to an end.
#[derive(Drop)]
struct Showing<S: Options> {
    alloc: Global,
    options: PhantomData<S>,
    easel: Easel,
    // the drawing calls, where they are kept; `None` too once memory for one of them was refused
    drawn: Option<Vec<Event>>,
    receipts: Vec<Receipt>,
    // how many viewers come in all
    viewers: Option<usize>,
    stop: Option<Arc<Stop, Global>>,
}

/// After how many milliseconds it is looked again whether the server is to end.
const LOOK: u64 = 200;

/// In how many turns viewers are let go at the end, at most, of which one or two are needed unless more keep coming.
const LAST_TURNS: u32 = 1000;

/// Returns the drawing call that a stroke is.
fn event_of(alloc: Global, stroke: Stroke<'_>) -> Result<Event, AllocError>
    ensures { IfOk result (λ event. event ≡ stroke_event stroke.entry) }
{
    Ok(match stroke {
        Stroke::Place(rect) => Event::Paint {
            rect,
            colours: Listed::from_slice(alloc, &[WHITE])?,
        },
        Stroke::Bell => Event::Bell,
        Stroke::Text(text) => Event::CutText {
            text: Listed::from_slice(alloc, text)?,
        },
    })
}

/// Draws a stroke.
fn draw(canvas: &mut Canvas, stroke: Stroke<'_>) -> Result<(), ScreenError>
    ensures step { (config : Config) (list : List Event) → canvas.old.screen ≡ state config list →
        OnOk result (canvas.new.screen ≡ state config (list ++ stroke_event stroke.entry ∷ [])) }
    ensures draws { Draws canvas.old canvas.new }
{
    match stroke {
        Stroke::Place(rect) => canvas.paint(rect, &[WHITE]),
        Stroke::Bell => canvas.bell(),
        Stroke::Text(text) => canvas.cut_text(text),
    }
}

impl<S: Options> Showing<S> {
    /// Says whether the server is to end.
    fn is_stopped(&self) -> bool {
        match &self.stop {
            Some(stop) => stop.is_stopped(),
            None => false,
        }
    }

    /// Keeps the drawing call of a stroke, where drawing calls are kept. After an `AllocError` none is kept any longer.
    fn keep(&mut self, stroke: Stroke<'_>) -> Result<(), AllocError>
        ensures kept { OnOk result (kept_in self.new.drawn ≡ option_map (λ events. events ++ stroke_event stroke.entry ∷ []) (kept_in self.old.drawn)) }
        ensures refused { OnErr result (self.new.drawn ≡ None) }
        ensures easel { self.new.easel ≡ self.old.easel }
        ensures viewers { self.new.viewers ≡ self.old.viewers }
        ensures receipts { self.new.receipts ≡ self.old.receipts }
    {
        let Some(mut drawn) = self.drawn.take() else {
            return Ok(());
        };
        drawn.push(event_of(self.alloc, stroke)?)?;
        self.drawn = Some(drawn);
        Ok(())
    }

    /// Keeps a receipt, where a number of viewers is waited for. After an `AllocError` it isn't kept.
    fn keep_receipt(&mut self, receipt: Receipt) -> Result<(), AllocError>
        ensures kept { (viewers : ℕ) → self.old.viewers ≡ Some viewers →
            OnOk result (self.new.receipts.items ≡ self.old.receipts.items ++ receipt ∷ []) }
        ensures none { self.old.viewers ≡ None → self.new.receipts.items ≡ self.old.receipts.items }
        ensures refused { OnErr result (self.new.receipts.items ≡ self.old.receipts.items) }
        ensures viewers { self.new.viewers ≡ self.old.viewers }
        ensures easel { self.new.easel ≡ self.old.easel }
        ensures drawn { self.new.drawn ≡ self.old.drawn }
    {
        let Some(_viewers) = self.viewers else {
            return Ok(());
        };
        self.receipts.push(receipt)?;
        Ok(())
    }
}

impl<S: Options> Application for Showing<S> {
    ghost stands = { λ showing told.
        KeepsTold S.width S.height S.forever showing.easel showing.drawn showing.viewers showing.receipts.items told };

    fn on_input(
        &mut self,
        canvas: &mut Canvas,
        _viewer: u64,
        input: &Input,
    ) -> Result<(), ScreenError>
        ensures step { (config : Config) (list : List Event) → canvas.old.screen ≡ state config list →
            OnOk result (canvas.new.screen ≡
            state config (list ++ option_to_list (event_for self.old.easel.width self.old.easel.height input.now))) }
        ensures kept { OnOk result (kept_in self.new.drawn ≡ option_map (λ events.
            events ++ option_to_list (event_for self.old.easel.width self.old.easel.height input.now)) (kept_in self.old.drawn)) }
        ensures draws { Draws canvas.old canvas.new }
        ensures told { (told : List Told) →
            KeepsTold S.width S.height S.forever self.old.easel self.old.drawn self.old.viewers self.old.receipts.items told →
            KeepsTold S.width S.height S.forever self.new.easel self.new.drawn self.new.viewers self.new.receipts.items
            (told ++ Said _viewer input.now ∷ []) }
    {
        let Some(stroke) = self.easel.stroke(input) else {
            return Ok(());
        };
        self.keep(stroke)?;
        draw(canvas, stroke)
    }

    fn left(&mut self, _canvas: &mut Canvas, receipt: Receipt) -> Result<(), ScreenError> {
        self.keep_receipt(receipt)?;
        Ok(())
    }

    fn is_done(&self) -> bool {
        let have_all_left = match self.viewers {
            Some(viewers) => self.receipts.len() >= viewers,
            None => false,
        };
        have_all_left || self.is_stopped()
    }

    fn tick(&mut self, _canvas: &mut Canvas) -> Result<Option<Duration>, ScreenError> {
        match &self.stop {
            Some(_) => Ok(Some(Duration::from_millis(LOOK))),
            None => Ok(None),
        }
    }
}

/// Returns what is printed of why a loop ended early.
pub(crate) fn trouble_of(error: LoopError) -> Trouble {
    match error {
        LoopError::Network | LoopError::Clock | LoopError::TooManyListeners => {
            Trouble::NetworkFault
        }
        // the application's calls are refused for memory alone
        LoopError::Screen(_) => Trouble::OutOfMemory,
    }
}

/// Judges a run by its history, by what was drawn, and by the receipts. `NotKept` where the history isn't kept, and `OutOfMemory` also where
/// a drawing call isn't.
fn judge<S: Options>(
    alloc: Global,
    config: &Config,
    served: &EventLoop,
    showing: &Showing<S>,
) -> Result<Report, FinishError>
    requires { config_refusal config.now ≡ None }
    ensures { JudgesLoop config.now served.now.surface.screen.history (kept_in showing.now.drawn) showing.now.receipts.items result }
{
    let Some(history) = served.screen().history() else {
        return Err(FinishError::NotKept);
    };
    let Some(drawn) = &showing.drawn else {
        return Err(FinishError::OutOfMemory);
    };
    check(alloc, config, history, drawn, &showing.receipts)
}

/// Returns what a loop grants the viewers that the options tell.
fn limits_of(options: &ServeOptions, forever: bool) -> Limits {
    let viewers = u64::from(options.viewers);
    Limits {
        live_viewers: options.viewers as usize,
        when_full: WhenFull::LetGo,
        all_viewers: if forever { u64::MAX } else { viewers },
        opening_time: Duration::from_secs(OPENING_SECONDS),
    }
}

/// Prints how the viewers ended, in the order in which they came, and with `check` what the run is judged to be. Returns the status.
fn print_run<S: Options, W: Write>(
    alloc: Global,
    config: &Config,
    served: &EventLoop,
    showing: &mut Showing<S>,
    options: &ServeOptions,
    writer: &mut W,
) -> Result<u8, Trouble>
    requires { config_refusal config.now ≡ None }
    ensures status { IfOk result (λ status. (status ≡ 0) ⊎ (status ≡ 1) ⊎ (status ≡ 4)) }
    ensures judged { options.now.check ≡ true →
        IfOk result (λ status. (status ≡ 1) ⊎ Judged (W.contents writer.old) (W.contents writer.new) status) }
    ensures permutation { IsPermutation showing.old.receipts.items showing.new.receipts.items }
    ensures sorted { IsNonDecreasingBy (λ r. r.viewer) showing.new.receipts.items }
    ensures printed { IfOk result (PrintsOf options.now.check showing.new.receipts.items
        (JudgesLoop config.now served.now.surface.screen.history (kept_in showing.old.drawn) showing.new.receipts.items)
        (W.contents writer.old) (W.contents writer.new)) }
{
    sort_receipts(&mut showing.receipts);
    print_ends(alloc, writer, &showing.receipts)?;
    if options.check {
        let judgement = judge(alloc, config, served, showing);
        return print_judgement(alloc, writer, judgement);
    }
    Ok(0)
}

/// Lets all viewers go that are there.
fn let_go(served: &mut EventLoop) -> Result<(), LoopError>
    ensures served { GoesOnServing served.old served.new }
{
    let numbers = served.screen().numbers()?;
    for viewer in numbers.as_slice() {
        served.close_viewer(*viewer)?;
    }
    Ok(())
}

/// Lets all viewers go, and takes a turn.
fn let_go_and_turn<A: Application, R: Net + Clock>(
    rt: &R,
    served: &mut EventLoop,
    application: &mut A,
) -> Result<(), LoopError>
    ensures served { GoesOnServingTelling A.stands served.old served.new application.old application.new result }
{
    let_go(served)?;
    served.process_events(rt, Some(Duration::ZERO), application)
}

/// Lets all viewers go, and parts with them.
fn let_all_go<A: Application, R: Net + Clock>(
    rt: &R,
    served: &mut EventLoop,
    application: &mut A,
) -> Result<(), LoopError>
    ensures served { GoesOnServingTelling A.stands served.old served.new application.old application.new result }
{
    for _ in 0..LAST_TURNS {
        if served.viewer_count() == 0 {
            return Ok(());
        }
        let_go_and_turn(rt, served, application)?;
    }
    Ok(())
}

/// Runs the loop to its end, and parts with the viewers that are there.
fn run_to_end<A: Application, R: Net + Clock>(
    rt: &R,
    served: &mut EventLoop,
    application: &mut A,
) -> Result<(), LoopError>
    ensures served { GoesOnServingTelling A.stands served.old served.new application.old application.new result }
{
    served.run(rt, application)?;
    let_all_go(rt, served, application)
}

/// Opens a loop for the screen of a configuration, with a `record` one that records its session.
fn open_loop<R: Net>(
    rt: &R,
    alloc: Global,
    listener: TcpListener,
    config: Config,
    limits: Limits,
    record: Option<RecordWriter>,
) -> Result<EventLoop, LoopError>
    ensures serves { IfOk result (λ served.
        (held : Option (Option (List ℕ))) × Serves config (sockets_and held config) [] served) }
    ensures accepted { OnOk result (config_refusal config ≡ None) }
{
    match record {
        Some(record) => EventLoop::recorded(rt, alloc, listener, config, limits, record),
        None => EventLoop::new(rt, alloc, listener, config, limits),
    }
}

/// Lets browsers in, where they are to be.
fn let_in(
    alloc: Global,
    served: &mut EventLoop,
    browsers: Option<BrowserListener>,
) -> Result<(), LoopError>
    ensures same { served.new ≡ served.old }
{
    match browsers {
        Some(BrowserListener { listener, let_in }) => served.listen_web(alloc, listener, let_in),
        None => Ok(()),
    }
}

/// Opens such a loop, and lets browsers in, where they are to be.
fn open_to_all<R: Net>(
    rt: &R,
    alloc: Global,
    listener: TcpListener,
    config: Config,
    limits: Limits,
    record: Option<RecordWriter>,
    browsers: Option<BrowserListener>,
) -> Result<EventLoop, LoopError>
    ensures serves { IfOk result (λ served.
        (held : Option (Option (List ℕ))) × Serves config (sockets_and held config) [] served) }
    ensures accepted { OnOk result (config_refusal config ≡ None) }
{
    let mut served = open_loop(rt, alloc, listener, config, limits, record)?;
    let_in(alloc, &mut served, browsers)?;
    Ok(served)
}

/// Returns the application, which was told nothing yet.
fn showing_of<S: Options>(
    alloc: Global,
    options: &ServeOptions,
    forever: bool,
    stop: Option<Arc<Stop, Global>>,
) -> Showing<S>
    requires width { options.now.width ≡ S.width }
    requires height { options.now.height ≡ S.height }
    ensures told { WasTold S.width S.height result.easel result.drawn [] }
    ensures ends { is_none result.viewers ≡ forever }
    ensures receipts { result.receipts.items ≡ [] }
{
    Showing {
        alloc,
        options: PhantomData,
        easel: easel_of(options),
        drawn: options.check.then(|| Vec::new(alloc)),
        receipts: Vec::new(alloc),
        viewers: (!forever).then_some(options.viewers as usize),
        stop,
    }
}

/// Runs the loop to its end, and prints how the viewers ended. Returns the status.
fn run_and_print<S: Options, W: Write, R: Net + Clock>(
    rt: &R,
    alloc: Global,
    config: &Config,
    served: &mut EventLoop,
    showing: &mut Showing<S>,
    options: &ServeOptions,
    writer: &mut W,
) -> Result<u8, Trouble>
    requires accepted { config_refusal config.now ≡ None }
    requires config { config.now ≡ config_by options.now }
    requires serves { (held : Option (Option (List ℕ))) × Serves config.now (sockets_and held config.now) [] served.old }
    requires width { options.now.width ≡ S.width }
    requires height { options.now.height ≡ S.height }
    requires told { WasTold S.width S.height showing.old.easel showing.old.drawn [] }
    requires ends { is_none showing.old.viewers ≡ S.forever }
    requires receipts { showing.old.receipts.items ≡ [] }
    ensures status { IfOk result (λ status. (status ≡ 0) ⊎ (status ≡ 1) ⊎ (status ≡ 4)) }
    ensures judged { options.now.check ≡ true →
        IfOk result (λ status. (status ≡ 1) ⊎ Judged (W.contents writer.old) (W.contents writer.new) status) }
    ensures printed { IfOk result (PrintsLoop options.now S.forever (W.contents writer.old) (W.contents writer.new)) }
{
    match run_to_end(rt, served, showing) {
        Ok(()) => print_run(alloc, config, served, showing, options, writer),
        Err(error) => Err(trouble_of(error)),
    }
}

/// Returns what a run `ended` by. Where its record is broken it says so instead, and prints first why the run ended early, if it did.
fn unless_broken<W: Write>(
    writer: &mut W,
    is_broken: bool,
    ended: Result<u8, Trouble>,
) -> Result<u8, Trouble>
    ensures { IfOk result (λ status. (ended ≡ Ok status) × (writer.new ≡ writer.old)) }
{
    if !is_broken {
        return ended;
    }
    if let Err(trouble) = ended {
        let _status = report(writer, trouble);
    }
    Err(Trouble::RecordBroken)
}

/// Serves the viewers, and says how they ended. Returns the status.
fn serve<S: Options, W: Write, R: Net + Clock>(
    rt: &R,
    alloc: Global,
    listener: TcpListener,
    options: &ServeOptions,
    besides: OneThread,
    writer: &mut W,
) -> Result<u8, Trouble>
    requires width { options.now.width ≡ S.width }
    requires height { options.now.height ≡ S.height }
    requires forever { besides.forever ≡ S.forever }
    ensures status { IfOk result (λ status. (status ≡ 0) ⊎ (status ≡ 1) ⊎ (status ≡ 4)) }
    ensures judged { options.now.check ≡ true →
        IfOk result (λ status. (status ≡ 1) ⊎ Judged (W.contents writer.old) (W.contents writer.new) status) }
    ensures printed { IfOk result (λ status. (status ≡ 1) ⊎
        PrintsLoop options.now S.forever (W.contents writer.old) (W.contents writer.new) status) }
{
    let config = config_of(alloc, options)?;
    let asked = config_of(alloc, options)?;
    let OneThread {
        record,
        browsers,
        forever,
        stop,
    } = besides;
    let limits = limits_of(options, forever);
    let opened = open_to_all(rt, alloc, listener, asked, limits, record, browsers);
    let mut served = match opened {
        Ok(served) => served,
        Err(LoopError::Screen(refusal)) => return print_refusal(alloc, writer, refusal),
        Err(error) => return Err(trouble_of(error)),
    };
    let mut showing = showing_of::<S>(alloc, options, forever, stop);
    let ended = run_and_print(
        rt,
        alloc,
        &config,
        &mut served,
        &mut showing,
        options,
        writer,
    );
    unless_broken(writer, served.is_record_broken(), ended)
}

/// Does what `serve_on` does, with one thread for all viewers. A viewer that has not had its ServerInit after ten seconds is let go, as
/// `Closed`, and a connection too many is told so and closed at once. With `record` the session is written there; where that ended before
/// the run, the last line is `record broken` and the status 5. With `browsers` these are viewers too, over WebSockets. With `forever` no
/// number of viewers ends the server, and no viewer's line is printed. Once `stop` is called, viewers that are there are let go within a
/// second, as `Gate`.
pub fn serve_in_one_thread<W: Write, R: Net + Clock>(
    rt: &R,
    alloc: Global,
    listener: TcpListener,
    options: &ServeOptions,
    besides: OneThread,
    writer: &mut W,
) -> u8
    ensures status { (result ≡ 0) ⊎ (result ≡ 1) ⊎ (result ≡ 3) ⊎ (result ≡ 4) ⊎ (result ≡ 5) }
    ensures judged { options.now.check ≡ true → ((result ≡ 0) ⊎ (result ≡ 4)) →
        Judged (W.contents writer.old) (W.contents writer.new) result }
    ensures printed { ((result ≡ 0) ⊎ (result ≡ 4)) →
        PrintsLoop options.now besides.forever (W.contents writer.old) (W.contents writer.new) result }
{
    match serve::<Brand, W, R>(rt, alloc, listener, options, besides, writer) {
        Ok(status) => written_out(writer, status),
        Err(trouble) => report(writer, trouble),
    }
}
