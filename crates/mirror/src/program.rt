//! The program: a source is waited for, and then its picture is served.

ghost use Rattle.std.specs.Prelude.{◌≡◌, ◌⊎◌, true, IfOk, IfErr, OnOk};
ghost use Rattle.std.specs.Io.KnownBytes.{Appends};
ghost use Rattle.mirror.specs.Programs.{IsConfig, IsTrouble, IsTroubleWith};

use crate::mirror::{Manner, Mirror};
use crate::source::Desktop;
use event_loop::{Config, EventLoop, History, LetIn, Limits, Listed, LoopError, WhenFull};
use mio::net::{TcpListener, TcpStream};
use std::alloc::{AllocError, Global};
use std::io::Write;
use std::net::{Net, SocketAddr};
use std::time::Clock;

/// What is mirrored, and how.
#[derive(Clone, Copy)]
pub struct MirrorOptions {
    /// The source's address and port.
    pub address: SocketAddr,
    /// How many viewers may be live at once, 1 to 1024.
    pub viewers: u32,
    /// What viewers do isn't handed on.
    pub view_only: bool,
    /// Raw is asked for, and not Hextile.
    pub raw: bool,
    /// The program ends with its source.
    pub once: bool,
}

/// Where browsers connect, as viewers over WebSockets (RFC 6455), and who is let in.
#[derive(Drop)]
pub struct BrowserListener {
    /// Where they connect.
    pub listener: TcpListener,
    /// The hosts and origins that are let in besides this machine's.
    pub let_in: LetIn,
}

/// Where viewers connect.
#[derive(Drop)]
pub struct Listeners {
    /// Those over TCP.
    pub viewers: TcpListener,
    /// Browsers, where they are let in.
    pub browsers: Option<BrowserListener>,
}

/// Why a mirror ended.
#[derive(Clone, Copy)]
enum Trouble {
    /// Memory was refused.
    OutOfMemory,
    /// The poller, the clock or the listener failed.
    Network,
    /// A line couldn't be printed.
    Write,
    /// There is no source, and none is to be tried again.
    NoSource,
}

impl From<AllocError> for Trouble {
    ghost use Rattle.std.specs.Prelude.{◌≡◌};
    ghost use Rattle.mirror.specs.declared.program.Trouble.TheVariants.{OutOfMemory};

    ghost from_gives = { λ _ trouble. trouble ≡ OutOfMemory };

    fn from(_error: AllocError) -> Trouble {
        Trouble::OutOfMemory
    }
}

impl From<LoopError> for Trouble {
    ghost use Rattle.std.specs.Prelude.{◌≡◌};
    ghost use Rattle.mirror.specs.Programs.{trouble_of};

    ghost from_gives = { λ error trouble. trouble ≡ trouble_of error };

    fn from(error: LoopError) -> Trouble {
        match error {
            LoopError::Screen(_) => Trouble::OutOfMemory,
            LoopError::Network | LoopError::Clock | LoopError::TooManyListeners => {
                Trouble::Network
            }
        }
    }
}

/// Prints a text at once.
fn say<W: Write>(writer: &mut W, text: &str) -> Result<(), Trouble>
    ensures said { OnOk result (Appends (W.contents writer.old) (W.contents writer.new) text.now) }
    ensures failed { IfErr result (λ trouble. trouble ≡ Trouble.Write) }
{
    if writer.write_all(text.as_bytes()).is_err() || writer.flush().is_err() {
        return Err(Trouble::Write);
    }
    Ok(())
}

/// Returns a screen of a size and a name of at most 255 bytes.
fn config_of(alloc: Global, width: u16, height: u16, name: &[u8]) -> Result<Config, AllocError>
    ensures { IfOk result (λ config. IsConfig width height name.now config) }
{
    Ok(Config {
        width: u32::from(width),
        height: u32::from(height),
        name: Listed::from_slice(alloc, name)?,
        rects_per_update: 50,
        history: History::NotKept,
    })
}

/// Returns what a loop grants so many viewers: a further one is told so, and closed.
fn limits_of(viewers: u32) -> Limits
    ensures live { result.live_viewers ≡ viewers }
    ensures full { result.when_full ≡ WhenFull.LetGo }
    ensures all { result.all_viewers ≡ u64.MAX }
{
    Limits {
        live_viewers: viewers as usize,
        when_full: WhenFull::LetGo,
        ..Limits::usual()
    }
}

/// Returns the line that says that a viewer came, and where from.
fn viewer_line(alloc: Global, served: &EventLoop, viewer: u64) -> Result<String, AllocError> {
    match served.viewer_address(viewer) {
        Some(Ok(address)) => format!(in alloc; "viewer {viewer} came from {address}\n"),
        _ => format!(in alloc; "viewer {viewer} came\n"),
    }
}

/// Prints which viewers came, and what else happened.
fn print_news<W: Write>(
    alloc: Global,
    served: &EventLoop,
    mirror: &mut Mirror<TcpStream>,
    writer: &mut W,
) -> Result<(), Trouble>
    ensures { IfErr result IsTrouble }
{
    let came = mirror.take_came();
    for viewer in &came {
        let line = viewer_line(alloc, served, *viewer)?;
        say(writer, line.as_str())?;
    }
    let news = mirror.take_news();
    if news.is_empty() {
        return Ok(());
    }
    say(writer, news.as_str())
}

/// Watches the source's connection, where there is one.
fn watch(served: &mut EventLoop, mirror: &mut Mirror<TcpStream>) -> Result<(), Trouble>
    ensures { IfErr result IsTrouble }
{
    let Some(source) = &mut mirror.source else {
        return Ok(());
    };
    if served.watch(&mut source.stream).is_err() {
        return Err(Trouble::Network);
    }
    Ok(())
}

/// Begins to connect to the source, where a connection is to be made.
fn connect<R: Net>(
    rt: &R,
    options: &MirrorOptions,
    served: &mut EventLoop,
    mirror: &mut Mirror<TcpStream>,
) -> Result<(), Trouble>
    ensures { IfErr result IsTrouble }
{
    if !mirror.wants_source() {
        return Ok(());
    }
    let stream = TcpStream::connect(rt, options.address).ok();
    if let Some(stream) = &stream {
        // Where this fails, the source is heard all the same.
        let _ = stream.set_nodelay(true);
    }
    mirror.take_source(stream)?;
    watch(served, mirror)
}

/// Takes a turn: the source is connected to, what it says is drawn, viewers are served, and what happened is printed.
fn turn<W: Write, R: Net + Clock>(
    rt: &R,
    alloc: Global,
    options: &MirrorOptions,
    served: &mut EventLoop,
    mirror: &mut Mirror<TcpStream>,
    writer: &mut W,
) -> Result<(), Trouble>
    ensures { IfErr result IsTrouble }
{
    connect(rt, options, served, mirror)?;
    served.process_events(rt, None, mirror)?;
    mirror.send()?;
    print_news(alloc, served, mirror, writer)
}

/// Waits for the source's opening, in turns of a loop that listens nowhere and has a screen of one place.
#[tactic(auto, using(crate::proofs::Troubles::trouble_with))]
fn first_desktop<W: Write, R: Net + Clock>(
    rt: &R,
    alloc: Global,
    options: &MirrorOptions,
    mirror: &mut Mirror<TcpStream>,
    writer: &mut W,
) -> Result<Desktop, Trouble>
    ensures { IfErr result (IsTroubleWith options.now.once) }
{
    let config = config_of(alloc, 1, 1, &[])?;
    let mut first = EventLoop::unbound(rt, alloc, config, Limits::usual())?;
    'turns: for _ in 0..u64::MAX {
        turn(rt, alloc, options, &mut first, mirror, writer)?;
        if let Some(desktop) = mirror.desktop()? {
            return Ok(desktop);
        }
        if options.once && !mirror.has_source() {
            return Err(Trouble::NoSource);
        }
    }
    Err(Trouble::Network)
}

/// Returns the loop that serves a source's picture.
fn loop_for<R: Net>(
    rt: &R,
    alloc: Global,
    listeners: Listeners,
    options: &MirrorOptions,
    desktop: &Desktop,
) -> Result<EventLoop, LoopError> {
    let Listeners { viewers, browsers } = listeners;
    let name = desktop.name.as_slice();
    let config = config_of(alloc, desktop.width, desktop.height, name)?;
    let mut served = EventLoop::new(rt, alloc, viewers, config, limits_of(options.viewers))?;
    if let Some(BrowserListener { listener, let_in }) = browsers {
        served.listen_web(alloc, listener, let_in)?;
    }
    Ok(served)
}

/// Mirrors until the source goes, where the program ends with it; else without end.
#[tactic(auto, using(crate::proofs::Troubles::trouble_with))]
fn mirror_all<W: Write, R: Net + Clock>(
    rt: &R,
    alloc: Global,
    listeners: Listeners,
    options: &MirrorOptions,
    writer: &mut W,
) -> Result<(), Trouble>
    ensures went { OnOk result (options.now.once ≡ true) }
    ensures trouble { IfErr result (IsTroubleWith options.now.once) }
{
    let manner = Manner {
        view_only: options.view_only,
        raw: options.raw,
    };
    let mut mirror = Mirror::new(alloc, manner);
    let desktop = first_desktop(rt, alloc, options, &mut mirror, writer)?;
    let mut served = loop_for(rt, alloc, listeners, options, &desktop)?;
    mirror.begin();
    watch(&mut served, &mut mirror)?;
    'turns: for _ in 0..u64::MAX {
        turn(rt, alloc, options, &mut served, &mut mirror, writer)?;
        if options.once && !mirror.has_source() {
            return Ok(());
        }
    }
    Err(Trouble::Network)
}

/// Connects to a source, serves its picture to viewers that come by its listeners, and prints when the source and each viewer came and went, and
/// why. Returns the status: 0 with `once` where the source went; 3 after want of memory; 5 after a network fault, and after a write that
/// failed; 6 with `once` where there was no source.
pub fn mirror_on<W: Write, R: Net + Clock>(
    rt: &R,
    alloc: Global,
    listeners: Listeners,
    options: &MirrorOptions,
    writer: &mut W,
) -> u8
    ensures known { (result ≡ 0) ⊎ (result ≡ 3) ⊎ (result ≡ 5) ⊎ (result ≡ 6) }
    ensures once { (result ≡ 0) ⊎ (result ≡ 6) → options.now.once ≡ true }
{
    match mirror_all(rt, alloc, listeners, options, writer) {
        Ok(()) => 0,
        Err(Trouble::OutOfMemory) => 3,
        Err(Trouble::Network | Trouble::Write) => 5,
        Err(Trouble::NoSource) => 6,
    }
}
