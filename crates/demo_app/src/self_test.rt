//! `self`: a server and its viewers in one process, over loopback. The application draws the stored run, and each viewer says
//! whether it shows what was drawn.

ghost use Rattle.std.specs.Prelude.{◌≡◌, ◌-◌, ◌<◌, ◌⊎◌, true, None, IfOk, OnOk, length};
ghost use Rattle.std.specs.List.{list_all};
ghost use Rattle.std.specs.Io.KnownBytes.{Appends};
ghost use Rattle.screen.specs.Alone.{config_refusal};
ghost use Rattle.serving.specs.Serving.{AreNumbered};
ghost use Rattle.demo_app.specs.Endings.{PrintsOwn, show_line, shown_text, shows_text, status_where};
ghost use Rattle.demo_app.specs.Runs.{IsOwnFinish};
ghost use Rattle.demo_app.specs.Screens.{own_config};

use crate::endings::written_out;
use crate::serve::{print_verdict, trouble_of};
use crate::watching::{COLUMNS, shut_all, watch};
use messages::Input;
use play_script::trouble::{Trouble, print, report};
use receipts::Receipt;
use screen::{Config, History, Listed, Rect, ScreenError};
use serving::{Application, Told, serve_viewers};
use std::alloc::{AllocError, Global};
use std::io::{ErrorKind, Write};
use std::marker::Brand;
use std::net::{Ipv4Addr, Net, SocketAddr, TcpListener, TcpStream};
use std::sync::Wait;
use std::sync::ledger::{Blank, Ledger};
use std::thread::{JoinHandle, Scope, Threads};
use std::time::{Clock, Duration};
use std::{io, thread};
use update_sender::{Brush, Shared};

/// What the screen shows once the stored run was drawn: 1, 2, 3, 4 was painted, and the first three were copied one place to
/// the right.
const PICTURE: [u32; COLUMNS] = [1, 1, 2, 3];

/// How long a viewer waits for bytes, in seconds: it waits in vain where a stranger's connection was accepted in its place.
const READ_SECONDS: u64 = 30;

/// The places that are painted, all of the screen, and their colours.
pub(crate) const PLACES: Rect = Rect {
    x1: 0,
    y1: 0,
    x2: 4,
    y2: 1,
};

pub(crate) const COLOURS: [u32; COLUMNS] = [1, 2, 3, 4];

/// The places that are copied to, one place to the right of their sources.
pub(crate) const TARGET: Rect = Rect {
    x1: 1,
    y1: 0,
    x2: 4,
    y2: 1,
};

/// The text behind the last drawing call.
pub(crate) const END: &[u8] = b"end";

/// The application: once so many keys went down, one for each viewer that is open, it draws the stored run.
#[derive(Drop)]
pub(crate) struct Drawer {
    awaited: u64,
}

impl Drawer {
    pub(crate) fn new(awaited: u64) -> Drawer
        ensures { result.awaited ≡ awaited }
    {
        Drawer { awaited }
    }

    /// Takes note that a key went down. Says whether it was the last one that is awaited.
    pub(crate) fn is_last_key(&mut self) -> bool
        ensures awaited { self.new.awaited ≡ self.old.awaited - 1 }
        ensures last { (result ≡ true → self.old.awaited ≡ 1) × (self.old.awaited ≡ 1 → result ≡ true) }
    {
        let is_last = self.awaited == 1;
        self.awaited = self.awaited.saturating_sub(1);
        is_last
    }
}

/// Draws the stored run, and sends the text that ends it.
fn draw<L: Ledger, R: Wait>(
    rt: &R,
    shared: &Shared<L>,
    brush: &mut Brush<L>,
) -> Result<(), ScreenError> {
    brush.paint(shared, rt, PLACES, &COLOURS)?;
    brush.do_copy_rect(shared, rt, 1, 0, 4, 1, 1, 0)?;
    brush.cut_text(shared, rt, END)
}

impl<L: Ledger> Application<L> for Drawer {
    fn on_input<R: Wait>(
        &mut self,
        rt: &R,
        shared: &Shared<L>,
        brush: &mut Brush<L>,
        told: &Told,
    ) -> Result<(), ScreenError> {
        match &told.input {
            Input::Key { down: true, .. } if self.is_last_key() => draw(rt, shared, brush),
            _ => Ok(()),
        }
    }
}

/// Returns what is printed of why the network gives no listener or connection.
pub(crate) fn network_trouble(error: io::Error) -> Trouble {
    match error.kind() {
        ErrorKind::OutOfMemory => Trouble::OutOfMemory,
        _ => Trouble::NetworkFault,
    }
}

/// Connects to `address`. A read of the connection fails once nothing came for a while.
fn connect<R: Net<Stream = TcpStream>>(rt: &R, address: SocketAddr) -> io::Result<TcpStream> {
    let stream = rt.connect(address)?;
    stream.set_read_timeout(Some(Duration::from_secs(READ_SECONDS)))?;
    Ok(stream)
}

/// Makes as many connections to a listener's address as there are `viewers`, in the order in which the listener accepts them.
pub(crate) fn connect_all<R: Net<Stream = TcpStream>>(
    rt: &R,
    alloc: Global,
    address: SocketAddr,
    viewers: u32,
) -> io::Result<Vec<TcpStream>>
    ensures { IfOk result (λ streams. length streams.items ≡ viewers) }
{
    let mut streams = Vec::new(alloc);
    for _number in 0..viewers {
        streams.push(connect(rt, address)?)?;
    }
    Ok(streams)
}

/// Starts a thread for each viewer. `NetworkFault` where one does not start.
pub(crate) fn spawn_all<'s, E>(
    alloc: Global,
    streams: &'s [TcpStream],
    scope: &Scope<'s, E>,
) -> Result<Vec<JoinHandle<bool>>, Trouble>
    ensures { IfOk result (λ threads. length threads.items ≡ length streams.now) }
{
    let mut threads = Vec::with_capacity(alloc, streams.len())?;
    for stream in streams {
        match scope.spawn(move || watch(alloc, streams, stream, &PICTURE)) {
            Ok(thread) => threads.push(thread)?,
            Err(_) => return Err(Trouble::NetworkFault),
        }
    }
    Ok(threads)
}

/// Waits for the threads. Says of each viewer whether it shows the picture, in their order.
pub(crate) fn join_all<R: Threads>(
    rt: &R,
    alloc: Global,
    threads: Vec<JoinHandle<bool>>,
) -> Result<Vec<bool>, AllocError>
    ensures { IfOk result (λ shows. length shows.items ≡ length threads.items) }
{
    let mut shows = Vec::with_capacity(alloc, threads.len())?;
    for thread in threads {
        shows.push(thread.join(rt))?;
    }
    Ok(shows)
}

/// What came of a run: whether each viewer shows the picture, and the receipts, both in the viewers' order.
#[derive(Drop)]
struct Run {
    shows: Vec<bool>,
    receipts: Vec<Receipt>,
}

/// Serves the viewers of these connections, which run in threads of a scope. After an error these may still run.
fn run_in_scope<'s, E, L, R>(
    rt: &R,
    alloc: Global,
    listener: &TcpListener,
    streams: &'s [TcpStream],
    shared: &Shared<L>,
    brush: &mut Brush<L>,
    scope: &Scope<'s, E>,
) -> Result<Run, Trouble>
where
    L: Ledger + Send + Sync,
    R: Threads + Wait + Clock + Net + Sync,
    ensures shows { IfOk result (λ run. length run.shows.items ≡ length streams.now) }
    ensures receipts { IfOk result (λ run. AreNumbered (length streams.now) run.receipts.items) }
{
    let threads = spawn_all(alloc, streams, scope)?;
    let viewers = streams.len() as u64;
    let mut drawer = Drawer::new(viewers);
    let served = serve_viewers(rt, alloc, listener, shared, brush, viewers, &mut drawer);
    let receipts = match served {
        Ok(receipts) => receipts,
        Err(error) => return Err(trouble_of(error)),
    };
    let shows = join_all(rt, alloc, threads)?;
    Ok(Run { shows, receipts })
}

/// Runs the server and its viewers, until all have ended. The viewers connect before the server accepts them, so that they have
/// their numbers in their order.
fn run_with_viewers<L, R>(
    rt: &R,
    alloc: Global,
    shared: &Shared<L>,
    brush: &mut Brush<L>,
    viewers: u32,
) -> Result<Run, Trouble>
where
    L: Ledger + Send + Sync,
    R: Threads + Wait + Clock + Net<Listener = TcpListener, Stream = TcpStream> + Sync,
    ensures shows { IfOk result (λ run. length run.shows.items ≡ viewers) }
    ensures receipts { IfOk result (λ run. AreNumbered viewers run.receipts.items) }
{
    let bound = rt.bind(SocketAddr::from((Ipv4Addr::LOCALHOST, 0)));
    let listener = bound.map_err(network_trouble)?;
    let address = listener.local_addr().map_err(network_trouble)?;
    let streams = match connect_all(rt, alloc, address, viewers) {
        Ok(streams) => streams,
        Err(error) => return Err(network_trouble(error)),
    };
    run_on(rt, alloc, &listener, &streams, shared, brush)
}

/// Does the same once the viewers have connected.
fn run_on<L, R>(
    rt: &R,
    alloc: Global,
    listener: &TcpListener,
    streams: &[TcpStream],
    shared: &Shared<L>,
    brush: &mut Brush<L>,
) -> Result<Run, Trouble>
where
    L: Ledger + Send + Sync,
    R: Threads + Wait + Clock + Net<Listener = TcpListener, Stream = TcpStream> + Sync,
    ensures shows { IfOk result (λ run. length run.shows.items ≡ length streams.now) }
    ensures receipts { IfOk result (λ run. AreNumbered (length streams.now) run.receipts.items) }
{
    thread::scope(
        thread::scope_env(),
        rt,
        move |scope| -> Result<Run, Trouble>
            ensures shows { IfOk result (λ run. length run.shows.items ≡ length streams.entry.now) }
            ensures receipts { IfOk result (λ run. AreNumbered (length streams.entry.now) run.receipts.items) }
        {
            let run = run_in_scope(rt, alloc, listener, streams, shared, brush, scope);
            if run.is_err() {
                shut_all(streams);
            }
            run
        },
    )
}

/// Returns what is printed behind the number of a viewer that shows the screen, or doesn't.
fn shown_text(shows: bool) -> &'static [u8]
    ensures { result.now ≡ shown_text shows }
{
    if shows {
        b" shows the screen\n"
    } else {
        b" does not show the screen\n"
    }
}

/// Returns the line of what a viewer shows.
fn show_line(alloc: Global, viewer: u64, shows: bool) -> Result<Vec<u8>, AllocError>
    ensures { IfOk result (λ line. line.items ≡ show_line viewer shows) }
{
    let mut line = Vec::new(alloc);
    line.extend_from_slice(b"viewer ")?;
    line.extend_from_slice(viewer.to_string(alloc)?.as_bytes())?;
    line.extend_from_slice(shown_text(shows))?;
    Ok(line)
}

/// Prints a line for each viewer.
pub(crate) fn print_shows<W: Write>(
    alloc: Global,
    writer: &mut W,
    shows: &[bool],
) -> Result<(), Trouble>
    ensures { OnOk result (Appends (W.contents writer.old) (W.contents writer.new) (shows_text 1 shows.now)) }
{
    for (index, shows) in shows.iter().enumerate() {
        let viewer = index as u64 + 1;
        print(writer, &show_line(alloc, viewer, *shows)?)?;
    }
    Ok(())
}

/// Says whether each viewer shows the screen.
fn do_all_show(shows: &[bool]) -> bool
    ensures { result ≡ list_all (λ shows. shows) shows.now }
{
    shows.iter().all(|shows| *shows)
}

/// Returns the status of a run: `judged`, that of its judgement, where each viewer shows the screen, else 4.
pub(crate) fn status_of(shows: &[bool], judged: u8) -> u8
    requires { (judged ≡ 0) ⊎ (judged ≡ 4) }
    ensures either { (result ≡ 0) ⊎ (result ≡ 4) }
    ensures status { result ≡ status_where shows.now judged }
{
    if do_all_show(shows) { judged } else { 4 }
}

/// Returns the screen of the stored run, whose history is kept. There is such a screen.
pub(crate) fn config(alloc: Global) -> Result<Config, AllocError>
    ensures accepted { IfOk result (λ config. config_refusal config ≡ None) }
    ensures own { IfOk result (λ config. config ≡ own_config) }
{
    Ok(Config {
        width: 4,
        height: 1,
        name: Listed::from_slice(alloc, b"demo")?,
        rects_per_update: 50,
        history: History::Kept,
    })
}

/// Runs a server with its viewers, and prints what each shows, and how the run is judged. Returns the status.
fn own<L, W, R>(
    rt: &R,
    alloc: Global,
    blank: Blank,
    viewers: u32,
    writer: &mut W,
) -> Result<u8, Trouble>
where
    L: Ledger + Send + Sync,
    W: Write,
    R: Threads + Wait + Clock + Net<Listener = TcpListener, Stream = TcpStream> + Sync,
    requires name { blank.name ≡ L.name }
    requires parts { blank.parts ≡ L.parts }
    requires some { 0 < L.parts }
    ensures either { IfOk result (λ status. (status ≡ 0) ⊎ (status ≡ 4)) }
    ensures printed { IfOk result (PrintsOwn viewers (IsOwnFinish viewers) (W.contents writer.old) (W.contents writer.new)) }
{
    // there is such a screen, so that it is refused for memory alone
    let Ok((shared, mut brush)) = Shared::<L>::new(alloc, blank, config(alloc)?) else {
        return Err(Trouble::OutOfMemory);
    };
    let Run { shows, receipts } = run_with_viewers(rt, alloc, &shared, &mut brush, viewers)?;
    print_shows(alloc, writer, &shows)?;
    let judged = print_verdict(alloc, writer, shared, brush, receipts)?;
    Ok(status_of(&shows, judged))
}

/// Does the same, and writes out what it printed.
fn own_and_flush<L, W, R>(rt: &R, alloc: Global, blank: Blank, viewers: u32, writer: &mut W) -> u8
where
    L: Ledger + Send + Sync,
    W: Write,
    R: Threads + Wait + Clock + Net<Listener = TcpListener, Stream = TcpStream> + Sync,
    requires name { blank.name ≡ L.name }
    requires parts { blank.parts ≡ L.parts }
    requires some { 0 < L.parts }
    ensures status { (result ≡ 0) ⊎ (result ≡ 3) ⊎ (result ≡ 4) ⊎ (result ≡ 5) }
    ensures printed { ((result ≡ 0) ⊎ (result ≡ 4)) →
        PrintsOwn viewers (IsOwnFinish viewers) (W.contents writer.old) (W.contents writer.new) result }
{
    match own::<L, W, R>(rt, alloc, blank, viewers, writer) {
        Ok(status) => written_out(writer, status),
        Err(trouble) => report(writer, trouble),
    }
}

/// Runs a server and so many viewers over loopback, on a port of 127.0.0.1 that the system chooses. Once every viewer is open,
/// the application paints a screen of four places and copies three of them; then each viewer asks for everything, takes one
/// update and leaves. For each, `viewer V shows the screen` is printed, or `viewer V does not show the screen`, and then the
/// judgement of the run: `finish ok`, or `finish`, the code and the name of what is wrong. The status is 0; 3 after `out of
/// memory`; 4 where a viewer doesn't show the screen, or the judgement is not `ok`; 5 after `network fault`, and after a write
/// that failed. A viewer that has no memory doesn't show the screen.
pub fn self_on<W, R>(rt: &R, alloc: Global, viewers: u32, writer: &mut W) -> u8
where
    W: Write,
    R: Threads + Wait + Clock + Net<Listener = TcpListener, Stream = TcpStream> + Sync,
    ensures status { (result ≡ 0) ⊎ (result ≡ 3) ⊎ (result ≡ 4) ⊎ (result ≡ 5) }
    ensures printed { ((result ≡ 0) ⊎ (result ≡ 4)) →
        PrintsOwn viewers (IsOwnFinish viewers) (W.contents writer.old) (W.contents writer.new) result }
{
    own_and_flush::<Brand, W, R>(rt, alloc, Blank::new(1), viewers, writer)
}
