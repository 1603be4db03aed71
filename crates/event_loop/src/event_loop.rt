//! The loop, by the calls of a program.

ghost use Rattle.std.specs.Prelude.{◌≡◌, ◌≢◌, ◌≤◌, ◌<◌, ℕ, [], None, Some, Ok, Err, true, false, IfOk, IfErr, IfSome, OnOk, OnErr, MatchOption, is_some, IsSome, count_by, option_map};
ghost use Rattle.std.specs.Borrow.{sem};
ghost use Rattle.screen.specs.declared.Config.{Config};
ghost use Rattle.screen.specs.Alone.{config_refusal};
ghost use Rattle.receipts.specs.declared.Ended.TheVariants as ended;
ghost use Rattle.connections.specs.Telling.{Stays};
ghost use Rattle.connections.specs.Serving.{Serves, number_at};
ghost use Rattle.connections.specs.Recorded.{IsFlushed, held_by, is_broken};
ghost use Rattle.record_writer.specs.Held.{bytes_held};
ghost use Rattle.event_loop.specs.Lending.{lends_canvas};
ghost use Rattle.event_loop.specs.declared.event_loop.LoopError.TheVariants as error;
ghost use Rattle.event_loop.specs.Sockets.{sockets, sockets_and, GoesOnServing, GoesOnServingTelling};
ghost use Rattle.event_loop.specs.Listening.{IsListenRefusal, IsUnreachable};
ghost use Rattle.event_loop.specs.Opening.{IsOpenedOr};
ghost use Rattle.event_loop.specs.Admitting.{IsAdmittedOr};
ghost use Rattle.event_loop.specs.Parting.{IsLetGo};
ghost use Rattle.event_loop.specs.Traffic.{IsTrafficOf};

use crate::limits::Limits;
use crate::traffic::Traffic;
use crate::turns::now_by;
use crate::viewers::{Admission, Viewers};
use connections::{
    Application, Canvas, Config, Connections, Readiness, RecordWriter, Screen, ScreenError,
};
use mio::Waker;
use mio::net::{TcpListener, TcpStream, UnixListener};
use sockets::{Browsers, Entrance, ListenError, Listener, Peer, Poller};
use std::alloc::{AllocError, Global};
use std::io;
use std::marker::Model;
use std::net::{Net, SocketAddr};
use std::os::fd::{AsRawFd, RawFd};
use std::time::{Clock, Duration, Instant};
use web_opening::Admission as LetIn;

/// Why a loop wasn't made, ended, or didn't listen.
#[derive(Clone, Copy, Debug, PartialEq, Eq)]
pub enum LoopError {
    /// The poller failed.
    Network,
    /// The clock failed, or `run` took 2^64 - 1 turns.
    Clock,
    /// The configuration or the application's call of the screen was refused, or memory was.
    Screen(ScreenError),
    /// Eight listeners for viewers are there already.
    TooManyListeners,
}

impl From<ScreenError> for LoopError {
    fn from(refusal: ScreenError) -> LoopError {
        LoopError::Screen(refusal)
    }
}

impl From<ListenError> for LoopError {
    ghost use Rattle.std.specs.Prelude.{◌≡◌};
    ghost use Rattle.event_loop.specs.Listening.{loop_error};

    ghost from_gives = { λ refusal error. error ≡ loop_error refusal };

    fn from(refusal: ListenError) -> LoopError {
        match refusal {
            ListenError::Network => LoopError::Network,
            ListenError::TooManyListeners => LoopError::TooManyListeners,
            ListenError::OutOfMemory => LoopError::Screen(ScreenError::OutOfMemory),
        }
    }
}

impl From<AllocError> for LoopError {
    fn from(_error: AllocError) -> LoopError {
        LoopError::Screen(ScreenError::OutOfMemory)
    }
}

/// A screen with its viewers' sockets.
pub struct EventLoop {
    pub(crate) poller: Poller,
    pub(crate) entrance: Entrance,
    pub(crate) viewers: Viewers<Peer>,
    // when the first turn came
    pub(crate) began: Option<Instant>,
    // how many milliseconds behind that the last one was
    pub(crate) time: u64,
    // the socket of an open viewer was found ready at the last wait, and when one was last
    pub(crate) is_active: bool,
    pub(crate) active: Option<Instant>,
    // when the next of those who come would be seen to, had each waited for it
    pub(crate) next_due: Option<Instant>,
    // another thread woke the loop
    pub(crate) is_woken: bool,
    // what the program's own stream was found ready for, until the application did all that it can with it
    pub(crate) watched: Option<Readiness>,
    // when the application's time comes, once it was told that it has
    pub(crate) has_ticked: bool,
    pub(crate) next_tick: Option<Instant>,
}

// Written out, so that who holds one proves one call here, and not the drop of each field.
impl Drop for EventLoop {
    fn drop(self) {
        let EventLoop {
            poller: _poller,
            entrance: _entrance,
            viewers: _viewers,
            began: _began,
            time: _time,
            is_active: _is_active,
            active: _active,
            next_due: _next_due,
            is_woken: _is_woken,
            watched: _watched,
            has_ticked: _has_ticked,
            next_tick: _next_tick,
        } = self;
    }
}

impl Model for EventLoop {
    ghost use Rattle.connections.specs.Serving.{Serving};

    ghost Value = { Serving };

    ghost view = { λ a. a.viewers.connections };
}

/// Returns where connections come in: at a listener, if there is one, of which the poller reports what waits there.
fn entrance_of(
    alloc: Global,
    poller: &Poller,
    listener: Option<TcpListener>,
) -> Result<Entrance, LoopError>
    ensures { IfErr result IsUnreachable }
{
    let mut entrance = Entrance::new(alloc);
    if let Some(listener) = listener {
        entrance.listen(poller, Listener::Tcp(listener))?;
    }
    Ok(entrance)
}

impl EventLoop {
    /// Returns a loop that serves a screen on a listener's address: 0 everywhere, with no viewer yet. Viewers are numbered from 1 on, as
    /// they come. Refused as `Screen` where the configuration is outside its limits or memory is refused, and as `Network` where the poller
    /// is.
    pub fn new<R: Net>(
        rt: &R,
        alloc: Global,
        listener: TcpListener,
        config: Config,
        limits: Limits,
    ) -> Result<EventLoop, LoopError>
        ensures serves { IfOk result (λ served. Serves config (sockets config) [] served) }
        ensures accepted { OnOk result (config_refusal config ≡ None) }
        ensures refused { MatchOption (config_refusal config) (IsOpenedOr result) (λ e. result ≡ Err (error.Screen e)) }
    {
        match Connections::new(alloc, config) {
            Ok(connections) => EventLoop::of(rt, alloc, Some(listener), connections, limits),
            Err(refusal) => Err(LoopError::Screen(refusal)),
        }
    }

    /// Returns the same, and writes what happens to the screen as a session, which `vncdemo replay` reads. What waits of it is written
    /// before each wait, and by `flush_record`. Where a write fails the record ends, and nothing else changes.
    pub fn recorded<R: Net>(
        rt: &R,
        alloc: Global,
        listener: TcpListener,
        config: Config,
        limits: Limits,
        writer: RecordWriter,
    ) -> Result<EventLoop, LoopError>
        ensures serves { IfOk result (λ served. Serves config (sockets_and (Some (bytes_held writer)) config) [] served) }
        ensures accepted { OnOk result (config_refusal config ≡ None) }
        ensures refused { MatchOption (config_refusal config) (IsOpenedOr result) (λ e. result ≡ Err (error.Screen e)) }
    {
        match Connections::recorded(alloc, config, writer) {
            Ok(connections) => EventLoop::of(rt, alloc, Some(listener), connections, limits),
            Err(refusal) => Err(LoopError::Screen(refusal)),
        }
    }

    /// Returns a loop that listens nowhere: it serves the connections that `adopt` gives it. Refused as `new` is.
    pub fn unbound<R: Net>(
        rt: &R,
        alloc: Global,
        config: Config,
        limits: Limits,
    ) -> Result<EventLoop, LoopError>
        ensures serves { IfOk result (λ served. Serves config (sockets config) [] served) }
        ensures accepted { OnOk result (config_refusal config ≡ None) }
        ensures refused { MatchOption (config_refusal config) (IsOpenedOr result) (λ e. result ≡ Err (error.Screen e)) }
    {
        match Connections::new(alloc, config) {
            Ok(connections) => EventLoop::of(rt, alloc, None, connections, limits),
            Err(refusal) => Err(LoopError::Screen(refusal)),
        }
    }

    /// Returns the same, and writes what happens to the screen as a session, as `recorded` does.
    pub fn unbound_recorded<R: Net>(
        rt: &R,
        alloc: Global,
        config: Config,
        limits: Limits,
        writer: RecordWriter,
    ) -> Result<EventLoop, LoopError>
        ensures serves { IfOk result (λ served. Serves config (sockets_and (Some (bytes_held writer)) config) [] served) }
        ensures accepted { OnOk result (config_refusal config ≡ None) }
        ensures refused { MatchOption (config_refusal config) (IsOpenedOr result) (λ e. result ≡ Err (error.Screen e)) }
    {
        match Connections::recorded(alloc, config, writer) {
            Ok(connections) => EventLoop::of(rt, alloc, None, connections, limits),
            Err(refusal) => Err(LoopError::Screen(refusal)),
        }
    }

    /// Returns a loop over connections that were made.
    fn of<R: Net>(
        rt: &R,
        alloc: Global,
        listener: Option<TcpListener>,
        connections: Connections<Peer>,
        limits: Limits,
    ) -> Result<EventLoop, LoopError>
        ensures opened { IsOpenedOr result }
        ensures same { IfOk result (λ served. served ≡ connections) }
    {
        let Ok(poller) = Poller::new(rt, alloc) else {
            return Err(LoopError::Network);
        };
        let entrance = entrance_of(alloc, &poller, listener)?;
        Ok(EventLoop {
            poller,
            entrance,
            viewers: Viewers::new(alloc, connections, limits),
            began: None,
            time: 0,
            is_active: false,
            active: None,
            next_due: None,
            is_woken: false,
            watched: None,
            has_ticked: false,
            next_tick: None,
        })
    }

    /// Listens for viewers at one more listener, with the same limits; also where the loop listened nowhere. Connections are accepted from the
    /// listeners in turn. `TooManyListeners` where eight listen, `Network` where the poller is refused, and `Screen` for want of memory: then
    /// nothing has changed.
    pub fn listen(&mut self, listener: TcpListener) -> Result<(), LoopError>
        ensures same { self.new ≡ self.old }
        ensures refused { IfErr result IsListenRefusal }
    {
        self.entrance.listen(&self.poller, Listener::Tcp(listener))?;
        Ok(())
    }

    /// Listens for viewers at a socket of UNIX, as `listen` does at a port. `viewer_address` answers a failure for those who come by it.
    pub fn listen_unix(&mut self, listener: UnixListener) -> Result<(), LoopError>
        ensures same { self.new ≡ self.old }
        ensures refused { IfErr result IsListenRefusal }
    {
        self.entrance
            .listen(&self.poller, Listener::Unix(listener))?;
        Ok(())
    }

    /// Lets browsers in from now on that come by a listener of their own and are viewers over WebSockets (RFC 6455), with the same limits.
    /// `let_in` names the hosts and the origins that their requests may have besides this machine's. At most 64 requests wait to be answered,
    /// each as long as an opening may take: a further one takes the place of the one that has waited longest. None of them is a viewer
    /// before it is accepted. A listener takes the place of an earlier one; `Network` where the poller is refused.
    pub fn listen_web(
        &mut self,
        alloc: Global,
        mut listener: TcpListener,
        let_in: LetIn,
    ) -> Result<(), LoopError>
        ensures same { self.new ≡ self.old }
        ensures refused { IfErr result (λ e. e ≡ error.Network) }
    {
        if self.poller.add_web_listener(&mut listener).is_err() {
            return Err(LoopError::Network);
        }
        let patience = self.viewers.opening_time();
        self.entrance
            .open(Browsers::new(alloc, listener, let_in, patience));
        Ok(())
    }

    /// Returns the screen, to be looked at.
    pub fn screen(&self) -> &Screen
        ensures { result.now ≡ self.now.surface.screen }
    {
        self.viewers.connections.screen()
    }

    /// Returns the screen to draw on. What is drawn is sent in the next turns.
    pub fn canvas(&mut self) -> &mut Canvas
        ensures* writes_back { sem 𝓛 (lends_canvas self.entry result) }
        ensures value { result.now ≡ self.old.surface }
    {
        self.viewers.connections.canvas()
    }

    /// Writes what waits of the record, where there is one.
    pub fn flush_record(&mut self)
        ensures served { GoesOnServing self.old self.new }
        ensures flushed { IsFlushed self.new.surface.scribed }
    {
        self.viewers.connections.flush_record();
    }

    /// Returns what was written of the record so far, where it is written to memory; None without a record, and where it goes to a file.
    pub fn record_in_memory(&self) -> Option<&[u8]>
        ensures { option_map (λ bytes. bytes.now) result ≡ held_by self.now.surface.scribed }
    {
        self.viewers.connections.record_in_memory()
    }

    /// Returns whether the record has ended before its session: a write failed, or memory for a region's rectangles was refused. Nothing
    /// more is written of it then.
    pub fn is_record_broken(&self) -> bool
        ensures { result ≡ is_broken self.now.surface.scribed }
    {
        self.viewers.connections.is_record_broken()
    }

    /// Returns how many viewers are connected.
    pub fn viewer_count(&self) -> usize
        ensures { result ≡ count_by is_some self.now.slots }
    {
        self.viewers.connections.len()
    }

    /// Returns the address and the port that a viewer's connection comes from (`host` of `rfbClientRec` in `rfb.h`), or why the system
    /// doesn't tell them; None where the viewer isn't connected.
    pub fn viewer_address(&self, viewer: u64) -> Option<io::Result<SocketAddr>>
        ensures some { IsSome result → (key : ℕ) × (number_at self.now.slots key ≡ Some viewer) }
        ensures none { result ≡ None → (key : ℕ) → number_at self.now.slots key ≢ Some viewer }
    {
        let key = self.viewers.connections.key_of(viewer)?;
        let socket = self.viewers.connections.transport(key)?;
        Some(socket.address())
    }

    /// Returns what moved of a viewer; None where it isn't connected.
    pub fn viewer_traffic(&self, viewer: u64) -> Option<Traffic>
        ensures some { IfSome result (IsTrafficOf self.now viewer) }
        ensures none { result ≡ None → (key : ℕ) → number_at self.now.slots key ≢ Some viewer }
    {
        let connections = &self.viewers.connections;
        let key = connections.key_of(viewer)?;
        let updates = connections.cuts(key)?;
        let heard_at = connections.heard_at(key)?;
        let (received, sent) = connections.transport(key)?.moved();
        Some(Traffic {
            received,
            sent,
            updates,
            heard_at: Duration::from_millis(heard_at),
        })
    }

    /// Returns how long behind the first turn the last one was.
    pub fn last_turn(&self) -> Duration {
        Duration::from_millis(self.time)
    }

    /// Returns what ends a wait from another thread: the application is told that it was woken. One loop has one waker.
    /// Fails where the system refuses it.
    pub fn waker(&self) -> io::Result<Waker> {
        self.poller.waker()
    }

    /// Watches a stream of the program's own from now on, in place of an earlier one: the application is told where it is ready, by
    /// `Application::ready`. The program keeps the stream, and ends the watch by dropping it. Fails where the poller does.
    pub fn watch(&mut self, stream: &mut TcpStream) -> io::Result<()>
        ensures same { self.new ≡ self.old }
    {
        self.watched = None;
        self.poller.watch(stream)
    }

    /// Lets a viewer go, as one that the application refused (`rfbCloseClient` of `rfb.h`, and `RFB_CLIENT_REFUSE`): it is heard no more,
    /// it is written nothing more, and its connection is closed at the end of the next turn. Returns whether one had the number; after an
    /// `AllocError` it is connected still.
    pub fn close_viewer(&mut self, viewer: u64) -> Result<bool, AllocError>
        ensures served { GoesOnServing self.old self.new }
        ensures let_go { result ≡ Ok true → IsLetGo ended.Gate viewer self.old self.new }
        ensures none { result ≡ Ok false → (key : ℕ) → number_at self.old.slots key ≢ Some viewer }
        ensures nobody { result ≡ Ok false → self.new ≡ self.old }
        ensures err { OnErr result (self.new.slots ≡ self.old.slots) }
    {
        let Some(key) = self.viewers.connections.key_of(viewer) else {
            return Ok(false);
        };
        self.viewers.connections.refuse(key)?;
        Ok(true)
    }

    /// Takes in a connection that the program accepted or made itself, as one that the listener accepts, with the same limits: that of
    /// inetd, an end of a pair of sockets, or a UNIX socket by its descriptor. The program has made it non-blocking. It is heard from the
    /// next turn on. Where there is no room for it, it is turned away, since it can't wait. Where the application fails, it is the next
    /// viewer's all the same, and where the clock does, nothing has changed.
    pub fn adopt<C: Clock, A: Application>(
        &mut self,
        clock: &C,
        stream: TcpStream,
        application: &mut A,
    ) -> Result<Admission, LoopError>
        ensures served { GoesOnServing self.old self.new }
        ensures stands { Stays A.stands application.old application.new }
        ensures admitted { IfOk result (IsAdmittedOr self.old self.new) }
    {
        let now = now_by(clock)?;
        self.admit(now, Peer::plain(stream), application)
    }

    /// Returns how long a turn without a timeout would wait now, where no socket becomes ready; None without end. A program with a loop of
    /// its own takes a turn after this time, or once the loop's handle (`AsRawFd`) is ready to be read. Fails as `Clock` where the
    /// clock does.
    pub fn longest_wait<C: Clock>(&self, clock: &C) -> Result<Option<Duration>, LoopError> {
        let now = now_by(clock)?;
        Ok(self.wait_for(now, None))
    }

    /// Takes one turn (`rfbProcessEvents` of `rfb.h`). Waits until something is ready, the application's time comes, or the time is up,
    /// but not where something can be done at once. Then hears what viewers sent, and writes what they are given, as `Connections::turn`
    /// says; last, accepts connections that came, which are heard from the next turn on.
    ///
    /// Whatever list of events the screen stood for, it stands for it with others behind it, and by that list each viewer is served:
    /// what waits for it is the end of what the screen with this one viewer gives it. Whatever the application stood for, it stands for that
    /// with an account of the events behind it: the inputs in them, and a receipt of each viewer that left in them, in order; or with the
    /// first of these where an error ended the turn.
    pub fn process_events<C: Clock, A: Application>(
        &mut self,
        clock: &C,
        timeout: Option<Duration>,
        application: &mut A,
    ) -> Result<(), LoopError>
        ensures served { GoesOnServingTelling A.stands self.old self.new application.old application.new result }
    {
        let now = self.wait(clock, timeout)?;
        self.tell_time(now, application)?;
        self.turn(now, application)?;
        self.come_and_go(now, application)
    }

    /// Takes turns until the application is done. Writes what waits of the record at the end, also after an error. It ends without one only
    /// where the application is done (`is_done`).
    pub fn run<C: Clock, A: Application>(
        &mut self,
        clock: &C,
        application: &mut A,
    ) -> Result<(), LoopError>
        ensures served { GoesOnServingTelling A.stands self.old self.new application.old application.new result }
        ensures done { OnOk result (A.done application.new) }
    {
        let ended = self.run_on(clock, application);
        self.flush_record();
        ended
    }

    /// Takes turns until the application is done, or 2^64 - 1, which answers `Clock`.
    fn run_on<C: Clock, A: Application>(
        &mut self,
        clock: &C,
        application: &mut A,
    ) -> Result<(), LoopError>
        ensures served { GoesOnServingTelling A.stands self.old self.new application.old application.new result }
        ensures done { OnOk result (A.done application.new) }
    {
        if self.take_turns(clock, u64::MAX, application)? < u64::MAX {
            return Ok(());
        }
        Err(LoopError::Clock)
    }

    /// Takes turns until the application is done, at most `most`, and returns how many it took.
    fn take_turns<C: Clock, A: Application>(
        &mut self,
        clock: &C,
        most: u64,
        application: &mut A,
    ) -> Result<u64, LoopError>
        ensures served { GoesOnServingTelling A.stands self.old self.new application.old application.new result }
        ensures most { IfOk result (λ turns. turns ≤ most) }
        ensures done { IfOk result (λ turns. turns < most → A.done application.new) }
    {
        let mut turns = 0;
        'turns: while turns < most {
            if application.is_done() {
                return Ok(turns);
            }
            self.process_events(clock, None, application)?;
            turns += 1;
        }
        Ok(turns)
    }
}

/// For a program with a loop of its own: `poll` and `epoll` find it ready to be read where a socket of the loop's is ready.
impl AsRawFd for EventLoop {
    fn as_raw_fd(&self) -> RawFd {
        self.poller.handle()
    }
}
