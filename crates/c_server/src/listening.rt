//! How a server begins.

ghost use Rattle.std.specs.Prelude.{◌≡◌, ◌≢◌, ℕ, List, [], true, false, IfOk, IfErr, OnOk};
ghost use Rattle.std.specs.Duration.{as_nanos};
ghost use Rattle.event_loop.specs.declared.limits.WhenFull.TheVariants as when_full;
ghost use Rattle.connections.specs.Serving.{Serves};
ghost use Rattle.screen.specs.Alone.{config_refusal};
ghost use Rattle.c_screen.specs.Desk.{config_of};
ghost use Rattle.c_server.specs.Desk.{desk_sockets, is_named, rects_per_update};
ghost use Rattle.c_server.specs.Listening.{IsOfSystem, IsRefusedBy, listen_code, unbound_code};
ghost use Rattle.c_server.specs.System.{IsAddress, IsNoAddress};

use crate::codes::{BAD_ADDRESS, CANNOT_LISTEN, CANNOT_RECORD, NETWORK_FAILED};
use crate::system::{Network, address_of};
use c_screen::code_of;
use event_loop::{
    Config, EventLoop, History, LetIn, Limits, Listed, LoopError, PrivateFile, RecordWriter,
    ScreenError, WhenFull,
};
use mio::net::TcpListener;
use screen::{MOST_RECTS, config_refusal};
use std::alloc::{AllocError, Global};

/// How many copies, and how many rectangles of pixels, an update has at most: what is drawn between two turns seldom takes more, so that
/// a viewer sees it at once.
const RECTS_PER_UPDATE: u32 = MOST_RECTS;

/// Why a screen is not served.
#[derive(Clone, Copy)]
pub(crate) enum ListenError {
    /// The screen's configuration is outside its limits, or memory was refused.
    Refused(ScreenError),
    /// The address is no IP address in digits.
    BadAddress,
    /// The system doesn't let it listen there, or has no more handles.
    CannotListen,
    /// The file of its record is there already, or can't be made.
    CannotRecord,
}

impl ListenError {
    /// Returns its code.
    pub fn code(self) -> i32
        ensures { result ≡ listen_code self }
    {
        match self {
            ListenError::Refused(e) => code_of(e),
            ListenError::BadAddress => BAD_ADDRESS,
            ListenError::CannotListen => CANNOT_LISTEN,
            ListenError::CannotRecord => CANNOT_RECORD,
        }
    }

    /// Returns its code where the server was to listen nowhere.
    pub fn unbound_code(self) -> i32
        ensures { result ≡ unbound_code self }
    {
        match self {
            ListenError::CannotListen => NETWORK_FAILED,
            other => other.code(),
        }
    }
}

/// An IP address in digits, as `127.0.0.1` or `::1`, and a port, 0 for one that the system chooses.
#[derive(Clone, Copy)]
pub(crate) struct Address<'a> {
    pub digits: &'a [u8],
    pub port: u16,
}

/// A loop, and what it grants its viewers.
#[derive(Drop)]
pub(crate) struct Granting {
    pub events: EventLoop,
    pub limits: Limits,
}

/// A loop, the port on which it listens, and how many viewers it grants at once.
#[derive(Drop)]
pub(crate) struct Listening {
    pub events: EventLoop,
    pub port: u16,
    pub viewers: usize,
}

/// Binds a socket that listens, and returns it with its port: the one that was asked for, or the system's choice.
pub(crate) fn bind(at: Address<'_>) -> Result<(TcpListener, u16), ListenError>
    ensures port { IfOk result (λ bound. at.entry.port ≢ 0 → bound.1 ≡ at.entry.port) }
    ensures spelled { IfOk result (λ bound. IsAddress at.entry.digits.now) }
    ensures unspelled { IfErr result (λ e. e ≡ ListenError.BadAddress → IsNoAddress at.entry.digits.now) }
    ensures err { IfErr result (IsOfSystem []) }
{
    let Some(address) = address_of(at.digits, at.port) else {
        return Err(ListenError::BadAddress);
    };
    let Ok(listener) = TcpListener::bind(&Network, address) else {
        return Err(ListenError::CannotListen);
    };
    if at.port != 0 {
        return Ok((listener, at.port));
    }
    match listener.local_addr() {
        Ok(bound) => Ok((listener, bound.port())),
        Err(_) => Err(ListenError::CannotListen),
    }
}

/// Returns who is let in besides those that name this machine: hosts and origins, each a list with commas in between.
pub(crate) fn let_in(alloc: Global, hosts: &[u8], origins: &[u8]) -> Result<LetIn, AllocError>
    ensures hosts { IfOk result (λ admission. admission.hosts ≡ hosts.now) }
    ensures origins { IfOk result (λ admission. admission.origins ≡ origins.now) }
{
    let hosts = Listed::from_slice(alloc, hosts)?;
    let origins = Listed::from_slice(alloc, origins)?;
    Ok(LetIn { hosts, origins })
}

/// Returns the usual limits, but for so many viewers at once; a further one waits.
fn limits_of(viewers: u32) -> Limits
    ensures live { result.live_viewers ≡ viewers }
    ensures full { result.when_full ≡ when_full.Wait }
    ensures all { result.all_viewers ≡ u64.MAX }
    ensures time { as_nanos result.opening_time ≡ 10_000_000_000 }
{
    let mut limits = Limits::usual();
    limits.live_viewers = viewers as usize;
    limits.when_full = WhenFull::Wait;
    limits
}

/// Returns why a screen isn't served whose configuration is within the limits.
fn refused(error: LoopError) -> ListenError
    ensures system { (path : List ℕ) → IsOfSystem path result }
    ensures later { result ≢ ListenError.BadAddress }
{
    match error {
        LoopError::Screen(_) => ListenError::Refused(ScreenError::OutOfMemory),
        _ => ListenError::CannotListen,
    }
}

/// Returns a loop that serves a screen, whose configuration is within the limits, at a listener, if there is one, and records it in a file
/// that is made.
fn serve_recorded(
    alloc: Global,
    listener: Option<TcpListener>,
    config: Config,
    limits: Limits,
    record_path: &[u8],
) -> Result<Granting, ListenError>
    ensures serves { IfOk result (λ made. Serves config (desk_sockets true config) [] made.events) }
    ensures granted { IfOk result (λ made. made.limits ≡ limits) }
    ensures err { IfErr result (λ e. (path : List ℕ) → is_named path ≡ true → IsOfSystem path e) }
    ensures later { IfErr result (λ e. e ≢ ListenError.BadAddress) }
{
    let Ok(file) = PrivateFile::create(record_path) else {
        return Err(ListenError::CannotRecord);
    };
    let writer = RecordWriter::PrivateFile(file);
    let made = match listener {
        Some(listener) => EventLoop::recorded(&Network, alloc, listener, config, limits, writer),
        None => EventLoop::unbound_recorded(&Network, alloc, config, limits, writer),
    };
    match made {
        Ok(events) => Ok(Granting { events, limits }),
        Err(e) => Err(refused(e)),
    }
}

/// Returns a loop that serves a screen, whose configuration is within the limits, at a listener, if there is one, and records it where a path
/// names a file.
fn serve(
    alloc: Global,
    listener: Option<TcpListener>,
    config: Config,
    viewers: u32,
    record_path: &[u8],
) -> Result<Granting, ListenError>
    ensures serves { IfOk result (λ made. Serves config (desk_sockets (is_named record_path.now) config) [] made.events) }
    ensures viewers { IfOk result (λ made. made.limits.live_viewers ≡ viewers) }
    ensures err { IfErr result (IsOfSystem record_path.now) }
    ensures later { IfErr result (λ e. e ≢ ListenError.BadAddress) }
{
    let limits = limits_of(viewers);
    if !record_path.is_empty() {
        return serve_recorded(alloc, listener, config, limits, record_path);
    }
    let made = match listener {
        Some(listener) => EventLoop::new(&Network, alloc, listener, config, limits),
        None => EventLoop::unbound(&Network, alloc, config, limits),
    };
    match made {
        Ok(events) => Ok(Granting { events, limits }),
        Err(e) => Err(refused(e)),
    }
}

/// Returns a screen's configuration that keeps no events, named `name`.
fn config_of(alloc: Global, width: u32, height: u32, name: &[u8]) -> Result<Config, ListenError>
    ensures ok { IfOk result (λ config. config ≡ config_of width height name.now rects_per_update) }
    ensures err { IfErr result (IsOfSystem []) }
    ensures system { IfErr result (λ e. (path : List ℕ) → IsOfSystem path e) }
    ensures later { IfErr result (λ e. e ≢ ListenError.BadAddress) }
{
    let Ok(name) = Listed::from_slice(alloc, name) else {
        return Err(ListenError::Refused(ScreenError::OutOfMemory));
    };
    Ok(Config {
        width,
        height,
        name,
        rects_per_update: RECTS_PER_UPDATE,
        history: History::NotKept,
    })
}

/// Returns a loop that serves a black screen to no viewer yet, whose configuration is within the limits.
fn open(
    alloc: Global,
    at: Address<'_>,
    width: u32,
    height: u32,
    name: &[u8],
    viewers: u32,
    record_path: &[u8],
) -> Result<Listening, ListenError>
    ensures serves { IfOk result (λ made. Serves (config_of width height name.now rects_per_update) (desk_sockets (is_named record_path.now) (config_of width height name.now rects_per_update)) [] made.events) }
    ensures viewers { IfOk result (λ made. made.viewers ≡ viewers) }
    ensures port { IfOk result (λ made. at.entry.port ≢ 0 → made.port ≡ at.entry.port) }
    ensures spelled { IfOk result (λ made. IsAddress at.entry.digits.now) }
    ensures unspelled { IfErr result (λ e. e ≡ ListenError.BadAddress → IsNoAddress at.entry.digits.now) }
    ensures err { IfErr result (IsOfSystem record_path.now) }
{
    let (listener, port) = bind(at)?;
    let config = config_of(alloc, width, height, name)?;
    let made = serve(alloc, Some(listener), config, viewers, record_path)?;
    Ok(Listening {
        events: made.events,
        port,
        viewers: made.limits.live_viewers,
    })
}

/// Returns a loop that serves a black screen to no viewer yet, on a port of an address. It is recorded where a path names a file.
pub(crate) fn listen_on(
    alloc: Global,
    at: Address<'_>,
    width: u32,
    height: u32,
    name: &[u8],
    viewers: u32,
    record_path: &[u8],
) -> Result<Listening, ListenError>
    ensures serves { IfOk result (λ made. Serves (config_of width height name.now rects_per_update) (desk_sockets (is_named record_path.now) (config_of width height name.now rects_per_update)) [] made.events) }
    ensures viewers { IfOk result (λ made. made.viewers ≡ viewers) }
    ensures port { IfOk result (λ made. at.entry.port ≢ 0 → made.port ≡ at.entry.port) }
    ensures spelled { IfOk result (λ made. IsAddress at.entry.digits.now) }
    ensures unspelled { IfErr result (λ e. e ≡ ListenError.BadAddress → IsNoAddress at.entry.digits.now) }
    ensures refused { IsRefusedBy record_path.now (config_refusal (config_of width height name.now rects_per_update)) result }
{
    match config_refusal(width, height, name, RECTS_PER_UPDATE) {
        Some(refusal) => Err(ListenError::Refused(refusal)),
        None => open(alloc, at, width, height, name, viewers, record_path),
    }
}

/// Returns a loop that listens nowhere and serves a black screen to no viewer yet, whose configuration is within the limits. It is recorded
/// where a path names a file.
fn open_unbound(
    alloc: Global,
    width: u32,
    height: u32,
    name: &[u8],
    viewers: u32,
    record_path: &[u8],
) -> Result<Granting, ListenError>
    ensures serves { IfOk result (λ made. Serves (config_of width height name.now rects_per_update) (desk_sockets (is_named record_path.now) (config_of width height name.now rects_per_update)) [] made.events) }
    ensures viewers { IfOk result (λ made. made.limits.live_viewers ≡ viewers) }
    ensures err { IfErr result (IsOfSystem record_path.now) }
    ensures later { IfErr result (λ e. e ≢ ListenError.BadAddress) }
{
    let config = config_of(alloc, width, height, name)?;
    serve(alloc, None, config, viewers, record_path)
}

/// Returns a loop that listens nowhere and serves a black screen to no viewer yet. It is recorded where a path names a file.
pub(crate) fn serve_unbound(
    alloc: Global,
    width: u32,
    height: u32,
    name: &[u8],
    viewers: u32,
    record_path: &[u8],
) -> Result<Granting, ListenError>
    ensures serves { IfOk result (λ made. Serves (config_of width height name.now rects_per_update) (desk_sockets (is_named record_path.now) (config_of width height name.now rects_per_update)) [] made.events) }
    ensures viewers { IfOk result (λ made. made.limits.live_viewers ≡ viewers) }
    ensures refused { IsRefusedBy record_path.now (config_refusal (config_of width height name.now rects_per_update)) result }
    ensures later { IfErr result (λ e. e ≢ ListenError.BadAddress) }
{
    match config_refusal(width, height, name, RECTS_PER_UPDATE) {
        Some(refusal) => Err(ListenError::Refused(refusal)),
        None => open_unbound(alloc, width, height, name, viewers, record_path),
    }
}
