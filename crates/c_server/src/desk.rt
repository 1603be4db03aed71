//! The desk: the calls of a server, and what waits to be fetched.

ghost use Rattle.std.specs.Prelude.{◌≡◌, ℕ, ◌≤◌, ◌<◌, ◌<ℤ◌, ◌+◌, ◌-◌, ◌∷◌, ◌++◌, [], ◌^◌, take, pos, min, length, None, Some, OnOk};
ghost use Rattle.c_screen.specs.Codes as codes;
ghost use Rattle.c_screen.specs.Desk.{config_of};
ghost use Rattle.std.specs.VecDeque.{deque_capacity};
ghost use Rattle.c_server.specs.Desk.{fitting, texts_limit, is_named, nothing_there, rects_per_update};
ghost use Rattle.c_server.specs.Calls.{Listens, ListensAt, ListensFurther, ServesUnbound, Adopts, NamesRecord, record_state, TakesTurn, ShowsTraffic, Tells, TellsAddress, TellsSome, TellsWait, AreDigitsIn, LetsGo};
ghost use Rattle.std.specs.Net.Text.{ip_text};

use crate::adopting::{Listener, Silent, listener_of, stream_of, turn_away};
use crate::codes::{
    CLOCK_FAILED, FULL, NETWORK_FAILED, adopt_code, closed_code, further_code, turn_code,
};
use crate::gathering::Gathering;
use crate::listening::{Address, bind, let_in, listen_on, serve_unbound};
use crate::news::{
    MOST_INPUTS, MOST_TEXT, MOST_VISITS, make_room, put_all, put_coming, put_inputs,
};
use crate::system::{SystemClock, digits_of, milliseconds_of, timeout_of};
use crate::told::ToldBy;
use crate::visits::Visit;
use c_screen::{SHUT, code_of, copy_to};
use event_loop::{EventLoop, Listed, ScreenError, Traffic};
use std::alloc::{AllocError, Global};
use std::collections::VecDeque;
use std::marker::Model;
use std::mem;
use std::net::IpAddr;
use std::os::fd::AsRawFd;
use std::time::Duration;

/// A server in one thread, or none where the desk is shut; and what came of its viewers and wasn't fetched. Each call answers `SHUT`
/// where it is shut, but for `listen`, `serve`, `record_next` and `close`. A number below 0 is the code of a refusal, and nothing has
/// changed then, but for what `process_events`, `update_from`, `adopt` and `listen_at` say.
///
/// At most 4,096 inputs wait, 4 MB of texts, and 1,024 comings and goings. What comes when there is no more room, and an input for which
/// memory is refused, is lost, and counted: `lost_count`.
pub struct ServerDesk {
    pub(crate) alloc: Global,
    pub(crate) events: Option<EventLoop>,
    pub(crate) port: u16,
    // how many viewers are granted at once
    pub(crate) viewers: usize,
    pub(crate) inputs: VecDeque<ToldBy>,
    pub(crate) visits: VecDeque<Visit>,
    // the room for the comings and goings of a turn
    pub(crate) turn_visits: VecDeque<Visit>,
    pub(crate) text: Listed<u8>,
    // how many bytes of texts may come before they are too many
    pub(crate) text_room: usize,
    pub(crate) lost: u64,
    pub(crate) full_requests: u64,
    // the file in which the screen that is served next is recorded, empty for none
    pub(crate) record_path: Listed<u8>,
    // what is served now is recorded
    pub(crate) is_recorded: bool,
}

// Written out, so that who holds one proves one call here, and not the drop of each field.
impl Drop for ServerDesk {
    fn drop(self) {
        let ServerDesk {
            alloc: _alloc,
            events: _events,
            port: _port,
            viewers: _viewers,
            inputs: _inputs,
            visits: _visits,
            turn_visits: _turn_visits,
            text: _text,
            text_room: _text_room,
            lost: _lost,
            full_requests: _full_requests,
            record_path: _record_path,
            is_recorded: _is_recorded,
        } = self;
    }
}

impl Model for ServerDesk {
    ghost use Rattle.c_server.specs.Desk.{Standing};

    ghost Value = { Standing };

    ghost view = { λ a. record { served = a.events; port = a.port; viewers = a.viewers; inputs = a.inputs.items; visits = a.visits.items; text = a.text; lost = a.lost; full_requests = a.full_requests; text_room = a.text_room; record_path = a.record_path; recorded = a.is_recorded } };
}

/// Makes room for as many inputs, and comings and goings, as may wait, and for those of a turn.
fn make_all_room(
    inputs: &mut VecDeque<ToldBy>,
    visits: &mut VecDeque<Visit>,
    turn_visits: &mut VecDeque<Visit>,
) -> Result<(), AllocError>
    ensures inputs { inputs.new.items ≡ inputs.old.items }
    ensures visits { visits.new.items ≡ visits.old.items }
    ensures input_room { OnOk result (4096 ≤ deque_capacity inputs.new) }
    ensures visit_room { OnOk result (1024 ≤ deque_capacity visits.new) }
    ensures turn_room { OnOk result (1024 ≤ deque_capacity turn_visits.new) }
{
    make_room(inputs, MOST_INPUTS)?;
    make_room(visits, MOST_VISITS)?;
    make_room(turn_visits, MOST_VISITS)?;
    Ok(())
}

/// What is known once what came in a turn was put behind what waits.
#[derive(Drop)]
struct Kept {
    // how much of it is lost
    lost: u64,
    // how many bytes more may wait in texts
    text_room: usize,
    // the room for the comings and goings of the next turn
    turn_visits: VecDeque<Visit>,
}

/// Puts what came behind what waits, in room that was made, where so many bytes more may wait in texts.
fn keep(
    inputs: &mut VecDeque<ToldBy>,
    visits: &mut VecDeque<Visit>,
    text_room: usize,
    came: Gathering,
) -> Kept
    requires inputs { 4096 ≤ deque_capacity inputs.old }
    requires visits { 1024 ≤ deque_capacity visits.old }
    ensures inputs { inputs.new.items ≡ inputs.old.items ++ (fitting (4096 - length inputs.old.items) text_room came.inputs.items).0 }
    ensures visits { visits.new.items ≡ visits.old.items ++ take (1024 - length visits.old.items) came.visits.items }
    ensures lost { result.lost ≡ min (came.lost + ((fitting (4096 - length inputs.old.items) text_room came.inputs.items).1 + (length came.visits.items - (1024 - length visits.old.items)))) (2 ^ 64 - 1) }
    ensures room { result.text_room ≡ (fitting (4096 - length inputs.old.items) text_room came.inputs.items).2 }
{
    let (lost_inputs, text_room) = put_inputs(inputs, came.inputs, text_room);
    let mut turn_visits = came.visits;
    let lost_visits = put_all(visits, &mut turn_visits, MOST_VISITS);
    let lost = came
        .lost
        .saturating_add(lost_inputs.saturating_add(lost_visits) as u64);
    Kept {
        lost,
        text_room,
        turn_visits,
    }
}

/// Puts an address in digits at the room's start, as much of it as fits. Returns how many bytes that are, or `OutOfMemory`'s code where
/// memory for the digits is refused; the rest of the room stays.
fn show_address(alloc: Global, address: IpAddr, room: &mut [u8]) -> i32
    ensures digits { AreDigitsIn (ip_text address) room.old room.new result }
    ensures refused { result <ℤ pos 0 → room.new ≡ room.old }
{
    match digits_of(alloc, address) {
        Ok(digits) => copy_to(room, digits.as_bytes()) as i32,
        Err(_) => code_of(ScreenError::OutOfMemory),
    }
}

/// Returns what moved of a viewer, in numbers, the last of which is for how many milliseconds it had said nothing by a time.
fn numbers_of(traffic: &Traffic, time: Duration) -> [u64; 4]
    ensures { (silent : ℕ) × (result ≡ traffic.now.received ∷ traffic.now.sent ∷ traffic.now.updates ∷ silent ∷ []) }
{
    let silent = time.saturating_sub(traffic.heard_at).as_millis();
    [
        traffic.received,
        traffic.sent,
        traffic.updates,
        u64::try_from(silent).unwrap_or(u64::MAX),
    ]
}

impl ServerDesk {
    /// Returns a desk that is shut. It takes no memory.
    pub fn new(alloc: Global) -> ServerDesk
        ensures { result ≡ nothing_there }
    {
        ServerDesk {
            alloc,
            events: None,
            port: 0,
            viewers: 0,
            inputs: VecDeque::new(alloc),
            visits: VecDeque::new(alloc),
            turn_visits: VecDeque::new(alloc),
            text: Listed::new(alloc),
            text_room: MOST_TEXT,
            lost: 0,
            full_requests: 0,
            record_path: Listed::new(alloc),
            is_recorded: false,
        }
    }

    /// Names the file in which the screen that `listen` or `serve` serves next is recorded, by its path of at most 4,095 bytes; none by a
    /// path of no bytes. That call makes the file, and `vncdemo replay` reads it. Returns 0, also where the desk is shut, or
    /// `OutOfMemory`'s code where memory for the path is refused.
    pub fn record_next(&mut self, path: &[u8]) -> i32
        ensures { NamesRecord path.now self.old self.new result }
    {
        match Listed::from_slice(self.alloc, path) {
            Ok(path) => {
                self.record_path = path;
                0
            }
            Err(_) => code_of(ScreenError::OutOfMemory),
        }
    }

    /// Returns whether what is served is recorded: 0 for no, 1 for yes, and 2 where the record has ended before its session, since a write
    /// of it failed, or memory for a region's rectangles was refused.
    pub fn record_state(&mut self) -> i32
        ensures { Tells (record_state self.old.recorded) self.old self.new result }
    {
        let Some(events) = &self.events else {
            return SHUT;
        };
        if !self.is_recorded {
            return 0;
        }
        if events.is_record_broken() { 2 } else { 1 }
    }

    /// Listens on a port of an address, and serves a black screen to as many viewers at once as `viewers` says (`rfbGetScreen` and
    /// `rfbInitServer` of `rfb.h`); a further one waits until one has left. What was open is closed once this is done, and stays where it
    /// is refused. `address` is an IP address in digits, as `127.0.0.1`, `0.0.0.0` for all of the machine's, or `::1`; of port 0 the
    /// system chooses one, which `port` tells. `name` is the desktop's (RFC 6143, 7.3.2), of at most 255 bytes.
    ///
    /// Returns 0, or the code of `BadSize`, `BadName` or `OutOfMemory`; `BAD_ADDRESS` where the address isn't one, `CANNOT_LISTEN` where
    /// the system refuses it, and `CANNOT_RECORD` where `record_next` named a file that is there already, or can't be made.
    pub fn listen(
        &mut self,
        address: &[u8],
        port: u16,
        width: u32,
        height: u32,
        name: &[u8],
        viewers: u32,
    ) -> i32
        ensures { Listens (config_of width height name.now rects_per_update) viewers address.now port self.old self.new result }
    {
        let digits = address;
        let path = self.record_path.as_slice();
        match listen_on(
            self.alloc,
            Address { digits, port },
            width,
            height,
            name,
            viewers,
            path,
        ) {
            Ok(made) => {
                self.begin(made.events, made.port, made.viewers);
                0
            }
            Err(e) => e.code(),
        }
    }

    /// Listens on a further port, also where the server listened nowhere: who comes there is a viewer like the others. `address` is as that of
    /// `listen`. Returns the port, which the system chooses for port 0; or `BAD_ADDRESS`, `CANNOT_LISTEN`, `OutOfMemory`'s code, or
    /// `TOO_MANY_PORTS` where it listens on eight.
    pub fn listen_also(&mut self, address: &[u8], port: u16) -> i32
        ensures { ListensFurther address.now port self.old self.new result }
    {
        let Some(events) = &mut self.events else {
            return SHUT;
        };
        let digits = address;
        match bind(Address { digits, port }) {
            Ok((listener, port)) => further_code(events.listen(listener), port),
            Err(e) => e.code(),
        }
    }

    /// Listens further at a socket that the program has, by its descriptor: a stream socket of IP or of UNIX that is bound to an address, and
    /// may listen already, as one of systemd's does. Who comes there is a viewer like the others.
    ///
    /// The descriptor is the desk's then, and it is closed at once where the answer is below 0, but for two codes behind which it stays the
    /// program's: `SHUT`, and `BAD_SOCKET` where it is no socket, or can't listen. Else `NETWORK_FAILED` where it can't be made not to wait,
    /// `CANNOT_LISTEN` where the system refuses to have it watched, `OutOfMemory`'s code, or `TOO_MANY_PORTS`.
    pub fn listen_at(&mut self, fd: i32) -> i32
        ensures { ListensAt fd self.old self.new result }
    {
        let Some(events) = &mut self.events else {
            return SHUT;
        };
        match listener_of(fd) {
            Ok(Listener::Tcp(listener)) => further_code(events.listen(listener), 0),
            Ok(Listener::Unix(listener)) => further_code(events.listen_unix(listener), 0),
            Err(code) => code,
        }
    }

    /// Listens on a port for browsers, which are viewers over WebSockets (RFC 6455), in place of one on which it listened for them before. A
    /// browser's request is let in where its Host is `127.0.0.1`, `localhost` or `[::1]`, or one of `hosts`, and where it has no Origin, or
    /// that of the same host, or one of `origins`: lists with commas in between. Returns the port, or `BAD_ADDRESS`,
    /// `CANNOT_LISTEN` or `OutOfMemory`'s code.
    pub fn listen_web(&mut self, address: &[u8], port: u16, hosts: &[u8], origins: &[u8]) -> i32
        ensures { ListensFurther address.now port self.old self.new result }
    {
        let Some(events) = &mut self.events else {
            return SHUT;
        };
        let Ok(let_in) = let_in(self.alloc, hosts, origins) else {
            return code_of(ScreenError::OutOfMemory);
        };
        let digits = address;
        match bind(Address { digits, port }) {
            Ok((listener, port)) => {
                further_code(events.listen_web(self.alloc, listener, let_in), port)
            }
            Err(e) => e.code(),
        }
    }

    /// Serves a black screen to as many viewers at once as `viewers` says, and listens nowhere: they come by `adopt`. What was open is
    /// closed once this is done, and stays where it is refused. `name` is the desktop's (RFC 6143, 7.3.2), of at most 255 bytes. Returns
    /// 0, or the code of `BadSize`, `BadName` or `OutOfMemory`; `NETWORK_FAILED` where the system has no more handles, and
    /// `CANNOT_RECORD` where `record_next` named a file that is there already, or can't be made.
    pub fn serve(&mut self, width: u32, height: u32, name: &[u8], viewers: u32) -> i32
        ensures { ServesUnbound (config_of width height name.now rects_per_update) viewers self.old self.new result }
    {
        let path = self.record_path.as_slice();
        match serve_unbound(self.alloc, width, height, name, viewers, path) {
            Ok(made) => {
                self.begin(made.events, 0, made.limits.live_viewers);
                0
            }
            Err(e) => e.unbound_code(),
        }
    }

    /// Serves by a loop that was made, in place of another. A file for the next record isn't named any more.
    fn begin(&mut self, events: EventLoop, port: u16, viewers: usize)
        ensures { self.new ≡ record { served = Some events; port = port; viewers = viewers; inputs = []; visits = []; text = []; lost = 0; full_requests = 0; text_room = texts_limit; record_path = []; recorded = is_named self.old.record_path } }
    {
        self.end();
        self.is_recorded = !self.record_path.is_empty();
        self.record_path = Listed::new(self.alloc);
        self.events = Some(events);
        self.port = port;
        self.viewers = viewers;
    }

    /// Ends what is served, writes what waits of a record, and drops what waits to be fetched.
    fn end(&mut self)
        ensures { self.new ≡ record nothing_there { record_path = self.old.record_path } }
    {
        if let Some(events) = &mut self.events {
            events.flush_record();
        }
        self.events = None;
        self.port = 0;
        self.viewers = 0;
        self.is_recorded = false;
        self.clear();
    }

    /// Drops what waits to be fetched.
    fn clear(&mut self)
        ensures { self.new ≡ record self.old { inputs = []; visits = []; text = []; lost = 0; full_requests = 0; text_room = texts_limit } }
    {
        self.inputs = VecDeque::new(self.alloc);
        self.visits = VecDeque::new(self.alloc);
        self.turn_visits = VecDeque::new(self.alloc);
        self.text = Listed::new(self.alloc);
        self.text_room = MOST_TEXT;
        self.lost = 0;
        self.full_requests = 0;
    }

    /// Closes the server: its port is free, its viewers' connections are closed, and its record is written to its end
    /// (`rfbShutdownServer` and `rfbScreenCleanup` of `rfb.h`). Returns 0, also where the desk is shut.
    pub fn close(&mut self) -> i32
        ensures { (self.new ≡ nothing_there) × (result ≡ codes.done) }
    {
        self.end();
        self.record_path = Listed::new(self.alloc);
        0
    }

    /// Takes one turn of the loop (`rfbProcessEvents` of `rfb.h`): it waits until something is ready, at most `milliseconds`, and below 0
    /// without end; then it hears what viewers sent, writes what they are owed, and accepts who came. Returns 0, or why the turn ended
    /// early: a code of `code_of`, `NETWORK_FAILED` or `CLOCK_FAILED`; also then each viewer is served as far as the turn came, and what it
    /// brought waits.
    pub fn process_events(&mut self, milliseconds: i32) -> i32
        ensures { TakesTurn self.old self.new result }
    {
        let Some(events) = &mut self.events else {
            return SHUT;
        };
        if make_all_room(&mut self.inputs, &mut self.visits, &mut self.turn_visits).is_err() {
            return code_of(ScreenError::OutOfMemory);
        }
        let turn_visits = mem::replace(&mut self.turn_visits, VecDeque::new(self.alloc));
        let mut came = Gathering::new(self.alloc, self.text_room, turn_visits);
        let answer = events.process_events(&SystemClock, timeout_of(milliseconds), &mut came);
        self.full_requests = self.full_requests.saturating_add(came.full_requests);
        let kept = keep(&mut self.inputs, &mut self.visits, self.text_room, came);
        self.text_room = kept.text_room;
        self.turn_visits = kept.turn_visits;
        self.lost = self.lost.saturating_add(kept.lost);
        turn_code(answer)
    }

    /// Takes in a connection that the program accepted or made itself, by its descriptor, which is a connected stream socket: it is the next
    /// viewer's, and heard from the next turn on. Returns the viewer's number, at most 2^62, and `next_events` tells that it came.
    ///
    /// The descriptor is the desk's then, which closes it once the viewer has gone; and it is closed at once where the answer is below 0, but
    /// for two codes behind which it stays the program's: `SHUT`, and `BAD_SOCKET` where it is no socket, or isn't connected. `FULL` where as
    /// many viewers are connected as were granted: it is told so (RFC 6143, 7.1.2). `CANNOT_ADOPT` where the system or memory refuses to
    /// have it watched, `NETWORK_FAILED` where it can't be made not to wait or the network fails, `CLOCK_FAILED`, and `OutOfMemory`'s code.
    pub fn adopt(&mut self, fd: i32) -> i64
        ensures { Adopts fd self.old self.new result }
    {
        let Some(events) = &mut self.events else {
            return i64::from(SHUT);
        };
        let stream = match stream_of(fd) {
            Ok(stream) => stream,
            Err(code) => return i64::from(code),
        };
        if events.viewer_count() >= self.viewers {
            turn_away(stream);
            return i64::from(FULL);
        }
        if make_room(&mut self.visits, MOST_VISITS).is_err() {
            return i64::from(code_of(ScreenError::OutOfMemory));
        }
        let answer = events.adopt(&SystemClock, stream, &mut Silent);
        self.lost = put_coming(&mut self.visits, self.lost, answer);
        adopt_code(answer)
    }

    /// Lets a viewer go by `EventLoop::close_viewer` (`rfbCloseClient` of `rfb.h`): its connection is closed in the next turn. Returns 0,
    /// or the code of `NoViewer` where none has the number, or that of `OutOfMemory`.
    pub fn close_viewer(&mut self, viewer: u64) -> i32
        ensures { LetsGo viewer self.old self.new result }
    {
        let Some(events) = &mut self.events else {
            return SHUT;
        };
        closed_code(events.close_viewer(viewer))
    }

    /// Puts the address that a viewer's connection comes from, in digits as `127.0.0.1` or `::1`, at the room's start, as much of it as
    /// fits (`host` of `rfbClientRec` in `rfb.h`). Returns how many bytes that are; the rest of the room stays. Returns `NoViewer`'s code
    /// where it isn't connected, `OutOfMemory`'s where memory for the digits is refused, and `NETWORK_FAILED` where the system doesn't
    /// tell, as of a socket of UNIX.
    pub fn viewer_address(&mut self, viewer: u64, room: &mut [u8]) -> i32
        ensures { TellsAddress viewer self.old self.new room.old room.new result }
    {
        let Some(events) = &self.events else {
            return SHUT;
        };
        let Some(told) = events.viewer_address(viewer) else {
            return code_of(ScreenError::NoViewer);
        };
        let Ok(address) = told else {
            return NETWORK_FAILED;
        };
        show_address(self.alloc, address.ip(), room)
    }

    /// Puts what moved of a viewer at the room's start, in four numbers, as many as fit, and returns how many; the rest of the room stays: the
    /// bytes that were read from it, those that were written to it, the updates that were cut for it, and for how many milliseconds it had said
    /// nothing by the last turn. Returns `NoViewer`'s code where none has the number.
    pub fn traffic(&mut self, viewer: u64, room: &mut [u64]) -> i32
        ensures { ShowsTraffic viewer self.old self.new room.old room.new result }
    {
        let Some(events) = &self.events else {
            return SHUT;
        };
        match events.viewer_traffic(viewer) {
            Some(traffic) => copy_to(room, &numbers_of(&traffic, events.last_turn())) as i32,
            None => code_of(ScreenError::NoViewer),
        }
    }

    /// Returns the system's handle that is ready to be read where a turn has something to do that came over the network.
    pub fn fd(&mut self) -> i32
        ensures { TellsSome self.old self.new result }
    {
        match &self.events {
            Some(events) => events.as_raw_fd(),
            None => SHUT,
        }
    }

    /// Returns for how many milliseconds a turn without end would wait now where nothing comes over the network, at most 2^31 - 1, which
    /// also stands for no end; `CLOCK_FAILED` where the system doesn't tell the time.
    pub fn timeout(&mut self) -> i32
        ensures { TellsWait self.old self.new result }
    {
        let Some(events) = &self.events else {
            return SHUT;
        };
        match events.longest_wait(&SystemClock) {
            Ok(wait) => milliseconds_of(wait),
            Err(_) => CLOCK_FAILED,
        }
    }
}
