//! Connections are accepted as they come, and each is served at once.

ghost use Rattle.std.specs.Prelude.{◌≡◌, ◌≤◌, [], false, true, IfOk, MatchOption, OnOk, length};
ghost use Rattle.serving.specs.Serving.{AreServed, Gives};
ghost use Rattle.serving.specs.Reasons.{is_passing};
ghost use Rattle.serving.specs.Services.{AreInOrder, viewer_of};

use crate::connection::serve_connection;
use crate::doorbell::Woken;
use crate::open_connections::{OpenConnections, SharedStream, Slot};
use crate::receiving::serve_on;
use crate::service::{ReceiptOf, Service, receipts_of, settle_viewer};
use crate::serving::{Plan, ServeError, Server};
use crate::stop::Door;
use crate::turning_away::turn_away;
use input_queue::{InputSeat, SeatMaker};
use keepalive::keep_alive;
use receipts::Receipt;
use screen::ScreenError;
use std::io::ErrorKind;
use std::net::TcpStream;
use std::sync::ledger::Ledger;
use std::sync::{Arc, Wait};
use std::thread;
use std::thread::{Scope, Threads};
use std::time::{Clock, Duration};
use update_sender::Line;

/// For how many milliseconds accepting rests where the system has nothing to serve a connection with.
const REST: u64 = 100;

/// A connection, where it is kept, and the line of its viewer.
#[derive(Drop)]
pub(crate) struct Caller {
    pub line: Line,
    pub stream: SharedStream,
    pub slot: Slot,
}

/// Waits until there may be more to serve a connection with.
pub(crate) fn rest<R: Clock>(rt: &R) {
    thread::sleep(rt, Duration::from_millis(REST));
}

/// Waits for a connection. None where a bell was rung, and where a connection was gone before it was accepted; and, after a rest,
/// where the system has no descriptor or no memory for it. A listener that is broken for good is tried again ten times a second.
pub(crate) fn next_stream<R: Clock>(
    rt: &R,
    connections: &OpenConnections,
    door: &Door<'_>,
) -> Option<TcpStream> {
    match connections.wait(door.listener, door.stop.bell()) {
        Woken::ByListener => {}
        Woken::ByBell => return None,
        Woken::Refused => {
            rest(rt);
            return None;
        }
    }
    match door.listener.accept() {
        Ok((stream, _address)) => Some(stream),
        Err(error) => {
            if !is_passing(error.kind()) {
                rest(rt);
            }
            None
        }
    }
}

/// Returns whether another connection can be accepted at once where accepting one failed so.
fn is_passing(kind: ErrorKind) -> bool
    ensures { result ≡ is_passing kind }
{
    matches!(
        kind,
        ErrorKind::ConnectionAborted | ErrorKind::Interrupted | ErrorKind::WouldBlock
    )
}

/// Lets a connection in, and connects it as a viewer with this number. Where that is refused, the connection is closed, and the
/// number is free.
pub(crate) fn take_in<L: Ledger, R: Wait>(
    rt: &R,
    server: &Server<'_, L>,
    stream: TcpStream,
    number: u64,
) -> Result<Caller, ServeError>
    ensures { IfOk result (λ caller. caller.line.listener.viewer ≡ number) }
{
    keep_alive(&stream);
    let stream = Arc::new(server.alloc, stream)?;
    let slot = server.connections.admit(rt, &stream)?;
    match server.shared.connect(rt, number) {
        Ok(line) => Ok(Caller { line, stream, slot }),
        Err(refusal) => {
            server.connections.leave(rt, slot);
            Err(ServeError::Screen(refusal))
        }
    }
}

/// Joins the threads of the viewers that have ended.
fn settle_ended<L: Ledger, R: Threads + Wait>(
    rt: &R,
    server: &Server<'_, L>,
    services: &mut Vec<Service>,
)
    requires { AreInOrder (length services.old.items) services.old.items }
    ensures len { length services.new.items ≡ length services.old.items }
    ensures order { AreInOrder (length services.old.items) services.new.items }
{
    for _ in rt.forever() {
        let Some(viewer) = server.connections.take_ended(rt) else {
            return;
        };
        settle_viewer(rt, server.alloc, services, viewer);
    }
    unreachable!()
}

/// Waits for a connection, which gets a number; None where the server was stopped. One for which there is no memory is closed, and costs
/// nobody else anything. What ended viewers held is given back meanwhile. An error where all connections were shut, and where the number
/// is in use.
fn next_caller<L: Ledger, R: Threads + Wait + Clock>(
    rt: &R,
    server: &Server<'_, L>,
    door: &Door<'_>,
    number: u64,
    services: &mut Vec<Service>,
) -> Result<Option<Caller>, ServeError>
    requires { AreInOrder (length services.old.items) services.old.items }
    ensures number { IfOk result (λ caller. MatchOption caller (door.now.may_stop ≡ true) (λ c. c.line.listener.viewer ≡ number)) }
    ensures len { length services.new.items ≡ length services.old.items }
    ensures order { AreInOrder (length services.old.items) services.new.items }
{
    for _ in rt.forever() {
        settle_ended(rt, server, services);
        if door.is_stopped() {
            return Ok(None);
        }
        if server.connections.are_shut(rt) {
            return Err(ServeError::Network);
        }
        let Some(stream) = next_stream(rt, server.connections, door) else {
            continue;
        };
        match take_in(rt, server, stream, number) {
            Ok(caller) => return Ok(Some(caller)),
            Err(ServeError::Screen(ScreenError::OutOfMemory)) => rest(rt),
            Err(error) => return Err(error),
        }
    }
    unreachable!()
}

/// Serves a connection until its viewer has ended; it is not kept any longer then.
fn serve_caller<L: Ledger + Send + Sync, R: Threads + Wait + Clock + Sync>(
    rt: &R,
    server: &Server<'_, L>,
    seat: InputSeat,
    caller: Caller,
) -> Receipt
    requires queue { seat.queue ≡ server.now.ends.now.queue }
    requires viewer { seat.viewer ≡ caller.line.listener.viewer }
    ensures { result.viewer ≡ caller.line.listener.viewer }
{
    let Caller { line, stream, slot } = caller;
    let socket: &TcpStream = &stream;
    let receipt = serve_connection(rt, server, line, socket, socket, seat).0;
    drop(stream);
    server.connections.end(rt, slot, receipt.viewer);
    receipt
}

/// Serves a caller in a thread of a scope. Where none can be started, the connection is shut and served here, which ends at once.
pub(crate) fn start<'s, E, L: Ledger + Send + Sync + 's, R: Threads + Wait + Clock + Sync + 's>(
    rt: &'s R,
    server: &Server<'s, L>,
    number: u64,
    seat: InputSeat,
    caller: Caller,
    scope: &Scope<'s, E>,
) -> Service
    requires queue { seat.queue ≡ server.now.ends.now.queue }
    requires viewer { seat.viewer ≡ caller.line.listener.viewer }
    requires number { caller.line.listener.viewer ≡ number }
    ensures { viewer_of result ≡ number }
{
    let Server {
        alloc,
        shared,
        ends,
        connections,
    } = *server;
    let slot = caller.slot;
    let thread = scope.spawn_with(
        ReceiptOf(number),
        move || -> Receipt
            requires queue { seat.queue ≡ ends.now.queue }
            requires viewer { seat.viewer ≡ caller.line.listener.viewer }
            ensures { result.viewer ≡ caller.line.listener.viewer }
        {
            let server = Server {
                alloc,
                shared,
                ends,
                connections,
            };
            serve_caller(rt, &server, seat, caller)
        },
    );
    match thread {
        Ok(thread) => Service::Running(thread),
        Err(refused) => {
            connections.shut_one(rt, slot);
            let receipt = (refused.value)();
            rest(rt);
            Service::Ended(receipt)
        }
    }
}

/// Tells each connection that comes that there are too many, until no viewer is served, or all were shut, or the server was stopped. What
/// ended viewers held is given back meanwhile.
fn turn_others_away<L: Ledger, R: Threads + Wait + Clock>(
    rt: &R,
    server: &Server<'_, L>,
    door: &Door<'_>,
    services: &mut Vec<Service>,
)
    requires { AreInOrder (length services.old.items) services.old.items }
    ensures len { length services.new.items ≡ length services.old.items }
    ensures order { AreInOrder (length services.old.items) services.new.items }
{
    for _ in rt.forever() {
        settle_ended(rt, server, services);
        if door.is_stopped() || server.connections.are_over(rt) {
            return;
        }
        if let Some(stream) = next_stream(rt, server.connections, door) {
            turn_away(&stream);
        }
    }
    unreachable!()
}

/// Accepts connections by a plan, and serves each in threads of its own; those for which there is no place are turned away. The viewers'
/// receipts by number, where the plan has them kept, once all have ended. On an error, and once the server is stopped, everything is ended:
/// no viewer is waited for longer than it takes to see that its connection is shut.
pub(crate) fn accept_all<L: Ledger + Send + Sync, R: Threads + Wait + Clock + Sync>(
    rt: &R,
    server: Server<'_, L>,
    door: &Door<'_>,
    maker: SeatMaker,
    plan: Plan,
) -> Result<Vec<Receipt>, ServeError>
    requires { maker.queue ≡ server.ends.now.queue }
    ensures { IfOk result (λ receipts. Gives plan door.now.may_stop receipts.items) }
{
    let Server {
        alloc,
        shared,
        ends,
        connections,
    } = server;
    let Door {
        listener,
        stop,
        may_stop,
    } = *door;
    thread::scope(
        thread::scope_env(),
        rt,
        move |scope| -> Result<Vec<Receipt>, ServeError>
            requires { maker.queue ≡ ends.now.queue }
            ensures { IfOk result (λ receipts. Gives plan may_stop receipts.items) }
        {
            let server = Server {
                alloc,
                shared,
                ends,
                connections,
            };
            let door = Door {
                listener,
                stop,
                may_stop,
            };
            let served = accept_by(rt, &server, &door, maker, plan, scope);
            if served.is_err() {
                end_all(rt, &server);
            }
            served
        },
    )
}

/// Does the same in a scope, whose threads may still run after an error.
fn accept_by<'s, E, L: Ledger + Send + Sync + 's, R: Threads + Wait + Clock + Sync + 's>(
    rt: &'s R,
    server: &Server<'s, L>,
    door: &Door<'_>,
    maker: SeatMaker,
    plan: Plan,
    scope: &Scope<'s, E>,
) -> Result<Vec<Receipt>, ServeError>
    requires { maker.queue ≡ server.now.ends.now.queue }
    ensures { IfOk result (λ receipts. Gives plan door.now.may_stop receipts.items) }
{
    match plan {
        Plan::InAll(viewers) => serve_each(rt, server, door, maker, viewers, scope),
        Plan::AtOnce(viewers) => match serve_on(rt, server, door, maker, viewers, scope) {
            Ok(()) => Ok(Vec::new(server.alloc)),
            Err(error) => Err(error),
        },
    }
}

/// Serves so many viewers, and gives their receipts by number once all have ended; fewer where the server was stopped, which ends those
/// that are there.
fn serve_each<'s, E, L: Ledger + Send + Sync + 's, R: Threads + Wait + Clock + Sync + 's>(
    rt: &'s R,
    server: &Server<'s, L>,
    door: &Door<'_>,
    maker: SeatMaker,
    viewers: u64,
    scope: &Scope<'s, E>,
) -> Result<Vec<Receipt>, ServeError>
    requires { maker.queue ≡ server.now.ends.now.queue }
    ensures { IfOk result (λ receipts. AreServed viewers door.now.may_stop receipts.items) }
{
    let mut services = Vec::with_capacity(server.alloc, viewers as usize)?;
    // made now, so that the receipts aren't lost for want of memory at the end
    let receipts = Vec::with_capacity(server.alloc, viewers as usize)?;
    serve_callers(rt, server, door, maker, viewers, &mut services, scope)?;
    turn_others_away(rt, server, door, &mut services);
    if door.is_stopped() {
        end_all(rt, server);
    }
    Ok(receipts_of(rt, services, receipts)?)
}

/// Accepts so many connections, or fewer where the server is stopped, and serves each.
fn serve_callers<'s, E, L: Ledger + Send + Sync + 's, R: Threads + Wait + Clock + Sync + 's>(
    rt: &'s R,
    server: &Server<'s, L>,
    door: &Door<'_>,
    mut maker: SeatMaker,
    viewers: u64,
    services: &mut Vec<Service>,
    scope: &Scope<'s, E>,
) -> Result<(), ServeError>
    requires queue { maker.queue ≡ server.now.ends.now.queue }
    requires none { services.old.items ≡ [] }
    ensures order { OnOk result (AreInOrder (length services.new.items) services.new.items) }
    ensures few { OnOk result (length services.new.items ≤ viewers) }
    ensures all { OnOk result (door.now.may_stop ≡ false → length services.new.items ≡ viewers) }
{
    let mut number = 0u64;
    while number < viewers {
        let next = number + 1;
        let caller = match next_caller(rt, server, door, next, services) {
            Ok(Some(caller)) => caller,
            Ok(None) => return Ok(()),
            Err(error) => return Err(error),
        };
        let seat = maker.seat(server.ends, next);
        services.push(start(rt, server, next, seat, caller, scope))?;
        number = next;
    }
    Ok(())
}

/// Stops all senders, and shuts all connections.
pub(crate) fn end_all<L: Ledger, R: Wait>(rt: &R, server: &Server<'_, L>) {
    server.shared.stop(rt);
    server.connections.shut_all(rt);
}
