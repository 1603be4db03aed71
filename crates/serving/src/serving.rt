//! The whole server: a thread that accepts, threads for each viewer, and the application's.

ghost use Rattle.std.specs.Prelude.{◌≡◌, ◌≤◌, IfOk, length, max, min};
ghost use Rattle.serving.specs.Serving.{AreNumbered, Gives};

use crate::accepting::{accept_all, end_all};
use crate::application::{Application, run_application};
use crate::open_connections::OpenConnections;
use crate::stop::{Door, Stop};
use input_queue::{InputEnds, InputHub, SeatMaker, Taker};
use receipts::Receipt;
use screen::ScreenError;
use std::alloc::{AllocError, AllocFailed, Global};
use std::net::{Net, TcpListener};
use std::sync::Wait;
use std::sync::ledger::Ledger;
use std::thread;
use std::thread::{Promise, Scope, Threads};
use std::time::Clock;
use update_sender::{Brush, Shared};

/// How many inputs may wait for the application where nothing else is said. One that comes while so many wait is dropped.
pub const INPUTS: usize = 65_536;

/// Why a server ended before its viewers did.
#[derive(Clone, Copy, Debug, PartialEq, Eq)]
pub enum ServeError {
    /// No thread that accepts could be started, or there was no descriptor to wake it by.
    Network,
    /// A call of the screen was refused, or memory was.
    Screen(ScreenError),
}

impl From<ScreenError> for ServeError {
    fn from(refusal: ScreenError) -> ServeError {
        ServeError::Screen(refusal)
    }
}

impl From<AllocError> for ServeError {
    fn from(_error: AllocError) -> ServeError {
        ServeError::Screen(ScreenError::OutOfMemory)
    }
}

impl<T: Drop> From<AllocFailed<T>> for ServeError {
    fn from(_error: AllocFailed<T>) -> ServeError {
        ServeError::Screen(ScreenError::OutOfMemory)
    }
}

/// What the threads of a server share.
#[derive(Drop)]
pub(crate) struct Server<'s, L: Ledger> {
    pub alloc: Global,
    pub shared: &'s Shared<L>,
    // where the viewers' inputs wait for the application
    pub ends: &'s InputEnds,
    pub connections: &'s OpenConnections,
}

/// Which viewers a server takes.
#[derive(Clone, Copy)]
pub(crate) enum Plan {
    /// So many in all, whose receipts are kept.
    InAll(u64),
    /// So many at once, without end.
    AtOnce(usize),
}

/// The inputs' queue: what threads share of it, what makes its seats, and its taker.
#[derive(Drop)]
struct Seating {
    ends: InputEnds,
    maker: SeatMaker,
    taker: Taker,
}

/// Makes a queue of so many inputs, 1 to 65,536.
fn seating_for(alloc: Global, inputs: usize) -> Result<Seating, AllocError>
    ensures maker { IfOk result (λ q. q.maker.queue ≡ q.ends.queue) }
    ensures taker { IfOk result (λ q. q.taker.queue ≡ q.ends.queue) }
    ensures capacity { IfOk result (λ q. q.ends.capacity ≡ min (max inputs 1) 65536) }
{
    // the capacity is one that a hub may have
    let Ok((hub, taker)) = InputHub::new(alloc, inputs.max(1).min(INPUTS)) else {
        return Err(AllocError);
    };
    let (ends, maker) = hub.split();
    Ok(Seating { ends, maker, taker })
}

/// The thread that accepts gives the receipts of a plan.
#[derive(Clone, Copy)]
struct ReceiptsOf {
    plan: Plan,
    may_stop: bool,
}

impl Promise<Result<Vec<Receipt>, ServeError>> for ReceiptsOf {
    ghost use Rattle.std.specs.Prelude.{IfOk};
    ghost use Rattle.serving.specs.Serving.{Gives};

    ghost kept_by = { λ p result. IfOk result (λ receipts. Gives p.plan p.may_stop receipts.items) };
}

/// Accepts connections by a plan in a thread of a scope, while the application is told inputs in this one. Where no thread can be started,
/// nothing is accepted.
fn serve_seats<'s, E, L, A, R>(
    rt: &'s R,
    server: &Server<'s, L>,
    door: &Door<'s>,
    maker: SeatMaker,
    plan: Plan,
    brush: &mut Brush<L>,
    mut taker: Taker,
    application: &mut A,
    scope: &Scope<'s, E>,
) -> Result<Vec<Receipt>, ServeError>
where
    L: Ledger + Send + Sync + 's,
    A: Application<L>,
    R: Threads + Wait + Net + Clock + Sync + 's,
    requires maker { maker.queue ≡ server.now.ends.now.queue }
    requires taker { taker.queue ≡ server.now.ends.now.queue }
    ensures { IfOk result (λ receipts. Gives plan door.now.may_stop receipts.items) }
{
    let Server {
        alloc,
        shared,
        ends,
        connections,
    } = *server;
    let Door {
        listener,
        stop,
        may_stop,
    } = *door;
    let accepting = scope.spawn_with(
        ReceiptsOf { plan, may_stop },
        move || -> Result<Vec<Receipt>, ServeError>
            requires { maker.queue ≡ ends.now.queue }
            ensures { IfOk result (λ receipts. Gives plan may_stop receipts.items) }
        {
            let server = Server {
                alloc,
                shared,
                ends,
                connections,
            };
            let door = Door {
                listener,
                stop,
                may_stop,
            };
            let receipts = accept_all(rt, server, &door, maker, plan);
            ends.close();
            receipts
        },
    );
    let Ok(accepting) = accepting else {
        return Err(ServeError::Network);
    };
    let drawn = run_application(
        rt,
        shared,
        brush,
        ends,
        connections,
        &mut taker,
        application,
    );
    if drawn.is_err() {
        end_all(rt, server);
    }
    let receipts = accepting.join(rt);
    drawn?;
    receipts
}

/// Serves by a plan, where so many inputs may wait for the application.
fn serve_by<L, A, R>(
    rt: &R,
    alloc: Global,
    door: &Door<'_>,
    shared: &Shared<L>,
    brush: &mut Brush<L>,
    plan: Plan,
    inputs: usize,
    application: &mut A,
) -> Result<Vec<Receipt>, ServeError>
where
    L: Ledger + Send + Sync,
    A: Application<L>,
    R: Threads + Wait + Net + Clock + Sync,
    ensures { IfOk result (λ receipts. Gives plan door.now.may_stop receipts.items) }
{
    let Seating { ends, maker, taker } = seating_for(alloc, inputs)?;
    let Some(connections) = OpenConnections::new(alloc) else {
        return Err(ServeError::Network);
    };
    let Door {
        listener,
        stop,
        may_stop,
    } = *door;
    let (ends, connections) = (&ends, &connections);
    thread::scope(
        thread::scope_env(),
        rt,
        move |scope| -> Result<Vec<Receipt>, ServeError>
            requires maker { maker.queue ≡ ends.now.queue }
            requires taker { taker.queue ≡ ends.now.queue }
            ensures { IfOk result (λ receipts. Gives plan may_stop receipts.items) }
        {
            let server = Server {
                alloc,
                shared,
                ends,
                connections,
            };
            let door = Door {
                listener,
                stop,
                may_stop,
            };
            serve_seats(
                rt,
                &server,
                &door,
                maker,
                plan,
                brush,
                taker,
                application,
                scope,
            )
        },
    )
}

/// Accepts so many connections, and serves each as a viewer until it ends; they are numbered from 1 on. The application is told
/// their inputs, in this thread. The viewers' receipts by number, once all have ended. A viewer has 10 seconds for its opening, and
/// keepalive tells where one's machine is gone. Connections that come after the last, while viewers are served, are told that there
/// are too many.
///
/// What the system refuses costs at most the connection that it is refused for. Where it has no descriptor, connections wait to be
/// accepted. One for which there is no memory is closed, and doesn't count. One for which no thread can be started is shut, and
/// counts. Accepting then rests for a tenth of a second, so a listener that is broken for good is tried ten times a second until the
/// application ends the server.
///
/// Where a call of the screen is refused, as one of the application's, all connections are shut, and everything ends.
///
/// 65,536 inputs may wait for the application. It is told when a viewer left, and how many of its inputs were dropped.
pub fn serve_viewers<L, A, R>(
    rt: &R,
    alloc: Global,
    listener: &TcpListener,
    shared: &Shared<L>,
    brush: &mut Brush<L>,
    viewers: u64,
    application: &mut A,
) -> Result<Vec<Receipt>, ServeError>
where
    L: Ledger + Send + Sync,
    A: Application<L>,
    R: Threads + Wait + Net + Clock + Sync,
    ensures { IfOk result (λ receipts. AreNumbered viewers receipts.items) }
{
    serve_viewers_with_queue(
        rt,
        alloc,
        listener,
        shared,
        brush,
        viewers,
        INPUTS,
        application,
    )
}

/// Serves as `serve_viewers` does, where so many inputs may wait for the application, at least 1 and at most 65,536. The room for all of
/// them is taken at the start: 4.1 MB for 65,536.
pub fn serve_viewers_with_queue<L, A, R>(
    rt: &R,
    alloc: Global,
    listener: &TcpListener,
    shared: &Shared<L>,
    brush: &mut Brush<L>,
    viewers: u64,
    inputs: usize,
    application: &mut A,
) -> Result<Vec<Receipt>, ServeError>
where
    L: Ledger + Send + Sync,
    A: Application<L>,
    R: Threads + Wait + Net + Clock + Sync,
    ensures { IfOk result (λ receipts. AreNumbered viewers receipts.items) }
{
    let never = Stop::never();
    let door = Door {
        listener,
        stop: &never,
        may_stop: false,
    };
    let plan = Plan::InAll(viewers);
    serve_by(rt, alloc, &door, shared, brush, plan, inputs, application)
}

/// Serves as `serve_viewers_with_queue` does, and ends early once `stop` is called: with the receipts of the viewers that came until then,
/// numbered from 1 on, in order. All connections are shut then, and it returns as soon as all threads have ended, within a second unless
/// the application takes longer for what it is told.
pub fn serve_viewers_until<L, A, R>(
    rt: &R,
    alloc: Global,
    listener: &TcpListener,
    shared: &Shared<L>,
    brush: &mut Brush<L>,
    viewers: u64,
    inputs: usize,
    stop: &Stop,
    application: &mut A,
) -> Result<Vec<Receipt>, ServeError>
where
    L: Ledger + Send + Sync,
    A: Application<L>,
    R: Threads + Wait + Net + Clock + Sync,
    ensures { IfOk result (λ receipts. AreNumbered (length receipts.items) receipts.items × (length receipts.items ≤ viewers)) }
{
    let door = Door {
        listener,
        stop,
        may_stop: true,
    };
    let plan = Plan::InAll(viewers);
    serve_by(rt, alloc, &door, shared, brush, plan, inputs, application)
}

/// Serves viewers without end, at most `viewers` at once, until `stop` is called or a call of the screen is refused. They are numbered
/// from 1 on as they come. The application is told their inputs, in this thread, and of each that left. A connection that comes while so
/// many are there is told that there are too many, and closed. One that never opens has its place for 10 seconds at most, and the
/// application is told nothing of it. What an ended viewer held is given back while the server goes on, its receipt too.
///
/// What the system refuses costs at most the connection that it is refused for, as for `serve_viewers`. `inputs` may wait for the
/// application, at least 1 and at most 65,536.
///
/// Once it is stopped all connections are shut, and it returns as soon as all threads have ended, within a second unless the application
/// takes longer for what it is told. `Network` where no thread that accepts could be started, or there was no descriptor to wake it by;
/// `Screen` where a call of the screen was refused, as one of the application's: then everything is ended too.
pub fn serve_forever<L, A, R>(
    rt: &R,
    alloc: Global,
    listener: &TcpListener,
    shared: &Shared<L>,
    brush: &mut Brush<L>,
    viewers: usize,
    inputs: usize,
    stop: &Stop,
    application: &mut A,
) -> Result<(), ServeError>
where
    L: Ledger + Send + Sync,
    A: Application<L>,
    R: Threads + Wait + Net + Clock + Sync,
{
    let door = Door {
        listener,
        stop,
        may_stop: true,
    };
    let plan = Plan::AtOnce(viewers);
    serve_by(rt, alloc, &door, shared, brush, plan, inputs, application)?;
    Ok(())
}
