//! One viewer, from its connection to its receipt.

ghost use Rattle.std.specs.Prelude.{◌≡◌};
ghost use Rattle.serving.specs.Connection.{IsReadHalf, IsServed, IsServedOpen, IsWriteHalf};
ghost use Rattle.serving.specs.Reasons.{ended_late};

use crate::application::Departed;
use crate::open_connections::OpenConnections;
use crate::opening_time::OpeningStream;
use crate::serving::Server;
use crate::socket::Connection;
use input_queue::{InputEnds, InputSeat};
use receipts::{Ended, Receipt};
use screen::ScreenError;
use std::io::{Read, Write};
use std::snapshot::Snapshot;
use std::sync::Wait;
use std::sync::ledger::Ledger;
use std::thread;
use std::thread::{Promise, Scope, Threads};
use std::time::{Clock, Duration, Instant};
use update_sender::{
    Line, Listener, OpenGate, Opened, ReadHalf, Shared, Speaker, WriteHalf, receipt,
    serve_listener, serve_opening, serve_sender,
};

/// How many milliseconds a closing that is refused for memory is let wait.
const RETRY: u64 = 10;

/// Closes a viewer whose reader or opening ended, if it is open still: where that was refused for memory, again after a little while,
/// until there is some. Else its sender would wait for an update that nobody can be sent.
fn close_at_last<L: Ledger, R: Wait + Clock>(rt: &R, shared: &Shared<L>, viewer: u64) {
    for _ in rt.forever() {
        match shared.close(rt, viewer) {
            Err(ScreenError::OutOfMemory) => thread::sleep(rt, Duration::from_millis(RETRY)),
            // It is closed, or was before.
            Ok(()) | Err(_) => return,
        }
    }
}

/// Opens a viewer, and serves it by a reader and a sender thread until both have ended. The connection is shut then. An opening that
/// took 10 seconds is over: its viewer is closed, with `Closed` for its reason unless an answer was still being written.
///
/// Returns the viewer's receipt, and the reader and the writer as they are then. Whatever reads and writes, the receipt tells what was
/// read of it and written to it.
pub(crate) fn serve_connection<L, R, Rd, W>(
    rt: &R,
    server: &Server<'_, L>,
    line: Line,
    reader: Rd,
    writer: W,
    seat: InputSeat,
) -> (Receipt, Rd, W)
where
    L: Ledger + Send + Sync,
    R: Threads + Wait + Clock + Sync,
    Rd: Read + Connection + Drop,
    W: Write + Connection + Send + Drop,
    requires queue { seat.queue ≡ server.now.ends.now.queue }
    requires viewer { seat.viewer ≡ line.listener.viewer }
    ensures viewer { result.0.viewer ≡ line.listener.viewer }
    ensures served { IsServed (Rd.remaining reader) (Rd.remaining result.1) (W.contents writer) (W.contents result.2) line result.0 }
{
    // Without this an answer may wait for the next one. Where the system refuses it, all else stays.
    let _set = writer.send_at_once();
    let began = Instant::now(rt).ok();
    let mut reader = OpeningStream::new(rt, reader, began);
    let mut writer = OpeningStream::new(rt, writer, began);
    let opened = serve_opening(rt, server.shared, line, &mut reader, &mut writer);
    let is_late = reader.is_late();
    let (reader, writer) = (reader.into_stream(), writer.into_stream());
    match opened {
        Opened::Ready(listener, speaker) => {
            wait_without_end(&reader, &writer);
            serve_open(rt, server, listener, speaker, reader, writer, seat)
        }
        Opened::Over(receipt, parting) => {
            if !parting.is_gone() {
                close_at_last(rt, server.shared, receipt.viewer);
            }
            reader.shut();
            (ended_late(receipt, is_late), reader, writer)
        }
    }
}

/// Lets a viewer that is open take its time.
fn wait_without_end<Rd: Connection, W: Connection>(reader: &Rd, writer: &W) {
    let _set = reader.limit_reads(None);
    let _set = writer.limit_writes(None);
}

/// Returns the receipt of an opening that is over: one whose reader had no time left was closed by the server.
fn ended_late(mut receipt: Receipt, is_late: bool) -> Receipt
    ensures { result ≡ record receipt { ended = ended_late is_late receipt.ended } }
{
    if is_late && receipt.ended == Ended::ReadFailed {
        receipt.ended = Ended::Closed;
    }
    receipt
}

/// A sender's thread gives a half that tells what this speaker cut and wrote, on a writer that was so, and that writer.
#[derive(Drop)]
struct SentBy<W> {
    speaker: Snapshot<Speaker>,
    writer: Snapshot<W>,
}

impl<W: Write> Promise<(WriteHalf, W)> for SentBy<W> {
    ghost use Rattle.serving.specs.Connection.{IsWriteHalf};

    ghost kept_by = { λ p result. IsWriteHalf (W.contents p.writer.value) (W.contents result.1) p.speaker.value result.0 };
}

/// Runs the viewer's two threads. Whichever ends first ends the other one. Returns the viewer's receipt, its reader and its writer.
fn serve_open<L, R, Rd, W>(
    rt: &R,
    server: &Server<'_, L>,
    listener: Listener,
    speaker: Speaker,
    reader: Rd,
    writer: W,
    seat: InputSeat,
) -> (Receipt, Rd, W)
where
    L: Ledger + Send + Sync,
    R: Threads + Wait + Clock + Sync,
    Rd: Read + Connection + Drop,
    W: Write + Connection + Send + Drop,
    requires seat { seat.queue ≡ server.now.ends.now.queue }
    requires own { seat.viewer ≡ listener.viewer }
    requires viewer { listener.viewer ≡ speaker.viewer }
    ensures viewer { result.0.viewer ≡ speaker.viewer }
    ensures served { IsServedOpen (Rd.remaining reader) (Rd.remaining result.1) (W.contents writer) (W.contents result.2) listener speaker result.0 }
{
    let (shared, ends, connections) = (server.shared, server.ends, server.connections);
    let ((read, reader), (write, writer)) = thread::scope(
        thread::scope_env(),
        rt,
        move |scope| -> ((ReadHalf, Rd), (WriteHalf, W))
            requires queue { seat.queue ≡ ends.now.queue }
            requires viewer { seat.viewer ≡ listener.viewer }
            ensures read { IsReadHalf (Rd.remaining reader) (Rd.remaining result.0.1) listener result.0.0 }
            ensures write { IsWriteHalf (W.contents writer) (W.contents result.1.1) speaker result.1.0 }
        {
            serve_halves(
                rt,
                shared,
                listener,
                speaker,
                reader,
                writer,
                ends,
                connections,
                seat,
                scope,
            )
        },
    );
    (receipt(Some(read), None, write).0, reader, writer)
}

/// Does the same in a scope: the sender in a thread of it, the reader in this one. Where no thread can be started, the connection is
/// shut, and both find it so. Returns the two halves, each with its end of the connection.
fn serve_halves<'s, E, L, R, Rd, W>(
    rt: &'s R,
    shared: &'s Shared<L>,
    listener: Listener,
    speaker: Speaker,
    reader: Rd,
    writer: W,
    ends: &InputEnds,
    connections: &OpenConnections,
    seat: InputSeat,
    scope: &Scope<'s, E>,
) -> ((ReadHalf, Rd), (WriteHalf, W))
where
    L: Ledger + Send + Sync + 's,
    R: Threads + Wait + Clock + Sync + 's,
    Rd: Read + Connection,
    W: Write + Connection + Send + Drop + 's,
    requires queue { seat.queue ≡ ends.now.queue }
    requires viewer { seat.viewer ≡ listener.viewer }
    ensures read { IsReadHalf (Rd.remaining reader) (Rd.remaining result.0.1) listener result.0.0 }
    ensures write { IsWriteHalf (W.contents writer) (W.contents result.1.1) speaker result.1.0 }
{
    let promise = SentBy {
        speaker: Snapshot::of(&speaker),
        writer: Snapshot::of(&writer),
    };
    let sender = scope.spawn_with(
        promise,
        move || -> (WriteHalf, W)
            ensures { IsWriteHalf (W.contents writer) (W.contents result.1) speaker result.0 }
        { write_half(rt, shared, speaker, writer) },
    );
    match sender {
        Ok(sender) => {
            let read = read_half(rt, shared, listener, reader, ends, connections, seat);
            (read, sender.join(rt))
        }
        Err(refused) => {
            reader.shut();
            let read = read_half(rt, shared, listener, reader, ends, connections, seat);
            (read, (refused.value)())
        }
    }
}

/// Has the application told that what a viewer held is let go. Where its queue is full, this is tried again after a little while, until
/// there is room, or all connections were shut.
fn let_go<R: Wait + Clock>(
    rt: &R,
    ends: &InputEnds,
    connections: &OpenConnections,
    seat: &mut InputSeat,
)
    requires { seat.old.queue ≡ ends.now.queue }
{
    for _ in rt.forever() {
        if ends.let_go(rt, seat) || connections.are_shut(rt) {
            return;
        }
        thread::sleep(rt, Duration::from_millis(RETRY));
    }
    unreachable!()
}

/// Runs the reader's thread. Returns the reader too.
fn read_half<L: Ledger, R: Wait + Clock, Rd: Read + Connection>(
    rt: &R,
    shared: &Shared<L>,
    listener: Listener,
    mut reader: Rd,
    ends: &InputEnds,
    connections: &OpenConnections,
    seat: InputSeat,
) -> (ReadHalf, Rd)
    requires queue { seat.queue ≡ ends.now.queue }
    requires viewer { seat.viewer ≡ listener.viewer }
    ensures { IsReadHalf (Rd.remaining reader) (Rd.remaining result.1) listener result.0 }
{
    let mut half = serve_listener(rt, shared, listener, &mut reader, ends, seat);
    reader.shut();
    close_at_last(rt, shared, half.viewer);
    let_go(rt, ends, connections, &mut half.seat);
    let departed = Departed {
        viewer: half.viewer,
        dropped: half.dropped,
    };
    connections.depart(rt, departed);
    ends.wake();
    (half, reader)
}

/// Runs the sender's thread. Returns the writer too.
fn write_half<L: Ledger, R: Wait, W: Write + Connection>(
    rt: &R,
    shared: &Shared<L>,
    speaker: Speaker,
    mut writer: W,
) -> (WriteHalf, W)
    ensures { IsWriteHalf (W.contents writer) (W.contents result.1) speaker result.0 }
{
    let half = serve_sender(rt, shared, speaker, &mut writer, &OpenGate);
    writer.shut();
    (half, writer)
}
