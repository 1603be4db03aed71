//! What is done for one connection in a turn: a piece is read and heard, and what waits is written, with updates that are cut as
//! there is room for them.

ghost use Rattle.std.specs.Prelude.{◌≡◌, ◌⊎◌, ◌*◌, [], List, Some, true, false, IfSome, IsTrue};
ghost use Rattle.receipts.specs.declared.Ended.TheVariants as ended;
ghost use Rattle.screen.specs.declared.Config.{Config};
ghost use Rattle.screen.specs.declared.Event.{Event};
ghost use Rattle.screen.specs.Answers.{answer_to};
ghost use Rattle.screen.specs.State.{state};
ghost use Rattle.connection.specs.Waiting.{waiting_bytes};
ghost use Rattle.connection.specs.Bounds.{AreWrittenAtMost, AreReadAtMost};
ghost use Rattle.connections.specs.Drawing.{Draws};
ghost use Rattle.connection.specs.Connection.{breaks_off};
ghost use Rattle.held_inputs.specs.Held.{after, roomy};
ghost use Rattle.connection.specs.Holding.{held_behind};
ghost use Rattle.connections.specs.Telling.{releases, said_by, told_behind, told_for, IsTold};
ghost use Rattle.connections.specs.Turns.{HearsPiece, TakesTurn, TakesTurnTelling};

use crate::application::Application;
use crate::canvas::Canvas;
use connection::{Connection, Got, Transport};
use held_inputs::{Change, HeldInputs};
use receipts::Ended;
use screen::{Input, ScreenError, held_as_alone};

/// How many bytes are read and heard at once, at most: 12 requests, or 21 pointers. Hearing a request costs as much as a small
/// update does, and who floods a screen holds up the others by a piece in one turn of eight. Viewers that don't say less
/// at once.
pub(crate) const PIECE: usize = 128;

/// How many writes, each of 64 KB at most, are made for a viewer in one turn.
const WRITES: u32 = 4;

/// Reads a piece of a viewer's bytes, where there may be some, and hears it; the application is told its inputs.
pub(crate) fn listen<T: Transport, A: Application>(
    canvas: &mut Canvas,
    connection: &mut Connection<T>,
    buffer: &mut [u8; PIECE],
    now: u64,
    application: &mut A,
) -> Result<(), ScreenError>
    ensures turn { TakesTurnTelling A.stands canvas.old connection.old canvas.new connection.new application.old application.new result }
    ensures bound { AreReadAtMost 128 connection.old.carried.unread connection.new.carried.unread }
{
    if !connection.may_read() {
        return Ok(());
    }
    match connection.receive(buffer, now) {
        Got::Piece(count) => hear(canvas, connection, &buffer[..count], application),
        _ => Ok(()),
    }
}

/// Hears a piece that was read, and tells the application its inputs.
fn hear<T: Transport, A: Application>(
    canvas: &mut Canvas,
    connection: &mut Connection<T>,
    piece: &[u8],
    application: &mut A,
) -> Result<(), ScreenError>
    ensures heard { HearsPiece A.stands piece.now canvas.old connection.old canvas.new connection.new application.old application.new result }
    ensures carried { connection.new.carried ≡ connection.old.carried }
    ensures fault { (config : Config) (list : List Event) → canvas.old.screen ≡ state config list →
        IfSome (answer_to config list (Event.Hear connection.old.number piece.now)).closed (λ fault. (connection.new.ended ≡ Some (ended.Fault fault)) ⊎ (connection.new.ended ≡ Some ended.Memory)) }
{
    let viewer = connection.number();
    let full_requests = canvas.full_requests(viewer);
    let Ok(()) = connection.make_room(piece) else {
        connection.end(Ended::Memory);
        return Ok(());
    };
    let Ok(answer) = canvas.hear(viewer, piece) else {
        connection.end(Ended::Memory);
        return Ok(());
    };
    let inputs = answer.inputs.as_slice();
    connection.count_piece(piece);
    connection.give(answer.bytes.as_slice(), answer.closed);
    tell(canvas, connection, inputs, full_requests, application)
}

/// Tells the application an input of a viewer, and before it the release of a key that is let go so that another may go down.
fn tell_input<T: Transport, A: Application>(
    canvas: &mut Canvas,
    connection: &mut Connection<T>,
    input: &Input,
    application: &mut A,
) -> Result<(), ScreenError>
    ensures draws { Draws canvas.old canvas.new }
    ensures same { connection.new ≡ record connection.old { held = connection.new.held } }
    ensures held { connection.new.held ≡ after (roomy connection.old.held) input.now }
    ensures told { IsTold A.stands (said_by connection.old.number (told_for connection.old.held input.now)) application.old application.new result }
{
    let viewer = connection.number();
    if let Some(release) = connection.hold(input) {
        application.on_input(canvas, viewer, &release)?;
    }
    application.on_input(canvas, viewer, input)
}

/// Does the same with inputs in order. The viewer holds down what all of them leave, even where an error ends the telling.
fn tell_inputs<T: Transport, A: Application>(
    canvas: &mut Canvas,
    connection: &mut Connection<T>,
    inputs: &[Input],
    application: &mut A,
) -> Result<(), ScreenError>
    ensures draws { Draws canvas.old canvas.new }
    ensures same { connection.new ≡ record connection.old { held = connection.new.held } }
    ensures held { connection.new.held ≡ held_behind connection.old.held inputs.now }
    ensures told { IsTold A.stands (said_by connection.old.number (told_behind connection.old.held inputs.now)) application.old application.new result }
{
    for index in 0..inputs.len() {
        if let Err(error) = tell_input(canvas, connection, &inputs[index], application) {
            connection.hold_all(&inputs[index + 1..]);
            return Err(error);
        }
    }
    Ok(())
}

/// Tells the application a viewer's inputs, in order, and whether there are more full requests of it now than there were.
fn tell<T: Transport, A: Application>(
    canvas: &mut Canvas,
    connection: &mut Connection<T>,
    inputs: &[Input],
    full_requests: u64,
    application: &mut A,
) -> Result<(), ScreenError>
    ensures draws { Draws canvas.old canvas.new }
    ensures same { connection.new ≡ record connection.old { held = connection.new.held } }
    ensures held { connection.new.held ≡ held_behind connection.old.held inputs.now }
    ensures told { IsTold A.stands (said_by connection.old.number (told_behind connection.old.held inputs.now)) application.old application.new result }
{
    tell_inputs(canvas, connection, inputs, application)?;
    let viewer = connection.number();
    if canvas.has_asked_since(viewer, full_requests) {
        application.asked(canvas, viewer)?;
    }
    Ok(())
}

/// Tells the application the releases of the keys and buttons that a viewer held down when it left.
pub(crate) fn release<A: Application>(
    canvas: &mut Canvas,
    viewer: u64,
    mut held: HeldInputs,
    application: &mut A,
) -> Result<(), ScreenError>
    ensures draws { Draws canvas.old canvas.new }
    ensures told { IsTold A.stands (said_by viewer (releases held)) application.old application.new result }
{
    let nothing = held.let_go();
    while let Some(input) = held.owed(&nothing) {
        application.on_input(canvas, viewer, &input)?;
        held.change(Change::of(&input));
    }
    Ok(())
}

/// Writes what a viewer was given, and cuts further updates for it, as long as its transport takes bytes, in four writes at most. Then its
/// transport writes what it has to say of its own.
pub(crate) fn send<T: Transport>(
    canvas: &mut Canvas,
    connection: &mut Connection<T>,
    buffer: &mut Vec<u8>,
)
    ensures turn { TakesTurn canvas.old connection.old canvas.new connection.new }
    ensures asks { connection.new.known.may_ask ≡ true → connection.old.known.may_ask ≡ true }
    ensures drawn { canvas.new.drawn ≡ canvas.old.drawn }
    ensures bound { AreWrittenAtMost (4 * 65536) connection.old.carried.written connection.new.carried.written }
{
    send_some(canvas, connection, buffer);
    if connection.may_write() {
        let _flushed = connection.flush();
    }
}

/// Writes what a viewer was given, and cuts further updates for it, as long as its transport takes bytes, in four writes at most.
fn send_some<T: Transport>(
    canvas: &mut Canvas,
    connection: &mut Connection<T>,
    buffer: &mut Vec<u8>,
)
    ensures turn { TakesTurn canvas.old connection.old canvas.new connection.new }
    ensures asks { connection.new.known.may_ask ≡ true → connection.old.known.may_ask ≡ true }
    ensures drawn { canvas.new.drawn ≡ canvas.old.drawn }
    ensures bound { AreWrittenAtMost (4 * 65536) connection.old.carried.written connection.new.carried.written }
{
    for _writes in 0..WRITES {
        if !prepare(canvas, connection) {
            return;
        }
        connection.write(buffer);
    }
}

/// Cuts an update if nothing waits and one may be ready, and returns whether a write may take something. An update whose rectangles are
/// being encoded for several viewers is cut in a later turn.
fn prepare<T: Transport>(canvas: &mut Canvas, connection: &mut Connection<T>) -> bool
    ensures turn { TakesTurn canvas.old connection.old canvas.new connection.new }
    ensures asks { connection.new.known.may_ask ≡ true → connection.old.known.may_ask ≡ true }
    ensures drawn { canvas.new.drawn ≡ canvas.old.drawn }
    ensures whole { IsTrue result → breaks_off connection.new.ended ≡ false }
    ensures carried { connection.new.carried ≡ connection.old.carried }
{
    if !connection.may_write() {
        return false;
    }
    if !connection.is_idle() {
        return true;
    }
    if !connection.may_cut() || waits(canvas, connection) {
        return false;
    }
    cut(canvas, connection)
}

/// Returns whether a viewer's next update waits for what is being encoded for several viewers, and encodes some of that.
fn waits<T: Transport>(canvas: &mut Canvas, connection: &mut Connection<T>) -> bool
    ensures canvas { canvas.new ≡ canvas.old }
    ensures connection { connection.new ≡ connection.old }
{
    if connection.ended().is_some() {
        return false;
    }
    match canvas.encode_ahead(connection.number()) {
        Some(losses) => connection.waits(losses),
        None => false,
    }
}

/// Cuts an update for a viewer for which nothing waits, if there is something to send and it hasn't ended. Returns whether it did.
fn cut<T: Transport>(canvas: &mut Canvas, connection: &mut Connection<T>) -> bool
    requires { waiting_bytes connection.old.waiting ≡ [] }
    ensures turn { TakesTurn canvas.old connection.old canvas.new connection.new }
    ensures asks { connection.new.known.may_ask ≡ true → connection.old.known.may_ask ≡ true }
    ensures drawn { canvas.new.drawn ≡ canvas.old.drawn }
    ensures whole { IsTrue result → breaks_off connection.new.ended ≡ false }
    ensures carried { connection.new.carried ≡ connection.old.carried }
{
    let viewer = connection.number();
    if connection.ended().is_some() {
        return false;
    }
    held_as_alone();
    match canvas.cut(viewer) {
        Ok(Some(update)) => {
            connection.start(update, canvas.is_asking(viewer));
            true
        }
        Ok(None) => {
            connection.look(false);
            false
        }
        Err(_) => {
            connection.end(Ended::Memory);
            false
        }
    }
}
