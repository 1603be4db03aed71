//! Pictures, as portable pixmaps (PPM, P6).

ghost use Rattle.std.specs.Prelude.{◌≡◌, ◌++◌, IfOk, IfSome, OnOk, flat_map, ◌<◌};
ghost use Rattle.std.specs.Io.KnownBytes.{Appends};
ghost use Rattle.recorder.specs.Words.{colour_bytes};
ghost use Rattle.replay.specs.declared.replaying.Question.TheVariants as question;
ghost use Rattle.replay.specs.Pictures.{Draws, drawn_in, pixmap, pixmap_head, row_of};
ghost use Rattle.replay.specs.Reading.{ahead, Judged};
ghost use Rattle.replay.specs.Sessions.{said_by};

use crate::replaying::Question;
use crate::session::Session;
use crate::stop::Stop;
use crate::texts::put_number;
use play_script::trouble::{Trouble, print};
use screen::Screen;
use std::alloc::{AllocError, Global};
use std::io::{BufRead, Write};

/// What stands for a place that shows nothing: magenta.
pub(crate) const NOTHING: [u8; 3] = [0xff, 0, 0xff];

/// A row of a picture: three bytes for each place.
pub(crate) type Row = Vec<u8>;

/// Returns what stands before a picture's rows.
fn head_of(alloc: Global, columns: u32, rows: u32) -> Result<Vec<u8>, AllocError>
    ensures { IfOk result (λ head. head.items ≡ pixmap_head columns rows) }
{
    let mut head = Vec::new(alloc);
    head.extend_from_slice(b"P6\n")?;
    put_number(alloc, &mut head, u64::from(columns))?;
    head.extend_from_slice(b" ")?;
    put_number(alloc, &mut head, u64::from(rows))?;
    head.extend_from_slice(b"\n255\n")?;
    Ok(head)
}

/// Writes what stands before a picture's rows.
pub(crate) fn write_head<W: Write>(
    alloc: Global,
    writer: &mut W,
    columns: u32,
    rows: u32,
) -> Result<(), Trouble>
    ensures { OnOk result (Appends (W.contents writer.old) (W.contents writer.new) (pixmap_head columns rows)) }
{
    print(writer, &head_of(alloc, columns, rows)?)
}

/// Returns the red, green and blue of a colour.
fn colour_bytes(colour: u32) -> [u8; 3]
    ensures { result ≡ colour_bytes colour }
{
    [
        (colour / 0x1_0000 % 256) as u8,
        (colour / 256 % 256) as u8,
        (colour % 256) as u8,
    ]
}

/// Appends the bytes of `colours` to `row`.
fn put_colours(colours: &[u32], row: &mut Row) -> Result<(), AllocError>
    ensures { OnOk result (row.new.items ≡ row.old.items ++ flat_map colour_bytes colours.now) }
{
    for colour in colours {
        row.extend_from_slice(&colour_bytes(*colour))?;
    }
    Ok(())
}

/// Writes row `y` of what was drawn, and takes `row` for its bytes.
fn write_row<W: Write>(
    writer: &mut W,
    screen: &Screen,
    y: u32,
    row: &mut Row,
) -> Result<(), Trouble>
    requires { y < screen.now.picture.height }
    ensures { OnOk result (Appends (W.contents writer.old) (W.contents writer.new) (flat_map colour_bytes (row_of screen.now.picture y))) }
{
    let Some(colours) = screen.row(y) else {
        return Ok(());
    };
    row.clear();
    put_colours(colours, row)?;
    print(writer, row)
}

/// Writes a picture of what was drawn.
fn write_screen<W: Write>(alloc: Global, writer: &mut W, screen: &Screen) -> Result<(), Trouble>
    ensures { OnOk result (Appends (W.contents writer.old) (W.contents writer.new) (pixmap screen.now.picture)) }
{
    write_head(alloc, writer, screen.width(), screen.height())?;
    let mut row = Vec::new(alloc);
    for y in 0..screen.height() {
        write_row(writer, screen, y, &mut row)?;
    }
    Ok(())
}

/// Draws to the end of a session, and returns its screen, if it has one.
fn drawn<R: BufRead>(session: &mut Session<'_, R>) -> Result<Option<Screen>, Stop>
    ensures draws { IfOk result (λ screen. IfSome (ahead session.old.left (R.remaining session.old.reader.now)) (Draws screen)) }
    ensures judged { Judged question.Drawn (ahead session.old.left (R.remaining session.old.reader.now)) session.old.number session.new.number result }
{
    let Some(mut screen) = session.open()? else {
        return Ok(None);
    };
    while let Some(_answered) = session.next_answered(&mut screen, Question::Drawn)? {}
    Ok(Some(screen))
}

/// Writes a picture of what was drawn, and nothing where there is no screen.
pub(crate) fn write_drawn<R: BufRead, W: Write>(
    alloc: Global,
    session: &mut Session<'_, R>,
    writer: &mut W,
) -> Result<(), Stop>
    ensures drawn { OnOk result (IfSome (ahead session.old.left (R.remaining session.old.reader.now)) (λ lines.
        Appends (W.contents writer.old) (W.contents writer.new) (drawn_in (said_by lines)))) }
    ensures judged { Judged question.Drawn (ahead session.old.left (R.remaining session.old.reader.now)) session.old.number session.new.number result }
{
    if let Some(screen) = drawn(session)? {
        write_screen(alloc, writer, &screen)?;
    }
    Ok(())
}
