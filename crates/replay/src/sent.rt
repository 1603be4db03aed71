//! What a viewer was sent.

ghost use Rattle.std.specs.Prelude.{OnOk, IfSome};
ghost use Rattle.std.specs.Io.KnownBytes.{Appends};
ghost use Rattle.replay.specs.declared.replaying.Question.TheVariants as question;
ghost use Rattle.replay.specs.Reading.{ahead, Judged};
ghost use Rattle.replay.specs.Sessions.{said_by, sent_in};

use crate::replaying::Question;
use crate::session::Session;
use crate::stop::Stop;
use play_script::trouble::print;
use screen::one_viewer_is_alone;
use std::io::{BufRead, Write};

/// Writes the bytes that a viewer was sent.
pub(crate) fn write_sent<R: BufRead, W: Write>(
    session: &mut Session<'_, R>,
    writer: &mut W,
    viewer: u64,
) -> Result<(), Stop>
    ensures sent { OnOk result (IfSome (ahead session.old.left (R.remaining session.old.reader.now)) (λ lines.
        Appends (W.contents writer.old) (W.contents writer.new) (sent_in viewer (said_by lines)))) }
    ensures judged { Judged (question.Sent viewer) (ahead session.old.left (R.remaining session.old.reader.now)) session.old.number session.new.number result }
{
    one_viewer_is_alone();
    let Some(mut screen) = session.open()? else {
        return Ok(());
    };
    while let Some(answered) = session.next_answered(&mut screen, Question::Sent(viewer))? {
        print(writer, answered.answer.bytes.as_slice())?;
    }
    Ok(())
}
