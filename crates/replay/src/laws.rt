//! What was recorded is read back.

ghost use Rattle.replay.specs.Claims.{good_lines_are_read, lines_are_read, sessions_are_read, beginnings_are_sessions, said_is_answered_alike, accepted_is_sent, accepted_is_sound, recorded_is_replayed, redacted_is_read, secrets_are_not_written};

/// Proves that the line of a sound event is one line, and says the event; and so does that of a sound configuration.
pub fn lines_are_read()
    ensures { lines_are_read }
{}

/// Proves that what is read of a session's text is the session: all of it, and of its first lines the first events.
pub fn sessions_are_read()
    ensures { sessions_are_read }
{}

/// Proves that a session's text that was cut anywhere is read as a session of the first events, or has not the line of its screen.
pub fn beginnings_are_sessions()
    ensures { beginnings_are_sessions }
{}

/// Proves that what a session says is answered as what was recorded: the byte above a colour, which isn't said, changes nothing.
pub fn said_is_answered_alike()
    ensures { said_is_answered_alike }
{}

/// Proves that what happened sends each viewer what all events send it: a refused event, and a cut that gave nothing, sent nothing.
pub fn accepted_is_sent()
    ensures { accepted_is_sent }
{}

/// Proves that what happened is sound, so its lines are read back: of values of their types, a screen refuses what a line can't say.
pub fn accepted_is_sound()
    ensures { accepted_is_sound }
{}

/// Proves that what is read of a record sends each viewer what it was sent. Of a record that was cut anywhere, or of its first lines, it
/// sends a beginning of that.
pub fn recorded_is_replayed()
    ensures { recorded_is_replayed }
{}

/// Proves that what is read of a redacted text is the redacted session. So each viewer is sent the same bytes by it, and the same is
/// drawn.
pub fn redacted_is_read()
    ensures { redacted_is_read }
{}

/// Proves that the redacted text is the same whichever a secret byte of a line is.
pub fn secrets_are_not_written()
    ensures { secrets_are_not_written }
{}

/// Proves that where no line is bad for a question, what was read is a session, or there is no screen yet.
pub fn good_lines_are_read()
    ensures { good_lines_are_read }
{}
