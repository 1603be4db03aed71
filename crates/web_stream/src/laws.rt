//! Laws of the reading.

ghost use Rattle.web_stream.specs.Spelled.{AnswersPings, ReadsFrames};

/// Proves that each data frame of a client is read as its payload, where it isn't a fault: the payloads of several are then read one behind
/// the other (RFC 6455, sections 5.2 and 5.3).
pub fn reads_frames()
    ensures { ReadsFrames }
{}

/// Proves that a client's ping gives no payload, and that a pong with its payload waits then to be written (RFC 6455, sections 5.5.2 and
/// 5.5.3): `flush` writes it.
pub fn answers_pings()
    ensures { AnswersPings }
{}
