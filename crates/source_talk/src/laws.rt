//! Laws of the conversation.

ghost use Rattle.source_talk.specs.Readings.{opening_is_read, heard_stays, answers_stay, opening_is_short, MessagesAreSpelled};

/// Proves that an opening which the RFC reads, in the version that it is spoken in, is open, and the picture has that size.
pub fn opening_is_read()
    ensures { opening_is_read }
{}

/// Proves that what was heard stays heard, whatever comes behind it.
pub fn heard_stays()
    ensures { heard_stays }
{}

/// Proves that what a source is answered is only added to, whatever it says.
pub fn answers_stay()
    ensures { answers_stay }
{}

/// Proves that an opening that isn't over has fewer than 531 bytes.
pub fn opening_is_short()
    ensures { opening_is_short }
{}

/// Proves that the messages to a source say what they are to say, by RFC 6143, section 7.5.
pub fn messages_are_spelled()
    ensures { MessagesAreSpelled }
{}
