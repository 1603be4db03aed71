ghost use Rattle.play_script.specs.Claims.{bytes_are_read, viewers_are_read, events_are_answered};

/// Proves that what is printed of bytes and of a viewer's number is what a line says of them.
pub fn printed_is_read()
    ensures bytes { bytes_are_read }
    ensures viewers { viewers_are_read }
{}

/// Proves that what a screen and events print is the answer to each event.
pub fn answers_are_printed()
    ensures { events_are_answered }
{}
