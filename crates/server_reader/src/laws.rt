//! Laws of the reading.

ghost use Rattle.server_reader.specs.Pictures.{drawn_agrees};
ghost use Rattle.server_reader.specs.Readings.{ReadsAsTheRfc};

/// Proves that a reader reads bytes as RFC 6143 does, however they were cut: between messages, and so behind each update, its steps show what
/// a viewer shows that reads all bytes so far; behind a fault no bytes give a reading, and a fault comes with the last byte of its group.
pub fn reads_as_the_rfc()
    ensures { ReadsAsTheRfc }
{}

/// Proves that a picture to which each step is done has the colour of each pixel that the steps show.
pub fn steps_are_drawn()
    ensures { drawn_agrees }
{}
