//! A law of the drawing.

ghost use Rattle.source_picture.specs.Mirroring.{MirrorsAsTheRfc};

use server_reader::reads_as_the_rfc;

/// Proves that a screen shows what its source said, by RFC 6143 section 7.6, whatever the pieces that it came in: between messages, and so
/// behind each whole update, each place that a viewer shows that reads all bytes so far has the colour shown; and where the drawing ended as
/// a fault, no bytes behind give a reading.
pub fn mirrors_as_the_rfc()
    ensures { MirrorsAsTheRfc }
{
    reads_as_the_rfc();
}
