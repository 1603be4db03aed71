//! Laws of the reading.
ghost use Rattle.messages.specs.Reading.{ReadsTheStream, ReadsInPieces, KeepsEnough, KeepsTheFault};

/// Proves that a viewer's bytes are a stream of exactly one list of items, with exactly one end, and that the reading finds both.
pub fn reads_the_stream()
    ensures { ReadsTheStream }
{}

/// Proves that a piece read behind others is their whole read.
#[tactic(auto, using(crate::specs::PieceLemmas::reads_in_pieces))]
pub fn reads_in_pieces()
    ensures { ReadsInPieces }
{}

/// Proves that what is kept of a viewer's bytes tells all that a further piece adds: the items, and what is kept then.
pub fn keeps_enough()
    ensures { KeepsEnough }
{}

/// Proves that what is kept of a viewer's bytes tells its fault.
pub fn keeps_the_fault()
    ensures { KeepsTheFault }
{}
