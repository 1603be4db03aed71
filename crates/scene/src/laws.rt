//! What holds of whole runs: what the answers to a list of events do not depend on, and what the viewers show.

ghost use Rattle.scene.specs.Claims.{told_alike, one_viewer_is_alone};
ghost use Rattle.scene.specs.History.{accepted_is_enough, accepted_happens_again};
ghost use Rattle.scene.specs.Pictures.{pictures_are_shown, maps_are_there};
ghost use Rattle.scene.specs.Refusals.{held_as_alone, refusals_are_due};

use viewer_picture::rectangles_are_read;

/// Proves that two runs that agree in the drawing calls and in a viewer's own events tell that viewer the same.
pub fn viewers_are_alone()
    ensures { told_alike }
{}

/// Proves that a run with one viewer is answered as the machine with one viewer answers it.
pub fn one_viewer_is_alone()
    ensures { one_viewer_is_alone }
{}

/// Proves that, if the viewers are told of all that is drawn, each that is there could read all that it was sent, and shows what is
/// drawn: no rectangle was beyond the screen, and none in an encoding that it didn't list, but for Raw.
pub fn pictures_are_shown()
    ensures { pictures_are_shown }
{
    rectangles_are_read();
}

/// Proves that each viewer that is there could read all that it was sent, and that one that is open has the server's colour map if
/// its format needs one and none is owed to it, whatever was drawn.
pub fn maps_are_there()
    ensures { maps_are_there }
{
    rectangles_are_read();
}

/// Proves that what a scene holds of a viewer, in a run with any number of them, is what the machine with that viewer alone has of
/// it.
pub fn held_as_alone()
    ensures { held_as_alone }
{}

/// Proves that the answer to an event is the refusal that is due by what the scene holds, and no refusal if none is due.
pub fn refusals_are_due()
    ensures { refusals_are_due }
{}

/// Proves that a scene holds after a list of events what it holds after those that happened: a refused event, and a cut that gave
/// nothing, changed nothing.
pub fn accepted_is_enough()
    ensures { accepted_is_enough }
{}

/// Proves that the events that happened all happen when they come again, without the others.
pub fn accepted_happens_again()
    ensures { accepted_happens_again }
{}
