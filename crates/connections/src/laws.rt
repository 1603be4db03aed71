//! What holds of a screen's connections whoever calls.

ghost use Rattle.connections.specs.Serving.{drawn_is_served};

/// States that viewers that are served by a list of events are served, once their screen was drawn on, by that list with the drawing calls
/// behind it. Each call of a `Canvas` says which those are.
pub fn drawn_is_served()
    ensures { drawn_is_served }
{}
