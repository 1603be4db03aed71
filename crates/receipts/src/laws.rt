//! What the answers of the check mean.

ghost use Rattle.receipts.specs.Claims.{reports_are_true, refusals_are_true};

/// Proves that a history is accepted only where its drawing calls are those that were drawn, each viewer that connected has exactly one
/// receipt and no other viewer has one, and each receipt is what the history says of its viewer.
pub fn reports_are_true()
    ensures { reports_are_true }
{}

/// Proves that a history is refused only for what is wrong with it, and for the first thing that is.
pub fn refusals_are_true()
    ensures { refusals_are_true }
{}
