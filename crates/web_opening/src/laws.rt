//! Laws of the handshake.
ghost use Rattle.web_opening.specs.Head.{TakesAnyCut};
ghost use Rattle.web_opening.specs.Request.{AcceptsWhatIsAllowed};

/// Proves that what is held of a head is a function of the bytes that came, however they were cut into pieces.
pub fn takes_any_cut()
    ensures { TakesAnyCut }
{}

/// Proves that the requests that are accepted are those that RFC 6455 (4.2.1) allows and that are let in.
pub fn accepts_what_is_allowed()
    ensures { AcceptsWhatIsAllowed }
{}
