//! The viewers of a session that is redacted.
ghost use Rattle.std.specs.Prelude.{◌≡◌, ◌∷◌, ◌++◌, [], List, length, replicate, IfOk, OnOk, OnErr};
ghost use Rattle.scene.specs.declared.Event.{Event};
ghost use Rattle.scene.specs.declared.Event.TheVariants as event;
ghost use Rattle.redaction.specs.Sessions.{conversation_of, redacted_piece, redacted_event};
ghost use Rattle.redaction.specs.Following.{Follows};

use crate::place::Place;
use listed::Listed;
use messages::Phase;
use scene::Event;
use std::alloc::{AllocError, Global};
use std::collections::BTreeMap;
use std::marker::Model;

/// What is kept of a session's events so far: where the bytes of each viewer that is there stand. It knows no more of a
/// viewer than 20 bytes of a message that hasn't ended.
///
/// Contracts see it as a list of the viewers with what is kept of their bytes, which `Follows` the events.
#[derive(Drop)]
pub struct Redactor {
    places: BTreeMap<u64, Place>,
}

impl Model for Redactor {
    ghost use Rattle.std.specs.Prelude.{ℕ, List};
    ghost use Rattle.redaction.specs.Places.{Spot};

    ghost Value = { List (ℕ × Spot) };

    ghost view = { λ r. r.places.entries };
}

/// Fills a piece with zeros.
fn clear(piece: &mut [u8])
    ensures { piece.new ≡ replicate (length piece.old) 0 }
{
    piece.fill(0);
}

impl Redactor {
    /// Returns the redactor of a session of which nothing has happened yet.
    pub fn new(alloc: Global) -> Redactor
        ensures { Follows result [] }
    {
        Redactor {
            places: BTreeMap::new(alloc),
        }
    }

    /// Takes in that `viewer` connects. Changes nothing if the viewer is there already, and after an `AllocError`.
    pub fn connected(&mut self, viewer: u64) -> Result<(), AllocError>
        ensures follows { (es : List Event) → Follows self.old es →
            OnOk result (Follows self.new (es ++ event.Connect viewer ∷ [])) }
        ensures err { OnErr result (self.new ≡ self.old) }
    {
        if !self.places.contains_key(&viewer) {
            self.places.insert(viewer, Place::begin(Phase::Version))?;
        }
        Ok(())
    }

    /// Takes in that `viewer` is closed.
    pub fn closed(&mut self, viewer: u64)
        ensures { (es : List Event) → Follows self.old es → Follows self.new (es ++ event.Close viewer ∷ []) }
    {
        self.places.remove(&viewer);
    }

    /// Takes in a piece of a viewer's bytes: leaves zeros in the place of its secret bytes, and of all if the viewer isn't there.
    pub fn redact(&mut self, viewer: u64, piece: &mut [u8])
        ensures piece { (es : List Event) → Follows self.old es →
            piece.new ≡ redacted_piece (conversation_of viewer es) piece.old }
        ensures follows { (es : List Event) → Follows self.old es →
            Follows self.new (es ++ event.Hear viewer piece.old ∷ []) }
    {
        match self.places.get_mut(&viewer) {
            Some(place) => place.redact(piece),
            None => clear(piece),
        }
    }

    /// Takes in the next event of the session, and returns it without what is secret. An `AllocError` says that memory was refused for a
    /// viewer that connects; then nothing has changed.
    pub fn redacted(&mut self, event: Event) -> Result<Event, AllocError>
        ensures event { (es : List Event) → Follows self.old es → IfOk result (λ e. e ≡ redacted_event es event) }
        ensures follows { (es : List Event) → Follows self.old es → OnOk result (Follows self.new (es ++ event ∷ [])) }
        ensures err { OnErr result (self.new ≡ self.old) }
    {
        match event {
            Event::Connect { viewer } => {
                self.connected(viewer)?;
                Ok(Event::Connect { viewer })
            }
            Event::Close { viewer } => {
                self.closed(viewer);
                Ok(Event::Close { viewer })
            }
            Event::Hear { viewer, piece } => {
                let mut piece = piece.into_vec();
                self.redact(viewer, &mut piece);
                Ok(Event::Hear {
                    viewer,
                    piece: Listed::from_vec(piece),
                })
            }
            event => Ok(event),
        }
    }
}
