//! Where the reading of a viewer's bytes stands, to tell which of the next ones are secret.
ghost use Rattle.std.specs.Prelude.{◌≡◌, [], if◌then◌else◌};
ghost use Rattle.redaction.specs.Places.{front, list, text, over, is_secret_spot, spot_after, spot_behind, hidden_by};

use crate::fronts::{behind_front, head_length};
use arrayvec::ArrayVec;
use messages::Phase;
use std::marker::Model;

/// What is kept of a message that hasn't ended.
#[derive(Drop)]
enum Part {
    /// The bytes of its front.
    Front(ArrayVec<u8, 20>),
    /// How many bytes of a list of encodings are to come.
    List(u32),
    /// How many bytes of a text are to come.
    Text(u32),
    /// A fault, behind which nothing is read.
    Over,
}

/// Where the reading of a viewer's bytes stands.
#[derive(Drop)]
pub struct Place {
    phase: Phase,
    part: Part,
}

impl Model for Place {
    ghost use Rattle.redaction.specs.Places.{Spot};

    ghost Value = { Spot };

    ghost use Rattle.redaction.specs.Places.{LacksMore};
    ghost use Rattle.redaction.specs.Parts.{spot_in};

    ghost view = { λ a. spot_in a.phase a.part };

    ghost invariant = { λ a. LacksMore (spot_in a.phase a.part) };
}

impl Place {
    /// Returns the place where the next message hasn't begun.
    pub fn begin(phase: Phase) -> Place
        ensures { result ≡ front phase [] }
    {
        Place {
            phase,
            part: Part::Front(ArrayVec::new()),
        }
    }

    /// Returns the place where `left` bytes of a list of encodings are to come.
    pub fn list(phase: Phase, left: u32) -> Place
        ensures { result ≡ list phase left }
    {
        Place {
            phase,
            part: Part::List(left),
        }
    }

    /// Returns the place where `left` bytes of a text are to come.
    pub fn text(phase: Phase, left: u32) -> Place
        ensures { result ≡ text phase left }
    {
        Place {
            phase,
            part: Part::Text(left),
        }
    }

    /// Returns the place behind a fault, where nothing is read any more.
    pub fn over(phase: Phase) -> Place
        ensures { result ≡ over }
    {
        Place {
            phase,
            part: Part::Over,
        }
    }

    /// Returns whether the next byte is secret.
    fn is_secret(&self) -> bool
        ensures { result ≡ is_secret_spot self.now }
    {
        match &self.part {
            Part::Front(bytes) => {
                matches!(self.phase, Phase::Open(_)) && matches!(bytes.first(), Some(4 | 5))
            }
            Part::List(_) => false,
            Part::Text(_) | Part::Over => true,
        }
    }

    /// Reads a byte.
    fn read(&mut self, byte: u8)
        ensures { self.new ≡ spot_after self.old byte }
    {
        match &mut self.part {
            Part::Front(bytes) => {
                bytes.push(byte);
                if bytes.len() >= head_length(self.phase, bytes[0]) {
                    *self = behind_front(self.phase, bytes);
                }
            }
            Part::List(left) if *left > 1 => *left -= 1,
            Part::Text(left) if *left > 1 => *left -= 1,
            Part::List(_) | Part::Text(_) => self.part = Part::Front(ArrayVec::new()),
            Part::Over => {}
        }
    }

    /// Reads a byte, and returns what is left of it: 0 where it is secret.
    fn redacted(&mut self, byte: u8) -> u8
        ensures place { self.new ≡ spot_after self.old byte }
        ensures byte { result ≡ (if is_secret_spot self.old then 0 else byte) }
    {
        let left = if self.is_secret() { 0 } else { byte };
        self.read(byte);
        left
    }

    /// Reads a piece, and leaves zeros in the place of its secret bytes.
    pub fn redact(&mut self, piece: &mut [u8])
        ensures place { self.new ≡ spot_behind self.old piece.old }
        ensures piece { piece.new ≡ hidden_by self.old piece.old }
    {
        for i in 0..piece.len() {
            piece[i] = self.redacted(piece[i]);
        }
    }
}
