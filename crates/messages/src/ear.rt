//! The reader of a viewer's bytes.
ghost use Rattle.std.specs.Prelude.{◌≡◌, ℕ, List, [], ◌++◌, IfOk, IfSome, OnOk, OnErr};
ghost use Rattle.messages.specs.Reading.{rest, fault_in_rest, is_open_rest, fault_of, new_items, heard};
ghost use Rattle.messages.specs.Progress.{text_goes_on, advanced, CanAdvance};

use crate::partial::Partial;
use crate::reading::Reading;
use crate::{Fault, Heard, Phase};
use arrayvec::ArrayVec;
use listed::Listed;
use std::alloc::{AllocError, Global};
use std::marker::Model;

/// What hears a viewer: where its conversation stands, and what is kept of a message that hasn't ended.
///
/// Contracts see it as what is kept of the bytes that it has heard. Of a list of encodings that is its count, how many have come, what
/// they gave and the bytes of the next one; of a text its length, how many bytes have come, and at most the first 262,144 of them.
#[derive(Drop)]
pub struct Ear {
    phase: Phase,
    partial: Partial,
    alloc: Global,
}

impl Model for Ear {
    ghost use Rattle.messages.specs.Reading.{Rest};

    ghost Value = { Rest };

    ghost use Rattle.messages.specs.Steps.{IsShort};
    ghost use Rattle.messages.specs.Partial.{rest_in, unfinished_in};

    ghost view = { λ a. rest_in a.phase a.partial };

    ghost invariant = { λ a. IsShort a.phase (unfinished_in a.partial) };
}

/// What an ear becomes by a piece that it was prepared for.
#[derive(Drop)]
pub struct Change {
    kind: Kind,
}

/// How an ear goes on.
#[derive(Drop)]
enum Kind {
    /// It keeps this.
    Becomes(Phase, Partial),
    /// It keeps more bytes of its text, which they don't end.
    TextGoesOn(Vec<u8>),
}

impl Model for Change {
    ghost use Rattle.messages.specs.Progress.{Progress};

    ghost Value = { Progress };

    ghost use Rattle.messages.specs.Partial.{progress_of, IsShortBehind};

    ghost view = { λ a. progress_of a.kind };

    ghost invariant = { λ a. IsShortBehind a.kind };
}

/// What a piece would tell, and what the ear would become.
#[derive(Drop)]
pub struct Prepared {
    /// What the piece adds.
    pub heard: Heard,
    /// What `Ear::commit` puts in place.
    pub change: Change,
}

/// Prepares a text to go on by `piece`, which doesn't end it.
fn keep_on(alloc: Global, piece: &[u8]) -> Result<Prepared, AllocError>
    ensures { IfOk result (λ p. p ≡ record { heard = record { items = []; fault = None }; change = text_goes_on piece.now }) }
{
    Ok(Prepared {
        heard: Heard {
            items: Listed::new(alloc),
            fault: None,
        },
        change: Change {
            kind: Kind::TextGoesOn(piece.to_vec(alloc)?),
        },
    })
}

impl Ear {
    /// Returns an ear that has heard nothing.
    pub fn new(alloc: Global) -> Ear
        ensures { result ≡ rest [] }
    {
        Ear {
            phase: Phase::Version,
            partial: Partial::Plain(ArrayVec::new()),
            alloc,
        }
    }

    /// Returns an ear that has heard the same. `AllocError` where memory is refused, which only a part of a text takes.
    pub fn try_clone(&self) -> Result<Ear, AllocError>
        ensures { IfOk result (λ ear. ear ≡ self.now) }
    {
        Ok(Ear {
            phase: self.phase,
            partial: self.partial.try_clone(self.alloc)?,
            alloc: self.alloc,
        })
    }

    /// Returns where the conversation stands.
    pub fn phase(&self) -> Phase
        ensures { result ≡ self.now.phase }
    {
        self.phase
    }

    /// Returns the fault behind which nothing is heard, if there is one.
    pub fn fault(&self) -> Option<Fault>
        ensures { result ≡ fault_in_rest self.now }
    {
        self.partial.fault()
    }

    /// Tells whether the ServerInit has been earned, and there is no fault (RFC 6143 section 7.3.2).
    pub fn is_open(&self) -> bool
        ensures { result ≡ is_open_rest self.now }
    {
        self.partial.fault().is_none() && matches!(self.phase, Phase::Open(_))
    }

    /// Prepares to hear a piece of the viewer's bytes: returns the items that end in it, the fault that the viewer has then, and what the
    /// ear would become. Behind a fault nothing is read, and each further piece gives that fault again. It doesn't matter how the bytes
    /// are cut into pieces.
    ///
    /// `AllocError` where memory is refused. What is kept of a text that the piece doesn't end is not copied.
    pub fn prepare(&self, piece: &[u8]) -> Result<Prepared, AllocError>
        ensures items { (s : List ℕ) → self.now ≡ rest s → IfOk result (λ p. p.heard.items ≡ new_items s piece.now) }
        ensures fault { (s : List ℕ) → self.now ≡ rest s →
            IfOk result (λ p. p.heard.fault ≡ fault_of (heard (s ++ piece.now)).end) }
        ensures rest { (s : List ℕ) → self.now ≡ rest s → IfOk result (λ p. advanced self.now p.change ≡ rest (s ++ piece.now)) }
        ensures faulted { IfSome (fault_in_rest self.now) (λ fault. IfOk result (λ p.
            (p.heard.items ≡ []) × (p.heard.fault ≡ Some fault) × (advanced self.now p.change ≡ self.now))) }
        ensures fits { IfOk result (λ p. CanAdvance self.now p.change) }
    {
        match &self.partial {
            Partial::Text(text) if piece.len() < text.missing() => keep_on(self.alloc, piece),
            partial => {
                let Reading {
                    phase,
                    partial,
                    items,
                } = Reading::read(self.alloc, self.phase, partial, piece)?;
                let heard = Heard {
                    items: Listed::from_vec(items),
                    fault: partial.fault(),
                };
                let change = Change {
                    kind: Kind::Becomes(phase, partial),
                };
                Ok(Prepared { heard, change })
            }
        }
    }

    /// Becomes what was prepared. Right after `prepare` of this ear it may: no more is asked than that a text that goes on still lacks
    /// more bytes than `change` has. Takes no memory.
    pub fn commit(&mut self, change: Change)
        requires { CanAdvance self.old change }
        ensures { self.new ≡ advanced self.old change }
    {
        match change.kind {
            Kind::Becomes(phase, partial) => {
                self.phase = phase;
                self.partial = partial;
            }
            Kind::TextGoesOn(bytes) => {
                if let Partial::Text(text) = &mut self.partial {
                    text.take(&bytes);
                }
            }
        }
    }

    /// Hears a piece of the viewer's bytes: prepares what it would become, and becomes it.
    ///
    /// After an `AllocError` the ear is as it was: the piece wasn't heard.
    pub fn feed(&mut self, piece: &[u8]) -> Result<Heard, AllocError>
        ensures items { (s : List ℕ) → self.old ≡ rest s → IfOk result (λ h. h.items ≡ new_items s piece.now) }
        ensures fault { (s : List ℕ) → self.old ≡ rest s → IfOk result (λ h. h.fault ≡ fault_of (heard (s ++ piece.now)).end) }
        ensures rest { (s : List ℕ) → self.old ≡ rest s → OnOk result (self.new ≡ rest (s ++ piece.now)) }
        ensures faulted { IfSome (fault_in_rest self.old) (λ fault. IfOk result (λ h.
            (h.items ≡ []) × (h.fault ≡ Some fault) × (self.new ≡ self.old))) }
        ensures err { OnErr result (self.new ≡ self.old) }
    {
        let Prepared { heard, change } = self.prepare(piece)?;
        self.commit(change);
        Ok(heard)
    }
}
