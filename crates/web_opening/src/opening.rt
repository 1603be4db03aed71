//! A request's head as it comes.
ghost use Rattle.std.specs.Prelude.{◌≡◌, ◌≤◌, ◌++◌, [], length, take, IsNone, IsFalse, ◌↔◌, IfOk, IfSome, OnOk, OnErr};
ghost use Rattle.web_opening.specs.Head.{is_done, held_after};
ghost use Rattle.web_opening.specs.Request.{IsVerdictOnHeld};

use crate::admission::Admission;
use crate::answers::{Refusal, Verdict};
use crate::head::{MOST_BYTES, end_of_head, ends_in_empty_line, is_done};
use crate::judge::judge_head;
use std::alloc::{AllocError, Global};
use std::marker::Model;

/// The head of a request as far as it came. Contracts see it as its bytes.
#[derive(Drop)]
pub struct Opening {
    head: Vec<u8>,
}

impl Model for Opening {
    ghost use Rattle.std.specs.Prelude.{ℕ, List, ◌≤◌, length};

    ghost Value = { List ℕ };

    ghost view = { λ a. a.head.items };

    ghost invariant = { λ a. length a.head.items ≤ 8192 };
}

impl Opening {
    /// Creates one of which nothing came yet. Takes no memory.
    pub fn new(alloc: Global) -> Opening
        ensures { result ≡ [] }
    {
        Opening {
            head: Vec::new(alloc),
        }
    }

    /// Takes the bytes of a piece up to the end of the head, or up to as many as it may have. Returns how many it took: those behind them
    /// are the first of the frames, if the request is accepted. Once the head is done it takes none. `AllocError` if memory is refused.
    #[tactic(auto, using(crate::proofs::HeadLemmas::takes_held, crate::proofs::HeadLemmas::takes_front))]
    pub fn take(&mut self, piece: &[u8]) -> Result<usize, AllocError>
        ensures held { OnOk result (self.new ≡ held_after self.old piece.now) }
        ensures count { IfOk result (λ count. count ≤ length piece.now) }
        ensures taken { IfOk result (λ count. self.new ≡ self.old ++ take count piece.now) }
        ensures err { OnErr result (self.new ≡ self.old) }
        ensures few { length self.new ≤ 8192 }
    {
        let before = self.head.len();
        let count = piece.len().min(MOST_BYTES - before);
        self.head.extend_from_slice(&piece[..count])?;
        let end = end_of_head(&self.head, before);
        self.head.truncate(end);
        Ok(end - before)
    }

    /// Returns what is answered, or nothing while more of the head is wanted. Keeps nothing of it: each call answers anew, and the same.
    pub fn verdict(&self, admission: &Admission) -> Option<Verdict>
        ensures more { IsNone result ↔ IsFalse (is_done self.now) }
        ensures verdict { IfSome result (IsVerdictOnHeld admission.now.hosts admission.now.origins self.now) }
    {
        if !is_done(&self.head) {
            return None;
        }
        if !ends_in_empty_line(&self.head) {
            return Some(Verdict::Refuse(Refusal::HeadTooLarge));
        }
        Some(judge_head(&self.head, admission))
    }
}
