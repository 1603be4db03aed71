//! The reading of a piece: by the fronts of messages, by numbers and by texts.
ghost use Rattle.std.specs.Prelude.{◌≡◌, ◌+◌, ◌<◌, ◌≤◌, [], ◌∷◌, ◌++◌, length, slice_index, IfOk, OnOk, IfSome, IfNone};
ghost use Rattle.messages.specs.Grammar.{after};
ghost use Rattle.messages.specs.Steps.{fresh, head_length, head_tells, IsHead, tells, IsBegun, IsShort};
ghost use Rattle.messages.specs.Partial.{unfinished_in, rest_in, reads, told_of};

use crate::heads::{Head, head_length, head_of, key, pointer, request};
use crate::partial::{Numbers, Partial};
use crate::text::Text;
use crate::{Item, Phase, Version};
use arrayvec::ArrayVec;
use std::alloc::{AllocError, Global};

/// No request, key or pointer has more bytes.
const SHORT_MESSAGE: usize = 10;

/// What was read: where the conversation stands, what is kept of the message that hasn't ended, and the items.
#[derive(Drop)]
pub struct Reading {
    pub phase: Phase,
    pub partial: Partial,
    pub items: Vec<Item>,
}

/// Returns where a conversation stands behind `item` (RFC 6143 sections 7.1 to 7.3 and appendix A): version 3.3 has no choice. A
/// version is taken at any phase; any other item that the phase doesn't expect changes nothing.
pub fn phase_after(phase: Phase, item: &Item) -> Phase
    ensures { result ≡ after phase item.now }
{
    match (phase, item) {
        (_, Item::Version(Version::V33)) => Phase::Init(Version::V33),
        (_, Item::Version(version)) => Phase::Choice(*version),
        (Phase::Choice(version), Item::Choice) => Phase::Init(version),
        (Phase::Init(version), Item::Init { .. }) => Phase::Open(version),
        _ => phase,
    }
}

/// Returns how many bytes a front lacks of which `partial` has come, and `piece` follows.
fn missing(phase: Phase, partial: &[u8], piece: &[u8]) -> usize
    requires short { length partial.now < head_length phase (slice_index partial.now 0) }
    requires more { 0 < length piece.now }
    ensures some { 0 < result }
    ensures all { result + length partial.now ≡ head_length phase (slice_index (partial.now ++ piece.now) 0) }
{
    match partial {
        [] => head_length(phase, piece[0]),
        [first, ..] => head_length(phase, *first) - partial.len(),
    }
}

/// Takes bytes of a front from the front of `piece`. Returns what the front says and how many bytes were taken, if they end it, and takes
/// all of them if they don't.
fn complete(
    alloc: Global,
    phase: Phase,
    partial: &mut ArrayVec<u8, 20>,
    piece: &[u8],
) -> Option<(Head, usize)>
    requires short { length partial.old.items < head_length phase (slice_index partial.old.items 0) }
    requires more { 0 < length piece.now }
    ensures none { IfNone result ((partial.new.items ≡ partial.old.items ++ piece.now)
        × (length partial.new.items < head_length phase (slice_index partial.new.items 0))) }
    ensures some { IfSome result (λ found. (0 < found.1) × (found.1 ≤ length piece.now)
        × IsHead phase partial.old.items piece.now found.0 found.1) }
{
    let missing = missing(phase, partial, piece);
    if piece.len() < missing {
        partial.try_extend_from_slice(piece).unwrap();
        return None;
    }
    if partial.is_empty() {
        return Some((head_of(alloc, phase, &piece[..missing]), missing));
    }
    partial.try_extend_from_slice(&piece[..missing]).unwrap();
    Some((head_of(alloc, phase, partial), missing))
}

impl Reading {
    /// Adds an item. The next message hasn't begun.
    fn say(&mut self, item: Item) -> Result<(), AllocError>
        ensures items { OnOk result (self.new.items.items ≡ self.old.items.items ++ item ∷ []) }
        ensures rest { OnOk result (rest_in self.new.phase self.new.partial ≡ fresh (after self.old.phase item)) }
        ensures short { OnOk result (IsShort self.new.phase (unfinished_in self.new.partial)) }
    {
        self.phase = phase_after(self.phase, &item);
        self.partial = Partial::Plain(ArrayVec::new());
        self.items.push(item)?;
        Ok(())
    }

    /// Does what a front says.
    fn follow(&mut self, alloc: Global, head: Head) -> Result<(), AllocError>
        requires { IsBegun head }
        ensures items { OnOk result (self.new.items.items ≡ self.old.items.items ++ (head_tells self.old.phase head).items) }
        ensures rest { OnOk result (rest_in self.new.phase self.new.partial ≡ (head_tells self.old.phase head).rest) }
        ensures short { OnOk result (IsShort self.new.phase (unfinished_in self.new.partial)) }
    {
        match head {
            Head::Item(item) => self.say(item)?,
            Head::Fault(fault) => self.partial = Partial::Faulted(fault),
            Head::Encodings(count) => self.partial = Partial::Encodings(Numbers::new(count)),
            Head::Text(length) => self.partial = Partial::Text(Text::new(alloc, length)?),
        }
        Ok(())
    }

    /// Takes bytes from the front of `piece`, and returns what is left of it.
    fn step<'a>(&mut self, alloc: Global, piece: &'a [u8]) -> Result<&'a [u8], AllocError>
        requires more { 0 < length piece.now }
        requires short { IsShort self.old.phase (unfinished_in self.old.partial) }
        ensures reads { IfOk result (λ left. reads self.new.items.items self.new.phase self.new.partial left.now
            ≡ reads self.old.items.items self.old.phase self.old.partial piece.now) }
        ensures short { OnOk result (IsShort self.new.phase (unfinished_in self.new.partial)) }
        ensures less { IfOk result (λ left. length left.now < length piece.now) }
    {
        match &mut self.partial {
            Partial::Plain(partial) => match complete(alloc, self.phase, partial, piece) {
                None => Ok(&[]),
                Some((head, used)) => {
                    self.follow(alloc, head)?;
                    Ok(&piece[used..])
                }
            },
            Partial::Encodings(numbers) => match numbers.take(piece) {
                None => Ok(&[]),
                Some(used) => {
                    if numbers.come < numbers.count {
                        return Ok(&piece[used..]);
                    }
                    let item = numbers.item();
                    self.say(item)?;
                    Ok(&piece[used..])
                }
            },
            Partial::Text(text) => {
                let used = text.missing().min(piece.len());
                text.take(&piece[..used]);
                if text.come < text.length {
                    return Ok(&[]);
                }
                let item = text.finish(alloc);
                self.say(item)?;
                Ok(&piece[used..])
            }
            Partial::Faulted(_) => Ok(&[]),
        }
    }

    /// Reads the requests, keys and pointers at the front of `piece`, where a message of an open conversation begins there, and returns
    /// what is left.
    fn short_messages<'a>(&mut self, piece: &'a [u8]) -> Result<&'a [u8], AllocError>
        requires { IsShort self.old.phase (unfinished_in self.old.partial) }
        ensures reads { IfOk result (λ left. reads self.new.items.items self.new.phase self.new.partial left.now
            ≡ reads self.old.items.items self.old.phase self.old.partial piece.now) }
        ensures short { OnOk result (IsShort self.new.phase (unfinished_in self.new.partial)) }
        ensures within { IfOk result (λ left. length left.now ≤ length piece.now) }
    {
        let (Phase::Open(_), Partial::Plain(begun)) = (self.phase, &self.partial) else {
            return Ok(piece);
        };
        if !begun.is_empty() {
            return Ok(piece);
        }
        let mut left = piece;
        while left.len() >= SHORT_MESSAGE {
            let used = match left[0] {
                3 => {
                    self.items.push(request(left))?;
                    10
                }
                4 => {
                    self.items.push(key(left))?;
                    8
                }
                5 => {
                    self.items.push(pointer(left))?;
                    6
                }
                _ => break,
            };
            left = &left[used..];
        }
        Ok(left)
    }

    /// Reads `piece` behind what is kept of a message, `partial`, which stays.
    pub fn read(
        alloc: Global,
        phase: Phase,
        partial: &Partial,
        piece: &[u8],
    ) -> Result<Reading, AllocError>
        requires { IsShort phase (unfinished_in partial.now) }
        ensures told { IfOk result (λ reading. told_of reading ≡ tells (rest_in phase partial.now) piece.now) }
        ensures short { IfOk result (λ reading. IsShort reading.phase (unfinished_in reading.partial)) }
    {
        let mut reading = Reading {
            phase,
            partial: partial.try_clone(alloc)?,
            items: Vec::new(alloc),
        };
        let mut left = reading.short_messages(piece)?;
        while !left.is_empty() {
            let behind = reading.step(alloc, left)?;
            left = reading.short_messages(behind)?;
        }
        Ok(reading)
    }
}
