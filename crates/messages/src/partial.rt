//! What is kept of a message that hasn't ended.
ghost use Rattle.std.specs.Prelude.{◌≡◌, ◌+◌, ◌<◌, ◌≤◌, ◌++◌, [], length, take, unwrap_or, IfOk, IfSome, IfNone};
ghost use Rattle.messages.specs.Grammar.{encoding_of};
ghost use Rattle.messages.specs.declared.Encoding.TheVariants.{Raw};
ghost use Rattle.messages.specs.declared.Item.TheVariants as item;
ghost use Rattle.messages.specs.Reading.{encodings, fault_in};
ghost use Rattle.messages.specs.Steps.{number_in, nothing_given, with_number};
ghost use Rattle.messages.specs.Partial.{given_by, unfinished_numbers, unfinished_in};

use crate::numbers::number_in;
use crate::text::Text;
use crate::{Encoding, Fault, Item};
use arrayvec::ArrayVec;
use std::alloc::{AllocError, Global};

/// The number of DesktopSize (RFC 6143 section 7.8.2).
pub const DESKTOP_SIZE: i32 = -223;

/// A list of encodings whose count has come.
#[derive(Drop)]
pub struct Numbers {
    /// How many numbers the list has.
    pub count: u16,
    /// How many have come.
    pub come: u16,
    /// The first encoding of pixels among them.
    pub first: Option<Encoding>,
    /// Whether CopyRect is among them.
    pub copyrect: bool,
    /// Whether DesktopSize is.
    pub resize: bool,
    /// The bytes of the next one.
    pub next: ArrayVec<u8, 4>,
}

/// What is kept of a message that hasn't ended, or the fault behind which nothing is read.
#[derive(Drop)]
pub enum Partial {
    /// Its bytes.
    Plain(ArrayVec<u8, 20>),
    Encodings(Numbers),
    Text(Text),
    Faulted(Fault),
}

/// Returns the encoding of pixels that `number` names.
fn encoding_named(number: i32) -> Option<Encoding>
    ensures { result ≡ encoding_of number }
{
    match number {
        0 => Some(Encoding::Raw),
        2 => Some(Encoding::Rre),
        5 => Some(Encoding::Hextile),
        _ => None,
    }
}

impl Numbers {
    /// Returns a list of `count` numbers, of which none has come.
    pub fn new(count: u16) -> Numbers
        ensures { unfinished_numbers result ≡ encodings count 0 nothing_given [] }
    {
        Numbers {
            count,
            come: 0,
            first: None,
            copyrect: false,
            resize: false,
            next: ArrayVec::new(),
        }
    }

    /// Takes a number.
    fn put(&mut self, number: i32)
        requires { self.old.come < self.old.count }
        ensures { unfinished_numbers self.new ≡
            encodings self.old.count (self.old.come + 1) (with_number (given_by self.old) number) [] }
    {
        self.come += 1;
        self.first = self.first.or(encoding_named(number));
        self.copyrect = self.copyrect || number == 1;
        self.resize = self.resize || number == DESKTOP_SIZE;
        self.next.clear();
    }

    /// Takes bytes of the next number from the front of `piece`. Returns how many, if they end it, and takes all of them if they don't.
    pub fn take(&mut self, piece: &[u8]) -> Option<usize>
        requires more { self.old.come < self.old.count }
        requires short { length self.old.next.items < 4 }
        ensures none { IfNone result ((length (self.old.next.items ++ piece.now) < 4)
            × (unfinished_numbers self.new ≡
            encodings self.old.count self.old.come (given_by self.old) (self.old.next.items ++ piece.now))) }
        ensures some { IfSome result (λ used. (used + length self.old.next.items ≡ 4) × (used ≤ length piece.now)
            × (0 < used) × (unfinished_numbers self.new ≡
            encodings self.old.count (self.old.come + 1)
            (with_number (given_by self.old) (number_in (self.old.next.items ++ take used piece.now))) [])) }
    {
        let missing = 4 - self.next.len();
        if piece.len() < missing {
            self.next.try_extend_from_slice(piece).unwrap();
            return None;
        }
        self.next.try_extend_from_slice(&piece[..missing]).unwrap();
        let number = number_in(&self.next);
        self.put(number);
        Some(missing)
    }

    /// Returns what the list says.
    pub fn item(&self) -> Item
        ensures { result ≡ item.Encodings (unwrap_or self.now.first Raw) self.now.copyrect self.now.resize }
    {
        Item::Encodings {
            preferred: self.first.unwrap_or(Encoding::Raw),
            copyrect: self.copyrect,
            resize: self.resize,
        }
    }
}

impl Partial {
    /// Returns the fault that is kept.
    pub fn fault(&self) -> Option<Fault>
        ensures { result ≡ fault_in (unfinished_in self.now) }
    {
        match self {
            Partial::Faulted(fault) => Some(*fault),
            _ => None,
        }
    }

    /// Returns a copy. Only a text takes memory.
    pub fn try_clone(&self, alloc: Global) -> Result<Partial, AllocError>
        ensures { IfOk result (λ h. unfinished_in h ≡ unfinished_in self.now) }
    {
        Ok(match self {
            Partial::Plain(bytes) => Partial::Plain(copied_bytes(bytes)),
            Partial::Encodings(numbers) => Partial::Encodings(Numbers {
                count: numbers.count,
                come: numbers.come,
                first: numbers.first,
                copyrect: numbers.copyrect,
                resize: numbers.resize,
                next: copied_bytes(&numbers.next),
            }),
            Partial::Text(text) => Partial::Text(text.try_clone(alloc)?),
            Partial::Faulted(fault) => Partial::Faulted(*fault),
        })
    }
}

/// Returns a copy of bytes.
fn copied_bytes<const N: usize>(bytes: &ArrayVec<u8, N>) -> ArrayVec<u8, N>
    ensures { result.items ≡ bytes.now.items }
{
    ArrayVec::try_from(bytes.as_slice()).unwrap()
}
