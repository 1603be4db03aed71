//! What a source says until the conversation is open (RFC 6143, 7.1 to 7.3, appendix A), and what it is answered.

ghost use Rattle.std.specs.Prelude.{◌≡◌, ◌≤◌, ◌<◌, ◌+◌, ◌++◌, ℕ, [], length, take, drop, max, true, false, IfOk, OnOk, OnErr};
ghost use Rattle.std.specs.List.{list_any, list_all};
ghost use Rattle.std.specs.Char.{is_ascii_digit};
ghost use Rattle.messages.specs.Grammar.{version_of};
ghost use Rattle.messages.specs.Reading.{is_version};
ghost use Rattle.messages.specs.Steps.{has_form};
ghost use Rattle.source_talk.specs.Opening.{answers, first_said, rest_said, version_said, reason_from, init_from, init_in, verdict_from, result_from, decision_from, kinds_from, list_from, security_from, version_in, heard_by, answered_by, is_awaited, is_none_type};
ghost use Rattle.source_talk.specs.Outbox.{put, most_waiting};

use crate::numbers::{be16_at, be32_at};
use crate::outbox::Outbox;
use arrayvec::ArrayVec;
use messages::Version;
use std::alloc::{AllocError, Global};
use std::marker::Model;

/// How much of a reason is told, in bytes.
const MOST_TOLD: u32 = 255;

/// What a source was answered last.
#[derive(Clone, Copy)]
pub enum Answered {
    /// Nothing: its version is awaited (RFC 6143, 7.1.1).
    Nothing,
    /// The version: its security types are awaited (7.1.2), or why it refuses.
    Version(Version),
    /// In 3.8 the choice of None: what comes of it is awaited (7.1.3), or why it refuses.
    Choice,
    /// ClientInit: ServerInit is awaited (7.3.1).
    Init(Version),
}

/// What ServerInit says in front of the name, but for the format of pixels, since another is asked for (RFC 6143, 7.3.2).
#[derive(Clone, Copy)]
pub struct Init {
    /// The picture's columns.
    pub width: u16,
    /// The picture's rows.
    pub height: u16,
    /// How many bytes the name has.
    pub name: u32,
}

/// Why an opening is over before the conversation is open. A place and a count are those of bytes among all that the source said.
#[derive(Clone, Copy)]
pub enum OpeningEnd {
    /// The first twelve bytes are no version (RFC 6143, 7.1.1).
    NoVersion,
    /// These security types are offered, and None is not among them (7.1.2).
    SecurityTypes { place: usize, count: u8 },
    /// In 3.3 the source decided on this type, which is not None.
    SecurityType(u32),
    /// The source refuses, for a reason of which the first 255 bytes are told (7.1.2, 7.1.3).
    Refused { place: usize, count: u8 },
}

/// What a source's opening says so far.
#[derive(Clone, Copy)]
pub enum Heard {
    /// More is awaited, behind this answer.
    Awaits(Answered),
    /// The head of ServerInit came: the name follows.
    Open(Version, Init),
    /// It is over, behind this answer.
    Ends(Answered, OpeningEnd),
}

/// Returns the version's text (RFC 6143, 7.1.1).
fn version_text(version: Version) -> &'static [u8]
    ensures { result.now ≡ version_said version }
{
    match version {
        Version::V33 => b"RFB 003.003\n",
        Version::V37 => b"RFB 003.007\n",
        Version::V38 => b"RFB 003.008\n",
    }
}

/// Returns the version that a source was answered, or nothing.
fn first_said(answered: Answered) -> &'static [u8]
    ensures value { result.now ≡ first_said answered }
    ensures few { length result.now ≤ 12 }
{
    match answered {
        Answered::Nothing => &[],
        Answered::Version(version) | Answered::Init(version) => version_text(version),
        Answered::Choice => version_text(Version::V38),
    }
}

/// Returns what a source was answered behind the version: the choice of None, and ClientInit, which lets others watch too.
fn rest_said(answered: Answered) -> &'static [u8]
    ensures value { result.now ≡ rest_said answered }
    ensures few { length result.now ≤ 2 }
{
    match answered {
        Answered::Nothing | Answered::Version(_) => &[],
        Answered::Choice | Answered::Init(Version::V33) => &[1],
        Answered::Init(Version::V37 | Version::V38) => &[1, 1],
    }
}

/// Returns all that a source was answered.
fn answers_of(answered: Answered) -> ArrayVec<u8, 16>
    ensures { result.items ≡ answers answered }
{
    let mut all = ArrayVec::new();
    all.try_extend_from_slice(first_said(answered)).unwrap();
    all.try_extend_from_slice(rest_said(answered)).unwrap();
    all
}

/// Reads a reason (RFC 6143, 7.1.2), which is awaited as far as it is told.
fn reason_from(before: Answered, said: &[u8], at: usize) -> Heard
    requires { at ≤ length said.now }
    ensures { result ≡ reason_from before said.now at }
{
    if said.len() - at < 4 {
        return Heard::Awaits(before);
    }
    let count = be32_at(said, at).min(MOST_TOLD);
    if said.len() - at - 4 < count as usize {
        return Heard::Awaits(before);
    }
    let end = OpeningEnd::Refused {
        place: at + 4,
        count: count as u8,
    };
    Heard::Ends(before, end)
}

/// Reads the head of ServerInit (RFC 6143, 7.3.2).
fn init_from(version: Version, said: &[u8], at: usize) -> Heard
    requires { at ≤ length said.now }
    ensures { result ≡ init_from version said.now at }
{
    if said.len() - at < 24 {
        return Heard::Awaits(Answered::Init(version));
    }
    let init = Init {
        width: be16_at(said, at),
        height: be16_at(said, at + 2),
        name: be32_at(said, at + 20),
    };
    Heard::Open(version, init)
}

/// Reads what comes of the choice in 3.8 (RFC 6143, 7.1.3).
fn verdict_from(said: &[u8], at: usize) -> Heard
    requires { at ≤ length said.now }
    ensures { result ≡ verdict_from said.now at }
{
    if said.len() - at < 4 {
        return Heard::Awaits(Answered::Choice);
    }
    if be32_at(said, at) == 0 {
        init_from(Version::V38, said, at + 4)
    } else {
        reason_from(Answered::Choice, said, at + 4)
    }
}

/// Reads what comes behind the choice of None.
fn result_from(version: Version, said: &[u8], at: usize) -> Heard
    requires { at ≤ length said.now }
    ensures { result ≡ result_from version said.now at }
{
    match version {
        Version::V38 => verdict_from(said, at),
        Version::V33 | Version::V37 => init_from(version, said, at),
    }
}

/// Reads the type that the source decided on in 3.3 (RFC 6143, appendix A).
fn decision_from(said: &[u8], at: usize) -> Heard
    requires { at ≤ length said.now }
    ensures { result ≡ decision_from said.now at }
{
    if said.len() - at < 4 {
        return Heard::Awaits(Answered::Version(Version::V33));
    }
    match be32_at(said, at) {
        0 => reason_from(Answered::Version(Version::V33), said, at + 4),
        1 => init_from(Version::V33, said, at + 4),
        other => {
            let answered = Answered::Version(Version::V33);
            Heard::Ends(answered, OpeningEnd::SecurityType(other))
        }
    }
}

/// Returns whether None is among some security types.
fn have_none(kinds: &[u8]) -> bool
    ensures { result ≡ list_any is_none_type kinds.now }
{
    kinds.iter().any(|kind| *kind == 1)
}

/// Reads so many security types, and what comes behind the choice of None (RFC 6143, 7.1.2).
fn kinds_from(version: Version, said: &[u8], at: usize, count: u8) -> Heard
    requires { at ≤ length said.now }
    ensures { result ≡ kinds_from version said.now at count }
{
    let kinds = usize::from(count);
    if said.len() - at < kinds {
        return Heard::Awaits(Answered::Version(version));
    }
    if have_none(&said[at..at + kinds]) {
        result_from(version, said, at + kinds)
    } else {
        let end = OpeningEnd::SecurityTypes { place: at, count };
        Heard::Ends(Answered::Version(version), end)
    }
}

/// Reads a list of security types, or the reason that stands in place of them (RFC 6143, 7.1.2).
fn list_from(version: Version, said: &[u8], at: usize) -> Heard
    requires { at ≤ length said.now }
    ensures { result ≡ list_from version said.now at }
{
    if said.len() == at {
        return Heard::Awaits(Answered::Version(version));
    }
    match said[at] {
        0 => reason_from(Answered::Version(version), said, at + 1),
        count => kinds_from(version, said, at + 1, count),
    }
}

/// Reads what comes behind the version (RFC 6143, 7.1.2, appendix A).
fn security_from(version: Version, said: &[u8], at: usize) -> Heard
    requires { at ≤ length said.now }
    ensures { result ≡ security_from version said.now at }
{
    match version {
        Version::V33 => decision_from(said, at),
        Version::V37 | Version::V38 => list_from(version, said, at),
    }
}

/// Returns whether each of some bytes is a digit.
fn are_digits(bytes: &[u8]) -> bool
    ensures { result ≡ list_all is_ascii_digit bytes.now }
{
    bytes.iter().all(|byte| byte.is_ascii_digit())
}

/// Returns whether twelve bytes are a version but for its digits.
fn has_form(said: &[u8]) -> bool
    requires { length said.now ≡ 12 }
    ensures { result ≡ has_form said.now }
{
    said[..4] == b"RFB "[..] && said[7] == b'.' && said[11] == b'\n'
}

/// Returns whether twelve bytes are a version (RFC 6143, 7.1.1).
#[tactic(auto, using(messages::proofs::Versions::is_version_by_parts))]
fn is_version(said: &[u8]) -> bool
    requires { length said.now ≡ 12 }
    ensures { result ≡ is_version said.now }
{
    let major = are_digits(&said[4..7]);
    let minor = are_digits(&said[8..11]);
    has_form(said) && major && minor
}

/// Returns the version that a source of version `major`.`minor` is answered, in digits: other ones than 3.7 and 3.8 are spoken as 3.3.
fn version_of(major: &[u8], minor: &[u8]) -> Version
    ensures { result ≡ version_of major.now minor.now }
{
    let three = b"003".as_slice();
    if major == three && minor == b"007".as_slice() {
        Version::V37
    } else if major == three && minor == b"008".as_slice() {
        Version::V38
    } else {
        Version::V33
    }
}

/// Returns what all that a source said so far says. It is a function of these bytes alone, so it doesn't matter in which parts they came.
pub fn heard_by(said: &[u8]) -> Heard
    ensures { result ≡ heard_by said.now }
{
    if said.len() < 12 {
        return Heard::Awaits(Answered::Nothing);
    }
    let (front, _) = said.split_at(12);
    if !is_version(front) {
        return Heard::Ends(Answered::Nothing, OpeningEnd::NoVersion);
    }
    security_from(version_of(&front[4..7], &front[8..11]), said, 12)
}

impl Heard {
    /// Returns whether more is awaited.
    pub fn is_awaited(&self) -> bool
        ensures { result ≡ is_awaited self.now }
    {
        matches!(self, Heard::Awaits(_))
    }

    /// Returns what the source was answered last by then.
    fn answered(&self) -> Answered
        ensures { result ≡ answered_by self.now }
    {
        match self {
            Heard::Awaits(answered) | Heard::Ends(answered, _) => *answered,
            Heard::Open(version, _) => Answered::Init(*version),
        }
    }
}

/// An opening: what the source said, fewer than 600 bytes, and how many bytes it was answered.
#[derive(Drop)]
pub struct Opening {
    said: Vec<u8>,
    told: usize,
}

impl Model for Opening {
    ghost use Rattle.source_talk.specs.Opening.{View};

    ghost Value = { View };

    ghost view = { λ a. record { said = a.said.items; told = a.told } };
}

impl Opening {
    /// Returns an opening in which nothing was said.
    pub fn new(alloc: Global) -> Opening
        ensures said { result.said ≡ [] }
        ensures told { result.told ≡ 0 }
    {
        Opening {
            said: Vec::new(alloc),
            told: 0,
        }
    }

    /// Returns the bytes at a place, so many, among those that were said; fewer where there are fewer.
    pub fn said(&self, place: usize, count: u8) -> &[u8]
        ensures { result.now ≡ take count (drop place self.now.said) }
    {
        let place = place.min(self.said.len());
        let behind = &self.said[place..];
        &behind[..behind.len().min(usize::from(count))]
    }

    /// Takes bytes from the front of `piece` until the head of ServerInit came or the opening ended. Returns how many were taken, and
    /// what was heard by then. After an `AllocError` some may have been taken, and the opening is to be given up.
    pub fn hear(&mut self, piece: &[u8]) -> Result<(usize, Heard), AllocError>
        ensures taken { IfOk result (λ r. (r.0 ≤ length piece.now) × (self.new.said ≡ self.old.said ++ take r.0 piece.now)) }
        ensures heard { IfOk result (λ r. r.1 ≡ heard_by self.new.said) }
        ensures all { IfOk result (λ r. r.0 < length piece.now → is_awaited r.1 ≡ false) }
        ensures first { IfOk result (λ r. (n : ℕ) → n < r.0 → 0 < n → is_awaited (heard_by (self.old.said ++ take n piece.now)) ≡ true) }
        ensures told { self.new.told ≡ self.old.told }
    {
        let mut taken = 0;
        'bytes: for byte in piece {
            self.said.push(*byte)?;
            taken += 1;
            let heard = heard_by(&self.said);
            if !heard.is_awaited() {
                return Ok((taken, heard));
            }
        }
        Ok((taken, heard_by(&self.said)))
    }

    /// Puts what is to be answered to all that was said, and wasn't yet, into an outbox: the version, the choice of None, a ClientInit that
    /// lets others watch too. If memory is refused nothing is put there.
    pub fn answer(&mut self, out: &mut Outbox) -> Result<(), AllocError>
        ensures put { OnOk result (out.new ≡ put most_waiting (drop self.old.told (answers (answered_by (heard_by self.old.said)))) out.old) }
        ensures err { OnErr result (out.new ≡ out.old) }
        ensures same { self.new.said ≡ self.old.said }
        ensures told { OnOk result (self.new.told ≡ max self.old.told (length (answers (answered_by (heard_by self.old.said))))) }
        ensures untold { OnErr result (self.new.told ≡ self.old.told) }
    {
        let all = answers_of(heard_by(&self.said).answered());
        out.put(&all[self.told.min(all.len())..])?;
        self.told = self.told.max(all.len());
        Ok(())
    }
}
