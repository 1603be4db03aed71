//! A source: its connection, how far the conversation is, what of its bytes wasn't read, and what waits to be written to it.

ghost use Rattle.std.specs.Prelude.{◌≡◌, [], ◌∷◌, List, ◌+◌, ◌-◌, ◌^◌, min, length, drop, true, false, Ok, Err, Result, ℕ, IfOk, IfErr, OnOk, OnErr};
ghost use Rattle.std.specs.declared.io.Error.{Error};
ghost use Rattle.connections.specs.Drawing.{Draws};
ghost use Rattle.source_talk.specs.Opening.{View, named};
ghost use Rattle.source_talk.specs.Outbox.{nothing_waits, with_input};
ghost use Rattle.mirror.specs.Inbox.{IsFilled};
ghost use Rattle.mirror.specs.Ends.{behind_failure, behind_read, behind_write};
ghost use Rattle.mirror.specs.Sources.{first_stage, next_stage, IsEndBehind, IsEndOf, IsHeard, IsHeardOf, owes, is_shown, is_open, desktop_of, out_behind, Sends};
ghost use Rattle.mirror.specs.Pictures.{stage_begun, first_put, stage_asked, out_asked, DrawsBytes};

use crate::ends::{SourceEnd, end_by};
use crate::inbox::Inbox;
use connections::{Canvas, Input, Listed};
use source_picture::{Request, SourcePicture};
use source_talk::{Heard, Naming, Opening, Outbox};
use std::alloc::{AllocError, Global};
use std::io;
use std::io::{ErrorKind, Read, Write};

/// How many reads are made of a source in a turn, at most: 256 KB.
const READS: u32 = 4;

/// How many writes are made to a source in a turn, at most.
const WRITES: u32 = 4;

/// How far the conversation with a source is.
#[derive(Drop)]
pub(crate) enum Stage {
    /// It is opened (RFC 6143, 7.1 to 7.3).
    Opening(Opening),
    /// The name in ServerInit comes, or all of it came, and nothing was asked.
    Naming(Naming),
    /// Its picture comes (7.6).
    Picture(SourcePicture),
}

/// What a source says of its picture in its opening.
#[derive(Drop)]
pub(crate) struct Desktop {
    /// The picture's columns.
    pub width: u16,
    /// The picture's rows.
    pub height: u16,
    /// The first 255 bytes of the name.
    pub name: Listed<u8>,
}

/// How far an opening is.
#[derive(Clone, Copy)]
pub(crate) enum Opened {
    /// It is over.
    IsOver,
    /// More has to come.
    Waits,
    /// More may be there.
    HasMore,
}

/// A source.
#[derive(Drop)]
pub(crate) struct Source<S> {
    alloc: Global,
    /// The connection.
    pub stream: S,
    stage: Stage,
    out: Outbox,
    inbox: Inbox,
    // how many bytes came
    heard: u64,
}

/// Returns whether a read or a write that failed is made again at once; false where later; or why the source is left, of which so many bytes
/// came. A connection that isn't there yet is waited for.
fn behind_failure(kind: ErrorKind, heard: u64) -> Result<bool, SourceEnd>
    ensures { result ≡ behind_failure kind heard }
{
    match kind {
        ErrorKind::Interrupted => Ok(true),
        ErrorKind::WouldBlock | ErrorKind::NotConnected => Ok(false),
        ErrorKind::ConnectionReset | ErrorKind::ConnectionAborted | ErrorKind::BrokenPipe => {
            Err(SourceEnd::Closed)
        }
        ErrorKind::ConnectionRefused => Err(SourceEnd::Unreachable),
        _ if heard == 0 => Err(SourceEnd::Unreachable),
        _ => Err(SourceEnd::Failed),
    }
}

/// Returns what comes behind what was heard of an opening: the next stage, if it is another one; or why it ended.
fn stage_behind(alloc: Global, opening: &Opening, heard: Heard) -> Result<Option<Stage>, SourceEnd>
    ensures next { IfOk result (λ next. next ≡ next_stage heard) }
    ensures ended { IfErr result (λ why. IsEndBehind opening.now.said heard why) }
{
    match heard {
        Heard::Awaits(_) => Ok(None),
        Heard::Open(_, init) => Ok(Some(Stage::Naming(Naming::new(alloc, init)))),
        Heard::Ends(_, end) => Err(end_by(alloc, opening, end)?),
    }
}

/// Takes what came of an opening, and puts what it is answered into an outbox. Returns the next stage, if it is another one.
#[tactic(auto, using(crate::proofs::Hearing::memory_ends))]
fn hear_opening(
    alloc: Global,
    opening: &mut Opening,
    inbox: &mut Inbox,
    out: &mut Outbox,
) -> Result<Option<Stage>, SourceEnd>
    ensures heard { IfOk result (λ next. IsHeard opening.old inbox.old out.old opening.new inbox.new out.new next) }
    ensures ended { IfErr result (λ why. IsEndOf opening.old.said inbox.old why) }
{
    let (taken, heard) = opening.hear(inbox.bytes())?;
    inbox.forget(taken);
    opening.answer(out)?;
    stage_behind(alloc, opening, heard)
}

/// Takes what came of the name.
#[tactic(auto, using(source_talk::proofs::Lists::drop_within))]
fn hear_name(naming: &mut Naming, inbox: &mut Inbox) -> Result<(), AllocError>
    ensures named { OnOk result (naming.new ≡ named naming.old inbox.old) }
    ensures left { OnOk result (inbox.new ≡ drop naming.old.left inbox.old) }
    ensures err { OnErr result ((naming.new ≡ naming.old) × (inbox.new ≡ inbox.old)) }
{
    let taken = naming.take(inbox.bytes())?;
    inbox.forget(taken);
    Ok(())
}

/// Returns whether a source is to be heard further once a read came to this, or why it is left, of which so many bytes came: one that gives
/// none closed the connection.
fn behind_read(read: io::Result<usize>, heard: u64) -> Result<bool, SourceEnd>
    ensures { result ≡ behind_read read heard }
{
    match read {
        Ok(0) => Err(SourceEnd::Closed),
        Ok(_) => Ok(true),
        Err(error) => behind_failure(error.kind(), heard),
    }
}

/// Returns whether more is to be written once a write came to this, or why the source is left, of which so many bytes came: one that takes
/// none takes no more.
fn behind_write(written: io::Result<usize>, heard: u64) -> Result<bool, SourceEnd>
    ensures { result ≡ behind_write written heard }
{
    match written {
        Ok(0) => Err(SourceEnd::Failed),
        Ok(_) => Ok(true),
        Err(error) => behind_failure(error.kind(), heard),
    }
}

impl<S: Read + Write + Drop> Source<S> {
    /// Returns a source that said nothing yet.
    pub fn new(alloc: Global, stream: S) -> Result<Source<S>, AllocError>
        ensures stage { IfOk result (λ source. source.stage ≡ first_stage) }
        ensures out { IfOk result (λ source. source.out ≡ nothing_waits) }
        ensures inbox { IfOk result (λ source. source.inbox ≡ []) }
        ensures heard { IfOk result (λ source. source.heard ≡ 0) }
    {
        Ok(Source {
            alloc,
            stream,
            stage: Stage::Opening(Opening::new(alloc)),
            out: Outbox::new(alloc),
            inbox: Inbox::new(alloc)?,
            heard: 0,
        })
    }

    /// Puts what a viewer did behind what waits to be written. If memory is refused nothing has changed.
    pub fn put_input(&mut self, input: &Input) -> Result<(), AllocError>
        ensures ok { OnOk result (self.new ≡ record self.old { out = with_input input.now self.old.out }) }
        ensures err { OnErr result (self.new ≡ self.old) }
    {
        self.out.put_input(input)
    }

    /// Returns how many bytes came.
    pub fn heard(&self) -> u64
        ensures { result ≡ self.now.heard }
    {
        self.heard
    }

    /// Returns how many messages to it found no room.
    pub fn left_out(&self) -> u64
        ensures { result ≡ self.now.out.left_out }
    {
        self.out.left_out()
    }

    /// Returns whether its picture comes.
    pub fn is_shown(&self) -> bool
        ensures { result ≡ is_shown self.now.stage }
    {
        matches!(self.stage, Stage::Picture(_))
    }

    /// Returns whether it has to say something: its opening, its first update, or the rest of a message.
    pub fn is_owing(&self) -> bool
        ensures { result ≡ owes self.now.stage }
    {
        match &self.stage {
            Stage::Opening(_) => true,
            Stage::Naming(naming) => !naming.is_whole(),
            Stage::Picture(picture) => picture.is_owing(),
        }
    }

    /// Returns what it says of its picture, once it is open and until it is asked for the picture.
    pub fn desktop(&self) -> Result<Option<Desktop>, AllocError>
        ensures { IfOk result (λ desktop. desktop ≡ desktop_of self.now.stage) }
    {
        let Stage::Naming(naming) = &self.stage else {
            return Ok(None);
        };
        if !naming.is_whole() {
            return Ok(None);
        }
        let (width, height) = naming.size();
        Ok(Some(Desktop {
            width,
            height,
            name: Listed::from_slice(self.alloc, naming.name())?,
        }))
    }

    /// Returns whether the opening is over.
    fn is_open(&self) -> bool
        ensures { result ≡ is_open self.now.stage }
    {
        match &self.stage {
            Stage::Opening(_) => false,
            Stage::Naming(naming) => naming.is_whole(),
            Stage::Picture(_) => true,
        }
    }

    /// Reads once, where all that came before is read. Returns whether there may be something to hear; false where nothing is there yet.
    #[tactic(auto, using(crate::proofs::Hearing::nothing_came))]
    fn read_once(&mut self) -> Result<bool, SourceEnd>
        ensures same { self.new ≡ record self.old { stream = self.new.stream; inbox = self.new.inbox; heard = self.new.heard } }
        ensures full { (byte : ℕ) (rest : List ℕ) → self.old.inbox ≡ byte ∷ rest → (result ≡ Ok true) × (self.new ≡ self.old) }
        ensures read { self.old.inbox ≡ [] →
            (read : Result ℕ Error) × IsFilled (S.remaining self.old.stream) (S.remaining self.new.stream) read self.new.inbox × (result ≡ behind_read read self.new.heard) }
        ensures nothing { result ≡ Ok false → self.new.inbox ≡ [] }
        ensures heard { self.old.inbox ≡ [] → self.new.heard ≡ min (self.old.heard + length self.new.inbox) (2 ^ 64 - 1) }
    {
        if !self.inbox.is_empty() {
            return Ok(true);
        }
        let read = self.inbox.fill(&mut self.stream);
        let count = self.inbox.bytes().len();
        self.heard = self.heard.saturating_add(count as u64);
        behind_read(read, self.heard)
    }

    /// Takes what came of the opening, and answers it.
    fn hear(&mut self) -> Result<(), SourceEnd>
        ensures same { self.new ≡ record self.old { stage = self.new.stage; out = self.new.out; inbox = self.new.inbox } }
        ensures heard { OnOk result (IsHeardOf self.old.stage self.old.inbox self.old.out self.new.stage self.new.inbox self.new.out) }
        ensures ended { (opening : View) → self.old.stage ≡ Stage.Opening opening → IfErr result (λ why. IsEndOf opening.said self.old.inbox why) }
    {
        let next = match &mut self.stage {
            Stage::Opening(opening) => {
                hear_opening(self.alloc, opening, &mut self.inbox, &mut self.out)?
            }
            Stage::Naming(naming) => {
                hear_name(naming, &mut self.inbox)?;
                None
            }
            Stage::Picture(_) => None,
        };
        if let Some(stage) = next {
            self.stage = stage;
        }
        Ok(())
    }

    /// Reads what comes of the opening, 256 KB at most, and answers it; what stands behind it is left.
    pub fn open_some(&mut self) -> Result<Opened, SourceEnd>
        ensures over { result ≡ Ok Opened.IsOver → is_open self.new.stage ≡ true }
        ensures waits { result ≡ Ok Opened.Waits → (is_open self.new.stage ≡ false) × (self.new.inbox ≡ []) }
    {
        'reads: for _ in 0..READS {
            if self.is_open() {
                return Ok(Opened::IsOver);
            }
            if !self.read_once()? {
                return Ok(Opened::Waits);
            }
            self.hear()?;
        }
        Ok(Opened::HasMore)
    }

    /// Begins to show its picture, of this size: says the format of pixels and the encodings, with `raw` Raw first, and asks for all of it.
    pub fn begin(&mut self, raw: bool, width: u16, height: u16) -> Result<(), AllocError>
        ensures same { self.new ≡ record self.old { stage = self.new.stage; out = self.new.out } }
        ensures stage { OnOk result (self.new.stage ≡ stage_asked (stage_begun width height) (first_put raw self.old.out)) }
        ensures out { OnOk result (self.new.out ≡ out_asked (stage_begun width height) (first_put raw self.old.out)) }
    {
        self.out.put_first(raw)?;
        self.stage = Stage::Picture(SourcePicture::new(self.alloc, width, height));
        self.ask()
    }

    /// Requests what is to be requested, where that finds room; else it is requested later.
    fn ask(&mut self) -> Result<(), AllocError>
        ensures asked { OnOk result (self.new ≡ record self.old { stage = stage_asked self.old.stage self.old.out; out = out_asked self.old.stage self.old.out }) }
        ensures err { OnErr result (self.new ≡ self.old) }
        ensures shown { is_shown self.new.stage ≡ is_shown self.old.stage }
    {
        let Stage::Picture(picture) = &mut self.stage else {
            return Ok(());
        };
        let is_incremental = match picture.request() {
            Request::None => return Ok(()),
            Request::Changes => true,
            Request::All => false,
        };
        if !self.out.has_room_for_request() {
            return Ok(());
        }
        let (width, height) = picture.size();
        self.out.put_request(is_incremental, width, height)?;
        picture.asked();
        Ok(())
    }

    /// Draws what came, or a share of it.
    fn draw(&mut self, canvas: &mut Canvas) -> Result<(), SourceEnd>
        ensures drawn { DrawsBytes self.old.stage self.old.inbox self.new.stage self.new.inbox result canvas.old.screen canvas.new.screen }
        ensures shown { is_shown self.new.stage ≡ is_shown self.old.stage }
        ensures draws { Draws canvas.old canvas.new }
    {
        let Stage::Picture(picture) = &mut self.stage else {
            return Ok(());
        };
        let left = picture.draw(canvas, self.inbox.bytes())?.len();
        self.inbox.keep_last(left);
        Ok(())
    }

    /// Reads what it says of its picture, 256 KB at most, draws it up to a share of work, and asks for more behind whole updates. Returns whether
    /// there may be more at once.
    pub fn draw_some(&mut self, canvas: &mut Canvas) -> Result<bool, SourceEnd>
        ensures waits { result ≡ Ok false → self.new.inbox ≡ [] }
        ensures shown { is_shown self.new.stage ≡ is_shown self.old.stage }
        ensures draws { Draws canvas.old canvas.new }
    {
        'reads: for _ in 0..READS {
            if !self.read_once()? {
                return Ok(false);
            }
            self.draw(canvas)?;
            self.ask()?;
            if !self.inbox.is_empty() {
                return Ok(true);
            }
        }
        Ok(true)
    }

    /// Writes once. Returns whether more is to be written; false where it takes nothing now.
    fn write_once(&mut self) -> Result<bool, SourceEnd>
        ensures same { self.new ≡ record self.old { stream = self.new.stream; out = self.new.out } }
        ensures written { (written : Result ℕ Error) × (result ≡ behind_write written self.old.heard) × (self.new.out ≡ out_behind written self.old.out) }
        ensures sends { Sends (S.contents self.old.stream) (S.contents self.new.stream) self.old.out.bytes self.new.out.bytes }
    {
        let written = self.out.write(&mut self.stream);
        behind_write(written, self.heard)
    }

    /// Asks where there is room, and writes once, where something waits. Returns whether more may be written; false where nothing waits, and
    /// where it takes nothing now.
    fn send_once(&mut self) -> Result<bool, SourceEnd>
        ensures same { self.new ≡ record self.old { stream = self.new.stream; stage = self.new.stage; out = self.new.out } }
        ensures sends { Sends (S.contents self.old.stream) (S.contents self.new.stream) self.old.out.bytes self.new.out.bytes }
    {
        self.ask()?;
        if self.out.is_empty() {
            return Ok(false);
        }
        self.write_once()
    }

    /// Writes what waits, as far as the connection takes it, in four writes at most. Asks as soon as there is room.
    pub fn send(&mut self) -> Result<(), SourceEnd>
        ensures same { self.new ≡ record self.old { stream = self.new.stream; stage = self.new.stage; out = self.new.out } }
        ensures sends { Sends (S.contents self.old.stream) (S.contents self.new.stream) self.old.out.bytes self.new.out.bytes }
    {
        'writes: for _ in 0..WRITES {
            if !self.send_once()? {
                return Ok(());
            }
        }
        Ok(())
    }
}
