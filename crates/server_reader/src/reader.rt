//! The reader.

ghost use Rattle.std.specs.Prelude.{◌≡◌, true, false, ◌<◌, ◌≤◌, [], ◌++◌, length, slice_index, IfOk, IfErr, IfSome, IfNone};
ghost use Rattle.server_reader.specs.declared.fault.ReadFault.{ReadFault};
ghost use Rattle.server_reader.specs.Faults.{IsFaultOf, IsFaultIn};
ghost use Rattle.server_reader.specs.Groups.{needed};
ghost use Rattle.server_reader.specs.Heard.{HearsAt};
ghost use Rattle.server_reader.specs.OnPicture.{StageIsOn, StepIsOn, ends_update, TurnIsOn, size_after};
ghost use Rattle.server_reader.specs.Steps.{IsRead, opened, IsStep, IsKept, IsNoMessage, work_left, is_update_end, awaits_bytes, is_between};

use crate::fault::ReadFault;
use crate::groups::missing;
use crate::heads::{read_entry, read_message, state_at};
use crate::pixels::{PIXEL, byte_count, read_pixel};
use crate::rectangles::{read_rectangle, read_rre, read_rre_part, read_source};
use crate::stage::{PixelRows, Size, Stage, State, Turn};
use crate::step::{Next, Step};
use crate::tiles::{read_tile, read_tile_part};
use arrayvec::ArrayVec;
use std::marker::Model;

/// Reads what a server says behind its ServerInit. Of what isn't read yet it keeps at most 11 bytes.
#[derive(Drop)]
pub struct Reader {
    state: State,
    held: ArrayVec<u8, 12>,
}

impl Model for Reader {
    ghost use Rattle.server_reader.specs.Steps.{View, IsView};

    ghost Value = { View };

    ghost view = { λ r. record { state = r.state; held = r.held.items } };

    ghost invariant = { λ r. IsView (record { state = r.state; held = r.held.items }) };
}

/// Returns whether an update ends next.
fn is_update_end(stage: Stage) -> bool
    ensures { result ≡ is_update_end stage }
{
    matches!(stage, Stage::UpdateEnd)
}

/// Reads a whole group of bytes. An update's end is none.
fn read_group<'a>(state: State, group: &[u8]) -> Result<Turn<'a>, ReadFault>
    requires text { state.text ≡ 0 }
    requires inner { is_update_end state.stage ≡ false }
    requires long { length group.now ≡ needed state.stage (slice_index group.now 0) }
    ensures read { IsRead state group.now result }
    ensures heard { IfOk result (λ turn. HearsAt state.stage group.now turn.step) }
    ensures on { StageIsOn state.size state.stage → IfOk result (λ turn. TurnIsOn turn) }
    ensures sized { IfOk result (λ turn. turn.state.size ≡ size_after turn.step state.size) }
    ensures why { IfErr result (λ fault. IsFaultOf state.size state.stage group.now fault) }
{
    let size = state.size;
    match state.stage {
        Stage::Message => read_message(size, group),
        Stage::UpdateEnd => unreachable!(),
        Stage::Rectangle { behind } => read_rectangle(size, behind, group),
        Stage::Pixels(rows) => Ok(read_pixel(size, rows, group)),
        Stage::Source(rectangle) => read_source(size, rectangle, group),
        Stage::Rre(rectangle) => Ok(read_rre(size, rectangle, group)),
        Stage::RreParts(parts) => Ok(read_rre_part(size, parts, group)),
        Stage::Tile(tile) => read_tile(size, tile, group),
        Stage::TileParts(parts) => Ok(read_tile_part(size, parts, group)),
        Stage::MapEntries(entries) => Ok(read_entry(size, entries, group)),
        Stage::Faulted(fault) => Err(fault),
    }
}

impl Reader {
    /// Returns a reader of what a server says of a picture of `width` columns and `height` rows (RFC 6143, 7.3.2).
    pub fn new(width: u16, height: u16) -> Reader
        ensures { result ≡ opened width height }
    {
        let state = State {
            size: Size { width, height },
            text: 0,
            stage: Stage::Message,
        };
        Reader {
            state,
            held: ArrayVec::new(),
        }
    }

    /// Returns the picture's columns and rows, as they were told last.
    pub fn size(&self) -> (u16, u16)
        ensures { result ≡ (self.now.state.size.width, self.now.state.size.height) }
    {
        (self.state.size.width, self.state.size.height)
    }

    /// Returns whether the last message was read whole, and nothing came behind it.
    pub fn is_between_messages(&self) -> bool
        ensures { result ≡ is_between self.now }
    {
        self.held.is_empty() && self.state.text == 0 && matches!(self.state.stage, Stage::Message)
    }

    /// Takes bytes of a text from the front of `piece`.
    fn read_text<'a>(&mut self, piece: &'a [u8]) -> Option<Next<'a>>
        requires { 0 < self.old.state.text }
        ensures step { IfSome result (λ next. IsStep self.old piece.now next self.new) }
        ensures on { IfSome result (λ next. StepIsOn self.new.state.size next.step) }
        ensures ended { IfSome result (λ next. ends_update next.step ≡ false) }
        ensures kept { IfNone result (IsKept self.old piece.now self.new) }
        ensures held { IfNone result (self.new ≡ record self.old { held = self.old.held ++ piece.now }) }
        ensures inside { IfNone result (awaits_bytes self.new ≡ true) }
        ensures sized { IfSome result (λ next. self.new.state.size ≡ size_after next.step self.old.state.size) }
        ensures less { IfSome result (λ next. work_left self.new next.rest.now < work_left self.old piece.now) }
    {
        if piece.is_empty() {
            return None;
        }
        let used = piece.len().min(self.state.text as usize);
        let (text, rest) = piece.split_at(used);
        self.state.text -= used as u32;
        Some(Next {
            step: Step::Text(text),
            rest,
        })
    }

    /// Takes pixels from the front of `piece`: as many whole rows as are there, or else a part of one row.
    fn read_rows<'a>(&mut self, rows: PixelRows, piece: &'a [u8]) -> Next<'a>
        requires text { self.old.state.text ≡ 0 }
        requires stage { self.old.state.stage ≡ Stage.Pixels rows }
        requires held { self.old.held ≡ [] }
        requires long { 4 ≤ length piece.now }
        ensures step { IsStep self.old piece.now result self.new }
        ensures on { StepIsOn self.new.state.size result.step }
        ensures ended { ends_update result.step ≡ false }
        ensures sized { self.new.state.size ≡ size_after result.step self.old.state.size }
        ensures less { work_left self.new result.rest.now < work_left self.old piece.now }
    {
        let area = rows.run(piece.len() / PIXEL);
        let (bytes, rest) = piece.split_at(byte_count(area));
        self.state.stage = rows.behind_run(area);
        Next {
            step: Step::Pixels { area, bytes },
            rest,
        }
    }

    /// Ends an update, which takes no bytes of `piece`.
    fn end_update<'a>(&mut self, piece: &'a [u8]) -> Next<'a>
        requires text { self.old.state.text ≡ 0 }
        requires stage { is_update_end self.old.state.stage ≡ true }
        ensures step { IsStep self.old piece.now result self.new }
        ensures on { StepIsOn self.new.state.size result.step }
        ensures ended { is_between self.new ≡ true }
        ensures sized { self.new.state.size ≡ size_after result.step self.old.state.size }
        ensures less { work_left self.new result.rest.now < work_left self.old piece.now }
    {
        self.state.stage = Stage::Message;
        Next {
            step: Step::UpdateEnd,
            rest: piece,
        }
    }

    /// Reads the group whose first bytes are held, and whose others are `last`. Holds nothing behind it.
    fn end_group<'a>(&mut self, last: &[u8]) -> Result<Turn<'a>, ReadFault>
        requires text { self.old.state.text ≡ 0 }
        requires inner { is_update_end self.old.state.stage ≡ false }
        requires long { length (self.old.held ++ last.now) ≡ needed self.old.state.stage (slice_index (self.old.held ++ last.now) 0) }
        requires short { length (self.old.held ++ last.now) ≤ 12 }
        ensures read { IsRead self.old.state (self.old.held ++ last.now) result }
        ensures heard { IfOk result (λ turn. HearsAt self.old.state.stage (self.old.held ++ last.now) turn.step) }
        ensures on { IfOk result (λ turn. TurnIsOn turn) }
        ensures sized { IfOk result (λ turn. turn.state.size ≡ size_after turn.step self.old.state.size) }
        ensures why { IfErr result (λ fault. IsFaultOf self.old.state.size self.old.state.stage (self.old.held ++ last.now) fault) }
        ensures held { self.new ≡ record self.old { held = [] } }
    {
        if self.held.is_empty() {
            return read_group(self.state, last);
        }
        self.held.try_extend_from_slice(last).unwrap();
        let read = read_group(self.state, &self.held);
        self.held.clear();
        read
    }

    /// Takes bytes of a group from the front of `piece`, and reads the group that they end, if they end it.
    fn read_head<'a>(&mut self, piece: &'a [u8]) -> Result<Option<Next<'a>>, ReadFault>
        requires text { self.old.state.text ≡ 0 }
        requires inner { is_update_end self.old.state.stage ≡ false }
        ensures step { IfOk result (λ found. IfSome found (λ next. IsStep self.old piece.now next self.new)) }
        ensures on { IfOk result (λ found. IfSome found (λ next. StepIsOn self.new.state.size next.step)) }
        ensures ended { IfOk result (λ found. IfSome found (λ next. ends_update next.step ≡ true → is_between self.new ≡ true)) }
        ensures kept { IfOk result (λ found. IfNone found (IsKept self.old piece.now self.new)) }
        ensures held { IfOk result (λ found. IfNone found (self.new ≡ record self.old { held = self.old.held ++ piece.now })) }
        ensures inside { IfOk result (λ found. IfNone found (awaits_bytes self.new ≡ true)) }
        ensures sized { IfOk result (λ found. IfSome found (λ next. self.new.state.size ≡ size_after next.step self.old.state.size)) }
        ensures fault { IfErr result (λ _. IsNoMessage self.old piece.now) }
        ensures why { IfErr result (λ fault. IsFaultIn self.old piece.now fault) }
        ensures less { IfOk result (λ found. IfSome found (λ next. work_left self.new next.rest.now < work_left self.old piece.now)) }
    {
        let missing = missing(self.state.stage, &self.held, piece);
        if piece.len() < missing {
            self.held.try_extend_from_slice(piece).unwrap();
            return Ok(None);
        }
        let (front, rest) = piece.split_at(missing);
        match self.end_group(front) {
            Ok(turn) => {
                self.state = turn.state;
                Ok(Some(Next {
                    step: turn.step,
                    rest,
                }))
            }
            Err(fault) => Err(fault),
        }
    }

    /// Does what comes next of `piece`, by the stage.
    fn read<'a>(&mut self, piece: &'a [u8]) -> Result<Option<Next<'a>>, ReadFault>
        ensures step { IfOk result (λ found. IfSome found (λ next. IsStep self.old piece.now next self.new)) }
        ensures on { IfOk result (λ found. IfSome found (λ next. StepIsOn self.new.state.size next.step)) }
        ensures ended { IfOk result (λ found. IfSome found (λ next. ends_update next.step ≡ true → is_between self.new ≡ true)) }
        ensures kept { IfOk result (λ found. IfNone found (IsKept self.old piece.now self.new)) }
        ensures held { IfOk result (λ found. IfNone found (self.new ≡ record self.old { held = self.old.held ++ piece.now })) }
        ensures inside { IfOk result (λ found. IfNone found (awaits_bytes self.new ≡ true)) }
        ensures sized { IfOk result (λ found. IfSome found (λ next. self.new.state.size ≡ size_after next.step self.old.state.size)) }
        ensures fault { IfErr result (λ _. IsNoMessage self.old piece.now) }
        ensures why { IfErr result (λ fault. IsFaultIn self.old piece.now fault) }
        ensures less { IfOk result (λ found. IfSome found (λ next. work_left self.new next.rest.now < work_left self.old piece.now)) }
    {
        if self.state.text > 0 {
            return Ok(self.read_text(piece));
        }
        if is_update_end(self.state.stage) {
            return Ok(Some(self.end_update(piece)));
        }
        if let Stage::Pixels(rows) = self.state.stage {
            if self.held.is_empty() && piece.len() >= PIXEL {
                return Ok(Some(self.read_rows(rows, piece)));
            }
        }
        self.read_head(piece)
    }

    /// Returns what the front of `piece` does, with the bytes behind it; `None` where all of it was taken, and more bytes are needed. An
    /// update's end is a step without bytes. Refuses bytes that no message goes on with: then nothing more is read, and each further
    /// call returns the same fault.
    #[tactic(auto, using(crate::proofs::StepLemmas::faulted))]
    pub fn next<'a>(&mut self, piece: &'a [u8]) -> Result<Option<Next<'a>>, ReadFault>
        ensures step { IfOk result (λ found. IfSome found (λ next. IsStep self.old piece.now next self.new)) }
        ensures on { IfOk result (λ found. IfSome found (λ next. StepIsOn self.new.state.size next.step)) }
        ensures ended { IfOk result (λ found. IfSome found (λ next. ends_update next.step ≡ true → is_between self.new ≡ true)) }
        ensures kept { IfOk result (λ found. IfNone found (IsKept self.old piece.now self.new)) }
        ensures held { IfOk result (λ found. IfNone found (self.new ≡ record self.old { held = self.old.held ++ piece.now })) }
        ensures inside { IfOk result (λ found. IfNone found (awaits_bytes self.new ≡ true)) }
        ensures sized { IfOk result (λ found. IfSome found (λ next. self.new.state.size ≡ size_after next.step self.old.state.size)) }
        ensures fault { IfErr result (λ _. IsNoMessage self.old piece.now) }
        ensures why { IfErr result (λ fault. IsFaultIn self.old piece.now fault) }
        ensures stopped { IfErr result (λ fault. self.new.state.stage ≡ Stage.Faulted fault) }
        ensures again { (fault : ReadFault) → self.old.state.stage ≡ Stage.Faulted fault → result ≡ Err fault }
        ensures less { IfOk result (λ found. IfSome found (λ next. work_left self.new next.rest.now < work_left self.old piece.now)) }
    {
        if let Stage::Faulted(fault) = self.state.stage {
            return Err(fault);
        }
        match self.read(piece) {
            Ok(found) => Ok(found),
            Err(fault) => {
                self.stop(fault);
                Err(fault)
            }
        }
    }

    /// Reads no further, because of a fault.
    fn stop(&mut self, fault: ReadFault)
        ensures { self.new.state.stage ≡ Stage.Faulted fault }
    {
        self.state = State {
            size: self.state.size,
            text: 0,
            stage: Stage::Faulted(fault),
        };
        self.held.clear();
    }
}
