//! What a viewer's messages do to it, and what it is answered.

ghost use Rattle.std.specs.Prelude.{◌≡◌, ℕ, List, All, OnErr, ◌++◌, ◌<◌, ◌≤◌, [], length, if◌then◌else◌};
ghost use Rattle.std.specs.Prelude.{vec_len, vec_capacity, IfOk, OnOk};
ghost use Rattle.std.specs.List.{filter_map};
ghost use Rattle.messages.specs.Reading.{rest, new_items};
ghost use Rattle.region.specs.Region.{in_rect};
ghost use Rattle.copy_schedule.specs.Marks.{requested, without_copyrect};
ghost use Rattle.viewer.specs.Hearing.{input_of, after_items, heard_reply};
ghost use Rattle.viewer.specs.Viewer.{KeptViewer, with_request, after_item};
ghost use Rattle.copy_schedule.specs.Log.{logged, IsCutEntry};
ghost use Rattle.viewer.specs.ViewerStates.{viewer_by};
ghost use Rattle.viewer.specs.Told.{viewer_told, told_unless};
ghost use Rattle.viewer.specs.Given.{marks_put};

use crate::viewer::Viewer;
use crate::views::{clipped, view_by};
use crate::{HeardPiece, Reply};
use copy_schedule::{LogEntry, Marks, joined_log};
use listed::Listed;
use messages::{Desktop, Encoding, Input, Item, Prepared, greetings};
use region::Rect;
use std::alloc::AllocError;
use updates::{Size, Translation};

/// What changes of a viewer by its messages; its format and its marks stand here only where they change.
#[derive(Drop)]
struct Draft {
    shared: bool,
    format: Option<Translation>,
    map_owed: bool,
    encoding: Encoding,
    uses_copyrect: bool,
    takes_sizes: bool,
    full_requests: u64,
    told: Option<Size>,
    marks: Option<Marks>,
}

impl Draft {
    /// Takes its viewer's SetEncodings (RFC 6143, 7.5.2): the places that await a copy are owed where CopyRect isn't listed.
    fn take_encodings(
        &mut self,
        viewer: &Viewer,
        preferred: Encoding,
        copyrect: bool,
        resize: bool,
    ) -> Result<(), AllocError>
        ensures { OnOk result (viewer_by viewer.now self.new ≡
            record (viewer_by viewer.now self.old) {
              encoding = preferred;
              uses_copyrect = copyrect;
              takes_sizes = resize;
              marks = if copyrect then marks_put viewer.now.marks self.old.marks else
                  without_copyrect (marks_put viewer.now.marks self.old.marks);
            }) }
    {
        self.encoding = preferred;
        self.uses_copyrect = copyrect;
        self.takes_sizes = resize;
        if !copyrect {
            let mut marks = viewer.marks_to_change(self.marks.take())?;
            marks.no_copyrect()?;
            self.marks = Some(marks);
        }
        Ok(())
    }

    /// Takes its viewer's FramebufferUpdateRequest (RFC 6143, 7.5.3).
    fn take_request(
        &mut self,
        viewer: &Viewer,
        rect: Rect,
        incremental: bool,
    ) -> Result<(), AllocError>
        ensures { OnOk result (viewer_by viewer.now self.new ≡
            record (viewer_by viewer.now self.old) {
              full_requests = with_request incremental self.old.full_requests;
              marks = requested (in_rect rect) incremental (marks_put viewer.now.marks self.old.marks);
            }) }
    {
        let mut marks = viewer.marks_to_change(self.marks.take())?;
        marks.request(rect, incremental)?;
        self.full_requests = with_request(incremental, self.full_requests);
        self.marks = Some(marks);
        Ok(())
    }

    /// Takes its viewer's message (RFC 6143, 7.5). With a format the colour map is owed, or is owed no longer. The ClientInit is
    /// answered with the screen's size, and a request is cut to what the viewer sees of the screen.
    fn take_item(&mut self, viewer: &Viewer, item: &Item) -> Result<(), AllocError>
        ensures { OnOk result (viewer_by viewer.now self.new ≡
            after_item viewer.now.marks.width viewer.now.marks.height item.now (viewer_by viewer.now self.old)) }
    {
        match item {
            Item::Format(format) => {
                self.format = Some(Translation::new(viewer.alloc, format)?);
                self.map_owed = format.is_colour_map();
                Ok(())
            }
            Item::Encodings {
                preferred,
                copyrect,
                resize,
            } => self.take_encodings(viewer, *preferred, *copyrect, *resize),
            Item::Request { incremental, area } => {
                let view = view_by(viewer.screen(), self.told);
                self.take_request(viewer, clipped(view, *area), *incremental)
            }
            Item::Init { shared } => {
                self.shared = *shared;
                self.told = Some(viewer.screen());
                Ok(())
            }
            _ => Ok(()),
        }
    }
}

/// Returns how many requests were not incremental, `full_requests` before one request more.
fn with_request(incremental: bool, full_requests: u64) -> u64
    ensures { result ≡ with_request incremental full_requests }
{
    if incremental {
        full_requests
    } else {
        full_requests.saturating_add(1)
    }
}

/// Returns `items` without the inputs at their front, which change nothing of a viewer.
fn without_inputs(items: &[Item]) -> &[Item]
    ensures { (w h : ℕ) (v : KeptViewer) → after_items w h result.now v ≡ after_items w h items.now v }
{
    let mut left = items;
    while let [Item::Input(_), others @ ..] = left {
        left = others;
    }
    left
}

/// Moves the inputs among `items` to `inputs`, which has the capacity.
fn inputs_of(mut items: Vec<Item>, mut inputs: Vec<Input>) -> Vec<Input>
    requires none { inputs.items ≡ [] }
    requires capacity { vec_len items ≤ vec_capacity inputs }
    ensures { result.items ≡ filter_map input_of items.items }
{
    while let Some(item) = items.pop() {
        if let Item::Input(input) = item {
            inputs.push_reserved(input);
        }
    }
    inputs.reverse();
    inputs
}

impl Viewer {
    /// Makes its marks as they are once they know the drawing of `log`, whose entries are joined first where there are several; None
    /// where the log has none.
    fn marks_after(&self, log: &[LogEntry]) -> Result<Option<Marks>, AllocError>
        requires cut { All (IsCutEntry self.now.marks.width self.now.marks.height) log.now }
        ensures { IfOk result (λ marks. marks_put self.now.marks marks ≡
            logged self.now.uses_copyrect log.now self.now.marks) }
    {
        if log.is_empty() {
            return Ok(None);
        }
        if log.len() == 1 {
            let prepared = self.marks.prepare_log(log, self.uses_copyrect)?;
            return Ok(Some(prepared.into_marks()));
        }
        let joined = joined_log(self.alloc, log, self.uses_copyrect)?;
        let prepared = self.marks.prepare_log(&joined, self.uses_copyrect)?;
        Ok(Some(prepared.into_marks()))
    }

    /// Returns `marks`, which are changed already, or else a copy of its own.
    fn marks_to_change(&self, marks: Option<Marks>) -> Result<Marks, AllocError>
        ensures { IfOk result (λ copy. copy ≡ marks_put self.now.marks marks) }
    {
        match marks {
            Some(marks) => Ok(marks),
            None => self.marks.try_clone(),
        }
    }

    /// Drafts what `items` make of it once it knows the drawing of `log`. Its marks are copied at the first message that changes
    /// them, where they aren't new already.
    fn draft_after(&self, log: &[LogEntry], items: &[Item]) -> Result<Draft, AllocError>
        requires cut { All (IsCutEntry self.now.marks.width self.now.marks.height) log.now }
        ensures { IfOk result (λ draft. viewer_by self.now draft ≡
            after_items self.now.marks.width self.now.marks.height items.now (viewer_told log.now self.now)) }
    {
        let mut draft = Draft {
            shared: self.shared,
            format: None,
            map_owed: self.map_owed,
            encoding: self.encoding,
            uses_copyrect: self.uses_copyrect,
            takes_sizes: self.takes_sizes,
            full_requests: self.full_requests,
            told: self.told,
            marks: self.marks_after(log)?,
        };
        for item in items {
            draft.take_item(self, item)?;
        }
        Ok(draft)
    }

    /// Puts `draft` in place. Takes no memory.
    fn put_draft(&mut self, draft: Draft)
        ensures { self.new ≡ viewer_by self.old draft }
    {
        let Draft {
            shared,
            format,
            map_owed,
            encoding,
            uses_copyrect,
            takes_sizes,
            full_requests,
            told,
            marks,
        } = draft;
        self.shared = shared;
        if let Some(format) = format {
            self.format = format;
        }
        self.map_owed = map_owed;
        self.encoding = encoding;
        self.uses_copyrect = uses_copyrect;
        self.takes_sizes = takes_sizes;
        self.full_requests = full_requests;
        self.told = told;
        self.put_marks(marks);
    }

    /// Takes what was heard, once its marks know the drawing of `log`, and tells whether they know it now. After an `AllocError` the
    /// viewer is as it was. Inputs alone change no marks, so these needn't know it. One request, alone or among inputs, which is what
    /// most viewers say most of the time, needs no copy of the marks where the log has no entry.
    fn take_items(&mut self, log: &[LogEntry], items: &[Item]) -> Result<bool, AllocError>
        requires cut { All (IsCutEntry self.old.marks.width self.old.marks.height) log.now }
        ensures ok { IfOk result (λ knows_log. told_unless knows_log log.now self.new ≡
            after_items self.old.marks.width self.old.marks.height items.now (viewer_told log.now self.old)) }
        ensures heard { self.new.heard ≡ self.old.heard }
        ensures err { OnErr result (self.new ≡ self.old) }
    {
        match without_inputs(items) {
            [] => Ok(false),
            [Item::Request { incremental, area }, others @ ..]
                if log.is_empty() && without_inputs(others).is_empty() => {
                let view = view_by(self.screen(), self.told);
                self.marks.request(clipped(view, *area), *incremental)?;
                self.full_requests = with_request(*incremental, self.full_requests);
                Ok(true)
            }
            items => {
                let draft = self.draft_after(log, items)?;
                self.put_draft(draft);
                Ok(true)
            }
        }
    }

    /// Tells the viewer of the drawing of `log`, the first entry's first, and then hears a piece of its bytes (RFC 6143, 7.1 to
    /// 7.5): returns what it is answered, what it tells the application, and why it is heard no further. `name` is the desktop's,
    /// which its ServerInit has (7.3.2). After an `AllocError` the viewer is as it was. Its marks are made anew once,
    /// for the log and the piece. Where the piece is inputs alone, the drawing is left to be told later.
    pub fn hear_after(
        &mut self,
        log: &[LogEntry],
        name: &[u8],
        piece: &[u8],
    ) -> Result<HeardPiece, AllocError>
        requires cut { All (IsCutEntry self.old.marks.width self.old.marks.height) log.now }
        requires name { length name.now ≤ u32.MAX }
        ensures reply { (before : List ℕ) → self.old.heard ≡ rest before →
            IfOk result (λ heard. heard.reply ≡ heard_reply self.old.marks.width self.old.marks.height name.now before piece.now) }
        ensures viewer { (before : List ℕ) → self.old.heard ≡ rest before →
            IfOk result (λ heard. told_unless heard.knows_log log.now self.new ≡
            after_items self.old.marks.width self.old.marks.height (new_items before piece.now)
            (record (viewer_told log.now self.old) { heard = rest (before ++ piece.now) })) }
        ensures width { self.new.marks.width ≡ self.old.marks.width }
        ensures height { self.new.marks.height ≡ self.old.marks.height }
        ensures err { OnErr result (self.new ≡ self.old) }
    {
        let Prepared { heard, change } = self.ear.prepare(piece)?;
        let items = heard.items.into_vec();
        let desktop = Desktop {
            width: self.marks.width() as u16,
            height: self.marks.height() as u16,
            name,
        };
        let bytes = greetings(self.alloc, &desktop, self.ear.phase(), &items)?;
        let inputs = Vec::with_capacity(self.alloc, items.len())?;
        let knows_log = self.take_items(log, &items)?;
        self.ear.commit(change);
        let reply = Reply {
            bytes: Listed::from_vec(bytes),
            inputs: Listed::from_vec(inputs_of(items, inputs)),
            fault: heard.fault,
        };
        Ok(HeardPiece { reply, knows_log })
    }
}
