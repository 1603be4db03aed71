//! What a viewer is sent next: its screen's size, or the rectangles that the marks chose, behind what comes first.

ghost use Rattle.std.specs.Prelude.{◌≡◌, ◌≤◌, IfOk, OnOk, OnErr, [], ◌≢◌, Some, None, IfSome};
ghost use Rattle.copy_schedule.specs.Marks.{cut_of};
ghost use Rattle.viewer.specs.Sending.{with_update, sending_open, sending_kept};
ghost use Rattle.viewer.specs.Given.{bytes_given, planned_bytes, planned_viewer, prepared_bytes, after_prepared};
ghost use Rattle.updates.specs.Updates.{IsSomething};

use crate::viewer::Viewer;
use copy_schedule::{Marks, PreparedCut};
use picture::Picture;
use std::alloc::AllocError;
use updates::{Part, Size, Update};

/// What is sent of the screen next, and the size that the viewer was told and its marks once it is; the marks stand here only where
/// they change.
#[derive(Drop)]
struct Planned {
    part: Part,
    told: Option<Size>,
    marks: Option<Marks>,
}

/// An update that is prepared for a viewer, and the size that the viewer was told and its marks once it is cut; the marks stand
/// here only where they change.
#[derive(Drop)]
pub struct PreparedUpdate {
    update: Update,
    told: Option<Size>,
    marks: Option<Marks>,
}

impl PreparedUpdate {
    /// Returns the bytes that the viewer is sent, as `Update::encode` gives them.
    pub fn encode(&self) -> Result<Vec<u8>, AllocError>
        ensures { IfOk result (λ bytes. bytes.items ≡ prepared_bytes (Some self.now)) }
    {
        self.update.encode()
    }
}

impl Viewer {
    /// Plans the places that it is sent next, and its marks once they are sent; nothing where no place is wanted.
    fn plan_places(&self, picture: &mut Picture, limit: u32) -> Result<Planned, AllocError>
        requires limit { limit ≤ 1000 }
        requires width { self.now.marks.width ≡ picture.old.width }
        requires height { self.now.marks.height ≡ picture.old.height }
        ensures same { picture.new ≡ picture.old }
        ensures bytes { IfOk result (λ planned. planned_bytes self.now planned ≡
            (with_update picture.old.width picture.old.height picture.old.colours self.now (cut_of limit self.now.marks)).0) }
        ensures viewer { IfOk result (λ planned. planned_viewer self.now planned ≡
            (with_update picture.old.width picture.old.height picture.old.colours self.now (cut_of limit self.now.marks)).1) }
        ensures told { IfOk result (λ planned. planned.told ≡ self.now.told) }
        ensures none { IfOk result (λ planned. planned.part ≡ Part.Nothing → planned.marks ≡ None) }
        ensures some { IfOk result (λ planned. IsSomething planned.part) }
        ensures width { IfOk result (λ planned. IfSome planned.marks (λ m. m.width ≡ self.now.marks.width)) }
        ensures height { IfOk result (λ planned. IfSome planned.marks (λ m. m.height ≡ self.now.marks.height)) }
    {
        let Some(PreparedCut { cut, marks }) = self.marks.prepare_cut(limit)? else {
            return Ok(Planned {
                part: Part::Nothing,
                told: self.told,
                marks: None,
            });
        };
        let part = picture.places_of(self.encoding, &self.format, &cut)?;
        Ok(Planned {
            part,
            told: self.told,
            marks: Some(marks.into_marks()),
        })
    }

    /// Plans what it is sent of the screen next: a size that it is owed, where it asks, or else places. A viewer that is told a size
    /// shows nothing, so every place is owed, and it asks anew.
    fn plan(&self, picture: &mut Picture, limit: u32) -> Result<Planned, AllocError>
        requires limit { limit ≤ 1000 }
        requires width { self.now.marks.width ≡ picture.old.width }
        requires height { self.now.marks.height ≡ picture.old.height }
        ensures same { picture.new ≡ picture.old }
        ensures bytes { IfOk result (λ planned. planned_bytes self.now planned ≡
            (sending_open picture.old.width picture.old.height limit picture.old.colours self.now).0) }
        ensures viewer { IfOk result (λ planned. planned_viewer self.now planned ≡
            (sending_open picture.old.width picture.old.height limit picture.old.colours self.now).1) }
        ensures told { IfOk result (λ planned. planned.part ≡ Part.Nothing → planned.told ≡ self.now.told) }
        ensures none { IfOk result (λ planned. planned.part ≡ Part.Nothing → planned.marks ≡ None) }
        ensures some { IfOk result (λ planned. IsSomething planned.part) }
        ensures width { IfOk result (λ planned. IfSome planned.marks (λ m. m.width ≡ self.now.marks.width)) }
        ensures height { IfOk result (λ planned. IfSome planned.marks (λ m. m.height ≡ self.now.marks.height)) }
    {
        if !self.tells_size() {
            return self.plan_places(picture, limit);
        }
        let size = self.screen();
        let marks = Marks::new(self.alloc, picture.width(), picture.height());
        Ok(Planned {
            part: Part::NewSize(size),
            told: Some(size),
            marks: Some(marks),
        })
    }

    /// Cuts an update of `picture`, with at most `limit` copies and at most `limit` rectangles of colours; None where there is
    /// nothing to send. After an `AllocError` the viewer is as it was.
    pub fn cut(&mut self, picture: &mut Picture, limit: u32) -> Result<Option<Update>, AllocError>
        requires limit { limit ≤ 1000 }
        requires width { self.old.marks.width ≡ picture.old.width }
        requires height { self.old.marks.height ≡ picture.old.height }
        ensures same { picture.new ≡ picture.old }
        ensures bytes { IfOk result (λ update. bytes_given update ≡
            (sending_kept picture.old.width picture.old.height limit picture.old.colours self.old).0) }
        ensures viewer { OnOk result (self.new ≡
            (sending_kept picture.old.width picture.old.height limit picture.old.colours self.old).1) }
        ensures some { IfOk result (λ update. IfSome update (λ u. u ≢ [])) }
        ensures width { self.new.marks.width ≡ self.old.marks.width }
        ensures height { self.new.marks.height ≡ self.old.marks.height }
        ensures err { OnErr result (self.new ≡ self.old) }
    {
        match self.prepare_cut(picture, limit)? {
            None => Ok(None),
            Some(prepared) => Ok(Some(self.commit_cut(prepared))),
        }
    }

    /// Prepares an update of `picture`, with at most `limit` copies and at most `limit` rectangles of colours; None where there is
    /// nothing to send. `commit_cut` cuts it.
    pub fn prepare_cut(
        &self,
        picture: &mut Picture,
        limit: u32,
    ) -> Result<Option<PreparedUpdate>, AllocError>
        requires limit { limit ≤ 1000 }
        requires width { self.now.marks.width ≡ picture.old.width }
        requires height { self.now.marks.height ≡ picture.old.height }
        ensures same { picture.new ≡ picture.old }
        ensures bytes { IfOk result (λ prepared. prepared_bytes prepared ≡
            (sending_kept picture.old.width picture.old.height limit picture.old.colours self.now).0) }
        ensures viewer { IfOk result (λ prepared. after_prepared self.now prepared ≡
            (sending_kept picture.old.width picture.old.height limit picture.old.colours self.now).1) }
        ensures some { IfOk result (λ prepared. IfSome prepared (λ p. p.update ≢ [])) }
        ensures width { IfOk result (λ prepared. (after_prepared self.now prepared).marks.width ≡ self.now.marks.width) }
        ensures height { IfOk result (λ prepared. (after_prepared self.now prepared).marks.height ≡ self.now.marks.height) }
    {
        if !self.ear.is_open() {
            return Ok(None);
        }
        let Planned { part, told, marks } = self.plan(picture, limit)?;
        if part.is_nothing() && self.notices.is_empty() && !self.map_owed {
            return Ok(None);
        }
        let notices = self.notices.share(self.alloc)?;
        let map_owed = self.map_owed;
        let update = Update::new(self.alloc, map_owed, notices, part);
        Ok(Some(PreparedUpdate {
            update,
            told,
            marks,
        }))
    }

    /// Cuts the update that was prepared. Takes no memory.
    pub fn commit_cut(&mut self, prepared: PreparedUpdate) -> Update
        ensures update { result ≡ prepared_bytes (Some prepared) }
        ensures viewer { self.new ≡ after_prepared self.old (Some prepared) }
    {
        let PreparedUpdate {
            update,
            told,
            marks,
        } = prepared;
        self.map_owed = false;
        self.told = told;
        self.notices.clear();
        self.put_marks(marks);
        update
    }
}
