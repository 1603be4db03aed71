//! One viewer that lags behind a log of drawing. Its marks catch up in one pass before they are needed.

ghost use Rattle.copy_schedule.specs.declared.LogEntry.{LogEntry};
ghost use Rattle.std.specs.Prelude.{All, true, false, ◌≡◌, ◌≢◌, ◌++◌, [], ℕ, List, None, ◌≤◌, length, IfOk, IfSome, OnOk, OnErr};
ghost use Rattle.std.specs.Option.{option_map};
ghost use Rattle.messages.specs.Reading.{rest, new_items};
ghost use Rattle.viewer.specs.Hearing.{after_items, heard_reply};
ghost use Rattle.viewer.specs.Sending.{sending_kept};
ghost use Rattle.viewer.specs.Given.{bytes_given};
ghost use Rattle.copy_schedule.specs.Log.{IsCutEntry};
ghost use Rattle.viewer.specs.Told.{viewer_told};
ghost use Rattle.viewer_list.specs.Viewers.{is_pending, IsMadeBefore};
ghost use Rattle.viewer_list.specs.Lagging.{waiting, caught_up, up_to_date, moved_where_known, IsCurrent, Fits, IsCatchUp, IsFor};

use picture::Picture;
use std::alloc::{AllocError, Global};
use viewer::{LogEntry, PreparedUpdate, Reply, Update, Viewer};

/// A viewer, and its position in the log: how many of the log's first entries its marks have taken. They lack the others.
#[derive(Drop)]
pub struct Lagging {
    pub viewer: Viewer,
    pub taken: usize,
}

/// What a viewer lacks of a log, in fewer entries: the same for each that has the same position and uses CopyRect as it does.
#[derive(Drop)]
pub struct CatchUp {
    taken: usize,
    uses_copyrect: bool,
    entries: Vec<LogEntry>,
}

impl CatchUp {
    /// Returns what a viewer at the end of `log` lacks: nothing.
    pub fn nothing(alloc: Global, log: &[LogEntry]) -> CatchUp
        ensures { IsCatchUp log.now result }
    {
        CatchUp {
            taken: log.len(),
            uses_copyrect: false,
            entries: Vec::new(alloc),
        }
    }

    /// Returns what `lagging` lacks of `log`.
    fn lacked_by(lagging: &Lagging, log: &[LogEntry]) -> Result<CatchUp, AllocError>
        requires { Fits log.now lagging.now }
        ensures shared { IfOk result (IsCatchUp log.now) }
        ensures own { IfOk result (IsFor lagging.now) }
    {
        Ok(CatchUp {
            taken: lagging.taken,
            uses_copyrect: lagging.viewer.uses_copyrect(),
            entries: lagging.viewer.joined_log(lagging.lacked(log))?,
        })
    }

    /// Returns whether `lagging` lacks this.
    fn is_for(&self, lagging: &Lagging) -> bool
        ensures { result ≡ true → IsFor lagging.now self.now }
    {
        self.taken == lagging.taken && self.uses_copyrect == lagging.viewer.uses_copyrect()
    }

    /// Becomes what `lagging` lacks of `log`, unless it is that. After an `AllocError` it is what it was.
    fn share_with(&mut self, lagging: &Lagging, log: &[LogEntry]) -> Result<(), AllocError>
        requires fits { Fits log.now lagging.now }
        requires shared { IsCatchUp log.now self.old }
        ensures shared { IsCatchUp log.now self.new }
        ensures own { OnOk result (IsFor lagging.now self.new) }
    {
        if !self.is_for(lagging) {
            *self = CatchUp::lacked_by(lagging, log)?;
        }
        Ok(())
    }
}

impl Lagging {
    /// Returns the entries of `log` that the viewer's marks lack.
    fn lacked<'a>(&self, log: &'a [LogEntry]) -> &'a [LogEntry]
        requires { self.now.taken ≤ length log.now }
        ensures { result.now ≡ waiting log.now self.now }
    {
        &log[self.taken..]
    }

    /// Returns whether the viewer's marks lack an entry of `log`.
    pub fn lags(&self, log: &[LogEntry]) -> bool
        ensures { result ≡ false → IsCurrent log.now self.now }
    {
        self.taken != log.len()
    }

    /// Applies `entries` to the viewer's marks, which lack nothing of `log` then. After an `AllocError` they are as they were.
    fn take(&mut self, log: &[LogEntry], entries: &[LogEntry]) -> Result<(), AllocError>
        requires cut { All (IsCutEntry self.old.viewer.marks.width self.old.viewer.marks.height) entries.now }
        ensures ok { OnOk result (self.new ≡
            record { viewer = viewer_told entries.now self.old.viewer; taken = length log.now }) }
        ensures err { OnErr result (self.new ≡ self.old) }
    {
        let prepared = self.viewer.prepare_log(entries)?;
        self.viewer.commit(prepared);
        self.taken = log.len();
        Ok(())
    }

    /// Applies what the viewer's marks lack of `log`, which may be shared with the viewer before it. After an `AllocError` they
    /// lack it still.
    pub fn catch_up_sharing(
        &mut self,
        log: &[LogEntry],
        shared: &mut CatchUp,
    ) -> Result<(), AllocError>
        requires fits { Fits log.now self.old }
        requires shared { IsCatchUp log.now shared.old }
        ensures ok { OnOk result (self.new ≡ up_to_date log.now self.old) }
        ensures err { OnErr result (self.new ≡ self.old) }
        ensures shared { IsCatchUp log.now shared.new }
    {
        if self.lags(log) {
            shared.share_with(self, log)?;
            self.take(log, &shared.entries)?;
        }
        Ok(())
    }

    /// Applies what the viewer's marks lack of `log`, in fewer entries where it is several. After an `AllocError` they lack it still.
    fn catch_up(&mut self, log: &[LogEntry]) -> Result<(), AllocError>
        requires { Fits log.now self.old }
        ensures ok { OnOk result (self.new ≡ up_to_date log.now self.old) }
        ensures err { OnErr result (self.new ≡ self.old) }
    {
        if !self.lags(log) {
            return Ok(());
        }
        let lacked = self.lacked(log);
        if lacked.len() == 1 {
            return self.take(log, lacked);
        }
        let shared = CatchUp::lacked_by(self, log)?;
        self.take(log, &shared.entries)
    }

    /// Moves the viewer to the end of `log` where its marks know it.
    fn move_where_known(&mut self, log: &[LogEntry], knows_log: bool)
        ensures { self.new ≡ moved_where_known knows_log log.now self.old }
    {
        if knows_log {
            self.taken = log.len();
        }
    }

    /// Hears a piece of the viewer's bytes, once its marks have caught up; they are made anew once for both. For inputs alone they
    /// needn't catch up.
    pub fn hear(&mut self, log: &[LogEntry], name: &[u8], piece: &[u8]) -> Result<Reply, AllocError>
        requires fits { Fits log.now self.old }
        requires name { length name.now ≤ u32.MAX }
        ensures reply { (before : List ℕ) → (caught_up log.now self.old).heard ≡ rest before →
            IfOk result (λ reply. reply ≡ heard_reply (caught_up log.now self.old).marks.width
            (caught_up log.now self.old).marks.height name.now before piece.now) }
        ensures viewer { (before : List ℕ) → (caught_up log.now self.old).heard ≡ rest before →
            OnOk result (caught_up log.now self.new ≡
            after_items (caught_up log.now self.old).marks.width (caught_up log.now self.old).marks.height
            (new_items before piece.now) (record (caught_up log.now self.old) { heard = rest (before ++ piece.now) })) }
        ensures width { (caught_up log.now self.new).marks.width ≡ (caught_up log.now self.old).marks.width }
        ensures height { (caught_up log.now self.new).marks.height ≡ (caught_up log.now self.old).marks.height }
        ensures fits { Fits log.now self.new }
        ensures err { OnErr result (caught_up log.now self.new ≡ caught_up log.now self.old) }
    {
        let lacked = self.lacked(log);
        let heard = self.viewer.hear_after(lacked, name, piece)?;
        self.move_where_known(log, heard.knows_log);
        Ok(heard.reply)
    }

    /// Returns whether an update that is cut now would have something to send. The marks lack the drawing still.
    pub fn is_pending(&self, log: &[LogEntry]) -> bool
        requires { Fits log.now self.now }
        ensures { result ≡ is_pending (caught_up log.now self.now) }
    {
        self.viewer.is_pending_after(self.lacked(log))
    }

    /// Cuts an update for the viewer, once its marks have caught up, and returns it with what `before` made of it before the viewer
    /// changed; None where there is nothing to send, for which the marks needn't catch up. After an `AllocError`, also of `before`,
    /// the viewer is as it was.
    pub fn cut_with<T, F: FnOnce(&PreparedUpdate) -> Result<T, AllocError>>(
        &mut self,
        log: &[LogEntry],
        picture: &mut Picture,
        limit: u32,
        before: F,
    ) -> Result<Option<(Update, T)>, AllocError>
        requires fits { Fits log.now self.old }
        requires limit { limit ≤ 1000 }
        requires width { (caught_up log.now self.old).marks.width ≡ picture.old.width }
        requires height { (caught_up log.now self.old).marks.height ≡ picture.old.height }
        requires callable { F.IsAlwaysCallable before }
        ensures same { picture.new ≡ picture.old }
        ensures bytes { IfOk result (λ cut. bytes_given (option_map (λ c. c.0) cut) ≡
            (sending_kept picture.old.width picture.old.height limit picture.old.colours (caught_up log.now self.old)).0) }
        ensures viewer { OnOk result (caught_up log.now self.new ≡
            (sending_kept picture.old.width picture.old.height limit picture.old.colours (caught_up log.now self.old)).1) }
        ensures some { IfOk result (λ cut. IfSome cut (λ c. c.0 ≢ [])) }
        ensures made { IfOk result (λ cut. IfSome cut (IsMadeBefore F.FnOnce before)) }
        ensures none { IfOk result (λ cut. cut ≡ None → caught_up log.now self.new ≡ caught_up log.now self.old) }
        ensures fits { Fits log.now self.new }
        ensures err { OnErr result (caught_up log.now self.new ≡ caught_up log.now self.old) }
    {
        if !self.is_pending(log) {
            return Ok(None);
        }
        self.catch_up(log)?;
        let Some(prepared) = self.viewer.prepare_cut(picture, limit)? else {
            return Ok(None);
        };
        let made = before(&prepared)?;
        Ok(Some((self.viewer.commit_cut(prepared), made)))
    }
}
