//! The viewers of a screen, and one log of the drawing that some of them lack.
//!
//! A viewer's marks are needed where an update is cut for it, and where its messages change them. Until then it only lags: a
//! drawing call appends an entry to the log, which stands there once for all viewers, and looks for a first viewer that lags,
//! whatever they ask for. A viewer keeps its position in the log, and catches up before an update is cut for it, or before
//! bytes of it are heard that are more than inputs. Whether something is to be sent to it is read from its marks and from the
//! entries that they lack.
//! Contracts see each viewer as it would be had it been told of all drawing at once; the log is in no clause.
//!
//! The log has at most 256 entries besides joined ones, which are its first. Before a further one comes, they are joined as well:
//! where all are marks, one region takes their place, and a viewer that lacked them all lacks one entry in their place. Nobody's
//! marks are made anew for that but those of viewers that stand among the joined entries, since they connected, were heard or had
//! an update cut since the last time. So viewers that ask for nothing add nothing to what a drawing call costs, however many they
//! are. Joined entries between which no viewer stands become one once the later is at least half as large, so that each call's
//! places are joined again only as often as what is joined doubles. Where 64 of them stand, or where a copy is among the entries,
//! all viewers catch up in place of that, and the log is emptied. It is emptied, too, where no viewer lags when a drawing call comes.
//!
//! `lagging` is one viewer, `walks` what is done for each viewer in turn, `joining` how the log stays short, `notices` are the
//! viewers' bells and texts, and `resizing` is a new size of the screen.
#![tactic(auto)]

ghost use Rattle.std.specs.Prelude.{◌≡◌, ◌≢◌, ◌++◌, ◌∷◌, [], ℕ, List, All, ◌≤◌, ◌^◌, ◌==◌, not, filter, length, IsTrue, ◌↔◌, IfOk};
ghost use Rattle.std.specs.Prelude.{IfSome, OnOk, OnErr, MatchOption, MatchResult, IsOkUnless, is_some, None, Some};
ghost use Rattle.std.specs.Map.{keys_of, values_of};
ghost use Rattle.std.specs.Option.{option_map};
ghost use Rattle.client_list.specs.Connected.{changed};
ghost use Rattle.client_list.specs.declared.ConnectError.TheVariants.{NumberInUse, OutOfMemory};
ghost use Rattle.copy_schedule.specs.Log.{IsCutEntry};
ghost use Rattle.messages.specs.Reading.{rest, new_items, fault_in_rest, is_open_rest};
ghost use Rattle.updates.specs.declared.notices.Notice.{Notice};
ghost use Rattle.viewer.specs.Hearing.{after_items, heard_reply};
ghost use Rattle.viewer.specs.Sending.{sending_kept};
ghost use Rattle.viewer.specs.Given.{bytes_given};
ghost use Rattle.region.specs.Places.{longest_side};
ghost use Rattle.viewer.specs.Viewer.{KeptViewer, is_asking, settings_of, viewer_resized};
ghost use Rattle.viewer_list.specs.Viewers.{viewer_of, with_viewer, drawn, is_pending, IsMadeBefore, IsOfSize, viewer_noticed};

mod joining;
mod lagging;
mod notices;
mod resizing;
mod walks;

use client_list::{Clients, ConnectError, NoViewer};
use joining::{join_entries, start_anew};
use lagging::Lagging;
use messages::Fault;
use notices::{keep_texts, ring_all, texts};
use picture::Picture;
use resizing::{prepare_all, resize_all};
use std::alloc::{AllocError, Global};
use std::marker::Model;
use viewer::{LogEntry, PreparedUpdate, Reply, Settings, Update, Viewer};
use walks::some_lags;

/// How many entries the log has at most besides joined ones.
const MOST: usize = 256;

/// The viewers of a screen by number, in their order of connecting.
pub struct ViewerList {
    alloc: Global,
    viewers: Clients<Lagging>,
    log: Vec<LogEntry>,
    // how many of the log's first entries are joined ones
    joined: usize,
}

// Written out, so that who holds one proves one call here, and not the drop of each field.
impl Drop for ViewerList {
    fn drop(self) {
        let ViewerList {
            alloc: _alloc,
            viewers: _viewers,
            log: _log,
            joined: _joined,
        } = self;
    }
}

impl Model for ViewerList {
    ghost use Rattle.std.specs.Prelude.{min, vec_len, vec_capacity, ◌+◌, ◌-◌};
    ghost use Rattle.viewer_list.specs.Viewers.{Viewers};

    ghost Value = { Viewers };

    ghost use Rattle.viewer_list.specs.Lagging.{seen, AllFit};

    ghost view = { λ a. record {
      pairs = seen a.log.items a.viewers.pairs;
      room = min (vec_capacity a.log) (a.joined + 256) - vec_len a.log;
    } };

    ghost invariant = { λ a. AllFit a.log.items a.joined a.viewers.pairs };
}

impl ViewerList {
    /// Returns a list of no viewers. This takes no memory.
    pub fn new(alloc: Global) -> ViewerList
        ensures { result.pairs ≡ [] }
    {
        ViewerList {
            alloc,
            viewers: Clients::new(alloc),
            log: Vec::new(alloc),
            joined: 0,
        }
    }

    /// Returns how many viewers there are.
    pub fn len(&self) -> usize
        ensures { result ≡ length self.now.pairs }
    {
        self.viewers.len()
    }

    /// Returns whether there are none.
    pub fn is_empty(&self) -> bool
        ensures { IsTrue result ↔ (self.now.pairs ≡ []) }
    {
        self.viewers.is_empty()
    }

    /// Returns how many entries of drawing the log has besides joined ones, at most 256; 0 where no viewer lacks one.
    pub fn log_len(&self) -> usize
        ensures few { result ≤ 256 }
        ensures none { length self.now.pairs ≡ 0 → result ≡ 0 }
    {
        if self.viewers.is_empty() || !some_lags(&self.log, &self.viewers) {
            return 0;
        }
        self.log.len() - self.joined
    }

    /// Returns the viewers' numbers, in the order in which they connected.
    pub fn numbers(&self) -> Result<Vec<u64>, AllocError>
        ensures { IfOk result (λ numbers. numbers.items ≡ keys_of self.now.pairs) }
    {
        self.viewers.numbers(self.alloc)
    }

    /// Returns whether a viewer has the number.
    pub fn has(&self, number: u64) -> bool
        ensures { result ≡ is_some (viewer_of self.now number) }
    {
        match self.viewers.get(number) {
            Some(_) => true,
            None => false,
        }
    }

    /// Returns whether a viewer has the number. Calls for it that follow need no further look-up.
    pub fn find(&mut self, number: u64) -> bool
        ensures found { result ≡ is_some (viewer_of self.old number) }
        ensures same { self.new ≡ self.old }
    {
        self.viewers.find(number)
    }

    /// Returns whether the viewer with a number had its ServerInit (RFC 6143, 7.3.2) and met no fault, if there is such a viewer.
    pub fn is_open(&self, number: u64) -> Option<bool>
        ensures { result ≡ option_map (λ viewer. is_open_rest viewer.heard) (viewer_of self.now number) }
    {
        match self.viewers.get(number) {
            Some(lagging) => Some(lagging.viewer.is_open()),
            None => None,
        }
    }

    /// Returns why the viewer with a number is heard no further, if it met a fault, and if there is such a viewer.
    pub fn fault(&self, number: u64) -> Option<Option<Fault>>
        ensures { result ≡ option_map (λ viewer. fault_in_rest viewer.heard) (viewer_of self.now number) }
    {
        match self.viewers.get(number) {
            Some(lagging) => Some(lagging.viewer.fault()),
            None => None,
        }
    }

    /// Returns what the viewer with a number has set, if there is such a viewer.
    pub fn settings(&self, number: u64) -> Option<Settings>
        ensures { result ≡ option_map settings_of (viewer_of self.now number) }
    {
        match self.viewers.get(number) {
            Some(lagging) => Some(lagging.viewer.settings()),
            None => None,
        }
    }

    /// Returns how many requests of the viewer with a number were not incremental (RFC 6143, 7.5.3), if there is such a viewer.
    pub fn full_requests(&self, number: u64) -> Option<u64>
        ensures { result ≡ option_map (λ viewer. viewer.full_requests) (viewer_of self.now number) }
    {
        match self.viewers.get(number) {
            Some(lagging) => Some(lagging.viewer.full_requests()),
            None => None,
        }
    }

    /// Returns whether a request of the viewer with a number is unanswered (RFC 6143, 7.5.3), if there is such a viewer.
    pub fn is_asking(&self, number: u64) -> Option<bool>
        ensures { result ≡ option_map is_asking (viewer_of self.now number) }
    {
        match self.viewers.get(number) {
            Some(lagging) => Some(lagging.viewer.is_asking()),
            None => None,
        }
    }

    /// Returns whether an update that is cut now for the viewer with a number would have something to send, if there is such a viewer.
    /// This takes no memory.
    pub fn is_pending(&self, number: u64) -> Option<bool>
        ensures { result ≡ option_map is_pending (viewer_of self.now number) }
    {
        match self.viewers.get(number) {
            Some(lagging) => Some(lagging.is_pending(&self.log)),
            None => None,
        }
    }

    /// Inserts a viewer behind all others. Refuses it as `NumberInUse` where a viewer has the number, then as `OutOfMemory`; either
    /// way the viewer is dropped, and nothing else changes.
    pub fn connect(&mut self, number: u64, viewer: Viewer) -> Result<(), ConnectError>
        ensures pairs { OnOk result (self.new.pairs ≡ self.old.pairs ++ (number, viewer) ∷ []) }
        ensures refused { MatchOption (viewer_of self.old number) (IsOkUnless result OutOfMemory) (λ _. result ≡ Err NumberInUse) }
        ensures err { OnErr result (self.new ≡ self.old) }
    {
        let taken = self.log.len();
        self.viewers.connect(number, Lagging { viewer, taken })
    }

    /// Removes the viewer with a number; the others stay in their order. Refuses it as `NoViewer` where no viewer has the number, and
    /// then nothing changes. This takes no memory.
    pub fn remove(&mut self, number: u64) -> Result<(), NoViewer>
        ensures ok { OnOk result (self.new.pairs ≡ filter (λ pair. not (pair.0 == number)) self.old.pairs) }
        ensures found { MatchResult result (λ _. viewer_of self.old number ≢ None) (λ _. viewer_of self.old number ≡ None) }
        ensures err { OnErr result (self.new ≡ self.old) }
    {
        match self.viewers.remove(number) {
            Ok(_) => Ok(()),
            Err(error) => Err(error),
        }
    }

    /// Keeps a Bell for each viewer that is open and for which fewer than 64 notices wait. This takes no memory.
    pub fn ring(&mut self)
        ensures { self.new.pairs ≡ changed (viewer_noticed Notice.Bell) self.old.pairs }
    {
        ring_all(&mut self.viewers);
    }

    /// Keeps a text of at most 65,536 bytes for each viewer that is open and for which fewer than 64 notices wait. After an
    /// `AllocError` nothing has changed.
    pub fn text(&mut self, text: &[u8]) -> Result<(), AllocError>
        requires { length text.now ≤ 2 ^ 16 }
        ensures ok { OnOk result (self.new.pairs ≡ changed (viewer_noticed (Notice.CutText text.now)) self.old.pairs) }
        ensures err { OnErr result (self.new ≡ self.old) }
    {
        let notices = texts(self.alloc, &self.viewers, text)?;
        keep_texts(&mut self.viewers, text, notices);
        Ok(())
    }

    /// Gives the viewers' marks the size of a screen of `width` columns and `height` rows, 1 to 8192 each: every place is owed to each
    /// viewer, and of the places that it asked for those stay so that it sees. Empties the log. After an `AllocError` nothing has
    /// changed.
    pub fn resize(&mut self, width: u16, height: u16) -> Result<(), AllocError>
        requires columns { width ≤ longest_side }
        requires rows { height ≤ longest_side }
        ensures ok { OnOk result (self.new.pairs ≡ changed (viewer_resized width height) self.old.pairs) }
        ensures err { OnErr result (self.new ≡ self.old) }
    {
        let marks = prepare_all(self.alloc, &self.viewers, width, height)?;
        resize_all(&mut self.viewers, width, height, marks);
        self.log.clear();
        self.joined = 0;
        Ok(())
    }

    /// Makes room in the log for a drawing call, and joins its entries first where 256 stand besides joined ones. The viewers stay as
    /// they are, also after an `AllocError`.
    pub fn prepare(&mut self) -> Result<(), AllocError>
        ensures same { self.new.pairs ≡ self.old.pairs }
        ensures ok { OnOk result (1 ≤ self.new.room) }
    {
        self.tidy();
        if self.log.len() - self.joined >= MOST {
            self.joined = join_entries(self.alloc, &mut self.viewers, &mut self.log, self.joined)?;
        }
        self.log.reserve(1)
    }

    /// Tells each viewer of a drawing call, for which room was made. A copy is on each viewer's screen with its sources. Where there
    /// are no viewers, nothing is kept of the call. This takes no memory.
    pub fn commit(&mut self, call: LogEntry)
        requires room { 1 ≤ self.old.room }
        requires cut { All (λ v. IsCutEntry v.marks.width v.marks.height call) (values_of self.old.pairs) }
        ensures { self.new.pairs ≡ changed (drawn call) self.old.pairs }
    {
        if !self.viewers.is_empty() {
            self.log.push_reserved(call);
        }
    }

    /// Hears a piece of the bytes of the viewer with a number (RFC 6143, 7.1 to 7.5), and returns what it is answered, what it tells
    /// the application, and why it is heard no further. `name` is the desktop's, for its ServerInit (7.3.2). After an `AllocError`
    /// the viewers are as they were.
    pub fn hear(&mut self, number: u64, name: &[u8], piece: &[u8]) -> Result<Reply, AllocError>
        requires there { viewer_of self.old number ≢ None }
        requires name { length name.now ≤ u32.MAX }
        ensures reply { (v : KeptViewer) (before : List ℕ) → viewer_of self.old number ≡ Some v → v.heard ≡ rest before →
            IfOk result (λ reply. reply ≡ heard_reply v.marks.width v.marks.height name.now before piece.now) }
        ensures viewer { (v : KeptViewer) (before : List ℕ) → viewer_of self.old number ≡ Some v → v.heard ≡ rest before →
            OnOk result (self.new.pairs ≡ with_viewer self.old number
            (after_items v.marks.width v.marks.height (new_items before piece.now)
            (record v { heard = rest (before ++ piece.now) }))) }
        ensures size { (w h : ℕ) → All (IsOfSize w h) (values_of self.old.pairs) → All (IsOfSize w h) (values_of self.new.pairs) }
        ensures err { OnErr result (self.new.pairs ≡ self.old.pairs) }
    {
        let Some(lagging) = self.viewers.get_mut(number) else {
            unreachable!();
        };
        lagging.hear(&self.log, name, piece)
    }

    /// Cuts an update of the picture for the viewer with a number, with at most `limit` copies and `limit` rectangles of colours, and
    /// returns it with what `before` made of it before the viewer changed; None where there is nothing to send. After an
    /// `AllocError`, also of `before`, the viewers are as they were.
    pub fn cut_with<T, F: FnOnce(&PreparedUpdate) -> Result<T, AllocError>>(
        &mut self,
        number: u64,
        picture: &mut Picture,
        limit: u32,
        before: F,
    ) -> Result<Option<(Update, T)>, AllocError>
        requires there { viewer_of self.old number ≢ None }
        requires limit { limit ≤ 1000 }
        requires width { (v : KeptViewer) → viewer_of self.old number ≡ Some v → v.marks.width ≡ picture.old.width }
        requires height { (v : KeptViewer) → viewer_of self.old number ≡ Some v → v.marks.height ≡ picture.old.height }
        requires callable { F.IsAlwaysCallable before }
        ensures same { picture.new ≡ picture.old }
        ensures bytes { (v : KeptViewer) → viewer_of self.old number ≡ Some v →
            IfOk result (λ cut. bytes_given (option_map (λ c. c.0) cut) ≡
            (sending_kept picture.old.width picture.old.height limit picture.old.colours v).0) }
        ensures viewer { (v : KeptViewer) → viewer_of self.old number ≡ Some v →
            OnOk result (self.new.pairs ≡ with_viewer self.old number
            (sending_kept picture.old.width picture.old.height limit picture.old.colours v).1) }
        ensures some { IfOk result (λ cut. IfSome cut (λ c. c.0 ≢ [])) }
        ensures made { IfOk result (λ cut. IfSome cut (IsMadeBefore F.FnOnce before)) }
        ensures none { IfOk result (λ cut. cut ≡ None → self.new.pairs ≡ self.old.pairs) }
        ensures err { OnErr result (self.new.pairs ≡ self.old.pairs) }
    {
        let Some(lagging) = self.viewers.get_mut(number) else {
            unreachable!();
        };
        lagging.cut_with(&self.log, picture, limit, before)
    }

    /// Empties the log where no viewer lacks an entry.
    fn tidy(&mut self)
        ensures { self.new.pairs ≡ self.old.pairs }
    {
        if self.log.is_empty() {
            return;
        }
        if !some_lags(&self.log, &self.viewers) {
            start_anew(&mut self.viewers, &mut self.log);
            self.joined = 0;
        }
    }
}
