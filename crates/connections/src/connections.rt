//! All connections of a screen's viewers.

ghost use Rattle.std.specs.Prelude.{◌≡◌, ◌++◌, ◌∷◌, ◌+◌, ◌^◌, [], List, ℕ, ◌<◌, ◌≤◌, None, Some, Err, IfOk, IfSome, OnOk, OnErr, length};
ghost use Rattle.std.specs.Prelude.{true, false, not, ◌||◌, ◌==◌, is_some, count_by, IsSomeAnd, MatchOption, IsOkUnless, option_map, ◌≢◌};
ghost use Rattle.std.specs.Borrow.{sem};
ghost use Rattle.screen.specs.declared.Config.{Config};
ghost use Rattle.screen.specs.declared.Event.{Event};
ghost use Rattle.screen.specs.Alone.{config_refusal};
ghost use Rattle.key_set.specs.Among.{is_among};
ghost use Rattle.connections.specs.Recorded.{IsFlushed, IsRecordedBy, held_by, is_broken};
ghost use Rattle.record_writer.specs.Held.{bytes_held};
ghost use Rattle.receipts.specs.declared.Ended.TheVariants as ended;
ghost use Rattle.connections.specs.Serving.{Began, GoesOn, GoesOnTelling, HasNothingToDo, Serves, WasServed, at_key, is_kept, is_open_on, number_at, works_at};
ghost use Rattle.connection.specs.Connection.{ended_by, ViewerConnection, noted_by};
ghost use Rattle.connection.specs.Recording.{none_yet};
ghost use Rattle.connections.specs.Telling.{Leaves, Left, words_after, releases, says, said_by, IsTold, Stays};
ghost use Rattle.connections.specs.Lending.{lends_canvas};

use crate::application::Application;
use crate::canvas::Canvas;
use crate::listing::key_of;
use crate::record::Record;
use crate::turn::{PIECE, release};
use connection::{Connection, Departed, Readiness, Transport};
use held_inputs::HeldInputs;
use key_set::KeySet;
use receipts::{Ended, Receipt};
use record_writer::RecordWriter;
use screen::{Config, History, Screen, ScreenError, config_refusal, held_as_alone};
use slab::Slab;
use std::alloc::{AllocError, Global};
use std::marker::Model;
use std::time::Duration;
use viewer::STREAM_BUFFER;

/// Returns whether what moves is kept, beside the history.
fn is_kept(history: History) -> bool
    ensures { result ≡ is_kept history }
{
    matches!(history, History::Kept)
}

/// Returns whether a viewer had its ServerInit, and met no fault; false where there is none with the number.
fn is_open(screen: &Screen, viewer: u64) -> bool
    ensures { result ≡ is_open_on screen.now (Some viewer) }
{
    match screen.is_open(viewer) {
        Ok(is_open) => is_open,
        Err(_) => false,
    }
}

/// A screen with its viewers' connections.
pub struct Connections<T: Transport> {
    alloc: Global,
    pub(crate) canvas: Canvas,
    pub(crate) connections: Slab<Connection<T>>,
    // whether what moves is kept
    is_kept: bool,
    // the number of the next viewer
    next: u64,
    // the keys of the connections that are to be looked at, of those that may have a request open (and perhaps of others), and a set in
    // which the next ones are listed
    pub(crate) agenda: KeySet,
    pub(crate) asking: KeySet,
    pub(crate) later: KeySet,
    // how many turns there were since a viewer that floods was heard
    pub(crate) since_flood: u32,
    // the time that it is, in milliseconds
    pub(crate) time: u64,
    // for what is read, and what is written
    pub(crate) read_buffer: [u8; PIECE],
    pub(crate) write_buffer: Vec<u8>,
}

// Written out, so that who holds one proves one call here, and not the drop of each field.
impl<T: Transport> Drop for Connections<T> {
    fn drop(self) {
        let Connections {
            alloc: _alloc,
            canvas: _canvas,
            connections: _connections,
            is_kept: _is_kept,
            next: _next,
            agenda: _agenda,
            asking: _asking,
            later: _later,
            since_flood: _since_flood,
            time: _time,
            read_buffer: _read_buffer,
            write_buffer: _write_buffer,
        } = self;
    }
}

impl<T: Transport> Model for Connections<T> {
    ghost use Rattle.connections.specs.Serving.{Serving};

    ghost Value = { Serving };

    ghost view = { λ a. record { surface = a.canvas; kept = a.is_kept; next = a.next; slots = a.connections.slots; vacant = a.connections.vacant_key; agenda = a.agenda.list; asking = a.asking.list } };
}

impl<T: Transport> Connections<T> {
    /// Returns a screen that is 0 everywhere, with no viewer. Refused as `Screen::new` is.
    pub fn new(alloc: Global, config: Config) -> Result<Connections<T>, ScreenError>
        ensures serves { (began : Began) → began.held ≡ None → IfOk result (λ connections. Serves config began [] connections) }
        ensures accepted { OnOk result (config_refusal config ≡ None) }
        ensures refused { MatchOption (config_refusal config) (IsOkUnless result ScreenError.OutOfMemory) (λ e. result ≡ Err e) }
    {
        Connections::with(alloc, config, Record::none())
    }

    /// Returns the same, and writes what happens to the screen as a session: its configuration, and each event that happens, as
    /// `recorder` says it. Where a write fails the record ends, and nothing else changes. What waits is written by `flush_record`.
    pub fn recorded(
        alloc: Global,
        config: Config,
        writer: RecordWriter,
    ) -> Result<Connections<T>, ScreenError>
        ensures serves { (began : Began) → began.held ≡ Some (bytes_held writer) → IfOk result (λ connections. Serves config began [] connections) }
        ensures accepted { OnOk result (config_refusal config ≡ None) }
        ensures refused { MatchOption (config_refusal config) (IsOkUnless result ScreenError.OutOfMemory) (λ e. result ≡ Err e) }
    {
        let name = config.name.as_slice();
        if let Some(refusal) = config_refusal(
            config.width,
            config.height,
            name,
            config.rects_per_update,
        ) {
            return Err(refusal);
        }
        let session = Record::of(alloc, &config, writer)?;
        Connections::with(alloc, config, session)
    }

    /// Returns the same, with a record of the screen's events.
    fn with(alloc: Global, config: Config, session: Record) -> Result<Connections<T>, ScreenError>
        ensures serves { (began : Began) → IfSome began.held (λ held. IsRecordedBy held config [] session) → IfOk result (λ connections. Serves config began [] connections) }
        ensures accepted { OnOk result (config_refusal config ≡ None) }
        ensures refused { MatchOption (config_refusal config) (IsOkUnless result ScreenError.OutOfMemory) (λ e. result ≡ Err e) }
    {
        let is_kept = is_kept(config.history);
        let screen = Screen::new(alloc, config)?;
        Ok(Connections {
            alloc,
            is_kept,
            canvas: Canvas::new(screen, session),
            connections: Slab::new(alloc),
            next: 1,
            agenda: KeySet::new(alloc),
            asking: KeySet::new(alloc),
            later: KeySet::new(alloc),
            since_flood: 0,
            time: 0,
            read_buffer: [0; PIECE],
            write_buffer: Vec::with_capacity(alloc, STREAM_BUFFER)?,
        })
    }

    /// Returns how many viewers are connected.
    pub fn len(&self) -> usize
        ensures { result ≡ count_by is_some self.now.slots }
    {
        self.connections.len()
    }

    /// Returns whether no viewer is connected.
    pub fn is_empty(&self) -> bool
        ensures { result ≡ (count_by is_some self.now.slots == 0) }
    {
        self.connections.is_empty()
    }

    /// Returns the key that the next connection is to have, unless another one ends before.
    pub fn next_key(&self) -> usize
        ensures key { result ≡ self.now.vacant }
        ensures none { at_key self.now.slots result ≡ None }
    {
        self.connections.vacant_key()
    }

    /// Returns whether something can be done in a turn at once, without anything more being ready. Where not, nothing can be done for any
    /// connection until its transport is found ready or something is drawn.
    pub fn is_busy(&self) -> bool
        ensures busy { result ≡ (not (length self.now.agenda == 0) || self.now.surface.drawn) }
        ensures rests { (config : Config) (began : Began) (list : List Event) → Serves config began list self.now → result ≡ false →
            (key : ℕ) (connection : ViewerConnection) → at_key self.now.slots key ≡ Some connection → HasNothingToDo config list connection }
    {
        !self.agenda.is_empty() || self.canvas.has_drawn()
    }

    /// Sets the time, in milliseconds since some moment. It tells who says much: of what a viewer said, 64 bytes are forgotten in each
    /// millisecond. Where no time is told, nothing is forgotten.
    pub fn set_time(&mut self, milliseconds: u64)
        ensures { self.new ≡ self.old }
    {
        self.time = milliseconds;
    }

    /// Writes what waits of the record. `turn` writes none of it but where the record's buffer is full.
    pub fn flush_record(&mut self)
        ensures served { GoesOn self.old self.new }
        ensures flushed { IsFlushed self.new.surface.scribed }
    {
        self.canvas.flush_record();
    }

    /// Returns what was written of the record so far, where it is written to memory; None without a record, and where it goes to a file.
    pub fn record_in_memory(&self) -> Option<&[u8]>
        ensures { option_map (λ bytes. bytes.now) result ≡ held_by self.now.surface.scribed }
    {
        self.canvas.record_in_memory()
    }

    /// Returns whether the record has ended before its session: a write failed, or memory for a region's rectangles was refused. Nothing
    /// more is written of it then.
    pub fn is_record_broken(&self) -> bool
        ensures { result ≡ is_broken self.now.surface.scribed }
    {
        self.canvas.is_record_broken()
    }

    /// Returns the screen, to be looked at.
    pub fn screen(&self) -> &Screen
        ensures { result.now ≡ self.now.surface.screen }
    {
        self.canvas.screen()
    }

    /// Returns the screen to draw on. What is drawn is sent in the next turns.
    pub fn canvas(&mut self) -> &mut Canvas
        ensures* writes_back { sem 𝓛 (lends_canvas T.row T.Transport self.entry result) }
        ensures value { result.now ≡ self.old.surface }
    {
        &mut self.canvas
    }

    /// Takes in a viewer's transport, whose bytes may be read and written at once, and returns the connection's key. Refused as
    /// `NumberInUse` after 2^64 - 2 viewers, and before that for want of memory alone; then nothing has changed.
    pub fn admit(&mut self, transport: T) -> Result<usize, ScreenError>
        ensures serves { (config : Config) (began : Began) (list : List Event) → Serves config began list self.old →
            began.carried self.old.next ≡ record { unread = T.unread transport; written = T.written transport; sent = none_yet self.old.kept } →
            OnOk result (Serves config began (list ++ Event.Connect self.old.next ∷ []) self.new) }
        ensures key { IfOk result (λ key. key ≡ self.old.vacant) }
        ensures viewer { IfOk result (λ key. number_at self.new.slots key ≡ Some self.old.next) }
        ensures full { 2 ^ 64 ≤ self.old.next + 1 → result ≡ Err ScreenError.NumberInUse }
        ensures refused { (config : Config) (began : Began) (list : List Event) → Serves config began list self.old →
            self.old.next + 1 < 2 ^ 64 → IsOkUnless result ScreenError.OutOfMemory }
        ensures err { OnErr result (self.new ≡ self.old) }
    {
        let Some(next) = self.next.checked_add(1) else {
            return Err(ScreenError::NumberInUse);
        };
        held_as_alone();
        self.connections.reserve(1)?;
        let most = self.connections.vacant_key();
        self.agenda.make_room(most)?;
        self.asking.make_room(most)?;
        self.later.make_room(most)?;
        let version = self.canvas.connect(self.next)?;
        let mut connection = Connection::new(
            self.alloc,
            transport,
            self.next,
            self.is_kept,
            self.time,
        );
        connection.give(version.as_slice(), None);
        let key = self.connections.insert_reserved(connection);
        self.agenda.insert_reserved(key);
        self.asking.insert_reserved(key);
        self.next = next;
        Ok(key)
    }

    /// Returns the number of the viewer that has the key.
    pub fn viewer(&self, key: usize) -> Option<u64>
        ensures { result ≡ number_at self.now.slots key }
    {
        let connection = self.connections.get(key)?;
        Some(connection.number())
    }

    /// Returns the transport of the viewer that has the key, to be looked at.
    pub fn transport(&self, key: usize) -> Option<&T>
        ensures { MatchOption (at_key self.now.slots key) (result ≡ None) (λ e. IsSomeAnd result (λ transport. (T.unread transport.now ≡ e.carried.unread) × (T.written transport.now ≡ e.carried.written))) }
    {
        let connection = self.connections.get(key)?;
        Some(connection.transport())
    }

    /// Returns how many updates were cut for the viewer that has the key.
    pub fn cuts(&self, key: usize) -> Option<u64>
        ensures { result ≡ option_map (λ e. e.counts.cuts) (at_key self.now.slots key) }
    {
        let connection = self.connections.get(key)?;
        Some(connection.cuts())
    }

    /// Returns the time at which the last bytes came of the viewer that has the key, or, before any came, the viewer itself. It is the time
    /// that `set_time` told last before.
    pub fn heard_at(&self, key: usize) -> Option<u64>
        ensures { result ≡ option_map (λ e. e.known.since) (at_key self.now.slots key) }
    {
        let connection = self.connections.get(key)?;
        Some(connection.heard_at())
    }

    /// Returns the key of the viewer with a number; None where it isn't connected.
    pub fn key_of(&self, viewer: u64) -> Option<usize>
        ensures found { IfSome result (λ key. number_at self.now.slots key ≡ Some viewer) }
        ensures none { result ≡ None → (key : ℕ) → number_at self.now.slots key ≢ Some viewer }
    {
        key_of(&self.connections, viewer)
    }

    /// Tells the application that a viewer connected.
    pub fn tell_came<A: Application>(
        &mut self,
        viewer: u64,
        application: &mut A,
    ) -> Result<(), ScreenError>
        ensures served { GoesOn self.old self.new }
        ensures same { self.new ≡ record self.old { surface = self.new.surface } }
        ensures stands { Stays A.stands application.old application.new }
    {
        application.came(&mut self.canvas, viewer)
    }

    /// Tells the application that a viewer ended, by its receipt, and before that, as inputs of this viewer, the releases of the keys and
    /// buttons that it held down.
    pub fn tell_left<A: Application>(
        &mut self,
        held: HeldInputs,
        receipt: Receipt,
        application: &mut A,
    ) -> Result<(), ScreenError>
        ensures served { GoesOn self.old self.new }
        ensures told { IsTold A.stands (said_by receipt.viewer (releases held) ++ Left receipt ∷ []) application.old application.new result }
    {
        release(&mut self.canvas, receipt.viewer, held, application)?;
        application.left(&mut self.canvas, receipt)
    }

    /// Tells the application that its time has come. Returns after how long the next one comes, if one does.
    pub fn tick<A: Application>(
        &mut self,
        application: &mut A,
    ) -> Result<Option<Duration>, ScreenError>
        ensures served { GoesOn self.old self.new }
        ensures stands { Stays A.stands application.old application.new }
    {
        application.tick(&mut self.canvas)
    }

    /// Tells the application that another thread woke it.
    pub fn tell_woken<A: Application>(&mut self, application: &mut A) -> Result<(), ScreenError>
        ensures served { GoesOn self.old self.new }
        ensures stands { Stays A.stands application.old application.new }
    {
        application.woken(&mut self.canvas)
    }

    /// Tells the application that a stream of its own is ready. Returns whether it is to be told in the next turn too.
    pub fn tell_ready<A: Application>(
        &mut self,
        found: Readiness,
        application: &mut A,
    ) -> Result<bool, ScreenError>
        ensures served { GoesOn self.old self.new }
        ensures stands { Stays A.stands application.old application.new }
    {
        application.ready(&mut self.canvas, found)
    }

    /// Returns whether the viewer that has the key had its ServerInit (RFC 6143, 7.3.2), and met no fault.
    pub fn is_open(&self, key: usize) -> bool
        ensures { result ≡ is_open_on self.now.surface.screen (number_at self.now.slots key) }
    {
        match self.viewer(key) {
            Some(viewer) => is_open(self.canvas.screen(), viewer),
            None => false,
        }
    }

    /// Notes what a connection's transport was found ready for, where one has the key. It is looked at in the next turn. Memory for this
    /// was reserved when it was admitted.
    pub fn note(&mut self, key: usize, found: Readiness) -> Result<(), AllocError>
        ensures served { GoesOn self.old self.new }
        ensures same { self.new ≡ record self.old { slots = self.new.slots; agenda = self.new.agenda } }
        ensures noted { OnOk result (at_key self.new.slots key ≡ option_map (noted_by found) (at_key self.old.slots key)) }
        ensures others { (other : ℕ) → other ≢ key → at_key self.new.slots other ≡ at_key self.old.slots other }
    {
        self.agenda.insert(key)?;
        self.note_at(key, found);
        Ok(())
    }

    /// Notes what the transport of a connection of the agenda was found ready for.
    fn note_at(&mut self, key: usize, found: Readiness)
        requires { is_among key self.old.agenda ≡ true }
        ensures served { GoesOn self.old self.new }
        ensures same { self.new ≡ record self.old { slots = self.new.slots } }
        ensures noted { at_key self.new.slots key ≡ option_map (noted_by found) (at_key self.old.slots key) }
        ensures others { (other : ℕ) → other ≢ key → at_key self.new.slots other ≡ at_key self.old.slots other }
    {
        let Some(connection) = self.connections.get_mut(key) else {
            return;
        };
        connection.note(found);
    }

    /// Lets a viewer go, as one that was closed (`Ended::Closed`), once what waits for it is written; nobody where none has the key. After
    /// an `AllocError` nothing has changed.
    pub fn close(&mut self, key: usize) -> Result<(), AllocError>
        ensures served { GoesOn self.old self.new }
        ensures same { self.new ≡ record self.old { slots = self.new.slots; agenda = self.new.agenda } }
        ensures ended { OnOk result (at_key self.new.slots key ≡ option_map (ended_by ended.Closed) (at_key self.old.slots key)) }
        ensures others { (other : ℕ) → other ≢ key → at_key self.new.slots other ≡ at_key self.old.slots other }
        ensures err { OnErr result (self.new ≡ self.old) }
    {
        self.agenda.insert(key)?;
        self.end_at(key, Ended::Closed);
        Ok(())
    }

    /// Lets a viewer go at once, as one that the application refused (`Ended::Gate`): what waits for it isn't written. Nobody where none
    /// has the key. After an `AllocError` nothing has changed.
    pub fn refuse(&mut self, key: usize) -> Result<(), AllocError>
        ensures served { GoesOn self.old self.new }
        ensures same { self.new ≡ record self.old { slots = self.new.slots; agenda = self.new.agenda } }
        ensures ended { OnOk result (at_key self.new.slots key ≡ option_map (ended_by ended.Gate) (at_key self.old.slots key)) }
        ensures others { (other : ℕ) → other ≢ key → at_key self.new.slots other ≡ at_key self.old.slots other }
        ensures err { OnErr result (self.new ≡ self.old) }
    {
        self.agenda.insert(key)?;
        self.end_at(key, Ended::Gate);
        Ok(())
    }

    /// Ends a connection of the agenda, for this reason.
    fn end_at(&mut self, key: usize, ended: Ended)
        requires { is_among key self.old.agenda ≡ true }
        ensures served { GoesOn self.old self.new }
        ensures same { self.new ≡ record self.old { slots = self.new.slots } }
        ensures ended { at_key self.new.slots key ≡ option_map (ended_by ended) (at_key self.old.slots key) }
        ensures others { (other : ℕ) → other ≢ key → at_key self.new.slots other ≡ at_key self.old.slots other }
    {
        let Some(connection) = self.connections.get_mut(key) else {
            return;
        };
        connection.close(ended);
    }

    /// Takes one turn. Of each connection on the agenda it reads and hears one piece of at most 128 bytes, and tells the application what
    /// that says. Of those whose last read gave so many or left more to be read at once, or that said more than 64 KB of late, only one is
    /// heard in a turn, in the order in which they wait; and while others have something to do, eight turns after the one before it, or 32
    /// where it said so much. Then it writes to each what it was given, and cuts updates, in at most four writes of at most 65,536 bytes.
    ///
    /// Then, unless an error ended it, nothing is noted as drawn, and only those are on the agenda for whom something can be done at once.
    ///
    /// Whatever list of events the screen stood for, it stands for it with others behind it, and by that list each viewer is served:
    /// what was read of it is what the screen heard of it, and what was written to it is, with what waits for it, what the screen with
    /// this one viewer gives, or the beginning of that where the viewer ended by a failure. Whatever the application stood for, it stands
    /// for that with the inputs of the events behind it, or the first of these where an error ended the turn.
    pub fn turn<A: Application>(&mut self, application: &mut A) -> Result<(), ScreenError>
        ensures served { GoesOnTelling A.stands self.old self.new application.old application.new result }
        ensures settled { OnOk result (self.new.surface.drawn ≡ false) }
        ensures left { OnOk result ((key : ℕ) → is_among key self.new.agenda ≡ true → works_at self.new.slots key ≡ true) }
    {
        let flooding = self.listen_in_turn(application)?;
        self.list_watching()?;
        self.send_all();
        self.list_busy(flooding)?;
        Ok(())
    }

    /// Closes a viewer that ended, and for which nothing is left to be done, and returns what is left of it. None where there is none;
    /// where memory is refused to close it, it is given later. `tell_left` is to tell the application of it. What is left was served by the
    /// events, of which the last closes the viewer.
    pub fn take_departed(&mut self) -> Option<Departed<T>>
        ensures served { (config : Config) (began : Began) (list : List Event) → Serves config began list self.old →
            (more : List Event) × Serves config began (list ++ more) self.new ×
            MatchOption result (words_after config list more ≡ []) (λ d.
            (words_after config list more ≡ says d.receipt.viewer (releases d.held) ++ Leaves d.receipt.viewer ∷ []) ×
            (more ≡ Event.Close d.receipt.viewer ∷ []) ×
            WasServed config (list ++ more) (began.carried d.receipt.viewer) T.unread T.written d.transport d.receipt) }
    {
        let key = self.find_over()?;
        let (viewer, ended) = self.over_at(key)?;
        let Ok(()) = self.canvas.close(viewer) else {
            return None;
        };
        self.agenda.remove(key);
        self.asking.remove(key);
        let connection = self.connections.try_remove(key)?;
        Some(connection.into_departed(ended))
    }
}
