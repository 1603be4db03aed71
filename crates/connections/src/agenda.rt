//! What a turn does: which connections are looked at, heard and written to.

ghost use Rattle.std.specs.Prelude.{◌≡◌, ℕ, ◌<◌, None, Some, IfSome, OnOk, length, slice_index_or};
ghost use Rattle.std.specs.Prelude.{true, false};
ghost use Rattle.key_set.specs.Among.{is_among};
ghost use Rattle.connections.specs.Serving.{GoesOn, GoesOnTelling, IsOver, at_key, floods_at, may_cut_at, works_at};

use crate::application::Application;
use crate::connections::Connections;
use crate::listing::{keep_asking, keep_busy, list_keys};
use crate::turn::{listen, send};
use connection::Transport;
use receipts::Ended;
use screen::ScreenError;
use std::alloc::AllocError;
use std::mem;

/// In how many turns one viewer that floods is heard, while others have something to do.
const TURNS: u32 = 8;

/// The same for one that said much of late.
const LONG_TURNS: u32 = 32;

impl<T: Transport> Connections<T> {
    /// Returns the key at an index of the agenda; None behind the last.
    fn listed(&self, index: usize) -> Option<usize>
        ensures value { index < length self.now.agenda → result ≡ Some (slice_index_or self.now.agenda index 0) }
        ensures there { IfSome result (λ key. is_among key self.now.agenda ≡ true) }
    {
        self.agenda.get(index)
    }

    /// Returns whether a connection may say more, and its last read filled the buffer or left more to be read at once, or it said much of
    /// late.
    fn is_flooding(&self, key: usize) -> bool
        ensures { result ≡ floods_at self.now.slots key }
    {
        match self.connections.get(key) {
            Some(connection) => connection.is_flooding() && connection.may_read(),
            None => false,
        }
    }

    /// Returns the number of the viewer that has the key, and why it ended, where nothing is left to be done for it.
    pub(crate) fn over_at(&self, key: usize) -> Option<(u64, Ended)>
        ensures { IfSome result (λ over. IsOver (at_key self.now.slots key) over.0 over.1) }
    {
        let connection = self.connections.get(key)?;
        let ended = connection.over()?;
        Some((connection.number(), ended))
    }

    /// Returns the first key of the agenda whose viewer ended, and for which nothing is left to be done.
    pub(crate) fn find_over(&self) -> Option<usize>
        ensures { IfSome result (λ key. is_among key self.now.agenda ≡ true) }
    {
        for index in 0..self.agenda.len() {
            let key = self.listed(index)?;
            if self.over_at(key).is_some() {
                return Some(key);
            }
        }
        None
    }

    /// Hears a piece of each on the agenda that may have one, and of those that flood of one, whose turn has come where others have
    /// something to do. Returns the key of the latter.
    pub(crate) fn listen_in_turn<A: Application>(
        &mut self,
        application: &mut A,
    ) -> Result<Option<usize>, ScreenError>
        ensures served { GoesOnTelling A.stands self.old self.new application.old application.new result }
    {
        let all_flood = self.all_flood();
        let flooding = self.listen_all(all_flood, application)?;
        self.count_turn(flooding.is_some());
        Ok(flooding)
    }

    /// Returns whether all on the agenda flood.
    fn all_flood(&self) -> bool
        ensures all { result ≡ true → (key : ℕ) → is_among key self.now.agenda ≡ true → floods_at self.now.slots key ≡ true }
        ensures some { result ≡ false → (key : ℕ) × (is_among key self.now.agenda ≡ true) × (floods_at self.now.slots key ≡ false) }
    {
        for index in 0..self.agenda.len() {
            let Some(key) = self.listed(index) else {
                return true;
            };
            if !self.is_flooding(key) {
                return false;
            }
        }
        true
    }

    /// Returns whether the turn has come of a viewer that floods, while others have something to do.
    fn has_turn(&self, key: usize) -> bool {
        let turns = match self.connections.get(key) {
            Some(connection) if connection.says_much() => LONG_TURNS,
            _ => TURNS,
        };
        self.since_flood >= turns - 1
    }

    /// Returns whether a connection of the agenda is to be heard now, in a turn in which one that floods was heard or none was: one that
    /// doesn't flood always is, and one that does where none was heard, and its turn has come or all flood.
    fn is_to_be_heard(&self, key: usize, all_flood: bool, heard_flood: bool) -> bool
        ensures calm { floods_at self.now.slots key ≡ false → result ≡ true }
        ensures one { floods_at self.now.slots key ≡ true → heard_flood ≡ true → result ≡ false }
        ensures alone { heard_flood ≡ false → all_flood ≡ true → result ≡ true }
    {
        !self.is_flooding(key) || (!heard_flood && (all_flood || self.has_turn(key)))
    }

    /// Counts a turn in which a viewer that floods was heard, or none was.
    fn count_turn(&mut self, heard_flood: bool)
        ensures { self.new ≡ self.old }
    {
        self.since_flood = if heard_flood {
            0
        } else {
            self.since_flood.saturating_add(1)
        };
    }

    /// Hears a piece of each on the agenda that may have one; of those that flood, of the first alone whose turn has come, or the first of
    /// all where all flood. Returns the key of that one.
    fn listen_all<A: Application>(
        &mut self,
        all_flood: bool,
        application: &mut A,
    ) -> Result<Option<usize>, ScreenError>
        ensures served { GoesOnTelling A.stands self.old self.new application.old application.new result }
    {
        let mut flooding = None;
        for index in 0..self.agenda.len() {
            let Some(key) = self.listed(index) else {
                return Ok(flooding);
            };
            if !self.is_to_be_heard(key, all_flood, flooding.is_some()) {
                continue;
            }
            if self.is_flooding(key) {
                flooding = Some(key);
            }
            self.listen_at(key, application)?;
        }
        Ok(flooding)
    }

    /// Hears a piece of one connection of the agenda, which may ask from now on.
    fn listen_at<A: Application>(
        &mut self,
        key: usize,
        application: &mut A,
    ) -> Result<(), ScreenError>
        requires { is_among key self.old.agenda ≡ true }
        ensures served { GoesOnTelling A.stands self.old self.new application.old application.new result }
        ensures agenda { self.new.agenda ≡ self.old.agenda }
    {
        self.asking.insert(key)?;
        self.hear_at(key, application)
    }

    /// Hears a piece of one connection of the agenda, which is among those that may ask.
    fn hear_at<A: Application>(
        &mut self,
        key: usize,
        application: &mut A,
    ) -> Result<(), ScreenError>
        requires agenda { is_among key self.old.agenda ≡ true }
        requires asking { is_among key self.old.asking ≡ true }
        ensures served { GoesOnTelling A.stands self.old self.new application.old application.new result }
        ensures agenda { self.new.agenda ≡ self.old.agenda }
    {
        match self.connections.get_mut(key) {
            Some(connection) => {
                listen(
                    &mut self.canvas,
                    connection,
                    &mut self.read_buffer,
                    self.time,
                    application,
                )
            }
            None => Ok(()),
        }
    }

    /// Writes to each on the agenda.
    pub(crate) fn send_all(&mut self)
        ensures served { GoesOn self.old self.new }
        ensures drawn { self.new.surface.drawn ≡ self.old.surface.drawn }
    {
        for index in 0..self.agenda.len() {
            let Some(key) = self.listed(index) else {
                return;
            };
            self.send_at(key);
        }
    }

    /// Writes to one connection of the agenda.
    fn send_at(&mut self, key: usize)
        requires { is_among key self.old.agenda ≡ true }
        ensures served { GoesOn self.old self.new }
        ensures agenda { self.new.agenda ≡ self.old.agenda }
        ensures drawn { self.new.surface.drawn ≡ self.old.surface.drawn }
    {
        let Some(connection) = self.connections.get_mut(key) else {
            return;
        };
        send(&mut self.canvas, connection, &mut self.write_buffer);
    }

    /// Puts the connections that drawing may have given an update on the agenda.
    pub(crate) fn list_watching(&mut self) -> Result<(), AllocError>
        ensures served { GoesOn self.old self.new }
        ensures settled { OnOk result (self.new.surface.drawn ≡ false) }
    {
        if !self.canvas.has_drawn() {
            return Ok(());
        }
        self.list_drawn()?;
        self.look_at_all();
        self.canvas.settle();
        Ok(())
    }

    /// Puts all connections on the agenda where a bell or a text was drawn, and else those that may have a request open.
    fn list_drawn(&mut self) -> Result<(), AllocError>
        ensures same { self.new ≡ record self.old { agenda = self.new.agenda; asking = self.new.asking } }
        ensures served { GoesOn self.old self.new }
        ensures listed { OnOk result ((key : ℕ) → may_cut_at self.old.slots key ≡ false → is_among key self.new.agenda ≡ false →
            (self.old.surface.noticed ≡ false) × (is_among key self.new.asking ≡ false)) }
    {
        if self.canvas.has_noticed() {
            self.list_all()
        } else {
            self.list_asking()
        }
    }

    /// Puts all connections on the agenda.
    fn list_all(&mut self) -> Result<(), AllocError>
        ensures same { self.new ≡ record self.old { agenda = self.new.agenda } }
        ensures served { GoesOn self.old self.new }
        ensures listed { OnOk result ((key : ℕ) → may_cut_at self.old.slots key ≡ false → is_among key self.new.agenda ≡ true) }
    {
        list_keys(&self.connections, &mut self.agenda)
    }

    /// Puts the connections that may have an open request on the agenda, and drops the others from `asking`.
    fn list_asking(&mut self) -> Result<(), AllocError>
        ensures same { self.new ≡ record self.old { agenda = self.new.agenda; asking = self.new.asking } }
        ensures served { GoesOn self.old self.new }
        ensures listed { OnOk result ((key : ℕ) → is_among key self.new.agenda ≡ false → is_among key self.new.asking ≡ false) }
    {
        keep_asking(
            &self.connections,
            &self.asking,
            &mut self.agenda,
            &mut self.later,
        )?;
        mem::swap(&mut self.asking, &mut self.later);
        Ok(())
    }

    /// Notes that an update may be ready for each connection of the agenda.
    fn look_at_all(&mut self)
        ensures same { self.new ≡ record self.old { slots = self.new.slots } }
        ensures served { GoesOn self.old self.new }
        ensures looked { (key : ℕ) → is_among key self.old.agenda ≡ true → may_cut_at self.new.slots key ≡ true }
        ensures others { (key : ℕ) → may_cut_at self.old.slots key ≡ true → may_cut_at self.new.slots key ≡ true }
    {
        for index in 0..self.agenda.len() {
            let Some(key) = self.listed(index) else {
                return;
            };
            self.look_at(key);
        }
    }

    /// Notes that an update may be ready for a connection of the agenda.
    fn look_at(&mut self, key: usize)
        requires { is_among key self.old.agenda ≡ true }
        ensures same { self.new ≡ record self.old { slots = self.new.slots } }
        ensures served { GoesOn self.old self.new }
        ensures looked { may_cut_at self.new.slots key ≡ true }
        ensures others { (other : ℕ) → may_cut_at self.old.slots other ≡ true → may_cut_at self.new.slots other ≡ true }
    {
        let Some(connection) = self.connections.get_mut(key) else {
            return;
        };
        connection.look(true);
    }

    /// Keeps on the agenda, in order, the connections with work left, and none else; `last` goes to the end.
    pub(crate) fn list_busy(&mut self, last: Option<usize>) -> Result<(), AllocError>
        ensures same { self.new ≡ record self.old { agenda = self.new.agenda } }
        ensures served { GoesOn self.old self.new }
        ensures left { OnOk result ((key : ℕ) → is_among key self.new.agenda ≡ true → works_at self.new.slots key ≡ true) }
    {
        keep_busy(&self.connections, &self.agenda, last, &mut self.later)?;
        mem::swap(&mut self.agenda, &mut self.later);
        Ok(())
    }
}
