//! The listeners for viewers.

ghost use Rattle.std.specs.Prelude.{◌≡◌, ◌≢◌, ◌⊎◌, ◌<◌, ◌≤◌, ◌++◌, ◌∷◌, [], List, true, None, Err, length, map, All, OnOk, OnErr, IfErr};
ghost use Rattle.std.specs.List.{list_any};
ghost use Rattle.sockets.specs.declared.door.Door.{Door};
ghost use Rattle.sockets.specs.declared.doors.ListenError.TheVariants as error;
ghost use Rattle.std.specs.Time.{instant_nanos};
ghost use Rattle.sockets.specs.Doors.{IsAsked, IsAskedBy, IsUnreachable, asked_again, noted, noted_at};

use crate::door::{Door, Listener};
use crate::poller::{MOST_LISTENERS, Poller};
use crate::times::shorter;
use mio::net::TcpStream;
use std::alloc::Global;
use std::collections::VecDeque;
use std::time::{Duration, Instant};

/// Why a listener wasn't added.
#[derive(Clone, Copy, Debug, PartialEq, Eq)]
pub enum ListenError {
    /// The poller refused it.
    Network,
    /// Eight listeners for viewers are there already.
    TooManyListeners,
    /// Memory was refused.
    OutOfMemory,
}

/// The listeners for viewers, the one first whose turn it is to be asked.
#[derive(Drop)]
pub(crate) struct Doors {
    doors: VecDeque<Door>,
}

impl Doors {
    /// Returns no listener.
    pub fn new(alloc: Global) -> Doors
        ensures { result.doors.items ≡ [] }
    {
        Doors {
            doors: VecDeque::new(alloc),
        }
    }

    /// Adds a listener, at which a connection may wait. Refused as `TooManyListeners` where there are eight, then as `OutOfMemory` for want
    /// of memory, and then as `Network` where the poller is; nothing has changed then.
    pub fn open(&mut self, poller: &Poller, listener: Listener) -> Result<(), ListenError>
        ensures full { 8 ≤ length self.old.doors.items → result ≡ Err error.TooManyListeners }
        ensures room { length self.old.doors.items < 8 → IfErr result IsUnreachable }
        ensures opened { OnOk result ((door : Door) × (self.new.doors.items ≡ self.old.doors.items ++ door ∷ []) ×
            (door.number ≡ length self.old.doors.items) × (door.may_accept ≡ true)) }
        ensures err { OnErr result (self.new.doors.items ≡ self.old.doors.items) }
    {
        let number = self.doors.len();
        if number >= MOST_LISTENERS {
            return Err(ListenError::TooManyListeners);
        }
        if self.doors.reserve(1).is_err() {
            return Err(ListenError::OutOfMemory);
        }
        if poller.add_listener(&listener, number).is_err() {
            return Err(ListenError::Network);
        }
        self.doors.push_back_reserved(Door::new(listener, number));
        Ok(())
    }

    /// Notes that a connection waits at the listener with this number.
    pub fn note(&mut self, number: usize)
        ensures { self.new.doors.items ≡ map (noted_at number) self.old.doors.items }
    {
        for index in 0..self.doors.len() {
            let door = &mut self.doors[index];
            door.note(door.number() == number);
        }
    }

    /// Notes that a connection may wait at each of them.
    pub fn note_all(&mut self)
        ensures { self.new.doors.items ≡ map noted self.old.doors.items }
    {
        for index in 0..self.doors.len() {
            self.doors[index].note(true);
        }
    }

    /// Asks those again for which the time has come.
    pub fn retry(&mut self, now: Instant)
        ensures { self.new.doors.items ≡ map (asked_again (instant_nanos now)) self.old.doors.items }
    {
        for index in 0..self.doors.len() {
            self.doors[index].retry(now);
        }
    }

    /// Returns after how long the first of them is asked again; None where nothing is wanted of the system.
    #[tactic(auto, using(crate::proofs::DoorLemmas::asked_more, crate::proofs::DoorLemmas::asked_all))]
    pub fn retry_after(&self, now: Instant) -> Option<Duration>
        ensures { All (IsAskedBy (instant_nanos now) result) self.now.doors.items }
    {
        let mut wait = None;
        for index in 0..self.doors.len() {
            wait = shorter(wait, self.doors[index].retry_after(now));
        }
        wait
    }

    /// Returns whether a connection may wait at one of them.
    pub fn may_accept(&self) -> bool
        ensures { result ≡ list_any (λ door. door.may_accept) self.now.doors.items }
    {
        self.doors.iter().any(|door| door.may_accept())
    }

    /// Asks the listener whose turn it is, as `Door::next_stream` does, and then it is the turn of all others before it is asked again. So
    /// none is passed over, however many come by another.
    fn ask_next(&mut self, now: Instant) -> Option<TcpStream>
        ensures count { length self.new.doors.items ≡ length self.old.doors.items }
        ensures none { self.old.doors.items ≡ [] → (result ≡ None) × (self.new.doors.items ≡ []) }
        ensures some { (door : Door) (rest : List Door) → self.old.doors.items ≡ door ∷ rest →
            (asked : Door) × (self.new.doors.items ≡ rest ++ asked ∷ []) × IsAsked door asked result }
    {
        let door = self.doors.front_mut()?;
        let stream = door.next_stream(now);
        self.doors.rotate_left(1);
        stream
    }

    /// Returns a connection that waited at one of them, which are asked in turn, each once. None where none of them gives one, as
    /// `Door::next_stream` says.
    pub fn next_stream(&mut self, now: Instant) -> Option<TcpStream>
        ensures count { length self.new.doors.items ≡ length self.old.doors.items }
    {
        for _ in 0..self.doors.len() {
            if let Some(stream) = self.ask_next(now) {
                return Some(stream);
            }
        }
        None
    }
}
