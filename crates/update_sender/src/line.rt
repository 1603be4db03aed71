//! A viewer's ends: a line once it connected, and then one that listens and one that speaks.

ghost use Rattle.std.specs.Prelude.{◌≡◌, ◌≤◌};
ghost use Rattle.screen.specs.declared.History.{History};
ghost use Rattle.messages.specs.Server.{server_version};
ghost use Rattle.update_sender.specs.Ends.{greeted, listened, has_cut, without_waiting};

use kept_list::KeptList;
use listed::Listed;
use messages::Input;
use screen::{History, list_for};
use std::alloc::Global;
use std::marker::Model;
use std::mem;

/// The end that hears a viewer.
#[derive(Drop)]
pub struct Listener {
    alloc: Global,
    pub(crate) viewer: u64,
    pub(crate) pieces: u64,
    pub(crate) heard: KeptList<u8>,
    // inputs that came with the opening, and wait for a queue
    pub(crate) waiting: Listed<Input>,
}

impl Model for Listener {
    ghost use Rattle.update_sender.specs.Ends.{Listening};

    ghost Value = { Listening };

    ghost view = { λ a. record { viewer = a.viewer; pieces = a.pieces; heard = a.heard.items; waiting = a.waiting } };
}

impl Listener {
    /// Returns the viewer's number.
    pub fn viewer(&self) -> u64
        ensures { result ≡ self.now.viewer }
    {
        self.viewer
    }

    /// Takes the inputs that wait, which are then no more.
    pub(crate) fn take_waiting(&mut self) -> Listed<Input>
        ensures waiting { result ≡ self.old.waiting }
        ensures rest { self.new ≡ without_waiting self.old }
    {
        let none = Listed::new(self.alloc);
        mem::replace(&mut self.waiting, none)
    }
}

/// The end that sends to it.
#[derive(Drop)]
pub struct Speaker {
    pub(crate) viewer: u64,
    pub(crate) cuts: u64,
    pub(crate) sent: KeptList<u8>,
}

impl Model for Speaker {
    ghost use Rattle.update_sender.specs.Ends.{Speaking};

    ghost Value = { Speaking };

    ghost view = { λ a. record { viewer = a.viewer; cuts = a.cuts; sent = a.sent.items } };
}

impl Speaker {
    /// Returns the viewer's number.
    pub fn viewer(&self) -> u64
        ensures { result ≡ self.now.viewer }
    {
        self.viewer
    }

    /// Counts an update more that was cut.
    pub(crate) fn count_cut(&mut self)
        ensures cut { self.new ≡ has_cut self.old }
        ensures grows { self.old.cuts ≤ self.new.cuts }
    {
        self.cuts = self.cuts.saturating_add(1);
    }
}

/// A viewer that connected: its two ends, and the version that greets it, which is to be written first.
#[derive(Drop)]
pub struct Line {
    pub(crate) listener: Listener,
    pub(crate) speaker: Speaker,
    pub(crate) version: Listed<u8>,
}

impl Model for Line {
    ghost use Rattle.std.specs.Prelude.{◌≡◌};
    ghost use Rattle.update_sender.specs.Ends.{Greeting};

    ghost Value = { Greeting };

    ghost view = { λ a. record { listener = a.listener; speaker = a.speaker; version = a.version } };

    ghost invariant = { λ a. a.listener.viewer ≡ a.speaker.viewer };
}

impl Line {
    /// Returns the viewer's number.
    pub fn viewer(&self) -> u64
        ensures { result ≡ self.now.listener.viewer }
    {
        self.listener.viewer
    }

    /// Makes the line of a viewer that has just connected.
    pub(crate) fn new(alloc: Global, viewer: u64, history: History, version: Listed<u8>) -> Line
        requires { version ≡ server_version }
        ensures { result ≡ greeted viewer history }
    {
        let listener = Listener {
            alloc,
            viewer,
            pieces: 0,
            heard: list_for(alloc, history),
            waiting: Listed::new(alloc),
        };
        let speaker = Speaker {
            viewer,
            cuts: 0,
            sent: list_for(alloc, history),
        };
        Line {
            listener,
            speaker,
            version,
        }
    }

    /// Returns its ends, and the version.
    pub(crate) fn ends(self) -> (Listener, Speaker, Listed<u8>)
        ensures listener { result.0 ≡ self.listener }
        ensures speaker { result.1 ≡ self.speaker }
        ensures version { result.2 ≡ self.version }
        ensures viewer { result.0.viewer ≡ result.1.viewer }
    {
        (self.listener, self.speaker, self.version)
    }
}
