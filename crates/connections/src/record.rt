//! What is written of a screen's events, where that is.

ghost use Rattle.std.specs.Prelude.{◌≡◌, ◌∷◌, [], IfOk, option_map};
ghost use Rattle.screen.specs.declared.Event.{Event};
ghost use Rattle.screen.specs.Calls.{event_of};
ghost use Rattle.record_writer.specs.Held.{bytes_held};
ghost use Rattle.recorder.specs.Events.{event_line, screen_line};
ghost use Rattle.connections.specs.Recorded.{IsFlushed, IsScribedBy, PutsWhere, held_by, is_broken};
ghost use Rattle.connections.specs.RecordedLemmas.{PutsLines, lines-nothing, lines-then};

use record_writer::RecordWriter;
use recorder::Recorder;
use screen::{Config, Drawing, Rect, Witness};
use std::alloc::{AllocError, Global};
use std::marker::Model;

/// Tells a recorder of events, where there is one.
#[derive(Drop)]
pub(crate) struct Record {
    recorder: Option<Recorder<RecordWriter>>,
}

impl Model for Record {
    ghost use Rattle.std.specs.Prelude.{Option};
    ghost use Rattle.scribe.specs.Scribing.{Scribed};

    ghost Value = { Option Scribed };

    ghost view = { λ a. a.recorder };
}

impl Record {
    /// Returns a record of nothing.
    pub fn none() -> Record
        ensures { result ≡ None }
    {
        Record { recorder: None }
    }

    /// Begins a record with the line of a configuration.
    pub fn of(alloc: Global, config: &Config, writer: RecordWriter) -> Result<Record, AllocError>
        ensures { IfOk result (λ r. IsScribedBy (bytes_held writer) (screen_line config.now) r) }
    {
        Ok(Record {
            recorder: Some(Recorder::new(alloc, writer, config)?),
        })
    }

    /// Records a drawing call that happened.
    pub fn drew(&mut self, drawing: &Drawing<'_>)
        ensures { PutsWhere (event_line (event_of drawing.now)) self.old self.new }
    {
        if let Some(recorder) = &mut self.recorder {
            recorder.drew(drawing);
        }
    }

    /// Records that a viewer connected.
    pub fn connected(&mut self, viewer: u64)
        ensures { PutsWhere (event_line (Event.Connect viewer)) self.old self.new }
    {
        if let Some(recorder) = &mut self.recorder {
            recorder.connected(viewer);
        }
    }

    /// Records a piece of a viewer's bytes that was heard.
    pub fn heard(&mut self, viewer: u64, piece: &[u8])
        ensures { PutsWhere (event_line (Event.Hear viewer piece.now)) self.old self.new }
    {
        if let Some(recorder) = &mut self.recorder {
            recorder.heard(viewer, piece);
        }
    }

    /// Records that an update was cut for a viewer.
    pub fn cut(&mut self, viewer: u64)
        ensures { PutsWhere (event_line (Event.Cut viewer)) self.old self.new }
    {
        if let Some(recorder) = &mut self.recorder {
            recorder.cut(viewer);
        }
    }

    /// Records that a viewer's connection was closed.
    pub fn closed(&mut self, viewer: u64)
        ensures { PutsWhere (event_line (Event.Close viewer)) self.old self.new }
    {
        if let Some(recorder) = &mut self.recorder {
            recorder.closed(viewer);
        }
    }

    /// Writes what waits.
    pub fn flush(&mut self)
        ensures puts { PutsWhere [] self.old self.new }
        ensures flushed { IsFlushed self.new }
    {
        if let Some(recorder) = &mut self.recorder {
            recorder.flush();
        }
    }

    /// Returns what was written so far, where it is written to memory.
    pub fn in_memory(&self) -> Option<&[u8]>
        ensures { option_map (λ bytes. bytes.now) result ≡ held_by self.now }
    {
        match &self.recorder {
            Some(recorder) => recorder.writer().in_memory(),
            None => None,
        }
    }

    /// Returns whether the record has ended before its session: a write failed, or memory for a region's rectangles was refused.
    pub fn is_broken(&self) -> bool
        ensures { result ≡ is_broken self.now }
    {
        match &self.recorder {
            Some(recorder) => recorder.is_broken(),
            None => false,
        }
    }
}

impl Witness for Record {
    ghost was_told = { λ es old new. PutsLines es old new };

    ghost nothing = { λ s. lines-nothing s };

    ghost both = { λ first second r s t. lines-then first second r s t };

    fn painted(&mut self, rect: Rect, colours: &[u32]) {
        self.drew(&Drawing::Paint { rect, colours });
    }
}
