//! The application: what the source says is drawn, and what viewers do is handed on to it.

ghost use Rattle.std.specs.Prelude.{◌≡◌, ◌⊎◌, ◌++◌, ◌∷◌, [], None, Some, Ok, Err, true, false, IfOk, OnOk, OnErr, IfSome, IsSomeAnd, is_some, string_bytes};
ghost use Rattle.screen.specs.Alone.{size_refusal};
ghost use Rattle.connections.specs.Drawing.{Draws};
ghost use Rattle.mirror.specs.Sources.{is_shown, is_open, Sends};
ghost use Rattle.mirror.specs.Mirrors.{source_desktop, handed_on, IsNew, IsLookedAt, is_silent, silent_behind};
ghost use Rattle.mirror.specs.declared.source.Desktop.{Desktop};
ghost use Rattle.mirror.specs.declared.source.Source.{Source};

use crate::ends::{SourceEnd, Text, left_line};
use crate::source::{Desktop, Opened, Source};
use connections::{Application, Canvas, Draw, Input, Readiness, Receipt, ScreenError};
use screen::size_refusal;
use std::alloc::{AllocError, Global};
use std::io::{Read, Write};
use std::mem;
use std::time::Duration;

/// After how many seconds a source is looked at, and one that went is tried again.
const LOOK: u64 = 1;

/// For how many looks a source may say nothing where it has to say something.
const PATIENCE: u32 = 10;

/// How a source is watched.
#[derive(Clone, Copy)]
pub(crate) struct Manner {
    /// What viewers do isn't handed on.
    pub view_only: bool,
    /// Raw is preferred.
    pub raw: bool,
}

/// A mirror, over connections of a kind.
#[derive(Drop)]
pub(crate) struct Mirror<S> {
    alloc: Global,
    manner: Manner,
    /// The source, be it in its opening.
    pub source: Option<Source<S>>,
    // there is a screen: what the source says is drawn
    has_screen: bool,
    // a connection is to be made
    wants_source: bool,
    // how many bytes of the source came by the last look, and how many looks it has been silent
    heard: u64,
    silent: u32,
    // lines that are to be printed
    news: String,
    // the line that said why the last source went, which isn't said twice
    last_line: String,
    // viewers that came, and weren't printed
    came: Vec<u64>,
}

/// Returns the line that says that a source came.
fn came_line(alloc: Global, desktop: &Desktop) -> Result<String, AllocError> {
    let (width, height) = (desktop.width, desktop.height);
    let name = Text(desktop.name.as_slice());
    format!(in alloc; "source came: {width} by {height}, {name}\n")
}

/// Gives the screen the size of a source's picture, where it has another.
fn resize(canvas: &mut Canvas, width: u32, height: u32) -> Result<(), ScreenError>
    ensures draws { Draws canvas.old canvas.new }
{
    let screen = canvas.screen();
    if screen.width() == width && screen.height() == height {
        return Ok(());
    }
    canvas.new_framebuffer(width, height)
}

impl<S: Read + Write + Drop> Mirror<S> {
    /// Returns a mirror that wants a source, and has no screen yet.
    pub fn new(alloc: Global, manner: Manner) -> Mirror<S>
        ensures manner { result.manner ≡ manner }
        ensures source { result.source ≡ None }
        ensures screen { result.has_screen ≡ false }
        ensures wants { result.wants_source ≡ true }
    {
        Mirror {
            alloc,
            manner,
            source: None,
            has_screen: false,
            wants_source: true,
            heard: 0,
            silent: 0,
            news: String::new(alloc),
            last_line: String::new(alloc),
            came: Vec::new(alloc),
        }
    }

    /// Returns whether a connection to the source is to be made.
    pub fn wants_source(&self) -> bool
        ensures { result ≡ self.now.wants_source }
    {
        self.wants_source
    }

    /// Returns whether there is a source, be it in its opening.
    pub fn has_source(&self) -> bool
        ensures { result ≡ is_some self.now.source }
    {
        self.source.is_some()
    }

    /// Takes a connection that was begun, or `None` where there can't be one.
    pub fn take_source(&mut self, stream: Option<S>) -> Result<(), AllocError>
        ensures wants { self.new.wants_source ≡ false }
        ensures silent { self.new.silent ≡ 0 }
        ensures none { stream ≡ None → OnOk result (self.new.source ≡ None) }
        ensures some { (given : S) → stream ≡ Some given → OnOk result (IsSomeAnd self.new.source IsNew) }
    {
        self.wants_source = false;
        self.heard = 0;
        self.silent = 0;
        match stream {
            Some(stream) => {
                self.source = Some(Source::new(self.alloc, stream)?);
                Ok(())
            }
            None => self.lose(SourceEnd::Unreachable),
        }
    }

    /// Returns what the first source says of its picture, once it is open: then a screen is to be made, and `begin` to be called.
    pub fn desktop(&self) -> Result<Option<Desktop>, AllocError>
        ensures { IfOk result (λ desktop. desktop ≡ source_desktop self.now.source) }
    {
        match &self.source {
            Some(source) => source.desktop(),
            None => Ok(None),
        }
    }

    /// Draws from now on.
    pub fn begin(&mut self)
        ensures { self.new ≡ record self.old { has_screen = true } }
    {
        self.has_screen = true;
    }

    /// Takes the lines that are to be printed.
    pub fn take_news(&mut self) -> String
        ensures taken { result ≡ self.old.news }
        ensures none { string_bytes self.new.news ≡ [] }
    {
        let news = String::new(self.alloc);
        mem::replace(&mut self.news, news)
    }

    /// Takes the numbers of viewers that came and weren't printed.
    pub fn take_came(&mut self) -> Vec<u64>
        ensures taken { result ≡ self.old.came }
        ensures none { self.new.came.items ≡ [] }
    {
        let came = Vec::new(self.alloc);
        mem::replace(&mut self.came, came)
    }

    /// Notes that a viewer came.
    fn note_came(&mut self, viewer: u64) -> Result<(), AllocError>
        ensures same { self.new ≡ record self.old { came = self.new.came } }
        ensures ok { OnOk result (self.new.came.items ≡ self.old.came.items ++ viewer ∷ []) }
        ensures err { OnErr result (self.new.came.items ≡ self.old.came.items) }
    {
        self.came.push(viewer)?;
        Ok(())
    }

    /// Parts with the source: viewers keep the last picture. Why is to be printed, unless the one before it went for the same, and neither
    /// was shown.
    fn lose(&mut self, end: SourceEnd) -> Result<(), AllocError>
        ensures lost { OnOk result (self.new ≡ record self.old { source = None; news = self.new.news; last_line = self.new.last_line }) }
        ensures same { self.new ≡ record self.old { source = self.new.source; news = self.new.news; last_line = self.new.last_line } }
    {
        self.say_left_out()?;
        self.source = None;
        let line = left_line(self.alloc, &end)?;
        if line.as_str() != self.last_line.as_str() {
            self.news.push_str(line.as_str())?;
        }
        self.last_line = line;
        Ok(())
    }

    /// Says how many messages to the source found no room, where some did.
    fn say_left_out(&mut self) -> Result<(), AllocError>
        ensures { self.new ≡ record self.old { news = self.new.news } }
    {
        let left_out = match &self.source {
            Some(source) => source.left_out(),
            None => 0,
        };
        if left_out == 0 {
            return Ok(());
        }
        let line = format!(in self.alloc; "{left_out} messages to the source found no room\n")?;
        self.news.push_str(line.as_str())
    }

    /// Begins to show a source whose opening is over, where there is a screen. Returns whether it is shown. Ends as `Size` where a screen can't
    /// have its picture's size.
    fn show(&mut self, canvas: &mut Canvas) -> Result<bool, SourceEnd>
        ensures shown { result ≡ Ok true → IsSomeAnd self.new.source (λ source. is_shown source.stage ≡ true) }
        ensures size { (desktop : Desktop) → source_desktop self.old.source ≡ Some desktop → is_some (size_refusal desktop.width desktop.height) ≡ true →
            (result ≡ Err SourceEnd.Size) ⊎ (result ≡ Err SourceEnd.Memory) }
        ensures draws { Draws canvas.old canvas.new }
    {
        let Some(source) = &mut self.source else {
            return Ok(false);
        };
        let Some(desktop) = source.desktop()? else {
            return Ok(source.is_shown());
        };
        let (width, height) = (u32::from(desktop.width), u32::from(desktop.height));
        if size_refusal(width, height).is_some() {
            return Err(SourceEnd::Size);
        }
        if !self.has_screen {
            return Ok(false);
        }
        resize(canvas, width, height)?;
        source.begin(self.manner.raw, desktop.width, desktop.height)?;
        let line = came_line(self.alloc, &desktop)?;
        self.news.push_str(line.as_str())?;
        self.last_line.clear();
        Ok(true)
    }

    /// Goes on with the source's opening. Returns how far it is.
    fn open_source(&mut self) -> Result<Opened, SourceEnd>
        ensures over { result ≡ Ok Opened.IsOver → IsSomeAnd self.new.source (λ source. is_open source.stage ≡ true) }
        ensures same { self.new ≡ record self.old { source = self.new.source } }
    {
        match &mut self.source {
            Some(source) => source.open_some(),
            None => Ok(Opened::Waits),
        }
    }

    /// Draws what a source says that is shown, or is to be shown now. Returns whether there may be more at once.
    fn draw_source(&mut self, canvas: &mut Canvas) -> Result<bool, SourceEnd>
        ensures draws { Draws canvas.old canvas.new }
    {
        if !self.show(canvas)? {
            return Ok(false);
        }
        match &mut self.source {
            Some(source) => source.draw_some(canvas),
            None => Ok(false),
        }
    }

    /// Reads what the source says, and draws it. Returns whether there may be more at once.
    fn read_source(&mut self, canvas: &mut Canvas) -> Result<bool, SourceEnd>
        ensures draws { Draws canvas.old canvas.new }
    {
        match self.open_source()? {
            Opened::IsOver => self.draw_source(canvas),
            Opened::Waits => Ok(false),
            Opened::HasMore => Ok(true),
        }
    }

    /// Writes to the source what waits for it. Where that fails the source is parted with.
    pub fn send(&mut self) -> Result<(), AllocError>
        ensures none { self.old.source ≡ None → (result ≡ Ok tt) × (self.new ≡ self.old) }
        ensures sends { (source : Source S) → self.old.source ≡ Some source →
            OnOk result (IfSome self.new.source (λ now. Sends (S.contents source.stream) (S.contents now.stream) source.out.bytes now.out.bytes)) }
    {
        let Some(source) = &mut self.source else {
            return Ok(());
        };
        match source.send() {
            Ok(()) => Ok(()),
            Err(end) => self.lose(end),
        }
    }

    /// Hands on what a viewer did, where there is a source that is shown.
    fn hand_on(&mut self, input: &Input) -> Result<(), AllocError>
        ensures ok { OnOk result (self.new ≡ record self.old { source = handed_on self.old.manner.view_only input.now self.old.source }) }
        ensures err { OnErr result (self.new ≡ self.old) }
    {
        let Some(source) = &mut self.source else {
            return Ok(());
        };
        if self.manner.view_only || !source.is_shown() {
            return Ok(());
        }
        source.put_input(input)
    }

    /// Returns whether a source has to say something, and said nothing since the last look.
    fn is_silent(&self) -> bool
        ensures { result ≡ is_silent self.now.source self.now.heard }
    {
        match &self.source {
            Some(source) => source.heard() == self.heard && source.is_owing(),
            None => false,
        }
    }

    /// Looks at a source of which so many bytes came: parts with it where it has been silent for too long.
    fn look_at(&mut self, heard: u64) -> Result<(), AllocError>
        ensures { OnOk result (IsLookedAt (silent_behind (is_silent self.old.source self.old.heard) self.old.silent) heard self.old self.new) }
    {
        let silent = self.is_silent();
        self.silent = if silent {
            self.silent.saturating_add(1)
        } else {
            0
        };
        self.heard = heard;
        if self.silent < PATIENCE {
            return Ok(());
        }
        self.lose(SourceEnd::Silent)
    }

    /// Looks at the source: parts with one that has been silent for too long where it had to say something, and wants another where there is
    /// none.
    fn look(&mut self) -> Result<(), AllocError>
        ensures none { self.old.source ≡ None → (result ≡ Ok tt) × (self.new ≡ record self.old { wants_source = true }) }
        ensures some { (source : Source S) → self.old.source ≡ Some source →
            OnOk result (IsLookedAt (silent_behind (is_silent self.old.source self.old.heard) self.old.silent) source.heard self.old self.new) }
    {
        let Some(source) = &self.source else {
            self.wants_source = true;
            return Ok(());
        };
        let heard = source.heard();
        self.look_at(heard)
    }
}

impl<S: Read + Write + Drop> Application for Mirror<S> {
    fn on_input(
        &mut self,
        _canvas: &mut Canvas,
        _viewer: u64,
        input: &Input,
    ) -> Result<(), ScreenError> {
        self.hand_on(input)?;
        Ok(())
    }

    fn came(&mut self, _canvas: &mut Canvas, viewer: u64) -> Result<(), ScreenError> {
        self.note_came(viewer)?;
        Ok(())
    }

    fn left(&mut self, _canvas: &mut Canvas, receipt: Receipt) -> Result<(), ScreenError> {
        let (viewer, ended) = (receipt.viewer, receipt.ended);
        let line = format!(in self.alloc; "viewer {viewer} left: {ended:?}\n")?;
        self.news.push_str(line.as_str())?;
        Ok(())
    }

    fn tick(&mut self, _canvas: &mut Canvas) -> Result<Option<Duration>, ScreenError> {
        self.look()?;
        Ok(Some(Duration::from_secs(LOOK)))
    }

    fn ready(&mut self, canvas: &mut Canvas, _found: Readiness) -> Result<bool, ScreenError> {
        match self.read_source(canvas) {
            Ok(has_more) => Ok(has_more),
            Err(end) => {
                self.lose(end)?;
                Ok(false)
            }
        }
    }
}
