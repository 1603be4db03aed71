//! What viewers show while a script is played: each byte that a viewer is sent goes to a test viewer, which knows RFC 6143 and
//! what the viewer said.

use crate::difference::{Difference, compare, make_difference};
use crate::script::{Look, Script};
use crate::showing::put_places;
use crate::transcripts::Transcript;
use messages::{Ear, Item};
use pixel_translate::{Area, PixelFormat, translate};
use rfb_viewer::Shown;
use screen::{Answer, Event, Screen, ScreenError};
use std::alloc::{AllocError, Global};
use std::collections::BTreeMap;

/// Returns the entry `pixel` of the server's colour map: red in the lowest three bits, green in the next three, and blue in the
/// highest two, each of them spread over 0 to 65535.
fn servers_entry(pixel: u8) -> (u16, u16, u16) {
    let red = u32::from(pixel % 8) * 65535 / 7;
    let green = u32::from(pixel / 8 % 8) * 65535 / 7;
    let blue = u32::from(pixel / 64) * 65535 / 3;
    (red as u16, green as u16, blue as u16)
}

/// Returns whether the viewer has the server's whole colour map.
fn has_servers_map(shown: &Shown) -> bool {
    for pixel in 0..=u8::MAX {
        if shown.map(pixel) != Some(servers_entry(pixel)) {
            return false;
        }
    }
    true
}

/// Returns whether the viewer has the server's colour map, or `format`, for which it asked last, needs none.
fn has_map_for(shown: &Shown, format: Option<PixelFormat>) -> bool {
    match format {
        Some(format) if format.is_colour_map() => has_servers_map(shown),
        _ => true,
    }
}

/// A viewer's own side of its connection.
#[derive(Drop)]
struct Watcher {
    alloc: Global,
    /// What the viewer said, read as the server reads it.
    ear: Ear,
    /// What came before the viewer said its version.
    greeting: Vec<u8>,
    shown: Option<Shown>,
    /// The format that the viewer asked for last.
    format: Option<PixelFormat>,
    /// Nothing was cut for it since then.
    is_new: bool,
}

impl Watcher {
    fn new(alloc: Global) -> Watcher {
        Watcher {
            alloc,
            ear: Ear::new(alloc),
            greeting: Vec::new(alloc),
            shown: None,
            format: None,
            is_new: false,
        }
    }

    /// Takes bytes that the server says. They wait in `greeting` until the viewer says its version.
    fn told(&mut self, bytes: &[u8]) -> Result<(), AllocError> {
        match &mut self.shown {
            Some(shown) => {
                // A fault stays, and is looked at by `is_well`.
                let _ = shown.told(bytes);
                Ok(())
            }
            None => self.greeting.extend_from_slice(bytes),
        }
    }

    fn take(&mut self, item: &Item) {
        if let Item::Version(version) = item {
            let mut shown = Shown::new(self.alloc, *version);
            let _ = shown.told(&self.greeting);
            self.shown = Some(shown);
            return;
        }
        let Some(shown) = &mut self.shown else {
            return;
        };
        match item {
            Item::Request { incremental, area } => {
                shown.request(*area, *incremental);
            }
            Item::Format(format) => {
                shown.format(format);
                self.format = Some(*format);
                self.is_new = true;
            }
            _ => {}
        }
    }

    /// Takes `piece`, which the viewer says, and then the bytes that it is `answered`.
    fn say(&mut self, piece: &[u8], answered: &[u8]) -> Result<(), AllocError> {
        let heard = self.ear.feed(piece)?;
        for item in heard.items.as_slice() {
            self.take(item);
        }
        self.told(answered)
    }

    /// Takes the bytes that were cut for the viewer.
    fn cut(&mut self, bytes: &[u8]) -> Result<(), AllocError> {
        self.is_new = false;
        self.told(bytes)
    }

    /// Returns whether the viewer has the colour map that its format needs. One that isn't open needs none yet, and neither does
    /// one for which nothing was cut since it asked for the format.
    fn has_map(&self) -> bool {
        match &self.shown {
            Some(shown) if self.ear.is_open() && !self.is_new => { has_map_for(shown, self.format) }
            _ => true,
        }
    }

    /// Returns whether all that the server said is legal.
    fn is_well(&mut self) -> bool {
        match &mut self.shown {
            Some(shown) => shown.told(b"").is_ok(),
            None => true,
        }
    }
}

/// A screen, and the live viewers by number.
#[derive(Drop)]
struct World {
    alloc: Global,
    screen: Screen,
    watchers: BTreeMap<u64, Watcher>,
}

impl World {
    fn connect(&mut self, viewer: u64, greeting: &[u8]) -> Result<(), AllocError> {
        let mut watcher = Watcher::new(self.alloc);
        watcher.told(greeting)?;
        self.watchers.insert(viewer, watcher)?;
        Ok(())
    }

    /// Passes an accepted event and its answer to the watcher of its viewer. Connecting makes a watcher, and closing removes it.
    fn follow(&mut self, event: &Event, answer: &Answer) -> Result<(), AllocError> {
        let bytes = answer.bytes.as_slice();
        match event {
            Event::Connect { viewer } => self.connect(*viewer, bytes),
            Event::Hear { viewer, piece } => match self.watchers.get_mut(viewer) {
                Some(watcher) => watcher.say(piece.as_slice(), bytes),
                None => Ok(()),
            },
            Event::Cut { viewer } => match self.watchers.get_mut(viewer) {
                Some(watcher) => watcher.cut(bytes),
                None => Ok(()),
            },
            Event::Close { viewer } => {
                self.watchers.remove(viewer);
                Ok(())
            }
            _ => Ok(()),
        }
    }

    fn apply(&mut self, event: &Event) -> Result<(), AllocError> {
        let answer = self.screen.apply(event)?;
        if answer.refused.is_some() {
            return Ok(());
        }
        self.follow(event, &answer)
    }

    /// Returns a viewer to which the server said what is no message, if there is one.
    fn unwell(&mut self) -> Option<u64> {
        for (viewer, watcher) in self.watchers.iter_mut() {
            if !watcher.is_well() {
                return Some(*viewer);
            }
        }
        None
    }

    /// Returns a viewer that lacks its colour map, if there is one.
    fn without_map(&self) -> Option<u64> {
        for (viewer, watcher) in self.watchers.iter() {
            if !watcher.has_map() {
                return Some(*viewer);
            }
        }
        None
    }

    /// Returns what `viewer` shows, a line a row.
    fn picture(&self, viewer: u64) -> Result<String, AllocError> {
        let mut text = String::new(self.alloc);
        if let Some(watcher) = self.watchers.get(&viewer)
            && let Some(shown) = &watcher.shown
        {
            put_places(&mut text, shown, self.screen.width(), self.screen.height())?;
        }
        Ok(text)
    }
}

/// Returns the area of the whole screen, whose sides are at most 8192.
fn whole(screen: &Screen) -> Area {
    Area {
        x: 0,
        y: 0,
        w: u16::try_from(screen.width()).unwrap_or(u16::MAX),
        h: u16::try_from(screen.height()).unwrap_or(u16::MAX),
    }
}

/// More updates than it takes to send what any script leaves owed.
const MOST_UPDATES: u32 = 1 << 20;

/// Asks for what changed as `viewer`, reads the update, and returns whether one came.
fn ask(screen: &mut Screen, viewer: u64, shown: &mut Shown) -> Result<bool, ScreenError> {
    let request = shown.request(whole(screen), true);
    screen.hear(viewer, &request)?;
    match screen.cut(viewer)? {
        Some(update) => {
            let _ = shown.told(&update.encode()?);
            Ok(true)
        }
        None => Ok(false),
    }
}

/// Asks for what changed as `viewer` until nothing is owed to it.
fn catch_up(screen: &mut Screen, viewer: u64, shown: &mut Shown) -> Result<(), ScreenError> {
    for _ in 0..MOST_UPDATES {
        if !ask(screen, viewer, shown)? {
            break;
        }
    }
    Ok(())
}

/// Returns whether the place (`x`, `y`) shows the picture's colour, in the format in which it was read.
fn shows_colour(screen: &Screen, shown: &Shown, x: u32, y: u32) -> bool {
    match (shown.place(x, y), screen.colour(x, y)) {
        (Some((format, pixel)), Some(colour)) => pixel == translate(&format, colour),
        _ => false,
    }
}

/// Returns the first place within the viewer's size that doesn't show the picture's colour, if there is one.
fn first_wrong(screen: &Screen, shown: &Shown) -> Option<(u32, u32)> {
    let (columns, rows) = shown.size();
    for y in 0..screen.height().min(u32::from(rows)) {
        for x in 0..screen.width().min(u32::from(columns)) {
            if !shows_colour(screen, shown, x, y) {
                return Some((x, y));
            }
        }
    }
    None
}

const SHOWN: &str = "by what viewers show";

/// Returns whether a viewer is open and said its last message whole, so that it can ask for what changed.
fn can_ask(screen: &Screen, ear: &Ear, shown: &mut Shown) -> Result<bool, AllocError> {
    let mut ear = ear.try_clone()?;
    let heard = ear.feed(&shown.request(whole(screen), true))?;
    Ok(matches!(
        heard.items.as_slice(),
        [Item::Request { incremental: true, area }] if *area == whole(screen),
    ))
}

/// Makes the difference of a viewer that lacks the colour map.
fn lacks_map(alloc: Global, viewer: u64, line: usize) -> Result<Difference, AllocError> {
    let wanted = format!(in alloc; "viewer {viewer} has the server's colour map")?;
    make_difference(alloc, SHOWN, line, &wanted, "it has not")
}

/// Checks that a viewer, once it has read all that is owed to it, shows the picture within its own size, and has the colour map
/// that its format needs.
fn check_viewer(
    alloc: Global,
    screen: &mut Screen,
    viewer: u64,
    watcher: &mut Watcher,
    line: usize,
) -> Result<Option<Difference>, ScreenError> {
    let format = watcher.format;
    let Some(shown) = &mut watcher.shown else {
        return Ok(None);
    };
    if !can_ask(screen, &watcher.ear, shown)? {
        return Ok(None);
    }
    catch_up(screen, viewer, shown)?;
    if !has_map_for(shown, format) {
        return Ok(Some(lacks_map(alloc, viewer, line)?));
    }
    match first_wrong(screen, shown) {
        Some((x, y)) => {
            let wanted = format!(in alloc;
                "viewer {viewer} shows the picture's colour at {x} {y}"
            )?;
            Ok(Some(make_difference(alloc, SHOWN, line, &wanted, "it does not")?))
        }
        None => Ok(None),
    }
}

/// Checks that all viewers show the picture once nothing is owed to them.
fn check_viewers(
    alloc: Global,
    world: &mut World,
    line: usize,
) -> Result<Option<Difference>, ScreenError> {
    for (viewer, watcher) in world.watchers.iter_mut() {
        let found = check_viewer(alloc, &mut world.screen, *viewer, watcher, line)?;
        if found.is_some() {
            return Ok(found);
        }
    }
    Ok(None)
}

/// Checks that a viewer shows what is written under `look`.
fn check_look(
    world: &World,
    transcript: &Transcript,
    look: Look,
) -> Result<Option<Difference>, AllocError> {
    let Some(exchange) = transcript.exchanges.get(look.exchange) else {
        return Ok(None);
    };
    let text = world.picture(look.viewer)?;
    compare(world.alloc, SHOWN, &[exchange], &text)
}

/// Checks the looks that come once `events` events have happened.
fn check_looks(
    world: &World,
    transcript: &Transcript,
    script: &Script,
    events: usize,
) -> Result<Option<Difference>, AllocError> {
    for look in &script.looks {
        if look.events == events {
            let found = check_look(world, transcript, *look)?;
            if found.is_some() {
                return Ok(found);
            }
        }
    }
    Ok(None)
}

/// Checks that the server said nothing but messages, and that no viewer lacks its colour map.
fn check_told(world: &mut World, line: usize) -> Result<Option<Difference>, AllocError> {
    if let Some(viewer) = world.unwell() {
        let wanted = format!(in world.alloc; "messages for viewer {viewer}")?;
        let found = make_difference(world.alloc, SHOWN, line, &wanted, "no messages")?;
        return Ok(Some(found));
    }
    match world.without_map() {
        Some(viewer) => Ok(Some(lacks_map(world.alloc, viewer, line)?)),
        None => Ok(None),
    }
}

/// Does the events, checks the looks between them, and checks after each event what the server said by then.
fn check_events(
    world: &mut World,
    transcript: &Transcript,
    script: &Script,
) -> Result<Option<Difference>, ScreenError> {
    for (at, event) in script.events.iter().enumerate() {
        let found = check_looks(world, transcript, script, at)?;
        if found.is_some() {
            return Ok(found);
        }
        world.apply(event)?;
        let found = check_told(world, transcript.line)?;
        if found.is_some() {
            return Ok(found);
        }
    }
    Ok(check_looks(world, transcript, script, script.events.len())?)
}

/// Returns whether the viewers learn of all that `event` draws.
fn is_told(event: &Event) -> bool {
    !matches!(event, Event::Write { .. } | Event::ScheduleCopy { .. })
}

/// Checks what viewers show while a script is played, and that it is the picture in the end, if they learn of all that is drawn.
pub fn check_shown(
    alloc: Global,
    transcript: &Transcript,
    script: &Script,
) -> Result<Option<Difference>, ScreenError> {
    let mut world = World {
        alloc,
        screen: Screen::new(alloc, script.config.try_clone(alloc)?)?,
        watchers: BTreeMap::new(alloc),
    };
    let found = check_events(&mut world, transcript, script)?;
    if found.is_some() || !script.events.iter().all(is_told) {
        return Ok(found);
    }
    check_viewers(alloc, &mut world, transcript.line)
}
