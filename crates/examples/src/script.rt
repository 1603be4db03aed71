//! A transcript as a screen and its events.

use crate::transcripts::{Exchange, Transcript};
use play_script::{Line, parse_line};
use screen::{Config, Event};
use std::alloc::{AllocError, Global};

/// A line `shows V`: what viewer V shows once the events before it have happened.
#[derive(Clone, Copy)]
pub struct Look {
    pub viewer: u64,
    /// How many events come before.
    pub events: usize,
    /// Which exchange it is.
    pub exchange: usize,
}

/// A script that makes a screen.
#[derive(Drop)]
pub struct Script {
    pub config: Config,
    pub events: Vec<Event>,
    /// The exchange of each event.
    pub exchanges: Vec<usize>,
    pub looks: Vec<Look>,
}

/// Returns the viewer of `said`, if that is a line `shows V`.
pub fn look_of(said: &str) -> Option<u64> {
    match said.strip_prefix("shows ")?.parse::<u64>() {
        Ok(viewer) => Some(viewer),
        Err(_) => None,
    }
}

/// Returns the text of a script: the lines that a transcript says, but for the looks.
pub fn text_of(alloc: Global, exchanges: &[Exchange]) -> Result<String, AllocError> {
    let mut text = String::new(alloc);
    for exchange in exchanges {
        if look_of(&exchange.said).is_none() {
            text.push_str(&exchange.said)?;
            text.push('\n')?;
        }
    }
    Ok(text)
}

/// Returns the exchanges that `play` answers: all but the looks.
pub fn played<'t>(
    alloc: Global,
    exchanges: &'t [Exchange],
) -> Result<Vec<&'t Exchange>, AllocError> {
    let mut played = Vec::new(alloc);
    for exchange in exchanges {
        if look_of(&exchange.said).is_none() {
            played.push(exchange)?;
        }
    }
    Ok(played)
}

/// Returns the exchanges at `places` of the transcript's list.
pub fn exchanges_of<'t>(
    alloc: Global,
    transcript: &'t Transcript,
    places: &[usize],
) -> Result<Vec<&'t Exchange>, AllocError> {
    let mut exchanges = Vec::new(alloc);
    for place in places {
        if let Some(exchange) = transcript.exchanges.get(*place) {
            exchanges.push(exchange)?;
        }
    }
    Ok(exchanges)
}

/// What has been read of a script.
#[derive(Drop)]
struct Read {
    config: Option<Config>,
    events: Vec<Event>,
    exchanges: Vec<usize>,
    looks: Vec<Look>,
}

impl Read {
    /// Takes the next line, which isn't a look, and returns whether the script goes on behind it.
    fn take(&mut self, exchange: usize, line: Line) -> Result<bool, AllocError> {
        match line {
            Line::Skipped => Ok(true),
            Line::Start(config) if self.config.is_none() => {
                self.config = Some(config);
                Ok(true)
            }
            Line::Do(event) if self.config.is_some() => {
                self.events.push(event)?;
                self.exchanges.push(exchange)?;
                Ok(true)
            }
            _ => Ok(false),
        }
    }

    fn look(&mut self, exchange: usize, viewer: u64) -> Result<(), AllocError> {
        self.looks.push(Look {
            viewer,
            events: self.events.len(),
            exchange,
        })?;
        Ok(())
    }
}

/// Reads the screen and the events of a script, up to its end or the first line that is bad. Returns None if it makes no screen.
pub fn script_of(alloc: Global, exchanges: &[Exchange]) -> Result<Option<Script>, AllocError> {
    let mut read = Read {
        config: None,
        events: Vec::new(alloc),
        exchanges: Vec::new(alloc),
        looks: Vec::new(alloc),
    };
    for (at, exchange) in exchanges.iter().enumerate() {
        if let Some(viewer) = look_of(&exchange.said) {
            read.look(at, viewer)?;
        } else if !read.take(at, parse_line(alloc, exchange.said.as_bytes())?)? {
            break;
        }
    }
    let Read {
        config,
        events,
        exchanges,
        looks,
    } = read;
    Ok(match config {
        Some(config) => Some(Script {
            config,
            events,
            exchanges,
            looks,
        }),
        None => None,
    })
}
