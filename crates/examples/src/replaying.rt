//! The events of a script, done in other ways than by `play`: by `run`, with the history kept, and by a screen that is given that
//! history.

use crate::difference::{Difference, compare, make_difference};
use crate::script::{Script, exchanges_of};
use crate::transcripts::Transcript;
use play_script::answer_text;
use receipts::same_event;
use screen::{Answer, Config, Event, History, Screen, ScreenError, run};
use std::alloc::{AllocError, Global};

/// Returns what is printed of the answers to `events`.
fn text_of(alloc: Global, events: &[Event], answers: &[Answer]) -> Result<String, AllocError> {
    let mut text = String::new(alloc);
    for (event, answer) in events.iter().zip(answers) {
        put_answer(alloc, &mut text, event, answer)?;
    }
    Ok(text)
}

fn put_answer(
    alloc: Global,
    text: &mut String,
    event: &Event,
    answer: &Answer,
) -> Result<(), AllocError> {
    let bytes = answer_text(alloc, event, answer)?;
    text.push_str(str::from_utf8(&bytes).unwrap_or("(no text)\n"))
}

/// Returns a copy of `config` with this `history`: kept or not.
fn config_with(alloc: Global, config: &Config, history: History) -> Result<Config, AllocError> {
    let mut config = config.try_clone(alloc)?;
    config.history = history;
    Ok(config)
}

/// Compares what `run` answers to a script's events with what is written.
pub fn check_run(
    alloc: Global,
    transcript: &Transcript,
    script: &Script,
) -> Result<Option<Difference>, ScreenError> {
    let answers = run(alloc, script.config.try_clone(alloc)?, &script.events)?;
    let text = text_of(alloc, &script.events, &answers)?;
    let wanted = exchanges_of(alloc, transcript, &script.exchanges)?;
    Ok(compare(alloc, "by run", &wanted, &text)?)
}

/// Returns whether `event` happened and changed something, so that a history keeps it.
fn has_happened(event: &Event, answer: &Answer) -> bool {
    let is_idle = matches!(event, Event::Cut { .. }) && answer.bytes.is_empty();
    answer.refused.is_none() && !is_idle
}

/// A run with the history kept: what is printed of it, and which events happened, by place.
#[derive(Drop)]
struct Kept {
    text: String,
    happened: Vec<usize>,
}

fn run_kept(alloc: Global, screen: &mut Screen, events: &[Event]) -> Result<Kept, ScreenError> {
    let mut text = String::new(alloc);
    let mut happened = Vec::new(alloc);
    for (at, event) in events.iter().enumerate() {
        let answer = screen.apply(event)?;
        put_answer(alloc, &mut text, event, &answer)?;
        if has_happened(event, &answer) {
            happened.push(at)?;
        }
    }
    Ok(Kept { text, happened })
}

/// Returns the first of the events that `happened` which isn't the one that `history` has for it, if there is one.
fn first_other(script: &Script, happened: &[usize], history: &[Event]) -> Option<usize> {
    for (at, kept) in happened.iter().zip(history) {
        match script.events.get(*at) {
            Some(event) if same_event(event, kept) => {}
            _ => return Some(*at),
        }
    }
    None
}

fn line_of(transcript: &Transcript, script: &Script, event: usize) -> usize {
    let exchange = script.exchanges.get(event).copied().unwrap_or(0);
    transcript
        .exchanges
        .get(exchange)
        .map_or(0, |exchange| exchange.line)
}

/// Returns where the exchanges of `events` stand in the transcript; `events` are places in the script.
fn places_of(alloc: Global, script: &Script, events: &[usize]) -> Result<Vec<usize>, AllocError> {
    let mut places = Vec::new(alloc);
    for event in events {
        places.push(script.exchanges.get(*event).copied().unwrap_or(0))?;
    }
    Ok(places)
}

/// Runs `history` on a new screen, and returns what is printed of its answers.
fn answers_to(alloc: Global, config: Config, history: &[Event]) -> Result<String, ScreenError> {
    let answers = run(alloc, config, history)?;
    Ok(text_of(alloc, history, &answers)?)
}

const KEPT: &str = "with the history kept";

/// Compares the `history` that a screen keeps with the events that `happened`.
fn check_kept(
    alloc: Global,
    transcript: &Transcript,
    script: &Script,
    happened: &[usize],
    history: &[Event],
) -> Result<Option<Difference>, AllocError> {
    if history.len() != happened.len() {
        let wanted = format!(in alloc; "{} events", happened.len())?;
        let given = format!(in alloc; "{} events", history.len())?;
        let found = make_difference(alloc, KEPT, transcript.line, &wanted, &given)?;
        return Ok(Some(found));
    }
    match first_other(script, happened, history) {
        Some(event) => {
            let line = line_of(transcript, script, event);
            let found = make_difference(alloc, KEPT, line, "the event", "another one")?;
            Ok(Some(found))
        }
        None => Ok(None),
    }
}

/// Compares what a new screen answers to the events of `history` with what is written for those that `happened`.
fn check_given(
    alloc: Global,
    transcript: &Transcript,
    script: &Script,
    happened: &[usize],
    history: &[Event],
) -> Result<Option<Difference>, ScreenError> {
    let config = config_with(alloc, &script.config, History::NotKept)?;
    let text = answers_to(alloc, config, history)?;
    let places = places_of(alloc, script, happened)?;
    let wanted = exchanges_of(alloc, transcript, &places)?;
    Ok(compare(alloc, "given its history", &wanted, &text)?)
}

/// Checks that with its history kept a screen answers the same, that the history is the events that happened, and that a screen
/// that is given it answers the same again.
pub fn check_history(
    alloc: Global,
    transcript: &Transcript,
    script: &Script,
) -> Result<Option<Difference>, ScreenError> {
    let config = config_with(alloc, &script.config, History::Kept)?;
    let mut screen = Screen::new(alloc, config)?;
    let Kept { text, happened } = run_kept(alloc, &mut screen, &script.events)?;
    let wanted = exchanges_of(alloc, transcript, &script.exchanges)?;
    if let Some(found) = compare(alloc, KEPT, &wanted, &text)? {
        return Ok(Some(found));
    }
    let history = screen.history().unwrap_or(&[]);
    if let Some(found) = check_kept(alloc, transcript, script, &happened, history)? {
        return Ok(Some(found));
    }
    check_given(alloc, transcript, script, &happened, history)
}
