//! What is checked of a transcript. One whose first line isn't `encode` or `viewer` is a script of `vncdemo play`.

use crate::difference::{Difference, compare, make_difference};
use crate::encoding;
use crate::pieces::check_pieces;
use crate::replaying::{check_history, check_run};
use crate::script::{Script, played, script_of, text_of};
use crate::transcripts::{Exchange, Transcript};
use crate::viewing::Viewing;
use crate::watching::check_shown;
use play_script::play_over;
use screen::{Screen, ScreenError};
use std::alloc::{AllocError, Global};

/// Compares `status` with the one that the transcript ends with.
fn check_status(
    alloc: Global,
    transcript: &Transcript,
    status: u8,
) -> Result<Option<Difference>, AllocError> {
    let given = format!(in alloc; "status {status}")?;
    if transcript.ending.as_str() == given.as_str() {
        return Ok(None);
    }
    let wanted = transcript.ending.as_str();
    Ok(Some(make_difference(alloc, "played", transcript.line, wanted, &given)?))
}

/// Plays a script as `vncdemo play` does, and compares what that prints, and its status, with what is written.
fn check_played(alloc: Global, transcript: &Transcript) -> Result<Option<Difference>, AllocError> {
    let script = text_of(alloc, &transcript.exchanges)?;
    let mut printed = Vec::new(alloc);
    let status = play_over(alloc, &mut script.as_bytes(), &mut printed);
    let text = str::from_utf8(&printed).unwrap_or("(no text)");
    let wanted = played(alloc, &transcript.exchanges)?;
    match compare(alloc, "played", &wanted, text)? {
        Some(found) => Ok(Some(found)),
        None => check_status(alloc, transcript, status),
    }
}

/// The ways in which the events of a script are done again.
#[derive(Clone, Copy)]
enum Way {
    Run,
    History,
    Pieces,
    Shown,
}

fn check_way(
    alloc: Global,
    transcript: &Transcript,
    script: &Script,
    way: Way,
) -> Result<Option<Difference>, ScreenError> {
    match way {
        Way::Run => check_run(alloc, transcript, script),
        Way::History => check_history(alloc, transcript, script),
        Way::Pieces => check_pieces(alloc, transcript, script),
        Way::Shown => check_shown(alloc, transcript, script),
    }
}

fn check_replayed(
    alloc: Global,
    transcript: &Transcript,
    script: &Script,
) -> Result<Option<Difference>, ScreenError> {
    for way in [Way::Run, Way::History, Way::Pieces, Way::Shown] {
        let found = check_way(alloc, transcript, script, way)?;
        if found.is_some() {
            return Ok(found);
        }
    }
    Ok(None)
}

/// Returns whether a script's screen is accepted.
fn is_accepted(alloc: Global, script: &Script) -> Result<bool, ScreenError> {
    match Screen::new(alloc, script.config.try_clone(alloc)?) {
        Ok(_) => Ok(true),
        Err(ScreenError::OutOfMemory) => Err(ScreenError::OutOfMemory),
        Err(_) => Ok(false),
    }
}

fn check_script(alloc: Global, transcript: &Transcript) -> Result<Option<Difference>, ScreenError> {
    let found = check_played(alloc, transcript)?;
    if found.is_some() {
        return Ok(found);
    }
    match script_of(alloc, &transcript.exchanges)? {
        Some(script) if is_accepted(alloc, &script)? => check_replayed(alloc, transcript, &script),
        _ => Ok(None),
    }
}

/// Who answers a transcript's lines.
#[derive(Drop)]
enum Answerer {
    Encoder,
    Viewer(Viewing),
}

impl Answerer {
    fn answer(&mut self, alloc: Global, words: &[&str]) -> Result<String, AllocError> {
        match (self, words) {
            (Answerer::Encoder, ["encode", words @ ..]) => encoding::answer(alloc, words),
            (Answerer::Viewer(viewing), words) => viewing.answer(words),
            _ => String::from_str(alloc, "bad line\n"),
        }
    }

    fn answer_line(&mut self, alloc: Global, said: &str) -> Result<String, AllocError> {
        if said.is_empty() || said.starts_with("#") {
            return Ok(String::new(alloc));
        }
        let words: Vec<&str> = said.split(' ').collect(alloc)?;
        self.answer(alloc, &words)
    }
}

/// Gives `answerer` each line, compares its answer with what is written, and checks that the transcript ends with status 0.
fn check_lines(
    alloc: Global,
    transcript: &Transcript,
    tried: &'static str,
    mut answerer: Answerer,
) -> Result<Option<Difference>, AllocError> {
    for exchange in &transcript.exchanges {
        let text = answerer.answer_line(alloc, &exchange.said)?;
        let found = compare(alloc, tried, &[exchange], &text)?;
        if found.is_some() {
            return Ok(found);
        }
    }
    check_status(alloc, transcript, 0)
}

/// Checks that a test viewer answers as written, whether it hears its bytes whole, byte by byte or in pieces of 3.
fn check_viewing(alloc: Global, transcript: &Transcript) -> Result<Option<Difference>, AllocError> {
    for (length, tried) in [
        (usize::MAX, "told"),
        (1, "told byte by byte"),
        (3, "told in pieces of 3"),
    ] {
        let answerer = Answerer::Viewer(Viewing::new(alloc, length));
        let found = check_lines(alloc, transcript, tried, answerer)?;
        if found.is_some() {
            return Ok(found);
        }
    }
    Ok(None)
}

/// Returns the first word that a transcript says, but for comments.
fn first_word(exchanges: &[Exchange]) -> &str {
    for exchange in exchanges {
        if !exchange.said.is_empty() && !exchange.said.starts_with("#") {
            return exchange.said.split(' ').next().unwrap_or("");
        }
    }
    ""
}

/// Checks a transcript, and returns the first difference from what is written, if there is one.
pub fn check(alloc: Global, transcript: &Transcript) -> Result<Option<Difference>, ScreenError> {
    match first_word(&transcript.exchanges) {
        "encode" => Ok(check_lines(alloc, transcript, "encoded", Answerer::Encoder)?),
        "viewer" => Ok(check_viewing(alloc, transcript)?),
        _ => check_script(alloc, transcript),
    }
}
