//! The events of a script with the viewers' bytes heard in pieces, and with updates that are sent as they are encoded, piece by
//! piece.

use crate::difference::{Difference, make_difference};
use crate::script::Script;
use crate::transcripts::Transcript;
use listed::Listed;
use screen::{Event, Screen, ScreenError, Update};
use std::alloc::{AllocError, Global};
use std::collections::BTreeMap;

/// What each viewer was sent in all.
type Sent = BTreeMap<u64, Vec<u8>>;

fn send(alloc: Global, sent: &mut Sent, viewer: u64, bytes: &[u8]) -> Result<(), AllocError> {
    match sent.get_mut(&viewer) {
        Some(all) => all.extend_from_slice(bytes),
        None => {
            sent.insert(viewer, bytes.to_vec(alloc)?)?;
            Ok(())
        }
    }
}

/// Does the events as `play` does, which encodes an update whole, and returns what each viewer is sent in all.
fn sent_whole(alloc: Global, script: &Script) -> Result<Sent, ScreenError> {
    let mut screen = Screen::new(alloc, script.config.try_clone(alloc)?)?;
    let mut sent = BTreeMap::new(alloc);
    for event in &script.events {
        let answer = screen.apply(event)?;
        if let Event::Connect { viewer }
        | Event::Hear { viewer, .. }
        | Event::Cut { viewer } = event
        {
            send(alloc, &mut sent, *viewer, answer.bytes.as_slice())?;
        }
    }
    Ok(sent)
}

/// Gives the screen `piece` of a viewer in pieces of at most `length`, and adds the answers to `sent`.
fn hear_in(
    alloc: Global,
    screen: &mut Screen,
    sent: &mut Sent,
    viewer: u64,
    piece: &[u8],
    length: usize,
) -> Result<(), ScreenError> {
    for piece in piece.chunks(length.max(1)) {
        let piece = Listed::from_slice(alloc, piece)?;
        let answer = screen.apply(&Event::Hear { viewer, piece })?;
        send(alloc, sent, viewer, answer.bytes.as_slice())?;
    }
    Ok(())
}

/// Encodes an update piece by piece, and returns its bytes.
fn streamed(alloc: Global, update: Update) -> Result<Vec<u8>, AllocError> {
    let mut bytes = Vec::new(alloc);
    let mut stream = update.into_stream();
    for _ in 0..u64::MAX {
        if stream.is_ended() {
            break;
        }
        stream.put(&mut bytes)?;
    }
    Ok(bytes)
}

/// Encodes, once for all, what several viewers are likely to be sent, until `viewer` is best cut.
fn encode_ahead(screen: &mut Screen, viewer: u64) {
    for _ in 0..u64::MAX {
        if screen.encode_ahead(viewer).is_none() {
            return;
        }
    }
}

fn cut_in(
    alloc: Global,
    screen: &mut Screen,
    sent: &mut Sent,
    viewer: u64,
) -> Result<(), ScreenError> {
    encode_ahead(screen, viewer);
    match screen.cut(viewer) {
        Ok(Some(update)) => Ok(send(alloc, sent, viewer, &streamed(alloc, update)?)?),
        Ok(None) | Err(ScreenError::NoViewer) => Ok(()),
        Err(error) => Err(error),
    }
}

fn do_in(
    alloc: Global,
    screen: &mut Screen,
    sent: &mut Sent,
    event: &Event,
    length: usize,
) -> Result<(), ScreenError> {
    match event {
        Event::Hear { viewer, piece } => {
            hear_in(alloc, screen, sent, *viewer, piece.as_slice(), length)
        }
        Event::Cut { viewer } => cut_in(alloc, screen, sent, *viewer),
        Event::Connect { viewer } => {
            let answer = screen.apply(event)?;
            Ok(send(alloc, sent, *viewer, answer.bytes.as_slice())?)
        }
        _ => {
            screen.apply(event)?;
            Ok(())
        }
    }
}

/// Does the events with viewers' bytes heard in pieces of at most `length`, and with updates encoded piece by piece, once for
/// viewers that are alike. Returns what each viewer is sent in all.
fn sent_in(alloc: Global, script: &Script, length: usize) -> Result<Sent, ScreenError> {
    let mut screen = Screen::new(alloc, script.config.try_clone(alloc)?)?;
    screen.share_encodings(true);
    let mut sent = BTreeMap::new(alloc);
    for event in &script.events {
        do_in(alloc, &mut screen, &mut sent, event, length)?;
    }
    Ok(sent)
}

/// Returns the first viewer that is sent other bytes in `pieces` than in `whole`, if there is one.
fn first_unlike(whole: &Sent, pieces: &Sent) -> Option<u64> {
    for (viewer, bytes) in whole {
        let same = match pieces.get(viewer) {
            Some(others) => others.as_slice() == bytes.as_slice(),
            None => bytes.is_empty(),
        };
        if !same {
            return Some(*viewer);
        }
    }
    None
}

/// Checks that each viewer is sent the same in all with its bytes heard as they stand in the script, and in pieces of 1 and of 3.
pub fn check_pieces(
    alloc: Global,
    transcript: &Transcript,
    script: &Script,
) -> Result<Option<Difference>, ScreenError> {
    let whole = sent_whole(alloc, script)?;
    for (length, tried) in [(1, "heard byte by byte"), (3, "heard in pieces of 3")] {
        let pieces = sent_in(alloc, script, length)?;
        if let Some(viewer) = first_unlike(&whole, &pieces) {
            let wanted = format!(in alloc; "viewer {viewer} is sent the same bytes")?;
            let line = transcript.line;
            let found = make_difference(alloc, tried, line, &wanted, "others")?;
            return Ok(Some(found));
        }
    }
    Ok(None)
}
