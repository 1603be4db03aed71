//! Plays the transcripts in the files that its words name, compares each line that is answered with the one that is written, and
//! prints a line a file. At the first line that differs it prints that one and ends with status 1.
//!
//! Each script is played whole as `vncdemo play` plays it. Its events are done again by `run`, by a screen that keeps its history,
//! by one that is given that history, and with the viewers' bytes heard byte by byte and in pieces of 3 and updates encoded piece by
//! piece; and each viewer's bytes go to a test viewer, which shows the picture once nothing is owed to it.
#![tactic(auto)]

mod checking;
mod difference;
mod encoding;
mod pieces;
mod replaying;
mod script;
mod showing;
mod transcripts;
mod viewing;
mod watching;

use checking::check;
use difference::Difference;
use screen::ScreenError;
use std::alloc::{AllocError, Global};
use std::process::ExitCode;
use std::rt::Runtime;
use std::{env, fs, io};
use transcripts::{Malformed, Transcript, transcripts};

fn put_difference(text: &mut String, found: &Difference) -> Result<(), AllocError> {
    let Difference {
        tried,
        line,
        wanted,
        given,
    } = found;
    write!(
        text,
        "differs {tried}, at line {line}\nwanted: {wanted}\ngiven: {given}\n"
    )
}

/// Checks the transcripts `all` in order, and returns the first difference from what is written, if there is one.
fn first_difference(alloc: Global, all: &[Transcript]) -> Result<Option<Difference>, ScreenError> {
    for transcript in all {
        let found = check(alloc, transcript)?;
        if found.is_some() {
            return Ok(found);
        }
    }
    Ok(None)
}

/// Appends to `text` the first difference in `all`, or that all is as written, and returns whether it is.
fn put_found(alloc: Global, text: &mut String, all: &[Transcript]) -> Result<bool, ScreenError> {
    match first_difference(alloc, all)? {
        Some(found) => {
            put_difference(text, &found)?;
            Ok(false)
        }
        None => {
            write!(text, "{} transcripts, all as written\n", all.len())?;
            Ok(true)
        }
    }
}

/// Appends to `text` what is found in `file`, or the line that can't stand in it, and returns whether all is as written.
fn put_judgement(alloc: Global, text: &mut String, file: &str) -> Result<bool, ScreenError> {
    match transcripts(alloc, file) {
        Ok(all) => put_found(alloc, text, &all),
        Err(Malformed::Line(line)) => {
            write!(text, "line {line} can't stand there\n")?;
            Ok(false)
        }
        Err(Malformed::OutOfMemory) => Err(ScreenError::OutOfMemory),
    }
}

/// Judges the file `name`, prints its name and the judgement, and returns whether all is as written.
fn judge<R: Runtime + AllocGlobal>(rt: &R, name: &str) -> io::Result<bool> {
    let alloc = rt.alloc();
    let file = fs::read_to_string(rt, name)?;
    let mut text = String::new(alloc);
    match put_judgement(alloc, &mut text, &file) {
        Ok(as_written) => {
            print!(rt; "{name}: {text}")?;
            Ok(as_written)
        }
        Err(error) => {
            println!(rt; "{name}: {error}")?;
            Ok(false)
        }
    }
}

fn judge_all(rt: &HostRuntime) -> io::Result<bool> {
    let words = env::args(rt)?.collect::<Vec<String>>(rt.alloc())?;
    for word in words.iter().skip(1) {
        if !judge(rt, word)? {
            return Ok(false);
        }
    }
    Ok(true)
}

fn main(rt: HostRuntime) -> ExitCode {
    match judge_all(&rt) {
        Ok(true) => ExitCode::from(0),
        Ok(false) => ExitCode::from(1),
        Err(error) => {
            // Where standard error fails too, there is nobody left to tell.
            let _ = eprintln!(rt; "{error}");
            ExitCode::from(1)
        }
    }
}
