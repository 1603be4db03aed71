//! A file of transcripts: blocks of lines, parted by empty lines. A line behind `> ` is said, the lines under it are what is
//! answered to it, and the last line of a block is `status N`.

use std::alloc::{AllocError, AllocFailed, Global};
use std::mem;

/// A line that is said, and what is answered to it.
#[derive(Drop)]
pub struct Exchange {
    /// The number of the said line in its file, from 1.
    pub line: usize,
    pub said: String,
    /// The lines under it.
    pub answered: Vec<String>,
}

/// Lines that are said one after the other, and how that ends.
#[derive(Drop)]
pub struct Transcript {
    pub exchanges: Vec<Exchange>,
    /// The last line: `status` and a number.
    pub ending: String,
    /// The last line's number in its file.
    pub line: usize,
}

/// Why a file has no list of transcripts.
#[derive(Clone, Copy)]
pub enum Malformed {
    /// The line with this number can't stand where it stands.
    Line(usize),
    OutOfMemory,
}

impl From<AllocError> for Malformed {
    fn from(_error: AllocError) -> Malformed {
        Malformed::OutOfMemory
    }
}

impl<T: Drop> From<AllocFailed<T>> for Malformed {
    fn from(_error: AllocFailed<T>) -> Malformed {
        Malformed::OutOfMemory
    }
}

/// What has been read of a file: whole transcripts, and the beginning of one.
#[derive(Drop)]
struct Read {
    alloc: Global,
    whole: Vec<Transcript>,
    begun: Vec<Exchange>,
}

/// Returns what the line `text` says, if it is a said one. `>` alone says an empty line.
fn said_in(text: &str) -> Option<&str> {
    if text == ">" {
        return Some("");
    }
    text.strip_prefix("> ")
}

impl Read {
    fn say(&mut self, line: usize, said: &str) -> Result<(), Malformed> {
        let said = String::from_str(self.alloc, said)?;
        let answered = Vec::new(self.alloc);
        self.begun.push(Exchange {
            line,
            said,
            answered,
        })?;
        Ok(())
    }

    fn answer(&mut self, line: usize, text: &str) -> Result<(), Malformed> {
        let text = String::from_str(self.alloc, text)?;
        match self.begun.last_mut() {
            Some(exchange) => {
                exchange.answered.push(text)?;
                Ok(())
            }
            None => Err(Malformed::Line(line)),
        }
    }

    fn end(&mut self, line: usize, ending: &str) -> Result<(), Malformed> {
        let ending = String::from_str(self.alloc, ending)?;
        let exchanges = mem::replace(&mut self.begun, Vec::new(self.alloc));
        self.whole.push(Transcript {
            exchanges,
            ending,
            line,
        })?;
        Ok(())
    }

    /// Takes the next line of the file; `line` is its number.
    fn take(&mut self, line: usize, text: &str) -> Result<(), Malformed> {
        if let Some(said) = said_in(text) {
            return self.say(line, said);
        }
        if text.starts_with("status ") && !self.begun.is_empty() {
            return self.end(line, text);
        }
        if text.is_empty() && self.begun.is_empty() {
            return Ok(());
        }
        self.answer(line, text)
    }
}

/// Reads the transcripts in the `text` of a file.
pub fn transcripts(alloc: Global, text: &str) -> Result<Vec<Transcript>, Malformed> {
    let mut read = Read {
        alloc,
        whole: Vec::new(alloc),
        begun: Vec::new(alloc),
    };
    let mut line = 0usize;
    for text in text.split('\n') {
        line = line.saturating_add(1);
        read.take(line, text)?;
    }
    if read.begun.is_empty() {
        Ok(read.whole)
    } else {
        Err(Malformed::Line(line))
    }
}
