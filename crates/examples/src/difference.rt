//! Where what is given is not as written.

use crate::transcripts::Exchange;
use std::alloc::{AllocError, Global};

/// The first line that differs.
#[derive(Drop)]
pub struct Difference {
    /// What was tried: how the transcript was played.
    pub tried: &'static str,
    /// The number of the line in its file.
    pub line: usize,
    pub wanted: String,
    pub given: String,
}

/// Makes a difference with copies of the texts.
pub fn make_difference(
    alloc: Global,
    tried: &'static str,
    line: usize,
    wanted: &str,
    given: &str,
) -> Result<Difference, AllocError> {
    Ok(Difference {
        tried,
        line,
        wanted: String::from_str(alloc, wanted)?,
        given: String::from_str(alloc, given)?,
    })
}

/// What is said where no line is left.
const NO_LINE: &str = "(no line)";

/// The lines that are given, and how many of them were compared.
#[derive(Drop)]
struct Given<'a> {
    alloc: Global,
    tried: &'static str,
    lines: Vec<&'a str>,
    compared: usize,
}

impl<'a> Given<'a> {
    fn next(&mut self) -> &'a str {
        let line = self.lines.get(self.compared).copied();
        self.compared = self.compared.saturating_add(1);
        line.unwrap_or(NO_LINE)
    }

    /// Compares the lines answered in `exchange` with the next ones given, and returns the first that differs, if one does.
    fn compare(&mut self, exchange: &Exchange) -> Result<Option<Difference>, AllocError> {
        let mut line = exchange.line;
        for wanted in &exchange.answered {
            line = line.saturating_add(1);
            let given = self.next();
            if wanted.as_str() != given {
                return Ok(Some(make_difference(self.alloc, self.tried, line, wanted, given)?));
            }
        }
        Ok(None)
    }

    fn compare_all(&mut self, exchanges: &[&Exchange]) -> Result<Option<Difference>, AllocError> {
        for exchange in exchanges {
            if let Some(difference) = self.compare(exchange)? {
                return Ok(Some(difference));
            }
        }
        Ok(None)
    }
}

/// Compares what is answered in `exchanges` with `text`, which has whole lines, and returns the first difference, if there is one.
pub fn compare(
    alloc: Global,
    tried: &'static str,
    exchanges: &[&Exchange],
    text: &str,
) -> Result<Option<Difference>, AllocError> {
    let mut given = Given {
        alloc,
        tried,
        lines: text.split('\n').collect(alloc)?,
        compared: 0,
    };
    if let Some(difference) = given.compare_all(exchanges)? {
        return Ok(Some(difference));
    }
    // Behind the last line feed stands nothing.
    match given.next() {
        "" | NO_LINE => Ok(None),
        more => {
            let line = exchanges.last().map_or(0, |exchange| exchange.line);
            Ok(Some(make_difference(alloc, tried, line, NO_LINE, more)?))
        }
    }
}
