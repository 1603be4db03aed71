//! A caller of the reader: it draws a letter at each place, that of the pixel's lowest byte, and writes down what it hears.

use server_reader::{Area, ReadFault, Reader, Step};
use std::alloc::{AllocError, Global};

/// Letters row by row, `.` where nothing was drawn; and a letter for each end of an update (`u`), bell (`b`), new size (`s`), text (`t`,
/// then its bytes) and entry of the colour map (`m`).
#[derive(Drop)]
pub(crate) struct Drawing {
    alloc: Global,
    columns: u16,
    places: Vec<u8>,
    pub heard: Vec<u8>,
}

impl Drawing {
    pub(crate) fn new(alloc: Global, columns: u16, rows: u16) -> Result<Drawing, AllocError> {
        Ok(Drawing {
            alloc,
            columns,
            places: vec![in alloc; b'.'; usize::from(columns) * usize::from(rows)]?,
            heard: Vec::new(alloc),
        })
    }

    fn index(&self, x: u16, y: u16) -> usize {
        usize::from(y) * usize::from(self.columns) + usize::from(x)
    }

    fn letter(&self, x: u16, y: u16) -> u8 {
        self.places.get(self.index(x, y)).copied().unwrap_or(b'?')
    }

    /// Draws `letters` row by row, those that are there.
    fn fill(&mut self, area: Area, letters: &[u8]) {
        let mut next = 0;
        for y in area.y..area.y.saturating_add(area.h) {
            for x in area.x..area.x.saturating_add(area.w) {
                let index = self.index(x, y);
                if index < self.places.len() && next < letters.len() {
                    self.places[index] = letters[next];
                    next += 1;
                }
            }
        }
    }

    /// Returns the letters of the area of this size at (`x`, `y`), row by row.
    fn letters(&self, area: Area) -> Result<Vec<u8>, AllocError> {
        let mut letters = Vec::new(self.alloc);
        for y in area.y..area.y.saturating_add(area.h) {
            for x in area.x..area.x.saturating_add(area.w) {
                letters.push(self.letter(x, y))?;
            }
        }
        Ok(letters)
    }

    fn hear(&mut self, letter: u8) -> Result<(), AllocError> {
        self.heard.push(letter)?;
        Ok(())
    }

    fn resize(&mut self, columns: u16, rows: u16) -> Result<(), AllocError> {
        self.columns = columns;
        self.places = vec![in self.alloc; b'.'; usize::from(columns) * usize::from(rows)]?;
        self.hear(b's')
    }

    /// Does a step.
    fn draw(&mut self, step: Step<'_>) -> Result<(), AllocError> {
        match step {
            Step::Head => Ok(()),
            Step::Pixels { area, bytes } => {
                let mut letters = Vec::new(self.alloc);
                for pixel in bytes.chunks_exact(4) {
                    letters.push(pixel.first().copied().unwrap_or(b'?'))?;
                }
                self.fill(area, &letters);
                Ok(())
            }
            Step::Fill { area, pixel } => {
                let count = usize::from(area.w) * usize::from(area.h);
                let letters = vec![in self.alloc; pixel.to_le_bytes()[0]; count]?;
                self.fill(area, &letters);
                Ok(())
            }
            Step::Copy { area, x, y } => {
                let letters = self.letters(Area { x, y, ..area })?;
                self.fill(area, &letters);
                Ok(())
            }
            Step::Size { width, height } => self.resize(width, height),
            Step::UpdateEnd => self.hear(b'u'),
            Step::Bell => self.hear(b'b'),
            Step::TextBegins { .. } => self.hear(b't'),
            Step::Text(bytes) => self.heard.extend_from_slice(bytes),
            Step::MapEntry { .. } => self.hear(b'm'),
        }
    }

    /// Tells the reader a piece, and does each step. Returns the fault, if there is one.
    pub(crate) fn told(
        &mut self,
        reader: &mut Reader,
        piece: &[u8],
    ) -> Result<Option<ReadFault>, AllocError> {
        let mut left = piece;
        for _steps in 0..1000u32 {
            match reader.next(left) {
                Ok(Some(next)) => {
                    self.draw(next.step)?;
                    left = next.rest;
                }
                Ok(None) => return Ok(None),
                Err(fault) => return Ok(Some(fault)),
            }
        }
        Ok(None)
    }

    /// Returns the rows of letters, one after the other.
    pub(crate) fn text(&self) -> &[u8] {
        &self.places
    }
}
