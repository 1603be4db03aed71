//! A program's own pixels, to be compared with a picture: bytes at a stride, in a format of 8 to 32 bits a pixel, or as places of a
//! table of colours. The bytes stay the program's; they are read only.
//!
//! A framebuffer of 32 bits, the lowest byte first, with red at 16, green at 8 and blue at 0:
//!
//! ```
//! let format = SourceFormat::TrueColour(TrueColour::server());
//! let source = PixelSource::new(&bytes, 4 * 1920, 1920, 1080, format)?;
//! // source.compare_row(0, row) is None where row 0 of the picture has these colours already
//! ```
//!
//! `find_differences` does so for each row of a picture that is `Beside` the pixels, and gathers what differs into rectangles;
//! `find_bands` does so for some rows, and leaves their colours out.
#![tactic(auto)]

mod bands;
mod colours;
mod errors;
mod formats;
mod pieces;
mod pixels;
mod rows;
mod scales;
mod source;

pub use bands::{Band, MOST_PLACES};
pub use errors::SourceError;
pub use formats::{BytesPerPixel, SourceFormat, TrueColour};
pub use pieces::{Beside, Differences, FoundBands, Piece, find_bands, find_differences};
pub use pixel_translate::Component;
pub use rows::RowDifference;
pub use source::PixelSource;
