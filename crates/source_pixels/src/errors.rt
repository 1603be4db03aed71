//! Why pixels are refused.

/// Why bytes are no pixels of a size in a format.
#[derive(Clone, Copy, Debug, PartialEq, Eq)]
pub enum SourceError {
    /// A component has no value above 0, or doesn't fit in the pixel, in its place.
    BadComponent,
    /// A table has no colour, or more than 256.
    BadTable,
    /// A stride is shorter than the pixels of a row.
    StrideTooShort,
    /// There are fewer bytes than the rows need at the stride.
    TooFewBytes,
}
