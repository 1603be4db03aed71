//! Which of two lists of bands is the shorter one, and whether one is far shorter.

ghost use Rattle.std.specs.Prelude.{◌≡◌, ◌<◌, ◌↔◌, IsTrue, length};

use crate::form::Form;
use region_bands::Reader;

/// Says whether `first` has fewer bands to read than `second`. Reads both as far as it takes to know.
pub(crate) fn has_fewer(first: &mut Reader, second: &mut Reader) -> bool
    ensures { IsTrue result ↔ (length first.old.bands < length second.old.bands) }
{
    'bands: while first.first_rows().is_some() {
        let other = second.first_rows();
        if other.is_none() {
            return false;
        }
        first.advance();
        second.advance();
    }
    let left = second.first_rows();
    left.is_some()
}

// Reads on past `most` bands, or past all that are left.
fn pass(bands: &mut Reader, most: usize) {
    for _ in 0..most {
        if bands.first_rows().is_some() {
            bands.advance();
        }
    }
}

// Says whether `first` has few bands to read beside `second`: at most 8 more than a quarter of them, rounded up. Reads both as far as
// it takes to know.
fn has_few(first: &mut Reader, second: &mut Reader) -> bool {
    pass(first, 8);
    'bands: while first.first_rows().is_some() {
        if second.first_rows().is_none() {
            return false;
        }
        first.advance();
        pass(second, 4);
    }
    true
}

/// Says whether neither region has few bands beside the other, so that it takes less time to make what is kept of both anew
/// than in the place of one. No clause says which regions these are: it costs time alone.
pub(crate) fn are_alike(first: &Form, second: &Form) -> bool {
    !has_few(&mut first.reader(), &mut second.reader())
        && !has_few(&mut second.reader(), &mut first.reader())
}
