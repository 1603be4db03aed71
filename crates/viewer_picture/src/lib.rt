//! What a viewer shows that reads what the server sends, by RFC 6143 alone.
#![tactic(auto)]

ghost use Rattle.viewer_picture.specs.Claims.{RectanglesAreRead, all_read_is_legal, taken_was_listed};
ghost use Rattle.viewer_picture.specs.Pictures.{PicturesAreOwedOrShown};

use encode_hextile::hextile_is_read_back;
use encode_raw::raw_is_read_back;
use encode_rre::rre_is_read_back;

/// Proves that a viewer that reads a rectangle of its picture shows each colour's pixel at its place, in Raw and in each encoding
/// that it listed; and that one that reads a copy shows at each place what the source showed.
pub fn rectangles_are_read()
    ensures { RectanglesAreRead }
{
    raw_is_read_back();
    rre_is_read_back();
    hextile_is_read_back();
}

/// Proves that a viewer reads no rectangle beyond its picture, none in an encoding that it didn't list, but for Raw, and no copy of
/// what is beyond the picture.
pub fn all_read_is_legal()
    ensures { all_read_is_legal }
{}

/// Proves that the viewer listed each encoding that the server takes of its list, but for Raw.
pub fn taken_was_listed()
    ensures { taken_was_listed }
{}

/// Proves that a viewer shows a picture by its marks exactly if two things hold: once it made the copies that it awaits, it would
/// show each colour at its place, but for the places that are owed; and each of these copies is from the screen.
pub fn pictures_are_owed_or_shown()
    ensures { PicturesAreOwedOrShown }
{}
