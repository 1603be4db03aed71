//! The limits of a configuration, of a rectangle of colours, and of a text.

ghost use Rattle.std.specs.Prelude.{◌≡◌, ◌*◌, ◌-ℤ◌, nat_abs, None, Some, MatchResult};
ghost use Rattle.scene.specs.declared.History.{History};
ghost use Rattle.scene.specs.Alone.{is_size, config_refusal, is_span, is_within, pixels_refusal, size_refusal, text_refusal};
ghost use Rattle.scene.specs.Checked.{IsChecked};

use crate::{Config, ScreenError};
use framebuffer::{Block, block_of};
use picture::Picture;
use region::{LONGEST_SIDE, Rect};

/// How many places a screen has at most.
pub const MOST_PLACES: u32 = 1 << 24;

/// How many bytes a desktop's name has at most.
pub const LONGEST_NAME: usize = 255;

/// How many copies, and how many rectangles of pixels, an update has at most, whatever a configuration says.
pub const MOST_RECTS: u32 = 1000;

/// How many bytes a text has at most.
pub const LONGEST_TEXT: usize = 65_536;

/// Returns whether a screen may have `width` columns and `height` rows: 1 to 8192 each, with at most 2^24 places.
fn is_size(width: u32, height: u32) -> bool
    ensures { result ≡ is_size width height }
{
    let longest = LONGEST_SIDE as u32;
    1 <= width
        && width <= longest
        && 1 <= height
        && height <= longest
        && width * height <= MOST_PLACES
}

/// Checks a size: `BadSize` unless `width` and `height` are 1 to 8192 each, with at most 2^24 places.
pub fn size_refusal(width: u32, height: u32) -> Option<ScreenError>
    ensures { result ≡ size_refusal width height }
{
    if is_size(width, height) {
        None
    } else {
        Some(ScreenError::BadSize)
    }
}

/// Checks a configuration: `BadSize` as `size_refusal`, then `BadName` above 255 bytes, then `BadRectLimit` unless `rects_per_update` is
/// 1 to 1000.
pub fn config_refusal(
    width: u32,
    height: u32,
    name: &[u8],
    rects_per_update: u32,
) -> Option<ScreenError>
    ensures { (history : History) → result ≡ config_refusal (record {
      width = width;
      height = height;
      name = name.now;
      rects_per_update = rects_per_update;
      history = history;
    }) }
{
    if !is_size(width, height) {
        return Some(ScreenError::BadSize);
    }
    if name.len() > LONGEST_NAME {
        return Some(ScreenError::BadName);
    }
    if !(1 <= rects_per_update && rects_per_update <= MOST_RECTS) {
        return Some(ScreenError::BadRectLimit);
    }
    None
}

/// Checks a configuration as `config_refusal` does.
pub fn refusal_of(config: &Config) -> Option<ScreenError>
    ensures { result ≡ config_refusal config.now }
{
    let name = config.name.as_slice();
    config_refusal(config.width, config.height, name, config.rects_per_update)
}

/// Returns whether 0 <= from <= to <= limit.
fn is_span(from: i32, to: i32, limit: u32) -> bool
    ensures { result ≡ is_span from to limit }
{
    0 <= from && from <= to && to as u32 <= limit
}

/// Returns whether a rectangle with its corners in order is on a screen of `width` columns and `height` rows.
fn is_within(width: u32, height: u32, rect: Rect) -> bool
    ensures { result ≡ is_within width height rect }
{
    is_span(rect.x1, rect.x2, width) && is_span(rect.y1, rect.y2, height)
}

/// Returns how many places are between a rectangle's corners.
fn places_of(rect: Rect) -> u64
    ensures { result ≡ nat_abs (rect.x2 -ℤ rect.x1) * nat_abs (rect.y2 -ℤ rect.y1) }
{
    let columns = u64::from(rect.x2.abs_diff(rect.x1));
    let rows = u64::from(rect.y2.abs_diff(rect.y1));
    columns * rows
}

/// Checks a paint on a screen of `width` columns and `height` rows: `BadRect` unless the rectangle's corners are in order and on the
/// screen, then `BadPixelCount` unless there is a colour for each place.
pub fn pixels_refusal(width: u32, height: u32, rect: Rect, colours: &[u32]) -> Option<ScreenError>
    ensures { result ≡ pixels_refusal width height rect colours.now }
{
    if !is_within(width, height, rect) {
        return Some(ScreenError::BadRect);
    }
    if colours.len() as u64 != places_of(rect) {
        return Some(ScreenError::BadPixelCount);
    }
    None
}

/// Checks a text: `TextTooLong` above 65,536 bytes.
pub fn text_refusal(text: &[u8]) -> Option<ScreenError>
    ensures { result ≡ text_refusal text.now }
{
    if text.len() > LONGEST_TEXT {
        return Some(ScreenError::TextTooLong);
    }
    None
}

/// Returns the refusal, if there is one, as an error.
pub fn unless_refused(refusal: Option<ScreenError>) -> Result<(), ScreenError>
    ensures { MatchResult result (λ _. refusal ≡ None) (λ e. refusal ≡ Some e) }
{
    match refusal {
        None => Ok(()),
        Some(refusal) => Err(refusal),
    }
}

/// Returns the block of a rectangle of a screen whose colours may be replaced by these, or why they may not.
pub fn checked(picture: &Picture, rect: Rect, colours: &[u32]) -> Result<Block, ScreenError>
    ensures { MatchResult result (IsChecked picture.now.width picture.now.height rect colours.now)
        (λ e. pixels_refusal picture.now.width picture.now.height rect colours.now ≡ Some e) }
{
    match pixels_refusal(picture.width(), picture.height(), rect, colours) {
        None => Ok(block_of(rect)),
        Some(refusal) => Err(refusal),
    }
}
