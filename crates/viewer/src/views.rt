//! What of a screen a viewer sees.

ghost use Rattle.std.specs.Prelude.{◌≡◌};
ghost use Rattle.region.specs.Region.{in_rect, on_screen};
ghost use Rattle.viewer.specs.Viewer.{area_places, view_by};

use pixel_translate::Area;
use region::Rect;
use updates::Size;

/// Returns what a viewer sees of `screen`: the columns and rows that are the screen's, and within the size that it was told last. Until
/// it is told one, its size is the screen's.
pub(crate) fn view_by(screen: Size, told: Option<Size>) -> Size
    ensures { result ≡ view_by screen.width screen.height told }
{
    let size = told.unwrap_or(screen);
    Size {
        width: size.width.min(screen.width),
        height: size.height.min(screen.height),
    }
}

/// Returns the rectangle of the places of `area` that are in a view.
pub(crate) fn clipped(view: Size, area: Area) -> Rect
    ensures { in_rect result ≡ area_places view.width view.height area }
{
    let right = (u32::from(area.x) + u32::from(area.w)).min(u32::from(view.width));
    let bottom = (u32::from(area.y) + u32::from(area.h)).min(u32::from(view.height));
    Rect {
        x1: i32::from(area.x),
        y1: i32::from(area.y),
        x2: right as i32,
        y2: bottom as i32,
    }
}

/// Returns the rectangle of all places of a view.
pub(crate) fn whole(view: Size) -> Rect
    ensures { in_rect result ≡ on_screen view.width view.height }
{
    Rect {
        x1: 0,
        y1: 0,
        x2: i32::from(view.width),
        y2: i32::from(view.height),
    }
}
