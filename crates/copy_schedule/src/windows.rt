//! Windows of a screen.

ghost use Rattle.std.specs.Prelude.{◌≡◌, ℕ, ◌<◌, ◌≤◌, pos, ◌-ℤ◌, int_le, int_lt, nat_le, nat_lt};
ghost use Rattle.copy_schedule.specs.Windows.{in_window};
ghost use Rattle.region.specs.Region.{in_rect};

use region::Rect;

/// The places (x, y) of a screen with x1 <= x < x2 and y1 <= y < y2.
#[derive(Clone, Copy)]
pub struct Window {
    pub x1: usize,
    pub y1: usize,
    pub x2: usize,
    pub y2: usize,
}

/// Returns the number from 0 to `end` that is nearest to `at`.
fn clamped(at: i64, end: u32) -> usize
    ensures bound { result ≤ end }
    ensures from { (k : ℕ) → k < end → nat_le result k ≡ int_le at (pos k) }
    ensures to { (k : ℕ) → k < end → nat_lt k result ≡ int_lt (pos k) at }
{
    if at <= 0 {
        0
    } else if at < i64::from(end) {
        at as usize
    } else {
        end as usize
    }
}

/// Moves an edge from `at` by `by`, and returns the number from 0 to `end` that is nearest to it.
fn moved_edge(at: i32, by: i32, end: u32) -> usize
    ensures bound { result ≤ end }
    ensures from { (k : ℕ) → k < end → nat_le result k ≡ int_le at (pos k -ℤ by) }
    ensures to { (k : ℕ) → k < end → nat_lt k result ≡ int_lt (pos k -ℤ by) at }
{
    clamped(i64::from(at) + i64::from(by), end)
}

/// Moves a rectangle by (`dx`, `dy`), and returns the part that is on a screen of `width` columns and `height` rows.
pub fn window_of(rect: Rect, dx: i32, dy: i32, width: u32, height: u32) -> Window
    ensures left { result.x1 ≤ width }
    ensures top { result.y1 ≤ height }
    ensures columns { result.x2 ≤ width }
    ensures rows { result.y2 ≤ height }
    ensures places { (x y : ℕ) → x < width → y < height → in_window result x y ≡ in_rect rect (pos x -ℤ dx) (pos y -ℤ dy) }
{
    Window {
        x1: moved_edge(rect.x1, dx, width),
        y1: moved_edge(rect.y1, dy, height),
        x2: moved_edge(rect.x2, dx, width),
        y2: moved_edge(rect.y2, dy, height),
    }
}
