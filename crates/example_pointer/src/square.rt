//! What is drawn.

ghost use Rattle.std.specs.Prelude.{◌≡◌, ◌+◌, ◌&&◌, nat_le, nat_lt};
ghost use Rattle.example_pointer.specs.Squares.{by_key, doubled, first, halved, moved, moved_by, placed};

use serving::{Application, Brush, Input, Rect, ScreenError, Shared, Told};
use std::sync::Wait;
use std::sync::ledger::Ledger;

/// Columns of the screen at first.
pub const WIDTH: u16 = 12;

/// Rows of the screen at first.
pub const HEIGHT: u16 = 6;

/// How often the screen can be doubled.
const MOST_DOUBLINGS: u16 = 6;

/// The keys + and -, as keysyms of X11 (RFC 6143 section 7.5.4).
pub const PLUS: u32 = 0x2b;

const MINUS: u32 = 0x2d;

/// The colour of the square. The rest of the screen is black, as every screen is at first.
pub const WHITE: u32 = 0xff_ffff;

/// A square of 2 columns and 2 rows, the screen's columns and rows, and where on it the square's left upper corner is.
#[derive(Clone, Copy, Drop)]
pub struct Square {
    width: u16,
    height: u16,
    x: u16,
    y: u16,
}

impl Square {
    /// Returns the square on a screen of `width` columns and `height` rows, with its corner at `x`, `y`, or as far from there as keeps the
    /// square on the screen.
    pub fn on(width: u16, height: u16, x: u16, y: u16) -> Square
        ensures { result ≡ placed width height x y }
    {
        Square {
            width,
            height,
            x: x.min(width.saturating_sub(2)),
            y: y.min(height.saturating_sub(2)),
        }
    }

    /// Returns the square with its corner at `x`, `y`, on the same screen.
    fn at(&self, x: u16, y: u16) -> Square
        ensures { result ≡ placed self.now.width self.now.height x y }
    {
        Square::on(self.width, self.height, x, y)
    }

    /// Returns the same square on a screen of twice the columns and rows, as far as screens go here.
    fn doubled(&self) -> Square
        ensures { result ≡ doubled self.now }
    {
        if self.width >= WIDTH << MOST_DOUBLINGS {
            return *self;
        }
        Square::on(
            self.width.saturating_mul(2),
            self.height.saturating_mul(2),
            self.x,
            self.y,
        )
    }

    /// Returns the same on a screen of half the columns and rows, as far as screens go here.
    fn halved(&self) -> Square
        ensures { result ≡ halved self.now }
    {
        if self.width <= WIDTH {
            return *self;
        }
        Square::on(self.width / 2, self.height / 2, self.x, self.y)
    }

    /// Returns the square that a key makes of it: + doubles the screen, and - halves it.
    fn by_key(&self, key: u32) -> Square
        ensures { result ≡ by_key self.now key }
    {
        match key {
            PLUS => self.doubled(),
            MINUS => self.halved(),
            _ => *self,
        }
    }

    /// Returns the square that an input makes of it: it goes to where the pointer is, and keys that go down change the screen.
    fn moved(&self, input: &Input) -> Square
        ensures { result ≡ moved self.now input.now }
    {
        match input {
            Input::Pointer { x, y, .. } => self.at(*x, *y),
            Input::Key { down: true, key } => self.by_key(*key),
            Input::Key { down: false, .. } | Input::Text { .. } => *self,
        }
    }

    /// Says whether it covers a place.
    pub fn covers(&self, x: u16, y: u16) -> bool
        ensures { result ≡ (nat_le self.now.x x && nat_lt x (self.now.x + 2) && nat_le self.now.y y && nat_lt y (self.now.y + 2)) }
    {
        let (left, top) = (u32::from(self.x), u32::from(self.y));
        let (x, y) = (u32::from(x), u32::from(y));
        left <= x && x < left + 2 && top <= y && y < top + 2
    }

    /// Paints its places in a colour.
    fn paint<L: Ledger, R: Wait>(
        &self,
        rt: &R,
        shared: &Shared<L>,
        brush: &mut Brush<L>,
        colour: u32,
    ) -> Result<(), ScreenError> {
        let (x1, y1) = (i32::from(self.x), i32::from(self.y));
        let rect = Rect {
            x1,
            y1,
            x2: x1 + 2,
            y2: y1 + 2,
        };
        brush.paint(shared, rt, rect, &[colour; 4])
    }
}

impl Square {
    /// Draws it on a screen of its own, which is black elsewhere.
    fn draw_anew<L: Ledger, R: Wait>(
        &self,
        rt: &R,
        shared: &Shared<L>,
        brush: &mut Brush<L>,
    ) -> Result<(), ScreenError> {
        brush.new_framebuffer(shared, rt, u32::from(self.width), u32::from(self.height))?;
        self.paint(rt, shared, brush, WHITE)
    }

    /// Draws what an `input` changed of the square, which was `before`.
    fn draw_change<L: Ledger, R: Wait>(
        &self,
        rt: &R,
        shared: &Shared<L>,
        brush: &mut Brush<L>,
        before: &Square,
        input: &Input,
    ) -> Result<(), ScreenError> {
        match input {
            Input::Pointer { .. } => {
                before.paint(rt, shared, brush, 0)?;
                self.paint(rt, shared, brush, WHITE)
            }
            Input::Key {
                down: true,
                key: PLUS | MINUS,
            } => self.draw_anew(rt, shared, brush),
            _ => Ok(()),
        }
    }
}

impl<L: Ledger> Application<L> for Square {
    ghost stands = { λ square told. square ≡ moved_by first told };

    /// Moves the square to where the pointer is. The key + doubles the screen, and the key - halves it. Draws what that changes.
    fn on_input<R: Wait>(
        &mut self,
        rt: &R,
        shared: &Shared<L>,
        brush: &mut Brush<L>,
        told: &Told,
    ) -> Result<(), ScreenError> {
        let before = *self;
        *self = before.moved(&told.input);
        self.draw_change(rt, shared, brush, &before, &told.input)
    }
}
