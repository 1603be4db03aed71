//! Witnesses of what is painted while a program's pixels are taken in.

ghost use Rattle.std.specs.Prelude.{List, ◌∷◌, ◌++◌, []};
ghost use Rattle.scene.specs.declared.Event.{Event};

use region::Rect;

/// A witness of paints, each behind the one before.
pub trait Witness {
    // It noted these events.
    ghost was_told: { List Event → Self → Self → Type 0 };

    // One that notes nothing stays.
    ghost nothing: { (s : Self) → was_told [] s s };

    // What it notes behind other events it has noted with them.
    ghost both: { (first second : List Event) (r s t : Self) → was_told first r s → was_told second s t → was_told (first ++ second) r t };

    /// Notes that `rect` was painted with `colours`.
    fn painted(&mut self, rect: Rect, colours: &[u32])
        ensures { was_told (Event.Paint rect colours.now ∷ []) self.old self.new };
}

/// A witness that notes nothing.
#[derive(Clone, Copy, Drop)]
pub struct Nobody;

impl Witness for Nobody {
    ghost was_told = { λ _ _ _. Unit {0} };

    ghost nothing = { λ _. tt };

    ghost both = { λ _ _ _ _ _ _ _. tt };

    fn painted(&mut self, _rect: Rect, _colours: &[u32]) {}
}
