//! A new size of the screen for all viewers.

ghost use Rattle.std.specs.Prelude.{◌≡◌, ◌≤◌, map, IfOk};
ghost use Rattle.std.specs.Map.{values_of};
ghost use Rattle.region.specs.Places.{longest_side};
ghost use Rattle.client_list.specs.Connected.{changed};
ghost use Rattle.viewer_list.specs.Lagging.{resized_marks, resized_of};

use crate::lagging::Lagging;
use client_list::Clients;
use std::alloc::{AllocError, Global};
use viewer::Prepared;

/// Returns each viewer's marks on a screen of `width` columns and `height` rows, 1 to 8192 each.
pub fn prepare_all(
    alloc: Global,
    viewers: &Clients<Lagging>,
    width: u16,
    height: u16,
) -> Result<Vec<Prepared>, AllocError>
    requires columns { width ≤ longest_side }
    requires rows { height ≤ longest_side }
    ensures { IfOk result (λ marks. marks.items ≡ map (resized_marks width height) (values_of viewers.now.pairs)) }
{
    let mut marks = Vec::with_capacity(alloc, viewers.len())?;
    let mut position = viewers.first();
    while let Some(at) = position {
        marks.push(viewers.at(at).viewer.prepare_resize(width, height)?)?;
        position = viewers.next(at);
    }
    Ok(marks)
}

impl Lagging {
    /// Puts the marks in place that were made for the viewer. They lack nothing of a log that begins anew.
    fn resize(&mut self, width: u16, height: u16, marks: Prepared)
        requires { marks ≡ resized_marks width height self.old }
        ensures { self.new ≡ resized_of width height self.old }
    {
        self.viewer.commit(marks);
        self.taken = 0;
    }
}

/// Gives each viewer its marks, the first viewer the first. This takes no memory.
pub fn resize_all(viewers: &mut Clients<Lagging>, width: u16, height: u16, mut marks: Vec<Prepared>)
    requires { marks.items ≡ map (resized_marks width height) (values_of viewers.old.pairs) }
    ensures { viewers.new.pairs ≡ changed (resized_of width height) viewers.old.pairs }
{
    marks.reverse();
    let mut position = viewers.first();
    while let Some(at) = position {
        if let Some(prepared) = marks.pop() {
            viewers.at_mut(at).resize(width, height, prepared);
        }
        position = viewers.next(at);
    }
}
