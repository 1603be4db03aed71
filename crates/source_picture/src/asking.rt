//! What a source is to be asked next.

ghost use Rattle.std.specs.Prelude.{◌≡◌, false};
ghost use Rattle.source_picture.specs.Asking.{first_asking, asked_after, request_behind};

use crate::source::Request;
use server_reader::Step;

/// What a source is to be asked, and what it said since.
#[derive(Clone, Copy)]
pub(crate) struct Asking {
    /// What is to be requested next.
    pub request: Request,
    /// The picture has another size than all of it was requested in.
    pub has_size: bool,
    /// An update came whole.
    pub has_update: bool,
}

impl Asking {
    /// Returns what a source is asked first: all of its picture.
    pub fn first() -> Asking
        ensures { result ≡ first_asking }
    {
        Asking {
            request: Request::All,
            has_size: false,
            has_update: false,
        }
    }

    /// Returns what is to be requested behind an update that is whole: all where the picture has a new size, else what changes.
    fn behind_update(self) -> Request
        ensures { result ≡ request_behind self }
    {
        if self.has_size || self.request == Request::All {
            Request::All
        } else {
            Request::Changes
        }
    }

    /// Notes a step of the source.
    pub fn note(&mut self, step: &Step<'_>)
        ensures { self.new ≡ asked_after step.now self.old }
    {
        match step {
            Step::Size { .. } => self.has_size = true,
            Step::UpdateEnd => {
                self.request = self.behind_update();
                self.has_size = false;
                self.has_update = true;
            }
            _ => {}
        }
    }

    /// Notes that what was to be requested is requested.
    pub fn ask(&mut self)
        ensures { self.new ≡ record self.old { request = Request.None } }
    {
        self.request = Request::None;
    }
}
