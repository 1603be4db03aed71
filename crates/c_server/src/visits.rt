//! Who came and went, in numbers.

ghost use Rattle.std.specs.Prelude.{◌≡◌};
ghost use Rattle.c_server.specs.Visits.{coming_of, going_of};

use crate::codes::{fault_of, reason_code};
use event_loop::Ended;
use std::mem::size_of;

/// A viewer came, or it went. What doesn't belong to its kind is 0.
#[repr(C)]
#[derive(Clone, Copy)]
pub struct Visit {
    /// The number of the viewer: they are counted from 1, as they come.
    pub viewer: u64,
    /// 1 where it came, 2 where it went.
    pub kind: u32,
    /// Why it went: 1 it closed its connection, 2 it said what no message says, 3 a read failed, 4 a write failed, 5 memory was
    /// refused for it, 6 `close_viewer` let it go, 7 it took too long for its opening, 9 its browser sent what no frame is.
    pub reason: u32,
    /// By which fault, as `fault_code` has it, where the reason is 2; where it is 9, the code of the close that it was sent.
    pub fault: i32,
}

// As `vnc_event` of C.
const _: () = prove!(size_of::<Visit>() == 24);

/// Returns that a viewer came.
pub(crate) fn coming_of(viewer: u64) -> Visit
    ensures { result ≡ coming_of viewer }
{
    Visit {
        viewer,
        kind: 1,
        reason: 0,
        fault: 0,
    }
}

/// Returns that a viewer went, for the reason of its end, and by its fault.
pub(crate) fn going_of(viewer: u64, ended: Ended) -> Visit
    ensures { result ≡ going_of viewer ended }
{
    Visit {
        viewer,
        kind: 2,
        reason: reason_code(ended),
        fault: fault_of(ended),
    }
}
