//! A screen that threads share: one lock round the screen, conditions on which viewers' senders wait, the
//! application's brush, and each viewer's two ends. What is done in one hold of the lock is one event of the screen, or
//! none.
//!
//! A number connects once, whoever draws meanwhile:
//!
//! ```
//! let (shared, mut brush) = Shared::<L>::new(alloc, blank, config)?;
//! let line = shared.connect(rt, 1)?;
//! brush.paint(&shared, rt, Rect { x1: 0, y1: 0, x2: 1, y2: 1 }, &[0xff_0000])?;
//! shared.close(rt, 1)?;
//! // shared.connect(rt, 1) is refused as NumberInUse from now on
//! ```
#![tactic(auto)]

mod brush;
mod finishing;
mod gate;
mod hearing;
mod line;
mod locked_screen;
mod next_step;
mod opening;
mod reader;
mod reasons;
mod sender;
mod senders;
mod shared;
mod writing;

/// What is known of a viewer once it has ended. A module has no two items whose names differ only in case, and `receipt` is a call.
pub mod viewer_receipt {
    pub use receipts::Receipt;
}

pub use brush::Brush;
pub use finishing::{finish, receipt};
pub use gate::{Gate, OpenGate};
pub use line::{Line, Listener, Speaker};
pub use locked_screen::Parting;
pub use opening::{Opened, serve_opening};
pub use reader::{ReadHalf, serve_listener, serve_reader};
pub use receipts::{Ended, FinishError, Report, Sent, check};
pub use screen::{Answer, Config, Event, History, Rect, Region, ScreenError, Update};
pub use sender::{WriteHalf, serve_sender};
pub use shared::Shared;

/// The error of a call that is refused memory.
pub use std::alloc::AllocError as OutOfMemory;
