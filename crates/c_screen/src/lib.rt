//! What a program in another language is given of a screen: each call of `Screen` as a call that answers a number, 0 or more where
//! it is done, and below 0 the code of its refusal, where nothing has changed. Besides it keeps what viewers are to be sent until
//! that is fetched, and what they told the program.
//!
//! ```
//! use c_screen::{Desk, DrawByCode};
//!
//! let mut desk = Desk::new(alloc);
//! desk.open(2, 1, b"demo", 50);
//! desk.connect(1);
//! let count = desk.output(1, &mut room); // 12, and "RFB 003.008\n" in the room
//! desk.hear(1, b"RFB 003.008\n\x01\x01");
//! desk.paint(0, 0, 3, 1, &[1, 2, 3]); // -4: it is not on the screen
//! ```
#![tactic(auto)]

mod codes;
mod corners;
mod desk;
mod draw;
mod inputs;
mod output;
mod pixels;
mod settings;
mod told;
mod update;

pub use codes::{
    OFF_SCREEN, OUT_OF_RANGE, OUTPUT_WAITS, SHUT, code_of, done_or, fault_code, places_code,
    truth_or,
};
pub use corners::{Corners, are_far, region_of};
pub use desk::Desk;
pub use draw::{DrawByCode, RegionCall};
pub use output::copy_to;
pub use pixels::{BAD_FORMAT, BAD_STRIDE, PixelLayout, TOO_FEW_BYTES, source_of};
pub use screen::{Fault, Input, ScreenError, Settings};
pub use settings::show_settings;
pub use told::{Told, told_as};
pub use update::DeskUpdate;
