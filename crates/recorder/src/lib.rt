//! What happens to a screen, written as it happens: a line for its configuration, and a line for each event, in the language of
//! `vncdemo play`. What that language can't say has lines of its own: `desktop` for a name with a blank or a line feed and for the name
//! `-`, `marks`, `schedules` and `docopies` for regions of no rectangle or of several.
//!
//! ```
//! let mut recorder = Recorder::new(alloc, file, &config)?; // screen 640 480 demo 50
//! recorder.connected(1); // connect 1
//! recorder.drew(&Drawing::Bell); // bell
//! recorder.flush();
//! ```
//!
//! No call fails. Where a write fails the record ends there, for good: `is_broken`.
#![tactic(auto)]

mod recorder;
mod words;

pub use recorder::Recorder;
