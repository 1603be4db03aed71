//! A mirror: the picture of one VNC server, which is watched as a viewer does, served to many viewers by one thread's loop.
//!
//! ```
//! let status = mirror_on(rt, alloc, listeners, &options, &mut writer);
//! ```
//!
//! What the source says is drawn on the loop's canvas by `source_picture`. Keys, pointers and texts of viewers are handed on to it, by
//! `source_talk`. Where the source goes, viewers keep the last picture, and it is tried again each second.
#![tactic(auto)]

mod ends;
mod inbox;
mod mirror;
mod program;
mod source;

pub use program::{BrowserListener, Listeners, MirrorOptions, mirror_on};
