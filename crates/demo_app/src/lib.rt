//! What the program `vncdemo` does: `play`, which `play_script` has, `serve`, which shows a screen to viewers over TCP, `self`, which
//! runs a server and its viewers in one process, and `replay` and `mirror`, which the crates of these names have.
//!
//! The viewer of `self`, `Shown`, is handed on for tests of other programs.
//!
//! Which other command lines `line_of` refuses, and the texts of clap, no clause says: the tests show it.
#![tactic(auto)]

mod command_line;
mod endings;
mod mirror_line;
mod one_thread;
mod self_test;
mod self_test_one_thread;
mod serve;
mod watching;

pub use command_line::{Chosen, WebPort, line_of};
pub use event_loop::{LetIn, RecordWriter};
pub use mirror::{BrowserListener, Listeners, MirrorOptions, mirror_on};
pub use one_thread::{OneThread, serve_in_one_thread};
pub use pixel_translate::{BitsPerPixel, Component};
pub use play_script::{SCRIPT_LIMIT, Steps, play_counted, play_over};
pub use replay::{Asked, Question, replay_over};
pub use rfb_viewer::{Area, Fault, FaultKind, PixelFormat, Shown, Version};
pub use self_test::self_on;
pub use self_test_one_thread::self_in_one_thread;
pub use serve::{ByThreads, ServeOptions, is_refused, serve_by_threads, serve_on};
pub use serving::Stop;
