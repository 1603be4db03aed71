//! The script language of `vncdemo play`: what a line says and what is printed of an answer, as functions over bytes; and a script of
//! drawing calls and viewers' bytes, played over any reader and writer: `play_over`, and `play_counted` with a count of its reads.
//!
//! `trouble` is why a command ends early, and what is printed then: the other commands of the program use it too.
//! What `play_over` prints with the statuses 3 and 5, no clause says: the tests show it.
#![tactic(auto)]

mod counted;
mod hex;
mod laws;
mod lines;
mod play;
mod reading;
mod steps;
mod texts;
pub mod trouble;
mod words;

pub use hex::{hex_bytes, hex_colours};
pub use laws::{answers_are_printed, printed_is_read};
pub use lines::{Line, parse_line};
pub use play::{play_counted, play_over};
pub use reading::SCRIPT_LIMIT;
pub use steps::Steps;
pub use texts::{answer_text, bad_line_text, ok_text, refusal_text};
pub use words::{number, signed, split_line, split_word, word, word_count};
