//! The screen's picture, and what is encoded of it once for viewers that are alike.
//!
//! `picture` has both; `encoded` is what is kept of rectangles that several viewers want, and `kinds` guesses which these are.
#![tactic(auto)]

mod encoded;
mod kinds;
mod picture;

pub use picture::Picture;
