//! `talk` has the openings and what is written, `reading` the messages and what they show, `canvas` what is drawn of them.

mod canvas;
mod reading;
mod talk;
