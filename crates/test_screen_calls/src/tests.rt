//! `taking` has the calls that take a program's own pixels, `held` what can be read of a screen, `logs` the log that the viewers share;
//! `refused` calls that are made again where memory was refused, and `lists_of_events` whole lists of events, their answers and what is
//! kept of them. `screens` is what they have in common. What viewers are sent of each drawing call `c/tools/screen_drawing.c` shows.
//!
//! A function that owns a screen lends it to others: each place where it may end on its way would be one more to prove.

mod held;
mod lists_of_events;
mod logs;
mod refused;
mod screens;
mod taking;
