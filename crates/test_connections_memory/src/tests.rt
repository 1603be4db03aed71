//! Viewers of a screen of 4 columns and 3 rows, or more: `line` has their transports, `steps` what is done with them, and `runs` the
//! table of runs.

mod line;
mod runs;
mod steps;
