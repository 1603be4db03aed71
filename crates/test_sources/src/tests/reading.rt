//! `drawing` does steps to a picture of letters, `pictures` has what a server says and what it shows, `faults` what no server says.

mod drawing;
mod faults;
mod pictures;
