//! `drawing` has the drawing calls and what is sent of a picture, `memory` readers and writers that fail, `gates` where a sender is
//! held, `steps` the calls of one thread, `threads` two viewers with a thread each, and `runs` the table of runs. `queue` has viewers'
//! inputs on their way through the bounded queue, and `callers` the callers at the heads of the public crates.

mod callers;
mod drawing;
mod gates;
mod memory;
mod queue;
mod runs;
mod steps;
mod threads;
