//! `calls` has what is called, `lines` the line of each call; `writers` has writers that fail, and what they are left with.

mod calls;
mod lines;
mod writers;
