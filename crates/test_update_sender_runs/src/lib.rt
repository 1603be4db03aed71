//! Viewers of a shared screen over memory, in one thread and in several: single calls, openings, senders that wait, overlap, fail and
//! are ended, and what is found of a run (`runs` has the table); the queue of their inputs, put by seats and taken by one; and the callers
//! at the heads of the public crates, each with what it gives. There are tests here, and nothing else.
#![tactic(auto)]

#[cfg(test)]
mod tests;
