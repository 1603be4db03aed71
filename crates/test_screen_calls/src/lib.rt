//! What no clause says of a screen, and neither a script of `play` nor the calls for C show: that taking pixels succeeds where there is
//! memory, what the log and the list of events hold, and that a call that is refused memory leaves all as it was. There are tests here,
//! and nothing else.
#![tactic(auto)]

#[cfg(test)]
mod tests;
