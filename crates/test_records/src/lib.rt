//! Records, by lines written by hand: what writers that fail are left with, and what stands there where memory is refused; and sessions
//! that are read again, with what is answered to questions about them. There are tests here, and nothing else.
#![tactic(auto)]

#[cfg(test)]
mod tests;
