//! Viewers' connections over memory, in one thread: transports that give little, take little, fail and would wait; drawing between
//! turns and by the application; what each viewer was sent, and why it ended. There are tests here, and nothing else.
#![tactic(auto)]

#[cfg(test)]
mod tests;
