//! What a server says, written by hand from RFC 6143: its opening and its messages, cut at each byte; why bytes are read no further; what is
//! drawn of them on a canvas; and what waits to be written to it. There are tests here, and nothing else.
#![tactic(auto)]

#[cfg(test)]
mod tests;
