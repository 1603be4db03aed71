//! Browsers over memory: handshakes with requests as RFC 6455 and others have them, the frames of RFC 6455 cut at each byte, what each
//! fault is answered by, and what a stream below takes bit by bit. There are tests here, and nothing else.
#![tactic(auto)]

#[cfg(test)]
mod tests;
