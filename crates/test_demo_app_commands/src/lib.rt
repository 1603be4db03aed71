//! The program's command lines and their help (`lines`); servers over loopback, what `serve` and `self` print of their viewers, and
//! their statuses (`servers`, whose clients are in `clients`, and `own`); and scripts played by the program's call, with readers,
//! writers and memory that fail (`scripts`). There are tests here, and nothing else.
#![tactic(auto)]

#[cfg(test)]
mod tests;
