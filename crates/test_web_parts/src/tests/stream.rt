//! `line` is a stream in memory, `reads` what a client sends, and `writes` what a server sends.

mod line;
mod reads;
mod writes;
