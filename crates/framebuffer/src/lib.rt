//! A screen's picture: the colours of its places `0x00RRGGBB`, row by row from the top.
//!
//! A `Framebuffer` has them with its size, and a `Snapshot` those of a block as they were. Below them, `rows` are the rows that
//! both share, taken and replaced. `spans` finds the places that a copy moves colours to, and `moves` moves them, whatever
//! overlaps.
#![tactic(auto)]

mod blocks;
mod frame;
mod moves;
mod rows;
mod spans;

pub use blocks::{Block, block_of, block_within};
pub use frame::{Framebuffer, Snapshot};
pub use spans::destinations;
