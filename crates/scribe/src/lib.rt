//! A writer behind a buffer, which ends for good at its first failure. What was written is then a beginning of what was put: a later
//! write that succeeds would leave a gap.
//!
//! ```
//! let mut scribe = Scribe::new(alloc, file)?;
//! scribe.put(b"bell\n"); // waits in the buffer
//! scribe.flush(); // is written
//! if scribe.is_broken() { .. }
//! ```
//!
//! `std::io::BufWriter` answers a failure to whoever writes next, and may then be written to again. Here no call fails.
#![tactic(auto)]

mod scribe;

pub use scribe::Scribe;
