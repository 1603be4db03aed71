//! `writing` has what a recorder writes, `sessions` what is read of it.

mod sessions;
mod writing;
