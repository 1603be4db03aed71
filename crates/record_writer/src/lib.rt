//! What a session is recorded to: a file, or memory.
#![tactic(auto)]

mod private_file;
mod record_writer;

pub use private_file::PrivateFile;
pub use record_writer::RecordWriter;
