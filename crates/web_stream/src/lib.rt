//! A stream that is a WebSocket, at the server's side (RFC 6455), once its opening was answered.
//!
//! What is read from it is the payloads of the binary frames that come, and what is written to it goes as the payloads of binary frames.
//! Of a frame no more is kept than its head, and the payload of a control frame.
#![tactic(auto)]

mod answer;
mod fault;
mod head;
mod inward;
mod laws;
mod next;
mod outward;
mod stream;
mod write_both;

pub use fault::WebFault;
pub use laws::{answers_pings, reads_frames};
pub use stream::WebStream;
pub use write_both::WriteBoth;
