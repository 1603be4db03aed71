//! A server's sockets: the poller, its listeners, viewers' sockets, and browsers whose requests are read.
//!
//! What is ready is found by a `Poller`. Connections come in at an `Entrance`: at listeners for viewers, or at one for browsers, whose
//! requests are answered before they are viewers (RFC 6455). Each that comes is a `Peer`, the transport of a viewer.
//!
//! ```
//! entrance.listen(&poller, Listener::Tcp(listener))?;
//! poller.wait(None)?;
//! for event in poller.events() {
//!     if let Found::Listener(number) = found_in(event) {
//!         entrance.note_viewer(number);
//!     }
//! }
//! if let Some(stream) = entrance.next_stream(now) {
//!     let peer = Peer::plain(stream);
//! }
//! ```
//!
//! No viewer is kept here, and no turn is taken: another layer has the connections, and says when.
#![tactic(auto)]

mod browsers;
mod door;
mod doors;
mod entrance;
mod poller;
mod request;
mod socket;
mod times;

pub use browsers::{Browsers, WAITING};
pub use door::Listener;
pub use doors::ListenError;
pub use entrance::Entrance;
pub use poller::{Found, Poller, found_in};
pub use socket::{Peer, SendsAtOnce, Socket, TakesLeave, set_up, turn_away};
pub use times::shorter;
