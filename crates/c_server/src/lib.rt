//! What a program in another language is given of a server in one thread: `listen` opens a port, and each call of
//! `process_events` is a turn of `EventLoop` (`rfbProcessEvents` of `rfb.h`). Each call answers a number, 0 or more where it is done,
//! and below 0 the code of its refusal. What viewers told, and who came and went, waits until it is fetched.
//!
//! ```
//! use c_screen::DrawByCode;
//! use c_server::ServerDesk;
//!
//! let mut desk = ServerDesk::new(alloc);
//! desk.listen(b"127.0.0.1", 5900, 640, 480, b"demo", 16);
//! desk.paint(0, 0, 1, 1, &[0xff_ffff]);
//! desk.process_events(1000);
//! let count = desk.next_inputs(&mut room);
//! ```
#![tactic(auto)]

mod adopting;
mod codes;
mod desk;
mod drawing;
mod fetching;
mod gathering;
mod listening;
mod news;
mod system;
mod told;
mod visits;
mod waker;

pub use c_screen::{
    BAD_FORMAT, BAD_STRIDE, Corners, DrawByCode, OFF_SCREEN, OUT_OF_RANGE, PixelLayout, RegionCall,
    SHUT, TOO_FEW_BYTES, Told, code_of, fault_code,
};
pub use codes::{
    BAD_ADDRESS, BAD_SOCKET, CANNOT_ADOPT, CANNOT_LISTEN, CANNOT_RECORD, CLOCK_FAILED, FULL,
    NETWORK_FAILED, TOO_MANY_PORTS,
};
pub use desk::ServerDesk;
pub use visits::Visit;
pub use waker::ServerWaker;
