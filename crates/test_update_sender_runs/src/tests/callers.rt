// `wire` has the encoders and the reader of messages, `drawn` regions and a screen, `threads` a shared screen, and `refused` the name of
// what is answered for want of memory.

mod drawn;
mod refused;
mod threads;
mod wire;
