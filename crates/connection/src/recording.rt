//! A transport, and what was written to it, where that is kept.

ghost use Rattle.std.specs.Prelude.{◌≡◌, ◌++◌, ◌≤◌, List, ℕ, Some, None, [], Ok, false, length, take, option_map, IfOk, OnErr, unwrap_or};
ghost use Rattle.std.specs.Io.{ReadsAtMost};
ghost use Rattle.std.specs.Io.KnownBytes.{Appends, ReadConsumes, Keeps};
ghost use Rattle.connection.specs.Recording.{none_yet};

use crate::transport::Transport;
use kept_list::KeptList;
use listed::Listed;
use std::alloc::Global;
use std::io;

/// A transport, and the bytes that were written to it, where they are kept.
#[derive(Drop)]
pub(crate) struct Recording<T> {
    pub transport: T,
    pub sent: KeptList<u8>,
}

/// Returns an empty list where bytes are kept, and else none. Neither holds memory.
pub(crate) fn no_bytes(alloc: Global, is_kept: bool) -> KeptList<u8>
    ensures { result.items ≡ none_yet is_kept }
{
    if is_kept {
        KeptList::new(alloc)
    } else {
        KeptList::none(alloc)
    }
}

impl<T> Recording<T> {
    /// Returns a transport to which nothing was written yet.
    pub fn new(alloc: Global, transport: T, is_kept: bool) -> Recording<T>
        ensures transport { result.transport ≡ transport }
        ensures sent { result.sent.items ≡ none_yet is_kept }
    {
        Recording {
            transport,
            sent: no_bytes(alloc, is_kept),
        }
    }

    /// Returns the transport, and what was written to it; nothing where that isn't kept.
    pub fn into_parts(self) -> (T, Listed<u8>)
        ensures transport { result.0 ≡ self.transport }
        ensures sent { result.1 ≡ unwrap_or self.sent.items [] }
    {
        (self.transport, self.sent.into_listed())
    }
}

impl<T: Transport> Recording<T> {
    /// Writes as `Transport::send` does. Keeps what is written, in memory that is reserved before.
    pub fn send(&mut self, bytes: &[u8]) -> io::Result<usize>
        ensures bound { IfOk result (λ count. count ≤ length bytes.now) }
        ensures bytes { IfOk result (λ count. Appends (T.written self.old.transport) (T.written self.new.transport) (take count bytes.now)) }
        ensures sent { IfOk result (λ count. self.new.sent.items ≡ option_map (λ sent. sent ++ take count bytes.now) self.old.sent.items) }
        ensures none { OnErr result (Keeps (T.written self.old.transport) (T.written self.new.transport)) }
        ensures same { OnErr result (self.new.sent.items ≡ self.old.sent.items) }
        ensures kept { Keeps (T.unread self.old.transport) (T.unread self.new.transport) }
    {
        self.sent.reserve(bytes.len())?;
        let count = self.transport.send(bytes)?;
        self.sent.append(&bytes[..count]);
        Ok(count)
    }

    /// Has the transport write what it has to say of its own, which isn't kept.
    pub fn flush(&mut self) -> io::Result<()>
        ensures written { Keeps (T.written self.old.transport) (T.written self.new.transport) }
        ensures unread { Keeps (T.unread self.old.transport) (T.unread self.new.transport) }
        ensures sent { self.new.sent.items ≡ self.old.sent.items }
        ensures silent { T.speaks ≡ false → result ≡ Ok tt }
    {
        self.transport.flush()
    }
}
