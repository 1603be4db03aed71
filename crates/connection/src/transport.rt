//! What carries a viewer's bytes both ways, and what it is found ready for.

ghost use Rattle.std.specs.Prelude.{◌≡◌, ℕ, Bool, false, List, Option, None, Ok};
ghost use Rattle.std.specs.Io.{ReadsAtMost, WritesAtMost};
ghost use Rattle.std.specs.Io.KnownBytes.{ReadConsumes, WriteAppends, Keeps};

use std::io;
use std::io::{Read, Write};

/// What a transport was found ready for. It may be out of date: a call that would wait says so.
#[derive(Clone, Copy, Debug, PartialEq, Eq)]
pub struct Readiness {
    /// A read may give bytes.
    pub may_read: bool,
    /// A write may take bytes.
    pub may_write: bool,
    /// The peer sends no more: what it sent can be read to its end.
    pub is_hung_up: bool,
}

/// A viewer's transport. No call waits: where one would, it fails as `WouldBlock`.
pub trait Transport: Drop {
    // The bytes that it has still to give, where they are known.
    ghost unread: { Self → Option (List ℕ) } = { λ _. None };

    // The bytes that were written to it, where they are known.
    ghost written: { Self → Option (List ℕ) } = { λ _. None };

    // Whether it may hold back bytes that came, and give them to a further read. A socket gives what there is room for.
    ghost holds_back: { Bool } = { false };

    // Whether it may have something of its own to say, which a flush writes. A socket has nothing.
    ghost speaks: { Bool } = { false };

    /// Reads as `Read::read` does, and leaves what was written as it is.
    fn receive(&mut self, room: &mut [u8]) -> io::Result<usize>
        ensures bound { ReadsAtMost result room.new }
        ensures bytes { ReadConsumes (unread self.old) (unread self.new) result room.new }
        ensures kept { Keeps (written self.old) (written self.new) };

    /// Writes as `Write::write` does, and leaves what is to be read as it is.
    fn send(&mut self, bytes: &[u8]) -> io::Result<usize>
        ensures bound { WritesAtMost result bytes.now }
        ensures bytes { WriteAppends (written self.old) (written self.new) result bytes.now }
        ensures kept { Keeps (unread self.old) (unread self.new) };

    /// Returns whether a read may give more at once, though the last one didn't fill its room.
    fn has_more(&self) -> bool
        ensures { holds_back ≡ false → result ≡ false }
    {
        false
    }

    /// Returns the code of the close (RFC 6455, section 7.4.1) that answers what its peer did wrong, where that ended it: reads fail as
    /// `InvalidData` then.
    fn close_code(&self) -> u16 {
        1002
    }

    /// Writes what it has to say of its own, as the answer to a ping (RFC 6455, section 5.5.3), where that cuts nothing of what is sent. Where
    /// it has nothing of its own to say this doesn't fail.
    #[tactic(auto, using(crate::proofs::Bytes::kept_still))]
    fn flush(&mut self) -> io::Result<()>
        ensures unread { Keeps (unread self.old) (unread self.new) }
        ensures written { Keeps (written self.old) (written self.new) }
        ensures silent { speaks ≡ false → result ≡ Ok tt }
    {
        Ok(())
    }
}

/// A reader and a writer as one transport.
#[derive(Drop)]
pub struct Both<R, W> {
    /// What gives the viewer's bytes.
    pub reader: R,
    /// What takes the bytes for the viewer.
    pub writer: W,
}

impl<R: Read + Drop, W: Write + Drop> Transport for Both<R, W> {
    ghost unread = { λ both. R.remaining both.reader };

    ghost written = { λ both. W.contents both.writer };

    fn receive(&mut self, room: &mut [u8]) -> io::Result<usize> {
        self.reader.read(room)
    }

    fn send(&mut self, bytes: &[u8]) -> io::Result<usize> {
        self.writer.write(bytes)
    }
}
