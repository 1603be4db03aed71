//! Bytes on their way to a viewer: those that are written are kept, where the history is, and no others.

ghost use Rattle.std.specs.Prelude.{◌≡◌, ◌≢◌, ◌<◌, ◌≤◌, ◌⊎◌, ◌++◌, [], ℕ, List, length, take, min, ◌-◌, ◌^◌, OnOk, IfOk, IfErr};
ghost use Rattle.std.specs.Io.KnownBytes.{Appends};
ghost use Rattle.receipts.specs.declared.Ended.TheVariants as ended;
ghost use Rattle.update_sender.specs.Ends.{has_sent};
ghost use Rattle.update_sender.specs.Serving.{Writes};

use crate::line::Speaker;
use crate::reasons::all_written;
use receipts::Ended;
use std::io::Write;
use viewer::Stream;

/// Writes until all is written, a write fails, or one takes nothing. How many bytes were written.
fn put_on<W: Write>(writer: &mut W, bytes: &[u8]) -> usize
    ensures bound { result ≤ length bytes.now }
    ensures bytes { Appends (W.contents writer.old) (W.contents writer.new) (take result bytes.now) }
{
    let mut done = 0;
    while done < bytes.len() {
        match writer.write(&bytes[done..]) {
            Ok(count) if count > 0 => done += count,
            _ => return done,
        }
    }
    done
}

impl Speaker {
    /// Writes bytes to the viewer. What is written is kept, in room that is made before.
    pub(crate) fn write<W: Write>(&mut self, writer: &mut W, bytes: &[u8]) -> Result<(), Ended>
        ensures sent { (added : List ℕ) × Appends (W.contents writer.old) (W.contents writer.new) added ×
            (self.new ≡ has_sent added self.old) × Writes result added bytes.now }
        ensures ended { IfErr result (λ e. (e ≡ ended.Memory) ⊎ (e ≡ ended.WriteFailed)) }
    {
        self.sent.reserve(bytes.len())?;
        let done = put_on(writer, bytes);
        self.sent.append(&bytes[..done]);
        all_written(done, bytes.len())
    }

    /// Writes what a buffer has, and then the rest of an update, a buffer at a time. How many bytes these are. What is written
    /// before an error is kept.
    pub(crate) fn write_stream<W: Write>(
        &mut self,
        writer: &mut W,
        buffer: &mut Vec<u8>,
        stream: &mut Stream,
    ) -> Result<u64, Ended>
        ensures sent { (added : List ℕ) × Appends (W.contents writer.old) (W.contents writer.new) added ×
            (self.new ≡ has_sent added self.old) × Writes result added (buffer.old.items ++ stream.old) }
        ensures count { IfOk result (λ count. count ≡ min (length (buffer.old.items ++ stream.old)) (2 ^ 64 - 1)) }
        ensures ended { IfErr result (λ e. (e ≡ ended.Memory) ⊎ (e ≡ ended.WriteFailed)) }
    {
        self.write(writer, buffer)?;
        let mut count = buffer.len() as u64;
        while !stream.is_ended() {
            stream.fill(buffer)?;
            self.write(writer, buffer)?;
            count = count.saturating_add(buffer.len() as u64);
        }
        Ok(count)
    }
}
