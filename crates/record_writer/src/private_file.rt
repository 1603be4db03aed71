//! A file that its owner alone may read.

ghost use Rattle.std.specs.Io.{WritesAtMost};

use std::io;
use std::io::Write;

/// What its owner may do with the file: read and write it. Nobody else may.
const OWNER_ALONE: u32 = 0o600;

/// A file that was made to be written, which its owner alone may read. It is closed where it is dropped.
///
/// It takes no handle of a runtime, so that a library for another language can have one.
pub struct PrivateFile {
    descriptor: i32,
}

impl Drop for PrivateFile {
    fn drop(self) {
        let PrivateFile { descriptor } = self;
        libc::close(descriptor);
    }
}

impl PrivateFile {
    /// Makes a file by its path, of at most 4,095 bytes, none of them 0. It is refused where something of that name is there already, a
    /// link too.
    pub fn create(path: &[u8]) -> io::Result<PrivateFile> {
        let flags = libc::O_WRONLY | libc::O_CREAT | libc::O_EXCL;
        let descriptor = os::open_with(path, flags, OWNER_ALONE);
        if descriptor < 0 {
            return Err(io::Error::from_raw_os_error(os::errno()));
        }
        Ok(PrivateFile { descriptor })
    }
}

impl Write for PrivateFile {
    fn write(&mut self, bytes: &[u8]) -> io::Result<usize>
        ensures bound { WritesAtMost result bytes.now }
    {
        match usize::try_from(libc::write(self.descriptor, bytes)) {
            Ok(count) => Ok(count.min(bytes.len())),
            Err(_) => Err(io::Error::from_raw_os_error(os::errno())),
        }
    }

    fn flush(&mut self) -> io::Result<()> {
        Ok(())
    }
}
