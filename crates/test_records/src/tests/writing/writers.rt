//! Writers that take little, are interrupted and fail: what they are left with.

use crate::tests::writing::calls::{Call, LOWER, UPPER, config, make};
use recorder::Recorder;
use scribe::Scribe;
use std::alloc::{AllocError, Global};
use std::io;
use std::io::{ErrorKind, Write};

/// What a write does.
#[derive(Clone, Copy)]
enum Step {
    /// Takes at most this many bytes.
    Takes(usize),
    IsInterrupted,
    Fails,
}

/// Does one step after another, and then takes all bytes.
#[derive(Drop)]
struct Stepper {
    steps: &'static [Step],
    written: Vec<u8>,
}

impl Write for Stepper {
    fn write(&mut self, bytes: &[u8]) -> io::Result<usize> {
        let mut most = bytes.len();
        if let Some((step, steps)) = self.steps.split_first() {
            self.steps = steps;
            match step {
                Step::Takes(count) => most = most.min(*count),
                Step::IsInterrupted => return Err(io::Error::from(ErrorKind::Interrupted)),
                Step::Fails => return Err(io::Error::from(ErrorKind::BrokenPipe)),
            }
        }
        self.written.extend_from_slice(&bytes[..most])?;
        Ok(most)
    }

    fn flush(&mut self) -> io::Result<()> {
        Ok(())
    }
}

use Step::{Fails, IsInterrupted, Takes};

/// Steps, each with what is written of `one`, `two` and `six`, and whether something is lost.
static WRITERS: [(&[Step], &[u8], bool); 12] = [
    (&[], b"onetwosix", false),
    (&[Takes(1), Takes(1), Takes(1)], b"onetwosix", false),
    (
        &[IsInterrupted, IsInterrupted, Takes(2), IsInterrupted],
        b"onetwosix",
        false,
    ),
    (&[Fails], b"", true),
    (&[Takes(0)], b"", true),
    (&[Takes(2), Fails], b"on", true),
    (&[Takes(2), Takes(0)], b"on", true),
    (&[Takes(3), Fails], b"one", true),
    (&[Takes(9), Takes(1), Takes(1), Fails], b"onetw", true),
    (&[Takes(9), Takes(9), Fails, Takes(9)], b"onetwo", true),
    (&[Takes(9), IsInterrupted, Fails], b"one", true),
    (&[Takes(9), Takes(9), Takes(9), Fails], b"onetwosix", false),
];

/// Puts three words, and writes them one by one; then tries once more.
fn put_words(scribe: &mut Scribe<Stepper>) {
    for word in [b"one", b"two", b"six"] {
        scribe.put(word);
        scribe.flush();
    }
    scribe.flush();
}

#[test]
fn nothing_comes_behind_a_gap(rt: HostRuntime) -> Result<(), AllocError> {
    for (steps, wanted, is_broken) in &WRITERS {
        let written = Vec::new(rt.alloc());
        let mut scribe = Scribe::new(rt.alloc(), Stepper { steps, written })?;
        put_words(&mut scribe);
        assert_eq!(rt; scribe.writer().written.as_slice(), *wanted);
        assert_eq!(rt; scribe.is_broken(), *is_broken);
    }
    Ok(())
}

/// How many bytes are put at a time: the buffer has 8,192.
static LENGTHS: [usize; 12] = [1, 8191, 8192, 1, 8192, 8193, 4096, 4097, 0, 20_000, 8191, 2];

/// Puts as many of `bytes` at a time as each of `LENGTHS` says, and appends them to `noted`.
fn put_lengths(
    scribe: &mut Scribe<Vec<u8>>,
    bytes: &[u8],
    noted: &mut Vec<u8>,
) -> Result<(), AllocError> {
    for length in &LENGTHS {
        let more = &bytes[..(*length).min(bytes.len())];
        scribe.put(more);
        noted.extend_from_slice(more)?;
    }
    Ok(())
}

#[test]
fn nothing_is_lost_at_a_full_buffer(rt: HostRuntime) -> Result<(), AllocError> {
    let mut bytes = Vec::new(rt.alloc());
    for number in 0..20_000u32 {
        bytes.push((number % 251) as u8)?;
    }
    let mut noted = Vec::new(rt.alloc());
    let mut scribe = Scribe::new(rt.alloc(), Vec::new(rt.alloc()))?;
    put_lengths(&mut scribe, &bytes, &mut noted)?;
    scribe.flush();
    assert!(rt; *scribe.writer() == noted && !scribe.is_broken());
    Ok(())
}

/// Calls for which memory is wanted, and one more.
static CALLS: [Call<'static>; 3] = [
    Call::MarkRegion(&[UPPER, LOWER]),
    Call::CopyRegion(&[UPPER, LOWER], 1, 1),
    Call::Bell,
];

const TEXT: &[u8] = b"screen 4 3 d 50\nmarks 0 0 4 1 1 2 2 3\ndocopies 0 0 4 1 1 2 2 3 1 1\nbell\n";

/// Records the calls. Returns whether the record is a beginning of their text, and all of it if nothing is lost.
fn is_beginning(alloc: Global) -> Result<bool, AllocError> {
    let config = config(alloc, b"d")?;
    let mut recorder = Recorder::new(alloc, Vec::new(alloc), &config)?;
    for call in &CALLS {
        // The caller had no memory for the region: this call wasn't made.
        if make(&mut recorder, alloc, *call).is_err() {
            return Ok(true);
        }
    }
    recorder.flush();
    let written = recorder.writer().as_slice();
    Ok(TEXT.starts_with(written) && recorder.is_broken() == (written.len() < TEXT.len()))
}

#[test]
fn a_record_is_a_beginning_whichever_allocation_is_refused(rt: HostRuntime) {
    assert!(rt; is_beginning(rt.alloc()).unwrap_or(true));
}
