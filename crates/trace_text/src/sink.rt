//! What a report is written to.
ghost use Rattle.std.specs.Prelude.{ℕ, ◌≡◌, ◌<◌, ◌^◌, List, Option};
ghost use Rattle.trace_reader.specs.Devices.{Counts};
ghost use Rattle.trace_text.specs.Failures.{WritesAll};

use std::io::{Error, ErrorKind, Write};
use trace_reader::{Counting, Failed};

/// The most writes that one text takes, interrupted ones among them.
const MOST_TRIES: usize = 1 << 32;

/// What a report is written to. It counts its failures.
pub trait Sink {
    /// The bytes that were written, if they are known.
    ghost contents: { Self → Option (List ℕ) };

    /// How many writes have failed.
    ghost failures: { Self → ℕ };

    /// Writes all bytes, or, if it fails, a front of them.
    fn write(&mut self, bytes: &[u8]) -> Result<(), Failed>
        ensures bytes { WritesAll (contents self.old) (contents self.new) result bytes.now }
        ensures counted { Counts (failures self.old) (failures self.new) result };
}

impl<W: Write> Sink for Counting<W> {
    ghost contents = { λ w. W.contents w.device };

    ghost failures = { λ w. w.failed };

    fn write(&mut self, bytes: &[u8]) -> Result<(), Failed> {
        match write_uninterrupted(&mut self.device, bytes) {
            Ok(()) => Ok(()),
            Err(error) => Err(self.fail(error)),
        }
    }
}

/// Writes all bytes, and tries again if a write was interrupted.
fn write_uninterrupted<W: Write>(writer: &mut W, bytes: &[u8]) -> Result<(), Error>
    ensures { WritesAll (W.contents writer.old) (W.contents writer.new) result bytes.now }
{
    let mut written = 0;
    for _ in 0..MOST_TRIES {
        if written == bytes.len() {
            return Ok(());
        }
        match writer.write(&bytes[written..]) {
            Ok(0) => return Err(Error::from(ErrorKind::WriteZero)),
            Ok(count) => written += count,
            Err(error) => {
                if error.kind() != ErrorKind::Interrupted {
                    return Err(error);
                }
            }
        }
    }
    Err(Error::from(ErrorKind::Interrupted))
}
