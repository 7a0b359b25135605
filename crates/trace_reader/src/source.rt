//! What a trace is read from.
ghost use Rattle.std.specs.Prelude.{ℕ, ◌≡◌, ◌<◌, ◌^◌, List, Option};
ghost use Rattle.std.specs.Io.{ReadsAtMost};
ghost use Rattle.std.specs.Io.KnownBytes.{ReadConsumes};
ghost use Rattle.trace_reader.specs.Devices.{Counts};

use crate::counting::Counting;
use std::io::{Error, ErrorKind, Read};

/// The most tries of one read or write, if each of them is interrupted.
const MOST_TRIES: usize = 1 << 32;

/// A read or a write failed, which the device has counted.
#[derive(Clone, Copy, PartialEq, Debug)]
pub struct Failed;

/// What a trace is read from. It counts its failures.
pub trait Source {
    /// The bytes that reads will give from here on, if they are known.
    ghost remaining: { Self → Option (List ℕ) };

    /// How many reads have failed.
    ghost failures: { Self → ℕ };

    /// Reads bytes into the front of a chunk, and answers how many: none only at the end, or if the chunk has no room.
    fn read(&mut self, chunk: &mut [u8]) -> Result<usize, Failed>
        ensures bound { ReadsAtMost result chunk.new }
        ensures bytes { ReadConsumes (remaining self.old) (remaining self.new) result chunk.new }
        ensures counted { Counts (failures self.old) (failures self.new) result };
}

impl<R: Read> Source for Counting<R> {
    ghost remaining = { λ r. R.remaining r.device };

    ghost failures = { λ r. r.failed };

    fn read(&mut self, chunk: &mut [u8]) -> Result<usize, Failed> {
        match read_uninterrupted(&mut self.device, chunk) {
            Ok(count) => Ok(count),
            Err(error) => Err(self.fail(error)),
        }
    }
}

/// Reads, and tries again if a read was interrupted.
fn read_uninterrupted<R: Read>(reader: &mut R, chunk: &mut [u8]) -> Result<usize, Error>
    ensures bound { ReadsAtMost result chunk.new }
    ensures bytes { ReadConsumes (R.remaining reader.old) (R.remaining reader.new) result chunk.new }
{
    for _ in 0..MOST_TRIES {
        match reader.read(chunk) {
            Ok(count) => return Ok(count),
            Err(error) => {
                if error.kind() != ErrorKind::Interrupted {
                    return Err(error);
                }
            }
        }
    }
    Err(Error::from(ErrorKind::Interrupted))
}
