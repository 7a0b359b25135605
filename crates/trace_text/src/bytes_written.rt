//! Bytes that are written.
ghost use Rattle.std.specs.Prelude.{Some};

use crate::sink::Sink;
use trace_reader::Failed;

/// Bytes that were written, in memory. A write fails only if memory is refused, and changes nothing then.
#[derive(Drop)]
pub struct Collected {
    pub bytes: Vec<u8>,
    /// How many writes have failed. The greatest u64 stays.
    pub failed: u64,
}

impl Sink for Collected {
    ghost contents = { λ c. Some c.bytes.items };

    ghost failures = { λ c. c.failed };

    fn write(&mut self, bytes: &[u8]) -> Result<(), Failed> {
        match self.bytes.extend_from_slice(bytes) {
            Ok(()) => Ok(()),
            Err(_) => {
                self.failed = self.failed.saturating_add(1);
                Err(Failed)
            }
        }
    }
}
