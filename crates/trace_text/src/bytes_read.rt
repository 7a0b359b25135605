//! Bytes that are read.
ghost use Rattle.std.specs.Prelude.{Some};

use trace_reader::{Failed, Source};

/// Bytes in memory. Reads take them from the front, and none fails.
#[derive(Drop)]
pub struct Bytes<'a> {
    pub left: &'a [u8],
}

impl<'a> Source for Bytes<'a> {
    ghost remaining = { λ s. Some s.left.now };

    ghost failures = { λ s. 0 };

    fn read(&mut self, chunk: &mut [u8]) -> Result<usize, Failed> {
        let count = chunk.len().min(self.left.len());
        let (front, rest) = self.left.split_at(count);
        chunk[..count].copy_from_slice(front);
        self.left = rest;
        Ok(count)
    }
}
