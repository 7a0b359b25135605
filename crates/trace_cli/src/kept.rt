//! The bytes that a run reads and the end of those that it writes, kept for the text beside its report.
ghost use Rattle.std.specs.Prelude.{◌≡◌};

use std::alloc::{AllocError, Global};
use std::io::{self, ErrorKind, Read, Write};

/// A trace's reader that keeps the bytes read.
#[derive(Drop)]
pub struct KeptReader<'a, F> {
    file: F,
    trace: &'a mut Vec<u8>,
}

impl<'a, F> KeptReader<'a, F> {
    /// Appends it to `trace`.
    pub fn new(file: F, trace: &'a mut Vec<u8>) -> KeptReader<'a, F>
        ensures { result.file ≡ file }
    {
        KeptReader { file, trace }
    }
}

impl<'a, F: Read> Read for KeptReader<'a, F> {
    ghost remaining = { λ kept. F.remaining kept.file };

    fn read(&mut self, buf: &mut [u8]) -> io::Result<usize> {
        // Room first: a byte that was read is kept.
        if self.trace.reserve(buf.len()).is_err() {
            return Err(io::Error::from(ErrorKind::OutOfMemory));
        }
        let count = self.file.read(buf)?;
        let _ = self.trace.extend_from_slice(&buf[..count]);
        Ok(count)
    }
}

/// The number of bytes of a report's end that are kept: more than the line of a fault has.
const MOST_KEPT: usize = 64;

/// A report's writer that keeps the end of the bytes written.
#[derive(Drop)]
pub struct KeptWriter<W> {
    file: W,
    end: Vec<u8>,
}

impl<W: Drop> KeptWriter<W> {
    pub fn new(global: Global, file: W) -> Result<KeptWriter<W>, AllocError> {
        let end = Vec::with_capacity(global, 2 * MOST_KEPT)?;
        Ok(KeptWriter { file, end })
    }

    /// The last line that isn't empty.
    pub fn last_line(&self) -> &[u8] {
        let mut last: &[u8] = b"";
        for line in self.end.as_slice().split(|byte| *byte == b'\n') {
            if !line.is_empty() {
                last = line;
            }
        }
        last
    }

    fn keep(&mut self, bytes: &[u8]) {
        let from = bytes.len().saturating_sub(MOST_KEPT);
        // There is room for them.
        let _ = self.end.extend_from_slice(&bytes[from..]);
        let past = self.end.len().saturating_sub(MOST_KEPT);
        self.end.drain(..past);
    }
}

impl<W: Write + Drop> Write for KeptWriter<W> {
    fn write(&mut self, buf: &[u8]) -> io::Result<usize> {
        let count = self.file.write(buf)?;
        self.keep(&buf[..count]);
        Ok(count)
    }

    fn flush(&mut self) -> io::Result<()> {
        self.file.flush()
    }
}
