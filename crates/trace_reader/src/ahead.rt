//! What is read of a source and not yet given to a line.
ghost use Rattle.std.specs.Prelude.{◌≡◌, ◌+◌, ◌<◌, ◌≤◌, ◌^◌, true, false, [], drop, length, vec_len, IfOk, OnOk};
ghost use Rattle.std.specs.Io.KnownBytes.{Keeps, IsAtEnd};
ghost use Rattle.trace_reader.specs.Devices.{Counts};

use crate::reading::MOST_BYTES;
use crate::source::{Failed, Source};
use memchr::memchr;
use std::alloc::{AllocError, Global};

/// The most bytes of one read.
const CHUNK: usize = 8192;

/// Bytes that are read of a source, a chunk at a time, and not yet given to a line: those of the chunk from `start` up to
/// `end`.
#[derive(Drop)]
pub struct ReadAhead {
    bytes: Vec<u8>,
    start: usize,
    end: usize,
    ghost ordered: { start ≤ end },
    ghost inside: { end ≤ vec_len bytes },
    ghost room: { 0 < vec_len bytes },
}

impl ReadAhead {
    ghost use Rattle.trace_reader.specs.Ahead.{held, left, Moves};

    /// Nothing is read.
    pub fn new(global: Global) -> Result<ReadAhead, AllocError>
        ensures { IfOk result (λ a. held a ≡ []) }
    {
        let mut bytes = Vec::with_capacity(global, CHUNK)?;
        bytes.resize(CHUNK, 0)?;
        Ok(ReadAhead {
            bytes,
            start: 0,
            end: 0,
        })
    }

    /// Whether nothing is held.
    pub(crate) fn is_empty(&self) -> bool
        ensures none { result ≡ true → held self.now ≡ [] }
        ensures some { result ≡ false → self.now.start < self.now.end }
    {
        self.start >= self.end
    }

    /// Where nothing is held, reads once. At the end there is nothing to be had.
    pub(crate) fn fill<S: Source>(&mut self, source: &mut S) -> Result<(), Failed>
        ensures bytes { OnOk result
            (Keeps (left self.old (S.remaining source.old))
            (left self.new (S.remaining source.new))) }
        ensures end { OnOk result (held self.new ≡ [] → IsAtEnd (S.remaining source.new)) }
        ensures counted { Counts (S.failures source.old) (S.failures source.new) result }
    {
        if self.start < self.end {
            return Ok(());
        }
        self.start = 0;
        self.end = 0;
        let count = source.read(self.bytes.as_mut_slice())?;
        self.end = count;
        Ok(())
    }

    /// The bytes that are held.
    fn as_slice(&self) -> &[u8]
        ensures { result.now ≡ held self.now }
    {
        let (start, end) = (self.start, self.end);
        let all = self.bytes.as_slice();
        &all[start..end]
    }

    /// Lets go of the first bytes that are held.
    fn consume(&mut self, count: usize)
        requires { count ≤ length (held self.old) }
        ensures { held self.new ≡ drop count (held self.old) }
    {
        let left = self.end - self.start;
        self.start += left.min(count);
    }

    /// Moves bytes that are held to a line, up to the line's end, whose byte goes too, or until the line has 257. Says
    /// whether the line's end was met.
    pub(crate) fn give(&mut self, line: &mut Vec<u8>) -> Result<bool, AllocError>
        requires some { self.old.start < self.old.end }
        requires fits { length line.old.items ≤ 256 }
        ensures { IfOk result
            (λ ended. Moves ended (held self.old) (held self.new) line.old.items line.new.items) }
    {
        let room = MOST_BYTES + 1 - line.len();
        let all = self.as_slice();
        let window = &all[..room.min(all.len())];
        match memchr(b'\n', window) {
            Some(count) => {
                line.extend_from_slice(&window[..count])?;
                self.consume(count + 1);
                Ok(true)
            }
            None => {
                let count = window.len();
                line.extend_from_slice(window)?;
                self.consume(count);
                Ok(false)
            }
        }
    }
}
