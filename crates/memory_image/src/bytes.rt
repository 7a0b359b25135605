//! What an image is read from.
ghost use Rattle.std.specs.Prelude.{ℕ, ◌≡◌, ◌+◌, ◌<◌, List, Option, Some, None, IfOk, OnOk, OnErr, length};
ghost use Rattle.std.specs.Option.{ForSome};
ghost use Rattle.memory_image.specs.Pieces.{piece};

use std::fs::File;
use std::os::unix::fs::FileExt;

/// Bytes of the image could not be read.
#[derive(Clone, Copy, PartialEq, Eq, Debug)]
pub struct Unread;

/// What an image is read from, at any place.
// Why a file has no bytes that a clause could name: docs/DECISIONS.md, 26.
pub trait ImageBytes {
    /// All its bytes, if the type says which they are.
    ghost bytes: { Self → Option (List ℕ) };

    /// A read of this many bytes from a place on may fail.
    ghost may_fail: { Self → ℕ → ℕ → Type 0 };

    /// How many bytes there are.
    fn count(&self) -> Result<u64, Unread>
        ensures count { IfOk result (λ n. ForSome (bytes self.now) (λ all. n ≡ length all)) }
        ensures failed { OnErr result (may_fail self.now 0 0) };

    /// Fills `into` with the bytes from `at` on.
    fn fill(&self, at: u64, into: &mut [u8]) -> Result<(), Unread>
        ensures read { OnOk result (ForSome (bytes self.now) (λ all. into.new ≡ piece all at (length into.old))) }
        ensures failed { OnErr result (may_fail self.now at (length into.old)) };
}

/// No type says which bytes a file has.
impl ImageBytes for File {
    ghost bytes = { λ _. None };

    ghost may_fail = { λ _ _ _. Unit {0} };

    fn count(&self) -> Result<u64, Unread> {
        match self.metadata() {
            Ok(found) => Ok(found.len()),
            Err(_) => Err(Unread),
        }
    }

    fn fill(&self, at: u64, into: &mut [u8]) -> Result<(), Unread> {
        match self.read_exact_at(into, at) {
            Ok(()) => Ok(()),
            Err(_) => Err(Unread),
        }
    }
}

/// Bytes in memory.
impl ImageBytes for &[u8] {
    ghost bytes = { λ s. Some s.now };

    ghost may_fail = { λ s at count. length s.now < at + count };

    fn count(&self) -> Result<u64, Unread> {
        Ok(self.len() as u64)
    }

    fn fill(&self, at: u64, into: &mut [u8]) -> Result<(), Unread> {
        let bytes = *self;
        let at = at as usize;
        if at > bytes.len() || bytes.len() - at < into.len() {
            return Err(Unread);
        }
        into.copy_from_slice(&bytes[at..at + into.len()]);
        Ok(())
    }
}
