//! Why an image is refused.
ghost use Rattle.std.specs.Prelude.{◌≡◌};

use crate::bytes::Unread;
use std::alloc::AllocError;
use thiserror::Error;

/// A fault at a place of the file.
#[derive(Clone, Copy, PartialEq, Eq, Debug, Error)]
pub enum Why {
    /// The bytes of QEMU's kdump-compressed form.
    #[error("a kdump-compressed file; dump it without compression")]
    KdumpCompressed,
    /// The bytes of makedumpfile's flattened form.
    #[error("a file of makedumpfile in flattened form; dump it without compression")]
    Flattened,
    /// It doesn't begin as an ELF file does.
    #[error("not an ELF file")]
    NotElf,
    /// EI_CLASS isn't ELFCLASS64.
    #[error("not a 64-bit ELF file")]
    NotElf64,
    /// EI_DATA isn't ELFDATA2LSB.
    #[error("not a little-endian ELF file")]
    NotLittleEndian,
    /// e_type isn't ET_CORE.
    #[error("not a core")]
    NotCore,
    /// e_machine isn't EM_AARCH64.
    #[error("not a core of an arm64 machine")]
    OtherMachine,
    /// e_phentsize isn't the size of a program header.
    #[error("program headers of another size than 56 bytes")]
    HeaderSize,
    /// Over 4,096 program headers, or as many as e_phnum can't say.
    #[error("more than 4096 program headers")]
    TooManyHeaders,
    /// The headers or a segment end past the file's end.
    #[error("the file ends before what its headers name")]
    Truncated,
    /// A segment that shares an address with one of an earlier header.
    #[error("a segment shares addresses with an earlier one")]
    Overlap,
    /// A segment that ends past address 2^52.
    #[error("a segment ends past address 2^52")]
    PastLimit,
}

/// A fault, and the place in the file that shows it.
#[derive(Clone, Copy, PartialEq, Eq, Debug)]
pub struct Fault {
    pub at: u64,
    pub why: Why,
}

/// Why an image can't be read.
#[derive(Clone, Copy, PartialEq, Eq, Debug)]
pub enum Refused {
    /// It isn't an image of this form.
    Wrong(Fault),
    /// Its bytes from this place on could not be read.
    Unread { at: u64 },
    /// Memory was refused.
    NoMemory,
}

impl From<AllocError> for Refused {
    ghost use Rattle.memory_image.specs.declared.refused.Refused.TheVariants.{NoMemory};

    ghost from_gives = { λ _ refused. refused ≡ NoMemory };

    fn from(_error: AllocError) -> Refused {
        Refused::NoMemory
    }
}
