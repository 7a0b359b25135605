//! Segments of memory.

/// A range of physical memory that the file has.
#[derive(Clone, Copy, PartialEq, Eq, Debug)]
pub struct Segment {
    /// Its first physical address.
    pub address: u64,
    /// Where its bytes begin in the file.
    pub at: u64,
    /// How many bytes there are.
    pub count: u64,
}
