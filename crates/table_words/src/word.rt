//! What words of tables say.
use descriptor::{Frame, Owner, State};

/// Which accesses to data a leaf lets through.
#[derive(Clone, Copy, PartialEq, Eq)]
pub enum Access {
    /// None.
    Neither,
    /// Reads alone.
    ReadOnly,
    /// Writes alone.
    WriteOnly,
    /// Reads and writes.
    ReadWrite,
}

/// Who may execute what a leaf maps.
#[derive(Clone, Copy, PartialEq, Eq)]
pub enum Execute {
    /// Nobody.
    Nobody,
    /// Whoever the table serves.
    Everybody,
    /// EL0, and not the level above it.
    UnprivilegedAlone,
    /// EL1 (in a hypervisor's table EL2), and not EL0.
    PrivilegedAlone,
}

/// The memory that a leaf says.
#[derive(Clone, Copy, PartialEq, Eq)]
pub enum Memory {
    /// Normal, write-back cacheable.
    WriteBack,
    /// Normal, not cacheable.
    Uncached,
    /// What stage 1 says.
    FromStage1,
    /// Device-nGnRE.
    Registers,
}

/// A block or a page: all its pages map to the frames from `frame` on.
#[derive(Clone, Copy, PartialEq, Eq)]
pub struct Mapping {
    pub frame: Frame,
    pub access: Access,
    pub execute: Execute,
    pub memory: Memory,
    /// The state of the pages, if words of the profile say one.
    pub state: Option<State>,
    /// Whether branches must land on landing pads (BTI).
    pub guarded: bool,
    /// Whether the access flag is clear: the next access sets it or faults.
    pub aged: bool,
}

/// A guest by its handle, and a page of the guest by number.
#[derive(Clone, Copy, PartialEq, Eq)]
pub struct Guest {
    pub handle: u64,
    pub gfn: u64,
}

/// What a word says.
#[derive(Clone, Copy, PartialEq, Eq)]
pub enum Decoded {
    /// A word that has no other meaning by its profile.
    Malformed,
    /// The word 0: nothing is mapped.
    Unmapped,
    /// An invalid word that names the owner of its pages, and for some guests which of their pages it is.
    Annotated { owner: Owner, guest: Option<Guest> },
    /// An invalid word: the page was taken from its guest by force.
    Poisoned,
    /// An invalid word: the entry is being changed.
    Locked,
    /// An invalid word: a leaf whose valid bit was cleared, as in an empty slot of the hypervisor's fixmap.
    Cleared(Mapping),
    /// A block or a page.
    Leaf(Mapping),
    /// A table of the next level, in that frame.
    Table(Frame),
}
