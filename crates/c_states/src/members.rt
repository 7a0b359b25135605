//! The members of the lists of a state, as structs of numbers.
use c_words::{PlainOwner, PlainWord};

/// A run of pages of one tree: the first has what the word says, and the frame of a leaf grows with the page.
#[repr(C)]
#[derive(Clone, Copy, PartialEq)]
pub struct PlainRun {
    /// 0 the host's, 1 the hypervisor's, 2 + v that of the guest in slot v.
    pub tree: u64,
    /// The first page: an input address divided by 4,096.
    pub page: u64,
    /// The number of pages.
    pub count: u64,
    /// An annotation, a leaf or a malformed word. Pages that are in no run are unmapped.
    pub word: PlainWord,
}

/// A table of one tree, the root among them.
#[repr(C)]
#[derive(Clone, Copy, PartialEq)]
pub struct PlainTable {
    /// As of a run.
    pub tree: u64,
    /// 1 for a table of level 3, 2 of level 2, 3 of level 1, 4 of level 0: it covers 512 ^ `height` pages.
    pub height: u64,
    /// The first page that it covers, divided by 512 ^ `height`.
    pub index: u64,
    /// Its frame.
    pub frame: u64,
}

/// A free frame of a pool.
#[repr(C)]
#[derive(Clone, Copy, PartialEq)]
pub struct PlainFrame {
    /// 1 the shared pool, 2 + v that of the guest in slot v.
    pub pool: u64,
    pub frame: u64,
}

/// A slot of the table of VMs.
#[repr(C)]
#[derive(Clone, Copy, PartialEq)]
pub struct PlainSlot {
    /// Its number, 0 to 63.
    pub slot: u64,
    /// 0 vacant, 1 reserved, 2 open, 3 closing.
    pub stand: u64,
    /// 1 at boot, one more each time the slot is released.
    pub generation: u64,
    /// 0 plain, 1 protected; 0 for a vacant slot.
    pub kind: u64,
    /// The number of vCPUs of the VM; 0 for a vacant slot.
    pub vcpus: u64,
}

/// A vCPU that a CPU has loaded, as the table of VMs has it.
#[repr(C)]
#[derive(Clone, Copy, PartialEq)]
pub struct PlainLoad {
    pub slot: u64,
    /// 0 to 7.
    pub vcpu: u64,
    pub cpu: u64,
}

/// What a guest has beside its tree and its pool.
#[repr(C)]
#[derive(Clone, Copy, PartialEq)]
pub struct PlainGuest {
    /// Its slot, 0 to 63.
    pub slot: u64,
    /// 0 empty, 1 live, 2 dying.
    pub phase: u64,
    /// The generation of its VM; 0 for an empty guest.
    pub generation: u64,
    /// 0 plain, 1 protected; 0 for an empty guest.
    pub kind: u64,
}

/// A CPU's own state.
#[repr(C)]
#[derive(Clone, Copy, PartialEq)]
pub struct PlainCpu {
    /// Its number, below the layout's number of CPUs.
    pub cpu: u64,
    /// Not 0 if the CPU has a vCPU loaded.
    pub has_vcpu: u64,
    /// If it has: the vCPU's VM, and its number there, 0 to 7.
    pub vcpu_slot: u64,
    pub vcpu_generation: u64,
    pub vcpu: u64,
    /// Not 0 if the CPU has funded frames in its hand.
    pub has_hand: u64,
    /// If it has: the first, and how many.
    pub hand_first: u64,
    pub hand_count: u64,
    /// Not 0 if the CPU is making or ending a VM.
    pub has_ticket: u64,
    /// If it is: the VM and its kind, 0 plain and 1 protected.
    pub ticket_slot: u64,
    pub ticket_generation: u64,
    pub ticket_kind: u64,
    /// How far: 0 the slot is reserved, 1 the guest is live, 2 the slot is closing, 3 the guest is dying, 4 it is empty again.
    pub ticket_stage: u64,
}

/// A run of frames that have one owner row. A lent page grows with the frame.
#[repr(C)]
#[derive(Clone, Copy, PartialEq)]
pub struct PlainRow {
    /// The first frame.
    pub frame: u64,
    /// The number of frames.
    pub count: u64,
    pub owner: PlainOwner,
}
