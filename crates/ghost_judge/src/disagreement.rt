//! The report of the oracle on two states that disagree.
use call_table::{Reply, VmKind};
use ghost_spec::parts::GhostPhase;
use ghost_trees::blocks::Block;
use page_state::{Entry, Row};

/// Whose tree.
#[derive(Clone, Copy, PartialEq)]
pub enum TreeOf {
    Host,
    Hyp,
    /// The guest of a slot.
    Guest(u64),
}

/// What a guest is, apart from its tree and its pool.
#[derive(Clone, Copy, PartialEq)]
pub struct GuestHead {
    pub phase: GhostPhase,
    pub generation: u64,
    pub kind: VmKind,
}

/// What differs of a Shared part, or of a guest, apart from maps and rows.
#[derive(Clone, Copy, PartialEq)]
pub enum PartDifference {
    /// The frames at the first place at which the pools' lists of free frames differ; None past a list's end.
    Free {
        kept: Option<u64>,
        walked: Option<u64>,
    },
    /// The frames of the tables at a block of a tree.
    Table {
        tree: TreeOf,
        block: Block,
        kept: Option<u64>,
        walked: Option<u64>,
    },
    /// The phase, generation or kind of a guest.
    Head {
        kept: GuestHead,
        walked: GuestHead,
    },
}

/// A disagreement of a kept state with the one found from scratch, or of an answer with the model's.
#[derive(Clone, Copy, PartialEq)]
pub enum Disagreement {
    /// On a page of a tree.
    Map {
        tree: TreeOf,
        page: u64,
        kept: Entry,
        walked: Entry,
    },
    /// On the owner row of a frame.
    Owner {
        frame: u64,
        kept: Row,
        walked: Row,
    },
    /// On the reply of a call.
    Reply {
        said: Reply,
        spec: Reply,
    },
    /// On the shared pool, or on the tables of the host or of the hypervisor.
    SharedPart(PartDifference),
    /// On all of a slot's guest but its map.
    GuestPart(u64, PartDifference),
    /// On a slot of the VM part.
    Vm(u64),
    /// On a CPU's own state.
    Cpu(u64),
}
