//! The finding for a state that isn't legal.
use ghost_coarse::Misfit;
use ghost_slots::SlotFault;
use ghost_spec::filled::GhostFault;
use ghost_trees::blocks::Block;
use page_state::{Entry, Row, State};

/// The holder of a frame, apart from the host and the hypervisor.
#[derive(Clone, Copy, PartialEq)]
pub enum Holder {
    /// The shared pool, in which it is free.
    SharedPool,
    /// The pool of the guest of a slot, in which it is free.
    VmPool(u64),
    /// A tree, as a table.
    Table(TreeBlock),
    /// A CPU's hand.
    Hand(u64),
    /// A guest, at a page, in a state.
    Guest { slot: u64, page: u64, state: State },
}

/// A block of a tree.
#[derive(Clone, Copy, PartialEq)]
pub struct TreeBlock {
    /// Whose tree, by the number of an owner: 0 the host's, 1 the hypervisor's, from 2 on those of the guests by slot.
    pub tree: u64,
    pub block: Block,
}

/// The facts of all parts about a frame.
#[derive(Clone, Copy, PartialEq)]
pub struct Facts {
    /// Whether it is a memory frame.
    pub memory: bool,
    /// The host's entry of its page.
    pub host: Entry,
    /// The hypervisor's entry of its page.
    pub hyp: Entry,
    /// Its row.
    pub row: Row,
    /// Its holder, apart from the host and the hypervisor.
    pub holder: Option<Holder>,
}

/// Why a state isn't legal: the first kind of these that is so, in the order of the variants.
#[derive(Clone, Copy, PartialEq)]
pub enum Illegal {
    /// Slots, loads, tickets, guests and hands don't agree.
    Slots(SlotFault),
    /// The guest of a slot is Empty and has something, or isn't and has no root.
    Guest {
        slot: u64,
    },
    /// A tree has a table at a block outside of it.
    Outside(TreeBlock),
    /// A guest's page is no leaf of memory, or past the input pages.
    GuestPage {
        slot: u64,
        page: u64,
    },
    /// The hypervisor maps a page below those of frames.
    HypPage {
        page: u64,
    },
    /// A frame that is held lies where no memory can be.
    FarFrame {
        frame: u64,
        holder: Holder,
    },
    /// A frame is held twice.
    HeldTwice {
        frame: u64,
        one: Holder,
        other: Holder,
    },
    /// The facts of the parts about a frame fit no condition.
    Frame {
        frame: u64,
        facts: Facts,
    },
    /// A tree isn't the coarsest of its map.
    Tree {
        tree: u64,
        misfit: Misfit,
    },
}

/// Why lists make no legal state.
#[derive(Clone, Copy, PartialEq)]
pub enum Unlawful {
    /// They make no state.
    NoState(GhostFault),
    /// The state that they make isn't legal.
    Illegal(Illegal),
}
