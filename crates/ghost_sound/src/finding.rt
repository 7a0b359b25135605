//! The finding for a state that isn't sound.
use page_state::Page;

/// A page of a tree.
#[derive(Clone, Copy, PartialEq)]
pub struct Place {
    /// The owner number of the tree: 0 the host's, 1 the hypervisor's, 2 + v that of the guest in slot v.
    pub tree: u64,
    pub page: Page,
}

/// Why a state isn't sound.
#[derive(Clone, Copy, PartialEq)]
pub enum Unsound {
    /// Two entries are leaves of the frame in states Owned or SharedOwned.
    TwoOwners {
        frame: u64,
        one: Place,
        other: Place,
    },
    /// Two entries are leaves of the frame in state SharedBorrowed.
    TwoBorrowers {
        frame: u64,
        one: Place,
        other: Place,
    },
    /// An entry is a leaf of the frame in state SharedBorrowed, and none is one in state SharedOwned.
    NoShare {
        frame: u64,
        borrower: Place,
    },
}
