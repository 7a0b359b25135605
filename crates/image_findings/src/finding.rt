//! Findings.
ghost use Rattle.std.specs.Prelude.{◌≡◌, ◌++◌, [], ◌∷◌, Option, OnOk, option_to_list};

use crate::claim::Claim;
use std::alloc::AllocError;
use walked_tables::Reached;

/// What isn't sound.
#[derive(Clone, Copy, PartialEq)]
pub enum Finding {
    /// Pages whose word says nothing by the tree's profile.
    Malformed {
        tree: u64,
        page: u64,
        count: u64,
    },
    /// Pages whose word names a table that the image doesn't have.
    NoTable {
        tree: u64,
        page: u64,
        count: u64,
        frame: u64,
    },
    /// A frame that two own.
    TwoOwners {
        frame: u64,
        first: Claim,
        second: Claim,
    },
    /// A frame that two borrow.
    TwoBorrowers {
        frame: u64,
        first: Claim,
        second: Claim,
    },
    /// A frame that is shared and that nobody borrows.
    NoBorrower {
        frame: u64,
        claim: Claim,
    },
    /// A frame that is borrowed and that nobody shares.
    Unshared {
        frame: u64,
        claim: Claim,
    },
    /// A frame that a leaf maps although the frame's record says that the tree doesn't have it.
    Denied {
        frame: u64,
        claim: Claim,
    },
    /// A table that the host or a guest maps.
    MappedTable {
        table: Reached,
        claim: Claim,
    },
    /// A table of two trees.
    MetTwice {
        first: Reached,
        second: Reached,
    },
}

/// Adds a finding, if there is one.
pub(crate) fn add(found: &mut Vec<Finding>, next: Option<Finding>) -> Result<(), AllocError>
    ensures { OnOk result (found.new.items ≡ found.old.items ++ option_to_list next) }
{
    if let Some(next) = next {
        found.push(next)?;
    }
    Ok(())
}
