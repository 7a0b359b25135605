//! A law about steps. The function does nothing, and its contract is the law.
ghost use Rattle.hypercalls.specs.Wants.{StockedWants};

use std::alloc::Allocator;

/// A step that changes a page isn't refused for memory if each tree has a spare table for each level below its root's
/// and the maplets have room for two more runs. A step that changes a range of pages isn't if there are two spares for
/// each level.
pub fn stocked_wants<A: Allocator>()
    ensures { StockedWants A }
{}
