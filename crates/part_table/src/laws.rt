//! The laws of a call that a maker made. The function does nothing, and its contract is the law.
ghost use Rattle.part_table.specs.Laws.{MadeAsTaken};

use crate::gate::Gate;
use crate::maker::Maker;
use std::alloc::Allocator;

/// A maker's report of a stored call (`PartTable::try_step_by`: `made`) is about the parts as they were taken: not
/// about other parts, nor about these at an earlier or later time.
pub fn made_as_taken<A: Allocator, T, G: Gate, M: Maker<T, G>>()
    ensures { MadeAsTaken {A = A} M.tells }
{}
