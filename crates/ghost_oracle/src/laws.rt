//! Laws about records and pokes. Each function does nothing, and its contract is the law.
ghost use Rattle.ghost_oracle.specs.PokedLaws.{BesideOnce, PokedOnce};
ghost use Rattle.ghost_oracle.specs.Recorded.{RecordsUsed};

use std::alloc::Allocator;

/// A record of only the parts that a call uses is the state that the call uses, put into a state in which nothing is
/// mapped, held or loaded, and each log is empty.
pub fn record_is_put_back<A: Allocator>()
    ensures { RecordsUsed A }
{}

/// A poke's outcome is fully determined: the words and the map of each tree, and all the state beside the trees.
pub fn poked_once<A: Allocator>()
    ensures trees { PokedOnce }
    ensures beside { BesideOnce A }
{}
