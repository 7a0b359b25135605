//! Laws of watches. Each function does nothing, and its contract is the law.
ghost use Rattle.trace_watches.specs.Laws.{CleanHolds, PlainIsChecked, UnmissedHolds};

use std::alloc::Allocator;

/// A watch has no miss if and only if it holds after each step: the reply that is recorded there is as it wants.
pub fn unmissed_holds<A: Allocator>()
    ensures { UnmissedHolds A }
{}

/// Each watch of a trace that is clean holds after each step.
pub fn clean_holds<A: Allocator>()
    ensures { CleanHolds A }
{}

/// A trace without a watch is checked as `trace_values::check` does it.
pub fn plain_is_checked<A: Allocator>()
    ensures { PlainIsChecked A }
{}
