//! Laws of expansions. Each function does nothing, and its contract is the law.
ghost use Rattle.trace_values.specs.Laws.{ExpansionsArePlain, PlainIsChecked};

use std::alloc::Allocator;

/// An expansion has no name left, and is its own expansion.
pub fn expansions_are_plain<A: Allocator>()
    ensures { ExpansionsArePlain A }
{}

/// A trace without a name is checked as `trace_cases::check` does it.
pub fn plain_is_checked<A: Allocator>()
    ensures { PlainIsChecked A }
{}
