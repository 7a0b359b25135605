//! The laws of counts. Each function does nothing, and its contract is the law.
ghost use Rattle.trace_cover.specs.Laws.{EachOnce, UnlistedPass};
ghost use Rattle.trace_cover.specs.Legality.{NeverFound, SameCondition};

/// Each step is counted in one row of a reply, and, if it names a frame, in one row of a condition.
pub fn each_once()
    ensures { EachOnce }
{}

/// A test that the table says no rule of the call has always passes, so no reply is left out.
pub fn unlisted_pass()
    ensures { UnlistedPass }
{}

/// In a legal state, as each of a run is, the condition that is counted of a memory frame is that of the invariant.
pub fn same_condition()
    ensures { SameCondition }
{}

/// In a legal state no step finds a frame in a condition that the report calls impossible.
pub fn never_found()
    ensures { NeverFound }
{}
