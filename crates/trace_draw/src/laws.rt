//! Laws of drawings. Each function does nothing, and its contract is the law.
ghost use Rattle.trace_draw.specs.Laws.{OneText, RunIsReplayed};

/// A machine determines the text of its owner rows and VM slots.
pub fn one_text()
    ensures { OneText }
{}

/// The run of a trace that is drawn is one that a replay reports, and a fault ends both or neither.
pub fn run_is_replayed()
    ensures { RunIsReplayed }
{}
