//! The laws of explanations. Each function does nothing, and its contract is the law.
ghost use Rattle.trace_explain.specs.Laws.{OneText, SameWords};

/// The bytes of a trace and what a run of its lines answers determine the text of an explanation.
pub fn one_text()
    ensures { OneText }
{}

/// The words for a refusal name the test of the step's rule that failed, whatever the rule read.
pub fn same_words()
    ensures { SameWords }
{}
