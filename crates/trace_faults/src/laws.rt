//! A law of faults. The function does nothing, and its contract is the law.
ghost use Rattle.trace_faults.specs.Laws.{FormIsFound};

/// A line whose fault is one of form has a word that isn't of the form which its place asks, and the first such word is named.
pub fn form_is_found()
    ensures { FormIsFound }
{}
