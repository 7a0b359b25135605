//! Laws of lists of runs, for any value that advances. Each function does nothing, and its contract is the law.
ghost use Rattle.run_list.specs.Laws.{CoarsestOnce, RunsNoMore};

use crate::Advance;

/// A map has at most one coarsest list of runs.
pub fn coarsest_once<V: Advance>()
    ensures { CoarsestOnce V.advance }
{}

/// The coarsest list of a map has no more runs than there are pages with a value.
pub fn runs_no_more<V: Advance>()
    ensures { RunsNoMore V.advance }
{}
