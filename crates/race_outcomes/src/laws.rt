//! Laws of orders and outcomes. Each function does nothing, and its contract is the law.
ghost use Rattle.race_outcomes.specs.Laws.{OrdersKeep, OutcomesAreRuns, RunsAreOutcomes, StoredRunsAreOutcomes};

/// An order that gives replies has the steps of each CPU, each once, in the order of the list.
pub fn orders_keep()
    ensures { OrdersKeep }
{}

/// If a list of calls is a run of the model, and these are the steps with their replies, each CPU's own in order, the
/// replies are an outcome, where just the steps with the reply `nomemory` find no memory.
pub fn runs_are_outcomes()
    ensures { RunsAreOutcomes }
{}

/// The same of a run that has only the steps that logs store: a step that a full log refused finds it full between its
/// CPU's calls before it and behind it.
pub fn stored_runs_are_outcomes()
    ensures { StoredRunsAreOutcomes }
{}

/// An outcome is that of a run of the model, whose calls are the steps with these replies, each CPU's own in order.
pub fn outcomes_are_runs()
    ensures { OutcomesAreRuns }
{}
