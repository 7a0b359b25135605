//! The report of a race is an outcome of its steps, and its replies are read. Each function does nothing, and its contract is the law.
ghost use Rattle.trace_outcomes.specs.Laws.{HistoriesAreOutcomes, LinesAreRead, RacesAreReported, RepliesAreRead};

/// If replies have one legal history, as those of each race have, the model gives the steps before `start` exactly
/// these replies, and from there on the others are an outcome of the steps after `start`.
pub fn histories_are_outcomes()
    ensures { HistoriesAreOutcomes }
{}

/// All outcomes of a trace have the replies of each of its races that reports no lack of memory.
pub fn races_are_reported()
    ensures { RacesAreReported }
{}

/// The text of each reply is read as that of a reply, and just `nomemory` as that of a step that finds no memory.
pub fn replies_are_read()
    ensures { RepliesAreRead }
{}

/// The line of a step in a report is read as the reply to the step at the place of its line and CPU, which had none before.
pub fn lines_are_read()
    ensures { LinesAreRead }
{}
