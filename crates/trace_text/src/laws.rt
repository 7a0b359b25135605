//! Laws of reports. Each function does nothing, and its contract is the law.
ghost use Rattle.trace_text.specs.BrokenOff.{AllAnswered, BeginningReports, BegunWrites, FirstAnswered};
ghost use Rattle.trace_text.specs.Laws.{MachineReaches, MachineRuns, TraceAgrees, TraceRuns};

use crate::oracle::Oracle;

/// The step lines of a report are the replies of a run of the reference step, from the boot state of the settings.
pub fn replies_run<O: Oracle>()
    ensures machine { MachineRuns O.gives }
    ensures reached { MachineReaches O.gives }
    ensures trace { TraceRuns O.gives }
{}

/// What a replay that failed wrote is a front of the text of a report: that of the first lines of its trace.
pub fn begun_reports<O: Oracle>()
    ensures lines { BeginningReports O.gives }
    ensures bytes { BegunWrites O.gives }
{}

/// The replies of a report are those of the first step lines of its trace, and of all of them if no fault ends it.
pub fn steps_answered<O: Oracle>()
    ensures first { FirstAnswered O.gives }
    ensures all { AllAnswered O.gives }
{}

/// A replay whose oracle finds no disagreement reports none: `replay` is one.
pub fn replay_agrees()
    ensures agrees { TraceAgrees }
{}
