//! The laws of a race's report. The functions do nothing, and their contracts are the laws.
ghost use Rattle.trace_race.specs.Laws.{FirstNotFull, FullAfter, OneCpuRuns};

/// A race answers LogFull (`race`: `report`) only to a step for which a log is full before its CPU's next call, by the
/// calls that the report has: so not to a trace's only step (`first`), and its CPU's list is then that of its steps
/// before (`after`).
pub fn full_logs()
    ensures first { FirstNotFull }
    ensures after { FullAfter }
{}

/// A race of one CPU's steps is a run of the model, in the trace's order and with the replies of the report.
pub fn one_cpu()
    ensures { OneCpuRuns }
{}
