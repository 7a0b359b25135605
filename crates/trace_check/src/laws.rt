//! Laws of what traces report and of recorded traces. Each function does nothing, and its contract is the law.
ghost use Rattle.trace_check.specs.Laws.{CheckCounts, RecordIsMet, RecordedIsMet, ReportedIsReplayed};

/// A recorded trace can be carried out with the same reports, and then nothing of it is missed but lines that aren't reached.
/// Recorded again it is itself, byte by byte.
pub fn recorded_is_met()
    ensures lines { RecordedIsMet }
    ensures bytes { RecordIsMet }
{}

/// The reports of the lines of a trace are the report of a replay whose oracle finds no disagreement, except for its
/// last line if that is no fault.
pub fn reported_is_replayed()
    ensures { ReportedIsReplayed }
{}

/// A check counts its expectations, and its misses together with the comments that resemble one: its last line has both
/// counts, and they decide whether a trace is clean.
pub fn check_counts()
    ensures { CheckCounts }
{}
