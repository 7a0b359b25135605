//! Laws of the lines of a trace. Each is a function that does nothing, and its contract is the law.
ghost use Rattle.trace_generate.specs.Reading.{LinesAreRead, LinesAreShort};

/// The line of a step says just that step, wherever a step may be.
pub fn lines_are_read()
    ensures { LinesAreRead }
{}

/// The line of a step has at most 256 bytes.
pub fn lines_are_short()
    ensures { LinesAreShort }
{}
