//! The lines of a trace that lies in memory.
ghost use Rattle.std.specs.Prelude.{◌≡◌, ◌==◌, IfOk, map};
ghost use Rattle.std.specs.List.{slice_split};
ghost use Rattle.trace_reader.specs.Reading.{lines_of};

use std::alloc::{AllocError, Global};

/// The lines of a whole trace, without their ends. The last may lack its end.
pub fn lines<'a>(global: Global, trace: &'a [u8]) -> Result<Vec<&'a [u8]>, AllocError>
    ensures { IfOk result (λ lines. map (λ line. line.now) lines.items ≡ lines_of trace.now) }
{
    let mut lines = parts(global, trace)?;
    let count = lines.len();
    if count == 0 {
        return Ok(lines);
    }
    if !lines[count - 1].is_empty() {
        return Ok(lines);
    }
    let _end = lines.pop();
    Ok(lines)
}

/// What is before, between and after the line ends.
fn parts<'a>(global: Global, trace: &'a [u8]) -> Result<Vec<&'a [u8]>, AllocError>
    ensures { IfOk result
        (λ parts. map (λ part. part.now) parts.items
        ≡ slice_split (λ byte. byte == 10) trace.now) }
{
    trace.split(|byte| *byte == b'\n').collect(global)
}
