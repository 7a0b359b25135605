//! Reading a whole trace.
ghost use Rattle.std.specs.Prelude.{◌≡◌, ◌+◌, ◌^◌, ◌<◌, IfOk, map};
ghost use Rattle.trace_reader.specs.Reading.{lines_of};
ghost use Rattle.trace_race.specs.Courses.{course_in, nothing_asked};
ghost use Rattle.trace_outcomes.specs.Readings.{IsReadOf};

use std::alloc::{AllocError, Global};
use trace_race::Course;
use trace_reader::lines;
use trace_text::{Fault, MOST_LINES, Stop};

/// What reading a whole trace came to.
#[derive(Drop)]
pub enum Read {
    Whole(Course),
    /// The first fault, and the number of its line.
    Fault(u64, Fault),
}

/// Reads all lines of a trace.
pub fn read_trace(global: Global, trace: &[u8]) -> Result<Read, AllocError>
    ensures { IfOk result (IsReadOf (lines_of trace.now)) }
{
    let lines = lines(global, trace)?;
    read_lines(Course::new(global), lines.as_slice())
}

fn read_lines(course: Course, lines: &[&[u8]]) -> Result<Read, AllocError>
    requires { course_in course ≡ nothing_asked }
    ensures { IfOk result (IsReadOf (map (λ line. line.now) lines.now)) }
{
    let mut course = course;
    for place in 0..lines.len() {
        let number = place as u64 + 1;
        if number > MOST_LINES {
            return Ok(Read::Fault(number, Fault::Lines));
        }
        match course.read(number, lines[place]) {
            Ok(()) => {}
            Err(Stop::Fault(fault)) => return Ok(Read::Fault(number, fault)),
            Err(Stop::NoMemory) => return Err(AllocError),
        }
    }
    Ok(Read::Whole(course))
}
