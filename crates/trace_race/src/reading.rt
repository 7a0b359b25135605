//! Reading a whole trace.
ghost use Rattle.std.specs.Prelude.{◌≡◌, ◌<◌, ◌^◌, IfOk};
ghost use Rattle.trace_reader.specs.Ahead.{left};
ghost use Rattle.trace_reader.specs.Devices.{ReportsRead};
ghost use Rattle.trace_race.specs.Courses.{IsSound, course_in, nothing_asked};
ghost use Rattle.trace_race.specs.Readings.{HasRead};

use crate::course::Course;
use std::alloc::Global;
use trace_reader::{EngineFault, MOST_BYTES, ReadAhead, Source, read_line};
use trace_text::{Fault, MOST_LINES, Stop};

/// What reading a whole trace came to.
#[derive(Drop)]
pub(crate) enum Read {
    Whole(Course),
    /// The first fault, and the number of its line.
    Fault(u64, Fault),
}

/// Reads all lines.
pub(crate) fn read_all<S: Source>(global: Global, source: &mut S) -> Result<Read, EngineFault>
    ensures read { IfOk result (HasRead (S.remaining source.old)) }
    ensures counted { ReportsRead (S.failures source.old) (S.failures source.new) result }
{
    let mut line = Vec::with_capacity(global, MOST_BYTES + 1).map_err(|_| EngineFault::NoMemory)?;
    let mut ahead = ReadAhead::new(global).map_err(|_| EngineFault::NoMemory)?;
    read_lines(Course::new(global), source, &mut ahead, &mut line)
}

fn read_lines<S: Source>(
    course: Course,
    source: &mut S,
    ahead: &mut ReadAhead,
    line: &mut Vec<u8>,
) -> Result<Read, EngineFault>
    requires start { course_in course ≡ nothing_asked }
    ensures read { IfOk result (HasRead (left ahead.old (S.remaining source.old))) }
    ensures counted { ReportsRead (S.failures source.old) (S.failures source.new) result }
{
    let mut course = course;
    for number in 1..MOST_LINES + 1 {
        if !read_line(source, ahead, line)? {
            return Ok(Read::Whole(course));
        }
        match course.read(number, line.as_slice()) {
            Ok(()) => {}
            Err(Stop::Fault(fault)) => return Ok(Read::Fault(number, fault)),
            Err(Stop::NoMemory) => return Err(EngineFault::NoMemory),
        }
    }
    if read_line(source, ahead, line)? {
        return Ok(Read::Fault(MOST_LINES + 1, Fault::Lines));
    }
    Ok(Read::Whole(course))
}
