//! The trace on standard input.
ghost use Rattle.std.specs.Prelude.{IfSome};
ghost use Rattle.trace_race.specs.Courses.{IsSound, course_in};

use page_state::{Config, MemoryMap};
use std::alloc::Global;
use trace_race::Course;

/// Reads all lines. None if one has a fault that is one under `race`, or reading or memory failed.
pub fn read_all<R: Input + AllocGlobal>(rt: &R) -> Option<Course>
    ensures { IfSome result (λ c. IsSound (course_in c)) }
{
    let mut course = Course::new(rt.alloc());
    let mut number = 0u64;
    for line in rt.lines(rt.alloc()) {
        let Ok(line) = line else {
            return None;
        };
        number = number.wrapping_add(1);
        let Ok(()) = course.read(number, line.as_bytes()) else {
            return None;
        };
    }
    Some(course)
}

/// The memory and the configuration of a trace.
pub fn told(global: Global, course: &Course) -> Option<(MemoryMap, Config)> {
    let settings = &course.settings;
    let map = MemoryMap::new(global, settings.regions.as_slice(), settings.carve?).ok()?;
    Some((map, settings.config()))
}
