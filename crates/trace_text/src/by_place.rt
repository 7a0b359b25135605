//! A line of a trace by its place.
ghost use Rattle.std.specs.Prelude.{◌+◌, ◌<◌, ◌≤◌, length};
ghost use Rattle.trace_text.specs.ByPlace.{IsPlayedAt};
ghost use Rattle.trace_text.specs.Ready.{IsReady};
ghost use Rattle.trace_text.specs.View.{standing_of};

use crate::fault::Fault;
use crate::oracle::NoOracle;
use crate::player::MOST_LINES;
use crate::session::{Reported, Session, Stop};
use std::alloc::Allocator;

/// Carries out a line of a trace, by its place from 0 on. No oracle looks at its step.
pub fn line_run<A: Allocator + Copy>(
    session: &mut Session<A>,
    lines: &[&[u8]],
    place: usize,
) -> Result<Reported, Stop>
    requires place { place < length lines.now }
    requires few { (standing_of session.old).steps ≤ place }
    requires ready { IsReady session.old }
    ensures done { IsPlayedAt lines.now place session.old result session.new }
    ensures steps { (standing_of session.new).steps ≤ place + 1 }
    ensures ready { IsReady session.new }
{
    let number = place as u64 + 1;
    if number > MOST_LINES {
        return Err(Stop::Fault(Fault::Lines));
    }
    session.run(&mut NoOracle, number, lines[place])
}
