//! What the lines of a trace report whose steps after `start` may be made in any order.
ghost use Rattle.std.specs.Prelude.{◌≡◌, ◌+◌, ◌<◌, ◌≤◌, ◌++◌, [], IfOk, OnOk, length, map};
ghost use Rattle.trace_cases.specs.Raced.{IsAlone, IsRaced, IsRun, RacedIn, RacedOf};
ghost use Rattle.trace_cases.specs.Races.{faulted as faulted_by, padded as padded_by, silences as silences_by};
ghost use Rattle.trace_check.specs.View.{told_in};
ghost use Rattle.trace_race.specs.Courses.{IsSound, course_in, course_of, nothing_asked};
ghost use Rattle.trace_reader.specs.Reading.{lines_of};

use race_outcomes::Outcome;
use std::alloc::{AllocError, Allocator, Global};
use trace_check::{Carried, Watch, carry_out};
use trace_outcomes::{Found, Outcomes, Read, find_outcomes, read_trace};
use trace_race::{Asked, Course};
use trace_reader::Silent;
use trace_text::{Fault, ReportLine};

/// Of a step, how many points the search for outcomes may come to.
const POINTS: usize = 100_000;

/// What lines report.
#[derive(Drop)]
pub(crate) struct Raced {
    /// Of each line that was carried out; nothing of a step after `start`.
    pub told: Vec<Vec<ReportLine>>,
    /// The steps after `start`.
    pub steps: Vec<Asked>,
    /// All outcomes of these steps.
    pub found: Vec<Outcome>,
    /// If not all outcomes were found: the orders of this number of steps lead to too many points.
    pub many: Option<u64>,
}

/// What the lines of a trace report, of which the one at `start` is the first that begins so.
pub(crate) fn raced_lines<A: Allocator + Copy>(
    global: Global,
    alloc: A,
    trace: &[u8],
    lines: &[&[u8]],
    start: usize,
) -> Result<Raced, AllocError>
    requires start { start < length lines.now }
    ensures raced { IfOk result
        (RacedOf (map (λ line. line.now) lines.now) (start + 1)
        (course_of 1 nothing_asked (lines_of trace.now))) }
    ensures few { IfOk result (λ raced. length raced.told.items ≤ length lines.now) }
{
    match read_trace(global, trace)? {
        Read::Whole(course) => raced_in(global, alloc, lines, start + 1, &course),
        Read::Fault(line, fault) => faulty(global, lines, line, fault),
    }
}

/// Lines report this, and no step is made after `start`.
fn alone(global: Global, told: Vec<Vec<ReportLine>>) -> Raced
    ensures alone { IsAlone (told_in told.items) result }
    ensures told { result.told ≡ told }
{
    Raced {
        told,
        steps: Vec::new(global),
        found: Vec::new(global),
        many: None,
    }
}

/// A line has a fault, or the boot: nothing else is reported.
fn faulty(global: Global, lines: &[&[u8]], at: u64, fault: Fault) -> Result<Raced, AllocError>
    ensures raced { IfOk result (IsAlone (faulted_by 1 at fault (map (λ line. line.now) lines.now))) }
    ensures few { IfOk result (λ raced. length raced.told.items ≤ length lines.now) }
{
    let told = faulted(global, lines, at, fault)?;
    Ok(alone(global, told))
}

/// What lines report of which one has a fault.
fn faulted(
    global: Global,
    lines: &[&[u8]],
    at: u64,
    fault: Fault,
) -> Result<Vec<Vec<ReportLine>>, AllocError>
    ensures told { IfOk result
        (λ told. told_in told.items ≡ faulted_by 1 at fault (map (λ line. line.now) lines.now)) }
    ensures few { IfOk result (λ told. length told.items ≤ length lines.now) }
{
    let mut told = Vec::new(global);
    for place in 0..lines.len() {
        let number = place as u64 + 1;
        if number == at {
            let line = at;
            told.push(Vec::from_slice(global, &[ReportLine::Fault { line, fault }])?)?;
            return Ok(told);
        }
        told.push(Vec::new(global))?;
    }
    Ok(told)
}

/// Nothing boots.
fn idle(global: Global, lines: &[&[u8]]) -> Result<Raced, AllocError>
    ensures raced { IfOk result (IsAlone (silences_by (map (λ line. line.now) lines.now))) }
    ensures few { IfOk result (λ raced. length raced.told.items ≤ length lines.now) }
{
    let mut told = Vec::new(global);
    add_silences(&mut told, global, lines)?;
    Ok(alone(global, told))
}

/// What lines report that report nothing.
fn add_silences(
    told: &mut Vec<Vec<ReportLine>>,
    global: Global,
    lines: &[&[u8]],
) -> Result<(), AllocError>
    ensures told { OnOk result
        (told_in told.new.items
        ≡ told_in told.old.items ++ silences_by (map (λ line. line.now) lines.now)) }
    ensures count { OnOk result (length told.new.items ≡ length told.old.items + length lines.now) }
{
    for line in lines {
        let _ = line;
        told.push(Vec::new(global))?;
    }
    Ok(())
}

/// The reports of the lines of a whole trace, the first of which come before the steps that may be made in any order.
fn raced_in<A: Allocator + Copy>(
    global: Global,
    alloc: A,
    lines: &[&[u8]],
    count: usize,
    course: &Course,
) -> Result<Raced, AllocError>
    requires sound { IsSound (course_in course.now) }
    requires count { count ≤ length lines.now }
    ensures raced { IfOk result (RacedIn (map (λ line. line.now) lines.now) count (course_in course.now)) }
    ensures few { IfOk result (λ raced. length raced.told.items ≤ length lines.now) }
{
    match find_outcomes(global, course, POINTS, &Silent)? {
        Found::Fault(line, fault) => faulty(global, lines, line, fault),
        Found::Idle => idle(global, lines),
        Found::TooMany(made) => run(
            global,
            alloc,
            lines,
            count,
            course,
            Vec::new(global),
            Some(made),
        ),
        Found::All(outcomes) => {
            let Outcomes { replies, found } = outcomes;
            drop(replies);
            run(global, alloc, lines, count, course, found, None)
        }
    }
}

/// Their reports, with the outcomes of the steps after them.
fn run<A: Allocator + Copy>(
    global: Global,
    alloc: A,
    lines: &[&[u8]],
    count: usize,
    course: &Course,
    found: Vec<Outcome>,
    many: Option<u64>,
) -> Result<Raced, AllocError>
    requires sound { IsSound (course_in course.now) }
    requires count { count ≤ length lines.now }
    ensures raced { IfOk result
        (IsRaced (map (λ line. line.now) lines.now) count
        (course_in course.now) found.items many) }
    ensures few { IfOk result (λ raced. length raced.told.items ≤ length lines.now) }
{
    let first = course.in_order();
    let steps = Vec::from_slice(global, &course.steps.as_slice()[first..])?;
    let told = run_to(global, alloc, lines, count)?;
    Ok(Raced {
        told,
        steps,
        found,
        many,
    })
}

/// The reports of all lines, if only the first are carried out in order.
fn run_to<A: Allocator + Copy>(
    global: Global,
    alloc: A,
    lines: &[&[u8]],
    count: usize,
) -> Result<Vec<Vec<ReportLine>>, AllocError>
    requires { count ≤ length lines.now }
    ensures run { IfOk result (λ told. IsRun (map (λ line. line.now) lines.now) count (told_in told.items)) }
    ensures few { IfOk result (λ told. length told.items ≤ length lines.now) }
{
    let carried = carry_out(global, alloc, &lines[..count], Watch::AtEnd)?;
    let Carried { told, found: _ } = carried;
    padded(global, lines, count, told)
}

/// The reports of all lines, given those of the lines before some place.
fn padded(
    global: Global,
    lines: &[&[u8]],
    count: usize,
    told: Vec<Vec<ReportLine>>,
) -> Result<Vec<Vec<ReportLine>>, AllocError>
    requires count { count ≤ length lines.now }
    requires few { length told.items ≤ count }
    ensures told { IfOk result
        (λ all. told_in all.items
        ≡ padded_by count (map (λ line. line.now) lines.now) (told_in told.items)) }
    ensures few { IfOk result (λ all. length all.items ≤ length lines.now) }
{
    if told.len() != count {
        return Ok(told);
    }
    let mut told = told;
    add_silences(&mut told, global, &lines[count..])?;
    Ok(told)
}
