//! A whole race: read, made, merged, judged, audited, reported.
ghost use Rattle.std.specs.Prelude.{◌≡◌, ◌<◌, ◌^◌, ◌∷◌, [], IfOk, OnErr, MatchResult, Ok, Err};
ghost use Rattle.page_state.specs.LayoutView.{layout_of};
ghost use Rattle.reference_model.specs.model.Boot.{boot};
ghost use Rattle.ghost_spec.specs.States.{ghost_state};
ghost use Rattle.trace_race.specs.Booted.{machine_in};
ghost use Rattle.trace_race.specs.Courses.{IsSound, course_in};
ghost use Rattle.trace_race.specs.Failures.{RaceReads, RaceReports, RaceWrites};
ghost use Rattle.trace_race.specs.Made.{IsMadeOf, OneHistory};
ghost use Rattle.trace_race.specs.Ordered.{AreAsked};
ghost use Rattle.trace_race.specs.Orders.{idle_order as idle_order_of};
ghost use Rattle.trace_race.specs.Raced.{IsRaceBegun, IsRaced, WritesTextFront, end_text};
ghost use Rattle.trace_race.specs.Readings.{IsSoundRead, asked_in};
ghost use Rattle.trace_race.specs.Told.{BeginsStop, EndsWith, IsBootedRun, RunBegins, RunEnds, StepsBegin, StepsEnd, ReportsBegun, ReportsRace, ReportsStop};
ghost use Rattle.trace_text.specs.Failures.{ReportsWrite};

use crate::booting::{Booted, boot_world};
use crate::course::{Asked, Course};
use crate::fault::RaceFault;
use crate::making::{Made, make};
use crate::ordering::idle_order;
use crate::race_end::{Compared, compared_at_end, dropped};
use crate::reading::{Read, read_all};
use crate::telling::{report_found, report_steps};
use cpu_threads::Gate;
use ghost_spec::state::Ghost;
use std::alloc::Global;
use std::sync::Wait;
use std::thread::Threads;
use trace_reader::{EngineFault, MOST_BYTES, Outcome, Source};
use trace_text::{ReportLine, Sink, Stop, faulted, tell};

/// Reads a whole trace, and carries it out: the steps before `start` in order, those after it on one thread for each
/// CPU, and writes its report. A fault of any line is the whole report. The gate hears of the calls that are made at
/// once. There is one legal history of the steps, with the replies in the report: first those before `start`, in the
/// trace's order, and then those after it. No line disagrees. If `ordered`, a line before the last has the line numbers
/// of the steps after `start` in the order of that history, as the logs have it. Err if the source or the sink failed,
/// once, memory was refused, or a thread couldn't start.
// It reads all before it boots: docs/DECISIONS.md, 13.
pub fn race<R: Threads + Wait + Sync, S: Source, K: Sink, G: Gate + Sync>(
    rt: &R,
    global: Global,
    source: &mut S,
    sink: &mut K,
    gate: &G,
    ordered: bool,
) -> Result<Outcome, RaceFault>
    ensures report { IfOk result
        (λ outcome. IsRaced ordered (S.remaining source.old) (K.contents sink.old)
        (K.contents sink.new) outcome) }
    ensures begun { OnErr result
        (IsRaceBegun ordered (S.remaining source.old) (K.contents sink.old)
        (K.contents sink.new)) }
    ensures reads { RaceReads (S.failures source.old) (S.failures source.new) result }
    ensures writes { RaceWrites (K.failures sink.old) (K.failures sink.new) result }
{
    let Ok(mut text) = String::with_capacity(global, MOST_BYTES) else {
        return Err(RaceFault::Engine(EngineFault::NoMemory));
    };
    match read_all(global, source) {
        Ok(read) => report(rt, global, read, sink, &mut text, gate, ordered),
        Err(fault) => Err(RaceFault::Engine(fault)),
    }
}

/// Writes the report of what reading came to.
fn report<R: Threads + Wait + Sync, K: Sink, G: Gate + Sync>(
    rt: &R,
    global: Global,
    read: Read,
    sink: &mut K,
    text: &mut String,
    gate: &G,
    ordered: bool,
) -> Result<Outcome, RaceFault>
    requires sound { IsSoundRead read }
    ensures report { IfOk result
        (λ outcome. ReportsRace ordered (asked_in read) (K.contents sink.old)
        (K.contents sink.new) outcome) }
    ensures begun { OnErr result
        (ReportsBegun ordered (asked_in read) (K.contents sink.old) (K.contents sink.new)) }
    ensures counted { RaceReports (K.failures sink.old) (K.failures sink.new) result }
{
    match read {
        Read::Whole(course) => carry_out(rt, global, &course, sink, text, gate, ordered),
        Read::Fault(line, fault) => engine(faulted(sink, text, line, fault)),
    }
}

/// Carries out what a whole trace asks for, and writes its report.
fn carry_out<R: Threads + Wait + Sync, K: Sink, G: Gate + Sync>(
    rt: &R,
    global: Global,
    course: &Course,
    sink: &mut K,
    text: &mut String,
    gate: &G,
    ordered: bool,
) -> Result<Outcome, RaceFault>
    requires sound { IsSound (course_in course.now) }
    ensures report { IfOk result
        (λ outcome. ReportsRace ordered (Ok (course_in course.now)) (K.contents sink.old)
        (K.contents sink.new) outcome) }
    ensures begun { OnErr result
        (ReportsBegun ordered (Ok (course_in course.now)) (K.contents sink.old) (K.contents sink.new)) }
    ensures counted { RaceReports (K.failures sink.old) (K.failures sink.new) result }
{
    let boot = match course.boot {
        Some(boot) => boot,
        None => return report_idle(sink, text, ordered),
    };
    let carve = match course.settings.carve {
        Some(carve) => carve,
        None => return report_idle(sink, text, ordered),
    };
    match boot_world(global, &course.settings, carve) {
        Ok(booted) => run(rt, global, booted, course, gate, sink, text, ordered),
        Err(stop) => report_stop(sink, text, boot, stop),
    }
}

/// Ends the report with the fault of a boot at this line.
fn report_stop<K: Sink>(
    sink: &mut K,
    text: &mut String,
    line: u64,
    stop: Stop,
) -> Result<Outcome, RaceFault>
    ensures report { IfOk result (ReportsStop line stop (K.contents sink.old) (K.contents sink.new)) }
    ensures begun { OnErr result (BeginsStop line stop (K.contents sink.old) (K.contents sink.new)) }
    ensures counted { RaceReports (K.failures sink.old) (K.failures sink.new) result }
{
    match stop {
        Stop::Fault(fault) => engine(faulted(sink, text, line, fault)),
        Stop::NoMemory => Err(RaceFault::Engine(EngineFault::NoMemory)),
    }
}

/// Writes the report of a trace that boots nothing.
fn report_idle<K: Sink>(
    sink: &mut K,
    text: &mut String,
    ordered: bool,
) -> Result<Outcome, RaceFault>
    ensures ok { IfOk result
        (EndsWith Outcome.Clean (end_text 0 (idle_order_of ordered)) (K.contents sink.old)
        (K.contents sink.new)) }
    ensures front { OnErr result
        (WritesTextFront (end_text 0 (idle_order_of ordered)) (K.contents sink.old)
        (K.contents sink.new)) }
    ensures counted { RaceReports (K.failures sink.old) (K.failures sink.new) result }
{
    engine(report_found(sink, text, &[], None, idle_order(ordered), 0))
}

/// Makes the steps on a booted machine, and writes the report.
fn run<R: Threads + Wait + Sync, K: Sink, G: Gate + Sync>(
    rt: &R,
    global: Global,
    booted: Booted,
    course: &Course,
    gate: &G,
    sink: &mut K,
    text: &mut String,
    ordered: bool,
) -> Result<Outcome, RaceFault>
    requires sound { IsSound (course_in course.now) }
    requires booted { IsBootedRun (course_in course.now) booted }
    ensures report { IfOk result
        (λ outcome. RunEnds ordered (machine_in booted.state) (course_in course.now)
        (K.contents sink.old) (K.contents sink.new) outcome) }
    ensures begun { OnErr result
        (RunBegins ordered (machine_in booted.state) (course_in course.now) (K.contents sink.old)
        (K.contents sink.new)) }
    ensures counted { RaceReports (K.failures sink.old) (K.failures sink.new) result }
{
    let Booted { world, line, state } = booted;
    if let Err(fault) = tell(sink, text, ReportLine::Response(line)) {
        drop(state);
        drop(world);
        return Err(RaceFault::Engine(fault));
    }
    let steps = course.steps.as_slice();
    let cpus = course.settings.config().cpus;
    let start = course.in_order();
    let made = match make(rt, global, world, gate, cpus, steps, start) {
        Ok(Some(made)) => made,
        Ok(None) => {
            drop(state);
            return Err(RaceFault::Start);
        }
        Err(_) => {
            drop(state);
            return Err(RaceFault::Engine(EngineFault::NoMemory));
        }
    };
    engine(report_made(global, made, state, steps, start, sink, text, ordered))
}

/// Writes the lines of the steps that were made, compares, and writes the rest of the report. `state` is the model's at boot.
fn report_made<K: Sink>(
    global: Global,
    made: Made,
    state: Ghost,
    steps: &[Asked],
    start: usize,
    sink: &mut K,
    text: &mut String,
    ordered: bool,
) -> Result<Outcome, EngineFault>
    requires made { IsMadeOf start steps.now made }
    requires layout { layout_of made.machine.table.layout ≡ layout_of state.layout }
    requires boot { ghost_state state ≡ boot (layout_of state.layout) }
    requires asked { AreAsked state.layout.config.cpus start steps.now }
    ensures report { IfOk result
        (StepsEnd ordered (layout_of state.layout) start steps.now made.replies.items
        (K.contents sink.old) (K.contents sink.new)) }
    ensures begun { OnErr result
        (StepsBegin ordered (layout_of state.layout) start steps.now made.replies.items
        (K.contents sink.old) (K.contents sink.new)) }
    ensures history { OneHistory (layout_of state.layout) start steps.now made.replies.items }
    ensures counted { ReportsWrite (K.failures sink.old) (K.failures sink.new) result }
{
    let Made {
        machine,
        passes,
        replies,
    } = made;
    if let Err(fault) = report_steps(sink, text, steps, replies.as_slice()) {
        drop(state);
        dropped(machine, passes, steps, start, replies.as_slice());
        return Err(fault);
    }
    let Ok(found) = compared_at_end(
        global,
        machine,
        passes,
        steps,
        start,
        replies.as_slice(),
        state,
        ordered,
    ) else {
        return Err(EngineFault::NoMemory);
    };
    let Compared {
        judged,
        audited,
        order,
    } = found;
    report_found(
        sink,
        text,
        judged.as_slice(),
        audited,
        order.as_slice(),
        steps.len() as u64,
    )
}

/// An answer of a replay's kind.
fn engine(answer: Result<Outcome, EngineFault>) -> Result<Outcome, RaceFault>
    ensures { MatchResult answer (λ outcome. result ≡ Ok outcome)
        (λ fault. result ≡ Err (RaceFault.Engine fault)) }
{
    match answer {
        Ok(outcome) => Ok(outcome),
        Err(fault) => Err(RaceFault::Engine(fault)),
    }
}
