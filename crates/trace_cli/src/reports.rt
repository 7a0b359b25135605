//! The reports of `replay`, `race` and `audit`, written as the trace is read.
ghost use Rattle.std.specs.Prelude.{◌≡◌, IfOk};
ghost use Rattle.trace_cli.specs.Status.{HasAuditReport, HasRaceReport, HasReplayReport};

use crate::kept::{KeptReader, KeptWriter};
use crate::telling::{no_memory, report_beside};
use cpu_threads::Open;
use linked_list_allocator::LocalHeap;
use report_json::{JsonLines, REPORTS};
use std::alloc::Allocator;
use std::io::{self, Printer};
use std::sync::Wait;
use std::thread::Threads;
use trace_audit::audit_buffered;
use trace_command::{Looks, Output};
use trace_faults::fault_reported;
use trace_race::{Halted, RaceFault, race_buffered};
use trace_reader::Outcome;
use trace_text::{Stopped, replay_at_end_buffered, replay_buffered};

/// Standard output, to which a report's lines go as JSON.
fn json_lines<'a, R: AllocGlobal + Print>(rt: &'a R) -> JsonLines<Printer<'a, R>> {
    JsonLines::new(rt.alloc(), REPORTS, io::writer(rt))
}

/// Replays a trace with the trees' tables in a heap of this size, or in the machine's memory.
pub fn replayed<R: AllocGlobal + Print + Eprint, F: io::Read + Drop>(
    rt: &R,
    path: &str,
    heap: Option<usize>,
    looks: Looks,
    output: Output,
    file: F,
) -> Result<Outcome, Halted>
    ensures { IfOk result (HasReplayReport (F.remaining file)) }
{
    let Some(bytes) = heap else {
        return replayed_in(rt, path, rt.alloc(), looks, output, file);
    };
    match LocalHeap::new(rt.alloc(), bytes) {
        Ok(heap) => replayed_in(rt, path, &heap, looks, output, file),
        Err(_) => Err(no_memory()),
    }
}

/// Replays a trace with the trees' tables in this memory.
fn replayed_in<R: AllocGlobal + Print + Eprint, A: Allocator + Copy, F: io::Read + Drop>(
    rt: &R,
    path: &str,
    alloc: A,
    looks: Looks,
    output: Output,
    file: F,
) -> Result<Outcome, Halted>
    ensures { IfOk result (HasReplayReport (F.remaining file)) }
{
    match output {
        Output::Report => replayed_to(rt, path, alloc, looks, file, io::writer(rt)),
        Output::Json => replayed_to(rt, path, alloc, looks, file, json_lines(rt)),
        Output::Nothing => replayed_to(rt, path, alloc, looks, file, io::sink()),
    }
}

fn replayed_to<
    R: AllocGlobal + Eprint,
    A: Allocator + Copy,
    F: io::Read + Drop,
    W: io::Write + Drop,
>(rt: &R, path: &str, alloc: A, looks: Looks, file: F, writer: W) -> Result<Outcome, Halted>
    ensures { IfOk result (HasReplayReport (F.remaining file)) }
{
    let Ok(writer) = KeptWriter::new(rt.alloc(), writer) else {
        return Err(no_memory());
    };
    let mut trace = Vec::new(rt.alloc());
    let file = KeptReader::new(file, &mut trace);
    let answer = match looks {
        Looks::Each => replay_buffered(rt.alloc(), alloc, file, writer),
        Looks::End => replay_at_end_buffered(rt.alloc(), alloc, file, writer),
    };
    match answer {
        Ok((outcome, writer)) => {
            let fault = fault_reported(writer.last_line());
            report_beside(rt, path, trace.as_slice(), fault, false)?;
            Ok(outcome)
        }
        Err(stopped) => Err(halted(stopped)),
    }
}

/// Races a trace. If `ordered`, the report has the order of its steps.
pub fn raced<R: AllocGlobal + Print + Eprint + Threads + Wait + Sync, F: io::Read + Drop>(
    rt: &R,
    path: &str,
    ordered: bool,
    output: Output,
    file: F,
) -> Result<Outcome, Halted>
    ensures { IfOk result (HasRaceReport ordered (F.remaining file)) }
{
    match output {
        Output::Report => raced_to(rt, path, ordered, file, io::writer(rt)),
        Output::Json => raced_to(rt, path, ordered, file, json_lines(rt)),
        Output::Nothing => raced_to(rt, path, ordered, file, io::sink()),
    }
}

fn raced_to<
    R: AllocGlobal + Eprint + Threads + Wait + Sync,
    F: io::Read + Drop,
    W: io::Write + Drop,
>(rt: &R, path: &str, ordered: bool, file: F, writer: W) -> Result<Outcome, Halted>
    ensures { IfOk result (HasRaceReport ordered (F.remaining file)) }
{
    let Ok(writer) = KeptWriter::new(rt.alloc(), writer) else {
        return Err(no_memory());
    };
    let mut trace = Vec::new(rt.alloc());
    let file = KeptReader::new(file, &mut trace);
    match race_buffered(rt, rt.alloc(), file, writer, &Open, ordered) {
        Ok((outcome, writer)) => {
            let fault = fault_reported(writer.last_line());
            report_beside(rt, path, trace.as_slice(), fault, true)?;
            Ok(outcome)
        }
        Err((halted, _writer)) => Err(halted),
    }
}

/// Audits a trace. If `legal`, the report says why the state that the words say isn't legal.
pub fn audited<R: AllocGlobal + Print + Eprint, F: io::Read + Drop>(
    rt: &R,
    path: &str,
    legal: bool,
    output: Output,
    file: F,
) -> Result<Outcome, Halted>
    ensures { IfOk result (HasAuditReport legal (F.remaining file)) }
{
    match output {
        Output::Report => audited_to(rt, path, legal, file, io::writer(rt)),
        Output::Json => audited_to(rt, path, legal, file, json_lines(rt)),
        Output::Nothing => audited_to(rt, path, legal, file, io::sink()),
    }
}

fn audited_to<R: AllocGlobal + Eprint, F: io::Read + Drop, W: io::Write + Drop>(
    rt: &R,
    path: &str,
    legal: bool,
    file: F,
    writer: W,
) -> Result<Outcome, Halted>
    ensures { IfOk result (HasAuditReport legal (F.remaining file)) }
{
    let Ok(writer) = KeptWriter::new(rt.alloc(), writer) else {
        return Err(no_memory());
    };
    let mut trace = Vec::new(rt.alloc());
    let file = KeptReader::new(file, &mut trace);
    match audit_buffered(rt.alloc(), rt.alloc(), file, writer, legal) {
        Ok((outcome, writer)) => {
            let fault = fault_reported(writer.last_line());
            report_beside(rt, path, trace.as_slice(), fault, false)?;
            Ok(outcome)
        }
        Err(stopped) => Err(halted(stopped)),
    }
}

/// Why a replay or an audit stopped, as a race says it.
fn halted<W: Drop>(stopped: Stopped<W>) -> Halted
    ensures { result.fault ≡ RaceFault.Engine stopped.fault }
{
    let Stopped {
        fault,
        cause,
        writer: _,
    } = stopped;
    Halted {
        fault: RaceFault::Engine(fault),
        cause,
    }
}
