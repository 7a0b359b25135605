//! The texts of `outcomes`, `check`, `explain` and `draw`, which are made of a whole trace in memory.
ghost use Rattle.std.specs.Prelude.{◌≡◌, IfOk, IfSome};
ghost use Rattle.trace_cli.specs.Status.{EndsAsDrawn, EndsAsReported, HasChecked, HasDrawn, HasExplained, HasOrder, HasOutcomes, outcome_of_check as outcome_of_clean, outcome_of_end};

use crate::telling::{no_memory, report_beside};
use report_json::{CHECKS, EXPLANATIONS, Form, JsonLines, OUTCOMES};
use std::io::{self, ErrorKind, Write};
use trace_check::Watch;
use trace_command::{Looks, Output};
use trace_draw::{Ended, draw, draw_text};
use trace_explain::explain;
use trace_outcomes::{report_order, report_outcomes};
use trace_race::{Halted, RaceFault};
use trace_reader::{EngineFault, Outcome, Progress};
use trace_text::Fault;
use trace_watches::check;

/// Finds all replies that the steps after `start` may get, and writes them.
pub fn outcomes_reported<R: AllocGlobal + Print + Eprint, F: io::Read + Drop, P: Progress>(
    rt: &R,
    path: &str,
    limit: u64,
    output: Output,
    file: F,
    progress: &P,
) -> Result<Outcome, Halted>
    ensures { IfOk result (HasOutcomes limit (F.remaining file)) }
{
    let trace = whole(rt, file)?;
    let answer = report_outcomes(rt.alloc(), trace.as_slice(), limit as usize, progress);
    progress.finish();
    let Ok(told) = answer else {
        return Err(no_memory());
    };
    show(rt, output, OUTCOMES, told.text.as_slice())?;
    report_beside(rt, path, trace.as_slice(), told.fault, true)?;
    Ok(told.outcome)
}

/// Writes whether some order of the steps after `start` gives the replies of a report.
pub fn order_reported<R: AllocGlobal + Print + Eprint, F: io::Read + Drop, P: Progress>(
    rt: &R,
    path: &str,
    name: &str,
    limit: u64,
    output: Output,
    file: F,
    report: F,
    progress: &P,
) -> Result<Outcome, Halted>
    ensures { IfOk result (HasOrder name.now limit (F.remaining file) (F.remaining report)) }
{
    let trace = whole(rt, file)?;
    let report = whole(rt, report)?;
    let answer = report_order(
        rt.alloc(),
        trace.as_slice(),
        name,
        report.as_slice(),
        limit as usize,
        progress,
    );
    progress.finish();
    let Ok(told) = answer else {
        return Err(no_memory());
    };
    show(rt, output, OUTCOMES, told.text.as_slice())?;
    report_beside(rt, path, trace.as_slice(), told.fault, true)?;
    Ok(told.outcome)
}

/// Checks a trace, and writes its misses.
pub fn checked<R: AllocGlobal + Print, F: io::Read + Drop>(
    rt: &R,
    path: &str,
    looks: Looks,
    output: Output,
    file: F,
) -> Result<Outcome, Halted>
    ensures { IfOk result (HasChecked path.now (F.remaining file)) }
{
    let trace = whole(rt, file)?;
    let watch = match looks {
        Looks::Each => Watch::EachStep,
        Looks::End => Watch::AtEnd,
    };
    let Ok(checked) = check(rt.alloc(), rt.alloc(), path, trace.as_slice(), watch) else {
        return Err(no_memory());
    };
    show(rt, output, CHECKS, checked.text.as_slice())?;
    Ok(outcome_of_check(checked.clean))
}

/// The outcome of a check.
fn outcome_of_check(clean: bool) -> Outcome
    ensures { result ≡ outcome_of_clean clean }
{
    if clean {
        Outcome::Clean
    } else {
        Outcome::Disagreed
    }
}

/// Explains a trace.
pub fn explained<R: AllocGlobal + Print + Eprint, F: io::Read + Drop>(
    rt: &R,
    path: &str,
    line: Option<u64>,
    output: Output,
    file: F,
) -> Result<Outcome, Halted>
    ensures { IfOk result (HasExplained path.now line (F.remaining file)) }
{
    let trace = whole(rt, file)?;
    let Ok(explained) = explain(rt.alloc(), rt.alloc(), path, trace.as_slice(), line) else {
        return Err(no_memory());
    };
    show(rt, output, EXPLANATIONS, explained.text.as_slice())?;
    // The text has the place of a fault itself.
    if explained.outcome == Outcome::Clean {
        report_beside(rt, path, trace.as_slice(), None, false)?;
    }
    Ok(explained.outcome)
}

/// Draws a trace, or writes the state at its end.
pub fn drawn<R: AllocGlobal + Print + Eprint, F: io::Read + Drop>(
    rt: &R,
    path: &str,
    text: bool,
    file: F,
) -> Result<Outcome, Halted>
    ensures { IfOk result (HasDrawn text (F.remaining file)) }
{
    let trace = whole(rt, file)?;
    if text {
        return written_out(rt, path, trace.as_slice());
    }
    pictured(rt, path, trace.as_slice())
}

/// Writes the state at the end of a trace.
fn written_out<R: AllocGlobal + Print + Eprint>(
    rt: &R,
    path: &str,
    trace: &[u8],
) -> Result<Outcome, Halted>
    ensures { IfOk result (EndsAsReported trace.now) }
{
    let Ok(drawing) = draw_text(rt.alloc(), rt.alloc(), trace) else {
        return Err(no_memory());
    };
    write(rt, drawing.text.as_bytes())?;
    report_beside(rt, path, trace, fault_of(drawing.ended), false)?;
    Ok(outcome_of(drawing.ended))
}

/// Writes the picture of a trace.
fn pictured<R: AllocGlobal + Print + Eprint>(
    rt: &R,
    path: &str,
    trace: &[u8],
) -> Result<Outcome, Halted>
    ensures { IfOk result (EndsAsDrawn trace.now) }
{
    let Ok(drawing) = draw(rt.alloc(), rt.alloc(), trace) else {
        return Err(no_memory());
    };
    write(rt, drawing.svg.as_bytes())?;
    report_beside(rt, path, trace, fault_of(drawing.ended), false)?;
    Ok(outcome_of(drawing.ended))
}

/// All bytes of a file.
pub fn whole<R: AllocGlobal, F: io::Read + Drop>(rt: &R, file: F) -> Result<Vec<u8>, Halted>
    ensures { IfOk result (λ trace. IfSome (F.remaining file) (λ all. trace.items ≡ all)) }
{
    let mut file = file;
    let mut trace = Vec::new(rt.alloc());
    match file.read_to_end(&mut trace) {
        Ok(_) => Ok(trace),
        Err(error) => {
            if error.kind() == ErrorKind::OutOfMemory {
                return Err(no_memory());
            }
            Err(Halted {
                fault: RaceFault::Engine(EngineFault::Read),
                cause: Some(error),
            })
        }
    }
}

/// Writes a report whose lines have these forms to standard output, or to nothing.
fn show<R: AllocGlobal + Print>(
    rt: &R,
    output: Output,
    forms: &'static [Form],
    text: &[u8],
) -> Result<(), Halted> {
    match output {
        Output::Report => write(rt, text),
        Output::Json => written(JsonLines::new(rt.alloc(), forms, io::writer(rt)).write_all(text)),
        Output::Nothing => Ok(()),
    }
}

/// Writes to standard output.
pub fn write<R: Print>(rt: &R, text: &[u8]) -> Result<(), Halted> {
    written(io::writer(rt).write_all(text))
}

/// The result of a write to standard output.
fn written(answer: io::Result<()>) -> Result<(), Halted> {
    match answer {
        Ok(()) => Ok(()),
        Err(error) => Err(Halted {
            fault: RaceFault::Engine(EngineFault::Write),
            cause: Some(error),
        }),
    }
}

/// The fault of a run that ended so.
fn fault_of(ended: Ended) -> Option<(u64, Fault)> {
    match ended {
        Ended::Clean => None,
        Ended::Fault { line, fault } => Some((line, fault)),
    }
}

/// How a run ended, as a report has it.
fn outcome_of(ended: Ended) -> Outcome
    ensures { result ≡ outcome_of_end ended }
{
    match ended {
        Ended::Clean => Outcome::Clean,
        Ended::Fault { line: _, fault: _ } => Outcome::Fault,
    }
}
