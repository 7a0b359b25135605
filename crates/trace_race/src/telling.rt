//! The lines of a race's report.
ghost use Rattle.std.specs.Prelude.{◌≡◌, ◌<◌, ◌^◌, ◌+◌, ◌++◌, ◌∷◌, [], IfOk, OnOk, OnErr, length, map};
ghost use Rattle.std.specs.Io.KnownBytes.{Appends};
ghost use Rattle.trace_race.specs.Raced.{WritesTextFront, found_outcome, found_text, step_lines as step_lines_of};
ghost use Rattle.trace_race.specs.Told.{EndsWith};
ghost use Rattle.trace_text.specs.Failures.{ReportsWrite};
ghost use Rattle.trace_text.specs.Played.{WritesFront};
ghost use Rattle.trace_text.specs.Texts.{text_of_report};

use crate::course::Asked;
use call_table::Reply;
use ghost_judge::disagreement::Disagreement;
use std::alloc::{AllocError, Global};
use trace_lines::Response;
use trace_reader::{EngineFault, Failed, Outcome};
use trace_text::{ReportLine, Sink, report_audited, report_end, tell};

/// Tells the lines of all steps, one after another.
pub(crate) fn report_steps<K: Sink>(
    sink: &mut K,
    text: &mut String,
    steps: &[Asked],
    replies: &[Reply],
) -> Result<(), EngineFault>
    requires count { length replies.now ≡ length steps.now }
    ensures ok { OnOk result
        (Appends (K.contents sink.old) (K.contents sink.new)
        (text_of_report (step_lines_of steps.now replies.now))) }
    ensures front { OnErr result
        (WritesFront (step_lines_of steps.now replies.now) (K.contents sink.old)
        (K.contents sink.new)) }
    ensures counted { ReportsWrite (K.failures sink.old) (K.failures sink.new) result }
{
    for i in 0..steps.len() {
        tell(
            sink,
            text,
            ReportLine::Response(step_line(steps[i], replies[i])),
        )?;
    }
    Ok(())
}

/// The line of a step.
fn step_line(asked: Asked, reply: Reply) -> Response
    ensures { result ≡ Response.Step asked.line asked.cpu reply }
{
    Response::Step {
        line: asked.line,
        cpu: asked.cpu,
        reply,
    }
}

/// Tells what a judgement found, one after another.
fn report_judged<K: Sink>(
    sink: &mut K,
    text: &mut String,
    found: &[Disagreement],
) -> Result<(), EngineFault>
    ensures ok { OnOk result
        (Appends (K.contents sink.old) (K.contents sink.new)
        (text_of_report (map ReportLine.Judged found.now))) }
    ensures front { OnErr result
        (WritesFront (map ReportLine.Judged found.now) (K.contents sink.old)
        (K.contents sink.new)) }
    ensures counted { ReportsWrite (K.failures sink.old) (K.failures sink.new) result }
{
    for i in 0..found.len() {
        tell(sink, text, ReportLine::Judged(found[i]))?;
    }
    Ok(())
}

/// Writes the text of the order, or nothing if it is empty.
fn report_order<K: Sink>(sink: &mut K, order: &[u8]) -> Result<(), EngineFault>
    ensures ok { OnOk result (Appends (K.contents sink.old) (K.contents sink.new) order.now) }
    ensures front { OnErr result
        (WritesTextFront order.now (K.contents sink.old) (K.contents sink.new)) }
    ensures counted { ReportsWrite (K.failures sink.old) (K.failures sink.new) result }
{
    match sink.write(order) {
        Ok(()) => Ok(()),
        Err(Failed) => Err(EngineFault::Write),
    }
}

/// Reports what a judgement and an audit found, and the order, and ends the report of a trace that has `steps` step
/// lines.
pub(crate) fn report_found<K: Sink>(
    sink: &mut K,
    text: &mut String,
    judged: &[Disagreement],
    audited: Option<Disagreement>,
    order: &[u8],
    steps: u64,
) -> Result<Outcome, EngineFault>
    ensures ok { IfOk result
        (EndsWith (found_outcome judged.now audited)
        (found_text judged.now audited order.now steps) (K.contents sink.old)
        (K.contents sink.new)) }
    ensures front { OnErr result
        (WritesTextFront (found_text judged.now audited order.now steps)
        (K.contents sink.old) (K.contents sink.new)) }
    ensures counted { ReportsWrite (K.failures sink.old) (K.failures sink.new) result }
{
    report_judged(sink, text, judged)?;
    report_audited(sink, text, audited)?;
    report_order(sink, order)?;
    let disagreements = judged.len() as u64 + u64::from(audited.is_some());
    report_end(sink, text, steps, disagreements)
}
