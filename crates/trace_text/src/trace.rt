//! Replaying a trace.
ghost use Rattle.std.specs.Prelude.{◌≡◌, ◌<◌, ◌^◌, [], ◌∷◌, IfOk, OnErr, OnOk, map};
ghost use Rattle.trace_text.specs.Oracles.{agreed, audited_lines, illegal_lines, judged_lines, verdict_lines};
ghost use Rattle.trace_text.specs.Ready.{IsReady};
ghost use Rattle.trace_text.specs.Session.{RunsLine, at_start};
ghost use Rattle.std.specs.Io.KnownBytes.{Appends};
ghost use Rattle.trace_text.specs.Failures.{CountsReads, CountsWrites, ReportsWrite};
ghost use Rattle.trace_text.specs.Replay.{Ends, IsBegun, IsReplayed, outcome_of};
ghost use Rattle.trace_text.specs.Played.{EndsWith, Writes, WritesFront, reported_lines};
ghost use Rattle.trace_text.specs.Texts.{text_of_report};
ghost use Rattle.trace_text.specs.View.{answer_of, lines_reported, standing_of};

use crate::fault::Fault;
use crate::oracle::{GhostOracle, Oracle, Verdict};
use crate::player::{Player, play_trace};
use crate::report::ReportLine;
use crate::session::{Reported, Session, Stop};
use crate::sink::Sink;
use ghost_judge::disagreement::Disagreement;
use ghost_legal::Unlawful;
use maplets::Runs;
use std::alloc::{Allocator, Global};
use trace_lines::Response;
use trace_reader::{EngineFault, Failed, Outcome, Source};

/// Reads a trace line by line, carries it out, and writes its report. `alloc` holds the tables of the trees. A fault of
/// the trace ends the report, and the report of the lines before it remains. It reads ahead of the line that it carries
/// out. It judges each step by the model, and audits the state kept after it by a walk of every word; it finds no
/// disagreement. Err if the source or the sink failed, once, or memory was refused: the text written until then is a
/// beginning of the report.
pub fn replay<A: Allocator + Copy, S: Source, K: Sink>(
    global: Global,
    alloc: A,
    source: &mut S,
    sink: &mut K,
) -> Result<Outcome, EngineFault>
    ensures report { IfOk result
        (λ outcome. IsReplayed agreed (S.remaining source.old) (K.contents sink.old)
        (K.contents sink.new) outcome) }
    ensures begun { OnErr result
        (IsBegun agreed (S.remaining source.old) (K.contents sink.old) (K.contents sink.new)) }
    ensures reads { CountsReads (S.failures source.old) (S.failures source.new) result }
    ensures writes { CountsWrites (K.failures sink.old) (K.failures sink.new) result }
{
    replay_with(global, alloc, source, sink, &mut GhostOracle)
}

/// Replays a trace as `replay` does, and asks another oracle after each step. What it finds follows the step's line.
pub fn replay_with<A: Allocator + Copy, S: Source, K: Sink, O: Oracle>(
    global: Global,
    alloc: A,
    source: &mut S,
    sink: &mut K,
    oracle: &mut O,
) -> Result<Outcome, EngineFault>
    ensures report { IfOk result
        (λ outcome. IsReplayed O.gives (S.remaining source.old) (K.contents sink.old)
        (K.contents sink.new) outcome) }
    ensures begun { OnErr result
        (IsBegun O.gives (S.remaining source.old) (K.contents sink.old) (K.contents sink.new)) }
    ensures reads { CountsReads (S.failures source.old) (S.failures source.new) result }
    ensures writes { CountsWrites (K.failures sink.old) (K.failures sink.new) result }
{
    let mut replaying = Replaying::new(global, alloc, oracle);
    let outcome = play_trace(global, &mut replaying, source, sink);
    // As in `session::checked`.
    drop(replaying);
    outcome
}

/// What carries a trace out under `replay`: a session, and the oracle that is asked after each step.
#[derive(Drop)]
pub(crate) struct Replaying<'a, A: Allocator, O: Oracle> {
    session: Session<A>,
    oracle: &'a mut O,
}

impl<'a, A: Allocator + Copy, O: Oracle> Replaying<'a, A, O> {
    pub(crate) fn new(global: Global, alloc: A, oracle: &'a mut O) -> Replaying<'a, A, O>
        ensures start { standing_of result.session ≡ at_start }
        ensures ready { IsReady result.session }
    {
        Replaying {
            session: Session::new(global, alloc),
            oracle,
        }
    }
}

impl<'a, A: Allocator + Copy, O: Oracle> Player for Replaying<'a, A, O> {
    ghost ready = { λ number replay. IsReady replay.session × ((standing_of replay.session).steps < number) };

    ghost does = { λ number line old answer new. RunsLine O.gives number line
        (standing_of old.session) answer (standing_of new.session) };

    ghost ends = { λ replaying. Ends (standing_of replaying.session) };

    fn play<K: Sink>(
        &mut self,
        number: u64,
        line: &[u8],
        sink: &mut K,
        text: &mut String,
    ) -> Result<Option<Outcome>, EngineFault> {
        let ran = self.session.run(self.oracle, number, line);
        report_answer(&self.session, sink, text, number, ran)
    }

    fn end<K: Sink>(&self, sink: &mut K, text: &mut String) -> Result<Outcome, EngineFault> {
        report_end(
            sink,
            text,
            self.session.steps(),
            self.session.disagreements(),
        )
    }
}

/// Writes the answer of the line of a number, and gives the outcome if that ends the run.
pub fn report_answer<A: Allocator + Copy, K: Sink>(
    session: &Session<A>,
    sink: &mut K,
    text: &mut String,
    number: u64,
    ran: Result<Reported, Stop>,
) -> Result<Option<Outcome>, EngineFault>
    ensures ok { IfOk result
        (Writes number (answer_of session.now ran) (K.contents sink.old) (K.contents sink.new)) }
    ensures front { OnErr result
        (WritesFront (reported_lines number (answer_of session.now ran)) (K.contents sink.old)
        (K.contents sink.new)) }
    ensures counted { ReportsWrite (K.failures sink.old) (K.failures sink.new) result }
{
    match ran {
        Ok(reported) => {
            report_outcome(session, sink, text, reported)?;
            Ok(None)
        }
        Err(Stop::Fault(fault)) => {
            let outcome = faulted(sink, text, number, fault)?;
            Ok(Some(outcome))
        }
        Err(Stop::NoMemory) => Err(EngineFault::NoMemory),
    }
}

/// Writes what a line of the trace reports.
fn report_outcome<A: Allocator + Copy, K: Sink>(
    session: &Session<A>,
    sink: &mut K,
    text: &mut String,
    reported: Reported,
) -> Result<(), EngineFault>
    ensures ok { OnOk result
        (Appends (K.contents sink.old) (K.contents sink.new)
        (text_of_report (lines_reported session.now reported))) }
    ensures front { OnErr result
        (WritesFront (lines_reported session.now reported) (K.contents sink.old)
        (K.contents sink.new)) }
    ensures counted { ReportsWrite (K.failures sink.old) (K.failures sink.new) result }
{
    match reported {
        Reported::Nothing => Ok(()),
        Reported::Line(told) => tell(sink, text, ReportLine::Response(told)),
        Reported::Step(told, verdict) => report_step(sink, text, told, verdict),
        Reported::Maplets(tree) => match session.maplets(tree) {
            Some(maplets) => report_runs(sink, text, maplets.iter()),
            None => Ok(()),
        },
    }
}

/// Writes the line of a step, and what the oracle found at it.
fn report_step<K: Sink>(
    sink: &mut K,
    text: &mut String,
    told: Response,
    verdict: Verdict,
) -> Result<(), EngineFault>
    ensures ok { OnOk result
        (Appends (K.contents sink.old) (K.contents sink.new)
        (text_of_report (ReportLine.Response told ∷ verdict_lines verdict))) }
    ensures front { OnErr result
        (WritesFront (ReportLine.Response told ∷ verdict_lines verdict) (K.contents sink.old)
        (K.contents sink.new)) }
    ensures counted { ReportsWrite (K.failures sink.old) (K.failures sink.new) result }
{
    tell(sink, text, ReportLine::Response(told))?;
    report_verdict(sink, text, verdict)
}

/// Writes what the oracle found at a step.
fn report_verdict<K: Sink>(
    sink: &mut K,
    text: &mut String,
    verdict: Verdict,
) -> Result<(), EngineFault>
    ensures ok { OnOk result
        (Appends (K.contents sink.old) (K.contents sink.new)
        (text_of_report (verdict_lines verdict))) }
    ensures front { OnErr result
        (WritesFront (verdict_lines verdict) (K.contents sink.old) (K.contents sink.new)) }
    ensures counted { ReportsWrite (K.failures sink.old) (K.failures sink.new) result }
{
    report_judged(sink, text, verdict.judged)?;
    report_audited(sink, text, verdict.audited)
}

/// Writes what a judgement found, if anything.
fn report_judged<K: Sink>(
    sink: &mut K,
    text: &mut String,
    found: Option<Disagreement>,
) -> Result<(), EngineFault>
    ensures ok { OnOk result
        (Appends (K.contents sink.old) (K.contents sink.new)
        (text_of_report (judged_lines found))) }
    ensures front { OnErr result (WritesFront (judged_lines found) (K.contents sink.old) (K.contents sink.new)) }
    ensures counted { ReportsWrite (K.failures sink.old) (K.failures sink.new) result }
{
    match found {
        Some(found) => tell(sink, text, ReportLine::Judged(found)),
        None => Ok(()),
    }
}

/// Writes what an audit found, if anything.
pub fn report_audited<K: Sink>(
    sink: &mut K,
    text: &mut String,
    found: Option<Disagreement>,
) -> Result<(), EngineFault>
    ensures ok { OnOk result
        (Appends (K.contents sink.old) (K.contents sink.new)
        (text_of_report (audited_lines found))) }
    ensures front { OnErr result (WritesFront (audited_lines found) (K.contents sink.old) (K.contents sink.new)) }
    ensures counted { ReportsWrite (K.failures sink.old) (K.failures sink.new) result }
{
    match found {
        Some(found) => tell(sink, text, ReportLine::Audited(found)),
        None => Ok(()),
    }
}

/// Writes why the state that the words say isn't legal, if it isn't.
pub fn report_illegal<K: Sink>(
    sink: &mut K,
    text: &mut String,
    found: Option<Unlawful>,
) -> Result<(), EngineFault>
    ensures ok { OnOk result
        (Appends (K.contents sink.old) (K.contents sink.new)
        (text_of_report (illegal_lines found))) }
    ensures front { OnErr result (WritesFront (illegal_lines found) (K.contents sink.old) (K.contents sink.new)) }
    ensures counted { ReportsWrite (K.failures sink.old) (K.failures sink.new) result }
{
    match found {
        Some(why) => tell(sink, text, ReportLine::Illegal(why)),
        None => Ok(()),
    }
}

/// Writes a line for each run of maplets.
fn report_runs<K: Sink>(sink: &mut K, text: &mut String, runs: Runs<'_>) -> Result<(), EngineFault>
    ensures ok { OnOk result
        (Appends (K.contents sink.old) (K.contents sink.new)
        (text_of_report (map ReportLine.Response (map Response.Run runs.entry)))) }
    ensures front { OnErr result
        (WritesFront (map ReportLine.Response (map Response.Run runs.entry))
        (K.contents sink.old) (K.contents sink.new)) }
    ensures counted { ReportsWrite (K.failures sink.old) (K.failures sink.new) result }
{
    for run in runs {
        tell(sink, text, ReportLine::Response(Response::Run(run)))?;
    }
    Ok(())
}

/// Writes a line of the report, which is made in `text` first.
pub fn tell<K: Sink>(sink: &mut K, text: &mut String, told: ReportLine) -> Result<(), EngineFault>
    ensures ok { OnOk result
        (Appends (K.contents sink.old) (K.contents sink.new) (text_of_report (told ∷ []))) }
    ensures front { OnErr result (WritesFront (told ∷ []) (K.contents sink.old) (K.contents sink.new)) }
    ensures counted { ReportsWrite (K.failures sink.old) (K.failures sink.new) result }
{
    text.clear();
    text.write(told).map_err(|_| EngineFault::NoMemory)?;
    text.push('\n').map_err(|_| EngineFault::NoMemory)?;
    match sink.write(text.as_bytes()) {
        Ok(()) => Ok(()),
        Err(Failed) => Err(EngineFault::Write),
    }
}

/// Ends the report of a whole trace: its numbers of step lines and of disagreements.
pub fn report_end<K: Sink>(
    sink: &mut K,
    text: &mut String,
    steps: u64,
    disagreements: u64,
) -> Result<Outcome, EngineFault>
    ensures ok { IfOk result
        (EndsWith (ReportLine.End steps disagreements ∷ []) (outcome_of disagreements)
        (K.contents sink.old) (K.contents sink.new)) }
    ensures front { OnErr result
        (WritesFront (ReportLine.End steps disagreements ∷ []) (K.contents sink.old)
        (K.contents sink.new)) }
    ensures counted { ReportsWrite (K.failures sink.old) (K.failures sink.new) result }
{
    let told = ReportLine::End {
        steps,
        disagreements,
    };
    tell(sink, text, told)?;
    Ok(if disagreements == 0 {
        Outcome::Clean
    } else {
        Outcome::Disagreed
    })
}

/// Ends the report with a fault.
pub fn faulted<K: Sink>(
    sink: &mut K,
    text: &mut String,
    line: u64,
    fault: Fault,
) -> Result<Outcome, EngineFault>
    ensures ok { IfOk result
        (EndsWith (ReportLine.Fault line fault ∷ []) Outcome.Fault (K.contents sink.old)
        (K.contents sink.new)) }
    ensures front { OnErr result
        (WritesFront (ReportLine.Fault line fault ∷ []) (K.contents sink.old)
        (K.contents sink.new)) }
    ensures counted { ReportsWrite (K.failures sink.old) (K.failures sink.new) result }
{
    tell(sink, text, ReportLine::Fault { line, fault })?;
    Ok(Outcome::Fault)
}
