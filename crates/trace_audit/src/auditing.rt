//! Auditing a trace.
ghost use Rattle.std.specs.Prelude.{◌≡◌, ◌<◌, ◌^◌, ◌++◌, ◌∷◌, [], IfOk, OnErr, false, length, true};
ghost use Rattle.trace_audit.specs.Audited.{Ends, EndsTold, IsAuditBegun, IsAuditReported, RunsLine, found_lines, nothing_audited, told_lines, told_outcome};
ghost use Rattle.trace_audit.specs.View.{audited_of};
ghost use Rattle.trace_text.specs.Failures.{CountsReads, CountsWrites, ReportsWrite};
ghost use Rattle.trace_text.specs.Oracles.{audited_lines, illegal_lines};
ghost use Rattle.trace_text.specs.Played.{EndsWith, WritesFront};
ghost use Rattle.trace_text.specs.Ready.{IsReady};
ghost use Rattle.trace_text.specs.Replay.{outcome_of};
ghost use Rattle.trace_text.specs.View.{standing_of};

use crate::poked::Audit;
use ghost_judge::disagreement::Disagreement;
use ghost_legal::Unlawful;
use std::alloc::{Allocator, Global};
use table_tree::Reads;
use trace_reader::{EngineFault, Outcome, Source};
use trace_text::{
    Player, ReportLine, Sink, play_trace, report_answer, report_audited, report_end, report_illegal,
};

/// Reads a trace line by line, carries it out, also its pokes, and writes its report. No oracle looks at its steps: at
/// the end it compares the kept state once with a walk of all words, and reports the first difference; if `legal`, also
/// why the walked state isn't legal. `alloc` holds the tables of the trees. Err if the source or the sink failed, once,
/// or memory was refused: the text written until then is a beginning of the report.
pub fn audit<A: Allocator + Copy, S: Source, K: Sink>(
    global: Global,
    alloc: A,
    source: &mut S,
    sink: &mut K,
    legal: bool,
) -> Result<Outcome, EngineFault>
    ensures report { IfOk result
        (λ outcome. IsAuditReported A legal (S.remaining source.old) (K.contents sink.old)
        (K.contents sink.new) outcome) }
    ensures begun { OnErr result
        (IsAuditBegun A legal (S.remaining source.old) (K.contents sink.old)
        (K.contents sink.new)) }
    ensures reads { CountsReads (S.failures source.old) (S.failures source.new) result }
    ensures writes { CountsWrites (K.failures sink.old) (K.failures sink.new) result }
{
    if legal {
        audit_told(global, alloc, source, sink)
    } else {
        audit_found(global, alloc, source, sink)
    }
}

/// An audit that says nothing of legality.
fn audit_found<A: Allocator + Copy, S: Source, K: Sink>(
    global: Global,
    alloc: A,
    source: &mut S,
    sink: &mut K,
) -> Result<Outcome, EngineFault>
    ensures report { IfOk result
        (λ outcome. IsAuditReported A false (S.remaining source.old) (K.contents sink.old)
        (K.contents sink.new) outcome) }
    ensures begun { OnErr result
        (IsAuditBegun A false (S.remaining source.old) (K.contents sink.old)
        (K.contents sink.new)) }
    ensures reads { CountsReads (S.failures source.old) (S.failures source.new) result }
    ensures writes { CountsWrites (K.failures sink.old) (K.failures sink.new) result }
{
    let mut audit = Audit::new(global, alloc);
    let outcome = play_trace(global, &mut audit, source, sink);
    // The proof of a scope's end would go through all parts.
    drop(audit);
    outcome
}

/// An audit that also says why the walked state isn't legal.
fn audit_told<A: Allocator + Copy, S: Source, K: Sink>(
    global: Global,
    alloc: A,
    source: &mut S,
    sink: &mut K,
) -> Result<Outcome, EngineFault>
    ensures report { IfOk result
        (λ outcome. IsAuditReported A true (S.remaining source.old) (K.contents sink.old)
        (K.contents sink.new) outcome) }
    ensures begun { OnErr result
        (IsAuditBegun A true (S.remaining source.old) (K.contents sink.old)
        (K.contents sink.new)) }
    ensures reads { CountsReads (S.failures source.old) (S.failures source.new) result }
    ensures writes { CountsWrites (K.failures sink.old) (K.failures sink.new) result }
{
    let mut legal = LegalAudit::new(global, alloc);
    let outcome = play_trace(global, &mut legal, source, sink);
    // As in `audit_found`.
    drop(legal);
    outcome
}

impl<A: Allocator + Copy> Player for Audit<A> {
    ghost ready = { λ number audit. IsReady audit.session × ((standing_of audit.session).steps < number) };

    ghost does = { λ number line old answer new. RunsLine number line (audited_of old) answer
        (audited_of new) };

    ghost ends = { λ audit. Ends (audited_of audit) };

    fn play<K: Sink>(
        &mut self,
        number: u64,
        line: &[u8],
        sink: &mut K,
        text: &mut String,
    ) -> Result<Option<Outcome>, EngineFault> {
        let ran = self.run(number, line);
        report_answer(&self.session, sink, text, number, ran)
    }

    fn end<K: Sink>(&self, sink: &mut K, text: &mut String) -> Result<Outcome, EngineFault> {
        let Ok(found) = self.audited(&mut Reads::new()) else {
            return Err(EngineFault::NoMemory);
        };
        report_found(sink, text, self.session.steps(), found)
    }
}

/// What carries a trace out under `audit --legal`.
#[derive(Drop)]
pub(crate) struct LegalAudit<A: Allocator> {
    audit: Audit<A>,
}

impl<A: Allocator + Copy> LegalAudit<A> {
    pub(crate) fn new(global: Global, alloc: A) -> LegalAudit<A>
        ensures start { audited_of result.audit ≡ nothing_audited }
        ensures ready { IsReady result.audit.session }
    {
        LegalAudit {
            audit: Audit::new(global, alloc),
        }
    }
}

impl<A: Allocator + Copy> Player for LegalAudit<A> {
    ghost ready = { λ number legal. IsReady legal.audit.session
        × ((standing_of legal.audit.session).steps < number) };

    ghost does = { λ number line old answer new. RunsLine number line (audited_of old.audit) answer
        (audited_of new.audit) };

    ghost ends = { λ legal. EndsTold (audited_of legal.audit) };

    fn play<K: Sink>(
        &mut self,
        number: u64,
        line: &[u8],
        sink: &mut K,
        text: &mut String,
    ) -> Result<Option<Outcome>, EngineFault> {
        let ran = self.audit.run(number, line);
        report_answer(&self.audit.session, sink, text, number, ran)
    }

    fn end<K: Sink>(&self, sink: &mut K, text: &mut String) -> Result<Outcome, EngineFault> {
        let audit = &self.audit;
        let Ok(found) = audit.audited(&mut Reads::new()) else {
            return Err(EngineFault::NoMemory);
        };
        let Ok(why) = audit.unlawful() else {
            return Err(EngineFault::NoMemory);
        };
        report_told(sink, text, audit.session.steps(), found, why)
    }
}

/// Reports what an audit found, and ends the report of a trace that has `steps` step lines.
fn report_found<K: Sink>(
    sink: &mut K,
    text: &mut String,
    steps: u64,
    found: Option<Disagreement>,
) -> Result<Outcome, EngineFault>
    ensures ok { IfOk result
        (EndsWith (found_lines steps found) (outcome_of (length (audited_lines found)))
        (K.contents sink.old) (K.contents sink.new)) }
    ensures front { OnErr result
        (WritesFront (found_lines steps found) (K.contents sink.old) (K.contents sink.new)) }
    ensures counted { ReportsWrite (K.failures sink.old) (K.failures sink.new) result }
{
    report_audited(sink, text, found)?;
    report_end(sink, text, steps, u64::from(found.is_some()))
}

/// Reports what an audit found, and why the walked state isn't legal, and ends the report.
fn report_told<K: Sink>(
    sink: &mut K,
    text: &mut String,
    steps: u64,
    found: Option<Disagreement>,
    why: Option<Unlawful>,
) -> Result<Outcome, EngineFault>
    ensures ok { IfOk result
        (EndsWith (told_lines steps found why)
        (told_outcome why (outcome_of (length (audited_lines found)))) (K.contents sink.old)
        (K.contents sink.new)) }
    ensures front { OnErr result
        (WritesFront (told_lines steps found why) (K.contents sink.old) (K.contents sink.new)) }
    ensures counted { ReportsWrite (K.failures sink.old) (K.failures sink.new) result }
{
    report_audited(sink, text, found)?;
    report_why(sink, text, steps, u64::from(found.is_some()), why)
}

/// Reports why the walked state isn't legal, and ends the report of a trace with this number of differences.
fn report_why<K: Sink>(
    sink: &mut K,
    text: &mut String,
    steps: u64,
    differences: u64,
    why: Option<Unlawful>,
) -> Result<Outcome, EngineFault>
    ensures ok { IfOk result
        (EndsWith (illegal_lines why ++ ReportLine.End steps differences ∷ [])
        (told_outcome why (outcome_of differences)) (K.contents sink.old)
        (K.contents sink.new)) }
    ensures front { OnErr result
        (WritesFront (illegal_lines why ++ ReportLine.End steps differences ∷ [])
        (K.contents sink.old) (K.contents sink.new)) }
    ensures counted { ReportsWrite (K.failures sink.old) (K.failures sink.new) result }
{
    report_illegal(sink, text, why)?;
    let outcome = report_end(sink, text, steps, differences)?;
    Ok(with_why(why, outcome))
}

/// The outcome of an audit that has this one but for legality.
fn with_why(why: Option<Unlawful>, outcome: Outcome) -> Outcome
    ensures { result ≡ told_outcome why outcome }
{
    match why {
        Some(_) => Outcome::Disagreed,
        None => outcome,
    }
}
