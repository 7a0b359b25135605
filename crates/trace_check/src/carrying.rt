//! Carrying a trace out, and keeping the reports of its lines.
ghost use Rattle.std.specs.Prelude.{◌≡◌, ◌<◌, ◌≤◌, ◌+◌, ◌^◌, ◌∷◌, [], ◌++◌, IfOk, None, OnOk, map};
ghost use Rattle.trace_check.specs.Runs.{Runs as RunsBy};
ghost use Rattle.trace_check.specs.View.{told_in};
ghost use Rattle.trace_check.specs.declared.carrying.Watch.TheVariants.{EachStep};
ghost use Rattle.trace_text.specs.Looks.{Looks};
ghost use Rattle.trace_text.specs.Oracles.{agreed, audited_lines, judged_lines, verdict_lines};
ghost use Rattle.trace_text.specs.Ready.{IsReady};
ghost use Rattle.trace_text.specs.Session.{RunsLine, at_start};
ghost use Rattle.trace_text.specs.View.{answer_of, lines_reported, standing_of};

use ghost_judge::disagreement::Disagreement;
use maplets::Runs;
use std::alloc::{AllocError, Allocator, Global};
use table_tree::Reads;
use trace_lines::Response;
use trace_text::{
    Fault, GhostOracle, MOST_LINES, NoOracle, ReportLine, Reported, Session, Stop, Verdict,
};

/// When an oracle looks at the kept state.
#[derive(Clone, Copy, PartialEq)]
pub enum Watch {
    /// After each step, as in `replay`.
    EachStep,
    /// Once, after the last line.
    AtEnd,
}

/// What the lines of a trace reported.
#[derive(Drop)]
pub struct Carried {
    /// Of each line that was carried out. A fault is the last.
    pub told: Vec<Vec<ReportLine>>,
    /// Where the kept state at the end isn't what a walk of all words finds.
    pub found: Option<Disagreement>,
}

/// Carries the lines of a trace out. `alloc` holds the tables of the trees.
pub fn carry_out<A: Allocator + Copy>(
    global: Global,
    alloc: A,
    lines: &[&[u8]],
    watch: Watch,
) -> Result<Carried, AllocError>
    ensures told { IfOk result
        (λ carried. RunsBy 1 at_start (map (λ line. line.now) lines.now)
        (told_in carried.told.items)) }
    ensures found { IfOk result (λ carried. carried.found ≡ None) }
{
    let mut session = Session::new(global, alloc);
    let carried = carry_to_end(global, &mut session, lines, watch);
    // The proof of a scope's end would go through all parts.
    drop(session);
    carried
}

fn carry_to_end<A: Allocator + Copy>(
    global: Global,
    session: &mut Session<A>,
    lines: &[&[u8]],
    watch: Watch,
) -> Result<Carried, AllocError>
    requires start { standing_of session.old ≡ at_start }
    requires ready { IsReady session.old }
    ensures told { IfOk result
        (λ carried. RunsBy 1 at_start (map (λ line. line.now) lines.now)
        (told_in carried.told.items)) }
    ensures found { IfOk result (λ carried. carried.found ≡ None) }
{
    let told = report_of_lines(global, session, lines, watch)?;
    let found = found_at_end(session, watch)?;
    Ok(Carried { told, found })
}

/// What the oracle finds that looks once.
fn found_at_end<A: Allocator + Copy>(
    session: &Session<A>,
    watch: Watch,
) -> Result<Option<Disagreement>, AllocError>
    ensures { IfOk result (λ found. found ≡ None) }
{
    match watch {
        Watch::EachStep => Ok(None),
        Watch::AtEnd => session.audited(&mut Reads::new()),
    }
}

/// What each line reports.
fn report_of_lines<A: Allocator + Copy>(
    global: Global,
    session: &mut Session<A>,
    lines: &[&[u8]],
    watch: Watch,
) -> Result<Vec<Vec<ReportLine>>, AllocError>
    requires start { standing_of session.old ≡ at_start }
    requires ready { IsReady session.old }
    ensures { IfOk result
        (λ told. RunsBy 1 at_start (map (λ line. line.now) lines.now) (told_in told.items)) }
{
    let mut told = Vec::new(global);
    for (place, line) in lines.iter().enumerate() {
        let number = place as u64 + 1;
        if number > MOST_LINES {
            told.push(report_of_fault(global, number, Fault::Lines)?)?;
            return Ok(told);
        }
        match run_line(session, number, line, watch) {
            Ok(reported) => told.push(lines_of_report(global, session, reported)?)?,
            Err(Stop::Fault(fault)) => {
                told.push(report_of_fault(global, number, fault)?)?;
                return Ok(told);
            }
            Err(Stop::NoMemory) => return Err(AllocError),
        }
    }
    Ok(told)
}

/// Carries one line out. Where each step is looked at, its count says so.
fn run_line<A: Allocator + Copy>(
    session: &mut Session<A>,
    number: u64,
    line: &[u8],
    watch: Watch,
) -> Result<Reported, Stop>
    requires few { (standing_of session.old).steps < 2 ^ 62 }
    requires ready { IsReady session.old }
    ensures done { RunsLine agreed number line.now (standing_of session.old) (answer_of session.new result)
        (standing_of session.new) }
    ensures steps { (standing_of session.new).steps ≤ (standing_of session.old).steps + 1 }
    ensures looks { watch ≡ EachStep → Looks session.old session.new }
    ensures ready { IsReady session.new }
{
    match watch {
        Watch::EachStep => session.run(&mut GhostOracle, number, line),
        Watch::AtEnd => session.run(&mut NoOracle, number, line),
    }
}

/// The fault of the line of a number.
pub fn report_of_fault(
    global: Global,
    number: u64,
    fault: Fault,
) -> Result<Vec<ReportLine>, AllocError>
    ensures { IfOk result (λ told. told.items ≡ ReportLine.Fault number fault ∷ []) }
{
    let line = number;
    Vec::from_slice(global, &[ReportLine::Fault { line, fault }])
}

/// The lines of the report that a line makes.
pub fn lines_of_report<A: Allocator + Copy>(
    global: Global,
    session: &Session<A>,
    reported: Reported,
) -> Result<Vec<ReportLine>, AllocError>
    ensures { IfOk result (λ told. told.items ≡ lines_reported session.now reported) }
{
    match reported {
        Reported::Nothing => Ok(Vec::new(global)),
        Reported::Line(line) => Vec::from_slice(global, &[ReportLine::Response(line)]),
        Reported::Step(line, verdict) => report_of_step(global, line, verdict),
        Reported::Maplets(tree) => match session.maplets(tree) {
            Some(maplets) => report_of_runs(global, maplets.iter()),
            None => Ok(Vec::new(global)),
        },
    }
}

/// The line of a step, and what the oracle found at it.
fn report_of_step(
    global: Global,
    line: Response,
    verdict: Verdict,
) -> Result<Vec<ReportLine>, AllocError>
    ensures { IfOk result (λ told. told.items ≡ ReportLine.Response line ∷ verdict_lines verdict) }
{
    let mut told = Vec::from_slice(global, &[ReportLine::Response(line)])?;
    add_judged(&mut told, verdict.judged)?;
    add_audited(&mut told, verdict.audited)?;
    Ok(told)
}

fn add_judged(told: &mut Vec<ReportLine>, found: Option<Disagreement>) -> Result<(), AllocError>
    ensures { OnOk result (told.new.items ≡ told.old.items ++ judged_lines found) }
{
    if let Some(found) = found {
        told.push(ReportLine::Judged(found))?;
    }
    Ok(())
}

fn add_audited(told: &mut Vec<ReportLine>, found: Option<Disagreement>) -> Result<(), AllocError>
    ensures { OnOk result (told.new.items ≡ told.old.items ++ audited_lines found) }
{
    if let Some(found) = found {
        told.push(ReportLine::Audited(found))?;
    }
    Ok(())
}

/// A line for each run of maplets.
fn report_of_runs(global: Global, runs: Runs<'_>) -> Result<Vec<ReportLine>, AllocError>
    ensures { IfOk result (λ told. told.items ≡ map ReportLine.Response (map Response.Run runs.entry)) }
{
    let mut told = Vec::new(global);
    for run in runs {
        told.push(ReportLine::Response(Response::Run(run)))?;
    }
    Ok(told)
}
