//! Carrying a trace out as an audit does, and keeping the reports of its lines.
ghost use Rattle.std.specs.Prelude.{◌≡◌, ◌≤◌, IfOk, length, map};
ghost use Rattle.trace_audit.specs.Audited.{nothing_audited};
ghost use Rattle.trace_audit.specs.View.{audited_of};
ghost use Rattle.trace_cases.specs.Audits.{IsAuditReported, Runs};
ghost use Rattle.trace_check.specs.View.{told_in};
ghost use Rattle.trace_text.specs.Ready.{IsReady};

use crate::found::{last_spoken_line, with_found};
use ghost_judge::disagreement::Disagreement;
use std::alloc::{AllocError, Allocator, Global};
use table_tree::Reads;
use trace_audit::Audit;
use trace_check::{lines_of_report, report_of_fault};
use trace_text::{Fault, MOST_LINES, ReportLine, Stop};

/// What the lines of a trace reported.
#[derive(Drop)]
struct Carried {
    /// Of each line that was carried out. A fault is the last.
    told: Vec<Vec<ReportLine>>,
    /// What the audit finds at the end; None after a fault.
    found: Option<Disagreement>,
}

/// The reports of the lines of a trace, with the audit's finding at the end. `alloc` holds the tables of the trees.
pub(crate) fn audited<A: Allocator + Copy>(
    global: Global,
    alloc: A,
    lines: &[&[u8]],
) -> Result<Vec<Vec<ReportLine>>, AllocError>
    ensures told { IfOk result
        (λ told. IsAuditReported A (map (λ line. line.now) lines.now) (told_in told.items)) }
    ensures few { IfOk result (λ told. length told.items ≤ length lines.now) }
{
    let carried = carry_out(global, alloc, lines)?;
    with_found(
        global,
        carried.told.as_slice(),
        last_spoken_line(lines),
        carried.found,
    )
}

/// Carries the lines of a trace out.
fn carry_out<A: Allocator + Copy>(
    global: Global,
    alloc: A,
    lines: &[&[u8]],
) -> Result<Carried, AllocError>
    ensures { IfOk result
        (λ carried. Runs {A = A} 1 nothing_audited (map (λ line. line.now) lines.now)
        (told_in carried.told.items) carried.found) }
{
    let mut audit = Audit::new(global, alloc);
    let carried = carry_to_end(global, &mut audit, lines);
    // The proof of a scope's end would go through all parts.
    drop(audit);
    carried
}

fn carry_to_end<A: Allocator + Copy>(
    global: Global,
    audit: &mut Audit<A>,
    lines: &[&[u8]],
) -> Result<Carried, AllocError>
    requires start { audited_of audit.old ≡ nothing_audited }
    requires ready { IsReady audit.old.session }
    ensures { IfOk result
        (λ carried. Runs {A = A} 1 nothing_audited (map (λ line. line.now) lines.now)
        (told_in carried.told.items) carried.found) }
{
    let mut told = Vec::new(global);
    for (place, line) in lines.iter().enumerate() {
        let number = place as u64 + 1;
        if number > MOST_LINES {
            told.push(report_of_fault(global, number, Fault::Lines)?)?;
            return Ok(Carried { told, found: None });
        }
        match audit.run(number, line) {
            Ok(reported) => told.push(lines_of_report(global, &audit.session, reported)?)?,
            Err(Stop::Fault(fault)) => {
                told.push(report_of_fault(global, number, fault)?)?;
                return Ok(Carried { told, found: None });
            }
            Err(Stop::NoMemory) => return Err(AllocError),
        }
    }
    let found = audit.audited(&mut Reads::new())?;
    Ok(Carried { told, found })
}
