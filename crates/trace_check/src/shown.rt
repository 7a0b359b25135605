//! What lines report, as expectations have it.
ghost use Rattle.std.specs.Prelude.{◌≡◌, [], IfOk, Some, map, string_bytes};
ghost use Rattle.std.specs.List.{list_any};
ghost use Rattle.trace_check.specs.Shown.{is_boot_or_fault as is_boot_or_fault_line, is_plain as is_plain_line, shown as shown_by, shown_all as shown_all_by, shown_response};
ghost use Rattle.trace_check.specs.View.{told_in};

use ghost_judge::text::Judgement;
use std::alloc::{AllocError, Global};
use std::fmt;
use trace_lines::Response;
use trace_text::ReportLine;

/// A response as an expectation has it.
#[derive(Clone, Copy)]
struct ExpectedResponse(Response);

impl fmt::Display for ExpectedResponse {
    ghost output = { λ shown. Some (shown_response shown.0) };

    fn fmt<W: fmt::Write>(&self, f: &mut fmt::Formatter<W>) -> fmt::Result {
        match self.0 {
            Response::Step { reply, .. } => fmt::Display::fmt(&reply, f),
            Response::Boot { host, hyp, free } => {
                fmt::Display::fmt(&Response::Boot { host, hyp, free }, f)
            }
            Response::Word(word) => fmt::Display::fmt(&Response::Word(word), f),
            Response::Free(free) => fmt::Display::fmt(&Response::Free(free), f),
            Response::Run(run) => fmt::Display::fmt(&Response::Run(run), f),
        }
    }
}

/// A line of a report as an expectation has it: a step's without line and CPU, a fault's without its line.
#[derive(Clone, Copy)]
struct Expected(ReportLine);

impl fmt::Display for Expected {
    ghost output = { λ shown. Some (shown_by shown.0) };

    fn fmt<W: fmt::Write>(&self, f: &mut fmt::Formatter<W>) -> fmt::Result {
        match self.0 {
            ReportLine::Response(response) => fmt::Display::fmt(&ExpectedResponse(response), f),
            ReportLine::Judged(found) => fmt::Display::fmt(&Judgement(found), f),
            ReportLine::Audited(found) => fmt::Display::fmt(&found, f),
            ReportLine::Illegal(why) => fmt::Display::fmt(&ReportLine::Illegal(why), f),
            ReportLine::Fault { fault, .. } => write!(f, "fault {fault}"),
            ReportLine::End {
                steps,
                disagreements,
            } => fmt::Display::fmt(
                &ReportLine::End {
                    steps,
                    disagreements,
                },
                f,
            ),
        }
    }
}

/// What a line of a report says, as an expectation has it.
pub fn shown(global: Global, told: ReportLine) -> Result<String, AllocError>
    ensures { IfOk result (λ text. string_bytes text ≡ shown_by told) }
{
    format!(in global; "{}", Expected(told))
}

/// What must be expected of a line that reports these.
pub(crate) fn shown_all(global: Global, reported: &[ReportLine]) -> Result<Vec<String>, AllocError>
    ensures { IfOk result (λ texts. map string_bytes texts.items ≡ shown_all_by reported.now) }
{
    if reported.is_empty() {
        return nothing(global);
    }
    shown_each(global, reported)
}

/// What must be expected of a line that reports no line.
fn nothing(global: Global) -> Result<Vec<String>, AllocError>
    ensures { IfOk result (λ texts. map string_bytes texts.items ≡ shown_all_by []) }
{
    let mut texts = Vec::new(global);
    texts.push(String::from_str(global, "nothing")?)?;
    Ok(texts)
}

/// What each line of a report says.
pub(crate) fn shown_each(global: Global, reported: &[ReportLine]) -> Result<Vec<String>, AllocError>
    ensures { IfOk result (λ texts. map string_bytes texts.items ≡ map shown_by reported.now) }
{
    let mut texts = Vec::new(global);
    for told in reported {
        texts.push(shown(global, *told)?)?;
    }
    Ok(texts)
}

/// Whether a line of a report is neither a fault nor a disagreement.
pub(crate) fn is_plain(told: ReportLine) -> bool
    ensures { result ≡ is_plain_line told }
{
    matches!(told, ReportLine::Response(_) | ReportLine::End { .. })
}

fn is_boot_or_fault(told: ReportLine) -> bool
    ensures { result ≡ is_boot_or_fault_line told }
{
    matches!(
        told,
        ReportLine::Response(Response::Boot { .. }) | ReportLine::Fault { .. }
    )
}

/// Whether the machine booted, or a fault says why it didn't.
pub(crate) fn has_begun(told: &[Vec<ReportLine>]) -> bool
    ensures { result ≡ list_any (list_any is_boot_or_fault_line) (told_in told.now) }
{
    for reported in told {
        if reports_begun(reported.as_slice()) {
            return true;
        }
    }
    false
}

/// Whether a line of the trace reported a boot or a fault.
fn reports_begun(reported: &[ReportLine]) -> bool
    ensures { result ≡ list_any is_boot_or_fault_line reported.now }
{
    reported.iter().any(|told| is_boot_or_fault(*told))
}
