//! The place of an audit's finding: after the report of the last line that isn't silent.
ghost use Rattle.std.specs.Prelude.{◌≡◌, ◌++◌, ◌≤◌, IfOk, OnOk, length, map};
ghost use Rattle.trace_cases.specs.Audits.{behind, last_spoken_line as last_spoken_line_by, with as with_by};
ghost use Rattle.trace_check.specs.View.{told_in};
ghost use Rattle.trace_text.specs.Oracles.{audited_lines};
ghost use Rattle.trace_words.specs.Words.{is_silent as is_silent_line};

use ghost_judge::disagreement::Disagreement;
use std::alloc::{AllocError, Global};
use trace_text::ReportLine;

/// The place of the last line that isn't silent; 0 if all are.
pub(crate) fn last_spoken_line(lines: &[&[u8]]) -> usize
    ensures { result ≡ last_spoken_line_by (map (λ line. line.now) lines.now) }
{
    let mut last = 0;
    for (place, line) in lines.iter().enumerate() {
        if !is_silent(line) {
            last = place;
        }
    }
    last
}

/// An empty line, and one that begins with `#`.
fn is_silent(line: &[u8]) -> bool
    ensures { result ≡ is_silent_line line.now }
{
    matches!(line, [] | [b'#', ..])
}

/// The reports of lines, with the audit's finding after the report of the line at a place.
pub(crate) fn with_found(
    global: Global,
    told: &[Vec<ReportLine>],
    last: usize,
    found: Option<Disagreement>,
) -> Result<Vec<Vec<ReportLine>>, AllocError>
    ensures told { IfOk result
        (λ all. told_in all.items ≡ behind 0 last (audited_lines found) (told_in told.now)) }
    ensures few { IfOk result (λ all. length all.items ≡ length told.now) }
{
    let mut all = Vec::new(global);
    for (place, reported) in told.iter().enumerate() {
        all.push(with(global, reported.as_slice(), place == last, found)?)?;
    }
    Ok(all)
}

/// The report of a line, followed by the audit's finding if it is the last.
fn with(
    global: Global,
    reported: &[ReportLine],
    is_last: bool,
    found: Option<Disagreement>,
) -> Result<Vec<ReportLine>, AllocError>
    ensures { IfOk result (λ all. all.items ≡ with_by is_last (audited_lines found) reported.now) }
{
    let mut all = Vec::from_slice(global, reported)?;
    if is_last {
        add_audited(&mut all, found)?;
    }
    Ok(all)
}

fn add_audited(told: &mut Vec<ReportLine>, found: Option<Disagreement>) -> Result<(), AllocError>
    ensures { OnOk result (told.new.items ≡ told.old.items ++ audited_lines found) }
{
    if let Some(found) = found {
        told.push(ReportLine::Audited(found))?;
    }
    Ok(())
}
