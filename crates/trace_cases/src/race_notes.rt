//! Filling in the expectations of steps that may be made in any order.
ghost use Rattle.std.specs.Prelude.{◌≡◌, ◌≤◌, [], IfOk, OnOk, is_some, length, map, if◌then◌else◌};
ghost use Rattle.trace_cases.specs.RaceChecks.{note_of, notes_from, race_recorded as race_recorded_by, race_recorded_at, race_text as race_text_by};
ghost use Rattle.trace_check.specs.Expectations.{expectation as expectation_in};
ghost use Rattle.trace_check.specs.View.{AddsLines, lines_in, told_in};
ghost use Rattle.trace_reader.specs.Reading.{lines_of};

use race_outcomes::Outcome;
use std::alloc::{AllocError, Global};
use trace_check::{add_recorded, add_rest, expectation, text_of_lines};
use trace_outcomes::{add_kinds, kinds_at};
use trace_race::Asked;
use trace_text::ReportLine;

/// The trace of these lines with its expectations filled in, from the reports of the lines, and from all replies that
/// the steps after `start` may get.
pub(crate) fn race_text(
    global: Global,
    trace: &[u8],
    lines: &[&[u8]],
    told: &[Vec<ReportLine>],
    steps: &[Asked],
    found: &[Outcome],
) -> Result<Vec<u8>, AllocError>
    requires few { length told.now ≤ length lines.now }
    requires lines { map (λ line. line.now) lines.now ≡ lines_of trace.now }
    ensures { IfOk result
        (λ text. text.items ≡ race_text_by trace.now steps.now found.now (told_in told.now)) }
{
    let recorded = race_recorded(global, lines, told, steps, found)?;
    text_of_lines(global, trace, recorded.as_slice())
}

/// The lines of the recorded trace.
fn race_recorded(
    global: Global,
    lines: &[&[u8]],
    told: &[Vec<ReportLine>],
    steps: &[Asked],
    found: &[Outcome],
) -> Result<Vec<Vec<u8>>, AllocError>
    requires { length told.now ≤ length lines.now }
    ensures { IfOk result
        (λ recorded. lines_in recorded.items
        ≡ race_recorded_by steps.now found.now 1 (map (λ line. line.now) lines.now)
        (told_in told.now)) }
{
    let mut recorded = Vec::new(global);
    for (place, reported) in told.iter().enumerate() {
        let number = place as u64 + 1;
        add_line(
            &mut recorded,
            global,
            lines[place],
            reported.as_slice(),
            steps,
            found,
            number,
        )?;
    }
    add_rest(&mut recorded, global, &lines[told.len()..])?;
    Ok(recorded)
}

/// The line of a number, and its expectations.
fn add_line(
    recorded: &mut Vec<Vec<u8>>,
    global: Global,
    line: &[u8],
    reported: &[ReportLine],
    steps: &[Asked],
    found: &[Outcome],
    number: u64,
) -> Result<(), AllocError>
    ensures { OnOk result
        (AddsLines recorded.old recorded.new
        (race_recorded_at steps.now found.now number line.now reported.now)) }
{
    add_recorded(recorded, global, line, reported)?;
    add_notes(recorded, global, line, steps, found, number)
}

/// That of a step on it.
fn add_notes(
    recorded: &mut Vec<Vec<u8>>,
    global: Global,
    line: &[u8],
    steps: &[Asked],
    found: &[Outcome],
    number: u64,
) -> Result<(), AllocError>
    ensures { OnOk result
        (AddsLines recorded.old recorded.new
        (if is_some (expectation_in line.now) then []
        else notes_from found.now number 0 steps.now)) }
{
    if expectation(line).is_some() {
        return Ok(());
    }
    add_step(recorded, global, steps, found, number)
}

fn add_step(
    recorded: &mut Vec<Vec<u8>>,
    global: Global,
    steps: &[Asked],
    found: &[Outcome],
    number: u64,
) -> Result<(), AllocError>
    ensures { OnOk result (AddsLines recorded.old recorded.new (notes_from found.now number 0 steps.now)) }
{
    for place in 0..steps.len() {
        if steps[place].line == number {
            let kinds = kinds_at(global, found, place)?;
            return add_note(recorded, global, kinds.as_slice());
        }
    }
    Ok(())
}

/// The expectation of a step with these replies, if it is one.
fn add_note(
    recorded: &mut Vec<Vec<u8>>,
    global: Global,
    kinds: &[Vec<u8>],
) -> Result<(), AllocError>
    ensures { OnOk result (AddsLines recorded.old recorded.new (note_of (map (λ v. v.items) kinds.now))) }
{
    if kinds.is_empty() {
        return Ok(());
    }
    let mut note = Vec::from_slice(global, b"#= ")?;
    add_kinds(&mut note, kinds)?;
    if expectation(note.as_slice()).is_none() {
        return Ok(());
    }
    recorded.push(note)?;
    Ok(())
}
