//! Filling a trace's expectations in.
ghost use Rattle.std.specs.Prelude.{◌≡◌, ◌≤◌, [], ◌∷◌, ◌++◌, IfOk, OnOk, length, map, string_bytes, if◌then◌else◌};
ghost use Rattle.trace_check.specs.Expectations.{comment as comment_of};
ghost use Rattle.trace_reader.specs.Reading.{lines_of};
ghost use Rattle.trace_check.specs.Records.{
  IsRecord,
  bytes_of as bytes_of_by,
  can_expect as can_expect_by,
  notes as notes_by,
  ends_empty as ends_empty_by,
  ends_expected as ends_expected_by,
  is_lacking as is_lacking_by,
  joined as joined_by,
  lacks_end as lacks_end_by,
  noted as noted_by,
  recorded as recorded_by,
  recorded_at as recorded_at_by,
  recorded_text,
  without_own,
};
ghost use Rattle.trace_check.specs.View.{AddsLines, lines_in, told_in};

use crate::carrying::{Carried, Watch, carry_out};
use crate::comment::is_expectation;
use crate::shown::shown_each;
use std::alloc::{AllocError, Allocator, Global};
use trace_reader::lines;
use trace_text::ReportLine;

/// The trace with its expectations filled in: after each line that reports something, its report. Expectations already
/// in the trace are left out, all other lines stay as they are, and so do those after a line with a fault. `alloc`
/// holds the tables of the trees. Err if memory was refused.
pub fn record<A: Allocator + Copy>(
    global: Global,
    alloc: A,
    trace: &[u8],
) -> Result<Vec<u8>, AllocError>
    ensures { IfOk result (λ text. IsRecord trace.now text.items) }
{
    let lines = lines(global, trace)?;
    let carried = carry_out(global, alloc, lines.as_slice(), Watch::AtEnd)?;
    let Carried { told, found: _ } = carried;
    record_reported(global, trace, lines.as_slice(), told.as_slice())
}

/// The trace of these lines with its expectations filled in, by what those that were carried out report.
pub fn record_reported(
    global: Global,
    trace: &[u8],
    lines: &[&[u8]],
    told: &[Vec<ReportLine>],
) -> Result<Vec<u8>, AllocError>
    requires few { length told.now ≤ length lines.now }
    requires lines { map (λ line. line.now) lines.now ≡ lines_of trace.now }
    ensures { IfOk result (λ text. text.items ≡ recorded_text trace.now (told_in told.now)) }
{
    let recorded = recorded(global, lines, told)?;
    text_of_lines(global, trace, recorded.as_slice())
}

/// The bytes of the lines that a trace is recorded as.
pub fn text_of_lines(
    global: Global,
    trace: &[u8],
    recorded: &[Vec<u8>],
) -> Result<Vec<u8>, AllocError>
    ensures { IfOk result
        (λ text. text.items
        ≡ joined_by (is_lacking_by trace.now (lines_in recorded.now))
        (lines_in recorded.now)) }
{
    let lacking = is_lacking(trace, recorded);
    joined(global, recorded, lacking)
}

/// The lines of the recorded trace.
fn recorded(
    global: Global,
    lines: &[&[u8]],
    told: &[Vec<ReportLine>],
) -> Result<Vec<Vec<u8>>, AllocError>
    requires { length told.now ≤ length lines.now }
    ensures { IfOk result
        (λ recorded. lines_in recorded.items
        ≡ recorded_by (map (λ line. line.now) lines.now) (told_in told.now)) }
{
    let mut recorded = Vec::new(global);
    for (place, reported) in told.iter().enumerate() {
        add_recorded(&mut recorded, global, lines[place], reported.as_slice())?;
    }
    add_rest(&mut recorded, global, &lines[told.len()..])?;
    Ok(recorded)
}

/// The lines after the one that ended the run, without its expectations.
pub fn add_rest(
    recorded: &mut Vec<Vec<u8>>,
    global: Global,
    lines: &[&[u8]],
) -> Result<(), AllocError>
    ensures { OnOk result
        (AddsLines recorded.old recorded.new (without_own (map (λ line. line.now) lines.now))) }
{
    for (place, line) in lines.iter().enumerate() {
        if !is_expectation(line) {
            return add_copies(recorded, global, &lines[place..]);
        }
    }
    Ok(())
}

/// Lines as they are.
fn add_copies(
    recorded: &mut Vec<Vec<u8>>,
    global: Global,
    lines: &[&[u8]],
) -> Result<(), AllocError>
    ensures { OnOk result (AddsLines recorded.old recorded.new (map (λ line. line.now) lines.now)) }
{
    for line in lines {
        recorded.push(Vec::from_slice(global, line)?)?;
    }
    Ok(())
}

/// A line, and its expectations.
pub fn add_recorded(
    recorded: &mut Vec<Vec<u8>>,
    global: Global,
    line: &[u8],
    reported: &[ReportLine],
) -> Result<(), AllocError>
    ensures { OnOk result (AddsLines recorded.old recorded.new (recorded_at_by line.now reported.now)) }
{
    if is_expectation(line) {
        return Ok(());
    }
    recorded.push(Vec::from_slice(global, line)?)?;
    add_noted(recorded, global, reported)
}

/// The expectations for the report of a line, if each note is an expectation.
fn add_noted(
    recorded: &mut Vec<Vec<u8>>,
    global: Global,
    reported: &[ReportLine],
) -> Result<(), AllocError>
    ensures { OnOk result (AddsLines recorded.old recorded.new (noted_by reported.now)) }
{
    let notes = notes(global, reported)?;
    add_expected(recorded, notes)?;
    Ok(())
}

/// The expectations of what a line reports.
fn notes(global: Global, reported: &[ReportLine]) -> Result<Vec<Vec<u8>>, AllocError>
    ensures { IfOk result (λ notes. lines_in notes.items ≡ notes_by reported.now) }
{
    let texts = shown_each(global, reported)?;
    comments(global, texts.as_slice())
}

/// Lines, if all of them are expectations.
fn add_expected(recorded: &mut Vec<Vec<u8>>, lines: Vec<Vec<u8>>) -> Result<(), AllocError>
    ensures { OnOk result
        (AddsLines recorded.old recorded.new
        (if can_expect_by (lines_in lines.items) then lines_in lines.items else [])) }
{
    if !can_expect(lines.as_slice()) {
        return Ok(());
    }
    add_all(recorded, lines)
}

/// The expectations of texts.
fn comments(global: Global, texts: &[String]) -> Result<Vec<Vec<u8>>, AllocError>
    ensures { IfOk result
        (λ comments. lines_in comments.items ≡ map comment_of (map string_bytes texts.now)) }
{
    let mut comments = Vec::new(global);
    for text in texts {
        comments.push(comment(global, text.as_bytes())?)?;
    }
    Ok(comments)
}

/// The expectation of a text.
fn comment(global: Global, text: &[u8]) -> Result<Vec<u8>, AllocError>
    ensures { IfOk result (λ comment. comment.items ≡ comment_of text.now) }
{
    let mut comment = Vec::from_slice(global, b"#= ")?;
    comment.extend_from_slice(text)?;
    Ok(comment)
}

/// Whether all of these lines are expectations.
fn can_expect(comments: &[Vec<u8>]) -> bool
    ensures { result ≡ can_expect_by (lines_in comments.now) }
{
    for line in comments {
        if !is_expectation(line.as_slice()) {
            return false;
        }
    }
    true
}

fn add_all(recorded: &mut Vec<Vec<u8>>, lines: Vec<Vec<u8>>) -> Result<(), AllocError>
    ensures { OnOk result (AddsLines recorded.old recorded.new (lines_in lines.items)) }
{
    for line in lines {
        recorded.push(line)?;
    }
    Ok(())
}

/// Whether the last line of a trace lacks its end.
fn lacks_end(trace: &[u8]) -> bool
    ensures { result ≡ lacks_end_by trace.now }
{
    match trace.last() {
        Some(byte) => *byte != b'\n',
        None => false,
    }
}

/// Whether the last of the lines that a trace is recorded as lacks its end.
fn is_lacking(trace: &[u8], lines: &[Vec<u8>]) -> bool
    ensures { result ≡ is_lacking_by trace.now (lines_in lines.now) }
{
    lacks_end(trace) && (!ends_expected(lines) && !ends_empty(lines))
}

/// Whether the last line has no byte, or there is none.
fn ends_empty(lines: &[Vec<u8>]) -> bool
    ensures { result ≡ ends_empty_by (lines_in lines.now) }
{
    match lines.last() {
        Some(line) => line.is_empty(),
        None => true,
    }
}

/// Whether the last line is an expectation.
fn ends_expected(lines: &[Vec<u8>]) -> bool
    ensures { result ≡ ends_expected_by (lines_in lines.now) }
{
    match lines.last() {
        Some(line) => is_expectation(line.as_slice()),
        None => false,
    }
}

/// The bytes of lines, each with its end, but the last without if `lacking`.
fn joined(global: Global, lines: &[Vec<u8>], lacking: bool) -> Result<Vec<u8>, AllocError>
    ensures { IfOk result (λ text. text.items ≡ joined_by lacking (lines_in lines.now)) }
{
    let mut text = bytes_of(global, lines)?;
    if lacking {
        let _end = text.pop();
    }
    Ok(text)
}

/// The bytes of lines, each with its end.
fn bytes_of(global: Global, lines: &[Vec<u8>]) -> Result<Vec<u8>, AllocError>
    ensures { IfOk result (λ text. text.items ≡ bytes_of_by (lines_in lines.now)) }
{
    let mut text = Vec::new(global);
    for line in lines {
        add_line(&mut text, line.as_slice())?;
    }
    Ok(text)
}

fn add_line(text: &mut Vec<u8>, line: &[u8]) -> Result<(), AllocError>
    ensures { OnOk result (text.new.items ≡ text.old.items ++ (line.now ++ 10 ∷ [])) }
{
    text.extend_from_slice(line)?;
    text.extend_from_slice(b"\n")?;
    Ok(())
}
