//! Reading the report of a machine or of another hypervisor: its reply to each step of a trace.
ghost use Rattle.std.specs.Prelude.{◌≡◌, ◌<◌, ◌++◌, IfOk, OnOk, length, map};
ghost use Rattle.trace_reader.specs.Reading.{lines_of};
ghost use Rattle.trace_outcomes.specs.Noted.{IsCounted, IsNoted, IsReportOf};
ghost use Rattle.trace_outcomes.specs.Races.{texts_in};
ghost use Rattle.trace_outcomes.specs.Reports.{behind_space as behind_space_of, report_fault_text as report_fault_text_by, found_text, place_text as place_text_by, is_passed as is_passed_line, is_refusal as is_refusal_text, is_reply as is_reply_text, place_of as place_by, put as put_by, step_of_line as step_of_line_by, told_in, told_with, wanted_of as wanted_by};

use std::alloc::{AllocError, Global};
use std::mem;
use trace_race::Asked;
use trace_reader::lines;
use trace_words::{Words, decimal, is_name};

/// What reading a report came to.
#[derive(Drop)]
pub(crate) enum Report {
    /// The text of the reply to each step, if there is one.
    Texts(Vec<Option<Vec<u8>>>),
    /// The place of the first fault, with the text found and the form expected there.
    Fault(Vec<u8>),
}

/// Why a line of a report can't be read.
#[derive(Clone, Copy)]
enum ReportFault {
    /// It is none of a race's report.
    Form,
    /// It is of no step of the trace.
    NoStep,
    /// It has no reply.
    NoReply,
    /// A line before it is of the same step.
    Twice,
}

/// Whether a line is of no step: that of the boot, of a query, of the order or of the end.
fn is_passed(line: &[u8]) -> bool
    ensures { result ≡ is_passed_line line.now }
{
    let words = Words::of(line);
    let first = words.get(0).unwrap_or(b"");
    is_name(first, b"boot")
        || is_name(first, b"word")
        || is_name(first, b"free")
        || is_name(first, b"order")
        || is_name(first, b"end")
}

/// The text after the first space of a line; empty if it has none.
fn behind_space(line: &[u8]) -> &[u8]
    ensures { result.now ≡ behind_space_of line.now }
{
    for place in 0..line.len() {
        if line[place] == b' ' {
            return &line[place + 1..];
        }
    }
    b""
}

/// The line and the CPU of a step, at the front of a line.
fn step_of_line(line: &[u8]) -> Option<(u64, u64)>
    ensures { result ≡ step_of_line_by line.now }
{
    let words = Words::of(line);
    let number = decimal(words.get(0)?)?;
    let cpu = decimal(words.get(1)?)?;
    Some((number, cpu))
}

/// Whether a text may be a reply: `ok`, that with a value, or a refusal.
fn is_reply(text: &[u8]) -> bool
    ensures { result ≡ is_reply_text text.now }
{
    is_name(text, b"ok") || text.starts_with(b"ok ") || is_refusal(text)
}

fn is_refusal(text: &[u8]) -> bool
    ensures { result ≡ is_refusal_text text.now }
{
    is_name(text, b"perm")
        || is_name(text, b"novm")
        || is_name(text, b"nomemory")
        || is_name(text, b"busy")
        || is_name(text, b"invalid")
        || is_name(text, b"nopool")
        || is_name(text, b"logfull")
        || is_name(text, b"contended")
}

/// The place of the step of a line and a CPU.
fn place_of(steps: &[Asked], line: u64, cpu: u64) -> Option<usize>
    ensures { result ≡ place_by steps.now line cpu }
{
    steps
        .iter()
        .position(|asked| asked.line == line && asked.cpu == cpu)
}

/// Takes up a line of a report. Ok(Some) says why it can't be read.
fn read_line(
    global: Global,
    steps: &[Asked],
    line: &[u8],
    texts: &mut Vec<Option<Vec<u8>>>,
) -> Result<Option<ReportFault>, AllocError>
    requires { length texts.old.items ≡ length steps.now }
    ensures told { IfOk result
        (IsNoted (told_with steps.now (texts_in texts.old.items) line.now) texts.new.items) }
    ensures count { length texts.new.items ≡ length texts.old.items }
{
    if is_passed(line) {
        return Ok(None);
    }
    let Some((number, cpu)) = step_of_line(line) else {
        return Ok(Some(ReportFault::Form));
    };
    let Some(place) = place_of(steps, number, cpu) else {
        return Ok(Some(ReportFault::NoStep));
    };
    put(global, place, behind_space(behind_space(line)), texts)
}

/// Notes the reply to the step at a place.
fn put(
    global: Global,
    place: usize,
    text: &[u8],
    texts: &mut Vec<Option<Vec<u8>>>,
) -> Result<Option<ReportFault>, AllocError>
    requires { place < length texts.old.items }
    ensures told { IfOk result (IsNoted (put_by (texts_in texts.old.items) place text.now) texts.new.items) }
    ensures count { length texts.new.items ≡ length texts.old.items }
{
    if !is_reply(text) {
        return Ok(Some(ReportFault::NoReply));
    }
    if texts[place].is_some() {
        return Ok(Some(ReportFault::Twice));
    }
    let text = Vec::from_slice(global, text)?;
    drop(mem::replace(&mut texts[place], Some(text)));
    Ok(None)
}

/// Reads all lines of a report. `name` is its file's, for the place of a fault.
pub(crate) fn read_report(
    global: Global,
    name: &str,
    report: &[u8],
    steps: &[Asked],
    texts: Vec<Option<Vec<u8>>>,
) -> Result<Report, AllocError>
    requires { length texts.items ≡ length steps.now }
    ensures told { IfOk result
        (IsReportOf (told_in name.now steps.now 1 (texts_in texts.items) (lines_of report.now))) }
    ensures count { IfOk result (IsCounted (length steps.now)) }
{
    let lines = lines(global, report)?;
    read_lines(global, name, lines.as_slice(), steps, texts)
}

fn read_lines(
    global: Global,
    name: &str,
    lines: &[&[u8]],
    steps: &[Asked],
    texts: Vec<Option<Vec<u8>>>,
) -> Result<Report, AllocError>
    requires { length texts.items ≡ length steps.now }
    ensures told { IfOk result
        (IsReportOf
        (told_in name.now steps.now 1 (texts_in texts.items)
        (map (λ line. line.now) lines.now))) }
    ensures count { IfOk result (IsCounted (length steps.now)) }
{
    let mut texts = texts;
    for place in 0..lines.len() {
        if let Some(fault) = read_line(global, steps, lines[place], &mut texts)? {
            let said = report_fault_text(global, name, place as u64 + 1, lines[place], fault)?;
            return Ok(Report::Fault(said));
        }
    }
    Ok(Report::Texts(texts))
}

/// The form expected of a line that has this fault.
fn wanted_of(fault: ReportFault) -> &'static str
    ensures { result.now ≡ wanted_by fault }
{
    match fault {
        ReportFault::Form => "a line of a race's report",
        ReportFault::NoStep => "the line and the CPU of a step of the trace",
        ReportFault::NoReply => "a reply behind line and CPU",
        ReportFault::Twice => "a step of which no line before this tells",
    }
}

/// The line for the place of a fault.
fn report_fault_text(
    global: Global,
    name: &str,
    number: u64,
    line: &[u8],
    fault: ReportFault,
) -> Result<Vec<u8>, AllocError>
    ensures { IfOk result (λ said. said.items ≡ report_fault_text_by name.now number line.now fault) }
{
    let mut said = place_text(global, name, number)?;
    add_found(&mut said, line, wanted_of(fault))?;
    Ok(said)
}

fn place_text(global: Global, name: &str, number: u64) -> Result<Vec<u8>, AllocError>
    ensures { IfOk result (λ said. said.items ≡ place_text_by name.now number) }
{
    let place = format!(in global; ":{number}:1: ")?;
    let mut said = Vec::from_slice(global, name.as_bytes())?;
    said.extend_from_slice(place.as_bytes())?;
    Ok(said)
}

/// The word found in a line, and the form expected there.
fn add_found(said: &mut Vec<u8>, line: &[u8], wanted: &str) -> Result<(), AllocError>
    ensures { OnOk result (said.new.items ≡ said.old.items ++ found_text line.now wanted.now) }
{
    said.extend_from_slice(b"found `")?;
    said.extend_from_slice(line)?;
    said.extend_from_slice(b"`, wanted ")?;
    said.extend_from_slice(wanted.as_bytes())?;
    said.extend_from_slice(b"\n")?;
    Ok(())
}
