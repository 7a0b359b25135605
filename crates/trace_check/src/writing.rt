//! The text of a check.
ghost use Rattle.std.specs.Prelude.{◌≡◌, ◌+◌, ◌<◌, ◌≤◌, ◌∷◌, ◌++◌, IfOk, IfSome, OnOk, codes, length, map};
ghost use Rattle.trace_check.specs.Checks.{
  boot_text,
  fault_in as fault_in_line,
  first_line,
  last_fault as last_fault_of,
  miss_line,
  miss_lines,
  mistaken_line,
  mistaken_lines as mistaken_lines_by,
  mistaken_text as mistaken_text_by,
  none_text,
  spot_text,
  sum_text,
};
ghost use Rattle.trace_check.specs.View.{misses_in, told_in};

use crate::comment::is_mistaken;
use crate::missing::Miss;
use std::alloc::{AllocError, Global};
use trace_faults::{add_file_line, add_place};
use trace_text::{Fault, ReportLine};

/// A line for each miss.
pub(crate) fn add_misses(
    text: &mut Vec<u8>,
    global: Global,
    name: &str,
    misses: &[Miss],
) -> Result<(), AllocError>
    ensures { OnOk result (text.new.items ≡ text.old.items ++ miss_lines name.now (misses_in misses.now)) }
{
    for miss in misses {
        add_miss(text, global, name, miss.line, miss.said.as_slice())?;
    }
    Ok(())
}

fn add_miss(
    text: &mut Vec<u8>,
    global: Global,
    name: &str,
    line: u64,
    said: &[u8],
) -> Result<(), AllocError>
    ensures { OnOk result (text.new.items ≡ text.old.items ++ miss_line name.now (line, said.now)) }
{
    let place = format!(in global; ":{line}: ")?;
    text.extend_from_slice(name.as_bytes())?;
    text.extend_from_slice(place.as_bytes())?;
    text.extend_from_slice(said)?;
    text.extend_from_slice(b"\n")?;
    Ok(())
}

/// A line for each comment that is like an expectation, and is none.
pub(crate) fn add_mistaken(
    text: &mut Vec<u8>,
    global: Global,
    name: &str,
    lines: &[&[u8]],
) -> Result<(), AllocError>
    ensures { OnOk result
        (text.new.items
        ≡ text.old.items ++ mistaken_lines_by name.now 1 (map (λ line. line.now) lines.now)) }
{
    for (place, line) in lines.iter().enumerate() {
        let number = place as u64 + 1;
        if is_mistaken(line) {
            add_mistaken_at(text, global, name, number, line)?;
        }
    }
    Ok(())
}

fn add_mistaken_at(
    text: &mut Vec<u8>,
    global: Global,
    name: &str,
    number: u64,
    line: &[u8],
) -> Result<(), AllocError>
    ensures { OnOk result (text.new.items ≡ text.old.items ++ mistaken_line name.now number line.now) }
{
    let said = mistaken_text(global, line)?;
    add_first(text, global, name, number, said.as_slice())
}

/// What is wrong with such a comment.
#[tactic(auto, unfolding(crate::specs::Checks::mistaken_text))]
fn mistaken_text(global: Global, line: &[u8]) -> Result<Vec<u8>, AllocError>
    ensures { IfOk result (λ said. said.items ≡ mistaken_text_by line.now) }
{
    let mut said = Vec::from_slice(global, b"no expectation: found `")?;
    said.extend_from_slice(line)?;
    said.extend_from_slice(b"`, wanted `#= ` and what is expected")?;
    Ok(said)
}

/// What is wrong at the first byte of a line.
fn add_first(
    text: &mut Vec<u8>,
    global: Global,
    name: &str,
    line: u64,
    said: &[u8],
) -> Result<(), AllocError>
    ensures { OnOk result (text.new.items ≡ text.old.items ++ first_line name.now line said.now) }
{
    let place = format!(in global; ":{line}:1: ")?;
    text.extend_from_slice(name.as_bytes())?;
    text.extend_from_slice(place.as_bytes())?;
    text.extend_from_slice(said)?;
    text.extend_from_slice(b"\n")?;
    Ok(())
}

/// A line for the place of the fault that ended the run, if one did and there is a miss.
pub(crate) fn add_fault(
    text: &mut Vec<u8>,
    global: Global,
    name: &str,
    lines: &[&[u8]],
    told: &[Vec<ReportLine>],
    missed: usize,
) -> Result<(), AllocError>
    requires { length told.now ≤ length lines.now }
    ensures { OnOk result
        (text.new.items
        ≡ text.old.items
        ++ spot_text name.now (map (λ line. line.now) lines.now)
        (told_in told.now) missed) }
{
    if missed == 0 {
        return Ok(());
    }
    let Some(fault) = last_fault(told) else {
        return Ok(());
    };
    add_place(text, global, name, lines, told.len() - 1, fault)
}

/// The fault that ended the run, if one did.
fn last_fault(told: &[Vec<ReportLine>]) -> Option<Fault>
    ensures some { IfSome result (λ _. 0 < length told.now) }
    ensures value { result ≡ last_fault_of (told_in told.now) }
{
    match told.last() {
        Some(reported) => fault_in(reported.as_slice()),
        None => None,
    }
}

/// The fault of a line that reports it alone.
fn fault_in(reported: &[ReportLine]) -> Option<Fault>
    ensures { result ≡ fault_in_line reported.now }
{
    match reported {
        [ReportLine::Fault { line: _, fault }] => Some(*fault),
        _ => None,
    }
}

pub(crate) fn add_boot(text: &mut Vec<u8>, name: &str, begun: bool) -> Result<(), AllocError>
    ensures { OnOk result (text.new.items ≡ text.old.items ++ boot_text name.now begun) }
{
    if begun {
        return Ok(());
    }
    add_file_line(text, name, b"no boot")
}

pub(crate) fn add_none(text: &mut Vec<u8>, name: &str, expected: usize) -> Result<(), AllocError>
    ensures { OnOk result (text.new.items ≡ text.old.items ++ none_text name.now expected) }
{
    if expected != 0 {
        return Ok(());
    }
    add_file_line(text, name, b"nothing is expected")
}

pub(crate) fn add_sum(
    text: &mut Vec<u8>,
    global: Global,
    name: &str,
    expected: usize,
    wrong: usize,
) -> Result<(), AllocError>
    ensures { OnOk result (text.new.items ≡ text.old.items ++ sum_text name.now expected wrong) }
{
    let said = format!(in global; "{expected} expected, {wrong} wrong")?;
    add_file_line(text, name, said.as_bytes())
}
