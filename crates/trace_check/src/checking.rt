//! Checking what a trace expects.
ghost use Rattle.std.specs.Prelude.{◌≡◌, ◌≤◌, ◌∷◌, ◌++◌, IfOk, length, map};
ghost use Rattle.trace_check.specs.Checks.{Checks, ChecksMissed, IsChecked, said_of};
ghost use Rattle.trace_check.specs.View.{misses_in, told_in};

use crate::carrying::{Carried, Watch, carry_out};
use crate::expecting::{count_expected, count_mistaken};
use crate::missing::{Miss, misses};
use crate::shown::has_begun;
use crate::writing::{add_boot, add_fault, add_misses, add_mistaken, add_none, add_sum};
use ghost_judge::disagreement::Disagreement;
use std::alloc::{AllocError, Allocator, Global};
use trace_faults::add_file_line;
use trace_reader::lines;
use trace_text::ReportLine;

/// What a check of a trace comes to.
#[derive(Drop)]
pub struct Checked {
    /// A line for each miss, `NAME:LINE: ..`, one for each comment that resembles an expectation but is none, and at
    /// the end the numbers of expectations and of errors.
    pub text: Vec<u8>,
    pub expected: u64,
    /// Misses, and comments that are like an expectation and none.
    pub wrong: u64,
    /// Whether the machine booted or a fault says why it didn't, something is expected, and nothing is wrong.
    pub clean: bool,
}

/// Carries a trace out, and lists the lines whose reports differ from the expectations after them, and the comments
/// that resemble an expectation, as `#=ok`, but are none. `name` is its file's, for the text. `alloc` holds the tables
/// of the trees. Err if memory was refused.
pub fn check<A: Allocator + Copy>(
    global: Global,
    alloc: A,
    name: &str,
    trace: &[u8],
    watch: Watch,
) -> Result<Checked, AllocError>
    ensures { IfOk result (IsChecked name.now trace.now) }
{
    let lines = lines(global, trace)?;
    let carried = carry_out(global, alloc, lines.as_slice(), watch)?;
    let Carried { told, found } = carried;
    let checked = check_reported(global, name, lines.as_slice(), told.as_slice())?;
    with_found(global, name, checked, found)
}

/// What a disagreement at the end adds to a check.
fn with_found(
    global: Global,
    name: &str,
    checked: Checked,
    found: Option<Disagreement>,
) -> Result<Checked, AllocError>
    ensures { found ≡ None → IfOk result (λ with. with ≡ checked) }
{
    let Some(found) = found else {
        return Ok(checked);
    };
    let mut checked = checked;
    let said = format!(in global; "{found}")?;
    add_file_line(&mut checked.text, name, said.as_bytes())?;
    checked.clean = false;
    Ok(checked)
}

/// The check of lines, by what those that were carried out report.
pub fn check_reported(
    global: Global,
    name: &str,
    lines: &[&[u8]],
    told: &[Vec<ReportLine>],
) -> Result<Checked, AllocError>
    requires { length told.now ≤ length lines.now }
    ensures { IfOk result (Checks name.now (map (λ line. line.now) lines.now) (told_in told.now)) }
{
    let missed = misses(global, lines, told)?;
    check_missed(global, name, lines, told, missed.as_slice())
}

/// The check of lines, from the reports of those that were carried out, and from the misses.
pub fn check_missed(
    global: Global,
    name: &str,
    lines: &[&[u8]],
    told: &[Vec<ReportLine>],
    missed: &[Miss],
) -> Result<Checked, AllocError>
    requires { length told.now ≤ length lines.now }
    ensures { IfOk result
        (ChecksMissed name.now (map (λ line. line.now) lines.now) (told_in told.now)
        (misses_in missed.now)) }
{
    let expected = count_expected(lines);
    let wrong = missed.len() + count_mistaken(lines);
    let begun = has_begun(told);
    let text = written(global, name, missed, lines, told, expected, wrong)?;
    Ok(Checked {
        text,
        expected: expected as u64,
        wrong: wrong as u64,
        clean: begun && expected != 0 && wrong == 0,
    })
}

fn written(
    global: Global,
    name: &str,
    missed: &[Miss],
    lines: &[&[u8]],
    told: &[Vec<ReportLine>],
    expected: usize,
    wrong: usize,
) -> Result<Vec<u8>, AllocError>
    requires { length told.now ≤ length lines.now }
    ensures { IfOk result
        (λ text. text.items
        ≡ said_of name.now (map (λ line. line.now) lines.now) (told_in told.now)
        (misses_in missed.now) expected wrong) }
{
    let mut text = Vec::new(global);
    add_misses(&mut text, global, name, missed)?;
    add_mistaken(&mut text, global, name, lines)?;
    add_fault(&mut text, global, name, lines, told, missed.len())?;
    add_boot(&mut text, name, has_begun(told))?;
    add_none(&mut text, name, expected)?;
    add_sum(&mut text, global, name, expected, wrong)?;
    Ok(text)
}
