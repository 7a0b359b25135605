//! Checking what a trace expects, and filling it in.
ghost use Rattle.std.specs.Prelude.{◌≡◌, ◌+◌, ◌<◌, ◌≤◌, IfOk, length, map};
ghost use Rattle.trace_cases.specs.Cases.{IsAuditChecked, IsAuditRecord, IsCaseChecked, IsCaseRecord};
ghost use Rattle.trace_cases.specs.RaceChecks.{ChecksMany, ChecksRaced, IsRaceChecked, IsRaceRecord, race_text as race_text_by};
ghost use Rattle.trace_check.specs.View.{told_in};
ghost use Rattle.trace_reader.specs.Reading.{lines_of};

use crate::audited::audited;
use crate::race_notes::race_text;
use crate::raced::race_misses;
use crate::races::{Raced, raced_lines};
use crate::ways::{has_poke, start_at};
use std::alloc::{AllocError, Allocator, Global};
use trace_check::{Checked, Watch, check_missed, check_reported, count_expected, record_reported};
use trace_faults::add_file_line;
use trace_reader::lines;

/// Carries a trace out, and lists the lines whose reports differ from the expectations after them. One with a poke is
/// audited: the audit's finding is expected after the last line that isn't silent. In one with `start` the model makes
/// the steps after it in each order, and their expectations list all replies. `name` is its file's, for the text, and
/// `watch` says when an oracle looks at a replay. `alloc` holds the tables of the trees. Err if memory was refused.
pub fn check<A: Allocator + Copy>(
    global: Global,
    alloc: A,
    name: &str,
    trace: &[u8],
    watch: Watch,
) -> Result<Checked, AllocError>
    ensures { IfOk result (IsCaseChecked A name.now trace.now) }
{
    let lines = lines(global, trace)?;
    if has_poke(lines.as_slice()) {
        return check_audited(global, alloc, name, lines.as_slice());
    }
    match start_at(lines.as_slice()) {
        Some(start) => check_raced(global, alloc, name, trace, lines.as_slice(), start),
        None => trace_check::check(global, alloc, name, trace, watch),
    }
}

fn check_audited<A: Allocator + Copy>(
    global: Global,
    alloc: A,
    name: &str,
    lines: &[&[u8]],
) -> Result<Checked, AllocError>
    ensures { IfOk result (IsAuditChecked A name.now (map (λ line. line.now) lines.now)) }
{
    let told = audited(global, alloc, lines)?;
    check_reported(global, name, lines, told.as_slice())
}

/// A trace whose steps after `start` may be made in any order.
fn check_raced<A: Allocator + Copy>(
    global: Global,
    alloc: A,
    name: &str,
    trace: &[u8],
    lines: &[&[u8]],
    start: usize,
) -> Result<Checked, AllocError>
    requires lines { map (λ line. line.now) lines.now ≡ lines_of trace.now }
    requires start { start < length lines.now }
    ensures { IfOk result (IsRaceChecked name.now trace.now (start + 1)) }
{
    let raced = raced_lines(global, alloc, trace, lines, start)?;
    check_reported_raced(global, name, lines, &raced)
}

fn check_reported_raced(
    global: Global,
    name: &str,
    lines: &[&[u8]],
    raced: &Raced,
) -> Result<Checked, AllocError>
    requires { length raced.now.told.items ≤ length lines.now }
    ensures { IfOk result (ChecksRaced name.now (map (λ line. line.now) lines.now) raced.now) }
{
    match raced.many {
        Some(made) => check_many(global, name, lines, made),
        None => {
            let told = raced.told.as_slice();
            let steps = raced.steps.as_slice();
            let missed = race_misses(global, lines, told, steps, raced.found.as_slice())?;
            check_missed(global, name, lines, told, missed.as_slice())
        }
    }
}

/// The orders of `made` steps lead to too many points.
fn check_many(global: Global, name: &str, lines: &[&[u8]], made: u64) -> Result<Checked, AllocError>
    ensures { IfOk result (ChecksMany name.now (map (λ line. line.now) lines.now) made) }
{
    let said = format!(in global; "too many after {made} steps")?;
    let mut text = Vec::new(global);
    add_file_line(&mut text, name, said.as_bytes())?;
    Ok(Checked {
        text,
        expected: count_expected(lines) as u64,
        wrong: 0,
        clean: false,
    })
}

/// The trace with its expectations filled in: after each line that reports something, its report. Expectations already
/// in the trace are left out, all other lines stay as they are, and so do those after a line with a fault. A step after
/// `start` gets all its replies, and none if its orders lead to too many points. `alloc` holds the tables of the trees.
/// Err if memory was refused.
pub fn record<A: Allocator + Copy>(
    global: Global,
    alloc: A,
    trace: &[u8],
) -> Result<Vec<u8>, AllocError>
    ensures { IfOk result (λ text. IsCaseRecord A trace.now text.items) }
{
    let lines = lines(global, trace)?;
    if has_poke(lines.as_slice()) {
        return record_audited(global, alloc, trace, lines.as_slice());
    }
    match start_at(lines.as_slice()) {
        Some(start) => record_raced(global, alloc, trace, lines.as_slice(), start),
        None => trace_check::record(global, alloc, trace),
    }
}

fn record_audited<A: Allocator + Copy>(
    global: Global,
    alloc: A,
    trace: &[u8],
    lines: &[&[u8]],
) -> Result<Vec<u8>, AllocError>
    requires { map (λ line. line.now) lines.now ≡ lines_of trace.now }
    ensures { IfOk result (λ text. IsAuditRecord A trace.now text.items) }
{
    let told = audited(global, alloc, lines)?;
    record_reported(global, trace, lines, told.as_slice())
}

fn record_raced<A: Allocator + Copy>(
    global: Global,
    alloc: A,
    trace: &[u8],
    lines: &[&[u8]],
    start: usize,
) -> Result<Vec<u8>, AllocError>
    requires lines { map (λ line. line.now) lines.now ≡ lines_of trace.now }
    requires start { start < length lines.now }
    ensures { IfOk result (λ text. IsRaceRecord trace.now (start + 1) text.items) }
{
    let raced = raced_lines(global, alloc, trace, lines, start)?;
    record_reported_raced(global, trace, lines, &raced)
}

fn record_reported_raced(
    global: Global,
    trace: &[u8],
    lines: &[&[u8]],
    raced: &Raced,
) -> Result<Vec<u8>, AllocError>
    requires few { length raced.now.told.items ≤ length lines.now }
    requires lines { map (λ line. line.now) lines.now ≡ lines_of trace.now }
    ensures { IfOk result
        (λ text. text.items
        ≡ race_text_by trace.now raced.now.steps.items raced.now.found.items
        (told_in raced.now.told.items)) }
{
    race_text(
        global,
        trace,
        lines,
        raced.told.as_slice(),
        raced.steps.as_slice(),
        raced.found.as_slice(),
    )
}
