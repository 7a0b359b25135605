//! What traces have tried, together.
ghost use Rattle.std.specs.Prelude.{◌≡◌, ◌||◌, IfOk, map};
ghost use Rattle.trace_cli.specs.Covering.{AddsFile, AddsOpened, AddsSteps, HasCoverStatus, IsReportedStatus, is_faulty as is_faulty_by, status_of_cover as status_by};

use crate::files::Opens;
use crate::telling::{FAILED, REFUSED, no_memory, report_beside, tell, unopened};
use crate::texts::{whole, write};
use std::io;
use trace_cover::{Seen, add_steps, cover};
use trace_race::Halted;
use trace_reader::Outcome;

/// Counts what the traces at these paths have tried, writes the counts, or only what never came, to standard output, or nothing, and
/// gives the exit status.
pub fn covered<R: AllocGlobal + Print + Eprint, F: io::Read + Drop, O: Opens<F>>(
    rt: &R,
    files: &O,
    paths: &[&str],
    missing: bool,
    quiet: bool,
) -> u8
    ensures { HasCoverStatus F.remaining (O.opens files.now) missing
        (map (λ path. path.now) paths.now) result }
{
    let mut seen = Vec::new(rt.alloc());
    let mut text = Vec::new(rt.alloc());
    let mut faulty = false;
    for path in paths {
        match added(rt, files, path, &mut seen, &mut text) {
            Ok(outcome) => faulty = either(faulty, is_faulty(outcome)),
            Err(status) => return status,
        }
    }
    told(rt, seen.as_slice(), text, missing, quiet, faulty)
}

fn either(one: bool, other: bool) -> bool
    ensures { result ≡ (one || other) }
{
    one || other
}

/// Whether a trace ended by a fault.
fn is_faulty(outcome: Outcome) -> bool
    ensures { result ≡ is_faulty_by outcome }
{
    match outcome {
        Outcome::Clean | Outcome::Disagreed => false,
        Outcome::Fault => true,
    }
}

/// Adds the steps of the trace at a path. Err, with the exit status, if the file can't be opened or read.
fn added<R: AllocGlobal + Eprint, F: io::Read + Drop, O: Opens<F>>(
    rt: &R,
    files: &O,
    path: &str,
    seen: &mut Vec<Seen>,
    text: &mut Vec<u8>,
) -> Result<Outcome, u8>
    ensures { AddsFile F.remaining (O.opens files.now) path.now seen.old.items seen.new.items result }
{
    match files.open(path, false) {
        Ok(file) => added_of(rt, path, file, seen, text),
        Err(error) => Err(unopened(rt, path, error)),
    }
}

/// Adds the steps of an opened file's trace. Err, with the exit status, if it can't be read.
fn added_of<R: AllocGlobal + Eprint, F: io::Read + Drop>(
    rt: &R,
    path: &str,
    file: F,
    seen: &mut Vec<Seen>,
    text: &mut Vec<u8>,
) -> Result<Outcome, u8>
    ensures { AddsOpened path.now (F.remaining file) seen.old.items seen.new.items result }
{
    match counted(rt, path, file, seen, text) {
        Ok(outcome) => Ok(outcome),
        Err(halted) => {
            tell(rt, path, &halted);
            Err(FAILED)
        }
    }
}

fn counted<R: AllocGlobal + Eprint, F: io::Read + Drop>(
    rt: &R,
    path: &str,
    file: F,
    seen: &mut Vec<Seen>,
    text: &mut Vec<u8>,
) -> Result<Outcome, Halted>
    ensures { IfOk result (AddsSteps path.now (F.remaining file) seen.old.items seen.new.items) }
{
    let trace = whole(rt, file)?;
    let Ok(outcome) = add_steps(rt.alloc(), rt.alloc(), path, trace.as_slice(), seen, text) else {
        return Err(no_memory());
    };
    // The text has the place of a fault itself.
    if !is_faulty(outcome) {
        report_beside(rt, path, trace.as_slice(), None, false)?;
    }
    Ok(outcome)
}

/// Writes the coverage of steps after the faults of their traces, and gives the exit status.
fn told<R: AllocGlobal + Print + Eprint>(
    rt: &R,
    seen: &[Seen],
    faults: Vec<u8>,
    missing: bool,
    quiet: bool,
    faulty: bool,
) -> u8
    ensures { IsReportedStatus missing faulty seen.now result }
{
    let Ok(covered) = cover(rt.alloc(), seen, missing) else {
        tell(rt, "-", &no_memory());
        return FAILED;
    };
    if !quiet {
        if let Err(halted) = shown(rt, faults.as_slice(), covered.text.as_slice()) {
            tell(rt, "-", &halted);
            return FAILED;
        }
    }
    status_of_cover(missing, faulty, covered.missing)
}

fn shown<R: Print>(rt: &R, faults: &[u8], report: &[u8]) -> Result<(), Halted> {
    write(rt, faults)?;
    write(rt, report)
}

/// The exit status, by how many rows never came.
fn status_of_cover(missing: bool, faulty: bool, count: usize) -> u8
    ensures { result ≡ status_by missing faulty count }
{
    if faulty {
        return REFUSED;
    }
    if missing && count != 0 {
        return FAILED;
    }
    0
}
