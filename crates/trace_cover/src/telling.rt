//! The report.
ghost use Rattle.std.specs.Prelude.{◌≡◌, ◌++◌, IfOk, OnOk, count_by, length};
ghost use Rattle.trace_cover.specs.Told.{Tells, count_line as count_line_by, end_line, is_missing as is_missing_by, line_of, lines_of, missing_line, named_reason, reason_line as reason_line_by, told_line as told_line_by, zero_line as zero_line_by};

use crate::counting::{Counted, with_counts};
use crate::kinds::{impossible, is_asked, is_told};
use crate::rows::{Row, rows};
use crate::steps::Seen;
use std::alloc::{AllocError, Global};

/// The report of the rows that steps reached, and of those that never came.
#[derive(Drop)]
pub struct Covered {
    /// A line for each row: its count, or why it can't come; of missing ones alone, those that never came. The last has the number of
    /// steps, and that of rows that never came.
    pub text: Vec<u8>,
    /// The number of rows that can come and never came.
    pub missing: usize,
}

/// The coverage of these steps: for each call how often it was made, how often each refusal came that its rule can
/// give, and how often the frame that it names was in each condition. `only_missing`: only rows that never came. Err if
/// memory was refused.
pub fn cover(global: Global, seen: &[Seen], only_missing: bool) -> Result<Covered, AllocError>
    ensures { IfOk result (Tells only_missing seen.now) }
{
    let rows = rows(global)?;
    let counted = with_counts(global, rows.as_slice(), seen)?;
    let missing = count_missing(counted.as_slice());
    let mut text = Vec::new(global);
    add_lines(&mut text, global, counted.as_slice(), only_missing)?;
    add_end(&mut text, global, seen.len(), missing)?;
    Ok(Covered { text, missing })
}

/// Whether a row can come, and never came.
fn is_missing(counted: Counted) -> bool
    ensures { result ≡ is_missing_by counted }
{
    if counted.count != 0 {
        return false;
    }
    is_asked(counted.row)
}

fn count_missing(all: &[Counted]) -> usize
    ensures { result ≡ count_by is_missing_by all.now }
{
    all.iter().filter(|counted| is_missing(**counted)).count()
}

fn add_lines(
    text: &mut Vec<u8>,
    global: Global,
    all: &[Counted],
    only_missing: bool,
) -> Result<(), AllocError>
    ensures { OnOk result (text.new.items ≡ text.old.items ++ lines_of only_missing all.now) }
{
    for counted in all {
        add_line(text, global, *counted, only_missing)?;
    }
    Ok(())
}

fn add_line(
    text: &mut Vec<u8>,
    global: Global,
    counted: Counted,
    only_missing: bool,
) -> Result<(), AllocError>
    ensures { OnOk result (text.new.items ≡ text.old.items ++ line_of only_missing counted) }
{
    if only_missing {
        add_missing(text, global, counted)
    } else {
        add_told(text, global, counted)
    }
}

/// The line of a row that can come and never came; nothing for any other.
fn add_missing(text: &mut Vec<u8>, global: Global, counted: Counted) -> Result<(), AllocError>
    ensures { OnOk result (text.new.items ≡ text.old.items ++ missing_line counted) }
{
    if is_missing(counted) {
        return add_count(text, global, counted);
    }
    Ok(())
}

/// The line of a row. A row that no rule can give has none, unless it came.
fn add_told(text: &mut Vec<u8>, global: Global, counted: Counted) -> Result<(), AllocError>
    ensures { OnOk result (text.new.items ≡ text.old.items ++ told_line_by counted) }
{
    if counted.count != 0 {
        return add_count(text, global, counted);
    }
    if is_told(counted.row) {
        return add_zero(text, global, counted);
    }
    Ok(())
}

/// The line of a row that can come and never came.
fn add_zero(text: &mut Vec<u8>, global: Global, counted: Counted) -> Result<(), AllocError>
    ensures { OnOk result (text.new.items ≡ text.old.items ++ zero_line_by counted) }
{
    match impossible(counted.row) {
        Some(why) => add_reason(text, global, counted.row, why),
        None => add_count(text, global, counted),
    }
}

fn add_count(text: &mut Vec<u8>, global: Global, counted: Counted) -> Result<(), AllocError>
    ensures { OnOk result (text.new.items ≡ text.old.items ++ count_line_by counted) }
{
    let count = counted.count;
    let row = counted.row;
    let said = format!(in global; "{count} {row}\n")?;
    text.extend_from_slice(said.as_bytes())?;
    Ok(())
}

fn add_reason(text: &mut Vec<u8>, global: Global, row: Row, why: &str) -> Result<(), AllocError>
    ensures { OnOk result (text.new.items ≡ text.old.items ++ reason_line_by row why.now) }
{
    text.extend_from_slice(b"impossible ")?;
    add_named(text, global, row, why)?;
    Ok(())
}

fn add_named(text: &mut Vec<u8>, global: Global, row: Row, why: &str) -> Result<(), AllocError>
    ensures { OnOk result (text.new.items ≡ text.old.items ++ named_reason row why.now) }
{
    let said = format!(in global; "{row}: {why}\n")?;
    text.extend_from_slice(said.as_bytes())?;
    Ok(())
}

fn add_end(
    text: &mut Vec<u8>,
    global: Global,
    steps: usize,
    missing: usize,
) -> Result<(), AllocError>
    ensures { OnOk result (text.new.items ≡ text.old.items ++ end_line steps missing) }
{
    let said = format!(in global; "end steps {steps} missing {missing}\n")?;
    text.extend_from_slice(said.as_bytes())?;
    Ok(())
}
