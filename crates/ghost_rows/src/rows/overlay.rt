//! Lists of rows that are written range by range: the last write counts.
ghost use Rattle.std.specs.Prelude.{◌≡◌, ℕ, ◌+◌, ◌<◌, ◌≤◌, ◌^◌, true, Some, None, OnOk};
ghost use Rattle.std.specs.Option.{ForSome};
ghost use Rattle.page_state.specs.Regions.{end_of};
ghost use Rattle.page_state.specs.Rows.{advance_row, HasPageBelow};
ghost use Rattle.run_list.specs.Runs.{run_map, AreInReach, EndBefore};
ghost use Rattle.run_list.specs.View.{IsKept};
ghost use Rattle.ghost_spec.specs.RowChanges.{IsRangeSet};
ghost use Rattle.ghost_rows.specs.RowsLaid.{IsLaidOver};

use page_state::{PageRange, Row};
use run_list::{Run, RunList, push_run};
use std::alloc::AllocError;

/// Whether each run begins at a frame or after it.
fn begins_from(rows: &RunList<Row>, frame: u64) -> bool
    ensures { result ≡ true → (f : ℕ) → f < frame → run_map advance_row rows.now.runs f ≡ None }
{
    let runs = rows.runs();
    runs.is_empty() || frame <= runs[0].pages.first.0
}

/// The frames of a range get a row, which advances along it, or none: before all rows there is nothing to take away.
pub(crate) fn lay(
    rows: &mut RunList<Row>,
    frames: PageRange,
    row: Option<Row>,
) -> Result<(), AllocError>
    requires frames { end_of frames ≤ 2 ^ 63 }
    requires small { ForSome row (λ r. HasPageBelow r frames.count) }
    requires reach { AreInReach HasPageBelow rows.old.runs }
    ensures map { OnOk result (IsRangeSet rows.old.runs rows.new.runs frames row) }
    ensures reach { AreInReach HasPageBelow rows.new.runs }
{
    if row.is_none() && begins_from(rows, frames.first.0 + frames.count) {
        return Ok(());
    }
    rows.reserve(2)?;
    rows.set(frames, row);
    Ok(())
}

/// The rows of a list are written over those of another.
pub(crate) fn lay_all(rows: &mut RunList<Row>, over: RunList<Row>) -> Result<(), AllocError>
    requires reach { AreInReach HasPageBelow rows.old.runs }
    requires over { AreInReach HasPageBelow over.runs }
    ensures map { OnOk result (IsLaidOver rows.old.runs rows.new.runs (run_map advance_row over.runs)) }
    ensures reach { AreInReach HasPageBelow rows.new.runs }
{
    if rows.runs().is_empty() {
        *rows = over;
        return Ok(());
    }
    let runs = over.runs();
    for i in (0..runs.len()).rev() {
        let run = runs[i];
        lay(rows, run.pages, Some(run.value))?;
    }
    Ok(())
}

/// Frames after those of all rows of a list get a row, which advances along them. No row is searched.
#[inline(always)]
pub(crate) fn put_last(
    rows: &mut Vec<Run<Row>>,
    frames: PageRange,
    row: Row,
) -> Result<(), AllocError>
    requires frames { end_of frames ≤ 2 ^ 63 }
    requires small { HasPageBelow row frames.count }
    requires kept { IsKept advance_row HasPageBelow rows.old.items }
    requires behind { EndBefore (frames.first.0 + 1) rows.old.items }
    ensures map { OnOk result (IsRangeSet rows.old.items rows.new.items frames (Some row)) }
    ensures kept { OnOk result (IsKept advance_row HasPageBelow rows.new.items) }
    ensures behind { OnOk result (EndBefore (end_of frames + 1) rows.new.items) }
{
    if frames.count == 0 {
        return Ok(());
    }
    let run = Run {
        pages: frames,
        value: row,
    };
    push_run(rows, run)?;
    Ok(())
}

/// The same for at least one frame, after rows that end at a frame or before it: no row is looked at where these frames begin
/// after that.
#[inline(always)]
pub(crate) fn put_behind(
    rows: &mut Vec<Run<Row>>,
    high: u64,
    frames: PageRange,
    row: Row,
) -> Result<(), AllocError>
    requires frames { end_of frames ≤ 2 ^ 63 }
    requires some { 0 < frames.count }
    requires small { HasPageBelow row frames.count }
    requires kept { IsKept advance_row HasPageBelow rows.old.items }
    requires behind { EndBefore (high + 1) rows.old.items }
    requires order { high ≤ frames.first.0 }
    ensures map { OnOk result (IsRangeSet rows.old.items rows.new.items frames (Some row)) }
    ensures kept { OnOk result (IsKept advance_row HasPageBelow rows.new.items) }
    ensures behind { OnOk result (EndBefore (end_of frames + 1) rows.new.items) }
{
    if frames.first.0 == high {
        return put_last(rows, frames, row);
    }
    rows.push(Run {
        pages: frames,
        value: row,
    })?;
    Ok(())
}
