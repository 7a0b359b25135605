//! Runs that a walk finds, appended to those before.
ghost use Rattle.std.specs.Prelude.{◌≡◌, ◌+◌, ◌<◌, ◌≤◌, ◌^◌, IfOk, OnOk};
ghost use Rattle.page_state.specs.Entries.{advance_target};
ghost use Rattle.page_state.specs.Map.{update};
ghost use Rattle.run_list.specs.Targets.{HasFrameBelow};
ghost use Rattle.run_list.specs.Runs.{EndBefore};
ghost use Rattle.run_list.specs.View.{IsKept};
ghost use Rattle.maplets.specs.View.{target_run, target_runs};
ghost use Rattle.c_tables.specs.ByFrames.{HasSmallFrame};
ghost use Rattle.c_tables.specs.Laid.{target_map};

use page_state::{Entry, Page, PageRange, Target};
use run_list::{Run, push_run};
use std::alloc::{AllocError, Global};

/// Gives the pages of a block their entries: the first has the entry, which advances along the block.
pub(crate) fn put(
    runs: &mut Vec<Run<Target>>,
    first: u64,
    count: u64,
    entry: Entry,
) -> Result<(), AllocError>
    requires some { 0 < count }
    requires pages { first + count ≤ 2 ^ 36 }
    requires small { HasSmallFrame entry }
    requires kept { IsKept advance_target HasFrameBelow runs.old.items }
    requires behind { EndBefore (first + 1) runs.old.items }
    ensures map { OnOk result
        (target_map runs.new.items ≡ update (target_map runs.old.items) first count entry) }
    ensures kept { OnOk result (IsKept advance_target HasFrameBelow runs.new.items) }
    ensures behind { OnOk result (EndBefore (first + count + 1) runs.new.items) }
{
    if let Some(value) = entry.target() {
        let pages = PageRange {
            first: Page(first),
            count,
        };
        push_run(runs, Run { pages, value })?;
    }
    Ok(())
}

/// The runs as those of a map.
pub(crate) fn as_map(
    alloc: Global,
    runs: &[Run<Target>],
) -> Result<Vec<page_state::Run>, AllocError>
    ensures { IfOk result (λ v. v.items ≡ target_runs runs.now) }
{
    runs.iter().map(|run| map_run(*run)).collect(alloc)
}

/// A run as one of a map.
fn map_run(run: Run<Target>) -> page_state::Run
    ensures { result ≡ target_run run }
{
    page_state::Run {
        pages: run.pages,
        target: run.value,
    }
}
