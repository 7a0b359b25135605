//! Runs that a walk finds, put at the end of a list by page.
ghost use Rattle.std.specs.Prelude.{◌≡◌, ◌+◌, ◌-◌, ◌^◌, ◌<◌, ◌≤◌, [], ◌∷◌, OnOk};
ghost use Rattle.page_state.specs.Entries.{advance};
ghost use Rattle.page_state.specs.Runs.{map_of};
ghost use Rattle.ghost_trees.specs.Joins.{continues};
ghost use Rattle.ghost_trees.specs.Small.{HasLowFrames, IsSmall, AreSmall};
ghost use Rattle.ghost_oracle.specs.inner.Walking.{AreRunsTo, GoesOn, joined_last};

use page_state::{Entry, Page, PageRange, Run};
use std::alloc::AllocError;

/// Whether the second run continues the first.
fn is_continued(run: Run, next: Run) -> bool
    requires { IsSmall run }
    ensures { result ≡ continues run next }
{
    run.pages.first.0 + run.pages.count == next.pages.first.0
        && run.target.advance(run.pages.count) == next.target
}

/// Appends a run to a list, or extends the last run if the new one continues it.
fn put_last(runs: &mut Vec<Run>, run: Run) -> Result<(), AllocError>
    requires runs { AreSmall runs.old.items }
    requires run { IsSmall run }
    ensures { OnOk result (runs.new.items ≡ joined_last runs.old.items run) }
{
    let n = runs.len();
    if n > 0 && is_continued(runs[n - 1], run) {
        runs[n - 1].pages.count += run.pages.count;
        return Ok(());
    }
    runs.push(run)?;
    Ok(())
}

/// Puts the pages of a block at the end of a list: the first has the entry, which advances along the block.
pub(crate) fn put_block(
    runs: &mut Vec<Run>,
    first: u64,
    count: u64,
    entry: Entry,
) -> Result<(), AllocError>
    requires some { 0 < count }
    requires pages { first + count ≤ 2 ^ 63 }
    requires frames { HasLowFrames entry count }
    requires before { AreRunsTo first runs.old.items }
    ensures runs { OnOk result (AreRunsTo (first + count) runs.new.items) }
    ensures map { OnOk result
        (GoesOn (λ page. advance entry (page - first)) first (first + count)
        (map_of runs.old.items) (map_of runs.new.items)) }
{
    if let Some(target) = entry.target() {
        let pages = PageRange {
            first: Page(first),
            count,
        };
        put_last(runs, Run { pages, target })?;
    }
    Ok(())
}
