//! Runs that a walk finds, appended to those before.
ghost use Rattle.std.specs.Prelude.{◌≡◌, ◌+◌, ◌<◌, ◌≤◌, ◌^◌, OnOk};
ghost use Rattle.std.specs.Option.{ForSome};
ghost use Rattle.run_list.specs.Runs.{EndBefore, map_updated, run_map};
ghost use Rattle.run_list.specs.View.{IsKept};
ghost use Rattle.walked_tables.specs.Values.{advance_said, CanGoOn, HasSmallFrame};

use crate::said::Said;
use page_state::{Page, PageRange};
use run_list::{Run, push_run};
use std::alloc::AllocError;

/// Gives the pages of a block a value, which advances along the block, or none.
pub(crate) fn put(
    runs: &mut Vec<Run<Said>>,
    first: u64,
    count: u64,
    value: Option<Said>,
) -> Result<(), AllocError>
    requires some { 0 < count }
    requires pages { first + count ≤ 2 ^ 40 }
    requires small { ForSome value HasSmallFrame }
    requires kept { IsKept advance_said CanGoOn runs.old.items }
    requires behind { EndBefore (first + 1) runs.old.items }
    ensures map { OnOk result
        (run_map advance_said runs.new.items
        ≡ map_updated advance_said (run_map advance_said runs.old.items) first count value) }
    ensures kept { OnOk result (IsKept advance_said CanGoOn runs.new.items) }
    ensures behind { OnOk result (EndBefore (first + count + 1) runs.new.items) }
{
    if let Some(value) = value {
        let pages = PageRange {
            first: Page(first),
            count,
        };
        push_run(runs, Run { pages, value })?;
    }
    Ok(())
}
