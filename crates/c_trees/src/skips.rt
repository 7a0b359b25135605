//! Pages that are left out.
ghost use Rattle.std.specs.Prelude.{◌≡◌, All, IfOk};
ghost use Rattle.page_state.specs.Runs.{map_of, IsCoarsest};
ghost use Rattle.ghost_trees.specs.Small.{AreSmall};
ghost use Rattle.c_trees.specs.Entries.{without};
ghost use Rattle.c_trees.specs.Roots.{IsLowRange};

use crate::root::PlainRange;
use ghost_trees::runs::updated;
use page_state::{Entry, Page, PageRange, Run};
use std::alloc::{AllocError, Global};

/// The coarsest list of runs for a map that has nothing on the pages of ranges.
pub(crate) fn left_out(
    alloc: Global,
    ranges: &[PlainRange],
    runs: Vec<Run>,
) -> Result<Vec<Run>, AllocError>
    requires ranges { All IsLowRange ranges.now }
    requires runs { AreSmall runs.items }
    requires coarsest { IsCoarsest runs.items }
    ensures map { IfOk result (λ v. map_of v.items ≡ without ranges.now (map_of runs.items)) }
    ensures coarsest { IfOk result (λ v. IsCoarsest v.items) }
    ensures small { IfOk result (λ v. AreSmall v.items) }
{
    let mut out = runs;
    for i in (0..ranges.len()).rev() {
        let pages = PageRange {
            first: Page(ranges[i].first),
            count: ranges[i].count,
        };
        out = updated(alloc, out.as_slice(), pages, Entry::Unmapped)?;
    }
    Ok(out)
}
