//! Lists of runs over others.
ghost use Rattle.std.specs.Prelude.{◌≡◌, IfOk};
ghost use Rattle.page_state.specs.Runs.{map_of, IsCoarsest};
ghost use Rattle.ghost_trees.specs.Small.{AreSmall};
ghost use Rattle.host_views.specs.Seen.{over};

use ghost_trees::runs::updated;
use page_state::{Entry, Run};
use std::alloc::{AllocError, Global};

/// The coarsest list of runs with the entries of the second list, and of the first where the second maps nothing.
pub(crate) fn overlaid(alloc: Global, under: Vec<Run>, runs: &[Run]) -> Result<Vec<Run>, AllocError>
    requires under { AreSmall under.items }
    requires coarsest { IsCoarsest under.items }
    requires runs { AreSmall runs.now }
    ensures map { IfOk result (λ v. map_of v.items ≡ over (map_of runs.now) (map_of under.items)) }
    ensures coarsest { IfOk result (λ v. IsCoarsest v.items) }
    ensures small { IfOk result (λ v. AreSmall v.items) }
{
    // the last run first: of two with a page, the first counts
    let mut out = under;
    for i in (0..runs.len()).rev() {
        let Run { pages, target } = runs[i];
        out = updated(alloc, out.as_slice(), pages, Entry::from(target))?;
    }
    Ok(out)
}
