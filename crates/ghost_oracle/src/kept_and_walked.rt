//! What is kept and what walking finds, of one walk.
ghost use Rattle.std.specs.Prelude.{◌≡◌, [], IfOk};
ghost use Rattle.page_state.specs.LayoutView.{layout_of};
ghost use Rattle.ghost_spec.specs.States.{ghost_state, IsKept};
ghost use Rattle.ghost_spec.specs.Views.{row_in};
ghost use Rattle.hypercalls.specs.Stands.{parts_layout, state_of, HasHistory};
ghost use Rattle.ghost_oracle.specs.Compared.{IsCompared};
ghost use Rattle.ghost_oracle.specs.Found.{found_state};

use crate::compared::{Compared, is_kept};
use crate::kept::{with_kept, with_scratch};
use ghost_rows::are_from_scratch;
use ghost_spec::lists::GhostLists;
use ghost_spec::rows::copied_rows;
use ghost_spec::state::Ghost;
use hypercalls::Parts;
use std::alloc::{AllocError, Allocator, Global};

/// What is kept, and beside it what a walk found.
fn one_for_each<A: Allocator>(
    alloc: Global,
    parts: &Parts<A>,
    found: GhostLists,
) -> Result<Compared, AllocError>
    requires history { ∥ HasHistory parts.now ∥₁ }
    requires state { ghost_state found ≡ found_state (row_in []) (state_of parts.now) }
    requires layout { layout_of found.layout ≡ parts_layout parts.now }
    requires kept { IsKept found }
    ensures { IfOk result (IsCompared parts.now) }
{
    let Ok(kept) = with_kept(alloc, parts, &found) else {
        drop(found);
        return Err(AllocError);
    };
    let Ok(walked) = with_scratch(alloc, parts, found) else {
        drop(kept);
        return Err(AllocError);
    };
    Ok(Compared {
        kept: Ghost::of_kept(kept),
        other: Some(Ghost::of_kept(walked)),
    })
}

/// The kept state and the walked state. If the walk found the same runs as the kept ones, and so the same rows, both
/// are one state, with a copy of these rows.
pub(crate) fn compared<A: Allocator>(
    alloc: Global,
    parts: &Parts<A>,
    found: GhostLists,
) -> Result<Compared, AllocError>
    requires history { ∥ HasHistory parts.now ∥₁ }
    requires state { ghost_state found ≡ found_state (row_in []) (state_of parts.now) }
    requires layout { layout_of found.layout ≡ parts_layout parts.now }
    requires kept { IsKept found }
    ensures { IfOk result (IsCompared parts.now) }
{
    let rows = parts.shared.owners.runs();
    if !is_kept(&found, parts) {
        return one_for_each(alloc, parts, found);
    }
    let Ok(are_kept) = are_from_scratch(alloc, &found, rows) else {
        drop(found);
        return Err(AllocError);
    };
    if !are_kept {
        return one_for_each(alloc, parts, found);
    }
    let Ok(rows) = copied_rows(alloc, rows) else {
        drop(found);
        return Err(AllocError);
    };
    let mut kept = found;
    kept.shared.rows = rows;
    Ok(Compared {
        kept: Ghost::of_kept(kept),
        other: None,
    })
}
