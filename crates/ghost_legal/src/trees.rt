//! Tables at blocks outside of their tree, and trees that aren't the coarsest of their maps.
ghost use Rattle.std.specs.Prelude.{◌≡◌, ◌≤◌, IfOk, MatchOption};
ghost use Rattle.page_state.specs.LayoutView.{layout_of};
ghost use Rattle.reference_model.specs.help.Conditions.{AreCoarsest};
ghost use Rattle.freedoms.specs.AnyTrees.{AreFramesLegal};
ghost use Rattle.ghost_spec.specs.States.{contents_in, IsKept};
ghost use Rattle.ghost_legal.specs.Illegals.{AreGuestTablesInside, AreGuestsCoarsest, FitsPages, FitsParts, FitsTables, IsIllegal, IsIllegalButForTrees};

use crate::finding::{Illegal, TreeBlock};
use ghost_coarse::{first_misfit, first_outside};
use ghost_spec::lists::GhostLists;
use std::alloc::{AllocError, Global};

/// How many levels of tables there are below the root's.
pub(crate) fn depth_of(state: &GhostLists) -> u64
    ensures value { result ≡ (layout_of state.now.layout).depth }
    ensures low { result ≤ 3 }
{
    state.layout.geometry.depth() as u64
}

/// The first table of a guest at a block outside of its tree.
fn first_guest_table(state: &GhostLists) -> Option<Illegal>
    requires kept { IsKept state.now }
    requires parts { FitsParts state.now }
    ensures { MatchOption result (AreGuestTablesInside state.now) (IsIllegalButForTrees state.now) }
{
    let depth = depth_of(state);
    for slot in 0..64 {
        let guests = state.guests.as_slice();
        if let Some(block) = first_outside(guests[slot].tree.tables.as_slice(), depth) {
            let tree = 2 + slot as u64;
            return Some(Illegal::Outside(TreeBlock { tree, block }));
        }
    }
    None
}

/// The first table at a block outside of its tree.
pub(crate) fn first_table(state: &GhostLists) -> Option<Illegal>
    requires kept { IsKept state.now }
    requires parts { FitsParts state.now }
    ensures { MatchOption result (FitsTables state.now) (IsIllegalButForTrees state.now) }
{
    let depth = depth_of(state);
    if let Some(block) = first_outside(state.shared.host.tables.as_slice(), depth) {
        return Some(Illegal::Outside(TreeBlock { tree: 0, block }));
    }
    if let Some(block) = first_outside(state.shared.hyp.tables.as_slice(), depth) {
        return Some(Illegal::Outside(TreeBlock { tree: 1, block }));
    }
    first_guest_table(state)
}

/// The first guest whose tree isn't the coarsest of its map.
fn first_guest_tree(alloc: Global, state: &GhostLists) -> Result<Option<Illegal>, AllocError>
    requires kept { IsKept state.now }
    requires pages { FitsPages state.now }
    requires frames { AreFramesLegal (layout_of state.now.layout) (contents_in state.now) }
    ensures { IfOk result (λ o. MatchOption o (AreGuestsCoarsest state.now) (IsIllegal state.now)) }
{
    let depth = depth_of(state);
    for slot in 0..64 {
        let guests = state.guests.as_slice();
        if let Some(misfit) = first_misfit(alloc, &guests[slot].tree, depth)? {
            let tree = 2 + slot as u64;
            return Ok(Some(Illegal::Tree { tree, misfit }));
        }
    }
    Ok(None)
}

/// The first tree that isn't the coarsest of its map.
pub(crate) fn first_tree(alloc: Global, state: &GhostLists) -> Result<Option<Illegal>, AllocError>
    requires kept { IsKept state.now }
    requires pages { FitsPages state.now }
    requires frames { AreFramesLegal (layout_of state.now.layout) (contents_in state.now) }
    ensures { IfOk result
        (λ o. MatchOption o (AreCoarsest (layout_of state.now.layout) (contents_in state.now))
        (IsIllegal state.now)) }
{
    let depth = depth_of(state);
    if let Some(misfit) = first_misfit(alloc, &state.shared.host, depth)? {
        return Ok(Some(Illegal::Tree { tree: 0, misfit }));
    }
    if let Some(misfit) = first_misfit(alloc, &state.shared.hyp, depth)? {
        return Ok(Some(Illegal::Tree { tree: 1, misfit }));
    }
    first_guest_tree(alloc, state)
}
