//! A state, as far as the freedoms leave it to the model.
ghost use Rattle.std.specs.Prelude.{◌≡◌, IfOk};
ghost use Rattle.page_state.specs.LayoutView.{layout_of};
ghost use Rattle.page_state.specs.Runs.{map_of, IsCoarsest};
ghost use Rattle.freedoms.specs.Freedoms.{view, view_entry};
ghost use Rattle.ghost_spec.specs.States.{contents_in};
ghost use Rattle.ghost_trees.specs.Small.{AreSmall};
ghost use Rattle.free_judge.specs.Asked.{kind_seen};

use crate::bare::without;
use freedoms::Freedoms;
use ghost_spec::state::Ghost;
use host_views::devices::of_devices;
use host_views::touched::touched;
use page_state::{Layout, Run};
use std::alloc::{AllocError, Global};

/// The host's map with each leaf of a device's page as one of a device, if its kind is free.
fn kinds(
    alloc: Global,
    freedoms: Freedoms,
    layout: &Layout,
    runs: &[Run],
) -> Result<Vec<Run>, AllocError>
    requires runs { AreSmall runs.now }
    requires coarsest { IsCoarsest runs.now }
    ensures map { IfOk result
        (λ v. map_of v.items
        ≡ (λ p. kind_seen freedoms (layout_of layout.now) p (map_of runs.now p))) }
    ensures coarsest { IfOk result (λ v. IsCoarsest v.items) }
    ensures small { IfOk result (λ v. AreSmall v.items) }
{
    if freedoms.any_kind {
        let seen = of_devices(alloc, &layout.map, runs)?;
        Ok(seen)
    } else {
        let same = Vec::from_slice(alloc, runs)?;
        Ok(same)
    }
}

/// The host's map, as far as the freedoms leave it to the model.
fn seen_runs(
    alloc: Global,
    freedoms: Freedoms,
    layout: &Layout,
    runs: &[Run],
) -> Result<Vec<Run>, AllocError>
    requires runs { AreSmall runs.now }
    requires coarsest { IsCoarsest runs.now }
    ensures map { IfOk result
        (λ v. map_of v.items
        ≡ (λ p. view_entry freedoms (layout_of layout.now) p (map_of runs.now p))) }
    ensures coarsest { IfOk result (λ v. IsCoarsest v.items) }
    ensures small { IfOk result (λ v. AreSmall v.items) }
{
    let kinds = kinds(alloc, freedoms, layout, runs)?;
    if freedoms.lazy_host {
        let seen = touched(alloc, &layout.map, kinds.as_slice())?;
        Ok(seen)
    } else {
        Ok(kinds)
    }
}

/// The state, as far as the freedoms leave it to the model on the layout.
pub(crate) fn viewed(
    alloc: Global,
    freedoms: Freedoms,
    layout: &Layout,
    state: &Ghost,
) -> Result<Ghost, AllocError>
    ensures contents { IfOk result
        (λ g. contents_in g ≡ view freedoms (layout_of layout.now) (contents_in state.now)) }
    ensures layout { IfOk result (λ g. layout_of g.layout ≡ layout_of state.now.layout) }
{
    let lists = state.lists();
    let runs = seen_runs(alloc, freedoms, layout, lists.shared.host.runs.as_slice())?;
    let mut seen = without(alloc, state)?.into_lists();
    seen.shared.host.runs = runs;
    Ok(Ghost::of_kept(seen))
}
