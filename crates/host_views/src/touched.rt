//! A host that has touched each page of its own.
ghost use Rattle.std.specs.Prelude.{◌≡◌, IfOk};
ghost use Rattle.page_state.specs.Runs.{map_of, IsCoarsest};
ghost use Rattle.reference_model.specs.model.SharedRules.{abort_leaf};
ghost use Rattle.ghost_trees.specs.Small.{AreSmall};
ghost use Rattle.host_views.specs.Seen.{over, own_in};

use crate::over::overlaid;
use ghost_trees::runs::updated;
use page_state::{Entry, Frame, Kind, MemoryMap, Prot, Region, RegionKind, Run, State};
use std::alloc::{AllocError, Global};

/// The host's entry of the first page of a region after it has touched it.
fn first_entry(region: Region) -> Entry
    ensures { result ≡ abort_leaf region region.pages.first.0 }
{
    let (prot, kind) = match region.kind {
        RegionKind::Memory => (Prot::RWX, Kind::Normal),
        RegionKind::Device => (Prot::RW, Kind::Device),
    };
    Entry::Leaf {
        frame: Frame(region.pages.first.0),
        prot,
        kind,
        state: State::Owned,
    }
}

/// The map of a host that owns each page, and has touched it.
fn own_runs(alloc: Global, memory: &MemoryMap) -> Result<Vec<Run>, AllocError>
    ensures map { IfOk result (λ v. map_of v.items ≡ own_in memory.now.regions) }
    ensures coarsest { IfOk result (λ v. IsCoarsest v.items) }
    ensures small { IfOk result (λ v. AreSmall v.items) }
{
    let regions = memory.regions();
    let mut out = Vec::new(alloc);
    for i in (0..regions.len()).rev() {
        let region = regions[i];
        out = updated(alloc, out.as_slice(), region.pages, first_entry(region))?;
    }
    Ok(out)
}

/// The coarsest list of runs for a host's map in which each page that it hasn't mapped is as if it had touched it.
pub fn touched(alloc: Global, memory: &MemoryMap, runs: &[Run]) -> Result<Vec<Run>, AllocError>
    requires { AreSmall runs.now }
    ensures map { IfOk result (λ v. map_of v.items ≡ over (map_of runs.now) (own_in memory.now.regions)) }
    ensures coarsest { IfOk result (λ v. IsCoarsest v.items) }
    ensures small { IfOk result (λ v. AreSmall v.items) }
{
    let own = own_runs(alloc, memory)?;
    let out = overlaid(alloc, own, runs)?;
    Ok(out)
}
