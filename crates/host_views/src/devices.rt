//! A host whose leaves of devices' pages are all of one kind.
ghost use Rattle.std.specs.Prelude.{◌≡◌, ◌^◌, ◌≤◌, IfOk, map};
ghost use Rattle.page_state.specs.Regions.{end_of};
ghost use Rattle.page_state.specs.Runs.{map_of, IsCoarsest};
ghost use Rattle.ghost_trees.specs.Small.{AreSmall};
ghost use Rattle.host_views.specs.Seen.{as_device, device_run as device_run_of, kind_in, of_kind, within_range};

use crate::over::overlaid;
use ghost_trees::runs::updated;
use page_state::{Entry, Kind, MemoryMap, Page, PageRange, Region, RegionKind, Run, Target};
use std::alloc::{AllocError, Global};

/// All pages of runs are below this one.
const MOST: u64 = 0x8000_0000_0000_0000;

/// The coarsest list of runs for the entries of a map on the pages of a range.
fn within(alloc: Global, runs: &[Run], pages: PageRange) -> Result<Vec<Run>, AllocError>
    requires runs { AreSmall runs.now }
    requires coarsest { IsCoarsest runs.now }
    requires pages { end_of pages ≤ 2 ^ 63 }
    ensures map { IfOk result (λ v. map_of v.items ≡ within_range pages (map_of runs.now)) }
    ensures coarsest { IfOk result (λ v. IsCoarsest v.items) }
    ensures small { IfOk result (λ v. AreSmall v.items) }
{
    let before = PageRange {
        first: Page(0),
        count: pages.first.0,
    };
    let end = pages.first.0 + pages.count;
    let after = PageRange {
        first: Page(end),
        count: MOST - end,
    };
    let rest = updated(alloc, runs, before, Entry::Unmapped)?;
    let part = updated(alloc, rest.as_slice(), after, Entry::Unmapped)?;
    Ok(part)
}

/// A run with its leaves as a device's.
fn device_run(run: Run) -> Run
    ensures { result ≡ device_run_of run }
{
    let target = match run.target {
        Target::Leaf {
            frame,
            prot,
            state,
            ..
        } => Target::Leaf {
            frame,
            prot,
            kind: Kind::Device,
            state,
        },
        other => other,
    };
    Run {
        pages: run.pages,
        target,
    }
}

/// Runs with their leaves as a device's.
fn all_devices(alloc: Global, runs: &[Run]) -> Result<Vec<Run>, AllocError>
    ensures { IfOk result (λ v. v.items ≡ map device_run_of runs.now) }
{
    runs.iter().map(|run| device_run(*run)).collect(alloc)
}

/// The runs with each leaf as one of a device.
fn device_runs(alloc: Global, runs: &[Run]) -> Result<Vec<Run>, AllocError>
    requires { AreSmall runs.now }
    ensures map { IfOk result (λ v. map_of v.items ≡ (λ p. as_device (map_of runs.now p))) }
    ensures small { IfOk result (λ v. AreSmall v.items) }
{
    let out = all_devices(alloc, runs)?;
    Ok(out)
}

/// The entries of a map on a region's pages, with the region's kind.
fn of_region(alloc: Global, runs: &[Run], region: Region) -> Result<Vec<Run>, AllocError>
    requires runs { AreSmall runs.now }
    requires coarsest { IsCoarsest runs.now }
    requires pages { end_of region.pages ≤ 2 ^ 63 }
    ensures map { IfOk result
        (λ v. map_of v.items
        ≡ within_range region.pages (λ p. of_kind region.kind (map_of runs.now p))) }
    ensures small { IfOk result (λ v. AreSmall v.items) }
{
    let part = within(alloc, runs, region.pages)?;
    match region.kind {
        RegionKind::Memory => Ok(part),
        RegionKind::Device => {
            let out = device_runs(alloc, part.as_slice())?;
            Ok(out)
        }
    }
}

/// The coarsest list of runs for a host's map in which each leaf of a device's page is one of a device.
pub fn of_devices(alloc: Global, memory: &MemoryMap, runs: &[Run]) -> Result<Vec<Run>, AllocError>
    requires runs { AreSmall runs.now }
    requires coarsest { IsCoarsest runs.now }
    ensures map { IfOk result (λ v. map_of v.items ≡ (λ p. kind_in memory.now.regions p (map_of runs.now p))) }
    ensures coarsest { IfOk result (λ v. IsCoarsest v.items) }
    ensures small { IfOk result (λ v. AreSmall v.items) }
{
    let regions = memory.regions();
    let mut out = Vec::from_slice(alloc, runs)?;
    for i in (0..regions.len()).rev() {
        let part = of_region(alloc, runs, regions[i])?;
        out = overlaid(alloc, out, part.as_slice())?;
    }
    Ok(out)
}
