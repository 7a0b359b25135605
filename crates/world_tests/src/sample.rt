//! What tests begin with: memory, a configuration, and the boot state on lists.
ghost use Rattle.std.specs.Prelude.{◌≡◌, ◌<◌, ◌↔◌, IfOk, IfSome, IsSome};
ghost use Rattle.reference_model.specs.model.Boot.{IsCarveEnough};
ghost use Rattle.world_tests.specs.Samples.{config_39, region as region_of, sample_regions};

use ghost_spec::start::start;
use ghost_spec::state::Ghost;
use page_state::{
    Config, Geometry, Layout, LayoutFault, MemoryMap, Page, PageRange, Region, RegionKind,
};
use std::alloc::{AllocError, Global};

/// A region of `count` pages.
pub(crate) fn region(kind: RegionKind, first: u64, count: u64) -> Region
    ensures { result ≡ region_of kind first count }
{
    let pages = PageRange {
        first: Page(first),
        count,
    };
    Region { kind, pages }
}

/// 16 pages of a device from page 0x9000 on, and 2,048 of memory from 0x40000 on, with a carve-out of `frames` frames
/// at 0x40600. Refused if the carve-out is empty or ends past the memory.
pub(crate) fn memory(alloc: Global, frames: u64) -> Result<MemoryMap, LayoutFault>
    ensures regions { IfOk result (λ m. m.regions ≡ sample_regions) }
    ensures carve { IfOk result (λ m. m.carve ≡ record { first = record { 0 = 0x40600 }; count = frames }) }
{
    let regions = [
        region(RegionKind::Device, 0x9000, 16),
        region(RegionKind::Memory, 0x40000, 0x800),
    ];
    let carve = PageRange {
        first: Page(0x40600),
        count: frames,
    };
    MemoryMap::new(alloc, regions.as_slice(), carve)
}

/// A configuration of 39 bits.
pub(crate) fn config(cpus: u64, log: u64) -> Config
    ensures { result ≡ config_39 cpus log }
{
    Config {
        cpus,
        log,
        geometry: 39,
    }
}

/// The boot state of a memory. None if its carve-out has too few frames.
pub(crate) fn started(
    alloc: Global,
    map: MemoryMap,
    cpus: u64,
    log: u64,
) -> Result<Option<Ghost>, AllocError>
    requires { 0 < cpus }
    ensures enough { IfOk result
        (λ o. IsSome o
        ↔ IsCarveEnough (record { memory = map; config = config_39 cpus log; depth = 2 })) }
    ensures config { IfOk result (λ o. IfSome o (λ g. g.layout.config ≡ config_39 cpus log)) }
    ensures memory { IfOk result (λ o. IfSome o (λ g. g.layout.map ≡ map)) }
{
    let layout = Layout {
        map,
        config: config(cpus, log),
        geometry: Geometry::Bits39,
    };
    start(alloc, layout)
}
