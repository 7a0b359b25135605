//! Layouts.
ghost use Rattle.std.specs.Prelude.{◌≡◌, ◌≢◌, ◌↔◌, Err, IfErr, IfOk, None, OnOk, map};
ghost use Rattle.page_state.specs.Geometries.{geometry_of};
ghost use Rattle.page_state.specs.LayoutFaults.{IsAccepted, IsFirstFault};
ghost use Rattle.page_state.specs.LayoutView.{layout_of as layout_of_code};
ghost use Rattle.c_states.specs.Layouts.{layout_from_c, memory_from_c, region_from_c, IsLayoutFault, IsTakenLayout};
ghost use Rattle.c_states.specs.Lists.{range_from_c};

use page_state::{
    Config, Geometry, Layout, LayoutFault, MemoryMap, Page, PageRange, Region, RegionKind,
};
use std::alloc::{AllocError, Global};

/// A range of pages of one kind.
#[repr(C)]
#[derive(Clone, Copy, PartialEq)]
pub struct PlainRegion {
    /// 0 memory; any other number for device registers.
    pub kind: u64,
    pub first: u64,
    pub count: u64,
}

/// What a hypervisor runs on.
#[repr(C)]
#[derive(Clone, Copy)]
pub struct PlainLayout<'a> {
    /// The width of input addresses: 39 or 48.
    pub address_bits: u64,
    pub cpus: u64,
    /// The carve-out, which the hypervisor's tables come from.
    pub carve_first: u64,
    pub carve_count: u64,
    pub regions: &'a [PlainRegion],
    /// What a hypervisor may choose, bit by bit. The judgement of a call reads it, and nothing else does.
    pub freedoms: u64,
}

/// Why numbers are no layout. The first that is true is answered, in the order of the variants.
#[derive(Clone, Copy, PartialEq)]
pub enum PlainLayoutFault {
    /// The width of input addresses is neither 39 nor 48.
    Geometry,
    /// The memory isn't accepted.
    Memory(LayoutFault),
    /// Memory was refused.
    NoMemory,
}

/// The range of these numbers.
pub(crate) fn range_of(first: u64, count: u64) -> PageRange
    ensures { result ≡ range_from_c first count }
{
    PageRange {
        first: Page(first),
        count,
    }
}

/// The region of these numbers.
fn region_of(region: PlainRegion) -> Region
    ensures { result ≡ region_from_c region }
{
    Region {
        kind: if region.kind == 0 {
            RegionKind::Memory
        } else {
            RegionKind::Device
        },
        pages: range_of(region.first, region.count),
    }
}

/// The regions of these numbers.
fn regions_of(alloc: Global, regions: &[PlainRegion]) -> Result<Vec<Region>, AllocError>
    ensures { IfOk result (λ v. v.items ≡ map region_from_c regions.now) }
{
    regions
        .iter()
        .map(|region| region_of(*region))
        .collect(alloc)
}

/// The memory of these numbers.
fn memory_of(alloc: Global, layout: &PlainLayout<'_>) -> Result<MemoryMap, PlainLayoutFault>
    ensures memory { IfOk result (λ m. m ≡ memory_from_c layout.now layout.now.regions.now) }
    ensures fault { (f : LayoutFault)
        → result ≡ Err (PlainLayoutFault.Memory f)
        → IsFirstFault f (memory_from_c layout.now layout.now.regions.now) }
    ensures accepted { OnOk result (IsAccepted (memory_from_c layout.now layout.now.regions.now)) }
    ensures geometry { result ≢ Err PlainLayoutFault.Geometry }
{
    let Ok(regions) = regions_of(alloc, layout.regions) else {
        return Err(PlainLayoutFault::NoMemory);
    };
    let carve = range_of(layout.carve_first, layout.carve_count);
    match MemoryMap::new(alloc, regions.as_slice(), carve) {
        Ok(memory) => Ok(memory),
        Err(LayoutFault::NoMemory) => Err(PlainLayoutFault::NoMemory),
        Err(fault) => Err(PlainLayoutFault::Memory(fault)),
    }
}

/// The layout of these numbers, if its memory is accepted. Each log has room for one call.
pub fn layout_of(alloc: Global, layout: &PlainLayout<'_>) -> Result<Layout, PlainLayoutFault>
    ensures layout { IfOk result (λ l. layout_of_code l ≡ layout_from_c layout.now layout.now.regions.now) }
    ensures config { IfOk result
        (λ l. l.config
        ≡ record { cpus = layout.now.cpus; log = 1; geometry = layout.now.address_bits }) }
    ensures geometry { (result ≡ Err PlainLayoutFault.Geometry) ↔ (geometry_of layout.now.address_bits ≡ None) }
    ensures taken { OnOk result (IsTakenLayout layout.now layout.now.regions.now) }
    ensures fault { IfErr result (IsLayoutFault layout.now layout.now.regions.now) }
{
    let bits = layout.address_bits;
    let Some(geometry) = Geometry::of_bits(bits) else {
        return Err(PlainLayoutFault::Geometry);
    };
    let map = memory_of(alloc, layout)?;
    Ok(Layout {
        map,
        config: Config {
            cpus: layout.cpus,
            log: 1,
            geometry: bits,
        },
        geometry,
    })
}
