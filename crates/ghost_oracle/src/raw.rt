//! The parts of a world some of whose trees were poked.
ghost use Rattle.std.specs.Prelude.{◌≡◌, vec_len, All, IfSome};
ghost use Rattle.ghost_oracle.specs.Levels.{each_prop};
ghost use Rattle.page_state.specs.Geometries.{levels_below};
ghost use Rattle.part_types.specs.MemoryRows.{HasMemoryRows};

use call_table::VmKind;
use guest_component::Phase;
use hyp_pool::Pool;
use maplets::Maplets;
use owner_table::OwnerTable;
use page_state::Layout;
use part_types::{CpuState, GuestPart, Log, VmPart};
use std::alloc::Allocator;
use table_tree::RawTree;

/// A tree of a world: the host's, the hypervisor's, or a guest's by its slot.
#[derive(Clone, Copy, PartialEq)]
pub enum Which {
    Host,
    Hyp,
    Guest(u64),
}

/// A tree that may have been poked, and the maplets that are kept beside it.
#[derive(Drop)]
pub struct RawComponent<A: Allocator> {
    pub tree: RawTree<A>,
    pub maplets: Maplets,
}

/// What the Shared part holds.
#[derive(Drop)]
pub struct RawShared<A: Allocator> {
    pub host: RawComponent<A>,
    pub hyp: RawComponent<A>,
    pub pool: Pool,
    pub owners: OwnerTable,
    pub log: Log,
}

/// What a guest that was poked holds.
#[derive(Drop)]
pub struct RawGuest<A: Allocator> {
    pub phase: Phase,
    pub generation: u64,
    pub kind: VmKind,
    pub map: RawComponent<A>,
    pub pool: Pool,
}

/// All parts. A guest that was poked is at its slot's place of `poked`, and its Guest part then holds an Empty one.
#[derive(Drop)]
pub struct RawParts<A: Allocator> {
    pub layout: Layout,
    pub vms: VmPart,
    pub shared: RawShared<A>,
    pub guests: Vec<GuestPart<A>>,
    pub poked: Vec<Option<RawGuest<A>>>,
    pub cpus: Vec<CpuState>,
    pub ghost slots: { vec_len guests ≡ 64 },
    pub ghost places: { vec_len poked ≡ 64 },
    pub ghost counted: { vec_len cpus ≡ layout.config.cpus },
    pub ghost memory_rows: { HasMemoryRows layout.map shared.owners },
    pub ghost host_depth: { levels_below shared.host.tree.geometry ≡ levels_below layout.geometry },
    pub ghost hyp_depth: { levels_below shared.hyp.tree.geometry ≡ levels_below layout.geometry },
    pub ghost guest_depth: { All (λ g. levels_below g.guest.geometry ≡ levels_below layout.geometry) guests.items },
    pub ghost poked_depth: { All (λ o. IfSome o (λ g. levels_below g.map.tree.geometry ≡ levels_below layout.geometry)) poked.items } by { each_prop (λ g. levels_below g.map.tree.geometry) (levels_below layout.geometry) poked.items },
}
