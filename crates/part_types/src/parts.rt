//! The parts, and the CPUs' own states.
ghost use Rattle.std.specs.Prelude.{◌≡◌};
ghost use Rattle.part_types.specs.Apart.{IsApart, IsApart-prop};
ghost use Rattle.page_state.specs.Geometries.{levels_below};

use crate::log::Log;
use component::Component;
use guest_component::Guest;
use hyp_pool::Pool;
use owner_table::OwnerTable;
use page_state::PageRange;
use reference_model::{Loaded, Ticket};
use std::alloc::Allocator;
use vm_table::VmTable;

/// The VM part: the table of the 64 VM slots, and its log.
#[derive(Drop)]
pub struct VmPart {
    pub table: VmTable,
    pub log: Log,
}

/// The Shared part: the host's and the hypervisor's map, the pool of frames for their tables, the owner rows, and its log.
#[derive(Drop)]
pub struct SharedPart<A: Allocator> {
    pub host: Component<A>,
    pub hyp: Component<A>,
    pub pool: Pool,
    pub owners: OwnerTable,
    pub log: Log,
    pub ghost apart: { IsApart host.tree hyp.tree pool } by { IsApart-prop host.tree hyp.tree pool },
    pub ghost alike: { levels_below hyp.tree.geometry ≡ levels_below host.tree.geometry },
}

/// A Guest part: its guest, and its log.
#[derive(Drop)]
pub struct GuestPart<A: Allocator> {
    pub guest: Guest<A>,
    pub log: Log,
}

/// One CPU's own state, and the log of its own calls.
#[derive(Drop)]
pub struct CpuState {
    /// Its number, which never changes.
    pub id: u64,
    /// The vCPU that it has loaded.
    pub loaded: Option<Loaded>,
    /// Its hand: a range of funded frames.
    pub hand: Option<PageRange>,
    /// Its ticket.
    pub ticket: Option<Ticket>,
    pub log: Log,
}
