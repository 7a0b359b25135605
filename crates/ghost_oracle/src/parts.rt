//! What isn't in tables, on lists: the VM part's slots, the CPUs' own states, and the rooms of logs.
ghost use Rattle.std.specs.Prelude.{◌≡◌, ℕ, ◌-◌, ◌<◌, ◌≤◌, All, IfOk, IsTrue, None, get_or, length, map};
ghost use Rattle.reference_model.specs.model.State.{no_cpu, no_slot};
ghost use Rattle.part_types.specs.Logs.{IsOfSize};
ghost use Rattle.part_types.specs.View.{cpu_of};
ghost use Rattle.vm_table.specs.View.{slot_of, stand_of, vms_of};
ghost use Rattle.ghost_spec.specs.States.{slot_in, stand_in, AreKeptCpus};
ghost use Rattle.ghost_spec.specs.Views.{cpu_in};
ghost use Rattle.ghost_oracle.specs.Low.{IsLowCpu};

use ghost_spec::cpu::GhostCpu;
use ghost_spec::lists::GhostRooms;
use ghost_spec::parts::{GhostSlot, GhostStand};
use page_state::Layout;
use part_types::{CpuState, GuestPart};
use std::alloc::{AllocError, Allocator, Global};
use vm_table::{Slot, SlotState, VmTable};

/// What a state holds beside its trees, their pools and the owner rows.
#[derive(Drop)]
pub(crate) struct SlotsAndCpus {
    pub layout: Layout,
    pub vms: Vec<GhostSlot>,
    pub cpus: Vec<GhostCpu>,
    pub rooms: GhostRooms,
}

/// The stage of a slot, as lists have it.
pub fn stand_from(state: SlotState) -> GhostStand
    ensures { stand_in result ≡ stand_of state }
{
    match state {
        SlotState::Vacant => GhostStand::Vacant,
        SlotState::Reserved => GhostStand::Reserved,
        SlotState::Open => GhostStand::Opened,
        SlotState::Closing => GhostStand::Closing,
    }
}

/// Whether no vCPU is loaded.
fn is_idle(loaded: &[Option<u64>]) -> bool
    ensures { IsTrue result → (i : ℕ) → get_or loaded.now i None ≡ None }
{
    for load in loaded {
        if load.is_some() {
            return false;
        }
    }
    true
}

/// The CPU that has each vCPU loaded. Where none is loaded the list is empty, and takes no memory.
fn loads_from(alloc: Global, loaded: &[Option<u64>]) -> Result<Vec<Option<u64>>, AllocError>
    ensures { IfOk result (λ v. (i : ℕ) → get_or v.items i None ≡ get_or loaded.now i None) }
{
    if is_idle(loaded) {
        return Ok(Vec::new(alloc));
    }
    Vec::from_slice(alloc, loaded)
}

/// A slot.
fn slot_from(alloc: Global, slot: Slot) -> Result<GhostSlot, AllocError>
    ensures { IfOk result (λ s. slot_in s ≡ slot_of slot) }
{
    Ok(GhostSlot {
        stand: stand_from(slot.state),
        generation: slot.generation,
        kind: slot.kind,
        vcpus: slot.vcpus,
        loaded: loads_from(alloc, slot.loaded.as_slice())?,
    })
}

/// The 64 slots.
pub(crate) fn slots_from(alloc: Global, table: &VmTable) -> Result<Vec<GhostSlot>, AllocError>
    ensures slots { IfOk result
        (λ v. (slot : ℕ)
        → get_or (map slot_in v.items) slot (no_slot 1) ≡ (vms_of table.now).slot slot) }
    ensures count { IfOk result (λ v. length v.items ≡ 64) }
{
    table.empty_past();
    let mut slots = Vec::with_capacity(alloc, 64)?;
    for slot in 0..64u64 {
        slots.push(slot_from(alloc, table.slot(slot))?)?;
    }
    Ok(slots)
}

/// A CPU's own state.
pub(crate) fn cpu_from(cpu: &CpuState) -> GhostCpu
    ensures { cpu_in result ≡ cpu_of cpu.now }
{
    GhostCpu {
        loaded: cpu.loaded,
        hand: cpu.hand,
        ticket: cpu.ticket,
    }
}

/// The CPUs' own states.
pub(crate) fn cpus_from(alloc: Global, cpus: &[CpuState]) -> Result<Vec<GhostCpu>, AllocError>
    ensures { IfOk result (λ v. map cpu_in v.items ≡ map cpu_of cpus.now) }
{
    let mut states = Vec::with_capacity(alloc, cpus.len())?;
    for cpu in cpus {
        states.push(cpu_from(cpu))?;
    }
    Ok(states)
}

/// The rooms of the CPUs' logs.
pub(crate) fn cpu_rooms(alloc: Global, cpus: &[CpuState]) -> Result<Vec<u64>, AllocError>
    ensures { IfOk result (λ v. v.items ≡ map (λ k. k.log.room) cpus.now) }
{
    let mut rooms = Vec::with_capacity(alloc, cpus.len())?;
    for cpu in cpus {
        rooms.push(cpu.log.room())?;
    }
    Ok(rooms)
}

/// The rooms of the guests' logs.
pub(crate) fn guest_rooms<A: Allocator>(
    alloc: Global,
    guests: &[GuestPart<A>],
) -> Result<Vec<u64>, AllocError>
    ensures { IfOk result (λ v. v.items ≡ map (λ g. g.log.room) guests.now) }
{
    let mut rooms = Vec::with_capacity(alloc, guests.len())?;
    for guest in guests {
        rooms.push(guest.log.room())?;
    }
    Ok(rooms)
}
