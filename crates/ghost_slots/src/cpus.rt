//! CPUs' own states: loads, hands and tickets.
ghost use Rattle.std.specs.Prelude.{◌≡◌, ℕ, ◌<◌, ◌↔◌, IsTrue, MatchOption, Some};
ghost use Rattle.reference_model.specs.claims.Sound.{IsTicketOf};
ghost use Rattle.ghost_spec.specs.Kept.{HasLowLoad, HasLowTicket};
ghost use Rattle.ghost_spec.specs.States.{contents_in, slot_in, IsKept};
ghost use Rattle.ghost_slots.specs.Faults.{CpuFits, HandOn, IsSlotFault, LoadOn, TicketOn};

use crate::fault::SlotFault;
use crate::places::{cpu_at, fits_stage, guest_at, slot_at};
use ghost_spec::lists::GhostLists;
use ghost_spec::parts::GhostSlot;
use page_state::PageRange;
use reference_model::{Loaded, Ticket};

/// Whether a slot has a vCPU loaded on a CPU.
fn has_loaded(slot: &GhostSlot, vcpu: u64, cpu: u64) -> bool
    ensures { IsTrue result ↔ ((slot_in slot.now).loaded vcpu ≡ Some cpu) }
{
    let loaded = slot.loaded.as_slice();
    if vcpu >= loaded.len() as u64 {
        return false;
    }
    match loaded[vcpu as usize] {
        Some(other) => other == cpu,
        None => false,
    }
}

/// Whether the slot of a CPU's loaded vCPU names the CPU for it.
fn is_load(state: &GhostLists, cpu: u64, load: Loaded) -> bool
    requires kept { IsKept state.now }
    requires slot { load.vm.slot < 64 }
    ensures { IsTrue result ↔ LoadOn (contents_in state.now) cpu (Some load) }
{
    let slot = slot_at(state, load.vm.slot);
    if slot.generation != load.vm.generation {
        return false;
    }
    has_loaded(slot, load.vcpu, cpu)
}

/// The same for a CPU that may have no vCPU loaded.
fn is_loaded(state: &GhostLists, cpu: u64, loaded: Option<Loaded>) -> bool
    requires kept { IsKept state.now }
    requires low { HasLowLoad loaded }
    ensures { IsTrue result ↔ LoadOn (contents_in state.now) cpu loaded }
{
    match loaded {
        Some(load) => is_load(state, cpu, load),
        None => true,
    }
}

/// Whether a hand, if there is one, has a frame.
fn has_frame(hand: Option<PageRange>) -> bool
    ensures { IsTrue result ↔ HandOn hand }
{
    match hand {
        Some(range) => range.count > 0,
        None => true,
    }
}

/// Whether a ticket is its slot's.
#[tactic(auto, using(call_table::proofs::Equality::kinds_tell))]
fn is_of_slot(state: &GhostLists, ticket: Ticket) -> bool
    requires kept { IsKept state.now }
    requires slot { ticket.vm.slot < 64 }
    ensures { IsTrue result ↔ IsTicketOf (contents_in state.now) ticket }
{
    let slot = slot_at(state, ticket.vm.slot);
    let guest = guest_at(state, ticket.vm.slot);
    if slot.generation != ticket.vm.generation {
        return false;
    }
    if slot.kind != ticket.kind {
        return false;
    }
    fits_stage(ticket.stage, slot.stand, guest.phase)
}

/// The same for a CPU that may have no ticket.
fn is_ticket(state: &GhostLists, ticket: Option<Ticket>) -> bool
    requires kept { IsKept state.now }
    requires low { HasLowTicket ticket }
    ensures { IsTrue result ↔ TicketOn (contents_in state.now) ticket }
{
    match ticket {
        Some(ticket) => is_of_slot(state, ticket),
        None => true,
    }
}

/// The first fault of a CPU's own state.
fn cpu_fault(state: &GhostLists, cpu: u64) -> Option<SlotFault>
    requires kept { IsKept state.now }
    requires cpu { cpu < state.now.layout.config.cpus }
    requires before { (d : ℕ) → d < cpu → CpuFits (contents_in state.now) d }
    ensures { MatchOption result (CpuFits (contents_in state.now) cpu)
        (IsSlotFault (contents_in state.now)) }
{
    let own = cpu_at(state, cpu);
    if !is_loaded(state, cpu, own.loaded) {
        return Some(SlotFault::Load(cpu));
    }
    if !has_frame(own.hand) {
        return Some(SlotFault::Hand(cpu));
    }
    if !is_ticket(state, own.ticket) {
        return Some(SlotFault::Ticket(cpu));
    }
    None
}

/// The first fault of the CPUs' own states.
pub(crate) fn first_cpu(state: &GhostLists) -> Option<SlotFault>
    requires { IsKept state.now }
    ensures { MatchOption result ((c : ℕ) → CpuFits (contents_in state.now) c)
        (IsSlotFault (contents_in state.now)) }
{
    for cpu in 0..state.layout.config.cpus {
        if let Some(found) = cpu_fault(state, cpu) {
            return Some(found);
        }
    }
    None
}
