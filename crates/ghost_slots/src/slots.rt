//! Slots: their vCPUs, guests and tickets.
ghost use Rattle.std.specs.Prelude.{◌≡◌, ℕ, ◌≤◌, ◌<◌, ◌↔◌, IsTrue, MatchOption, Some};
ghost use Rattle.reference_model.specs.claims.Sound.{HasLoaded, HasTicket, IsGuestOf, IsOne};
ghost use Rattle.reference_model.specs.help.Conditions.{SlotsFit};
ghost use Rattle.ghost_spec.specs.States.{contents_in, IsKept};
ghost use Rattle.ghost_slots.specs.Faults.{AreSlotsBelow, AreVcpusFitting, CpuFits, GuestAgrees, HasItsTicket, IsFirstVcpu, IsSlotFault, SlotFits, VcpuOn};
ghost use Rattle.ghost_slots.specs.Tickets.{IsFirstTicket, IsTicketFrom};

use crate::fault::SlotFault;
use crate::places::{
    cpu_at, guest_at, is_closing, is_empty, is_live, is_opened, is_reserved, is_vacant, slot_at,
};
use ghost_spec::lists::GhostLists;

/// Whether a CPU has a vCPU of a slot loaded.
fn loads(state: &GhostLists, cpu: u64, slot: u64, vcpu: u64) -> bool
    requires kept { IsKept state.now }
    requires cpu { cpu < state.now.layout.config.cpus }
    ensures { IsTrue result ↔ HasLoaded (contents_in state.now) slot vcpu cpu }
{
    match cpu_at(state, cpu).loaded {
        Some(loaded) => loaded.vm.slot == slot && loaded.vcpu == vcpu,
        None => false,
    }
}

/// Whether the CPU that a slot names for a vCPU has it loaded.
fn is_vcpu_on(state: &GhostLists, slot: u64, vcpu: u64, cpu: u64) -> bool
    requires kept { IsKept state.now }
    requires slot { slot < 64 }
    ensures { IsTrue result ↔ VcpuOn (contents_in state.now) slot vcpu (Some cpu) }
{
    if vcpu >= 8 {
        return false;
    }
    if !is_opened(slot_at(state, slot).stand) {
        return false;
    }
    if cpu >= state.layout.config.cpus {
        return false;
    }
    loads(state, cpu, slot, vcpu)
}

/// The same for a vCPU that may be loaded by no CPU.
fn is_vcpu(state: &GhostLists, slot: u64, vcpu: u64, on: Option<u64>) -> bool
    requires kept { IsKept state.now }
    requires slot { slot < 64 }
    ensures { IsTrue result ↔ VcpuOn (contents_in state.now) slot vcpu on }
{
    match on {
        Some(cpu) => is_vcpu_on(state, slot, vcpu, cpu),
        None => true,
    }
}

/// The first vCPU of a slot that isn't.
fn first_vcpu(state: &GhostLists, slot: u64) -> Option<u64>
    requires kept { IsKept state.now }
    requires slot { slot < 64 }
    ensures { MatchOption result (AreVcpusFitting (contents_in state.now) slot)
        (IsFirstVcpu (contents_in state.now) slot) }
{
    let loaded = slot_at(state, slot).loaded.as_slice();
    for i in 0..loaded.len() {
        if !is_vcpu(state, slot, i as u64, loaded[i]) {
            return Some(i as u64);
        }
    }
    None
}

/// Whether a guest is of its slot.
#[tactic(auto, using(call_table::proofs::Equality::kinds_tell))]
fn is_same_vm(state: &GhostLists, slot: u64) -> bool
    requires kept { IsKept state.now }
    requires slot { slot < 64 }
    ensures { IsTrue result ↔ IsGuestOf (contents_in state.now) slot }
{
    let own = slot_at(state, slot);
    let guest = guest_at(state, slot);
    if guest.generation != own.generation {
        return false;
    }
    guest.kind == own.kind
}

/// Whether a slot and its guest agree.
fn agrees(state: &GhostLists, slot: u64) -> bool
    requires kept { IsKept state.now }
    requires slot { slot < 64 }
    ensures { IsTrue result ↔ GuestAgrees (contents_in state.now) slot }
{
    let stand = slot_at(state, slot).stand;
    let phase = guest_at(state, slot).phase;
    if is_opened(stand) && !is_live(phase) {
        return false;
    }
    if is_empty(phase) {
        return true;
    }
    if is_vacant(stand) {
        return false;
    }
    is_same_vm(state, slot)
}

/// Whether a CPU has a ticket of a slot.
fn has_ticket(state: &GhostLists, cpu: u64, slot: u64) -> bool
    requires kept { IsKept state.now }
    requires cpu { cpu < state.now.layout.config.cpus }
    ensures { IsTrue result ↔ HasTicket (contents_in state.now) slot cpu }
{
    match cpu_at(state, cpu).ticket {
        Some(ticket) => ticket.vm.slot == slot,
        None => false,
    }
}

/// The first CPU from one on that has a ticket of a slot.
fn ticket_from(state: &GhostLists, slot: u64, from: u64) -> Option<u64>
    requires { IsKept state.now }
    ensures { IsTicketFrom state.now slot from result }
{
    for cpu in from..state.layout.config.cpus {
        if has_ticket(state, cpu, slot) {
            return Some(cpu);
        }
    }
    None
}

/// Whether no CPU after the first that has a ticket of a slot has another.
fn is_only_ticket(state: &GhostLists, slot: u64, cpu: u64) -> bool
    requires kept { IsKept state.now }
    requires first { IsFirstTicket (contents_in state.now) state.now.layout.config.cpus slot 0 cpu }
    ensures { IsTrue result ↔ IsOne (HasTicket (contents_in state.now) slot) }
{
    match ticket_from(state, slot, cpu + 1) {
        Some(_) => false,
        None => true,
    }
}

/// Whether exactly one CPU has a ticket of a slot.
fn has_one_ticket(state: &GhostLists, slot: u64) -> bool
    requires { IsKept state.now }
    ensures { IsTrue result ↔ IsOne (HasTicket (contents_in state.now) slot) }
{
    match ticket_from(state, slot, 0) {
        Some(cpu) => is_only_ticket(state, slot, cpu),
        None => false,
    }
}

/// Whether a slot that is to be named by a ticket is.
fn is_named(state: &GhostLists, slot: u64) -> bool
    requires kept { IsKept state.now }
    requires slot { slot < 64 }
    ensures { IsTrue result ↔ HasItsTicket (contents_in state.now) slot }
{
    let stand = slot_at(state, slot).stand;
    if is_reserved(stand) {
        return has_one_ticket(state, slot);
    }
    if is_closing(stand) {
        return has_one_ticket(state, slot);
    }
    true
}

/// The first fault of a slot.
fn slot_fault(state: &GhostLists, slot: u64) -> Option<SlotFault>
    requires kept { IsKept state.now }
    requires slot { slot < 64 }
    requires before { AreSlotsBelow (contents_in state.now) slot }
    ensures { MatchOption result (SlotFits (contents_in state.now) slot)
        (IsSlotFault (contents_in state.now)) }
{
    if let Some(vcpu) = first_vcpu(state, slot) {
        return Some(SlotFault::Vcpu(slot, vcpu));
    }
    if !agrees(state, slot) {
        return Some(SlotFault::Guest(slot));
    }
    if !is_named(state, slot) {
        return Some(SlotFault::Tickets(slot));
    }
    None
}

/// The first fault of the slots.
pub(crate) fn first_slot(state: &GhostLists) -> Option<SlotFault>
    requires kept { IsKept state.now }
    requires cpus { (c : ℕ) → CpuFits (contents_in state.now) c }
    ensures { MatchOption result (SlotsFit (contents_in state.now)) (IsSlotFault (contents_in state.now)) }
{
    for slot in 0..64 {
        if let Some(found) = slot_fault(state, slot) {
            return Some(found);
        }
    }
    None
}
