//! The rules of the calls on the VM part: the refusal of the first of a call's tests that fails, or all its changes.
ghost use Rattle.std.specs.Prelude.{◌≡◌, ℕ, ◌<◌, ◌&&◌, ◌||◌, Option, IfOk, IfSome, is_some, length, nat_le, nat_lt, true};
ghost use Rattle.call_table.specs.declared.step.Step.TheVariants.{VmReserve, VmOpen, VcpuLoad, VcpuPut, Teardown, VmRelease};
ghost use Rattle.page_state.specs.Layouts.{Layout as ReferenceLayout};
ghost use Rattle.reference_model.specs.declared.changes.Update.TheVariants.{Becomes};
ghost use Rattle.reference_model.specs.model.Decides.{decides};
ghost use Rattle.reference_model.specs.model.Changes.{same_cpu};
ghost use Rattle.reference_model.specs.model.Parts.{has_stage as has_stage_of};
ghost use Rattle.reference_model.specs.model.State.{vacant};
ghost use Rattle.reference_model.specs.model.VmRules.{is_any_loaded as is_any_loaded_of, is_open as is_open_of, load_becomes, load_of as load_of_cpu, stand_eq, vacant_slot as vacant_slot_of};
ghost use Rattle.ghost_spec.specs.Kept.{AreSmallChanges, HasNextGeneration, IsKeptCpu};
ghost use Rattle.ghost_spec.specs.States.{slot_in};
ghost use Rattle.ghost_spec.specs.Used.{IsKeptUsed, used_in, vms_in};
ghost use Rattle.ghost_spec.specs.Views.{cpu_in};

use crate::cpu::GhostCpu;
use crate::parts::{GhostSlot, GhostStand};
use crate::step_uses::{has_stage, ticket_vm};
use crate::used::GhostUsed;
use call_table::{Refusal, Value, VmId, VmKind};
use reference_model::{Changes, CpuChange, Loaded, SlotChange, Stage, Ticket, Update};

/// The slots of VMs (profile).
const SLOTS: u64 = 64;

/// The most vCPUs of a VM (profile).
const MOST_VCPUS: u64 = 8;

/// A slot of the VM part.
fn slot_at(vms: &[GhostSlot], slot: u64) -> &GhostSlot
    requires { slot < length vms.now }
    ensures { slot_in result.now ≡ (vms_in vms.now).slot slot }
{
    &vms[slot as usize]
}

/// Whether a slot is Empty.
fn is_vacant(slot: &GhostSlot) -> bool
    ensures { result ≡ stand_eq (slot_in slot.now).stand vacant }
{
    matches!(slot.stand, GhostStand::Vacant)
}

/// The lowest Empty slot.
fn vacant_slot(vms: &[GhostSlot]) -> Option<u64>
    requires { length vms.now ≡ 64 }
    ensures value { result ≡ vacant_slot_of (vms_in vms.now) }
    ensures low { IfSome result (λ v. v < 64) }
{
    for slot in 0..SLOTS {
        if is_vacant(slot_at(vms, slot)) {
            return Some(slot);
        }
    }
    None
}

/// Whether a slot is Open with the generation of the name.
fn is_open(vm: VmId, slot: &GhostSlot) -> bool
    ensures { result ≡ is_open_of vm (slot_in slot.now) }
{
    matches!(slot.stand, GhostStand::Opened) && slot.generation == vm.generation
}

/// Whether a CPU has a vCPU of the slot loaded.
fn is_loaded(slot: &GhostSlot, vcpu: u64) -> bool
    ensures { result ≡ is_some ((slot_in slot.now).loaded vcpu) }
{
    match slot.loaded.get(vcpu as usize) {
        Some(loaded) => loaded.is_some(),
        None => false,
    }
}

/// Whether a CPU has any vCPU of the slot loaded.
fn is_any_loaded(slot: &GhostSlot) -> bool
    ensures { result ≡ is_any_loaded_of (slot_in slot.now) }
{
    for vcpu in 0..MOST_VCPUS {
        if is_loaded(slot, vcpu) {
            return true;
        }
    }
    false
}

/// The vCPU that a CPU has loaded, or a vCPU of no VM if it has none.
fn load_of(own: &GhostCpu) -> Loaded
    requires { IsKeptCpu own.now }
    ensures value { result ≡ load_of_cpu (cpu_in own.now) }
    ensures low { result.vm.slot < 64 }
{
    match own.loaded {
        Some(loaded) => loaded,
        None => Loaded {
            vm: VmId {
                slot: 0,
                generation: 0,
            },
            vcpu: 0,
        },
    }
}

/// The CPU's ticket becomes this.
fn ticket_becomes(ticket: Option<Ticket>) -> CpuChange
    ensures { result ≡ record same_cpu { ticket = Becomes ticket } }
{
    CpuChange {
        ticket: Update::Becomes(ticket),
        ..CpuChange::NONE
    }
}

/// The vCPU that the CPU has loaded becomes this.
fn loaded_becomes(loaded: Option<Loaded>) -> CpuChange
    ensures { result ≡ load_becomes loaded }
{
    CpuChange {
        loaded: Update::Becomes(loaded),
        ..CpuChange::NONE
    }
}

/// Whether a VM may have this number of vCPUs.
fn is_good_count(vcpus: u64) -> bool
    ensures { result ≡ (nat_le 1 vcpus && nat_le vcpus 8) }
{
    vcpus >= 1 && vcpus <= MOST_VCPUS
}

/// A slot is reserved: the lowest Empty one.
#[tactic(auto, unfolding(reference_model::specs::model::Rules::rule))]
pub(crate) fn vm_reserve(used: &GhostUsed, kind: VmKind, vcpus: u64) -> Result<Changes, Refusal>
    requires { length used.now.vms.items ≡ 64 }
    ensures decided { (l : ReferenceLayout) (cpu : ℕ) (slot : Option ℕ)
        → result ≡ decides l cpu slot (VmReserve kind vcpus) (used_in used.now) }
    ensures small { IfOk result AreSmallChanges }
{
    if !is_good_count(vcpus) {
        return Err(Refusal::Invalid);
    }
    if used.own.ticket.is_some() {
        return Err(Refusal::Busy);
    }
    let Some(slot) = vacant_slot(used.vms.as_slice()) else {
        return Err(Refusal::Busy);
    };
    let vm = VmId {
        slot,
        generation: slot_at(used.vms.as_slice(), slot).generation,
    };
    Ok(Changes {
        slot: SlotChange::Reserve { slot, kind, vcpus },
        cpu: ticket_becomes(Some(Ticket {
            vm,
            kind,
            stage: Stage::Booked,
        })),
        value: Value::Vm(vm),
        ..Changes::NONE
    })
}

/// An installed VM opens.
#[tactic(auto, unfolding(reference_model::specs::model::Rules::rule))]
pub(crate) fn vm_open(used: &GhostUsed) -> Result<Changes, Refusal>
    requires { IsKeptUsed used.now }
    ensures decided { (l : ReferenceLayout) (cpu : ℕ) (slot : Option ℕ)
        → result ≡ decides l cpu slot VmOpen (used_in used.now) }
    ensures small { IfOk result AreSmallChanges }
{
    if !has_stage(Stage::Installed, &used.own) {
        return Err(Refusal::NoVm);
    }
    let vm = ticket_vm(&used.own);
    Ok(Changes {
        slot: SlotChange::Open { slot: vm.slot },
        cpu: ticket_becomes(None),
        value: Value::Vm(vm),
        ..Changes::NONE
    })
}

/// The CPU loads a vCPU.
#[tactic(auto, unfolding(reference_model::specs::model::Rules::rule))]
pub(crate) fn vcpu_load(used: &GhostUsed, cpu: u64, vm: VmId, vcpu: u64) -> Result<Changes, Refusal>
    requires { nat_lt vm.slot 64 ≡ true → length used.now.vms.items ≡ 64 }
    ensures decided { (l : ReferenceLayout) (slot : Option ℕ)
        → result ≡ decides l cpu slot (VcpuLoad vm vcpu) (used_in used.now) }
    ensures small { IfOk result AreSmallChanges }
{
    if vm.slot >= SLOTS || vcpu >= MOST_VCPUS {
        return Err(Refusal::Invalid);
    }
    let slot = slot_at(used.vms.as_slice(), vm.slot);
    if !is_open(vm, slot) {
        return Err(Refusal::NoVm);
    }
    if used.own.loaded.is_some() || is_loaded(slot, vcpu) {
        return Err(Refusal::Busy);
    }
    if vcpu >= slot.vcpus {
        return Err(Refusal::Perm);
    }
    Ok(Changes {
        slot: SlotChange::Load {
            slot: vm.slot,
            vcpu,
            cpu,
        },
        cpu: loaded_becomes(Some(Loaded { vm, vcpu })),
        ..Changes::NONE
    })
}

/// The CPU puts its vCPU back.
#[tactic(auto, unfolding(reference_model::specs::model::Rules::rule))]
pub(crate) fn vcpu_put(used: &GhostUsed) -> Result<Changes, Refusal>
    requires { IsKeptUsed used.now }
    ensures decided { (l : ReferenceLayout) (cpu : ℕ) (slot : Option ℕ)
        → result ≡ decides l cpu slot VcpuPut (used_in used.now) }
    ensures small { IfOk result AreSmallChanges }
{
    if used.own.loaded.is_none() {
        return Err(Refusal::NoVm);
    }
    let loaded = load_of(&used.own);
    Ok(Changes {
        slot: SlotChange::Unload {
            slot: loaded.vm.slot,
            vcpu: loaded.vcpu,
        },
        cpu: loaded_becomes(None),
        ..Changes::NONE
    })
}

/// An Open VM closes.
#[tactic(auto, unfolding(reference_model::specs::model::Rules::rule))]
pub(crate) fn teardown(used: &GhostUsed, vm: VmId) -> Result<Changes, Refusal>
    requires { nat_lt vm.slot 64 ≡ true → length used.now.vms.items ≡ 64 }
    ensures decided { (l : ReferenceLayout) (cpu : ℕ) (slot : Option ℕ)
        → result ≡ decides l cpu slot (Teardown vm) (used_in used.now) }
    ensures small { IfOk result AreSmallChanges }
{
    if vm.slot >= SLOTS {
        return Err(Refusal::Invalid);
    }
    let slot = slot_at(used.vms.as_slice(), vm.slot);
    if !is_open(vm, slot) {
        return Err(Refusal::NoVm);
    }
    if used.own.ticket.is_some() || is_any_loaded(slot) {
        return Err(Refusal::Busy);
    }
    Ok(Changes {
        slot: SlotChange::Close { slot: vm.slot },
        cpu: ticket_becomes(Some(Ticket {
            vm,
            kind: slot.kind,
            stage: Stage::Closing,
        })),
        ..Changes::NONE
    })
}

/// Whether nothing of the ticket's VM is installed, or everything given back.
fn is_at_end(own: &GhostCpu) -> bool
    ensures { result
        ≡ (has_stage_of Stage.Booked (cpu_in own.now)
        || has_stage_of Stage.Finished (cpu_in own.now)) }
{
    has_stage(Stage::Booked, own) || has_stage(Stage::Finished, own)
}

/// The slot of a ticket becomes Empty.
#[tactic(auto, unfolding(reference_model::specs::model::Rules::rule))]
pub(crate) fn vm_release(used: &GhostUsed) -> Result<Changes, Refusal>
    requires kept { IsKeptUsed used.now }
    requires generation { HasNextGeneration used.now.own.ticket VmRelease }
    ensures decided { (l : ReferenceLayout) (cpu : ℕ) (slot : Option ℕ)
        → result ≡ decides l cpu slot VmRelease (used_in used.now) }
    ensures small { IfOk result AreSmallChanges }
{
    if !is_at_end(&used.own) {
        return Err(Refusal::NoVm);
    }
    Ok(Changes {
        slot: SlotChange::Release {
            vm: ticket_vm(&used.own),
        },
        cpu: ticket_becomes(None),
        ..Changes::NONE
    })
}
