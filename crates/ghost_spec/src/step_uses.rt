//! The parts that a step uses: the slot of its guest, and whether it uses the VM part and the Shared part.
ghost use Rattle.std.specs.Prelude.{◌≡◌, ◌<◌};
ghost use Rattle.reference_model.specs.model.GuestRules.{ticket_kind as ticket_kind_of, ticket_vm as ticket_vm_of};
ghost use Rattle.reference_model.specs.model.Parts.{has_stage as has_stage_of, loaded_slot as loaded_slot_of, slot_of as slot_of_vm, ticket_slot as ticket_slot_of};
ghost use Rattle.ghost_spec.specs.Kept.{IsKeptCpu, IsLowSlot};
ghost use Rattle.ghost_spec.specs.Used.{both_uses, guest_uses, IsUsesOf};
ghost use Rattle.ghost_spec.specs.Views.{cpu_in};

use crate::cpu::GhostCpu;
use call_table::{Step, VmId, VmKind};
use reference_model::Stage;

/// A step, and the parts that it uses apart from its CPU's own state: the slot of its guest, if one is found, and whether
/// it uses the VM part and the Shared part.
#[derive(Clone, Copy)]
pub(crate) struct StepUses {
    pub(crate) step: Step,
    pub(crate) slot: Option<u64>,
    pub(crate) has_vms: bool,
    pub(crate) has_shared: bool,
}

/// The slot of a VM if it is below 64, else None.
fn slot_of(vm: VmId) -> Option<u64>
    ensures value { result ≡ slot_of_vm vm }
    ensures low { IsLowSlot result }
{
    if vm.slot < 64 { Some(vm.slot) } else { None }
}

/// Whether the CPU has a ticket of a stage.
pub(crate) fn has_stage(stage: Stage, own: &GhostCpu) -> bool
    ensures { result ≡ has_stage_of stage (cpu_in own.now) }
{
    match own.ticket {
        Some(ticket) => ticket.stage == stage,
        None => false,
    }
}

/// The VM of the CPU's ticket; slot 0 and generation 0 without a ticket.
pub(crate) fn ticket_vm(own: &GhostCpu) -> VmId
    requires { IsKeptCpu own.now }
    ensures value { result ≡ ticket_vm_of (cpu_in own.now) }
    ensures low { result.slot < 64 }
{
    match own.ticket {
        Some(ticket) => ticket.vm,
        None => VmId {
            slot: 0,
            generation: 0,
        },
    }
}

/// The kind of the CPU's ticket; plain without a ticket.
pub(crate) fn ticket_kind(own: &GhostCpu) -> VmKind
    ensures { result ≡ ticket_kind_of (cpu_in own.now) }
{
    match own.ticket {
        Some(ticket) => ticket.kind,
        None => VmKind::Plain,
    }
}

/// The slot of the CPU's ticket of a stage.
fn ticket_slot(stage: Stage, own: &GhostCpu) -> Option<u64>
    requires { IsKeptCpu own.now }
    ensures value { result ≡ ticket_slot_of stage (cpu_in own.now) }
    ensures low { IsLowSlot result }
{
    if !has_stage(stage, own) {
        return None;
    }
    match own.ticket {
        Some(ticket) => Some(ticket.vm.slot),
        None => None,
    }
}

/// The slot of the vCPU that the CPU has loaded.
fn loaded_slot(own: &GhostCpu) -> Option<u64>
    requires { IsKeptCpu own.now }
    ensures value { result ≡ loaded_slot_of (cpu_in own.now) }
    ensures low { IsLowSlot result }
{
    match own.loaded {
        Some(loaded) => Some(loaded.vm.slot),
        None => None,
    }
}

/// A step on the Shared part and a guest; on neither if no slot is found.
fn on_both(step: Step, slot: Option<u64>) -> StepUses
    ensures { result ≡ both_uses step slot }
{
    StepUses {
        step,
        slot,
        has_vms: false,
        has_shared: slot.is_some(),
    }
}

/// A step on a guest alone, if a slot is found.
fn on_guest(step: Step, slot: Option<u64>) -> StepUses
    ensures { result ≡ guest_uses step slot }
{
    StepUses {
        step,
        slot,
        has_vms: false,
        has_shared: false,
    }
}

/// What a step of a CPU uses. It names its guest by its VM, or by the CPU's loaded vCPU or ticket.
pub(crate) fn uses(own: &GhostCpu, step: Step) -> StepUses
    requires { IsKeptCpu own.now }
    ensures { IsUsesOf (cpu_in own.now) step result }
{
    match step {
        Step::ShareHyp { .. }
        | Step::UnshareHyp { .. }
        | Step::DonateHyp { .. }
        | Step::HypDonateHost { .. }
        | Step::HostAbort { .. }
        | Step::HostTranslate { .. }
        | Step::HypTranslate { .. }
        | Step::OwnerOf { .. }
        | Step::Fund { .. }
        | Step::Unfund => StepUses {
            step,
            slot: None,
            has_vms: false,
            has_shared: true,
        },
        Step::ShareGuest { .. }
        | Step::DonateGuest { .. }
        | Step::GuestShareHost { .. }
        | Step::GuestUnshareHost { .. } => on_both(step, loaded_slot(own)),
        Step::UnshareGuest { vm, .. }
        | Step::Topup { vm }
        | Step::ReclaimPage { vm, .. }
        | Step::ReclaimPool { vm } => on_both(step, slot_of(vm)),
        Step::Install => on_both(step, ticket_slot(Stage::Booked, own)),
        Step::FinishGuest => on_both(step, ticket_slot(Stage::Dying, own)),
        Step::GuestRelax { .. } => on_guest(step, loaded_slot(own)),
        Step::GuestTranslate { vm, .. } => on_guest(step, slot_of(vm)),
        Step::MarkDying => on_guest(step, ticket_slot(Stage::Closing, own)),
        Step::VmReserve { .. } | Step::VmOpen | Step::VcpuPut | Step::VmRelease => StepUses {
            step,
            slot: None,
            has_vms: true,
            has_shared: false,
        },
        Step::VcpuLoad { vm, .. } | Step::Teardown { vm } => StepUses {
            step,
            slot: None,
            has_vms: vm.slot < 64,
            has_shared: false,
        },
    }
}
