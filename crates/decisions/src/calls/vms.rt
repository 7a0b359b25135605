//! The calls on the VM part: a slot is reserved, opened, closed and released, and vCPUs are loaded and put back.
ghost use Rattle.std.specs.Prelude.{◌≡◌, ℕ, ◌||◌, None, IfOk};
ghost use Rattle.part_types.specs.View.{cpu_of};
ghost use Rattle.decisions.specs.Decided.{IsTicketIf};
ghost use Rattle.decisions.specs.Grows.{GrowsOnly};
ghost use Rattle.page_state.specs.Layouts.{Layout as ReferenceLayout};
ghost use Rattle.reference_model.specs.model.Decides.{decides};
ghost use Rattle.reference_model.specs.model.Parts.{has_stage};
ghost use Rattle.reference_model.specs.model.Used.{vms_alone};
ghost use Rattle.reference_model.specs.model.VmRules.{load_becomes};
ghost use Rattle.reference_model.specs.declared.changes.Update.TheVariants.{Becomes};
ghost use Rattle.reference_model.specs.model.Changes.{same_cpu};
ghost use Rattle.call_table.specs.declared.step.Step.TheVariants.{VmReserve, VmOpen, VcpuLoad, VcpuPut, Teardown, VmRelease};
ghost use Rattle.vm_table.specs.View.{vms_of};

use call_table::{Refusal, Value, VmId, VmKind};
use part_types::CpuState;
use reference_model::{Changes, CpuChange, Loaded, SlotChange, Stage, Ticket, Update};
use vm_table::VmTable;

/// The most vCPUs of a VM (profile).
const MOST_VCPUS: u64 = 8;

/// The slots of VMs (profile).
pub(crate) const SLOTS: u64 = 64;

/// The CPU's ticket if it has the stage, else None.
fn ticket_at(stage: Stage, cpu: &CpuState) -> Option<Ticket>
    ensures { IsTicketIf (has_stage stage (cpu_of cpu.now)) cpu.now result }
{
    match cpu.ticket {
        Some(ticket) => {
            if ticket.stage == stage {
                Some(ticket)
            } else {
                None
            }
        }
        None => None,
    }
}

/// The CPU's ticket if nothing of its VM is installed or everything is given back, else None.
fn ticket_at_end(cpu: &CpuState) -> Option<Ticket>
    ensures { IsTicketIf
        (has_stage Stage.Booked (cpu_of cpu.now)
        || has_stage Stage.Finished (cpu_of cpu.now)) cpu.now result }
{
    match ticket_at(Stage::Booked, cpu) {
        Some(ticket) => Some(ticket),
        None => ticket_at(Stage::Finished, cpu),
    }
}

/// The CPU's ticket becomes this.
pub(crate) fn ticket_becomes(ticket: Option<Ticket>) -> CpuChange
    ensures { result ≡ record same_cpu { ticket = Becomes ticket } }
{
    CpuChange {
        ticket: Update::Becomes(ticket),
        ..CpuChange::NONE
    }
}

/// The vCPU that the CPU has loaded becomes this.
fn loaded_becomes(loaded: Option<Loaded>) -> CpuChange
    ensures { result ≡ load_becomes loaded }
{
    CpuChange {
        loaded: Update::Becomes(loaded),
        ..CpuChange::NONE
    }
}

/// The lowest Empty slot is reserved for a VM of 1 to 8 vCPUs, and the CPU, which must have no ticket, gets one of it.
#[tactic(auto, unfolding(reference_model::specs::model::Rules::rule))]
pub(crate) fn decide_vm_reserve(
    table: &VmTable,
    cpu: &CpuState,
    kind: VmKind,
    vcpus: u64,
) -> Result<Changes, Refusal>
    ensures decided { (l : ReferenceLayout) (id : ℕ)
        → result
        ≡ decides l id None (VmReserve kind vcpus)
        (vms_alone (vms_of table.now) (cpu_of cpu.now)) }
    ensures grows { IfOk result (GrowsOnly (VmReserve kind vcpus)) }
{
    if !(1..=MOST_VCPUS).contains(&vcpus) {
        return Err(Refusal::Invalid);
    }
    if cpu.ticket.is_some() {
        return Err(Refusal::Busy);
    }
    let Some(slot) = table.vacant() else {
        return Err(Refusal::Busy);
    };
    let vm = VmId {
        slot,
        generation: table.slot(slot).generation,
    };
    Ok(Changes {
        slot: SlotChange::Reserve { slot, kind, vcpus },
        cpu: ticket_becomes(Some(Ticket {
            vm,
            kind,
            stage: Stage::Booked,
        })),
        value: Value::Vm(vm),
        ..Changes::NONE
    })
}

/// The installed VM of the CPU's ticket opens, and the CPU gives its ticket up.
#[tactic(auto, unfolding(reference_model::specs::model::Rules::rule))]
pub(crate) fn decide_vm_open(table: &VmTable, cpu: &CpuState) -> Result<Changes, Refusal>
    ensures decided { (l : ReferenceLayout) (id : ℕ)
        → result ≡ decides l id None VmOpen (vms_alone (vms_of table.now) (cpu_of cpu.now)) }
    ensures grows { IfOk result (GrowsOnly VmOpen) }
{
    let Some(ticket) = ticket_at(Stage::Installed, cpu) else {
        return Err(Refusal::NoVm);
    };
    Ok(Changes {
        slot: SlotChange::Open {
            slot: ticket.vm.slot,
        },
        cpu: ticket_becomes(None),
        value: Value::Vm(ticket.vm),
        ..Changes::NONE
    })
}

/// The CPU, which must have nothing loaded, loads a vCPU of an Open VM that no CPU has loaded.
#[tactic(auto, unfolding(reference_model::specs::model::Rules::rule))]
pub(crate) fn decide_vcpu_load(
    table: &VmTable,
    cpu: &CpuState,
    vm: VmId,
    vcpu: u64,
) -> Result<Changes, Refusal>
    ensures decided { (l : ReferenceLayout)
        → result
        ≡ decides l cpu.now.id None (VcpuLoad vm vcpu)
        (vms_alone (vms_of table.now) (cpu_of cpu.now)) }
    ensures grows { IfOk result (GrowsOnly (VcpuLoad vm vcpu)) }
{
    if vm.slot >= SLOTS || vcpu >= MOST_VCPUS {
        return Err(Refusal::Invalid);
    }
    if !table.is_open(vm) {
        return Err(Refusal::NoVm);
    }
    if cpu.loaded.is_some() || table.is_loaded(vm.slot, vcpu) {
        return Err(Refusal::Busy);
    }
    if vcpu >= table.slot(vm.slot).vcpus {
        return Err(Refusal::Perm);
    }
    Ok(Changes {
        slot: SlotChange::Load {
            slot: vm.slot,
            vcpu,
            cpu: cpu.id,
        },
        cpu: loaded_becomes(Some(Loaded { vm, vcpu })),
        ..Changes::NONE
    })
}

/// The CPU puts back the vCPU that it has loaded.
#[tactic(auto, unfolding(reference_model::specs::model::Rules::rule))]
pub(crate) fn decide_vcpu_put(table: &VmTable, cpu: &CpuState) -> Result<Changes, Refusal>
    ensures decided { (l : ReferenceLayout) (id : ℕ)
        → result ≡ decides l id None VcpuPut (vms_alone (vms_of table.now) (cpu_of cpu.now)) }
    ensures grows { IfOk result (GrowsOnly VcpuPut) }
{
    let Some(loaded) = cpu.loaded else {
        return Err(Refusal::NoVm);
    };
    Ok(Changes {
        slot: SlotChange::Unload {
            slot: loaded.vm.slot,
            vcpu: loaded.vcpu,
        },
        cpu: loaded_becomes(None),
        ..Changes::NONE
    })
}

/// An Open VM of which no CPU has a vCPU loaded closes, and the CPU, which must have no ticket, gets one of it.
#[tactic(auto, unfolding(reference_model::specs::model::Rules::rule))]
pub(crate) fn decide_teardown(table: &VmTable, cpu: &CpuState, vm: VmId) -> Result<Changes, Refusal>
    ensures decided { (l : ReferenceLayout) (id : ℕ)
        → result
        ≡ decides l id None (Teardown vm) (vms_alone (vms_of table.now) (cpu_of cpu.now)) }
    ensures grows { IfOk result (GrowsOnly (Teardown vm)) }
{
    if vm.slot >= SLOTS {
        return Err(Refusal::Invalid);
    }
    if !table.is_open(vm) {
        return Err(Refusal::NoVm);
    }
    if cpu.ticket.is_some() || table.is_any_loaded(vm.slot) {
        return Err(Refusal::Busy);
    }
    Ok(Changes {
        slot: SlotChange::Close { slot: vm.slot },
        cpu: ticket_becomes(Some(Ticket {
            vm,
            kind: table.slot(vm.slot).kind,
            stage: Stage::Closing,
        })),
        ..Changes::NONE
    })
}

/// The slot of the CPU's ticket, of which nothing is installed or everything given back, becomes Empty, with the next
/// generation, and the CPU gives its ticket up.
#[tactic(auto, unfolding(reference_model::specs::model::Rules::rule))]
pub(crate) fn decide_vm_release(table: &VmTable, cpu: &CpuState) -> Result<Changes, Refusal>
    ensures decided { (l : ReferenceLayout) (id : ℕ)
        → result ≡ decides l id None VmRelease (vms_alone (vms_of table.now) (cpu_of cpu.now)) }
    ensures grows { IfOk result (GrowsOnly VmRelease) }
{
    let Some(ticket) = ticket_at_end(cpu) else {
        return Err(Refusal::NoVm);
    };
    Ok(Changes {
        slot: SlotChange::Release { vm: ticket.vm },
        cpu: ticket_becomes(None),
        ..Changes::NONE
    })
}
