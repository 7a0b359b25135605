//! Which parts a step uses.
ghost use Rattle.std.specs.Prelude.{◌≡◌};
ghost use Rattle.part_types.specs.View.{cpu_of};
ghost use Rattle.hypercalls.specs.Uses.{uses_of};
ghost use Rattle.hypercalls.specs.inner.Named.{names_by, slot_by, slot_for};
ghost use Rattle.reference_model.specs.model.Parts.{slot_of as slot_of_vm, ticket_slot as ticket_slot_of, uses_shared as uses_shared_part, uses_vms as uses_vm_part};
ghost use Rattle.reference_model.specs.model.Rules.{guest_slot as guest_slot_of, names};
ghost use Rattle.reference_model.specs.model.State.{Cpu};

use call_table::{Step, VmId};
use part_types::CpuState;
use reference_model::Stage;

/// How a step finds the slot of its guest: by its VM, by the vCPU that its CPU has loaded, or by its CPU's ticket of a
/// stage.
#[derive(Clone, Copy)]
enum GuestBy {
    Vm(VmId),
    Loaded,
    Ticket(Stage),
}

/// What a step names: the Shared part, a Guest part, or both, or the VM part, also by a VM.
#[derive(Clone, Copy)]
enum Named {
    Shared,
    SharedAndGuest(GuestBy),
    Guest(GuestBy),
    Vms,
    VmsOf(VmId),
}

/// What a step names.
fn names_of(step: Step) -> Named
    ensures parts { names_by result ≡ names step }
    ensures guest { (k : Cpu) → slot_by k result ≡ guest_slot_of k step }
{
    match step {
        Step::ShareHyp { .. }
        | Step::UnshareHyp { .. }
        | Step::DonateHyp { .. }
        | Step::HypDonateHost { .. }
        | Step::HostAbort { .. }
        | Step::HostTranslate { .. }
        | Step::HypTranslate { .. }
        | Step::OwnerOf { .. }
        | Step::Fund { .. }
        | Step::Unfund => Named::Shared,
        Step::ShareGuest { .. }
        | Step::DonateGuest { .. }
        | Step::GuestShareHost { .. }
        | Step::GuestUnshareHost { .. } => Named::SharedAndGuest(GuestBy::Loaded),
        Step::UnshareGuest { vm, .. }
        | Step::Topup { vm }
        | Step::ReclaimPage { vm, .. }
        | Step::ReclaimPool { vm } => Named::SharedAndGuest(GuestBy::Vm(vm)),
        Step::Install => Named::SharedAndGuest(GuestBy::Ticket(Stage::Booked)),
        Step::FinishGuest => Named::SharedAndGuest(GuestBy::Ticket(Stage::Dying)),
        Step::GuestRelax { .. } => Named::Guest(GuestBy::Loaded),
        Step::GuestTranslate { vm, .. } => Named::Guest(GuestBy::Vm(vm)),
        Step::MarkDying => Named::Guest(GuestBy::Ticket(Stage::Closing)),
        Step::VmReserve { .. } | Step::VmOpen | Step::VcpuPut | Step::VmRelease => Named::Vms,
        Step::VcpuLoad { vm, .. } | Step::Teardown { vm } => Named::VmsOf(vm),
    }
}

/// The slot of a VM if it is below 64, else None.
fn slot_of(vm: VmId) -> Option<u64>
    ensures { result ≡ slot_of_vm vm }
{
    if vm.slot < 64 { Some(vm.slot) } else { None }
}

/// The slot of the CPU's ticket of a stage.
fn ticket_slot(stage: Stage, cpu: &CpuState) -> Option<u64>
    ensures { result ≡ ticket_slot_of stage (cpu_of cpu.now) }
{
    match cpu.ticket {
        Some(ticket) => {
            if ticket.stage == stage {
                Some(ticket.vm.slot)
            } else {
                None
            }
        }
        None => None,
    }
}

/// The slot of the guest that a step of the CPU finds. None if there is none.
fn guest_slot(cpu: &CpuState, by: GuestBy) -> Option<u64>
    ensures { result ≡ slot_for (cpu_of cpu.now) by }
{
    match by {
        GuestBy::Vm(vm) => slot_of(vm),
        GuestBy::Loaded => cpu.loaded.map(|loaded| loaded.vm.slot),
        GuestBy::Ticket(stage) => ticket_slot(stage, cpu),
    }
}

/// Whether a step uses the VM part.
pub fn uses_vms(step: Step) -> bool
    ensures { result ≡ uses_vm_part (names step) }
{
    match names_of(step) {
        Named::Vms => true,
        Named::VmsOf(vm) => vm.slot < 64,
        _ => false,
    }
}

/// Whether a step uses the Shared part, from whether the slot of its Guest part was found.
pub fn uses_shared(step: Step, slot: Option<u64>) -> bool
    ensures { result ≡ uses_shared_part (names step) slot }
{
    match names_of(step) {
        Named::Shared => true,
        Named::SharedAndGuest(_) => slot.is_some(),
        _ => false,
    }
}

/// The parts that a step uses apart from its CPU's own state: none, one of them, or the Shared part and the Guest part
/// of a slot. Guests are named by slot.
#[derive(Clone, Copy)]
pub enum UsedParts {
    Nothing,
    Vms,
    Shared,
    Guest(u64),
    Both(u64),
}

/// The parts that a step of a CPU uses, found only from the CPU's own state and the step.
pub fn uses(cpu: &CpuState, step: &Step) -> UsedParts
    ensures { result ≡ uses_of (cpu_of cpu.now) step.now }
{
    match names_of(*step) {
        Named::Shared => UsedParts::Shared,
        Named::SharedAndGuest(by) => match guest_slot(cpu, by) {
            Some(v) => UsedParts::Both(v),
            None => UsedParts::Nothing,
        },
        Named::Guest(by) => match guest_slot(cpu, by) {
            Some(v) => UsedParts::Guest(v),
            None => UsedParts::Nothing,
        },
        Named::Vms => UsedParts::Vms,
        Named::VmsOf(vm) => {
            if vm.slot < 64 {
                UsedParts::Vms
            } else {
                UsedParts::Nothing
            }
        }
    }
}
