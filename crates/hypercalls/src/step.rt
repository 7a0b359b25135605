//! The step by its kind of use: it tests the logs, decides, carries out and stores.
ghost use Rattle.std.specs.Prelude.{◌≡◌, ◌<◌, None, Some};
ghost use Rattle.part_types.specs.Lent.{GuestSuits, SharedSuits, Suits, lent_alone, lent_both, lent_guest, lent_shared, lent_vms, used_in};
ghost use Rattle.part_types.specs.Logs.{IsOfSize};
ghost use Rattle.part_types.specs.View.{cpu_of, guest_held, shared_of, vm_slots};
ghost use Rattle.hypercalls.specs.Steps.{IsStepOn, reply_in};
ghost use Rattle.hypercalls.specs.Uses.{uses_of};
ghost use Rattle.page_state.specs.LayoutView.{layout_of};
ghost use Rattle.reference_model.specs.model.Rules.{names};
ghost use Rattle.reference_model.specs.model.Reached.{IsReached};
ghost use Rattle.reference_model.specs.model.Used.{guest_alone, used_alone, vms_alone};

use crate::carry::{change_both, change_guest, change_shared, ended};
use crate::used_parts::UsedParts;
use call_table::{Call, Refusal, Reply, Step};
use decisions::{decide_guest, decide_shared, decide_vms, decide_with_guest, refusal_of_none};
use page_state::Layout;
use part_types::{CpuState, GuestPart, SharedPart, VmPart};
use reference_model::laws;
use std::alloc::Allocator;

/// Makes a step of a CPU that uses no part, and stores the call in the CPU's log. None if that is full.
pub fn step_alone(layout: &Layout, cpu: &mut CpuState, step: Step) -> Option<Call>
    requires uses { uses_of (cpu_of cpu.old) step ≡ UsedParts.Nothing }
    requires own { IsOfSize layout.now.config.log cpu.old.log }
    ensures step { IsStepOn {A = Unit {0}} (layout_of layout.now) step (lent_alone cpu.old) result
        (lent_alone cpu.new) }
    ensures own { IsOfSize layout.now.config.log cpu.new.log }
{
    laws::answers();
    if cpu.log.is_full() {
        return None;
    }
    let call = Call {
        cpu: cpu.id,
        number: cpu.log.len() as u64 + 1,
        step,
        reply: Reply::Refused(refusal_of_none(layout, step)),
        slot: None,
    };
    cpu.log.store(call);
    Some(call)
}

/// Makes a step of a CPU on the VM part, and stores the call in both logs. None if one is full. Requires a part and a
/// CPU's own state of a state that some run can reach; for every such state it is a step of that state. The functions
/// below require the same.
pub fn step_on_vms(
    layout: &Layout,
    vms: &mut VmPart,
    cpu: &mut CpuState,
    step: Step,
) -> Option<Call>
    requires known { cpu.old.id < layout.now.config.cpus }
    requires uses { uses_of (cpu_of cpu.old) step ≡ UsedParts.Vms }
    requires suits { IsOfSize layout.now.config.log vms.old.log }
    requires own { IsOfSize layout.now.config.log cpu.old.log }
    requires reached { ∥ IsReached (layout_of layout.now) (names step) None cpu.old.id
        (vms_alone (vm_slots vms.old) (cpu_of cpu.old)) ∥₁ }
    ensures step { IsStepOn {A = Unit {0}} (layout_of layout.now) step (lent_vms vms.old cpu.old) result
        (lent_vms vms.new cpu.new) }
    ensures suits { IsOfSize layout.now.config.log vms.new.log }
    ensures own { IsOfSize layout.now.config.log cpu.new.log }
{
    laws::change_laws();
    laws::relies();
    laws::answers();
    if cpu.log.is_full() || vms.log.is_full() {
        return None;
    }
    let id = cpu.id;
    let number = cpu.log.len() as u64 + 1;
    let reply = match decide_vms(vms, cpu, step) {
        Ok(changes) => {
            vms.table.change(&changes.slot);
            ended(Ok(()), &changes, cpu)
        }
        Err(why) => Reply::Refused(why),
    };
    let call = Call {
        cpu: id,
        number,
        step,
        reply,
        slot: None,
    };
    vms.log.store(call);
    cpu.log.store(call);
    Some(call)
}

/// The same on the Shared part.
pub fn step_on_shared<A: Allocator + Copy>(
    alloc: A,
    layout: &Layout,
    shared: &mut SharedPart<A>,
    cpu: &mut CpuState,
    step: Step,
) -> Option<Call>
    requires known { cpu.old.id < layout.now.config.cpus }
    requires uses { uses_of (cpu_of cpu.old) step ≡ UsedParts.Shared }
    requires suits { SharedSuits (layout_of layout.now) shared.old }
    requires own { IsOfSize layout.now.config.log cpu.old.log }
    requires reached { ∥ IsReached (layout_of layout.now) (names step) None cpu.old.id
        (used_alone (shared_of shared.old) (cpu_of cpu.old)) ∥₁ }
    ensures step { IsStepOn (layout_of layout.now) step (lent_shared shared.old cpu.old) result
        (lent_shared shared.new cpu.new) }
    ensures suits { SharedSuits (layout_of layout.now) shared.new }
    ensures own { IsOfSize layout.now.config.log cpu.new.log }
{
    laws::change_laws();
    laws::relies();
    laws::answers();
    if cpu.log.is_full() || shared.log.is_full() {
        return None;
    }
    let id = cpu.id;
    let number = cpu.log.len() as u64 + 1;
    let reply = match decide_shared(layout, shared, cpu, step) {
        Ok(changes) => {
            let made = change_shared(alloc, layout, id, None, &changes, shared);
            ended(made, &changes, cpu)
        }
        Err(why) => Reply::Refused(why),
    };
    let call = Call {
        cpu: id,
        number,
        step,
        reply,
        slot: None,
    };
    shared.log.store(call);
    cpu.log.store(call);
    Some(call)
}

/// The same on the Guest part of a slot.
pub fn step_on_guest<A: Allocator + Copy>(
    alloc: A,
    layout: &Layout,
    part: &mut GuestPart<A>,
    slot: u64,
    cpu: &mut CpuState,
    step: Step,
) -> Option<Call>
    requires known { cpu.old.id < layout.now.config.cpus }
    requires uses { uses_of (cpu_of cpu.old) step ≡ UsedParts.Guest slot }
    requires suits { GuestSuits (layout_of layout.now) part.old }
    requires own { IsOfSize layout.now.config.log cpu.old.log }
    requires reached { ∥ IsReached (layout_of layout.now) (names step) (Some slot) cpu.old.id
        (guest_alone (guest_held part.old) (cpu_of cpu.old)) ∥₁ }
    ensures step { IsStepOn (layout_of layout.now) step (lent_guest part.old cpu.old) result
        (lent_guest part.new cpu.new) }
    ensures suits { GuestSuits (layout_of layout.now) part.new }
    ensures own { IsOfSize layout.now.config.log cpu.new.log }
{
    laws::change_laws();
    laws::relies();
    laws::answers();
    if cpu.log.is_full() || part.log.is_full() {
        return None;
    }
    let id = cpu.id;
    let number = cpu.log.len() as u64 + 1;
    let reply = match decide_guest(layout, &part.guest, cpu, step) {
        Ok(changes) => {
            let made = change_guest(alloc, layout, &changes, part);
            ended(made, &changes, cpu)
        }
        Err(why) => Reply::Refused(why),
    };
    let call = Call {
        cpu: id,
        number,
        step,
        reply,
        slot: Some(slot),
    };
    part.log.store(call);
    cpu.log.store(call);
    Some(call)
}

/// The same on the Shared part and the Guest part of a slot.
pub fn step_on_both<A: Allocator + Copy>(
    alloc: A,
    layout: &Layout,
    shared: &mut SharedPart<A>,
    part: &mut GuestPart<A>,
    slot: u64,
    cpu: &mut CpuState,
    step: Step,
) -> Option<Call>
    requires known { cpu.old.id < layout.now.config.cpus }
    requires uses { uses_of (cpu_of cpu.old) step ≡ UsedParts.Both slot }
    requires suits { Suits (layout_of layout.now) (lent_both shared.old part.old cpu.old) }
    requires reached { ∥ IsReached (layout_of layout.now) (names step) (Some slot) cpu.old.id
        (used_in (lent_both shared.old part.old cpu.old)) ∥₁ }
    ensures step { IsStepOn (layout_of layout.now) step (lent_both shared.old part.old cpu.old) result
        (lent_both shared.new part.new cpu.new) }
    ensures suits { Suits (layout_of layout.now) (lent_both shared.new part.new cpu.new) }
{
    laws::change_laws();
    laws::relies();
    laws::answers();
    if cpu.log.is_full() || shared.log.is_full() || part.log.is_full() {
        return None;
    }
    let id = cpu.id;
    let number = cpu.log.len() as u64 + 1;
    let reply = match decide_with_guest(layout, shared, &part.guest, slot, cpu, step) {
        Ok(changes) => {
            let made = change_both(alloc, layout, id, slot, &changes, shared, part);
            ended(made, &changes, cpu)
        }
        Err(why) => Reply::Refused(why),
    };
    let call = Call {
        cpu: id,
        number,
        step,
        reply,
        slot: Some(slot),
    };
    shared.log.store(call);
    part.log.store(call);
    cpu.log.store(call);
    Some(call)
}

/// The reply of a step: that of the call that it stored, or that a log is full.
pub fn reply_of(made: Option<Call>) -> Reply
    ensures { result ≡ reply_in made }
{
    match made {
        Some(call) => call.reply,
        None => Reply::Refused(Refusal::LogFull),
    }
}
