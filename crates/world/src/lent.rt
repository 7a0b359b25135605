//! A step on parts that are lent.
ghost use Rattle.std.specs.Prelude.{◌≡◌, ◌<◌};
ghost use Rattle.part_types.specs.Lent.{Suits};
ghost use Rattle.hypercalls.specs.Steps.{reply_in};
ghost use Rattle.page_state.specs.LayoutView.{layout_of};
ghost use Rattle.world.specs.LentParts.{AreLent, IsLentReached, StepsLent, call_stored, left_of, lent_of};

use call_table::{Reply, Step};
use hypercalls::{
    UsedParts, reply_of, step_alone, step_on_both, step_on_guest, step_on_shared, step_on_vms, uses,
};
use page_state::Layout;
use part_types::{CpuState, GuestPart, SharedPart, VmPart};
use std::alloc::Allocator;

/// Makes a step of a CPU on the parts that it uses, and stores the call in their logs and the CPU's. Where one of these is
/// full, nothing changes. Each part that `uses` names is given, and no other. Requires parts and a CPU's own state that belong
/// to a state that some run can reach; whatever else that state has, it is a step of it.
pub fn step_on<A: Allocator + Copy>(
    alloc: A,
    layout: &Layout,
    vms: Option<&mut VmPart>,
    shared: Option<&mut SharedPart<A>>,
    guest: Option<&mut GuestPart<A>>,
    cpu: &mut CpuState,
    step: &Step,
) -> Reply
    requires known { cpu.old.id < layout.now.config.cpus }
    requires lent { AreLent step.now (lent_of vms shared guest cpu.old) }
    requires suits { Suits (layout_of layout.now) (lent_of vms shared guest cpu.old) }
    requires reached { IsLentReached (layout_of layout.now) step.now (lent_of vms shared guest cpu.old) }
    ensures step { StepsLent layout.now step.now (lent_of vms.entry shared.entry guest.entry cpu.old) result
        (left_of vms.exit shared.exit guest.exit cpu.new) }
    ensures reply { result
        ≡ reply_in
        (call_stored (lent_of vms.entry shared.entry guest.entry cpu.old) step.now result) }
    ensures suits { Suits (layout_of layout.now) (left_of vms.exit shared.exit guest.exit cpu.new) }
{
    match uses(cpu, step) {
        UsedParts::Nothing => reply_of(step_alone(layout, cpu, *step)),
        UsedParts::Vms => {
            let Some(vms) = vms else { unreachable!() };
            reply_of(step_on_vms(layout, vms, cpu, *step))
        }
        UsedParts::Shared => {
            let Some(shared) = shared else { unreachable!() };
            reply_of(step_on_shared(alloc, layout, shared, cpu, *step))
        }
        UsedParts::Guest(slot) => {
            let Some(guest) = guest else { unreachable!() };
            reply_of(step_on_guest(alloc, layout, guest, slot, cpu, *step))
        }
        UsedParts::Both(slot) => {
            let Some(shared) = shared else { unreachable!() };
            let Some(guest) = guest else { unreachable!() };
            reply_of(step_on_both(alloc, layout, shared, guest, slot, cpu, *step))
        }
    }
}
