//! A step on parts as slots of the table hold them.
ghost use Rattle.std.specs.Prelude.{◌+◌, ◌∷◌, []};
ghost use Rattle.page_state.specs.LayoutView.{layout_of};
ghost use Rattle.part_table.specs.Does.{Does, IsCalled, none_at, only_at, pair_at};
ghost use Rattle.part_table.specs.Trying.{CanMake};

use crate::slot::Slot;
use call_table::{Call, Step};
use hypercalls::{step_alone, step_on_both, step_on_guest, step_on_shared, step_on_vms};
use page_state::Layout;
use part_types::CpuState;
use std::alloc::Allocator;

/// The step on no part, on the CPU's own state alone.
pub fn idle<A: Allocator>(layout: &Layout, cpu: &mut CpuState, step: Step) -> Call
    requires can { CanMake {A = A} layout.now cpu.old step [] none_at }
    ensures call { IsCalled cpu.old.id cpu.old step result }
    ensures does { Does {A = A} (layout_of layout.now) result none_at cpu.old none_at cpu.new }
{
    step_alone(layout, cpu, step).unwrap()
}

/// The step on the part k alone.
pub fn alone<A: Allocator + Copy>(
    alloc: A,
    layout: &Layout,
    slot: Slot<A>,
    k: u64,
    cpu: &mut CpuState,
    step: Step,
) -> (Slot<A>, Call)
    requires can { CanMake layout.now cpu.old step (k ∷ []) (only_at k slot) }
    ensures call { IsCalled cpu.old.id cpu.old step result.1 }
    ensures does { Does (layout_of layout.now) result.1 (only_at k slot) cpu.old (only_at k result.0) cpu.new }
{
    match slot {
        Slot::Vm(mut part) => {
            let call = step_on_vms(layout, &mut part, cpu, step).unwrap();
            (Slot::Vm(part), call)
        }
        Slot::Shared(mut part) => {
            let call = step_on_shared(alloc, layout, &mut part, cpu, step).unwrap();
            (Slot::Shared(part), call)
        }
        Slot::Guest(mut part) => {
            let call = step_on_guest(alloc, layout, &mut part, k - 2, cpu, step).unwrap();
            (Slot::Guest(part), call)
        }
    }
}

/// The step on the Shared part and the guest of slot v.
pub fn both<A: Allocator + Copy>(
    alloc: A,
    layout: &Layout,
    shared: Slot<A>,
    guest: Slot<A>,
    v: u64,
    cpu: &mut CpuState,
    step: Step,
) -> (Slot<A>, Slot<A>, Call)
    requires can { CanMake layout.now cpu.old step (1 ∷ (v + 2) ∷ []) (pair_at v shared guest) }
    ensures call { IsCalled cpu.old.id cpu.old step result.2 }
    ensures does { Does (layout_of layout.now) result.2 (pair_at v shared guest) cpu.old
        (pair_at v result.0 result.1) cpu.new }
{
    let Slot::Shared(mut s) = shared else {
        unreachable!()
    };
    let Slot::Guest(mut g) = guest else {
        unreachable!()
    };
    let call = step_on_both(alloc, layout, &mut s, &mut g, v, cpu, step).unwrap();
    (Slot::Shared(s), Slot::Guest(g), call)
}
