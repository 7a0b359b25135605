//! What makes the step of a call while its pass holds the parts that the call uses.
ghost use Rattle.std.specs.Prelude.{◌<◌, ◌+◌, ◌∷◌, [], length};
ghost use Rattle.page_state.specs.LayoutView.{layout_of};
ghost use Rattle.part_table.specs.Does.{Does, IsCalled, none_at, only_at, pair_at};
ghost use Rattle.part_table.specs.Parts.{parts};
ghost use Rattle.part_table.specs.Trying.{CanMake};

use crate::gate::{Gate, TryGate};
use crate::slot::Slot;
use crate::step;
use call_table::{Call, Step};
use page_state::Layout;
use part_types::CpuState;
use std::alloc::Allocator;

/// Makes the step of a call while its pass holds the parts that the call uses, once the gate has heard that it does.
/// The step is the same for every maker; what else a maker does with the parts before and after the step changes only
/// its report.
// Why a step is made by a maker: docs/DECISIONS.md, 31.
pub trait Maker<T, G: Gate> {
    ghost use Rattle.std.specs.Prelude.{ℕ, Option};
    ghost use Rattle.part_types.specs.declared.parts.CpuState.{CpuState};
    ghost use Rattle.page_state.specs.declared.layout.Layout.{Layout as TheLayout};
    ghost use Rattle.part_table.specs.declared.slot.Slot.{Slot};
    ghost use Rattle.call_table.specs.declared.reply.Call.{Call};

    /// A maker's report before and after a call: on the layout, the parts that the call uses, by number, and its CPU's
    /// own state, as they are taken and as they go home.
    ghost tells: { {A : Type 0}
        → TheLayout
        → (ℕ → Option (Slot A))
        → CpuState
        → Call
        → (ℕ → Option (Slot A))
        → CpuState
        → T
        → T
        → Type 0 };

    /// The step on no part, on the CPU's own state alone.
    fn idle<A: Allocator + Copy>(
        &self,
        gate: &TryGate<G>,
        layout: &Layout,
        cpu: &mut CpuState,
        step: Step,
        told: &mut T,
    ) -> Call
        requires can { CanMake {A = A} layout.now cpu.old step [] none_at }
        requires heard { G.heard_taken gate.now.gate.now cpu.old.id (length cpu.old.log.calls + 1) }
        ensures call { IsCalled cpu.old.id cpu.old step result }
        ensures does { Does {A = A} (layout_of layout.now) result none_at cpu.old none_at cpu.new }
        ensures told { tells {A = A} layout.now none_at cpu.old result none_at cpu.new told.old told.new };

    /// The step on the part k alone.
    fn alone<A: Allocator + Copy>(
        &self,
        gate: &TryGate<G>,
        alloc: A,
        layout: &Layout,
        slot: Slot<A>,
        k: u64,
        cpu: &mut CpuState,
        step: Step,
        told: &mut T,
    ) -> (Slot<A>, Call)
        requires can { CanMake layout.now cpu.old step (k ∷ []) (only_at k slot) }
        requires part { k < parts }
        requires heard { G.heard_taken gate.now.gate.now cpu.old.id (length cpu.old.log.calls + 1) }
        ensures call { IsCalled cpu.old.id cpu.old step result.1 }
        ensures does { Does (layout_of layout.now) result.1 (only_at k slot) cpu.old (only_at k result.0) cpu.new }
        ensures told { tells layout.now (only_at k slot) cpu.old result.1
            (only_at k result.0) cpu.new told.old told.new };

    /// The step on the Shared part and the guest of slot v.
    fn both<A: Allocator + Copy>(
        &self,
        gate: &TryGate<G>,
        alloc: A,
        layout: &Layout,
        shared: Slot<A>,
        guest: Slot<A>,
        v: u64,
        cpu: &mut CpuState,
        step: Step,
        told: &mut T,
    ) -> (Slot<A>, Slot<A>, Call)
        requires can { CanMake layout.now cpu.old step (1 ∷ (v + 2) ∷ []) (pair_at v shared guest) }
        requires part { v + 2 < parts }
        requires heard { G.heard_taken gate.now.gate.now cpu.old.id (length cpu.old.log.calls + 1) }
        ensures call { IsCalled cpu.old.id cpu.old step result.2 }
        ensures does { Does (layout_of layout.now) result.2 (pair_at v shared guest) cpu.old
            (pair_at v result.0 result.1) cpu.new }
        ensures told { tells layout.now (pair_at v shared guest) cpu.old result.2
            (pair_at v result.0 result.1) cpu.new told.old told.new };
}

/// Makes the step, and reports nothing.
pub struct Plain;

impl<T, G: Gate> Maker<T, G> for Plain {
    ghost tells = { λ l before own call after owned from to. Unit {0} };

    fn idle<A: Allocator + Copy>(
        &self,
        _gate: &TryGate<G>,
        layout: &Layout,
        cpu: &mut CpuState,
        step: Step,
        _told: &mut T,
    ) -> Call {
        step::idle::<A>(layout, cpu, step)
    }

    fn alone<A: Allocator + Copy>(
        &self,
        _gate: &TryGate<G>,
        alloc: A,
        layout: &Layout,
        slot: Slot<A>,
        k: u64,
        cpu: &mut CpuState,
        step: Step,
        _told: &mut T,
    ) -> (Slot<A>, Call)
        requires can { CanMake layout.now cpu.old step (k ∷ []) (only_at k slot) }
        requires part { k < parts }
        ensures call { IsCalled cpu.old.id cpu.old step result.1 }
        ensures does { Does (layout_of layout.now) result.1 (only_at k slot) cpu.old (only_at k result.0) cpu.new }
        ensures told { Unit {0} }
    {
        step::alone(alloc, layout, slot, k, cpu, step)
    }

    fn both<A: Allocator + Copy>(
        &self,
        _gate: &TryGate<G>,
        alloc: A,
        layout: &Layout,
        shared: Slot<A>,
        guest: Slot<A>,
        v: u64,
        cpu: &mut CpuState,
        step: Step,
        _told: &mut T,
    ) -> (Slot<A>, Slot<A>, Call)
        requires can { CanMake layout.now cpu.old step (1 ∷ (v + 2) ∷ []) (pair_at v shared guest) }
        requires part { v + 2 < parts }
        ensures call { IsCalled cpu.old.id cpu.old step result.2 }
        ensures does { Does (layout_of layout.now) result.2 (pair_at v shared guest) cpu.old
            (pair_at v result.0 result.1) cpu.new }
        ensures told { Unit {0} }
    {
        step::both(alloc, layout, shared, guest, v, cpu, step)
    }
}
