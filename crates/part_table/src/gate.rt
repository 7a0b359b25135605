//! What is called in the middle of a call.
ghost use Rattle.std.specs.Prelude.{◌≡◌, ◌≢◌, ◌+◌, ◌∷◌, [], length};
ghost use Rattle.part_table.specs.Parts.{log_of, numbers_for};

use crate::slot::Slot;
use call_table::Step;
use part_types::CpuState;
use std::alloc::Allocator;

/// What is called in the middle of a call, with the CPU and its number of the call.
pub trait Gate {
    ghost use Rattle.std.specs.Prelude.{ℕ};

    /// That `taken` was called with this CPU and number. Only the call gives it.
    ghost heard_taken: { Self → ℕ → ℕ → Type 0 };

    /// The same of `answered`.
    ghost heard_answered: { Self → ℕ → ℕ → Type 0 };

    /// All parts that the call uses are held, and no log that would store it is full. The step comes next.
    fn taken(&self, cpu: u64, number: u64)
        ensures { heard_taken self.now cpu number };

    /// The parts are home again, and the call is answered.
    fn answered(&self, cpu: u64, number: u64)
        ensures { heard_answered self.now cpu number };

    /// An exchange was made, of this kind: 1 took a part, 2 found it with another pass, 3 put the one part of a call home
    /// with the call, 4 the guest of a call that uses the Shared part too, 5 a part without a call.
    fn exchanged(&self, _cpu: u64, _number: u64, _kind: u64) {}
}

/// A gate that does nothing.
pub struct Open;

impl Gate for Open {
    ghost heard_taken = { λ gate cpu number. Unit {0} };

    ghost heard_answered = { λ gate cpu number. Unit {0} };

    fn taken(&self, _cpu: u64, _number: u64) {}

    fn answered(&self, _cpu: u64, _number: u64) {}
}

/// The gate of a try. It hears that a call's parts are held only if no log that would store the call is full.
#[derive(Drop)]
pub struct TryGate<'a, G> {
    gate: &'a G,
}

impl<'a, G: Gate> TryGate<'a, G> {
    /// Round a gate.
    pub fn of(gate: &'a G) -> TryGate<'a, G>
        ensures { result.gate.now ≡ gate.entry.now }
    {
        TryGate { gate }
    }

    /// An exchange was made.
    pub(crate) fn exchanged(&self, cpu: u64, number: u64, kind: u64) {
        self.gate.exchanged(cpu, number, kind);
    }

    /// Tells the gate.
    fn tell_taken(&self, cpu: &CpuState)
        ensures { G.heard_taken self.now.gate.now cpu.now.id (length cpu.now.log.calls + 1) }
    {
        self.gate.taken(cpu.id, cpu.log.len() as u64 + 1);
    }

    /// A step comes next that uses no part.
    pub(crate) fn taken_none(&self, cpu: &CpuState, step: &Step)
        requires uses { numbers_for cpu.now step.now ≡ [] }
        requires own_room { cpu.now.log.room ≢ 0 }
        ensures { G.heard_taken self.now.gate.now cpu.now.id (length cpu.now.log.calls + 1) }
    {
        let _ = step;
        self.tell_taken(cpu);
    }

    /// The part k is held, and the step that uses it alone comes next.
    pub(crate) fn taken_one<A: Allocator>(
        &self,
        cpu: &CpuState,
        step: &Step,
        k: u64,
        part: &Slot<A>,
    )
        requires uses { numbers_for cpu.now step.now ≡ k ∷ [] }
        requires room { (log_of part.now).room ≢ 0 }
        requires own_room { cpu.now.log.room ≢ 0 }
        ensures { G.heard_taken self.now.gate.now cpu.now.id (length cpu.now.log.calls + 1) }
    {
        let _ = step;
        let _ = k;
        let _ = part;
        self.tell_taken(cpu);
    }

    /// The Shared part and the guest of slot v are held, and the step that uses both comes next.
    pub(crate) fn taken_two<A: Allocator>(
        &self,
        cpu: &CpuState,
        step: &Step,
        v: u64,
        shared: &Slot<A>,
        guest: &Slot<A>,
    )
        requires uses { numbers_for cpu.now step.now ≡ 1 ∷ (v + 2) ∷ [] }
        requires shared_room { (log_of shared.now).room ≢ 0 }
        requires guest_room { (log_of guest.now).room ≢ 0 }
        requires own_room { cpu.now.log.room ≢ 0 }
        ensures { G.heard_taken self.now.gate.now cpu.now.id (length cpu.now.log.calls + 1) }
    {
        let _ = step;
        let _ = v;
        let _ = shared;
        let _ = guest;
        self.tell_taken(cpu);
    }
}
