//! Disagreements of slots, loads, tickets, guests and hands.
ghost use Rattle.std.specs.Prelude.{MatchOption};
ghost use Rattle.reference_model.specs.help.Conditions.{SlotsFit};
ghost use Rattle.ghost_spec.specs.States.{contents_in, IsKept};
ghost use Rattle.ghost_slots.specs.Faults.{IsSlotFault};

use crate::cpus::first_cpu;
use crate::slots::first_slot;
use ghost_spec::lists::GhostLists;

/// The first disagreement of slots, loads, tickets, guests and hands: CPUs by number, then slots.
#[derive(Clone, Copy, PartialEq)]
pub enum SlotFault {
    /// The slot of the CPU's loaded vCPU doesn't name the CPU for it.
    Load(u64),
    /// The CPU's hand is a range without a frame.
    Hand(u64),
    /// The CPU's ticket doesn't fit the stage of its slot.
    Ticket(u64),
    /// The vCPU of the slot is loaded on a CPU that hasn't it, or in a slot that isn't Open, or isn't one of eight.
    Vcpu(u64, u64),
    /// The slot and its guest don't agree.
    Guest(u64),
    /// The slot is Reserved or Closing, and no CPU has its ticket, or several have.
    Tickets(u64),
}

/// Disagreements of slots, loads, tickets, guests and hands.
pub fn first_slot_fault(state: &GhostLists) -> Option<SlotFault>
    requires { IsKept state.now }
    ensures { MatchOption result (SlotsFit (contents_in state.now)) (IsSlotFault (contents_in state.now)) }
{
    match first_cpu(state) {
        Some(found) => Some(found),
        None => first_slot(state),
    }
}
