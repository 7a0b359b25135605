//! Laws of every state.
ghost use Rattle.ghost_slots.specs.Laws.{FaultsAreReal};

/// If a fault of slots is reported, slots, loads, tickets, guests and hands don't agree.
pub fn faults_are_real()
    ensures { FaultsAreReal }
{}
