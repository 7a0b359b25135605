//! A slot, a guest and a CPU's own state by number.
ghost use Rattle.std.specs.Prelude.{◌≡◌, ◌<◌, ◌↔◌, IsTrue};
ghost use Rattle.reference_model.specs.claims.Sound.{StageFits};
ghost use Rattle.reference_model.specs.model.State.{empty, live, dying, vacant, reserved, opened, closing};
ghost use Rattle.ghost_spec.specs.Kept.{IsKeptCpu};
ghost use Rattle.ghost_spec.specs.States.{contents_in, guest_in, phase_in, slot_in, stand_in, IsKept};
ghost use Rattle.ghost_spec.specs.Views.{cpu_in};
ghost use Rattle.ghost_slots.specs.Stages.{PhaseOn, StandOn};

use ghost_spec::cpu::GhostCpu;
use ghost_spec::lists::GhostLists;
use ghost_spec::parts::{GhostGuest, GhostPhase, GhostSlot, GhostStand};
use reference_model::Stage;

/// The slot of a number.
pub(crate) fn slot_at(state: &GhostLists, slot: u64) -> &GhostSlot
    requires kept { IsKept state.now }
    requires slot { slot < 64 }
    ensures { slot_in result.now ≡ (contents_in state.now).vms.slot slot }
{
    let slots = state.vms.as_slice();
    &slots[slot as usize]
}

/// The guest of a slot.
pub(crate) fn guest_at(state: &GhostLists, slot: u64) -> &GhostGuest
    requires kept { IsKept state.now }
    requires slot { slot < 64 }
    ensures { guest_in result.now ≡ (contents_in state.now).guest slot }
{
    let guests = state.guests.as_slice();
    &guests[slot as usize]
}

/// A CPU's own state.
pub(crate) fn cpu_at(state: &GhostLists, cpu: u64) -> GhostCpu
    requires kept { IsKept state.now }
    requires cpu { cpu < state.now.layout.config.cpus }
    ensures value { cpu_in result ≡ (contents_in state.now).cpu cpu }
    ensures kept { IsKeptCpu result }
{
    let cpus = state.cpus.as_slice();
    cpus[cpu as usize]
}

/// Whether a slot is Reserved.
pub(crate) fn is_reserved(stand: GhostStand) -> bool
    ensures { IsTrue result ↔ (stand_in stand ≡ reserved) }
{
    match stand {
        GhostStand::Reserved => true,
        _ => false,
    }
}

/// Whether a slot is Closing.
pub(crate) fn is_closing(stand: GhostStand) -> bool
    ensures { IsTrue result ↔ (stand_in stand ≡ closing) }
{
    match stand {
        GhostStand::Closing => true,
        _ => false,
    }
}

/// Whether a slot is Open.
pub(crate) fn is_opened(stand: GhostStand) -> bool
    ensures { IsTrue result ↔ (stand_in stand ≡ opened) }
{
    match stand {
        GhostStand::Opened => true,
        _ => false,
    }
}

/// Whether a slot is vacant.
pub(crate) fn is_vacant(stand: GhostStand) -> bool
    ensures { IsTrue result ↔ (stand_in stand ≡ vacant) }
{
    match stand {
        GhostStand::Vacant => true,
        _ => false,
    }
}

/// Whether a guest is Empty.
pub(crate) fn is_empty(phase: GhostPhase) -> bool
    ensures { IsTrue result ↔ (phase_in phase ≡ empty) }
{
    match phase {
        GhostPhase::Empty => true,
        _ => false,
    }
}

/// Whether a guest is Live.
pub(crate) fn is_live(phase: GhostPhase) -> bool
    ensures { IsTrue result ↔ (phase_in phase ≡ live) }
{
    match phase {
        GhostPhase::Live => true,
        _ => false,
    }
}

/// Whether a guest is Dying.
fn is_dying(phase: GhostPhase) -> bool
    ensures { IsTrue result ↔ (phase_in phase ≡ dying) }
{
    match phase {
        GhostPhase::Dying => true,
        _ => false,
    }
}

/// Whether a guest's phase fits a ticket's stage.
fn fits_phase(stage: Stage, phase: GhostPhase) -> bool
    ensures { IsTrue result ↔ PhaseOn stage (phase_in phase) }
{
    match stage {
        Stage::Booked => is_empty(phase),
        Stage::Installed => is_live(phase),
        Stage::Closing => is_live(phase),
        Stage::Dying => is_dying(phase),
        Stage::Finished => is_empty(phase),
    }
}

/// Whether a slot is in the stage of a ticket.
fn fits_stand(stage: Stage, stand: GhostStand) -> bool
    ensures { IsTrue result ↔ StandOn stage (stand_in stand) }
{
    match stage {
        Stage::Booked => is_reserved(stand),
        Stage::Installed => is_reserved(stand),
        Stage::Closing => is_closing(stand),
        Stage::Dying => is_closing(stand),
        Stage::Finished => is_closing(stand),
    }
}

/// Whether a slot and its guest are in the stage of a ticket.
pub(crate) fn fits_stage(stage: Stage, stand: GhostStand, phase: GhostPhase) -> bool
    ensures { IsTrue result ↔ StageFits stage (stand_in stand) (phase_in phase) }
{
    if !fits_stand(stage, stand) {
        return false;
    }
    fits_phase(stage, phase)
}
