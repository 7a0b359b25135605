//! Guests and VM slots.
ghost use Rattle.std.specs.Prelude.{◌≡◌, ◌++◌, OnOk, Some};
ghost use Rattle.ghost_spec.specs.States.{guest_in, phase_in, slot_in, stand_in};
ghost use Rattle.state_changes.specs.Changed.{change_line, guest_name, slot_name, vcpu_name, ReportsGuest, ReportsSlot, ReportsValue, ReportsVcpu};
ghost use Rattle.state_changes.specs.Heads.{guest_told, slot_told};
ghost use Rattle.state_changes.specs.Texts.{guest_head, slot_head, text_of_guest_head, text_of_holder, text_of_phase, text_of_slot_head, text_of_stand};
ghost use Rattle.state_changes.specs.Together.{Adds, Each};

use crate::lines::add_change;
use crate::words::cpu_text;
use call_table::{VmKind, vm_kind_word};
use ghost_spec::parts::{GhostGuest, GhostPhase, GhostSlot, GhostStand};
use std::alloc::{AllocError, Global};
use std::fmt;

/// The most vCPUs of a VM.
const VCPUS: usize = 8;

/// The texts of a guest.
#[derive(Clone, Copy, PartialEq)]
struct GuestHead {
    phase: GhostPhase,
    generation: u64,
    kind: VmKind,
    free: usize,
}

impl fmt::Display for GuestHead {
    ghost use Rattle.state_changes.specs.Heads.{guest_told};

    ghost output = { λ head. Some (text_of_guest_head (guest_told head)) };

    fn fmt<W: fmt::Write>(&self, f: &mut fmt::Formatter<W>) -> fmt::Result {
        let phase = phase_word(self.phase);
        let generation = self.generation;
        let kind = vm_kind_word(self.kind);
        let free = self.free;
        match self.phase {
            GhostPhase::Empty => f.write_str("empty"),
            GhostPhase::Live | GhostPhase::Dying => {
                write!(f, "{phase} generation {generation} {kind} free {free}")
            }
        }
    }
}

/// The text of a VM slot, vCPUs apart.
#[derive(Clone, Copy, PartialEq)]
struct SlotHead {
    stand: GhostStand,
    generation: u64,
    kind: VmKind,
    vcpus: u64,
}

impl fmt::Display for SlotHead {
    ghost use Rattle.state_changes.specs.Heads.{slot_told};

    ghost output = { λ head. Some (text_of_slot_head (slot_told head)) };

    fn fmt<W: fmt::Write>(&self, f: &mut fmt::Formatter<W>) -> fmt::Result {
        let stand = stand_word(self.stand);
        let generation = self.generation;
        let kind = vm_kind_word(self.kind);
        let vcpus = self.vcpus;
        write!(f, "{stand} generation {generation} {kind} vcpus {vcpus}")
    }
}

/// The word of a guest's phase.
pub fn phase_word(phase: GhostPhase) -> &'static str
    ensures { result.now ≡ text_of_phase (phase_in phase) }
{
    match phase {
        GhostPhase::Empty => "empty",
        GhostPhase::Live => "live",
        GhostPhase::Dying => "dying",
    }
}

/// The word of a slot's stage.
pub fn stand_word(stand: GhostStand) -> &'static str
    ensures { result.now ≡ text_of_stand (stand_in stand) }
{
    match stand {
        GhostStand::Vacant => "empty",
        GhostStand::Reserved => "reserved",
        GhostStand::Opened => "open",
        GhostStand::Closing => "closing",
    }
}

fn guest_head_of(guest: &GhostGuest) -> GuestHead
    ensures { guest_told result ≡ guest_head (guest_in guest.now) }
{
    GuestHead {
        phase: guest.phase,
        generation: guest.generation,
        kind: guest.kind,
        free: guest.free.len(),
    }
}

fn slot_head_of(slot: &GhostSlot) -> SlotHead
    ensures { slot_told result ≡ slot_head (slot_in slot.now) }
{
    SlotHead {
        stand: slot.stand,
        generation: slot.generation,
        kind: slot.kind,
        vcpus: slot.vcpus,
    }
}

/// Adds the changes of a guest.
pub(crate) fn add_guest(
    text: &mut Vec<u8>,
    global: Global,
    slot: u64,
    before: &GhostGuest,
    after: &GhostGuest,
) -> Result<(), AllocError>
    ensures { OnOk result
        (Adds
        (ReportsGuest (guest_in before.now) (guest_in after.now) slot) text.old.items
        text.new.items) }
{
    add_guest_head(
        text,
        global,
        slot,
        guest_head_of(before),
        guest_head_of(after),
    )
}

fn add_guest_head(
    text: &mut Vec<u8>,
    global: Global,
    slot: u64,
    before: GuestHead,
    after: GuestHead,
) -> Result<(), AllocError>
    ensures { OnOk result
        (Adds
        (ReportsValue (guest_name slot) text_of_guest_head (guest_told before)
        (guest_told after)) text.old.items text.new.items) }
{
    if before == after {
        return Ok(());
    }
    let name = format!(in global; "guest {slot}")?;
    let was = format!(in global; "{before}")?;
    let is = format!(in global; "{after}")?;
    add_change(text, name.as_bytes(), was.as_bytes(), is.as_bytes())?;
    Ok(())
}

/// Adds the changes of a VM slot.
pub(crate) fn add_slot(
    text: &mut Vec<u8>,
    global: Global,
    slot: u64,
    before: &GhostSlot,
    after: &GhostSlot,
) -> Result<(), AllocError>
    ensures { OnOk result
        (Adds
        (ReportsSlot (slot_in before.now) (slot_in after.now) slot) text.old.items
        text.new.items) }
{
    add_slot_head(
        text,
        global,
        slot,
        slot_head_of(before),
        slot_head_of(after),
    )?;
    add_vcpus(text, global, slot, before, after)?;
    Ok(())
}

fn add_slot_head(
    text: &mut Vec<u8>,
    global: Global,
    slot: u64,
    before: SlotHead,
    after: SlotHead,
) -> Result<(), AllocError>
    ensures { OnOk result
        (Adds
        (ReportsValue (slot_name slot) text_of_slot_head (slot_told before)
        (slot_told after)) text.old.items text.new.items) }
{
    if before == after {
        return Ok(());
    }
    let name = format!(in global; "vm {slot}")?;
    let was = format!(in global; "{before}")?;
    let is = format!(in global; "{after}")?;
    add_change(text, name.as_bytes(), was.as_bytes(), is.as_bytes())?;
    Ok(())
}

/// Adds the changes of a slot's vCPUs.
fn add_vcpus(
    text: &mut Vec<u8>,
    global: Global,
    slot: u64,
    before: &GhostSlot,
    after: &GhostSlot,
) -> Result<(), AllocError>
    ensures { OnOk result
        (Adds
        (Each 8 (ReportsVcpu (slot_in before.now) (slot_in after.now) slot)) text.old.items
        text.new.items) }
{
    for vcpu in 0..VCPUS {
        let was = holder_of(before, vcpu);
        let is = holder_of(after, vcpu);
        add_holder(text, global, slot, vcpu as u64, was, is)?;
    }
    Ok(())
}

/// The CPU that has a vCPU loaded.
fn holder_of(slot: &GhostSlot, vcpu: usize) -> Option<u64>
    ensures { result ≡ (slot_in slot.now).loaded vcpu }
{
    match slot.loaded.get(vcpu) {
        Some(holder) => *holder,
        None => None,
    }
}

fn add_holder(
    text: &mut Vec<u8>,
    global: Global,
    slot: u64,
    vcpu: u64,
    before: Option<u64>,
    after: Option<u64>,
) -> Result<(), AllocError>
    ensures { OnOk result
        (Adds
        (ReportsValue (vcpu_name slot vcpu) text_of_holder before after) text.old.items
        text.new.items) }
{
    if before == after {
        return Ok(());
    }
    add_holders(text, global, slot, vcpu, before, after)?;
    Ok(())
}

fn add_holders(
    text: &mut Vec<u8>,
    global: Global,
    slot: u64,
    vcpu: u64,
    before: Option<u64>,
    after: Option<u64>,
) -> Result<(), AllocError>
    ensures { OnOk result
        (text.new.items
        ≡ text.old.items
        ++ change_line (vcpu_name slot vcpu) (text_of_holder before)
        (text_of_holder after)) }
{
    let name = format!(in global; "vm {slot} vcpu {vcpu}")?;
    let was = cpu_text(global, before)?;
    let is = cpu_text(global, after)?;
    add_change(text, name.as_bytes(), was.as_bytes(), is.as_bytes())?;
    Ok(())
}
