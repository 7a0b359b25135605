//! The effect of a change on the slots of the VM part.
ghost use Rattle.std.specs.Prelude.{◌≡◌, ℕ, ◌+◌, ◌^◌, ◌<◌, None, OnOk, length, get_or};
ghost use Rattle.reference_model.specs.model.Changes.{vms_by};
ghost use Rattle.reference_model.specs.model.State.{closing, no_slot, opened, put_at, reserved};
ghost use Rattle.ghost_spec.specs.Kept.{FitsSlots};
ghost use Rattle.ghost_spec.specs.States.{slot_in};
ghost use Rattle.ghost_spec.specs.Used.{vms_in};

use crate::parts::{GhostSlot, GhostStand};
use call_table::VmKind;
use reference_model::SlotChange;
use std::alloc::{AllocError, Global};

/// A slot becomes Reserved for a VM of the kind with `vcpus` vCPUs.
fn reserve(slot: &mut GhostSlot, kind: VmKind, vcpus: u64)
    ensures { slot_in slot.new
        ≡ record (slot_in slot.old) { stand = reserved; kind = kind; vcpus = vcpus } }
{
    slot.stand = GhostStand::Reserved;
    slot.kind = kind;
    slot.vcpus = vcpus;
}

/// A slot becomes Open.
fn open(slot: &mut GhostSlot)
    ensures { slot_in slot.new ≡ record (slot_in slot.old) { stand = opened } }
{
    slot.stand = GhostStand::Opened;
}

/// A slot becomes Closing.
fn close(slot: &mut GhostSlot)
    ensures { slot_in slot.new ≡ record (slot_in slot.old) { stand = closing } }
{
    slot.stand = GhostStand::Closing;
}

/// A slot becomes an Empty one of the generation after this one.
fn release(alloc: Global, slot: &mut GhostSlot, generation: u64)
    requires { generation + 1 < 2 ^ 64 }
    ensures { slot_in slot.new ≡ no_slot (generation + 1) }
{
    *slot = GhostSlot {
        stand: GhostStand::Vacant,
        generation: generation + 1,
        kind: VmKind::Plain,
        vcpus: 0,
        loaded: Vec::new(alloc),
    };
}

/// The list goes as far as the vCPU.
fn reach(loaded: &mut Vec<Option<u64>>, vcpu: usize) -> Result<(), AllocError>
    ensures same { OnOk result ((i : ℕ) → get_or loaded.new.items i None ≡ get_or loaded.old.items i None) }
    ensures long { OnOk result (vcpu < length loaded.new.items) }
{
    while loaded.len() <= vcpu {
        loaded.push(None)?;
    }
    Ok(())
}

/// The CPU that has a vCPU loaded becomes this.
fn set_loaded(slot: &mut GhostSlot, vcpu: u64, cpu: Option<u64>) -> Result<(), AllocError>
    ensures { OnOk result
        (slot_in slot.new
        ≡ record (slot_in slot.old) { loaded = put_at (slot_in slot.old).loaded vcpu cpu }) }
{
    let place = vcpu as usize;
    reach(&mut slot.loaded, place)?;
    slot.loaded[place] = cpu;
    Ok(())
}

/// The slots after a change.
pub(crate) fn change(
    alloc: Global,
    vms: &mut Vec<GhostSlot>,
    change: SlotChange,
) -> Result<(), AllocError>
    requires { FitsSlots (length vms.old.items) change }
    ensures after { OnOk result (vms_in vms.new.items ≡ vms_by change (vms_in vms.old.items)) }
    ensures count { length vms.new.items ≡ length vms.old.items }
{
    match change {
        SlotChange::Keep => Ok(()),
        SlotChange::Reserve { slot, kind, vcpus } => {
            reserve(&mut vms[slot as usize], kind, vcpus);
            Ok(())
        }
        SlotChange::Open { slot } => {
            open(&mut vms[slot as usize]);
            Ok(())
        }
        SlotChange::Close { slot } => {
            close(&mut vms[slot as usize]);
            Ok(())
        }
        SlotChange::Release { vm } => {
            release(alloc, &mut vms[vm.slot as usize], vm.generation);
            Ok(())
        }
        SlotChange::Load { slot, vcpu, cpu } => {
            set_loaded(&mut vms[slot as usize], vcpu, Some(cpu))
        }
        SlotChange::Unload { slot, vcpu } => set_loaded(&mut vms[slot as usize], vcpu, None),
    }
}
