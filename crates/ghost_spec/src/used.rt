//! The parts that a call uses, on lists.
ghost use Rattle.std.specs.Prelude.{◌≡◌, ℕ, ◌-◌, IfOk, if◌then◌else◌, length, false, true};
ghost use Rattle.reference_model.specs.model.State.{no_shared, no_vms, Guest};
ghost use Rattle.reference_model.specs.model.Used.{guest_at, put_guest as put_guest_of, put_room, room_at};
ghost use Rattle.ghost_spec.specs.Kept.{IsKeptGuest, IsKeptShared, IsLowSlot};
ghost use Rattle.ghost_spec.specs.States.{guest_in, AreKeptGuests};
ghost use Rattle.ghost_spec.specs.Used.{guests_in, rooms_of, vms_in};
ghost use Rattle.ghost_spec.specs.Views.{shared_in_lists};

use crate::cpu::GhostCpu;
use crate::parts::{GhostGuest, GhostSlot, copied_slots};
use crate::shared::Shared;
use std::alloc::{AllocError, Global};
use std::mem;

/// The parts that a call uses, and its CPU's own state. A part that it doesn't use is blank.
#[derive(Drop)]
pub(crate) struct GhostUsed {
    pub(crate) vms: Vec<GhostSlot>,
    pub(crate) shared: Shared,
    pub(crate) guest: GhostGuest,
    pub(crate) own: GhostCpu,
}

/// The slots that a call uses: all, or none.
pub(crate) fn used_vms(
    alloc: Global,
    vms: &[GhostSlot],
    is_used: bool,
) -> Result<Vec<GhostSlot>, AllocError>
    ensures vms { IfOk result (λ v. vms_in v.items ≡ (if is_used then vms_in vms.now else no_vms)) }
    ensures count { is_used ≡ true → IfOk result (λ v. length v.items ≡ length vms.now) }
{
    if is_used {
        copied_slots(alloc, vms)
    } else {
        Ok(Vec::new(alloc))
    }
}

/// The Shared part is taken out if a call uses it, otherwise left: the taken one is blank then.
pub(crate) fn take_shared(alloc: Global, shared: &mut Shared, is_used: bool) -> Shared
    requires { IsKeptShared shared.old }
    ensures shared { shared_in_lists result ≡ (if is_used then shared_in_lists shared.old else no_shared) }
    ensures kept { IsKeptShared result }
    ensures stays { is_used ≡ false → shared.new ≡ shared.old }
    ensures left { IsKeptShared shared.new }
{
    if is_used {
        mem::replace(shared, Shared::none(alloc))
    } else {
        Shared::none(alloc)
    }
}

/// Takes out the guest of a slot, if there is one, and leaves an Empty one.
pub(crate) fn take_guest(
    alloc: Global,
    guests: &mut Vec<GhostGuest>,
    slot: Option<u64>,
) -> GhostGuest
    requires count { length guests.old.items ≡ 64 }
    requires kept { AreKeptGuests guests.old.items }
    requires slot { IsLowSlot slot }
    ensures guest { guest_in result ≡ guest_at (guests_in guests.old.items) slot }
    ensures kept { IsKeptGuest result }
    ensures others { (g : Guest)
        → put_guest_of (guests_in guests.new.items) slot g
        ≡ put_guest_of (guests_in guests.old.items) slot g }
    ensures count { length guests.new.items ≡ 64 }
    ensures left { AreKeptGuests guests.new.items }
{
    match slot {
        Some(v) => mem::replace(&mut guests[v as usize], GhostGuest::none(alloc)),
        None => GhostGuest::none(alloc),
    }
}

/// The slots after a call that may use them.
pub(crate) fn put_vms(vms: &mut Vec<GhostSlot>, new: Vec<GhostSlot>, is_used: bool)
    ensures vms { vms_in vms.new.items ≡ (if is_used then vms_in new.items else vms_in vms.old.items) }
    ensures count { (is_used ≡ true → length new.items ≡ length vms.old.items)
        → length vms.new.items ≡ length vms.old.items }
{
    if is_used {
        *vms = new;
    }
}

/// The Shared part after a call that may use it.
pub(crate) fn put_shared(shared: &mut Shared, new: Shared, is_used: bool)
    requires kept { IsKeptShared shared.old }
    requires new { IsKeptShared new }
    ensures shared { shared_in_lists shared.new
        ≡ (if is_used then shared_in_lists new else shared_in_lists shared.old) }
    ensures kept { IsKeptShared shared.new }
{
    if is_used {
        *shared = new;
    }
}

/// The guests after a call that may use one.
pub(crate) fn put_guest(guests: &mut Vec<GhostGuest>, new: GhostGuest, slot: Option<u64>)
    requires count { length guests.old.items ≡ 64 }
    requires kept { AreKeptGuests guests.old.items }
    requires new { IsKeptGuest new }
    requires slot { IsLowSlot slot }
    ensures guests { guests_in guests.new.items ≡ put_guest_of (guests_in guests.old.items) slot (guest_in new) }
    ensures count { length guests.new.items ≡ 64 }
    ensures kept { AreKeptGuests guests.new.items }
{
    if let Some(v) = slot {
        guests[v as usize] = new;
    }
}

/// The rooms of logs of which one may store a call.
pub(crate) fn store_in(rooms: &mut Vec<u64>, slot: Option<u64>)
    requires count { length rooms.old.items ≡ 64 }
    requires slot { IsLowSlot slot }
    ensures rooms { (log : ℕ)
        → rooms_of log rooms.new.items
        ≡ put_room (rooms_of log rooms.old.items) slot
        (room_at (rooms_of log rooms.old.items) slot - 1) }
    ensures count { length rooms.new.items ≡ 64 }
{
    if let Some(v) = slot {
        rooms[v as usize] = rooms[v as usize].saturating_sub(1);
    }
}
