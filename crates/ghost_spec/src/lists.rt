//! The content of a reference state as plain lists, and the reference step on them.
ghost use Rattle.std.specs.Prelude.{◌≡◌, ℕ, ◌-◌, ◌<◌, ◌&&◌, ◌||◌, ◌==◌, IfOk, OnOk, if◌then◌else◌, is_some, length};
ghost use Rattle.page_state.specs.LayoutView.{layout_of};
ghost use Rattle.reference_model.specs.model.Step.{predict_step};

use crate::answer::answer;
use crate::cpu::GhostCpu;
use crate::pair::both;
use crate::parts::{GhostGuest, GhostSlot, copied_guests, copied_slots};
use crate::shared::Shared;
use crate::step_uses::{StepUses, uses};
use crate::used::{
    GhostUsed, put_guest, put_shared, put_vms, store_in, take_guest, take_shared, used_vms,
};
use call_table::{Refusal, Reply, Step};
use page_state::Layout;
use std::alloc::{AllocError, Global};

/// How many calls the log of each part and of each CPU can still store.
#[derive(Drop)]
pub struct GhostRooms {
    pub vms: u64,
    pub shared: u64,
    pub guests: Vec<u64>,
    pub cpus: Vec<u64>,
}

/// The content of a reference state, before any test of it.
#[derive(Drop)]
pub struct GhostLists {
    pub layout: Layout,
    /// The 64 slots of the VM part.
    pub vms: Vec<GhostSlot>,
    pub shared: Shared,
    /// The 64 Guest parts.
    pub guests: Vec<GhostGuest>,
    /// The CPUs of the layout.
    pub cpus: Vec<GhostCpu>,
    pub rooms: GhostRooms,
}

ghost use Rattle.reference_model.specs.model.Used.{room_at};
ghost use Rattle.ghost_spec.specs.Kept.{IsLowSlot};
ghost use Rattle.ghost_spec.specs.States.{ghost_state, rooms_in, IsKept};
ghost use Rattle.ghost_spec.specs.Used.{rooms_of};

/// The room of a log after a call, which takes one if it is stored.
fn left_of(room: u64, is_stored: bool) -> u64
    ensures { result ≡ (if is_stored then room - 1 else room) }
{
    if is_stored {
        room.saturating_sub(1)
    } else {
        room
    }
}

/// Whether a part is used and its log is full.
fn is_used_full(is_used: bool, room: u64) -> bool
    ensures { result ≡ (is_used && room == 0) }
{
    is_used && room == 0
}

/// Whether any of these is so.
fn is_any(a: bool, b: bool, c: bool, d: bool) -> bool
    ensures { result ≡ (a || b || c || d) }
{
    a || b || c || d
}

/// Whether there is a guest and its log is full.
fn is_guest_full(rooms: &[u64], slot: Option<u64>) -> bool
    requires count { length rooms.now ≡ 64 }
    requires slot { IsLowSlot slot }
    ensures { (log : ℕ) → result ≡ (is_some slot && room_at (rooms_of log rooms.now) slot == 0) }
{
    match slot {
        Some(v) => rooms[v as usize] == 0,
        None => false,
    }
}

/// A copy of the layout.
pub fn copied_layout(layout: &Layout) -> Result<Layout, AllocError>
    ensures { IfOk result (λ l. layout_of l ≡ layout_of layout.now) }
{
    Ok(Layout {
        map: layout.map.clone()?,
        config: layout.config,
        geometry: layout.geometry,
    })
}

impl GhostRooms {
    ghost use Rattle.std.specs.Prelude.{ℕ};
    ghost use Rattle.ghost_spec.specs.States.{rooms_in};

    /// A copy of the rooms.
    pub(crate) fn copied(&self, alloc: Global) -> Result<GhostRooms, AllocError>
        ensures same { (log : ℕ) → IfOk result (λ r. rooms_in log r ≡ rooms_in log self.now) }
        ensures guests { IfOk result (λ r. r.guests.items ≡ self.now.guests.items) }
        ensures cpus { IfOk result (λ r. r.cpus.items ≡ self.now.cpus.items) }
    {
        Ok(GhostRooms {
            vms: self.vms,
            shared: self.shared,
            guests: Vec::from_slice(alloc, self.guests.as_slice())?,
            cpus: Vec::from_slice(alloc, self.cpus.as_slice())?,
        })
    }
}

impl GhostLists {
    ghost use Rattle.page_state.specs.LayoutView.{layout_of};
    ghost use Rattle.reference_model.specs.model.Parts.{uses_vms as uses_vms_of};
    ghost use Rattle.reference_model.specs.model.Rules.{names};
    ghost use Rattle.reference_model.specs.model.Step.{predict_step, is_full as is_full_of};
    ghost use Rattle.reference_model.specs.model.Used.{
      put_back as put_back_of,
      rooms_of as rooms_of_state,
    };
    ghost use Rattle.std.specs.Prelude.{length, true};
    ghost use Rattle.ghost_spec.specs.Kept.{HasNextGeneration};
    ghost use Rattle.ghost_spec.specs.States.{contents_in, ghost_state, IsKept};
    ghost use Rattle.ghost_spec.specs.Used.{
      AreUsed,
      IsKeptUsed,
      IsSameElsewhere,
      IsTaken,
      rooms_after,
      used_in,
    };

    /// A copy of the state.
    pub(crate) fn copied(&self, alloc: Global) -> Result<GhostLists, AllocError>
        requires { IsKept self.now }
        ensures state { IfOk result (λ g. ghost_state g ≡ ghost_state self.now) }
        ensures layout { IfOk result (λ g. layout_of g.layout ≡ layout_of self.now.layout) }
        ensures kept { IfOk result IsKept }
    {
        let layout = copied_layout(&self.layout);
        let vms = copied_slots(alloc, self.vms.as_slice());
        let cpus = Vec::from_slice(alloc, self.cpus.as_slice());
        let rooms = self.rooms.copied(alloc);
        let guests = copied_guests(alloc, self.guests.as_slice());
        let shared = self.shared.copied(alloc);
        let small = both(layout, both(cpus, rooms));
        let large = both(vms, both(guests, shared));
        let ((layout, (cpus, rooms)), (vms, (guests, shared))) = both(small, large)?;
        Ok(GhostLists {
            layout,
            vms,
            shared,
            guests,
            cpus,
            rooms,
        })
    }

    /// Whether a log that would store a call is full.
    fn is_full(&self, cpu: usize, uses: StepUses) -> bool
        requires cpu { cpu < length self.now.rooms.cpus.items }
        requires guests { length self.now.rooms.guests.items ≡ 64 }
        requires uses { AreUsed uses }
        ensures { result
            ≡ is_full_of (names uses.step) uses.slot
            (rooms_of_state (names uses.step) uses.slot cpu (ghost_state self.now).rooms) }
    {
        let is_vms_full = is_used_full(uses.has_vms, self.rooms.vms);
        let is_shared_full = is_used_full(uses.has_shared, self.rooms.shared);
        let is_guest_full = is_guest_full(self.rooms.guests.as_slice(), uses.slot);
        is_any(
            self.rooms.cpus[cpu] == 0,
            is_vms_full,
            is_shared_full,
            is_guest_full,
        )
    }

    /// Takes the parts that a call uses out, and leaves blank ones.
    fn take(&mut self, alloc: Global, cpu: usize, uses: StepUses) -> Result<GhostUsed, AllocError>
        requires cpu { cpu < length self.old.cpus.items }
        requires kept { IsKept self.old }
        requires uses { AreUsed uses }
        ensures taken { IfOk result (IsTaken uses.step uses.slot cpu self.old) }
        ensures others { OnOk result
            (IsSameElsewhere uses.step uses.slot cpu (contents_in self.old) (contents_in self.new)) }
        ensures layout { self.new.layout ≡ self.old.layout }
        ensures rooms { self.new.rooms ≡ self.old.rooms }
        ensures left { OnOk result (IsKept self.new) }
    {
        Ok(GhostUsed {
            vms: used_vms(alloc, self.vms.as_slice(), uses.has_vms)?,
            shared: take_shared(alloc, &mut self.shared, uses.has_shared),
            guest: take_guest(alloc, &mut self.guests, uses.slot),
            own: self.cpus[cpu],
        })
    }

    /// Puts the parts that a call used back.
    fn put_back(&mut self, cpu: usize, uses: StepUses, used: GhostUsed)
        requires cpu { cpu < length self.old.cpus.items }
        requires kept { IsKept self.old }
        requires used { IsKeptUsed used }
        requires uses { AreUsed uses }
        requires count { uses_vms_of (names uses.step) ≡ true → length used.vms.items ≡ 64 }
        ensures contents { contents_in self.new
            ≡ put_back_of (names uses.step) uses.slot cpu (contents_in self.old) (used_in used) }
        ensures layout { self.new.layout ≡ self.old.layout }
        ensures rooms { self.new.rooms ≡ self.old.rooms }
        ensures kept { IsKept self.new }
    {
        let GhostUsed {
            vms,
            shared,
            guest,
            own,
        } = used;
        put_vms(&mut self.vms, vms, uses.has_vms);
        put_shared(&mut self.shared, shared, uses.has_shared);
        put_guest(&mut self.guests, guest, uses.slot);
        self.cpus[cpu] = own;
    }

    /// Stores a call.
    fn store(&mut self, cpu: usize, uses: StepUses)
        requires cpu { cpu < length self.old.rooms.cpus.items }
        requires kept { IsKept self.old }
        requires uses { AreUsed uses }
        ensures contents { contents_in self.new ≡ contents_in self.old }
        ensures rooms { (ghost_state self.new).rooms
            ≡ rooms_after uses.step uses.slot cpu (ghost_state self.old).rooms }
        ensures layout { self.new.layout ≡ self.old.layout }
        ensures kept { IsKept self.new }
    {
        self.rooms.vms = left_of(self.rooms.vms, uses.has_vms);
        self.rooms.shared = left_of(self.rooms.shared, uses.has_shared);
        store_in(&mut self.rooms.guests, uses.slot);
        self.rooms.cpus[cpu] = left_of(self.rooms.cpus[cpu], true);
    }

    /// The reference step, for memory that doesn't run out: the reply, and the state becomes the one after it. If the
    /// allocator refuses memory, anything may have changed.
    pub(crate) fn advance(
        &mut self,
        alloc: Global,
        cpu: u64,
        step: Step,
    ) -> Result<Reply, AllocError>
        requires cpu { cpu < self.old.layout.config.cpus }
        requires kept { IsKept self.old }
        requires generation { HasNextGeneration ((contents_in self.old).cpu cpu).ticket step }
        ensures predicted { IfOk result
            (λ reply. (reply, ghost_state self.new)
            ≡ predict_step (layout_of self.old.layout) (ghost_state self.old) cpu step) }
        ensures layout { self.new.layout ≡ self.old.layout }
        ensures kept { OnOk result (IsKept self.new) }
    {
        let place = cpu as usize;
        let uses = uses(&self.cpus[place], step);
        if self.is_full(place, uses) {
            return Ok(Reply::Refused(Refusal::LogFull));
        }
        let mut used = self.take(alloc, place, uses)?;
        let Ok(reply) = answer(alloc, &self.layout, cpu, uses.slot, &mut used, uses.step) else {
            drop(used);
            return Err(AllocError);
        };
        self.put_back(place, uses, used);
        self.store(place, uses);
        Ok(reply)
    }
}
