//! The VM part's slots and the Guest parts on lists.
ghost use Rattle.std.specs.Prelude.{◌≡◌, All, IfOk, length, map};
ghost use Rattle.reference_model.specs.model.State.{no_guest, no_slot};

use call_table::VmKind;
use ghost_trees::tree::Tree;
use std::alloc::{AllocError, Global};

/// The state of a slot of the VM part.
#[derive(Clone, Copy, PartialEq)]
pub enum GhostStand {
    Vacant,
    Reserved,
    Opened,
    Closing,
}

/// A slot of the VM part.
#[derive(Drop)]
pub struct GhostSlot {
    pub stand: GhostStand,
    pub generation: u64,
    pub kind: VmKind,
    pub vcpus: u64,
    /// The CPU that has each vCPU loaded; no CPU for vCPUs past the end of the list.
    pub loaded: Vec<Option<u64>>,
}

/// The phase of a guest.
#[derive(Clone, Copy, PartialEq)]
pub enum GhostPhase {
    Empty,
    Live,
    Dying,
}

/// A Guest part.
#[derive(Drop)]
pub struct GhostGuest {
    pub phase: GhostPhase,
    pub generation: u64,
    pub kind: VmKind,
    pub tree: Tree,
    /// The free frames of its pool, in increasing order.
    pub free: Vec<u64>,
}

ghost use Rattle.ghost_spec.specs.States.{guest_in, slot_in, AreKeptGuests};

impl GhostSlot {
    ghost use Rattle.ghost_spec.specs.States.{slot_in};

    /// A copy of the slot.
    fn copied(&self, alloc: Global) -> Result<GhostSlot, AllocError>
        ensures { IfOk result (λ s. slot_in s ≡ slot_in self.now) }
    {
        Ok(GhostSlot {
            stand: self.stand,
            generation: self.generation,
            kind: self.kind,
            vcpus: self.vcpus,
            loaded: Vec::from_slice(alloc, self.loaded.as_slice())?,
        })
    }
}

impl GhostGuest {
    ghost use Rattle.std.specs.Prelude.{[]};
    ghost use Rattle.reference_model.specs.model.State.{no_guest};
    ghost use Rattle.ghost_spec.specs.Kept.{IsKeptGuest};
    ghost use Rattle.ghost_spec.specs.States.{guest_in};

    /// An Empty guest.
    pub fn none(alloc: Global) -> GhostGuest
        ensures none { guest_in result ≡ no_guest }
        ensures runs { result.tree.runs.items ≡ [] }
        ensures kept { IsKeptGuest result }
    {
        GhostGuest {
            phase: GhostPhase::Empty,
            generation: 0,
            kind: VmKind::Plain,
            tree: Tree::none(alloc),
            free: Vec::new(alloc),
        }
    }

    /// A copy of the guest.
    pub(crate) fn copied(&self, alloc: Global) -> Result<GhostGuest, AllocError>
        requires { IsKeptGuest self.now }
        ensures same { IfOk result (λ g. guest_in g ≡ guest_in self.now) }
        ensures kept { IfOk result IsKeptGuest }
    {
        Ok(GhostGuest {
            phase: self.phase,
            generation: self.generation,
            kind: self.kind,
            tree: self.tree.copied(alloc)?,
            free: Vec::from_slice(alloc, self.free.as_slice())?,
        })
    }
}

/// A copy of the slots.
pub(crate) fn copied_slots(alloc: Global, slots: &[GhostSlot]) -> Result<Vec<GhostSlot>, AllocError>
    ensures { IfOk result (λ v. map slot_in v.items ≡ map slot_in slots.now) }
{
    let mut copies = Vec::with_capacity(alloc, slots.len())?;
    for slot in slots {
        copies.push(slot.copied(alloc)?)?;
    }
    Ok(copies)
}

/// A copy of the guests.
pub(crate) fn copied_guests(
    alloc: Global,
    guests: &[GhostGuest],
) -> Result<Vec<GhostGuest>, AllocError>
    requires { AreKeptGuests guests.now }
    ensures same { IfOk result (λ v. map guest_in v.items ≡ map guest_in guests.now) }
    ensures kept { IfOk result (λ v. AreKeptGuests v.items) }
{
    let mut copies = Vec::with_capacity(alloc, guests.len())?;
    for guest in guests {
        copies.push(guest.copied(alloc)?)?;
    }
    Ok(copies)
}

/// `count` slots, all Empty.
pub fn empty_slots(alloc: Global, count: u64) -> Result<Vec<GhostSlot>, AllocError>
    ensures count { IfOk result (λ v. length v.items ≡ count) }
    ensures empty { IfOk result (λ v. All (λ s. slot_in s ≡ no_slot 1) v.items) }
{
    let mut slots = Vec::new(alloc);
    for _ in 0..count {
        slots.push(GhostSlot {
            stand: GhostStand::Vacant,
            generation: 1,
            kind: VmKind::Plain,
            vcpus: 0,
            loaded: Vec::new(alloc),
        })?;
    }
    Ok(slots)
}

/// `count` guests, all Empty.
pub fn empty_guests(alloc: Global, count: u64) -> Result<Vec<GhostGuest>, AllocError>
    ensures count { IfOk result (λ v. length v.items ≡ count) }
    ensures empty { IfOk result (λ v. All (λ g. guest_in g ≡ no_guest) v.items) }
    ensures kept { IfOk result (λ v. AreKeptGuests v.items) }
{
    let mut guests = Vec::new(alloc);
    for _ in 0..count {
        guests.push(GhostGuest::none(alloc))?;
    }
    Ok(guests)
}
