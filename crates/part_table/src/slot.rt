//! What a slot of the table holds.
use part_types::{GuestPart, SharedPart, VmPart};
use std::alloc::Allocator;

/// A part, with its log.
#[derive(Drop)]
pub enum Slot<A: Allocator> {
    Vm(VmPart),
    Shared(SharedPart<A>),
    Guest(GuestPart<A>),
}

impl<A: Allocator> Slot<A> {
    ghost use Rattle.std.specs.Prelude.{◌≡◌};
    ghost use Rattle.part_table.specs.Parts.{log_of, HoldsVms, HoldsShared, HoldsGuest};

    /// How many more calls the part's log can store.
    pub fn room(&self) -> u64
        ensures { result ≡ (log_of self.now).room }
    {
        match self {
            Slot::Vm(part) => part.log.room(),
            Slot::Shared(part) => part.log.room(),
            Slot::Guest(part) => part.log.room(),
        }
    }

    /// The VM part, which the slot must hold.
    pub(crate) fn into_vm(self) -> VmPart
        requires { HoldsVms self }
        ensures { self ≡ Slot.Vm result }
    {
        match self {
            Slot::Vm(part) => part,
            _ => unreachable!(),
        }
    }

    /// The Shared part, which the slot must hold.
    pub(crate) fn into_shared(self) -> SharedPart<A>
        requires { HoldsShared self }
        ensures { self ≡ Slot.Shared result }
    {
        match self {
            Slot::Shared(part) => part,
            _ => unreachable!(),
        }
    }

    /// The Guest part, which the slot must hold.
    pub(crate) fn into_guest(self) -> GuestPart<A>
        requires { HoldsGuest self }
        ensures { self ≡ Slot.Guest result }
    {
        match self {
            Slot::Guest(part) => part,
            _ => unreachable!(),
        }
    }
}
