//! All parts of a world as the slots of a table, and back.
ghost use Rattle.std.specs.Prelude.{◌≡◌, ◌+◌, ◌≤◌, [], ◌∷◌, ◌++◌, length, map, Some};
ghost use Rattle.std.specs.Vec.{vec_capacity, vec_len};
ghost use Rattle.hypercalls.specs.Stands.{HasHistory};
ghost use Rattle.part_table.specs.Endings.{IsEndOf};
ghost use Rattle.part_table.specs.Slots.{slots_of};
ghost use Rattle.part_table.specs.Whole.{AreGuests, AreParts, EndsInSlots};

use crate::room::push_in_room;
use crate::slot::Slot;
use hypercalls::Parts;
use page_state::Layout;
use part_types::{CpuState, GuestPart, SharedPart, VmPart};
use std::alloc::Allocator;

/// Pushes guests, each in a slot, in their order.
fn push_guests<A: Allocator>(
    mut slots: Vec<Option<Slot<A>>>,
    mut guests: Vec<GuestPart<A>>,
) -> Vec<Option<Slot<A>>>
    requires room { vec_len slots + vec_len guests ≤ vec_capacity slots }
    ensures { result.items ≡ slots.items ++ map (λ g. Some (Slot.Guest g)) guests.items }
{
    while !guests.is_empty() {
        let guest = guests.remove(0);
        push_in_room(&mut slots, Some(Slot::Guest(guest)));
    }
    slots
}

/// Pushes the VM part and the Shared part, each in a slot.
fn push_first<A: Allocator>(
    mut slots: Vec<Option<Slot<A>>>,
    vm: VmPart,
    shared: SharedPart<A>,
) -> Vec<Option<Slot<A>>>
    requires empty { vec_len slots ≡ 0 }
    requires room { 2 ≤ vec_capacity slots }
    ensures items { result.items ≡ Some (Slot.Vm vm) ∷ Some (Slot.Shared shared) ∷ [] }
    ensures len { vec_len result ≡ 2 }
    ensures room { vec_capacity slots ≤ vec_capacity result }
{
    push_in_room(&mut slots, Some(Slot::Vm(vm)));
    push_in_room(&mut slots, Some(Slot::Shared(shared)));
    slots
}

/// The parts by number, each in a slot, and the CPUs' own states. Requires room in the list of slots, and takes no
/// memory.
pub fn apart<A: Allocator>(
    parts: Parts<A>,
    slots: Vec<Option<Slot<A>>>,
) -> (Layout, Vec<Option<Slot<A>>>, Vec<CpuState>)
    requires empty { vec_len slots ≡ 0 }
    requires room { 66 ≤ vec_capacity slots }
    ensures layout { result.0 ≡ parts.layout }
    ensures slots { result.1.items ≡ map (λ x. Some x) (slots_of parts) }
    ensures cpus { result.2 ≡ parts.cpus }
    ensures end { EndsInSlots parts result.1.items result.2.items }
{
    let Parts {
        layout,
        vms,
        shared,
        guests,
        cpus,
    } = parts;
    let slots = push_first(slots, vms, shared);
    let slots = push_guests(slots, guests);
    (layout, slots, cpus)
}

/// The guests of slots, in their order.
fn guests_of<A: Allocator>(
    mut found: Vec<Slot<A>>,
    mut guests: Vec<GuestPart<A>>,
) -> Vec<GuestPart<A>>
    requires kinds { AreGuests found.items }
    requires room { (guests.items ≡ []) × (vec_len found ≤ vec_capacity guests) }
    ensures { found.items ≡ map (λ g. Slot.Guest g) result.items }
{
    while !found.is_empty() {
        let guest = found.remove(0).into_guest();
        push_in_room(&mut guests, guest);
    }
    guests
}

/// The VM part, the Shared part, and the slots of guests.
fn first_of<A: Allocator>(mut found: Vec<Slot<A>>) -> (VmPart, SharedPart<A>, Vec<Slot<A>>)
    requires kinds { AreParts found.items }
    ensures { found.items ≡ Slot.Vm result.0 ∷ Slot.Shared result.1 ∷ result.2.items }
{
    let vm = found.remove(0).into_vm();
    let part = found.remove(0).into_shared();
    (vm, part, found)
}

/// The parts that these slots hold, by number, with the CPUs' own states, which must be the end of one legal history.
/// Requires room in the list of guests, and takes no memory.
pub fn together<A: Allocator>(
    layout: Layout,
    found: Vec<Slot<A>>,
    cpus: Vec<CpuState>,
    guests: Vec<GuestPart<A>>,
) -> Parts<A>
    requires end { IsEndOf layout found.items cpus.items }
    requires empty { guests.items ≡ [] }
    requires room { 64 ≤ vec_capacity guests }
    ensures layout { result.layout ≡ layout }
    ensures parts { slots_of result ≡ found.items }
    ensures cpus { result.cpus ≡ cpus }
    ensures history { ∥ HasHistory result ∥₁ }
{
    let (vms, shared, found) = first_of(found);
    let guests = guests_of(found, guests);
    Parts {
        layout,
        vms,
        shared,
        guests,
        cpus,
    }
}
