//! The places that a step looks at.
ghost use Rattle.std.specs.Prelude.{◌≡◌, ◌∷◌, [], ◌++◌, OnOk};
ghost use Rattle.trace_explain.specs.Looks.{frame_places, given_places, guest_places, hand_places, leaf_places, lent_places, page_places, places_of, slot_of_loaded, slot_of_ticket, vcpu_places, vm_places};
ghost use Rattle.trace_text.specs.View.{machine_of};

use crate::looking::{SLOTS, guest_entry, own_of};
use crate::place::Place;
use call_table::Step;
use page_state::{Entry, MemoryMap, Page, PageRange};
use reference_model::{Loaded, Ticket};
use std::alloc::{AllocError, Allocator};
use world::World;

/// From a frame to the page of the hypervisor that maps it.
const HYP_OFFSET: u64 = 0x400_0000;

/// The places that a step of a CPU looks at, by the state before it.
pub(crate) fn add_places<A: Allocator>(
    places: &mut Vec<Place>,
    world: &World<A>,
    cpu: u64,
    step: Step,
) -> Result<(), AllocError>
    ensures { OnOk result
        (places.new.items ≡ places.old.items ++ places_of (machine_of world.now) cpu step) }
{
    let map = &world.parts().layout.map;
    let own = own_of(world, cpu);
    match step {
        Step::ShareHyp { pfn }
        | Step::UnshareHyp { pfn }
        | Step::DonateHyp { pfn, .. }
        | Step::HypDonateHost { pfn, .. } => add_frame(places, map, pfn),
        Step::HostAbort { page } => {
            add(places, Place::Host(page))?;
            add(places, Place::FreeShared)
        }
        Step::HostTranslate { page } => add(places, Place::Host(page)),
        Step::HypTranslate { page } => add(places, Place::Hyp(page)),
        Step::OwnerOf { pfn } => add(places, Place::Owner(pfn)),
        Step::Fund { pfn, .. } => {
            add(places, Place::Hand)?;
            add_frame(places, map, pfn)
        }
        Step::Unfund => {
            add(places, Place::Hand)?;
            add_hand(places, map, own.hand)
        }
        Step::ShareGuest { pfn, gfn, .. } | Step::DonateGuest { pfn, gfn, .. } => {
            add(places, Place::Loaded)?;
            add_given(places, map, loaded_slot(own.loaded), gfn, pfn)
        }
        Step::GuestShareHost { gfn }
        | Step::GuestUnshareHost { gfn }
        | Step::GuestRelax { gfn, .. } => {
            add(places, Place::Loaded)?;
            add_page(places, world, loaded_slot(own.loaded), gfn)
        }
        Step::UnshareGuest { vm, gfn }
        | Step::ReclaimPage { vm, gfn }
        | Step::GuestTranslate { vm, gfn } => add_page(places, world, vm.slot, gfn),
        Step::Install => {
            add(places, Place::Ticket)?;
            add(places, Place::Hand)?;
            add_guest(places, ticket_slot(own.ticket))
        }
        Step::Topup { vm } => {
            add(places, Place::Hand)?;
            add_guest(places, vm.slot)
        }
        Step::ReclaimPool { vm } => add_guest(places, vm.slot),
        Step::FinishGuest | Step::MarkDying => {
            add(places, Place::Ticket)?;
            add_guest(places, ticket_slot(own.ticket))
        }
        Step::VmReserve { .. } => add(places, Place::Ticket),
        Step::VmOpen | Step::VmRelease => {
            add(places, Place::Ticket)?;
            add_vm(places, ticket_slot(own.ticket))
        }
        Step::VcpuLoad { vm, vcpu } => {
            add(places, Place::Loaded)?;
            add_vcpu(places, vm.slot, vcpu)
        }
        Step::VcpuPut => {
            add(places, Place::Loaded)?;
            add_vm(places, loaded_slot(own.loaded))
        }
        Step::Teardown { vm } => {
            add(places, Place::Ticket)?;
            add_vm(places, vm.slot)
        }
    }
}

fn add(places: &mut Vec<Place>, place: Place) -> Result<(), AllocError>
    ensures { OnOk result (places.new.items ≡ places.old.items ++ place ∷ []) }
{
    places.push(place)?;
    Ok(())
}

fn loaded_slot(loaded: Option<Loaded>) -> u64
    ensures { result ≡ slot_of_loaded loaded }
{
    match loaded {
        Some(loaded) => loaded.vm.slot,
        None => SLOTS,
    }
}

fn ticket_slot(ticket: Option<Ticket>) -> u64
    ensures { result ≡ slot_of_ticket ticket }
{
    match ticket {
        Some(ticket) => ticket.vm.slot,
        None => SLOTS,
    }
}

fn add_frame(places: &mut Vec<Place>, map: &MemoryMap, frame: u64) -> Result<(), AllocError>
    ensures { OnOk result (places.new.items ≡ places.old.items ++ frame_places map.now frame) }
{
    if map.is_memory(Page(frame)) {
        add(places, Place::Host(frame))?;
        add(places, Place::Hyp(frame + HYP_OFFSET))?;
        add(places, Place::Owner(frame))?;
        add(places, Place::FreeShared)?;
    }
    Ok(())
}

fn add_lent(places: &mut Vec<Place>, map: &MemoryMap, frame: u64) -> Result<(), AllocError>
    ensures { OnOk result (places.new.items ≡ places.old.items ++ lent_places map.now frame) }
{
    if map.is_memory(Page(frame)) {
        add(places, Place::Host(frame))?;
        add(places, Place::Owner(frame))?;
        add(places, Place::FreeShared)?;
    }
    Ok(())
}

fn add_hand(
    places: &mut Vec<Place>,
    map: &MemoryMap,
    hand: Option<PageRange>,
) -> Result<(), AllocError>
    ensures { OnOk result (places.new.items ≡ places.old.items ++ hand_places map.now hand) }
{
    match hand {
        Some(frames) => add_frame(places, map, frames.first.0),
        None => Ok(()),
    }
}

fn add_leaf(places: &mut Vec<Place>, map: &MemoryMap, entry: Entry) -> Result<(), AllocError>
    ensures { OnOk result (places.new.items ≡ places.old.items ++ leaf_places map.now entry) }
{
    match entry {
        Entry::Leaf { frame, .. } => add_lent(places, map, frame.0),
        _ => Ok(()),
    }
}

fn add_given(
    places: &mut Vec<Place>,
    map: &MemoryMap,
    slot: u64,
    page: u64,
    frame: u64,
) -> Result<(), AllocError>
    ensures { OnOk result (places.new.items ≡ places.old.items ++ given_places map.now slot page frame) }
{
    if slot < SLOTS {
        add(places, Place::Guest(slot))?;
        add(places, Place::GuestPage { slot, page })?;
        add_lent(places, map, frame)?;
    }
    Ok(())
}

fn add_page<A: Allocator>(
    places: &mut Vec<Place>,
    world: &World<A>,
    slot: u64,
    page: u64,
) -> Result<(), AllocError>
    ensures { OnOk result
        (places.new.items ≡ places.old.items ++ page_places (machine_of world.now) slot page) }
{
    if slot < SLOTS {
        add(places, Place::Guest(slot))?;
        add(places, Place::GuestPage { slot, page })?;
        add_leaf(
            places,
            &world.parts().layout.map,
            guest_entry(world, slot, page),
        )?;
    }
    Ok(())
}

fn add_guest(places: &mut Vec<Place>, slot: u64) -> Result<(), AllocError>
    ensures { OnOk result (places.new.items ≡ places.old.items ++ guest_places slot) }
{
    if slot < SLOTS {
        add(places, Place::Guest(slot))?;
    }
    Ok(())
}

fn add_vm(places: &mut Vec<Place>, slot: u64) -> Result<(), AllocError>
    ensures { OnOk result (places.new.items ≡ places.old.items ++ vm_places slot) }
{
    if slot < SLOTS {
        add(places, Place::Vm(slot))?;
    }
    Ok(())
}

fn add_vcpu(places: &mut Vec<Place>, slot: u64, vcpu: u64) -> Result<(), AllocError>
    ensures { OnOk result (places.new.items ≡ places.old.items ++ vcpu_places slot vcpu) }
{
    if slot < SLOTS {
        add(places, Place::Vm(slot))?;
        add(places, Place::Vcpu { slot, vcpu })?;
    }
    Ok(())
}
