//! The contents of a place in a world.
ghost use Rattle.std.specs.Prelude.{◌≡◌, ◌<◌, IfOk, MatchOption, None, Some, string_bytes};
ghost use Rattle.trace_explain.specs.Looks.{text_at_place as told_by};
ghost use Rattle.trace_explain.specs.Texts.{text_of_guest, text_of_vcpu};
ghost use Rattle.trace_text.specs.View.{body_at, machine_of};
ghost use Rattle.vm_table.specs.View.{slot_of};

use crate::place::Place;
use crate::words::{body_text, entry_text};
use guest_component::Body;
use page_state::{Entry, Frame, Page, PageRange};
use reference_model::{Loaded, Ticket};
use state_changes::{cpu_text, hand_text, loaded_text, ticket_text};
use std::alloc::{AllocError, Allocator, Global};
use vm_table::Slot;
use world::World;

/// The number of VM slots.
pub(crate) const SLOTS: u64 = 64;

/// The most vCPUs of a VM.
const VCPUS: u64 = 8;

/// A CPU's own state.
#[derive(Clone, Copy)]
pub(crate) struct Own {
    pub(crate) loaded: Option<Loaded>,
    pub(crate) hand: Option<PageRange>,
    pub(crate) ticket: Option<Ticket>,
}

/// A CPU's own state. A CPU that the world hasn't has nothing.
pub(crate) fn own_of<A: Allocator>(world: &World<A>, cpu: u64) -> Own
    ensures loaded { result.loaded ≡ ((machine_of world.now).state.contents.cpu cpu).loaded }
    ensures hand { result.hand ≡ ((machine_of world.now).state.contents.cpu cpu).hand }
    ensures ticket { result.ticket ≡ ((machine_of world.now).state.contents.cpu cpu).ticket }
{
    match world.parts().cpus.get(cpu as usize) {
        Some(own) => Own {
            loaded: own.loaded,
            hand: own.hand,
            ticket: own.ticket,
        },
        None => Own {
            loaded: None,
            hand: None,
            ticket: None,
        },
    }
}

/// The body of the guest in a slot. None if the slot is Empty or past the last.
fn guest_body<A: Allocator>(world: &World<A>, slot: u64) -> Option<&Body<A>>
    ensures { MatchOption result (body_at world.now slot ≡ None)
        (λ body. body_at world.now slot ≡ Some body.now) }
{
    let part = world.parts().guests.get(slot as usize)?;
    part.guest.body()
}

/// A guest's entry of a page.
pub(crate) fn guest_entry<A: Allocator>(world: &World<A>, slot: u64, page: u64) -> Entry
    ensures { result ≡ ((machine_of world.now).state.contents.guest slot).tree.map page }
{
    match guest_body(world, slot) {
        Some(body) => body.map.tree().look(Page(page)),
        None => Entry::Unmapped,
    }
}

/// The contents of a place, in words.
pub(crate) fn text_at_place<A: Allocator>(
    global: Global,
    world: &World<A>,
    cpu: u64,
    place: Place,
) -> Result<String, AllocError>
    ensures { IfOk result (λ text. string_bytes text ≡ told_by (machine_of world.now) cpu place) }
{
    match place {
        Place::Host(page) => {
            format!(in global; "{}", world.parts().shared.host.tree().look(Page(page)))
        }
        Place::Hyp(page) => {
            format!(in global; "{}", world.parts().shared.hyp.tree().look(Page(page)))
        }
        Place::GuestPage { slot, page } => format!(in global; "{}", guest_entry(world, slot, page)),
        Place::Owner(frame) => row_text(global, world, frame),
        Place::FreeShared => format!(in global; "{}", world.parts().shared.pool.free()),
        Place::Guest(slot) => guest_text(global, world, slot),
        Place::Vm(slot) => slot_text(global, world, slot),
        Place::Vcpu { slot, vcpu } => holder_text(global, world, slot, vcpu),
        Place::Loaded => loaded_text(global, own_of(world, cpu).loaded),
        Place::Hand => hand_text(global, own_of(world, cpu).hand),
        Place::Ticket => ticket_text(global, own_of(world, cpu).ticket),
    }
}

fn row_text<A: Allocator>(
    global: Global,
    world: &World<A>,
    frame: u64,
) -> Result<String, AllocError>
    ensures { IfOk result
        (λ text. string_bytes text ≡ told_by (machine_of world.now) 0 (Place.Owner frame)) }
{
    let parts = world.parts();
    if !parts.layout.map.is_memory(Page(frame)) {
        return String::from_str(global, "no memory");
    }
    let row = parts.shared.owners.row(Frame(frame));
    format!(in global; "{row}")
}

fn guest_text<A: Allocator>(
    global: Global,
    world: &World<A>,
    slot: u64,
) -> Result<String, AllocError>
    ensures { IfOk result
        (λ text. string_bytes text
        ≡ text_of_guest ((machine_of world.now).state.contents.guest slot)) }
{
    match guest_body(world, slot) {
        Some(body) => body_text(global, body),
        None => String::from_str(global, "empty"),
    }
}

fn slot_text<A: Allocator>(
    global: Global,
    world: &World<A>,
    slot: u64,
) -> Result<String, AllocError>
    ensures { IfOk result (λ text. string_bytes text ≡ told_by (machine_of world.now) 0 (Place.Vm slot)) }
{
    if slot >= SLOTS {
        return String::from_str(global, "no slot");
    }
    entry_text(global, world.parts().vms.table.slot(slot))
}

fn holder_text<A: Allocator>(
    global: Global,
    world: &World<A>,
    slot: u64,
    vcpu: u64,
) -> Result<String, AllocError>
    ensures { IfOk result
        (λ text. string_bytes text ≡ told_by (machine_of world.now) 0 (Place.Vcpu slot vcpu)) }
{
    if slot >= SLOTS {
        return String::from_str(global, "no slot");
    }
    vcpu_text(global, world.parts().vms.table.slot(slot), vcpu)
}

/// The CPU that has a vCPU of a slot loaded.
fn vcpu_text(global: Global, slot: Slot, vcpu: u64) -> Result<String, AllocError>
    ensures { IfOk result (λ text. string_bytes text ≡ text_of_vcpu (slot_of slot) vcpu) }
{
    if vcpu >= VCPUS {
        return String::from_str(global, "no vcpu");
    }
    cpu_text(global, holder_of(slot, vcpu))
}

fn holder_of(slot: Slot, vcpu: u64) -> Option<u64>
    requires { vcpu < 8 }
    ensures { result ≡ (slot_of slot).loaded vcpu }
{
    slot.loaded[vcpu as usize]
}
