//! The condition of a frame in a world.
ghost use Rattle.std.specs.Prelude.{◌≡◌, MatchOption, None, Some};
ghost use Rattle.guest_component.specs.Bodies.{phase_of};
ghost use Rattle.reference_model.specs.model.GuestRules.{phase_eq};
ghost use Rattle.reference_model.specs.model.State.{dying};
ghost use Rattle.trace_cover.specs.Found.{
  by_borrower as by_borrower_in,
  by_entry as by_entry_in,
  by_row as by_row_in,
  condition_at as condition_by,
  frame_condition as frame_condition_in,
  is_dying as is_dying_in,
  leaf_condition as leaf_condition_in,
  loaded_condition as loaded_condition_in,
  named_condition as named_condition_in,
  of_guest as of_guest_in,
  of_host as of_host_in,
  page_condition as page_condition_in,
};
ghost use Rattle.trace_text.specs.View.{body_at, machine_of};

use crate::condition::{Condition, by_state, by_usage};
use call_table::{Step, VmId};
use descriptor::State;
use guest_component::{Body, Phase};
use page_state::{Entry, Frame, Lent, Page, Row};
use reference_model::Loaded;
use std::alloc::Allocator;
use world::World;

/// The body of the guest in a slot. None if the slot is Empty or past the last.
fn guest_body<A: Allocator>(world: &World<A>, slot: u64) -> Option<&Body<A>>
    ensures { MatchOption result (body_at world.now slot ≡ None)
        (λ body. body_at world.now slot ≡ Some body.now) }
{
    let part = world.parts().guests.get(slot as usize)?;
    part.guest.body()
}

/// Whether the guest in a slot is Dying.
fn is_dying<A: Allocator>(world: &World<A>, slot: u64) -> bool
    ensures { result ≡ is_dying_in (machine_of world.now) slot }
{
    match guest_body(world, slot) {
        Some(body) => is_last(body.phase),
        None => false,
    }
}

fn is_last(phase: Phase) -> bool
    ensures { result ≡ phase_eq (phase_of phase) dying }
{
    match phase {
        Phase::Live => false,
        Phase::Dying => true,
    }
}

/// The generation of the guest in a slot, 0 if the slot is Empty.
fn generation<A: Allocator>(world: &World<A>, slot: u64) -> u64
    ensures { result ≡ ((machine_of world.now).state.contents.guest slot).generation }
{
    match guest_body(world, slot) {
        Some(body) => body.generation,
        None => 0,
    }
}

/// A guest's entry of a page.
fn guest_entry<A: Allocator>(world: &World<A>, slot: u64, page: u64) -> Entry
    ensures { result ≡ ((machine_of world.now).state.contents.guest slot).tree.map page }
{
    match guest_body(world, slot) {
        Some(body) => body.map.tree().look(Page(page)),
        None => Entry::Unmapped,
    }
}

/// What a CPU has loaded. One that the world hasn't has nothing.
fn loaded_of<A: Allocator>(world: &World<A>, cpu: u64) -> Option<Loaded>
    ensures { result ≡ ((machine_of world.now).state.contents.cpu cpu).loaded }
{
    match world.parts().cpus.get(cpu as usize) {
        Some(own) => own.loaded,
        None => None,
    }
}

/// The condition of the frame that a step of a CPU names, or of the one at the guest's page that it names.
pub(crate) fn condition_at<A: Allocator>(
    world: &World<A>,
    cpu: u64,
    step: Step,
) -> Option<Condition>
    ensures { result ≡ condition_by (machine_of world.now) cpu step }
{
    match step {
        Step::ShareHyp { pfn }
        | Step::UnshareHyp { pfn }
        | Step::DonateHyp { pfn, .. }
        | Step::HypDonateHost { pfn, .. }
        | Step::Fund { pfn, .. }
        | Step::ShareGuest { pfn, .. }
        | Step::DonateGuest { pfn, .. } => frame_condition(world, pfn),
        Step::HostAbort { page } => frame_condition(world, page),
        Step::UnshareGuest { vm, gfn } | Step::ReclaimPage { vm, gfn } => named_condition(
            world, vm, gfn,
        ),
        Step::GuestShareHost { gfn }
        | Step::GuestUnshareHost { gfn }
        | Step::GuestRelax { gfn, .. } => loaded_condition(world, loaded_of(world, cpu), gfn),
        _ => None,
    }
}

fn frame_condition<A: Allocator>(world: &World<A>, frame: u64) -> Option<Condition>
    ensures { result ≡ frame_condition_in (machine_of world.now) frame }
{
    let parts = world.parts();
    if parts.layout.map.is_memory(Page(frame)) {
        let row = parts.shared.owners.row(Frame(frame));
        return Some(by_row(world, frame, row));
    }
    if parts.layout.map.region_of(Page(frame)).is_some() {
        return Some(Condition::Device);
    }
    None
}

fn by_row<A: Allocator>(world: &World<A>, frame: u64, row: Row) -> Condition
    ensures { result ≡ by_row_in (machine_of world.now) frame row }
{
    let owner = row.owner.0;
    if owner == 0 {
        return of_host(world, frame, row.lent);
    }
    if owner == 1 {
        return by_usage(row.usage);
    }
    of_guest(is_dying(world, owner - 2), row.lent)
}

fn of_host<A: Allocator>(world: &World<A>, frame: u64, lent: Option<Lent>) -> Condition
    ensures { result ≡ of_host_in (machine_of world.now) frame lent }
{
    match lent {
        None => by_entry(world.parts().shared.host.tree().look(Page(frame))),
        Some(lent) => by_borrower(world, lent.owner.0),
    }
}

fn by_borrower<A: Allocator>(world: &World<A>, owner: u64) -> Condition
    ensures { result ≡ by_borrower_in (machine_of world.now) owner }
{
    if owner == 1 {
        return Condition::WithHyp;
    }
    by_state(
        is_dying(world, owner.saturating_sub(2)),
        State::SharedBorrowed,
    )
}

fn by_entry(entry: Entry) -> Condition
    ensures { result ≡ by_entry_in entry }
{
    match entry {
        Entry::Unmapped => Condition::Untouched,
        _ => Condition::Mapped,
    }
}

fn of_guest(is_dying: bool, lent: Option<Lent>) -> Condition
    ensures { result ≡ of_guest_in is_dying lent }
{
    match lent {
        None => by_state(is_dying, State::Owned),
        Some(_) => by_state(is_dying, State::SharedOwned),
    }
}

fn leaf_condition(is_dying: bool, entry: Entry) -> Option<Condition>
    ensures { result ≡ leaf_condition_in is_dying entry }
{
    match entry {
        Entry::Leaf { state, .. } => Some(by_state(is_dying, state)),
        _ => None,
    }
}

fn page_condition<A: Allocator>(world: &World<A>, slot: u64, page: u64) -> Option<Condition>
    ensures { result ≡ page_condition_in (machine_of world.now) slot page }
{
    leaf_condition(is_dying(world, slot), guest_entry(world, slot, page))
}

fn named_condition<A: Allocator>(world: &World<A>, vm: VmId, page: u64) -> Option<Condition>
    ensures { result ≡ named_condition_in (machine_of world.now) vm page }
{
    if generation(world, vm.slot) == vm.generation {
        page_condition(world, vm.slot, page)
    } else {
        None
    }
}

fn loaded_condition<A: Allocator>(
    world: &World<A>,
    loaded: Option<Loaded>,
    page: u64,
) -> Option<Condition>
    ensures { result ≡ loaded_condition_in (machine_of world.now) loaded page }
{
    match loaded {
        Some(loaded) => page_condition(world, loaded.vm.slot, page),
        None => None,
    }
}
