//! Calls on a guest alone.
ghost use Rattle.std.specs.Prelude.{◌≡◌, ℕ, Some, IfOk};
ghost use Rattle.part_types.specs.View.{cpu_of};
ghost use Rattle.page_state.specs.LayoutView.{layout_of};
ghost use Rattle.reference_model.specs.model.Decides.{decides};
ghost use Rattle.page_state.specs.Layouts.{Layout as ReferenceLayout};
ghost use Rattle.reference_model.specs.model.State.{Guest as ReferenceGuest};
ghost use Rattle.reference_model.specs.model.Used.{guest_alone};
ghost use Rattle.call_table.specs.declared.step.Step.TheVariants.{GuestRelax, GuestTranslate, MarkDying};
ghost use Rattle.decisions.specs.Decided.{IsDecidedByGuest};
ghost use Rattle.decisions.specs.Grows.{GrowsOnly};

use super::change;
use super::guest_frames::moved_on;
use super::vms::SLOTS;
use crate::pages::{is_in, with_rights};
use call_table::{Refusal, Value, VmId};
use guest_component::Guest;
use page_state::{Layout, Page, Prot, State};
use part_types::CpuState;
use reference_model::{Changes, GuestChange, Stage};
use std::alloc::Allocator;

/// The guest gets more rights at a page that it borrows.
#[tactic(auto, unfolding(reference_model::specs::model::Rules::rule))]
pub(crate) fn decide_guest_relax<A: Allocator>(
    layout: &Layout,
    guest: &Guest<A>,
    gfn: u64,
    prot: Prot,
) -> Result<Changes, Refusal>
    ensures decided { IsDecidedByGuest (layout_of layout.now) guest.now (GuestRelax gfn prot) result }
{
    if gfn >= layout.geometry.pages() {
        return Err(Refusal::Invalid);
    }
    let entry = guest.translate(Page(gfn));
    if !is_in(State::SharedBorrowed, entry) {
        return Err(Refusal::Perm);
    }
    Ok(Changes {
        guest: change(Page(gfn), 1, with_rights(prot, entry)),
        ..Changes::NONE
    })
}

/// The entry of an input page of a guest that isn't Empty.
#[tactic(auto, unfolding(reference_model::specs::model::Rules::rule))]
pub(crate) fn decide_guest_translate<A: Allocator>(
    layout: &Layout,
    guest: &Guest<A>,
    vm: VmId,
    gfn: u64,
) -> Result<Changes, Refusal>
    ensures decided { IsDecidedByGuest (layout_of layout.now) guest.now (GuestTranslate vm gfn) result }
    ensures grows { IfOk result (GrowsOnly (GuestTranslate vm gfn)) }
{
    if vm.slot >= SLOTS || gfn >= layout.geometry.pages() {
        return Err(Refusal::Invalid);
    }
    if !guest.is_live(vm) && !guest.is_dying(vm) {
        return Err(Refusal::NoVm);
    }
    Ok(Changes {
        value: Value::Entry(guest.translate(Page(gfn))),
        ..Changes::NONE
    })
}

/// The Live guest of the CPU's Closing ticket becomes Dying.
#[tactic(auto, unfolding(reference_model::specs::model::Rules::rule))]
pub(crate) fn decide_mark_dying(cpu: &CpuState) -> Result<Changes, Refusal>
    ensures decided { (l : ReferenceLayout) (id slot : ℕ) (g : ReferenceGuest)
        → result ≡ decides l id (Some slot) MarkDying (guest_alone g (cpu_of cpu.now)) }
    ensures grows { IfOk result (GrowsOnly MarkDying) }
{
    Ok(Changes {
        part: GuestChange::Die,
        cpu: moved_on(Stage::Dying, cpu),
        ..Changes::NONE
    })
}
