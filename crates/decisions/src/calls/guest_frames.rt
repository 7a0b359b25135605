//! Calls that give frames to a guest, or take them back.
ghost use Rattle.std.specs.Prelude.{◌≡◌, ◌<◌, ◌^◌, ◌||◌, Some};
ghost use Rattle.guest_component.specs.View.{guest_depth, guest_of};
ghost use Rattle.part_types.specs.View.{cpu_of};
ghost use Rattle.page_state.specs.LayoutView.{layout_of};
ghost use Rattle.decisions.specs.Decided.{IsDecidedByCpu, IsDecidedByHolder, has_left, used_with};
ghost use Rattle.call_table.specs.declared.step.Step.TheVariants.{FinishGuest, Install, ReclaimPool, Topup};
ghost use Rattle.reference_model.specs.model.Decides.{decides};
ghost use Rattle.reference_model.specs.model.GuestRules.{is_guest, moved_on as moved_on_of, ticket_kind as ticket_kind_of, ticket_vm as ticket_vm_of};
ghost use Rattle.reference_model.specs.help.Rely.{CanRely};
ghost use Rattle.reference_model.specs.model.SharedRules.{hand_becomes as hand_becomes_of, to_host as to_host_of};
ghost use Rattle.reference_model.specs.model.State.{live, dying};

use super::change;
use super::vms::{SLOTS, ticket_becomes};
use crate::pages::hyp_page;
use call_table::{Refusal, Value, VmId, VmKind};
use guest_component::Guest;
use page_state::{Entry, Frame, Layout, Page, PageRange};
use part_types::{CpuState, SharedPart};
use reference_model::{Changes, CpuChange, GuestChange, Stage, Ticket, Update};
use std::alloc::Allocator;

/// The most frames that a guest holds (profile).
const MOST_FRAMES: u64 = 512;

/// The VM of the CPU's ticket.
fn ticket_vm(cpu: &CpuState) -> VmId
    ensures { result ≡ ticket_vm_of (cpu_of cpu.now) }
{
    match cpu.ticket {
        Some(ticket) => ticket.vm,
        None => VmId {
            slot: 0,
            generation: 0,
        },
    }
}

/// The kind of the CPU's ticket.
fn ticket_kind(cpu: &CpuState) -> VmKind
    ensures { result ≡ ticket_kind_of (cpu_of cpu.now) }
{
    match cpu.ticket {
        Some(ticket) => ticket.kind,
        None => VmKind::Plain,
    }
}

/// The CPU's ticket moves on to another stage.
pub(crate) fn moved_on(stage: Stage, cpu: &CpuState) -> CpuChange
    ensures { result ≡ moved_on_of stage (cpu_of cpu.now) }
{
    ticket_becomes(Some(Ticket {
        vm: ticket_vm(cpu),
        kind: ticket_kind(cpu),
        stage,
    }))
}

/// The CPU's hand becomes this.
fn hand_becomes(hand: Option<PageRange>) -> CpuChange
    ensures { result ≡ hand_becomes_of hand }
{
    CpuChange {
        hand: Update::Becomes(hand),
        ..CpuChange::NONE
    }
}

/// A frame goes back to the host: neither the host's page of it nor the hypervisor's is mapped.
fn to_host(frame: u64) -> Changes
    requires { frame < 2 ^ 36 }
    ensures { result ≡ to_host_of frame 1 }
{
    Changes {
        host: change(Page(frame), 1, Entry::Unmapped),
        hyp: change(hyp_page(frame), 1, Entry::Unmapped),
        ..Changes::NONE
    }
}

/// The guest of the CPU's Booked ticket becomes Live, with the hand as its root and pool.
#[tactic(auto, unfolding(reference_model::specs::model::Rules::rule))]
pub(crate) fn decide_install(cpu: &CpuState) -> Result<Changes, Refusal>
    ensures decided { IsDecidedByCpu cpu.now Install result }
{
    let Some(hand) = cpu.hand else {
        return Err(Refusal::Perm);
    };
    Ok(Changes {
        part: GuestChange::Install {
            kind: ticket_kind(cpu),
            generation: ticket_vm(cpu).generation,
            hand,
        },
        cpu: CpuChange {
            hand: Update::Becomes(None),
            ..moved_on(Stage::Installed, cpu)
        },
        moved: Some(hand),
        ..Changes::NONE
    })
}

/// Whether the guest is Live or Dying, with the generation of the name.
fn is_live_or_dying<A: Allocator>(guest: &Guest<A>, vm: VmId) -> bool
    ensures { result ≡ (is_guest live vm (guest_of guest.now) || is_guest dying vm (guest_of guest.now)) }
{
    guest.is_live(vm) || guest.is_dying(vm)
}

/// A Live or Dying guest's pool gets the hand: it holds at most 512 frames with it, its tables among them.
#[tactic(auto, unfolding(reference_model::specs::model::Rules::rule))]
pub(crate) fn decide_topup<A: Allocator>(
    layout: &Layout,
    guest: &Guest<A>,
    cpu: &CpuState,
    vm: VmId,
) -> Result<Changes, Refusal>
    requires depth { guest_depth guest.now ≡ (layout_of layout.now).depth }
    ensures decided { IsDecidedByHolder (layout_of layout.now) guest.now cpu.now (Topup vm) result }
{
    if vm.slot >= SLOTS {
        return Err(Refusal::Invalid);
    }
    if !is_live_or_dying(guest, vm) {
        return Err(Refusal::NoVm);
    }
    let Some(hand) = cpu.hand else {
        return Err(Refusal::Perm);
    };
    let held = (guest.tables() + guest.free()) as u64;
    if hand.count > MOST_FRAMES - held {
        return Err(Refusal::Perm);
    }
    Ok(Changes {
        part: GuestChange::Gain(hand),
        cpu: hand_becomes(None),
        moved: Some(hand),
        ..Changes::NONE
    })
}

/// The host gets the least free frame of a Dying guest's pool back. Requires a guest that some run can reach.
#[tactic(auto, unfolding(reference_model::specs::model::Rules::rule))]
pub(crate) fn decide_reclaim_pool<A: Allocator>(
    layout: &Layout,
    shared: &SharedPart<A>,
    guest: &Guest<A>,
    slot: u64,
    cpu: &CpuState,
    vm: VmId,
) -> Result<Changes, Refusal>
    requires rely { CanRely (layout_of layout.now) cpu.now.id (Some slot) (ReclaimPool vm)
        (used_with shared.now guest.now cpu.now) }
    ensures decided { result
        ≡ decides (layout_of layout.now) cpu.now.id (Some slot) (ReclaimPool vm)
        (used_with shared.now guest.now cpu.now) }
{
    if vm.slot >= SLOTS {
        return Err(Refusal::Invalid);
    }
    if !guest.is_dying(vm) {
        return Err(Refusal::NoVm);
    }
    if guest.free() == 0 {
        return Err(Refusal::Perm);
    }
    let frame = guest.least();
    Ok(Changes {
        part: GuestChange::LoseLowest,
        value: Value::Frame(Frame(frame)),
        ..to_host(frame)
    })
}

/// Whether a guest maps a page or its pool has a frame.
fn holds_any<A: Allocator>(guest: &Guest<A>) -> bool
    ensures { result ≡ has_left (guest_depth guest.now) (guest_of guest.now) }
{
    !guest.is_unmapped() || guest.free() > 0
}

/// The host gets the root of the Dying guest of the CPU's ticket back, of which nothing else is left, and the guest is Empty.
/// Requires a guest that some run can reach.
#[tactic(auto, unfolding(reference_model::specs::model::Rules::rule))]
pub(crate) fn decide_finish_guest<A: Allocator>(
    layout: &Layout,
    shared: &SharedPart<A>,
    guest: &Guest<A>,
    slot: u64,
    cpu: &CpuState,
) -> Result<Changes, Refusal>
    requires depth { guest_depth guest.now ≡ (layout_of layout.now).depth }
    requires rely { CanRely (layout_of layout.now) cpu.now.id (Some slot) FinishGuest
        (used_with shared.now guest.now cpu.now) }
    ensures decided { result
        ≡ decides (layout_of layout.now) cpu.now.id (Some slot) FinishGuest
        (used_with shared.now guest.now cpu.now) }
{
    if holds_any(guest) {
        return Err(Refusal::Perm);
    }
    Ok(Changes {
        part: GuestChange::Empty,
        cpu: moved_on(Stage::Finished, cpu),
        ..to_host(guest.root())
    })
}
