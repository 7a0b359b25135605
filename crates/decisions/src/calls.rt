//! The decision of each call: the refusal of the first of its tests that fails, or all its changes. Nothing is changed
//! here.
ghost use Rattle.std.specs.Prelude.{◌≡◌, ◌<◌, ℕ, true, false, ◌&&◌, Some, None, Err, IfOk};
ghost use Rattle.guest_component.specs.View.{guest_depth, guest_of};
ghost use Rattle.part_types.specs.Lent.{SharedSuits};
ghost use Rattle.part_types.specs.View.{cpu_of, shared_of, vm_slots};
ghost use Rattle.decisions.specs.Decided.{unloaded_why, used_with};
ghost use Rattle.decisions.specs.Grows.{GrowsOnly};
ghost use Rattle.page_state.specs.LayoutView.{layout_of};
ghost use Rattle.reference_model.specs.model.Decides.{decides};
ghost use Rattle.page_state.specs.Layouts.{Layout as ReferenceLayout, is_good_page, is_good_range};
ghost use Rattle.reference_model.specs.model.GuestRules.{are_good_pages as are_good_pages_of};
ghost use Rattle.reference_model.specs.model.Parts.{guest as just_guest, shared_and_guest, uses_shared, uses_vms};
ghost use Rattle.reference_model.specs.model.Rules.{guest_slot, names};
ghost use Rattle.reference_model.specs.help.Rely.{CanRely};
ghost use Rattle.reference_model.specs.model.State.{Cpu, no_guest};
ghost use Rattle.reference_model.specs.model.Used.{guest_alone, used_alone, vms_alone};

mod abort;
mod asks;
mod donate;
mod give_back;
mod guest_alone;
mod guest_frames;
mod guest_pages;
mod hand;
mod share;
mod unshare;
mod vms;

use abort::decide_host_abort;
use asks::{decide_host_translate, decide_hyp_translate, decide_owner_of};
use call_table::{Refusal, Step};
use donate::decide_donate_hyp;
use give_back::decide_hyp_donate_host;
use guest_alone::{decide_guest_relax, decide_guest_translate, decide_mark_dying};
use guest_component::Guest;
use guest_frames::{decide_finish_guest, decide_install, decide_reclaim_pool, decide_topup};
use guest_pages::{
    are_good_pages, decide_donate_guest, decide_guest_share_host, decide_guest_unshare_host,
    decide_reclaim_page, decide_share_guest, decide_unshare_guest,
};
use hand::{decide_fund, decide_unfund};
use page_state::{Entry, Layout, Page, PageRange};
use part_types::{CpuState, SharedPart, VmPart};
use reference_model::{Changes, MapChange};
use share::decide_share_hyp;
use std::alloc::Allocator;
use unshare::decide_unshare_hyp;
use vms::{
    decide_teardown, decide_vcpu_load, decide_vcpu_put, decide_vm_open, decide_vm_release,
    decide_vm_reserve,
};

/// A change of `count` pages from the first on.
fn change(first: Page, count: u64, entry: Entry) -> Option<MapChange>
    ensures { result ≡ Some (record { range = record { first = first; count = count }; entry = entry }) }
{
    Some(MapChange {
        range: PageRange { first, count },
        entry,
    })
}

/// The decision of a call on the VM part.
// Five functions, by what a step uses: docs/DECISIONS.md, 19.
pub fn decide_vms(vms: &VmPart, cpu: &CpuState, step: Step) -> Result<Changes, Refusal>
    requires names { uses_vms (names step) ≡ true }
    ensures decided { (l : ReferenceLayout)
        → result
        ≡ decides l cpu.now.id None step (vms_alone (vm_slots vms.now) (cpu_of cpu.now)) }
    ensures grows { IfOk result (GrowsOnly step) }
{
    match step {
        Step::VmReserve { kind, vcpus } => decide_vm_reserve(&vms.table, cpu, kind, vcpus),
        Step::VmOpen => decide_vm_open(&vms.table, cpu),
        Step::VcpuLoad { vm, vcpu } => decide_vcpu_load(&vms.table, cpu, vm, vcpu),
        Step::VcpuPut => decide_vcpu_put(&vms.table, cpu),
        Step::Teardown { vm } => decide_teardown(&vms.table, cpu, vm),
        Step::VmRelease => decide_vm_release(&vms.table, cpu),
        _ => unreachable!(),
    }
}

/// The decision of a call on the Shared part.
pub fn decide_shared<A: Allocator>(
    layout: &Layout,
    shared: &SharedPart<A>,
    cpu: &CpuState,
    step: Step,
) -> Result<Changes, Refusal>
    requires names { uses_shared (names step) None ≡ true }
    requires suits { SharedSuits (layout_of layout.now) shared.now }
    requires rely { CanRely (layout_of layout.now) cpu.now.id None step
        (used_alone (shared_of shared.now) (cpu_of cpu.now)) }
    ensures decided { result
        ≡ decides (layout_of layout.now) cpu.now.id None step
        (used_alone (shared_of shared.now) (cpu_of cpu.now)) }
    ensures grows { IfOk result (GrowsOnly step) }
{
    match step {
        Step::ShareHyp { pfn } => decide_share_hyp(layout, shared, pfn),
        Step::UnshareHyp { pfn } => decide_unshare_hyp(layout, shared, pfn),
        Step::DonateHyp { pfn, n } => decide_donate_hyp(layout, shared, pfn, n),
        Step::HypDonateHost { pfn, n } => decide_hyp_donate_host(layout, shared, pfn, n),
        Step::HostAbort { page } => decide_host_abort(layout, shared, page),
        Step::HostTranslate { page } => decide_host_translate(layout, shared, page),
        Step::HypTranslate { page } => decide_hyp_translate(layout, shared, page),
        Step::OwnerOf { pfn } => decide_owner_of(layout, shared, pfn),
        Step::Fund { pfn, n } => decide_fund(layout, shared, cpu, pfn, n),
        Step::Unfund => decide_unfund(layout, shared, cpu),
        _ => unreachable!(),
    }
}

/// The decision of a call on the Shared part and a guest.
pub fn decide_with_guest<A: Allocator>(
    layout: &Layout,
    shared: &SharedPart<A>,
    guest: &Guest<A>,
    slot: u64,
    cpu: &CpuState,
    step: Step,
) -> Result<Changes, Refusal>
    requires names { names step ≡ shared_and_guest }
    requires slot { slot < 64 }
    requires depth { guest_depth guest.now ≡ (layout_of layout.now).depth }
    requires rely { CanRely (layout_of layout.now) cpu.now.id (Some slot) step
        (used_with shared.now guest.now cpu.now) }
    ensures decided { result
        ≡ decides (layout_of layout.now) cpu.now.id (Some slot) step
        (used_with shared.now guest.now cpu.now) }
    ensures grows { IfOk result (GrowsOnly step) }
{
    match step {
        Step::ShareGuest { pfn, gfn, prot, n } => decide_share_guest(
            layout, shared, guest, pfn, gfn, prot, n,
        ),
        Step::UnshareGuest { vm, gfn } => decide_unshare_guest(layout, shared, guest, vm, gfn),
        Step::DonateGuest { pfn, gfn, n } => decide_donate_guest(
            layout, shared, guest, slot, pfn, gfn, n,
        ),
        Step::GuestShareHost { gfn } => decide_guest_share_host(layout, shared, guest, gfn),
        Step::GuestUnshareHost { gfn } => decide_guest_unshare_host(
            layout, shared, guest, slot, gfn,
        ),
        Step::Install => decide_install(cpu),
        Step::Topup { vm } => decide_topup(layout, guest, cpu, vm),
        Step::ReclaimPage { vm, gfn } => decide_reclaim_page(layout, shared, guest, vm, gfn),
        Step::ReclaimPool { vm } => decide_reclaim_pool(layout, shared, guest, slot, cpu, vm),
        Step::FinishGuest => decide_finish_guest(layout, shared, guest, slot, cpu),
        _ => unreachable!(),
    }
}

/// The decision of a call on a guest alone.
pub fn decide_guest<A: Allocator>(
    layout: &Layout,
    guest: &Guest<A>,
    cpu: &CpuState,
    step: Step,
) -> Result<Changes, Refusal>
    requires names { names step ≡ just_guest }
    ensures decided { (id slot : ℕ)
        → result
        ≡ decides (layout_of layout.now) id (Some slot) step
        (guest_alone (guest_of guest.now) (cpu_of cpu.now)) }
    ensures grows { IfOk result (GrowsOnly step) }
{
    match step {
        Step::GuestRelax { gfn, prot } => decide_guest_relax(layout, guest, gfn, prot),
        Step::GuestTranslate { vm, gfn } => decide_guest_translate(layout, guest, vm, gfn),
        Step::MarkDying => decide_mark_dying(cpu),
        _ => unreachable!(),
    }
}

/// The refusal of a call on a guest if there is no such guest: Invalid if the frames aren't a good range or a page
/// isn't an input page.
fn unloaded(layout: &Layout, pfn: u64, gfn: u64, n: u64) -> Refusal
    ensures { result
        ≡ unloaded_why
        (is_good_range (layout_of layout.now) pfn n
        && are_good_pages_of (layout_of layout.now) gfn n) }
{
    if !layout.is_good_range(Page(pfn), n) || !are_good_pages(layout, gfn, n) {
        return Refusal::Invalid;
    }
    Refusal::NoVm
}

/// The same of a call that names no frame.
fn unloaded_page(layout: &Layout, gfn: u64) -> Refusal
    ensures { result ≡ unloaded_why (is_good_page (layout_of layout.now) gfn) }
{
    if gfn >= layout.geometry.pages() {
        return Refusal::Invalid;
    }
    Refusal::NoVm
}

/// The refusal of a call that uses no part: its VM names no slot, or the CPU has no vCPU loaded, or no ticket of the stage.
#[tactic(auto, using(crate::proofs::Slots::no_slot), unfolding(reference_model::specs::model::Rules::rule))]
pub fn refusal_of_none(layout: &Layout, step: Step) -> Refusal
    requires vms { uses_vms (names step) ≡ false }
    requires shared { uses_shared (names step) None ≡ false }
    ensures { (id : ℕ) (k : Cpu)
        → guest_slot k step ≡ None
        → Err result ≡ decides (layout_of layout.now) id None step (guest_alone no_guest k) }
{
    match step {
        Step::ShareGuest { pfn, gfn, n, .. } => unloaded(layout, pfn, gfn, n),
        Step::DonateGuest { pfn, gfn, n } => unloaded(layout, pfn, gfn, n),
        Step::GuestShareHost { gfn } => unloaded_page(layout, gfn),
        Step::GuestUnshareHost { gfn } => unloaded_page(layout, gfn),
        Step::GuestRelax { gfn, .. } => unloaded_page(layout, gfn),
        Step::Install | Step::FinishGuest | Step::MarkDying => Refusal::NoVm,
        _ => Refusal::Invalid,
    }
}
