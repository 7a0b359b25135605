//! The decision of a call.
ghost use Rattle.std.specs.Prelude.{◌≡◌, IfOk, length, true};
ghost use Rattle.page_state.specs.LayoutView.{layout_of};
ghost use Rattle.reference_model.specs.model.Decides.{decides};
ghost use Rattle.reference_model.specs.model.Parts.{uses_vms as uses_vms_of};
ghost use Rattle.reference_model.specs.model.Rules.{names};
ghost use Rattle.ghost_spec.specs.Kept.{AreSmallChanges, HasNextGeneration, IsLowSlot};
ghost use Rattle.ghost_spec.specs.Used.{IsKeptUsed, used_in};

use crate::guest_rules::{
    donate_guest, finish_guest, guest_relax, guest_share_host, guest_translate, guest_unshare_host,
    install, mark_dying, reclaim_page, reclaim_pool, share_guest, topup, unshare_guest,
};
use crate::rules::{
    donate_hyp, fund, host_abort, host_translate, hyp_donate_host, hyp_translate, owner_of,
    share_hyp, unfund, unshare_hyp,
};
use crate::used::GhostUsed;
use crate::vm_rules::{teardown, vcpu_load, vcpu_put, vm_open, vm_release, vm_reserve};
use call_table::{Refusal, Step};
use page_state::Layout;
use reference_model::Changes;

/// The decision of a call: the refusal of the first of its rule's tests that fails, or all changes of its rule.
pub(crate) fn decide(
    layout: &Layout,
    cpu: u64,
    slot: Option<u64>,
    used: &GhostUsed,
    step: Step,
) -> Result<Changes, Refusal>
    requires kept { IsKeptUsed used.now }
    requires slot { IsLowSlot slot }
    requires vms { uses_vms_of (names step) ≡ true → length used.now.vms.items ≡ 64 }
    requires generation { HasNextGeneration used.now.own.ticket step }
    ensures decided { result ≡ decides (layout_of layout.now) cpu slot step (used_in used.now) }
    ensures small { IfOk result AreSmallChanges }
{
    match step {
        Step::ShareHyp { pfn } => share_hyp(layout, used, pfn),
        Step::UnshareHyp { pfn } => unshare_hyp(layout, used, pfn),
        Step::DonateHyp { pfn, n } => donate_hyp(layout, used, pfn, n),
        Step::HypDonateHost { pfn, n } => hyp_donate_host(layout, used, pfn, n),
        Step::HostAbort { page } => host_abort(layout, used, page),
        Step::HostTranslate { page } => host_translate(layout, used, page),
        Step::HypTranslate { page } => hyp_translate(layout, used, page),
        Step::OwnerOf { pfn } => owner_of(layout, used, pfn),
        Step::Fund { pfn, n } => fund(layout, used, pfn, n),
        Step::Unfund => unfund(layout, used),
        Step::ShareGuest { pfn, gfn, prot, n } => {
            share_guest(layout, used, slot, pfn, gfn, prot, n)
        }
        Step::UnshareGuest { vm, gfn } => unshare_guest(layout, used, slot, vm, gfn),
        Step::DonateGuest { pfn, gfn, n } => donate_guest(layout, used, slot, pfn, gfn, n),
        Step::GuestShareHost { gfn } => guest_share_host(layout, used, slot, gfn),
        Step::GuestUnshareHost { gfn } => guest_unshare_host(layout, used, slot, gfn),
        Step::Install => install(used, slot),
        Step::Topup { vm } => topup(layout, used, slot, vm),
        Step::ReclaimPage { vm, gfn } => reclaim_page(layout, used, slot, vm, gfn),
        Step::ReclaimPool { vm } => reclaim_pool(used, slot, vm),
        Step::FinishGuest => finish_guest(layout, used, slot),
        Step::GuestRelax { gfn, prot } => guest_relax(layout, used, slot, gfn, prot),
        Step::GuestTranslate { vm, gfn } => guest_translate(layout, used, slot, vm, gfn),
        Step::MarkDying => mark_dying(used, slot),
        Step::VmReserve { kind, vcpus } => vm_reserve(used, kind, vcpus),
        Step::VmOpen => vm_open(used),
        Step::VcpuLoad { vm, vcpu } => vcpu_load(used, cpu, vm, vcpu),
        Step::VcpuPut => vcpu_put(used),
        Step::Teardown { vm } => teardown(used, vm),
        Step::VmRelease => vm_release(used),
    }
}
