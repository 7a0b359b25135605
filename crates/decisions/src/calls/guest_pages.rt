//! Calls that change pages of the host and of a guest.
ghost use Rattle.std.specs.Prelude.{◌≡◌, ◌+◌, ◌<◌, ◌≤◌, ◌^◌, ◌&&◌, ℕ, IsTrue, Some, if◌then◌else◌};
ghost use Rattle.guest_component.specs.View.{guest_of};
ghost use Rattle.part_types.specs.View.{shared_of};
ghost use Rattle.page_state.specs.EntryTests.{annotation, entry_frame as frame_of_entry, is_free_page as is_free_entry, is_in as is_entry_in, is_unmapped, leaf as leaf_of};
ghost use Rattle.page_state.specs.LayoutView.{layout_of};
ghost use Rattle.decisions.specs.Decided.{IsDecidedByParts};
ghost use Rattle.reference_model.specs.model.State.{Cpu};
ghost use Rattle.reference_model.specs.model.Used.{with_guest};
ghost use Rattle.call_table.specs.declared.step.Step.TheVariants.{ShareGuest, UnshareGuest, DonateGuest, GuestShareHost, GuestUnshareHost, ReclaimPage};
ghost use Rattle.reference_model.specs.model.GuestRules.{are_good_pages as are_good_pages_of, guest_owner, may_give as may_give_of, two_pages as two_pages_of, two_ranges as two_ranges_of};
ghost use Rattle.table_tree.specs.View.{meaning};

use super::change;
use super::vms::SLOTS;
use crate::pages::{entry_frame, is_free_page, is_in, is_mapped, leaf, with_state};
use call_table::{Refusal, VmId};
use guest_component::Guest;
use page_state::{Entry, Layout, Owner, Page, Prot, State};
use part_types::SharedPart;
use reference_model::Changes;
use std::alloc::Allocator;

/// A range of the host and one of the guest change.
fn two_ranges(pfn: u64, host: Entry, gfn: u64, guest: Entry, n: u64) -> Changes
    ensures { result ≡ two_ranges_of pfn host gfn guest n }
{
    Changes {
        host: change(Page(pfn), n, host),
        guest: change(Page(gfn), n, guest),
        ..Changes::NONE
    }
}

/// A page of the host and a page of the guest change.
fn two_pages(pfn: u64, host: Entry, gfn: u64, guest: Entry) -> Changes
    ensures { result ≡ two_pages_of pfn host gfn guest }
{
    two_ranges(pfn, host, gfn, guest, 1)
}

/// Whether the pages of a range are input pages.
pub(super) fn are_good_pages(layout: &Layout, gfn: u64, n: u64) -> bool
    requires { 1 ≤ n }
    ensures value { result ≡ are_good_pages_of (layout_of layout.now) gfn n }
    ensures low { IsTrue result → gfn + n ≤ 2 ^ 62 }
{
    let pages = layout.geometry.pages();
    n <= pages && gfn <= pages - n
}

/// Whether the host's page of a frame is free to give, and a page of the guest is unmapped.
fn may_give_page<A: Allocator>(
    shared: &SharedPart<A>,
    guest: &Guest<A>,
    frame: u64,
    page: u64,
) -> bool
    ensures { result
        ≡ (is_free_entry (meaning shared.now.host.tree frame)
        && is_unmapped ((guest_of guest.now).tree.map page)) }
{
    is_free_page(shared.host.translate(Page(frame))) && !is_mapped(guest.translate(Page(page)))
}

/// Whether that is so of each frame of a range and its page.
fn may_give<A: Allocator>(
    shared: &SharedPart<A>,
    guest: &Guest<A>,
    pfn: u64,
    gfn: u64,
    n: u64,
) -> bool
    requires frames { pfn + n ≤ 2 ^ 26 }
    requires pages { gfn + n ≤ 2 ^ 62 }
    ensures { (k : Cpu)
        → result
        ≡ may_give_of (with_guest (shared_of shared.now) (guest_of guest.now) k) pfn gfn n }
{
    for i in 0..n {
        if !may_give_page(shared, guest, pfn + i, gfn + i) {
            return false;
        }
    }
    true
}

/// The host's entry of a page whose frame the guest of a slot owns.
fn owned_by_guest(slot: u64) -> Entry
    requires { slot < 64 }
    ensures { result ≡ annotation (guest_owner (Some slot)) }
{
    Entry::Annotated(Owner(2 + slot))
}

/// The host shares 1 to 512 memory frames with a plain VM: their pages must be free to give, and the guest's pages unmapped.
#[tactic(auto, unfolding(reference_model::specs::model::Rules::rule))]
pub(crate) fn decide_share_guest<A: Allocator>(
    layout: &Layout,
    shared: &SharedPart<A>,
    guest: &Guest<A>,
    pfn: u64,
    gfn: u64,
    prot: Prot,
    n: u64,
) -> Result<Changes, Refusal>
    ensures decided { (slot : ℕ)
        → IsDecidedByParts (layout_of layout.now) slot shared.now guest.now
        (ShareGuest pfn gfn prot n) result }
{
    if !layout.is_good_range(Page(pfn), n) || !are_good_pages(layout, gfn, n) {
        return Err(Refusal::Invalid);
    }
    if guest.is_protected() || !may_give(shared, guest, pfn, gfn, n) {
        return Err(Refusal::Perm);
    }
    Ok(two_ranges(
        pfn,
        leaf(pfn, Prot::RWX, State::SharedOwned),
        gfn,
        leaf(pfn, prot, State::SharedBorrowed),
        n,
    ))
}

/// The host takes back a frame that it shares with a Live guest.
#[tactic(auto, unfolding(reference_model::specs::model::Rules::rule))]
pub(crate) fn decide_unshare_guest<A: Allocator>(
    layout: &Layout,
    shared: &SharedPart<A>,
    guest: &Guest<A>,
    vm: VmId,
    gfn: u64,
) -> Result<Changes, Refusal>
    ensures decided { (slot : ℕ)
        → IsDecidedByParts (layout_of layout.now) slot shared.now guest.now
        (UnshareGuest vm gfn) result }
{
    if vm.slot >= SLOTS || gfn >= layout.geometry.pages() {
        return Err(Refusal::Invalid);
    }
    if !guest.is_live(vm) {
        return Err(Refusal::NoVm);
    }
    let entry = guest.translate(Page(gfn));
    if !is_in(State::SharedBorrowed, entry) {
        return Err(Refusal::Perm);
    }
    let pfn = entry_frame(entry);
    Ok(two_pages(
        pfn,
        leaf(pfn, Prot::RWX, State::Owned),
        gfn,
        Entry::Unmapped,
    ))
}

/// The host gives 1 to 512 memory frames to a protected VM: their pages must be free to give, and the guest's pages unmapped.
#[tactic(auto, unfolding(reference_model::specs::model::Rules::rule))]
pub(crate) fn decide_donate_guest<A: Allocator>(
    layout: &Layout,
    shared: &SharedPart<A>,
    guest: &Guest<A>,
    slot: u64,
    pfn: u64,
    gfn: u64,
    n: u64,
) -> Result<Changes, Refusal>
    requires { slot < 64 }
    ensures decided { IsDecidedByParts (layout_of layout.now) slot shared.now guest.now
        (DonateGuest pfn gfn n) result }
{
    if !layout.is_good_range(Page(pfn), n) || !are_good_pages(layout, gfn, n) {
        return Err(Refusal::Invalid);
    }
    if !guest.is_protected() || !may_give(shared, guest, pfn, gfn, n) {
        return Err(Refusal::Perm);
    }
    let given = leaf(pfn, Prot::RWX, State::Owned);
    Ok(two_ranges(pfn, owned_by_guest(slot), gfn, given, n))
}

/// The guest shares a page that it owns with the host.
#[tactic(auto, unfolding(reference_model::specs::model::Rules::rule))]
pub(crate) fn decide_guest_share_host<A: Allocator>(
    layout: &Layout,
    shared: &SharedPart<A>,
    guest: &Guest<A>,
    gfn: u64,
) -> Result<Changes, Refusal>
    ensures decided { (slot : ℕ)
        → IsDecidedByParts (layout_of layout.now) slot shared.now guest.now
        (GuestShareHost gfn) result }
{
    if gfn >= layout.geometry.pages() {
        return Err(Refusal::Invalid);
    }
    let entry = guest.translate(Page(gfn));
    if !is_in(State::Owned, entry) {
        return Err(Refusal::Perm);
    }
    let pfn = entry_frame(entry);
    Ok(two_pages(
        pfn,
        leaf(pfn, Prot::RWX, State::SharedBorrowed),
        gfn,
        with_state(State::SharedOwned, entry),
    ))
}

/// The guest takes back a page that it shares with the host.
#[tactic(auto, unfolding(reference_model::specs::model::Rules::rule))]
pub(crate) fn decide_guest_unshare_host<A: Allocator>(
    layout: &Layout,
    shared: &SharedPart<A>,
    guest: &Guest<A>,
    slot: u64,
    gfn: u64,
) -> Result<Changes, Refusal>
    requires { slot < 64 }
    ensures decided { IsDecidedByParts (layout_of layout.now) slot shared.now guest.now
        (GuestUnshareHost gfn) result }
{
    if gfn >= layout.geometry.pages() {
        return Err(Refusal::Invalid);
    }
    let entry = guest.translate(Page(gfn));
    if !is_in(State::SharedOwned, entry) {
        return Err(Refusal::Perm);
    }
    Ok(two_pages(
        entry_frame(entry),
        owned_by_guest(slot),
        gfn,
        with_state(State::Owned, entry),
    ))
}

/// The new entry of the host's page of a guest's frame: unmapped if the guest owned the frame alone, and the host's own
/// if one of them shared it.
fn reclaimed(entry: Entry) -> Entry
    ensures { result
        ≡ (if is_entry_in State.Owned entry then Entry.Unmapped
        else leaf_of Prot.RWX (frame_of_entry entry) State.Owned) }
{
    if is_in(State::Owned, entry) {
        Entry::Unmapped
    } else {
        leaf(entry_frame(entry), Prot::RWX, State::Owned)
    }
}

/// The host gets the frame of a page of a Dying guest back.
#[tactic(auto, unfolding(reference_model::specs::model::Rules::rule))]
pub(crate) fn decide_reclaim_page<A: Allocator>(
    layout: &Layout,
    shared: &SharedPart<A>,
    guest: &Guest<A>,
    vm: VmId,
    gfn: u64,
) -> Result<Changes, Refusal>
    ensures decided { (slot : ℕ)
        → IsDecidedByParts (layout_of layout.now) slot shared.now guest.now
        (ReclaimPage vm gfn) result }
{
    if vm.slot >= SLOTS || gfn >= layout.geometry.pages() {
        return Err(Refusal::Invalid);
    }
    if !guest.is_dying(vm) {
        return Err(Refusal::NoVm);
    }
    let entry = guest.translate(Page(gfn));
    if !is_mapped(entry) {
        return Err(Refusal::Perm);
    }
    Ok(two_pages(entry_frame(entry), reclaimed(entry), gfn, Entry::Unmapped))
}
