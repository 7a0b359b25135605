//! The rules of the calls on the Shared part alone: the refusal of the first of a call's tests that fails, or all its
//! changes.
ghost use Rattle.std.specs.Prelude.{◌≡◌, ℕ, ◌+◌, ◌<◌, ◌≤◌, ◌^◌, ◌&&◌, Option, IfOk};
ghost use Rattle.call_table.specs.declared.step.Step.TheVariants.{ShareHyp, UnshareHyp, DonateHyp, HypDonateHost, HostAbort, HostTranslate, HypTranslate, OwnerOf, Fund, Unfund};
ghost use Rattle.page_state.specs.Blocks.{block_at, first_page as first_page_of, span as span_of};
ghost use Rattle.page_state.specs.Layouts.{hyp_page as hyp_page_of};
ghost use Rattle.page_state.specs.LayoutView.{layout_of};
ghost use Rattle.page_state.specs.Runs.{map_of};
ghost use Rattle.page_state.specs.Search.{all_below};
ghost use Rattle.reference_model.specs.model.Decides.{decides};
ghost use Rattle.reference_model.specs.model.Changes.{change as change_of};
ghost use Rattle.reference_model.specs.model.SharedRules.{abort_depth as abort_depth_of, abort_leaf as abort_leaf_of, is_plain as is_plain_of, may_map as may_map_of};
ghost use Rattle.ghost_spec.specs.Kept.{AreSmallChanges, IsKeptShared};
ghost use Rattle.ghost_trees.specs.Small.{HasLowFrames};
ghost use Rattle.ghost_spec.specs.Used.{IsKeptUsed, may_donate_frame as may_donate_frame_of, may_return_frame, used_in};
ghost use Rattle.ghost_spec.specs.Views.{shared_in_lists};

use crate::found::pages;
use crate::leaves::{
    annotation, device_leaf, hyp_page, is_annotated, is_free_page, is_in, is_mapped, is_unmapped,
    leaf,
};
use crate::rows::row_at;
use crate::shared::Shared;
use crate::used::GhostUsed;
use call_table::{Refusal, Value};
use ghost_trees::blocks::is_empty;
use ghost_trees::runs::at;
use page_state::{Entry, Layout, Page, PageRange, Prot, Region, RegionKind, State, Usage};
use reference_model::{Changes, CpuChange, MapChange, Update};

/// A change of a map: `count` pages from the first on.
pub(crate) fn change(first: u64, count: u64, entry: Entry) -> Option<MapChange>
    ensures { result ≡ change_of first count entry }
{
    Some(MapChange {
        range: PageRange {
            first: Page(first),
            count,
        },
        entry,
    })
}

/// The host's entry of a page.
pub(crate) fn host_entry(shared: &Shared, page: u64) -> Entry
    requires { IsKeptShared shared.now }
    ensures value { result ≡ map_of shared.now.host.runs.items page }
    ensures low { HasLowFrames result 1 }
{
    at(shared.host.runs.as_slice(), Page(page))
}

/// The hypervisor's entry of its page of a frame.
fn hyp_entry(shared: &Shared, frame: u64) -> Entry
    requires kept { IsKeptShared shared.now }
    requires low { frame < 2 ^ 63 }
    ensures value { result ≡ map_of shared.now.hyp.runs.items (hyp_page_of frame) }
    ensures low { HasLowFrames result 1 }
{
    at(shared.hyp.runs.as_slice(), Page(hyp_page(frame)))
}

/// The host shares a frame with the hypervisor.
#[tactic(auto, unfolding(reference_model::specs::model::Rules::rule))]
pub(crate) fn share_hyp(layout: &Layout, used: &GhostUsed, pfn: u64) -> Result<Changes, Refusal>
    requires { IsKeptUsed used.now }
    ensures decided { (cpu : ℕ) (slot : Option ℕ)
        → result ≡ decides (layout_of layout.now) cpu slot (ShareHyp pfn) (used_in used.now) }
    ensures small { IfOk result AreSmallChanges }
{
    let shared = &used.shared;
    if !layout.map.is_memory(Page(pfn)) {
        return Err(Refusal::Invalid);
    }
    if !is_free_page(host_entry(shared, pfn)) || is_mapped(hyp_entry(shared, pfn)) {
        return Err(Refusal::Perm);
    }
    Ok(Changes {
        host: change(pfn, 1, leaf(Prot::RWX, pfn, State::SharedOwned)),
        hyp: change(hyp_page(pfn), 1, leaf(Prot::RW, pfn, State::SharedBorrowed)),
        ..Changes::NONE
    })
}

/// The host takes back the page that it shared with the hypervisor.
#[tactic(auto, unfolding(reference_model::specs::model::Rules::rule))]
pub(crate) fn unshare_hyp(layout: &Layout, used: &GhostUsed, pfn: u64) -> Result<Changes, Refusal>
    requires { IsKeptUsed used.now }
    ensures decided { (cpu : ℕ) (slot : Option ℕ)
        → result ≡ decides (layout_of layout.now) cpu slot (UnshareHyp pfn) (used_in used.now) }
    ensures small { IfOk result AreSmallChanges }
{
    let shared = &used.shared;
    if !layout.map.is_memory(Page(pfn)) {
        return Err(Refusal::Invalid);
    }
    if !is_in(State::SharedOwned, host_entry(shared, pfn))
        || !is_in(State::SharedBorrowed, hyp_entry(shared, pfn))
    {
        return Err(Refusal::Perm);
    }
    Ok(Changes {
        host: change(pfn, 1, leaf(Prot::RWX, pfn, State::Owned)),
        hyp: change(hyp_page(pfn), 1, Entry::Unmapped),
        ..Changes::NONE
    })
}

/// Whether a frame's page is free, and the hypervisor's page of it unmapped.
fn may_donate_frame(shared: &Shared, frame: u64) -> bool
    requires kept { IsKeptShared shared.now }
    requires low { frame < 2 ^ 63 }
    ensures { result ≡ may_donate_frame_of (shared_in_lists shared.now) frame }
{
    is_free_page(host_entry(shared, frame)) && is_unmapped(hyp_entry(shared, frame))
}

/// Whether that holds of each frame of a range.
fn may_donate(shared: &Shared, pfn: u64, n: u64) -> bool
    requires kept { IsKeptShared shared.now }
    requires low { pfn + n ≤ 2 ^ 62 }
    ensures { result ≡ all_below n (λ i. may_donate_frame_of (shared_in_lists shared.now) (pfn + i)) }
{
    for i in 0..n {
        if !may_donate_frame(shared, pfn + i) {
            return false;
        }
    }
    true
}

/// The host gives a range to the hypervisor.
#[tactic(auto, unfolding(reference_model::specs::model::Rules::rule))]
pub(crate) fn donate_hyp(
    layout: &Layout,
    used: &GhostUsed,
    pfn: u64,
    n: u64,
) -> Result<Changes, Refusal>
    requires { IsKeptUsed used.now }
    ensures decided { (cpu : ℕ) (slot : Option ℕ)
        → result ≡ decides (layout_of layout.now) cpu slot (DonateHyp pfn n) (used_in used.now) }
    ensures small { IfOk result AreSmallChanges }
{
    let shared = &used.shared;
    if !layout.is_good_range(Page(pfn), n) {
        return Err(Refusal::Invalid);
    }
    if !may_donate(shared, pfn, n) {
        return Err(Refusal::Perm);
    }
    Ok(Changes {
        host: change(pfn, n, annotation(1)),
        hyp: change(hyp_page(pfn), n, leaf(Prot::RW, pfn, State::Owned)),
        ..Changes::NONE
    })
}

/// Whether nothing is in another use.
fn is_plain(usage: Usage) -> bool
    ensures { result ≡ is_plain_of usage }
{
    match usage {
        Usage::Plain => true,
        _ => false,
    }
}

/// Whether the hypervisor owns a frame that is in no other use.
fn may_return(shared: &Shared, frame: u64) -> bool
    requires kept { IsKeptShared shared.now }
    requires low { frame < 2 ^ 63 }
    ensures { result ≡ may_return_frame (shared_in_lists shared.now) frame }
{
    let row = row_at(shared, frame);
    row.owner.0 == 1 && is_plain(row.usage) && is_in(State::Owned, hyp_entry(shared, frame))
}

/// Whether that holds of each frame of a range.
fn may_return_all(shared: &Shared, pfn: u64, n: u64) -> bool
    requires kept { IsKeptShared shared.now }
    requires low { pfn + n ≤ 2 ^ 62 }
    ensures { result ≡ all_below n (λ i. may_return_frame (shared_in_lists shared.now) (pfn + i)) }
{
    for i in 0..n {
        if !may_return(shared, pfn + i) {
            return false;
        }
    }
    true
}

/// The hypervisor gives a range back.
#[tactic(auto, unfolding(reference_model::specs::model::Rules::rule))]
pub(crate) fn hyp_donate_host(
    layout: &Layout,
    used: &GhostUsed,
    pfn: u64,
    n: u64,
) -> Result<Changes, Refusal>
    requires { IsKeptUsed used.now }
    ensures decided { (cpu : ℕ) (slot : Option ℕ)
        → result
        ≡ decides (layout_of layout.now) cpu slot (HypDonateHost pfn n) (used_in used.now) }
    ensures small { IfOk result AreSmallChanges }
{
    let shared = &used.shared;
    if !layout.is_good_range(Page(pfn), n) {
        return Err(Refusal::Invalid);
    }
    if !may_return_all(shared, pfn, n) {
        return Err(Refusal::Perm);
    }
    Ok(Changes {
        host: change(pfn, n, Entry::Unmapped),
        hyp: change(hyp_page(pfn), n, Entry::Unmapped),
        ..Changes::NONE
    })
}

/// The pages of the block of a depth of at most 2 that holds a page.
fn block_of(depth: u64, page: u64) -> PageRange
    requires { depth ≤ 2 }
    ensures first { result.first.0 ≡ first_page_of (block_at depth page) }
    ensures count { result.count ≡ span_of (block_at depth page) }
    ensures low { result.first.0 ≤ page }
    ensures few { result.count ≤ 2 ^ 18 }
{
    let count = match depth {
        0 => 1,
        1 => 512,
        _ => 262_144,
    };
    PageRange {
        first: Page(page - page % count),
        count,
    }
}

/// Whether the block of a depth that holds a page lies in the page's region and is all unmapped.
fn may_map(shared: &Shared, region: Region, depth: u64, page: u64) -> bool
    requires kept { IsKeptShared shared.now }
    requires depth { depth ≤ 2 }
    requires page { page < 2 ^ 26 }
    ensures { result ≡ may_map_of (map_of shared.now.host.runs.items) region depth page }
{
    let pages = block_of(depth, page);
    pages.is_within(region.pages)
        && is_empty(shared.host.runs.as_slice(), (depth, page / pages.count))
}

/// The depth of the largest block that may be mapped.
fn abort_depth(shared: &Shared, region: Region, page: u64) -> u64
    requires kept { IsKeptShared shared.now }
    requires page { page < 2 ^ 26 }
    ensures value { result ≡ abort_depth_of (map_of shared.now.host.runs.items) region page }
    ensures low { result ≤ 2 }
{
    if may_map(shared, region, 2, page) {
        2
    } else if may_map(shared, region, 1, page) {
        1
    } else {
        0
    }
}

/// The leaf that is mapped from a page on.
fn abort_leaf(region: Region, first: u64) -> Entry
    requires { first < 2 ^ 26 }
    ensures value { result ≡ abort_leaf_of region first }
    ensures low { HasLowFrames result (2 ^ 18) }
{
    match region.kind {
        RegionKind::Memory => leaf(Prot::RWX, first, State::Owned),
        RegionKind::Device => device_leaf(first),
    }
}

/// The host touches a page that may be unmapped.
#[tactic(auto, unfolding(reference_model::specs::model::Rules::rule, reference_model::specs::model::SharedRules::abort_edit))]
pub(crate) fn host_abort(layout: &Layout, used: &GhostUsed, page: u64) -> Result<Changes, Refusal>
    requires { IsKeptUsed used.now }
    ensures decided { (cpu : ℕ) (slot : Option ℕ)
        → result ≡ decides (layout_of layout.now) cpu slot (HostAbort page) (used_in used.now) }
    ensures small { IfOk result AreSmallChanges }
{
    let shared = &used.shared;
    let _regions = layout.map.regions();
    let Some(region) = layout.map.region_of(Page(page)) else {
        return Err(Refusal::Invalid);
    };
    let entry = host_entry(shared, page);
    if is_annotated(entry) {
        return Err(Refusal::Perm);
    }
    if is_mapped(entry) {
        return Ok(Changes::NONE);
    }
    let pages = block_of(abort_depth(shared, region, page), page);
    Ok(Changes {
        host: change(
            pages.first.0,
            pages.count,
            abort_leaf(region, pages.first.0),
        ),
        ..Changes::NONE
    })
}

/// The host's entry of a page.
#[tactic(auto, unfolding(reference_model::specs::model::Rules::rule))]
pub(crate) fn host_translate(
    layout: &Layout,
    used: &GhostUsed,
    page: u64,
) -> Result<Changes, Refusal>
    requires { IsKeptUsed used.now }
    ensures decided { (cpu : ℕ) (slot : Option ℕ)
        → result
        ≡ decides (layout_of layout.now) cpu slot (HostTranslate page) (used_in used.now) }
    ensures small { IfOk result AreSmallChanges }
{
    let shared = &used.shared;
    if page >= pages(layout) {
        return Err(Refusal::Invalid);
    }
    Ok(Changes {
        value: Value::Entry(host_entry(shared, page)),
        ..Changes::NONE
    })
}

/// The hypervisor's entry of a page.
#[tactic(auto, unfolding(reference_model::specs::model::Rules::rule))]
pub(crate) fn hyp_translate(
    layout: &Layout,
    used: &GhostUsed,
    page: u64,
) -> Result<Changes, Refusal>
    requires { IsKeptUsed used.now }
    ensures decided { (cpu : ℕ) (slot : Option ℕ)
        → result
        ≡ decides (layout_of layout.now) cpu slot (HypTranslate page) (used_in used.now) }
    ensures small { IfOk result AreSmallChanges }
{
    let shared = &used.shared;
    if page >= pages(layout) {
        return Err(Refusal::Invalid);
    }
    Ok(Changes {
        value: Value::Entry(at(shared.hyp.runs.as_slice(), Page(page))),
        ..Changes::NONE
    })
}

/// The row of a frame.
#[tactic(auto, unfolding(reference_model::specs::model::Rules::rule))]
pub(crate) fn owner_of(layout: &Layout, used: &GhostUsed, pfn: u64) -> Result<Changes, Refusal>
    ensures decided { (cpu : ℕ) (slot : Option ℕ)
        → result ≡ decides (layout_of layout.now) cpu slot (OwnerOf pfn) (used_in used.now) }
    ensures small { IfOk result AreSmallChanges }
{
    let shared = &used.shared;
    if !layout.map.is_memory(Page(pfn)) {
        return Err(Refusal::Invalid);
    }
    Ok(Changes {
        value: Value::Row(row_at(shared, pfn)),
        ..Changes::NONE
    })
}

/// The host gives a range into the CPU's hand.
#[tactic(auto, unfolding(reference_model::specs::model::Rules::rule))]
pub(crate) fn fund(layout: &Layout, used: &GhostUsed, pfn: u64, n: u64) -> Result<Changes, Refusal>
    requires { IsKeptUsed used.now }
    ensures decided { (cpu : ℕ) (slot : Option ℕ)
        → result ≡ decides (layout_of layout.now) cpu slot (Fund pfn n) (used_in used.now) }
    ensures small { IfOk result AreSmallChanges }
{
    let shared = &used.shared;
    let own = &used.own;
    if !layout.is_good_range(Page(pfn), n) {
        return Err(Refusal::Invalid);
    }
    if own.hand.is_some() {
        return Err(Refusal::Busy);
    }
    if !may_donate(shared, pfn, n) {
        return Err(Refusal::Perm);
    }
    let hand = PageRange {
        first: Page(pfn),
        count: n,
    };
    Ok(Changes {
        host: change(pfn, n, annotation(1)),
        hyp: change(hyp_page(pfn), n, leaf(Prot::RW, pfn, State::Owned)),
        cpu: CpuChange {
            hand: Update::Becomes(Some(hand)),
            ..CpuChange::NONE
        },
        ..Changes::NONE
    })
}

/// The CPU's hand goes back to the host.
#[tactic(auto, unfolding(reference_model::specs::model::Rules::rule))]
pub(crate) fn unfund(layout: &Layout, used: &GhostUsed) -> Result<Changes, Refusal>
    requires { IsKeptUsed used.now }
    ensures decided { (cpu : ℕ) (slot : Option ℕ)
        → result ≡ decides (layout_of layout.now) cpu slot Unfund (used_in used.now) }
    ensures small { IfOk result AreSmallChanges }
{
    let own = &used.own;
    let Some(hand) = own.hand else {
        return Err(Refusal::Perm);
    };
    Ok(Changes {
        host: change(hand.first.0, hand.count, Entry::Unmapped),
        hyp: change(hyp_page(hand.first.0), hand.count, Entry::Unmapped),
        cpu: CpuChange {
            hand: Update::Becomes(None),
            ..CpuChange::NONE
        },
        ..Changes::NONE
    })
}
