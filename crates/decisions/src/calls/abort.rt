//! The host touches a page, and gets it mapped if it may have it.
ghost use Rattle.std.specs.Prelude.{◌≡◌, ℕ, ◌≤◌, None};
ghost use Rattle.part_types.specs.View.{shared_of};
ghost use Rattle.page_state.specs.LayoutView.{layout_of};
ghost use Rattle.reference_model.specs.model.Decides.{decides};
ghost use Rattle.reference_model.specs.model.State.{Cpu};
ghost use Rattle.reference_model.specs.model.Used.{used_alone};
ghost use Rattle.page_state.specs.Blocks.{block_at, first_page, span};
ghost use Rattle.call_table.specs.declared.step.Step.TheVariants.{HostAbort};
ghost use Rattle.reference_model.specs.model.SharedRules.{abort_depth as abort_depth_of, abort_leaf as abort_leaf_of, may_map as may_map_of};
ghost use Rattle.table_tree.specs.View.{meaning};

use super::change;
use crate::pages::{device_leaf, leaf};
use call_table::Refusal;
use page_state::{Entry, Layout, Page, PageRange, Prot, Region, RegionKind, State, pages_under};
use part_types::SharedPart;
use reference_model::Changes;
use std::alloc::Allocator;

/// The pages of the block that holds a page and has `depth` levels below it, at most 2.
fn block(depth: u32, page: u64) -> PageRange
    requires { depth ≤ 2 }
    ensures first { result.first.0 ≡ first_page (block_at depth page) }
    ensures count { result.count ≡ span (block_at depth page) }
{
    let count = pages_under(depth);
    PageRange {
        first: Page(page - page % count),
        count,
    }
}

/// Whether the block of a depth that holds a page lies in the page's region and is all unmapped.
fn may_map<A: Allocator>(shared: &SharedPart<A>, region: Region, depth: u32, page: u64) -> bool
    requires { depth ≤ 2 }
    ensures { result ≡ may_map_of (meaning shared.now.host.tree) region depth page }
{
    block(depth, page).is_within(region.pages) && shared.host.is_empty(depth, Page(page))
}

/// The depth of the largest block that may be mapped, or 0 for only the page.
fn abort_depth<A: Allocator>(shared: &SharedPart<A>, region: Region, page: u64) -> u32
    ensures value { result ≡ abort_depth_of (meaning shared.now.host.tree) region page }
    ensures small { result ≤ 2 }
{
    if may_map(shared, region, 2, page) {
        return 2;
    }
    if may_map(shared, region, 1, page) {
        return 1;
    }
    0
}

/// The leaf that maps a block of a region from its first page on.
fn abort_leaf(region: Region, first: u64) -> Entry
    ensures { result ≡ abort_leaf_of region first }
{
    match region.kind {
        RegionKind::Memory => leaf(first, Prot::RWX, State::Owned),
        RegionKind::Device => device_leaf(first),
    }
}

/// The host touches a page of a region. An annotated page belongs to another: the call is refused. An unmapped page
/// gets mapped, with the largest aligned block around it that lies in one region and is all unmapped. A mapped page
/// stays.
#[tactic(auto, unfolding(reference_model::specs::model::Rules::rule, reference_model::specs::model::SharedRules::abort_edit))]
pub(crate) fn decide_host_abort<A: Allocator>(
    layout: &Layout,
    shared: &SharedPart<A>,
    page: u64,
) -> Result<Changes, Refusal>
    ensures decided { (cpu : ℕ) (k : Cpu)
        → result
        ≡ decides (layout_of layout.now) cpu None (HostAbort page)
        (used_alone (shared_of shared.now) k) }
{
    let Some(region) = layout.map.region_of(Page(page)) else {
        return Err(Refusal::Invalid);
    };
    match shared.host.translate(Page(page)) {
        Entry::Annotated(_) => Err(Refusal::Perm),
        Entry::Unmapped => {
            let pages = block(abort_depth(shared, region, page), page);
            Ok(Changes {
                host: change(pages.first, pages.count, abort_leaf(region, pages.first.0)),
                ..Changes::NONE
            })
        }
        _ => Ok(Changes::NONE),
    }
}
