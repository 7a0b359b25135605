//! The host gives a range of frames to the hypervisor.
ghost use Rattle.std.specs.Prelude.{◌≡◌, ℕ, ◌+◌, ◌<◌, ◌≤◌, ◌^◌, ◌&&◌, None};
ghost use Rattle.part_types.specs.View.{shared_of};
ghost use Rattle.page_state.specs.EntryTests.{is_free_page as is_free_entry, is_unmapped};
ghost use Rattle.page_state.specs.Layouts.{hyp_page as hyp_page_of};
ghost use Rattle.page_state.specs.LayoutView.{layout_of};
ghost use Rattle.reference_model.specs.model.Decides.{decides};
ghost use Rattle.reference_model.specs.model.State.{Cpu};
ghost use Rattle.reference_model.specs.model.Used.{used_alone};
ghost use Rattle.call_table.specs.declared.step.Step.TheVariants.{DonateHyp};
ghost use Rattle.reference_model.specs.model.SharedRules.{may_donate as may_donate_of};
ghost use Rattle.table_tree.specs.View.{meaning};

use super::change;
use crate::pages::{HYPERVISOR, hyp_page, is_free_page, is_mapped, leaf};
use call_table::Refusal;
use page_state::{Entry, Layout, Page, Prot, State};
use part_types::SharedPart;
use reference_model::Changes;
use std::alloc::Allocator;

/// Whether a frame's page is free to give, and the hypervisor's page of the frame unmapped.
fn may_give<A: Allocator>(shared: &SharedPart<A>, frame: u64) -> bool
    requires { frame < 2 ^ 26 }
    ensures { result
        ≡ (is_free_entry (meaning shared.now.host.tree frame)
        && is_unmapped (meaning shared.now.hyp.tree (hyp_page_of frame))) }
{
    is_free_page(shared.host.translate(Page(frame)))
        && !is_mapped(shared.hyp.translate(hyp_page(frame)))
}

/// Whether that holds of each frame of a range.
pub(crate) fn may_donate<A: Allocator>(shared: &SharedPart<A>, pfn: u64, n: u64) -> bool
    requires { pfn + n ≤ 2 ^ 26 }
    ensures { (k : Cpu) → result ≡ may_donate_of (used_alone (shared_of shared.now) k) pfn n }
{
    for i in 0..n {
        if !may_give(shared, pfn + i) {
            return false;
        }
    }
    true
}

/// The host gives 1 to 512 memory frames to the hypervisor. The pages of the host are annotated with the hypervisor's owner
/// number, and the hypervisor's pages of the frames map them.
#[tactic(auto, unfolding(reference_model::specs::model::Rules::rule))]
pub(crate) fn decide_donate_hyp<A: Allocator>(
    layout: &Layout,
    shared: &SharedPart<A>,
    pfn: u64,
    n: u64,
) -> Result<Changes, Refusal>
    ensures decided { (cpu : ℕ) (k : Cpu)
        → result
        ≡ decides (layout_of layout.now) cpu None (DonateHyp pfn n)
        (used_alone (shared_of shared.now) k) }
{
    if !layout.is_good_range(Page(pfn), n) {
        return Err(Refusal::Invalid);
    }
    if !may_donate(shared, pfn, n) {
        return Err(Refusal::Perm);
    }
    Ok(Changes {
        host: change(Page(pfn), n, Entry::Annotated(HYPERVISOR)),
        hyp: change(hyp_page(pfn), n, leaf(pfn, Prot::RW, State::Owned)),
        ..Changes::NONE
    })
}
