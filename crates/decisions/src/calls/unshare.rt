//! The host takes back a page that it shares with the hypervisor.
ghost use Rattle.std.specs.Prelude.{◌≡◌, ℕ, None};
ghost use Rattle.part_types.specs.View.{shared_of};
ghost use Rattle.page_state.specs.LayoutView.{layout_of};
ghost use Rattle.reference_model.specs.model.Decides.{decides};
ghost use Rattle.reference_model.specs.model.State.{Cpu};
ghost use Rattle.reference_model.specs.model.Used.{used_alone};
ghost use Rattle.call_table.specs.declared.step.Step.TheVariants.{UnshareHyp};

use super::change;
use crate::pages::{hyp_page, is_in, leaf};
use call_table::Refusal;
use page_state::{Entry, Layout, Page, Prot, State};
use part_types::SharedPart;
use reference_model::Changes;
use std::alloc::Allocator;

/// The host takes back a frame that it shares with the hypervisor: its page must be shared, and the hypervisor's page of the
/// frame borrowed.
#[tactic(auto, unfolding(reference_model::specs::model::Rules::rule))]
pub(crate) fn decide_unshare_hyp<A: Allocator>(
    layout: &Layout,
    shared: &SharedPart<A>,
    pfn: u64,
) -> Result<Changes, Refusal>
    ensures decided { (cpu : ℕ) (k : Cpu)
        → result
        ≡ decides (layout_of layout.now) cpu None (UnshareHyp pfn)
        (used_alone (shared_of shared.now) k) }
{
    if !layout.map.is_memory(Page(pfn)) {
        return Err(Refusal::Invalid);
    }
    if !is_in(State::SharedOwned, shared.host.translate(Page(pfn)))
        || !is_in(State::SharedBorrowed, shared.hyp.translate(hyp_page(pfn)))
    {
        return Err(Refusal::Perm);
    }
    Ok(Changes {
        host: change(Page(pfn), 1, leaf(pfn, Prot::RWX, State::Owned)),
        hyp: change(hyp_page(pfn), 1, Entry::Unmapped),
        ..Changes::NONE
    })
}
