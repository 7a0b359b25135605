//! The hypervisor gives a range of frames back to the host.
ghost use Rattle.std.specs.Prelude.{◌≡◌, ℕ, ◌+◌, ◌<◌, ◌≤◌, ◌^◌, None, IsSome};
ghost use Rattle.part_types.specs.Lent.{SharedSuits};
ghost use Rattle.part_types.specs.View.{shared_of};
ghost use Rattle.page_state.specs.LayoutView.{layout_of};
ghost use Rattle.reference_model.specs.model.Decides.{decides};
ghost use Rattle.reference_model.specs.model.State.{Cpu};
ghost use Rattle.reference_model.specs.model.Used.{used_alone};
ghost use Rattle.owner_table.specs.Rows.{row_at};
ghost use Rattle.call_table.specs.declared.step.Step.TheVariants.{HypDonateHost};
ghost use Rattle.page_state.specs.Search.{all_below};
ghost use Rattle.reference_model.specs.model.SharedRules.{is_plain as is_plain_of, may_return as may_return_of};

use super::change;
use crate::pages::{HYPERVISOR, hyp_page, is_in};
use call_table::Refusal;
use page_state::{Entry, Frame, Layout, Page, State, Usage};
use part_types::SharedPart;
use reference_model::Changes;
use std::alloc::Allocator;

/// Whether a frame is in no other use: in no pool and in no hand, and no table.
fn is_plain(usage: Usage) -> bool
    ensures { result ≡ is_plain_of usage }
{
    matches!(usage, Usage::Plain)
}

/// Whether the hypervisor owns a frame that is in no other use. Requires a frame that has an owner row.
fn may_return<A: Allocator>(shared: &SharedPart<A>, frame: u64) -> bool
    requires low { frame < 2 ^ 26 }
    requires row { IsSome (row_at shared.now.owners frame) }
    ensures { (k : Cpu) → result ≡ may_return_of (used_alone (shared_of shared.now) k) frame }
{
    let row = shared.owners.row(Frame(frame));
    row.owner.0 == HYPERVISOR.0
        && is_plain(row.usage)
        && is_in(State::Owned, shared.hyp.translate(hyp_page(frame)))
}

/// Whether it owns so each frame of a range.
fn may_return_all<A: Allocator>(shared: &SharedPart<A>, pfn: u64, n: u64) -> bool
    requires low { pfn + n ≤ 2 ^ 26 }
    requires rows { (i : ℕ) → i < n → IsSome (row_at shared.now.owners (pfn + i)) }
    ensures { (k : Cpu)
        → result
        ≡ all_below n (λ i. may_return_of (used_alone (shared_of shared.now) k) (pfn + i)) }
{
    for i in 0..n {
        if !may_return(shared, pfn + i) {
            return false;
        }
    }
    true
}

/// The hypervisor gives 1 to 512 memory frames back to the host: it must own each of them, and none may be in a pool, in a
/// hand or a table. Afterwards neither maps them. Requires a Shared part of the layout.
#[tactic(auto, unfolding(reference_model::specs::model::Rules::rule))]
pub(crate) fn decide_hyp_donate_host<A: Allocator>(
    layout: &Layout,
    shared: &SharedPart<A>,
    pfn: u64,
    n: u64,
) -> Result<Changes, Refusal>
    requires suits { SharedSuits (layout_of layout.now) shared.now }
    ensures decided { (cpu : ℕ) (k : Cpu)
        → result
        ≡ decides (layout_of layout.now) cpu None (HypDonateHost pfn n)
        (used_alone (shared_of shared.now) k) }
{
    if !layout.is_good_range(Page(pfn), n) {
        return Err(Refusal::Invalid);
    }
    if !may_return_all(shared, pfn, n) {
        return Err(Refusal::Perm);
    }
    Ok(Changes {
        host: change(Page(pfn), n, Entry::Unmapped),
        hyp: change(hyp_page(pfn), n, Entry::Unmapped),
        ..Changes::NONE
    })
}
