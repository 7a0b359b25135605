//! The host funds a CPU: a range of its frames goes into the CPU's hand, and out of it again.
ghost use Rattle.std.specs.Prelude.{◌≡◌, ℕ, None};
ghost use Rattle.part_types.specs.View.{cpu_of, shared_of};
ghost use Rattle.page_state.specs.LayoutView.{layout_of};
ghost use Rattle.reference_model.specs.model.Decides.{decides};
ghost use Rattle.reference_model.specs.help.Rely.{CanRely};
ghost use Rattle.reference_model.specs.model.Used.{used_alone};
ghost use Rattle.call_table.specs.declared.step.Step.TheVariants.{Fund, Unfund};

use super::change;
use super::donate::may_donate;
use crate::pages::{HYPERVISOR, hyp_page, leaf};
use call_table::Refusal;
use page_state::{Entry, Layout, Page, PageRange, Prot, State};
use part_types::{CpuState, SharedPart};
use reference_model::{Changes, CpuChange, Update};
use std::alloc::Allocator;

/// The host gives 1 to 512 memory frames into the CPU's hand, which must be empty. The frames go to the hypervisor, as those
/// of a donation do.
#[tactic(auto, unfolding(reference_model::specs::model::Rules::rule))]
pub(crate) fn decide_fund<A: Allocator>(
    layout: &Layout,
    shared: &SharedPart<A>,
    cpu: &CpuState,
    pfn: u64,
    n: u64,
) -> Result<Changes, Refusal>
    ensures decided { (id : ℕ)
        → result
        ≡ decides (layout_of layout.now) id None (Fund pfn n)
        (used_alone (shared_of shared.now) (cpu_of cpu.now)) }
{
    if !layout.is_good_range(Page(pfn), n) {
        return Err(Refusal::Invalid);
    }
    if cpu.hand.is_some() {
        return Err(Refusal::Busy);
    }
    if !may_donate(shared, pfn, n) {
        return Err(Refusal::Perm);
    }
    Ok(Changes {
        host: change(Page(pfn), n, Entry::Annotated(HYPERVISOR)),
        hyp: change(hyp_page(pfn), n, leaf(pfn, Prot::RW, State::Owned)),
        cpu: CpuChange {
            hand: Update::Becomes(Some(PageRange {
                first: Page(pfn),
                count: n,
            })),
            ..CpuChange::NONE
        },
        ..Changes::NONE
    })
}

/// The frames of the CPU's hand go back to the host, and the hand is empty afterwards. Requires a hand that some run can reach.
#[tactic(auto, unfolding(reference_model::specs::model::Rules::rule))]
pub(crate) fn decide_unfund<A: Allocator>(
    layout: &Layout,
    shared: &SharedPart<A>,
    cpu: &CpuState,
) -> Result<Changes, Refusal>
    requires rely { CanRely (layout_of layout.now) cpu.now.id None Unfund
        (used_alone (shared_of shared.now) (cpu_of cpu.now)) }
    ensures decided { result
        ≡ decides (layout_of layout.now) cpu.now.id None Unfund
        (used_alone (shared_of shared.now) (cpu_of cpu.now)) }
{
    let Some(hand) = cpu.hand else {
        return Err(Refusal::Perm);
    };
    Ok(Changes {
        host: change(hand.first, hand.count, Entry::Unmapped),
        hyp: change(hyp_page(hand.first.0), hand.count, Entry::Unmapped),
        cpu: CpuChange {
            hand: Update::Becomes(None),
            ..CpuChange::NONE
        },
        ..Changes::NONE
    })
}
