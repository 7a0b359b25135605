//! Calls that answer an entry or an owner row, and change nothing.
ghost use Rattle.std.specs.Prelude.{◌≡◌, ℕ, None, IfOk};
ghost use Rattle.part_types.specs.Lent.{SharedSuits};
ghost use Rattle.part_types.specs.View.{shared_of};
ghost use Rattle.decisions.specs.Grows.{GrowsOnly};
ghost use Rattle.call_table.specs.declared.step.Step.TheVariants.{HostTranslate, HypTranslate, OwnerOf};
ghost use Rattle.page_state.specs.LayoutView.{layout_of};
ghost use Rattle.reference_model.specs.model.Decides.{decides};
ghost use Rattle.reference_model.specs.model.State.{Cpu};
ghost use Rattle.reference_model.specs.model.Used.{used_alone};

use call_table::{Refusal, Value};
use page_state::{Frame, Layout, Page};
use part_types::SharedPart;
use reference_model::Changes;
use std::alloc::Allocator;

/// The host's entry of an input page.
#[tactic(auto, unfolding(reference_model::specs::model::Rules::rule))]
pub(crate) fn decide_host_translate<A: Allocator>(
    layout: &Layout,
    shared: &SharedPart<A>,
    page: u64,
) -> Result<Changes, Refusal>
    ensures decided { (cpu : ℕ) (k : Cpu)
        → result
        ≡ decides (layout_of layout.now) cpu None (HostTranslate page)
        (used_alone (shared_of shared.now) k) }
    ensures grows { IfOk result (GrowsOnly (HostTranslate page)) }
{
    if page >= layout.geometry.pages() {
        return Err(Refusal::Invalid);
    }
    Ok(Changes {
        value: Value::Entry(shared.host.translate(Page(page))),
        ..Changes::NONE
    })
}

/// The hypervisor's entry of an input page.
#[tactic(auto, unfolding(reference_model::specs::model::Rules::rule))]
pub(crate) fn decide_hyp_translate<A: Allocator>(
    layout: &Layout,
    shared: &SharedPart<A>,
    page: u64,
) -> Result<Changes, Refusal>
    ensures decided { (cpu : ℕ) (k : Cpu)
        → result
        ≡ decides (layout_of layout.now) cpu None (HypTranslate page)
        (used_alone (shared_of shared.now) k) }
    ensures grows { IfOk result (GrowsOnly (HypTranslate page)) }
{
    if page >= layout.geometry.pages() {
        return Err(Refusal::Invalid);
    }
    Ok(Changes {
        value: Value::Entry(shared.hyp.translate(Page(page))),
        ..Changes::NONE
    })
}

/// The owner row of a memory frame. Requires a Shared part of the layout.
#[tactic(auto, unfolding(reference_model::specs::model::Rules::rule))]
pub(crate) fn decide_owner_of<A: Allocator>(
    layout: &Layout,
    shared: &SharedPart<A>,
    pfn: u64,
) -> Result<Changes, Refusal>
    requires suits { SharedSuits (layout_of layout.now) shared.now }
    ensures decided { (cpu : ℕ) (k : Cpu)
        → result
        ≡ decides (layout_of layout.now) cpu None (OwnerOf pfn)
        (used_alone (shared_of shared.now) k) }
    ensures grows { IfOk result (GrowsOnly (OwnerOf pfn)) }
{
    if !layout.map.is_memory(Page(pfn)) {
        return Err(Refusal::Invalid);
    }
    Ok(Changes {
        value: Value::Row(shared.owners.row(Frame(pfn))),
        ..Changes::NONE
    })
}
