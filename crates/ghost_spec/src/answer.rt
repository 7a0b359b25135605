//! The answer of a call, and the used parts after it, logs apart.
ghost use Rattle.std.specs.Prelude.{◌≡◌, ◌<◌, ◌≤◌, true, IfOk, OnOk, length};
ghost use Rattle.page_state.specs.LayoutView.{layout_of};
ghost use Rattle.reference_model.specs.model.Changes.{touched as touched_of};
ghost use Rattle.reference_model.specs.model.Parts.{uses_vms as uses_vms_of};
ghost use Rattle.reference_model.specs.model.Rules.{names};
ghost use Rattle.reference_model.specs.model.Step.{answer as answer_of, changed as changed_of, is_short as is_short_of};
ghost use Rattle.ghost_spec.specs.Kept.{AreSmallChanges, FitsSlots, HasNextGeneration, IsLowSlot};
ghost use Rattle.ghost_spec.specs.RowsFound.{used_made};
ghost use Rattle.ghost_spec.specs.Used.{IsKeptUsed, used_in};

use crate::decide::decide;
use crate::rows::find_rows;
use crate::used::GhostUsed;
use crate::{cpu, guest, shared, vms};
use call_table::{Refusal, Reply, Step};
use page_state::{Layout, PageRange};
use reference_model::Changes;
use std::alloc::{AllocError, Global};

/// The levels below a root's.
pub(crate) fn depth(layout: &Layout) -> u64
    ensures value { result ≡ (layout_of layout.now).depth }
    ensures low { result ≤ 3 }
{
    u64::from(layout.geometry.depth())
}

/// The frames whose rows a call finds again.
fn touched(changes: &Changes) -> Option<PageRange>
    ensures { result ≡ touched_of changes.now }
{
    match changes.host {
        Some(change) => Some(change.range),
        None => changes.moved,
    }
}

/// Whether a pool has too few frames for the changes.
fn is_short(
    alloc: Global,
    depth: u64,
    used: &GhostUsed,
    changes: &Changes,
) -> Result<bool, AllocError>
    requires depth { depth ≤ 3 }
    requires kept { IsKeptUsed used.now }
    requires small { AreSmallChanges changes.now }
    ensures { IfOk result (λ b. b ≡ is_short_of depth changes.now (used_in used.now)) }
{
    let is_shared_short = shared::is_short(alloc, depth, &used.shared, changes)?;
    let is_guest_short = guest::is_short(alloc, depth, &used.guest, changes)?;
    Ok(is_shared_short || is_guest_short)
}

/// Makes all changes except those of rows.
fn change(
    alloc: Global,
    depth: u64,
    used: &mut GhostUsed,
    changes: &Changes,
) -> Result<(), AllocError>
    requires depth { depth ≤ 3 }
    requires kept { IsKeptUsed used.old }
    requires small { AreSmallChanges changes.now }
    requires slots { FitsSlots (length used.old.vms.items) changes.now.slot }
    ensures used { OnOk result (used_in used.new ≡ changed_of depth changes.now (used_in used.old)) }
    ensures kept { OnOk result (IsKeptUsed used.new) }
    ensures count { OnOk result (length used.new.vms.items ≡ length used.old.vms.items) }
{
    vms::change(alloc, &mut used.vms, changes.slot)?;
    shared::change(alloc, depth, &mut used.shared, changes)?;
    guest::change(alloc, depth, &mut used.guest, changes)?;
    used.own = cpu::changed(used.own, changes.cpu);
    Ok(())
}

/// All changes are made, and the rows of the touched memory frames are found again.
fn make(
    alloc: Global,
    layout: &Layout,
    cpu: u64,
    slot: Option<u64>,
    used: &mut GhostUsed,
    changes: &Changes,
) -> Result<(), AllocError>
    requires kept { IsKeptUsed used.old }
    requires slot { IsLowSlot slot }
    requires small { AreSmallChanges changes.now }
    requires slots { FitsSlots (length used.old.vms.items) changes.now.slot }
    ensures used { OnOk result
        (used_in used.new
        ≡ used_made (layout_of layout.now) slot cpu changes.now (used_in used.old)) }
    ensures kept { OnOk result (IsKeptUsed used.new) }
    ensures count { OnOk result (length used.new.vms.items ≡ length used.old.vms.items) }
{
    change(alloc, depth(layout), used, changes)?;
    find_rows(
        layout,
        &mut used.shared,
        slot,
        &used.guest,
        touched(changes),
        cpu,
        &used.own,
    )
}

/// The answer of a call: the refusal of the first test that fails, or all changes of its rule. If the allocator refuses
/// memory, anything may have changed.
pub(crate) fn answer(
    alloc: Global,
    layout: &Layout,
    cpu: u64,
    slot: Option<u64>,
    used: &mut GhostUsed,
    step: Step,
) -> Result<Reply, AllocError>
    requires cpu { cpu < layout.now.config.cpus }
    requires kept { IsKeptUsed used.old }
    requires slot { IsLowSlot slot }
    requires vms { uses_vms_of (names step) ≡ true → length used.old.vms.items ≡ 64 }
    requires generation { HasNextGeneration used.old.own.ticket step }
    ensures answer { IfOk result
        (λ reply. (reply, used_in used.new)
        ≡ answer_of (layout_of layout.now) cpu slot step (used_in used.old)) }
    ensures kept { OnOk result (IsKeptUsed used.new) }
    ensures count { OnOk result (length used.new.vms.items ≡ length used.old.vms.items) }
{
    let changes = match decide(layout, cpu, slot, used, step) {
        Ok(changes) => changes,
        Err(why) => return Ok(Reply::Refused(why)),
    };
    if is_short(alloc, depth(layout), used, &changes)? {
        return Ok(Reply::Refused(Refusal::NoPool));
    }
    make(alloc, layout, cpu, slot, used, &changes)?;
    Ok(Reply::Done(changes.value))
}
