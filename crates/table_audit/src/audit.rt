//! The audit.
ghost use Rattle.std.specs.Prelude.{◌≡◌, ◌↔◌, ℕ, None, All, IfOk, IfSome, MatchOption, length};
ghost use Rattle.page_state.specs.LayoutView.{layout_of};
ghost use Rattle.reference_model.specs.help.Conditions.{Legal};
ghost use Rattle.ghost_trees.specs.KeptTrees.{IsKeptTree};
ghost use Rattle.ghost_judge.specs.Audits.{AreMapsKept};
ghost use Rattle.ghost_spec.specs.Filled.{HasTablesApart};
ghost use Rattle.ghost_spec.specs.States.{contents_in, IsKept};
ghost use Rattle.ghost_legal.specs.Blocks.{TreesHaveFirstBlocks};
ghost use Rattle.ghost_legal.specs.Illegals.{IsIllegal};
ghost use Rattle.table_audit.specs.Found.{found_with};
ghost use Rattle.table_audit.specs.Audited.{guest_table, AgreesWith, IsFirstFinding, IsFirstTable, IsGuestTable, IsUnlawful, IsWell, TablesAgree};

use crate::finding::Finding;
use crate::tables::in_tables;
use crate::walked::walked_lists;
use ghost_judge::audit::audit_lists;
use ghost_judge::disagreement::TreeOf;
use ghost_legal::{Illegal, illegal};
use ghost_sound::unsound;
use ghost_spec::lists::GhostLists;
use ghost_spec::parts::GhostGuest;
use ghost_spec::state::Ghost;
use ghost_trees::tree::Tree;
use std::alloc::{AllocError, Global};

/// Compares a kept state with trees that were found, those of the host, of the hypervisor and of the guests, by slot:
/// the maps in this order, the owner rows, which follow from the trees, and then the tables. None if all agree and the
/// state is legal; else the first difference; if there is none, why the maps aren't sound or the state isn't legal.
pub fn audited(alloc: Global, kept: &Ghost, trees: &[Tree]) -> Result<Option<Finding>, AllocError>
    requires count { length trees.now ≡ 66 }
    requires trees { All IsKeptTree trees.now }
    requires apart { HasTablesApart kept.now }
    ensures none { IfOk result
        (λ o. (o ≡ None)
        ↔ IsWell (layout_of kept.now.layout) (contents_in kept.now)
        (found_with kept.now trees.now)) }
    ensures first { IfOk result
        (λ o. IfSome o
        (IsFirstFinding (layout_of kept.now.layout) (contents_in kept.now)
        (found_with kept.now trees.now))) }
{
    let walked = walked_lists(alloc, kept, trees)?;
    let found = compared(alloc, kept.lists(), &walked);
    drop(walked);
    found
}

/// The first difference of two states; without one, why the first isn't legal.
fn compared(
    alloc: Global,
    kept: &GhostLists,
    walked: &GhostLists,
) -> Result<Option<Finding>, AllocError>
    requires maps { AreMapsKept kept.now }
    requires kept { IsKept kept.now }
    requires apart { HasTablesApart kept.now }
    requires walked { AreMapsKept walked.now }
    ensures none { IfOk result
        (λ o. (o ≡ None)
        ↔ IsWell (layout_of kept.now.layout) (contents_in kept.now)
        (contents_in walked.now)) }
    ensures first { IfOk result
        (λ o. IfSome o
        (IsFirstFinding (layout_of kept.now.layout) (contents_in kept.now)
        (contents_in walked.now))) }
{
    match difference(kept, walked) {
        Some(found) => Ok(Some(found)),
        None => unlawful(alloc, kept),
    }
}

/// Why a state isn't legal.
fn unlawful(alloc: Global, state: &GhostLists) -> Result<Option<Finding>, AllocError>
    requires maps { AreMapsKept state.now }
    requires kept { IsKept state.now }
    requires apart { HasTablesApart state.now }
    ensures none { IfOk result (λ o. (o ≡ None) ↔ Legal (layout_of state.now.layout) (contents_in state.now)) }
    ensures told { IfOk result
        (λ o. IfSome o (IsUnlawful (layout_of state.now.layout) (contents_in state.now))) }
{
    match illegal(alloc, state)? {
        Some(why) => Ok(Some(by_maps_first(state, why))),
        None => Ok(None),
    }
}

/// Why a state isn't legal: from its maps if these aren't sound.
fn by_maps_first(state: &GhostLists, why: Illegal) -> Finding
    requires maps { AreMapsKept state.now }
    requires kept { IsKept state.now }
    requires blocks { TreesHaveFirstBlocks state.now }
    requires not { Legal (layout_of state.now.layout) (contents_in state.now) → ⊥ }
    requires told { IsIllegal state.now why }
    ensures { IsUnlawful (layout_of state.now.layout) (contents_in state.now) result }
{
    match unsound(state) {
        Some(why) => Finding::Unsound(why),
        None => Finding::Illegal(why),
    }
}

/// The first difference of two states.
fn difference(kept: &GhostLists, walked: &GhostLists) -> Option<Finding>
    requires kept { AreMapsKept kept.now }
    requires walked { AreMapsKept walked.now }
    ensures none { (result ≡ None) ↔ AgreesWith (contents_in kept.now) (contents_in walked.now) }
    ensures first { IfSome result
        (IsFirstFinding (layout_of kept.now.layout) (contents_in kept.now)
        (contents_in walked.now)) }
{
    match audit_lists(kept, walked) {
        Some(differs) => Some(Finding::Differs(differs)),
        None => first_table(kept, walked),
    }
}

/// The first difference of the tables: the host's, the hypervisor's, those of the guests by slot.
fn first_table(kept: &GhostLists, walked: &GhostLists) -> Option<Finding>
    requires kept { length kept.now.guests.items ≡ 64 }
    requires walked { length walked.now.guests.items ≡ 64 }
    ensures { MatchOption result (TablesAgree (contents_in kept.now) (contents_in walked.now))
        (IsFirstTable (contents_in kept.now) (contents_in walked.now)) }
{
    if let Some(host) = in_tables(
        TreeOf::Host,
        kept.shared.host.tables.as_slice(),
        walked.shared.host.tables.as_slice(),
    ) {
        return Some(host);
    }
    if let Some(hyp) = in_tables(
        TreeOf::Hyp,
        kept.shared.hyp.tables.as_slice(),
        walked.shared.hyp.tables.as_slice(),
    ) {
        return Some(hyp);
    }
    first_guest_table(kept.guests.as_slice(), walked.guests.as_slice())
}

/// The first difference of the guests' tables, by slot.
fn first_guest_table(kept: &[GhostGuest], walked: &[GhostGuest]) -> Option<Finding>
    requires kept { length kept.now ≡ 64 }
    requires walked { length walked.now ≡ 64 }
    ensures { MatchOption result ((v : ℕ) → guest_table kept.now v ≡ guest_table walked.now v)
        (IsGuestTable kept.now walked.now) }
{
    for v in 0..64usize {
        if let Some(guest) = in_tables(
            TreeOf::Guest(v as u64),
            kept[v].tree.tables.as_slice(),
            walked[v].tree.tables.as_slice(),
        ) {
            return Some(guest);
        }
    }
    None
}
