//! The test of a state.
ghost use Rattle.std.specs.Prelude.{◌≡◌, ◌↔◌, None, All, IfOk, IfSome, IsPermutation, MatchOption};
ghost use Rattle.std.specs.List.Sorted.{IsNonDecreasingBy};
ghost use Rattle.page_state.specs.LayoutView.{layout_of};
ghost use Rattle.reference_model.specs.help.Conditions.{Legal};
ghost use Rattle.freedoms.specs.AnyTrees.{AreFramesLegal, IsLegalButForTrees};
ghost use Rattle.ghost_spec.specs.States.{contents_in, IsKept};
ghost use Rattle.ghost_legal.specs.Blocks.{TreesHaveFirstBlocks};
ghost use Rattle.ghost_legal.specs.Frames.{IsHeldList};
ghost use Rattle.ghost_legal.specs.declared.finding.Illegal.TheVariants.{FarFrame, HeldTwice};
ghost use Rattle.ghost_legal.specs.Illegals.{FitsFrames, FitsPages, FitsParts, IsIllegal, IsIllegalButForTrees};
ghost use Rattle.ghost_legal.specs.Listed.{all_held_in};

use crate::finding::{Facts, Illegal};
use crate::frames::first_frame;
use crate::guests::{first_below, first_guest, first_guest_page};
use crate::held::{Held, first_far, first_twice, held_in_order};
use crate::trees::{first_table, first_tree};
use ghost_slots::first_slot_fault;
use ghost_spec::lists::GhostLists;
use std::alloc::{AllocError, Global};

/// The first fault of slots and guests.
fn first_part(state: &GhostLists) -> Option<Illegal>
    requires { IsKept state.now }
    ensures { MatchOption result (FitsParts state.now) (IsIllegalButForTrees state.now) }
{
    match first_slot_fault(state) {
        Some(fault) => Some(Illegal::Slots(fault)),
        None => first_guest(state),
    }
}

/// The first fault of the places of tables and of the pages of guests and the hypervisor.
fn first_page(state: &GhostLists) -> Option<Illegal>
    requires kept { IsKept state.now }
    requires parts { FitsParts state.now }
    ensures { MatchOption result (FitsPages state.now) (IsIllegalButForTrees state.now) }
{
    if let Some(found) = first_table(state) {
        return Some(found);
    }
    if let Some(found) = first_guest_page(state) {
        return Some(found);
    }
    first_below(state)
}

/// A piece that lies where no memory can be.
fn far_frame(far: Held) -> Illegal
    ensures { result ≡ FarFrame far.frames.first.0 far.holder }
{
    Illegal::FarFrame {
        frame: far.frames.first.0,
        holder: far.holder,
    }
}

/// Two pieces that have a frame.
fn held_twice(one: Held, other: Held) -> Illegal
    ensures { result ≡ HeldTwice other.frames.first.0 one.holder other.holder }
{
    Illegal::HeldTwice {
        frame: other.frames.first.0,
        one: one.holder,
        other: other.holder,
    }
}

/// The first fault of frames, if each is held at most once.
fn first_unfit(state: &GhostLists, held: &[Held]) -> Option<Illegal>
    requires kept { IsKept state.now }
    requires tables { TreesHaveFirstBlocks state.now }
    requires pages { FitsPages state.now }
    requires all { IsPermutation (all_held_in state.now) held.now }
    requires once { IsHeldList held.now }
    ensures { MatchOption result (AreFramesLegal (layout_of state.now.layout) (contents_in state.now))
        (IsIllegalButForTrees state.now) }
{
    match first_frame(state, held) {
        Some((frame, facts)) => Some(Illegal::Frame { frame, facts }),
        None => None,
    }
}

/// The faults of holders, in order, and of frames.
fn first_of(state: &GhostLists, held: &[Held]) -> Option<Illegal>
    requires kept { IsKept state.now }
    requires tables { TreesHaveFirstBlocks state.now }
    requires pages { FitsPages state.now }
    requires all { IsPermutation (all_held_in state.now) held.now }
    requires rise { IsNonDecreasingBy (λ h. h.frames.first.0) held.now }
    ensures { MatchOption result (AreFramesLegal (layout_of state.now.layout) (contents_in state.now))
        (IsIllegalButForTrees state.now) }
{
    if let Some(far) = first_far(held) {
        return Some(far_frame(far));
    }
    if let Some((one, other)) = first_twice(held) {
        return Some(held_twice(one, other));
    }
    first_unfit(state, held)
}

/// The faults of holders and of frames.
fn first_held(alloc: Global, state: &GhostLists) -> Result<Option<Illegal>, AllocError>
    requires kept { IsKept state.now }
    requires tables { TreesHaveFirstBlocks state.now }
    requires pages { FitsPages state.now }
    ensures { IfOk result
        (λ o. MatchOption o
        (AreFramesLegal (layout_of state.now.layout) (contents_in state.now))
        (IsIllegalButForTrees state.now)) }
{
    let held = held_in_order(alloc, state)?;
    Ok(first_of(state, held.as_slice()))
}

/// The first fault, apart from the tables that trees need.
fn first_fault(alloc: Global, state: &GhostLists) -> Result<Option<Illegal>, AllocError>
    requires kept { IsKept state.now }
    requires tables { TreesHaveFirstBlocks state.now }
    ensures { IfOk result (λ o. MatchOption o (FitsFrames state.now) (IsIllegalButForTrees state.now)) }
{
    if let Some(found) = first_part(state) {
        return Ok(Some(found));
    }
    if let Some(found) = first_page(state) {
        return Ok(Some(found));
    }
    first_held(alloc, state)
}

/// Why a state isn't legal, apart from the tables that its trees need: for a hypervisor with tables at other blocks
/// than the coarsest trees have. It takes time by n log n of the number of runs, tables and free frames.
pub fn illegal_but_for_trees(
    alloc: Global,
    state: &GhostLists,
) -> Result<Option<Illegal>, AllocError>
    requires kept { IsKept state.now }
    requires tables { TreesHaveFirstBlocks state.now }
    ensures legal { IfOk result
        (λ o. (o ≡ None)
        ↔ IsLegalButForTrees (layout_of state.now.layout) (contents_in state.now)) }
    ensures told { IfOk result (λ o. IfSome o (IsIllegalButForTrees state.now)) }
{
    let _regions = state.layout.map.regions();
    first_fault(alloc, state)
}

/// Why a state isn't legal. It takes time by n log n of the number of runs, tables and free frames.
pub fn illegal(alloc: Global, state: &GhostLists) -> Result<Option<Illegal>, AllocError>
    requires kept { IsKept state.now }
    requires tables { TreesHaveFirstBlocks state.now }
    ensures legal { IfOk result (λ o. (o ≡ None) ↔ Legal (layout_of state.now.layout) (contents_in state.now)) }
    ensures told { IfOk result (λ o. IfSome o (IsIllegal state.now)) }
{
    let _regions = state.layout.map.regions();
    if let Some(found) = first_fault(alloc, state)? {
        return Ok(Some(found));
    }
    first_tree(alloc, state)
}
