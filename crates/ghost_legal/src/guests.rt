//! Whether guests are whole: an Empty one has nothing, any other a root, and their pages are leaves of memory.
ghost use Rattle.std.specs.Prelude.{◌≡◌, ℕ, ◌<◌, ◌≤◌, ◌↔◌, None, IsTrue, All, MatchOption, length};
ghost use Rattle.page_state.specs.Runs.{map_of, IsCoarsest};
ghost use Rattle.page_state.specs.declared.entry.Entry.TheVariants.{Unmapped};
ghost use Rattle.ghost_spec.specs.States.{contents_in, IsKept};
ghost use Rattle.ghost_trees.specs.Small.{AreSmall, IsSmall};
ghost use Rattle.page_state.specs.LayoutView.{layout_of};
ghost use Rattle.reference_model.specs.help.Conditions.{SlotsFit};
ghost use Rattle.ghost_legal.specs.AllHeld.{GuestPagesFit};
ghost use Rattle.ghost_legal.specs.Illegals.{FitsPages, FitsParts, FitsTables, HaveFittingPages, IsIllegalButForTrees};
ghost use Rattle.ghost_legal.specs.Pages.{HaveGoodRuns, IsBadEntry, IsBadPage, IsGoodRun, IsBlank, IsWhole};

use crate::condition::HYP_DISTANCE;
use crate::finding::Illegal;
use crate::trees::depth_of;
use call_table::VmKind;
use descriptor::Kind;
use ghost_spec::lists::GhostLists;
use ghost_spec::parts::{GhostGuest, GhostPhase};
use ghost_trees::tree::table_at;
use page_state::{Run, Target};

/// Whether a guest has nothing.
fn is_blank(guest: &GhostGuest) -> bool
    ensures { IsTrue result ↔ IsBlank guest.now }
{
    if guest.generation != 0 {
        return false;
    }
    match guest.kind {
        VmKind::Protected => return false,
        VmKind::Plain => (),
    }
    if guest.tree.runs.len() != 0 {
        return false;
    }
    if guest.tree.tables.len() != 0 {
        return false;
    }
    guest.free.len() == 0
}

/// Whether it is Empty and has nothing, or has a root.
fn is_whole(guest: &GhostGuest, depth: u64) -> bool
    requires { depth ≤ 3 }
    ensures { IsTrue result ↔ IsWhole depth guest.now }
{
    match guest.phase {
        GhostPhase::Empty => is_blank(guest),
        _ => table_at(guest.tree.tables.as_slice(), (depth + 1, 0)).is_some(),
    }
}

/// The first guest that isn't.
pub(crate) fn first_guest(state: &GhostLists) -> Option<Illegal>
    requires kept { IsKept state.now }
    requires slots { SlotsFit (contents_in state.now) }
    ensures { MatchOption result (FitsParts state.now) (IsIllegalButForTrees state.now) }
{
    let depth = depth_of(state);
    let guests = state.guests.as_slice();
    for slot in 0..guests.len() {
        if !is_whole(&guests[slot], depth) {
            return Some(Illegal::Guest { slot: slot as u64 });
        }
    }
    None
}

/// The first page of a run that is no leaf of memory below a page.
fn bad_page(run: Run, pages: u64) -> Option<u64>
    requires small { IsSmall run }
    requires some { 0 < run.pages.count }
    ensures { MatchOption result (IsGoodRun pages run) (IsBadPage pages run) }
{
    match run.target {
        Target::Leaf { kind, .. } => match kind {
            Kind::Normal => {
                if run.pages.first.0 + run.pages.count <= pages {
                    return None;
                }
                Some(run.pages.first.0.max(pages))
            }
            Kind::Device => Some(run.pages.first.0),
        },
        _ => Some(run.pages.first.0),
    }
}

/// The first page of a guest's runs that is.
fn first_run(runs: &[Run], pages: u64) -> Option<u64>
    requires small { AreSmall runs.now }
    requires coarsest { IsCoarsest runs.now }
    ensures { MatchOption result (All (IsGoodRun pages) runs.now)
        (λ p. IsBadEntry pages p (map_of runs.now p)) }
{
    for i in 0..runs.len() {
        if let Some(page) = bad_page(runs[i], pages) {
            return Some(page);
        }
    }
    None
}

/// The first page of a guest that is no leaf of memory, or is past the input pages.
pub(crate) fn first_guest_page(state: &GhostLists) -> Option<Illegal>
    requires kept { IsKept state.now }
    requires tables { FitsTables state.now }
    ensures { MatchOption result (HaveFittingPages state.now) (IsIllegalButForTrees state.now) }
{
    let pages = state.layout.geometry.pages();
    let guests = state.guests.as_slice();
    for v in 0..guests.len() {
        if let Some(page) = first_run(guests[v].tree.runs.as_slice(), pages) {
            let slot = v as u64;
            return Some(Illegal::GuestPage { slot, page });
        }
    }
    None
}

/// The first page that runs map, if it is below a page.
fn mapped_below(runs: &[Run], low: u64) -> Option<u64>
    requires { IsCoarsest runs.now }
    ensures { MatchOption result ((p : ℕ) → p < low → map_of runs.now p ≡ Unmapped)
        (λ p. (p < low) × (map_of runs.now p ≡ Unmapped → ⊥)) }
{
    if runs.len() == 0 {
        return None;
    }
    let first = runs[0].pages.first.0;
    if first < low {
        return Some(first);
    }
    None
}

/// The first page of the hypervisor below those of frames.
pub(crate) fn first_below(state: &GhostLists) -> Option<Illegal>
    requires kept { IsKept state.now }
    requires tables { FitsTables state.now }
    requires runs { HaveGoodRuns state.now.guests.items }
    requires guests { GuestPagesFit (layout_of state.now.layout) (contents_in state.now) }
    ensures { MatchOption result (FitsPages state.now) (IsIllegalButForTrees state.now) }
{
    match mapped_below(state.shared.hyp.runs.as_slice(), HYP_DISTANCE) {
        Some(page) => Some(Illegal::HypPage { page }),
        None => None,
    }
}
