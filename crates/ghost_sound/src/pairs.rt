//! Two entries of one frame.
ghost use Rattle.std.specs.Prelude.{◌≡◌, ◌<◌, ℕ, All, Any, MatchOption};
ghost use Rattle.ghost_trees.specs.Small.{AreSmall, IsSmall};
ghost use Rattle.ghost_spec.specs.States.{contents_in};
ghost use Rattle.ghost_sound.specs.inner.Leaves.{runs_in, HasKeptTrees};
ghost use Rattle.ghost_sound.specs.inner.Pairs.{AreOne, IsHeldOnce, IsMeeting, IsMet, IsMetBy, IsTwice, MeetsNone};

use crate::finding::Place;
use crate::leaves::{Side, TREES, first_frame, runs_of};
use ghost_spec::lists::GhostLists;
use page_state::{Page, Run};

/// Two entries of a frame.
#[derive(Clone, Copy, PartialEq)]
pub(crate) struct Pair {
    pub frame: u64,
    pub one: Place,
    pub other: Place,
}

/// The first frame that two runs map, each at a page of its own.
fn meeting(side: Side, tree: u64, run: Run, other_tree: u64, other: Run) -> Option<Pair>
    requires run { IsSmall run }
    requires other { IsSmall other }
    ensures { MatchOption result (AreOne side tree run other_tree other)
        (IsMeeting side tree run other_tree other) }
{
    let Some(a) = first_frame(side, run) else {
        return None;
    };
    let Some(b) = first_frame(side, other) else {
        return None;
    };
    let frame = a.max(b);
    if frame - a >= run.pages.count {
        return None;
    }
    if frame - b >= other.pages.count {
        return None;
    }
    let page = run.pages.first.0 + (frame - a);
    let other_page = other.pages.first.0 + (frame - b);
    if tree == other_tree && page == other_page {
        return None;
    }
    Some(Pair {
        frame,
        one: Place {
            tree,
            page: Page(page),
        },
        other: Place {
            tree: other_tree,
            page: Page(other_page),
        },
    })
}

/// The same of a run and those of a tree.
fn meeting_in(side: Side, tree: u64, run: Run, other_tree: u64, runs: &[Run]) -> Option<Pair>
    requires run { IsSmall run }
    requires runs { AreSmall runs.now }
    ensures { MatchOption result (All (AreOne side tree run other_tree) runs.now)
        (λ p. Any (λ s. IsMeeting side tree run other_tree s p) runs.now) }
{
    for i in 0..runs.len() {
        if let Some(found) = meeting(side, tree, run, other_tree, runs[i]) {
            return Some(found);
        }
    }
    None
}

/// The same of a run and those of all trees.
fn meeting_any(side: Side, tree: u64, run: Run, state: &GhostLists) -> Option<Pair>
    requires run { IsSmall run }
    requires kept { HasKeptTrees state.now }
    ensures { MatchOption result (MeetsNone side state.now tree run) (IsMetBy side state.now tree run) }
{
    if first_frame(side, run).is_none() {
        return None;
    }
    for other in 0..TREES {
        if let Some(found) = meeting_in(side, tree, run, other, runs_of(state, other)) {
            return Some(found);
        }
    }
    None
}

/// The same of some runs of a tree and those of all trees.
fn twice_in(side: Side, tree: u64, runs: &[Run], state: &GhostLists) -> Option<Pair>
    requires runs { AreSmall runs.now }
    requires kept { HasKeptTrees state.now }
    ensures { MatchOption result (All (MeetsNone side state.now tree) runs.now)
        (λ p. Any (λ r. IsMetBy side state.now tree r p) runs.now) }
{
    for i in 0..runs.len() {
        if let Some(found) = meeting_any(side, tree, runs[i], state) {
            return Some(found);
        }
    }
    None
}

/// The same of all trees.
fn twice_found(side: Side, state: &GhostLists) -> Option<Pair>
    requires { HasKeptTrees state.now }
    ensures { MatchOption result
        ((t : ℕ) → t < 66 → All (MeetsNone side state.now t) (runs_in state.now t))
        (IsMet side state.now) }
{
    for tree in 0..TREES {
        if let Some(found) = twice_in(side, tree, runs_of(state, tree), state) {
            return Some(found);
        }
    }
    None
}

/// Two entries that are leaves of one frame, on one side.
pub(crate) fn twice(side: Side, state: &GhostLists) -> Option<Pair>
    requires { HasKeptTrees state.now }
    ensures { MatchOption result (IsHeldOnce side (contents_in state.now))
        (IsTwice side (contents_in state.now)) }
{
    twice_found(side, state)
}
