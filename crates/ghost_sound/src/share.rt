//! Borrowed frames, and whether each is shared.
ghost use Rattle.std.specs.Prelude.{◌≡◌, ◌<◌, ℕ, All, Any, MatchOption};
ghost use Rattle.ghost_trees.specs.Small.{AreSmall, IsSmall};
ghost use Rattle.ghost_spec.specs.States.{contents_in};
ghost use Rattle.ghost_sound.specs.inner.Leaves.{runs_in, HasKeptTrees};
ghost use Rattle.ghost_sound.specs.Sound.{HasShares};
ghost use Rattle.ghost_sound.specs.inner.Share.{AllShared, AreShared, EndsAt, HasNot, IsStray, IsStrayIn, IsSharedTo, IsUnshared, IsUnsharedOn, SharesNone};

use crate::finding::Place;
use crate::leaves::{Side, TREES, first_frame, runs_of};
use ghost_spec::lists::GhostLists;
use page_state::{Page, Run};

/// A borrowed frame, and the tree and page that borrow it.
#[derive(Clone, Copy, PartialEq)]
pub(crate) struct Stray {
    pub frame: u64,
    pub borrower: Place,
}

/// The frame after the last of a run that shares the frame.
fn end_on(run: Run, frame: u64) -> Option<u64>
    requires { IsSmall run }
    ensures { MatchOption result (HasNot frame run) (λ end. EndsAt frame end run) }
{
    let Some(first) = first_frame(Side::Shares, run) else {
        return None;
    };
    if frame < first {
        return None;
    }
    if frame - first >= run.pages.count {
        return None;
    }
    Some(first + run.pages.count)
}

/// The same of the first of some runs that shares the frame.
fn end_in(runs: &[Run], frame: u64) -> Option<u64>
    requires { AreSmall runs.now }
    ensures { MatchOption result (All (HasNot frame) runs.now) (λ end. Any (EndsAt frame end) runs.now) }
{
    for i in 0..runs.len() {
        if let Some(end) = end_on(runs[i], frame) {
            return Some(end);
        }
    }
    None
}

/// The same of all trees.
fn shared_to(state: &GhostLists, frame: u64) -> Option<u64>
    requires { HasKeptTrees state.now }
    ensures { MatchOption result (SharesNone state.now frame) (IsSharedTo state.now frame) }
{
    for tree in 0..TREES {
        if let Some(end) = end_in(runs_of(state, tree), frame) {
            return Some(end);
        }
    }
    None
}

/// The first of the frames from one up to another that nobody shares.
fn unshared_from(state: &GhostLists, first: u64, end: u64) -> Option<u64>
    requires { HasKeptTrees state.now }
    ensures { MatchOption result (AreShared state.now first end) (IsUnshared state.now first end) }
{
    let mut at = first;
    while at < end {
        match shared_to(state, at) {
            Some(next) => at = next,
            None => return Some(at),
        }
    }
    None
}

/// The first borrowed frame of a run that nobody shares.
fn stray_on(state: &GhostLists, tree: u64, run: Run) -> Option<Stray>
    requires run { IsSmall run }
    requires kept { HasKeptTrees state.now }
    ensures { MatchOption result (AllShared state.now run) (λ a. IsUnsharedOn state.now tree a run) }
{
    let Some(first) = first_frame(Side::Borrows, run) else {
        return None;
    };
    match unshared_from(state, first, first + run.pages.count) {
        Some(frame) => Some(Stray {
            frame,
            borrower: Place {
                tree,
                page: Page(run.pages.first.0 + (frame - first)),
            },
        }),
        None => None,
    }
}

/// The same of some runs of a tree.
fn stray_in(state: &GhostLists, tree: u64, runs: &[Run]) -> Option<Stray>
    requires runs { AreSmall runs.now }
    requires kept { HasKeptTrees state.now }
    ensures { MatchOption result (All (AllShared state.now) runs.now)
        (λ a. Any (IsUnsharedOn state.now tree a) runs.now) }
{
    for i in 0..runs.len() {
        if let Some(found) = stray_on(state, tree, runs[i]) {
            return Some(found);
        }
    }
    None
}

/// The same of all trees.
fn stray_found(state: &GhostLists) -> Option<Stray>
    requires { HasKeptTrees state.now }
    ensures { MatchOption result ((t : ℕ) → t < 66 → All (AllShared state.now) (runs_in state.now t))
        (IsStrayIn state.now) }
{
    for tree in 0..TREES {
        if let Some(found) = stray_in(state, tree, runs_of(state, tree)) {
            return Some(found);
        }
    }
    None
}

/// A borrowed frame that nobody shares.
pub(crate) fn first_stray(state: &GhostLists) -> Option<Stray>
    requires { HasKeptTrees state.now }
    ensures { MatchOption result (HasShares (contents_in state.now)) (IsStray (contents_in state.now)) }
{
    stray_found(state)
}
