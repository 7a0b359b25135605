//! The runs of all trees, and those whose leaves count.
ghost use Rattle.std.specs.Prelude.{◌≡◌, ◌<◌, ◌≤◌, ◌^◌, ◌+◌, All, IfSome, length};
ghost use Rattle.ghost_trees.specs.KeptTrees.{IsKeptTree};
ghost use Rattle.ghost_trees.specs.Small.{AreSmall, IsSmall};
ghost use Rattle.ghost_sound.specs.inner.Leaves.{counts as counts_of, first_frame as first_frame_of, runs_in, HasKeptTrees};

use ghost_spec::lists::GhostLists;
use page_state::{Run, State, Target};

/// Which leaves count.
#[derive(Clone, Copy, PartialEq)]
pub(crate) enum Side {
    /// The leaves in states Owned and SharedOwned.
    Owns,
    /// The leaves in state SharedBorrowed.
    Borrows,
    /// The leaves in state SharedOwned.
    Shares,
}

/// Whether leaves in a state count.
fn counts(side: Side, state: State) -> bool
    ensures { result ≡ counts_of side state }
{
    match side {
        Side::Owns => match state {
            State::Owned => true,
            State::SharedOwned => true,
            State::SharedBorrowed => false,
        },
        Side::Borrows => match state {
            State::Owned => false,
            State::SharedOwned => false,
            State::SharedBorrowed => true,
        },
        Side::Shares => match state {
            State::Owned => false,
            State::SharedOwned => true,
            State::SharedBorrowed => false,
        },
    }
}

/// The first frame of a run, if its leaves count.
pub(crate) fn first_frame(side: Side, run: Run) -> Option<u64>
    requires { IsSmall run }
    ensures value { result ≡ first_frame_of side run }
    ensures low { IfSome result (λ f. f + run.pages.count ≤ 2 ^ 63) }
{
    match run.target {
        Target::Leaf { frame, state, .. } => {
            if counts(side, state) {
                Some(frame.0)
            } else {
                None
            }
        }
        _ => None,
    }
}

/// The trees of a state.
pub(crate) const TREES: u64 = 66;

/// The runs of the tree of a number.
pub(crate) fn runs_of(state: &GhostLists, tree: u64) -> &[Run]
    requires kept { HasKeptTrees state.now }
    requires tree { tree < 66 }
    ensures value { result.now ≡ runs_in state.now tree }
    ensures small { AreSmall result.now }
{
    if tree == 0 {
        return state.shared.host.runs.as_slice();
    }
    if tree == 1 {
        return state.shared.hyp.runs.as_slice();
    }
    state.guests[(tree - 2) as usize].tree.runs.as_slice()
}
