//! The test of a state.
ghost use Rattle.std.specs.Prelude.{◌≡◌, ◌↔◌, None, All, IfSome, length};
ghost use Rattle.ghost_trees.specs.KeptTrees.{IsKeptTree};
ghost use Rattle.ghost_spec.specs.States.{contents_in};
ghost use Rattle.ghost_sound.specs.Sound.{IsSound, IsUnsound};

use crate::finding::Unsound;
use crate::leaves::Side;
use crate::pairs::{Pair, twice};
use crate::share::{Stray, first_stray};
use ghost_spec::lists::GhostLists;

/// Why a state isn't sound, from its maps only: two owners of a frame are reported before two borrowers, and these
/// before a borrower of a frame that nobody shares. It takes no memory, and time by the square of the number of runs.
pub fn unsound(state: &GhostLists) -> Option<Unsound>
    requires host { IsKeptTree state.now.shared.host }
    requires hyp { IsKeptTree state.now.shared.hyp }
    requires guests { All (λ g. IsKeptTree g.tree) state.now.guests.items }
    requires count { length state.now.guests.items ≡ 64 }
    ensures none { (result ≡ None) ↔ IsSound (contents_in state.now) }
    ensures told { IfSome result (IsUnsound (contents_in state.now)) }
{
    if let Some(Pair { frame, one, other }) = twice(Side::Owns, state) {
        return Some(Unsound::TwoOwners { frame, one, other });
    }
    if let Some(Pair { frame, one, other }) = twice(Side::Borrows, state) {
        return Some(Unsound::TwoBorrowers { frame, one, other });
    }
    match first_stray(state) {
        Some(Stray { frame, borrower }) => Some(Unsound::NoShare { frame, borrower }),
        None => None,
    }
}
