//! The test of any lists.
ghost use Rattle.std.specs.Prelude.{◌≡◌, ◌↔◌, None, IfOk, IfSome};
ghost use Rattle.page_state.specs.LayoutView.{layout_of};
ghost use Rattle.reference_model.specs.help.Conditions.{Legal};
ghost use Rattle.ghost_spec.specs.Filled.{HasTablesApart};
ghost use Rattle.ghost_spec.specs.States.{contents_in, IsKept};
ghost use Rattle.ghost_legal.specs.Unlawful.{IsIllegalState, IsUnlawful, MakesLegal};

use crate::finding::{Illegal, Unlawful};
use crate::state::illegal;
use ghost_spec::filled::GhostFault;
use ghost_spec::lists::GhostLists;
use ghost_spec::state::Ghost;
use std::alloc::{AllocError, Global};

/// Why a state isn't legal.
fn illegal_state(alloc: Global, state: &Ghost) -> Result<Option<Illegal>, AllocError>
    requires { HasTablesApart state.now }
    ensures legal { IfOk result (λ o. (o ≡ None) ↔ Legal (layout_of state.now.layout) (contents_in state.now)) }
    ensures told { IfOk result
        (λ o. IfSome o (IsIllegalState (layout_of state.now.layout) (contents_in state.now))) }
{
    illegal(alloc, state.lists())
}

/// Why lists, in any order, make no legal state: the first fault of lists that make no state, as `Ghost::of` tells it,
/// or why the state that they make isn't legal.
pub fn illegal_lists(alloc: Global, lists: &GhostLists) -> Result<Option<Unlawful>, AllocError>
    ensures legal { IfOk result (λ o. (o ≡ None) ↔ MakesLegal lists.now) }
    ensures told { IfOk result (λ o. IfSome o (IsUnlawful lists.now)) }
{
    match Ghost::of(alloc, lists) {
        Ok(state) => {
            let found = illegal_state(alloc, &state);
            drop(state);
            Ok(found?.map(Unlawful::Illegal))
        }
        Err(GhostFault::NoMemory) => Err(AllocError),
        Err(fault) => Ok(Some(Unlawful::NoState(fault))),
    }
}
