//! Whether a state is legal.
ghost use Rattle.std.specs.Prelude.{◌≡◌, ◌↔◌, Bool, None, IfErr, IfOk, IfSome};
ghost use Rattle.page_state.specs.LayoutView.{layout_of};
ghost use Rattle.c_states.specs.Views.{lists_from_c};
ghost use Rattle.ghost_legal.specs.Blocks.{TreesHaveFirstBlocks};
ghost use Rattle.ghost_legal.specs.Told.{IsIllegalBy, IsLegalBy};
ghost use Rattle.ghost_spec.specs.Filled.{HasTablesApart};
ghost use Rattle.ghost_spec.specs.States.{contents_in, IsKept};
ghost use Rattle.pkvm_oracle.specs.Legal.{asks_for_trees, refused_by_test, status_by_test, IsStateTested, IsTested, IsTestedFrom, IsUntested, IsUntestedFrom};

use crate::judged::{NOTHING, PlainRefused, unmade_refused, unmade_status};
use crate::statuses::{BAD_BEFORE, BAD_NUMBER, NO_MEMORY, NO_ROOM};
use c_states::{PlainLayout, PlainState, Unmade, made};
use ghost_legal::{Illegal, illegal, illegal_but_for_trees};
use ghost_spec::lists::GhostLists;
use ghost_spec::state::Ghost;
use std::alloc::{AllocError, Global};
use table_audit::{Finding, write_finding};

/// Why a state isn't tested. The first that is true is answered, in the order of the variants.
#[derive(Clone, Copy, PartialEq)]
enum Untested {
    /// The flags are none that are known.
    Flags,
    /// The layout or the state is refused.
    State(Unmade),
    /// Memory was refused.
    NoMemory,
}

/// Whether flags ask that each tree is the coarsest of its map. None if the flags are unknown.
fn trees_asked(flags: u64) -> Option<bool>
    ensures { result ≡ asks_for_trees flags }
{
    match flags {
        0 => Some(true),
        1 => Some(false),
        _ => None,
    }
}

/// Why a state isn't legal, in one of both forms.
fn illegal_by(alloc: Global, trees: bool, state: &GhostLists) -> Result<Option<Illegal>, AllocError>
    requires kept { IsKept state.now }
    requires blocks { TreesHaveFirstBlocks state.now }
    ensures legal { IfOk result
        (λ o. (o ≡ None) ↔ IsLegalBy trees (layout_of state.now.layout) (contents_in state.now)) }
    ensures told { IfOk result (λ o. IfSome o (IsIllegalBy trees state.now)) }
{
    if trees {
        illegal(alloc, state)
    } else {
        illegal_but_for_trees(alloc, state)
    }
}

/// From the state on.
fn tested_with(alloc: Global, trees: bool, state: &Ghost) -> Result<Option<Illegal>, Untested>
    requires { HasTablesApart state.now }
    ensures tested { IfOk result (IsTestedFrom trees state.now) }
    ensures untested { IfErr result IsUntestedFrom }
{
    match illegal_by(alloc, trees, state.lists()) {
        Ok(found) => Ok(found),
        Err(_) => Err(Untested::NoMemory),
    }
}

/// Tests a state: None if it is legal, in the form that the flags ask for, and else the first kind of fault.
fn tested(
    alloc: Global,
    layout: &PlainLayout<'_>,
    state: &PlainState<'_>,
    flags: u64,
) -> Result<Option<Illegal>, Untested>
    ensures tested { IfOk result (IsTested layout.now layout.now.regions.now (lists_from_c state.now) flags) }
    ensures untested { IfErr result (IsUntested layout.now layout.now.regions.now (lists_from_c state.now) flags) }
{
    let Some(trees) = trees_asked(flags) else {
        return Err(Untested::Flags);
    };
    match made(alloc, layout, state) {
        Ok(state) => {
            let found = tested_with(alloc, trees, &state);
            drop(state);
            found
        }
        Err(why) => Err(Untested::State(why)),
    }
}

/// The refusal of a state that isn't tested.
fn untested_refused(why: Untested) -> PlainRefused
    ensures { result ≡ refused_by_test why }
{
    match why {
        Untested::State(why) => unmade_refused(why),
        Untested::Flags | Untested::NoMemory => NOTHING,
    }
}

/// The status then.
fn untested_status(why: Untested) -> i32
    ensures { result ≡ status_by_test why }
{
    match why {
        Untested::Flags => BAD_NUMBER,
        Untested::State(why) => unmade_status(why, BAD_BEFORE),
        Untested::NoMemory => NO_MEMORY,
    }
}

/// Tests whether a state is legal, that is, whether it is one that the model's invariant of runs allows: 0 if it is;
/// else 1, and the first `text_len` bytes of `text` say the first fault, by name and place. With 1 as `flags` whether
/// each tree is the coarsest of its map isn't asked. Below 0 nothing is written to `text`: -2 it has fewer than
/// `text_len` bytes, which the fault needs; -3 the flags are unknown; -8 and -9 something is refused, and `refused`
/// says what; -12 memory was.
#[unsafe(no_mangle)]
pub extern "C" fn pkvm_check(
    alloc: Global,
    layout: &PlainLayout<'_>,
    state: &PlainState<'_>,
    flags: u64,
    text: &mut [u8],
    text_len: &mut usize,
    refused: &mut PlainRefused,
) -> i32
    ensures { IsStateTested layout.now layout.now.regions.now
        (lists_from_c state.now) flags text.old text.new text_len.new refused.new result }
{
    *text_len = 0;
    *refused = NOTHING;
    let found = match tested(alloc, layout, state, flags) {
        Ok(None) => return 0,
        Ok(Some(found)) => found,
        Err(why) => {
            *refused = untested_refused(why);
            return untested_status(why);
        }
    };
    match write_finding(alloc, Finding::Illegal(found), text) {
        Ok(count) => {
            *text_len = count;
            if count <= text.len() { 1 } else { NO_ROOM }
        }
        Err(_) => NO_MEMORY,
    }
}
