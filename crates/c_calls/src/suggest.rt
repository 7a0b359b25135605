//! A next call on a state.
ghost use Rattle.std.specs.Prelude.{◌≡◌, IfErr, IfOk};
ghost use Rattle.c_calls.specs.Suggests.{IsSuggestedCall, IsUnsuggested};
ghost use Rattle.c_states.specs.Views.{lists_from_c};

use crate::step::step_to_c;
use c_states::{PlainLayout, PlainState, Unmade, made};
use c_words::PlainStep;
use std::alloc::Global;
use trace_generate::suggested;

/// A call of a CPU.
#[derive(Clone, Copy, PartialEq)]
pub struct Suggested {
    pub cpu: u64,
    pub step: PlainStep,
}

/// Why no call is suggested. The first that is true is answered, in the order of the variants.
#[derive(Clone, Copy, PartialEq)]
pub enum Unsuggested {
    /// The percentage is over 100.
    Hostile,
    /// The layout has no CPU.
    Cpus,
    /// The layout or the state is refused.
    State(Unmade),
    /// Memory was refused.
    NoMemory,
}

/// A next call on a state, by a CPU of the layout. The model refuses `hostile` of a hundred. The same layout, state, number and
/// percentage give the same call.
pub fn suggested_call(
    alloc: Global,
    layout: &PlainLayout<'_>,
    state: &PlainState<'_>,
    random: u64,
    hostile: u64,
) -> Result<Suggested, Unsuggested>
    ensures call { IfOk result
        (IsSuggestedCall layout.now layout.now.regions.now
        (lists_from_c state.now) random hostile) }
    ensures fault { IfErr result
        (IsUnsuggested layout.now layout.now.regions.now (lists_from_c state.now) hostile) }
{
    if hostile > 100 {
        return Err(Unsuggested::Hostile);
    }
    if layout.cpus == 0 {
        return Err(Unsuggested::Cpus);
    }
    let state = match made(alloc, layout, state) {
        Ok(state) => state,
        Err(why) => return Err(Unsuggested::State(why)),
    };
    match suggested(alloc, state, random, hostile) {
        Ok(call) => Ok(Suggested {
            cpu: call.cpu,
            step: step_to_c(call.step),
        }),
        Err(_) => Err(Unsuggested::NoMemory),
    }
}
