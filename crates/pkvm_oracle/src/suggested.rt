//! A next call on a state.
ghost use Rattle.std.specs.Prelude.{◌≡◌};
ghost use Rattle.c_states.specs.Views.{lists_from_c};
ghost use Rattle.pkvm_oracle.specs.Suggested.{refused_by_suggestion, status_by_suggestion, IsCallSuggested};

use crate::judged::{NOTHING, PlainRefused, unmade_refused, unmade_status};
use crate::statuses::{BAD_BEFORE, BAD_CPU, BAD_NUMBER, NO_MEMORY};
use c_calls::{Suggested, Unsuggested, suggested_call};
use c_states::{PlainCall, PlainLayout, PlainState};
use std::alloc::Global;

/// The refusal if no call is suggested.
fn unsuggested_refused(why: Unsuggested) -> PlainRefused
    ensures { result ≡ refused_by_suggestion why }
{
    match why {
        Unsuggested::State(why) => unmade_refused(why),
        Unsuggested::Hostile | Unsuggested::Cpus | Unsuggested::NoMemory => NOTHING,
    }
}

/// The status then.
fn unsuggested_status(why: Unsuggested) -> i32
    ensures { result ≡ status_by_suggestion why }
{
    match why {
        Unsuggested::Hostile => BAD_NUMBER,
        Unsuggested::Cpus => BAD_CPU,
        Unsuggested::State(why) => unmade_status(why, BAD_BEFORE),
        Unsuggested::NoMemory => NO_MEMORY,
    }
}

/// A next call on a state: 0, and the CPU and the step are written to `call`, whose reply stays. Below 0 `call` stays: -3 `hostile` is
/// over 100; -7 the layout has no CPU; -8, -9 something is refused, and `refused` says what; -12 memory was.
#[unsafe(no_mangle)]
pub extern "C" fn pkvm_suggest(
    alloc: Global,
    layout: &PlainLayout<'_>,
    state: &PlainState<'_>,
    random: u64,
    hostile: u64,
    call: &mut PlainCall,
    refused: &mut PlainRefused,
) -> i32
    ensures { IsCallSuggested layout.now layout.now.regions.now
        (lists_from_c state.now) random hostile call.old call.new refused.new result }
{
    *refused = NOTHING;
    match suggested_call(alloc, layout, state, random, hostile) {
        Ok(told) => {
            let Suggested { cpu, step } = told;
            *call = PlainCall {
                cpu,
                step,
                reply: call.reply,
            };
            0
        }
        Err(why) => {
            *refused = unsuggested_refused(why);
            unsuggested_status(why)
        }
    }
}
