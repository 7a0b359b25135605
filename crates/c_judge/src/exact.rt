//! A call judged exactly.
ghost use Rattle.std.specs.Prelude.{◌≡◌, IfErr, IfOk};
ghost use Rattle.c_states.specs.Judged.{prediction_from_c, CanCall, IsUnpredicted};
ghost use Rattle.c_states.specs.Views.{lists_from_c};
ghost use Rattle.c_judge.specs.Found.{IsFoundExactly, IsModelReply, IsUnfoundExactly};

use crate::found::Found;
use crate::ready::ready;
use crate::reply::{Said, said_of};
use c_states::{PlainCall, PlainLayout, PlainState, Unjudged, judged};
use c_words::{PlainStep, step_of};
use call_table::Reply;
use ghost_spec::state::predict_last;
use std::alloc::Global;

/// The reply that the model gives to a step of a CPU on a state.
fn told(
    alloc: Global,
    layout: &PlainLayout<'_>,
    before: &PlainState<'_>,
    cpu: u64,
    step: PlainStep,
) -> Result<Reply, Unjudged>
    ensures told { IfOk result
        (IsModelReply layout.now layout.now.regions.now (lists_from_c before.now) cpu step) }
    ensures unpredicted { IfErr result
        (IsUnpredicted layout.now layout.now.regions.now (lists_from_c before.now) cpu step) }
{
    let (step, pre) = ready(alloc, layout, before, cpu, step)?;
    match predict_last(alloc, pre, cpu, step) {
        Ok((reply, after)) => {
            drop(after);
            Ok(reply)
        }
        Err(_) => Err(Unjudged::NoMemory),
    }
}

/// Judges a call exactly. One whose reply the model can't give disagrees.
pub(crate) fn found_exactly(
    alloc: Global,
    layout: &PlainLayout<'_>,
    before: &PlainState<'_>,
    call: &PlainCall,
    after: &PlainState<'_>,
) -> Result<Option<Found>, Unjudged>
    ensures found { IfOk result
        (IsFoundExactly layout.now layout.now.regions.now (lists_from_c before.now) call.now
        (lists_from_c after.now)) }
    ensures unfound { IfErr result
        (IsUnfoundExactly layout.now layout.now.regions.now (lists_from_c before.now) call.now
        (lists_from_c after.now)) }
{
    if step_of(call.step).is_none() {
        return Err(Unjudged::Step);
    }
    let Some(said) = said_of(call.reply) else {
        return Err(Unjudged::Reply);
    };
    match said {
        Said::Known(_) => match judged(alloc, layout, before, call, after)? {
            Some(d) => Ok(Some(Found::Differs(d))),
            None => Ok(None),
        },
        Said::Refusal(number) => {
            let spec = told(alloc, layout, before, call.cpu, call.step)?;
            Ok(Some(Found::Refusal { number, spec }))
        }
        Said::Stopped => {
            let spec = told(alloc, layout, before, call.cpu, call.step)?;
            Ok(Some(Found::Stopped { spec }))
        }
    }
}
