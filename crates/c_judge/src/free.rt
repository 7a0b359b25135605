//! A call judged up to a hypervisor's freedoms.
ghost use Rattle.std.specs.Prelude.{◌≡◌, ◌<◌, IfErr, IfOk};
ghost use Rattle.page_state.specs.LayoutView.{layout_of};
ghost use Rattle.free_judge.specs.Freely.{IsJudgedFreely, IsPredictedFreely};
ghost use Rattle.ghost_spec.specs.Kept.{HasNextGeneration};
ghost use Rattle.ghost_spec.specs.States.{contents_in};
ghost use Rattle.c_states.specs.Faults.{AreTaken};
ghost use Rattle.c_states.specs.Judged.{IsUnjudgedAfter};
ghost use Rattle.c_states.specs.States.{contents_from_c};
ghost use Rattle.c_states.specs.Views.{lists_from_c};
ghost use Rattle.c_judge.specs.Found.{differs, renamed, IsCompared, IsFoundFreely, IsFoundOf, IsModelReplyOnly, IsUncompared, IsUnfoundFreely};

use crate::found::Found;
use crate::ready::ready;
use crate::reply::{Said, said_of};
use c_states::{PlainCall, PlainLayout, PlainState, Unjudged, made};
use c_words::step_of;
use call_table::{Refusal, Reply, Step, Value};
use free_judge::judge::{judge_freely, predicted_freely};
use freedoms::Freedoms;
use ghost_judge::disagreement::Disagreement;
use ghost_spec::state::Ghost;
use std::alloc::Global;

/// Compares a reply that the model has, and the states.
fn compared(
    alloc: Global,
    freedoms: Freedoms,
    pre: &Ghost,
    layout: &PlainLayout<'_>,
    cpu: u64,
    step: Step,
    reply: Reply,
    after: &PlainState<'_>,
) -> Result<Option<Disagreement>, Unjudged>
    requires cpu { cpu < pre.now.layout.config.cpus }
    requires generation { HasNextGeneration ((contents_in pre.now).cpu cpu).ticket step }
    ensures judged { IfOk result
        (IsCompared freedoms (layout_of pre.now.layout) layout.now.cpus
        (contents_in pre.now) cpu step reply (lists_from_c after.now)) }
    ensures unjudged { IfErr result (IsUnjudgedAfter layout.now layout.now.regions.now (lists_from_c after.now)) }
{
    match made(alloc, layout, after) {
        Ok(post) => match judge_freely(alloc, freedoms, pre, cpu, step, &reply, &post) {
            Ok(found) => Ok(found),
            Err(_) => Err(Unjudged::NoMemory),
        },
        Err(why) => Err(Unjudged::After(why)),
    }
}

/// The reply that the model gives.
fn told(
    alloc: Global,
    freedoms: Freedoms,
    pre: &Ghost,
    cpu: u64,
    step: Step,
) -> Result<Reply, Unjudged>
    requires cpu { cpu < pre.now.layout.config.cpus }
    requires generation { HasNextGeneration ((contents_in pre.now).cpu cpu).ticket step }
    ensures told { IfOk result
        (IsModelReplyOnly freedoms (layout_of pre.now.layout) (contents_in pre.now) cpu step) }
    ensures unpredicted { IfErr result (λ why. why ≡ Unjudged.NoMemory) }
{
    let said = Reply::Done(Value::Nothing);
    match predicted_freely(alloc, freedoms, pre, cpu, step, said) {
        Ok((reply, after)) => {
            drop(after);
            Ok(reply)
        }
        Err(_) => Err(Unjudged::NoMemory),
    }
}

/// A difference from a reply that replaced a refusal with a number.
fn renamed_to(number: u64, d: Disagreement) -> Found
    ensures { result ≡ renamed number d }
{
    match d {
        Disagreement::Reply { spec, .. } => Found::Refusal { number, spec },
        other => Found::Differs(other),
    }
}

/// From the state before the call on.
fn found_from(
    alloc: Global,
    freedoms: Freedoms,
    pre: &Ghost,
    layout: &PlainLayout<'_>,
    cpu: u64,
    step: Step,
    said: Said,
    after: &PlainState<'_>,
) -> Result<Option<Found>, Unjudged>
    requires cpu { cpu < pre.now.layout.config.cpus }
    requires generation { HasNextGeneration ((contents_in pre.now).cpu cpu).ticket step }
    ensures found { IfOk result
        (IsFoundOf freedoms (layout_of pre.now.layout) layout.now.cpus
        (contents_in pre.now) cpu step said (lists_from_c after.now)) }
    ensures unfound { IfErr result
        (IsUncompared freedoms said layout.now layout.now.regions.now (lists_from_c after.now)) }
{
    match said {
        Said::Known(reply) => {
            let found = compared(alloc, freedoms, pre, layout, cpu, step, reply, after)?;
            Ok(found.map(Found::Differs))
        }
        Said::Refusal(number) => {
            if freedoms.any_refusal {
                let reply = Reply::Refused(Refusal::Contended);
                let found = compared(alloc, freedoms, pre, layout, cpu, step, reply, after)?;
                Ok(found.map(|d| renamed_to(number, d)))
            } else {
                let spec = told(alloc, freedoms, pre, cpu, step)?;
                Ok(Some(Found::Refusal { number, spec }))
            }
        }
        Said::Stopped => {
            let spec = told(alloc, freedoms, pre, cpu, step)?;
            Ok(Some(Found::Stopped { spec }))
        }
    }
}

/// Judges a call up to the freedoms. Its states' tables and free frames must be valid, if they are there, and aren't
/// compared.
pub(crate) fn found_freely(
    alloc: Global,
    freedoms: Freedoms,
    layout: &PlainLayout<'_>,
    before: &PlainState<'_>,
    call: &PlainCall,
    after: &PlainState<'_>,
) -> Result<Option<Found>, Unjudged>
    ensures found { IfOk result
        (IsFoundFreely freedoms layout.now layout.now.regions.now
        (lists_from_c before.now) call.now (lists_from_c after.now)) }
    ensures unfound { IfErr result
        (IsUnfoundFreely freedoms layout.now layout.now.regions.now
        (lists_from_c before.now) call.now (lists_from_c after.now)) }
{
    if step_of(call.step).is_none() {
        return Err(Unjudged::Step);
    }
    let Some(said) = said_of(call.reply) else {
        return Err(Unjudged::Reply);
    };
    let (step, pre) = ready(alloc, layout, before, call.cpu, call.step)?;
    found_from(alloc, freedoms, &pre, layout, call.cpu, step, said, after)
}
