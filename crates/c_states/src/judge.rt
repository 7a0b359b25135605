//! A call judged by the states before and after it, and predicted.
ghost use Rattle.std.specs.Prelude.{◌≡◌, ◌<◌, ◌↔◌, IfErr, IfOk, IfSome, None, OnOk, Some};
ghost use Rattle.page_state.specs.LayoutView.{layout_of as layout_of_code};
ghost use Rattle.ghost_judge.specs.Judgements.{told_of, IsFirstJudged, JudgeAgrees};
ghost use Rattle.ghost_spec.specs.Filled.{HasTablesApart};
ghost use Rattle.ghost_spec.specs.Kept.{HasNextGeneration};
ghost use Rattle.ghost_spec.specs.States.{contents_in, ghost_state};
ghost use Rattle.c_states.specs.Faults.{AreTaken};
ghost use Rattle.c_states.specs.Judged.{IsReplyPredicted, IsStatePredicted, IsJudged, IsUnjudged, IsUnjudgedAfter, IsUnmade, IsUnpredicted};
ghost use Rattle.c_states.specs.Layouts.{layout_from_c, IsTakenLayout};
ghost use Rattle.c_states.specs.States.{contents_from_c, state_from_c};
ghost use Rattle.c_states.specs.Told.{in_pool_order, lists_owned, AreWellFormed};
ghost use Rattle.c_states.specs.Views.{lists_from_c};
ghost use Rattle.c_words.specs.Written.{reply_written};

use crate::layout::{PlainLayout, PlainLayoutFault, layout_of};
use crate::state::{PlainFault, PlainState, state_of};
use crate::told::{PlainLists, lists_of};
use c_words::{PlainReply, PlainStep, reply_of, reply_to_c, step_of};
use call_table::{Reply, Step};
use ghost_judge::disagreement::Disagreement;
use ghost_judge::judge::judge_last;
use ghost_spec::state::{Ghost, has_next_generation, predict_last};
use std::alloc::Global;

/// A call of a CPU, and its answer.
#[repr(C)]
#[derive(Clone, Copy, PartialEq)]
pub struct PlainCall {
    /// Below the layout's number of CPUs.
    pub cpu: u64,
    pub step: PlainStep,
    pub reply: PlainReply,
}

/// Why a layout and lists make no state. The layout is tested first.
#[derive(Clone, Copy, PartialEq)]
pub enum Unmade {
    Layout(PlainLayoutFault),
    State(PlainFault),
}

/// Why a call isn't judged. The first that is true is answered, in the order of the variants.
#[derive(Clone, Copy, PartialEq)]
pub enum Unjudged {
    /// The call, or one of its arguments that is no number, is unknown.
    Step,
    /// A number of the reply is unknown.
    Reply,
    /// The layout hasn't the CPU.
    Cpu,
    /// The layout or the state before it is refused.
    Before(Unmade),
    /// The call releases a slot whose generation is the greatest number.
    Generation,
    /// The state after it is.
    After(Unmade),
    /// Memory was refused.
    NoMemory,
}

/// The state of the lists on the layout.
pub fn made(
    alloc: Global,
    layout: &PlainLayout<'_>,
    state: &PlainState<'_>,
) -> Result<Ghost, Unmade>
    ensures state { IfOk result (λ g. ghost_state g ≡ state_from_c (lists_from_c state.now)) }
    ensures layout { IfOk result (λ g. layout_of_code g.layout ≡ layout_from_c layout.now layout.now.regions.now) }
    ensures cpus { IfOk result (λ g. g.layout.config.cpus ≡ layout.now.cpus) }
    ensures tables { IfOk result HasTablesApart }
    ensures ready { OnOk result (IsTakenLayout layout.now layout.now.regions.now) }
    ensures taken { OnOk result (AreTaken layout.now.cpus (lists_from_c state.now)) }
    ensures fault { IfErr result (IsUnmade layout.now layout.now.regions.now (lists_from_c state.now)) }
{
    let layout = match layout_of(alloc, layout) {
        Ok(layout) => layout,
        Err(fault) => return Err(Unmade::Layout(fault)),
    };
    match state_of(alloc, layout, state) {
        Ok(state) => Ok(state),
        Err(fault) => Err(Unmade::State(fault)),
    }
}

/// Judges a call by the state before it, its reply and the state after it: None if both are as the model says, or if
/// the call was refused because memory ran out, as the model's step may be, and changed nothing. Else the first
/// difference.
pub fn judged(
    alloc: Global,
    layout: &PlainLayout<'_>,
    before: &PlainState<'_>,
    call: &PlainCall,
    after: &PlainState<'_>,
) -> Result<Option<Disagreement>, Unjudged>
    ensures judged { IfOk result
        (IsJudged layout.now layout.now.regions.now (lists_from_c before.now) call.now
        (lists_from_c after.now)) }
    ensures unjudged { IfErr result
        (IsUnjudged layout.now layout.now.regions.now (lists_from_c before.now) call.now
        (lists_from_c after.now)) }
{
    let Some(step) = step_of(call.step) else {
        return Err(Unjudged::Step);
    };
    let Some(reply) = reply_of(call.reply) else {
        return Err(Unjudged::Reply);
    };
    if call.cpu >= layout.cpus {
        return Err(Unjudged::Cpu);
    }
    match made(alloc, layout, before) {
        Ok(pre) => {
            if !has_next_generation(&pre, call.cpu, step) {
                drop(pre);
                return Err(Unjudged::Generation);
            }
            judged_from(alloc, pre, layout, call.cpu, step, reply, after)
        }
        Err(why) => Err(Unjudged::Before(why)),
    }
}

/// From the state before the call on.
fn judged_from(
    alloc: Global,
    pre: Ghost,
    layout: &PlainLayout<'_>,
    cpu: u64,
    step: Step,
    reply: Reply,
    after: &PlainState<'_>,
) -> Result<Option<Disagreement>, Unjudged>
    requires cpu { cpu < pre.layout.config.cpus }
    requires generation { HasNextGeneration ((contents_in pre).cpu cpu).ticket step }
    ensures none { IfOk result
        (λ o. (o ≡ None)
        ↔ JudgeAgrees (contents_in pre) step reply (contents_from_c (lists_from_c after.now))
        (told_of pre cpu step)) }
    ensures first { IfOk result
        (λ o. IfSome o
        (IsFirstJudged (contents_in pre) step reply (contents_from_c (lists_from_c after.now))
        (told_of pre cpu step))) }
    ensures taken { OnOk result (AreTaken layout.now.cpus (lists_from_c after.now)) }
    ensures unjudged { IfErr result (IsUnjudgedAfter layout.now layout.now.regions.now (lists_from_c after.now)) }
{
    match made(alloc, layout, after) {
        Ok(post) => match judge_last(alloc, pre, cpu, step, &reply, &post) {
            Ok(found) => Ok(found),
            Err(_) => Err(Unjudged::NoMemory),
        },
        Err(why) => {
            drop(pre);
            Err(Unjudged::After(why))
        }
    }
}

/// The reply that the model gives to a step of a CPU on a state.
pub fn predicted(
    alloc: Global,
    layout: &PlainLayout<'_>,
    before: &PlainState<'_>,
    cpu: u64,
    step: PlainStep,
) -> Result<PlainReply, Unjudged>
    ensures told { IfOk result
        (IsReplyPredicted layout.now layout.now.regions.now (lists_from_c before.now) cpu step) }
    ensures unpredicted { IfErr result
        (IsUnpredicted layout.now layout.now.regions.now (lists_from_c before.now) cpu step) }
{
    let Some(step) = step_of(step) else {
        return Err(Unjudged::Step);
    };
    if cpu >= layout.cpus {
        return Err(Unjudged::Cpu);
    }
    match made(alloc, layout, before) {
        Ok(pre) => {
            if !has_next_generation(&pre, cpu, step) {
                drop(pre);
                return Err(Unjudged::Generation);
            }
            reply_to(alloc, pre, cpu, step)
        }
        Err(why) => Err(Unjudged::Before(why)),
    }
}

/// A reply, and the state after it.
#[derive(Drop)]
pub struct Prediction {
    pub reply: PlainReply,
    pub after: PlainLists,
}

/// The reply that the model gives to a step of a CPU on a state, and the state after it.
pub fn predicted_state(
    alloc: Global,
    layout: &PlainLayout<'_>,
    before: &PlainState<'_>,
    cpu: u64,
    step: PlainStep,
) -> Result<Prediction, Unjudged>
    ensures told { IfOk result
        (λ f. IsStatePredicted layout.now layout.now.regions.now
        (lists_from_c before.now) cpu step f.reply (lists_owned f.after)) }
    ensures unpredicted { IfErr result
        (IsUnpredicted layout.now layout.now.regions.now (lists_from_c before.now) cpu step) }
{
    let Some(step) = step_of(step) else {
        return Err(Unjudged::Step);
    };
    if cpu >= layout.cpus {
        return Err(Unjudged::Cpu);
    }
    match made(alloc, layout, before) {
        Ok(pre) => {
            if !has_next_generation(&pre, cpu, step) {
                drop(pre);
                return Err(Unjudged::Generation);
            }
            state_after(alloc, pre, cpu, step)
        }
        Err(why) => Err(Unjudged::Before(why)),
    }
}

/// The reply to a step on a state, and the state after it, in numbers.
fn state_after(alloc: Global, pre: Ghost, cpu: u64, step: Step) -> Result<Prediction, Unjudged>
    requires cpu { cpu < pre.layout.config.cpus }
    requires generation { HasNextGeneration ((contents_in pre).cpu cpu).ticket step }
    ensures reply { IfOk result (λ f. f.reply ≡ reply_written (told_of pre cpu step).0) }
    ensures after { IfOk result
        (λ f. contents_from_c (lists_owned f.after)
        ≡ in_pool_order (told_of pre cpu step).1.contents) }
    ensures lists { IfOk result (λ f. AreWellFormed pre.layout.config.cpus (lists_owned f.after)) }
    ensures unpredicted { IfErr result (λ why. why ≡ Unjudged.NoMemory) }
{
    let Ok((reply, after)) = predict_last(alloc, pre, cpu, step) else {
        return Err(Unjudged::NoMemory);
    };
    let lists = lists_of(alloc, &after);
    drop(after);
    match lists {
        Ok(after) => Ok(Prediction {
            reply: reply_to_c(reply),
            after,
        }),
        Err(_) => Err(Unjudged::NoMemory),
    }
}

/// The reply to a step on a state, in numbers.
fn reply_to(alloc: Global, pre: Ghost, cpu: u64, step: Step) -> Result<PlainReply, Unjudged>
    requires cpu { cpu < pre.layout.config.cpus }
    requires generation { HasNextGeneration ((contents_in pre).cpu cpu).ticket step }
    ensures told { IfOk result (λ r. r ≡ reply_written (told_of pre cpu step).0) }
    ensures unpredicted { IfErr result (λ why. why ≡ Unjudged.NoMemory) }
{
    match predict_last(alloc, pre, cpu, step) {
        Ok((reply, after)) => {
            drop(after);
            Ok(reply_to_c(reply))
        }
        Err(_) => Err(Unjudged::NoMemory),
    }
}
