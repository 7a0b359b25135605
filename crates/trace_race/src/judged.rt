//! Each reply of the merged list, compared with the model's.
ghost use Rattle.std.specs.Prelude.{◌≡◌, ◌↔◌, ◌^◌, ◌<◌, All, IfOk, IsTrue, length};
ghost use Rattle.call_table.specs.declared.reply.Refusal.TheVariants.{NoMemory};
ghost use Rattle.call_table.specs.declared.reply.Reply.TheVariants.{Refused};
ghost use Rattle.page_state.specs.LayoutView.{layout_of};
ghost use Rattle.ghost_spec.specs.Kept.{HasNextGeneration};
ghost use Rattle.ghost_spec.specs.States.{contents_in, ghost_state};
ghost use Rattle.trace_race.specs.Judged.{HasGenerationsTo, IsApart, Judges, JudgesAll};

use call_table::{Refusal, Reply, Step};
use ghost_judge::disagreement::Disagreement;
use ghost_judge::judge::judge;
use ghost_spec::state::{Ghost, predict_last};
use std::alloc::{AllocError, Global};

/// Where a reply isn't the model's.
fn differs(said: Reply, spec: Reply) -> Option<Disagreement>
    ensures { IsApart said spec result }
{
    if said == spec {
        None
    } else {
        Some(Disagreement::Reply { said, spec })
    }
}

/// Makes the next call of a list on the state before it: the state after it, and the finding if its reply isn't the
/// model's. A call that lacked memory leaves the state, and is judged as one that changed nothing.
fn judged_next(
    global: Global,
    state: Ghost,
    cpu: u64,
    step: Step,
    said: Reply,
) -> Result<(Ghost, Option<Disagreement>), AllocError>
    requires cpu { cpu < state.layout.config.cpus }
    requires generation { HasNextGeneration ((contents_in state).cpu cpu).ticket step }
    ensures layout { IfOk result (λ r. r.0.layout ≡ state.layout) }
    ensures judged { IfOk result
        (λ r. Judges (layout_of state.layout) (ghost_state state) cpu step said r.1
        (ghost_state r.0)) }
{
    if is_want(said) {
        let found = judge(global, &state, cpu, step, &said, &state)?;
        return Ok((state, found));
    }
    let (spec, after) = predict_last(global, state, cpu, step)?;
    Ok((after, differs(said, spec)))
}

/// Whether the call lacked memory.
fn is_want(said: Reply) -> bool
    ensures { IsTrue result ↔ (said ≡ Refused NoMemory) }
{
    matches!(said, Reply::Refused(Refusal::NoMemory))
}

/// Where the replies of a list of calls aren't the model's, from a state on.
pub(crate) fn judge_all(
    global: Global,
    state: Ghost,
    calls: &[(u64, Step, Reply)],
) -> Result<Vec<Disagreement>, AllocError>
    requires cpus { All (λ c. c.0 < state.layout.config.cpus) calls.now }
    requires generations { HasGenerationsTo 1 (contents_in state) }
    requires few { length calls.now < 2 ^ 63 }
    ensures judged { IfOk result
        (λ found. JudgesAll (layout_of state.layout) (ghost_state state) calls.now found.items) }
{
    let mut state = state;
    let mut found = Vec::new(global);
    for i in 0..calls.len() {
        let (cpu, step, said) = calls[i];
        let (after, told) = judged_next(global, state, cpu, step, said)?;
        state = after;
        if let Some(told) = told {
            found.push(told)?;
        }
    }
    drop(state);
    Ok(found)
}
