//! The model's reply to a step, and the state after it.
ghost use Rattle.std.specs.Prelude.{◌≡◌, ◌<◌, IfErr, IfOk};
ghost use Rattle.page_state.specs.LayoutView.{layout_of};
ghost use Rattle.reference_model.specs.model.Step.{predict_step};
ghost use Rattle.ghost_spec.specs.States.{ghost_state};
ghost use Rattle.race_outcomes.specs.Kept.{IsTurnFault};
ghost use Rattle.race_outcomes.specs.Orders.{is_wanting, model_reply as model_reply_of};

use crate::finding::OutcomesFault;
use crate::node::Turn;
use call_table::{Refusal, Reply};
use ghost_judge::judge::judge;
use ghost_spec::lists::GhostLists;
use ghost_spec::state::{Ghost, has_next_generation, predict};
use std::alloc::{AllocError, Global};

/// The model's reply to a step and the state after it, if there is memory.
fn predicted(alloc: Global, state: &Ghost, turn: Turn) -> Result<(Reply, Ghost), OutcomesFault>
    requires { turn.cpu < state.now.layout.config.cpus }
    ensures told { IfOk result
        (λ r. (r.0, ghost_state r.1)
        ≡ predict_step (layout_of state.now.layout) (ghost_state state.now) turn.cpu turn.step) }
    ensures layout { IfOk result (λ r. layout_of r.1.layout ≡ layout_of state.now.layout) }
    ensures fault { IfErr result (IsTurnFault (ghost_state state.now) turn) }
{
    if !has_next_generation(state, turn.cpu, turn.step) {
        return Err(OutcomesFault::Generation);
    }
    match predict(alloc, state, turn.cpu, turn.step) {
        Ok(told) => Ok(told),
        Err(_) => Err(OutcomesFault::NoMemory),
    }
}

/// Whether a step finds no memory that can take some, and that the model makes, as its reply says.
fn finds_none(alloc: Global, state: &Ghost, turn: Turn, reply: Reply) -> Result<bool, OutcomesFault>
    requires cpu { turn.cpu < state.now.layout.config.cpus }
    requires reply { reply
        ≡ (predict_step (layout_of state.now.layout)
        (ghost_state state.now) turn.cpu turn.step).0 }
    ensures finds { IfOk result (λ b. b ≡ is_wanting turn reply) }
    ensures fault { IfErr result (IsTurnFault (ghost_state state.now) turn) }
{
    if !turn.wants {
        return Ok(false);
    }
    let Reply::Done(_) = reply else {
        return Ok(false);
    };
    if !has_next_generation(state, turn.cpu, turn.step) {
        return Err(OutcomesFault::Generation);
    }
    let want = Reply::Refused(Refusal::NoMemory);
    match judge(alloc, state, turn.cpu, turn.step, &want, state) {
        Ok(found) => Ok(found.is_none()),
        Err(_) => Err(OutcomesFault::NoMemory),
    }
}

/// A state of which nothing but the logs changed: these have the room of another.
fn with_rooms(alloc: Global, state: &Ghost, after: Ghost) -> Result<Ghost, AllocError>
    requires { layout_of after.layout ≡ layout_of state.now.layout }
    ensures contents { IfOk result (λ g. (ghost_state g).contents ≡ (ghost_state state.now).contents) }
    ensures rooms { IfOk result (λ g. (ghost_state g).rooms ≡ (ghost_state after).rooms) }
    ensures layout { IfOk result (λ g. layout_of g.layout ≡ layout_of state.now.layout) }
{
    let Ok(kept) = state.copied(alloc) else {
        drop(after);
        return Err(AllocError);
    };
    Ok(exchanged(kept, after))
}

/// The same with the rooms of another.
fn exchanged(state: Ghost, after: Ghost) -> Ghost
    requires { layout_of after.layout ≡ layout_of state.layout }
    ensures contents { (ghost_state result).contents ≡ (ghost_state state).contents }
    ensures rooms { (ghost_state result).rooms ≡ (ghost_state after).rooms }
    ensures layout { result.layout ≡ state.layout }
{
    let GhostLists { rooms, .. } = after.into_lists();
    let mut lists = state.into_lists();
    lists.rooms = rooms;
    Ghost::of_kept(lists)
}

/// The reply to a step, and the state after it.
pub(crate) fn model_reply(
    alloc: Global,
    state: &Ghost,
    turn: Turn,
) -> Result<(Reply, Ghost), OutcomesFault>
    requires { turn.cpu < state.now.layout.config.cpus }
    ensures told { IfOk result
        (λ r. (r.0, ghost_state r.1)
        ≡ model_reply_of (layout_of state.now.layout) (ghost_state state.now) turn) }
    ensures layout { IfOk result (λ r. layout_of r.1.layout ≡ layout_of state.now.layout) }
    ensures fault { IfErr result (IsTurnFault (ghost_state state.now) turn) }
{
    let (reply, after) = predicted(alloc, state, turn)?;
    match finds_none(alloc, state, turn, reply) {
        Ok(false) => Ok((reply, after)),
        Ok(true) => match with_rooms(alloc, state, after) {
            Ok(left) => Ok((Reply::Refused(Refusal::NoMemory), left)),
            Err(_) => Err(OutcomesFault::NoMemory),
        },
        Err(fault) => {
            drop(after);
            Err(fault)
        }
    }
}
