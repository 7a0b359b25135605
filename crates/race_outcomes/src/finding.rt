//! All replies that CPUs may get, and whether the given ones are among them.
ghost use Rattle.std.specs.Prelude.{◌≡◌, ◌≢◌, ◌↔◌, ◌<◌, ◌++◌, ◌∷◌, ℕ, List, [], All, Contains, IfErr, IfOk, IsTrue, MatchOption, OnOk, Option, Some, Vec, length, map};
ghost use Rattle.std.specs.Global.{Global};
ghost use Rattle.page_state.specs.LayoutView.{layout_of};
ghost use Rattle.ghost_spec.specs.States.{ghost_state};
ghost use Rattle.call_table.specs.declared.reply.Reply.{Reply as TheReply};
ghost use Rattle.race_outcomes.specs.Kept.{IsTurnFault};
ghost use Rattle.race_outcomes.specs.Layers.{AreOutcomes, IsFirstLayer, IsLayer, IsOutcomeAdded, IsOutcomeOf, GivesMore, replies_of};
ghost use Rattle.race_outcomes.specs.Orders.{AllOutcomes, IsExplained, IsOutcomesFault, IsStepFault, replies_along};

use crate::answer::model_reply;
use crate::layer::next_layer;
use crate::node::{Node, Turn, first_node};
use call_table::Reply;
use ghost_spec::state::Ghost;
use std::alloc::{AllocError, Global};
use std::mem;
use trace_reader::Progress;

/// Why there is no list of outcomes.
#[derive(Clone, Copy, PartialEq, Debug)]
pub enum OutcomesFault {
    /// After this number of steps there are more points than the limit: states of the model with the replies so far.
    TooMany(u64),
    /// A VM is to be released whose generation is the greatest u64.
    Generation,
    /// Memory was refused.
    NoMemory,
}

/// The replies that CPUs may get.
#[derive(Drop)]
pub struct Outcome {
    /// The reply of each step, by its place in the list of all steps.
    pub replies: Vec<Reply>,
    /// The places of the steps in an order that gives these replies.
    pub order: Vec<usize>,
}

/// All replies, if each step has one.
fn whole(alloc: Global, told: &[Option<Reply>]) -> Result<Option<Vec<Reply>>, AllocError>
    ensures { IfOk result
        (λ o. MatchOption o ((rs : List TheReply) → told.now ≢ map Some rs)
        (λ v. told.now ≡ map Some v.items)) }
{
    let mut all = Vec::new(alloc);
    for i in 0..told.len() {
        match told[i] {
            Some(reply) => all.push(reply)?,
            None => {
                drop(all);
                return Ok(None);
            }
        }
    }
    Ok(Some(all))
}

/// The one node at which no step is made yet.
fn first_nodes(alloc: Global, state: &Ghost, turns: &[Turn]) -> Result<Vec<Node>, AllocError>
    ensures { IfOk result
        (λ v. IsFirstLayer turns.now (layout_of state.now.layout)
        (ghost_state state.now) v.items) }
{
    let first = first_node(alloc, state, turns)?;
    let mut nodes = Vec::new(alloc);
    nodes.push(first)?;
    Ok(nodes)
}

/// The nodes that orders of all steps lead to.
fn last_layer<P: Progress>(
    alloc: Global,
    state: &Ghost,
    turns: &[Turn],
    wanted: &[Option<Vec<u8>>],
    limit: usize,
    progress: &P,
) -> Result<Vec<Node>, OutcomesFault>
    requires cpus { All (λ t. t.cpu < state.now.layout.config.cpus) turns.now }
    requires count { length wanted.now ≡ length turns.now }
    ensures layer { IfOk result
        (λ v. IsLayer turns.now wanted.now (layout_of state.now.layout) (ghost_state state.now)
        (length turns.now) v.items) }
    ensures fault { IfErr result
        (IsOutcomesFault (layout_of state.now.layout)
        (ghost_state state.now) turns.now wanted.now limit) }
{
    let Ok(mut nodes) = first_nodes(alloc, state, turns) else {
        return Err(OutcomesFault::NoMemory);
    };
    for made in 0..turns.len() {
        let _ = made;
        let next = next_layer(alloc, turns, wanted, nodes.as_slice(), limit, progress)?;
        drop(mem::replace(&mut nodes, next));
    }
    Ok(nodes)
}

/// Whether an outcome with these replies is there.
fn has_replies(found: &[Outcome], replies: &[Reply]) -> bool
    ensures { IsTrue result ↔ Contains (replies_of found.now) replies.now }
{
    for i in 0..found.len() {
        if found[i].replies.as_slice() == replies {
            return true;
        }
    }
    false
}

/// The outcome of a node at which all steps are made.
fn outcome_of(alloc: Global, node: &Node) -> Result<Option<Outcome>, AllocError>
    ensures { IfOk result
        (λ o. MatchOption o ((rs : List TheReply) → node.now.told.items ≢ map Some rs)
        (IsOutcomeOf node.now)) }
{
    let Some(replies) = whole(alloc, node.told.as_slice())? else {
        return Ok(None);
    };
    let order = Vec::from_slice(alloc, node.order.as_slice())?;
    Ok(Some(Outcome { replies, order }))
}

/// Adds the outcome of a node, unless its replies are there.
fn add_outcome(alloc: Global, node: &Node, found: &mut Vec<Outcome>) -> Result<(), AllocError>
    ensures { OnOk result (IsOutcomeAdded node.now found.old.items found.new.items) }
{
    let Some(outcome) = outcome_of(alloc, node)? else {
        return Ok(());
    };
    if has_replies(found.as_slice(), outcome.replies.as_slice()) {
        drop(outcome);
        return Ok(());
    }
    found.push(outcome)?;
    Ok(())
}

/// The outcomes of nodes, each once.
fn distinct(alloc: Global, nodes: &[Node]) -> Result<Vec<Outcome>, AllocError>
    ensures { IfOk result (λ v. AreOutcomes nodes.now v.items) }
{
    let mut found = Vec::new(alloc);
    for i in 0..nodes.len() {
        add_outcome(alloc, &nodes[i], &mut found)?;
    }
    Ok(found)
}

/// All lists of replies that steps of CPUs may get from a state, if each CPU makes its own in order and at any time,
/// and that have the wanted texts: each outcome once, with an order that gives it. Err if there are more points than
/// the limit after some number of steps, a generation would exceed 64 bits, or memory was refused. `progress` counts
/// each point that is left.
pub fn outcomes<P: Progress>(
    alloc: Global,
    state: &Ghost,
    turns: &[Turn],
    wanted: &[Option<Vec<u8>>],
    limit: usize,
    progress: &P,
) -> Result<Vec<Outcome>, OutcomesFault>
    requires cpus { All (λ t. t.cpu < state.now.layout.config.cpus) turns.now }
    requires count { length wanted.now ≡ length turns.now }
    ensures all { IfOk result
        (λ v. AllOutcomes (layout_of state.now.layout)
        (ghost_state state.now) turns.now wanted.now v.items) }
    ensures fault { IfErr result
        (IsOutcomesFault (layout_of state.now.layout)
        (ghost_state state.now) turns.now wanted.now limit) }
{
    let nodes = last_layer(alloc, state, turns, wanted, limit, progress)?;
    let found = distinct(alloc, nodes.as_slice());
    drop(nodes);
    match found {
        Ok(found) => Ok(found),
        Err(_) => Err(OutcomesFault::NoMemory),
    }
}

/// An order of these steps that gives replies with the wanted texts; None if there is no such order.
pub fn explained<P: Progress>(
    alloc: Global,
    state: &Ghost,
    turns: &[Turn],
    wanted: &[Option<Vec<u8>>],
    limit: usize,
    progress: &P,
) -> Result<Option<Vec<usize>>, OutcomesFault>
    requires cpus { All (λ t. t.cpu < state.now.layout.config.cpus) turns.now }
    requires count { length wanted.now ≡ length turns.now }
    ensures order { IfOk result
        (IsExplained (layout_of state.now.layout) (ghost_state state.now) turns.now wanted.now) }
    ensures fault { IfErr result
        (IsOutcomesFault (layout_of state.now.layout)
        (ghost_state state.now) turns.now wanted.now limit) }
{
    let found = outcomes(alloc, state, turns, wanted, limit, progress)?;
    match first_order(alloc, found.as_slice()) {
        Ok(order) => Ok(order),
        Err(_) => Err(OutcomesFault::NoMemory),
    }
}

/// The order of the first outcome.
fn first_order(alloc: Global, found: &[Outcome]) -> Result<Option<Vec<usize>>, AllocError>
    ensures { IfOk result
        (λ r. MatchOption r (found.now ≡ [])
        (λ v. (o : Outcome) × Contains found.now o × (v.items ≡ o.order.items))) }
{
    if found.is_empty() {
        return Ok(None);
    }
    let order = Vec::from_slice(alloc, found[0].order.as_slice())?;
    Ok(Some(order))
}

/// Makes one step more, and adds its reply: the state after it.
fn one_step(
    alloc: Global,
    state: Ghost,
    turn: Turn,
    replies: &mut Vec<Reply>,
) -> Result<Ghost, OutcomesFault>
    requires { turn.cpu < state.layout.config.cpus }
    ensures told { IfOk result
        (λ g. GivesMore (layout_of state.layout)
        (ghost_state state) turn replies.old.items replies.new.items (ghost_state g)) }
    ensures layout { IfOk result (λ g. layout_of g.layout ≡ layout_of state.layout) }
    ensures fault { IfErr result (IsTurnFault (ghost_state state) turn) }
{
    let told = model_reply(alloc, &state, turn);
    drop(state);
    let (reply, after) = told?;
    match replies.push(reply) {
        Ok(()) => Ok(after),
        Err(_) => {
            drop(after);
            Err(OutcomesFault::NoMemory)
        }
    }
}

/// Makes steps in order, from a state: their replies, and the state after them.
pub fn first_steps(
    alloc: Global,
    state: Ghost,
    turns: &[Turn],
) -> Result<(Vec<Reply>, Ghost), OutcomesFault>
    requires cpus { All (λ t. t.cpu < state.layout.config.cpus) turns.now }
    ensures told { IfOk result
        (λ r. (r.0.items, ghost_state r.1)
        ≡ replies_along (layout_of state.layout) (ghost_state state) turns.now) }
    ensures layout { IfOk result (λ r. layout_of r.1.layout ≡ layout_of state.layout) }
    ensures fault { IfErr result (IsStepFault (layout_of state.layout) (ghost_state state) turns.now) }
{
    let mut state = state;
    let mut replies = Vec::new(alloc);
    for i in 0..turns.len() {
        state = one_step(alloc, state, turns[i], &mut replies)?;
    }
    Ok((replies, state))
}
