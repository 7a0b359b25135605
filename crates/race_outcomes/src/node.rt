//! A step of a CPU, and how far an order of steps has come.
ghost use Rattle.std.specs.Prelude.{◌≡◌, ◌≢◌, ◌↔◌, ℕ, ◌<◌, ◌++◌, ◌∷◌, [], List, IfErr, IfOk, IfSome, IsTrue, None, Ok, OnOk, Some, length, slice_get, slice_set};
ghost use Rattle.page_state.specs.LayoutView.{layout_of};
ghost use Rattle.ghost_spec.specs.States.{ghost_state};
ghost use Rattle.call_table.specs.Texts.{text_of_reply};
ghost use Rattle.race_outcomes.specs.Kept.{IsAtHand};
ghost use Rattle.race_outcomes.specs.Layers.{HasStep, IsPlaceFault, IsReady, IsStepAt};
ghost use Rattle.race_outcomes.specs.Orders.{IsNext, IsWanted, no_replies_yet};

use crate::finding::OutcomesFault;
use crate::kept::{Known, Made, Shared, States, made_at};
use call_table::{Reply, Step};
use ghost_spec::state::Ghost;
use std::alloc::{AllocError, Global};

/// A step that a CPU is to make.
#[derive(Clone, Copy)]
pub struct Turn {
    pub cpu: u64,
    pub step: Step,
    /// Whether the step finds no memory. If it can take memory, and the model makes it, its reply is `nomemory`, and nothing but
    /// the logs changes.
    pub wants: bool,
}

/// How far some order has come.
#[derive(Drop)]
pub(crate) struct Node {
    /// The state, which other nodes may have too.
    pub state: Shared,
    /// Where the steps that were made from this state may be kept.
    pub at: usize,
    /// The reply of each step that is made, by its place in the list of all steps.
    pub told: Vec<Option<Reply>>,
    /// The places of the steps that are made, in the order in which they are.
    pub order: Vec<usize>,
}

/// Whether each step of a CPU before a place is made.
fn is_made_before(turns: &[Turn], told: &[Option<Reply>], place: usize, cpu: u64) -> bool
    requires inside { place < length turns.now }
    requires count { length told.now ≡ length turns.now }
    ensures { IsTrue result
        ↔ ((j : ℕ) (t : Turn)
        → j < place
        → slice_get turns.now j ≡ Some t
        → t.cpu ≡ cpu
        → slice_get told.now j ≢ Some None) }
{
    for j in 0..place {
        if turns[j].cpu == cpu && told[j].is_none() {
            return false;
        }
    }
    true
}

/// Whether the step at a place can come next.
pub(crate) fn is_next(turns: &[Turn], told: &[Option<Reply>], place: usize) -> bool
    requires inside { place < length turns.now }
    requires count { length told.now ≡ length turns.now }
    ensures { IsTrue result ↔ ((turn : Turn) × IsNext turns.now told.now place turn) }
{
    told[place].is_none() && is_made_before(turns, told, place, turns[place].cpu)
}

/// Whether a reply has the wanted text, if there is one.
fn is_wanted(alloc: Global, wanted: &Option<Vec<u8>>, reply: Reply) -> Result<bool, AllocError>
    ensures { IfOk result (λ b. IsTrue b ↔ IsWanted wanted.now (Some reply)) }
{
    match wanted {
        Some(text) => reads(alloc, reply, text.as_slice()),
        None => Ok(true),
    }
}

/// Whether a reply reads so.
fn reads(alloc: Global, reply: Reply, text: &[u8]) -> Result<bool, AllocError>
    ensures { IfOk result (λ b. IsTrue b ↔ (text_of_reply reply ≡ text.now)) }
{
    let told = format!(in alloc; "{reply}")?;
    Ok(told.as_bytes() == text)
}

/// Where no step is made yet.
pub(crate) fn first_node(alloc: Global, state: &Ghost, turns: &[Turn]) -> Result<Node, AllocError>
    ensures state { IfOk result (λ n. ghost_state n.state ≡ ghost_state state.now) }
    ensures layout { IfOk result (λ n. layout_of n.state.layout ≡ layout_of state.now.layout) }
    ensures told { IfOk result (λ n. n.told.items ≡ no_replies_yet turns.now) }
    ensures order { IfOk result (λ n. n.order.items ≡ []) }
{
    let told = none_of(alloc, turns)?;
    let copy = state.copied(alloc)?;
    let state = Shared::new(alloc, copy)?;
    Ok(Node {
        state,
        at: 0,
        told,
        order: Vec::new(alloc),
    })
}

/// No reply for each step.
fn none_of(alloc: Global, turns: &[Turn]) -> Result<Vec<Option<Reply>>, AllocError>
    ensures { IfOk result (λ v. v.items ≡ no_replies_yet turns.now) }
{
    turns.iter().map(|_| None).collect(alloc)
}

/// The replies with one more.
fn told_with(
    alloc: Global,
    told: &[Option<Reply>],
    place: usize,
    reply: Reply,
) -> Result<Vec<Option<Reply>>, AllocError>
    requires { place < length told.now }
    ensures { IfOk result (λ v. v.items ≡ slice_set told.now place (Some reply)) }
{
    let mut more = Vec::from_slice(alloc, told)?;
    more[place] = Some(reply);
    Ok(more)
}

/// The order with one place more.
fn order_with(alloc: Global, order: &[usize], place: usize) -> Result<Vec<usize>, AllocError>
    ensures { IfOk result (λ v. v.items ≡ order.now ++ place ∷ []) }
{
    let mut more = Vec::from_slice(alloc, order)?;
    more.push(place)?;
    Ok(more)
}

/// The node with one step more, which was made.
fn node_with(alloc: Global, node: &Node, place: usize, made: Made) -> Result<Node, AllocError>
    requires { place < length node.now.told.items }
    ensures state { IfOk result (λ n. n.state ≡ made.state) }
    ensures told { IfOk result (λ n. n.told.items ≡ slice_set node.now.told.items place (Some made.reply)) }
    ensures order { IfOk result (λ n. n.order.items ≡ node.now.order.items ++ place ∷ []) }
{
    let told = told_with(alloc, node.told.as_slice(), place, made.reply)?;
    let order = order_with(alloc, node.order.as_slice(), place)?;
    let Made { state, at, .. } = made;
    Ok(Node {
        state,
        at,
        told,
        order,
    })
}

/// The node after the step at a place; None if its reply hasn't the wanted text.
pub(crate) fn next_node(
    alloc: Global,
    node: &Node,
    turns: &[Turn],
    wanted: &[Option<Vec<u8>>],
    place: usize,
    known: &mut Known,
    states: &mut States,
) -> Result<Option<Node>, OutcomesFault>
    requires inside { place < length turns.now }
    requires ready { IsReady turns.now wanted.now node.now }
    requires next { (turn : Turn) × IsNext turns.now node.now.told.items place turn }
    requires at_hand { IsAtHand node.now.state turns.now known.old states.old }
    ensures none { result ≡ Ok None → (new : List Node) → HasStep turns.now wanted.now node.now new place }
    ensures some { IfOk result (λ o. IfSome o (IsStepAt turns.now wanted.now node.now place)) }
    ensures at_hand { OnOk result (IsAtHand node.now.state turns.now known.new states.new) }
    ensures fault { IfErr result (IsPlaceFault turns.now node.now place) }
{
    let made = made_at(alloc, known, turns, place, turns[place], states)?;
    match is_wanted(alloc, &wanted[place], made.reply) {
        Ok(true) => {}
        Ok(false) => {
            drop(made);
            return Ok(None);
        }
        Err(_) => {
            drop(made);
            return Err(OutcomesFault::NoMemory);
        }
    }
    match node_with(alloc, node, place, made) {
        Ok(next) => Ok(Some(next)),
        Err(_) => Err(OutcomesFault::NoMemory),
    }
}
