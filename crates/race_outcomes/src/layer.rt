//! The nodes that orders of a given number of steps lead to, each point once.
ghost use Rattle.std.specs.Prelude.{◌≡◌, ℕ, ◌<◌, [], All, Contains, IfErr, IfOk, IsTrue, OnOk, false, length};
ghost use Rattle.page_state.specs.LayoutView.{layout_of};
ghost use Rattle.race_outcomes.specs.Kept.{AreKnown, IsAtHand};
ghost use Rattle.race_outcomes.specs.Layers.{AreApart, AreNext, HasStep, HaveOneLayout, IsAddFault, IsAdded, IsApartFrom, IsIndexed, IsLayerFault, IsReady, IsSpread, IsSpreadFault, key_of, number_of, points_of, point_of};

use crate::finding::OutcomesFault;
use crate::kept::{Known, States, known_at};
use crate::node::{Node, Turn, is_next, next_node};
use crate::same::is_same_state;
use call_table::{Refusal, Reply};
use std::alloc::{AllocError, Global};
use trace_reader::Progress;

/// How many keys there are.
const KEYS: usize = 4093;

/// Nodes, each point once, the places of those of each key, and their states.
#[derive(Drop)]
pub(crate) struct Layer {
    pub nodes: Vec<Node>,
    pub places: Vec<Vec<usize>>,
    pub states: States,
}

/// A number for a reply.
fn number(reply: Option<Reply>) -> usize
    ensures is { result ≡ number_of reply }
    ensures low { result < 9 }
{
    match reply {
        None => 1,
        Some(Reply::Done(_)) => 2,
        Some(Reply::Refused(why)) => match why {
            Refusal::Perm => 3,
            Refusal::NoVm => 4,
            Refusal::Busy => 5,
            Refusal::Invalid => 6,
            Refusal::NoPool => 7,
            _ => 8,
        },
    }
}

/// The key of replies.
fn key(told: &[Option<Reply>]) -> usize
    ensures is { result ≡ key_of told.now }
    ensures low { result < 4093 }
{
    let mut key = 0;
    for i in 0..told.len() {
        key = (key * 31 + number(told[i])) % KEYS;
    }
    key
}

/// Whether two nodes are at one point.
fn is_same_point(a: &Node, b: &Node) -> bool
    ensures same { IsTrue result → point_of a.now ≡ point_of b.now }
    ensures apart { result ≡ false → AreApart a.now b.now }
{
    if a.told == b.told {
        let one = a.state.get();
        let other = b.state.get();
        return is_same_state(one, other);
    }
    false
}

/// No place for each key.
fn no_places(alloc: Global) -> Result<Vec<Vec<usize>>, AllocError>
    ensures { IfOk result (λ v. length v.items ≡ 4093) }
{
    let mut places = Vec::with_capacity(alloc, KEYS)?;
    for _ in 0..KEYS {
        places.push(Vec::new(alloc))?;
    }
    Ok(places)
}

impl Layer {
    ghost use Rattle.std.specs.Prelude.{
      ◌≡◌,
      ◌<◌,
      ◌++◌,
      ◌∷◌,
      [],
      Contains,
      IfErr,
      IfOk,
      IsTrue,
      OnOk,
      Some,
      false,
      get_or,
      length,
      slice_get,
      slice_set as set,
    };
    ghost use Rattle.race_outcomes.specs.declared.node.Node.{Node as TheNode};
    ghost use Rattle.race_outcomes.specs.Layers.{
      AreApart,
      places_in,
      IsAddFault,
      IsAdded,
      IsApartFrom,
      IsIndexed,
      key_of,
      point_of,
      points_of,
    };

    /// No node.
    fn new(alloc: Global) -> Result<Layer, AllocError>
        ensures none { IfOk result (λ x. x.nodes.items ≡ []) }
        ensures indexed { IfOk result IsIndexed }
        ensures states { IfOk result (λ x. x.states.states.items ≡ []) }
    {
        let states = States::new(alloc)?;
        let places = no_places(alloc)?;
        Ok(Layer {
            nodes: Vec::new(alloc),
            places,
            states,
        })
    }

    /// Whether a node is at the point of another, whose replies have this key.
    fn has(&self, key: usize, node: &Node) -> bool
        requires indexed { IsIndexed self.now }
        requires key { key ≡ key_of node.now.told.items }
        requires low { key < 4093 }
        ensures same { IsTrue result → Contains (points_of self.now.nodes.items) (point_of node.now) }
        ensures apart { result ≡ false → IsApartFrom self.now.nodes.items node.now }
    {
        let those = self.places[key].as_slice();
        for i in 0..those.len() {
            if self.is_at(those[i], node) {
                return true;
            }
        }
        false
    }

    /// Whether the node at a place is at the point of another.
    fn is_at(&self, place: usize, node: &Node) -> bool
        ensures same { IsTrue result → Contains (points_of self.now.nodes.items) (point_of node.now) }
        ensures apart { result ≡ false
            → (m : TheNode)
            → slice_get self.now.nodes.items place ≡ Some m
            → AreApart m node.now }
    {
        if place >= self.nodes.len() {
            return false;
        }
        is_same_point(&self.nodes[place], node)
    }

    /// Adds a node, unless the layer has its point. The layer holds at most `limit` nodes.
    fn add(&mut self, node: Node, limit: usize) -> Result<(), OutcomesFault>
        requires { IsIndexed self.old }
        ensures added { OnOk result (IsAdded self.old.nodes.items node self.new.nodes.items) }
        ensures indexed { OnOk result (IsIndexed self.new) }
        ensures states { self.new.states ≡ self.old.states }
        ensures fault { IfErr result (IsAddFault limit self.old.nodes.items node) }
    {
        let key = key(node.told.as_slice());
        if self.has(key, &node) {
            drop(node);
            return Ok(());
        }
        if self.nodes.len() >= limit {
            let made = node.order.len() as u64;
            drop(node);
            return Err(OutcomesFault::TooMany(made));
        }
        match self.push(key, node) {
            Ok(()) => Ok(()),
            Err(_) => Err(OutcomesFault::NoMemory),
        }
    }

    /// Adds a node at a new point, whose replies have this key.
    fn push(&mut self, key: usize, node: Node) -> Result<(), AllocError>
        requires indexed { IsIndexed self.old }
        requires key { key ≡ key_of node.told.items }
        requires low { key < 4093 }
        requires apart { IsApartFrom self.old.nodes.items node }
        ensures added { OnOk result (self.new.nodes.items ≡ self.old.nodes.items ++ node ∷ []) }
        ensures indexed { OnOk result (IsIndexed self.new) }
        ensures states { self.new.states ≡ self.old.states }
    {
        let place = self.nodes.len();
        match self.add_place(key, place) {
            Ok(()) => {
                self.nodes.push(node)?;
                Ok(())
            }
            Err(_) => {
                drop(node);
                Err(AllocError)
            }
        }
    }

    /// Adds a place to those of a key.
    fn add_place(&mut self, key: usize, place: usize) -> Result<(), AllocError>
        requires { key < length self.old.places.items }
        ensures nodes { self.new.nodes ≡ self.old.nodes }
        ensures places { OnOk result
            (places_in self.new
            ≡ set (places_in self.old) key
            (get_or (places_in self.old) key [] ++ place ∷ [])) }
        ensures count { length self.new.places.items ≡ length self.old.places.items }
        ensures states { self.new.states ≡ self.old.states }
    {
        self.places[key].push(place)?;
        Ok(())
    }
}

/// Adds the node after the step at a place, if that step can come next and its reply has the wanted text.
fn spread_at(
    alloc: Global,
    turns: &[Turn],
    wanted: &[Option<Vec<u8>>],
    node: &Node,
    place: usize,
    known: &mut Known,
    limit: usize,
    layer: &mut Layer,
) -> Result<(), OutcomesFault>
    requires inside { place < length turns.now }
    requires ready { IsReady turns.now wanted.now node.now }
    requires indexed { IsIndexed layer.old }
    requires at_hand { IsAtHand node.now.state turns.now known.old layer.old.states }
    ensures spread { OnOk result
        (IsSpread turns.now wanted.now node.now layer.old.nodes.items layer.new.nodes.items) }
    ensures has { OnOk result (HasStep turns.now wanted.now node.now layer.new.nodes.items place) }
    ensures indexed { OnOk result (IsIndexed layer.new) }
    ensures at_hand { OnOk result (IsAtHand node.now.state turns.now known.new layer.new.states) }
    ensures fault { IfErr result (IsSpreadFault turns.now wanted.now limit node.now layer.old.nodes.items) }
{
    if !is_next(turns, node.told.as_slice(), place) {
        return Ok(());
    }
    match next_node(alloc, node, turns, wanted, place, known, &mut layer.states)? {
        Some(next) => layer.add(next, limit),
        None => Ok(()),
    }
}

/// Adds all nodes that a next step leads to.
fn spread(
    alloc: Global,
    turns: &[Turn],
    wanted: &[Option<Vec<u8>>],
    node: &Node,
    known: &mut Known,
    limit: usize,
    layer: &mut Layer,
) -> Result<(), OutcomesFault>
    requires ready { IsReady turns.now wanted.now node.now }
    requires indexed { IsIndexed layer.old }
    requires at_hand { IsAtHand node.now.state turns.now known.old layer.old.states }
    ensures spread { OnOk result
        (IsSpread turns.now wanted.now node.now layer.old.nodes.items layer.new.nodes.items) }
    ensures has { OnOk result
        ((place : ℕ) → HasStep turns.now wanted.now node.now layer.new.nodes.items place) }
    ensures indexed { OnOk result (IsIndexed layer.new) }
    ensures at_hand { OnOk result (IsAtHand node.now.state turns.now known.new layer.new.states) }
    ensures fault { IfErr result (IsSpreadFault turns.now wanted.now limit node.now layer.old.nodes.items) }
{
    for place in 0..turns.len() {
        spread_at(alloc, turns, wanted, node, place, known, limit, layer)?;
    }
    Ok(())
}

/// Adds all nodes that a next step leads to, with the states whose steps are known so far.
fn spread_known(
    alloc: Global,
    turns: &[Turn],
    wanted: &[Option<Vec<u8>>],
    node: &Node,
    known: &mut Vec<Known>,
    limit: usize,
    layer: &mut Layer,
) -> Result<(), OutcomesFault>
    requires ready { IsReady turns.now wanted.now node.now }
    requires indexed { IsIndexed layer.old }
    requires known { AreKnown (layout_of node.now.state.layout) turns.now known.old.items layer.old.states }
    ensures spread { OnOk result
        (IsSpread turns.now wanted.now node.now layer.old.nodes.items layer.new.nodes.items) }
    ensures has { OnOk result
        ((place : ℕ) → HasStep turns.now wanted.now node.now layer.new.nodes.items place) }
    ensures indexed { OnOk result (IsIndexed layer.new) }
    ensures known { OnOk result
        (AreKnown (layout_of node.now.state.layout) turns.now known.new.items layer.new.states) }
    ensures fault { IfErr result (IsSpreadFault turns.now wanted.now limit node.now layer.old.nodes.items) }
{
    let Ok(at) = known_at(alloc, known, node.at, &node.state) else {
        return Err(OutcomesFault::NoMemory);
    };
    spread(alloc, turns, wanted, node, &mut known[at], limit, layer)
}

/// The nodes one step further.
pub(crate) fn next_layer<P: Progress>(
    alloc: Global,
    turns: &[Turn],
    wanted: &[Option<Vec<u8>>],
    nodes: &[Node],
    limit: usize,
    progress: &P,
) -> Result<Vec<Node>, OutcomesFault>
    requires ready { All (IsReady turns.now wanted.now) nodes.now }
    requires layouts { HaveOneLayout nodes.now }
    ensures next { IfOk result (λ v. AreNext turns.now wanted.now nodes.now v.items) }
    ensures fault { IfErr result (IsLayerFault turns.now wanted.now limit nodes.now) }
{
    let Ok(mut layer) = Layer::new(alloc) else {
        return Err(OutcomesFault::NoMemory);
    };
    let mut known = Vec::new(alloc);
    for i in 0..nodes.len() {
        spread_known(
            alloc, turns, wanted, &nodes[i], &mut known, limit, &mut layer,
        )?;
        progress.advance(1);
    }
    drop(known);
    let Layer {
        nodes,
        places,
        states,
    } = layer;
    drop(places);
    drop(states);
    Ok(nodes)
}
