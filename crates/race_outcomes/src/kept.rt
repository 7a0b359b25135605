//! States that several nodes share, and the steps that were made from them.
ghost use Rattle.std.specs.Prelude.{◌≡◌, ℕ, ◌<◌, List, All, IfErr, IfOk, IfSome, IsTrue, OnOk, Some, length, slice_get};
ghost use Rattle.page_state.specs.LayoutView.{layout_of};
ghost use Rattle.ghost_spec.specs.States.{ghost_state};
ghost use Rattle.race_outcomes.specs.Kept.{AreOfLayout, IsKnown, IsTurnFault, LeadsTo, StayKnown};

use crate::answer::model_reply;
use crate::finding::OutcomesFault;
use crate::node::Turn;
use crate::same::is_same_state;
use call_table::Reply;
use ghost_spec::state::Ghost;
use std::alloc::{AllocError, Global};
use std::marker::Model;
use std::rc::Rc;

/// How many keys of states there are.
const KEYS: usize = 4093;

/// A state that several nodes may share.
#[derive(Drop)]
pub(crate) struct Shared {
    state: Rc<Ghost>,
}

impl Model for Shared {
    ghost use Rattle.ghost_spec.specs.declared.lists.GhostLists.{GhostLists};

    ghost Value = { GhostLists };

    ghost view = { λ s. s.state.value };
}

impl Shared {
    ghost use Rattle.std.specs.Prelude.{◌≡◌, IfOk};

    /// A state that has one owner so far.
    pub(crate) fn new(alloc: Global, state: Ghost) -> Result<Shared, AllocError>
        ensures { IfOk result (λ s. s ≡ state) }
    {
        let state = Rc::new(alloc, state)?;
        Ok(Shared { state })
    }

    /// The state.
    pub(crate) fn get(&self) -> &Ghost
        ensures { result.now ≡ self.now }
    {
        self.state.as_ref()
    }

    /// The same state, with one owner more.
    pub(crate) fn again(&self) -> Result<Shared, AllocError>
        ensures { IfOk result (λ s. s ≡ self.now) }
    {
        let state = self.state.clone()?;
        Ok(Shared { state })
    }
}

/// A step from a state: its place and reply, the state after it, and the place for the steps known from there.
#[derive(Drop)]
pub(crate) struct Made {
    pub place: usize,
    pub reply: Reply,
    pub state: Shared,
    pub at: usize,
}

/// A state, and the steps that were made from it.
#[derive(Drop)]
pub(crate) struct Known {
    pub state: Shared,
    pub made: Vec<Made>,
}

/// States, and the places of those of each key.
#[derive(Drop)]
pub(crate) struct States {
    pub states: Vec<Shared>,
    pub places: Vec<Vec<usize>>,
}

impl Made {
    ghost use Rattle.std.specs.Prelude.{◌≡◌, IfOk};

    /// A copy.
    fn again(&self) -> Result<Made, AllocError>
        ensures place { IfOk result (λ m. m.place ≡ self.now.place) }
        ensures reply { IfOk result (λ m. m.reply ≡ self.now.reply) }
        ensures state { IfOk result (λ m. m.state ≡ self.now.state) }
    {
        let state = self.state.again()?;
        Ok(Made {
            place: self.place,
            reply: self.reply,
            state,
            at: self.at,
        })
    }
}

/// The key of a state: by the rooms of the CPUs' logs, and so by how many steps each has made.
fn state_key(state: &Ghost) -> usize {
    let mut key = 0;
    let rooms = state.lists().rooms.cpus.as_slice();
    for i in 0..rooms.len() {
        key = (key * 31 + (rooms[i] % 1024) as usize) % KEYS;
    }
    key
}

impl States {
    ghost use Rattle.std.specs.Prelude.{
      ◌≡◌,
      ◌<◌,
      [],
      All,
      IfOk,
      IfSome,
      IsTrue,
      OnOk,
      Some,
      length,
      slice_get,
    };
    ghost use Rattle.page_state.specs.LayoutView.{layout_of};
    ghost use Rattle.ghost_spec.specs.States.{ghost_state};
    ghost use Rattle.race_outcomes.specs.Kept.{AreOfLayout};

    /// No state.
    pub(crate) fn new(alloc: Global) -> Result<States, AllocError>
        ensures { IfOk result (λ s. s.states.items ≡ []) }
    {
        let mut places = Vec::with_capacity(alloc, KEYS)?;
        for _ in 0..KEYS {
            places.push(Vec::new(alloc))?;
        }
        Ok(States {
            states: Vec::new(alloc),
            places,
        })
    }

    /// Whether the state at a place is this one.
    fn is_at(&self, place: usize, state: &Ghost) -> bool
        ensures inside { IsTrue result → place < length self.now.states.items }
        ensures same { IsTrue result
            → (g : Shared)
            → slice_get self.now.states.items place ≡ Some g
            → ghost_state g ≡ ghost_state state.now }
    {
        if place >= self.states.len() {
            return false;
        }
        is_same_state(self.states[place].get(), state)
    }

    /// The place of this state, if its key finds it.
    fn place_of(&self, key: usize, state: &Ghost) -> Option<usize>
        ensures inside { IfSome result (λ i. i < length self.now.states.items) }
        ensures same { IfSome result
            (λ i. (g : Shared)
            → slice_get self.now.states.items i ≡ Some g
            → ghost_state g ≡ ghost_state state.now) }
    {
        if key >= self.places.len() {
            return None;
        }
        let those = self.places[key].as_slice();
        for i in 0..those.len() {
            let place = those[i];
            if self.is_at(place, state) {
                return Some(place);
            }
        }
        None
    }

    /// Adds a place to those of a key.
    fn add_place(&mut self, key: usize, place: usize) -> Result<(), AllocError>
        ensures { self.new.states ≡ self.old.states }
    {
        if key < self.places.len() {
            self.places[key].push(place)?;
        }
        Ok(())
    }

    /// Adds a state: the same, and its place.
    fn push(
        &mut self,
        alloc: Global,
        key: usize,
        state: Ghost,
    ) -> Result<(Shared, usize), AllocError>
        requires { AreOfLayout (layout_of state.layout) self.old.states.items }
        ensures state { IfOk result (λ r. r.0 ≡ state) }
        ensures layouts { OnOk result (AreOfLayout (layout_of state.layout) self.new.states.items) }
    {
        let state = Shared::new(alloc, state)?;
        let again = state.again()?;
        let place = self.states.len();
        self.add_place(key, place)?;
        self.states.push(again)?;
        Ok((state, place))
    }

    /// A state, shared with the nodes that have it, if it is known, and its place among all.
    pub(crate) fn shared(
        &mut self,
        alloc: Global,
        state: Ghost,
    ) -> Result<(Shared, usize), AllocError>
        requires { AreOfLayout (layout_of state.layout) self.old.states.items }
        ensures state { IfOk result (λ r. ghost_state r.0 ≡ ghost_state state) }
        ensures layout { IfOk result (λ r. layout_of r.0.layout ≡ layout_of state.layout) }
        ensures layouts { OnOk result (AreOfLayout (layout_of state.layout) self.new.states.items) }
    {
        let key = state_key(&state);
        match self.place_of(key, &state) {
            Some(place) => {
                drop(state);
                let there = self.states[place].again()?;
                Ok((there, place))
            }
            None => self.push(alloc, key, state),
        }
    }
}

/// Where the step at this place is, among steps that were made.
fn find(made: &[Made], place: usize) -> Option<usize>
    ensures inside { IfSome result (λ i. i < length made.now) }
    ensures place { IfSome result (λ i. (m : Made) → slice_get made.now i ≡ Some m → m.place ≡ place) }
{
    for i in 0..made.len() {
        if made[i].place == place {
            return Some(i);
        }
    }
    None
}

/// Makes the step at a place, and keeps it.
fn make(
    alloc: Global,
    known: &mut Known,
    turns: &[Turn],
    place: usize,
    turn: Turn,
    states: &mut States,
) -> Result<Made, OutcomesFault>
    requires at { slice_get turns.now place ≡ Some turn }
    requires cpu { turn.cpu < known.old.state.layout.config.cpus }
    requires known { IsKnown (layout_of known.old.state.layout) turns.now known.old }
    requires layouts { AreOfLayout (layout_of known.old.state.layout) states.old.states.items }
    ensures leads { IfOk result
        (λ m. LeadsTo (layout_of known.old.state.layout)
        (ghost_state known.old.state) turn m.reply m.state) }
    ensures state { known.new.state ≡ known.old.state }
    ensures known { OnOk result (IsKnown (layout_of known.old.state.layout) turns.now known.new) }
    ensures layouts { OnOk result (AreOfLayout (layout_of known.old.state.layout) states.new.states.items) }
    ensures fault { IfErr result (IsTurnFault (ghost_state known.old.state) turn) }
{
    let (reply, after) = model_reply(alloc, known.state.get(), turn)?;
    let Ok((state, at)) = states.shared(alloc, after) else {
        return Err(OutcomesFault::NoMemory);
    };
    let made = Made {
        place,
        reply,
        state,
        at,
    };
    let Ok(again) = made.again() else {
        drop(made);
        return Err(OutcomesFault::NoMemory);
    };
    match known.made.push(again) {
        Ok(()) => Ok(made),
        Err(_) => {
            drop(made);
            Err(OutcomesFault::NoMemory)
        }
    }
}

/// Makes the step at a place, unless it was made before.
pub(crate) fn made_at(
    alloc: Global,
    known: &mut Known,
    turns: &[Turn],
    place: usize,
    turn: Turn,
    states: &mut States,
) -> Result<Made, OutcomesFault>
    requires at { slice_get turns.now place ≡ Some turn }
    requires cpu { turn.cpu < known.old.state.layout.config.cpus }
    requires known { IsKnown (layout_of known.old.state.layout) turns.now known.old }
    requires layouts { AreOfLayout (layout_of known.old.state.layout) states.old.states.items }
    ensures leads { IfOk result
        (λ m. LeadsTo (layout_of known.old.state.layout)
        (ghost_state known.old.state) turn m.reply m.state) }
    ensures state { known.new.state ≡ known.old.state }
    ensures known { OnOk result (IsKnown (layout_of known.old.state.layout) turns.now known.new) }
    ensures layouts { OnOk result (AreOfLayout (layout_of known.old.state.layout) states.new.states.items) }
    ensures fault { IfErr result (IsTurnFault (ghost_state known.old.state) turn) }
{
    match find(known.made.as_slice(), place) {
        Some(i) => match known.made[i].again() {
            Ok(made) => Ok(made),
            Err(_) => Err(OutcomesFault::NoMemory),
        },
        None => make(alloc, known, turns, place, turn, states),
    }
}

/// Whether the known state at a place is this one.
fn is_known_at(known: &[Known], at: usize, state: &Ghost) -> bool
    ensures inside { IsTrue result → at < length known.now }
    ensures same { IsTrue result
        → (k : Known)
        → slice_get known.now at ≡ Some k
        → ghost_state k.state ≡ ghost_state state.now }
{
    if at >= known.len() {
        return false;
    }
    is_same_state(known[at].state.get(), state)
}

/// The place of a state among known ones: the given place, or else the end of the list, to which it is added.
pub(crate) fn known_at(
    alloc: Global,
    known: &mut Vec<Known>,
    at: usize,
    state: &Shared,
) -> Result<usize, AllocError>
    ensures inside { IfOk result (λ i. i < length known.new.items) }
    ensures same { IfOk result
        (λ i. (k : Known)
        → slice_get known.new.items i ≡ Some k
        → ghost_state k.state ≡ ghost_state state.now) }
    ensures known { OnOk result (StayKnown (layout_of state.now.layout) known.old.items known.new.items) }
{
    if is_known_at(known.as_slice(), at, state.get()) {
        return Ok(at);
    }
    let place = known.len();
    let state = state.again()?;
    known.push(Known {
        state,
        made: Vec::new(alloc),
    })?;
    Ok(place)
}
