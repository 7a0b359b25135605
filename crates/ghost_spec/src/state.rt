//! The reference state, and the reference step of it.
ghost use Rattle.std.specs.Prelude.{◌≡◌, ◌<◌, ◌↔◌, IfOk, IsTrue};
ghost use Rattle.page_state.specs.LayoutView.{layout_of};
ghost use Rattle.reference_model.specs.model.Step.{predict_step};
ghost use Rattle.ghost_spec.specs.Kept.{HasNextGeneration};
ghost use Rattle.ghost_spec.specs.States.{contents_in, ghost_state, IsKept};

use crate::lists::GhostLists;
use call_table::{Reply, Step};
use std::alloc::{AllocError, Global};
use std::marker::Model;

/// The reference state: lists of the layout's lengths, with runs sorted, disjoint and joined, and with small numbers.
// Why it has an invariant: docs/DECISIONS.md, 4.
#[derive(Drop)]
pub struct Ghost {
    lists: GhostLists,
}

impl Model for Ghost {
    ghost use Rattle.ghost_spec.specs.declared.lists.GhostLists.{GhostLists};
    ghost use Rattle.ghost_spec.specs.States.{IsKept};

    ghost Value = { GhostLists };

    ghost view = { λ g. g.lists };

    ghost invariant = { λ g. IsKept g.lists };
}

impl Ghost {
    ghost use Rattle.page_state.specs.LayoutView.{layout_of};
    ghost use Rattle.ghost_spec.specs.States.{ghost_state, IsKept};

    /// The state of lists of which all this is known. `Ghost::of` tests any lists.
    pub fn of_kept(lists: GhostLists) -> Ghost
        requires { IsKept lists }
        ensures { result ≡ lists }
    {
        Ghost { lists }
    }

    /// The lists of the state.
    pub fn lists(&self) -> &GhostLists
        ensures value { result.now ≡ self.now }
        ensures kept { IsKept self.now }
    {
        &self.lists
    }

    /// The lists of the state, to be changed.
    pub fn into_lists(self) -> GhostLists
        ensures value { result ≡ self }
        ensures kept { IsKept result }
    {
        let Ghost { lists } = self;
        lists
    }

    /// A copy of the state.
    pub fn copied(&self, alloc: Global) -> Result<Ghost, AllocError>
        ensures state { IfOk result (λ g. ghost_state g ≡ ghost_state self.now) }
        ensures layout { IfOk result (λ g. layout_of g.layout ≡ layout_of self.now.layout) }
    {
        let lists = self.lists.copied(alloc)?;
        Ok(Ghost { lists })
    }
}

/// Whether `predict` can make a step of a CPU: it doesn't release a VM whose generation is the greatest u64.
pub fn has_next_generation(state: &Ghost, cpu: u64, step: Step) -> bool
    requires { cpu < state.now.layout.config.cpus }
    ensures { IsTrue result ↔ HasNextGeneration ((contents_in state.now).cpu cpu).ticket step }
{
    match (step, state.lists().cpus[cpu as usize].ticket) {
        (Step::VmRelease, Some(ticket)) => ticket.vm.generation < u64::MAX,
        _ => true,
    }
}

/// As `predict`, for a caller that no longer needs the state before: it becomes the state after, and no copy is made.
pub fn predict_last(
    alloc: Global,
    state: Ghost,
    cpu: u64,
    step: Step,
) -> Result<(Reply, Ghost), AllocError>
    requires cpu { cpu < state.layout.config.cpus }
    requires generation { HasNextGeneration ((contents_in state).cpu cpu).ticket step }
    ensures predicted { IfOk result
        (λ r. (r.0, ghost_state r.1)
        ≡ predict_step (layout_of state.layout) (ghost_state state) cpu step) }
    ensures layout { IfOk result (λ r. r.1.layout ≡ state.layout) }
{
    let mut lists = state.into_lists();
    let Ok(reply) = lists.advance(alloc, cpu, step) else {
        drop(lists);
        return Err(AllocError);
    };
    Ok((reply, Ghost { lists }))
}

/// The reference step, for memory that doesn't run out: the reply, and the state after it. Err if the allocator refuses
/// memory.
pub fn predict(
    alloc: Global,
    state: &Ghost,
    cpu: u64,
    step: Step,
) -> Result<(Reply, Ghost), AllocError>
    requires cpu { cpu < state.now.layout.config.cpus }
    requires generation { HasNextGeneration ((contents_in state.now).cpu cpu).ticket step }
    ensures predicted { IfOk result
        (λ r. (r.0, ghost_state r.1)
        ≡ predict_step (layout_of state.now.layout) (ghost_state state.now) cpu step) }
    ensures layout { IfOk result (λ r. layout_of r.1.layout ≡ layout_of state.now.layout) }
{
    let after = state.copied(alloc)?;
    predict_last(alloc, after, cpu, step)
}
