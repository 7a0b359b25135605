//! The reference step with as many frames in the pools as it needs.
ghost use Rattle.std.specs.Prelude.{◌≡◌, ℕ, ◌<◌, None, IfOk, IfSome, OnOk, length};
ghost use Rattle.page_state.specs.LayoutView.{layout_of};
ghost use Rattle.freedoms.specs.Ample.{asks_pool as asks_pool_of};
ghost use Rattle.ghost_spec.specs.Kept.{HasNextGeneration};
ghost use Rattle.ghost_spec.specs.States.{contents_in, ghost_state};
ghost use Rattle.free_judge.specs.Asked.{filled_by, most_needed, AreOutside, IsOpen, IsPredictedAmply};

use crate::bare::{bare, with_frames};
use crate::same::asks_pool;
use call_table::{Refusal, Reply, Step};
use ghost_spec::lists::GhostRooms;
use ghost_spec::start::equal_rooms;
use ghost_spec::state::{Ghost, predict_last};
use std::alloc::{AllocError, Global};

/// A frame that no memory has: all pages lie below it.
const NO_FRAME: u64 = 1 << 26;

/// Each log has room for one call.
fn open(alloc: Global, state: Ghost) -> Result<Ghost, AllocError>
    ensures contents { IfOk result (λ g. contents_in g ≡ contents_in state) }
    ensures layout { IfOk result (λ g. g.layout ≡ state.layout) }
    ensures rooms { IfOk result (λ g. IsOpen state.layout.config.cpus (ghost_state g).rooms) }
{
    let cpus_count = state.lists().layout.config.cpus;
    let guests = equal_rooms(alloc, 64, 1)?;
    let cpus = equal_rooms(alloc, cpus_count, 1)?;
    let mut lists = state.into_lists();
    lists.rooms = GhostRooms {
        vms: 1,
        shared: 1,
        guests,
        cpus,
    };
    Ok(Ghost::of_kept(lists))
}

/// The state with these free frames in each pool that the step doesn't ask.
fn filled(alloc: Global, state: &Ghost, step: Step, frames: &[u64]) -> Result<Ghost, AllocError>
    requires { AreOutside frames.now }
    ensures contents { IfOk result
        (λ g. contents_in g ≡ filled_by (asks_pool_of step) frames.now (contents_in state.now)) }
    ensures layout { IfOk result (λ g. layout_of g.layout ≡ layout_of state.now.layout) }
{
    if asks_pool(step) {
        with_frames(alloc, state, frames)
    } else {
        bare(alloc, state, frames)
    }
}

/// That state, with room for a call in each log.
fn ready(alloc: Global, state: &Ghost, step: Step, frames: &[u64]) -> Result<Ghost, AllocError>
    requires { AreOutside frames.now }
    ensures contents { IfOk result
        (λ g. contents_in g ≡ filled_by (asks_pool_of step) frames.now (contents_in state.now)) }
    ensures layout { IfOk result (λ g. layout_of g.layout ≡ layout_of state.now.layout) }
    ensures rooms { IfOk result (λ g. IsOpen state.now.layout.config.cpus (ghost_state g).rooms) }
{
    let made = filled(alloc, state, step, frames)?;
    let open = open(alloc, made)?;
    Ok(open)
}

/// The reference step with these free frames in each pool that it doesn't read; None if they are too few.
fn attempted(
    alloc: Global,
    state: &Ghost,
    cpu: u64,
    step: Step,
    frames: &[u64],
) -> Result<Option<(Reply, Ghost)>, AllocError>
    requires cpu { cpu < state.now.layout.config.cpus }
    requires generation { HasNextGeneration ((contents_in state.now).cpu cpu).ticket step }
    requires frames { AreOutside frames.now }
    ensures told { IfOk result
        (λ o. IfSome o
        (λ r. IsPredictedAmply (layout_of state.now.layout) (contents_in state.now) cpu step r.0
        (contents_in r.1))) }
    ensures layout { IfOk result (λ o. IfSome o (λ r. layout_of r.1.layout ≡ layout_of state.now.layout)) }
    ensures short { IfOk result
        (λ o. o ≡ None
        → length frames.now < most_needed (layout_of state.now.layout)
        (contents_in state.now) cpu step) }
{
    let _ = state.lists().layout.map.regions();
    let before = ready(alloc, state, step, frames)?;
    let (reply, after) = predict_last(alloc, before, cpu, step)?;
    if reply == Reply::Refused(Refusal::NoPool) {
        drop(after);
        return Ok(None);
    }
    Ok(Some((reply, after)))
}

/// The reference step if the pools may hold any number of frames and logs are ignored: the reply, unless memory runs
/// out, and the state after it, apart from tables and free frames. A step that reads a guest's pool reads the pool of
/// the state. Err if the allocator refuses memory.
pub fn predict_amply(
    alloc: Global,
    state: &Ghost,
    cpu: u64,
    step: Step,
) -> Result<(Reply, Ghost), AllocError>
    requires cpu { cpu < state.now.layout.config.cpus }
    requires generation { HasNextGeneration ((contents_in state.now).cpu cpu).ticket step }
    ensures told { IfOk result
        (λ r. IsPredictedAmply (layout_of state.now.layout) (contents_in state.now) cpu step r.0
        (contents_in r.1)) }
    ensures layout { IfOk result (λ r. layout_of r.1.layout ≡ layout_of state.now.layout) }
{
    let mut count: u64 = 0;
    'tries: loop {
        count = count.saturating_add(16);
        let frames = equal_rooms(alloc, count, NO_FRAME)?;
        if let Some(told) = attempted(alloc, state, cpu, step, frames.as_slice())? {
            return Ok(told);
        }
    }
}
