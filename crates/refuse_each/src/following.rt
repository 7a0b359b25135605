//! The plain program of the model along calls.
use crate::machine_end::booted_world;
use call_table::{Refusal, Reply, Step};
use ghost_spec::state::{Ghost, has_next_generation, predict};
use std::alloc::{AllocError, Global};

/// Where calls lead.
#[derive(Drop)]
pub struct Reached {
    /// The state after them.
    pub state: Ghost,
    /// The number of calls that were refused for lack of memory. Each of these leaves the state.
    pub wanting: usize,
}

/// Follows a call. None if its reply isn't the model's, unless it is a lack of memory in a call that the model makes.
fn follow_one(
    global: Global,
    state: Ghost,
    call: (u64, Step, Reply),
) -> Result<Option<Reached>, AllocError> {
    let (cpu, step, reply) = call;
    if cpu >= state.lists().layout.config.cpus {
        return Ok(None);
    }
    if !has_next_generation(&state, cpu, step) {
        return Ok(None);
    }
    let (predicted, after) = predict(global, &state, cpu, step)?;
    if predicted == reply {
        let wanting = 0;
        return Ok(Some(Reached {
            state: after,
            wanting,
        }));
    }
    drop(after);
    if reply == Reply::Refused(Refusal::NoMemory) && matches!(predicted, Reply::Done(_)) {
        return Ok(Some(Reached { state, wanting: 1 }));
    }
    Ok(None)
}

/// Follows calls, one after another. None if one of them can't be followed.
pub fn follow(
    global: Global,
    begun: Ghost,
    calls: &[(u64, Step, Reply)],
) -> Result<Option<Reached>, AllocError> {
    let mut state = begun;
    let mut wanting = 0usize;
    for call in calls {
        let Some(reached) = follow_one(global, state, *call)? else {
            return Ok(None);
        };
        wanting = wanting.wrapping_add(reached.wanting);
        state = reached.state;
    }
    Ok(Some(Reached { state, wanting }))
}

/// Whether the calls get the model's replies from boot on. None if memory is refused.
pub fn follows(global: Global, calls: &[(u64, Step, Reply)]) -> Option<bool> {
    let world = booted_world(global)?;
    let begun = world.to_ghost(global).ok()?;
    let reached = follow(global, begun, calls).ok()?;
    Some(matches!(&reached, Some(it) if it.wanting == 0))
}
