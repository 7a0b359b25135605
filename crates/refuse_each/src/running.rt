//! A run of all steps of a trace, with each of its requests for memory refused in turn.
ghost use Rattle.std.specs.Prelude.{◌<◌, All, IfSome};

use crate::following::follow;
use crate::refusing::{MOST, has_met, refuse_nth};
use call_table::{Reply, Step};
use ghost_spec::state::Ghost;
use page_state::{Config, MemoryMap};
use std::alloc::Global;
use trace_race::Course;
use world::World;

/// The steps of a trace. None if one is of a CPU that doesn't exist, or memory is refused.
fn asked_of(global: Global, course: &Course, cpus: u64) -> Option<Vec<(u64, Step)>>
    ensures { IfSome result (λ v. All (λ s. s.0 < cpus) v.items) }
{
    let mut steps = Vec::new(global);
    for asked in course.steps.as_slice() {
        if asked.cpu >= cpus {
            return None;
        }
        let Ok(()) = steps.push((asked.cpu, asked.step)) else {
            return None;
        };
    }
    Some(steps)
}

/// The calls that steps and their replies make.
fn calls_of(
    global: Global,
    steps: &[(u64, Step)],
    replies: &[Reply],
) -> Option<Vec<(u64, Step, Reply)>> {
    let mut calls = Vec::new(global);
    for at in 0..steps.len() {
        let (cpu, step) = steps[at];
        let reply = *replies.get(at)?;
        let Ok(()) = calls.push((cpu, step, reply)) else {
            return None;
        };
    }
    Some(calls)
}

/// The state before a run, and the run's result.
#[derive(Drop)]
struct Ran {
    begun: Ghost,
    /// None if the run was refused.
    calls: Option<Vec<(u64, Step, Reply)>>,
    /// Whether a request was refused.
    met: bool,
}

/// Runs steps with the Nth request refused: the replies, None if the run is refused, and whether a request was.
fn run_refused(
    global: Global,
    world: &mut World<Global>,
    steps: &[(u64, Step)],
    n: usize,
) -> (Option<Vec<Reply>>, bool)
    requires { All (λ s. s.0 < world.old.parts.layout.config.cpus) steps.now }
{
    refuse_nth(global, n);
    let replies = world.run(global, steps).ok();
    (replies, has_met(global))
}

/// Boots a world, and runs all steps with the Nth request of the run refused.
fn run_once(
    global: Global,
    course: &Course,
    map: &MemoryMap,
    config: Config,
    n: usize,
) -> Option<Ran> {
    let mut world = World::boot(global, global, map, config).ok()?;
    let steps = asked_of(global, course, world.cpus())?;
    let Ok(begun) = world.to_ghost(global) else {
        return None;
    };
    let (replies, met) = run_refused(global, &mut world, steps.as_slice(), n);
    let calls = match replies {
        Some(replies) => Some(calls_of(global, steps.as_slice(), replies.as_slice())?),
        None => None,
    };
    Some(Ran { begun, calls, met })
}

/// Whether a run is refused only if a request was, and any other has the model's replies, except for one step that
/// lacked memory if a request was refused. It is proved that a refused run has made no step, and any other exactly
/// these calls (`World::run`).
fn is_right(global: Global, ran: Ran) -> Option<bool> {
    let Ran { begun, calls, met } = ran;
    let Some(calls) = calls else {
        return Some(met);
    };
    let reached = follow(global, begun, calls.as_slice()).ok()??;
    Some((reached.wanting == 1) == met && reached.wanting < 2)
}

/// Runs all steps until a run is refused no request, and returns how many were. None if one goes wrong.
pub fn run_in_turn(
    global: Global,
    course: &Course,
    map: &MemoryMap,
    config: Config,
) -> Option<usize> {
    for n in 1..MOST {
        let ran = run_once(global, course, map, config, n)?;
        let met = ran.met;
        if !is_right(global, ran)? {
            return None;
        }
        if !met {
            return Some(n - 1);
        }
    }
    None
}
