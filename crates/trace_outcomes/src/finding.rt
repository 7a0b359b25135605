//! All outcomes of the steps of a trace after `start`.
ghost use Rattle.std.specs.Prelude.{◌≡◌, ℕ, IfOk, drop};
ghost use Rattle.ghost_spec.specs.States.{contents_in};
ghost use Rattle.trace_lines.specs.Settings.{config_of};
ghost use Rattle.trace_race.specs.Booted.{machine_in};
ghost use Rattle.trace_race.specs.Courses.{IsSound, course_in, in_order_of};
ghost use Rattle.trace_race.specs.Judged.{HasGenerationsTo};
ghost use Rattle.trace_outcomes.specs.Finds.{Finds, FindsMade, FindsOn};
ghost use Rattle.trace_outcomes.specs.Made.{IsNoGeneration, IsReady};
ghost use Rattle.trace_outcomes.specs.Races.{nothing_wanted, texts_in};

use crate::booting::boot_state;
use crate::making::{Race, first_made, no_replies};
use call_table::Reply;
use ghost_spec::state::Ghost;
use race_outcomes::{Outcome, OutcomesFault, outcomes};
use std::alloc::{AllocError, Global};
use trace_race::Course;
use trace_reader::Progress;
use trace_text::{Fault, Stop};

/// All replies that the steps of a trace may get.
#[derive(Drop)]
pub struct Outcomes {
    /// The replies to the steps before `start`, in order.
    pub replies: Vec<Reply>,
    /// The lists of replies that those after it may get, each once.
    pub found: Vec<Outcome>,
}

/// What comes of finding all outcomes.
#[derive(Drop)]
pub enum Found {
    /// No machine boots: the fault, and the number of the boot's line.
    Fault(u64, Fault),
    /// Nothing boots, since the trace has no `boot`.
    Idle,
    /// Orders of this number of steps lead to more points than the limit.
    TooMany(u64),
    All(Outcomes),
}

/// Finds the replies that the steps of a trace may get: those before `start` in order, and those after it in any order
/// that keeps each CPU's own. If orders of some number of steps lead to more points than `limit`, which are states with
/// the replies so far, that is the answer. Err if memory was refused. `progress` gets a call for each point that is
/// left.
pub fn find_outcomes<P: Progress>(
    global: Global,
    course: &Course,
    limit: usize,
    progress: &P,
) -> Result<Found, AllocError>
    requires { IsSound (course_in course.now) }
    ensures { IfOk result (Finds limit (course_in course.now)) }
{
    let boot = match course.boot {
        Some(boot) => boot,
        None => return Ok(Found::Idle),
    };
    let carve = match course.settings.carve {
        Some(carve) => carve,
        None => return Ok(Found::Idle),
    };
    match boot_state(global, &course.settings, carve) {
        Ok(state) => found_from(global, state, course, limit, progress),
        Err(Stop::Fault(fault)) => Ok(Found::Fault(boot, fault)),
        Err(Stop::NoMemory) => Err(AllocError),
    }
}

/// The same from the boot state.
fn found_from<P: Progress>(
    global: Global,
    state: Ghost,
    course: &Course,
    limit: usize,
    progress: &P,
) -> Result<Found, AllocError>
    requires sound { IsSound (course_in course.now) }
    requires config { state.layout.config ≡ config_of (course_in course.now).told }
    requires low { HasGenerationsTo 1 (contents_in state) }
    ensures { IfOk result (FindsOn limit (course_in course.now) (machine_in state)) }
{
    let texts = no_replies(global, course.steps.as_slice())?;
    match first_made(global, state, course, texts.as_slice()) {
        Ok(race) => found_of(global, race, course, texts.as_slice(), limit, progress),
        Err(_) => Err(AllocError),
    }
}

/// The same once the steps before `start` are made.
fn found_of<P: Progress>(
    global: Global,
    race: Race,
    course: &Course,
    texts: &[Option<Vec<u8>>],
    limit: usize,
    progress: &P,
) -> Result<Found, AllocError>
    requires sound { IsSound (course_in course.now) }
    requires ready { IsReady (course_in course.now) (drop (in_order_of (course_in course.now)) texts.now) race }
    requires nothing { texts.now ≡ nothing_wanted course.now.steps.items }
    ensures { IfOk result (FindsMade limit (course_in course.now) (texts_in texts.now) race) }
{
    let count = course.in_order();
    match outcomes(
        global,
        &race.state,
        race.turns.as_slice(),
        &texts[count..],
        limit,
        progress,
    ) {
        Ok(found) => {
            let Race {
                replies,
                state,
                turns,
            } = race;
            // Lists are handed to `drop`: the proof of a scope's end would go through all parts of each.
            drop(state);
            drop(turns);
            Ok(Found::All(Outcomes { replies, found }))
        }
        Err(fault) => {
            drop(race);
            not_found(fault)
        }
    }
}

/// Why not all outcomes are found.
fn not_found(fault: OutcomesFault) -> Result<Found, AllocError>
    requires { IsNoGeneration fault }
    ensures { IfOk result
        (λ f. (made : ℕ) × (fault ≡ OutcomesFault.TooMany made) × (f ≡ Found.TooMany made)) }
{
    match fault {
        OutcomesFault::TooMany(made) => Ok(Found::TooMany(made)),
        OutcomesFault::NoMemory => Err(AllocError),
        OutcomesFault::Generation => unreachable!(),
    }
}
