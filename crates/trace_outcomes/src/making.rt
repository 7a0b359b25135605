//! The steps of a trace before `start`, made in order, and those after it.
ghost use Rattle.std.specs.Prelude.{◌≡◌, ◌<◌, ◌^◌, All, IfOk, drop, length, option_map};
ghost use Rattle.page_state.specs.LayoutView.{layout_of};
ghost use Rattle.ghost_spec.specs.States.{contents_in, ghost_state};
ghost use Rattle.race_outcomes.specs.Orders.{replies_along};
ghost use Rattle.trace_lines.specs.Settings.{config_of};
ghost use Rattle.trace_race.specs.Booted.{machine_in};
ghost use Rattle.trace_race.specs.Courses.{IsSound, course_in, in_order_of};
ghost use Rattle.trace_race.specs.Judged.{HasGenerationsTo};
ghost use Rattle.trace_outcomes.specs.Made.{HasMade, IsReady};
ghost use Rattle.trace_outcomes.specs.Races.{nothing_wanted, texts_in, turns_of as turns_by, wants as wants_by};

use call_table::Reply;
use ghost_spec::state::Ghost;
use race_outcomes::{OutcomesFault, Turn, first_steps};
use std::alloc::{AllocError, Global};
use trace_race::{Asked, Course};
use trace_words::is_name;

/// Where the steps of a trace are to be made at once.
#[derive(Drop)]
pub(crate) struct Race {
    /// The replies to the steps before `start`.
    pub replies: Vec<Reply>,
    /// The model's state after them.
    pub state: Ghost,
    /// The steps after `start`.
    pub turns: Vec<Turn>,
}

/// No reply to any of these steps.
pub(crate) fn no_replies(
    global: Global,
    steps: &[Asked],
) -> Result<Vec<Option<Vec<u8>>>, AllocError>
    ensures { IfOk result (λ v. v.items ≡ nothing_wanted steps.now) }
{
    let mut texts = Vec::new(global);
    for asked in steps {
        let _ = asked;
        texts.push(None)?;
    }
    Ok(texts)
}

/// Whether a step gets the reply `nomemory`.
fn wants(text: &Option<Vec<u8>>) -> bool
    ensures { result ≡ wants_by (option_map (λ v. v.items) text.now) }
{
    match text {
        Some(text) => is_name(text.as_slice(), b"nomemory"),
        None => false,
    }
}

/// Steps with their replies: exactly those with `nomemory` find no memory.
fn turns_of(
    global: Global,
    steps: &[Asked],
    texts: &[Option<Vec<u8>>],
) -> Result<Vec<Turn>, AllocError>
    requires { length texts.now ≡ length steps.now }
    ensures { IfOk result (λ v. v.items ≡ turns_by steps.now (texts_in texts.now)) }
{
    let mut turns = Vec::new(global);
    for place in 0..steps.len() {
        let Asked { cpu, step, .. } = steps[place];
        let wants = wants(&texts[place]);
        turns.push(Turn { cpu, step, wants })?;
    }
    Ok(turns)
}

/// Makes the steps before `start`, in order, from this state.
pub(crate) fn first_made(
    global: Global,
    state: Ghost,
    course: &Course,
    texts: &[Option<Vec<u8>>],
) -> Result<Race, AllocError>
    requires sound { IsSound (course_in course.now) }
    requires config { state.layout.config ≡ config_of (course_in course.now).told }
    requires low { HasGenerationsTo 1 (contents_in state) }
    requires count { length texts.now ≡ length course.now.steps.items }
    ensures ready { IfOk result
        (IsReady (course_in course.now) (drop (in_order_of (course_in course.now)) texts.now)) }
    ensures made { IfOk result (HasMade (machine_in state) (course_in course.now) (texts_in texts.now)) }
{
    let count = course.in_order();
    let steps = course.steps.as_slice();
    let Ok(first) = turns_of(global, &steps[..count], &texts[..count]) else {
        drop(state);
        return Err(AllocError);
    };
    let Ok(turns) = turns_of(global, &steps[count..], &texts[count..]) else {
        drop(state);
        return Err(AllocError);
    };
    let (replies, state) = steps_made(global, state, first.as_slice())?;
    Ok(Race {
        replies,
        state,
        turns,
    })
}

/// Makes steps in order, from a state none of whose generations is near the last: their replies, and the state after them.
fn steps_made(
    global: Global,
    state: Ghost,
    turns: &[Turn],
) -> Result<(Vec<Reply>, Ghost), AllocError>
    requires cpus { All (λ t. t.cpu < state.layout.config.cpus) turns.now }
    requires few { length turns.now < 2 ^ 63 }
    requires low { HasGenerationsTo 1 (contents_in state) }
    ensures told { IfOk result
        (λ r. (r.0.items, ghost_state r.1)
        ≡ replies_along (layout_of state.layout) (ghost_state state) turns.now) }
    ensures layout { IfOk result (λ r. layout_of r.1.layout ≡ layout_of state.layout) }
{
    match first_steps(global, state, turns) {
        Ok(made) => Ok(made),
        Err(fault) => Err(refused(fault)),
    }
}

/// Memory was refused.
fn refused(fault: OutcomesFault) -> AllocError
    requires { fault ≡ OutcomesFault.NoMemory }
{
    let _ = fault;
    AllocError
}
