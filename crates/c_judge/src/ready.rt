//! A step of a CPU on a state, both in numbers.
ghost use Rattle.std.specs.Prelude.{◌≡◌, IfErr, IfOk};
ghost use Rattle.c_states.specs.Judged.{IsUnpredicted};
ghost use Rattle.c_states.specs.Views.{lists_from_c};
ghost use Rattle.c_judge.specs.Ready.{IsCallable};

use c_states::{PlainLayout, PlainState, Unjudged, made};
use c_words::{PlainStep, step_of};
use call_table::Step;
use ghost_spec::state::{Ghost, has_next_generation};
use std::alloc::Global;

/// The step and the state before it, if the CPU can make it.
pub(crate) fn ready(
    alloc: Global,
    layout: &PlainLayout<'_>,
    before: &PlainState<'_>,
    cpu: u64,
    step: PlainStep,
) -> Result<(Step, Ghost), Unjudged>
    ensures ready { IfOk result
        (λ r. IsCallable layout.now layout.now.regions.now
        (lists_from_c before.now) cpu step r.0 r.1) }
    ensures unpredicted { IfErr result
        (IsUnpredicted layout.now layout.now.regions.now (lists_from_c before.now) cpu step) }
{
    let Some(step) = step_of(step) else {
        return Err(Unjudged::Step);
    };
    if cpu >= layout.cpus {
        return Err(Unjudged::Cpu);
    }
    match made(alloc, layout, before) {
        Ok(pre) => {
            if !has_next_generation(&pre, cpu, step) {
                drop(pre);
                return Err(Unjudged::Generation);
            }
            Ok((step, pre))
        }
        Err(why) => Err(Unjudged::Before(why)),
    }
}
