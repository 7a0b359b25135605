//! Makes calls with each of their requests for memory refused in turn, by a library that is loaded before the C
//! library's (`tests/refused/run`); without it nothing is refused. The trace on standard input gives the memory, the
//! configuration and the steps; each gets a line with the number of its tries that had a request refused. Then it ends
//! a machine of its own. Status 1 if a call went wrong: a refused try must answer NoMemory and change nothing, and the
//! last one must do the same as with ample memory. Status 2 if there is no such trace, or the lines can't be written.
#![tactic(auto)]

ghost use Rattle.std.specs.Prelude.{◌≡◌};
ghost use Rattle.trace_race.specs.Courses.{IsSound, course_in};

mod following;
mod machine_end;
mod reading;
mod refusing;
mod running;
mod steps;
mod wholes;

use following::follows;
use machine_end::{Ended, end_in_turn, used};
use page_state::{Config, MemoryMap};
use reading::{read_all, told};
use running::run_in_turn;
use std::alloc::Global;
use std::process::ExitCode;
use steps::{Went, make};
use trace_race::{Asked, Course};
use wholes::{of_boots, of_judgement, of_looks, of_map};
use world::World;

/// Prints how many tries had a request refused. False if the call went wrong, or the line can't be written.
fn tell<R: Print>(rt: &R, call: &str, refused: Option<usize>) -> bool {
    let Some(refused) = refused else {
        let _ = println!(rt; "{call} went wrong");
        return false;
    };
    println!(rt; "{call} refused {refused}").is_ok()
}

/// The memory and the boots of a trace.
fn boots<R: AllocGlobal + Print>(rt: &R, course: &Course, map: &MemoryMap, config: Config) -> bool {
    let Some(carve) = course.settings.carve else {
        return false;
    };
    let memory = of_map(rt.alloc(), course.settings.regions.as_slice(), carve);
    let booted = of_boots(rt.alloc(), map, config);
    tell(rt, "memory", memory)
        && tell(rt, "boot", booted.map(|it| it.0))
        && tell(rt, "machine", booted.map(|it| it.1))
}

/// Makes one step, and reports it.
fn make_one<R: AllocGlobal + Print>(rt: &R, world: &mut World<Global>, asked: Asked) -> bool {
    let Asked { line, cpu, step } = asked;
    if cpu >= world.cpus() {
        return false;
    }
    let Ok(went) = make(rt.alloc(), world, cpu, step) else {
        return false;
    };
    let Went {
        reply,
        refused,
        is_good,
    } = went;
    let told = println!(rt; "{line} {cpu} {reply} refused {refused}");
    is_good && told.is_ok()
}

/// Predicts and judges the last step of a trace again, if it has one.
fn judgement<R: AllocGlobal + Print>(rt: &R, world: &World<Global>, course: &Course) -> bool {
    match course.steps.last() {
        Some(asked) => tell(rt, "judge", of_judgement(rt.alloc(), world, asked.step)),
        None => true,
    }
}

/// What looks at a world.
fn looks<R: AllocGlobal + Print>(rt: &R, world: &World<Global>) -> bool {
    let Some(refused) = of_looks(rt.alloc(), world) else {
        return tell(rt, "looks", None);
    };
    let names = [
        "to_ghost",
        "recompute",
        "kept_and_walked",
        "audit",
        "record",
        "histories",
        "merge",
    ];
    for at in 0..names.len() {
        if !tell(rt, names[at], Some(refused[at])) {
            return false;
        }
    }
    true
}

/// Makes all steps of a trace, and looks at the world.
fn make_all<R: AllocGlobal + Print>(
    rt: &R,
    course: &Course,
    map: &MemoryMap,
    config: Config,
) -> bool {
    let Ok(mut world) = World::boot(rt.alloc(), rt.alloc(), map, config) else {
        return false;
    };
    for asked in course.steps.as_slice() {
        if !make_one(rt, &mut world, *asked) {
            return false;
        }
    }
    judgement(rt, &world, course) && looks(rt, &world)
}

/// The most steps of a trace whose run is made: all of them are made again for each request.
const FEW: usize = 60;

/// The run of all steps, if there are only a few.
fn run<R: AllocGlobal + Print>(rt: &R, course: &Course, map: &MemoryMap, config: Config) -> bool {
    course.steps.len() > FEW || tell(rt, "run", run_in_turn(rt.alloc(), course, map, config))
}

/// All of a trace.
fn sweep<R: AllocGlobal + Print>(rt: &R, course: &Course) -> bool {
    let Some((map, config)) = told(rt.alloc(), course) else {
        return false;
    };
    boots(rt, course, &map, config)
        && make_all(rt, course, &map, config)
        && run(rt, course, &map, config)
}

/// The number of tries with a refused request, and the number of calls in the merged list. None if anything went wrong.
fn ended(global: Global) -> Option<(usize, usize)> {
    let (machine, passes) = used(global)?;
    let Ended { logs, refused } = end_in_turn(global, machine, passes)?;
    let calls = World::<Global>::merge(global, &logs).ok()?;
    if !follows(global, calls.as_slice())? {
        return None;
    }
    Some((refused, calls.len()))
}

/// The end of a machine.
fn end<R: AllocGlobal + Print>(rt: &R) -> bool {
    let Some((refused, calls)) = ended(rt.alloc()) else {
        return tell(rt, "shutdown", None);
    };
    println!(rt; "shutdown refused {refused} calls {calls}").is_ok()
}

fn main(rt: HostRuntime) -> ExitCode {
    let Some(course) = read_all(&rt) else {
        return ExitCode::from(2);
    };
    ExitCode::from(if sweep(&rt, &course) && end(&rt) {
        0
    } else {
        1
    })
}
