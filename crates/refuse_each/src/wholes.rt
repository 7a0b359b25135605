//! Calls on a whole world, each of which is refused only for lack of memory.
ghost use Rattle.std.specs.Prelude.{◌≡◌, ◌<◌};

use crate::refusing::{Came, by_memory, in_turn};
use call_table::Step;
use cpu_threads::Machine;
use ghost_judge::judge::judge;
use ghost_oracle::record::record;
use ghost_spec::state::{has_next_generation, predict};
use page_state::{Config, LayoutFault, MemoryMap, PageRange, Region};
use std::alloc::{AllocError, Global};
use table_tree::Reads;
use world::{BootFault, World};

/// How many tries of a memory were refused a request.
pub fn of_map(global: Global, regions: &[Region], carve: PageRange) -> Option<usize> {
    in_turn(global, || match MemoryMap::new(global, regions, carve) {
        Ok(_) => Came::Done,
        Err(LayoutFault::NoMemory) => Came::NoMemory,
        Err(_) => Came::Else,
    })
}

/// What a boot came to.
fn of_boot<T: Drop>(booted: Result<T, BootFault>) -> Came {
    match booted {
        Ok(_) => Came::Done,
        Err(BootFault::NoMemory) => Came::NoMemory,
        Err(_) => Came::Else,
    }
}

/// The same of the boots of a world and a machine.
pub fn of_boots(global: Global, map: &MemoryMap, config: Config) -> Option<(usize, usize)> {
    let world = in_turn(global, || of_boot(World::boot(global, global, map, config)));
    let machine = in_turn(
        global,
        || of_boot(Machine::boot(global, global, map, config)),
    );
    Some((world?, machine?))
}

/// What a record of the VM part, the Shared part, the guest of slot 0 and CPU 0 comes to.
fn recorded(global: Global, world: &World<Global>) -> Came {
    let parts = world.parts();
    let (Some(guest), Some(own)) = (parts.guests.get(0), parts.cpus.get(0)) else {
        return Came::Else;
    };
    if own.id >= parts.layout.config.cpus {
        return Came::Else;
    }
    let (vms, shared, guest) = (Some(&parts.vms), Some(&parts.shared), Some((0, guest)));
    let reads = &mut Reads::new();
    by_memory(record(global, &parts.layout, vms, shared, guest, own, reads))
}

/// The same of what a world keeps, what a walk finds, both, their audit, a record of parts, the logs, and the logs merged.
pub fn of_looks(global: Global, world: &World<Global>) -> Option<[usize; 7]> {
    let kept = in_turn(global, || by_memory(world.to_ghost(global)));
    let walked = in_turn(
        global,
        || by_memory(world.recompute(global, &mut Reads::new())),
    );
    let both = in_turn(
        global,
        || by_memory(world.kept_and_walked(global, &mut Reads::new())),
    );
    let audited = in_turn(global, || by_memory(world.audit(global, &mut Reads::new())));
    let record = in_turn(global, || recorded(global, world));
    let logs = in_turn(global, || by_memory(world.histories(global)));
    let histories = world.histories(global).ok()?;
    let merged = in_turn(
        global,
        || by_memory(World::<Global>::merge(global, &histories)),
    );
    Some([kept?, walked?, both?, audited?, record?, logs?, merged?])
}

/// Predicts a step of CPU 0, and judges it by itself.
fn judged(global: Global, world: &World<Global>, step: Step) -> Result<bool, AllocError> {
    let state = world.to_ghost(global)?;
    if state.lists().layout.config.cpus == 0 {
        return Ok(false);
    }
    if !has_next_generation(&state, 0, step) {
        return Ok(false);
    }
    let (reply, after) = predict(global, &state, 0, step)?;
    let found = judge(global, &state, 0, step, &reply, &after)?;
    Ok(found.is_none())
}

/// The same for predicting and judging a step of CPU 0.
pub fn of_judgement(global: Global, world: &World<Global>, step: Step) -> Option<usize> {
    in_turn(global, || match judged(global, world, step) {
        Ok(true) => Came::Done,
        Ok(false) => Came::Else,
        Err(_) => Came::NoMemory,
    })
}
