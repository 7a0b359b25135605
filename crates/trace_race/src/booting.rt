//! Booting the world of a trace.
ghost use Rattle.page_state.specs.Regions.{memory_of};
ghost use Rattle.trace_lines.specs.Settings.{config_of, told_of};
ghost use Rattle.trace_race.specs.Booted.{BootsTo};

use ghost_spec::state::Ghost;
use page_state::PageRange;
use std::alloc::Global;
use trace_lines::{Response, Settings};
use trace_text::{Fault, Stop, boot_line, told_memory};
use world::World;

/// The booted world, its boot line, and its boot state on lists.
#[derive(Drop)]
pub(crate) struct Booted {
    pub world: World<Global>,
    pub line: Response,
    pub state: Ghost,
}

/// Boots the world of the settings.
pub(crate) fn boot_world(
    global: Global,
    settings: &Settings,
    carve: PageRange,
) -> Result<Booted, Stop>
    ensures { BootsTo (memory_of settings.now.regions.items carve)
        (config_of (told_of settings.now)) result }
{
    let map = match told_memory(global, settings.regions.as_slice(), carve) {
        Ok(map) => map,
        Err(stop) => return Err(stop),
    };
    let world = match World::boot(global, global, &map, settings.config()) {
        Ok(world) => world,
        Err(fault) => return Err(Stop::Fault(Fault::Boot(fault))),
    };
    let line = boot_line(&world);
    let Ok(state) = world.to_ghost(global) else {
        drop(world);
        return Err(Stop::NoMemory);
    };
    Ok(Booted { world, line, state })
}
