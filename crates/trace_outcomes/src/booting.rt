//! The model's state at the boot of a trace's machine.
ghost use Rattle.page_state.specs.Regions.{memory_of};
ghost use Rattle.trace_lines.specs.Settings.{config_of, told_of};
ghost use Rattle.trace_outcomes.specs.Readings.{BootsTo};

use ghost_spec::state::Ghost;
use page_state::PageRange;
use std::alloc::Global;
use trace_lines::Settings;
use trace_text::{Fault, Stop, told_memory};
use world::World;

/// The boot state of the machine of the settings.
pub(crate) fn boot_state(
    global: Global,
    settings: &Settings,
    carve: PageRange,
) -> Result<Ghost, Stop>
    ensures { BootsTo (memory_of settings.now.regions.items carve)
        (config_of (told_of settings.now)) result }
{
    let map = match told_memory(global, settings.regions.as_slice(), carve) {
        Ok(map) => map,
        Err(stop) => return Err(stop),
    };
    let world = match World::boot(global, global, &map, settings.config()) {
        Ok(world) => world,
        Err(fault) => return Err(Stop::Fault(Fault::Boot(fault))),
    };
    let Ok(state) = world.to_ghost(global) else {
        drop(world);
        return Err(Stop::NoMemory);
    };
    drop(world);
    Ok(state)
}
