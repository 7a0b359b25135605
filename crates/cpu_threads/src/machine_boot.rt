//! Making a machine of a world, and booting one.
ghost use Rattle.std.specs.Prelude.{IfOk, MatchResult};
ghost use Rattle.hypercalls.specs.Booted.{IsBooted};
ghost use Rattle.hypercalls.specs.Stands.{HasHistory};
ghost use Rattle.world.specs.Boots.{IsNoBoot};
ghost use Rattle.cpu_threads.specs.Machines.{IsBootedMachine, IsMachineOf};

use crate::machine::Machine;
use hypercalls::Parts;
use page_state::{Config, MemoryMap};
use part_table::PartTable;
use part_table::whole::apart;
use std::alloc::{AllocError, Allocator, Global};
use world::{BootFault, World};

/// The parts of a world that boots.
fn booted_parts<A: Allocator + Copy>(
    global: Global,
    alloc: A,
    map: &MemoryMap,
    config: Config,
) -> Result<Parts<A>, BootFault>
    ensures { MatchResult result (λ p. IsBooted map.now config p) (λ fault. IsNoBoot fault map.now config) }
{
    match World::boot(global, alloc, map, config) {
        Ok(world) => Ok(world.split()),
        Err(fault) => Err(fault),
    }
}

/// The machine of parts at the end of a legal history.
fn machine_of<A: Allocator + Copy>(
    global: Global,
    alloc: A,
    parts: Parts<A>,
) -> Result<Machine<A>, AllocError>
    requires history { HasHistory parts }
    ensures { IfOk result (IsMachineOf parts) }
{
    let slots = Vec::with_capacity(global, 66)?;
    let (layout, slots, owns) = apart(parts, slots);
    let (table, passes) = PartTable::open(global, alloc, layout, slots, owns)?;
    Ok(Machine { table, passes })
}

impl<A: Allocator + Copy> Machine<A> {
    /// A machine that begins in a world's state, with a pass for each CPU. Its history continues the world's: the calls
    /// that the world has stored come first. If memory is refused it drops the world.
    pub fn open(global: Global, alloc: A, world: World<A>) -> Result<Machine<A>, AllocError>
        requires history { HasHistory world.parts }
        ensures { IfOk result (IsMachineOf world.parts) }
    {
        machine_of(global, alloc, world.split())
    }

    /// Boots a machine on accepted memory, with a pass for each CPU. The tests, in their order: the configuration, that
    /// the carve-out has a frame for each table, and memory for all else.
    pub fn boot(
        global: Global,
        alloc: A,
        map: &MemoryMap,
        config: Config,
    ) -> Result<Machine<A>, BootFault>
        ensures { MatchResult result (λ m. IsBootedMachine map.now config m)
            (λ fault. IsNoBoot fault map.now config) }
    {
        let parts = booted_parts(global, alloc, map, config)?;
        let machine = machine_of(global, alloc, parts)?;
        Ok(machine)
    }
}
