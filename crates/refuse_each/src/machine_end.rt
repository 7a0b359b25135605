//! The end of a machine, with each of its requests for memory refused in turn.
ghost use Rattle.std.specs.Prelude.{◌≡◌, ◌<◌, IfErr, IfSome};
ghost use Rattle.part_table.specs.Passes.{IsPassOf};
ghost use Rattle.cpu_threads.specs.Ends.{AreOf};

use crate::refusing::{MOST, has_met, refuse_nth};
use call_table::{Step, VmKind};
use cpu_threads::{Machine, ShutdownFault};
use page_state::{Config, MemoryMap, Page, PageRange, Region, RegionKind};
use part_table::CpuPass;
use std::alloc::{AllocError, Global};
use world::{Histories, World};

/// Two CPUs, and room for few calls.
const CONFIG: Config = Config {
    cpus: 2,
    log: 16,
    geometry: 39,
};

/// 2,048 pages of memory from page 0x40000 on, with a carve-out of 64 frames at 0x40600.
fn memory(global: Global) -> Option<MemoryMap> {
    let pages = |first: u64, count: u64| PageRange {
        first: Page(first),
        count,
    };
    let kind = RegionKind::Memory;
    let regions = [Region {
        kind,
        pages: pages(0x40000, 0x800),
    }];
    MemoryMap::new(global, regions.as_slice(), pages(0x40600, 0x40)).ok()
}

/// A world that has just booted.
pub fn booted_world(global: Global) -> Option<World<Global>>
    ensures { IfSome result (λ w. w.parts.layout.config.cpus ≡ 2) }
{
    World::boot(global, global, &memory(global)?, CONFIG).ok()
}

/// The calls of CPU 0, and then of CPU 1.
const STEPS: [[Step; 4]; 2] = [
    [
        Step::ShareHyp { pfn: 0x40100 },
        Step::VmReserve {
            kind: VmKind::Protected,
            vcpus: 1,
        },
        Step::Fund { pfn: 0x40400, n: 4 },
        Step::Install,
    ],
    [
        Step::OwnerOf { pfn: 0x40100 },
        Step::DonateHyp { pfn: 0x40000, n: 8 },
        Step::UnshareHyp { pfn: 0x40100 },
        Step::VcpuPut,
    ],
];

/// Makes the calls of a CPU.
fn make_calls(machine: &Machine<Global>, pass: &mut CpuPass<Global>, steps: &[Step])
    requires { IsPassOf machine.now.table pass.old }
    ensures { IsPassOf machine.now.table pass.new }
{
    for step in steps {
        let _ = machine.try_call(pass, *step);
    }
}

/// Boots a machine, and makes the calls.
pub fn used(global: Global) -> Option<(Machine<Global>, Vec<CpuPass<Global>>)>
    ensures { IfSome result (λ m. AreOf m.0.table m.1.items) }
{
    let mut machine = Machine::boot(global, global, &memory(global)?, CONFIG).ok()?;
    let mut passes = Vec::with_capacity(global, STEPS.len()).ok()?;
    for cpu in 0..STEPS.len() {
        let Some(mut pass) = machine.pass(cpu) else {
            return None;
        };
        make_calls(&machine, &mut pass, STEPS[cpu].as_slice());
        let Ok(()) = passes.push(pass) else {
            return None;
        };
    }
    Some((machine, passes))
}

/// How a machine ended.
#[derive(Drop)]
pub struct Ended {
    /// The logs of all parts and CPUs.
    pub logs: Histories,
    /// How many of its tries were refused a request.
    pub refused: usize,
}

/// A machine, and its passes.
type Held = (Machine<Global>, Vec<CpuPass<Global>>);

/// Shuts a machine down with the Nth request refused. On such a refusal machine and passes come back; None if a
/// shutdown with a refused request answers anything but NoMemory, or one without is refused.
fn try_end(global: Global, held: Held, n: usize) -> Result<Histories, Option<Held>>
    requires { AreOf held.0.table held.1.items }
    ensures { IfErr result (λ back. IfSome back (λ b. AreOf b.0.table b.1.items)) }
{
    let (machine, passes) = held;
    refuse_nth(global, n);
    let ended = machine.shutdown(global, passes);
    let met = has_met(global);
    match ended {
        Ok((world, logs)) => {
            drop(world);
            if met { Err(None) } else { Ok(logs) }
        }
        Err((machine, passes, fault)) => {
            if met && fault == ShutdownFault::NoMemory {
                Err(Some((machine, passes)))
            } else {
                Err(None)
            }
        }
    }
}

/// Shuts a machine down until no request of a try is refused. None if one goes wrong.
pub fn end_in_turn(
    global: Global,
    machine: Machine<Global>,
    passes: Vec<CpuPass<Global>>,
) -> Option<Ended>
    requires { AreOf machine.table passes.items }
{
    let mut held = (machine, passes);
    for n in 1..MOST {
        match try_end(global, held, n) {
            Ok(logs) => {
                let refused = n - 1;
                return Some(Ended { logs, refused });
            }
            Err(Some(back)) => held = back,
            Err(None) => return None,
        }
    }
    None
}
