//! Machines of two CPUs and of eight.
ghost use Rattle.part_table.specs.Passes.{IsPassOf};

mod dropped;
mod gates;
mod heard;
mod judged;
mod rows;
mod stops;
mod threads;

use crate::sample::{config, memory};
use call_table::{Refusal, Reply, Step, Value, VmId, VmKind};
use cpu_threads::{CpuPass, Gate, InitStage, Machine};
use std::alloc::Global;
use std::process::Abort;
use std::sync::Wait;

/// A machine with a carve-out of 64 frames, `cpus` CPUs and logs of `log` calls. Its tables lie in the same heap as all
/// else.
fn new_machine(rt: &impl Abort, alloc: Global, cpus: u64, log: u64) -> Machine<Global> {
    let map = memory(alloc, 0x40).expect(rt, "a layout");
    Machine::boot(alloc, alloc, &map, config(cpus, log)).expect(rt, "a boot")
}

/// Makes a VM, and compares the replies.
fn expect_init<R: Wait + Abort>(
    rt: &R,
    machine: &Machine<Global>,
    pass: &mut CpuPass<Global>,
    asked: (VmKind, u64, u64, u64),
    made: Result<VmId, (InitStage, Refusal)>,
)
    requires { IsPassOf machine.now.table pass.old }
    ensures { IsPassOf machine.now.table pass.new }
{
    let (kind, vcpus, pfn, n) = asked;
    let said = machine.init_vm(rt, pass, kind, vcpus, pfn, n);
    assert!(rt; said == made);
}

/// The VM of the first slot, of a protected kind, by CPU 0, with 4 frames.
fn make_first<R: Wait + Abort>(rt: &R, machine: &Machine<Global>, pass: &mut CpuPass<Global>)
    requires { IsPassOf machine.now.table pass.old }
    ensures { IsPassOf machine.now.table pass.new }
{
    let vm = VmId {
        slot: 0,
        generation: 1,
    };
    let asked = (VmKind::Protected, 1, 0x40400, 4);
    expect_init(rt, machine, pass, asked, Ok(vm));
}
