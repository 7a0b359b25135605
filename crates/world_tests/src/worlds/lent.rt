//! A step on parts that are lent, one of each kind of use.
ghost use Rattle.std.specs.Prelude.{◌<◌};
ghost use Rattle.hypercalls.specs.Stands.{HasHistory};

use super::booted;
use call_table::{Refusal, Reply, Step, Value, VmId};
use hypercalls::Parts;
use std::alloc::Global;
use std::process::Abort;
use world::{UsedParts, step_on, uses};

/// The reply of a step of a CPU, made on the parts that it uses, and how many calls the CPU's log then has.
fn step_of_lent(alloc: Global, parts: Parts<Global>, cpu: u64, step: Step) -> (Reply, usize)
    requires known { cpu < parts.layout.config.cpus }
    requires history { ∥ HasHistory parts ∥₁ }
{
    let Parts {
        layout,
        mut vms,
        mut shared,
        mut guests,
        mut cpus,
    } = parts;
    let own = &mut cpus[cpu as usize];
    let reply = match uses(own, &step) {
        UsedParts::Nothing => step_on(alloc, &layout, None, None, None, own, &step),
        UsedParts::Vms => step_on(alloc, &layout, Some(&mut vms), None, None, own, &step),
        UsedParts::Shared => step_on(alloc, &layout, None, Some(&mut shared), None, own, &step),
        UsedParts::Guest(v) => {
            let guest = &mut guests[v as usize];
            step_on(alloc, &layout, None, None, Some(guest), own, &step)
        }
        UsedParts::Both(v) => {
            let guest = &mut guests[v as usize];
            step_on(
                alloc,
                &layout,
                None,
                Some(&mut shared),
                Some(guest),
                own,
                &step,
            )
        }
    };
    (reply, own.log.calls().len())
}

/// Compares the reply of a step that is the first one of a world, and that its CPU's log has it.
fn expect_step(rt: &impl Abort, alloc: Global, step: Step, reply: Reply) {
    let world = booted(rt, alloc, 9);
    assert!(rt; 0 < world.cpus());
    let (told, calls) = step_of_lent(alloc, world.split(), 0, step);
    assert!(rt; told == reply);
    assert!(rt; calls == 1);
}

/// A VM that there isn't.
fn no_vm(slot: u64) -> VmId {
    VmId {
        slot,
        generation: 1,
    }
}

/// A look at a page of it.
fn look(slot: u64) -> Step {
    Step::GuestTranslate {
        vm: no_vm(slot),
        gfn: 0,
    }
}

#[test]
fn steps_on_lent_parts(rt: HostRuntime) {
    let alloc = rt.alloc();
    let no_vm_there = Reply::Refused(Refusal::NoVm);
    let share = Step::ShareHyp { pfn: 0x40100 };
    expect_step(&rt, alloc, look(64), Reply::Refused(Refusal::Invalid));
    expect_step(&rt, alloc, Step::VmOpen, no_vm_there);
    expect_step(&rt, alloc, share, Reply::Done(Value::Nothing));
    expect_step(&rt, alloc, look(63), no_vm_there);
    expect_step(&rt, alloc, Step::Topup { vm: no_vm(63) }, no_vm_there);
}
