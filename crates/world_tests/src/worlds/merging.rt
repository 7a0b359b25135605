//! Logs merged into one list.
ghost use Rattle.std.specs.Prelude.{◌<◌};

use super::world_of;
use crate::sample::{config, memory};
use call_table::{Call, Reply, Step, Value, VmId, VmKind};
use std::alloc::Global;
use std::process::Abort;
use world::{Histories, MergeFault, World};

/// A call of a CPU that was made.
fn call(cpu: u64, number: u64, step: Step, slot: Option<u64>) -> Call {
    Call {
        cpu,
        number,
        step,
        reply: Reply::Done(Value::Nothing),
        slot,
    }
}

/// What a merged list has of a call.
fn told(call: Call) -> (u64, Step, Reply) {
    (call.cpu, call.step, call.reply)
}

/// A log of these calls.
fn log_of(rt: &impl Abort, alloc: Global, calls: &[Call]) -> Vec<Call> {
    let mut log = Vec::new(alloc);
    for call in calls {
        log.push(*call).expect(rt, "memory");
    }
    log
}

/// Logs of 64 guests, of whom the last alone has calls.
fn guests_of(rt: &impl Abort, alloc: Global, last: &[Call]) -> Vec<Vec<Call>> {
    let mut guests = Vec::new(alloc);
    for _slot in 0..63usize {
        guests.push(Vec::new(alloc)).expect(rt, "memory");
    }
    guests.push(log_of(rt, alloc, last)).expect(rt, "memory");
    guests
}

/// Logs of two CPUs.
fn cpus_of(rt: &impl Abort, alloc: Global, first: &[Call], second: &[Call]) -> Vec<Vec<Call>> {
    let mut cpus = Vec::new(alloc);
    cpus.push(log_of(rt, alloc, first)).expect(rt, "memory");
    cpus.push(log_of(rt, alloc, second)).expect(rt, "memory");
    cpus
}

/// Logs of the VM part, the Shared part, 64 guests, of whom the last alone has calls, and two CPUs.
fn logs_of(
    rt: &impl Abort,
    alloc: Global,
    vms: &[Call],
    shared: &[Call],
    guest: &[Call],
    first: &[Call],
    second: &[Call],
) -> Histories {
    Histories {
        vms: log_of(rt, alloc, vms),
        shared: log_of(rt, alloc, shared),
        guests: guests_of(rt, alloc, guest),
        cpus: cpus_of(rt, alloc, first, second),
    }
}

/// A VM of the last slot.
const VM: VmId = VmId {
    slot: 63,
    generation: 1,
};

#[test]
fn merges_nothing(rt: HostRuntime) {
    let alloc = rt.alloc();
    let logs = logs_of(&rt, alloc, &[], &[], &[], &[], &[]);
    let merged = World::<Global>::merge(alloc, &logs).expect(&rt, "an order");
    assert!(rt; merged.is_empty());
}

#[test]
fn merges_two_cpus(rt: HostRuntime) {
    let alloc = rt.alloc();
    let reserve = call(
        0,
        1,
        Step::VmReserve {
            kind: VmKind::Plain,
            vcpus: 1,
        },
        None,
    );
    let share = call(0, 2, Step::ShareHyp { pfn: 1 }, None);
    let topup = call(0, 3, Step::Topup { vm: VM }, Some(63));
    let owner = call(1, 1, Step::OwnerOf { pfn: 1 }, None);
    let asked = call(1, 2, Step::GuestTranslate { vm: VM, gfn: 7 }, Some(63));
    let open = call(1, 3, Step::VmOpen, None);
    let logs = logs_of(
        &rt,
        alloc,
        &[reserve, open],
        &[owner, share, topup],
        &[asked, topup],
        &[reserve, share, topup],
        &[owner, asked, open],
    );
    let merged = World::<Global>::merge(alloc, &logs).expect(&rt, "an order");
    let order = [
        told(reserve),
        told(owner),
        told(share),
        told(asked),
        told(topup),
        told(open),
    ];
    assert!(rt; merged.as_slice() == order.as_slice());
}

/// Compares what merging these logs answers, which have no order.
fn expect_no_order(
    rt: &impl Abort,
    alloc: Global,
    vms: &[Call],
    shared: &[Call],
    first: &[Call],
    second: &[Call],
) {
    let logs = logs_of(rt, alloc, vms, shared, &[], first, second);
    assert!(rt; World::<Global>::merge(alloc, &logs).err() == Some(MergeFault::NoOrder));
}

#[test]
fn finds_no_order(rt: HostRuntime) {
    let alloc = rt.alloc();
    let put = call(0, 1, Step::VcpuPut, None);
    let share = call(0, 2, Step::ShareHyp { pfn: 1 }, None);
    let owner = call(1, 1, Step::OwnerOf { pfn: 1 }, None);
    let open = call(1, 2, Step::VmOpen, None);
    expect_no_order(
        &rt,
        alloc,
        &[open, put],
        &[share, owner],
        &[put, share],
        &[owner, open],
    );
    expect_no_order(&rt, alloc, &[put], &[], &[put, share], &[]);
    expect_no_order(&rt, alloc, &[put], &[], &[], &[]);
}

/// The logs of a world, merged.
fn merged(rt: &impl Abort, alloc: Global, world: &World<Global>) -> Vec<(u64, Step, Reply)> {
    let logs = world.histories(alloc).expect(rt, "memory");
    World::<Global>::merge(alloc, &logs).expect(rt, "an order")
}

/// Compares a call of the merged logs with one that was made.
fn expect_call(rt: &impl Abort, call: (u64, Step, Reply), asked: (u64, Step), reply: Reply) {
    assert!(rt; call == (asked.0, asked.1, reply));
}

/// Compares the merged logs with the calls that were made.
fn expect_merged(
    rt: &impl Abort,
    alloc: Global,
    world: &World<Global>,
    steps: &[(u64, Step)],
    replies: &[Reply],
) {
    let merged = merged(rt, alloc, world);
    assert!(rt; merged.len() == steps.len() && replies.len() == steps.len());
    for at in 0..steps.len() {
        expect_call(rt, merged[at], steps[at], replies[at]);
    }
}

/// Makes calls of two CPUs, and compares the merged logs with them.
fn run_and_merge(rt: &impl Abort, alloc: Global, world: &mut World<Global>)
    requires { 1 < world.old.parts.layout.config.cpus }
{
    let steps = [
        (0, Step::ShareHyp { pfn: 0x40100 }),
        (1, Step::ShareHyp { pfn: 0x40100 }),
        (1, Step::UnshareHyp { pfn: 0x40100 }),
        (0, Step::ShareHyp { pfn: 0x40100 }),
    ];
    let replies = world.run(alloc, steps.as_slice()).expect(rt, "memory");
    expect_merged(rt, alloc, world, steps.as_slice(), replies.as_slice());
}

#[test]
fn merges_a_run(rt: HostRuntime) {
    let alloc = rt.alloc();
    let map = memory(alloc, 0x40).expect(&rt, "a memory");
    let mut world = world_of(&rt, alloc, &map, config(2, 8));
    assert!(rt; world.cpus() > 1);
    run_and_merge(&rt, alloc, &mut world);
    drop(world);
}
