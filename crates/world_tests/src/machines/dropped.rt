//! A dropped pass: its CPU keeps all that it has, and the machine can't be shut down.
ghost use Rattle.std.specs.Prelude.{◌≡◌, ◌∷◌, []};
ghost use Rattle.part_table.specs.Passes.{IsPassOf};

use super::gates::FIRST;
use super::rows::expect_call;
use super::*;
use cpu_threads::ShutdownFault;
use page_state::{Owner, Row, Usage};

/// What is answered about a frame of the host's.
const OF_HOST: Reply = Reply::Done(Value::Row(Row {
    owner: Owner(0),
    lent: None,
    usage: Usage::Plain,
}));

const DONE: Reply = Reply::Done(Value::Nothing);

/// A list of one pass.
fn list_of(rt: &impl Abort, alloc: Global, pass: CpuPass<Global>) -> Vec<CpuPass<Global>>
    ensures { result.items ≡ pass ∷ [] }
{
    let mut list = Vec::with_capacity(alloc, 1).expect(rt, "memory");
    list.push(pass).expect(rt, "memory");
    list
}

/// Shuts a machine down with one pass while another is out: both come back, and go on.
fn expect_missing<R: Wait + Abort>(
    rt: &R,
    alloc: Global,
    machine: Machine<Global>,
    one: CpuPass<Global>,
)
    requires { IsPassOf machine.table one }
{
    let given = list_of(rt, alloc, one);
    let ended = machine.shutdown(alloc, given);
    let (machine, mut given, fault) = ended.err().expect(rt, "a refusal");
    assert!(rt; fault == ShutdownFault::Missing);
    let mut one = given.remove(0);
    let owner = Step::OwnerOf { pfn: 0x40100 };
    expect_call(rt, &machine, &mut one, owner, OF_HOST);
    drop((machine, given, one));
}

/// CPU 0, maybe with a VM, makes a step, its pass is dropped, and CPU 1 makes a step too.
fn expect_dropped<R: Wait + Abort>(
    rt: &R,
    alloc: Global,
    has_vm: bool,
    last: (Step, Reply),
    found: (Step, Reply),
) {
    let mut machine = new_machine(rt, alloc, 2, 64);
    let mut zero = machine.pass(0).expect(rt, "the pass of CPU 0");
    let mut one = machine.pass(1).expect(rt, "the pass of CPU 1");
    if has_vm {
        make_first(rt, &machine, &mut zero);
    }
    expect_call(rt, &machine, &mut zero, last.0, last.1);
    drop(zero);
    expect_call(rt, &machine, &mut one, found.0, found.1);
    expect_missing(rt, alloc, machine, one);
}

#[test]
fn dropped_with_a_vcpu(rt: HostRuntime) {
    let load = Step::VcpuLoad { vm: FIRST, vcpu: 0 };
    let busy = Reply::Refused(Refusal::Busy);
    let teardown = Step::Teardown { vm: FIRST };
    expect_dropped(&rt, rt.alloc(), true, (load, DONE), (teardown, busy));
}

#[test]
fn dropped_with_a_hand(rt: HostRuntime) {
    let fund = Step::Fund { pfn: 0x40400, n: 1 };
    let perm = Reply::Refused(Refusal::Perm);
    let back = Step::HypDonateHost { pfn: 0x40400, n: 1 };
    expect_dropped(&rt, rt.alloc(), false, (fund, DONE), (back, perm));
}

#[test]
fn dropped_with_a_ticket(rt: HostRuntime) {
    let reserve = Step::VmReserve {
        kind: VmKind::Plain,
        vcpus: 1,
    };
    let first = Reply::Done(Value::Vm(FIRST));
    let second = Reply::Done(Value::Vm(VmId {
        slot: 1,
        generation: 1,
    }));
    expect_dropped(&rt, rt.alloc(), false, (reserve, first), (reserve, second));
}
