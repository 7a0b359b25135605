//! Two CPUs, one after the other.
ghost use Rattle.std.specs.Prelude.{◌≡◌};
ghost use Rattle.part_table.specs.Passes.{IsPassOf};

use super::*;

/// Makes a step, and compares its reply.
pub(super) fn expect_call<R: Wait + Abort>(
    rt: &R,
    machine: &Machine<Global>,
    pass: &mut CpuPass<Global>,
    step: Step,
    reply: Reply,
)
    requires { IsPassOf machine.now.table pass.old }
    ensures { IsPassOf machine.now.table pass.new }
{
    let said = machine.call(rt, pass, step);
    assert_eq!(rt; said, reply);
}

/// Tries a step once, and compares its reply.
fn expect_try(
    rt: &impl Abort,
    machine: &Machine<Global>,
    pass: &mut CpuPass<Global>,
    step: Step,
    reply: Reply,
)
    requires { IsPassOf machine.now.table pass.old }
    ensures { IsPassOf machine.now.table pass.new }
{
    let said = machine.try_call(pass, step);
    assert_eq!(rt; said, reply);
}

/// Asks for VMs that aren't made: with too many vCPUs, and with frames that another VM has. The slot is then given back.
fn refuse_vms<R: Wait + Abort>(rt: &R, machine: &Machine<Global>, pass: &mut CpuPass<Global>)
    requires { IsPassOf machine.now.table pass.old }
    ensures { IsPassOf machine.now.table pass.new }
{
    let crowded = (VmKind::Plain, 9, 0x40408, 1);
    let invalid = Err((InitStage::Reserve, Refusal::Invalid));
    expect_init(rt, machine, pass, crowded, invalid);
    let taken = (VmKind::Plain, 1, 0x40400, 1);
    let perm = Err((InitStage::Fund, Refusal::Perm));
    expect_init(rt, machine, pass, taken, perm);
    let busy = Err((InitStage::Reserve, Refusal::Busy));
    expect_init(rt, machine, pass, taken, busy);
    let done = Reply::Done(Value::Nothing);
    expect_call(rt, machine, pass, Step::VmRelease, done);
    let none = Reply::Refused(Refusal::NoVm);
    expect_call(rt, machine, pass, Step::VmRelease, none);
}

/// The VM of the second slot's second generation, with 1 frame.
fn make_second<R: Wait + Abort>(rt: &R, machine: &Machine<Global>, pass: &mut CpuPass<Global>)
    requires { IsPassOf machine.now.table pass.old }
    ensures { IsPassOf machine.now.table pass.new }
{
    let vm = VmId {
        slot: 1,
        generation: 2,
    };
    let asked = (VmKind::Plain, 1, 0x40408, 1);
    expect_init(rt, machine, pass, asked, Ok(vm));
}

/// CPU 0 makes the VM of the first slot, and CPU 1, after its refusals, that of the second.
pub(super) fn make_both<R: Wait + Abort>(
    rt: &R,
    machine: &Machine<Global>,
    zero: &mut CpuPass<Global>,
    one: &mut CpuPass<Global>,
)
    requires zero { IsPassOf machine.now.table zero.old }
    requires one { IsPassOf machine.now.table one.old }
    ensures zero { IsPassOf machine.now.table zero.new }
    ensures one { IsPassOf machine.now.table one.new }
{
    make_first(rt, machine, zero);
    refuse_vms(rt, machine, one);
    make_second(rt, machine, one);
}

/// Asks for a pass that was handed out before, or of a CPU that there isn't.
fn expect_no_pass(rt: &impl Abort, machine: &mut Machine<Global>, cpu: usize)
    ensures { machine.new.table ≡ machine.old.table }
{
    let pass = machine.pass(cpu);
    assert!(rt; pass.is_none());
    drop(pass);
}

#[test]
fn makes_vms(rt: HostRuntime) {
    let mut machine = new_machine(&rt, rt.alloc(), 2, 64);
    let mut zero = machine.pass(0).expect(&rt, "the pass of CPU 0");
    let mut one = machine.pass(1).expect(&rt, "the pass of CPU 1");
    expect_no_pass(&rt, &mut machine, 0);
    expect_no_pass(&rt, &mut machine, 2);
    make_both(&rt, &machine, &mut zero, &mut one);
    drop((machine, zero, one));
}

#[test]
fn shares_once(rt: HostRuntime) {
    let mut machine = new_machine(&rt, rt.alloc(), 2, 64);
    let mut zero = machine.pass(0).expect(&rt, "the pass of CPU 0");
    let mut one = machine.pass(1).expect(&rt, "the pass of CPU 1");
    let share = Step::ShareHyp { pfn: 0x40100 };
    let done = Reply::Done(Value::Nothing);
    expect_try(&rt, &machine, &mut zero, share, done);
    let perm = Reply::Refused(Refusal::Perm);
    expect_try(&rt, &machine, &mut one, share, perm);
    drop((machine, zero, one));
}
