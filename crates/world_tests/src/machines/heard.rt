//! The events that a gate hears of a call, by the call's parts and by the state in which it finds them.
ghost use Rattle.part_table.specs.Passes.{IsPassOf};

use super::gates::FIRST;
use super::*;
use std::cell::Cell;

/// All parts are held: the digit of `taken`.
const TAKEN: u64 = 8;

/// The call is answered: the digit of `answered`.
const ANSWERED: u64 = 9;

/// Records the events of one call, a digit each: an exchange by its kind, `TAKEN` and `ANSWERED`. A call of another CPU
/// or another number is a 0.
#[derive(Drop)]
pub(super) struct Heard {
    cpu: u64,
    number: u64,
    events: Cell<u64>,
}

impl Heard {
    pub(super) fn new(cpu: u64, number: u64) -> Heard {
        Heard {
            cpu,
            number,
            events: Cell::new(0),
        }
    }

    pub(super) fn events(&self) -> u64 {
        self.events.get()
    }

    fn hear(&self, cpu: u64, number: u64, event: u64) {
        let is_of_call = cpu == self.cpu && number == self.number;
        let event = if is_of_call { event } else { 0 };
        let heard = self.events.get().wrapping_mul(10).wrapping_add(event);
        self.events.set(heard);
    }
}

impl Gate for Heard {
    ghost heard_taken = { λ gate cpu number. Unit {0} };

    ghost heard_answered = { λ gate cpu number. Unit {0} };

    fn taken(&self, cpu: u64, number: u64) {
        self.hear(cpu, number, TAKEN);
    }

    fn answered(&self, cpu: u64, number: u64) {
        self.hear(cpu, number, ANSWERED);
    }

    fn exchanged(&self, cpu: u64, number: u64, kind: u64) {
        self.hear(cpu, number, kind);
    }
}

/// Tries a step once, and compares what the gate heard and the reply.
fn expect_heard(
    rt: &impl Abort,
    machine: &Machine<Global>,
    pass: &mut CpuPass<Global>,
    step: Step,
    wanted: (u64, Reply),
)
    requires { IsPassOf machine.now.table pass.old }
    ensures { IsPassOf machine.now.table pass.new }
{
    let gate = Heard::new(pass.cpu(), pass.number());
    let reply = machine.try_call_gated(&gate, pass, step);
    assert!(rt; (gate.events(), reply) == wanted);
}

/// Makes a step, and compares what the gate heard.
fn expect_heard_of_call<R: Wait + Abort>(
    rt: &R,
    machine: &Machine<Global>,
    pass: &mut CpuPass<Global>,
    step: Step,
    wanted: u64,
)
    requires { IsPassOf machine.now.table pass.old }
    ensures { IsPassOf machine.now.table pass.new }
{
    let gate = Heard::new(pass.cpu(), pass.number());
    machine.call_gated(rt, &gate, pass, step);
    assert_eq!(rt; gate.events(), wanted);
}

/// Tries a step again and again.
fn try_often(machine: &Machine<Global>, pass: &mut CpuPass<Global>, step: Step, times: u64)
    requires { IsPassOf machine.now.table pass.old }
    ensures { IsPassOf machine.now.table pass.new }
{
    for _ in 0..times {
        machine.try_call(pass, step);
    }
}

const OWNER: Step = Step::OwnerOf { pfn: 0x40100 };

const TOPUP: Step = Step::Topup { vm: FIRST };

/// The step that asks the first VM about a page.
const QUESTION: Step = Step::GuestTranslate {
    vm: FIRST,
    gfn: 0x80000,
};

#[test]
fn hears_each_kind_of_parts(rt: HostRuntime) {
    let mut machine = new_machine(&rt, rt.alloc(), 2, 64);
    let mut zero = machine.pass(0).expect(&rt, "the pass of CPU 0");
    make_first(&rt, &machine, &mut zero);
    let none = Reply::Refused(Refusal::NoVm);
    expect_heard(&rt, &machine, &mut zero, Step::Install, (89, none));
    expect_heard_of_call(&rt, &machine, &mut zero, Step::Install, 89);
    expect_heard_of_call(&rt, &machine, &mut zero, Step::VcpuPut, 1839);
    expect_heard_of_call(&rt, &machine, &mut zero, OWNER, 1839);
    expect_heard_of_call(&rt, &machine, &mut zero, QUESTION, 1839);
    expect_heard_of_call(&rt, &machine, &mut zero, TOPUP, 118_459);
    let none = Reply::Refused(Refusal::Perm);
    expect_heard(&rt, &machine, &mut zero, TOPUP, (118_459, none));
    drop((machine, zero));
}

#[test]
fn hears_full_logs(rt: HostRuntime) {
    let mut machine = new_machine(&rt, rt.alloc(), 3, 5);
    let mut zero = machine.pass(0).expect(&rt, "the pass of CPU 0");
    let mut one = machine.pass(1).expect(&rt, "the pass of CPU 1");
    let mut two = machine.pass(2).expect(&rt, "the pass of CPU 2");
    let full = Reply::Refused(Refusal::LogFull);
    make_first(&rt, &machine, &mut zero);
    // The logs of the CPU and of the guest have 5 calls then.
    try_often(&machine, &mut one, QUESTION, 4);
    expect_heard(&rt, &machine, &mut two, QUESTION, (159, full));
    expect_heard(&rt, &machine, &mut two, TOPUP, (11_559, full));
    try_often(&machine, &mut two, OWNER, 3);
    expect_heard(&rt, &machine, &mut two, TOPUP, (159, full));
    machine.try_call(&mut one, Step::Install);
    expect_heard(&rt, &machine, &mut one, TOPUP, (9, full));
    drop((machine, zero, one, two));
}
