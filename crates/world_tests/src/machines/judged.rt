//! Calls with the oracle at the locks.
ghost use Rattle.part_table.specs.Passes.{IsPassOf};

use super::gates::FIRST;
use super::*;
use crate::held::TURNS;
use cpu_threads::Judge;
use ghost_judge::judge::judge;
use ghost_spec::state::Ghost;
use std::thread::{Threads, join};

/// What a judge has found: how often it was asked, how often it disagreed, and how often memory was refused.
#[derive(Clone, Copy, PartialEq)]
pub(super) struct Found {
    pub(super) asked: u64,
    pub(super) disagreed: u64,
    pub(super) refused: u64,
}

/// Judges each call by `judge`. One that misreads takes each reply that isn't a refusal for Perm.
#[derive(Drop)]
pub(super) struct Counting {
    global: Global,
    misreads: bool,
    pub(super) found: Found,
}

impl Counting {
    pub(super) fn new(global: Global, misreads: bool) -> Counting {
        let found = Found {
            asked: 0,
            disagreed: 0,
            refused: 0,
        };
        Counting {
            global,
            misreads,
            found,
        }
    }

    fn read(&self, reply: &Reply) -> Reply {
        match reply {
            Reply::Done(_) if self.misreads => Reply::Refused(Refusal::Perm),
            other => *other,
        }
    }
}

impl Judge for Counting {
    ghost takes = { λ from asked to. Unit {0} };

    fn judged(&mut self, pre: &Ghost, cpu: u64, step: &Step, reply: &Reply, post: &Ghost) {
        self.found.asked = self.found.asked.wrapping_add(1);
        let reply = self.read(reply);
        match judge(self.global, pre, cpu, *step, &reply, post) {
            Ok(None) => {}
            Ok(Some(_)) => self.found.disagreed = self.found.disagreed.wrapping_add(1),
            Err(_) => self.found.refused = self.found.refused.wrapping_add(1),
        }
    }

    fn unjudged(&mut self, _cpu: u64, _step: &Step, _reply: &Reply) {
        self.found.refused = self.found.refused.wrapping_add(1);
    }
}

/// Makes a step with a judge: it is tried again while another CPU has a part that it uses.
pub(super) fn call_judged(
    global: Global,
    machine: &Machine<Global>,
    pass: &mut CpuPass<Global>,
    step: Step,
    judge: &mut Counting,
) -> Reply
    requires { IsPassOf machine.now.table pass.old }
    ensures { IsPassOf machine.now.table pass.new }
{
    for _ in 0..TURNS {
        let reply = machine.try_call_judged(global, pass, step, judge);
        if reply != Reply::Refused(Refusal::Contended) {
            return reply;
        }
    }
    Reply::Refused(Refusal::Contended)
}

/// The steps of the first VM, from its making to a refused teardown.
const STEPS: [Step; 9] = [
    Step::VmReserve {
        kind: VmKind::Protected,
        vcpus: 1,
    },
    Step::Fund { pfn: 0x40400, n: 4 },
    Step::Install,
    Step::VmOpen,
    Step::VcpuLoad { vm: FIRST, vcpu: 0 },
    Step::DonateGuest {
        pfn: 0x40100,
        gfn: 0x80000,
        n: 1,
    },
    Step::GuestShareHost { gfn: 0x80000 },
    Step::OwnerOf { pfn: 0x40100 },
    Step::Teardown { vm: FIRST },
];

/// The question that CPU 1 asks.
const QUESTIONS: [Step; 20] = [Step::OwnerOf { pfn: 0x40300 }; 20];

/// Makes these steps, and counts the replies that aren't refusals.
fn make_each(
    global: Global,
    machine: &Machine<Global>,
    pass: CpuPass<Global>,
    steps: &[Step],
    misreads: bool,
) -> (Found, u64)
    requires { IsPassOf machine.now.table pass }
{
    let mut pass = pass;
    let mut judge = Counting::new(global, misreads);
    let mut done = 0u64;
    for step in steps {
        if let Reply::Done(_) = call_judged(global, machine, &mut pass, *step, &mut judge) {
            done = done.wrapping_add(1);
        }
    }
    (judge.found, done)
}

/// CPU 0 makes the steps of a VM, and CPU 1 asks often about a frame, each on a thread of its own.
fn make_both_judged<R: Threads + Sync>(
    rt: &R,
    global: Global,
    machine: &Machine<Global>,
    zero: CpuPass<Global>,
    one: CpuPass<Global>,
    misreads: bool,
) -> ((Found, u64), (Found, u64))
    requires zero { IsPassOf machine.now.table zero }
    requires one { IsPassOf machine.now.table one }
{
    join(
        rt,
        || make_each(global, machine, zero, &STEPS, misreads),
        || make_each(global, machine, one, &QUESTIONS, misreads),
    )
}

/// Compares what a judge has found of `calls` stored calls, of which `done` weren't refused.
fn expect_found(rt: &impl Abort, told: (Found, u64), calls: u64, done: u64, misreads: bool) {
    let wanted = Found {
        asked: calls,
        disagreed: if misreads { done } else { 0 },
        refused: 0,
    };
    assert!(rt; told == (wanted, done));
}

/// Both CPUs' calls, on a machine of its own.
fn expect_judged<R: Threads + Sync + Abort>(rt: &R, alloc: Global, misreads: bool) {
    let mut machine = new_machine(rt, alloc, 2, 64);
    let zero = machine.pass(0).expect(rt, "the pass of CPU 0");
    let one = machine.pass(1).expect(rt, "the pass of CPU 1");
    let (first, second) = make_both_judged(rt, alloc, &machine, zero, one, misreads);
    expect_found(rt, first, 9, 8, misreads);
    expect_found(rt, second, 20, 20, misreads);
    drop(machine);
}

#[test]
fn judged_calls(rt: HostRuntime) {
    expect_judged(&rt, rt.alloc(), false);
}

#[test]
fn judged_calls_misread(rt: HostRuntime) {
    expect_judged(&rt, rt.alloc(), true);
}
