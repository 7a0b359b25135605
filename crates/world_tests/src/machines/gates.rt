//! A call that is held in its middle, while another CPU makes one.
ghost use Rattle.part_table.specs.Passes.{IsPassOf};

use super::rows::make_both;
use super::*;
use page_state::Entry;
use std::cell::Cell;

/// A pass beside its machine.
#[derive(Drop)]
pub(super) struct Beside<'a> {
    pub(super) machine: &'a Machine<Global>,
    pub(super) pass: CpuPass<Global>,
    ghost of: { IsPassOf machine.now.table pass },
}

/// The entry of a page of a VM.
pub(super) fn question(vm: VmId) -> Step {
    Step::GuestTranslate { vm, gfn: 0x10 }
}

/// Asks for the entry of a page of a VM.
fn ask<'a>(beside: Beside<'a>, vm: VmId) -> Reply {
    let Beside { machine, mut pass } = beside;
    machine.try_call(&mut pass, question(vm))
}

/// Once a call has taken its parts, and before they are home again, another CPU asks about a VM.
#[derive(Drop)]
struct Meanwhile<'a> {
    other: Cell<Option<Beside<'a>>>,
    vm: VmId,
    reply: Cell<Option<Reply>>,
}

impl<'a> Gate for Meanwhile<'a> {
    ghost heard_taken = { λ gate cpu number. Unit {0} };

    ghost heard_answered = { λ gate cpu number. Unit {0} };

    fn taken(&self, _cpu: u64, _number: u64) {
        if let Some(other) = self.other.replace(None) {
            self.reply.set(Some(ask(other, self.vm)));
        }
    }

    fn answered(&self, _cpu: u64, _number: u64) {}
}

/// The VM of the first slot.
pub(super) const FIRST: VmId = VmId {
    slot: 0,
    generation: 1,
};

/// The VM of the second slot.
pub(super) const SECOND: VmId = VmId {
    slot: 1,
    generation: 2,
};

/// The gate in which a CPU asks about a VM.
fn gate_of<'a>(machine: &'a Machine<Global>, pass: CpuPass<Global>, vm: VmId) -> Meanwhile<'a>
    requires { IsPassOf machine.now.table pass }
{
    Meanwhile {
        other: Cell::new(Some(Beside { machine, pass })),
        vm,
        reply: Cell::new(None),
    }
}

/// What was answered in the gate.
fn told<'a>(gate: Meanwhile<'a>) -> Option<Reply> {
    let Meanwhile {
        other,
        vm: _,
        reply,
    } = gate;
    drop(other.into_inner());
    reply.into_inner()
}

/// CPU 0 asks about the first VM, and in the middle of its call CPU 1 about a VM. Both replies.
fn ask_both(
    machine: &Machine<Global>,
    zero: &mut CpuPass<Global>,
    one: CpuPass<Global>,
    vm: VmId,
) -> (Reply, Option<Reply>)
    requires zero { IsPassOf machine.now.table zero.old }
    requires one { IsPassOf machine.now.table one }
{
    let gate = gate_of(machine, one, vm);
    let first = machine.try_call_gated(&gate, zero, question(FIRST));
    (first, told(gate))
}

/// What is answered about a page that isn't mapped.
pub(super) const UNMAPPED: Reply = Reply::Done(Value::Entry(Entry::Unmapped));

/// Both calls on a machine of its own.
fn expect_both<R: Wait + Abort>(rt: &R, alloc: Global, vm: VmId, reply: Reply) {
    let mut machine = new_machine(rt, alloc, 2, 64);
    let mut zero = machine.pass(0).expect(rt, "the pass of CPU 0");
    let mut one = machine.pass(1).expect(rt, "the pass of CPU 1");
    make_both(rt, &machine, &mut zero, &mut one);
    let (first, second) = ask_both(&machine, &mut zero, one, vm);
    assert_eq!(rt; first, UNMAPPED);
    assert!(rt; second == Some(reply));
    drop((machine, zero));
}

#[test]
fn gate_two_vms(rt: HostRuntime) {
    expect_both(&rt, rt.alloc(), SECOND, UNMAPPED);
}

#[test]
fn gate_one_vm(rt: HostRuntime) {
    let contended = Reply::Refused(Refusal::Contended);
    expect_both(&rt, rt.alloc(), FIRST, contended);
}
