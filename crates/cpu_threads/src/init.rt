//! Making a VM by four calls.
ghost use Rattle.std.specs.Prelude.{◌≡◌, []};
ghost use Rattle.call_table.specs.declared.reply.Value.TheVariants.{Vm};
ghost use Rattle.call_table.specs.declared.step.VmId.{VmId as VmIdOf};
ghost use Rattle.part_table.specs.Passes.{IsPassOf};
ghost use Rattle.cpu_threads.specs.Inits.{ComesTo, InitsVm};

use crate::machine::Machine;
use call_table::{Refusal, Reply, Step, Value, VmId, VmKind};
use part_table::CpuPass;
use std::alloc::Allocator;
use std::sync::Wait;

/// The four calls that make a VM, in their order.
#[derive(Clone, Copy, PartialEq)]
pub enum InitStage {
    /// A slot is reserved.
    Reserve,
    /// The CPU's hand is funded.
    Fund,
    /// The VM gets the hand.
    Install,
    /// The VM opens.
    Open,
}

/// The VM of a value.
fn vm_in(value: Value) -> VmId
    requires vm { (vm : VmIdOf) × (value ≡ Vm vm) }
    ensures { value ≡ Vm result }
{
    match value {
        Value::Vm(vm) => vm,
        Value::Nothing => unreachable!(),
        Value::Frame(_) => unreachable!(),
        Value::Entry(_) => unreachable!(),
        Value::Row(_) => unreachable!(),
    }
}

impl<A: Allocator + Copy> Machine<A> {
    /// Makes a step, and answers its value or its refusal.
    fn make<R: Wait>(&self, rt: &R, pass: &mut CpuPass<A>, step: Step) -> Result<Value, Refusal>
        requires pass { IsPassOf self.now.table pass.old }
        ensures pass { IsPassOf self.now.table pass.new }
        ensures cpu { pass.new.knows.cpu ≡ pass.old.knows.cpu }
        ensures rest { pass.new.holds ≡ [] }
        ensures made { ComesTo step result pass.old.knows pass.new.knows }
    {
        match self.call(rt, pass, step) {
            Reply::Done(value) => Ok(value),
            Reply::Refused(why) => Err(why),
        }
    }

    /// Makes a VM of the kind with `vcpus` vCPUs, and funds it with `n` frames from `pfn` on: reserves a slot, funds the
    /// CPU's hand, installs and opens, each as `call` does, up to the first refusal, which it answers with its stage. What
    /// was booked or funded then stays with the CPU. It may wait.
    pub fn init_vm<R: Wait>(
        &self,
        rt: &R,
        pass: &mut CpuPass<A>,
        kind: VmKind,
        vcpus: u64,
        pfn: u64,
        n: u64,
    ) -> Result<VmId, (InitStage, Refusal)>
        requires pass { IsPassOf self.now.table pass.old }
        ensures pass { IsPassOf self.now.table pass.new }
        ensures cpu { pass.new.knows.cpu ≡ pass.old.knows.cpu }
        ensures rest { pass.new.holds ≡ [] }
        ensures inits { InitsVm kind vcpus pfn n result pass.old.knows pass.new.knows }
    {
        if let Err(why) = self.make(rt, pass, Step::VmReserve { kind, vcpus }) {
            return Err((InitStage::Reserve, why));
        }
        if let Err(why) = self.make(rt, pass, Step::Fund { pfn, n }) {
            return Err((InitStage::Fund, why));
        }
        if let Err(why) = self.make(rt, pass, Step::Install) {
            return Err((InitStage::Install, why));
        }
        match self.make(rt, pass, Step::VmOpen) {
            Ok(value) => Ok(vm_in(value)),
            Err(why) => Err((InitStage::Open, why)),
        }
    }
}
