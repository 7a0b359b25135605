//! The machine: all parts of a world under one table, and the passes of its CPUs.
ghost use Rattle.std.specs.Prelude.{◌≡◌, ◌≢◌, ◌+◌, ◌<◌, ◌↔◌, [], IsTrue, IfSome, length};
ghost use Rattle.call_table.specs.declared.reply.Refusal.TheVariants.{Contended, LogFull};
ghost use Rattle.call_table.specs.declared.reply.Reply.TheVariants.{Refused};
ghost use Rattle.reference_model.specs.model.History.{IsStored};
ghost use Rattle.part_table.specs.Answered.{Answers};
ghost use Rattle.part_table.specs.Passes.{IsPassOf};
ghost use Rattle.cpu_threads.specs.Judged.{IsJudged};
ghost use Rattle.cpu_threads.specs.Machines.{FullInTheEnd, HandsOut, StoresInTheEnd};

use crate::judged::{Judge, Recorder};
use call_table::{Refusal, Reply, Step};
use ghost_judge::laws;
use part_table::{CpuPass, Gate, Open, PartTable};
use std::alloc::{Allocator, Global};
use std::marker::Model;
use std::sync::Wait;

/// A booted machine. Threads may share it, each with the pass of a CPU. `A` allocates the tables of all trees.
#[derive(Drop)]
pub struct Machine<A: Allocator> {
    pub(crate) table: PartTable<A>,
    pub(crate) passes: Vec<Option<CpuPass<A>>>,
}

impl<A: Allocator> Model for Machine<A> {
    ghost use Rattle.cpu_threads.specs.Machines.{IsReady, Machine as Seen};

    ghost Value = { Seen };

    ghost view = { λ m. record { table = m.table; passes = m.passes.items } };

    ghost invariant = { λ m. IsReady m.table m.passes.items };
}

/// Whether a reply is Contended.
fn is_contended(reply: &Reply) -> bool
    ensures { IsTrue result ↔ (reply.now ≡ Refused Contended) }
{
    matches!(reply, Reply::Refused(Refusal::Contended))
}

impl<A: Allocator> Machine<A> {
    /// The pass of a CPU, the first time that it is asked for.
    pub fn pass(&mut self, cpu: usize) -> Option<CpuPass<A>>
        ensures table { self.new.table ≡ self.old.table }
        ensures hands { HandsOut result cpu self.old.passes self.new.passes }
        ensures pass { IfSome result (λ p. IsPassOf self.old.table p × (p.knows.cpu ≡ cpu)) }
    {
        if cpu >= self.passes.len() {
            return None;
        }
        self.passes[cpu].take()
    }
}

impl<A: Allocator + Copy> Machine<A> {
    /// One try of a step, which waits for nobody. Contended means that another pass has a part that the step uses.
    pub fn try_call(&self, pass: &mut CpuPass<A>, step: Step) -> Reply
        requires pass { IsPassOf self.now.table pass.old }
        ensures pass { IsPassOf self.now.table pass.new }
        ensures cpu { pass.new.knows.cpu ≡ pass.old.knows.cpu }
        ensures rest { pass.new.holds ≡ [] }
        ensures answers { Answers step result pass.old.knows pass.new.knows }
    {
        self.try_call_gated(&Open, pass, step)
    }

    /// One try of a step, with a gate. It waits for nobody but the gate, which hears of a stored call that all its parts are
    /// held, and of each call that it is answered.
    pub fn try_call_gated<G: Gate>(&self, gate: &G, pass: &mut CpuPass<A>, step: Step) -> Reply
        requires pass { IsPassOf self.now.table pass.old }
        ensures pass { IsPassOf self.now.table pass.new }
        ensures cpu { pass.new.knows.cpu ≡ pass.old.knows.cpu }
        ensures rest { pass.new.holds ≡ [] }
        ensures answers { Answers step result pass.old.knows pass.new.knows }
        ensures gate_taken { IsStored result
            → G.heard_taken gate.now pass.old.knows.cpu
            (length pass.old.knows.own.log.calls + 1) }
        ensures gate_answered { G.heard_answered gate.now pass.old.knows.cpu (length pass.old.knows.own.log.calls + 1) }
    {
        let (cpu, number) = (pass.cpu(), pass.number());
        let reply = self.table.try_step(gate, pass, step);
        gate.answered(cpu, number);
        reply
    }

    /// One try of a step, with the oracle at the locks: while all parts that the call uses are held, the judge is asked of it
    /// by records of them before and after. It waits for nobody but the judge.
    pub fn try_call_judged<J: Judge>(
        &self,
        global: Global,
        pass: &mut CpuPass<A>,
        step: Step,
        judge: &mut J,
    ) -> Reply
        requires pass { IsPassOf self.now.table pass.old }
        ensures pass { IsPassOf self.now.table pass.new }
        ensures cpu { pass.new.knows.cpu ≡ pass.old.knows.cpu }
        ensures rest { pass.new.holds ≡ [] }
        ensures answers { Answers step result pass.old.knows pass.new.knows }
        ensures judged { IsStored result
            → IsJudged A J.takes step result pass.old.knows pass.new.knows judge.old judge.new }
        ensures silent { (IsStored result → ⊥) → judge.new ≡ judge.old }
    {
        laws::steps_agree();
        self.table
            .try_step_by(&Open, &Recorder { global }, pass, step, judge)
    }

    /// Makes a step: it is tried again while another pass has a part that it uses. It may wait.
    pub fn call<R: Wait>(&self, rt: &R, pass: &mut CpuPass<A>, step: Step) -> Reply
        requires pass { IsPassOf self.now.table pass.old }
        ensures pass { IsPassOf self.now.table pass.new }
        ensures cpu { pass.new.knows.cpu ≡ pass.old.knows.cpu }
        ensures rest { pass.new.holds ≡ [] }
        ensures answered { result ≢ Refused Contended }
        ensures stored { IsStored result → StoresInTheEnd step result pass.old.knows pass.new.knows }
        ensures log_full { result ≡ Refused LogFull → FullInTheEnd step pass.old.knows pass.new.knows }
    {
        self.call_gated(rt, &Open, pass, step)
    }

    /// Makes a step, with a gate, which hears the same. It may wait.
    pub fn call_gated<R: Wait, G: Gate>(
        &self,
        rt: &R,
        gate: &G,
        pass: &mut CpuPass<A>,
        step: Step,
    ) -> Reply
        requires pass { IsPassOf self.now.table pass.old }
        ensures pass { IsPassOf self.now.table pass.new }
        ensures cpu { pass.new.knows.cpu ≡ pass.old.knows.cpu }
        ensures rest { pass.new.holds ≡ [] }
        ensures answered { result ≢ Refused Contended }
        ensures stored { IsStored result → StoresInTheEnd step result pass.old.knows pass.new.knows }
        ensures log_full { result ≡ Refused LogFull → FullInTheEnd step pass.old.knows pass.new.knows }
        ensures gate_taken { IsStored result
            → G.heard_taken gate.now pass.old.knows.cpu
            (length pass.old.knows.own.log.calls + 1) }
        ensures gate_answered { G.heard_answered gate.now pass.old.knows.cpu (length pass.old.knows.own.log.calls + 1) }
    {
        let cpu = pass.cpu();
        let number = pass.number();
        for _ in rt.forever() {
            let reply = self.table.try_step(gate, pass, step);
            if !is_contended(&reply) {
                gate.answered(cpu, number);
                return reply;
            }
        }
        unreachable!()
    }
}
