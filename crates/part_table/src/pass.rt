//! What a CPU carries.
ghost use Rattle.std.specs.Prelude.{◌≡◌, ◌+◌, ◌<◌, [], length};
ghost use Rattle.reference_model.specs.model.History.{IsStored};
ghost use Rattle.part_table.specs.Answered.{Answers};
ghost use Rattle.part_table.specs.Parts.{parts};
ghost use Rattle.part_table.specs.Trying.{MakesFor};

use crate::exchanges::{PartSeat, SlotTable};
use crate::gate::{Gate, TryGate};
use crate::maker::Maker;
use crate::tries::any;
use call_table::{Call, Refusal, Reply, Step};
use page_state::Layout;
use part_types::CpuState;
use std::alloc::Allocator;
use std::marker::Model;

/// A CPU's pass: its own state, and the right to take parts. Contracts see its table and all that it knows.
#[derive(Drop)]
pub struct CpuPass<A: Allocator> {
    pub(crate) seat: PartSeat<A>,
    pub(crate) own: CpuState,
}

impl<A: Allocator> Model for CpuPass<A> {
    ghost use Rattle.std.specs.Prelude.{◌≡◌, ◌<◌, true, []};
    ghost use Rattle.part_table.specs.Passes.{Pass, numbers_held};
    ghost use Rattle.part_table.specs.Rule.{AtRest, IsIdle, known_of};

    ghost Value = { Pass };

    ghost view = { λ p. record {
      table = p.seat.table_id;
      knows = known_of p.seat.me.0;
      holds = numbers_held p.seat.me.0.held;
    } };

    ghost invariant = { λ p. (p.seat.me.1 ≡ [])
        × IsIdle p.seat.me.0
        × (p.seat.me.0.on ≡ true)
        × (p.seat.me.0.cpu ≡ p.own.id)
        × (p.seat.me.0.own ≡ p.own)
        × (p.seat.me.0.cpu < p.seat.me.0.layout.config.cpus)
        × AtRest p.seat.me.0 };
}

impl<A: Allocator> CpuPass<A> {
    /// The CPU's number.
    pub fn cpu(&self) -> u64
        ensures number { result ≡ self.now.knows.cpu }
        ensures below { result < self.now.knows.layout.config.cpus }
    {
        let _ = &self.seat;
        self.own.id
    }

    /// The CPU's number of its next call that is stored.
    pub fn number(&self) -> u64
        ensures { result ≡ length self.now.knows.own.log.calls + 1 }
    {
        let _ = &self.seat;
        self.own.log.len() as u64 + 1
    }

    /// The CPU's own list: its calls that are stored, the oldest first.
    pub fn calls(&self) -> &[Call]
        ensures { result.now ≡ self.now.knows.own.log.calls }
    {
        let _ = &self.seat;
        self.own.log.calls()
    }
}

impl<A: Allocator + Copy> CpuPass<A> {
    /// One try of a step.
    pub(crate) fn try_step<T, G: Gate, M: Maker<T, G>>(
        &mut self,
        gate: &G,
        maker: &M,
        table: &SlotTable<A>,
        alloc: A,
        layout: &Layout,
        step: Step,
        told: &mut T,
    ) -> Reply
        requires table { (self.old.table ≡ table.now.shared.table_id) × (table.now.shared.table_id.words ≡ parts) }
        requires layout { self.old.knows.layout ≡ layout.now }
        ensures table { self.new.table ≡ self.old.table }
        ensures rest { self.new.holds ≡ [] }
        ensures stays { (self.new.knows.layout ≡ self.old.knows.layout) × (self.new.knows.cpu ≡ self.old.knows.cpu) }
        ensures answers { Answers step result self.old.knows self.new.knows }
        ensures heard { IsStored result
            → G.heard_taken gate.now self.old.knows.cpu
            (length self.old.knows.own.log.calls + 1) }
        ensures made { MakesFor {A = A} M.tells step result self.old.knows self.new.knows told.old told.new }
    {
        if self.own.log.room() == 0 {
            return Reply::Refused(Refusal::LogFull);
        }
        let seat = &mut self.seat;
        let own = &mut self.own;
        let gate = TryGate::of(gate);
        any(&gate, maker, table, seat, alloc, layout, own, step, told).reply()
    }
}
