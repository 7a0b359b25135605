//! One try of a call.
ghost use Rattle.std.specs.Prelude.{◌≡◌, ◌+◌, ◌<◌, ◌∷◌, [], length};
ghost use Rattle.part_table.specs.Parts.{numbers_for, parts};
ghost use Rattle.part_table.specs.Rule.{known_of};
ghost use Rattle.part_table.specs.Trying.{CanTry, IsAtRest, MakesOf, Tells, WhereStored};

use crate::exchanges::{PartSeat, SlotTable, commit, commit_first, enter, put_back, release, take};
use crate::gate::{Gate, TryGate};
use crate::maker::Maker;
use crate::slot::Slot;
use call_table::{Call, Refusal, Reply, Step};
use hypercalls::{UsedParts, uses};
use page_state::Layout;
use part_types::CpuState;
use std::alloc::Allocator;

/// What a try of a call comes to.
pub enum Tried {
    /// The call was made, and is stored.
    Stored(Call),
    /// A part that it uses was taken by another pass.
    Contended,
    /// A log that would store it is full.
    LogFull,
}

/// Tries a step that uses no part.
pub fn none<A: Allocator + Copy, T, G: Gate, M: Maker<T, G>>(
    gate: &TryGate<G>,
    maker: &M,
    table: &SlotTable<A>,
    seat: &mut PartSeat<A>,
    layout: &Layout,
    cpu: &mut CpuState,
    step: Step,
    told: &mut T,
) -> Tried
    requires can { CanTry table.now.shared.table_id layout.now cpu.old seat.old.table_id seat.old.me }
    requires uses { numbers_for cpu.old step ≡ [] }
    ensures rest { IsAtRest table.now.shared.table_id layout.now cpu.old.id cpu.new seat.new.table_id
        seat.new.me }
    ensures tells { Tells step [] result (known_of seat.old.me.0) (known_of seat.new.me.0) }
    ensures made { MakesOf {A = A} M.tells step [] result (known_of seat.old.me.0)
        (known_of seat.new.me.0) told.old told.new }
    ensures heard { WhereStored result
        (G.heard_taken gate.now.gate.now cpu.old.id (length cpu.old.log.calls + 1)) }
{
    gate.taken_none(cpu, &step);
    let call = maker.idle::<A>(gate, layout, cpu, step, told);
    enter(table, seat, &call, cpu);
    Tried::Stored(call)
}

/// Tries a step that uses the part k alone.
pub fn one<A: Allocator + Copy, T, G: Gate, M: Maker<T, G>>(
    gate: &TryGate<G>,
    maker: &M,
    table: &SlotTable<A>,
    seat: &mut PartSeat<A>,
    alloc: A,
    layout: &Layout,
    k: u64,
    cpu: &mut CpuState,
    step: Step,
    told: &mut T,
) -> Tried
    requires can { CanTry table.now.shared.table_id layout.now cpu.old seat.old.table_id seat.old.me }
    requires part { k < parts }
    requires uses { numbers_for cpu.old step ≡ k ∷ [] }
    ensures rest { IsAtRest table.now.shared.table_id layout.now cpu.old.id cpu.new seat.new.table_id
        seat.new.me }
    ensures tells { Tells step (k ∷ []) result (known_of seat.old.me.0) (known_of seat.new.me.0) }
    ensures made { MakesOf {A = A} M.tells step (k ∷ []) result (known_of seat.old.me.0)
        (known_of seat.new.me.0) told.old told.new }
    ensures heard { WhereStored result
        (G.heard_taken gate.now.gate.now cpu.old.id (length cpu.old.log.calls + 1)) }
{
    let at = k as usize;
    let (id, number) = (cpu.id, cpu.log.len() as u64 + 1);
    let Some(part) = take(table, seat, at) else {
        gate.exchanged(id, number, 2);
        return Tried::Contended;
    };
    gate.exchanged(id, number, 1);
    if part.room() == 0 {
        put_back(table, seat, at, part);
        gate.exchanged(id, number, 5);
        return Tried::LogFull;
    }
    gate.taken_one(cpu, &step, k, &part);
    let (part, call) = maker.alone(gate, alloc, layout, part, k, cpu, step, told);
    commit(table, seat, at, part, &call, cpu);
    gate.exchanged(id, number, 3);
    Tried::Stored(call)
}

/// Tries a step that uses the Shared part and the Guest part of slot v. The Shared part is taken first, and goes home last.
pub fn two<A: Allocator + Copy, T, G: Gate, M: Maker<T, G>>(
    gate: &TryGate<G>,
    maker: &M,
    table: &SlotTable<A>,
    seat: &mut PartSeat<A>,
    alloc: A,
    layout: &Layout,
    v: u64,
    cpu: &mut CpuState,
    step: Step,
    told: &mut T,
) -> Tried
    requires can { CanTry table.now.shared.table_id layout.now cpu.old seat.old.table_id seat.old.me }
    requires part { v + 2 < parts }
    requires uses { numbers_for cpu.old step ≡ 1 ∷ (v + 2) ∷ [] }
    ensures rest { IsAtRest table.now.shared.table_id layout.now cpu.old.id cpu.new seat.new.table_id
        seat.new.me }
    ensures tells { Tells step (1 ∷ (v + 2) ∷ []) result (known_of seat.old.me.0) (known_of seat.new.me.0) }
    ensures made { MakesOf {A = A} M.tells step (1 ∷ (v + 2) ∷ []) result (known_of seat.old.me.0)
        (known_of seat.new.me.0) told.old told.new }
    ensures heard { WhereStored result
        (G.heard_taken gate.now.gate.now cpu.old.id (length cpu.old.log.calls + 1)) }
{
    let at = v as usize + 2;
    let (id, number) = (cpu.id, cpu.log.len() as u64 + 1);
    let Some(shared) = take(table, seat, 1) else {
        gate.exchanged(id, number, 2);
        return Tried::Contended;
    };
    gate.exchanged(id, number, 1);
    if shared.room() == 0 {
        put_back(table, seat, 1, shared);
        gate.exchanged(id, number, 5);
        return Tried::LogFull;
    }
    let Some(guest) = take(table, seat, at) else {
        gate.exchanged(id, number, 2);
        put_back(table, seat, 1, shared);
        gate.exchanged(id, number, 5);
        return Tried::Contended;
    };
    gate.exchanged(id, number, 1);
    if guest.room() == 0 {
        put_back(table, seat, at, guest);
        gate.exchanged(id, number, 5);
        put_back(table, seat, 1, shared);
        gate.exchanged(id, number, 5);
        return Tried::LogFull;
    }
    gate.taken_two(cpu, &step, v, &shared, &guest);
    let (shared, guest, call) = maker.both(gate, alloc, layout, shared, guest, v, cpu, step, told);
    commit_first(table, seat, at, guest, shared, &call, cpu);
    gate.exchanged(id, number, 4);
    release(table, seat, 1);
    gate.exchanged(id, number, 5);
    Tried::Stored(call)
}

/// Tries a step on the parts that it uses.
pub fn any<A: Allocator + Copy, T, G: Gate, M: Maker<T, G>>(
    gate: &TryGate<G>,
    maker: &M,
    table: &SlotTable<A>,
    seat: &mut PartSeat<A>,
    alloc: A,
    layout: &Layout,
    cpu: &mut CpuState,
    step: Step,
    told: &mut T,
) -> Tried
    requires can { CanTry table.now.shared.table_id layout.now cpu.old seat.old.table_id seat.old.me }
    ensures rest { IsAtRest table.now.shared.table_id layout.now cpu.old.id cpu.new seat.new.table_id
        seat.new.me }
    ensures tells { Tells step (numbers_for cpu.old step) result (known_of seat.old.me.0)
        (known_of seat.new.me.0) }
    ensures made { MakesOf {A = A} M.tells step (numbers_for cpu.old step) result (known_of seat.old.me.0)
        (known_of seat.new.me.0) told.old told.new }
    ensures heard { WhereStored result
        (G.heard_taken gate.now.gate.now cpu.old.id (length cpu.old.log.calls + 1)) }
{
    match uses(cpu, &step) {
        UsedParts::Nothing => none(gate, maker, table, seat, layout, cpu, step, told),
        UsedParts::Vms => one(gate, maker, table, seat, alloc, layout, 0, cpu, step, told),
        UsedParts::Shared => one(gate, maker, table, seat, alloc, layout, 1, cpu, step, told),
        UsedParts::Guest(v) => one(
            gate,
            maker,
            table,
            seat,
            alloc,
            layout,
            v + 2,
            cpu,
            step,
            told,
        ),
        UsedParts::Both(v) => two(gate, maker, table, seat, alloc, layout, v, cpu, step, told),
    }
}

impl Tried {
    ghost use Rattle.std.specs.Prelude.{◌≡◌};
    ghost use Rattle.part_table.specs.Trying.{reply_of};

    /// The reply.
    pub fn reply(self) -> Reply
        ensures { result ≡ reply_of self }
    {
        match self {
            Tried::Stored(call) => call.reply,
            Tried::Contended => Reply::Refused(Refusal::Contended),
            Tried::LogFull => Reply::Refused(Refusal::LogFull),
        }
    }
}
