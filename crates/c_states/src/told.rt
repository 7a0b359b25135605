//! A state as lists: what `made` reads, written.
ghost use Rattle.std.specs.Prelude.{◌≡◌, ℕ, ◌+◌, ◌<◌, ◌≤◌, ◌++◌, ◌==◌, ◌&&◌, [], IfOk, IsTrue, None, OnOk, Some, if◌then◌else◌, get_or, length, map};
ghost use Rattle.std.specs.List.{range_with_len};
ghost use Rattle.ghost_spec.specs.States.{contents_in, phase_in, stand_in};
ghost use Rattle.ghost_spec.specs.Views.{cpu_in};
ghost use Rattle.c_states.specs.Lists.{
  cpu_from_c,
  frame_from_c,
  frames_from_c,
  hand_from_c,
  kind_from_c,
  loaded_from_c,
  loader_from_c,
  phase_from_c,
  row_from_c,
  rows_from_c,
  run_from_c,
  runs_from_c,
  stage_from_c,
  stand_from_c,
  table_from_c,
  tables_from_c,
  ticket_from_c,
};
ghost use Rattle.c_states.specs.States.{contents_from_c};
ghost use Rattle.c_states.specs.Known.{has_known_ticket, is_frame, is_guest, is_row, is_run, is_slot, is_table};
ghost use Rattle.c_states.specs.Told.{guest_head_in, guest_head_from_c, in_pool_order, is_cpu_well_formed, lists_owned, slot_head_in, slot_head_from_c, ReportsGuests, AreKnown, AreLoads, AreLoadsAdded, AreWellFormed};
ghost use Rattle.c_states.specs.Views.{lists_from_c};

use crate::members::{
    PlainCpu, PlainFrame, PlainGuest, PlainLoad, PlainRow, PlainRun, PlainSlot, PlainTable,
};
use crate::state::{GUESTS, HOST, HYP, PlainState, SHARED_POOL, both};
use c_words::{owner_to_c, target_to_c};
use call_table::VmKind;
use ghost_spec::cpu::GhostCpu;
use ghost_spec::lists::GhostLists;
use ghost_spec::parts::{GhostGuest, GhostPhase, GhostSlot, GhostStand};
use ghost_spec::state::Ghost;
use ghost_trees::tree::Table;
use page_state::{PageRange, Row, Run};
use reference_model::{Loaded, Stage, Ticket};
use std::alloc::{AllocError, Global};

/// The lists of a state.
#[derive(Drop)]
pub struct PlainLists {
    pub runs: Vec<PlainRun>,
    pub tables: Vec<PlainTable>,
    pub frames: Vec<PlainFrame>,
    pub slots: Vec<PlainSlot>,
    pub loads: Vec<PlainLoad>,
    pub guests: Vec<PlainGuest>,
    pub cpus: Vec<PlainCpu>,
    pub rows: Vec<PlainRow>,
}

/// The run of a tree as a plain run.
fn run_to_c(tree: u64, run: Run) -> PlainRun
    ensures { (t : ℕ) → run_from_c t result ≡ (if tree == t then Some run else None) }
{
    PlainRun {
        tree,
        page: run.pages.first.0,
        count: run.pages.count,
        word: target_to_c(run.target),
    }
}

/// Adds the runs of a tree.
fn push_runs(told: &mut Vec<PlainRun>, tree: u64, runs: &[Run]) -> Result<(), AllocError>
    ensures said { OnOk result
        ((t : ℕ)
        → runs_from_c told.new.items t
        ≡ runs_from_c told.old.items t ++ (if tree == t then runs.now else [])) }
    ensures known { OnOk result (tree < 66 → AreKnown is_run told.old.items → AreKnown is_run told.new.items) }
{
    for i in 0..runs.len() {
        told.push(run_to_c(tree, runs[i]))?;
    }
    Ok(())
}

/// The table of a tree as a plain table.
fn table_to_c(tree: u64, table: Table) -> PlainTable
    ensures { (t : ℕ) → table_from_c t result ≡ (if tree == t then Some table else None) }
{
    PlainTable {
        tree,
        height: table.block.0,
        index: table.block.1,
        frame: table.frame,
    }
}

/// Adds the tables of a tree.
fn push_tables(told: &mut Vec<PlainTable>, tree: u64, tables: &[Table]) -> Result<(), AllocError>
    ensures said { OnOk result
        ((t : ℕ)
        → tables_from_c told.new.items t
        ≡ tables_from_c told.old.items t ++ (if tree == t then tables.now else [])) }
    ensures known { OnOk result
        (tree < 66 → AreKnown is_table told.old.items → AreKnown is_table told.new.items) }
{
    for i in 0..tables.len() {
        told.push(table_to_c(tree, tables[i]))?;
    }
    Ok(())
}

/// The free frame of a pool as a plain frame.
fn frame_to_c(pool: u64, frame: u64) -> PlainFrame
    ensures { (t : ℕ) → frame_from_c t result ≡ (if pool == t then Some frame else None) }
{
    PlainFrame { pool, frame }
}

/// Adds the free frames of a pool.
fn push_frames(told: &mut Vec<PlainFrame>, pool: u64, frames: &[u64]) -> Result<(), AllocError>
    ensures said { OnOk result
        ((t : ℕ)
        → frames_from_c told.new.items t
        ≡ frames_from_c told.old.items t ++ (if pool == t then frames.now else [])) }
    ensures known { OnOk result
        (1 ≤ pool
        → pool < 66
        → AreKnown is_frame told.old.items
        → AreKnown is_frame told.new.items) }
{
    for i in 0..frames.len() {
        told.push(frame_to_c(pool, frames[i]))?;
    }
    Ok(())
}

/// The runs of all trees.
fn runs_to_c(alloc: Global, lists: &GhostLists) -> Result<Vec<PlainRun>, AllocError>
    requires { length lists.now.guests.items ≡ 64 }
    ensures host { IfOk result (λ v. runs_from_c v.items 0 ≡ lists.now.shared.host.runs.items) }
    ensures hyp { IfOk result (λ v. runs_from_c v.items 1 ≡ lists.now.shared.hyp.runs.items) }
    ensures guests { IfOk result
        (λ v. ReportsGuests (runs_from_c v.items)
        (λ (g : GhostGuest). g.tree.runs.items) lists.now.guests.items) }
    ensures known { IfOk result (λ v. AreKnown is_run v.items) }
{
    let mut told = Vec::new(alloc);
    push_runs(&mut told, HOST, lists.shared.host.runs.as_slice())?;
    push_runs(&mut told, HYP, lists.shared.hyp.runs.as_slice())?;
    for i in 0..lists.guests.len() {
        push_runs(
            &mut told,
            GUESTS + i as u64,
            lists.guests[i].tree.runs.as_slice(),
        )?;
    }
    Ok(told)
}

/// The tables of all trees.
fn tables_to_c(alloc: Global, lists: &GhostLists) -> Result<Vec<PlainTable>, AllocError>
    requires { length lists.now.guests.items ≡ 64 }
    ensures host { IfOk result (λ v. tables_from_c v.items 0 ≡ lists.now.shared.host.tables.items) }
    ensures hyp { IfOk result (λ v. tables_from_c v.items 1 ≡ lists.now.shared.hyp.tables.items) }
    ensures guests { IfOk result
        (λ v. ReportsGuests (tables_from_c v.items)
        (λ (g : GhostGuest). g.tree.tables.items) lists.now.guests.items) }
    ensures known { IfOk result (λ v. AreKnown is_table v.items) }
{
    let mut told = Vec::new(alloc);
    push_tables(&mut told, HOST, lists.shared.host.tables.as_slice())?;
    push_tables(&mut told, HYP, lists.shared.hyp.tables.as_slice())?;
    for i in 0..lists.guests.len() {
        push_tables(
            &mut told,
            GUESTS + i as u64,
            lists.guests[i].tree.tables.as_slice(),
        )?;
    }
    Ok(told)
}

/// The free frames of all pools.
fn frames_to_c(alloc: Global, lists: &GhostLists) -> Result<Vec<PlainFrame>, AllocError>
    requires { length lists.now.guests.items ≡ 64 }
    ensures shared { IfOk result (λ v. frames_from_c v.items 1 ≡ lists.now.shared.free.items) }
    ensures guests { IfOk result
        (λ v. ReportsGuests (frames_from_c v.items)
        (λ (g : GhostGuest). g.free.items) lists.now.guests.items) }
    ensures known { IfOk result (λ v. AreKnown is_frame v.items) }
{
    let mut told = Vec::new(alloc);
    push_frames(&mut told, SHARED_POOL, lists.shared.free.as_slice())?;
    for i in 0..lists.guests.len() {
        push_frames(
            &mut told,
            GUESTS + i as u64,
            lists.guests[i].free.as_slice(),
        )?;
    }
    Ok(told)
}

/// The number of a slot's stage.
fn stand_number(stand: GhostStand) -> u64
    ensures said { stand_from_c result ≡ stand_in stand }
    ensures known { result < 4 }
{
    match stand {
        GhostStand::Vacant => 0,
        GhostStand::Reserved => 1,
        GhostStand::Opened => 2,
        GhostStand::Closing => 3,
    }
}

/// The number of a phase.
fn phase_number(phase: GhostPhase) -> u64
    ensures said { phase_from_c result ≡ phase_in phase }
    ensures known { result < 3 }
{
    match phase {
        GhostPhase::Empty => 0,
        GhostPhase::Live => 1,
        GhostPhase::Dying => 2,
    }
}

/// The number of a kind of VMs.
fn kind_number(kind: VmKind) -> u64
    ensures said { kind_from_c result ≡ kind }
    ensures known { result < 2 }
{
    match kind {
        VmKind::Plain => 0,
        VmKind::Protected => 1,
    }
}

/// The number of a stage.
fn stage_number(stage: Stage) -> u64
    ensures said { stage_from_c result ≡ stage }
    ensures known { result < 5 }
{
    match stage {
        Stage::Booked => 0,
        Stage::Installed => 1,
        Stage::Closing => 2,
        Stage::Dying => 3,
        Stage::Finished => 4,
    }
}

/// The slot of a number, but for its loaded vCPUs.
fn slot_to_c(number: u64, slot: &GhostSlot) -> PlainSlot
    ensures number { result.slot ≡ number }
    ensures known { number < 64 → IsTrue (is_slot result) }
    ensures head { slot_head_from_c result ≡ slot_head_in slot.now }
{
    PlainSlot {
        slot: number,
        stand: stand_number(slot.stand),
        generation: slot.generation,
        kind: kind_number(slot.kind),
        vcpus: slot.vcpus,
    }
}

/// All slots, but for their loaded vCPUs.
fn slots_to_c(alloc: Global, slots: &[GhostSlot]) -> Result<Vec<PlainSlot>, AllocError>
    ensures numbers { IfOk result
        (λ v. map (λ (s : PlainSlot). s.slot) v.items
        ≡ map (λ n. n) (range_with_len 0 (length slots.now))) }
    ensures heads { IfOk result (λ v. map slot_head_from_c v.items ≡ map slot_head_in slots.now) }
    ensures known { IfOk result (λ v. length slots.now ≤ 64 → AreKnown is_slot v.items) }
{
    let mut told = Vec::new(alloc);
    for i in 0..slots.len() {
        told.push(slot_to_c(i as u64, &slots[i]))?;
    }
    Ok(told)
}

/// Adds a load, if a CPU has the vCPU loaded.
fn push_load(
    told: &mut Vec<PlainLoad>,
    slot: u64,
    vcpu: u64,
    cpu: Option<u64>,
) -> Result<(), AllocError>
    ensures said { OnOk result
        (AreLoadsAdded told.old.items told.new.items
        (λ s k. if slot == s && vcpu == k then cpu else None)) }
    ensures known { OnOk result (slot < 64 → AreLoads told.old.items → AreLoads told.new.items) }
{
    if let Some(cpu) = cpu {
        told.push(PlainLoad { slot, vcpu, cpu })?;
    }
    Ok(())
}

/// Adds the loads of a slot's vCPUs.
fn push_loads(
    told: &mut Vec<PlainLoad>,
    slot: u64,
    loaded: &[Option<u64>],
) -> Result<(), AllocError>
    ensures said { OnOk result
        (AreLoadsAdded told.old.items told.new.items
        (λ s k. if slot == s then get_or loaded.now k None else None)) }
    ensures known { OnOk result (slot < 64 → AreLoads told.old.items → AreLoads told.new.items) }
{
    for i in 0..loaded.len() {
        push_load(told, slot, i as u64, loaded[i])?;
    }
    Ok(())
}

/// The loads of all slots.
fn loads_to_c(alloc: Global, slots: &[GhostSlot]) -> Result<Vec<PlainLoad>, AllocError>
    ensures said { IfOk result
        (λ v. (s k : ℕ)
        → loader_from_c v.items s k
        ≡ get_or
        (get_or (map (λ (x : GhostSlot). x.loaded.items) slots.now) s []) k None) }
    ensures known { IfOk result (λ v. length slots.now ≤ 64 → AreLoads v.items) }
{
    let mut told = Vec::new(alloc);
    for i in 0..slots.len() {
        push_loads(&mut told, i as u64, slots[i].loaded.as_slice())?;
    }
    Ok(told)
}

/// The guest of a slot, but for its tree and its pool.
fn guest_to_c(slot: u64, guest: &GhostGuest) -> PlainGuest
    ensures number { result.slot ≡ slot }
    ensures known { slot < 64 → IsTrue (is_guest result) }
    ensures head { guest_head_from_c result ≡ guest_head_in guest.now }
{
    PlainGuest {
        slot,
        phase: phase_number(guest.phase),
        generation: guest.generation,
        kind: kind_number(guest.kind),
    }
}

/// All guests, but for their trees and pools.
fn guests_to_c(alloc: Global, guests: &[GhostGuest]) -> Result<Vec<PlainGuest>, AllocError>
    ensures numbers { IfOk result
        (λ v. map (λ (g : PlainGuest). g.slot) v.items
        ≡ map (λ n. n) (range_with_len 0 (length guests.now))) }
    ensures heads { IfOk result (λ v. map guest_head_from_c v.items ≡ map guest_head_in guests.now) }
    ensures known { IfOk result (λ v. length guests.now ≤ 64 → AreKnown is_guest v.items) }
{
    let mut told = Vec::new(alloc);
    for i in 0..guests.len() {
        told.push(guest_to_c(i as u64, &guests[i]))?;
    }
    Ok(told)
}

/// A CPU's number, and nothing else of it.
fn idle_to_c(number: u64) -> PlainCpu
    ensures number { result.cpu ≡ number }
    ensures known { IsTrue (has_known_ticket result) }
    ensures loaded { loaded_from_c result ≡ None }
    ensures hand { hand_from_c result ≡ None }
    ensures ticket { ticket_from_c result ≡ None }
{
    PlainCpu {
        cpu: number,
        has_vcpu: 0,
        vcpu_slot: 0,
        vcpu_generation: 0,
        vcpu: 0,
        has_hand: 0,
        hand_first: 0,
        hand_count: 0,
        has_ticket: 0,
        ticket_slot: 0,
        ticket_generation: 0,
        ticket_kind: 0,
        ticket_stage: 0,
    }
}

/// What a CPU that says nothing has loaded.
fn with_loaded(told: PlainCpu, loaded: Option<Loaded>) -> PlainCpu
    requires { loaded_from_c told ≡ None }
    ensures number { result.cpu ≡ told.cpu }
    ensures known { IsTrue (has_known_ticket told) → IsTrue (has_known_ticket result) }
    ensures loaded { loaded_from_c result ≡ loaded }
    ensures hand { hand_from_c result ≡ hand_from_c told }
    ensures ticket { ticket_from_c result ≡ ticket_from_c told }
{
    match loaded {
        None => told,
        Some(loaded) => PlainCpu {
            has_vcpu: 1,
            vcpu_slot: loaded.vm.slot,
            vcpu_generation: loaded.vm.generation,
            vcpu: loaded.vcpu,
            ..told
        },
    }
}

/// The hand of a CPU that says none.
fn with_hand(told: PlainCpu, hand: Option<PageRange>) -> PlainCpu
    requires { hand_from_c told ≡ None }
    ensures number { result.cpu ≡ told.cpu }
    ensures known { IsTrue (has_known_ticket told) → IsTrue (has_known_ticket result) }
    ensures loaded { loaded_from_c result ≡ loaded_from_c told }
    ensures hand { hand_from_c result ≡ hand }
    ensures ticket { ticket_from_c result ≡ ticket_from_c told }
{
    match hand {
        None => told,
        Some(hand) => PlainCpu {
            has_hand: 1,
            hand_first: hand.first.0,
            hand_count: hand.count,
            ..told
        },
    }
}

/// The ticket of a CPU that says none.
fn with_ticket(told: PlainCpu, ticket: Option<Ticket>) -> PlainCpu
    requires { ticket_from_c told ≡ None }
    ensures number { result.cpu ≡ told.cpu }
    ensures known { IsTrue (has_known_ticket told) → IsTrue (has_known_ticket result) }
    ensures loaded { loaded_from_c result ≡ loaded_from_c told }
    ensures hand { hand_from_c result ≡ hand_from_c told }
    ensures ticket { ticket_from_c result ≡ ticket }
{
    match ticket {
        None => told,
        Some(ticket) => PlainCpu {
            has_ticket: 1,
            ticket_slot: ticket.vm.slot,
            ticket_generation: ticket.vm.generation,
            ticket_kind: kind_number(ticket.kind),
            ticket_stage: stage_number(ticket.stage),
            ..told
        },
    }
}

/// A CPU's own state.
fn cpu_to_c(number: u64, cpu: GhostCpu) -> PlainCpu
    ensures number { result.cpu ≡ number }
    ensures known { IsTrue (has_known_ticket result) }
    ensures said { cpu_from_c result ≡ cpu_in cpu }
{
    let loaded = with_loaded(idle_to_c(number), cpu.loaded);
    with_ticket(with_hand(loaded, cpu.hand), cpu.ticket)
}

/// All CPUs' own states.
fn cpus_to_c(alloc: Global, cpus: &[GhostCpu]) -> Result<Vec<PlainCpu>, AllocError>
    ensures numbers { IfOk result
        (λ v. map (λ (k : PlainCpu). k.cpu) v.items
        ≡ map (λ n. n) (range_with_len 0 (length cpus.now))) }
    ensures said { IfOk result (λ v. map cpu_from_c v.items ≡ map cpu_in cpus.now) }
    ensures known { IfOk result (λ v. AreKnown (is_cpu_well_formed (length cpus.now)) v.items) }
{
    let mut told = Vec::new(alloc);
    for i in 0..cpus.len() {
        told.push(cpu_to_c(i as u64, cpus[i]))?;
    }
    Ok(told)
}

/// A run of owner rows.
fn row_to_c(run: run_list::Run<Row>) -> PlainRow
    ensures { row_from_c result ≡ Some run }
{
    PlainRow {
        frame: run.pages.first.0,
        count: run.pages.count,
        owner: owner_to_c(run.value),
    }
}

/// All runs of owner rows.
fn rows_to_c(alloc: Global, runs: &[run_list::Run<Row>]) -> Result<Vec<PlainRow>, AllocError>
    ensures said { IfOk result (λ v. rows_from_c v.items ≡ runs.now) }
    ensures known { IfOk result (λ v. AreKnown is_row v.items) }
{
    let mut told = Vec::new(alloc);
    for i in 0..runs.len() {
        told.push(row_to_c(runs[i]))?;
    }
    Ok(told)
}

/// The lists that say a state: all 64 slots and guests and all CPUs, by number, and of each map the coarsest runs. The
/// free frames of each pool are listed as they are kept; read again, they are in order.
pub fn lists_of(alloc: Global, state: &Ghost) -> Result<PlainLists, AllocError>
    ensures said { IfOk result (λ p. contents_from_c (lists_owned p) ≡ in_pool_order (contents_in state.now)) }
    ensures told { IfOk result (λ p. AreWellFormed state.now.layout.config.cpus (lists_owned p)) }
{
    let lists = state.lists();
    let runs = runs_to_c(alloc, lists);
    let tables = tables_to_c(alloc, lists);
    let frames = frames_to_c(alloc, lists);
    let slots = slots_to_c(alloc, lists.vms.as_slice());
    let loads = loads_to_c(alloc, lists.vms.as_slice());
    let guests = guests_to_c(alloc, lists.guests.as_slice());
    let cpus = cpus_to_c(alloc, lists.cpus.as_slice());
    let rows = rows_to_c(alloc, lists.shared.rows.runs());
    let ((runs, (tables, frames)), ((slots, loads), (guests, (cpus, rows)))) = both(
        both(runs, both(tables, frames)),
        both(both(slots, loads), both(guests, both(cpus, rows))),
    )?;
    Ok(PlainLists {
        runs,
        tables,
        frames,
        slots,
        loads,
        guests,
        cpus,
        rows,
    })
}

impl PlainLists {
    ghost use Rattle.c_states.specs.Told.{lists_owned};
    ghost use Rattle.c_states.specs.Views.{lists_from_c};

    /// As a state that can be handed in.
    pub fn state(&self) -> PlainState<'_>
        ensures { lists_from_c result ≡ lists_owned self.now }
    {
        PlainState {
            runs: self.runs.as_slice(),
            tables: self.tables.as_slice(),
            frames: self.frames.as_slice(),
            slots: self.slots.as_slice(),
            loads: self.loads.as_slice(),
            guests: self.guests.as_slice(),
            cpus: self.cpus.as_slice(),
            rows: self.rows.as_slice(),
        }
    }
}
